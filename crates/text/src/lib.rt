// Text in lent buffers: bytes, decimal numbers and whatever has a text put there, and numbers read.
//
// Added: the original prints with the formatting of its language, whose contracts here say what was written only where each
// write was Ok, and never that it is. A call that ends in `_unchecked` is an inner one between our crates.
#![tactic(auto)]

ghost use Rattle.std.specs.Prelude.{◌≡◌, true, List, [], ◌∷◌, ℕ, ◌+◌, ◌<◌, ◌≤◌, ◌^◌, length};
ghost use Rattle.text.specs.Puts.{Put};
ghost use Rattle.text.specs.Fronts.{Written};
ghost use Rattle.text.specs.Decimals.{decimal, is_digit, all_digits, number_in, needless_zero, read_number};

use bicycle_common::Refusal;

// ---- written

// A lent buffer, and the place of the next byte. Bytes past the end are counted and not stored, so that the same calls on an
// empty buffer tell how long a text is.
#[derive(Drop)]
pub struct Out<'a> {
    pub bytes: &'a mut [u8],
    pub at: usize,
}

impl Out<'_> {
    pub fn put_byte_unchecked(&mut self, b: u8)
        requires { self.old.at + 1 < 2 ^ 64 }
        ensures { Put self.old (b ∷ []) self.new }
    {
        // By number: with `get_mut` the search does not close the proof
        if self.at < self.bytes.len() {
            self.bytes[self.at] = b;
        }
        self.at += 1;
    }

    pub fn put_bytes_unchecked(&mut self, s: &[u8])
        requires { self.old.at + length s.now < 2 ^ 64 }
        ensures { Put self.old s.now self.new }
    {
        // All at once: byte by byte through the place, a listing of 256 rotations took half as long again
        if self.at < self.bytes.len() {
            let n = s.len().min(self.bytes.len() - self.at);
            self.bytes[self.at..self.at + n].copy_from_slice(&s[..n]);
        }
        self.at += s.len();
    }

    // The digits of a number, first the highest.
    pub fn put_decimal_unchecked(&mut self, n: u16)
        requires { self.old.at + length (decimal n) < 2 ^ 64 }
        ensures { Put self.old (decimal n) self.new }
    {
        if 10 <= n {
            self.put_decimal_unchecked(n / 10);
        }
        // `as`: no `From` narrows, and that nothing is lost is proved
        self.put_byte_unchecked(b'0' + (n % 10) as u8);
    }
}

// What has a text.
pub trait Text {
    ghost text: { Self → List ℕ };

    fn put_unchecked(&self, out: &mut Out)
        requires { out.old.at + length (text self.now) < 2 ^ 64 }
        ensures { Put out.old (text self.now) out.new };
}

// Bytes are their own text.
impl<const N: usize> Text for [u8; N] {
    ghost text = { λ s. s };

    fn put_unchecked(&self, out: &mut Out) {
        out.put_bytes_unchecked(self);
    }
}

impl Text for u16 {
    ghost text = { decimal };

    fn put_unchecked(&self, out: &mut Out) {
        out.put_decimal_unchecked(*self);
    }
}

// How many bytes the text has.
fn length_of<T: Text>(t: &T) -> usize
    requires { length (T.text t.now) < 2 ^ 64 }
    ensures { result ≡ length (T.text t.now) }
{
    let mut none = [0u8; 0];
    let mut out = Out {
        bytes: &mut none,
        at: 0,
    };
    t.put_unchecked(&mut out);
    out.at
}

// The text in front of the buffer, or 9 and nothing written where there is no room for all of it.
pub fn write_unchecked<T: Text>(t: &T, out: &mut [u8]) -> Result<usize, Refusal>
    requires { length (T.text t.now) < 2 ^ 64 }
    ensures { Written (Ok (T.text t.now)) out.old result out.new }
{
    let needed = length_of(t);
    if out.len() < needed {
        return Err(Refusal::Room(needed));
    }
    let mut front = Out { bytes: out, at: 0 };
    t.put_unchecked(&mut front);
    Ok(front.at)
}

// ---- read

pub fn is_digit(b: u8) -> bool
    ensures { result ≡ is_digit b }
{
    b.is_ascii_digit()
}

fn has_needless_zero(s: &[u8]) -> bool
    ensures { result ≡ needless_zero s.now }
{
    matches!(s, [b'0', _, ..])
}

pub fn all_digits(s: &[u8]) -> bool
    ensures { result ≡ all_digits s.now }
{
    s.iter().all(|b| is_digit(*b))
}

// The number of at most three digits.
fn number_in(s: &[u8]) -> u16
    requires { (length s.now ≤ 3) × (all_digits s.now ≡ true) }
    ensures { result ≡ number_in s.now }
{
    let mut v = 0;
    for b in s {
        v = 10 * v + u16::from(*b - b'0');
    }
    v
}

// The number that the whole of s stands for: one to three digits, and no needless zero.
#[tactic(auto, unfolding(crate::specs::Decimals::is_number))]
pub fn read_number(s: &[u8]) -> Option<u16>
    ensures { result ≡ read_number s.now }
{
    if matches!(s.len(), 1..=3) && !has_needless_zero(s) && all_digits(s) {
        return Some(number_in(s));
    }
    None
}
