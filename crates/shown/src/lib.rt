// Answers as text, for the programs that are held to what they write: what an answer holds, or `refused=` and document 01's number.
// No function that writes gives an error but that of a write that failed; what it wrote before may stand.
#![tactic(auto)]

ghost use Rattle.std.specs.Prelude.{◌≡◌, length, map};
ghost use Rattle.std.specs.Io.{ReadsAtMost};
ghost use Rattle.bicycle_common.specs.Letters.{capital, flag};
ghost use Rattle.pauli_string.specs.Strings.{qubits};
ghost use Rattle.pauli_string.specs.Answers.{to_letters, printed};
ghost use Rattle.native_measurement.specs.Answers.{implementation_at};
ghost use Rattle.measurement.specs.Matrices.{side};
ghost use Rattle.measurement.specs.Answers.{of_answer};
ghost use Rattle.compile.specs.Expansions.{rotation_instructions};

use bicycle_common::{BicycleISA, Pauli, Refusal};
use native_measurement::NativeNumber;
use pauli_string::PauliString;
use std::fmt::{Display, Formatter};
use std::io::Read;
use std::{fmt, io};

// ---- what prints

// An answer: what it holds, or the refusal.
#[derive(Clone, Copy)]
pub struct Shown<T>(pub Result<T, Refusal>);

impl<T: Display> Display for Shown<T> {
    fn fmt<W: fmt::Write>(&self, f: &mut Formatter<W>) -> fmt::Result {
        match &self.0 {
            Ok(value) => write!(f, "{value}"),
            Err(r) => write!(f, "{}", Refused(*r)),
        }
    }
}

// A refusal: document 01's number, and the length needed where there is one.
#[derive(Clone, Copy)]
pub struct Refused(pub Refusal);

impl Display for Refused {
    fn fmt<W: fmt::Write>(&self, f: &mut Formatter<W>) -> fmt::Result {
        write!(f, "refused={}", self.0.number())?;
        // 0 where there is none, as `needed` answers it
        match self.0.needed() {
            0 => Ok(()),
            needed => write!(f, " needed={needed}"),
        }
    }
}

// Twelve letters, by their capitals.
#[derive(Clone, Copy)]
pub struct Capitals([u8; 12]);

impl Display for Capitals {
    fn fmt<W: fmt::Write>(&self, f: &mut Formatter<W>) -> fmt::Result {
        for b in &self.0 {
            f.write_char(char::from(*b))?;
        }
        Ok(())
    }
}

// Instructions, a space between each and the next, by `Display`, where `display::Expansion` puts bytes.
#[derive(Clone, Copy)]
pub struct Instructions<const N: usize>([BicycleISA; N]);

impl<const N: usize> Display for Instructions<N> {
    fn fmt<W: fmt::Write>(&self, f: &mut Formatter<W>) -> fmt::Result {
        for (i, isa) in self.0.iter().enumerate() {
            if i != 0 {
                f.write_char(' ')?;
            }
            write!(f, "{isa}")?;
        }
        Ok(())
    }
}

// ---- of answers

// True as 1, false as 0.
pub fn flag(answer: Result<bool, Refusal>) -> Shown<u8>
    ensures { result.0 ≡ of_answer flag answer }
{
    Shown(answer.map(u8::from))
}

// The number of a string.
pub fn string(answer: Result<PauliString, Refusal>) -> Shown<u32>
    ensures { result.0 ≡ of_answer (λ (p : PauliString). p.0) answer }
{
    Shown(answer.map(|p| p.0))
}

pub fn text(p: PauliString) -> Shown<Capitals>
    ensures { of_answer (λ (c : Capitals). c.0) result.0 ≡ printed qubits p.0 }
{
    Shown(p.display().map(Capitals))
}

fn capitals_of(letters: [Pauli; 12]) -> Capitals
    ensures { result.0 ≡ map capital letters }
{
    Capitals(letters.map(|l| l.display()))
}

// The letters of a string, qubit 0 first.
pub fn letters(p: PauliString) -> Shown<Capitals>
    ensures { of_answer (λ (c : Capitals). c.0) result.0 ≡ of_answer (map capital) (to_letters qubits p.0) }
{
    Shown(p.letters().map(capitals_of))
}

// The expansion of a native.
pub fn native(n: NativeNumber) -> Shown<Instructions<3>>
    ensures { of_answer (λ (i : Instructions 3). i.0) result.0 ≡ implementation_at n.0 }
{
    Shown(native_measurement::implementation(n).map(Instructions))
}

// The expansion of a rotation by a native.
pub fn rotation(mx: &[u8], my: &[u8], n: NativeNumber) -> Shown<Instructions<5>>
    ensures { of_answer (λ (i : Instructions 5). i.0) result.0 ≡ rotation_instructions qubits side mx.now my.now n.0 }
{
    Shown(compile::rotation_instructions(mx, my, n).map(Instructions))
}

// ---- of plans

// Reads until the buffer is full or the input ends, and answers how many bytes stand at its front. An error is of a read that
// failed, and the buffer's front then holds what was read before.
pub fn read_full(input: &mut impl Read, buffer: &mut [u8]) -> io::Result<usize>
    ensures front { ReadsAtMost result buffer.new }
    ensures kept { length buffer.new ≡ length buffer.old }
{
    let mut done = 0;
    // No `for`: the place moves by what a read gave, and `Read` fills no lent buffer as far as the input goes
    while done < buffer.len() {
        let n = input.read(&mut buffer[done..])?;
        if n == 0 {
            break;
        }
        done += n;
    }
    Ok(done)
}

// Writes the listing of a plan, or its refusal.
pub fn plan(rt: &impl Print, input: &[u8]) -> io::Result<()> {
    let mut out = [0u8; 65536];
    match listing::list(input, &mut out) {
        Ok(length) => rt.write_all(&out[..length]),
        Err(r) => print!(rt; "{}", Refused(r)),
    }
}
