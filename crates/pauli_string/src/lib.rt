// Strings of twelve Paulis: products, commutation, conjugation, the pivot, letters and text.
//
// Follows crates/bicycle_cliffords/src/pauli_string.rs of the Bicycle Architecture Compiler. Changed: written anew in
// Rattle, with contracts; every public call tests its arguments and refuses by document 01's numbers, so that the product
// and `Display` are plain functions; the indexing by bit, the conversion of 24 numbers and the sampling are left out.
// `from_text` is added: the original reads single letters. A call that ends in `_unchecked` is an inner one between our
// crates: it does the same work without the tests.
//
// Copyright contributors to the Bicycle Architecture Compiler project. Licensed under the Apache License, Version 2.0
// (see NOTICE).
#![tactic(auto)]

ghost use Rattle.std.specs.Prelude.{◌≡◌, ◌+◌, ◌*◌, ◌<◌, ◌^◌, eqb};
ghost use Rattle.bicycle_common.specs.Letters.{flag};
ghost use Rattle.pauli_string.specs.Strings.{qubits, bit, letter_at, commute, conj, pivot_bits, blank, has_pivot, has_logical, rotate, logical_bits, set_bit, set_letter};
ghost use Rattle.pauli_string.specs.Text.{letters, string_of, text};
ghost use Rattle.pauli_string.specs.Answers.{string_at, qubit_at, mul, commutes_with, conjugate_with, pivot_part, zero_pivot, logical_part, pivot_support, logical_support, non_trivial_support, rotation, get_pauli, set_pauli, to_letters, printed, read_text};

use bicycle_common::{Pauli, Refusal};
use std::array;

// A string of twelve Paulis. Bit i is X on qubit i, bit 12 + i is Z, both are Y. Qubit 0 is the pivot. Any number may stand
// in it: each public call refuses one that is no string (4).
#[derive(Clone, Copy, PartialEq, Eq)]
pub struct PauliString(pub u32);

// 4^12: strings are below it.
pub const STRINGS: u32 = 1 << 24;

// 4^11: inputs of `rotation` are below it.
pub const ROTATIONS: u32 = 1 << 22;

pub const ID: PauliString = PauliString(0);

pub const X1: PauliString = PauliString(1);

pub const Z1: PauliString = PauliString(1 << 12);

pub const Y1: PauliString = PauliString(1 | (1 << 12));

// The string with the letter p on the pivot alone. It says which letter each constant is, so that a wrong one is refused.
fn on_pivot(p: Pauli) -> PauliString
    ensures { result.0 ≡ set_letter qubits 0 0 p }
{
    match p {
        Pauli::I => ID,
        Pauli::X => X1,
        Pauli::Z => Z1,
        Pauli::Y => Y1,
    }
}

// By shifts: the library reads no digit of a number by its place.
fn get_bit(n: u32, index: usize) -> bool
    requires { index < 32 }
    ensures { result ≡ eqb (bit n index) 1 }
{
    (n >> index) & 1 == 1
}

fn set_bit(n: u32, index: usize, value: bool) -> u32
    requires { index < 32 }
    ensures { result ≡ set_bit n index (flag value) }
{
    if value {
        n | 1 << index
    } else {
        n & !(1 << index)
    }
}

// One digit more at the low end.
fn push(n: u32, b: bool) -> u32
    requires { n < 2 ^ 12 }
    ensures { result ≡ n * 2 + flag b }
{
    2 * n + u32::from(b)
}

// The qubit itself, or 14 where the number is none.
fn checked_qubit(i: usize) -> Result<usize, Refusal>
    ensures { result ≡ qubit_at qubits i (Ok i) }
{
    if i < 12 {
        Ok(i)
    } else {
        Err(Refusal::QubitRange)
    }
}

impl PauliString {
    // The string itself, or 4 where the number is none.
    fn checked(self) -> Result<PauliString, Refusal>
        ensures { result ≡ string_at qubits self.0 (Ok self) }
    {
        if self.0 < STRINGS {
            Ok(self)
        } else {
            Err(Refusal::StringRange)
        }
    }

    // The string with the pivot blank whose other letters have the digits `bits`: X in bits 0 to 10, Z in bits 11 to 21.
    pub fn rotation(bits: u32) -> Result<PauliString, Refusal>
        ensures { result ≡ rotation qubits bits }
    {
        if bits < ROTATIONS {
            let z_bits = bits >> 11;
            let x_bits = bits & ((1 << 11) - 1);
            // Skip the pivot bits
            Ok(PauliString((z_bits << 13) | (x_bits << 1)))
        } else {
            Err(Refusal::StringRange)
        }
    }

    pub fn get_pauli_unchecked(self, i: usize) -> Pauli
        requires { i < qubits }
        ensures { result ≡ letter_at qubits self.0 i }
    {
        match (get_bit(self.0, i), get_bit(self.0, i + 12)) {
            (false, false) => Pauli::I,
            (true, false) => Pauli::X,
            (false, true) => Pauli::Z,
            (true, true) => Pauli::Y,
        }
    }

    // The letter on qubit i.
    pub fn get_pauli(self, i: usize) -> Result<Pauli, Refusal>
        ensures { result ≡ get_pauli qubits self.0 i }
    {
        Ok(self.checked()?.get_pauli_unchecked(checked_qubit(i)?))
    }

    pub fn set_pauli_unchecked(self, i: usize, p: Pauli) -> PauliString
        requires { i < qubits }
        ensures { result.0 ≡ set_letter qubits self.0 i p }
    {
        let x = set_bit(self.0, i, p.has_x());
        PauliString(set_bit(x, i + 12, p.has_z()))
    }

    // The string with the letter p on qubit i.
    pub fn set_pauli(self, i: usize, p: Pauli) -> Result<PauliString, Refusal>
        ensures { result ≡ set_pauli qubits self.0 i p }
    {
        Ok(self.checked()?.set_pauli_unchecked(checked_qubit(i)?, p))
    }

    pub fn has_pivot_support_unchecked(self) -> bool
        ensures { result ≡ has_pivot qubits self.0 }
    {
        self.pivot_bits_unchecked().0 != 0
    }

    // Whether a letter stands on the pivot.
    pub fn has_pivot_support(self) -> Result<bool, Refusal>
        ensures { result ≡ pivot_support qubits self.0 }
    {
        Ok(self.checked()?.has_pivot_support_unchecked())
    }

    fn has_logical_support_unchecked(self) -> bool
        requires { self.0 < 4 ^ qubits }
        ensures { result ≡ has_logical qubits self.0 }
    {
        self.logical_bits_unchecked().0 != 0
    }

    // Whether a letter stands on a qubit from 1 to 11.
    pub fn has_logical_support(self) -> Result<bool, Refusal>
        ensures { result ≡ logical_support qubits self.0 }
    {
        Ok(self.checked()?.has_logical_support_unchecked())
    }

    // Whether letters stand on the pivot and on another qubit.
    pub fn non_trivial_support(self) -> Result<bool, Refusal>
        ensures { result ≡ non_trivial_support qubits self.0 }
    {
        let p = self.checked()?;
        Ok(p.has_pivot_support_unchecked() && p.has_logical_support_unchecked())
    }

    pub fn commutes_with_unchecked(self, rhs: PauliString) -> bool
        requires { (self.0 < 4 ^ qubits) × (rhs.0 < 4 ^ qubits) }
        ensures { result ≡ commute qubits self.0 rhs.0 }
    {
        let self_z = self.0 >> 12;
        let self_x = self.0 ^ (self_z << 12);
        let self_transpose = self_x << 12 | self_z;
        (self_transpose & rhs.0).count_ones() % 2 == 0
    }

    // Whether the strings commute.
    pub fn commutes_with(self, rhs: PauliString) -> Result<bool, Refusal>
        ensures { result ≡ commutes_with qubits self.0 rhs.0 }
    {
        Ok(self.checked()?.commutes_with_unchecked(rhs.checked()?))
    }

    pub fn conjugate_with_unchecked(self, rhs: PauliString) -> PauliString
        requires { (self.0 < 4 ^ qubits) × (rhs.0 < 4 ^ qubits) }
        ensures { result.0 ≡ conj qubits self.0 rhs.0 }
    {
        if self.commutes_with_unchecked(rhs) {
            self
        } else {
            PauliString(self.0 ^ rhs.0)
        }
    }

    // The string, multiplied by rhs if the two anticommute.
    pub fn conjugate_with(self, rhs: PauliString) -> Result<PauliString, Refusal>
        ensures { result ≡ conjugate_with qubits self.0 rhs.0 }
    {
        Ok(self.checked()?.conjugate_with_unchecked(rhs.checked()?))
    }

    // The string after a rotation by rhs: conjugated with it, its pivot blanked.
    pub fn rotate_unchecked(self, rhs: PauliString) -> PauliString
        requires { (self.0 < 4 ^ qubits) × (rhs.0 < 4 ^ qubits) }
        ensures { result.0 ≡ rotate qubits self.0 rhs.0 }
    {
        let blanked = rhs.zero_pivot_unchecked();
        self.conjugate_with_unchecked(blanked)
    }

    fn pivot_bits_unchecked(self) -> PauliString
        ensures { result.0 ≡ pivot_bits qubits self.0 }
    {
        PauliString(self.0 & Y1.0)
    }

    // The letter on the pivot, with the identity elsewhere.
    pub fn pivot_bits(self) -> Result<PauliString, Refusal>
        ensures { result ≡ pivot_part qubits self.0 }
    {
        Ok(self.checked()?.pivot_bits_unchecked())
    }

    pub fn zero_pivot_unchecked(self) -> PauliString
        ensures { result.0 ≡ blank qubits self.0 }
    {
        PauliString(self.0 & !(1 << 12 | 1))
    }

    // The string with the identity on the pivot.
    pub fn zero_pivot(self) -> Result<PauliString, Refusal>
        ensures { result ≡ zero_pivot qubits self.0 }
    {
        Ok(self.checked()?.zero_pivot_unchecked())
    }

    fn logical_bits_unchecked(self) -> PauliString
        ensures { result.0 ≡ logical_bits qubits self.0 }
    {
        let z = self.0 >> 13;
        let x = (self.0 & ((1 << 12) - 1)) >> 1;
        let bits = z << 11 | x;
        PauliString(bits)
    }

    // The digits of the letters on qubits 1 to 11, as `rotation` takes them.
    pub fn logical_bits(self) -> Result<PauliString, Refusal>
        ensures { result ≡ logical_part qubits self.0 }
    {
        Ok(self.checked()?.logical_bits_unchecked())
    }

    // The product, its sign left out.
    pub fn mul(self, rhs: PauliString) -> Result<PauliString, Refusal>
        ensures { result ≡ mul qubits self.0 rhs.0 }
    {
        Ok(PauliString(self.checked()?.0 ^ rhs.checked()?.0))
    }

    // The string of twelve letters, qubit 0 first: the order of text backwards. No `From`: the name says which way they run.
    pub fn from_letters(value: [Pauli; 12]) -> PauliString
        ensures { result.0 ≡ string_of qubits value }
    {
        let mut x: u32 = 0;
        let mut z: u32 = 0;
        // By number: that twelve digits fit is known of the number, not of what a reversed iterator gave
        for i in (0..12).rev() {
            let pauli = value[i];
            x = push(x, pauli.has_x());
            z = push(z, pauli.has_z());
        }
        PauliString(z << 12 | x)
    }

    fn letters_unchecked(self) -> [Pauli; 12]
        ensures { result ≡ letters qubits self.0 }
    {
        array::from_fn(|i| self.get_pauli_unchecked(i))
    }

    // The letters of the string, qubit 0 first: the order of text backwards.
    pub fn letters(self) -> Result<[Pauli; 12], Refusal>
        ensures { result ≡ to_letters qubits self.0 }
    {
        Ok(self.checked()?.letters_unchecked())
    }

    fn display_unchecked(self) -> [u8; 12]
        ensures { result ≡ text qubits self.0 }
    {
        array::from_fn(|i| self.get_pauli_unchecked(11 - i).display())
    }

    // The text of the string, qubit 11 first and qubit 0 last, in capitals. It is data, and is never mirrored.
    pub fn display(self) -> Result<[u8; 12], Refusal>
        ensures { result ≡ printed qubits self.0 }
    {
        Ok(self.checked()?.display_unchecked())
    }

    // The string that twelve letters of text spell, qubit 11 first and qubit 0 last, in either case. Nothing in a text says
    // its direction: backwards it is read too, and is another string unless the letters form a palindrome.
    // No `TryFrom`: README and the C function `bicycle_from_text` have the name.
    pub fn from_text(text: &[u8]) -> Result<PauliString, Refusal>
        ensures { result ≡ read_text qubits text.now }
    {
        if text.len() != 12 {
            return Err(Refusal::NotLetters);
        }
        let mut letters = [Pauli::I; 12];
        for (i, byte) in text.iter().enumerate() {
            letters[11 - i] = Pauli::try_from(*byte)?;
        }
        Ok(PauliString::from_letters(letters))
    }
}
