// Letters, pairs of letters, shift automorphisms, the two instructions that plans use, and the refusals.
//
// Follows crates/bicycle_common/src/lib.rs of the Bicycle Architecture Compiler. Changed: written anew in Rattle, with
// contracts; methods take `self` by value, a letter is read from a byte, `display` answers bytes beside `Display`, and what
// document 01 leaves out is not here. `Refusal` and `IsaText` are added.
//
// Copyright contributors to the Bicycle Architecture Compiler project. Licensed under the Apache License, Version 2.0
// (see NOTICE).
#![tactic(auto)]

ghost use Rattle.std.specs.Prelude.{◌≡◌, [], ◌∷◌, Some};
ghost use Rattle.bicycle_common.specs.Refusals.{number_of, needed_of};
ghost use Rattle.bicycle_common.specs.Letters.{flag, x_of, z_of, anticommuting_letters, capital, read_letter, bases_of};
ghost use Rattle.bicycle_common.specs.Automorphisms.{component, of_pair, inverse, product, is_identity, generators};
ghost use Rattle.bicycle_common.specs.Instructions.{instruction_shown, instruction_text};

use std::fmt;
use std::ops::Mul;

// Why a call refused: a case for each number of document 01, in its order.
#[derive(Clone, Copy)]
pub enum Refusal {
    // 1: the table's length is not 67,108,864
    TableLength,
    // 2: the queue's length is not 67,108,864
    QueueLength,
    // 3: a matrix number is over 1, or a matrix passed as bytes is not 36 long
    Matrix,
    // 4: a string is not below 4^12, or an input of `rotation` not below 2^22
    StringRange,
    // 5: the exact lookup of string 0, or a plan that measures 0
    Identity,
    // 6: a pivot-free lookup of a string with a pivot letter
    PivotSet,
    // 7: there is no entry
    NoEntry,
    // 8: a value on the walk is no valid entry
    BadEntry,
    // 9: the output is shorter than needed; the length needed
    Room(usize),
    // 10: a rotation whose pivot letter is the identity
    PivotIdentity,
    // 11: a native number is not below 540
    NativeRange,
    // 12: the plan input is not as laid down
    PlanInput,
    // 13: the text is not twelve letters, or the byte no letter
    NotLetters,
    // 14: a qubit is not below 12
    QubitRange,
}

impl Refusal {
    // Document 01's number, by arms: the language numbers no cases where one of them holds a value.
    pub fn number(self) -> u8
        ensures { result ≡ number_of self }
    {
        match self {
            Refusal::TableLength => 1,
            Refusal::QueueLength => 2,
            Refusal::Matrix => 3,
            Refusal::StringRange => 4,
            Refusal::Identity => 5,
            Refusal::PivotSet => 6,
            Refusal::NoEntry => 7,
            Refusal::BadEntry => 8,
            Refusal::Room(_) => 9,
            Refusal::PivotIdentity => 10,
            Refusal::NativeRange => 11,
            Refusal::PlanInput => 12,
            Refusal::NotLetters => 13,
            Refusal::QubitRange => 14,
        }
    }

    // The length that 9 carries, and 0 with every other number, as the C structs have it.
    pub fn needed(self) -> usize
        ensures { result ≡ needed_of self }
    {
        match self {
            Refusal::Room(length) => length,
            _ => 0,
        }
    }
}

#[derive(Clone, Copy, PartialEq, Eq)]
pub enum Pauli {
    I,
    X,
    Z,
    Y,
}

impl Pauli {
    // The two letters that anticommute with this one, in the order of the letters; every letter commutes with the identity.
    pub fn anticommuting(self) -> Option<(Self, Self)>
        ensures { result ≡ anticommuting_letters self }
    {
        match self {
            Pauli::I => None,
            Pauli::X => Some((Pauli::Z, Pauli::Y)),
            Pauli::Z => Some((Pauli::X, Pauli::Y)),
            Pauli::Y => Some((Pauli::X, Pauli::Z)),
        }
    }

    // Whether the letter has the X digit.
    pub fn has_x(self) -> bool
        ensures { flag result ≡ x_of self }
    {
        matches!(self, Pauli::X | Pauli::Y)
    }

    // Whether the letter has the Z digit.
    pub fn has_z(self) -> bool
        ensures { flag result ≡ z_of self }
    {
        matches!(self, Pauli::Z | Pauli::Y)
    }

    // The capital that stands for the letter.
    pub fn display(self) -> u8
        ensures { result ≡ capital self }
    {
        match self {
            Pauli::I => b'I',
            Pauli::X => b'X',
            Pauli::Z => b'Z',
            Pauli::Y => b'Y',
        }
    }
}

impl fmt::Display for Pauli {
    ghost output = { λ l. Some (capital l ∷ []) };

    fn fmt<W: fmt::Write>(&self, f: &mut fmt::Formatter<W>) -> fmt::Result {
        f.write_char(char::from(self.display()))
    }
}

impl TryFrom<u8> for Pauli {
    type Error = Refusal;

    ghost try_from_gives = { λ value answer. answer ≡ read_letter value };

    // The letter that a byte stands for, in either case, or 13.
    #[tactic(auto, unfolding(crate::specs::Letters::read_letter))]
    fn try_from(value: u8) -> Result<Self, Refusal> {
        match value {
            b'I' | b'i' => Ok(Pauli::I),
            b'X' | b'x' => Ok(Pauli::X),
            b'Z' | b'z' => Ok(Pauli::Z),
            b'Y' | b'y' => Ok(Pauli::Y),
            _ => Err(Refusal::NotLetters),
        }
    }
}

// A shift automorphism, an element of Z6 x Z6. Components are reduced where they are read, since `component` in the
// contracts speaks of any two numbers.
#[derive(Clone, Copy)]
pub struct AutomorphismData {
    x: u8,
    y: u8,
}

impl AutomorphismData {
    pub fn new(x: u8, y: u8) -> Self
        ensures { result ≡ of_pair x y }
    {
        Self { x: x % 6, y: y % 6 }
    }

    pub fn get_x(self) -> u8
        ensures { result ≡ component self.x }
    {
        self.x % 6
    }

    pub fn get_y(self) -> u8
        ensures { result ≡ component self.y }
    {
        self.y % 6
    }

    // How many generators of the architecture make this automorphism, by the original's cases in its order.
    #[tactic(auto, unfolding(crate::specs::Automorphisms::generators))]
    pub fn nr_generators(self) -> u64
        ensures { result ≡ generators (component self.x) (component self.y) }
    {
        match (self.get_x(), self.get_y()) {
            (0, 0) => 0,
            (1, 0) | (0, 1) | (5, 0) | (0, 5) => 1,
            (3, 3) | (0, 3) | (3, 0) => 2,
            (3, _) | (_, 3) => 1,
            _ => 2,
        }
    }

    // The inverse automorphism.
    pub fn inv(self) -> Self
        ensures { result ≡ inverse self }
    {
        AutomorphismData::new(6 - self.get_x(), 6 - self.get_y())
    }

    pub fn is_id(self) -> bool
        ensures { result ≡ is_identity self }
    {
        self.get_x() == 0 && self.get_y() == 0
    }
}

impl Mul for AutomorphismData {
    type Output = Self;

    ghost mul_gives = { λ a b answer. answer ≡ product a b };

    fn mul(self, rhs: Self) -> Self {
        AutomorphismData::new(self.get_x() + rhs.get_x(), self.get_y() + rhs.get_y())
    }
}

// Bases on the pivots of both halves, qubits 1 and 7 in the original's count, one of which is not the identity.
#[derive(Clone, Copy)]
pub struct TwoBases {
    p1: Pauli,
    p7: Pauli,
}

impl TwoBases {
    // None of two identities.
    pub fn new(p1: Pauli, p7: Pauli) -> Option<Self>
        ensures { result ≡ bases_of p1 p7 }
    {
        if p1 == Pauli::I && p7 == Pauli::I {
            return None;
        }
        Some(TwoBases { p1, p7 })
    }

    pub fn get_basis_1(self) -> Pauli
        ensures { result ≡ self.p1 }
    {
        self.p1
    }

    pub fn get_basis_7(self) -> Pauli
        ensures { result ≡ self.p7 }
    {
        self.p7
    }
}

// The instructions that plans use.
#[derive(Clone, Copy)]
pub enum BicycleISA {
    // A shift automorphism
    Automorphism(AutomorphismData),
    // A measurement of both pivots in the given bases
    Measure(TwoBases),
}

impl fmt::Display for BicycleISA {
    ghost output = { λ i. Some (instruction_text i) };

    // The text of an instruction, as `aut(4,5)` or `meas(X,Z)`.
    fn fmt<W: fmt::Write>(&self, f: &mut fmt::Formatter<W>) -> fmt::Result {
        match self {
            BicycleISA::Automorphism(data) => write!(f, "aut({},{})", data.get_x(), data.get_y()),
            BicycleISA::Measure(bases) => {
                write!(f, "meas({},{})", bases.get_basis_1(), bases.get_basis_7())
            }
        }
    }
}

// An instruction as text: `len` bytes, then zeros. Beside `Display`, since `instruction_shown` in the contract of `display`
// holds the text itself, where that of a `Display` speaks of writes that went well.
#[derive(Clone, Copy)]
pub struct IsaText {
    pub bytes: [u8; 9],
    pub len: usize,
}

impl BicycleISA {
    // The text of an instruction, as `aut(4,5)` or `meas(X,Z)`.
    pub fn display(self) -> IsaText
        ensures { result ≡ instruction_shown self }
    {
        match self {
            BicycleISA::Automorphism(data) => {
                let x = b'0' + data.get_x();
                let y = b'0' + data.get_y();
                let bytes = [b'a', b'u', b't', b'(', x, b',', y, b')', 0];
                IsaText { bytes, len: 8 }
            }
            BicycleISA::Measure(bases) => {
                let p1 = bases.get_basis_1().display();
                let p7 = bases.get_basis_7().display();
                let bytes = [b'm', b'e', b'a', b's', b'(', p1, b',', p7, b')'];
                IsaText { bytes, len: 9 }
            }
        }
    }
}
