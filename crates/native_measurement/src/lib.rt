// Native measurements: a measurement of both pivots, conjugated with an automorphism; and their numbers.
//
// Follows crates/bicycle_cliffords/src/native_measurement.rs of the Bicycle Architecture Compiler. Changed: written anew
// in Rattle, with contracts; the iterators over all natives became numbers, 0 to 539, in the order in which the original
// lists them, and the list itself is a definition; methods take `self` by value. `NativeNumber` and its conversions are
// added; the sampling and `Display` are left out.
//
// Copyright contributors to the Bicycle Architecture Compiler project. Licensed under the Apache License, Version 2.0
// (see NOTICE).
#![tactic(auto)]

ghost use Rattle.std.specs.Prelude.{◌≡◌, ◌<◌};
ghost use Rattle.bicycle_common.specs.Letters.{rank};
ghost use Rattle.native_measurement.specs.Natives.{of_rank, pair_number, number_of};
ghost use Rattle.native_measurement.specs.Answers.{native_at, implementation_at};

use bicycle_common::{AutomorphismData, BicycleISA, Pauli, Refusal, TwoBases};

// How many natives there are.
pub const NATIVES: u16 = 540;

// The number of a native measurement. It is no string: a string is a `PauliString`. Any number may stand in it: each public
// call refuses one that is no native's (11).
#[derive(Clone, Copy, PartialEq, Eq)]
pub struct NativeNumber(pub u16);

// A measurement that can be performed on the code by conjugating one base measurement with automorphisms.
#[derive(Clone, Copy)]
pub struct NativeMeasurement {
    pub logical: TwoBases,
    pub automorphism: AutomorphismData,
}

// The letter at a place of the order I, X, Z, Y. Each way is needed once, so `From` would say no more.
fn of_rank(place: u16) -> Pauli
    requires { place < 4 }
    ensures { result ≡ of_rank place }
{
    match place {
        0 => Pauli::I,
        1 => Pauli::X,
        2 => Pauli::Z,
        _ => Pauli::Y,
    }
}

// The place of a letter in that order.
#[tactic(auto, unfolding(bicycle_common::specs::Letters::rank))]
fn rank(p: Pauli) -> u16
    ensures { (result ≡ rank p) × (result < 4) }
{
    u16::from(p.has_x()) + 2 * u16::from(p.has_z())
}

// The number of two bases among the pairs of letters, which are counted from (I,X) on.
fn pair_number(bases: TwoBases) -> u16
    ensures { result ≡ pair_number bases }
{
    let pair = 4 * rank(bases.get_basis_1()) + rank(bases.get_basis_7());
    // No two bases are (I,I)
    pair.saturating_sub(1)
}

impl TryFrom<NativeNumber> for NativeMeasurement {
    type Error = Refusal;

    ghost try_from_gives = { λ n answer. answer ≡ native_at n.0 };

    // The native measurement of a number, or 11.
    fn try_from(n: NativeNumber) -> Result<Self, Refusal> {
        let i = n.0;
        if i < NATIVES {
            // The pairs of letters are counted from (I,X) on
            let pair = i % 15 + 1;
            let p1 = of_rank(pair / 4);
            let p7 = of_rank(pair % 4);
            let logical = TwoBases::new(p1, p7).unwrap();
            let a = (i / 15) as u8;
            let automorphism = AutomorphismData::new(a / 6, a % 6);
            Ok(NativeMeasurement {
                logical,
                automorphism,
            })
        } else {
            Err(Refusal::NativeRange)
        }
    }
}

impl From<NativeMeasurement> for NativeNumber {
    ghost from_gives = { λ native n. n ≡ record { 0 = number_of native } };

    // The number of the native measurement.
    #[tactic(auto, unfolding(crate::specs::Natives::number_of))]
    fn from(native: NativeMeasurement) -> NativeNumber {
        let a = 6 * native.automorphism.get_x() + native.automorphism.get_y();
        NativeNumber(15 * u16::from(a) + pair_number(native.logical))
    }
}

// The instructions of a native measurement: its automorphism, the measurement, the inverse automorphism; or 11.
pub fn implementation(n: NativeNumber) -> Result<[BicycleISA; 3], Refusal>
    ensures { result ≡ implementation_at n.0 }
{
    let native = NativeMeasurement::try_from(n)?;
    let automorphism = native.automorphism;
    let inverse = automorphism.inv();
    Ok([
        BicycleISA::Automorphism(automorphism),
        BicycleISA::Measure(native.logical),
        BicycleISA::Automorphism(inverse),
    ])
}
