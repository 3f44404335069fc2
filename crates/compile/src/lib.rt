// The expansion of a rotation into instructions.
//
// From `rotation_instructions` in crates/bicycle_compiler/src/compile.rs of the Bicycle Architecture Compiler. Changed:
// written anew in Rattle, with contracts; a native is given by its number, with the two matrices of the code, and what the
// original unwraps is refused by document 01's numbers. A native's own expansion is `native_measurement::implementation`.
//
// Copyright contributors to the Bicycle Architecture Compiler project. Licensed under the Apache License, Version 2.0
// (see NOTICE).
#![tactic(auto)]

ghost use Rattle.std.specs.Prelude.{◌≡◌, false};
ghost use Rattle.bicycle_common.specs.Letters.{is_i};
ghost use Rattle.pauli_string.specs.Strings.{qubits};
ghost use Rattle.measurement.specs.Matrices.{side};
ghost use Rattle.compile.specs.Expansions.{alone, rotation_by, rotation_instructions};

use bicycle_common::{BicycleISA, Pauli, Refusal, TwoBases};
use native_measurement::NativeNumber;
use pauli_string::PauliString;

// A measurement of the first pivot alone.
fn alone(p: Pauli) -> BicycleISA
    requires { is_i p ≡ false }
    ensures { result ≡ alone p }
{
    BicycleISA::Measure(TwoBases::new(p, Pauli::I).unwrap())
}

// Compile a native measurement, including conjugating state preparation and measurement. The string that the native
// measures is at hand.
#[tactic(auto, unfolding(crate::specs::Expansions::rotation_by))]
pub fn rotation_by_unchecked(
    n: NativeNumber,
    measures: PauliString,
) -> Result<[BicycleISA; 5], Refusal>
    ensures { result ≡ rotation_by qubits n.0 measures.0 }
{
    let pivot_pauli = measures.get_pauli_unchecked(0);
    let Some((p0, p1)) = pivot_pauli.anticommuting() else {
        return Err(Refusal::PivotIdentity);
    };
    let [a, b, c] = native_measurement::implementation(n)?;
    Ok([alone(p0), a, b, c, alone(p1)])
}

// The instructions of a rotation by native n: 3, then 11 or 10.
#[tactic(auto, unfolding(crate::specs::Expansions::rotation_instructions))]
pub fn rotation_instructions(
    mx: &[u8],
    my: &[u8],
    n: NativeNumber,
) -> Result<[BicycleISA; 5], Refusal>
    ensures { result ≡ rotation_instructions qubits side mx.now my.now n.0 }
{
    let measures = measurement::measures_bytes(mx, my, n)?;
    rotation_by_unchecked(n, measures)
}
