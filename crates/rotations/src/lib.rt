// The rotations of a pair, packed: the kept natives with pivot support, in ascending number, blanked.
//
// From `MeasurementTableBuilder::new` and `build` in crates/bicycle_cliffords/src/decomposition.rs of the Bicycle
// Architecture Compiler, where a map holds the base rotations. Changed: written anew in Rattle, with contracts; the map
// became two arrays, in ascending number of the natives, and a string is blanked where it is stored, not each time it is
// used. Every call here is an inner one between our crates.
//
// Copyright contributors to the Bicycle Architecture Compiler project. Licensed under the Apache License, Version 2.0
// (see NOTICE).
#![tactic(auto)]

ghost use Rattle.std.specs.Prelude.{◌≡◌, ℕ, ◌+◌, ◌<◌};
ghost use Rattle.pauli_string.specs.Strings.{qubits};
ghost use Rattle.natives.specs.Arrays.{at};
ghost use Rattle.table.specs.Entries.{is_rotation};
ghost use Rattle.rotations.specs.Packed.{Blanked, Packed};

use natives::Natives;
use pauli_string::PauliString;

// The rotations of a pair, in ascending number of their natives. Behind the count both arrays hold whatever is in range.
// Two arrays, and neither pairs nor an `ArrayVec`: a loop over the strings alone takes four at once (`moves::odds`).
#[derive(Drop)]
pub struct Rotations {
    // The string of each, blanked
    pub strings: [u32; 540],
    // The number of the native of each
    pub natives: [u32; 540],
    pub count: usize,
    pub ghost blanked: { Blanked qubits strings natives count },
}

// Whether native n is kept and has pivot support. A bare number, here and below: it is what a loop counts.
pub fn is_rotation_unchecked(natives: &Natives, n: usize) -> bool
    requires { n < 540 }
    ensures { result ≡ is_rotation qubits (at natives.now.strings) n }
{
    natives.kept[n] && PauliString(natives.strings[n]).has_pivot_support_unchecked()
}

// Native n, if it is a rotation, behind those that are packed.
fn pack_one(r: &mut Rotations, natives: &Natives, n: usize)
    requires below { n < 540 }
    requires packed { Packed qubits (at natives.now.strings) r.old.strings r.old.natives r.old.count n }
    ensures { Packed qubits (at natives.now.strings) r.new.strings r.new.natives r.new.count (n + 1) }
{
    if is_rotation_unchecked(natives, n) {
        let string = PauliString(natives.strings[n]).zero_pivot_unchecked();
        r.strings[r.count] = string.0;
        r.natives[r.count] = n as u32;
        r.count += 1;
    }
}

// No rotation yet.
fn packed_none() -> Rotations
    ensures { (f : ℕ → ℕ) → Packed qubits f result.strings result.natives result.count 0 }
{
    Rotations {
        strings: [0; 540],
        natives: [0; 540],
        count: 0,
    }
}

// All rotations of a pair.
pub fn pack_unchecked(natives: &Natives) -> Rotations
    ensures { Packed qubits (at natives.now.strings) result.strings result.natives result.count 540 }
{
    let mut r = packed_none();
    for n in 0..540 {
        pack_one(&mut r, natives, n);
    }
    r
}
