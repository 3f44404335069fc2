// What packed rotations move a string to.
//
// From `MeasurementTableBuilder::build` in crates/bicycle_cliffords/src/decomposition.rs of the Bicycle Architecture
// Compiler, where a string is conjugated with each base rotation in turn. Changed: written anew in Rattle, with contracts;
// the rotations that move the string are found first, all of them, by the digits that they have in common with it. Every
// call here is an inner one between our crates.
//
// Copyright contributors to the Bicycle Architecture Compiler project. Licensed under the Apache License, Version 2.0
// (see NOTICE).
#![tactic(auto)]

ghost use Rattle.std.specs.Prelude.{◌≡◌, ℕ, ◌+◌, ◌*◌, ◌/◌, ◌%◌, ◌^◌, ◌<◌, ◌≤◌, length};
ghost use Rattle.std.specs.Int.Bits.{bit_and};
ghost use Rattle.std.specs.Int.Count.{ones};
ghost use Rattle.pauli_string.specs.Strings.{qubits};
ghost use Rattle.native_measurement.specs.Natives.{natives};
ghost use Rattle.natives.specs.Arrays.{at};
ghost use Rattle.moves.specs.Moves.{Scratch, Odds, Gathered};

use rotations::Rotations;

// The strings to which single rotations move one string, in front, and the numbers of the rotations' natives. Two arrays, as
// in `Rotations`.
#[derive(Drop)]
pub struct Moved {
    pub strings: [u32; 540],
    pub natives: [u32; 540],
    pub count: usize,
    pub ghost few: { count ≤ 540 },
    pub ghost scratch: { Scratch strings natives },
}

// X and Z digits exchanged: once for all rotations, where `PauliString::commutes_with_unchecked` does it for each pair.
fn transposed(p: u32) -> u32
    requires { p < 4 ^ qubits }
    ensures { result ≡ p % 2 ^ qubits * 2 ^ qubits + p / 2 ^ qubits }
{
    p % 4096 * 4096 + p / 4096
}

// 1 where the string of which t is the transposed anticommutes with r, else 0. The digits in common are folded: without an
// instruction for it the count of ones takes twice as long.
fn odd(t: u32, r: u32) -> u32
    requires { r < 4 ^ qubits }
    ensures { result ≡ ones (bit_and t r) % 2 }
{
    let a = t & r;
    let b = a ^ (a >> 12);
    let c = b ^ (b >> 6);
    let d = c ^ (c >> 3);
    (d ^ (d >> 1) ^ (d >> 2)) % 2
}

// The same for each rotation, in gs: a loop of its own, since it takes four at once. By index: of what a zip over `iter_mut`
// writes a proof knows nothing.
fn odds(t: u32, r: &Rotations, gs: &mut [u32; 540])
    ensures { (length gs.new ≡ natives) × Odds t r.now.strings 0 r.now.count gs.new }
{
    for i in 0..r.count {
        gs[i] = odd(t, r.strings[i]);
    }
}

impl Moved {
    // The strings to which one rotation moves p. Every rotation is stored, and the next takes its place where it commutes:
    // a branch would be a coin toss. By index: what is read at i is written over at k.
    pub fn gather_unchecked(&mut self, p: u32, r: &Rotations)
        requires { p < 4 ^ qubits }
        ensures { Gathered qubits p r.now.strings r.now.natives r.now.count self.new.strings self.new.natives self.new.count }
    {
        odds(transposed(p), r, &mut self.natives);
        let mut k: usize = 0;
        for i in 0..r.count {
            let moves = self.natives[i] as usize;
            self.strings[k] = p ^ r.strings[i];
            self.natives[k] = r.natives[i];
            k += moves;
        }
        self.count = k;
    }
}
