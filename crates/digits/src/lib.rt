// Binary digits in bytes: one for each string, or one for each bucket of strings, which is the filter of the search.
//
// Added: the original has neither. A filter shows of most strings that no rotation leads them to a string without an entry.
// When it is filled makes a difference to the time alone, and the contracts say nothing of that. Every call here is an inner
// one between our crates.
//
// Copyright contributors to the Bicycle Architecture Compiler project. Licensed under the Apache License, Version 2.0
// (see NOTICE).
#![tactic(auto)]

ghost use Rattle.std.specs.Prelude.{◌≡◌, ◌/◌, ◌^◌, ◌<◌, ◌≤◌, eqb, length};
ghost use Rattle.pauli_string.specs.Strings.{qubits};
ghost use Rattle.table.specs.Bytes.{entry};
ghost use Rattle.digits.specs.Digits.{digit, one};
ghost use Rattle.digits.specs.Filter.{buckets, place, bucket, Covers, Rises, Marked};

use pauli_string::{PauliString, STRINGS};
use rotations::Rotations;
use table::Table;

// The filter is filled when this many strings are found, and again after this many turns; chosen by measuring
const FOUND: u32 = 16700000;

const TURNS: u32 = 131072;

// Whether binary digit b of the bytes is 1.
pub fn is_one_unchecked(bytes: &[u8], b: usize) -> bool
    requires { b / 8 < length bytes.now }
    ensures { result ≡ eqb (digit bytes.now b) 1 }
{
    (bytes[b / 8] >> (b % 8)) % 2 == 1
}

// Binary digit b of the bytes becomes 1.
pub fn set_one_unchecked(bytes: &mut [u8], b: usize)
    requires { b / 8 < length bytes.old }
    ensures { bytes.new ≡ one bytes.old b }
{
    bytes[b / 8] |= 1 << (b % 8);
}

// ---- the filter

// The number of p's bucket: p without digits 6, 18 and 23, chosen by measuring. A bucket is a bit, so that there are many.
fn place(p: u32) -> usize
    ensures { (result ≡ place p) × (result < 2097152) }
{
    (p % 64 + p / 128 % 2048 * 64 + p / 524288 % 16 * 131072) as usize
}

// A digit for each bucket, and the turns since they were filled.
#[derive(Drop)]
pub struct Filter {
    pub digits: [u8; 262144],
    pub since: u32,
    pub ghost long: { length digits ≡ buckets },
    pub ghost low: { since ≤ 131072 },
}

impl Filter {
    // Whether the bucket of p is 0.
    pub fn is_clear_unchecked(&self, p: u32) -> bool
        ensures { result ≡ eqb (bucket self.now.digits p) 0 }
    {
        !is_one_unchecked(&self.digits, place(p))
    }

    // Bucket p becomes 1. No other falls (`Rises`): that is told at each step, since the marks of earlier steps last by it.
    fn set(&mut self, p: u32)
        ensures { Rises self.old.digits self.new.digits × (bucket self.new.digits p ≡ 1) }
    {
        set_one_unchecked(&mut self.digits, place(p));
    }

    // The bucket of each string that leads to z.
    fn mark(&mut self, z: u32, r: &Rotations)
        requires { z < 4 ^ qubits }
        ensures { Rises self.old.digits self.new.digits × Marked qubits r.now.strings self.new.digits z r.now.count }
    {
        for string in &r.strings[..r.count] {
            let x = PauliString(z).rotate_unchecked(PauliString(*string));
            self.set(x.0);
        }
    }

    // The same, if z is without an entry.
    fn mark_new(&mut self, table: Table<'_>, z: u32, r: &Rotations)
        requires { z < 4 ^ qubits }
        ensures { Rises self.old.digits self.new.digits × (entry table.entry.bytes.now z ≡ 0 → Marked qubits r.now.strings self.new.digits z r.now.count) }
    {
        if table.entry_unchecked(z) == 0 {
            self.mark(z, r);
        }
    }

    // The filter anew: a bucket is 0 where none of its strings leads to a string without an entry.
    fn fill(&mut self, table: Table<'_>, r: &Rotations)
        ensures { Covers qubits r.now.strings r.now.count self.new.digits table.entry.bytes.now }
    {
        self.digits.fill(0);
        for z in 0..STRINGS {
            self.mark_new(table, z, r);
        }
        self.since = 0;
    }

    // Now and then, once few strings are left, the filter is filled. When that is done makes a difference to the time alone.
    pub fn refresh_unchecked(&mut self, table: Table<'_>, r: &Rotations, p: u32, count: u32)
        requires { Covers qubits r.now.strings r.now.count self.old.digits table.bytes.now }
        ensures { Covers qubits r.now.strings r.now.count self.new.digits table.entry.bytes.now }
    {
        if self.is_clear_unchecked(p) {
            return;
        }
        if self.since < TURNS {
            self.since += 1;
        } else if FOUND <= count {
            self.fill(table, r);
        }
    }
}
