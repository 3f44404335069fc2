// A view that holds a lent table and serves reads: each is one call of `table` on the slice held.
//
// From `CompleteMeasurementTable`, `get`, `len`, `is_empty` and `cost` in crates/bicycle_cliffords/src/decomposition.rs of
// the Bicycle Architecture Compiler. Changed: written anew in Rattle, with contracts; the view owns no table but holds
// lent bytes, so that each read tests their length, and the string; `get` became `value`, `has_entry` and `entry`.
//
// Copyright contributors to the Bicycle Architecture Compiler project. Licensed under the Apache License, Version 2.0
// (see NOTICE).
#![tactic(auto)]

ghost use Rattle.std.specs.Prelude.{◌≡◌};
ghost use Rattle.pauli_string.specs.Strings.{qubits};
ghost use Rattle.table.specs.Answers.{is_empty, len_of, value_at, has_entry_at, depth_at, cost_at};
ghost use Rattle.view.specs.Answers.{entry_at};

use bicycle_common::Refusal;
use pauli_string::PauliString;

// The view. It is Copy: a read takes it by value.
#[derive(Clone, Copy)]
pub struct MeasurementTable<'a> {
    table: &'a [u8],
}

// Its calls are those of `table`, by their names: README names both, as the original has the type.
impl<'a> MeasurementTable<'a> {
    pub fn new(table: &'a [u8]) -> MeasurementTable<'a>
        ensures { result.table ≡ table.entry }
    {
        MeasurementTable { table }
    }

    pub fn is_empty(self) -> Result<bool, Refusal>
        ensures { result ≡ is_empty qubits self.entry.table.now }
    {
        table::is_empty(self.table)
    }

    pub fn len(self) -> Result<u32, Refusal>
        ensures { result ≡ len_of qubits self.entry.table.now }
    {
        table::len(self.table)
    }

    pub fn value(self, p: PauliString) -> Result<u32, Refusal>
        ensures { result ≡ value_at qubits self.entry.table.now p.0 }
    {
        table::value(self.table, p)
    }

    pub fn has_entry(self, p: PauliString) -> Result<bool, Refusal>
        ensures { result ≡ has_entry_at qubits self.entry.table.now p.0 }
    {
        table::has_entry(self.table, p)
    }

    pub fn depth(self, p: PauliString) -> Result<u32, Refusal>
        ensures { result ≡ depth_at qubits self.entry.table.now p.0 }
    {
        table::depth(self.table, p)
    }

    pub fn cost(self, p: PauliString) -> Result<u32, Refusal>
        ensures { result ≡ cost_at qubits self.entry.table.now p.0 }
    {
        table::cost(self.table, p)
    }
}

// All that is told of a string.
#[derive(Clone, Copy)]
pub struct EntryAnswer {
    pub value: Result<u32, Refusal>,
    pub has_entry: Result<bool, Refusal>,
    pub depth: Result<u32, Refusal>,
    pub cost: Result<u32, Refusal>,
}

// Asks a view of the table all that it tells of string p.
pub fn entry(table: &[u8], p: PauliString) -> EntryAnswer
    ensures { result ≡ entry_at qubits table.now p.0 }
{
    let view = MeasurementTable::new(table);
    EntryAnswer {
        value: view.value(p),
        has_entry: view.has_entry(p),
        depth: view.depth(p),
        cost: view.cost(p),
    }
}
