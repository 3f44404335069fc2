// The measurement table: lent bytes, read entry by entry.
//
// From `MeasurementTableEntry`, `get`, `len`, `is_empty` and `cost` in crates/bicycle_cliffords/src/decomposition.rs of
// the Bicycle Architecture Compiler. Changed: written anew in Rattle, with contracts; a vector of entries became lent
// bytes, four for each string, holding 1024·depth + field; `get` became `value` and `has_entry`; `is_empty` answers true
// exactly when every value is 0, where the original's answers true when there is an entry; each call tests the table's
// length and the string.
// A call that ends in `_unchecked` is an inner one between our crates.
//
// Copyright contributors to the Bicycle Architecture Compiler project. Licensed under the Apache License, Version 2.0
// (see NOTICE).
#![tactic(auto)]

ghost use Rattle.std.specs.Prelude.{◌≡◌, false, MatchResult, Ok, ℕ, ◌^◌, ◌<◌, eqb, length};
ghost use Rattle.bicycle_common.specs.Ranges.{all_below};
ghost use Rattle.pauli_string.specs.Strings.{qubits};
ghost use Rattle.measurement.specs.Matrices.{side};
ghost use Rattle.measurement.specs.Answers.{of_answer};
ghost use Rattle.table.specs.Bytes.{table_length, entry, put, zeros};
ghost use Rattle.table.specs.Answers.{is_table, table_at, given, is_empty, entries, len_of, value_at, has_entry_at, depth_at, field_at, costed, cost_at};

use bicycle_common::Refusal;
use measurement::Pair;
use pauli_string::{PauliString, STRINGS};

// The bytes of a table: four for each of the 4^12 strings
pub const TABLE_LENGTH: usize = 67108864;

// Lent bytes that are a table. Those that are written to are passed as slices: a `Table` lends its bytes to read.
#[derive(Clone, Copy)]
pub struct Table<'a> {
    pub bytes: &'a [u8],
    pub ghost whole: { length bytes.now ≡ table_length qubits },
}

// ---- entries; these alone touch bytes

impl<'a> Table<'a> {
    // The table of the bytes: 1 where their number is another.
    pub fn new(bytes: &'a [u8]) -> Result<Table<'a>, Refusal>
        ensures table { MatchResult result
            (λ t. t.bytes ≡ bytes.entry)
            (λ r. (r ≡ Refusal.TableLength) × (is_table qubits bytes.now ≡ false)) }
        ensures decided { of_answer (λ (t : Table). t.bytes) result ≡ table_at qubits bytes.now (Ok bytes.entry) }
    {
        if bytes.len() == TABLE_LENGTH {
            Ok(Table { bytes })
        } else {
            Err(Refusal::TableLength)
        }
    }

    // The value of entry p, a number and no type of its own: p is a loop's counter, a product, or what an entry holds, and
    // would have to be made a value of the type at each.
    #[tactic(auto, unfolding(crate::specs::Bytes::entry))]
    pub fn entry_unchecked(self, p: u32) -> u32
        requires { p < 4 ^ qubits }
        ensures { result ≡ entry self.entry.bytes.now p }
    {
        let i = 4 * p as usize;
        u32::from_le_bytes([
            self.bytes[i],
            self.bytes[i + 1],
            self.bytes[i + 2],
            self.bytes[i + 3],
        ])
    }
}

// Puts the value v into entry p.
#[tactic(auto, unfolding(crate::specs::Bytes::put))]
pub fn put_unchecked(table: &mut [u8], p: u32, v: u32)
    requires { (p < 4 ^ qubits) × (length table.old ≡ table_length qubits) }
    ensures { table.new ≡ put table.old p v }
{
    let i = 4 * p as usize;
    table[i..i + 4].copy_from_slice(&v.to_le_bytes());
}

// Zeros everywhere.
#[tactic(auto, unfolding(crate::specs::Bytes::zeros))]
pub fn clear_unchecked(bytes: &mut [u8])
    ensures { bytes.new ≡ zeros (length bytes.old) }
{
    bytes.fill(0);
}

// ---- what is lent

// Whether the bytes are a table and the matrices of a pair: 1, or 3, where they are not.
pub fn given(table: &[u8], mx: &[u8], my: &[u8]) -> Result<(), Refusal>
    ensures { result ≡ given qubits side table.now mx.now my.now }
{
    Table::new(table)?;
    Pair::new(mx, my)?;
    Ok(())
}

// ---- the whole table

impl Table<'_> {
    fn no_entry(self) -> bool
        ensures { result ≡ all_below (4 ^ qubits) (λ (p : ℕ). eqb (entry self.entry.bytes.now p) 0) }
    {
        // No `all`: of a range its clause did not close
        for p in 0..STRINGS {
            if self.entry_unchecked(p) != 0 {
                return false;
            }
        }
        true
    }

    // How many values are not 0.
    fn len_unchecked(self) -> u32
        ensures { result ≡ entries qubits self.entry.bytes.now }
    {
        // No `filter` and `count`: in the table check they took a tenth longer
        let mut n = 0;
        for p in 0..STRINGS {
            n += u32::from(self.entry_unchecked(p) != 0);
        }
        n
    }
}

// Whether every value is 0.
pub fn is_empty(table: &[u8]) -> Result<bool, Refusal>
    ensures { result ≡ is_empty qubits table.now }
{
    Ok(Table::new(table)?.no_entry())
}

pub fn len(table: &[u8]) -> Result<u32, Refusal>
    ensures { result ≡ len_of qubits table.now }
{
    Ok(Table::new(table)?.len_unchecked())
}

// ---- one string

// A value stays a number, taken apart by 1024 here and above: a type would be made and opened at each entry.

// The value at string p, 0 where there is none.
pub fn value(table: &[u8], p: PauliString) -> Result<u32, Refusal>
    ensures { result ≡ value_at qubits table.now p.0 }
{
    let table = Table::new(table)?;
    // As `PauliString::checked`, which is private: to share its test would take one more public call
    if p.0 >= STRINGS {
        return Err(Refusal::StringRange);
    }
    Ok(table.entry_unchecked(p.0))
}

// Whether string p has an entry: a value that is not 0.
pub fn has_entry(table: &[u8], p: PauliString) -> Result<bool, Refusal>
    ensures { result ≡ has_entry_at qubits table.now p.0 }
{
    Ok(value(table, p)? != 0)
}

// The depth at string p, 0 where there is no value.
pub fn depth(table: &[u8], p: PauliString) -> Result<u32, Refusal>
    ensures { result ≡ depth_at qubits table.now p.0 }
{
    Ok(value(table, p)? / 1024)
}

// The field at string p: a native's number and 1; 0 where there is no value, 541 at the identity of a built table.
pub fn field(table: &[u8], p: PauliString) -> Result<u32, Refusal>
    ensures { result ≡ field_at qubits table.now p.0 }
{
    Ok(value(table, p)? % 1024)
}

// What a value costs at string p.
fn costed(p: u32, v: u32) -> Result<u32, Refusal>
    ensures { result ≡ costed p v }
{
    if v == 0 {
        return Err(Refusal::NoEntry);
    }
    if p == 0 {
        return Ok(0);
    }
    Ok(1 + 2 * (v / 1024))
}

// What the measurement of string p costs, as the original counts: 1, and 2 for each rotation; nothing for the identity.
pub fn cost(table: &[u8], p: PauliString) -> Result<u32, Refusal>
    ensures { result ≡ cost_at qubits table.now p.0 }
{
    costed(p.0, value(table, p)?)
}
