// The builder of the measurement table: breadth-first search over all strings, from the natives.
//
// From `MeasurementTableBuilder::new` and `build` in crates/bicycle_cliffords/src/decomposition.rs of the Bicycle
// Architecture Compiler. Changed: written anew in Rattle, with contracts; the table and the strings in order of discovery
// are lent bytes. The work is done in `discovery` and `search`.
//
// Copyright contributors to the Bicycle Architecture Compiler project. Licensed under the Apache License, Version 2.0
// (see NOTICE).
#![tactic(auto)]

ghost use Rattle.std.specs.Prelude.{◌≡◌, length};
ghost use Rattle.pauli_string.specs.Strings.{qubits};
ghost use Rattle.measurement.specs.Matrices.{side};
ghost use Rattle.measurement.specs.Measures.{pair_string};
ghost use Rattle.natives.specs.Arrays.{at};
ghost use Rattle.table.specs.Bytes.{table_length};
ghost use Rattle.table.specs.Answers.{deepest};
ghost use Rattle.discovery.specs.Model.{built};
ghost use Rattle.builder.specs.Answers;
ghost use Rattle.builder.specs.Answers.{after, done};

use bicycle_common::Refusal;
use discovery::Build;
use measurement::Pair;
use natives::Natives;
use pauli_string::STRINGS;
use table::{TABLE_LENGTH, Table};

// What was built: the number of entries, identity included, and the greatest depth.
#[derive(Clone, Copy)]
pub struct Built {
    pub entries: u32,
    pub depth: u32,
}

// The greatest depth in the table.
fn deepest(table: Table<'_>) -> u32
    ensures { result ≡ deepest qubits table.entry.bytes.now }
{
    let mut best: u32 = 0;
    for p in 0..STRINGS {
        best = best.max(table.entry_unchecked(p) / 1024);
    }
    best
}

// The build from the natives. The two lengths are asked, here and below: a `Table` lends its bytes to read alone.
fn build_from(table: &mut [u8], queue: &mut [u8], natives: &Natives) -> Built
    requires { (length table.old ≡ table_length qubits) × (length queue.old ≡ table_length qubits) }
    ensures { after (Ok result) table.new queue.new ≡ done qubits (built qubits (at natives.now.strings)) }
{
    let mut b = Build {
        table,
        queue,
        count: 0,
    };
    b.begin_unchecked();
    b.seeds_unchecked(natives);
    search::search_unchecked(&mut b, natives);
    let filled = &mut *b.table;
    let d = deepest(Table { bytes: filled });
    Built {
        entries: b.count + 1,
        depth: d,
    }
}

// The same for a pair: a function of its own, so that no exit of `build` needs an answer.
fn build_pair(table: &mut [u8], queue: &mut [u8], pair: Pair<'_>) -> Built
    requires { (length table.old ≡ table_length qubits) × (length queue.old ≡ table_length qubits) }
    ensures { after (Ok result) table.new queue.new ≡ done qubits (built qubits (pair_string side pair.entry.mx.now pair.entry.my.now)) }
{
    build_from(table, queue, &natives::natives_unchecked(pair))
}

// Builds the table of the pair, with all discovered strings in order in the queue.
pub fn build(table: &mut [u8], queue: &mut [u8], mx: &[u8], my: &[u8]) -> Result<Built, Refusal>
    ensures { after result table.new queue.new ≡ Answers.build qubits side table.old queue.old mx.now my.now }
{
    Table::new(table)?;
    if queue.len() != TABLE_LENGTH {
        return Err(Refusal::QueueLength);
    }
    Ok(build_pair(table, queue, Pair::new(mx, my)?))
}
