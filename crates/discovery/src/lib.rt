// One discovery of the search that builds the measurement table, its beginning and its sources, with the model of it all.
//
// From `MeasurementTableBuilder::new` and `build` in crates/bicycle_cliffords/src/decomposition.rs of the Bicycle
// Architecture Compiler. Changed: written anew in Rattle, with contracts; the table and the strings in order of discovery
// are lent bytes; the natives are taken in native order; while the queue is short, bits in its unused end tell which
// strings have an entry. Every call here is an inner one between our crates.
//
// Copyright contributors to the Bicycle Architecture Compiler project. Licensed under the Apache License, Version 2.0
// (see NOTICE).
#![tactic(auto)]

ghost use Rattle.std.specs.Prelude.{◌≡◌, true, false, ◌^◌, ◌<◌, length};
ghost use Rattle.pauli_string.specs.Strings.{qubits};
ghost use Rattle.natives.specs.Arrays.{at};
ghost use Rattle.shortest.specs.Graphs.{Has};
ghost use Rattle.table.specs.Bytes.{table_length, entry};
ghost use Rattle.table.specs.Entries.{value};
ghost use Rattle.discovery.specs.Model;
ghost use Rattle.discovery.specs.Model.{begun, seeded};
ghost use Rattle.discovery.specs.States.{Asks};
ghost use Rattle.discovery.specs.Short.{noted, Notes, Room};
ghost use Rattle.discovery.specs.Builds.{held, Sound, Lent, Comes};

use natives::Natives;
use table::Table;

// A table and a queue in the making, and how many strings the queue holds. The queue is as long as a table, and is read
// as one. No ghost field says that the build is in range, since that would have to hold at each write through a `&mut`,
// and a discovery is three: `Sound` and `Room` are asked. Nor the two lengths: with a ghost field the struct would
// import what the contracts here name, and those speak of it. That both buffers are those that were lent (`Lent`) is
// told by each call, since `builder::build` answers in them.
#[derive(Drop)]
pub struct Build<'a> {
    pub table: &'a mut [u8],
    pub queue: &'a mut [u8],
    pub count: u32,
}

// ---- one discovery; SHORT says whether the queue is short

// While the queue is short its last two mebibytes, from this byte on, hold a digit for each string
pub const NOTES: usize = 65011712;

// Whether x has an entry. While the queue is short the digits behind it tell, in a fraction of the memory of the table.
fn has<const SHORT: bool>(table: Table<'_>, queue: Table<'_>, x: u32) -> bool
    requires { (x < 4 ^ qubits) × Notes SHORT qubits queue.bytes.now table.bytes.now }
    ensures { (result ≡ true → Has (entry table.entry.bytes.now) x) × (result ≡ false → entry table.entry.bytes.now x ≡ 0) }
{
    if SHORT {
        digits::is_one_unchecked(queue.bytes, 8 * NOTES + x as usize)
    } else {
        table.entry_unchecked(x) != 0
    }
}

// String x, which got an entry, gets its digit behind a short queue.
fn note<const SHORT: bool>(queue: &mut [u8], x: u32)
    requires { (x < 4 ^ qubits) × (length queue.old ≡ table_length qubits) }
    ensures { queue.new ≡ noted SHORT queue.old x }
{
    if SHORT {
        digits::set_one_unchecked(queue, 8 * NOTES + x as usize);
    }
}

impl Build<'_> {
    // String x gets an entry, by native n at a depth, and a place in the queue, unless it has one.
    pub fn discover_unchecked<const SHORT: bool>(&mut self, x: u32, depth: u32, n: u32)
        requires sound { Sound SHORT qubits self.old × Room SHORT self.old.count 1 }
        requires asks { Asks qubits (held SHORT self.old) x depth n }
        ensures same_reference { Lent self.old self.new }
        ensures comes { Comes SHORT qubits self.new (Model.discover x (value depth n) (held SHORT self.old)) }
    {
        // By names of their own: no field behind `self` can be proved while another one is lent
        let table = &mut *self.table;
        let queue = &mut *self.queue;
        if has::<SHORT>(Table { bytes: table }, Table { bytes: queue }, x) {
            return;
        }
        table::put_unchecked(table, x, 1024 * depth + (n + 1));
        table::put_unchecked(queue, self.count, x);
        note::<SHORT>(queue, x);
        self.count += 1;
    }

    // ---- the beginning

    // Both buffers cleared, and the identity's value at index 0.
    pub fn begin_unchecked(&mut self)
        requires { (length self.old.table.now ≡ table_length qubits) × (length self.old.queue.now ≡ table_length qubits) }
        ensures same_reference { Lent self.old self.new }
        ensures comes { Comes true qubits self.new (begun qubits) }
    {
        table::clear_unchecked(self.table);
        table::clear_unchecked(self.queue);
        table::put_unchecked(self.table, 0, 541);
        note::<true>(self.queue, 0);
        self.count = 0;
    }

    // ---- the sources

    // Native n as a source, unless its string is the identity.
    fn seed(&mut self, natives: &Natives, n: usize)
        requires sound { Sound true qubits self.old × Room true self.old.count 1 }
        requires below { n < 540 }
        ensures same_reference { Lent self.old self.new }
        ensures comes { Comes true qubits self.new (Model.seed (at natives.now.strings) n (held true self.old)) }
    {
        let x = natives.strings[n];
        if x == 0 {
            return;
        }
        let k = natives.kept_number_unchecked(x);
        self.discover_unchecked::<true>(x, 0, k as u32);
    }

    // All natives as sources, in native order. By number, as the model counts them (`Model.seed`).
    pub fn seeds_unchecked(&mut self, natives: &Natives)
        requires { Comes true qubits self.old (begun qubits) }
        ensures same_reference { Lent self.old self.new }
        ensures comes { Comes true qubits self.new (seeded qubits (at natives.now.strings)) }
    {
        for n in 0..540 {
            self.seed(natives, n);
        }
    }
}
