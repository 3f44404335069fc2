// The search that builds the measurement table: the queue, place by place, each string by all rotations.
//
// From `MeasurementTableBuilder::build` in crates/bicycle_cliffords/src/decomposition.rs of the Bicycle Architecture
// Compiler. Changed: written anew in Rattle, with contracts; the maps' walks run in native order; the search goes on until
// the queue is empty. In a turn only the rotations that move the string are tried, and a filter skips turns that can find
// nothing. The contracts say nothing of these. Every call here is an inner one between our crates.
//
// Copyright contributors to the Bicycle Architecture Compiler project. Licensed under the Apache License, Version 2.0
// (see NOTICE).
#![tactic(auto)]

ghost use Rattle.std.specs.Prelude.{◌≡◌, true, false, ℕ, ◌+◌, ◌^◌, ◌<◌, ◌≤◌, length};
ghost use Rattle.bicycle_common.specs.Ranges.{in_turn};
ghost use Rattle.pauli_string.specs.Strings.{qubits};
ghost use Rattle.native_measurement.specs.Natives.{natives};
ghost use Rattle.natives.specs.Arrays.{at};
ghost use Rattle.table.specs.Bytes.{entry};
ghost use Rattle.table.specs.Entries.{depth};
ghost use Rattle.digits.specs.Filter.{Covers};
ghost use Rattle.discovery.specs.Model.{state, expand};
ghost use Rattle.discovery.specs.States.{Asks, Moving};
ghost use Rattle.discovery.specs.Short.{fore, Room};
ghost use Rattle.discovery.specs.Builds.{held, Sound, Lent, Comes};
ghost use Rattle.search.specs.Turns.{listed_tried, packed_tried};
ghost use Rattle.search.specs.Scans.{Reaches};

use digits::Filter;
use discovery::{Build, NOTES};
use moves::Moved;
use natives::Natives;
use rotations::Rotations;
use table::Table;

// While the queue holds no more strings than this, a turn, of up to 540, leaves the digits behind it free
const ROOM: u32 = (NOTES / 4 - 540) as u32;

// ---- one turn; SHORT says whether the queue is short

// The strings that were gathered, each discovered unless it has an entry. By index, as the contract asks: a zip of the two
// arrays would be no plainer, since its proof follows what is left of both.
fn visits<const SHORT: bool>(b: &mut Build<'_>, moved: &Moved, depth: u32)
    requires sound { Sound SHORT qubits b.old × Room SHORT b.old.count natives }
    requires by_index { (j : ℕ) → j < moved.now.count → Asks qubits (held SHORT b.old) (at moved.now.strings j) depth (at moved.now.natives j) }
    ensures same_reference { Lent b.old b.new }
    ensures comes { Comes SHORT qubits b.new (in_turn moved.now.count (listed_tried moved.now.strings moved.now.natives depth) (held SHORT b.old)) }
{
    for j in 0..moved.count {
        b.discover_unchecked::<SHORT>(moved.strings[j], depth, moved.natives[j]);
    }
}

// The turn of p. What moved holds is overwritten. It stands beside b, as the rotations do: they end with the search.
fn turn<const SHORT: bool>(b: &mut Build<'_>, r: &Rotations, moved: &mut Moved, p: u32, depth: u32)
    requires sound { Sound SHORT qubits b.old × Room SHORT b.old.count natives }
    requires moving { Moving qubits p depth (held SHORT b.old) }
    ensures same_reference { Lent b.old b.new }
    ensures comes { Comes SHORT qubits b.new (in_turn r.now.count (packed_tried qubits r.now.strings r.now.natives p depth) (held SHORT b.old)) }
{
    moved.gather_unchecked(p, r);
    visits::<SHORT>(b, moved, depth);
}

// The turn of p, unless the filter shows that it finds nothing.
fn visit<const SHORT: bool>(
    b: &mut Build<'_>,
    r: &Rotations,
    moved: &mut Moved,
    filter: &Filter,
    p: u32,
)
    requires sound { Sound SHORT qubits b.old × Room SHORT b.old.count natives }
    requires covers { Covers qubits r.now.strings r.now.count filter.now.digits b.old.table.now }
    requires moving { Moving qubits p (depth (entry b.old.table.now p) + 1) (held SHORT b.old) }
    ensures same_reference { Lent b.old b.new }
    ensures comes { Comes SHORT qubits b.new (in_turn r.now.count (packed_tried qubits r.now.strings r.now.natives p (depth (entry b.old.table.now p) + 1)) (held SHORT b.old)) }
{
    if filter.is_clear_unchecked(p) {
        return;
    }
    // Lent as `&mut`, here and below: that a shared loan leaves the table as it was does not reach the proof
    let table = &mut *b.table;
    let v = Table { bytes: table }.entry_unchecked(p);
    turn::<SHORT>(b, r, moved, p, v / 1024 + 1);
}

// ---- the search

// Whether a queue that is to stay short has no room for another turn.
fn is_full<const SHORT: bool>(count: u32) -> bool
    ensures { (result ≡ false → Room SHORT count natives) × (result ≡ true → SHORT ≡ true) }
{
    SHORT && ROOM < count
}

// The queue from one place on, place by place, with the rotations packed: to its end, or as long as it is short. The answer
// is the next place.
fn scan<const SHORT: bool>(
    b: &mut Build<'_>,
    r: &Rotations,
    moved: &mut Moved,
    filter: &mut Filter,
    from: u32,
) -> u32
    requires sound { Sound SHORT qubits b.old × (from ≤ 4 ^ qubits) }
    requires covers { Covers qubits r.now.strings r.now.count filter.old.digits b.old.table.now }
    ensures same_reference { Lent b.old b.new }
    ensures covers { Covers qubits r.now.strings r.now.count filter.new.digits b.new.table.now }
    ensures reaches { Reaches qubits SHORT r.now.strings r.now.natives r.now.count from (held SHORT b.old) result (held SHORT b.new) }
{
    let mut i = from;
    filter.since = 0;
    // No `for`: each turn puts more strings behind the end
    while i < b.count && !is_full::<SHORT>(b.count) {
        let queue = &mut *b.queue;
        let p = Table { bytes: queue }.entry_unchecked(i);
        let table = &mut *b.table;
        filter.refresh_unchecked(Table { bytes: table }, r, p, b.count);
        visit::<SHORT>(b, r, moved, filter, p);
        i += 1;
    }
    i
}

// The bytes from one on are cleared.
fn clear_from(bytes: &mut [u8], from: usize)
    requires { from ≤ length bytes.old }
    ensures { bytes.new ≡ fore from bytes.old }
{
    table::clear_unchecked(&mut bytes[from..]);
}

// All strings in order of discovery.
pub fn search_unchecked(b: &mut Build<'_>, natives: &Natives)
    requires { Sound true qubits b.old }
    ensures same_reference { Lent b.old b.new }
    ensures searched { held false b.new ≡ in_turn (4 ^ qubits) (expand qubits (at natives.now.strings)) (held true b.old) }
{
    let r = rotations::pack_unchecked(natives);
    let mut moved = Moved {
        strings: [0; 540],
        natives: [0; 540],
        count: 0,
    };
    let mut filter = Filter {
        digits: [255; 262144],
        since: 0,
    };
    let place = scan::<true>(b, &r, &mut moved, &mut filter, 0);
    clear_from(b.queue, NOTES);
    scan::<false>(b, &r, &mut moved, &mut filter, place);
}
