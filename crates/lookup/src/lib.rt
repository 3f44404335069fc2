// The lookups: from a string down a lent table to a native, exact or for the best letter on the pivot.
//
// From `MeasurementImpl`, `NativeMeasurementImpl`, `implementation` and `min_data` in
// crates/bicycle_cliffords/src/decomposition.rs of the Bicycle Architecture Compiler. Changed: written anew in Rattle, with
// contracts; the table is lent bytes and the natives are formed inside the call; the vector of rotations became native
// numbers in a lent buffer, their count in the answer; `assert!` and `unwrap` became refusals; every value on the walk is
// tested before a byte is written, so that any bytes may be lent; `min_data` passes over letters without an entry.
//
// Copyright contributors to the Bicycle Architecture Compiler project. Licensed under the Apache License, Version 2.0
// (see NOTICE).
#![tactic(auto)]

ghost use Rattle.std.specs.Prelude.{◌≡◌, Bool, true, false, ◌&&◌, ℕ, ◌+◌, ◌*◌, ◌/◌, ◌%◌, ◌^◌, ◌<◌, ◌≤◌, ltb, length, map, MatchResult, set};
ghost use Rattle.std.proofs.lemmas.List.Edits.{sets};
ghost use Rattle.pauli_string.specs.Strings.{qubits, is_string};
ghost use Rattle.native_measurement.specs.Natives.{natives};
ghost use Rattle.measurement.specs.Matrices.{side};
ghost use Rattle.measurement.specs.Measures.{pair_string};
ghost use Rattle.table.specs.Bytes.{entry};
ghost use Rattle.table.specs.Entries.{depth, field, named, leads, valid};
ghost use Rattle.lookup.specs.Walks.{stands, good, bottom, rotations, sound, candidate, candidates, better, missing, judged, winner};
ghost use Rattle.lookup.specs.Held.{strings, values};
ghost use Rattle.lookup.specs.Answers.{two_bytes, Leaves, found, allowed, sought, looked_up, exact, pivot_free};

use bicycle_common::{Pauli, Refusal};
use measurement::Pair;
use native_measurement::{NATIVES, NativeNumber};
use natives::Cells;
use pauli_string::{PauliString, STRINGS};
use table::Table;

// A native, and the string that it measures.
#[derive(Clone, Copy)]
pub struct NativeMeasurementImpl {
    pub native: NativeNumber,
    pub measures: PauliString,
}

// A plan: the base, the count of the rotations, whose natives stand in the lent buffer, and the string measured.
#[derive(Clone, Copy)]
pub struct MeasurementImpl {
    pub base: NativeMeasurementImpl,
    pub rotations: u32,
    pub measures: PauliString,
}

// What a lookup walks by: the values of a table, and the strings of the natives in their cells.
#[derive(Clone, Copy)]
struct Walker<'a> {
    table: Table<'a>,
    cells: &'a Cells,
}

// A string, as an index of the table.
#[derive(Clone, Copy)]
struct Index {
    number: u32,
    ghost string: { number < 4 ^ qubits },
}

impl Index {
    // Of string p: 4 where the number is none.
    fn new(p: PauliString) -> Result<Index, Refusal>
        ensures { MatchResult result
            (λ i. (i.number ≡ p.0) × (is_string qubits p.0 ≡ true))
            (λ r. (r ≡ Refusal.StringRange) × (is_string qubits p.0 ≡ false)) }
    {
        if p.0 < STRINGS {
            Ok(Index { number: p.0 })
        } else {
            Err(Refusal::StringRange)
        }
    }

    // With the letter l on the pivot.
    #[tactic(auto, using(crate::proofs::Walks::candidate_string))]
    fn candidate(self, l: Pauli) -> Index
        ensures { result.number ≡ candidate qubits self.number l }
    {
        Index {
            number: PauliString(self.number).set_pauli_unchecked(0, l).0,
        }
    }

    // With X, Z and Y on the pivot, in the order in which the first of equals wins.
    fn candidates(self) -> [Index; 3]
        ensures { map (λ i. i.number) result ≡ candidates qubits self.number }
    {
        [Pauli::X, Pauli::Z, Pauli::Y].map(|l| self.candidate(l))
    }
}

// Whether the field of v is a native's number and 1. `table_check` has its own, as neither crate knows the other.
fn names(v: u32) -> bool
    ensures { result ≡ (ltb 0 (field v) && ltb (field v) (natives + 1)) }
{
    0 < v % 1024 && v % 1024 <= u32::from(NATIVES)
}

// Number n as two bytes, low first, the i-th pair of the buffer.
// `as` stays, here and below, where there is no `From`: from u32 to u16 and to usize; it is proved to lose nothing.
fn put_number(out: &mut [u8], i: usize, n: u32)
    requires { (2 * i + 2 ≤ length out.old) × (n < natives) }
    ensures { out.new ≡ set (set out.old (2 * i) (n % 256)) (2 * i + 1) (n / 256) }
{
    out[2 * i..2 * i + 2].copy_from_slice(&(n as u16).to_le_bytes());
}

impl Walker<'_> {
    // ---- one place

    // Whether the value v is a valid entry for string p. v is handed down, as it is read once for each string.
    fn is_valid(self, v: u32, p: u32) -> bool
        ensures { result ≡ valid qubits (strings self.entry) v p }
    {
        if !names(v) || !self.cells.is_kept_unchecked(v % 1024 - 1) {
            return false;
        }
        let string = self.cells.string_unchecked(v % 1024 - 1);
        if v / 1024 == 0 {
            string == p
        } else {
            PauliString(string).has_pivot_support_unchecked()
        }
    }

    // The same, and of depth d.
    fn stands(self, v: u32, d: u32, p: u32) -> bool
        ensures { result ≡ stands qubits (strings self.entry) v d p }
    {
        v / 1024 == d && self.is_valid(v, p)
    }

    // The string to which the rotation by native n leads from p.
    #[tactic(auto, using(natives::proofs::Shown::shown_lt, pauli_string::proofs::Pivot::rotate_string))]
    fn next(self, p: Index, n: u32) -> Index
        requires { n < natives }
        ensures { result.number ≡ leads qubits (strings self.entry) p.number n }
    {
        let string = self.cells.string_unchecked(n);
        Index {
            number: PauliString(p.number)
                .rotate_unchecked(PauliString(string))
                .0,
        }
    }

    // ---- the walk

    // Whether the walk from p is good, down to its end. The depth falls by one at each place.
    fn is_good(self, p: Index) -> bool
        ensures { result ≡ good qubits (strings self.entry) (values self.entry) p.number }
    {
        let mut at = p;
        let mut v = self.table.entry_unchecked(p.number);
        let d = v / 1024;
        for depth in (1..=d).rev() {
            if !self.stands(v, depth, at.number) {
                return false;
            }
            at = self.next(at, v % 1024 - 1);
            v = self.table.entry_unchecked(at.number);
        }
        self.stands(v, 0, at.number)
    }

    // Whether p has no entry, or a good walk.
    #[tactic(auto, unfolding(crate::specs::Walks::sound))]
    fn is_sound(self, p: Index) -> bool
        ensures { result ≡ sound qubits (strings self.entry) (values self.entry) p.number }
    {
        self.table.entry_unchecked(p.number) == 0 || self.is_good(p)
    }

    // False only where p has an entry and a bad walk: the walk down, with no test but of depths and fields. There is so
    // little to do at each place that the reads of one walk overlap with those of the next.
    // A loop of its own: one over the test, for this and `is_good`, has a contract longer than the loop that it saves.
    fn falls(self, p: Index) -> bool
        ensures { result ≡ false → sound qubits (strings self.entry) (values self.entry) p.number ≡ false }
    {
        let mut at = p;
        let mut v = self.table.entry_unchecked(p.number);
        let d = v / 1024;
        for depth in (1..=d).rev() {
            if v / 1024 != depth || !names(v) {
                return false;
            }
            at = self.next(at, v % 1024 - 1);
            v = self.table.entry_unchecked(at.number);
        }
        true
    }

    // ---- the plan

    // Writes the natives of the rotations of the good walk from p, which has d of them, base side first. The answer is the
    // string at the walk's end.
    fn write_rotations(self, p: Index, d: u32, out: &mut [u8]) -> Index
        requires p_value { good qubits (strings self) (values self) p.number ≡ true }
        requires d_value { (d ≡ depth (values self p.number)) × (2 * d ≤ length out.old) }
        ensures { (result.number ≡ bottom qubits (strings self.entry) (values self.entry) p.number) × (out.new ≡ sets out.old 0 (two_bytes (rotations qubits (strings self.entry) (values self.entry) p.number))) }
    {
        let mut at = p;
        for left in (0..d).rev() {
            let n = self.table.entry_unchecked(at.number) % 1024 - 1;
            put_number(out, left as usize, n);
            at = self.next(at, n);
        }
        at
    }

    // The plan of the good walk from p, if the buffer has room for it.
    #[tactic(auto, unfolding(crate::specs::Answers::two_bytes))]
    fn found(self, p: Index, out: &mut [u8]) -> Result<MeasurementImpl, Refusal>
        requires { good qubits (strings self) (values self) p.number ≡ true }
        ensures { Leaves (found qubits (strings self.entry) (values self.entry) p.number (length out.old)) out.old result out.new }
    {
        let d = self.table.entry_unchecked(p.number) / 1024;
        let needed = 2 * d as usize;
        if out.len() < needed {
            return Err(Refusal::Room(needed));
        }
        let bottom = self.write_rotations(p, d, out);
        let n = self.table.entry_unchecked(bottom.number) % 1024 - 1;
        Ok(MeasurementImpl {
            base: NativeMeasurementImpl {
                native: NativeNumber(n as u16),
                measures: PauliString(bottom.number),
            },
            rotations: d,
            measures: PauliString(p.number),
        })
    }

    // The lookup of p, where there is an entry.
    #[tactic(auto, unfolding(crate::specs::Answers::two_bytes), using(crate::proofs::Walks::winner_good))]
    fn look_sought<K: Kind>(self, p: Index, out: &mut [u8]) -> Result<MeasurementImpl, Refusal>
        requires { missing K.any qubits (values self) p.number ≡ false }
        ensures { Leaves (sought qubits (strings self.entry) (values self.entry) K.any p.number (length out.old)) out.old result out.new }
    {
        if !K::is_judged(self, p) {
            return Err(Refusal::BadEntry);
        }
        let w = K::winner(self.table, p);
        self.found(w, out)
    }
}

// ---- the candidates of the pivot-free lookup

// Of two strings the one that has an entry, of both the one with fewer rotations, a where they are equal.
#[tactic(auto, unfolding(crate::specs::Walks::better))]
fn better(table: Table<'_>, a: Index, b: Index) -> Index
    ensures { result.number ≡ better (entry table.entry.bytes.now) a.number b.number }
{
    let v = table.entry_unchecked(a.number);
    let w = table.entry_unchecked(b.number);
    if v == 0 || w != 0 && w / 1024 < v / 1024 {
        b
    } else {
        a
    }
}

// ---- which string is looked up: p itself, or with any letter on the pivot the best candidate

// What the two lookups have apart, each beside the case `any` of the definitions.
trait Kind {
    // With any letter on the pivot
    ghost any: { Bool };

    // Whether p may be looked up: not 0 itself (5), and with any letter on the pivot no string that has one there (6).
    fn is_allowed(p: PauliString) -> Result<(), Refusal>
        ensures { result ≡ allowed any qubits p.0 };

    // Whether p has no entry, or no candidate has.
    fn is_missing(table: Table<'_>, p: Index) -> bool
        ensures { result ≡ missing any qubits (entry table.entry.bytes.now) p.number };

    // Whether the walk from p is good, or that of every candidate with an entry.
    fn is_judged(walker: Walker<'_>, p: Index) -> bool
        ensures { result ≡ judged any qubits (strings walker.entry) (values walker.entry) p.number };

    fn winner(table: Table<'_>, p: Index) -> Index
        ensures { result.number ≡ winner any qubits (entry table.entry.bytes.now) p.number };
}

struct Exact;

impl Kind for Exact {
    ghost any = { false };

    fn is_allowed(p: PauliString) -> Result<(), Refusal> {
        if p.0 == 0 {
            return Err(Refusal::Identity);
        }
        Ok(())
    }

    fn is_missing(table: Table<'_>, p: Index) -> bool {
        table.entry_unchecked(p.number) == 0
    }

    fn is_judged(walker: Walker<'_>, p: Index) -> bool {
        walker.is_good(p)
    }

    fn winner(_table: Table<'_>, p: Index) -> Index {
        p
    }
}

struct PivotFree;

impl Kind for PivotFree {
    ghost any = { true };

    fn is_allowed(p: PauliString) -> Result<(), Refusal> {
        if p.has_pivot_support_unchecked() {
            return Err(Refusal::PivotSet);
        }
        Ok(())
    }

    // All three are read before one is tested, so that the reads overlap.
    fn is_missing(table: Table<'_>, p: Index) -> bool {
        let [x, z, y] = p.candidates();
        let values = u64::from(table.entry_unchecked(x.number))
            + u64::from(table.entry_unchecked(z.number))
            + u64::from(table.entry_unchecked(y.number));
        values == 0
    }

    fn is_judged(walker: Walker<'_>, p: Index) -> bool {
        let [x, z, y] = p.candidates();
        [x, z, y].iter().all(|c| walker.falls(*c)) && [x, z, y].iter().all(|c| walker.is_sound(*c))
    }

    fn winner(table: Table<'_>, p: Index) -> Index {
        let [x, z, y] = p.candidates();
        better(table, better(table, x, z), y)
    }
}

// ---- the calls

// The lookup of p, or of p with any letter on the pivot, with the natives formed from the pair.
#[tactic(auto, unfolding(crate::specs::Answers::two_bytes), using(crate::proofs::Same::sought_same))]
fn look_pair<K: Kind>(
    table: Table<'_>,
    pair: Pair<'_>,
    p: Index,
    out: &mut [u8],
) -> Result<MeasurementImpl, Refusal>
    ensures { Leaves (sought qubits (pair_string side pair.entry.mx.now pair.entry.my.now) (entry table.entry.bytes.now) K.any p.number (length out.old)) out.old result out.new }
{
    if K::is_missing(table, p) {
        return Err(Refusal::NoEntry);
    }
    let cells = natives::cells_unchecked(pair);
    let walker = Walker {
        table,
        cells: &cells,
    };
    walker.look_sought::<K>(p, out)
}

// The same with every test, in the order of their numbers.
#[tactic(auto, unfolding(crate::specs::Answers::two_bytes, crate::specs::Answers::looked_up))]
fn look_up<K: Kind>(
    table: &[u8],
    mx: &[u8],
    my: &[u8],
    p: PauliString,
    out: &mut [u8],
) -> Result<MeasurementImpl, Refusal>
    ensures { Leaves (looked_up K.any qubits side table.now mx.now my.now p.0 (length out.old)) out.old result out.new }
{
    let table = Table::new(table)?;
    let pair = Pair::new(mx, my)?;
    let at = Index::new(p)?;
    K::is_allowed(p)?;
    look_pair::<K>(table, pair, at, out)
}

// The same work: the front of the caller's own buffer that it filled, empty on a refusal.
fn front<'a, K: Kind>(
    table: &[u8],
    mx: &[u8],
    my: &[u8],
    p: PauliString,
    out: &'a mut [u8],
) -> &'a mut [u8]
    ensures { (result.now ≡ two_bytes (looked_up K.any qubits side table.now mx.now my.now p.0 (length out.old)).written) × (result.ref_ptr ≡ out.entry.ref_ptr) }
{
    let k = look_up::<K>(table, mx, my, p, out).map_or(0, |m| 2 * m.rotations as usize);
    &mut out[..k]
}

// Both lookups are `look_up` and `front`: what follows has the names and parameters that README gives their calls.

// The plan of string p by the table of the pair: a native, and rotations whose natives are written to the buffer, base
// side first, two bytes each, low first.
pub fn implementation(
    table: &[u8],
    mx: &[u8],
    my: &[u8],
    p: PauliString,
    out: &mut [u8],
) -> Result<MeasurementImpl, Refusal>
    ensures { Leaves (exact qubits side table.now mx.now my.now p.0 (length out.old)) out.old result out.new }
{
    look_up::<Exact>(table, mx, my, p, out)
}

// The rotations of that plan: the front of the caller's own buffer that holds them, empty on a refusal.
pub fn rotations<'a>(
    table: &[u8],
    mx: &[u8],
    my: &[u8],
    p: PauliString,
    out: &'a mut [u8],
) -> &'a mut [u8]
    ensures { (result.now ≡ two_bytes (exact qubits side table.now mx.now my.now p.0 (length out.old)).written) × (result.ref_ptr ≡ out.entry.ref_ptr) }
{
    front::<Exact>(table, mx, my, p, out)
}

// The plan for p, which has no letter on the pivot, with the letter there that needs the fewest rotations, the first of
// X, Z, Y where several do.
pub fn min_data(
    table: &[u8],
    mx: &[u8],
    my: &[u8],
    p: PauliString,
    out: &mut [u8],
) -> Result<MeasurementImpl, Refusal>
    ensures { Leaves (pivot_free qubits side table.now mx.now my.now p.0 (length out.old)) out.old result out.new }
{
    look_up::<PivotFree>(table, mx, my, p, out)
}

// The rotations of that plan: the front of the caller's own buffer that holds them, empty on a refusal.
pub fn min_data_rotations<'a>(
    table: &[u8],
    mx: &[u8],
    my: &[u8],
    p: PauliString,
    out: &'a mut [u8],
) -> &'a mut [u8]
    ensures { (result.now ≡ two_bytes (pivot_free qubits side table.now mx.now my.now p.0 (length out.old)).written) × (result.ref_ptr ≡ out.entry.ref_ptr) }
{
    front::<PivotFree>(table, mx, my, p, out)
}
