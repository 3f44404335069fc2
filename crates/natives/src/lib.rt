// The natives of a matrix pair: the strings of all 540, and which of them are kept.
//
// From `MeasurementTableBuilder::new` in crates/bicycle_cliffords/src/decomposition.rs of the Bicycle Architecture
// Compiler, where two maps hold them. Changed: written anew in Rattle, with contracts; the maps became arrays of 540
// strings and kept flags, held by value with the pair. The strings are formed by rows and columns packed into numbers, one
// cell for each automorphism, and equal strings are found by chained buckets, or for one native among the cells. Every
// call here is an inner one between our crates: public calls take the two matrices, never prepared arrays.
//
// Copyright contributors to the Bicycle Architecture Compiler project. Licensed under the Apache License, Version 2.0
// (see NOTICE).
#![tactic(auto)]

ghost use Rattle.std.specs.Prelude.{◌≡◌, ◌==◌, true, false, ℕ, ◌+◌, ◌-◌, ◌*◌, ◌^◌, ◌<◌, ◌≤◌, length, count_by, ◌∷◌, []};
ghost use Rattle.std.specs.Int.Bits.{bit_and};
ghost use Rattle.pauli_string.specs.Strings.{qubits};
ghost use Rattle.native_measurement.specs.Natives.{natives};
ghost use Rattle.measurement.specs.Matrices.{side, of_bytes};
ghost use Rattle.measurement.specs.Measures.{pair_string};
ghost use Rattle.natives.specs.Kept.{kept, LastWith, kept_for};
ghost use Rattle.natives.specs.Arrays.{at, strings, Held, flags};
ghost use Rattle.natives.specs.Packed.{iterated, Sums, SmallSums, stepped, walked, Words, word_at, Lines, GridOf, SmallCells, word_string};
ghost use Rattle.natives.specs.Cells.{mask, shown, Full, Marked, Spread, grid_cell, Upto, Block, Alone};
ghost use Rattle.natives.specs.Chains.{bucket, Next, Linked};

use measurement::{CodeMeasurement, Pair};
use pauli_string::STRINGS;
use std::array;

// The natives of a pair. Two arrays, as the strings alone are walked, searched and lent.
#[derive(Clone, Copy)]
pub struct Natives {
    pub pair: CodeMeasurement,
    // The string of each native
    pub strings: [u32; 540],
    // Whether no native of a greater number has the same string
    pub kept: [bool; 540],
    pub ghost held: { Held qubits strings },
    pub ghost flagged: { kept ≡ flags (at strings) },
}

// The cells of the automorphisms of a pair: 36 numbers, which hold the strings of all natives.
#[derive(Clone, Copy)]
pub struct Cells {
    pub cells: [u32; 36],
    pub ghost spread: { Spread cells },
}

// ---- rows and columns as words of six bits

// Six words of six digits: the rows, or the columns, of a matrix.
#[derive(Clone, Copy)]
struct Vectors {
    words: [u32; 6],
    ghost small: { Words words },
}

// A matrix as the sums of its first three words and of its last three: a word goes through it by two reads.
#[derive(Clone, Copy)]
struct Halves {
    low: [u32; 8],
    high: [u32; 8],
    ghost low_small: { SmallSums low },
    ghost high_small: { SmallSums high },
}

// Six words of six digits for each of six.
#[derive(Clone, Copy)]
struct Grid {
    rows: [[u32; 6]; 6],
    ghost small: { SmallCells rows },
}

// Three words added modulo 2 in each way: sum j has those that j names by its digits.
#[tactic(auto, using(crate::proofs::Words::eight))]
fn sums(a: u32, b: u32, c: u32) -> [u32; 8]
    ensures { Sums 3 (at (a ∷ b ∷ c ∷ [])) result }
{
    [0, a, b, a ^ b, c, a ^ c, b ^ c, a ^ b ^ c]
}

impl Halves {
    fn of(r: &Vectors) -> Halves
        ensures { (v t : ℕ) → v < 2 ^ side → walked result.low result.high v t ≡ iterated side (at r.now.words) v t }
    {
        let [a, b, c, d, e, f] = r.words;
        Halves {
            low: sums(a, b, c),
            high: sums(d, e, f),
        }
    }

    // v taken through the matrix.
    fn step(&self, v: u32) -> u32
        requires { v < 2 ^ side }
        ensures { result ≡ stepped self.now.low self.now.high v }
    {
        self.low[(v % 8) as usize] ^ self.high[(v / 8) as usize]
    }

    // v taken through it no time, once, .. five times.
    fn run(&self, v: u32) -> Vectors
        requires { v < 2 ^ side }
        ensures { (t : ℕ) → t < side → at result.words t ≡ walked self.now.low self.now.high v t }
    {
        let mut words = [v; 6];
        for t in 1..6 {
            words[t] = self.step(words[t - 1]);
        }
        Vectors { words }
    }
}

impl Grid {
    // 1 taken through p i times and then through q j times, for each i and j.
    fn of(p: &Vectors, q: &Vectors) -> Grid
        ensures { GridOf p.now.words q.now.words result.rows }
    {
        let heads = Halves::of(p).run(1);
        let through = Halves::of(q);
        let mut rows = [[0u32; 6]; 6];
        // A `for`: through `map` it is not found that each head is a word
        for (i, head) in heads.words.iter().enumerate() {
            let Vectors { words } = through.run(*head);
            rows[i] = words;
        }
        Grid { rows }
    }
}

// Word k of the bytes, whose digit j is the byte at line * k + step * j.
#[tactic(auto, using(crate::proofs::Grids::place_in))]
fn word_at(m: &[u8], line: usize, step: usize, k: usize) -> u32
    requires { Lines line step m.now × (k < side) }
    ensures { result ≡ word_at line step m.now k }
{
    measurement::packed_unchecked(array::from_fn(
        |j|
            requires { line * k + step * j < length m.now }
        { m[line * k + step * j] },
    ))
}

impl Vectors {
    // The six words: the rows of a matrix by rows if line and step are 6 and 1, its columns if they are 1 and 6.
    fn of(m: &[u8], line: usize, step: usize) -> Vectors
        requires { Lines line step m.now }
        ensures { (k : ℕ) → k < side → at result.words k ≡ word_at line step m.now k }
    {
        Vectors {
            words: array::from_fn(|k| word_at(m, line, step, k)),
        }
    }
}

// ---- the cells of the automorphisms, and the strings that they show

// The string of pair k of letters, of which c is the column and w the row. By digits, where `native_measurement` makes
// letters: the masks are formed for each native anew.
#[tactic(auto, using(crate::proofs::Grids::place_digits))]
fn place(c: u32, w: u32, k: u32) -> u32
    requires { (c < 2 ^ side) × (w < 2 ^ side) × (k < 15) }
    ensures { result ≡ word_string c w k }
{
    let l1 = (k + 1) / 4;
    let l7 = (k + 1) % 4;
    measurement::place_unchecked(c, w, l1 % 2, l1 / 2, l7 % 2, l7 / 2)
}

// What pair k of letters shows of a cell.
#[tactic(auto, unfolding(crate::specs::Cells::mask))]
fn mask(k: u32) -> u32
    requires { k < 15 }
    ensures { result ≡ mask k }
{
    place(63, 63, k)
}

// The cells of the automorphisms with first component x by the grid of columns and the grid of rows: a cell is the string
// of the last pair of letters, (Y,Y), which has the column twice and the row twice. The column is that of the inverse
// automorphism.
fn line(cs: &Grid, rs: &Grid, x: usize, out: &mut [u32; 36])
    requires { x < 6 }
    ensures { Block 6 x (λ (y : ℕ). grid_cell cs.now.rows rs.now.rows (6 * x + y)) out.old out.new }
{
    // By number: over a part of the array it is not found that the rest stays
    for y in 0..6 {
        let c = cs.rows[(6 - y) % 6][(6 - x) % 6];
        let w = rs.rows[x][y];
        out[6 * x + y] = place(c, w, 14);
    }
}

// The cells of all automorphisms, line by line: by one number they would be divided by 6, and take longer. Not inlined,
// so that the grids stay in memory, for speed.
#[inline(never)]
fn lines(cs: &Grid, rs: &Grid) -> [u32; 36]
    ensures { Upto 6 36 (grid_cell cs.now.rows rs.now.rows) 6 result }
{
    let mut out = [0u32; 36];
    for x in 0..6 {
        line(cs, rs, x, &mut out);
    }
    out
}

// How many of the cells show v. A sum has no branch, for speed.
fn count(cells: &[u32], mask: u32, v: u32) -> u32
    requires { length cells.now ≤ 36 }
    ensures { result ≡ count_by (λ (c : ℕ). bit_and c mask == v) cells.now }
{
    cells.iter().map(|cell| u32::from(*cell & mask == v)).sum()
}

// Whether some column, which 63 shows, or some row, which 258048 shows, is 0.
#[tactic(auto, using(crate::proofs::Chains::none_there), unfolding(crate::specs::Cells::mask, measurement::specs::Measures::placed))]
fn lacks(cells: &[u32; 36]) -> bool
    ensures { result ≡ false → Full (at cells.now) }
{
    count(cells, 63, 0) != 0 || count(cells, 258048, 0) != 0
}

// The cells, each with a mark that no pair of letters shows where some column or some row is 0.
fn marked(cells: [u32; 36]) -> [u32; 36]
    requires { (a : ℕ) → a < 36 → at cells a < 4 ^ qubits }
    ensures { Marked (at cells) result }
{
    let mark = STRINGS * u32::from(lacks(&cells));
    // By number: through `map` it is not found that the sum fits
    array::from_fn(|a| cells[a] + mark)
}

// The cells of the pair.
pub fn cells_unchecked(pair: Pair<'_>) -> Cells
    ensures { (n : ℕ) → n < natives → shown result.cells n ≡ pair_string side pair.entry.mx.now pair.entry.my.now n }
{
    let rx = Vectors::of(pair.mx, 6, 1);
    let ry = Vectors::of(pair.my, 6, 1);
    let cx = Vectors::of(pair.mx, 1, 6);
    let cy = Vectors::of(pair.my, 1, 6);
    let rs = Grid::of(&rx, &ry);
    // A column is taken through the last factor first
    let cs = Grid::of(&cy, &cx);
    Cells {
        cells: marked(lines(&cs, &rs)),
    }
}

// The fifteen strings of automorphism a by its cell.
fn block(cell: u32, a: usize, out: &mut [u32])
    requires { (a < 36) × (length out.old ≡ natives) }
    ensures { Block 15 a (λ (k : ℕ). bit_and cell (mask k)) out.old out.new }
{
    for (k, string) in out[15 * a..15 * a + 15].iter_mut().enumerate() {
        *string = cell & mask(k as u32);
    }
}

impl Cells {
    // The string of native n. A bare number: walks reckon it from a value's field, loops count it.
    #[tactic(auto, unfolding(crate::specs::Cells::shown))]
    pub fn string_unchecked(&self, n: u32) -> u32
        requires { n < natives }
        ensures { result ≡ shown self.now.cells n }
    {
        self.cells[(n / 15) as usize] & mask(n % 15)
    }

    // The strings of all natives. `lines` goes through cells likewise: a call for both would take each step as
    // a closure, whose contract is longer than the loop.
    fn blocks(&self, out: &mut [u32])
        requires { length out.old ≡ natives }
        ensures { Upto 15 natives (shown self.now.cells) 36 out.new }
    {
        for (a, cell) in self.cells.iter().enumerate() {
            block(*cell, a, out);
        }
    }

    // Whether no string behind native n is its own. Each is formed in turn.
    #[tactic(auto, using(crate::proofs::Kept::kept_complete))]
    fn is_last(&self, n: u32) -> bool
        requires { n < natives }
        ensures { result ≡ kept (shown self.now.cells) n }
    {
        let v = self.string_unchecked(n);
        // A `for`: what `all` tells of a range over the cells does not come to `kept`
        for m in n + 1..540 {
            if self.string_unchecked(m) == v {
                return false;
            }
        }
        true
    }

    // Whether one cell alone shows to the mask what cell a shows, of all cells or of those from a on. The first count is
    // the faster.
    fn is_alone(&self, mask: u32, a: usize) -> bool
        requires { a < 36 }
        ensures { result ≡ true → Alone self.now.cells mask a }
    {
        let v = self.cells[a] & mask;
        count(&self.cells, mask, v) == 1 || count(&self.cells[a..], mask, v) == 1
    }

    // Whether native n is kept. Where no column and no row is 0, only a cell that shows the same to the same letters has
    // the same string.
    #[tactic(auto, using(crate::proofs::Shown::alone_kept))]
    pub fn is_kept_unchecked(&self, n: u32) -> bool
        requires { n < natives }
        ensures { result ≡ kept (shown self.now.cells) n }
    {
        let a = (n / 15) as usize;
        let m = mask(n % 15);
        self.cells[a] < STRINGS && self.is_alone(m, a) || self.is_last(n)
    }
}

// The strings of all natives of the pair. `out` is a slice, as the C interface of `timing` lends it.
pub fn strings_unchecked(pair: Pair<'_>, out: &mut [u32])
    requires { length out.old ≡ natives }
    ensures { out.new ≡ strings (of_bytes side pair.entry.mx.now) (of_bytes side pair.entry.my.now) }
{
    cells_unchecked(pair).blocks(out);
}

// ---- which are kept

// Whether no string on the chain from first on is that of n.
fn alone(s: &[u32], next: &[u16; 540], n: usize, first: u16) -> bool
    requires s_len { (length s.now ≡ natives) × (n < natives) }
    requires linked { Linked (bucket s.now) next.now (n + 1) × Next (bucket s.now) (bucket s.now n) (n + 1) first }
    ensures { result ≡ kept (at s.now) n }
{
    let v = s[n];
    let mut m = usize::from(first);
    // No `for`: the links of a chain are followed, and `successors` with its end and its test would be no plainer
    while m < 540 {
        if s[m] == v {
            return false;
        }
        m = usize::from(next[m]);
    }
    true
}

// The kept flags of all natives. The chain of a bucket holds the natives passed so far whose strings fall into it. It is
// linked by numbers in two arrays, as there is no heap, and ends at 540, as `Next` has it: an `Option` is twice as long.
pub fn kept_flags_unchecked(s: &[u32]) -> [bool; 540]
    requires { length s.now ≡ natives }
    ensures { result ≡ flags (at s.now) }
{
    let mut head = [540u16; 1021];
    let mut next = [540u16; 540];
    let mut out = [false; 540];
    for n in (0..540).rev() {
        let h = (s[n] % 1021) as usize;
        let first = head[h];
        out[n] = alone(s, &next, n, first);
        next[n] = first;
        head[h] = n as u16;
    }
    out
}

impl Natives {
    // The greatest native with string x.
    fn last_with(&self, x: u32) -> Option<usize>
        ensures { LastWith (at self.now.strings) x result }
    {
        self.strings.iter().rposition(|string| *string == x)
    }

    // The number that is kept for string x, or 540 where no native measures x, as `kept_for` has it.
    #[tactic(auto, using(crate::proofs::Kept::last_kept))]
    pub fn kept_number_unchecked(&self, x: u32) -> usize
        ensures { result ≡ kept_for (at self.now.strings) x }
    {
        self.last_with(x).unwrap_or(540)
    }
}

// ---- all of it

fn held(m: &[u8]) -> [u8; 36]
    requires { length m.now ≡ side * side }
    ensures { result ≡ m.now }
{
    let mut out = [0u8; 36];
    out.copy_from_slice(m);
    out
}

// The natives of the pair, with the pair.
#[tactic(auto, using(crate::proofs::Arrays::strings_held, crate::proofs::Arrays::flags_of_strings))]
pub fn natives_unchecked(pair: Pair<'_>) -> Natives
    ensures pair { result.pair ≡ record { mx = pair.entry.mx.now; my = pair.entry.my.now } }
    ensures strings { result.strings ≡ strings (of_bytes side pair.entry.mx.now) (of_bytes side pair.entry.my.now) }
    ensures kept { result.kept ≡ flags (pair_string side pair.entry.mx.now pair.entry.my.now) }
{
    let mut strings = [0u32; 540];
    strings_unchecked(pair, &mut strings);
    Natives {
        pair: CodeMeasurement {
            mx: held(pair.mx),
            my: held(pair.my),
        },
        strings,
        kept: kept_flags_unchecked(&strings),
    }
}
