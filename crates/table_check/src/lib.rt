// The check of a measurement table: that every index meets its rule, or the lowest that breaks it.
//
// Added: the original has none. The rule of an index is document 01's, in the definitions of `table`. The natives'
// values are read first: below the lowest wrong one a value tells whether its string is a native's, without a search.
// What is left of a rule is a test of the value itself, which is cheap, and that no rotation leads two or more down.
// Rotations lead back, so each is seen from one of its ends, and most strings are spared. Strings that stand above a
// height `top` are tested with every rotation, in order; the others from those two or more below `top`. Every `top`
// gives the same answer, so it is chosen by the work it makes; the contracts say nothing of that.
//
// Copyright contributors to the Bicycle Architecture Compiler project. Licensed under the Apache License, Version 2.0
// (see NOTICE).
#![tactic(auto)]

ghost use Rattle.std.specs.Prelude.{◌≡◌, ◌≢◌, ◌↔◌, IsTrue, All, ℕ, ◌+◌, ◌^◌, ◌<◌, ◌≤◌, length, take};
ghost use Rattle.pauli_string.specs.Strings.{qubits};
ghost use Rattle.native_measurement.specs.Natives.{natives};
ghost use Rattle.measurement.specs.Matrices.{side};
ghost use Rattle.natives.specs.Arrays.{at};
ghost use Rattle.table.specs.Bytes.{entry};
ghost use Rattle.table.specs.Entries.{Names};
ghost use Rattle.table.specs.Rules.{Down};
ghost use Rattle.table_check.specs.Answers.{Checked};
ghost use Rattle.table_check.specs.Tests.{Follows, gap, height, Low, Neighbours, Calm, Measured, Rooted, Tested, Wrong, By, Scanned, Least, High, Blames, Blamed, Stops};

use bicycle_common::Refusal;
use measurement::Pair;
use native_measurement::NATIVES;
use natives::Natives;
use pauli_string::{PauliString, STRINGS};
use rotations::Rotations;
use table::Table;

// The height of a string without an entry: above the depth of every value by two or more, so that to compare heights
// needs no case for none. A value is 1024·depth + field, as `table` says: by 1024 it is taken apart here and below.
const GAP: u32 = 4194305;

// To follow the rotations of so few strings takes less than to look for a better top
const FEW: u32 = 131072;

// A table, the natives of a pair with their rotations, and the height above which rotations are followed down.
#[derive(Clone, Copy)]
struct Checker<'a> {
    table: Table<'a>,
    natives: &'a Natives,
    rotations: &'a Rotations,
    top: u32,
    // A value has four bytes
    ghost fits: { (p : ℕ) → entry table.bytes.now p < 2 ^ 32 },
    ghost follows: { Follows qubits (at natives.now.strings) rotations.now.strings rotations.now.natives rotations.now.count },
}

// A string with its value, which is read once.
#[derive(Clone, Copy)]
struct Place<'a> {
    checker: &'a Checker<'a>,
    p: u32,
    v: u32,
    ghost string: { p < 4 ^ qubits },
    ghost value: { v ≡ entry checker.now.table.bytes.now p },
}

// ---- where rotations lead

// How high a string of the value v stands.
#[tactic(auto, unfolding(crate::specs::Tests::height))]
fn height(v: u32) -> u32
    ensures { (result ≡ height v) × (result ≤ gap) }
{
    if v == 0 { GAP } else { v / 1024 }
}

// What p becomes by each rotation, in front of xs: lent scratch, so that no array is made for each string. The loop has
// no branch, for speed.
// `moves::odds` fills an array likewise: a call for both would take the value as a closure, with a contract of its own.
fn neighbours(rotations: &Rotations, p: u32, xs: &mut [u32; 540])
    requires { p < 4 ^ qubits }
    ensures each { Neighbours qubits p rotations.now.strings rotations.now.count xs.new }
    ensures strings { All (λ (x : ℕ). x < 4 ^ qubits) (take rotations.now.count xs.new) }
{
    for (i, r) in rotations.strings[..rotations.count].iter().enumerate() {
        xs[i] = PauliString(p).conjugate_with_unchecked(PauliString(*r)).0;
    }
}

impl Checker<'_> {
    ghost use Rattle.table_check.specs.Checkers.{strings_of, values_of};

    // Whether none of these strings has an entry up to the limit.
    fn still(&self, xs: &[u32], limit: u32) -> bool
        requires { All (λ (x : ℕ). x < 4 ^ qubits) xs.now }
        ensures { IsTrue result ↔ All (λ (x : ℕ). Low limit (values_of self.now x) → ⊥) xs.now }
    {
        xs.iter().all(|x| {
            let v = self.table.entry_unchecked(*x);
            v == 0 || limit < v
        })
    }

    // The lowest of these strings that stands two or more above h, or end.
    fn sink_of(&self, xs: &[u32], h: u32, end: u32) -> u32
        requires { All (λ (x : ℕ). x < 4 ^ qubits) xs.now × (h ≤ gap) }
        ensures { Least (High (values_of self.now) h xs.now (length xs.now)) end result }
    {
        let mut r = end;
        for x in xs {
            if height(self.table.entry_unchecked(*x)) >= h + 2 {
                r = r.min(*x);
            }
        }
        r
    }

    // String p with its value.
    fn place(&self, p: u32) -> Place<'_>
        requires { p < 4 ^ qubits }
        ensures { (result.p ≡ p) × (result.checker ≡ self.entry) }
    {
        Place {
            checker: self,
            p,
            v: self.table.entry_unchecked(p),
        }
    }
}

// ---- one string

impl Place<'_> {
    ghost use Rattle.table_check.specs.Checkers.{strings_at, values_at};

    // Whether no rotation leads from it two or more below, which is to say to an entry up to this limit. xs is scratch.
    fn is_calm(&self, xs: &mut [u32; 540]) -> bool
        ensures { IsTrue result ↔ Calm qubits (strings_at self.now) (values_at self.now) self.now.p (height self.now.v) }
    {
        let h = height(self.v);
        if h < 2 {
            return true;
        }
        let rotations = self.checker.rotations;
        neighbours(rotations, self.p, xs);
        self.checker
            .still(&xs[..rotations.count], 1024 * (h - 2) + 1023)
    }

    // Whether it is the string of the native that its value names.
    fn is_base(&self) -> bool
        requires { self.now.v ≢ 0 }
        ensures { IsTrue result ↔ Measured (strings_at self.now) self.now.p self.now.v }
    {
        self.v <= u32::from(NATIVES)
            && self.checker.natives.strings[(self.v - 1) as usize] == self.p
    }

    // Whether native n, which its value names, is a rotation that leads to an entry of depth one less.
    fn leads_down(&self, n: usize) -> bool
        requires { (n < natives) × (1024 ≤ self.now.v) × Names self.now.v n }
        ensures { IsTrue result ↔ Down qubits (strings_at self.now) (values_at self.now) self.now.p n }
    {
        let natives = self.checker.natives;
        if !rotations::is_rotation_unchecked(natives, n) {
            return false;
        }
        let x = PauliString(self.p).rotate_unchecked(PauliString(natives.strings[n]));
        let w = self.checker.table.entry_unchecked(x.0);
        w != 0 && w / 1024 == self.v / 1024 - 1
    }

    // Whether its value names such a rotation. `lookup` tests a field likewise: a call for both would have a contract
    // longer than the test.
    fn is_made(&self) -> bool
        requires { 1024 ≤ self.now.v }
        ensures { IsTrue result ↔ (n : ℕ) × Down qubits (strings_at self.now) (values_at self.now) self.now.p n }
    {
        let field = self.v % 1024;
        field != 0 && field <= u32::from(NATIVES) && self.leads_down((field - 1) as usize)
    }

    // Whether its value is 0, or names its native, or a rotation that leads one step down.
    fn is_rooted(&self) -> bool
        ensures { IsTrue result ↔ Rooted qubits (strings_at self.now) (values_at self.now) self.now.p }
    {
        match self.v {
            0 => true,
            1..1024 => self.is_base(),
            _ => self.is_made(),
        }
    }

    // Whether it has such a value and, if it stands above top, no rotation leads from it two or more down.
    fn meets(&self, xs: &mut [u32; 540]) -> bool
        ensures { IsTrue result ↔ Tested qubits (strings_at self.now) (values_at self.now) self.now.checker.now.top self.now.p }
    {
        self.is_rooted() && (height(self.v) <= self.checker.top || self.is_calm(xs))
    }

    // The lowest string to which a rotation leads from it two or more up, or end; end where such a string stands above
    // top anyway. xs is scratch.
    fn sink_from(&self, end: u32, xs: &mut [u32; 540]) -> u32
        ensures { Least (Blames qubits (strings_at self.now) (values_at self.now) self.now.checker.now.top self.now.p) end result }
    {
        let h = height(self.v);
        if self.checker.top < h + 2 {
            return end;
        }
        let rotations = self.checker.rotations;
        neighbours(rotations, self.p, xs);
        self.checker.sink_of(&xs[..rotations.count], h, end)
    }
}

// ---- all strings

impl Checker<'_> {
    ghost use Rattle.table_check.specs.Checkers.{strings_of, values_of};

    // Whether native n is kept for a nonzero string, and the value of that is wrong.
    #[tactic(auto, using(crate::proofs::Flags::kept_flag))]
    fn is_wrong(&self, n: usize) -> bool
        requires { n < natives }
        ensures { IsTrue result ↔ Wrong (strings_of self.now) (values_of self.now) n (strings_of self.now n) }
    {
        let x = self.natives.strings[n];
        self.natives.kept[n] && x != 0 && self.table.entry_unchecked(x) != n as u32 + 1
    }

    // The lowest nonzero native string whose value is wrong, or 4^12 where none is. Here and below no Option: what is
    // found is the end of the next search, and none needs no case of its own for `min` and `1..end`.
    fn ceiling(&self) -> u32
        ensures { Least (By (Wrong (strings_of self.now) (values_of self.now)) natives) (4 ^ qubits) result }
    {
        let mut end = STRINGS;
        for n in 0..540 {
            if self.is_wrong(n) {
                end = end.min(self.natives.strings[n]);
            }
        }
        end
    }

    // The lowest nonzero index that fails these tests, or end, which is the ceiling. A `for`: the closure of a `find`
    // would change xs, and what `find` promises then is of the closure's states, not of indices.
    fn scan(&self, end: u32) -> u32
        requires { Least (By (Wrong (strings_of self.now) (values_of self.now)) natives) (4 ^ qubits) end }
        ensures { Scanned qubits (strings_of self.now) (values_of self.now) self.now.top result }
    {
        let mut xs = [0u32; 540];
        for p in 1..end {
            if !self.place(p).meets(&mut xs) {
                return p;
            }
        }
        end
    }

    // The lowest such string of all nonzero x, or end.
    fn sink(&self, end: u32) -> u32
        ensures { Least (Blamed qubits (strings_of self.now) (values_of self.now) self.now.top (4 ^ qubits)) end result }
    {
        let mut xs = [0u32; 540];
        let mut r = end;
        for x in 1..STRINGS {
            r = self.place(x).sink_from(r, &mut xs);
        }
        r
    }
}

// ---- how high the top is

// Whether rotations are followed from a string that stands so high.
fn is_followed(h: u32, top: u32) -> bool
    requires { h ≤ gap }
{
    top < h || h + 2 <= top
}

// How many strings these are. A `for`: with `filter` and `count` the whole check takes a tenth longer. `table::len`
// counts by another test: a call for both would take it as a closure, whose contract is longer than the loop.
fn work(table: Table<'_>, top: u32) -> u32 {
    let mut n = 0;
    for p in 0..STRINGS {
        n += u32::from(is_followed(height(table.entry_unchecked(p)), top));
    }
    n
}

// A top with little work: above all where few strings have entries, else the lowest that the next does not better. The
// steps are bounded, since damaged bytes may ask for thousands.
fn best_top(table: Table<'_>) -> u32 {
    let entries = work(table, GAP);
    if entries < FEW {
        return GAP;
    }
    let mut top = 1;
    let mut least = work(table, 1);
    for next in 2..=64 {
        let w = work(table, next);
        if least <= w {
            break;
        }
        top = next;
        least = w;
    }
    if entries < least { GAP } else { top }
}

// ---- the whole table

// The lowest index that breaks its rule, or 4^12 where none does.
fn lowest(table: Table<'_>, natives: &Natives) -> u32
    requires { (p : ℕ) → entry table.bytes.now p < 2 ^ 32 }
    ensures { Stops qubits (at natives.now.strings) (entry table.entry.bytes.now) result }
{
    if table.entry_unchecked(0) != 541 {
        return 0;
    }
    let rotations = rotations::pack_unchecked(natives);
    let checker = Checker {
        table,
        natives,
        rotations: &rotations,
        top: best_top(table),
    };
    checker.sink(checker.scan(checker.ceiling()))
}

// The lowest index of the table that breaks its rule for the pair, or none where every index meets its rule.
pub fn check(table: &[u8], mx: &[u8], my: &[u8]) -> Result<Option<PauliString>, Refusal>
    ensures { Checked qubits side table.now mx.now my.now result }
{
    let table = Table::new(table)?;
    let pair = Pair::new(mx, my)?;
    let p = lowest(table, &natives::natives_unchecked(pair));
    Ok((p < STRINGS).then_some(PauliString(p)))
}
