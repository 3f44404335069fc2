// Runs the calls on tables at the edges that document 01 names and that need no whole table; host/tests/tables.rs runs the others.
// A line for each case, to be held to `stdout`, which was written from document 01.
// No function gives an error but that of a write that failed; what it wrote before may stand.
#![tactic(auto)]

use bicycle_common::Refusal;
use cases::{OTHER, left};
use pauli_string::{PauliString, X1};
use shown::{Refused, Shown, flag};
use std::io;

// The lowest index that breaks its rule, or that none does.
fn check(rt: &impl Print, answer: Result<Option<PauliString>, Refusal>) -> io::Result<()> {
    match answer {
        Ok(None) => println!(rt; "check: accepted"),
        Ok(Some(p)) => println!(rt; "check: {}", p.0),
        Err(r) => println!(rt; "check: {}", Refused(r)),
    }
}

fn values(rt: &impl Print, table: &[u8], p: PauliString) -> io::Result<()> {
    println!(rt; "is empty: {}", flag(table::is_empty(table)))?;
    println!(rt; "entries: {}", Shown(table::len(table)))?;
    println!(rt; "value: {}", Shown(table::value(table, p)))?;
    println!(rt; "depth: {}", Shown(table::depth(table, p)))?;
    println!(rt; "field: {}", Shown(table::field(table, p)))?;
    println!(rt; "cost: {}", Shown(table::cost(table, p)))
}

// The same reads, by a view of the table.
fn viewed(rt: &impl Print, table: &[u8], p: PauliString) -> io::Result<()> {
    let entry = view::entry(table, p);
    println!(rt; "viewed value: {}", Shown(entry.value))?;
    println!(rt; "has entry: {}", flag(entry.has_entry))?;
    println!(rt; "viewed depth: {}", Shown(entry.depth))?;
    println!(rt; "viewed cost: {}", Shown(entry.cost))
}

fn lookups(rt: &impl Print, table: &[u8], mx: &[u8], my: &[u8], p: PauliString) -> io::Result<()> {
    let mut out = [OTHER; 4];
    let exact = lookup::implementation(table, mx, my, p, &mut out);
    println!(rt; "exact lookup: {}", Shown(exact.map(|plan| plan.rotations)))?;
    let rotations = lookup::rotations(table, mx, my, p, &mut out);
    println!(rt; "bytes of its rotations: {}", rotations.len())?;
    let pivot_free = lookup::min_data(table, mx, my, p, &mut out);
    println!(rt;
        "pivot-free lookup: {}",
        Shown(pivot_free.map(|plan| plan.rotations))
    )?;
    let rotations = lookup::min_data_rotations(table, mx, my, p, &mut out);
    println!(rt; "bytes of its rotations: {}", rotations.len())?;
    left(rt, &out)
}

// Every call that reads a table.
fn reads(rt: &impl Print, table: &[u8], mx: &[u8], my: &[u8], p: PauliString) -> io::Result<()> {
    let given = table::given(table, mx, my);
    println!(rt; "given: {}", Shown(given.map(|()| "done")))?;
    check(rt, table_check::check(table, mx, my))?;
    values(rt, table, p)?;
    viewed(rt, table, p)?;
    lookups(rt, table, mx, my, p)
}

fn builds(rt: &impl Print, mx: &[u8], my: &[u8]) -> io::Result<()> {
    let mut table = [OTHER; 100];
    let mut queue = [OTHER; 100];
    let built = builder::build(&mut table, &mut queue, mx, my);
    println!(rt; "build: {}", Shown(built.map(|built| built.entries)))?;
    left(rt, &table)?;
    left(rt, &queue)
}

fn main(rt: HostRuntime) -> io::Result<()> {
    let zero = [0u8; 36];
    println!(rt; "no table")?;
    reads(&rt, b"", &zero, &zero, X1)?;
    println!(rt; "a table of 65536 bytes, a matrix of 2, string 16777216")?;
    let table = [0u8; 65536];
    reads(&rt, &table, b"10", &zero, PauliString(16777216))?;
    builds(&rt, &zero, &zero)?;
    builds(&rt, b"10", &zero)
}
