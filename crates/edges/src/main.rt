// Runs both sides of each edge that document 01 names and that needs no table; `table_edges` runs those of the calls on tables, and
// host/tests/tables.rs those that need a whole one. A line for each case, or a listing, to be held to `stdout`, which was written
// from document 01.
// No function gives an error but that of a write that failed; what it wrote before may stand.
#![tactic(auto)]

use bicycle_common::Pauli;
use cases::{OTHER, left};
use measurement::{CodeMeasurement, IDENTITY};
use native_measurement::{NativeMeasurement, NativeNumber};
use pauli_string::{PauliString, X1};
use shown::{Shown, flag, letters, string, text};
use std::io;

// ---- 13: text and letters

fn read(rt: &impl Print, name: &str, text: &[u8]) -> io::Result<()> {
    println!(rt; "{name}: {}", string(PauliString::from_text(text)))
}

fn texts(rt: &impl Print) -> io::Result<()> {
    read(rt, "XIIIIIIIIIII", b"XIIIIIIIIIII")?;
    read(rt, "IIIIIIIIIIIX", b"IIIIIIIIIIIX")?;
    read(rt, "xiiiiiiiiiii", b"xiiiiiiiiiii")?;
    read(rt, "eleven letters", b"XIIIIIIIIII")?;
    read(rt, "thirteen letters", b"XIIIIIIIIIIII")?;
    read(rt, "twelve, one of them W", b"XIIIIIIIIIIW")?;
    println!(rt; "byte X: {}", Shown(Pauli::try_from(b'X')))?;
    println!(rt; "byte W: {}", Shown(Pauli::try_from(b'W')))
}

// ---- 4 and 14: strings and qubits

fn rotations(rt: &impl Print) -> io::Result<()> {
    for bits in [1, 2048, 4194303, 4194304, 4294967295] {
        println!(rt; "rotation {bits}: {}", string(PauliString::rotation(bits)))?;
    }
    Ok(())
}

// Every call on a string.
fn strings(rt: &impl Print, p: PauliString) -> io::Result<()> {
    println!(rt; "number: {}", p.0)?;
    println!(rt; "text: {}", text(p))?;
    println!(rt; "letters: {}", letters(p))?;
    println!(rt; "letter 11: {}", Shown(p.get_pauli(11)))?;
    println!(rt; "letter 12: {}", Shown(p.get_pauli(12)))?;
    println!(rt; "X on qubit 11: {}", string(p.set_pauli(11, Pauli::X)))?;
    println!(rt; "X on qubit 12: {}", string(p.set_pauli(12, Pauli::X)))?;
    println!(rt; "pivot support: {}", flag(p.has_pivot_support()))?;
    println!(rt; "logical support: {}", flag(p.has_logical_support()))?;
    println!(rt; "non-trivial support: {}", flag(p.non_trivial_support()))?;
    println!(rt; "pivot bits: {}", string(p.pivot_bits()))?;
    println!(rt; "blanked: {}", string(p.zero_pivot()))?;
    println!(rt; "logical bits: {}", string(p.logical_bits()))?;
    println!(rt; "commutes with 1: {}", flag(p.commutes_with(X1)))?;
    println!(rt; "1 commutes with it: {}", flag(X1.commutes_with(p)))?;
    println!(rt; "conjugated with 1: {}", string(p.conjugate_with(X1)))?;
    println!(rt; "1 conjugated with it: {}", string(X1.conjugate_with(p)))?;
    println!(rt; "product with 1: {}", string(p.mul(X1)))?;
    println!(rt; "product of 1 with it: {}", string(X1.mul(p)))
}

// ---- 3, 10 and 11: matrices and natives

fn expansion(rt: &impl Print, n: u16) -> io::Result<()> {
    println!(rt; "native {n}: {}", shown::native(NativeNumber(n)))?;
    let native = NativeMeasurement::try_from(NativeNumber(n));
    println!(rt;
        "its number: {}",
        Shown(native.map(|native| NativeNumber::from(native).0))
    )
}

// What native n measures on a pair, and the expansion of a rotation by it.
fn native(rt: &impl Print, name: &str, mx: &[u8], my: &[u8], n: u16) -> io::Result<()> {
    let n = NativeNumber(n);
    println!(rt;
        "{name}: {}",
        string(measurement::measures_bytes(mx, my, n))
    )?;
    println!(rt; "its rotation: {}", shown::rotation(mx, my, n))
}

fn expansions(rt: &impl Print) -> io::Result<()> {
    expansion(rt, 539)?;
    expansion(rt, 540)?;
    expansion(rt, 65535)
}

fn natives(rt: &impl Print) -> io::Result<()> {
    let pair = CodeMeasurement::new(IDENTITY, IDENTITY);
    native(rt, "identity pair, native 3", &pair.mx, &pair.my, 3)?;
    native(rt, "identity pair, native 0", &pair.mx, &pair.my, 0)?;
    native(rt, "identity pair, native 539", &pair.mx, &pair.my, 539)?;
    native(rt, "identity pair, native 540", &pair.mx, &pair.my, 540)?;
    let zero = [0u8; 36];
    native(rt, "zero pair, native 539", &zero, &zero, 539)
}

fn lengths(rt: &impl Print) -> io::Result<()> {
    let zero = [0u8; 36];
    let short = [0u8; 35];
    let long = [0u8; 37];
    native(rt, "mx of 35 bytes", &short, &zero, 539)?;
    native(rt, "my of 35 bytes", &zero, &short, 539)?;
    native(rt, "mx of 37 bytes", &long, &zero, 539)?;
    native(rt, "my of 37 bytes", &zero, &long, 539)
}

fn twos(rt: &impl Print) -> io::Result<()> {
    let zero = [0u8; 36];
    let mut two = [0u8; 36];
    two[35] = 2;
    native(rt, "mx with a 2", &two, &zero, 539)?;
    native(rt, "my with a 2", &zero, &two, 539)?;
    native(rt, "my with a 2, native 540", &zero, &two, 540)
}

// Matrices as arrays of rows, and a pair by value.
fn rows(rt: &impl Print) -> io::Result<()> {
    let mut two = IDENTITY;
    two[5][5] = 2;
    let n = NativeNumber(3);
    println!(rt;
        "by rows: {}",
        string(measurement::measures(IDENTITY, IDENTITY, n))
    )?;
    println!(rt;
        "by rows, with a 2: {}",
        string(measurement::measures(IDENTITY, two, n))
    )?;
    let pair = CodeMeasurement::new(IDENTITY, IDENTITY);
    println!(rt; "by value: {}", string(pair.measures(n)))?;
    let pair = CodeMeasurement::new(two, IDENTITY);
    println!(rt; "by value, with a 2: {}", string(pair.measures(n)))
}

// ---- 9, and the numbers of a plan

fn list(rt: &impl Print, name: &str, input: &[u8], out: &mut [u8]) -> io::Result<()> {
    println!(rt; "{name}: {}", Shown(listing::list(input, out)))?;
    left(rt, out)
}

fn plan(rt: &impl Print, name: &str, input: &[u8]) -> io::Result<()> {
    println!(rt; "{name}")?;
    shown::plan(rt, input)
}

fn plans(rt: &impl Print) -> io::Result<()> {
    let input =
        b"mx=100000110000001000000100000010000001\nmy=100000010000001000000100000010000001\nbase=440\nrotation=533\n";
    plan(rt, "document 01's plan", input)?;
    list(rt, "room for 150", input, &mut [OTHER; 150])?;
    list(rt, "room for 151", input, &mut [OTHER; 151])?;
    list(rt, "room for 160", input, &mut [OTHER; 160])?;
    plan(rt, "no input", b"")?;
    list(rt, "no room", b"", &mut [OTHER; 0])?;
    list(rt, "room for 10", b"", &mut [OTHER; 10])?;
    list(rt, "room for 11", b"", &mut [OTHER; 11])
}

fn main(rt: HostRuntime) -> io::Result<()> {
    texts(&rt)?;
    rotations(&rt)?;
    strings(&rt, PauliString(16777215))?;
    strings(&rt, PauliString(16777216))?;
    expansions(&rt)?;
    natives(&rt)?;
    lengths(&rt)?;
    twos(&rt)?;
    rows(&rt)?;
    plans(&rt)
}
