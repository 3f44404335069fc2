// Replays stored answers: writes what our calls answer to the inputs in data/, to be held to `stdout`, which was made by the
// original, and by document 01 where the original has no such call (docs/DECISIONS.md says how). The first lines that it
// writes say what the mark of a row means.
//
// A line of data/strings holds two strings and the digits for a `rotation`. The other files hold cases: a line that begins
// with the length of the case, then so many bytes of any kind, then byte 10. The line is written before the answer.
// No function gives an error but that of a read or a write that failed; what it wrote before may stand.
#![tactic(auto)]

ghost use Rattle.std.specs.Prelude.{◌≡◌, ◌≤◌, ◌<◌, length};
ghost use Rattle.std.specs.Io.{ReadsAtMost};

use bicycle_common::{Pauli, Refusal};
use measurement::{CodeMeasurement, IDENTITY, MeasurementChoices};
use native_measurement::NativeNumber;
use pauli_string::PauliString;
use shown::{Shown, flag, letters, string, text};
use std::fmt::{Display, Formatter};
use std::fs::File;
use std::rt::Files;
use std::{fmt, io};

const ZERO: [[u8; 6]; 6] = [[0; 6]; 6];

// The first matrix of document 01's plan. The second is the identity.
const PLAN: [[u8; 6]; 6] = [
    [1, 0, 0, 0, 0, 0],
    [1, 1, 0, 0, 0, 0],
    [0, 0, 1, 0, 0, 0],
    [0, 0, 0, 1, 0, 0],
    [0, 0, 0, 0, 1, 0],
    [0, 0, 0, 0, 0, 1],
];

// ---- reading the files

// Reads a file to the front of the buffer, and answers how many bytes stand there. An error is of an opening or a read that
// failed, and the buffer's front then holds what was read before.
fn load(rt: &impl Files, name: &str, buffer: &mut [u8]) -> io::Result<usize>
    ensures front { ReadsAtMost result buffer.new }
    ensures kept { length buffer.new ≡ length buffer.old }
{
    let mut file = File::open(rt, name)?;
    shown::read_full(&mut file, buffer)
}

// The number in front, and what is behind the byte that ends it: a space or byte 10. The last nine of its digits count.
fn number(s: &[u8]) -> (u32, &[u8])
    ensures { length result.1.now ≤ length s.now }
{
    let mut value = 0;
    for (i, b) in s.iter().enumerate() {
        if *b < b'0' {
            return (value, &s[i + 1..]);
        }
        value = value % 100000000 * 10 + u32::from(b % 16);
    }
    (value, b"")
}

// The line in front, and what is behind it. `reader` splits likewise, inside: a call for both would be one more public
// call, for a program alone.
fn line(s: &[u8]) -> (&[u8], &[u8])
    requires { 0 < length s.now }
    ensures { length result.1.now < length s.now }
{
    let end = s.iter().position(|b| *b == 10).map_or(s.len(), |i| i + 1);
    s.split_at(end)
}

// A case: its line, its bytes where the file does not end before they do, and what is behind it.
#[derive(Clone, Copy)]
struct Case<'a> {
    line: &'a [u8],
    bytes: Option<&'a [u8]>,
    rest: &'a [u8],
}

// The case in front.
fn split_case(s: &[u8]) -> Case<'_>
    requires { 0 < length s.now }
    ensures { length result.rest.now < length s.now }
{
    let (line, rest) = line(s);
    let length = number(s).0 as usize;
    if rest.len() <= length {
        return Case {
            line,
            bytes: None,
            rest: b"",
        };
    }
    Case {
        line,
        bytes: Some(&rest[..length]),
        rest: &rest[length + 1..],
    }
}

// ---- strings

// The row of the line in front.
fn string_row(rt: &impl Print, s: &[u8]) -> io::Result<()> {
    let (p, s) = number(s);
    let (q, s) = number(s);
    let (bits, _) = number(s);
    print!(rt; "O {p} {q} {bits}: ")?;
    let p = PauliString(p);
    let q = PauliString(q);
    print!(rt; "{} {} {} ", text(p), letters(p), flag(p.commutes_with(q)))?;
    print!(rt; "{} {} ", string(p.conjugate_with(q)), string(p.mul(q)))?;
    print!(rt;
        "{} {} {} ",
        string(p.zero_pivot()),
        string(p.pivot_bits()),
        string(p.logical_bits())
    )?;
    print!(rt;
        "{}{}",
        flag(p.has_pivot_support()),
        flag(p.has_logical_support())
    )?;
    println!(rt;
        "{} {}",
        flag(p.non_trivial_support()),
        string(PauliString::rotation(bits))
    )
}

fn strings(rt: &(impl Files + Print), name: &str) -> io::Result<()> {
    let mut buffer = [0u8; 65536];
    let n = load(rt, name, &mut buffer)?;
    let mut s = &buffer[..n];
    // No `for`: a row with too few numbers takes them from the next line
    while !s.is_empty() {
        string_row(rt, s)?;
        s = line(s).1;
    }
    Ok(())
}

// ---- texts and plans

// Each case of the file, and the answer to it.
fn cases<R: Files + Print, F: Fn(&[u8]) -> io::Result<()>>(
    rt: &R,
    name: &str,
    answer: F,
) -> io::Result<()>
    requires { F.IsAlwaysCallable answer }
{
    let mut buffer = [0u8; 65536];
    let n = load(rt, name, &mut buffer)?;
    let mut s = &buffer[..n];
    // No `for`: a case says itself how long it is
    while !s.is_empty() {
        let case = split_case(s);
        rt.write_all(case.line)?;
        if let Some(bytes) = case.bytes {
            answer(bytes)?;
        }
        s = case.rest;
    }
    Ok(())
}

// A string as a number and as text.
#[derive(Clone, Copy)]
struct Numbered(PauliString);

impl Display for Numbered {
    fn fmt<W: fmt::Write>(&self, f: &mut Formatter<W>) -> fmt::Result {
        write!(f, "{} {}", self.0.0, text(self.0))
    }
}

fn number_and_text(answer: Result<PauliString, Refusal>) -> Shown<Numbered> {
    Shown(answer.map(Numbered))
}

// ---- letters

fn letter(b: u8) -> char {
    Pauli::try_from(b).map_or('-', |p| char::from(p.display()))
}

fn bytes(rt: &impl Print) -> io::Result<()> {
    println!(rt; "letters of the bytes from 0 on, - where there is none")?;
    print!(rt; "O1 ")?;
    for b in 0..=255 {
        print!(rt; "{}", letter(b))?;
    }
    println!(rt; "")
}

// ---- natives

fn expansion(rt: &impl Print, n: u16) -> io::Result<()> {
    println!(rt; "O {n} {}", shown::native(NativeNumber(n)))
}

fn expansions(rt: &impl Print) -> io::Result<()> {
    println!(rt; "expansions")?;
    for n in 0..=540 {
        expansion(rt, n)?;
    }
    expansion(rt, 65535)
}

fn native_row(rt: &impl Print, mx: &[u8], my: &[u8], n: u16) -> io::Result<()> {
    let string = measurement::measures_bytes(mx, my, NativeNumber(n));
    let rotation = shown::rotation(mx, my, NativeNumber(n));
    println!(rt; "O {n} {} {rotation}", number_and_text(string))
}

fn natives(rt: &impl Print, name: &str, pair: CodeMeasurement) -> io::Result<()> {
    println!(rt; "{name} pair: string text rotation")?;
    for n in 0..=540 {
        native_row(rt, &pair.mx, &pair.my, n)?;
    }
    native_row(rt, &pair.mx, &pair.my, 65535)
}

fn main(rt: HostRuntime) -> io::Result<()> {
    println!(rt;
        "O: by the original; refused=N stands where it panics, with document 01's number."
    )?;
    println!(rt; "O1: letters, strings and expansions by the original, the rest by document 01.")?;
    println!(rt; "1: by document 01; the original has no such call.")?;
    println!(rt;
        "strings p q bits: text letters commutes conjugated product blanked pivot logical supports rotation"
    )?;
    strings(&rt, "strings")?;
    bytes(&rt)?;
    println!(rt; "texts")?;
    cases(
        &rt,
        "texts",
        |case| println!(rt; "{}", number_and_text(PauliString::from_text(case))),
    )?;
    expansions(&rt)?;
    natives(&rt, "gross", MeasurementChoices::Gross.measurement())?;
    natives(&rt, "two-gross", MeasurementChoices::TwoGross.measurement())?;
    natives(&rt, "identity", CodeMeasurement::new(IDENTITY, IDENTITY))?;
    natives(&rt, "zero", CodeMeasurement::new(ZERO, ZERO))?;
    natives(&rt, "plan", CodeMeasurement::new(PLAN, IDENTITY))?;
    println!(rt; "plans")?;
    cases(&rt, "plans", |case| shown::plan(&rt, case))?;
    cases(&rt, "limits", |case| shown::plan(&rt, case))
}
