// The reader of plans.
//
// Added: the original has no plans on paper. Lines `mx=`, `my=`, `base=`, then 0 to 256 `rotation=` lines, as document 01
// lays them down under "Plan listing".
#![tactic(auto)]

ghost use Rattle.std.specs.Prelude.{◌≡◌, true, false, ℕ, ◌*◌, ◌<◌, length, take, drop, position, MatchOption, IfOk};
ghost use Rattle.bicycle_common.specs.Bytes.{digit_numbers};
ghost use Rattle.text.specs.Decimals.{all_digits};
ghost use Rattle.native_measurement.specs.Natives.{natives};
ghost use Rattle.measurement.specs.Matrices.{side, is_bytes};
ghost use Rattle.natives.specs.Cells.{shown};
ghost use Rattle.reader.specs.Lines.{ends, lines, line_length, is_line, value_in};
ghost use Rattle.reader.specs.Plans.{strings_of, matrix_line, native_line, rotation_line, plan_from, native_lines, read_plan};
ghost use Rattle.reader.specs.Answers.{stated};

use bicycle_common::Refusal;
use measurement::{CodeMeasurement, Pair};
use native_measurement::{NATIVES, NativeNumber};
use natives::Cells;
use pauli_string::PauliString;

// A plan: the pair, the base, the string measured, and the rotations, base side first, with zeros behind them: what a
// caller is told (`told_plan`) is all 256 of them, which an array with its count decides.
#[derive(Clone, Copy)]
pub struct StatedPlan {
    pub pair: CodeMeasurement,
    pub base: NativeNumber,
    pub measures: PauliString,
    pub count: usize,
    pub rotations: [NativeNumber; 256],
}

// ---- lines

fn newline_in(s: &[u8]) -> Option<usize>
    ensures { result ≡ position ends s.now }
{
    s.iter().position(|b| *b == b'\n')
}

// How long the first line is, with its end.
fn line_length(s: &[u8]) -> usize
    ensures { result ≡ line_length s.now }
{
    match newline_in(s) {
        Some(i) => i + 1,
        None => s.len(),
    }
}

// The first line, with its end, and what stands behind it.
fn split_line(s: &[u8]) -> (&[u8], &[u8])
    ensures line { result.0.now ≡ take (line_length s.now) s.now }
    ensures behind { result.1.now ≡ drop (line_length s.now) s.now }
{
    s.split_at(line_length(s))
}

// What stands between the name and the end of a line. Two slices, here and below, as each call has another line.
fn value_in<'a>(name: &[u8], l: &'a [u8]) -> Option<&'a [u8]>
    ensures { MatchOption result (is_line name.now l.now ≡ false) (λ v. (is_line name.now l.now ≡ true) × (v.now ≡ value_in name.now l.now)) }
{
    l.strip_prefix(name)?.strip_suffix(b"\n")
}

// ---- a matrix

fn digit_numbers(s: &[u8]) -> [u8; 36]
    requires { (length s.now ≡ side * side) × (all_digits s.now ≡ true) }
    ensures { result ≡ digit_numbers s.now }
{
    // No `from_fn`: over 36 places its proof did not close
    let mut out = [0; 36];
    for (i, number) in out.iter_mut().enumerate() {
        *number = s[i] - b'0';
    }
    out
}

#[tactic(auto, unfolding(crate::specs::Plans::matrix_line))]
fn matrix_line(name: &[u8], l: &[u8]) -> Result<[u8; 36], Refusal>
    ensures numbers { result ≡ matrix_line name.now l.now }
    ensures matrix { IfOk result (λ m. is_bytes side m ≡ true) }
{
    let value = value_in(name, l).ok_or(Refusal::PlanInput)?;
    if value.len() != 36 || !text::all_digits(value) {
        return Err(Refusal::PlanInput);
    }
    let numbers = digit_numbers(value);
    if !measurement::is_matrix(&numbers) {
        return Err(Refusal::Matrix);
    }
    Ok(numbers)
}

// ---- natives

#[tactic(auto, unfolding(crate::specs::Plans::native_line))]
fn native_line(name: &[u8], l: &[u8]) -> Result<NativeNumber, Refusal>
    ensures native { result ≡ native_line name.now l.now }
    ensures below { IfOk result (λ n. n.0 < natives) }
{
    let value = value_in(name, l).ok_or(Refusal::PlanInput)?;
    let n = text::read_number(value).ok_or(Refusal::PlanInput)?;
    if n >= NATIVES {
        return Err(Refusal::NativeRange);
    }
    Ok(NativeNumber(n))
}

// The string of a native.
pub fn string_of_unchecked(n: NativeNumber, cells: &Cells) -> PauliString
    requires { n.0 < natives }
    ensures { result.0 ≡ shown cells.now.cells n.0 }
{
    PauliString(cells.string_unchecked(u32::from(n.0)))
}

// A rotation has a letter on the pivot.
#[tactic(auto, unfolding(crate::specs::Plans::rotation_line))]
fn rotation_line(l: &[u8], cells: &Cells) -> Result<NativeNumber, Refusal>
    ensures { result ≡ rotation_line (shown cells.now.cells) l.now }
{
    let n = native_line(b"rotation=", l)?;
    if string_of_unchecked(n, cells).has_pivot_support_unchecked() {
        return Ok(n);
    }
    Err(Refusal::PivotIdentity)
}

// ---- all lines

// The rotation lines, and the plan with the base that stands before them.
fn read_rotations(
    input: &[u8],
    pair: CodeMeasurement,
    cells: &Cells,
    base: NativeNumber,
) -> Result<StatedPlan, Refusal>
    requires base_below { base.0 < natives }
    requires cells_of { (n : ℕ) → n < natives → shown cells.now.cells n ≡ strings_of pair n }
    ensures { result ≡ stated (plan_from pair base (lines input.now)) }
{
    let mut rotations = [NativeNumber(0); 256];
    let mut count: usize = 0;
    let mut measures = string_of_unchecked(base, cells);
    for line in input.split_inclusive(|b| *b == b'\n') {
        if count == 256 {
            return Err(Refusal::PlanInput);
        }
        let n = rotation_line(line, cells)?;
        rotations[count] = n;
        measures = measures.rotate_unchecked(string_of_unchecked(n, cells));
        count += 1;
    }
    if measures.0 == 0 {
        return Err(Refusal::Identity);
    }
    Ok(StatedPlan {
        pair,
        base,
        measures,
        count,
        rotations,
    })
}

// The lines behind the matrices. The cells that hold the natives' strings are formed once for all lines.
#[tactic(auto, unfolding(crate::specs::Plans::native_lines), using(crate::proofs::Lines::lines_first, crate::proofs::Lines::lines_rest))]
fn read_natives(input: &[u8], pair: CodeMeasurement) -> Result<StatedPlan, Refusal>
    requires { (is_bytes side pair.mx ≡ true) × (is_bytes side pair.my ≡ true) }
    ensures { result ≡ stated (native_lines pair (lines input.now)) }
{
    let (line, behind) = split_line(input);
    let base = native_line(b"base=", line)?;
    let cells = natives::cells_unchecked(Pair {
        mx: &pair.mx,
        my: &pair.my,
    });
    read_rotations(behind, pair, &cells, base)
}

// The plan that the input states: 12, 3, 11 or 10 by its first bad line; and where every line is good, 5.
pub fn read(input: &[u8]) -> Result<StatedPlan, Refusal>
    ensures { result ≡ stated (read_plan input.now) }
{
    // The bytes that decide (`read_bounded`): no other is looked at, however many there are
    let front = &input[..input.len().min(3418)];
    let (first, behind) = split_line(front);
    let mx = matrix_line(b"mx=", first)?;
    let (second, behind) = split_line(behind);
    let my = matrix_line(b"my=", second)?;
    read_natives(behind, CodeMeasurement { mx, my })
}
