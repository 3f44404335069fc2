// The console's side: C functions on numbers and byte slices.
//
// Each calls one public call, or few, and answers the same as a flat struct: document 01's number, 0 where nothing is
// refused, and the values, zeros on a refusal. A slice is passed as a pointer and a length. A native's number is passed as
// it is answered, in 32 bits. Names, parameters and structs are the C interface's, and stay where two of them are alike.
#![tactic(auto)]

ghost use Rattle.std.specs.Prelude.{◌≡◌, length, Ok};
ghost use Rattle.bicycle_common.specs.Letters.{read_letter};
ghost use Rattle.bicycle_common.specs.Automorphisms.{of_pair, product};
ghost use Rattle.pauli_string.specs.Strings.{qubits};
ghost use Rattle.pauli_string.specs.Answers.{commutes_with, conjugate_with, printed, read_text};
ghost use Rattle.native_measurement.specs.Answers.{implementation_at};
ghost use Rattle.measurement.specs.Matrices.{side};
ghost use Rattle.measurement.specs.Answers.{measures_bytes};
ghost use Rattle.table.specs.Answers.{is_empty, len_of, cost_at};
ghost use Rattle.builder.specs.Answers.{build};
ghost use Rattle.table_check.specs.Answers.{Checked};
ghost use Rattle.lookup.specs.Answers.{exact, pivot_free};
ghost use Rattle.compile.specs.Expansions.{rotation_instructions};
ghost use Rattle.display.specs.Texts.{displayed};
ghost use Rattle.listing.specs.Listings.{output};
ghost use Rattle.bicycle.specs.Flat.{flat_build, flat_check, flat_lookup, flat_bool, flat_string, flat_number, flat_write, flat_letter, flat_automorphism, narrow, BuildTells, CheckTells, LookupTells, TextTells};

use bicycle_common::{AutomorphismData, Pauli, Refusal};
use builder::Built;
use lookup::MeasurementImpl;
use native_measurement::NativeNumber;
use pauli_string::PauliString;

// ---- the build

#[repr(C)]
#[derive(Clone, Copy, Default)]
pub struct BuildResult {
    pub number: u32,
    pub entries: u32,
    pub depth: u32,
}

impl From<Result<Built, Refusal>> for BuildResult {
    ghost from_gives = { λ answer result. result ≡ flat_build answer };

    fn from(answer: Result<Built, Refusal>) -> Self {
        match answer {
            Ok(b) => BuildResult {
                number: 0,
                entries: b.entries,
                depth: b.depth,
            },
            Err(r) => BuildResult {
                number: u32::from(r.number()),
                ..Self::default()
            },
        }
    }
}

#[unsafe(no_mangle)]
pub extern "C" fn bicycle_build(
    table: &mut [u8],
    queue: &mut [u8],
    mx: &[u8],
    my: &[u8],
) -> BuildResult
    ensures { BuildTells result table.new queue.new (build qubits side table.old queue.old mx.now my.now) }
{
    builder::build(table, queue, mx, my).into()
}

// ---- the table check

// accepted is 1 or 0; index is the lowest that breaks its rule, 0 where the table is accepted.
#[repr(C)]
#[derive(Clone, Copy, Default)]
pub struct CheckResult {
    pub number: u32,
    pub accepted: u32,
    pub index: u32,
}

impl From<Result<Option<PauliString>, Refusal>> for CheckResult {
    ghost from_gives = { λ answer result. result ≡ flat_check answer };

    fn from(answer: Result<Option<PauliString>, Refusal>) -> Self {
        match answer {
            Ok(None) => CheckResult {
                accepted: 1,
                ..Self::default()
            },
            Ok(Some(p)) => CheckResult {
                index: p.0,
                ..Self::default()
            },
            Err(r) => CheckResult {
                number: u32::from(r.number()),
                ..Self::default()
            },
        }
    }
}

#[unsafe(no_mangle)]
pub extern "C" fn bicycle_check(table: &[u8], mx: &[u8], my: &[u8]) -> CheckResult
    ensures { CheckTells (Checked qubits side table.now mx.now my.now) result }
{
    table_check::check(table, mx, my).into()
}

// ---- the lookups

// The length needed stands first, so that there is no gap between fields.
#[repr(C)]
#[derive(Clone, Copy, Default)]
pub struct LookupResult {
    pub needed: usize,
    pub number: u32,
    pub measures: u32,
    pub native: u32,
    pub base: u32,
    pub rotations: u32,
}

impl From<Result<MeasurementImpl, Refusal>> for LookupResult {
    ghost from_gives = { λ answer result. result ≡ flat_lookup answer };

    fn from(answer: Result<MeasurementImpl, Refusal>) -> Self {
        match answer {
            Ok(m) => LookupResult {
                needed: 0,
                number: 0,
                measures: m.measures.0,
                native: u32::from(m.base.native.0),
                base: m.base.measures.0,
                rotations: m.rotations,
            },
            Err(r) => LookupResult {
                needed: r.needed(),
                number: u32::from(r.number()),
                ..Self::default()
            },
        }
    }
}

#[unsafe(no_mangle)]
pub extern "C" fn bicycle_implementation(
    table: &[u8],
    mx: &[u8],
    my: &[u8],
    p: u32,
    out: &mut [u8],
) -> LookupResult
    ensures { LookupTells (exact qubits side table.now mx.now my.now p (length out.old)) out.old result out.new }
{
    lookup::implementation(table, mx, my, PauliString(p), out).into()
}

#[unsafe(no_mangle)]
pub extern "C" fn bicycle_min_data(
    table: &[u8],
    mx: &[u8],
    my: &[u8],
    p: u32,
    out: &mut [u8],
) -> LookupResult
    ensures { LookupTells (pivot_free qubits side table.now mx.now my.now p (length out.old)) out.old result out.new }
{
    lookup::min_data(table, mx, my, PauliString(p), out).into()
}

// ---- one value

#[repr(C)]
#[derive(Clone, Copy, Default)]
pub struct ValueResult {
    pub number: u32,
    pub value: u32,
}

impl From<Result<u32, Refusal>> for ValueResult {
    ghost from_gives = { λ answer result. result ≡ flat_number answer };

    fn from(answer: Result<u32, Refusal>) -> Self {
        match answer {
            Ok(value) => ValueResult { number: 0, value },
            Err(r) => ValueResult {
                number: u32::from(r.number()),
                ..Self::default()
            },
        }
    }
}

// value is 1 or 0.
#[unsafe(no_mangle)]
pub extern "C" fn bicycle_is_empty(table: &[u8]) -> ValueResult
    ensures { result ≡ flat_bool (is_empty qubits table.now) }
{
    table::is_empty(table).map(u32::from).into()
}

#[unsafe(no_mangle)]
pub extern "C" fn bicycle_len(table: &[u8]) -> ValueResult
    ensures { result ≡ flat_number (len_of qubits table.now) }
{
    table::len(table).into()
}

#[unsafe(no_mangle)]
pub extern "C" fn bicycle_cost(table: &[u8], p: u32) -> ValueResult
    ensures { result ≡ flat_number (cost_at qubits table.now p) }
{
    table::cost(table, PauliString(p)).into()
}

// value is 1 or 0.
#[unsafe(no_mangle)]
pub extern "C" fn bicycle_commutes_with(p: u32, rhs: u32) -> ValueResult
    ensures { result ≡ flat_bool (commutes_with qubits p rhs) }
{
    PauliString(p)
        .commutes_with(PauliString(rhs))
        .map(u32::from)
        .into()
}

#[unsafe(no_mangle)]
pub extern "C" fn bicycle_conjugate_with(p: u32, rhs: u32) -> ValueResult
    ensures { result ≡ flat_string (conjugate_with qubits p rhs) }
{
    let answer = PauliString(p).conjugate_with(PauliString(rhs));
    answer.map(|p| p.0).into()
}

#[unsafe(no_mangle)]
pub extern "C" fn bicycle_from_text(text: &[u8]) -> ValueResult
    ensures { result ≡ flat_string (read_text qubits text.now) }
{
    PauliString::from_text(text).map(|p| p.0).into()
}

// A number that is no native's stands for 540, which is none: every call refuses both alike.
fn native_number(n: u32) -> NativeNumber
    ensures { result.0 ≡ narrow n }
{
    NativeNumber(n.min(540) as u16)
}

#[unsafe(no_mangle)]
pub extern "C" fn bicycle_measures(mx: &[u8], my: &[u8], n: u32) -> ValueResult
    ensures { result ≡ flat_string (measures_bytes side mx.now my.now n) }
{
    let answer = measurement::measures_bytes(mx, my, native_number(n));
    answer.map(|p| p.0).into()
}

// ---- text in a lent buffer

// length is that of the text in front of the buffer.
#[repr(C)]
#[derive(Clone, Copy, Default)]
pub struct TextResult {
    pub needed: usize,
    pub length: usize,
    pub number: u32,
}

impl From<Result<usize, Refusal>> for TextResult {
    ghost from_gives = { λ answer result. result ≡ flat_write answer };

    fn from(answer: Result<usize, Refusal>) -> Self {
        match answer {
            Ok(length) => TextResult {
                length,
                ..Self::default()
            },
            Err(r) => TextResult {
                needed: r.needed(),
                length: 0,
                number: u32::from(r.number()),
            },
        }
    }
}

#[unsafe(no_mangle)]
pub extern "C" fn bicycle_display(p: u32, out: &mut [u8]) -> TextResult
    ensures { TextTells (printed qubits p) out.old result out.new }
{
    display::string(PauliString(p), out).into()
}

#[unsafe(no_mangle)]
pub extern "C" fn bicycle_native_instructions(n: u32, out: &mut [u8]) -> TextResult
    ensures { TextTells (displayed (implementation_at n)) out.old result out.new }
{
    display::native_instructions(native_number(n), out).into()
}

#[unsafe(no_mangle)]
pub extern "C" fn bicycle_rotation_instructions(
    mx: &[u8],
    my: &[u8],
    n: u32,
    out: &mut [u8],
) -> TextResult
    ensures { TextTells (displayed (rotation_instructions qubits side mx.now my.now n)) out.old result out.new }
{
    display::rotation_instructions(mx, my, native_number(n), out).into()
}

// All that the program `plan` prints for the input, `refused=N` too.
#[unsafe(no_mangle)]
pub extern "C" fn bicycle_list(input: &[u8], out: &mut [u8]) -> TextResult
    ensures { TextTells (Ok (output input.now)) out.old result out.new }
{
    listing::list(input, out).into()
}

// ---- letters

// Capitals: the letter, and the two that anticommute with it, 0 where there are none.
#[repr(C)]
#[derive(Clone, Copy, Default)]
pub struct LetterResult {
    pub number: u32,
    pub letter: u32,
    pub first: u32,
    pub second: u32,
}

impl From<Result<Pauli, Refusal>> for LetterResult {
    ghost from_gives = { λ answer result. result ≡ flat_letter answer };

    fn from(answer: Result<Pauli, Refusal>) -> Self {
        match answer {
            Ok(letter) => {
                let (first, second) = match letter.anticommuting() {
                    Some((a, b)) => (a.display(), b.display()),
                    None => (0, 0),
                };
                LetterResult {
                    number: 0,
                    letter: u32::from(letter.display()),
                    first: u32::from(first),
                    second: u32::from(second),
                }
            }
            Err(r) => LetterResult {
                number: u32::from(r.number()),
                ..Self::default()
            },
        }
    }
}

#[unsafe(no_mangle)]
pub extern "C" fn bicycle_letter(byte: u8) -> LetterResult
    ensures { result ≡ flat_letter (read_letter byte) }
{
    Pauli::try_from(byte).into()
}

// ---- automorphisms

// Components are reduced modulo 6. Nothing is refused.
#[repr(C)]
#[derive(Clone, Copy)]
pub struct AutomorphismResult {
    pub generators: u64,
    pub x: u32,
    pub y: u32,
    pub inverse_x: u32,
    pub inverse_y: u32,
}

impl From<AutomorphismData> for AutomorphismResult {
    ghost from_gives = { λ a result. result ≡ flat_automorphism a };

    fn from(a: AutomorphismData) -> Self {
        let inverse = a.inv();
        AutomorphismResult {
            generators: a.nr_generators(),
            x: u32::from(a.get_x()),
            y: u32::from(a.get_y()),
            inverse_x: u32::from(inverse.get_x()),
            inverse_y: u32::from(inverse.get_y()),
        }
    }
}

#[unsafe(no_mangle)]
pub extern "C" fn bicycle_automorphism(x: u8, y: u8) -> AutomorphismResult
    ensures { result ≡ flat_automorphism (of_pair x y) }
{
    AutomorphismData::new(x, y).into()
}

// The product of (x, y) and (x2, y2).
#[unsafe(no_mangle)]
pub extern "C" fn bicycle_automorphism_mul(x: u8, y: u8, x2: u8, y2: u8) -> AutomorphismResult
    ensures { result ≡ flat_automorphism (product (of_pair x y) (of_pair x2 y2)) }
{
    (AutomorphismData::new(x, y) * AutomorphismData::new(x2, y2)).into()
}
