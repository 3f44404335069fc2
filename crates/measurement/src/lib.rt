// The matrices of a code, and the string that a native measures on it.
//
// Follows crates/bicycle_cliffords/src/measurement.rs of the Bicycle Architecture Compiler. Changed: written anew in
// Rattle, with contracts; `SMatrix` became arrays of arrays of zeros and ones, reduced modulo 2 at each product; a pair of
// matrices is held by rows in two flat arrays; a native is given by its number; every public call tests the matrices and
// the number and refuses by document 01's numbers; the names of the codes as text are left out. Matrices as bytes by rows
// are added. A call that ends in `_unchecked` is an inner one between our crates.
//
// Copyright contributors to the Bicycle Architecture Compiler project. Licensed under the Apache License, Version 2.0
// (see NOTICE).
#![tactic(auto)]

ghost use Rattle.std.specs.Prelude.{◌≡◌, true, false, ◌&&◌, MatchResult, ℕ, ◌*◌, ◌^◌, ◌<◌, ◌≤◌, get_or, length};
ghost use Rattle.std.specs.Int.Bits.{bit_or};
ghost use Rattle.std.specs.List.{fold};
ghost use Rattle.bicycle_common.specs.Ranges.{listed};
ghost use Rattle.measurement.specs.Matrices.{side, of_rows, by_rows, of_bytes, one, mul, pow, is_binary, is_bytes, Binary, Same};
ghost use Rattle.measurement.specs.Measures.{action, packed, placed, placed_by, measured};
ghost use Rattle.measurement.specs.Codes.{pair_of, code_pair};
ghost use Rattle.measurement.specs.Answers.{of_answer, matrices_at, measures_if, measures, measures_bytes};

use bicycle_common::{AutomorphismData, Refusal, TwoBases};
use native_measurement::{NativeMeasurement, NativeNumber};
use pauli_string::PauliString;
use std::array::from_fn;

pub const GROSS_MX: [[u8; 6]; 6] = [
    [0, 1, 0, 1, 0, 0],
    [0, 1, 0, 0, 0, 1],
    [0, 0, 1, 1, 0, 0],
    [1, 1, 0, 1, 1, 0],
    [0, 1, 0, 0, 1, 0],
    [1, 1, 1, 1, 0, 1],
];

pub const GROSS_MY: [[u8; 6]; 6] = [
    [1, 0, 0, 0, 0, 1],
    [1, 1, 1, 0, 0, 1],
    [0, 0, 0, 0, 1, 0],
    [0, 1, 0, 0, 0, 0],
    [0, 1, 1, 0, 0, 1],
    [0, 0, 1, 1, 0, 1],
];

pub const TWOGROSS_MX: [[u8; 6]; 6] = [
    [0, 1, 1, 1, 0, 1],
    [1, 0, 1, 0, 1, 1],
    [1, 0, 1, 0, 1, 0],
    [1, 0, 1, 1, 1, 1],
    [0, 1, 1, 1, 1, 1],
    [1, 0, 0, 1, 1, 0],
];

pub const TWOGROSS_MY: [[u8; 6]; 6] = [
    [1, 1, 1, 1, 1, 0],
    [1, 1, 0, 1, 1, 1],
    [0, 1, 1, 0, 0, 0],
    [1, 0, 0, 0, 1, 0],
    [1, 0, 0, 1, 1, 1],
    [1, 0, 0, 0, 0, 1],
];

pub const IDENTITY: [[u8; 6]; 6] = [
    [1, 0, 0, 0, 0, 0],
    [0, 1, 0, 0, 0, 0],
    [0, 0, 1, 0, 0, 0],
    [0, 0, 0, 1, 0, 0],
    [0, 0, 0, 0, 1, 0],
    [0, 0, 0, 0, 0, 1],
];

// A pair of matrices by value, each by rows: flat, as the contract of `new` says (`pair_of`).
#[derive(Clone, Copy)]
pub struct CodeMeasurement {
    pub mx: [u8; 36],
    pub my: [u8; 36],
}

#[derive(Clone, Copy)]
pub enum MeasurementChoices {
    Gross,
    TwoGross,
}

// ---- products and powers modulo 2

// A matrix of zeros and ones.
#[derive(Clone, Copy)]
struct Matrix {
    rows: [[u8; 6]; 6],
    ghost binary: { Binary side (of_rows rows) },
}

impl Matrix {
    // The matrix of the rows: 3 where a number is over 1.
    fn new(rows: [[u8; 6]; 6]) -> Result<Matrix, Refusal>
        ensures { MatchResult result (λ m. m.rows ≡ rows) (λ r. (r ≡ Refusal.Matrix) × (is_binary side (of_rows rows) ≡ false)) }
    {
        if is_matrix(&flat(rows)) {
            Ok(Matrix { rows })
        } else {
            Err(Refusal::Matrix)
        }
    }

    // The matrix of the bytes.
    fn of_bytes(b: &[u8]) -> Matrix
        requires { is_bytes side b.now ≡ true }
        ensures { Same side (of_rows result.rows) (of_bytes side b.now) }
    {
        // No `from_fn`: its closure would say the clauses of `row_of` again
        let mut rows = [[0; 6]; 6];
        for i in 0..6 {
            rows[i] = row_of(b, i);
        }
        Matrix { rows }
    }

    fn identity() -> Matrix
        ensures { Same side (of_rows result.rows) one }
    {
        Matrix { rows: IDENTITY }
    }

    // Row i of it times column k of the other. Bare indexes here and below, as loops count them.
    fn dot(self, other: Matrix, i: usize, k: usize) -> u8
        requires { (i < side) × (k < side) }
        ensures { result ≡ mul side (of_rows self.rows) (of_rows other.rows) i k }
    {
        let mut acc = 0;
        for j in 0..6 {
            acc += self.rows[i][j] * other.rows[j][k];
        }
        acc % 2
    }

    // Row i of the product.
    fn product_row(self, other: Matrix, i: usize) -> [u8; 6]
        requires { i < side }
        ensures { (k : ℕ) → k < side → get_or result k 0 ≡ mul side (of_rows self.rows) (of_rows other.rows) i k }
    {
        from_fn(|k| self.dot(other, i, k))
    }

    fn product(self, other: Matrix) -> Matrix
        ensures { Same side (of_rows result.rows) (mul side (of_rows self.rows) (of_rows other.rows)) }
    {
        // No `from_fn`: its closure would say the clauses of `product_row` again
        let mut rows = [[0; 6]; 6];
        for i in 0..6 {
            rows[i] = self.product_row(other, i);
        }
        Matrix { rows }
    }

    fn power(self, n: u8) -> Matrix
        ensures { Same side (of_rows result.rows) (pow side (of_rows self.rows) n) }
    {
        let mut out = Matrix::identity();
        for t in 0..n {
            out = out.product(self);
        }
        out
    }
}

// The matrices of a pair.
#[derive(Clone, Copy)]
struct MatrixPair {
    mx: Matrix,
    my: Matrix,
}

impl MatrixPair {
    // The action of an automorphism, A(x,y).
    fn action(self, a: AutomorphismData) -> Matrix
        ensures { Same side (of_rows result.rows) (action side (of_rows self.mx.rows) (of_rows self.my.rows) a) }
    {
        let x = self.mx.power(a.get_x());
        let y = self.my.power(a.get_y());
        x.product(y)
    }

    // The first column of A(x,y). It and `first_row` share `action`, and differ in all that their contracts list.
    fn first_column(self, a: AutomorphismData) -> [u8; 6]
        ensures { result ≡ listed (λ (i : ℕ). action side (of_rows self.mx.rows) (of_rows self.my.rows) a i 0) side }
    {
        let m = self.action(a);
        from_fn(|i| m.rows[i][0])
    }

    // The first row of A(x,y).
    fn first_row(self, a: AutomorphismData) -> [u8; 6]
        ensures { result ≡ listed (λ (j : ℕ). action side (of_rows self.mx.rows) (of_rows self.my.rows) a 0 j) side }
    {
        let m = self.action(a);
        // Not `m.rows[0]` itself: that it has six numbers could not be proved of a row by itself
        from_fn(|j| m.rows[0][j])
    }

    // The string that a native measures.
    fn string_of(self, native: NativeMeasurement) -> u32
        ensures { result ≡ measured side (of_rows self.mx.rows) (of_rows self.my.rows) native }
    {
        let a = native.automorphism;
        // X(i) |-> X(A^-1 i) since U_A^\dagger X(i) U_A = X(A^-1 i)
        let map_x = packed_unchecked(self.first_column(a.inv()));
        // Z(i) |-> Z(A^T i) since U_A^\dagger Z(i) U_A = Z(A^T i)
        let map_z = packed_unchecked(self.first_row(a));
        place_bases(map_x, map_z, native.logical)
    }

    // The string that native n measures: 11.
    fn native_string(self, n: NativeNumber) -> Result<PauliString, Refusal>
        ensures { result ≡ measures_if true side (of_rows self.mx.rows) (of_rows self.my.rows) n.0 }
    {
        let native = NativeMeasurement::try_from(n)?;
        Ok(PauliString(self.string_of(native)))
    }
}

// ---- how a matrix is held

// By rows in one array.
fn flat(m: [[u8; 6]; 6]) -> [u8; 36]
    ensures { result ≡ by_rows side m }
{
    // No `from_fn`: over 36 places its proof did not close
    let mut out = [0; 36];
    for q in 0..36 {
        out[q] = m[q / 6][q % 6];
    }
    out
}

// Row i of the bytes.
fn row_of(b: &[u8], i: usize) -> [u8; 6]
    requires { (length b.now ≡ side * side) × (i < side) }
    ensures { (k : ℕ) → k < side → get_or result k 0 ≡ of_bytes side b.now i k }
{
    from_fn(|k| b[6 * i + k])
}

// The digits of all numbers of the bytes together, without a branch: `all(|b| *b <= 1)` takes four times as long.
fn joined(m: &[u8]) -> u8
    ensures { result ≡ fold bit_or 0 m.now }
{
    m.iter().fold(0, |n, b| n | *b)
}

// Whether the bytes are a matrix by rows: 36 numbers, none of which is over 1.
pub fn is_matrix(m: &[u8]) -> bool
    ensures { result ≡ is_bytes side m.now }
{
    m.len() == 36 && joined(m) <= 1
}

// The matrices of a pair, as lent bytes: each is one.
#[derive(Clone, Copy)]
pub struct Pair<'a> {
    pub mx: &'a [u8],
    pub my: &'a [u8],
    pub ghost x_matrix: { is_bytes side mx.now ≡ true },
    pub ghost y_matrix: { is_bytes side my.now ≡ true },
}

impl<'a> Pair<'a> {
    // The pair of the bytes: 3 where one of them is no matrix.
    pub fn new(mx: &'a [u8], my: &'a [u8]) -> Result<Pair<'a>, Refusal>
        ensures pair { MatchResult result
            (λ p. (p.mx ≡ mx.entry) × (p.my ≡ my.entry))
            (λ r. (r ≡ Refusal.Matrix) × ((is_bytes side mx.now && is_bytes side my.now) ≡ false)) }
        ensures mx_decided { of_answer (λ (p : Pair). p.mx) result ≡ matrices_at side mx.now my.now mx.entry }
        ensures my_decided { of_answer (λ (p : Pair). p.my) result ≡ matrices_at side mx.now my.now my.entry }
    {
        if is_matrix(mx) && is_matrix(my) {
            Ok(Pair { mx, my })
        } else {
            Err(Refusal::Matrix)
        }
    }

    // The matrices, row by row.
    fn matrices(self) -> MatrixPair
        ensures { Same side (of_rows result.mx.rows) (of_bytes side self.entry.mx.now) × Same side (of_rows result.my.rows) (of_bytes side self.entry.my.now) }
    {
        MatrixPair {
            mx: Matrix::of_bytes(self.mx),
            my: Matrix::of_bytes(self.my),
        }
    }
}

// ---- what a native measures

// Six digits as a number, the first at bit 0.
#[tactic(auto, using(crate::proofs::Digits::six_digits), unfolding(crate::specs::Measures::packed, bicycle_common::specs::Ranges::sum))]
pub fn packed_unchecked(v: [u8; 6]) -> u32
    requires { (i : ℕ) → i < side → get_or v i 0 ≤ 1 }
    ensures { result ≡ packed side (λ (i : ℕ). get_or v i 0) }
{
    u32::from(v[0])
        + u32::from(v[1]) * 2
        + u32::from(v[2]) * 4
        + u32::from(v[3]) * 8
        + u32::from(v[4]) * 16
        + u32::from(v[5]) * 32
}

// The string whose X letters place the column c and whose Z letters place the row r. Letter 1 has the digits x1 and z1,
// letter 7 has x7 and z7. Digits and no letters, since the loops of `natives` have none.
#[tactic(auto, unfolding(crate::specs::Measures::placed))]
pub fn place_unchecked(c: u32, r: u32, x1: u32, z1: u32, x7: u32, z7: u32) -> u32
    requires { (c < 2 ^ side) × (r < 2 ^ side) × (x1 ≤ 1) × (z1 ≤ 1) × (x7 ≤ 1) × (z7 ≤ 1) }
    ensures { result ≡ placed side c r x1 z1 x7 z7 }
{
    c * (x1 + 64 * x7) + 4096 * (r * (z1 + 64 * z7))
}

// The same, by the two letters.
fn place_bases(c: u32, r: u32, bases: TwoBases) -> u32
    requires { (c < 2 ^ side) × (r < 2 ^ side) }
    ensures { result ≡ placed_by side c r bases }
{
    let p1 = bases.get_basis_1();
    let p7 = bases.get_basis_7();
    let x1 = u32::from(p1.has_x());
    let z1 = u32::from(p1.has_z());
    let x7 = u32::from(p7.has_x());
    let z7 = u32::from(p7.has_z());
    place_unchecked(c, r, x1, z1, x7, z7)
}

// The string that native n measures: 3, 11.
pub fn measures(mx: [[u8; 6]; 6], my: [[u8; 6]; 6], n: NativeNumber) -> Result<PauliString, Refusal>
    ensures { result ≡ measures side (of_rows mx) (of_rows my) n.0 }
{
    let mx = Matrix::new(mx)?;
    let my = Matrix::new(my)?;
    MatrixPair { mx, my }.native_string(n)
}

// The same, of matrices as bytes by rows: 3 also where one is not 36 long.
pub fn measures_bytes(mx: &[u8], my: &[u8], n: NativeNumber) -> Result<PauliString, Refusal>
    ensures { result ≡ measures_bytes side mx.now my.now n.0 }
{
    Pair::new(mx, my)?.matrices().native_string(n)
}

impl CodeMeasurement {
    // The pair by value, whatever its numbers are.
    pub fn new(mx: [[u8; 6]; 6], my: [[u8; 6]; 6]) -> CodeMeasurement
        ensures { result ≡ pair_of mx my }
    {
        CodeMeasurement {
            mx: flat(mx),
            my: flat(my),
        }
    }

    // The string that native n measures: 3, 11.
    pub fn measures(self, n: NativeNumber) -> Result<PauliString, Refusal>
        ensures { result ≡ measures_bytes side self.mx self.my n.0 }
    {
        measures_bytes(&self.mx, &self.my, n)
    }
}

impl MeasurementChoices {
    // The pair of a code.
    pub fn measurement(self) -> CodeMeasurement
        ensures { result ≡ code_pair self }
    {
        match self {
            MeasurementChoices::Gross => CodeMeasurement::new(GROSS_MX, GROSS_MY),
            MeasurementChoices::TwoGross => CodeMeasurement::new(TWOGROSS_MX, TWOGROSS_MY),
        }
    }
}
