// SPDX-License-Identifier: MIT OR Apache-2.0
// The two tables of coefficients, total for every row and column: outside the table stands 0.0.
// What is stored lies behind `row` and `entry` alone; a row named by a literal folds into its caller.
#![tactic(auto)]

ghost use Rattle.std.specs.Prelude.{◌≡◌, ℕ, Float};
ghost use Rattle.tables.specs.Tables.{a_at, b_at, row_of, row_in};
ghost use Rattle.tables.specs.Outside.{IsNoughtOutside, a_outside, b_outside};

mod a_rows;
mod b_rows;

const OUTSIDE: [f64; 9] = [0.0; 9];

static A_ROWS: [[f64; 9]; 10] = [
    a_rows::A0,
    a_rows::A1,
    a_rows::A2,
    a_rows::A3,
    a_rows::A4,
    a_rows::A5,
    a_rows::A6,
    a_rows::A7,
    a_rows::A8,
    a_rows::A9,
];

static B_ROWS: [[f64; 9]; 10] = [
    b_rows::B0,
    b_rows::B1,
    b_rows::B2,
    b_rows::B3,
    b_rows::B4,
    b_rows::B5,
    b_rows::B6,
    b_rows::B7,
    b_rows::B8,
    b_rows::B9,
];

// One of the two tables: its coefficients by definition, and its rows by their numbers. The ten that are stored are handed out no other way.
pub trait Table {
    ghost at: { ℕ → ℕ → Float };

    fn row(i: usize) -> [f64; 9]
        ensures { result ≡ row_of at i };

    ghost is_nought_outside: { IsNoughtOutside at };
}

// Row i of ten, and zeros from row 10 on.
fn row_in(rows: &[[f64; 9]; 10], i: usize) -> [f64; 9]
    ensures { result ≡ row_in rows.now i }
{
    rows.get(i).copied().unwrap_or(OUTSIDE)
}

// Table A, by which the accelerations go into the position.
pub struct A;

// Table B, by which they go into the velocity.
pub struct B;

impl Table for A {
    ghost at = { a_at };

    ghost is_nought_outside = { a_outside };

    fn row(i: usize) -> [f64; 9] {
        row_in(&A_ROWS, i)
    }
}

impl Table for B {
    ghost at = { b_at };

    ghost is_nought_outside = { b_outside };

    fn row(i: usize) -> [f64; 9] {
        row_in(&B_ROWS, i)
    }
}

// Row i of a table.
pub fn row<T: Table>(i: usize) -> [f64; 9]
    ensures { result ≡ row_of T.at i }
{
    T::row(i)
}

// The coefficient in row i and column k of a table.
pub fn entry<T: Table>(i: usize, k: usize) -> f64
    ensures { result ≡ T.at i k }
{
    row::<T>(i).get(k).copied().unwrap_or(0.0)
}
