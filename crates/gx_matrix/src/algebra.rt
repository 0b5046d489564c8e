//! Matrix algebra.

ghost use Rattle.std.specs.Prelude.{◌≡◌, ◌<◌, ◌≤◌, ◌*◌, length};
ghost use Rattle.gx_matrix.specs.Algebra.{product, one, identity, given_cell, given, scaling_cell, scaling, translation_cell, translation};

use line_lanes::{Matrix, transform4};

/// The matrix whose cells a function gives by row and column.
macro_rules! matrix_by {
    ($rule:ident($($given:expr),*)) => {
        Matrix {
            cells: [
                $rule($($given,)* 0, 0),
                $rule($($given,)* 0, 1),
                $rule($($given,)* 0, 2),
                $rule($($given,)* 0, 3),
                $rule($($given,)* 1, 0),
                $rule($($given,)* 1, 1),
                $rule($($given,)* 1, 2),
                $rule($($given,)* 1, 3),
                $rule($($given,)* 2, 0),
                $rule($($given,)* 2, 1),
                $rule($($given,)* 2, 2),
                $rule($($given,)* 2, 3),
                $rule($($given,)* 3, 0),
                $rule($($given,)* 3, 1),
                $rule($($given,)* 3, 2),
                $rule($($given,)* 3, 3),
            ],
        }
    };
}

/// The product of two matrices.
#[tactic(auto, using(crate::proofs::Sums::casts), unfolding(crate::specs::Algebra::product, line_lanes::specs::Matrices::transform4))]
pub fn product(a: &Matrix, b: &Matrix) -> Matrix
    ensures { result ≡ product a.now b.now }
{
    let [a0, a1, a2, a3] = transform4(a.row(0), b);
    let [b0, b1, b2, b3] = transform4(a.row(1), b);
    let [c0, c1, c2, c3] = transform4(a.row(2), b);
    let [d0, d1, d2, d3] = transform4(a.row(3), b);
    Matrix {
        cells: [
            a0, a1, a2, a3, b0, b1, b2, b3, c0, c1, c2, c3, d0, d1, d2, d3,
        ],
    }
}

fn one(r: usize, c: usize) -> i32
    ensures { result ≡ one r c }
{
    if r == c { 0x1000 } else { 0 }
}

/// The identity.
#[tactic(auto, using(crate::proofs::Sums::casts), unfolding(crate::specs::Algebra::identity))]
pub fn identity() -> Matrix
    ensures { result ≡ identity }
{
    matrix_by!(one())
}

#[tactic(auto, using(crate::proofs::Sums::given_place), unfolding(crate::specs::Algebra::given_cell))]
fn given_cell(rows: usize, columns: usize, params: &[u32], r: usize, c: usize) -> i32
    requires rows { rows ≤ 4 }
    requires columns { columns ≤ 4 }
    requires params { length params.now ≡ columns * rows }
    requires row { r < 4 }
    requires column { c < 4 }
    ensures { result ≡ given_cell rows columns params.now r c }
{
    if r < rows && c < columns {
        params[columns * r + c].cast_signed()
    } else {
        one(r, c)
    }
}

/// The matrix whose first rows and columns parameters give row by row; the other cells are those of the identity.
#[tactic(auto, using(crate::proofs::Sums::casts), unfolding(crate::specs::Algebra::given))]
pub fn given(rows: usize, columns: usize, params: &[u32]) -> Matrix
    requires rows { rows ≤ 4 }
    requires columns { columns ≤ 4 }
    requires params { length params.now ≡ columns * rows }
    ensures { result ≡ given rows columns params.now }
{
    matrix_by!(given_cell(rows, columns, params))
}

#[tactic(auto, unfolding(crate::specs::Algebra::scaling_cell))]
fn scaling_cell(params: &[u32], r: usize, c: usize) -> i32
    requires { length params.now ≡ 3 }
    ensures { result ≡ scaling_cell params.now r c }
{
    if r == c && r < 3 {
        params[r].cast_signed()
    } else {
        one(r, c)
    }
}

/// The matrix that scales by three numbers.
#[tactic(auto, using(crate::proofs::Sums::casts), unfolding(crate::specs::Algebra::scaling))]
pub fn scaling(params: &[u32]) -> Matrix
    requires { length params.now ≡ 3 }
    ensures { result ≡ scaling params.now }
{
    matrix_by!(scaling_cell(params))
}

#[tactic(auto, unfolding(crate::specs::Algebra::translation_cell))]
fn translation_cell(params: &[u32], r: usize, c: usize) -> i32
    requires { length params.now ≡ 3 }
    ensures { result ≡ translation_cell params.now r c }
{
    if r == 3 && c < 3 {
        params[c].cast_signed()
    } else {
        one(r, c)
    }
}

/// The matrix that moves by three numbers.
#[tactic(auto, using(crate::proofs::Sums::casts), unfolding(crate::specs::Algebra::translation))]
pub fn translation(params: &[u32]) -> Matrix
    requires { length params.now ≡ 3 }
    ensures { result ≡ translation params.now }
{
    matrix_by!(translation_cell(params))
}
