//! Rows times columns and matrices, four lanes at a time. Only the sum modulo 2^44 shows in a cell, so lanes of 64 bits may wrap.
ghost use Rattle.std.specs.Prelude.{◌≡◌, ◌*◌, ◌%◌, ◌^◌, map};
ghost use Rattle.std.specs.Int.{cast_unsigned, w64};
ghost use Rattle.line_lanes.specs.Lanes.{AreSignedWords, wide, sum_cell, sum_cells};
ghost use Rattle.line_lanes.specs.Matrices.{dot4, transform4};

use crate::matrices::Matrix;
use std::simd::prelude::*;

/// A number in 64 bits.
fn extended(number: i32) -> u64
    ensures { result ≡ cast_unsigned w64 number }
{
    (number as i64).cast_unsigned()
}

/// Four numbers, each in 64 bits.
fn widened(numbers: [i32; 4]) -> u64x4
    ensures value { result ≡ wide numbers }
    ensures words { AreSignedWords numbers }
{
    u64x4::from_array([
        extended(numbers[0]),
        extended(numbers[1]),
        extended(numbers[2]),
        extended(numbers[3]),
    ])
}

/// A number times each of four.
fn scaled(by: i32, numbers: [i32; 4]) -> u64x4
    ensures value { result ≡ map (λ x. cast_unsigned w64 by * x % 2 ^ 64) (wide numbers) }
    ensures words { AreSignedWords numbers }
{
    u64x4::splat(extended(by)) * widened(numbers)
}

/// A sum of products as a cell.
fn cell_of(sum: u64) -> i32
    ensures { result ≡ sum_cell sum }
{
    ((sum >> 12 & 0xFFFF_FFFF) as u32).cast_signed()
}

/// The same of each lane.
fn cells_of(sums: u64x4) -> [i32; 4]
    ensures { result ≡ sum_cells sums }
{
    let [a, b, c, d] = sums.to_array();
    [cell_of(a), cell_of(b), cell_of(c), cell_of(d)]
}

/// A row times a column (GBATEK, "DS 3D Matrix Types"): floor(sum / 4096) of the exact sum of four products, wrapped to a signed
/// word.
pub fn dot4(row: [i32; 4], column: [i32; 4]) -> i32
    ensures { result ≡ dot4 row column }
{
    cell_of((widened(row) * widened(column)).reduce_sum())
}

/// A row times a matrix: times each of its columns.
pub fn transform4(vector: [i32; 4], matrix: &Matrix) -> [i32; 4]
    ensures { result ≡ transform4 vector matrix.now }
{
    let first = scaled(vector[0], matrix.row(0));
    let second = scaled(vector[1], matrix.row(1));
    let third = scaled(vector[2], matrix.row(2));
    let fourth = scaled(vector[3], matrix.row(3));
    cells_of(first + second + third + fourth)
}
