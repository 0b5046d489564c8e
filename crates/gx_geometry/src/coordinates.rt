//! Texture coordinates, and the vector test, which sums the same way.

ghost use Rattle.std.specs.Prelude.{◌≡◌, ◌<◌, ◌/◌, ◌%◌, ◌^◌, ◌+ℤ◌, ◌*ℤ◌};
ghost use Rattle.std.specs.Int.{int_wrap, w16, w32, w64, cast_signed, cast_unsigned};
ghost use Rattle.line_lanes.specs.Matrices.{cell};
ghost use Rattle.gx_geometry.specs.Numbers.{ten};
ghost use Rattle.gx_geometry.specs.Coordinates.{with_three, half_of_sum, coordinate_given, coordinate_moved, by_coordinates, by_normal, by_vertex, signed_13, tested_cell, vector_test};

use crate::exact::{product, wrapped_sum};
use crate::numbers::{Coordinates, Point, ten};
use line_lanes::{Matrix, dot4};

#[tactic(auto, using(gx_matrix::proofs::Sums::casts))]
fn with_cell(a: i16, m: &Matrix, i: usize, j: usize) -> i64
    requires i { i < 4 }
    requires j { j < 4 }
    ensures { result ≡ a *ℤ cell m.now i j }
{
    product(a as i32, m.cells[4 * i + j])
}

#[tactic(auto, using(std::proofs::lemmas::Int::wraps))]
fn wrapped_three(a: i64, b: i64, c: i64) -> i64
    ensures { result ≡ int_wrap w64 ((a +ℤ b) +ℤ c) }
{
    a.wrapping_add(b).wrapping_add(c)
}

/// Three numbers times the first three cells of a column.
#[tactic(auto, using(gx_matrix::proofs::Sums::casts), unfolding(crate::specs::Coordinates::with_three))]
fn with_three(a: i16, b: i16, c: i16, m: &Matrix, j: usize) -> i64
    requires { j < 4 }
    ensures { result ≡ int_wrap w64 (with_three a b c m.now j) }
{
    wrapped_three(
        with_cell(a, m, 0, j),
        with_cell(b, m, 1, j),
        with_cell(c, m, 2, j),
    )
}

/// The three numbers of a word times them.
fn with_tens(word: u32, m: &Matrix, j: usize) -> i64
    requires { j < 4 }
    ensures { result ≡ int_wrap w64 (with_three (ten 0 word) (ten 1 word) (ten 2 word) m.now j) }
{
    with_three(ten(0, word), ten(10, word), ten(20, word), m, j)
}

/// Sixteen bits of a sum from a place on.
fn half_from(from: u32, sum: i64) -> i16
    requires { from < 48 }
    ensures { result ≡ cast_signed w16 (cast_unsigned w64 sum / 2 ^ from % 2 ^ 16) }
{
    ((sum.cast_unsigned() >> from & 0xFFFF) as u16).cast_signed()
}

/// The lower half of a word, signed.
fn low_of(word: i32) -> i16
    ensures { result ≡ cast_signed w16 (cast_unsigned w32 word % 2 ^ 16) }
{
    ((word.cast_unsigned() & 0xFFFF) as u16).cast_signed()
}

#[tactic(auto, using(crate::proofs::Halves::low_halves))]
fn coordinate_given(raw: Coordinates, column: [i32; 4]) -> i16
    ensures { result ≡ coordinate_given raw column }
{
    low_of(dot4([raw.s as i32, raw.t as i32, 1, 1], column))
}

/// The coordinates of mode 1.
#[tactic(auto, using(gx_matrix::proofs::Sums::casts), unfolding(crate::specs::Coordinates::by_coordinates))]
pub fn by_coordinates(raw: Coordinates, m: &Matrix) -> Coordinates
    ensures { result ≡ by_coordinates raw m.now }
{
    Coordinates {
        s: coordinate_given(raw, m.column(0)),
        t: coordinate_given(raw, m.column(1)),
    }
}

/// By how much a normal moves a coordinate.
#[tactic(auto, using(crate::proofs::Halves::halves))]
fn half_of_normal(word: u32, m: &Matrix, j: usize) -> i16
    requires { j < 2 }
    ensures { result ≡ half_of_sum 131072 (with_three (ten 0 word) (ten 1 word) (ten 2 word) m.now j) }
{
    half_from(17, with_tens(word, m, j))
}

fn by_normal_at(word: u32, m: &Matrix, j: usize, base: i16) -> i16
    requires { j < 2 }
    ensures { result ≡ coordinate_moved 131072 (ten 0 word) (ten 1 word) (ten 2 word) m.now j base }
{
    wrapped_sum(half_of_normal(word, m, j), base)
}

/// The coordinates of mode 2, which a normal moves.
#[tactic(auto, using(gx_matrix::proofs::Sums::casts), unfolding(crate::specs::Coordinates::by_normal))]
pub fn by_normal(word: u32, raw: Coordinates, m: &Matrix) -> Coordinates
    ensures { result ≡ by_normal word raw m.now }
{
    Coordinates {
        s: by_normal_at(word, m, 0, raw.s),
        t: by_normal_at(word, m, 1, raw.t),
    }
}

/// By how much a vertex moves a coordinate.
#[tactic(auto, using(crate::proofs::Halves::halves))]
fn half_of_vertex(p: Point, m: &Matrix, j: usize) -> i16
    requires { j < 2 }
    ensures { result ≡ half_of_sum 1048576 (with_three p.x p.y p.z m.now j) }
{
    half_from(20, with_three(p.x, p.y, p.z, m, j))
}

fn by_vertex_at(p: Point, m: &Matrix, j: usize, base: i16) -> i16
    requires { j < 2 }
    ensures { result ≡ coordinate_moved 1048576 p.x p.y p.z m.now j base }
{
    wrapped_sum(half_of_vertex(p, m, j), base)
}

/// The coordinates of mode 3, which a vertex moves.
#[tactic(auto, using(gx_matrix::proofs::Sums::casts), unfolding(crate::specs::Coordinates::by_vertex))]
pub fn by_vertex(p: Point, raw: Coordinates, m: &Matrix) -> Coordinates
    ensures { result ≡ by_vertex p raw m.now }
{
    Coordinates {
        s: by_vertex_at(p, m, 0, raw.s),
        t: by_vertex_at(p, m, 1, raw.t),
    }
}

/// Thirteen bits of a sum from bit 9 on.
fn thirteen_bits(sum: i64) -> u16
    ensures value { result ≡ cast_unsigned w64 sum / 512 % 8192 }
    ensures within { result < 8192 }
{
    (sum.cast_unsigned() >> 9 & 0x1FFF) as u16
}

/// Thirteen bits as a signed number.
fn signed_13(bits: u16) -> i16
    requires { bits < 8192 }
    ensures { result ≡ signed_13 bits }
{
    let number = bits.cast_signed();
    if number < 4096 { number } else { number - 8192 }
}

#[tactic(auto, using(crate::proofs::Halves::tests))]
fn tested_cell(word: u32, m: &Matrix, j: usize) -> i16
    requires { j < 3 }
    ensures { result ≡ tested_cell word m.now j }
{
    signed_13(thirteen_bits(with_tens(word, m, j)))
}

/// What the vector test of three signed numbers of ten bits gives.
#[tactic(auto, using(gx_matrix::proofs::Sums::casts), unfolding(crate::specs::Coordinates::vector_test))]
pub fn vector_test(word: u32, m: &Matrix) -> [i16; 3]
    ensures { result ≡ vector_test word m.now }
{
    [
        tested_cell(word, m, 0),
        tested_cell(word, m, 1),
        tested_cell(word, m, 2),
    ]
}
