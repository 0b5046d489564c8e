//! The points that the places of a line show of a background that may be turned and scaled.

ghost use Rattle.std.specs.Prelude.{◌≡◌, ◌<◌, ◌≤◌, ◌^◌, ◌+ℤ◌, ◌*ℤ◌, ◌≤ℤ◌, pos, negsuc, IfSome};
ghost use Rattle.std.specs.Int.{int_shr};
ghost use Rattle.vram_banks.specs.Points.{affine_coordinate, place_within};

/// So many steps. The bounds are those of a step's and a place's ranges.
#[inline(always)]
fn steps(step: i16, x: u8) -> i64
    ensures value { result ≡ step *ℤ pos x }
    ensures low { negsuc (2 ^ 23) ≤ℤ result }
    ensures high { result ≤ℤ pos (2 ^ 23) }
{
    step as i64 * x as i64
}

/// A sum with 8 fractional bits.
#[inline(always)]
fn sum(first: i32, more: i64) -> i64
    requires low { negsuc (2 ^ 23) ≤ℤ more }
    requires high { more ≤ℤ pos (2 ^ 23) }
    ensures value { result ≡ first +ℤ more }
    ensures low { negsuc (2 ^ 32) ≤ℤ result }
    ensures high { result ≤ℤ pos (2 ^ 32) }
{
    first as i64 + more
}

/// A coordinate with 8 fractional bits, which are cut off downwards.
#[inline(always)]
fn whole(coordinate: i64) -> i32
    requires low { negsuc (2 ^ 32) ≤ℤ coordinate }
    requires high { coordinate ≤ℤ pos (2 ^ 32) }
    ensures { result ≡ int_shr coordinate 8 }
{
    (coordinate >> 8) as i32
}

/// A coordinate of the point shown at place x of a line.
#[inline(always)]
pub fn affine_coordinate(first: i32, step: i16, x: u8) -> i32
    ensures { result ≡ affine_coordinate first step x }
{
    whole(sum(first, steps(step, x)))
}

/// The place on a background of a coordinate.
#[inline(always)]
pub fn place_within(wraps: bool, size: u32, coordinate: i32) -> Option<u32>
    requires some { 0 < size }
    ensures value { result ≡ place_within wraps size coordinate }
    ensures small { IfSome result (λ place. place < size) }
{
    if coordinate >= 0 {
        let place = coordinate as u32;
        if wraps {
            Some(place % size)
        } else if place < size {
            Some(place)
        } else {
            None
        }
    } else if wraps {
        let beyond = (-1 - coordinate) as u32;
        Some(size - 1 - beyond % size)
    } else {
        None
    }
}
