//! The places that an object's box covers, and the points that are shown there.

ghost use Rattle.std.specs.Prelude.{◌≡◌, ◌<◌, ◌≤◌, ◌+◌, ◌*◌, ◌/◌, ◌^◌, ◌+ℤ◌, ◌*ℤ◌, ◌≤ℤ◌, ℤ, pos, negsuc, IfSome};
ghost use Rattle.std.specs.Int.{int_shr};
ghost use Rattle.obj2d.specs.Attributes.{left_edge, width, height, box_width, box_height};
ghost use Rattle.obj2d.specs.Places.{down, covers, is_drawn, mirrored, from_middle, box_coordinate, inside, affine_across, affine_down};

use crate::attributes::{box_height, box_width, height, is_off, mode, width};
use crate::objects::{Object, Turn};

/// The object's X, of nine bits.
pub fn left_edge(object: &Object) -> usize
    ensures value { result ≡ left_edge object.now }
    ensures small { result < 512 }
{
    (object.attribute1 % 0x200) as usize
}

/// How far a line is from the top of the object's box.
pub fn down(object: &Object, line: u8) -> usize
    ensures value { result ≡ down object.now line }
    ensures small { result < 256 }
{
    (line as usize + 256 - (object.attribute0 % 0x100) as usize) % 256
}

/// Whether the object's box covers the line.
pub fn covers(control: u32, object: &Object, line: u8) -> bool
    ensures { result ≡ covers control object.now line }
{
    (control >> 12) % 2 == 1 && !is_off(object) && down(object, line) < box_height(object)
}

/// Whether the object is drawn on the line.
pub fn is_drawn(control: u32, object: &Object, line: u8) -> bool
    ensures { result ≡ is_drawn control object.now line }
{
    mode(object) != 3 && covers(control, object, line)
}

/// A place in a row or column of so many pixels, flipped or not.
pub fn mirrored(flip: bool, count: usize, place: usize) -> usize
    requires { place < count }
    ensures value { result ≡ mirrored flip count place }
    ensures small { result < count }
{
    if flip { count - 1 - place } else { place }
}

/// The distance of a place of the box from its middle.
#[inline(always)]
fn from_middle(size: usize, place: usize) -> i32
    requires size { size ≤ 128 }
    requires place { place < 128 }
    ensures value { result ≡ from_middle size place }
    ensures low { negsuc 64 ≤ℤ result }
    ensures high { result ≤ℤ pos 128 }
{
    place as i32 - (size / 2) as i32
}

/// So many steps.
#[inline(always)]
fn steps(step: i16, distance: i32) -> i32
    requires low { negsuc 64 ≤ℤ distance }
    requires high { distance ≤ℤ pos 128 }
    ensures { result ≡ step *ℤ distance }
{
    step as i32 * distance
}

/// The sum of the steps across and down.
#[inline(always)]
fn sum(first: i32, second: i32) -> i64
    ensures value { result ≡ first +ℤ second }
    ensures low { negsuc (2 ^ 32) ≤ℤ result }
    ensures high { result ≤ℤ pos (2 ^ 32) }
{
    first as i64 + second as i64
}

/// A number with 8 fractional bits, which are cut off downwards.
#[inline(always)]
fn whole(sum: i64) -> i64
    requires low { negsuc (2 ^ 32) ≤ℤ sum }
    requires high { sum ≤ℤ pos (2 ^ 32) }
    ensures value { result ≡ int_shr sum 8 }
    ensures low { negsuc (2 ^ 32) ≤ℤ result }
    ensures high { result ≤ℤ pos (2 ^ 32) }
{
    sum >> 8
}

/// A distance from the middle of the object, as a coordinate.
#[inline(always)]
fn from_edge(distance: i64, count: usize) -> i64
    requires low { negsuc (2 ^ 32) ≤ℤ distance }
    requires high { distance ≤ℤ pos (2 ^ 32) }
    requires count { count ≤ 64 }
    ensures { result ≡ distance +ℤ pos (count / 2) }
{
    distance + (count / 2) as i64
}

/// A coordinate of an affine object's point.
#[inline(always)]
fn box_coordinate(a: i16, b: i16, dx: i32, dy: i32, count: usize) -> i64
    requires dx_low { negsuc 64 ≤ℤ dx }
    requires dx_high { dx ≤ℤ pos 128 }
    requires dy_low { negsuc 64 ≤ℤ dy }
    requires dy_high { dy ≤ℤ pos 128 }
    requires count { count ≤ 64 }
    ensures { result ≡ box_coordinate a b dx dy count }
{
    from_edge(whole(sum(steps(a, dx), steps(b, dy))), count)
}

/// A place in the object, or none where a coordinate lies outside.
#[inline(always)]
fn inside(count: usize, coordinate: i64) -> Option<usize>
    ensures value { result ≡ inside count coordinate }
    ensures small { IfSome result (λ place. place < count) }
{
    if coordinate >= 0 {
        let place = coordinate as usize;
        if place < count { Some(place) } else { None }
    } else {
        None
    }
}

/// The distances of a place of the box from its middle, across and down.
#[inline(always)]
fn distances(object: &Object, x: usize, y: usize) -> (i32, i32)
    requires x { x < box_width object.now }
    requires y { y < box_height object.now }
    ensures across { result.0 ≡ from_middle (box_width object.now) x }
    ensures down { result.1 ≡ from_middle (box_height object.now) y }
    ensures across_low { negsuc 64 ≤ℤ result.0 }
    ensures across_high { result.0 ≤ℤ pos 128 }
    ensures down_low { negsuc 64 ≤ℤ result.1 }
    ensures down_high { result.1 ≤ℤ pos 128 }
{
    (
        from_middle(box_width(object), x),
        from_middle(box_height(object), y),
    )
}

/// The place across of an affine object's point.
#[inline(always)]
pub fn affine_across(object: &Object, turn: &Turn, x: usize, y: usize) -> Option<usize>
    requires x { x < box_width object.now }
    requires y { y < box_height object.now }
    ensures value { result ≡ affine_across object.now turn.now x y }
    ensures small { IfSome result (λ place. place < width object.now) }
{
    let (dx, dy) = distances(object, x, y);
    let count = width(object);
    inside(count, box_coordinate(turn.pa, turn.pb, dx, dy, count))
}

/// The place down of an affine object's point.
#[inline(always)]
pub fn affine_down(object: &Object, turn: &Turn, x: usize, y: usize) -> Option<usize>
    requires x { x < box_width object.now }
    requires y { y < box_height object.now }
    ensures value { result ≡ affine_down object.now turn.now x y }
    ensures small { IfSome result (λ place. place < height object.now) }
{
    let (dx, dy) = distances(object, x, y);
    let count = height(object);
    inside(count, box_coordinate(turn.pc, turn.pd, dx, dy, count))
}
