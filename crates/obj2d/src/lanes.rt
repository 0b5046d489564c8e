//! A row while objects are laid over one another.

ghost use Rattle.std.specs.Prelude.{◌≡◌, ◌≢◌, ◌<◌, ◌≤◌, ◌+◌, if◌then◌else◌, ℕ, slice_index};
ghost use Rattle.obj2d.specs.ObjectLaws.{lanes_pixel};
ghost use Rattle.obj2d.specs.ObjectLayer.{blank_pixel, with_object};
ghost use Rattle.obj2d.specs.rows.Spans.{span_first, span_start, span_count};

use crate::layers::{ObjectLanes, ObjectPixel};

/// One of two numbers, both of which are found, so that no branch is taken by tests that can't be foreseen, and many places are laid at once.
#[inline(always)]
fn chosen(first: bool, x: u16, y: u16) -> u16
    ensures { result ≡ (if first then x else y) }
{
    if first { x } else { y }
}

/// Lays a pixel of an object that is shown.
#[inline(always)]
pub fn put_shown(colour: u16, priority: u8, mode: u8, x: usize, into: &mut ObjectLanes)
    requires known { x < 256 }
    requires shown { mode ≢ 2 }
    ensures here { lanes_pixel into.new x ≡ with_object (record { colour = colour; priority = priority; mode = mode }) (lanes_pixel into.old x) }
    ensures others { (i : ℕ) → i ≢ x → lanes_pixel into.new i ≡ lanes_pixel into.old i }
{
    let there = into.colours[x];
    let rank = priority as u16;
    let semi = if mode == 1 { 1 } else { 0 };
    let over = (colour != 0) & ((there == 0) | (rank < into.priorities[x]));
    into.colours[x] = chosen(over, colour, there);
    into.priorities[x] = chosen(over, rank, into.priorities[x]);
    into.blended[x] = chosen(over, semi, into.blended[x]);
}

/// Lays a pixel of an object of the object window.
#[inline(always)]
pub fn put_window(colour: u16, priority: u8, mode: u8, x: usize, into: &mut ObjectLanes)
    requires known { x < 256 }
    requires window { mode ≡ 2 }
    ensures here { lanes_pixel into.new x ≡ with_object (record { colour = colour; priority = priority; mode = mode }) (lanes_pixel into.old x) }
    ensures others { (i : ℕ) → i ≢ x → lanes_pixel into.new i ≡ lanes_pixel into.old i }
{
    into.windows[x] = chosen(colour == 0, into.windows[x], 1);
}

/// The pixel of a place.
pub fn lanes_pixel(row: &ObjectLanes, x: usize) -> ObjectPixel
    requires known { x < 256 }
    requires small { slice_index row.now.priorities x < 4 }
    ensures { result ≡ lanes_pixel row.now x }
{
    ObjectPixel {
        colour: row.colours[x],
        priority: row.priorities[x] as u8,
        blended: row.blended[x] == 1,
        window: row.windows[x] == 1,
    }
}

/// No object is anywhere.
pub fn clear(into: &mut ObjectLanes)
    ensures { (x : ℕ) → x < 256 → lanes_pixel into.new x ≡ blank_pixel }
{
    for x in 0..256usize {
        into.colours[x] = 0;
        into.priorities[x] = 0;
        into.blended[x] = 0;
        into.windows[x] = 0;
    }
}

/// Which pixels of a box are on the screen.
#[derive(Clone, Copy)]
pub struct Span {
    /// From which pixel of the box on.
    pub first: usize,
    /// From which place of the screen on.
    pub start: usize,
    /// How many.
    pub count: usize,
}

/// Which pixels of a box of n pixels are on the screen, by its left edge.
pub fn on_screen(left: usize, n: usize) -> Span
    requires left { left < 512 }
    requires small { n ≤ 128 }
    ensures first { result.first ≡ span_first left }
    ensures start { result.start ≡ span_start left }
    ensures count { result.count ≡ span_count left n }
    ensures on_screen { result.start + result.count ≤ 256 }
    ensures in_box { (i : ℕ) → i < result.count → result.first + i < n }
{
    let first = if left < 256 { 0 } else { 512 - left };
    let start = if left < 256 { left } else { 0 };
    let pixels = if first < n { n - first } else { 0 };
    let places = 256 - start;
    let count = if pixels < places { pixels } else { places };
    Span {
        first,
        start,
        count,
    }
}
