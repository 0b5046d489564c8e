//! The two layers in front at each place of a line, while layers are laid over one another from back to front.

ghost use Rattle.std.specs.Prelude.{◌≡◌, ◌<◌, ◌≤◌, ◌^◌, ◌==◌, if◌then◌else◌, ℕ, slice_index};
ghost use Rattle.obj2d.specs.ObjectLaws.{lanes_pixel};
ghost use Rattle.video2d.specs.rows.Fronts.{AreBetween, front_at, front_kind, front_over, mark_blended, objects_over, started};

use crate::rows::chosen;
use obj2d::ObjectLanes;

/// What is kept of a layer beside its colours.
#[derive(Clone, Copy)]
pub struct Laid {
    /// 0x8000 where the layer is a second target of effects, else 0.
    pub second: u16,
    /// What may act on the layer: 2 where it blends over a second target, 1 where its brightness changes, 3 where either does, else 0.
    pub mark: u16,
}

/// What is in front at a place.
#[derive(Clone, Copy)]
pub struct FrontPixel {
    /// The first layer's colour, with bit 15 where the layer is a second target.
    pub top: u16,
    /// The next one's, likewise; 0 where there is none.
    pub next: u16,
    /// What may act on the first layer, as for `Laid`.
    pub mark: u16,
}

/// What is in front along a line.
#[derive(Clone, Copy)]
pub struct Fronts {
    /// The first layer's, as for `FrontPixel`.
    pub tops: [u16; 256],
    /// The next one's.
    pub nexts: [u16; 256],
    /// The marks.
    pub marks: [u16; 256],
}

/// What is in front at a place of a line.
#[inline(always)]
fn front_at(fronts: &Fronts, x: usize) -> FrontPixel
    requires { x < 256 }
    ensures { result ≡ front_at fronts.now x }
{
    FrontPixel {
        top: fronts.tops[x],
        next: fronts.nexts[x],
        mark: fronts.marks[x],
    }
}

/// The mark of a layer whose pixel is of a semi-transparent object where `blended` is 1.
#[inline(always)]
fn mark_blended(blended: u16, mark: u16) -> u16
    ensures { result ≡ mark_blended (blended == 1) mark }
{
    if blended == 1 { 2 + mark % 2 } else { mark }
}

/// The backdrop alone.
pub fn start_fronts(backdrop: u16, laid: Laid, into: &mut Fronts)
    requires { laid.second ≤ 2 ^ 15 }
    ensures { (x : ℕ) → x < 256 → front_at into.new x ≡ started backdrop laid }
{
    let top = backdrop % 0x8000 + laid.second;
    for x in 0..256usize {
        into.tops[x] = top;
        into.nexts[x] = 0;
        into.marks[x] = laid.mark;
    }
}

/// Lays a row of pixels.
pub fn lay_front(row: &[u16; 256], laid: Laid, into: &mut Fronts)
    requires { laid.second ≤ 2 ^ 15 }
    ensures { (x : ℕ) → x < 256 → front_at into.new x ≡ front_over (slice_index row.now x) laid (front_at into.old x) }
{
    for x in 0..256usize {
        let pixel = row[x];
        let top = into.tops[x];
        into.nexts[x] = chosen(pixel == 0, into.nexts[x], top);
        into.marks[x] = chosen(pixel == 0, into.marks[x], laid.mark);
        into.tops[x] = chosen(pixel == 0, top, pixel % 0x8000 + laid.second);
    }
}

/// Lays the objects of the priority whose turn it is, which are from one place on and before another.
pub fn lay_front_objects(
    objects: &ObjectLanes,
    turn: u8,
    first: usize,
    end: usize,
    laid: Laid,
    into: &mut Fronts,
)
    requires order { first ≤ end }
    requires small { end ≤ 256 }
    requires within { AreBetween objects.now turn first end }
    requires second { laid.second ≤ 2 ^ 15 }
    ensures { (x : ℕ) → x < 256 → front_at into.new x
        ≡ (let p = lanes_pixel objects.now x in objects_over p.colour p.priority p.blended turn laid (front_at into.old x)) }
{
    for x in first..end {
        let pixel = chosen(objects.priorities[x] == turn as u16, objects.colours[x], 0);
        let mark = mark_blended(objects.blended[x], laid.mark);
        let top = into.tops[x];
        into.nexts[x] = chosen(pixel == 0, into.nexts[x], top);
        into.marks[x] = chosen(pixel == 0, into.marks[x], mark);
        into.tops[x] = chosen(pixel == 0, top, pixel % 0x8000 + laid.second);
    }
}

/// What acts at a place: 2 where the first layer is blended with the next, 1 where its brightness may change, else 0.
#[inline(always)]
fn kind_of(front: FrontPixel) -> u16
    ensures { result ≡ front_kind front }
{
    if (front.mark >= 2) & (front.next >= 0x8000) {
        2
    } else {
        front.mark % 2
    }
}

/// What acts along a line.
pub fn kinds_of(fronts: &Fronts, into: &mut [u16; 256])
    ensures { (x : ℕ) → x < 256 → slice_index into.new x ≡ front_kind (front_at fronts.now x) }
{
    for x in 0..256usize {
        into[x] = kind_of(front_at(fronts, x));
    }
}
