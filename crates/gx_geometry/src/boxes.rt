//! Vertices through the clip matrix, and the box test.

ghost use Rattle.std.specs.Prelude.{◌≡◌, neg_ℤ, length};
ghost use Rattle.gx_geometry.specs.Boxes.{through, far_side, corner, corners_of, outside, all_outside, box_test};

use crate::exact::wrapped_sum;
use crate::numbers::{Point, high_half, low_half};
use line_lanes::{Matrix, transform4};

/// A vertex in clip space: signed words with 12 fractional bits.
#[derive(Clone, Copy)]
pub struct Clipped {
    /// Across.
    pub x: i32,
    /// Up.
    pub y: i32,
    /// Away from the viewer.
    pub z: i32,
    /// What the others are divided by.
    pub w: i32,
}

/// A plane that bounds the view volume.
#[derive(Clone, Copy)]
pub enum Plane {
    /// x = w.
    Right,
    /// x = -w.
    Left,
    /// y = w.
    Top,
    /// y = -w.
    Bottom,
    /// z = w.
    Far,
    /// z = -w.
    Near,
}

/// A vertex through the clip matrix.
#[tactic(auto, using(gx_matrix::proofs::Sums::casts), unfolding(crate::specs::Boxes::through))]
pub fn through(p: Point, m: &Matrix) -> Clipped
    ensures { result ≡ through p m.now }
{
    let v = transform4([p.x as i32, p.y as i32, p.z as i32, 0x1000], m);
    Clipped {
        x: v[0],
        y: v[1],
        z: v[2],
        w: v[3],
    }
}

#[tactic(auto, using(gx_matrix::proofs::Sums::casts), unfolding(crate::specs::Boxes::far_side))]
fn far_side(far: bool, from: i16, size: i16) -> i16
    ensures { result ≡ far_side far from size }
{
    if far { wrapped_sum(from, size) } else { from }
}

#[tactic(auto, using(gx_matrix::proofs::Sums::casts), unfolding(crate::specs::Boxes::corner))]
fn corner(params: &[u32], m: &Matrix, right: bool, top: bool, near: bool) -> Clipped
    requires { length params.now ≡ 3 }
    ensures { result ≡ corner params.now m.now right top near }
{
    let (first, second, third) = (params[0], params[1], params[2]);
    let x = far_side(right, low_half(first), high_half(second));
    let y = far_side(top, high_half(first), low_half(third));
    let z = far_side(near, low_half(second), high_half(third));
    through(Point { x, y, z }, m)
}

#[tactic(auto, unfolding(crate::specs::Boxes::corners_of))]
fn corners_of(params: &[u32], m: &Matrix) -> [Clipped; 8]
    requires { length params.now ≡ 3 }
    ensures { result ≡ corners_of params.now m.now }
{
    [
        corner(params, m, false, false, false),
        corner(params, m, false, false, true),
        corner(params, m, false, true, false),
        corner(params, m, false, true, true),
        corner(params, m, true, false, false),
        corner(params, m, true, false, true),
        corner(params, m, true, true, false),
        corner(params, m, true, true, true),
    ]
}

fn minus(w: i32) -> i64
    ensures { result ≡ neg_ℤ w }
{
    -(w as i64)
}

#[tactic(auto, using(gx_matrix::proofs::Sums::casts))]
fn outside(plane: Plane, c: Clipped) -> bool
    ensures { result ≡ outside plane c }
{
    match plane {
        Plane::Right => c.x > c.w,
        Plane::Left => (c.x as i64) < minus(c.w),
        Plane::Top => c.y > c.w,
        Plane::Bottom => (c.y as i64) < minus(c.w),
        Plane::Far => c.z > c.w,
        Plane::Near => (c.z as i64) < minus(c.w),
    }
}

#[tactic(auto, unfolding(crate::specs::Boxes::all_outside))]
fn all_outside(plane: Plane, corners: &[Clipped; 8]) -> bool
    ensures { result ≡ all_outside plane corners.now }
{
    corners.iter().all(|c| outside(plane, *c))
}

/// Whether some of a box may be seen: its corners don't all lie outside one same plane.
#[tactic(auto, unfolding(crate::specs::Boxes::box_test))]
pub fn box_test(params: &[u32], m: &Matrix) -> bool
    requires { length params.now ≡ 3 }
    ensures { result ≡ box_test params.now m.now }
{
    let corners = corners_of(params, m);
    !(all_outside(Plane::Right, &corners)
        || all_outside(Plane::Left, &corners)
        || all_outside(Plane::Top, &corners)
        || all_outside(Plane::Bottom, &corners)
        || all_outside(Plane::Far, &corners)
        || all_outside(Plane::Near, &corners))
}
