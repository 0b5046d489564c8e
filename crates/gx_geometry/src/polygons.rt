//! Vertices and polygons, as the lists of a swap have them.

ghost use Rattle.std.specs.Prelude.{◌≡◌, ◌≤◌, ◌-◌, ◌^◌, ◌-ℤ◌, ◌+ℤ◌, ◌*ℤ◌, ◌≤ℤ◌, pos, negsuc, true, length, slice_index, slice_index_or, IfSome};
ghost use Rattle.std.specs.Option.{unwrap_or};
ghost use Rattle.ds_base.specs.Bits.{bit};
ghost use Rattle.gx_geometry.specs.Polygons.{vertex_of, vertex_at, minor, times_minor, determinant, is_kept, polygon_among};
ghost use Rattle.gx_geometry.specs.BoundLaws.{is_shaped};
ghost use Rattle.gx_geometry.specs.Backs.{shape_of, corners_back, index_back, reaches_back, seen_back, indices_back, polygon_back, polygon_by_shape};

mod saved;

use crate::boxes::through;
use crate::exact::product;
use crate::numbers::{Kind, Numbers};
pub use saved::{put_polygon, put_vertex, take_polygon, take_vertex};

/// A vertex in clip space: x, y, z and w are signed words with 12 fractional bits (GBATEK, "DS 3D Polygon Definitions by Vertices").
#[derive(Clone, Copy)]
pub struct Vertex {
    /// Across.
    pub x: i32,
    /// Up.
    pub y: i32,
    /// Away from the viewer.
    pub z: i32,
    /// What the others are divided by.
    pub w: i32,
    /// The colour, in bits 0 to 14.
    pub colour: u16,
    /// The texture coordinate across, with 4 fractional bits.
    pub s: i16,
    /// The texture coordinate down, with 4 fractional bits.
    pub t: i16,
}

/// A polygon of three or four vertices.
#[derive(Clone, Copy)]
pub struct Polygon {
    /// The attributes (GBATEK, POLYGON_ATTR).
    pub attributes: u32,
    /// The texture parameter (GBATEK, TEXIMAGE_PARAM).
    pub texture: u32,
    /// The base of the texture's palette (GBATEK, PLTT_BASE).
    pub palette: u32,
    /// The viewport (GBATEK, VIEWPORT).
    pub viewport: u32,
    /// How many vertices it has, 3 or 4.
    pub corners: u8,
    /// Their places in the list of vertices; the fourth is 0 where there are three.
    pub indices: [u16; 4],
}

const NO_VERTEX: Vertex = Vertex {
    x: 0,
    y: 0,
    z: 0,
    w: 0,
    colour: 0,
    s: 0,
    t: 0,
};

/// The shape of a polygon that a run completes.
#[derive(Clone, Copy)]
pub enum Shape {
    /// Three vertices in their order.
    Triangle,
    /// Three vertices, the first two of them exchanged.
    TurnedTriangle,
    /// Four vertices in their order.
    Quad,
    /// Four vertices, the last two of them exchanged.
    StripQuad,
}

/// The vertex that a vertex command gives.
#[tactic(auto, using(gx_matrix::proofs::Sums::casts), unfolding(crate::specs::Polygons::vertex_of))]
pub fn vertex_of(s: &Numbers) -> Vertex
    ensures value { result ≡ vertex_of s.now }
    ensures colour { result.colour ≡ s.now.colour }
{
    let c = through(s.point, &s.stacks.clip());
    Vertex {
        x: c.x,
        y: c.y,
        z: c.z,
        w: c.w,
        colour: s.colour,
        s: s.coordinates.s,
        t: s.coordinates.t,
    }
}

#[tactic(auto, using(std::proofs::lemmas::Int::ints))]
fn minor_of(left: i64, right: i64) -> i128
    ensures value { result ≡ left -ℤ right }
    ensures low { negsuc (2 ^ 64) ≤ℤ result }
    ensures high { result ≤ℤ pos (2 ^ 64) }
{
    left as i128 - right as i128
}

/// A product that needs more than 64 bits.
fn wide_product(a: i32, minor: i128) -> i128
    requires low { negsuc (2 ^ 64) ≤ℤ minor }
    requires high { minor ≤ℤ pos (2 ^ 64) }
    ensures value { result ≡ a *ℤ minor }
    ensures low { negsuc (2 ^ 97) ≤ℤ result }
    ensures high { result ≤ℤ pos (2 ^ 97) }
{
    a as i128 * minor
}

#[tactic(auto, using(std::proofs::lemmas::Int::ints))]
fn alternating(a: i128, b: i128, c: i128) -> i128
    requires a_low { negsuc (2 ^ 97) ≤ℤ a }
    requires a_high { a ≤ℤ pos (2 ^ 97) }
    requires b_low { negsuc (2 ^ 97) ≤ℤ b }
    requires b_high { b ≤ℤ pos (2 ^ 97) }
    requires c_low { negsuc (2 ^ 97) ≤ℤ c }
    requires c_high { c ≤ℤ pos (2 ^ 97) }
    ensures { result ≡ (a -ℤ b) +ℤ c }
{
    a - b + c
}

#[tactic(auto, using(gx_matrix::proofs::Sums::casts))]
fn minor(a: i32, b: i32, c: i32, d: i32) -> i128
    ensures value { result ≡ minor a b c d }
    ensures low { negsuc (2 ^ 64) ≤ℤ result }
    ensures high { result ≤ℤ pos (2 ^ 64) }
{
    minor_of(product(a, d), product(b, c))
}

/// A number times a minor, exact.
#[tactic(auto, using(gx_matrix::proofs::Sums::casts), unfolding(crate::specs::Polygons::times_minor))]
fn times_minor(n: i32, a: i32, b: i32, c: i32, d: i32) -> i128
    ensures value { result ≡ times_minor n a b c d }
    ensures low { negsuc (2 ^ 97) ≤ℤ result }
    ensures high { result ≤ℤ pos (2 ^ 97) }
{
    wide_product(n, minor(a, b, c, d))
}

#[tactic(auto, using(gx_matrix::proofs::Sums::casts))]
fn term_of_x(a: &Vertex, b: &Vertex, c: &Vertex) -> i128
    ensures value { result ≡ times_minor a.now.x b.now.y b.now.w c.now.y c.now.w }
    ensures low { negsuc (2 ^ 97) ≤ℤ result }
    ensures high { result ≤ℤ pos (2 ^ 97) }
{
    times_minor(a.x, b.y, b.w, c.y, c.w)
}

#[tactic(auto, using(gx_matrix::proofs::Sums::casts))]
fn term_of_y(a: &Vertex, b: &Vertex, c: &Vertex) -> i128
    ensures value { result ≡ times_minor a.now.y b.now.x b.now.w c.now.x c.now.w }
    ensures low { negsuc (2 ^ 97) ≤ℤ result }
    ensures high { result ≤ℤ pos (2 ^ 97) }
{
    times_minor(a.y, b.x, b.w, c.x, c.w)
}

#[tactic(auto, using(gx_matrix::proofs::Sums::casts))]
fn term_of_w(a: &Vertex, b: &Vertex, c: &Vertex) -> i128
    ensures value { result ≡ times_minor a.now.w b.now.x b.now.y c.now.x c.now.y }
    ensures low { negsuc (2 ^ 97) ≤ℤ result }
    ensures high { result ≤ℤ pos (2 ^ 97) }
{
    times_minor(a.w, b.x, b.y, c.x, c.y)
}

/// The determinant of the rows x, y, w of three vertices.
#[tactic(auto, using(gx_matrix::proofs::Sums::casts), unfolding(crate::specs::Polygons::determinant))]
fn determinant(a: &Vertex, b: &Vertex, c: &Vertex) -> i128
    ensures { result ≡ determinant a.now b.now c.now }
{
    alternating(term_of_x(a, b, c), term_of_y(a, b, c), term_of_w(a, b, c))
}

fn shows_back(attributes: u32) -> bool
    ensures { result ≡ bit 6 attributes }
{
    (attributes >> 6) & 1 == 1
}

fn shows_front(attributes: u32) -> bool
    ensures { result ≡ bit 7 attributes }
{
    (attributes >> 7) & 1 == 1
}

/// Whether polygons with these attributes and this determinant are kept.
#[tactic(auto, using(crate::proofs::Sides::sides))]
fn is_kept(attributes: u32, determinant: i128) -> bool
    ensures { result ≡ is_kept attributes determinant }
{
    let back = shows_back(attributes);
    let front = shows_front(attributes);
    if determinant > 0 {
        front
    } else if determinant < 0 {
        back
    } else {
        back || front
    }
}

/// The shape that a run's vertex of a place, counted from 0, completes.
#[tactic(auto, unfolding(crate::specs::Backs::shape_of))]
fn shape_of(kind: Kind, place: u64) -> Option<Shape>
    ensures { result ≡ shape_of kind place }
{
    match kind {
        Kind::Triangles if place % 3 == 2 => Some(Shape::Triangle),
        Kind::Quads if place % 4 == 3 => Some(Shape::Quad),
        Kind::TriangleStrip if place >= 2 && place % 2 == 0 => Some(Shape::Triangle),
        Kind::TriangleStrip if place >= 2 => Some(Shape::TurnedTriangle),
        Kind::QuadStrip if place >= 3 && place % 2 != 0 => Some(Shape::StripQuad),
        _ => None,
    }
}

/// How many corners a shape has.
fn corner_count(shape: Shape) -> u8
    ensures value { result ≡ length (corners_back shape) }
{
    match shape {
        Shape::Triangle | Shape::TurnedTriangle => 3,
        Shape::Quad | Shape::StripQuad => 4,
    }
}

/// Where the first three corners of a shape stand, by where the run's last four vertices do.
fn first_corners(four: [Option<u16>; 4], shape: Shape) -> (Option<u16>, Option<u16>, Option<u16>)
    ensures zero { result.0 ≡ index_back four (slice_index (corners_back shape) 0) }
    ensures one { result.1 ≡ index_back four (slice_index (corners_back shape) 1) }
    ensures two { result.2 ≡ index_back four (slice_index (corners_back shape) 2) }
{
    match shape {
        Shape::Triangle => (four[1], four[2], four[3]),
        Shape::TurnedTriangle => (four[2], four[1], four[3]),
        Shape::Quad => (four[0], four[1], four[2]),
        Shape::StripQuad => (four[0], four[1], four[3]),
    }
}

/// Where all its corners stand; an unused one is 0.
#[tactic(auto, unfolding(crate::specs::Backs::indices_back))]
fn indices_of(four: [Option<u16>; 4], shape: Shape) -> [u16; 4]
    ensures { result ≡ indices_back four shape }
{
    let (a, b) = (four[0].unwrap_or(0), four[1].unwrap_or(0));
    let (c, d) = (four[2].unwrap_or(0), four[3].unwrap_or(0));
    match shape {
        Shape::Triangle => [b, c, d, 0],
        Shape::TurnedTriangle => [c, b, d, 0],
        Shape::Quad => [a, b, c, d],
        Shape::StripQuad => [a, b, d, c],
    }
}

/// Whether none of its corners stands nowhere.
#[tactic(auto, unfolding(crate::specs::Backs::reaches_back))]
fn reaches_back(four: [Option<u16>; 4], shape: Shape) -> bool
    ensures { result ≡ reaches_back four shape }
{
    let (a, b, c) = first_corners(four, shape);
    let three = a.is_some() && b.is_some() && c.is_some();
    match shape {
        Shape::Triangle | Shape::TurnedTriangle => three,
        Shape::Quad => three && four[3].is_some(),
        Shape::StripQuad => three && four[2].is_some(),
    }
}

/// The vertex of a place, and none past the last.
fn vertex_at(came: &[Vertex], place: Option<u16>) -> Vertex
    ensures { result ≡ vertex_at came.now place }
{
    let Some(place) = place else {
        return NO_VERTEX;
    };
    match came.get(place as usize) {
        Some(vertex) => *vertex,
        None => NO_VERTEX,
    }
}

/// Whether a polygon's side may be seen.
#[tactic(auto, using(gx_matrix::proofs::Sums::casts), unfolding(crate::specs::Backs::seen_back))]
fn may_be_seen(came: &[Vertex], four: [Option<u16>; 4], attributes: u32, shape: Shape) -> bool
    ensures { result ≡ seen_back four came.now attributes shape }
{
    let (a, b, c) = first_corners(four, shape);
    let (a, b, c) = (vertex_at(came, a), vertex_at(came, b), vertex_at(came, c));
    is_kept(attributes, determinant(&a, &b, &c))
}

#[tactic(auto, unfolding(crate::specs::Backs::polygon_back))]
fn polygon_with(four: [Option<u16>; 4], s: &Numbers, shape: Shape) -> Polygon
    ensures value { result ≡ polygon_back four s.now shape }
    ensures palette { result.palette ≡ s.now.palette }
    ensures shape { is_shaped result ≡ true }
{
    Polygon {
        attributes: s.attributes,
        texture: s.texture,
        palette: s.palette,
        viewport: s.viewport,
        corners: corner_count(shape),
        indices: indices_of(four, shape),
    }
}

fn polygon_by_shape(came: &[Vertex], four: [Option<u16>; 4], s: &Numbers) -> Option<Polygon>
    requires { 1 ≤ s.now.run }
    ensures value { result ≡ polygon_by_shape (shape_of s.now.kind (s.now.run - 1)) four came.now s.now }
    ensures palette { IfSome result (λ p. p.palette ≡ s.now.palette) }
    ensures shape { IfSome result (λ p. is_shaped p ≡ true) }
{
    match shape_of(s.kind, s.run - 1) {
        Some(shape) if reaches_back(four, shape) && may_be_seen(came, four, s.attributes, shape) =>
            { Some(polygon_with(four, s, shape)) }
        _ => None,
    }
}

/// The polygon that the last of these vertices makes, if it does, by where the run's last four stand.
#[tactic(auto, using(crate::proofs::Backs::by_shape))]
pub fn polygon_of(came: &[Vertex], four: [Option<u16>; 4], s: &Numbers) -> Option<Polygon>
    requires { 1 ≤ s.now.run }
    ensures value { result ≡ polygon_among four came.now s.now }
    ensures palette { IfSome result (λ p. p.palette ≡ s.now.palette) }
    ensures shape { IfSome result (λ p. is_shaped p ≡ true) }
{
    polygon_by_shape(came, four, s)
}
