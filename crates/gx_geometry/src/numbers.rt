//! The numbers that geometry commands keep, and the fields of their parameters.

ghost use Rattle.std.specs.Prelude.{◌≡◌, ◌<◌, ◌≤◌, ◌*◌, ℤ, pos, negsuc, ◌*ℤ◌, ◌≤ℤ◌, length, slice_set};
ghost use Rattle.gx_matrix.specs.Commands.{signed_bits};
ghost use Rattle.gx_matrix.specs.CommandTable.{HasParameters};
ghost use Rattle.gx_geometry.specs.Lights.{light_at};
ghost use Rattle.gx_geometry.specs.Numbers.{low_half, high_half, kind_of, point_by_halves, point_by_tens, point_moved, point_by_word, point_after};

mod saved;

use crate::exact::wrapped_sum;
use gx_matrix::{GeometryCommand, Stacks};
pub use saved::{
    Current, Lighting, put_current, put_lighting, run_kind_number, take_current, take_lighting,
};

/// The kind of the polygons that a run of vertices makes (GBATEK, BEGIN_VTXS).
#[derive(Clone, Copy)]
pub enum Kind {
    /// Three vertices each.
    Triangles,
    /// Four vertices each.
    Quads,
    /// A triangle with each vertex from the third on.
    TriangleStrip,
    /// A quad with every second vertex from the fourth on.
    QuadStrip,
}

/// A vertex as it is given: signed numbers with 12 fractional bits.
#[derive(Clone, Copy)]
pub struct Point {
    /// Across.
    pub x: i16,
    /// Up.
    pub y: i16,
    /// Towards the viewer.
    pub z: i16,
}

/// Texture coordinates: signed numbers with 4 fractional bits.
#[derive(Clone, Copy)]
pub struct Coordinates {
    /// Across the texture.
    pub s: i16,
    /// Down the texture.
    pub t: i16,
}

/// One of the four lights: its vector, already turned by the vector matrix, with 9 fractional bits, and its colour.
#[derive(Clone, Copy)]
pub struct Light {
    /// The vector's x.
    pub x: i32,
    /// The vector's y.
    pub y: i32,
    /// The vector's z.
    pub z: i32,
    /// The colour, in bits 0 to 14.
    pub colour: u16,
}

/// How surfaces reflect light: colours in bits 0 to 14.
#[derive(Clone, Copy)]
pub struct Material {
    /// The diffuse reflection.
    pub diffuse: u16,
    /// The ambient reflection.
    pub ambient: u16,
    /// The specular reflection.
    pub specular: u16,
    /// The light of its own.
    pub emission: u16,
    /// Whether the specular level comes from the shininess table.
    pub by_table: bool,
}

/// All that geometry commands keep, but for the lists that they add to and the results of tests.
#[derive(Drop)]
pub struct Numbers {
    /// The matrices and their stacks.
    pub stacks: Stacks,
    /// The current colour, in bits 0 to 14.
    pub colour: u16,
    /// The current vertex.
    pub point: Point,
    /// The texture coordinates as they were given last.
    pub raw: Coordinates,
    /// The texture coordinates that vertices take.
    pub coordinates: Coordinates,
    /// The polygon attributes that the next run has.
    pub set: u32,
    /// The polygon attributes in force.
    pub attributes: u32,
    /// The texture parameter.
    pub texture: u32,
    /// The base of the texture's palette, 13 bits.
    pub palette: u32,
    /// The viewport.
    pub viewport: u32,
    /// The material.
    pub material: Material,
    /// The shininess table.
    pub table: [u8; 128],
    /// The lights.
    pub lights: [Light; 4],
    /// The kind of the run.
    pub kind: Kind,
    /// How many vertices the run has.
    pub run: u64,
    /// The parameter of the last swap command since the last swap, and 0 where there was none.
    pub parameter: u32,
}

impl Numbers {
    /// One of the lights.
    pub fn light(&self, i: u8) -> Light
        requires { i < 4 }
        ensures { result ≡ light_at self.now i }
    {
        self.lights[i as usize]
    }

    /// Another light in its place.
    pub fn put_light(&mut self, i: u8, light: Light)
        requires { i < 4 }
        ensures { self.new ≡ record self.old { lights = slice_set self.old.lights i light } }
    {
        self.lights[i as usize] = light;
    }
}

/// The lower half of a word, signed.
pub fn low_half(word: u32) -> i16
    ensures { result ≡ low_half word }
{
    ((word & 0xFFFF) as u16).cast_signed()
}

/// The upper half of a word, signed.
pub fn high_half(word: u32) -> i16
    ensures { result ≡ high_half word }
{
    ((word >> 16) as u16).cast_signed()
}

/// One of the three signed numbers of ten bits in a word, by its lowest bit.
pub fn ten(from: u32, word: u32) -> i16
    requires { from < 32 }
    ensures value { result ≡ signed_bits from 10 word }
    ensures low { negsuc 511 ≤ℤ result }
    ensures high { result ≤ℤ pos 511 }
{
    let number = (((word >> from) & 0x3FF) as u16).cast_signed();
    if number < 512 { number } else { number - 1024 }
}

/// The kind of a number below 4.
pub fn kind_of(n: u32) -> Kind
    ensures { result ≡ kind_of n }
{
    match n {
        0 => Kind::Triangles,
        1 => Kind::Quads,
        2 => Kind::TriangleStrip,
        _ => Kind::QuadStrip,
    }
}

fn times_64(number: i16) -> i16
    requires low { negsuc 511 ≤ℤ number }
    requires high { number ≤ℤ pos 511 }
    ensures { result ≡ number *ℤ pos 64 }
{
    number * 64
}

/// A vertex of three halves.
#[tactic(auto, using(gx_matrix::proofs::Sums::casts), unfolding(crate::specs::Numbers::point_by_halves))]
pub fn point_by_halves(params: &[u32]) -> Point
    requires { length params.now ≡ 2 }
    ensures { result ≡ point_by_halves params.now }
{
    Point {
        x: low_half(params[0]),
        y: high_half(params[0]),
        z: low_half(params[1]),
    }
}

#[tactic(auto, using(gx_matrix::proofs::Sums::casts), unfolding(crate::specs::Numbers::point_by_tens))]
fn point_by_tens(word: u32) -> Point
    ensures { result ≡ point_by_tens word }
{
    Point {
        x: times_64(ten(0, word)),
        y: times_64(ten(10, word)),
        z: times_64(ten(20, word)),
    }
}

#[tactic(auto, using(gx_matrix::proofs::Sums::casts), unfolding(crate::specs::Numbers::point_moved))]
fn point_moved(word: u32, p: Point) -> Point
    ensures { result ≡ point_moved word p }
{
    Point {
        x: wrapped_sum(p.x, ten(0, word)),
        y: wrapped_sum(p.y, ten(10, word)),
        z: wrapped_sum(p.z, ten(20, word)),
    }
}

/// The current vertex after a vertex command of one word.
#[tactic(auto, using(gx_matrix::proofs::Sums::casts), unfolding(crate::specs::Numbers::point_by_word))]
fn point_by_word(command: GeometryCommand, word: u32, p: Point) -> Point
    ensures { result ≡ point_by_word command word p }
{
    let (low, high) = (low_half(word), high_half(word));
    match command {
        GeometryCommand::Vtx10 => point_by_tens(word),
        GeometryCommand::VtxXy => Point {
            x: low,
            y: high,
            ..p
        },
        GeometryCommand::VtxXz => Point {
            x: low,
            z: high,
            ..p
        },
        GeometryCommand::VtxYz => Point {
            y: low,
            z: high,
            ..p
        },
        GeometryCommand::VtxDiff => point_moved(word, p),
        _ => p,
    }
}

/// The current vertex after a vertex command.
#[tactic(auto, unfolding(crate::specs::Numbers::point_after))]
pub fn point_after(command: GeometryCommand, params: &[u32], p: Point) -> Point
    requires parameters { HasParameters command params.now }
    requires some { 1 ≤ length params.now }
    ensures { result ≡ point_after command params.now p }
{
    match command {
        GeometryCommand::Vtx16 => point_by_halves(params),
        _ => point_by_word(command, params[0], p),
    }
}
