//! What the types of numbers tell of them: nothing is done here.

ghost use Rattle.std.specs.Prelude.{◌≡◌, ◌<◌, ◌≤◌, ◌^◌, ℕ, FitsSigned, pos, length, map, slice_index, slice_index_or};
ghost use Rattle.std.specs.Int.{w16, w32};
ghost use Rattle.std.specs.List.{AllByRecursion};
ghost use Rattle.gx_geometry.specs.BoundLaws.{AreSmall, HaveColours, HavePalettes, HaveShapes};
ghost use Rattle.gx_geometry.specs.Numbers.{no_light};
ghost use Rattle.gx_geometry.specs.SavedLaws.{AreCurrent, AreLighting, AreTestResults, IsLight, IsPolygon, IsVertex};
ghost use Rattle.gx_geometry.specs.SavedKept.{current_numbers, lighting_numbers};
ghost use Rattle.gx_geometry.specs.SavedKept.{FitsLight, FitsPolygon, FitsVertex, results_seen};

use crate::numbers::{Coordinates, Light, Numbers, Point};
use crate::polygons::{Polygon, Vertex};
use crate::results::Results;

fn is_word(n: i32)
    ensures { FitsSigned w32 n }
{}

fn is_half(n: i16)
    ensures { FitsSigned w16 n }
{}

/// Of a word.
pub fn is_unsigned_word(n: u32)
    ensures { n < 2 ^ 32 }
{}

fn is_unsigned_half(n: u16)
    ensures { n < 2 ^ 16 }
{}

/// Of a vertex.
fn is_vertex(v: &Vertex)
    ensures { FitsVertex v.now }
{
    is_word(v.x);
    is_word(v.y);
    is_word(v.z);
    is_word(v.w);
    is_half(v.s);
    is_half(v.t);
}

/// Of vertices.
#[tactic(auto, using(crate::proofs::Walks::all_vertices))]
pub fn are_vertices(vertices: &[Vertex])
    requires { HaveColours vertices.now }
    ensures { AllByRecursion IsVertex vertices.now }
{
    for vertex in vertices {
        is_vertex(vertex);
    }
}

/// Of a polygon.
fn is_polygon(p: &Polygon)
    ensures { FitsPolygon p.now }
{
    is_unsigned_word(p.attributes);
    is_unsigned_word(p.texture);
    is_unsigned_word(p.viewport);
    is_unsigned_half(p.indices[0]);
    is_unsigned_half(p.indices[1]);
    is_unsigned_half(p.indices[2]);
    is_unsigned_half(p.indices[3]);
}

/// Of polygons.
#[tactic(auto, using(crate::proofs::Walks::all_polygons))]
pub fn are_polygons(polygons: &[Polygon])
    requires palettes { HavePalettes polygons.now }
    requires shapes { HaveShapes polygons.now }
    ensures { AllByRecursion IsPolygon polygons.now }
{
    for polygon in polygons {
        is_polygon(polygon);
    }
}

/// Of signed words.
#[tactic(auto, using(crate::proofs::Walks::all_signed))]
fn are_signed(words: &[i32])
    ensures { AllByRecursion (λ x. FitsSigned w32 x) words.now }
{
    for word in words {
        is_word(*word);
    }
}

/// Of the results of tests.
pub fn are_results(results: &Results)
    ensures { AreTestResults (results_seen results.now) }
{
    are_signed(&results.position);
    is_half(results.vector[0]);
    is_half(results.vector[1]);
    is_half(results.vector[2]);
}

fn is_point(p: Point)
    ensures x { FitsSigned w16 p.x }
    ensures y { FitsSigned w16 p.y }
    ensures z { FitsSigned w16 p.z }
{
    is_half(p.x);
    is_half(p.y);
    is_half(p.z);
}

fn are_coordinates(c: Coordinates)
    ensures s { FitsSigned w16 c.s }
    ensures t { FitsSigned w16 c.t }
{
    is_half(c.s);
    is_half(c.t);
}

/// Of what vertices and polygons have that come next.
pub fn are_current(s: &Numbers)
    requires { AreSmall s.now }
    ensures current { AreCurrent (current_numbers s.now) }
    ensures parameter { s.now.parameter < 2 ^ 32 }
{
    is_point(s.point);
    are_coordinates(s.raw);
    are_coordinates(s.coordinates);
    is_unsigned_word(s.set);
    is_unsigned_word(s.attributes);
    is_unsigned_word(s.texture);
    is_unsigned_word(s.viewport);
    is_unsigned_word(s.parameter);
}

fn is_light(light: &Light)
    ensures { FitsLight light.now }
{
    is_word(light.x);
    is_word(light.y);
    is_word(light.z);
}

/// Of lights.
#[tactic(auto, using(crate::proofs::Walks::all_lights))]
fn are_lights(lights: &[Light])
    requires { (i : ℕ) → (slice_index_or lights.now i no_light).colour < 2 ^ 15 }
    ensures { AllByRecursion IsLight lights.now }
{
    for light in lights {
        is_light(light);
    }
}

/// Of all that lighting asks.
pub fn are_lighting(s: &Numbers)
    requires { AreSmall s.now }
    ensures { AreLighting (lighting_numbers s.now) }
{
    are_lights(&s.lights);
}
