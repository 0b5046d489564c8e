//! The lists that a swap gives out.

ghost use Rattle.std.specs.Prelude.{◌≡◌, [], IfOk};
ghost use Rattle.gx_geometry.specs.States.{Swapped, no_swap};

mod saved;

use crate::capped::Capped;
use crate::polygons::{Polygon, Vertex};
use ds_base::Tick;
pub use saved::{put_polygons, put_vertices, take_polygons, take_vertices};
use std::alloc::{AllocError, Global};
use std::marker::Model;
use std::mem::swap;

/// How many vertices a swap takes.
pub const VERTICES: usize = 6144;
/// How many polygons a swap takes.
pub const POLYGONS: usize = 2048;

/// The lists of the last swap. Contracts see its tick, its parameter, its vertices and its polygons.
#[derive(Drop)]
pub struct Lists {
    tick: Tick,
    parameter: u32,
    vertices: Capped<Vertex, VERTICES>,
    polygons: Capped<Polygon, POLYGONS>,
}

impl Model for Lists {
    ghost use Rattle.gx_geometry.specs.States.{Swapped};

    ghost Value = { Swapped };

    ghost view = { λ l. record { tick = l.tick; parameter = l.parameter; vertices = l.vertices; polygons = l.polygons } };
}

impl Lists {
    /// No swap yet; this takes the lists' memory.
    pub(crate) fn new(alloc: Global) -> Result<Lists, AllocError>
        ensures { IfOk result (λ l. l ≡ no_swap) }
    {
        Ok(Lists {
            tick: Tick(0),
            parameter: 0,
            vertices: Capped::new(alloc)?,
            polygons: Capped::new(alloc)?,
        })
    }

    /// A swap takes the open lists, which are empty then.
    pub(crate) fn take(
        &mut self,
        tick: Tick,
        parameter: u32,
        vertices: &mut Capped<Vertex, VERTICES>,
        polygons: &mut Capped<Polygon, POLYGONS>,
    )
        ensures taken { self.new ≡ record { tick = tick; parameter = parameter; vertices = vertices.old; polygons = polygons.old } }
        ensures no_vertex { vertices.new ≡ [] }
        ensures no_polygon { polygons.new ≡ [] }
    {
        self.tick = tick;
        self.parameter = parameter;
        swap(&mut self.vertices, vertices);
        swap(&mut self.polygons, polygons);
        vertices.clear();
        polygons.clear();
    }

    /// When the swap was; 0 before the first.
    pub fn tick(&self) -> Tick
        ensures { result ≡ self.now.tick }
    {
        self.tick
    }

    /// The swap's parameter (GBATEK, SWAP_BUFFERS); 0 before the first.
    pub fn parameter(&self) -> u32
        ensures { result ≡ self.now.parameter }
    {
        self.parameter
    }

    /// The vertices, in the order in which they came.
    pub fn vertices(&self) -> &[Vertex]
        ensures { result.now ≡ self.now.vertices }
    {
        self.vertices.as_slice()
    }

    /// The polygons, in the order in which they were completed.
    pub fn polygons(&self) -> &[Polygon]
        ensures { result.now ≡ self.now.polygons }
    {
        self.polygons.as_slice()
    }
}
