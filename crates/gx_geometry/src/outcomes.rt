//! What commands bring about beside the numbers: the results of tests, and the open lists.

ghost use Rattle.std.specs.Prelude.{◌≡◌, ◌<◌, ◌≤◌, ◌^◌, true, false, length, IfOk, IfSome, Some};
ghost use Rattle.gx_matrix.specs.CommandTable.{HasParameters};
ghost use Rattle.gx_geometry.specs.Polygons.{polygon_among, most_vertices};
ghost use Rattle.gx_geometry.specs.States.{no_outcome, four_recent, then_recent, results_of, tested, polygon_added, vertex_added, arrived, lists_emptied};
ghost use Rattle.gx_geometry.specs.BoundLaws.{is_shaped, AreSmall, AreLimited, ArePlaces};

mod saved;

use crate::boxes::{box_test, through};
use crate::capped::Capped;
use crate::coordinates::vector_test;
use crate::lists::{Lists, POLYGONS, VERTICES};
use crate::numbers::{Numbers, point_by_halves};
use crate::polygons::{Polygon, Vertex, polygon_of, vertex_of};
use crate::results::Results;
use ds_base::Tick;
use gx_matrix::GeometryCommand;
pub use saved::{
    place_number, place_of_number, put_results, take_length, take_place, take_results,
};
use std::alloc::{AllocError, Global};
use std::marker::Model;

/// The results of tests and the open lists. Contracts see all of them.
#[derive(Drop)]
pub struct Outcome {
    results: Results,
    vertices: Capped<Vertex, VERTICES>,
    polygons: Capped<Polygon, POLYGONS>,
    /// Where the run's last three vertices stand among them, if they do, the oldest first.
    recent: [Option<u16>; 3],
}

impl Model for Outcome {
    ghost use Rattle.std.specs.Prelude.{◌≡◌, ◌≤◌, length};
    ghost use Rattle.gx_geometry.specs.Polygons.{most_vertices, most_polygons};
    ghost use Rattle.gx_geometry.specs.BoundLaws.{ArePlaces, HaveColours, HavePalettes, HaveShapes};
    ghost use Rattle.gx_geometry.specs.States.{OutcomeState};

    ghost Value = { OutcomeState };

    ghost view = { λ o. record {
      position = o.results.position;
      vector = o.results.vector;
      inside = o.results.inside;
      vertices = o.vertices;
      polygons = o.polygons;
      overflow = o.results.overflow;
      recent = o.recent;
    } };

    ghost invariant = { λ o. (o.results.vertices ≡ length o.vertices) × (o.results.polygons ≡ length o.polygons) × (length o.vertices ≤ most_vertices)
        × (length o.polygons ≤ most_polygons) × HaveColours o.vertices × HavePalettes o.polygons
        × HaveShapes o.polygons × ArePlaces (length o.vertices) o.recent };
}

/// The places of a run's last three vertices when the next one comes.
fn then_recent(place: Option<u16>, recent: [Option<u16>; 3]) -> [Option<u16>; 3]
    ensures { result ≡ then_recent place recent }
{
    [recent[1], recent[2], place]
}

impl Outcome {
    /// Nothing was tested, and both lists are empty; this takes their memory.
    #[tactic(auto, using(crate::proofs::Bounds::no_colours, crate::proofs::Bounds::no_palettes, crate::proofs::Recent::no_places))]
    pub fn new(alloc: Global) -> Result<Outcome, AllocError>
        ensures { IfOk result (λ o. o ≡ no_outcome) }
    {
        let vertices = Capped::new(alloc)?;
        let polygons = Capped::new(alloc)?;
        Ok(Outcome {
            results: Results {
                position: [0, 0, 0, 0],
                vector: [0, 0, 0],
                inside: false,
                vertices: 0,
                polygons: 0,
                overflow: false,
            },
            vertices,
            polygons,
            recent: [None; 3],
        })
    }

    #[tactic(auto, using(crate::proofs::Bounds::palette_added, crate::proofs::Bounds::shape_added))]
    fn add_polygon(&mut self, polygon: Option<Polygon>)
        requires palette { IfSome polygon (λ p. p.palette < 2 ^ 13) }
        requires shape { IfSome polygon (λ p. is_shaped p ≡ true) }
        ensures { self.new ≡ polygon_added polygon self.old }
    {
        if let Some(polygon) = polygon {
            if (self.results.polygons as usize) < POLYGONS {
                self.polygons.push(polygon);
                self.results.polygons += 1;
            } else {
                self.results.overflow = true;
            }
        }
    }

    #[tactic(auto, using(crate::proofs::Bounds::colour_added, crate::proofs::Recent::places_added))]
    fn add_vertex(&mut self, vertex: Vertex)
        requires room { length self.old.vertices < most_vertices }
        requires colour { vertex.colour < 2 ^ 15 }
        ensures { self.new ≡ vertex_added vertex self.old }
    {
        self.recent = then_recent(Some(self.results.vertices), self.recent);
        self.vertices.push(vertex);
        self.results.vertices += 1;
    }

    /// Where the run's last three vertices and the next one stand.
    fn four_recent(&self) -> [Option<u16>; 4]
        ensures { result ≡ four_recent self.now }
    {
        [
            self.recent[0],
            self.recent[1],
            self.recent[2],
            Some(self.results.vertices),
        ]
    }

    /// The polygon that the last vertex of the open list makes, if it does, by where the run's last four stand.
    fn completed(&self, four: [Option<u16>; 4], s: &Numbers) -> Option<Polygon>
        requires run { 1 ≤ s.now.run }
        requires palette { s.now.palette < 2 ^ 13 }
        ensures value { result ≡ polygon_among four self.now.vertices s.now }
        ensures palette { IfSome result (λ p. p.palette < 2 ^ 13) }
        ensures shape { IfSome result (λ p. is_shaped p ≡ true) }
    {
        polygon_of(self.vertices.as_slice(), four, s)
    }

    /// A vertex comes, and with it the polygon that it completes.
    #[tactic(auto, using(crate::proofs::Recent::places_dropped), unfolding(crate::specs::States::arrived))]
    pub fn arrive(&mut self, s: &Numbers)
        requires run { 1 ≤ s.now.run }
        requires small { AreSmall s.now }
        ensures { self.new ≡ arrived s.now self.old }
    {
        if (self.results.vertices as usize) < VERTICES {
            let four = self.four_recent();
            self.add_vertex(vertex_of(s));
            let polygon = self.completed(four, s);
            self.add_polygon(polygon);
        } else {
            self.recent = then_recent(None, self.recent);
            self.results.overflow = true;
        }
    }

    /// What the tests among the commands give; and a new run has no vertex yet.
    #[tactic(auto, using(gx_matrix::proofs::Sums::casts, crate::proofs::Recent::no_places), unfolding(crate::specs::States::tested))]
    pub fn test(&mut self, command: GeometryCommand, params: &[u32], s: &Numbers)
        requires { HasParameters command params.now }
        ensures { self.new ≡ tested command params.now s.now self.old }
    {
        match command {
            GeometryCommand::BoxTest => self.results.inside = box_test(params, &s.stacks.clip()),
            GeometryCommand::PosTest => {
                let c = through(point_by_halves(params), &s.stacks.clip());
                self.results.position = [c.x, c.y, c.z, c.w];
            }
            GeometryCommand::VecTest => {
                self.results.vector = vector_test(params[0], &s.stacks.vector())
            }
            GeometryCommand::BeginVtxs => self.recent = [None; 3],
            _ => (),
        }
    }

    /// A swap takes both lists, which are empty then.
    #[tactic(auto, using(crate::proofs::Recent::no_places))]
    pub fn swap(&mut self, now: Tick, parameter: u32, last: &mut Lists)
        ensures emptied { self.new ≡ lists_emptied self.old }
        ensures taken { last.new ≡ record { tick = now; parameter = parameter; vertices = self.old.vertices; polygons = self.old.polygons } }
        ensures limited { AreLimited self.old.vertices self.old.polygons }
    {
        last.take(now, parameter, &mut self.vertices, &mut self.polygons);
        self.results.vertices = 0;
        self.results.polygons = 0;
        self.recent = [None; 3];
    }

    /// The lists' overflow is cleared.
    pub fn clear_overflow(&mut self)
        ensures { self.new ≡ record self.old { overflow = false } }
    {
        self.results.overflow = false;
    }

    /// The results of tests, how far the lists are filled, and whether they overflowed.
    pub fn results(&self) -> &Results
        ensures value { result.now ≡ results_of self.now }
        ensures limited { AreLimited self.now.vertices self.now.polygons }
        ensures places { ArePlaces (length self.now.vertices) self.now.recent }
    {
        &self.results
    }
}
