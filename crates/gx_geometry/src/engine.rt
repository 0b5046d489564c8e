//! The geometry engine: commands to vertices and polygons.

ghost use Rattle.std.specs.Prelude.{◌≡◌, ◌≤◌, ◌+◌, ◌^◌, ℕ, List, IfOk};
ghost use Rattle.gx_matrix.specs.CommandTable.{command_of, HasParameters, IsCommand, command_taken};
ghost use Rattle.gx_geometry.specs.Numbers.{numbers_at_boot};
ghost use Rattle.gx_geometry.specs.States.{GeometryState, geometry_at_boot, geometry_after, results_of, swapped, AreListsSince, IsOverflowSince, geometry_error_cleared, overflow_cleared};
ghost use Rattle.gx_geometry.specs.BoundLaws.{AreSmall, AreLimited, IsGeometry};

mod saved;

use crate::changes::gives_vertex;
use crate::lists::Lists;
use crate::numbers::{Coordinates, Kind, Light, Material, Numbers, Point};
use crate::outcomes::Outcome;
use crate::results::Results;
use ds_base::Tick;
use gx_matrix::{GeometryCommand, Stacks};
pub use saved::saved_laws;
use std::alloc::{AllocError, Global};
use std::marker::Model;

/// The geometry engine. Contracts see its numbers, the results of tests, the open lists, and the lists of the last swap.
#[derive(Drop)]
pub struct Geometry {
    numbers: Numbers,
    outcome: Outcome,
    last: Lists,
}

impl Model for Geometry {
    ghost use Rattle.gx_geometry.specs.BoundLaws.{AreSmall, AreLimited, AreTold};
    ghost use Rattle.gx_geometry.specs.States.{GeometryState};

    ghost Value = { GeometryState };

    ghost view = { λ g. record { numbers = g.numbers; outcome = g.outcome; last = g.last } };

    ghost invariant = { λ g. AreSmall g.numbers × AreLimited g.last.vertices g.last.polygons
        × AreTold g.numbers.run g.outcome.recent };
}

#[tactic(auto, unfolding(crate::specs::Numbers::numbers_at_boot, crate::specs::Numbers::no_table))]
fn numbers_at_boot() -> Numbers
    ensures { result ≡ numbers_at_boot }
{
    let coordinates = Coordinates { s: 0, t: 0 };
    let light = Light {
        x: 0,
        y: 0,
        z: 0,
        colour: 0,
    };
    Numbers {
        stacks: Stacks::boot(),
        colour: 0,
        point: Point { x: 0, y: 0, z: 0 },
        raw: coordinates,
        coordinates,
        set: 0,
        attributes: 0,
        texture: 0,
        palette: 0,
        viewport: 0,
        material: Material {
            diffuse: 0,
            ambient: 0,
            specular: 0,
            emission: 0,
            by_table: false,
        },
        table: [0; 128],
        lights: [light, light, light, light],
        kind: Kind::Triangles,
        run: 0,
        parameter: 0,
    }
}

impl Geometry {
    /// The engine at boot. This alone takes memory, all that its commands need.
    #[tactic(auto, using(crate::proofs::Bounds::boot_small, crate::proofs::Bounds::none_limited, crate::proofs::Recent::none_told))]
    pub fn new(alloc: Global) -> Result<Geometry, AllocError>
        ensures { IfOk result (λ g. g ≡ geometry_at_boot) }
    {
        let outcome = Outcome::new(alloc)?;
        let last = Lists::new(alloc)?;
        Ok(Geometry {
            numbers: numbers_at_boot(),
            outcome,
            last,
        })
    }

    /// How many vertices the current run has.
    pub fn run_length(&self) -> u64
        ensures { result ≡ self.now.numbers.run }
    {
        self.numbers.run
    }

    /// The parameter of the last command that asked for a swap, since the last swap; 0 where there was none.
    pub fn swap_parameter(&self) -> u32
        ensures { result ≡ self.now.numbers.parameter }
    {
        self.numbers.parameter
    }

    /// A command by its name, with as many parameters as it has (GBATEK, "DS 3D Geometry Commands"). It takes no memory.
    #[tactic(auto, using(crate::proofs::Recent::told_after), unfolding(crate::specs::States::geometry_after))]
    pub fn take_command(&mut self, command: GeometryCommand, params: &[u32])
        requires parameters { HasParameters command params.now }
        requires run { self.old.numbers.run ≤ 2 ^ 56 }
        ensures { self.new ≡ geometry_after command params.now self.old }
    {
        self.outcome.test(command, params, &self.numbers);
        self.numbers.renew(command, params);
        if gives_vertex(command) {
            self.outcome.arrive(&self.numbers);
        }
    }

    /// A command by its code, with as many parameters as it has.
    pub fn command(&mut self, code: u8, params: &[u32])
        requires command { IsCommand code params.now }
        requires run { self.old.numbers.run ≤ 2 ^ 56 }
        ensures { self.new ≡ command_taken geometry_after (command_of code) params.now self.old }
    {
        if let Some(command) = GeometryCommand::of(code) {
            self.take_command(command, params);
        }
    }

    /// The stacks' error is cleared, and the projection and texture levels become 0.
    pub fn clear_error(&mut self)
        ensures { self.new ≡ geometry_error_cleared self.old }
    {
        self.numbers.stacks.clear_error();
    }

    /// The matrices and their stacks.
    pub fn stacks(&self) -> &Stacks
        ensures { result.now ≡ self.now.numbers.stacks }
    {
        &self.numbers.stacks
    }

    /// The lists' overflow is cleared.
    pub fn clear_overflow(&mut self)
        ensures { self.new ≡ overflow_cleared self.old }
    {
        self.outcome.clear_overflow();
    }

    /// A swap at a tick: the open lists become the last ones, and are empty.
    #[tactic(auto, using(crate::proofs::Recent::none_told), unfolding(crate::specs::States::swapped))]
    pub fn swap(&mut self, now: Tick)
        ensures state { self.new ≡ swapped now self.old }
        ensures lists { AreListsSince self.old self.new.last.vertices self.new.last.polygons }
    {
        let parameter = self.numbers.parameter;
        self.outcome.swap(now, parameter, &mut self.last);
        self.numbers.parameter = 0;
    }

    /// The lists of the last swap.
    pub fn lists(&self) -> &Lists
        ensures { result.now ≡ self.now.last }
    {
        &self.last
    }

    /// The results of tests, how far the open lists are filled, and whether they overflowed.
    pub fn results(&self) -> &Results
        ensures value { result.now ≡ results_of self.now.outcome }
        ensures lists { AreListsSince self.now self.now.outcome.vertices self.now.outcome.polygons }
        ensures overflow { IsOverflowSince self.now result.now.overflow }
    {
        self.outcome.results()
    }

    /// Does nothing; its contract states what holds of the engine at every time: how long its lists are at most, how many bits colours and
    /// palettes' bases have, and that a command adds at most one vertex to a run.
    pub fn laws(&self)
        ensures bounds { IsGeometry self.now }
        ensures run { (code : ℕ) (params : List ℕ) → (command_taken geometry_after (command_of code) params self.now).numbers.run
            ≤ self.now.numbers.run + 1 }
    {
        let _results = self.outcome.results();
    }
}
