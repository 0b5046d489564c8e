//! The geometry engine in bytes.

ghost use Rattle.std.specs.Prelude.{◌≡◌, OnOk};
ghost use Rattle.ds_state.specs.Formats.{bytes_written, number_code};
ghost use Rattle.ds_state.specs.Reading.{GivesIn, GivesRead, read_code, read_format, ruled};
ghost use Rattle.gx_geometry.specs.Saved.{geometry_format};
ghost use Rattle.gx_geometry.specs.SavedKept.{run_until};
ghost use Rattle.gx_geometry.specs.SavedLaws.{GeometryIsSaved, HasBounds};

use crate::engine::Geometry;
use crate::lists::{Lists, POLYGONS, put_polygons, put_vertices, take_polygons, take_vertices};
use crate::numbers::{
    Numbers, kind_of, put_current, put_lighting, run_kind_number, take_current, take_lighting,
};
use crate::outcomes::{
    Outcome, place_number, place_of_number, put_results, take_length, take_place, take_results,
};
use crate::widths::{are_current, are_lighting, are_polygons, are_results, are_vertices};
use ds_base::{Tick, known};
use ds_state::{Packer, Unpacked, Unpacker, holds};
use gx_matrix::Stacks;
use std::alloc::{AllocError, Global};

/// Takes how many vertices a run has: no more than the tick of the state.
fn take_run(from: &mut Unpacker, at: u64) -> Result<u64, Unpacked>
    ensures { GivesRead (λ n. n) result from.new (ruled (run_until at) from.old (read_code (number_code 8) from.old)) }
{
    let offset = from.place();
    let run = from.take_u64()?;
    holds(run <= at, offset)?;
    Ok(run)
}

impl Geometry {
    /// Puts the matrices, the numbers, the results of tests, the open lists and those of the last swap. The error is want of memory.
    pub fn pack(&self, into: &mut Packer) -> Result<(), AllocError>
        ensures { OnOk result (into.new ≡ bytes_written geometry_format into.old self.now) }
    {
        self.numbers.stacks.pack(into)?;
        into.put_flag(self.outcome.results().overflow)?;
        into.put_u32(self.numbers.parameter)?;
        put_current(into, &self.numbers)?;
        put_lighting(into, &self.numbers)?;
        into.put_u8(run_kind_number(self.numbers.kind))?;
        into.put_u64(self.numbers.run)?;
        let recent = self.outcome.recent();
        into.put_u16(place_number(recent[0]))?;
        into.put_u16(place_number(recent[1]))?;
        into.put_u16(place_number(recent[2]))?;
        put_results(into, self.outcome.results())?;
        into.put_u32(self.outcome.vertices().len() as u32)?;
        into.put_u32(self.outcome.polygons().len() as u32)?;
        put_vertices(into, self.outcome.vertices())?;
        put_polygons(into, self.outcome.polygons())?;
        self.last.pack(into)?;
        Ok(())
    }

    /// Does nothing; its contract states what holds of each of its numbers at every time, by which `saved_laws` speaks of its bytes at a tick
    /// that is no lower than the run's length and the last swap's tick. It walks over the lists.
    pub fn bounds(&self)
        ensures { HasBounds self.now }
    {
        known!(self.numbers.stacks.laws());
        are_current(&self.numbers);
        are_lighting(&self.numbers);
        are_results(self.outcome.results());
        are_vertices(self.outcome.vertices());
        are_polygons(self.outcome.polygons());
        known!(self.last.bounds());
    }

    /// Takes what `pack` puts; the clip matrix is made anew. The error is want of memory, or where the first field begins that isn't whole or
    /// breaks its rule: colours have fifteen bits and palettes' bases thirteen; a run has no more vertices than the tick; of its last three
    /// those that it doesn't have stand nowhere, and the others in the open list or nowhere, which is told where that list's length is; lists
    /// have at most 6,144 vertices and 2,048 polygons, and a polygon three or four corners; a swap was no later than the tick, and one at
    /// tick 0 gave out nothing.
    #[tactic(auto, using(crate::proofs::SavedParts::geometry_reads), unfolding(crate::specs::SavedKept::geometry_parts))]
    pub fn unpack(alloc: Global, from: &mut Unpacker, at: Tick) -> Result<Geometry, Unpacked>
        ensures { GivesIn (λ g. g) result from.new (read_format geometry_format at.0 from.old) }
    {
        let stacks = Stacks::unpack(from, at)?;
        let overflow = from.take_flag()?;
        let parameter = from.take_u32()?;
        let current = take_current(from, at.0)?;
        let lighting = take_lighting(from, at.0)?;
        let kind = from.take_at_most(3)?;
        let run = take_run(from, at.0)?;
        let first = take_place(from, run, 3)?;
        let second = take_place(from, run, 2)?;
        let third = take_place(from, run, 1)?;
        let recent = [
            place_of_number(first),
            place_of_number(second),
            place_of_number(third),
        ];
        let results = take_results(from, at.0)?;
        let vertex_count = take_length(from, recent)?;
        let polygon_count = from.take_word_at_most(POLYGONS as u32)?;
        let vertices = take_vertices(alloc, from, vertex_count, at.0)?;
        let polygons = take_polygons(alloc, from, polygon_count, at.0)?;
        let last = Lists::unpack(alloc, from, at.0)?;
        let (table, lights) = (lighting.table, lighting.lights);
        Ok(Geometry {
            numbers: Numbers {
                stacks,
                colour: current.colour,
                point: current.point,
                raw: current.raw,
                coordinates: current.coordinates,
                set: current.set,
                attributes: current.attributes,
                texture: current.texture,
                palette: current.palette,
                viewport: current.viewport,
                material: lighting.material,
                table,
                lights,
                kind: kind_of(kind as u32),
                run,
                parameter,
            },
            outcome: Outcome::of(results, overflow, recent, vertices, polygons),
            last,
        })
    }
}

/// Does nothing; its contract states that the bytes of an engine at a tick, each of whose numbers has its bounds, are read as that engine,
/// whatever stands behind them, and that bytes which are read as an engine are those of that engine.
#[tactic(auto, using(crate::proofs::SavedLaws::geometry_saved))]
pub fn saved_laws()
    ensures { GeometryIsSaved }
{}
