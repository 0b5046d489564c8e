//! The lists of a swap in bytes.

ghost use Rattle.std.specs.Prelude.{◌≡◌, ◌<◌, ◌≤◌, length, IfOk, OnOk};
ghost use Rattle.ds_state.specs.Formats.{bytes_written, number_code, written_each};
ghost use Rattle.ds_state.specs.Reading.{GivesIn, GivesRead, read_code, read_format, read_list, ruled};
ghost use Rattle.gx_geometry.specs.BoundLaws.{AreLimited, HaveColours, HavePalettes, HaveShapes};
ghost use Rattle.gx_geometry.specs.Polygons.{most_polygons, most_vertices};
ghost use Rattle.gx_geometry.specs.SavedLaws.{AreSwapped};
ghost use Rattle.gx_geometry.specs.Saved.{lists_format, polygon_format, unless_none, vertex_format};

use crate::capped::Capped;
use crate::lists::{Lists, POLYGONS, VERTICES};
use crate::polygons::{Polygon, Vertex, put_polygon, put_vertex, take_polygon, take_vertex};
use crate::widths::{are_polygons, are_vertices, is_unsigned_word};
use ds_base::Tick;
use ds_state::{Packer, Unpacked, Unpacker, holds};
use std::alloc::{AllocError, Global};

/// Puts vertices, one after another.
pub fn put_vertices(into: &mut Packer, vertices: &[Vertex]) -> Result<(), AllocError>
    ensures { OnOk result (into.new ≡ written_each (bytes_written vertex_format) into.old vertices.now) }
{
    for vertex in vertices {
        put_vertex(into, vertex)?;
    }
    Ok(())
}

/// Puts polygons, one after another.
pub fn put_polygons(into: &mut Packer, polygons: &[Polygon]) -> Result<(), AllocError>
    ensures { OnOk result (into.new ≡ written_each (bytes_written polygon_format) into.old polygons.now) }
{
    for polygon in polygons {
        put_polygon(into, polygon)?;
    }
    Ok(())
}

/// Takes so many vertices into a list with all its memory.
#[tactic(auto, using(crate::proofs::Bounds::no_colours))]
pub fn take_vertices(
    alloc: Global,
    from: &mut Unpacker,
    count: u32,
    at: u64,
) -> Result<Capped<Vertex, VERTICES>, Unpacked>
    requires { count ≤ most_vertices }
    ensures reads { GivesIn (λ c. c) result from.new (read_list (read_format vertex_format at) count from.old) }
    ensures long { IfOk result (λ c. length c ≡ count) }
    ensures colours { IfOk result (λ c. HaveColours c) }
{
    let mut vertices = Capped::new(alloc)?;
    for _ in 0..count {
        let vertex = take_vertex(from, at)?;
        vertices.push(vertex);
    }
    Ok(vertices)
}

/// Takes so many polygons into a list with all its memory.
#[tactic(auto, using(crate::proofs::Bounds::no_palettes))]
pub fn take_polygons(
    alloc: Global,
    from: &mut Unpacker,
    count: u32,
    at: u64,
) -> Result<Capped<Polygon, POLYGONS>, Unpacked>
    requires { count ≤ most_polygons }
    ensures reads { GivesIn (λ c. c) result from.new (read_list (read_format polygon_format at) count from.old) }
    ensures long { IfOk result (λ c. length c ≡ count) }
    ensures palettes { IfOk result (λ c. HavePalettes c) }
    ensures shapes { IfOk result (λ c. HaveShapes c) }
{
    let mut polygons = Capped::new(alloc)?;
    for _ in 0..count {
        let polygon = take_polygon(from, at)?;
        polygons.push(polygon);
    }
    Ok(polygons)
}

/// Takes a number of the last swap, which is 0 where there was none.
fn take_unless_none(from: &mut Unpacker, tick: u64, most: u32) -> Result<u32, Unpacked>
    ensures reads { GivesRead (λ n. n) result from.new (ruled (unless_none tick most 0) from.old (read_code (number_code 4) from.old)) }
    ensures most { IfOk result (λ n. n ≤ most) }
{
    let offset = from.place();
    let number = from.take_u32()?;
    holds(number <= most && (tick != 0 || number == 0), offset)?;
    Ok(number)
}

impl Lists {
    /// Does nothing; its contract states what holds of each of its numbers.
    pub(crate) fn bounds(&self)
        requires { AreLimited self.now.vertices self.now.polygons }
        ensures { AreSwapped self.now }
    {
        is_unsigned_word(self.parameter);
        are_vertices(self.vertices());
        are_polygons(self.polygons());
    }

    /// Puts the swap's tick and parameter, and its lists.
    #[tactic(auto, unfolding(crate::specs::Saved::lists_format))]
    pub(crate) fn pack(&self, into: &mut Packer) -> Result<(), AllocError>
        requires { AreLimited self.now.vertices self.now.polygons }
        ensures { OnOk result (into.new ≡ bytes_written lists_format into.old self.now) }
    {
        into.put_u64(self.tick.0)?;
        into.put_u32(self.parameter)?;
        into.put_u32(self.vertices().len() as u32)?;
        into.put_u32(self.polygons().len() as u32)?;
        put_vertices(into, self.vertices())?;
        put_polygons(into, self.polygons())?;
        Ok(())
    }

    /// Takes what `pack` puts.
    #[tactic(auto, unfolding(crate::specs::Saved::lists_format))]
    pub(crate) fn unpack(alloc: Global, from: &mut Unpacker, at: u64) -> Result<Lists, Unpacked>
        ensures reads { GivesIn (λ l. l) result from.new (read_format lists_format at from.old) }
        ensures limited { IfOk result (λ l. AreLimited l.vertices l.polygons) }
    {
        let offset = from.place();
        let tick = from.take_u64()?;
        holds(tick <= at, offset)?;
        let parameter = take_unless_none(from, tick, u32::MAX)?;
        let vertex_count = take_unless_none(from, tick, VERTICES as u32)?;
        let polygon_count = take_unless_none(from, tick, POLYGONS as u32)?;
        let vertices = take_vertices(alloc, from, vertex_count, at)?;
        let polygons = take_polygons(alloc, from, polygon_count, at)?;
        Ok(Lists {
            tick: Tick(tick),
            parameter,
            vertices,
            polygons,
        })
    }
}
