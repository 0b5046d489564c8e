//! Vertices and polygons in bytes.

ghost use Rattle.std.specs.Prelude.{◌≡◌, ◌<◌, ◌^◌, true, IfOk, OnOk};
ghost use Rattle.ds_state.specs.Formats.{bytes_written};
ghost use Rattle.ds_state.specs.Reading.{GivesRead, read_format};
ghost use Rattle.gx_geometry.specs.BoundLaws.{is_shaped};
ghost use Rattle.gx_geometry.specs.Saved.{polygon_format, vertex_format};

use crate::polygons::{Polygon, Vertex};
use ds_state::{Packer, Unpacked, Unpacker, holds};
use std::alloc::AllocError;

/// Puts a vertex, 22 bytes.
#[tactic(auto, unfolding(crate::specs::Saved::vertex_format))]
pub fn put_vertex(into: &mut Packer, vertex: &Vertex) -> Result<(), AllocError>
    ensures { OnOk result (into.new ≡ bytes_written vertex_format into.old vertex.now) }
{
    into.put_i32(vertex.x)?;
    into.put_i32(vertex.y)?;
    into.put_i32(vertex.z)?;
    into.put_i32(vertex.w)?;
    into.put_u16(vertex.colour)?;
    into.put_i16(vertex.s)?;
    into.put_i16(vertex.t)?;
    Ok(())
}

/// Takes a vertex.
#[tactic(auto, unfolding(crate::specs::Saved::vertex_format))]
pub fn take_vertex(from: &mut Unpacker, at: u64) -> Result<Vertex, Unpacked>
    ensures reads { GivesRead (λ v. v) result from.new (read_format vertex_format at from.old) }
    ensures colour { IfOk result (λ v. v.colour < 2 ^ 15) }
{
    let x = from.take_i32()?;
    let y = from.take_i32()?;
    let z = from.take_i32()?;
    let w = from.take_i32()?;
    let colour = from.take_half_at_most(0x7FFF)?;
    let s = from.take_i16()?;
    let t = from.take_i16()?;
    Ok(Vertex {
        x,
        y,
        z,
        w,
        colour,
        s,
        t,
    })
}

/// Puts a polygon, 25 bytes.
#[tactic(auto, unfolding(crate::specs::Saved::polygon_format))]
pub fn put_polygon(into: &mut Packer, polygon: &Polygon) -> Result<(), AllocError>
    ensures { OnOk result (into.new ≡ bytes_written polygon_format into.old polygon.now) }
{
    into.put_u32(polygon.attributes)?;
    into.put_u32(polygon.texture)?;
    into.put_u32(polygon.palette)?;
    into.put_u32(polygon.viewport)?;
    into.put_u8(polygon.corners)?;
    into.put_u16(polygon.indices[0])?;
    into.put_u16(polygon.indices[1])?;
    into.put_u16(polygon.indices[2])?;
    into.put_u16(polygon.indices[3])?;
    Ok(())
}

/// Takes a polygon.
#[tactic(auto, unfolding(crate::specs::Saved::polygon_format))]
pub fn take_polygon(from: &mut Unpacker, at: u64) -> Result<Polygon, Unpacked>
    ensures reads { GivesRead (λ p. p) result from.new (read_format polygon_format at from.old) }
    ensures palette { IfOk result (λ p. p.palette < 2 ^ 13) }
    ensures shape { IfOk result (λ p. is_shaped p ≡ true) }
{
    let attributes = from.take_u32()?;
    let texture = from.take_u32()?;
    let palette = from.take_word_at_most(0x1FFF)?;
    let viewport = from.take_u32()?;
    let offset = from.place();
    let corners = from.take_u8()?;
    holds(corners == 3 || corners == 4, offset)?;
    let first = from.take_u16()?;
    let second = from.take_u16()?;
    let third = from.take_u16()?;
    let offset = from.place();
    let fourth = from.take_u16()?;
    holds(corners == 4 || fourth == 0, offset)?;
    Ok(Polygon {
        attributes,
        texture,
        palette,
        viewport,
        corners,
        indices: [first, second, third, fourth],
    })
}
