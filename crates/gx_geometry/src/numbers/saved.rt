//! The numbers that geometry commands keep in bytes, but for the matrices and the run.

ghost use Rattle.std.specs.Prelude.{◌≡◌, ◌<◌, ◌^◌, ℕ, map, slice_index_or, IfOk, OnOk};
ghost use Rattle.ds_state.specs.Formats.{array, bytes_written};
ghost use Rattle.ds_state.specs.Reading.{GivesRead, read_code, read_format};
ghost use Rattle.gx_geometry.specs.Numbers.{no_light};
ghost use Rattle.gx_geometry.specs.Saved.{run_kind_number, light_format};
ghost use Rattle.gx_geometry.specs.SavedKept.{current_format, current_numbers, lighting_format, lighting_numbers};

use crate::numbers::{Coordinates, Kind, Light, Material, Numbers, Point};
use ds_state::{Packer, Unpacked, Unpacker, holds};
use std::alloc::AllocError;

/// What the vertices and polygons have that come next.
#[derive(Clone, Copy)]
pub struct Current {
    /// The current colour.
    pub colour: u16,
    /// The current vertex.
    pub point: Point,
    /// The texture coordinates as they were given last.
    pub raw: Coordinates,
    /// The texture coordinates that vertices take.
    pub coordinates: Coordinates,
    /// The polygon attributes that the next run has.
    pub set: u32,
    /// The polygon attributes in force.
    pub attributes: u32,
    /// The texture parameter.
    pub texture: u32,
    /// The base of the texture's palette.
    pub palette: u32,
    /// The viewport.
    pub viewport: u32,
}

/// All that lighting asks.
#[derive(Clone, Copy)]
pub struct Lighting {
    /// The material.
    pub material: Material,
    /// The shininess table.
    pub table: [u8; 128],
    /// The lights.
    pub lights: [Light; 4],
}

/// The number of a kind.
pub fn run_kind_number(kind: Kind) -> u8
    ensures { result ≡ run_kind_number kind }
{
    match kind {
        Kind::Triangles => 0,
        Kind::Quads => 1,
        Kind::TriangleStrip => 2,
        Kind::QuadStrip => 3,
    }
}

/// Puts what vertices and polygons have that come next.
#[tactic(auto, unfolding(crate::specs::SavedKept::current_format))]
pub fn put_current(into: &mut Packer, s: &Numbers) -> Result<(), AllocError>
    ensures { OnOk result (into.new ≡ bytes_written current_format into.old (current_numbers s.now)) }
{
    into.put_u16(s.colour)?;
    into.put_i16(s.point.x)?;
    into.put_i16(s.point.y)?;
    into.put_i16(s.point.z)?;
    into.put_i16(s.raw.s)?;
    into.put_i16(s.raw.t)?;
    into.put_i16(s.coordinates.s)?;
    into.put_i16(s.coordinates.t)?;
    into.put_u32(s.set)?;
    into.put_u32(s.attributes)?;
    into.put_u32(s.texture)?;
    into.put_u32(s.palette)?;
    into.put_u32(s.viewport)?;
    Ok(())
}

/// Takes what vertices and polygons have that come next.
#[tactic(auto, unfolding(crate::specs::SavedKept::current_format))]
pub fn take_current(from: &mut Unpacker, at: u64) -> Result<Current, Unpacked>
    ensures reads { GivesRead (λ n. n) result from.new (read_format current_format at from.old) }
    ensures colour { IfOk result (λ n. n.colour < 2 ^ 15) }
    ensures palette { IfOk result (λ n. n.palette < 2 ^ 13) }
{
    let colour = from.take_half_at_most(0x7FFF)?;
    let x = from.take_i16()?;
    let y = from.take_i16()?;
    let z = from.take_i16()?;
    let raw_s = from.take_i16()?;
    let raw_t = from.take_i16()?;
    let s = from.take_i16()?;
    let t = from.take_i16()?;
    let set = from.take_u32()?;
    let attributes = from.take_u32()?;
    let texture = from.take_u32()?;
    let palette = from.take_word_at_most(0x1FFF)?;
    let viewport = from.take_u32()?;
    Ok(Current {
        colour,
        point: Point { x, y, z },
        raw: Coordinates { s: raw_s, t: raw_t },
        coordinates: Coordinates { s, t },
        set,
        attributes,
        texture,
        palette,
        viewport,
    })
}

/// Puts a light.
#[tactic(auto, unfolding(crate::specs::Saved::light_format))]
fn put_light(into: &mut Packer, light: Light) -> Result<(), AllocError>
    ensures { OnOk result (into.new ≡ bytes_written light_format into.old light) }
{
    into.put_i32(light.x)?;
    into.put_i32(light.y)?;
    into.put_i32(light.z)?;
    into.put_u16(light.colour)?;
    Ok(())
}

/// Takes a light.
#[tactic(auto, unfolding(crate::specs::Saved::light_format))]
fn take_light(from: &mut Unpacker, at: u64) -> Result<Light, Unpacked>
    ensures reads { GivesRead (λ l. l) result from.new (read_format light_format at from.old) }
    ensures colour { IfOk result (λ l. l.colour < 2 ^ 15) }
{
    let x = from.take_i32()?;
    let y = from.take_i32()?;
    let z = from.take_i32()?;
    let colour = from.take_half_at_most(0x7FFF)?;
    Ok(Light { x, y, z, colour })
}

/// Puts all that lighting asks.
#[tactic(auto, unfolding(crate::specs::SavedKept::lighting_format))]
pub fn put_lighting(into: &mut Packer, s: &Numbers) -> Result<(), AllocError>
    ensures { OnOk result (into.new ≡ bytes_written lighting_format into.old (lighting_numbers s.now)) }
{
    into.put_u16(s.material.diffuse)?;
    into.put_u16(s.material.ambient)?;
    into.put_u16(s.material.specular)?;
    into.put_u16(s.material.emission)?;
    into.put_flag(s.material.by_table)?;
    into.put_bytes(&s.table)?;
    put_light(into, s.lights[0])?;
    put_light(into, s.lights[1])?;
    put_light(into, s.lights[2])?;
    put_light(into, s.lights[3])?;
    Ok(())
}

/// Takes the shininess table.
fn take_table(from: &mut Unpacker) -> Result<[u8; 128], Unpacked>
    ensures { GivesRead (λ t. t) result from.new (read_code (array 128) from.old) }
{
    let offset = from.place();
    let mut table = [0; 128];
    holds(from.take_into(&mut table), offset)?;
    Ok(table)
}

/// Takes all that lighting asks.
#[tactic(auto, using(crate::proofs::Lit::four_lights), unfolding(crate::specs::SavedKept::lighting_format))]
pub fn take_lighting(from: &mut Unpacker, at: u64) -> Result<Lighting, Unpacked>
    ensures reads { GivesRead (λ n. n) result from.new (read_format lighting_format at from.old) }
    ensures diffuse { IfOk result (λ n. n.material.diffuse < 2 ^ 15) }
    ensures ambient { IfOk result (λ n. n.material.ambient < 2 ^ 15) }
    ensures specular { IfOk result (λ n. n.material.specular < 2 ^ 15) }
    ensures emission { IfOk result (λ n. n.material.emission < 2 ^ 15) }
    ensures lights { IfOk result (λ n. (i : ℕ) → (slice_index_or n.lights i no_light).colour < 2 ^ 15) }
{
    let diffuse = from.take_half_at_most(0x7FFF)?;
    let ambient = from.take_half_at_most(0x7FFF)?;
    let specular = from.take_half_at_most(0x7FFF)?;
    let emission = from.take_half_at_most(0x7FFF)?;
    let by_table = from.take_flag()?;
    let table = take_table(from)?;
    let first = take_light(from, at)?;
    let second = take_light(from, at)?;
    let third = take_light(from, at)?;
    let fourth = take_light(from, at)?;
    Ok(Lighting {
        material: Material {
            diffuse,
            ambient,
            specular,
            emission,
            by_table,
        },
        table,
        lights: [first, second, third, fourth],
    })
}
