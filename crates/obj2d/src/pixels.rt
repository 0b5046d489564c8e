//! The pixel of a point of an object.

ghost use Rattle.std.specs.Prelude.{◌≡◌, ◌<◌, ◌≤◌, ◌+◌, ◌*◌, ◌%◌, ◌^◌, true, false};
ghost use Rattle.ds_base.specs.Bits.{bits};
ghost use Rattle.vram_banks.specs.Tiles.{nibble_at};
ghost use Rattle.obj2d.specs.Attributes.{object_has_256, tile, palette_number, box_width, box_height};
ghost use Rattle.obj2d.specs.ObjectPixels.{object_space, object_palette_space, tile_units, tile_address, object_index, point_pixel, turned_pixel};
ghost use Rattle.obj2d.specs.rows.Strips.{IsColoured};

use crate::attributes::{object_has_256, width};
use crate::objects::{Display, Object, Turn};
use crate::places::{affine_across, affine_down};
use ds_base::Space;
use vram_banks::{Vram, byte};

/// The space of an engine's objects.
#[inline(always)]
pub fn object_space(engine: u8) -> Space
    ensures { result ≡ object_space engine }
{
    if engine == 0 {
        Space::AObj
    } else {
        Space::BObj
    }
}

/// The space of an engine's extended object palettes.
pub fn object_palette_space(engine: u8) -> Space
    ensures { result ≡ object_palette_space engine }
{
    if engine == 0 {
        Space::AObjPalette
    } else {
        Space::BObjPalette
    }
}

/// How many units of 32 bytes a tile of the object has.
#[inline(always)]
fn tile_units(object: &Object) -> u32
    ensures value { result ≡ tile_units object.now }
    ensures small { result ≤ 2 }
{
    if object_has_256(object) { 2 } else { 1 }
}

/// How many bytes the tiles' numbers count, where tiles have one dimension.
#[inline(always)]
fn boundary(display: &Display) -> u32
    ensures value { result ≡ 32 * 2 ^ bits 20 2 display.now.control }
    ensures small { result ≤ 256 }
    ensures whole { result % 4 ≡ 0 }
{
    match (display.control >> 20) % 4 {
        0 => 32,
        1 => 64,
        2 => 128,
        _ => 256,
    }
}

/// The number of the object's first tile.
#[inline(always)]
fn tile(object: &Object) -> u32
    ensures value { result ≡ tile object.now }
    ensures small { result < 0x400 }
{
    (object.attribute2 % 0x400) as u32
}

/// Where a tile of the object lies.
#[inline(always)]
pub fn tile_address(display: &Display, object: &Object, tx: u32, ty: u32) -> u32
    requires across { tx < 8 }
    requires down { ty < 8 }
    ensures value { result ≡ tile_address display.now object.now tx ty }
    ensures whole { result % 4 ≡ 0 }
    ensures small { result < 0x100000 }
{
    let units = tile_units(object);
    if (display.control >> 4) % 2 == 1 {
        let place = ty * (width(object) / 8) as u32 + tx;
        tile(object) * boundary(display) + 32 * units * place
    } else {
        32 * (tile(object) + 32 * ty + tx * units)
    }
}

/// The number of the object's palette.
pub fn palette_number(object: &Object) -> u16
    ensures value { result ≡ palette_number object.now }
    ensures small { result < 16 }
{
    object.attribute2 >> 12
}

/// The left or the right nibble of a byte.
#[inline(always)]
fn nibble(x: u32, byte: u8) -> u8
    ensures value { result ≡ nibble_at x byte }
    ensures small { result < 16 }
{
    if x % 2 == 0 { byte % 16 } else { byte / 16 }
}

/// The index at a point of the object.
#[inline(always)]
#[tactic(auto, unfolding(crate::specs::ObjectPixels::object_index))]
fn object_index(vram: &Vram, display: &Display, object: &Object, x: u32, y: u32) -> u8
    requires across { x < 64 }
    requires down { y < 64 }
    ensures value { result ≡ object_index vram.now display.now object.now x y }
    ensures small { object_has_256 object.now ≡ false → result < 16 }
{
    let space = object_space(display.engine);
    let at = tile_address(display, object, x / 8, y / 8);
    if object_has_256(object) {
        byte(vram, space, at + 8 * (y % 8) + x % 8)
    } else {
        nibble(x % 8, byte(vram, space, at + 4 * (y % 8) + x % 8 / 2))
    }
}

/// The pixel of a point of the object, by the table of its colours' pixels from `start` on. `palette` is there for the contract.
#[inline(always)]
fn point_pixel(
    vram: &Vram,
    palette: &[u8],
    display: &Display,
    object: &Object,
    table: &[u16; 256],
    start: usize,
    x: u32,
    y: u32,
) -> u16
    requires table { IsColoured vram.now palette.now display.now object.now table.now start }
    requires narrow { object_has_256 object.now ≡ false → start ≤ 240 }
    requires wide { object_has_256 object.now ≡ true → start ≡ 0 }
    requires across { x < 64 }
    requires down { y < 64 }
    ensures { result ≡ point_pixel vram.now palette.now display.now object.now x y }
{
    let index = object_index(vram, display, object, x, y);
    table[start + index as usize]
}

/// The pixel at a place of an affine object's box, likewise.
#[inline(always)]
#[tactic(auto, unfolding(crate::specs::ObjectPixels::turned_pixel))]
pub fn turned_pixel(
    vram: &Vram,
    palette: &[u8],
    display: &Display,
    object: &Object,
    table: &[u16; 256],
    start: usize,
    turn: &Turn,
    x: usize,
    y: usize,
) -> u16
    requires table { IsColoured vram.now palette.now display.now object.now table.now start }
    requires narrow { object_has_256 object.now ≡ false → start ≤ 240 }
    requires wide { object_has_256 object.now ≡ true → start ≡ 0 }
    requires across { x < box_width object.now }
    requires down { y < box_height object.now }
    ensures { result ≡ turned_pixel vram.now palette.now display.now object.now turn.now x y }
{
    match affine_across(object, turn, x, y) {
        None => 0,
        Some(point_x) => match affine_down(object, turn, x, y) {
            None => 0,
            Some(point_y) => point_pixel(
                vram,
                palette,
                display,
                object,
                table,
                start,
                point_x as u32,
                point_y as u32,
            ),
        },
    }
}
