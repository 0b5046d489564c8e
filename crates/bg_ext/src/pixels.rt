//! Pixels of points of extended backgrounds.

ghost use Rattle.std.specs.Prelude.{◌≡◌, ◌<◌, ◌+◌, ◌*◌, ◌%◌, length};
ghost use Rattle.ds_base.specs.Numbers.{number_at};
ghost use Rattle.ds_base.specs.declared.memories.Width.TheVariants.{Half};
ghost use Rattle.vram_banks.specs.Cells.{vram_value};
ghost use Rattle.bg_ext.specs.ExtendedPixels.{entry_index, entry_pixel, direct_pixel, ext_point_pixel, ext_pixel};
ghost use Rattle.bg_ext.specs.rows.Lines.{AreBytes, bytes_start, entries_start, halves_start};

use crate::layers::{
    ExtLayer, bitmap_base, bitmap_width, ext_across, ext_down, has_halves, is_bitmap, map_side,
    size_number,
};
use ds_base::Space;
use vram_banks::{
    Vram, background_palette_space, background_space, byte, colour_pixel, extended_pixel, flipped,
    half, map_base, opaque_pixel, tile_base,
};

/// The half of a number among bytes.
#[inline(always)]
fn half_of(bytes: &[u8], k: usize) -> u16
    requires { 2 * k + 1 < length bytes.now }
    ensures { result ≡ number_at Half bytes.now (2 * k) }
{
    u16::from_le_bytes([bytes[2 * k], bytes[2 * k + 1]])
}

/// The half of a number among bytes that were read from an even address on. The other arguments are there for the contract.
#[inline(always)]
pub fn half_among(vram: &Vram, space: Space, at: u32, bytes: &[u8], k: usize) -> u16
    requires bytes { AreBytes vram.now space at bytes.now (length bytes.now) }
    requires even { at % 2 ≡ 0 }
    requires inside { 2 * k + 1 < length bytes.now }
    ensures { result ≡ vram_value vram.now space (at + 2 * k) Half }
{
    half_of(bytes, k)
}

/// The pixel of a half.
#[inline(always)]
pub fn direct_pixel(half: u16) -> u16
    ensures { result ≡ direct_pixel half }
{
    if half >> 15 == 1 {
        opaque_pixel(half)
    } else {
        0
    }
}

/// The index at a point of a map, by its entry.
#[inline(always)]
fn entry_index(vram: &Vram, layer: &ExtLayer, entry: u16, x: u32, y: u32) -> u8
    ensures { result ≡ entry_index vram.now layer.now entry x y }
{
    let tiles = tile_base(layer.engine, layer.display, layer.control);
    let column = flipped((entry >> 10) % 2 == 1, x as usize % 8) as u32;
    let line = flipped((entry >> 11) % 2 == 1, y as usize % 8) as u32;
    let tile = (entry % 0x400) as u32;
    byte(
        vram,
        background_space(layer.engine),
        tiles + 64 * tile + 8 * line + column,
    )
}

/// The pixel at a point of a map, by its entry.
#[inline(always)]
#[tactic(auto, unfolding(crate::specs::ExtendedPixels::entry_pixel))]
pub fn entry_pixel(vram: &Vram, palette: &[u8], layer: &ExtLayer, entry: u16, x: u32, y: u32) -> u16
    requires { length palette.now ≡ 512 }
    ensures { result ≡ entry_pixel vram.now palette.now layer.now entry x y }
{
    let index = entry_index(vram, layer, entry, x, y);
    if (layer.display >> 30) % 2 == 1 {
        let at = 0x2000 * layer.number as u32 + 512 * (entry >> 12) as u32;
        extended_pixel(vram, background_palette_space(layer.engine), at, index)
    } else {
        colour_pixel(palette, index)
    }
}

/// Where the entries begin that show line y of a map.
pub fn entries_start(layer: &ExtLayer, y: u32) -> u32
    requires { y < 1024 }
    ensures value { result ≡ entries_start layer.now y }
    ensures even { result % 2 ≡ 0 }
    ensures small { result < 0x100000 }
{
    let base = map_base(layer.engine, layer.display, layer.control);
    base + 2 * (map_side(size_number(layer)) / 8 * (y / 8))
}

/// Where line y of a bitmap of bytes begins.
pub fn bytes_start(layer: &ExtLayer, y: u32) -> u32
    requires { y < 1024 }
    ensures value { result ≡ bytes_start layer.now y }
    ensures small { result < 0x200000 }
{
    bitmap_base(layer) + bitmap_width(size_number(layer)) * y
}

/// Where line y of a bitmap of halves begins.
pub fn halves_start(layer: &ExtLayer, y: u32) -> u32
    requires { y < 1024 }
    ensures value { result ≡ halves_start layer.now y }
    ensures even { result % 2 ≡ 0 }
    ensures small { result < 0x200000 }
{
    bitmap_base(layer) + 2 * (bitmap_width(size_number(layer)) * y)
}

/// The pixel of a point of the background.
#[inline(always)]
#[tactic(auto, unfolding(crate::specs::ExtendedPixels::ext_point_pixel, crate::specs::ExtendedPixels::ext_entry, crate::specs::ExtendedPixels::half_pixel, crate::specs::ExtendedPixels::byte_pixel))]
fn point_pixel(vram: &Vram, palette: &[u8], layer: &ExtLayer, x: u32, y: u32) -> u16
    requires colours { length palette.now ≡ 512 }
    requires across { x < 1024 }
    requires down { y < 1024 }
    ensures { result ≡ ext_point_pixel vram.now palette.now layer.now x y }
{
    let space = background_space(layer.engine);
    if !is_bitmap(layer) {
        let entry = half(vram, space, entries_start(layer, y) + 2 * (x / 8));
        entry_pixel(vram, palette, layer, entry, x, y)
    } else if has_halves(layer) {
        direct_pixel(half(vram, space, halves_start(layer, y) + 2 * x))
    } else {
        colour_pixel(palette, byte(vram, space, bytes_start(layer, y) + x))
    }
}

/// The pixel that the background has at place x of the line.
#[tactic(auto, unfolding(crate::specs::ExtendedPixels::ext_pixel))]
pub fn ext_pixel(vram: &Vram, palette: &[u8], layer: &ExtLayer, x: u8) -> u16
    requires { length palette.now ≡ 512 }
    ensures { result ≡ ext_pixel vram.now palette.now layer.now x }
{
    match ext_across(layer, x) {
        None => 0,
        Some(across) => match ext_down(layer, x) {
            None => 0,
            Some(down) => point_pixel(vram, palette, layer, across, down),
        },
    }
}
