//! Rows of affine backgrounds.

ghost use Rattle.std.specs.Prelude.{◌≡◌, ◌<◌, ◌≤◌, ◌%◌, ℕ, true, Some, length, slice_index};
ghost use Rattle.ds_base.specs.Bits.{bit};
ghost use Rattle.vram_banks.specs.Points.{affine_coordinate, place_within};
ghost use Rattle.vram_banks.specs.Colours.{HasForm, IsTable};
ghost use Rattle.bg2d.specs.rows.Tiling.{affine_map, affine_base, IsMapRun, IsAffineRun, IsAffineSize};
ghost use Rattle.bg2d.specs.AffinePixels.{affine_size, affine_point_pixel, affine_pixel};

use crate::layers::AffineLayer;
use vram_banks::{
    Row, Vram, affine_coordinate, background_space, byte_within, fill_table, map_base,
    place_within, tile_base,
};

/// The size in pixels, the same both ways.
fn affine_size(layer: &AffineLayer) -> u32
    ensures value { result ≡ affine_size layer.now }
    ensures some { 128 ≤ result }
    ensures small { result ≤ 1024 }
    ensures whole { IsAffineSize result }
{
    match layer.control >> 14 {
        0 => 128,
        1 => 256,
        2 => 512,
        _ => 1024,
    }
}

/// The map's base.
#[inline(always)]
fn affine_map(layer: &AffineLayer) -> u32
    ensures value { result ≡ affine_map layer.now }
    ensures small { result < 0x90000 }
{
    map_base(layer.engine, layer.display, layer.control)
}

/// The tiles' base.
#[inline(always)]
fn affine_base(layer: &AffineLayer) -> u32
    ensures value { result ≡ affine_base layer.now }
    ensures whole { result % 8192 ≡ 0 }
    ensures small { result < 0xC0000 }
{
    tile_base(layer.engine, layer.display, layer.control)
}

/// The bytes that one bank alone has from the first address of the map's first page on.
fn map_run<'a>(vram: &'a Vram, layer: &AffineLayer) -> &'a [u8]
    ensures { IsMapRun vram.now layer.now result.now }
{
    let map = affine_map(layer);
    vram.run(background_space(layer.engine), map - map % 0x2000, 0x6000)
}

/// The bytes of tiles that one bank alone has, from the tiles' base on.
fn tile_run<'a>(vram: &'a Vram, layer: &AffineLayer) -> &'a [u8]
    ensures { IsAffineRun vram.now layer.now result.now }
{
    vram.run(background_space(layer.engine), affine_base(layer), 0x4000)
}

/// The pixel of a point of the background, by those of the palette's colours.
#[inline(always)]
#[tactic(auto, unfolding(crate::specs::AffinePixels::affine_point_pixel))]
fn affine_point_pixel(
    vram: &Vram,
    palette: &[u8],
    table: &[u16; 256],
    layer: &AffineLayer,
    maps: &[u8],
    tiles: &[u8],
    x: u32,
    y: u32,
) -> u16
    requires table { IsTable true palette.now table.now }
    requires maps { IsMapRun vram.now layer.now maps.now }
    requires tiles { IsAffineRun vram.now layer.now tiles.now }
    requires across { x < 1024 }
    requires down { y < 1024 }
    ensures { result ≡ affine_point_pixel vram.now palette.now layer.now x y }
{
    let space = background_space(layer.engine);
    let map = affine_map(layer);
    let entry = map % 0x2000 + affine_size(layer) / 8 * (y / 8) + x / 8;
    let tile = byte_within(vram, space, maps, map - map % 0x2000, entry);
    let texel = 64 * tile as u32 + 8 * (y % 8) + x % 8;
    let index = byte_within(vram, space, tiles, affine_base(layer), texel);
    table[index as usize]
}

/// The pixel that the background has at place x of the line.
#[inline(always)]
#[tactic(auto, unfolding(crate::specs::AffinePixels::affine_pixel))]
fn affine_pixel(
    vram: &Vram,
    palette: &[u8],
    table: &[u16; 256],
    layer: &AffineLayer,
    maps: &[u8],
    tiles: &[u8],
    x: u8,
) -> u16
    requires table { IsTable true palette.now table.now }
    requires maps { IsMapRun vram.now layer.now maps.now }
    requires tiles { IsAffineRun vram.now layer.now tiles.now }
    ensures { result ≡ affine_pixel vram.now palette.now layer.now x }
{
    let wraps = (layer.control >> 13) % 2 == 1;
    let size = affine_size(layer);
    let across = place_within(wraps, size, affine_coordinate(layer.x, layer.pa, x));
    let down = place_within(wraps, size, affine_coordinate(layer.y, layer.pc, x));
    match across {
        None => 0,
        Some(x) => match down {
            None => 0,
            Some(y) => affine_point_pixel(vram, palette, table, layer, maps, tiles, x, y),
        },
    }
}

/// The place on a background of a size of a coordinate of the point shown at place x of a line, where the background wraps: the size divides
/// 2^32.
#[inline(always)]
fn wrapped_place(size: u32, first: i32, step: i16, x: u8) -> u32
    requires { IsAffineSize size }
    ensures value { place_within true size (affine_coordinate first step x) ≡ Some result }
    ensures small { result < 1024 }
{
    affine_coordinate(first, step, x).cast_unsigned() % size
}

/// How far across the point shown at place x of a line is on a background that wraps.
#[inline(always)]
fn wrapped_across(layer: &AffineLayer, x: u8) -> u32
    ensures value { place_within true (affine_size layer.now) (affine_coordinate layer.now.x layer.now.pa x) ≡ Some result }
    ensures small { result < 1024 }
{
    wrapped_place(affine_size(layer), layer.x, layer.pa, x)
}

/// How far down it is.
#[inline(always)]
fn wrapped_down(layer: &AffineLayer, x: u8) -> u32
    ensures value { place_within true (affine_size layer.now) (affine_coordinate layer.now.y layer.now.pc x) ≡ Some result }
    ensures small { result < 1024 }
{
    wrapped_place(affine_size(layer), layer.y, layer.pc, x)
}

/// The pixel that the background has at place x of the line, where it wraps.
#[inline(always)]
fn wrapped_pixel(
    vram: &Vram,
    palette: &[u8],
    table: &[u16; 256],
    layer: &AffineLayer,
    maps: &[u8],
    tiles: &[u8],
    x: u8,
) -> u16
    requires table { IsTable true palette.now table.now }
    requires maps { IsMapRun vram.now layer.now maps.now }
    requires tiles { IsAffineRun vram.now layer.now tiles.now }
    requires wraps { bit 13 layer.now.control ≡ true }
    ensures { result ≡ affine_pixel vram.now palette.now layer.now x }
{
    let across = wrapped_across(layer, x);
    let down = wrapped_down(layer, x);
    affine_point_pixel(vram, palette, table, layer, maps, tiles, across, down)
}

/// Draws the row where the background wraps, which so has no test of a side.
fn wrapped_row(vram: &Vram, palette: &[u8], table: &[u16; 256], layer: &AffineLayer, into: &mut Row)
    requires table { IsTable true palette.now table.now }
    requires wraps { bit 13 layer.now.control ≡ true }
    ensures { (x : ℕ) → x < 256 → slice_index into.new.pixels x ≡ affine_pixel vram.now palette.now layer.now x }
{
    let maps = map_run(vram, layer);
    let tiles = tile_run(vram, layer);
    for x in 0..256usize {
        into.pixels[x] = wrapped_pixel(vram, palette, table, layer, maps, tiles, x as u8);
    }
}

/// Draws the row of any background.
fn bounded_row(vram: &Vram, palette: &[u8], table: &[u16; 256], layer: &AffineLayer, into: &mut Row)
    requires { IsTable true palette.now table.now }
    ensures { (x : ℕ) → x < 256 → slice_index into.new.pixels x ≡ affine_pixel vram.now palette.now layer.now x }
{
    let maps = map_run(vram, layer);
    let tiles = tile_run(vram, layer);
    for x in 0..256usize {
        into.pixels[x] = affine_pixel(vram, palette, table, layer, maps, tiles, x as u8);
    }
}

/// Draws an affine background's row: at each place the pixel of the point that the line's first point and the steps give, exactly and
/// cut off downwards; outside, the background begins again where bit 13 of its control is set, and is transparent else (GBATEK, "LCD I/O
/// BG Rotation/Scaling"). `palette` has the 512 bytes of the engine's background palette.
pub fn affine_row(vram: &Vram, palette: &[u8], layer: &AffineLayer, into: &mut Row)
    requires { length palette.now ≡ 512 }
    ensures row { (x : ℕ) → x < 256 → slice_index into.new.pixels x ≡ affine_pixel vram.now palette.now layer.now x }
    ensures form { (x : ℕ) → x < 256 → HasForm (slice_index into.new.pixels x) }
{
    // a copy, so that no store into the row can change what the points are told by
    let shown = *layer;
    let mut table = [0; 256];
    fill_table(palette, true, &mut table);
    if (shown.control >> 13) % 2 == 1 {
        wrapped_row(vram, palette, &table, &shown, into);
    } else {
        bounded_row(vram, palette, &table, &shown, into);
    }
}
