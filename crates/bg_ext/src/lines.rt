//! Rows of a background that isn't turned, from one line of it, whose bytes are read at once.

ghost use Rattle.std.specs.Prelude.{◌≡◌, ◌<◌, ◌≤◌, ◌+◌, Some, ℕ, slice_index, length, true, false};
ghost use Rattle.vram_banks.specs.Bases.{background_space};
ghost use Rattle.bg_ext.specs.ExtendedPixels.{is_bitmap, has_halves, ext_across, ext_place_pixel};
ghost use Rattle.bg_ext.specs.rows.Lines.{AreBytes, bytes_start, entries_start, halves_start};

use crate::layers::{ExtLayer, ext_across, has_halves, is_bitmap, straight};
use crate::pixels::{
    bytes_start, direct_pixel, entries_start, entry_pixel, half_among, halves_start,
};
use vram_banks::{Vram, background_space, colour_pixel};

/// The pixel at a place of a bitmap of halves, from its line. `palette` is there for the contract.
#[inline(always)]
#[tactic(auto, unfolding(crate::specs::ExtendedPixels::ext_point_pixel, crate::specs::ExtendedPixels::half_pixel))]
fn half_of_line(
    vram: &Vram,
    palette: &[u8],
    layer: &ExtLayer,
    y: u32,
    line: &[u8; 1024],
    x: u8,
) -> u16
    requires bitmap { is_bitmap layer.now ≡ true }
    requires halves { has_halves layer.now ≡ true }
    requires down { y < 1024 }
    requires line { AreBytes vram.now (background_space layer.now.engine) (halves_start layer.now y) line.now 1024 }
    ensures { result ≡ ext_place_pixel vram.now palette.now layer.now (ext_across layer.now x) (Some y) }
{
    let space = background_space(layer.engine);
    match ext_across(layer, x) {
        None => 0,
        Some(across) => direct_pixel(half_among(
            vram,
            space,
            halves_start(layer, y),
            line,
            across as usize,
        )),
    }
}

/// The pixel at a place of a bitmap of bytes, from its line.
#[inline(always)]
#[tactic(auto, unfolding(crate::specs::ExtendedPixels::ext_point_pixel, crate::specs::ExtendedPixels::byte_pixel))]
fn byte_of_line(
    vram: &Vram,
    palette: &[u8],
    layer: &ExtLayer,
    y: u32,
    line: &[u8; 512],
    x: u8,
) -> u16
    requires colours { length palette.now ≡ 512 }
    requires bitmap { is_bitmap layer.now ≡ true }
    requires bytes { has_halves layer.now ≡ false }
    requires down { y < 1024 }
    requires line { AreBytes vram.now (background_space layer.now.engine) (bytes_start layer.now y) line.now 512 }
    ensures { result ≡ ext_place_pixel vram.now palette.now layer.now (ext_across layer.now x) (Some y) }
{
    match ext_across(layer, x) {
        None => 0,
        Some(across) => colour_pixel(palette, line[across as usize]),
    }
}

/// The pixel at a place of a map, from its line of entries.
#[inline(always)]
#[tactic(auto, unfolding(crate::specs::ExtendedPixels::ext_point_pixel, crate::specs::ExtendedPixels::ext_entry))]
fn entry_of_line(
    vram: &Vram,
    palette: &[u8],
    layer: &ExtLayer,
    y: u32,
    line: &[u8; 256],
    x: u8,
) -> u16
    requires colours { length palette.now ≡ 512 }
    requires map { is_bitmap layer.now ≡ false }
    requires down { y < 1024 }
    requires line { AreBytes vram.now (background_space layer.now.engine) (entries_start layer.now y) line.now 256 }
    ensures { result ≡ ext_place_pixel vram.now palette.now layer.now (ext_across layer.now x) (Some y) }
{
    let space = background_space(layer.engine);
    match ext_across(layer, x) {
        None => 0,
        Some(across) => {
            let column = (across / 8) as usize;
            let entry = half_among(vram, space, entries_start(layer, y), line, column);
            entry_pixel(vram, palette, layer, entry, across, y)
        }
    }
}

/// Draws the row of a bitmap of halves of whose line y a part is shown as it lies, from column `first` on. `palette` is there for the contract.
fn straight_halves(
    vram: &Vram,
    palette: &[u8],
    layer: &ExtLayer,
    y: u32,
    first: u32,
    into: &mut [u16; 256],
)
    requires bitmap { is_bitmap layer.now ≡ true }
    requires halves { has_halves layer.now ≡ true }
    requires down { y < 1024 }
    requires straight { (x : ℕ) → x < 256 → ext_across layer.now x ≡ Some (first + x) }
    requires within { first + 256 ≤ 512 }
    ensures { (x : ℕ) → x < 256 → slice_index into.new x ≡ ext_place_pixel vram.now palette.now layer.now (ext_across layer.now x) (Some y) }
{
    let space = background_space(layer.engine);
    let at = halves_start(layer, y) + 2 * first;
    let mut part = [0; 512];
    vram.row(space, at, &mut part);
    for x in 0..256usize {
        into[x] = direct_pixel(half_among(vram, space, at, &part, x));
    }
}

/// The same of a bitmap of bytes.
fn straight_bytes(
    vram: &Vram,
    palette: &[u8],
    layer: &ExtLayer,
    y: u32,
    first: u32,
    into: &mut [u16; 256],
)
    requires colours { length palette.now ≡ 512 }
    requires bitmap { is_bitmap layer.now ≡ true }
    requires bytes { has_halves layer.now ≡ false }
    requires down { y < 1024 }
    requires straight { (x : ℕ) → x < 256 → ext_across layer.now x ≡ Some (first + x) }
    requires within { first + 256 ≤ 512 }
    ensures { (x : ℕ) → x < 256 → slice_index into.new x ≡ ext_place_pixel vram.now palette.now layer.now (ext_across layer.now x) (Some y) }
{
    let at = bytes_start(layer, y) + first;
    let mut part = [0; 256];
    vram.row(background_space(layer.engine), at, &mut part);
    for x in 0..256usize {
        into[x] = colour_pixel(palette, part[x]);
    }
}

/// Draws the row of a bitmap of halves whose line y is shown.
fn halves_row(vram: &Vram, palette: &[u8], layer: &ExtLayer, y: u32, into: &mut [u16; 256])
    requires bitmap { is_bitmap layer.now ≡ true }
    requires halves { has_halves layer.now ≡ true }
    requires down { y < 1024 }
    ensures { (x : ℕ) → x < 256 → slice_index into.new x ≡ ext_place_pixel vram.now palette.now layer.now (ext_across layer.now x) (Some y) }
{
    let mut line = [0; 1024];
    let at = halves_start(layer, y);
    vram.row(background_space(layer.engine), at, &mut line);
    for x in 0..256usize {
        into[x] = half_of_line(vram, palette, layer, y, &line, x as u8);
    }
}

/// Draws the row of a bitmap of bytes whose line y is shown.
fn bytes_row(vram: &Vram, palette: &[u8], layer: &ExtLayer, y: u32, into: &mut [u16; 256])
    requires colours { length palette.now ≡ 512 }
    requires bitmap { is_bitmap layer.now ≡ true }
    requires bytes { has_halves layer.now ≡ false }
    requires down { y < 1024 }
    ensures { (x : ℕ) → x < 256 → slice_index into.new x ≡ ext_place_pixel vram.now palette.now layer.now (ext_across layer.now x) (Some y) }
{
    let mut line = [0; 512];
    let at = bytes_start(layer, y);
    vram.row(background_space(layer.engine), at, &mut line);
    for x in 0..256usize {
        into[x] = byte_of_line(vram, palette, layer, y, &line, x as u8);
    }
}

/// Draws the row of a map whose line y is shown.
fn entries_row(vram: &Vram, palette: &[u8], layer: &ExtLayer, y: u32, into: &mut [u16; 256])
    requires colours { length palette.now ≡ 512 }
    requires map { is_bitmap layer.now ≡ false }
    requires down { y < 1024 }
    ensures { (x : ℕ) → x < 256 → slice_index into.new x ≡ ext_place_pixel vram.now palette.now layer.now (ext_across layer.now x) (Some y) }
{
    let mut line = [0; 256];
    let at = entries_start(layer, y);
    vram.row(background_space(layer.engine), at, &mut line);
    for x in 0..256usize {
        into[x] = entry_of_line(vram, palette, layer, y, &line, x as u8);
    }
}

/// Draws the row of a bitmap of whose line y a part is shown as it lies.
fn straight_row(
    vram: &Vram,
    palette: &[u8],
    layer: &ExtLayer,
    y: u32,
    first: u32,
    into: &mut [u16; 256],
)
    requires colours { length palette.now ≡ 512 }
    requires bitmap { is_bitmap layer.now ≡ true }
    requires down { y < 1024 }
    requires straight { (x : ℕ) → x < 256 → ext_across layer.now x ≡ Some (first + x) }
    requires within { first + 256 ≤ 512 }
    ensures { (x : ℕ) → x < 256 → slice_index into.new x ≡ ext_place_pixel vram.now palette.now layer.now (ext_across layer.now x) (Some y) }
{
    if has_halves(layer) {
        straight_halves(vram, palette, layer, y, first, into);
    } else {
        straight_bytes(vram, palette, layer, y, first, into);
    }
}

/// Draws the row of a background whose line y is shown at all its places.
pub fn line_row(vram: &Vram, palette: &[u8], layer: &ExtLayer, y: u32, into: &mut [u16; 256])
    requires colours { length palette.now ≡ 512 }
    requires down { y < 1024 }
    ensures { (x : ℕ) → x < 256 → slice_index into.new x ≡ ext_place_pixel vram.now palette.now layer.now (ext_across layer.now x) (Some y) }
{
    if !is_bitmap(layer) {
        entries_row(vram, palette, layer, y, into);
    } else if let Some(first) = straight(layer) {
        straight_row(vram, palette, layer, y, first, into);
    } else if has_halves(layer) {
        halves_row(vram, palette, layer, y, into);
    } else {
        bytes_row(vram, palette, layer, y, into);
    }
}
