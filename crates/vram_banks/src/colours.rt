//! Pixels of palettes' colours.

ghost use Rattle.std.specs.Prelude.{◌≡◌, ◌<◌, ◌≤◌, ◌+◌, ◌*◌, ◌/◌, ◌%◌, ◌^◌, ◌==◌, if◌then◌else◌, ℕ, length, map, bit_and, slice_index};
ghost use Rattle.ds_base.specs.declared.memories.Width.TheVariants.{Half};
ghost use Rattle.vram_banks.specs.Cells.{vram_byte, vram_value, IsRunOf};
ghost use Rattle.vram_banks.specs.Colours.{opaque_pixel, indexed_pixel, palette_colour, extended_colour, IsTable};
ghost use Rattle.vram_banks.specs.Tiles.{flipped};

use crate::banks::Vram;
use crate::tiles::flipped;
use ds_base::{Space, Width};
use std::simd::prelude::*;

/// An opaque pixel of a colour.
#[inline(always)]
pub fn opaque_pixel(colour: u16) -> u16
    ensures { result ≡ opaque_pixel colour }
{
    colour % 0x8000 + 0x8000
}

/// A colour of a standard palette.
#[inline(always)]
pub fn palette_colour(palette: &[u8], index: usize) -> u16
    requires { 2 * index + 1 < length palette.now }
    ensures { result ≡ palette_colour palette.now index }
{
    u16::from_le_bytes([palette[2 * index], palette[2 * index + 1]])
}

/// The half at an address of a space.
#[inline(always)]
pub fn half(vram: &Vram, space: Space, at: u32) -> u16
    ensures { result ≡ vram_value vram.now space at Half }
{
    vram.read_in_line(space, at, Width::Half) as u16
}

/// The byte at an address of a space.
#[inline(always)]
pub fn byte(vram: &Vram, space: Space, at: u32) -> u8
    ensures { result ≡ vram_byte vram.now space at }
{
    vram.read_in_line(space, at, Width::Byte) as u8
}

/// The byte `offset` bytes past `base`, from where the bytes from there on lie if `run` has it.
#[inline(always)]
pub fn byte_within(vram: &Vram, space: Space, run: &[u8], base: u32, offset: u32) -> u8
    requires run { IsRunOf vram.now space base run.now }
    requires small { base + offset < 2 ^ 32 }
    ensures { result ≡ vram_byte vram.now space (base + offset) }
{
    if (offset as usize) < run.len() {
        run[offset as usize]
    } else {
        byte(vram, space, base + offset)
    }
}

/// The pixel of an index by a standard palette whose colours begin at `start`.
#[inline(always)]
pub fn standard_pixel(palette: &[u8], start: usize, index: u8) -> u16
    requires colours { length palette.now ≡ 512 }
    requires inside { start + index < 256 }
    ensures { result ≡ indexed_pixel (λ i. palette_colour palette.now (start + i)) index }
{
    let pixel = opaque_pixel(palette_colour(palette, start + index as usize));
    if index == 0 { 0 } else { pixel }
}

/// The pixel of an index by a whole standard palette.
#[inline(always)]
pub fn colour_pixel(palette: &[u8], index: u8) -> u16
    requires { length palette.now ≡ 512 }
    ensures { result ≡ indexed_pixel (palette_colour palette.now) index }
{
    if index == 0 {
        0
    } else {
        opaque_pixel(palette_colour(palette, index as usize))
    }
}

/// The pixel of an index by a palette that begins at an address of a space.
#[inline(always)]
pub fn extended_pixel(vram: &Vram, space: Space, at: u32, index: u8) -> u16
    requires { at < 2 ^ 31 }
    ensures { result ≡ indexed_pixel (extended_colour vram.now space at) index }
{
    if index == 0 {
        0
    } else {
        opaque_pixel(half(vram, space, at + 2 * index as u32))
    }
}

/// The pixels of a tile's row of eight indices, flipped or not, by a standard palette whose colours begin at `start`.
pub fn paint_standard(palette: &[u8], start: usize, flip: bool, indices: &[u8], into: &mut [u16])
    requires colours { length palette.now ≡ 512 }
    requires indices { length indices.now ≡ 8 }
    requires room { length into.old ≡ 8 }
    requires start { start < 256 }
    requires inside { (i : ℕ) → i < 8 → start + slice_index indices.now i < 256 }
    ensures { (i : ℕ) → i < 8 → slice_index into.new i
        ≡ indexed_pixel (λ c. palette_colour palette.now (start + c)) (slice_index indices.now (flipped flip i)) }
{
    for i in 0..8 {
        into[i] = standard_pixel(palette, start, indices[flipped(flip, i)]);
    }
}

/// Eight colours of a standard palette, from number 8 k on.
#[inline(always)]
fn eight_colours(palette: &[u8], k: usize) -> u16x8
    requires { 16 * k + 16 ≤ length palette.now }
    ensures long { length result ≡ 8 }
    ensures each { (i : ℕ) → i < 8 → slice_index result i ≡ palette_colour palette.now (8 * k + i) }
{
    u16x8::from_le_bytes(u8x16::from_slice(&palette[16 * k..16 * k + 16]))
}

/// The low fifteen bits of eight colours.
#[inline(always)]
fn eight_low(colours: u16x8) -> u16x8
    requires { length colours ≡ 8 }
    ensures { result ≡ map (λ c. bit_and c 0x7FFF) colours }
{
    colours & u16x8::splat(0x7FFF)
}

/// Bit 15 added to each of eight numbers.
#[inline(always)]
fn eight_raised(numbers: u16x8) -> u16x8
    requires { length numbers ≡ 8 }
    ensures { result ≡ map (λ n. (n + 2 ^ 15) % 65536) numbers }
{
    numbers + u16x8::splat(0x8000)
}

/// The pixels of eight colours.
#[inline(always)]
fn eight_pixels(palette: &[u8], k: usize, into: &mut [u16])
    requires colours { 16 * k + 16 ≤ length palette.now }
    requires room { length into.old ≡ 8 }
    ensures { (i : ℕ) → i < 8 → slice_index into.new i ≡ opaque_pixel (palette_colour palette.now (8 * k + i)) }
{
    eight_raised(eight_low(eight_colours(palette, k))).copy_to_slice(into);
}

/// The opaque pixel of each colour of a standard palette.
fn fill_opaque(palette: &[u8], into: &mut [u16; 256])
    requires { length palette.now ≡ 512 }
    ensures { (i : ℕ) → i < 256 → slice_index into.new i ≡ opaque_pixel (palette_colour palette.now i) }
{
    for k in 0..32usize {
        eight_pixels(palette, k, &mut into[8 * k..8 * k + 8]);
    }
}

/// Makes the first pixel of each sixteen transparent.
fn clear_firsts(into: &mut [u16; 256])
    ensures { (i : ℕ) → i < 256 → slice_index into.new i ≡ (if i % 16 == 0 then 0 else slice_index into.old i) }
{
    for k in 0..16usize {
        into[16 * k] = 0;
    }
}

/// The pixel of each colour of a standard palette, for tiles of 256 colours or of 16, by which `paint_by_table` paints many tiles.
pub fn fill_table(palette: &[u8], wide: bool, into: &mut [u16; 256])
    requires { length palette.now ≡ 512 }
    ensures { IsTable wide palette.now into.new }
{
    fill_opaque(palette, into);
    if wide {
        into[0] = 0;
    } else {
        clear_firsts(into);
    }
}

/// The pixels of a table from one on.
#[inline(always)]
fn pixels_from(table: &[u16; 256], start: usize) -> &[u16]
    requires { start < 256 }
    ensures value { (i : ℕ) → slice_index result.now i ≡ slice_index table.now (start + i) }
    ensures long { start + length result.now ≡ 256 }
{
    &table[start..]
}

/// The pixels of a tile's row of eight indices, flipped or not, by those of a table that begin at `start`.
#[inline(never)]
pub fn paint_by_table(
    table: &[u16; 256],
    start: usize,
    flip: bool,
    indices: &[u8],
    into: &mut [u16],
)
    requires indices { length indices.now ≡ 8 }
    requires room { length into.old ≡ 8 }
    requires start { start < 256 }
    requires inside { (i : ℕ) → i < 8 → start + slice_index indices.now i < 256 }
    ensures { (i : ℕ) → i < 8 → slice_index into.new i ≡ slice_index table.now (start + slice_index indices.now (flipped flip i)) }
{
    let pixels = pixels_from(table, start);
    for i in 0..8 {
        into[i] = pixels[indices[flipped(flip, i)] as usize];
    }
}

/// The pixels of a row of a tile of 16 colours, flipped or not, by those of a table that begin at `start`, of which the first is transparent.
/// `word` has the row's indices, the left one in its lowest nibble.
#[inline(always)]
pub fn paint_nibbles(table: &[u16; 256], start: usize, flip: bool, word: u32, into: &mut [u16])
    requires room { length into.old ≡ 8 }
    requires start { start ≤ 240 }
    requires clear { slice_index table.now start ≡ 0 }
    ensures { (i : ℕ) → i < 8 → slice_index into.new i ≡ slice_index table.now (start + word / 2 ^ (4 * flipped flip i) % 16) }
{
    if word == 0 {
        into.fill(0);
        return;
    }
    let pixels = pixels_from(table, start);
    if flip {
        for i in 0..8usize {
            into[i] = pixels[(word >> (28 - 4 * i) & 15) as usize];
        }
    } else {
        for j in 0..8usize {
            into[j] = pixels[(word >> (4 * j) & 15) as usize];
        }
    }
}
