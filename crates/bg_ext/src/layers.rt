//! What an extended background is drawn from.

ghost use Rattle.std.specs.Prelude.{◌≡◌, ◌<◌, ◌≤◌, ◌+◌, ◌%◌, IfSome, Some, slice_index, true, ℕ};
ghost use Rattle.ds_base.specs.Bits.{bit, bits};
ghost use Rattle.bg_ext.specs.ExtendedPixels.{is_bitmap, has_halves, map_sides, bitmap_widths, bitmap_heights, ext_width, ext_height, ext_across, ext_down, bitmap_base};

use vram_banks::{affine_coordinate, place_within};

/// An extended background, by its ports (GBATEK, "DS Video BG Modes / Control", "LCD I/O BG Rotation/Scaling").
#[derive(Clone, Copy, PartialEq, Eq)]
pub struct ExtLayer {
    /// 0 for engine A; any other number is engine B.
    pub engine: u8,
    /// The background's number, 2 or 3, which is its slot of extended palettes.
    pub number: u8,
    /// The engine's DISPCNT.
    pub display: u32,
    /// The background's BGxCNT.
    pub control: u16,
    /// The point shown at the left end of the line, across: 8 fractional bits.
    pub x: i32,
    /// The point shown at the left end of the line, down: 8 fractional bits.
    pub y: i32,
    /// PA: the step across for each pixel, with 8 fractional bits.
    pub pa: i16,
    /// PC: the step down for each pixel, with 8 fractional bits.
    pub pc: i16,
}

/// Whether the background is a bitmap; else it is a map.
pub fn is_bitmap(layer: &ExtLayer) -> bool
    ensures { result ≡ is_bitmap layer.now }
{
    (layer.control >> 7) % 2 == 1
}

/// Whether a bitmap's pixels are halves; else they are bytes.
pub fn has_halves(layer: &ExtLayer) -> bool
    ensures { result ≡ has_halves layer.now }
{
    (layer.control >> 2) % 2 == 1
}

/// A map's size in pixels, the same both ways, by its size's number.
pub fn map_side(size: u16) -> u32
    requires { size < 4 }
    ensures value { result ≡ slice_index map_sides size }
    ensures some { 128 ≤ result }
    ensures small { result ≤ 1024 }
{
    match size {
        0 => 128,
        1 => 256,
        2 => 512,
        _ => 1024,
    }
}

/// A bitmap's width, likewise.
pub fn bitmap_width(size: u16) -> u32
    requires { size < 4 }
    ensures value { result ≡ slice_index bitmap_widths size }
    ensures some { 128 ≤ result }
    ensures small { result ≤ 512 }
{
    match size {
        0 => 128,
        1 => 256,
        _ => 512,
    }
}

/// A bitmap's height, likewise.
pub fn bitmap_height(size: u16) -> u32
    requires { size < 4 }
    ensures value { result ≡ slice_index bitmap_heights size }
    ensures some { 128 ≤ result }
    ensures small { result ≤ 512 }
{
    match size {
        0 => 128,
        1 => 256,
        2 => 256,
        _ => 512,
    }
}

/// The number of the background's size.
pub fn size_number(layer: &ExtLayer) -> u16
    ensures value { result ≡ bits 14 2 layer.now.control }
    ensures small { result < 4 }
{
    layer.control >> 14
}

/// The background's width.
pub fn ext_width(layer: &ExtLayer) -> u32
    ensures value { result ≡ ext_width layer.now }
    ensures some { 128 ≤ result }
    ensures small { result ≤ 1024 }
    ensures narrow { is_bitmap layer.now ≡ true → result ≤ 512 }
{
    if is_bitmap(layer) {
        bitmap_width(size_number(layer))
    } else {
        map_side(size_number(layer))
    }
}

/// The background's height.
pub fn ext_height(layer: &ExtLayer) -> u32
    ensures value { result ≡ ext_height layer.now }
    ensures some { 128 ≤ result }
    ensures small { result ≤ 1024 }
{
    if is_bitmap(layer) {
        bitmap_height(size_number(layer))
    } else {
        map_side(size_number(layer))
    }
}

/// Whether the background begins again outside.
fn wraps(layer: &ExtLayer) -> bool
    ensures { result ≡ bit 13 layer.now.control }
{
    (layer.control >> 13) % 2 == 1
}

/// The column that place x of the line shows.
#[inline(always)]
pub fn ext_across(layer: &ExtLayer, x: u8) -> Option<u32>
    ensures value { result ≡ ext_across layer.now x }
    ensures small { IfSome result (λ place. place < 1024) }
    ensures narrow { is_bitmap layer.now ≡ true → IfSome result (λ place. place < 512) }
{
    place_within(
        wraps(layer),
        ext_width(layer),
        affine_coordinate(layer.x, layer.pa, x),
    )
}

/// The column that the first place shows, where each place shows the column after that of the place before it and none lies outside.
pub fn straight(layer: &ExtLayer) -> Option<u32>
    ensures value { IfSome result (λ first. (x : ℕ) → x < 256 → ext_across layer.now x ≡ Some (first + x)) }
    ensures small { is_bitmap layer.now ≡ true → IfSome result (λ first. first + 256 ≤ 512) }
{
    if layer.pa != 0x100 || layer.x < 0 {
        return None;
    }
    let first = layer.x as u32 / 256;
    if first + 256 <= ext_width(layer) {
        Some(first)
    } else {
        None
    }
}

/// The line of the background that place x of the line shows.
#[inline(always)]
pub fn ext_down(layer: &ExtLayer, x: u8) -> Option<u32>
    ensures value { result ≡ ext_down layer.now x }
    ensures small { IfSome result (λ place. place < 1024) }
{
    place_within(
        wraps(layer),
        ext_height(layer),
        affine_coordinate(layer.y, layer.pc, x),
    )
}

/// Where a bitmap begins.
pub fn bitmap_base(layer: &ExtLayer) -> u32
    ensures value { result ≡ bitmap_base layer.now }
    ensures even { result % 2 ≡ 0 }
    ensures small { result < 0x80000 }
{
    0x4000 * ((layer.control >> 8) % 32) as u32
}
