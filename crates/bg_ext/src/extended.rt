//! Rows of extended backgrounds.

ghost use Rattle.std.specs.Prelude.{◌≡◌, ◌<◌, ℕ, pos, length, slice_index};
ghost use Rattle.vram_banks.specs.Colours.{HasForm};
ghost use Rattle.bg_ext.specs.ExtendedPixels.{ext_pixel};

use crate::layers::{ExtLayer, ext_down};
use crate::lines::line_row;
use crate::pixels::ext_pixel;
use vram_banks::{Row, Vram};

/// Makes a row transparent.
fn clear(into: &mut [u16; 256])
    ensures { (x : ℕ) → x < 256 → slice_index into.new x ≡ 0 }
{
    for x in 0..256usize {
        into[x] = 0;
    }
}

/// Draws the row of a background that isn't turned, so that one of its lines is shown.
fn level_row(vram: &Vram, palette: &[u8], layer: &ExtLayer, into: &mut [u16; 256])
    requires colours { length palette.now ≡ 512 }
    requires level { layer.now.pc ≡ pos 0 }
    ensures { (x : ℕ) → x < 256 → slice_index into.new x ≡ ext_pixel vram.now palette.now layer.now x }
{
    match ext_down(layer, 0) {
        None => clear(into),
        Some(y) => line_row(vram, palette, layer, y, into),
    }
}

/// Draws the row of any background, point by point.
fn turned_row(vram: &Vram, palette: &[u8], layer: &ExtLayer, into: &mut [u16; 256])
    requires { length palette.now ≡ 512 }
    ensures { (x : ℕ) → x < 256 → slice_index into.new x ≡ ext_pixel vram.now palette.now layer.now x }
{
    for x in 0..256usize {
        into[x] = ext_pixel(vram, palette, layer, x as u8);
    }
}

/// Draws an extended background's row: at each place the pixel of the point that the line's first point and the steps give, exactly and
/// cut off downwards; outside, the background begins again where bit 13 of its control is set, and is transparent else (GBATEK, "DS Video BG
/// Modes / Control", "LCD I/O BG Rotation/Scaling"). `palette` has the 512 bytes of the engine's background palette.
pub fn ext_row(vram: &Vram, palette: &[u8], layer: &ExtLayer, into: &mut Row)
    requires { length palette.now ≡ 512 }
    ensures row { (x : ℕ) → x < 256 → slice_index into.new.pixels x ≡ ext_pixel vram.now palette.now layer.now x }
    ensures form { (x : ℕ) → x < 256 → HasForm (slice_index into.new.pixels x) }
{
    if layer.pc == 0 {
        level_row(vram, palette, layer, &mut into.pixels);
    } else {
        turned_row(vram, palette, layer, &mut into.pixels);
    }
}
