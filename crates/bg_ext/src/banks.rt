//! Rows of a bank of video memory that is shown as it lies.

ghost use Rattle.std.specs.Prelude.{◌≡◌, ◌<◌, ◌+◌, ◌*◌, ◌%◌, ℕ, slice_index};
ghost use Rattle.ds_base.specs.declared.memories.Space.TheVariants.{Lcdc};
ghost use Rattle.ds_base.specs.declared.memories.Width.TheVariants.{Half};
ghost use Rattle.vram_banks.specs.Cells.{vram_value};
ghost use Rattle.vram_banks.specs.Colours.{HasForm, opaque_pixel};
ghost use Rattle.bg_ext.specs.BankPixels.{vram_pixel};
ghost use Rattle.bg_ext.specs.rows.Lines.{AreBytes};

use crate::pixels::half_among;
use ds_base::Space;
use vram_banks::{Row, Vram, opaque_pixel};

/// The pixels of a line's halves, which were read from an address on. The other arguments are there for the contract.
fn paint(vram: &Vram, at: u32, bytes: &[u8; 512], into: &mut [u16; 256])
    requires bytes { AreBytes vram.now Lcdc at bytes.now 512 }
    requires even { at % 2 ≡ 0 }
    ensures { (x : ℕ) → x < 256 → slice_index into.new x ≡ opaque_pixel (vram_value vram.now Lcdc (at + 2 * x) Half) }
{
    for x in 0..256usize {
        into[x] = opaque_pixel(half_among(vram, Space::Lcdc, at, bytes, x));
    }
}

/// Draws line `line` of the bank that DISPCNT, which is `display`, chooses in display mode 2: at each place the low 15 bits of its half, opaque,
/// whatever its bit 15 is (GBATEK, "DS Video BG Modes / Control"). Lines below 192 are those that are shown.
#[tactic(auto, unfolding(crate::specs::BankPixels::vram_pixel))]
pub fn vram_row(vram: &Vram, display: u32, line: u8, into: &mut Row)
    ensures row { (x : ℕ) → x < 256 → slice_index into.new.pixels x ≡ vram_pixel vram.now display line x }
    ensures form { (x : ℕ) → x < 256 → HasForm (slice_index into.new.pixels x) }
{
    let at = 0x20000 * ((display >> 18) % 4) + 512 * line as u32;
    let mut bytes = [0; 512];
    vram.row(Space::Lcdc, at, &mut bytes);
    paint(vram, at, &bytes, &mut into.pixels);
}
