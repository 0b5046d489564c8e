//! The pixels of an object's colours, found once for many of its points.

ghost use Rattle.std.specs.Prelude.{◌≡◌, true, false, length};
ghost use Rattle.ds_base.specs.Bits.{bit};
ghost use Rattle.vram_banks.specs.Colours.{IsTable};
ghost use Rattle.obj2d.specs.Attributes.{object_has_256};
ghost use Rattle.obj2d.specs.rows.Strips.{IsColoured};

use crate::objects::{Display, Object};
use crate::pixels::{object_palette_space, palette_number};
use vram_banks::{Vram, fill_table};

/// The pixels of the colours of an engine's object palette.
#[derive(Clone, Copy)]
pub struct Tables {
    /// As objects of 16 colours have them: the first of each sixteen is transparent.
    pub narrow: [u16; 256],
    /// As objects of 256 colours have them: the first is transparent.
    pub wide: [u16; 256],
}

/// Makes both tables.
pub fn fill_tables(palette: &[u8], into: &mut Tables)
    requires { length palette.now ≡ 512 }
    ensures narrow { IsTable false palette.now into.new.narrow }
    ensures wide { IsTable true palette.now into.new.wide }
{
    fill_table(palette, false, &mut into.narrow);
    fill_table(palette, true, &mut into.wide);
}

/// The pixels of an object's extended palette, which is read at once. `palette` is there for the contract.
pub fn fill_extended(
    vram: &Vram,
    palette: &[u8],
    display: &Display,
    object: &Object,
    into: &mut [u16; 256],
)
    requires wide { object_has_256 object.now ≡ true }
    requires extended { bit 31 display.now.control ≡ true }
    ensures { IsColoured vram.now palette.now display.now object.now into.new 0 }
{
    let mut bytes = [0; 512];
    let space = object_palette_space(display.engine);
    vram.row(space, 512 * palette_number(object) as u32, &mut bytes);
    fill_table(&bytes, true, into);
}
