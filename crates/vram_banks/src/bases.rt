//! Where a background has its map and its tiles.

ghost use Rattle.std.specs.Prelude.{◌≡◌, ◌<◌};
ghost use Rattle.vram_banks.specs.Bases.{background_space, background_palette_space, display_base, map_base, tile_base};

use ds_base::Space;

/// The space of an engine's backgrounds.
#[inline(always)]
pub fn background_space(engine: u8) -> Space
    ensures { result ≡ background_space engine }
{
    if engine == 0 { Space::ABg } else { Space::BBg }
}

/// The space of their extended palettes.
#[inline(always)]
pub fn background_palette_space(engine: u8) -> Space
    ensures { result ≡ background_palette_space engine }
{
    if engine == 0 {
        Space::ABgPalette
    } else {
        Space::BBgPalette
    }
}

/// A base of 64K steps, which engine A alone has.
#[inline(always)]
fn display_base(engine: u8, field: u32) -> u32
    requires { field < 8 }
    ensures value { result ≡ display_base engine field }
    ensures small { result < 0x80000 }
{
    if engine == 0 { 0x10000 * field } else { 0 }
}

/// The map's base.
#[inline(always)]
pub fn map_base(engine: u8, display: u32, control: u16) -> u32
    ensures value { result ≡ map_base engine display control }
    ensures small { result < 0x90000 }
{
    0x800 * ((control >> 8) % 32) as u32 + display_base(engine, (display >> 27) % 8)
}

/// The tiles' base.
#[inline(always)]
pub fn tile_base(engine: u8, display: u32, control: u16) -> u32
    ensures value { result ≡ tile_base engine display control }
    ensures small { result < 0xC0000 }
{
    0x4000 * ((control >> 2) % 16) as u32 + display_base(engine, (display >> 24) % 8)
}
