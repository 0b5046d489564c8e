//! The line that an engine shows.

ghost use Rattle.std.specs.Prelude.{◌≡◌, ◌<◌, ◌%◌, ◌^◌, ℕ, length, slice_index};
ghost use Rattle.bg_ext.specs.BankPixels.{vram_pixel};
ghost use Rattle.video2d.specs.Engines.{dispcnt};
ghost use Rattle.video2d.specs.Pictures.{layered_pixel, is_engine_enabled, display_mode, is_forced_blank, screen_shown, shows_layers, screen_pixel, engine_pixel, engine_line, background_palette, object_palette, object_memory};

use crate::compositions::composed_line;
use crate::engines::{Engine, EngineRegisters};
use crate::plains::{calm_line, is_calm, is_plain, plain_layers};
use crate::rows::{colours_of, fill};
use bg_ext::vram_row;
use line_lanes::master;
use vram_banks::{Row, Vram};

/// What a white screen shows.
const WHITE: u16 = 0x7FFF;

/// What an engine's screen shows.
#[derive(Clone, Copy, PartialEq, Eq)]
pub enum Screen {
    /// White: display mode 0, and forced blank.
    White,
    /// The layers.
    Layers,
    /// A bank of video memory, as it lies.
    Bank,
    /// Main memory, which is left out.
    MainMemory,
}

/// The display mode: two bits of DISPCNT, of which engine B has the low one alone.
pub fn display_mode(which: Engine, engine: &EngineRegisters) -> u32
    ensures value { result ≡ display_mode which engine.now }
    ensures small { result < 4 }
{
    let mode = (engine.dispcnt() >> 16) % 4;
    match which {
        Engine::A => mode,
        Engine::B => mode % 2,
    }
}

/// Whether the engine's blank is forced.
pub fn is_forced_blank(engine: &EngineRegisters) -> bool
    ensures { result ≡ is_forced_blank engine.now }
{
    (engine.dispcnt() >> 7) % 2 == 1
}

/// What the engine's screen shows.
fn screen_shown(which: Engine, engine: &EngineRegisters) -> Screen
    ensures { result ≡ screen_shown which engine.now }
{
    if is_forced_blank(engine) {
        return Screen::White;
    }
    match display_mode(which, engine) {
        0 => Screen::White,
        1 => Screen::Layers,
        2 => Screen::Bank,
        _ => Screen::MainMemory,
    }
}

/// Whether the engine shows its layers.
pub fn shows_layers(which: Engine, engine: &EngineRegisters) -> bool
    ensures { result ≡ shows_layers which engine.now }
{
    !is_forced_blank(engine) && display_mode(which, engine) == 1
}

/// Whether POWCNT1 enables an engine.
pub fn is_enabled(which: Engine, power: u16) -> bool
    ensures { result ≡ is_engine_enabled which power }
{
    let bit = match which {
        Engine::A => 1,
        Engine::B => 9,
    };
    (power >> bit) % 2 == 1
}

/// Draws the line of an engine's layers. `colours` and `object_colours` have the 512 bytes of its palettes for backgrounds and for objects, `oam` its
/// 1,024 bytes of objects.
fn layered_line(
    vram: &Vram,
    colours: &[u8],
    object_colours: &[u8],
    oam: &[u8],
    which: Engine,
    engine: &EngineRegisters,
    line: u8,
    into: &mut [u16; 256],
)
    requires colours { length colours.now ≡ 512 }
    requires object_colours { length object_colours.now ≡ 512 }
    requires oam { length oam.now ≡ 1024 }
    ensures { (x : ℕ) → x < 256 → slice_index into.new x ≡ layered_pixel vram.now colours.now object_colours.now oam.now which engine.now line x }
{
    if is_plain(engine) {
        plain_layers(vram, colours, which, engine, line, into);
    } else if is_calm(engine) {
        calm_line(
            vram,
            colours,
            object_colours,
            oam,
            which,
            engine,
            line,
            into,
        );
    } else {
        composed_line(
            vram,
            colours,
            object_colours,
            oam,
            which,
            engine,
            line,
            into,
        );
    }
}

/// The palette of an engine's backgrounds, in the memory of both engines' palettes.
fn background_palette(which: Engine, palette: &[u8]) -> &[u8]
    requires { length palette.now ≡ 2048 }
    ensures value { result.now ≡ background_palette which palette.now }
    ensures long { length result.now ≡ 512 }
{
    match which {
        Engine::A => &palette[0..512],
        Engine::B => &palette[1024..1536],
    }
}

/// The palette of its objects, likewise.
fn object_palette(which: Engine, palette: &[u8]) -> &[u8]
    requires { length palette.now ≡ 2048 }
    ensures value { result.now ≡ object_palette which palette.now }
    ensures long { length result.now ≡ 512 }
{
    match which {
        Engine::A => &palette[512..1024],
        Engine::B => &palette[1536..2048],
    }
}

/// The objects of an engine, in the memory of both engines' objects.
pub fn object_memory(which: Engine, oam: &[u8]) -> &[u8]
    requires { length oam.now ≡ 2048 }
    ensures value { result.now ≡ object_memory which oam.now }
    ensures long { length result.now ≡ 1024 }
{
    match which {
        Engine::A => &oam[0..1024],
        Engine::B => &oam[1024..2048],
    }
}

/// Draws the line of a bank that is shown as it lies.
fn bank_line(vram: &Vram, engine: &EngineRegisters, line: u8, into: &mut [u16; 256])
    ensures { (x : ℕ) → x < 256 → slice_index into.new x ≡ vram_pixel vram.now (dispcnt engine.now) line x % 2 ^ 15 }
{
    let mut row = Row { pixels: [0; 256] };
    vram_row(vram, engine.dispcnt(), line, &mut row);
    colours_of(&row.pixels, into);
}

/// Draws the line of an engine's layers, with its palettes and objects in the memories of both engines.
fn layers_line(
    vram: &Vram,
    palette: &[u8],
    oam: &[u8],
    which: Engine,
    engine: &EngineRegisters,
    line: u8,
    into: &mut [u16; 256],
)
    requires colours { length palette.now ≡ 2048 }
    requires oam { length oam.now ≡ 2048 }
    ensures { (x : ℕ) → x < 256 → slice_index into.new x
        ≡ layered_pixel vram.now (background_palette which palette.now) (object_palette which palette.now)
        (object_memory which oam.now) which engine.now line x }
{
    let colours = background_palette(which, palette);
    let object_colours = object_palette(which, palette);
    let objects = object_memory(which, oam);
    layered_line(
        vram,
        colours,
        object_colours,
        objects,
        which,
        engine,
        line,
        into,
    );
}

/// Draws the line of an enabled engine, before master brightness. `palette` and `oam` are the memories of both engines.
fn screen_line(
    vram: &Vram,
    palette: &[u8],
    oam: &[u8],
    which: Engine,
    engine: &EngineRegisters,
    line: u8,
    into: &mut [u16; 256],
)
    requires colours { length palette.now ≡ 2048 }
    requires oam { length oam.now ≡ 2048 }
    ensures { (x : ℕ) → x < 256 → slice_index into.new x ≡ screen_pixel vram.now palette.now oam.now which engine.now line x }
{
    match screen_shown(which, engine) {
        Screen::White => fill(WHITE, into),
        Screen::Layers => layers_line(vram, palette, oam, which, engine, line, into),
        Screen::Bank => bank_line(vram, engine, line, into),
        Screen::MainMemory => fill(0, into),
    }
}

/// Draws the line that an engine shows.
fn shown_line(
    vram: &Vram,
    palette: &[u8],
    oam: &[u8],
    which: Engine,
    power: u16,
    engine: &EngineRegisters,
    line: u8,
    into: &mut [u16; 256],
)
    requires colours { length palette.now ≡ 2048 }
    requires oam { length oam.now ≡ 2048 }
    ensures { (x : ℕ) → x < 256 → slice_index into.new x ≡ engine_pixel vram.now palette.now oam.now which power engine.now line x }
{
    if is_enabled(which, power) {
        screen_line(vram, palette, oam, which, engine, line, into);
        master(into, engine.master_bright());
    } else {
        fill(0, into);
    }
}

/// Draws the line that an engine shows, as a list. `palette` and `oam` are the memories of both engines.
pub fn engine_line(
    vram: &Vram,
    palette: &[u8],
    oam: &[u8],
    which: Engine,
    power: u16,
    engine: &EngineRegisters,
    line: u8,
    into: &mut [u16; 256],
)
    requires colours { length palette.now ≡ 2048 }
    requires oam { length oam.now ≡ 2048 }
    ensures { into.new ≡ engine_line vram.now palette.now oam.now which power engine.now line }
{
    shown_line(vram, palette, oam, which, power, engine, line, into);
}
