//! The rows of an engine's backgrounds.

ghost use Rattle.std.specs.Prelude.{◌≡◌, ◌<◌, ◌+◌, ℕ, length, slice_index};
ghost use Rattle.video2d.specs.Backgrounds.{background_mode, is_background_on, is_background_3d, background_kind, background_pixel};

use crate::engines::{Engine, EngineRegisters};
use bg_ext::ext_row;
use bg2d::{affine_row, text_row};
use vram_banks::{Row, Vram};

/// What a background is.
#[derive(Clone, Copy, PartialEq, Eq)]
pub enum BackgroundKind {
    /// A text background.
    Text,
    /// An affine background.
    Affine,
    /// An extended background.
    Extended,
    /// One of a mode that is left out.
    LeftOut,
}

/// The kind of background n in a background mode.
pub fn background_kind(mode: u32, n: u8) -> BackgroundKind
    requires { n < 4 }
    ensures { result ≡ background_kind mode n }
{
    match mode {
        0 => BackgroundKind::Text,
        1 => {
            if n == 3 {
                BackgroundKind::Affine
            } else {
                BackgroundKind::Text
            }
        }
        2 => {
            if n < 2 {
                BackgroundKind::Text
            } else {
                BackgroundKind::Affine
            }
        }
        3 => {
            if n == 3 {
                BackgroundKind::Extended
            } else {
                BackgroundKind::Text
            }
        }
        4 => match n {
            0 | 1 => BackgroundKind::Text,
            2 => BackgroundKind::Affine,
            _ => BackgroundKind::Extended,
        },
        5 => {
            if n < 2 {
                BackgroundKind::Text
            } else {
                BackgroundKind::Extended
            }
        }
        _ => BackgroundKind::LeftOut,
    }
}

/// DISPCNT's background mode.
pub fn background_mode(engine: &EngineRegisters) -> u32
    ensures { result ≡ background_mode engine.now }
{
    engine.dispcnt() % 8
}

/// Whether background n is on.
pub fn is_background_on(engine: &EngineRegisters, n: u8) -> bool
    requires { n < 4 }
    ensures { result ≡ is_background_on engine.now n }
{
    (engine.dispcnt() >> (8 + n)) % 2 == 1
}

/// Whether background n shows 3D.
fn is_background_3d(which: Engine, engine: &EngineRegisters, n: u8) -> bool
    ensures { result ≡ is_background_3d which engine.now n }
{
    which == Engine::A && n == 0 && (engine.dispcnt() >> 3) % 2 == 1
}

/// A row that is transparent.
fn clear(into: &mut Row)
    ensures { (x : ℕ) → x < 256 → slice_index into.new.pixels x ≡ 0 }
{
    for x in 0..256usize {
        into.pixels[x] = 0;
    }
}

/// Draws the row of background n at a line. `palette` has the 512 bytes of the engine's background palette.
#[tactic(auto, unfolding(crate::specs::Backgrounds::background_pixel))]
pub fn background_row(
    vram: &Vram,
    palette: &[u8],
    which: Engine,
    engine: &EngineRegisters,
    line: u8,
    n: u8,
    into: &mut Row,
)
    requires colours { length palette.now ≡ 512 }
    requires known { n < 4 }
    ensures { (x : ℕ) → x < 256 → slice_index into.new.pixels x ≡ background_pixel vram.now palette.now which engine.now line n x }
{
    if !is_background_on(engine, n) || is_background_3d(which, engine, n) {
        clear(into);
        return;
    }
    match background_kind(background_mode(engine), n) {
        BackgroundKind::Text => text_row(vram, palette, &engine.text_layer(which, n), line, into),
        BackgroundKind::Affine => affine_row(vram, palette, &engine.affine_layer(which, n), into),
        BackgroundKind::Extended => ext_row(vram, palette, &engine.ext_layer(which, n), into),
        BackgroundKind::LeftOut => clear(into),
    }
}
