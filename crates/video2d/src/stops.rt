//! What a line can't be drawn with.

ghost use Rattle.std.specs.Prelude.{◌≡◌, ◌<◌, ◌∷◌, [], IsFalse, length};
ghost use Rattle.ds_base.specs.Bits.{bit};
ghost use Rattle.obj2d.specs.Attributes.{object_at};
ghost use Rattle.video2d.specs.Engines.{dispcnt};
ghost use Rattle.video2d.specs.Pictures.{object_memory};
ghost use Rattle.video2d.specs.Stops.{needed_if, first_need, value_of_engine, needs_display_mode, needs_mode, needs_capture, needs_of_background, needs_of_object, needs_of_objects, needs_of_objects_shown, needs_of_engine, needs_of_line};
ghost use Rattle.video2d.specs.rows.Needs.{AreAmong, IsAmong, NeedNothing};

use crate::backgrounds::{background_mode, is_background_on};
use crate::engines::{Engine, EngineRegisters};
use crate::lines::{display_mode, is_enabled, is_forced_blank, object_memory, shows_layers};
use ds_base::{LeftKind, Stop};
use obj2d::{covers_line, is_mosaic_object, object_mode};

fn needed_if(needs: bool, kind: LeftKind, value: u32) -> Option<Stop>
    ensures { result ≡ needed_if needs kind value }
{
    if needs {
        Some(Stop { kind, value })
    } else {
        None
    }
}

/// The first, or where there is none the second.
fn or_else(first: Option<Stop>, second: Option<Stop>) -> Option<Stop>
    ensures { result ≡ first_need (first ∷ second ∷ []) }
{
    match first {
        Some(stop) => Some(stop),
        None => second,
    }
}

/// Engine B's values have 256 more.
fn value_of_engine(which: Engine, value: u32) -> u32
    requires { value < 256 }
    ensures { result ≡ value_of_engine which value }
{
    match which {
        Engine::A => value,
        Engine::B => 256 + value,
    }
}

fn needs_display_mode(which: Engine, engine: &EngineRegisters) -> Option<Stop>
    ensures { result ≡ needs_display_mode which engine.now }
{
    let mode = display_mode(which, engine);
    needed_if(
        mode == 3,
        LeftKind::DisplayMode,
        value_of_engine(which, mode),
    )
}

fn needs_mode(which: Engine, engine: &EngineRegisters) -> Option<Stop>
    ensures { result ≡ needs_mode which engine.now }
{
    let mode = background_mode(engine);
    needed_if(
        shows_layers(which, engine) && mode >= 6,
        LeftKind::BgMode,
        value_of_engine(which, mode),
    )
}

fn needs_capture(which: Engine, engine: &EngineRegisters) -> Option<Stop>
    ensures { result ≡ needs_capture which engine.now }
{
    let capture = engine.dispcapcnt();
    needed_if(
        which == Engine::A && capture >> 31 == 1,
        LeftKind::Capture,
        capture,
    )
}

fn needs_of_background(which: Engine, engine: &EngineRegisters, n: u8) -> Option<Stop>
    requires { n < 4 }
    ensures { result ≡ needs_of_background which engine.now n }
{
    if !(shows_layers(which, engine) && is_background_on(engine, n)) {
        return None;
    }
    let mosaic = (engine.bgcnt(n) >> 6) % 2 == 1 && engine.background_mosaic() != 0;
    needed_if(mosaic, LeftKind::Mosaic, value_of_engine(which, n as u32))
}

/// What the object of a number needs. `oam` has the engine's 1,024 bytes of objects.
fn needs_of_object(
    which: Engine,
    engine: &EngineRegisters,
    oam: &[u8],
    line: u8,
    n: usize,
) -> Option<Stop>
    requires oam { length oam.now ≡ 1024 }
    requires known { n < 128 }
    ensures { result ≡ needs_of_object which engine.now oam.now line n }
{
    // most objects are no bitmaps and have no mosaic, wherever they are
    if object_mode(oam, n) != 3 && !is_mosaic_object(oam, n) {
        return None;
    }
    if !covers_line(oam, engine.dispcnt(), n, line) {
        return None;
    }
    if object_mode(oam, n) == 3 {
        return needed_if(
            true,
            LeftKind::BitmapObject,
            value_of_engine(which, n as u32),
        );
    }
    let mosaic = is_mosaic_object(oam, n) && engine.object_mosaic() != 0;
    needed_if(
        mosaic,
        LeftKind::Mosaic,
        value_of_engine(which, 128 + n as u32),
    )
}

/// The eight bytes of an object, as one number.
fn entry_at(oam: &[u8], n: usize) -> u64
    requires long { length oam.now ≡ 1024 }
    requires known { n < 128 }
    ensures { IsAmong (object_at oam.now n).attribute0 result }
{
    u64::from_le_bytes([
        oam[8 * n],
        oam[8 * n + 1],
        oam[8 * n + 2],
        oam[8 * n + 3],
        oam[8 * n + 4],
        oam[8 * n + 5],
        oam[8 * n + 6],
        oam[8 * n + 7],
    ])
}

/// The bits of all objects together. Whole entries are taken, so that several are at once.
fn bits_of_all(oam: &[u8]) -> u64
    requires { length oam.now ≡ 1024 }
    ensures { AreAmong oam.now 128 result }
{
    let mut all = 0u64;
    for n in 0..128usize {
        all = all | entry_at(oam, n);
    }
    all
}

/// Whether an object may be a bitmap or have mosaic: false where none is and none has.
fn may_need(oam: &[u8]) -> bool
    requires { length oam.now ≡ 1024 }
    ensures { IsFalse result → NeedNothing oam.now }
{
    let all = bits_of_all(oam);
    ((all >> 10) % 4 == 3) | ((all >> 12) % 2 == 1)
}

/// Whether the engine's objects are on.
fn has_objects(engine: &EngineRegisters) -> bool
    ensures { result ≡ bit 12 (dispcnt engine.now) }
{
    (engine.dispcnt() >> 12) % 2 == 1
}

/// What the first object needs that needs anything.
fn needs_of_objects(which: Engine, engine: &EngineRegisters, oam: &[u8], line: u8) -> Option<Stop>
    requires { length oam.now ≡ 1024 }
    ensures { result ≡ needs_of_objects which engine.now oam.now line }
{
    if !has_objects(engine) {
        return None;
    }
    if !may_need(oam) {
        return None;
    }
    for n in 0..128usize {
        if let Some(stop) = needs_of_object(which, engine, oam, line, n) {
            return Some(stop);
        }
    }
    None
}

/// What objects need where layers are shown. `oam` has the bytes of both engines' objects.
fn needs_of_objects_shown(
    which: Engine,
    engine: &EngineRegisters,
    oam: &[u8],
    line: u8,
) -> Option<Stop>
    requires { length oam.now ≡ 2048 }
    ensures { result ≡ needs_of_objects_shown which engine.now (object_memory which oam.now) line }
{
    if shows_layers(which, engine) {
        needs_of_objects(which, engine, object_memory(which, oam), line)
    } else {
        None
    }
}

/// What an engine's line needs that isn't there, in order.
fn needs_of_engine(
    which: Engine,
    power: u16,
    engine: &EngineRegisters,
    oam: &[u8],
    line: u8,
) -> Option<Stop>
    requires { length oam.now ≡ 2048 }
    ensures { result ≡ needs_of_engine which power engine.now oam.now line }
{
    if !is_enabled(which, power) || is_forced_blank(engine) {
        return None;
    }
    let objects = needs_of_objects_shown(which, engine, oam, line);
    let three = or_else(needs_of_background(which, engine, 3), objects);
    let two = or_else(needs_of_background(which, engine, 2), three);
    let one = or_else(needs_of_background(which, engine, 1), two);
    let zero = or_else(needs_of_background(which, engine, 0), one);
    let capture = or_else(needs_capture(which, engine), zero);
    let mode = or_else(needs_mode(which, engine), capture);
    or_else(needs_display_mode(which, engine), mode)
}

/// Why the line that is to be drawn stops, if it does: the first need of both engines. `oam` has the bytes of both engines' objects.
pub fn needs_of_line(
    power: u16,
    a: &EngineRegisters,
    b: &EngineRegisters,
    oam: &[u8],
    line: u8,
) -> Option<Stop>
    requires { length oam.now ≡ 2048 }
    ensures { result ≡ needs_of_line power a.now b.now oam.now line }
{
    or_else(
        needs_of_engine(Engine::A, power, a, oam, line),
        needs_of_engine(Engine::B, power, b, oam, line),
    )
}
