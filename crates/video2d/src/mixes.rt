//! Effects on a row of what is in front at each place.

ghost use Rattle.std.specs.Prelude.{◌≡◌, ◌<◌, ◌≤◌, ◌%◌, ◌^◌, ◌==◌, if◌then◌else◌, ℕ, length, map, slice_index};
ghost use Rattle.std.specs.Simd.Lanes.{zip2};
ghost use Rattle.ds_base.specs.Bits.{bit, bits};
ghost use Rattle.line_lanes.specs.Pixels.{blended};
ghost use Rattle.video2d.specs.Effects.{brightness_changed, effect, eva, evb};
ghost use Rattle.video2d.specs.Engines.{bgcnt, bldcnt};
ghost use Rattle.video2d.specs.rows.Fronts.{effect_mark, finished, finished_where, front_at, laid_as};
ghost use Rattle.video2d.specs.rows.Shown.{shown_bits_at};

use crate::engines::EngineRegisters;
use crate::fronts::{Fronts, Laid, kinds_of};
use crate::rows::{choose, colours_of, most_of};
use crate::windows::{ShownLine, hide};
use line_lanes::{blend, brighten, darken};

/// The priority of background n.
pub fn priority(engine: &EngineRegisters, n: u8) -> u8
    requires { n < 4 }
    ensures { result ≡ bits 0 2 (bgcnt engine.now n) }
{
    (engine.bgcnt(n) % 4) as u8
}

/// Whether bit `at` of BLDCNT is set.
fn is_target(control: u16, at: u16) -> bool
    requires { at < 16 }
    ensures { result ≡ bit at control }
{
    (control >> at) % 2 == 1
}

/// What the effect of BLDCNT may do to a first target, as a mark of `Laid`.
fn effect_mark(control: u16) -> u16
    ensures { result ≡ effect_mark (bits 6 2 control) }
{
    match (control >> 6) % 4 {
        0 => 0,
        1 => 2,
        _ => 1,
    }
}

/// How a layer is laid, by its bit among the targets: 0 to 3 for backgrounds, 4 for objects, 5 for the backdrop.
pub fn laid_as(engine: &EngineRegisters, target: u16) -> Laid
    requires { target < 6 }
    ensures value { result ≡ laid_as engine.now target }
    ensures small { result.second ≤ 2 ^ 15 }
{
    let control = engine.bldcnt();
    let second = if is_target(control, 8 + target) {
        0x8000
    } else {
        0
    };
    let mark = if is_target(control, target) {
        effect_mark(control)
    } else {
        0
    };
    Laid { second, mark }
}

/// Makes a row brighter or darker, by BLDCNT and BLDY.
fn change_brightness(engine: &EngineRegisters, row: &mut [u16])
    ensures { row.new ≡ map (brightness_changed engine.now) row.old }
{
    let factor = engine.bldy() % 32;
    match (engine.bldcnt() >> 6) % 4 {
        2 => brighten(row, factor),
        3 => darken(row, factor),
        _ => {}
    }
}

/// Blends a row with the next one, by BLDALPHA.
fn blend_rows(engine: &EngineRegisters, top: &mut [u16], next: &[u16])
    requires { length top.old ≡ length next.now }
    ensures { top.new ≡ zip2 (blended (eva engine.now) (evb engine.now)) top.old next.now }
{
    let factors = engine.bldalpha();
    blend(top, next, (factors % 32) as u8, ((factors >> 8) % 32) as u8);
}

/// Changes the brightness where `kinds` is 1, if any is above 0.
fn change_where(engine: &EngineRegisters, kinds: &[u16; 256], most: u16, into: &mut [u16; 256])
    requires { (x : ℕ) → x < 256 → slice_index kinds.now x ≤ most }
    ensures { (x : ℕ) → x < 256 → slice_index into.new x
        ≡ (if slice_index kinds.now x == 1 then brightness_changed engine.now (slice_index into.old x) else slice_index into.old x) }
{
    if most < 1 {
        return;
    }
    let mut changed = *into;
    change_brightness(engine, &mut changed);
    choose(&changed, kinds, 1, into);
}

/// Blends the colours of the layers in front where `kinds` is 2, if any is above 1.
fn blend_where(
    engine: &EngineRegisters,
    kinds: &[u16; 256],
    most: u16,
    fronts: &Fronts,
    into: &mut [u16; 256],
)
    requires { (x : ℕ) → x < 256 → slice_index kinds.now x ≤ most }
    ensures { (x : ℕ) → x < 256 → slice_index into.new x
        ≡ (if slice_index kinds.now x == 2
        then blended (eva engine.now) (evb engine.now) (slice_index fronts.now.tops x % 2 ^ 15) (slice_index fronts.now.nexts x)
        else slice_index into.old x) }
{
    if most < 2 {
        return;
    }
    let mut mixed = [0; 256];
    colours_of(&fronts.tops, &mut mixed);
    blend_rows(engine, &mut mixed, &fronts.nexts);
    choose(&mixed, kinds, 2, into);
}

/// What the layers in front make, by what acts at each place. Effects are worked out where some place has them.
fn finish_kinds(
    engine: &EngineRegisters,
    kinds: &[u16; 256],
    fronts: &Fronts,
    into: &mut [u16; 256],
)
    ensures { (x : ℕ) → x < 256 → slice_index into.new x ≡ finished engine.now (slice_index kinds.now x) (front_at fronts.now x) }
{
    colours_of(&fronts.tops, into);
    let most = most_of(kinds);
    change_where(engine, kinds, most, into);
    blend_where(engine, kinds, most, fronts, into);
}

/// The line that the layers in front make.
pub fn finish_line(
    engine: &EngineRegisters,
    shown: &ShownLine,
    fronts: &Fronts,
    into: &mut [u16; 256],
)
    ensures { (x : ℕ) → x < 256 → slice_index into.new x ≡ finished_where (bit 5 (shown_bits_at shown.now x)) engine.now (front_at fronts.now x) }
{
    let mut kinds = [0; 256];
    kinds_of(fronts, &mut kinds);
    hide(shown, 5, &mut kinds);
    finish_kinds(engine, &kinds, fronts, into);
}
