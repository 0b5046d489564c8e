//! Lines where the engine's registers leave the layers as they are: they are laid over the backdrop, from back to front.

ghost use Rattle.std.specs.Prelude.{◌≡◌, ◌<◌, ◌≤◌, ◌==◌, if◌then◌else◌, ℕ, length, slice_index};
ghost use Rattle.obj2d.specs.ObjectLaws.{AreInSpans, lanes_pixel};
ghost use Rattle.video2d.specs.Layers.{seen_objects};
ghost use Rattle.video2d.specs.rows.Fronts.{AreBetween};
ghost use Rattle.video2d.specs.rows.Plain.{background_seen, backgrounds_seen, calm_layers, calm_over, calm_pixel, has_no_backgrounds, is_calm, is_plain_engine, laid_at, laid_over, over_at, plain_pixel};

use crate::backgrounds::{background_row, is_background_on};
use crate::engines::{Engine, EngineRegisters};
use crate::mixes::priority;
use crate::rows::fill;
use obj2d::{ObjectLanes, Spans, no_objects, no_spans, object_lanes, span_of};
use vram_banks::{Row, Vram, palette_colour};

/// Whether objects and windows are off, and there is no effect.
pub fn is_plain(engine: &EngineRegisters) -> bool
    ensures { result ≡ is_plain_engine engine.now }
{
    (engine.dispcnt() >> 12) % 16 == 0 && (engine.bldcnt() >> 6) % 4 == 0
}

/// A pixel over what is behind it.
#[inline(always)]
fn over(pixel: u16, behind: u16) -> u16
    ensures { result ≡ laid_over pixel behind }
{
    if pixel == 0 { behind } else { pixel % 0x8000 }
}

/// Lays a row over what is behind it.
fn lay_row(row: &Row, into: &mut [u16; 256])
    ensures { (x : ℕ) → x < 256 → slice_index into.new x ≡ laid_over (slice_index row.now.pixels x) (slice_index into.old x) }
{
    for x in 0..256usize {
        into[x] = over(row.pixels[x], into[x]);
    }
}

/// Lays background n, where it has the priority whose turn it is.
fn lay_background(
    vram: &Vram,
    colours: &[u8],
    which: Engine,
    engine: &EngineRegisters,
    line: u8,
    n: u8,
    turn: u8,
    into: &mut [u16; 256],
)
    requires colours { length colours.now ≡ 512 }
    requires known { n < 4 }
    ensures { (x : ℕ) → x < 256 → slice_index into.new x
        ≡ over_at turn (background_seen vram.now colours.now which engine.now line n x) (slice_index into.old x) }
{
    if !is_background_on(engine, n) {
        return;
    }
    if priority(engine, n) == turn {
        let mut row = Row { pixels: [0; 256] };
        background_row(vram, colours, which, engine, line, n, &mut row);
        lay_row(&row, into);
    }
}

/// Lays the backgrounds of a priority, of which those of lower numbers are in front.
fn lay_priority(
    vram: &Vram,
    colours: &[u8],
    which: Engine,
    engine: &EngineRegisters,
    line: u8,
    turn: u8,
    into: &mut [u16; 256],
)
    requires { length colours.now ≡ 512 }
    ensures { (x : ℕ) → x < 256 → slice_index into.new x
        ≡ laid_at turn (backgrounds_seen vram.now colours.now which engine.now line x) (slice_index into.old x) }
{
    lay_background(vram, colours, which, engine, line, 3, turn, into);
    lay_background(vram, colours, which, engine, line, 2, turn, into);
    lay_background(vram, colours, which, engine, line, 1, turn, into);
    lay_background(vram, colours, which, engine, line, 0, turn, into);
}

/// Whether all backgrounds are off.
fn has_no_backgrounds(engine: &EngineRegisters) -> bool
    ensures { result ≡ has_no_backgrounds engine.now }
{
    (engine.dispcnt() >> 8) % 16 == 0
}

/// Draws the line of an engine's backgrounds over the backdrop. `colours` has the 512 bytes of its palette for backgrounds.
pub fn plain_layers(
    vram: &Vram,
    colours: &[u8],
    which: Engine,
    engine: &EngineRegisters,
    line: u8,
    into: &mut [u16; 256],
)
    requires { length colours.now ≡ 512 }
    ensures { (x : ℕ) → x < 256 → slice_index into.new x ≡ plain_pixel vram.now colours.now which engine.now line x }
{
    fill(palette_colour(colours, 0) % 0x8000, into);
    if has_no_backgrounds(engine) {
        return;
    }
    lay_priority(vram, colours, which, engine, line, 3, into);
    lay_priority(vram, colours, which, engine, line, 2, into);
    lay_priority(vram, colours, which, engine, line, 1, into);
    lay_priority(vram, colours, which, engine, line, 0, into);
}

/// Whether windows are off and no effect can act: there is none, and no layer is a second target.
pub fn is_calm(engine: &EngineRegisters) -> bool
    ensures { result ≡ is_calm engine.now }
{
    (engine.dispcnt() >> 13) % 8 == 0
        && (engine.bldcnt() >> 6) % 4 == 0
        && (engine.bldcnt() >> 8) % 64 == 0
}

/// The same, where the pixel has the priority whose turn it is. Both tests are made whatever comes of them, so that many places are laid at once.
#[inline(always)]
fn over_in_turn(pixel: u16, priority: u16, turn: u16, behind: u16) -> u16
    ensures { result ≡ (if priority == turn then laid_over pixel behind else behind) }
{
    if (priority == turn) & (pixel != 0) {
        pixel % 0x8000
    } else {
        behind
    }
}

/// Lays the objects of the priority whose turn it is, which are from one place on and before another.
fn lay_objects(objects: &ObjectLanes, turn: u8, first: usize, end: usize, into: &mut [u16; 256])
    requires order { first ≤ end }
    requires small { end ≤ 256 }
    requires within { AreBetween objects.now turn first end }
    ensures { (x : ℕ) → x < 256 → slice_index into.new x ≡ over_at turn (seen_objects (lanes_pixel objects.now x)) (slice_index into.old x) }
{
    for x in first..end {
        into[x] = over_in_turn(
            objects.colours[x],
            objects.priorities[x],
            turn as u16,
            into[x],
        );
    }
}

/// The same, where they may be seen.
fn lay_seen(objects: &ObjectLanes, spans: &Spans, turn: u8, into: &mut [u16; 256])
    requires within { AreInSpans objects.now spans.now }
    requires known { turn < 4 }
    ensures { (x : ℕ) → x < 256 → slice_index into.new x ≡ over_at turn (seen_objects (lanes_pixel objects.now x)) (slice_index into.old x) }
{
    let (first, end) = span_of(spans, turn);
    lay_objects(objects, turn, first, end, into);
}

/// Lays all layers of a priority.
fn lay_turn(
    vram: &Vram,
    colours: &[u8],
    which: Engine,
    engine: &EngineRegisters,
    line: u8,
    objects: &ObjectLanes,
    spans: &Spans,
    turn: u8,
    into: &mut [u16; 256],
)
    requires colours { length colours.now ≡ 512 }
    requires within { AreInSpans objects.now spans.now }
    requires known { turn < 4 }
    ensures { (x : ℕ) → x < 256 → slice_index into.new x
        ≡ laid_at turn (calm_layers vram.now colours.now which engine.now line (lanes_pixel objects.now x) x) (slice_index into.old x) }
{
    lay_priority(vram, colours, which, engine, line, turn, into);
    lay_seen(objects, spans, turn, into);
}

/// Lays all layers over the backdrop.
#[tactic(auto, unfolding(crate::specs::rows::Plain::calm_over))]
fn lay_turns(
    vram: &Vram,
    colours: &[u8],
    which: Engine,
    engine: &EngineRegisters,
    line: u8,
    objects: &ObjectLanes,
    spans: &Spans,
    into: &mut [u16; 256],
)
    requires colours { length colours.now ≡ 512 }
    requires within { AreInSpans objects.now spans.now }
    ensures { (x : ℕ) → x < 256 → slice_index into.new x ≡ calm_over vram.now colours.now which engine.now line x (lanes_pixel objects.now x) }
{
    fill(palette_colour(colours, 0) % 0x8000, into);
    lay_turn(vram, colours, which, engine, line, objects, spans, 3, into);
    lay_turn(vram, colours, which, engine, line, objects, spans, 2, into);
    lay_turn(vram, colours, which, engine, line, objects, spans, 1, into);
    lay_turn(vram, colours, which, engine, line, objects, spans, 0, into);
}

/// Draws the line of an engine's backgrounds and objects over the backdrop; where no object is drawn on the line, as if objects were off.
/// `colours` and `object_colours` have the 512 bytes of its palettes for backgrounds and for objects, `oam` its 1,024 bytes of objects.
pub fn calm_line(
    vram: &Vram,
    colours: &[u8],
    object_colours: &[u8],
    oam: &[u8],
    which: Engine,
    engine: &EngineRegisters,
    line: u8,
    into: &mut [u16; 256],
)
    requires colours { length colours.now ≡ 512 }
    requires object_colours { length object_colours.now ≡ 512 }
    requires oam { length oam.now ≡ 1024 }
    ensures { (x : ℕ) → x < 256 → slice_index into.new x ≡ calm_pixel vram.now colours.now object_colours.now oam.now which engine.now line x }
{
    let mut objects = no_objects();
    let mut spans = no_spans();
    let control = engine.dispcnt();
    let has_objects = object_lanes(
        vram,
        object_colours,
        oam,
        control,
        which.number(),
        line,
        &mut objects,
        &mut spans,
    );
    if has_objects {
        lay_turns(vram, colours, which, engine, line, &objects, &spans, into);
    } else {
        plain_layers(vram, colours, which, engine, line, into);
    }
}
