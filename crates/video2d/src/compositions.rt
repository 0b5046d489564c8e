//! Lines that are composed of all layers, with windows and effects: layers are laid from back to front, eight places at once.

ghost use Rattle.std.specs.Prelude.{◌≡◌, ◌<◌, ◌≤◌, ◌==◌, ℕ, length, slice_index};
ghost use Rattle.obj2d.specs.ObjectLayer.{blank_pixel, object_pixel};
ghost use Rattle.obj2d.specs.ObjectLaws.{AreInSpans, lanes_pixel};
ghost use Rattle.vram_banks.specs.Colours.{palette_colour};
ghost use Rattle.video2d.specs.Layers.{seen_objects, shown_through};
ghost use Rattle.video2d.specs.Pictures.{display_of, layered_pixel};
ghost use Rattle.video2d.specs.rows.Fronts.{front_at, put_all, put_at, put_turn};
ghost use Rattle.video2d.specs.rows.Plain.{background_seen};
ghost use Rattle.video2d.specs.rows.Shown.{layers_through, shown_bits_at};

use crate::backgrounds::{background_row, is_background_on};
use crate::engines::{Engine, EngineRegisters};
use crate::fronts::{Fronts, lay_front, lay_front_objects, start_fronts};
use crate::mixes::{finish_line, laid_as, priority};
use crate::windows::{ShownLine, find_shown, hide};
use obj2d::{ObjectLanes, Spans, no_objects, no_spans, object_lanes, span_of};
use vram_banks::{Row, Vram, palette_colour};

/// Lays background n as the line's windows show it, where it has the priority whose turn it is.
fn lay_background_front(
    vram: &Vram,
    colours: &[u8],
    which: Engine,
    engine: &EngineRegisters,
    line: u8,
    shown: &ShownLine,
    n: u8,
    turn: u8,
    into: &mut Fronts,
)
    requires colours { length colours.now ≡ 512 }
    requires known { n < 4 }
    ensures { (x : ℕ) → x < 256 → front_at into.new x
        ≡ put_at engine.now turn (shown_through (shown_bits_at shown.now x) (background_seen vram.now colours.now which engine.now line n x))
        (front_at into.old x) }
{
    if !is_background_on(engine, n) {
        return;
    }
    if priority(engine, n) == turn {
        let mut row = Row { pixels: [0; 256] };
        background_row(vram, colours, which, engine, line, n, &mut row);
        hide(shown, n, &mut row.pixels);
        lay_front(&row.pixels, laid_as(engine, n as u16), into);
    }
}

/// Lays the objects of the priority whose turn it is, where they may be seen.
fn lay_objects_front(
    engine: &EngineRegisters,
    objects: &ObjectLanes,
    spans: &Spans,
    turn: u8,
    into: &mut Fronts,
)
    requires within { AreInSpans objects.now spans.now }
    requires known { turn < 4 }
    ensures { (x : ℕ) → x < 256 → front_at into.new x
        ≡ put_at engine.now turn (seen_objects (lanes_pixel objects.now x)) (front_at into.old x) }
{
    let (first, end) = span_of(spans, turn);
    lay_front_objects(objects, turn, first, end, laid_as(engine, 4), into);
}

/// Lays all layers of a priority, of which the objects are in front, and a background of a lower number in front of one of a higher.
fn lay_turn_front(
    vram: &Vram,
    colours: &[u8],
    which: Engine,
    engine: &EngineRegisters,
    line: u8,
    shown: &ShownLine,
    objects: &ObjectLanes,
    spans: &Spans,
    turn: u8,
    into: &mut Fronts,
)
    requires colours { length colours.now ≡ 512 }
    requires within { AreInSpans objects.now spans.now }
    requires known { turn < 4 }
    ensures { (x : ℕ) → x < 256 → front_at into.new x
        ≡ put_turn engine.now turn
        (layers_through vram.now colours.now which engine.now line (shown_bits_at shown.now x) (lanes_pixel objects.now x) x) (front_at into.old x) }
{
    lay_background_front(vram, colours, which, engine, line, shown, 3, turn, into);
    lay_background_front(vram, colours, which, engine, line, shown, 2, turn, into);
    lay_background_front(vram, colours, which, engine, line, shown, 1, turn, into);
    lay_background_front(vram, colours, which, engine, line, shown, 0, turn, into);
    lay_objects_front(engine, objects, spans, turn, into);
}

/// Lays all layers over the backdrop.
#[tactic(auto, unfolding(crate::specs::rows::Fronts::put_all))]
fn lay_fronts(
    vram: &Vram,
    colours: &[u8],
    which: Engine,
    engine: &EngineRegisters,
    line: u8,
    shown: &ShownLine,
    objects: &ObjectLanes,
    spans: &Spans,
    into: &mut Fronts,
)
    requires colours { length colours.now ≡ 512 }
    requires within { AreInSpans objects.now spans.now }
    ensures { (x : ℕ) → x < 256 → front_at into.new x
        ≡ put_all engine.now (palette_colour colours.now 0)
        (layers_through vram.now colours.now which engine.now line (shown_bits_at shown.now x) (lanes_pixel objects.now x) x) }
{
    start_fronts(palette_colour(colours, 0), laid_as(engine, 5), into);
    lay_turn_front(
        vram, colours, which, engine, line, shown, objects, spans, 3, into,
    );
    lay_turn_front(
        vram, colours, which, engine, line, shown, objects, spans, 2, into,
    );
    lay_turn_front(
        vram, colours, which, engine, line, shown, objects, spans, 1, into,
    );
    lay_turn_front(
        vram, colours, which, engine, line, shown, objects, spans, 0, into,
    );
}

/// Draws the objects of a line into rows where none is, and tells where they may be seen.
fn draw_objects(
    vram: &Vram,
    object_colours: &[u8],
    oam: &[u8],
    which: Engine,
    engine: &EngineRegisters,
    line: u8,
    into: &mut ObjectLanes,
) -> Spans
    requires object_colours { length object_colours.now ≡ 512 }
    requires oam { length oam.now ≡ 1024 }
    requires blank { (x : ℕ) → x < 256 → lanes_pixel into.old x ≡ blank_pixel }
    ensures row { (x : ℕ) → x < 256 → lanes_pixel into.new x
        ≡ object_pixel vram.now object_colours.now oam.now (display_of which engine.now) line x }
    ensures within { AreInSpans into.new result }
{
    let control = engine.dispcnt();
    let mut spans = no_spans();
    object_lanes(
        vram,
        object_colours,
        oam,
        control,
        which.number(),
        line,
        into,
        &mut spans,
    );
    spans
}

/// Draws the line of an engine's layers, with windows, objects and effects. `colours` and `object_colours` have the 512 bytes of its palettes for
/// backgrounds and for objects, `oam` its 1,024 bytes of objects.
pub fn composed_line(
    vram: &Vram,
    colours: &[u8],
    object_colours: &[u8],
    oam: &[u8],
    which: Engine,
    engine: &EngineRegisters,
    line: u8,
    into: &mut [u16; 256],
)
    requires colours { length colours.now ≡ 512 }
    requires object_colours { length object_colours.now ≡ 512 }
    requires oam { length oam.now ≡ 1024 }
    ensures { (x : ℕ) → x < 256 → slice_index into.new x ≡ layered_pixel vram.now colours.now object_colours.now oam.now which engine.now line x }
{
    let mut objects = no_objects();
    let spans = draw_objects(vram, object_colours, oam, which, engine, line, &mut objects);
    let mut shown = ShownLine {
        all: false,
        bits: [0; 256],
    };
    find_shown(engine, line, &objects.windows, &mut shown);
    hide(&shown, 4, &mut objects.colours);
    let mut fronts = Fronts {
        tops: [0; 256],
        nexts: [0; 256],
        marks: [0; 256],
    };
    lay_fronts(
        vram,
        colours,
        which,
        engine,
        line,
        &shown,
        &objects,
        &spans,
        &mut fronts,
    );
    finish_line(engine, &shown, &fronts, into);
}
