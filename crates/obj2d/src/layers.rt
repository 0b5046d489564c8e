//! Objects laid over one another.

ghost use Rattle.std.specs.Prelude.{◌≡◌, ◌≢◌, ◌<◌, ◌≤◌, ℕ, IsTrue, IsFalse, true, false, length, slice_index};
ghost use Rattle.vram_banks.specs.Colours.{IsTable};
ghost use Rattle.obj2d.specs.Attributes.{object_at, box_width, priority, mode, object_has_mosaic};
ghost use Rattle.obj2d.specs.Places.{covers, IsSomeDrawn};
ghost use Rattle.obj2d.specs.ObjectLaws.{IsLayerPixel, IsPixel, pixel_at};
ghost use Rattle.obj2d.specs.ObjectLayer.{blank_pixel, with_object, seen_at, object_pixel};
ghost use Rattle.obj2d.specs.ObjectLaws.{AreInSpans, IsInSpan, lanes_pixel};
ghost use Rattle.obj2d.specs.rows.Strips.{AreNotDrawn, IsLaid};

use crate::attributes::{box_width, mode, object_at, object_has_mosaic, priority};
use crate::lanes::{clear, lanes_pixel, on_screen, put_shown, put_window};
use crate::lines::{first_drawn, is_drawn_at};
use crate::objects::{Display, Object};
use crate::places::{covers, down, left_edge};
use crate::strips::strip;
use crate::tables::{Tables, fill_tables};
use vram_banks::Vram;

/// What all objects together have at a pixel.
#[derive(Clone, Copy, PartialEq, Eq)]
pub struct ObjectPixel {
    /// Red, green and blue in bits 0 to 4, 5 to 9 and 10 to 14, and bit 15 set where an object is opaque; 0 where none is.
    pub colour: u16,
    /// The object's priority, 0 to 3; 0 where none is opaque.
    pub priority: u8,
    /// Whether the object is semi-transparent.
    pub blended: bool,
    /// Whether the pixel lies in the object window.
    pub window: bool,
}

/// A row of 256 pixels, from the left.
#[derive(Clone, Copy)]
pub struct ObjectRow {
    /// The pixels.
    pub pixels: [ObjectPixel; 256],
}

/// What all objects together have along a row of 256 pixels, from the left, each of it in a row of its own, so that many places are reached at once.
#[derive(Clone, Copy)]
pub struct ObjectLanes {
    /// The colours, as in `ObjectPixel`.
    pub colours: [u16; 256],
    /// The priorities, as in `ObjectPixel`.
    pub priorities: [u16; 256],
    /// 1 where the object is semi-transparent, else 0.
    pub blended: [u16; 256],
    /// 1 where the pixel lies in the object window, else 0.
    pub windows: [u16; 256],
}

/// Where along a line objects of each priority may be seen: from one place on and before another, if the second is behind the first.
#[derive(Clone, Copy)]
pub struct Spans {
    /// From which place on.
    pub first: [usize; 4],
    /// Before which place.
    pub end: [usize; 4],
}

/// No object is seen anywhere.
pub fn no_spans() -> Spans
    ensures { (priority : ℕ) → priority < 4 → slice_index result.end priority ≡ 0 }
{
    Spans {
        first: [256; 4],
        end: [0; 4],
    }
}

/// The places from one on and before another are within the span of a priority too. It begins and ends with whole eights, so that eight places are
/// reached at once.
fn widen(priority: usize, start: usize, end: usize, spans: &mut Spans)
    requires known { priority < 4 }
    requires small { end ≤ 256 }
    ensures here { (x : ℕ) → start ≤ x → x < end → IsInSpan spans.new priority x }
    ensures kept { (p x : ℕ) → IsInSpan spans.old p x → IsInSpan spans.new p x }
{
    let first = spans.first[priority].min(start / 8 * 8);
    let behind = spans.end[priority].max((end + 7) / 8 * 8);
    spans.first[priority] = first;
    spans.end[priority] = behind;
}

/// From which place on and before which one objects of a priority may be seen.
pub fn span_of(spans: &Spans, priority: u8) -> (usize, usize)
    requires { priority < 4 }
    ensures order { result.0 ≤ result.1 }
    ensures small { result.1 ≤ 256 }
    ensures all { (x : ℕ) → x < 256 → IsInSpan spans.now priority x → (result.0 ≤ x) × (x < result.1) }
{
    let end = spans.end[priority as usize].min(256);
    (spans.first[priority as usize].min(end), end)
}

/// Lays the pixels of an object that is shown.
fn lay_shown(object: &Object, pixels: &[u16; 128], into: &mut ObjectLanes)
    requires { mode object.now ≢ 2 }
    ensures { IsLaid object.now pixels.now (box_width object.now) (lanes_pixel into.old) (lanes_pixel into.new) }
{
    let priority = priority(object);
    let mode = mode(object);
    let span = on_screen(left_edge(object), box_width(object));
    for i in 0..span.count {
        put_shown(pixels[span.first + i], priority, mode, span.start + i, into);
    }
}

/// Lays the pixels of an object of the object window.
fn lay_window(object: &Object, pixels: &[u16; 128], into: &mut ObjectLanes)
    requires { mode object.now ≡ 2 }
    ensures { IsLaid object.now pixels.now (box_width object.now) (lanes_pixel into.old) (lanes_pixel into.new) }
{
    let priority = priority(object);
    let mode = mode(object);
    let span = on_screen(left_edge(object), box_width(object));
    for i in 0..span.count {
        put_window(pixels[span.first + i], priority, mode, span.start + i, into);
    }
}

/// Lays the pixels of an object's box over the row.
fn lay(object: &Object, pixels: &[u16; 128], into: &mut ObjectLanes)
    ensures { IsLaid object.now pixels.now (box_width object.now) (lanes_pixel into.old) (lanes_pixel into.new) }
{
    if mode(object) == 2 {
        lay_window(object, pixels, into);
    } else {
        lay_shown(object, pixels, into);
    }
}

/// Draws one object over the row, and widens the span of its priority. `palette` is there for the contract.
fn draw(
    vram: &Vram,
    palette: &[u8],
    oam: &[u8],
    display: &Display,
    tables: &Tables,
    line: u8,
    number: usize,
    into: &mut ObjectLanes,
    spans: &mut Spans,
)
    requires narrow { IsTable false palette.now tables.now.narrow }
    requires wide { IsTable true palette.now tables.now.wide }
    requires oam { length oam.now ≡ 1024 }
    requires known { number < 128 }
    requires within { AreInSpans into.old spans.old }
    ensures row { (x : ℕ) → x < 256 → lanes_pixel into.new x
        ≡ with_object (seen_at vram.now palette.now oam.now display.now line x number) (lanes_pixel into.old x) }
    ensures within { AreInSpans into.new spans.new }
{
    if is_drawn_at(oam, display.control, line, number) {
        let object = object_at(oam, number);
        let mut pixels = [0; 128];
        let y = down(&object, line);
        strip(vram, palette, oam, display, tables, &object, y, &mut pixels);
        lay(&object, &pixels, into);
        let span = on_screen(left_edge(&object), box_width(&object));
        widen(
            priority(&object) as usize,
            span.start,
            span.start + span.count,
            spans,
        );
    }
}

/// Whether the object of a number covers a line of the screen: its box does, and it isn't off, and bit 12 of `control`, the engine's DISPCNT, is
/// set. Its mode counts for nothing: an object of mode 3, a bitmap, covers lines too, though it isn't drawn. `oam` is as for `object_row`.
pub fn covers_line(oam: &[u8], control: u32, number: usize, line: u8) -> bool
    requires oam { length oam.now ≡ 1024 }
    requires known { number < 128 }
    ensures { result ≡ covers control (object_at oam.now number) line }
{
    covers(control, &object_at(oam, number), line)
}

/// The mode of the object of a number: 0 normal, 1 semi-transparent, 2 object window, 3 bitmap (GBATEK, "LCD OBJ - OAM Attributes"). `oam` is
/// as for `object_row`.
pub fn object_mode(oam: &[u8], number: usize) -> u8
    requires oam { length oam.now ≡ 1024 }
    requires known { number < 128 }
    ensures { result ≡ mode (object_at oam.now number) }
{
    mode(&object_at(oam, number))
}

/// Whether the object of a number has its mosaic bit set. `oam` is as for `object_row`.
pub fn is_mosaic_object(oam: &[u8], number: usize) -> bool
    requires oam { length oam.now ≡ 1024 }
    requires known { number < 128 }
    ensures { result ≡ object_has_mosaic (object_at oam.now number) }
{
    object_has_mosaic(&object_at(oam, number))
}

/// Draws all objects over a row where none is, of which those before `first` aren't drawn on the line, and widens the spans of those that are.
/// `palette` is there for the contract.
fn lay_all(
    vram: &Vram,
    palette: &[u8],
    oam: &[u8],
    display: &Display,
    tables: &Tables,
    line: u8,
    first: usize,
    into: &mut ObjectLanes,
    spans: &mut Spans,
)
    requires narrow { IsTable false palette.now tables.now.narrow }
    requires wide { IsTable true palette.now tables.now.wide }
    requires oam { length oam.now ≡ 1024 }
    requires small { first ≤ 128 }
    requires before { AreNotDrawn oam.now display.now.control line first }
    requires blank { (x : ℕ) → x < 256 → lanes_pixel into.old x ≡ blank_pixel }
    ensures row { (x : ℕ) → x < 256 → lanes_pixel into.new x ≡ object_pixel vram.now palette.now oam.now display.now line x }
    ensures within { AreInSpans into.new spans.new }
{
    for number in first..128 {
        draw(
            vram, palette, oam, display, tables, line, number, into, spans,
        );
    }
}

/// Draws the row of all objects, of which those before `first` aren't drawn on the line, and widens the spans of those that are.
fn draw_row(
    vram: &Vram,
    palette: &[u8],
    oam: &[u8],
    display: &Display,
    line: u8,
    first: usize,
    into: &mut ObjectLanes,
    spans: &mut Spans,
)
    requires colours { length palette.now ≡ 512 }
    requires oam { length oam.now ≡ 1024 }
    requires small { first ≤ 128 }
    requires before { AreNotDrawn oam.now display.now.control line first }
    ensures row { (x : ℕ) → x < 256 → lanes_pixel into.new x ≡ object_pixel vram.now palette.now oam.now display.now line x }
    ensures within { AreInSpans into.new spans.new }
{
    clear(into);
    let mut tables = Tables {
        narrow: [0; 256],
        wide: [0; 256],
    };
    fill_tables(palette, &mut tables);
    lay_all(
        vram, palette, oam, display, &tables, line, first, into, spans,
    );
}

/// Hands the row out as pixels.
fn hand_out(row: &ObjectLanes, into: &mut ObjectRow)
    requires { (x : ℕ) → x < 256 → slice_index row.now.priorities x < 4 }
    ensures { (x : ℕ) → x < 256 → pixel_at into.new.pixels x ≡ lanes_pixel row.now x }
{
    for x in 0..256usize {
        into.pixels[x] = lanes_pixel(row, x);
    }
}

/// No object anywhere.
pub fn no_objects() -> ObjectLanes
    ensures { (x : ℕ) → x < 256 → lanes_pixel result x ≡ blank_pixel }
{
    ObjectLanes {
        colours: [0; 256],
        priorities: [0; 256],
        blended: [0; 256],
        windows: [0; 256],
    }
}

/// Draws the row of an engine's objects at a line of the screen: at each place the colour of the object that is opaque there with the
/// least priority and, of those, the least number; and whether an object of the window mode is opaque there. `palette` has the 512 bytes
/// of the engine's object palette, `oam` its 1,024 bytes of attributes, and `control` is its DISPCNT; engine 0 is A, any other is B. An
/// object of mode 3, a bitmap, isn't drawn (GBATEK, "LCD OBJ - OAM Attributes", "DS Video OBJs").
pub fn object_row(
    vram: &Vram,
    palette: &[u8],
    oam: &[u8],
    control: u32,
    engine: u8,
    line: u8,
    into: &mut ObjectRow,
)
    requires colours { length palette.now ≡ 512 }
    requires oam { length oam.now ≡ 1024 }
    ensures value { (x : ℕ) → x < 256 → pixel_at into.new.pixels x
        ≡ object_pixel vram.now palette.now oam.now (record { engine = engine; control = control }) line x }
    ensures stands { (x : ℕ) → x < 256
        → IsLayerPixel (seen_at vram.now palette.now oam.now (record {
          engine = engine;
          control = control;
        }) line x) 128 (pixel_at into.new.pixels x) }
    ensures form { (x : ℕ) → x < 256 → IsPixel (pixel_at into.new.pixels x) }
{
    let display = Display { engine, control };
    let first = first_drawn(oam, control, line);
    let mut row = no_objects();
    let mut spans = no_spans();
    draw_row(
        vram, palette, oam, &display, line, first, &mut row, &mut spans,
    );
    hand_out(&row, into);
}

/// Draws the same in rows of lanes, where some object is drawn on the line, and tells whether one is. Where none is, no pixel is of an object, and
/// `into` stays. `spans` is widened to where those that are seen are, by their priorities.
pub fn object_lanes(
    vram: &Vram,
    palette: &[u8],
    oam: &[u8],
    control: u32,
    engine: u8,
    line: u8,
    into: &mut ObjectLanes,
    spans: &mut Spans,
) -> bool
    requires colours { length palette.now ≡ 512 }
    requires oam { length oam.now ≡ 1024 }
    ensures some { IsTrue result → IsSomeDrawn oam.now control line }
    ensures row { IsTrue result → (x : ℕ) → x < 256 → lanes_pixel into.new x
        ≡ object_pixel vram.now palette.now oam.now (record { engine = engine; control = control }) line x }
    ensures within { IsTrue result → AreInSpans into.new spans.new }
    ensures none { IsFalse result → (x : ℕ) → x < 256
        → object_pixel vram.now palette.now oam.now (record { engine = engine; control = control }) line x ≡ blank_pixel }
    ensures stays { IsFalse result → into.new ≡ into.old }
{
    let display = Display { engine, control };
    let first = first_drawn(oam, control, line);
    if first == 128 {
        return false;
    }
    draw_row(vram, palette, oam, &display, line, first, into, spans);
    true
}
