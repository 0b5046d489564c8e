//! Stops: what each line needs that isn't there, its value, and which counts first.

use super::registers::{A, B, DISPCAPCNT, DISPCNT, MOSAIC, POWCNT1};
use super::{Line, Starts, try_lines};
use LeftKind::{BgMode, BitmapObject, Capture, DisplayMode, Mosaic};
use Line::{Event, Layers, Object, Stops, ToLine, Write};
use Proc::Nine;
use Starts::{HblankDma, Nothing};
use Width::{Half, Word};
use ds_base::{LeftKind, Proc, Width};
use std::alloc::AllocError;

#[test]
#[rattlefmt::skip]
fn modes_stop_where_they_are_left_out(rt: HostRuntime) -> Result<(), AllocError> {
    try_lines(&rt, rt.alloc(), &[
        // Write(processor, register, width, value)   Stops(kind, value)   Event(raised at ARM9, at ARM7, what starts)
        Write(Nine, POWCNT1,     Half, 0x8202),
        Write(Nine, DISPCNT,     Word, 0x3_0000),
        Stops(DisplayMode, 3),
        Write(Nine, DISPCNT,     Word, 0xFFFF_0007),
        Stops(DisplayMode, 3),
        Write(Nine, DISPCNT,     Word, 0x1_0006),
        Stops(BgMode, 6),
        Write(Nine, DISPCNT,     Word, 0x1_0007),
        Stops(BgMode, 7),
        // in display mode 0 the background mode doesn't count
        Write(Nine, DISPCNT,     Word, 7),
        Write(Nine, B + DISPCNT, Word, 0x1_0007),
        Stops(BgMode, 263),
        // forced blank needs nothing, nor does a disabled engine
        Write(Nine, B + DISPCNT, Word, 0x1_0087),
        Write(Nine, DISPCNT,     Word, 0x3_0080),
        Event(0, 0, HblankDma), Event(0, 0, Nothing),
        Write(Nine, POWCNT1,     Half, 0x8000),
        Write(Nine, B + DISPCNT, Word, 0x1_0007),
        Write(Nine, DISPCNT,     Word, 0x3_0000),
        Event(0, 0, HblankDma),
        ToLine(190),
        Write(Nine, POWCNT1,     Half, 0x8200),
        Stops(BgMode, 263),
        Write(Nine, POWCNT1,     Half, 0x8000),
        ToLine(192),
        // lines that aren't drawn need nothing
        Write(Nine, POWCNT1,     Half, 0x8202),
        Event(0, 0, Nothing),
        ToLine(0), Stops(DisplayMode, 3),
    ])
}

#[test]
#[rattlefmt::skip]
fn capture_counts_in_every_display_mode_of_engine_a(rt: HostRuntime) -> Result<(), AllocError> {
    try_lines(&rt, rt.alloc(), &[
        // Write(processor, register, width, value)   Stops(kind, value)   Layers(engine, DISPCNT, BG0CNT, BG1CNT, BG2CNT, BG3CNT)
        // Event(raised at ARM9, at ARM7, what starts)
        Write(Nine, POWCNT1,     Half, 0x8202),
        Write(Nine, DISPCAPCNT,  Word, 0x8012_3456),
        Stops(Capture, 0x8012_3456),
        Write(Nine, DISPCNT,     Word, 0x1_0000),
        Stops(Capture, 0x8012_3456),
        // modes come first
        Write(Nine, DISPCNT,     Word, 0x3_0000),
        Stops(DisplayMode, 3),
        Write(Nine, DISPCNT,     Word, 0x1_0006),
        Stops(BgMode, 6),
        // a bank that is shown may be captured too
        Write(Nine, DISPCNT,     Word, 0x2_0007),
        Stops(Capture, 0x8012_3456),
        // backgrounds, and engine B, come after
        Layers(A, 0x1_0805, 0, 0, 0, 0x0040),
        Write(Nine, MOSAIC,      Half, 0x0010),
        Stops(Capture, 0x8012_3456),
        Write(Nine, B + DISPCNT, Word, 0x1_0007),
        Stops(Capture, 0x8012_3456),
        Write(Nine, DISPCAPCNT,  Word, 0x7FFF_FFFF),
        Stops(Mosaic, 3),
        Write(Nine, DISPCNT,     Word, 0x80),
        Write(Nine, DISPCAPCNT,  Word, 0x8000_0000),
        Stops(BgMode, 263),
        Write(Nine, B + DISPCNT, Word, 0),
        Event(0, 0, HblankDma),
    ])
}

#[test]
#[rattlefmt::skip]
fn backgrounds_with_mosaic_stop_where_shown(rt: HostRuntime) -> Result<(), AllocError> {
    try_lines(&rt, rt.alloc(), &[
        // Write(processor, register, width, value)   Layers(engine, DISPCNT, BG0CNT, BG1CNT, BG2CNT, BG3CNT)   Stops(kind, value)
        // Event(raised at ARM9, at ARM7, what starts)
        Write(Nine, POWCNT1,    Half, 0x8202),
        Write(Nine, MOSAIC,     Half, 0x0010),
        Write(Nine, B + MOSAIC, Half, 0x0100),
        // extended ones as all others
        Layers(A, 0x1_0803, 0,      0,      0,      0x0040),
        Stops(Mosaic, 3),
        Layers(A, 0x1_0405, 0,      0,      0x00C0, 0),
        Stops(Mosaic, 2),
        Layers(A, 0x1_0200, 0,      0x0040, 0,      0),
        Stops(Mosaic, 1),
        // 3D counts too
        Layers(A, 0x1_0108, 0x0040, 0,      0,      0),
        Stops(Mosaic, 0),
        // of two the lower background counts
        Layers(A, 0x1_0A04, 0,      0x0040, 0,      0x0040),
        Stops(Mosaic, 1),
        Layers(A, 0x1_0C05, 0,      0,      0x0040, 0x0040),
        Stops(Mosaic, 2),
        // backgrounds that are off need nothing; objects' sizes of mosaic don't count
        Layers(A, 0x1_0005, 0x0040, 0x0040, 0x0040, 0x0040),
        Layers(B, 0x1_0F05, 0x0040, 0x0040, 0x0040, 0x0040),
        Event(0, 0, HblankDma), Event(0, 0, Nothing),
        Write(Nine, B + MOSAIC, Half, 0x0001),
        Stops(Mosaic, 256),
        Layers(B, 0x1_0804, 0,      0,      0,      0x0040),
        Stops(Mosaic, 259),
        // A before B
        Write(Nine, MOSAIC,     Half, 0x0001),
        Layers(A, 0x1_0805, 0,      0,      0,      0x0040),
        Stops(Mosaic, 3),
        // without mosaic extended backgrounds need nothing
        Layers(A, 0x1_0C05, 0,      0,      0x0004, 0x0084),
        Layers(B, 0x1_0803, 0,      0,      0,      0x0080),
        Event(0, 0, HblankDma),
    ])
}

#[test]
#[rattlefmt::skip]
fn bitmaps_and_objects_with_mosaic_stop_where_they_cover_the_line(rt: HostRuntime) -> Result<(), AllocError> {
    try_lines(&rt, rt.alloc(), &[
        // Write(processor, register, width, value)   Layers(engine, DISPCNT, BG0CNT, BG1CNT, BG2CNT, BG3CNT)
        // Object(index, attributes 0, 1 and 2)   Stops(kind, value)   Event(raised at ARM9, at ARM7, what starts)
        Write(Nine, POWCNT1,    Half, 0x8202),
        Write(Nine, MOSAIC,     Half, 0x1001),
        Write(Nine, B + MOSAIC, Half, 0x0010),
        Layers(A, 0x1_1000, 0,      0, 0, 0),
        Layers(B, 0x1_1000, 0,      0, 0, 0),
        // object 9 is a bitmap and has mosaic: the bitmap counts
        Object(9,   0x1C00, 0,      0),
        Stops(BitmapObject, 9),
        Object(9,   0x1000, 0,      0),
        Stops(Mosaic, 137),
        // of two the lower index counts, whatever it needs
        Object(127, 0x0C00, 0,      0),
        Stops(Mosaic, 137),
        Object(5,   0x0C00, 0,      0),
        Stops(BitmapObject, 5),
        // a background's needs come first
        Layers(A, 0x1_1100, 0x0040, 0, 0, 0),
        Stops(Mosaic, 0),
        // one that is off, or in another line, or whose engine shows no objects, needs nothing
        Object(5,   0x0E00, 0,      0),
        Layers(A, 0x1_0000, 0,      0, 0, 0),
        Event(0, 0, HblankDma), Event(0, 0, Nothing),
        Layers(A, 0x1_1000, 0,      0, 0, 0),
        Object(9,   0x0200, 0,      0),
        Object(127, 0x0C02, 0,      0),
        Event(0, 0, HblankDma), Event(0, 0, Nothing), Stops(BitmapObject, 127),
        // one right of the screen counts, and a window object's mosaic
        Object(127, 0x1802, 0x012C, 0),
        Stops(Mosaic, 255),
        // in display mode 0 and with forced blank objects need nothing
        Write(Nine, DISPCNT,    Word, 0x1000),
        Event(0, 0, HblankDma), Event(0, 0, Nothing),
        Write(Nine, DISPCNT,    Word, 0x1_1080),
        Event(0, 0, HblankDma), Event(0, 0, Nothing),
        // engine B's, whose sizes for objects are 0; backgrounds' sizes don't count
        Object(130, 0x1004, 0,      0),
        Event(0, 0, HblankDma), Event(0, 0, Nothing),
        Write(Nine, B + MOSAIC, Half, 0x0110),
        Stops(Mosaic, 386),
        Object(129, 0x0C05, 0,      0),
        Stops(BitmapObject, 257),
        // A before B
        Write(Nine, DISPCNT,    Word, 0x1_1000),
        Stops(Mosaic, 255),
    ])
}
