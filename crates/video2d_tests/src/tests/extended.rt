//! Extended backgrounds and a bank of video memory that is shown, on both screens. Engine A's backdrop is 4000h and engine B's 2000h.

use super::registers::{
    A, B, BG2PA, BG2PD, BG3PA, BG3PD, BG3X, BLDCNT, BLDY, DISPCAPCNT, DISPCNT, MASTER_BRIGHT,
    MOSAIC, POWCNT1,
};
use super::{Line, Screen, Starts, try_lines};
use LeftKind::Capture;
use Line::{Bank, Event, Fill, Layers, Object, Pixel, Stops, ToHblank, ToLine, Write};
use Proc::Nine;
use Screen::{Lower, Upper};
use Space::{ABg, BBg, Lcdc};
use Starts::{HblankDma, Nothing};
use Width::{Half, Word};
use ds_base::{LeftKind, Proc, Space, Width};
use std::alloc::AllocError;

// A bitmap of 256 by 256 halves at 0: lines have 200h bytes. Line 0 has the halves 8001h, 8002h and 0003h, line 1 8011h. Another one at
// 10000h has 8021h at its left.
#[test]
#[rattlefmt::skip]
fn extended_backgrounds_are_shown_in_modes_3_to_5(rt: HostRuntime) -> Result<(), AllocError> {
    try_lines(&rt, rt.alloc(), &[
        // Write(processor, register, width, value)   Bank(bank, control)   Fill(space, address, words, value)
        // Layers(engine, DISPCNT, BG0CNT, BG1CNT, BG2CNT, BG3CNT)   Pixel(screen, line, place, colour)
        Write(Nine, POWCNT1,   Half, 0x8202),
        Bank(b'A', 0x81), Bank(b'C', 0x84),
        Fill(ABg, 0,        1, 0x8002_8001),
        Fill(ABg, 4,        1, 0x0000_0003),
        Fill(ABg, 0x200,    1, 0x0000_8011),
        Fill(ABg, 0x1_0000, 1, 0x0000_8021),
        Fill(BBg, 0,        1, 0x8042_8041),
        // BG2 and BG3 aren't turned: PA and PD are 1
        Write(Nine, BG2PA,     Word, 0x100),
        Write(Nine, BG2PD,     Half, 0x100),
        Write(Nine, BG3PA,     Word, 0x100),
        Write(Nine, BG3PD,     Half, 0x100),
        Write(Nine, B + BG3PA, Word, 0x100),
        Write(Nine, B + BG3PD, Half, 0x100),
        Layers(A, 0x1_0803, 0, 0, 0,      0x4084),
        Layers(B, 0x1_0804, 0, 0, 0,      0x4084),
        ToLine(192),
        Pixel(Upper, 0, 0, 0x0001),
        Pixel(Upper, 0, 1, 0x0002),
        Pixel(Upper, 0, 2, 0x4000),
        Pixel(Upper, 1, 0, 0x0011),
        Pixel(Upper, 1, 1, 0x4000),
        Pixel(Lower, 0, 0, 0x0041),
        Pixel(Lower, 0, 1, 0x0042),
        Pixel(Lower, 0, 2, 0x2000),
        // in mode 5 both are bitmaps: at equal priority BG2 is in front, and BG3 with a lower one
        ToLine(0),
        Layers(A, 0x1_0C05, 0, 0, 0x4484, 0x4084),
        ToLine(192),
        Pixel(Upper, 0, 0, 0x0021),
        Pixel(Upper, 0, 1, 0x0002),
        ToLine(0),
        Layers(A, 0x1_0C05, 0, 0, 0x4485, 0x4084),
        ToLine(192),
        Pixel(Upper, 0, 0, 0x0001),
        // in mode 4 BG2 is affine, and BG3 extended; in mode 3 BG2 is a text background, and off here
        ToLine(0),
        Layers(A, 0x1_0404, 0, 0, 0x4484, 0x4084),
        ToLine(192),
        Pixel(Upper, 0, 0, 0x4000),
        ToLine(0),
        Layers(A, 0x1_0803, 0, 0, 0x4484, 0x4484),
        ToLine(192),
        Pixel(Upper, 0, 0, 0x0021),
        ToLine(0),
        Layers(A, 0x1_0403, 0, 0, 0x4484, 0x4484),
        ToLine(192),
        Pixel(Upper, 0, 0, 0x4000),
    ])
}

// The state at each line's H-blank event counts: a base, a point and a mode that change between two lines.
#[test]
#[rattlefmt::skip]
fn extended_backgrounds_change_between_lines(rt: HostRuntime) -> Result<(), AllocError> {
    try_lines(&rt, rt.alloc(), &[
        // Write(processor, register, width, value)   Bank(bank, control)   Fill(space, address, words, value)
        // Layers(engine, DISPCNT, BG0CNT, BG1CNT, BG2CNT, BG3CNT)   Pixel(screen, line, place, colour)
        Write(Nine, POWCNT1, Half, 0x8202),
        Bank(b'A', 0x81), Bank(b'B', 0x80),
        Fill(ABg,  0,        1, 0x8002_8001),
        Fill(ABg,  0x1_0000, 1, 0x0000_8021),
        Fill(Lcdc, 0x2_0800, 1, 0x0000_0055),
        Write(Nine, BG3PA,   Word, 0x100),
        Layers(A, 0x1_0803, 0, 0, 0, 0x4084),
        ToHblank(0),
        Layers(A, 0x1_0803, 0, 0, 0, 0x4484),
        ToHblank(1),
        Layers(A, 0x1_0803, 0, 0, 0, 0x4084),
        Write(Nine, BG3X,    Word, 0x100),
        ToHblank(2),
        // off for one line, and then bank B
        Layers(A, 0x1_0003, 0, 0, 0, 0x4084),
        ToHblank(3),
        Layers(A, 0x6_0803, 0, 0, 0, 0x4084),
        ToHblank(4),
        Layers(A, 0x1_0803, 0, 0, 0, 0x4084),
        ToLine(192),
        Pixel(Upper, 0, 0, 0x0001),
        Pixel(Upper, 1, 0, 0x0021),
        Pixel(Upper, 2, 0, 0x0002),
        Pixel(Upper, 3, 0, 0x4000),
        Pixel(Upper, 4, 0, 0x0055),
        Pixel(Upper, 4, 1, 0x0000),
        Pixel(Upper, 5, 0, 0x0002),
    ])
}

#[test]
#[rattlefmt::skip]
fn a_bank_is_shown_in_display_mode_2(rt: HostRuntime) -> Result<(), AllocError> {
    try_lines(&rt, rt.alloc(), &[
        // Write(processor, register, width, value)   Bank(bank, control)   Fill(space, address, words, value)
        // Pixel(screen, line, place, colour)
        Write(Nine, POWCNT1,     Half, 0x8202),
        Bank(b'A', 0x80), Bank(b'B', 0x80),
        Fill(Lcdc, 0,        1, 0x8002_0001),
        Fill(Lcdc, 0x2_0200, 1, 0x8034_0033),
        Write(Nine, DISPCNT,     Word, 0x2_0000),
        // engine B has no such mode: of its display mode bit 16 alone counts, and that is white
        Write(Nine, B + DISPCNT, Word, 0x2_0000),
        ToLine(192),
        Pixel(Upper, 0, 0, 0x0001),
        Pixel(Upper, 0, 1, 0x0002),
        Pixel(Upper, 0, 2, 0x0000),
        Pixel(Lower, 0, 0, 0x7FFF),
        ToLine(0),
        Write(Nine, DISPCNT,     Word, 0x6_0000),
        Write(Nine, B + DISPCNT, Word, 0x3_0000),
        ToLine(192),
        Pixel(Upper, 1, 0, 0x0033),
        Pixel(Upper, 1, 1, 0x0034),
        Pixel(Upper, 0, 0, 0x0000),
        Pixel(Lower, 0, 0, 0x2000),
        // a bank that isn't in LCDC is black
        ToLine(0), Bank(b'B', 0x81), ToLine(192),
        Pixel(Upper, 1, 0, 0x0000),
        // forced blank is white, and a disabled engine black
        ToLine(0), Bank(b'B', 0x80),
        Write(Nine, DISPCNT,     Word, 0x6_0080),
        ToLine(192),
        Pixel(Upper, 1, 0, 0x7FFF),
        ToLine(0),
        Write(Nine, DISPCNT,     Word, 0x6_0000),
        Write(Nine, POWCNT1,     Half, 0x8200),
        ToLine(192),
        Pixel(Upper, 1, 0, 0x0000),
    ])
}

// Half as bright again: 1 + ((31 - 1) 8 >> 4) is 16, and 0 becomes (31 * 8) >> 4, which is 15.
#[test]
#[rattlefmt::skip]
fn master_brightness_alone_acts_on_a_bank(rt: HostRuntime) -> Result<(), AllocError> {
    try_lines(&rt, rt.alloc(), &[
        // Write(processor, register, width, value)   Bank(bank, control)   Fill(space, address, words, value)
        // Pixel(screen, line, place, colour)
        Write(Nine, POWCNT1,       Half, 0x8202),
        Bank(b'A', 0x80),
        Fill(Lcdc, 0, 1, 0x8002_0001),
        // all windows are on and show nothing; all targets are made as bright as can be
        Write(Nine, DISPCNT,       Word, 0x2_E000),
        Write(Nine, BLDCNT,        Half, 0x3FBF),
        Write(Nine, BLDY,          Half, 0x0010),
        ToLine(192),
        Pixel(Upper, 0, 0, 0x0001),
        Pixel(Upper, 0, 1, 0x0002),
        ToLine(0),
        Write(Nine, MASTER_BRIGHT, Half, 0x4008),
        ToLine(192),
        Pixel(Upper, 0, 0, 0x3DF0),
        ToLine(0),
        Write(Nine, MASTER_BRIGHT, Half, 0x8008),
        ToLine(192),
        Pixel(Upper, 0, 0, 0x0001),
        Pixel(Upper, 0, 1, 0x0001),
        ToLine(0),
        Write(Nine, MASTER_BRIGHT, Half, 0x4010),
        ToLine(192),
        Pixel(Upper, 0, 0, 0x7FFF),
    ])
}

// Neither background modes nor mosaic nor bitmap objects stop a line that shows a bank; capture does.
#[test]
#[rattlefmt::skip]
fn a_bank_that_is_shown_needs_nothing_but_capture(rt: HostRuntime) -> Result<(), AllocError> {
    try_lines(&rt, rt.alloc(), &[
        // Write(processor, register, width, value)   Object(index, attributes 0, 1 and 2)
        // Layers(engine, DISPCNT, BG0CNT, BG1CNT, BG2CNT, BG3CNT)   Event(raised at ARM9, at ARM7, what starts)   Stops(kind, value)
        Write(Nine, POWCNT1,    Half, 0x8202),
        Write(Nine, MOSAIC,     Half, 0x1111),
        Object(5, 0x0C00, 0, 0),
        Object(6, 0x1000, 0, 0),
        Layers(A, 0x2_1F07, 0x0040, 0x0040, 0x0040, 0x0040),
        Event(0, 0, HblankDma), Event(0, 0, Nothing),
        Write(Nine, DISPCAPCNT, Word, 0x8000_0000),
        Stops(Capture, 0x8000_0000),
        Write(Nine, DISPCAPCNT, Word, 0),
        Event(0, 0, HblankDma),
    ])
}
