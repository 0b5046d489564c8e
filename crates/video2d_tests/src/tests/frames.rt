//! Frames: which engine is on which screen, and what a screen without layers shows.

use super::registers::{A, B, BG0HOFS, DISPCNT, POWCNT1};
use super::{Line, Screen, Starts, try_lines};
use Line::{Backgrounds, Event, Layers, NextFrame, Pixel, ToHblank, ToLine, Write};
use Proc::Nine;
use Screen::{Lower, Upper};
use Starts::VblankDma;
use Width::{Byte, Half, Word};
use ds_base::{Proc, Width};
use std::alloc::AllocError;

#[test]
#[rattlefmt::skip]
fn engines_are_enabled_and_sent_to_screens(rt: HostRuntime) -> Result<(), AllocError> {
    try_lines(&rt, rt.alloc(), &[
        // Write(processor, register, width, value)   Pixel(screen, line, place, colour)   Event(raised at ARM9, at ARM7, what starts)
        // A alone, on the lower screen, with display mode 0
        Write(Nine, POWCNT1,     Word, 3),
        ToHblank(191),
        // no frame is whole before line 192
        Pixel(Lower, 0,   0,   0),
        Event(0, 0, VblankDma),
        Pixel(Lower, 0,   0,   0x7FFF),
        Pixel(Lower, 191, 255, 0x7FFF),
        Pixel(Upper, 0,   0,   0),
        Pixel(Upper, 191, 255, 0),
        // A on the upper screen
        Write(Nine, POWCNT1,     Half, 0x8002),
        ToHblank(191),
        Pixel(Lower, 0,   0,   0x7FFF),
        Event(0, 0, VblankDma),
        Pixel(Upper, 0,   0,   0x7FFF),
        Pixel(Lower, 0,   0,   0),
        // B alone: on the lower screen with bit 15, and on the upper without
        Write(Nine, POWCNT1,     Half, 0x8200),
        ToHblank(191), Event(0, 0, VblankDma),
        Pixel(Upper, 100, 0,   0),
        Pixel(Lower, 100, 0,   0x7FFF),
        Write(Nine, POWCNT1 + 1, Byte, 0x02),
        ToHblank(191), Event(0, 0, VblankDma),
        Pixel(Upper, 100, 0,   0x7FFF),
        Pixel(Lower, 100, 0,   0),
        // neither: POWCNT1's other bits enable nothing
        Write(Nine, POWCNT1,     Half, 0x7DFD),
        ToHblank(191), Event(0, 0, VblankDma),
        Pixel(Upper, 100, 0,   0),
        Pixel(Lower, 100, 0,   0),
    ])
}

#[test]
#[rattlefmt::skip]
fn display_modes_and_forced_blank(rt: HostRuntime) -> Result<(), AllocError> {
    try_lines(&rt, rt.alloc(), &[
        // Write(processor, register, width, value)   Pixel(screen, line, place, colour)
        Backgrounds,
        Write(Nine, POWCNT1,     Half, 0x8202),
        // display mode 1 without layers shows the backdrop
        Write(Nine, DISPCNT,     Word, 0x1_0000),
        Write(Nine, B + DISPCNT, Word, 0x1_0000),
        ToLine(192),
        Pixel(Upper, 0,   0,   0x4000),
        Pixel(Lower, 191, 255, 0x2000),
        // forced blank
        Write(Nine, DISPCNT,     Word, 0x1_0080),
        Write(Nine, B + DISPCNT, Word, 0x1_0080),
        NextFrame,
        Pixel(Upper, 0,   0,   0x7FFF),
        Pixel(Lower, 191, 255, 0x7FFF),
        // B's display mode is bit 16 alone: 2 is 0, and 3 is 1
        Write(Nine, DISPCNT,     Word, 0),
        Write(Nine, B + DISPCNT, Word, 0x2_0000),
        NextFrame,
        Pixel(Upper, 0,   0,   0x7FFF),
        Pixel(Lower, 0,   0,   0x7FFF),
        Write(Nine, B + DISPCNT, Word, 0x3_0000),
        NextFrame,
        Pixel(Lower, 0,   0,   0x2000),
    ])
}

#[test]
#[rattlefmt::skip]
fn lines_are_drawn_by_what_holds_at_their_hblank(rt: HostRuntime) -> Result<(), AllocError> {
    try_lines(&rt, rt.alloc(), &[
        // Write(processor, register, width, value)   Layers(engine, DISPCNT, BG0CNT, BG1CNT, BG2CNT, BG3CNT)
        // Pixel(screen, line, place, colour)
        Backgrounds,
        Write(Nine, POWCNT1, Half, 0x8202),
        Layers(A, 0x1_0100, 0x0004, 0, 0, 0),
        Layers(B, 0x1_0000, 0,      0, 0, 0),
        // scrolled by 8 pixels from line 50 on, and back from line 60 on
        ToHblank(49),
        Write(Nine, BG0HOFS, Half, 8),
        ToLine(60),
        Write(Nine, BG0HOFS, Half, 0),
        // the screens are exchanged from line 100 on
        ToLine(100),
        Write(Nine, POWCNT1, Half, 0x0202),
        // after line 110's H-blank its registers count for nothing
        ToHblank(110),
        Write(Nine, DISPCNT, Word, 0x1_0080),
        Write(Nine, DISPCNT, Word, 0x1_0100),
        ToLine(192),
        Pixel(Upper, 49,  0, 0x4011),
        Pixel(Upper, 49,  8, 0x4000),
        Pixel(Upper, 50,  0, 0x4000),
        Pixel(Upper, 50,  8, 0x4011),
        Pixel(Upper, 59,  0, 0x4000),
        Pixel(Upper, 60,  0, 0x4011),
        Pixel(Upper, 99,  0, 0x4011),
        Pixel(Lower, 99,  0, 0x2000),
        Pixel(Upper, 100, 0, 0x2000),
        Pixel(Lower, 100, 0, 0x4011),
        Pixel(Lower, 110, 0, 0x4011),
        Pixel(Lower, 191, 0, 0x4011),
    ])
}
