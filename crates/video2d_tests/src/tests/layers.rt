//! Layers: modes, priorities, running points. `Stage::backgrounds` says what video memory holds.

use super::registers::{
    A, B, BG2PA, BG2PB, BG2PD, BG2X, BG2Y, BG3PA, BG3PD, BG3Y, DISPCNT, POWCNT1,
};
use super::{Line, Screen, try_lines};
use Line::{Backgrounds, Layers, NextFrame, Pixel, ToLine, Write};
use Proc::Nine;
use Screen::{Lower, Upper};
use Width::{Byte, Half, Word};
use ds_base::{Proc, Width};
use std::alloc::AllocError;

// BG0 has the map at 0 and tiles at 4000h (control 0004h), BG1 the map at 800h (0104h), BG2 at 1000h (0204h), BG3 at 1800h (0304h); as affine
// backgrounds BG2 has the map at 2000h (0404h) and BG3 at 2800h (0504h).
#[test]
#[rattlefmt::skip]
fn modes_say_what_each_background_is(rt: HostRuntime) -> Result<(), AllocError> {
    try_lines(&rt, rt.alloc(), &[
        // Write(processor, register, width, value)   Layers(engine, DISPCNT, BG0CNT, BG1CNT, BG2CNT, BG3CNT)
        // Pixel(screen, line, place, colour)
        Backgrounds,
        Write(Nine, POWCNT1,   Half, 0x8202),
        // affine backgrounds step by one pixel
        Write(Nine, BG2PA,     Half, 0x100),
        Write(Nine, BG3PA,     Half, 0x100),
        Write(Nine, B + BG3PA, Half, 0x100),
        // mode 0: four text backgrounds; each alone
        Layers(A, 0x1_0100, 0x0004, 0,      0,      0),
        Layers(B, 0x1_0200, 0,      0x0104, 0,      0),
        ToLine(192),
        Pixel(Upper, 0, 0,   0x4011),
        Pixel(Lower, 0, 0,   0x2021),
        Layers(A, 0x1_0400, 0,      0,      0x0204, 0),
        Layers(B, 0x1_0800, 0,      0,      0,      0x0304),
        NextFrame,
        Pixel(Upper, 0, 0,   0x4031),
        Pixel(Lower, 0, 0,   0x2041),
        // mode 1: BG3 is affine, BG2 is text
        Layers(A, 0x1_0801, 0,      0,      0,      0x0504),
        Layers(B, 0x1_0401, 0,      0,      0x0204, 0),
        NextFrame,
        Pixel(Upper, 0, 0,   0x4071),
        // outside of its 128 pixels an affine background is transparent
        Pixel(Upper, 0, 127, 0x4071),
        Pixel(Upper, 0, 128, 0x4000),
        Pixel(Lower, 0, 128, 0x2031),
        // mode 2: both are
        Layers(A, 0x1_0402, 0,      0,      0x0404, 0),
        Layers(B, 0x1_0802, 0,      0,      0,      0x0504),
        NextFrame,
        Pixel(Upper, 0, 5,   0x4061),
        Pixel(Lower, 0, 5,   0x2071),
        // modes 3 to 5: BG2 is text, affine, extended; BG0 and BG1 are text
        Layers(A, 0x1_0403, 0,      0,      0x0204, 0),
        Layers(B, 0x1_0203, 0,      0x0104, 0,      0),
        NextFrame,
        Pixel(Upper, 0, 200, 0x4031),
        Pixel(Lower, 0, 200, 0x2021),
        Layers(A, 0x1_0404, 0,      0,      0x0404, 0),
        Layers(B, 0x1_0204, 0,      0x0104, 0,      0),
        NextFrame,
        Pixel(Upper, 0, 100, 0x4061),
        Pixel(Lower, 0, 100, 0x2021),
        Layers(A, 0x1_0105, 0x0004, 0,      0,      0),
        Layers(B, 0x1_0205, 0,      0x0104, 0,      0),
        NextFrame,
        Pixel(Upper, 0, 0,   0x4011),
        Pixel(Lower, 0, 0,   0x2021),
    ])
}

#[test]
#[rattlefmt::skip]
fn the_least_priority_shows_and_then_the_least_number(rt: HostRuntime) -> Result<(), AllocError> {
    try_lines(&rt, rt.alloc(), &[
        // Write(processor, register, width, value)   Layers(engine, DISPCNT, BG0CNT, BG1CNT, BG2CNT, BG3CNT)
        // Pixel(screen, line, place, colour)
        Backgrounds,
        Write(Nine, POWCNT1, Half, 0x8202),
        // equal priorities: BG0 goes before the others, and BG2 before BG3
        Layers(A, 0x1_0F00, 0x0004, 0x0104, 0x0204, 0x0304),
        Layers(B, 0x1_0C00, 0,      0,      0x0207, 0x0307),
        ToLine(192),
        Pixel(Upper, 0, 0, 0x4011),
        // where BG0 is transparent BG1 shows
        Pixel(Upper, 0, 8, 0x4021),
        Pixel(Lower, 0, 0, 0x2031),
        // BG3 has priority 0, the others 1, 2, 3; and then 3, 2, 1, 0 by number
        Layers(A, 0x1_0F00, 0x0005, 0x0106, 0x0207, 0x0304),
        Layers(B, 0x1_0700, 0x0007, 0x0106, 0x0205, 0),
        NextFrame,
        Pixel(Upper, 0, 0, 0x4041),
        Pixel(Lower, 0, 0, 0x2031),
        // a background that is off doesn't count
        Layers(A, 0x1_0700, 0x0007, 0x0106, 0x0206, 0x0304),
        Layers(B, 0x1_0100, 0x0007, 0,      0,      0),
        NextFrame,
        Pixel(Upper, 0, 0, 0x4021),
        // the backdrop lies behind a background of priority 3
        Pixel(Lower, 0, 0, 0x2011),
        Pixel(Lower, 0, 8, 0x2000),
        // background 0 as 3D is transparent; engine B has no such bit
        Layers(A, 0x1_0308, 0x0004, 0x0107, 0,      0),
        Layers(B, 0x1_0308, 0x0004, 0x0107, 0,      0),
        NextFrame,
        Pixel(Upper, 0, 0, 0x4021),
        Pixel(Lower, 0, 0, 0x2011),
    ])
}

// BG2's map at 3000h (0604h, with wrap 2604h) has tile 4 everywhere: the colour of the point (x, y) is 80h + 8 (y mod 8) + x mod 8.
#[test]
#[rattlefmt::skip]
fn running_points_go_on_after_drawn_lines_alone(rt: HostRuntime) -> Result<(), AllocError> {
    try_lines(&rt, rt.alloc(), &[
        // Write(processor, register, width, value)   Layers(engine, DISPCNT, BG0CNT, BG1CNT, BG2CNT, BG3CNT)
        // Pixel(screen, line, place, colour)
        Backgrounds,
        Write(Nine, POWCNT1,   Half, 0x8202),
        Layers(A, 0x1_0402, 0, 0, 0x2604, 0),
        Layers(B, 0x1_0802, 0, 0, 0,      0x2604),
        // A: x goes 1 to the right a pixel and 2 a line, y 1 a line, from (3, 1)
        Write(Nine, BG2PA,     Half, 0x100),
        Write(Nine, BG2PB,     Half, 0x200),
        Write(Nine, BG2PD,     Half, 0x100),
        Write(Nine, BG2X,      Word, 0x300),
        Write(Nine, BG2Y,      Word, 0x100),
        // B: y goes up by 1 a line, from -1, and x doesn't move; X and Y have 28 bits
        Write(Nine, B + BG3PD, Half, 0xFF00),
        Write(Nine, B + BG3Y,  Word, 0xFFFF_FF00),
        // X written in the middle of the frame is copied at once; Y goes on
        ToLine(100),
        Write(Nine, BG2X + 1,  Byte, 0x06),
        ToLine(192),
        Pixel(Upper, 0,   0, 0x408B),
        Pixel(Upper, 0,   4, 0x408F),
        Pixel(Upper, 0,   5, 0x4088),
        Pixel(Upper, 1,   0, 0x4095),
        Pixel(Upper, 2,   0, 0x409F),
        Pixel(Upper, 99,  0, 0x40A1),
        Pixel(Upper, 100, 0, 0x40AE),
        Pixel(Upper, 101, 0, 0x40B0),
        Pixel(Lower, 0,   0, 0x20B8),
        Pixel(Lower, 0,   9, 0x20B8),
        Pixel(Lower, 1,   0, 0x20B0),
        Pixel(Lower, 191, 0, 0x2080),
        // line 0 copies both again
        NextFrame,
        Pixel(Upper, 0,   0, 0x408E),
        Pixel(Upper, 1,   0, 0x4090),
        Pixel(Lower, 0,   0, 0x20B8),
    ])
}

#[test]
#[rattlefmt::skip]
fn running_points_go_on_whatever_is_shown(rt: HostRuntime) -> Result<(), AllocError> {
    try_lines(&rt, rt.alloc(), &[
        // Write(processor, register, width, value)   Layers(engine, DISPCNT, BG0CNT, BG1CNT, BG2CNT, BG3CNT)
        // Pixel(screen, line, place, colour)
        Backgrounds,
        Write(Nine, POWCNT1, Half, 0x8000),
        Layers(A, 0x1_0402, 0, 0, 0x2604, 0),
        Write(Nine, BG2PA,   Half, 0x100),
        Write(Nine, BG2PD,   Half, 0x100),
        // the engine is disabled up to line 10, and blank is forced up to line 20
        ToLine(10),
        Write(Nine, POWCNT1, Half, 0x8002),
        Write(Nine, DISPCNT, Word, 0x1_0482),
        ToLine(20),
        Write(Nine, DISPCNT, Word, 0x1_0402),
        ToLine(192),
        Pixel(Upper, 9,  0, 0),
        Pixel(Upper, 10, 0, 0x7FFF),
        Pixel(Upper, 20, 0, 0x40A0),
        Pixel(Upper, 21, 1, 0x40A9),
    ])
}
