//! What a window hides is no next layer; windows beside each other; running points below 0; what line 193 raises.

use super::registers::{
    A, BG2PA, BG2PC, BG2X, BG2Y, BLDCNT, DISPSTAT, POWCNT1, VBLANK, WIN0H, WIN0V, WININ,
};
use super::{Line, Screen, Starts, try_lines};
use Line::{
    Backgrounds, Colour, Event, Layers, NextFrame, Object, Objects, Pixel, ToHblank, ToLine, Write,
};
use Proc::{Nine, Seven};
use Screen::Upper;
use Starts::{Nothing, VblankDma};
use Width::{Byte, Half, Word};
use ds_base::{Proc, Width};
use std::alloc::AllocError;

// BG0 has 16 red, BG1 16 green, BG2 16 blue, in this order, and the backdrop 8 red. Window 0 has places 0 to 127; BG1 isn't shown there.
#[test]
#[rattlefmt::skip]
fn a_hidden_layer_is_not_the_next(rt: HostRuntime) -> Result<(), AllocError> {
    try_lines(&rt, rt.alloc(), &[
        // Colour(index, colour)   Write(processor, register, width, value)   Layers(engine, DISPCNT, BG0CNT, BG1CNT, BG2CNT, BG3CNT)
        // Pixel(screen, line, place, colour)
        Backgrounds, Colour(0x00, 0x0008), Colour(0x11, 0x0010), Colour(0x21, 0x0200), Colour(0x31, 0x4000),
        Write(Nine, POWCNT1, Half, 0x8202),
        Layers(A, 0x1_2700, 0x0004, 0x0105, 0x0206, 0),
        Write(Nine, WIN0H,   Half, 0x0080),
        Write(Nine, WIN0V,   Half, 0x00C0),
        Write(Nine, WININ,   Word, 0x003F_0025),
        // BG0 over BG2, half and half: in the window they lie on each other, outside BG1 lies between
        Write(Nine, BLDCNT,  Word, 0x0808_0441),
        ToLine(192),
        Pixel(Upper, 0, 16,  0x2008),
        Pixel(Upper, 0, 127, 0x2008),
        Pixel(Upper, 0, 128, 0x0010),
        // where BG0 is transparent BG2 is in front
        Pixel(Upper, 0, 8,   0x4000),
        // over BG1 alone: in the window it isn't there
        Write(Nine, BLDCNT,  Word, 0x0808_0241),
        NextFrame,
        Pixel(Upper, 0, 16,  0x0010),
        Pixel(Upper, 0, 128, 0x0108),
        // BG1 over BG2, half and half: in the window BG1 isn't in front of it where BG0 is transparent, nor outside where BG0 isn't
        Write(Nine, BLDCNT,  Word, 0x0808_0442),
        Write(Nine, WININ,   Word, 0x003E_0025),
        NextFrame,
        Pixel(Upper, 0, 8,   0x4000),
        Pixel(Upper, 0, 16,  0x0010),
        Pixel(Upper, 0, 128, 0x2100),
        // BG0 over the backdrop, with both others hidden: 8 and 4 of red
        Write(Nine, BLDCNT,  Word, 0x0808_2041),
        Write(Nine, WININ,   Word, 0x003F_0021),
        NextFrame,
        Pixel(Upper, 0, 16,  0x000C),
        Pixel(Upper, 0, 8,   0x0008),
        Pixel(Upper, 0, 128, 0x0010),
    ])
}

// The same layers. Window 1 has places 16 to 31, the object window 28 to 35: BG0 is shown in the first, BG1 in the second, and BG2 outside.
#[test]
#[rattlefmt::skip]
fn window_1_goes_before_the_object_window(rt: HostRuntime) -> Result<(), AllocError> {
    try_lines(&rt, rt.alloc(), &[
        // Colour(index, colour)   Write(processor, register, width, value)   Layers(engine, DISPCNT, BG0CNT, BG1CNT, BG2CNT, BG3CNT)
        // Object(index, attributes 0, 1 and 2)   Pixel(screen, line, place, colour)
        Backgrounds, Objects, Colour(0x11, 0x0010), Colour(0x21, 0x0200), Colour(0x31, 0x4000),
        Write(Nine, POWCNT1, Half, 0x8202),
        // bits 14 and 15, without 13: window 0, which would have all of the screen and nothing in it, is off
        Layers(A, 0x1_D700, 0x0004, 0x0105, 0x0206, 0),
        Write(Nine, WIN0H,   Word, 0x1020_00FF),
        Write(Nine, WIN0V,   Word, 0x00C0_00C0),
        Write(Nine, WININ,   Word, 0x0204_0100),
        Object(0, 0x0800, 28, 0),
        ToLine(192),
        Pixel(Upper, 0, 7,  0x4000),
        Pixel(Upper, 0, 15, 0x4000),
        Pixel(Upper, 0, 16, 0x0010),
        Pixel(Upper, 0, 28, 0x0010),
        Pixel(Upper, 0, 31, 0x0010),
        Pixel(Upper, 0, 32, 0x0200),
        Pixel(Upper, 0, 35, 0x0200),
        Pixel(Upper, 0, 36, 0x4000),
        Pixel(Upper, 8, 32, 0x4000),
        Pixel(Upper, 8, 28, 0x0010),
        // all three: window 0, of places 24 to 29, goes before both and shows BG2
        Layers(A, 0x1_F700, 0x0004, 0x0105, 0x0206, 0),
        Write(Nine, WIN0H,   Half, 0x181E),
        Write(Nine, WININ,   Word, 0x0204_0104),
        NextFrame,
        Pixel(Upper, 0, 23, 0x0010),
        Pixel(Upper, 0, 24, 0x4000),
        Pixel(Upper, 0, 29, 0x4000),
        Pixel(Upper, 0, 30, 0x0010),
        Pixel(Upper, 0, 32, 0x0200),
        // bit 15 alone
        Layers(A, 0x1_9700, 0x0004, 0x0105, 0x0206, 0),
        NextFrame,
        Pixel(Upper, 0, 16, 0x4000),
        Pixel(Upper, 0, 28, 0x0200),
        Pixel(Upper, 0, 36, 0x4000),
    ])
}

// BG2 has 128 by 128 pixels of colour 4061h. Its point begins at 0 across and -2 down; each line goes 8 to the left, and 1 down.
#[test]
#[rattlefmt::skip]
fn a_running_point_below_0_is_outside(rt: HostRuntime) -> Result<(), AllocError> {
    try_lines(&rt, rt.alloc(), &[
        // Write(processor, register, width, value)   Layers(engine, DISPCNT, BG0CNT, BG1CNT, BG2CNT, BG3CNT)
        // Pixel(screen, line, place, colour)
        Backgrounds,
        Write(Nine, POWCNT1, Half, 0x8202),
        Layers(A, 0x1_0402, 0, 0, 0x0404, 0),
        Write(Nine, BG2PA,   Word, 0xF800_0100),
        Write(Nine, BG2PC,   Word, 0x0100_0000),
        Write(Nine, BG2X,    Word, 0),
        Write(Nine, BG2Y,    Word, 0x0FFF_FE00),
        ToLine(192),
        Pixel(Upper, 0,  50,  0x4000),
        Pixel(Upper, 1,  50,  0x4000),
        Pixel(Upper, 2,  15,  0x4000),
        Pixel(Upper, 2,  16,  0x4061),
        Pixel(Upper, 2,  143, 0x4061),
        Pixel(Upper, 2,  144, 0x4000),
        Pixel(Upper, 3,  23,  0x4000),
        Pixel(Upper, 3,  24,  0x4061),
        // in line 30 the point is at -240 across, and in line 32 at -256: no place of the line comes to 0
        Pixel(Upper, 30, 239, 0x4000),
        Pixel(Upper, 30, 240, 0x4061),
        Pixel(Upper, 32, 255, 0x4000),
        // with wrap it begins again
        Layers(A, 0x1_0402, 0, 0, 0x2404, 0),
        NextFrame,
        Pixel(Upper, 0,  50,  0x4061),
        Pixel(Upper, 2,  15,  0x4061),
        Pixel(Upper, 32, 255, 0x4061),
    ])
}

#[test]
#[rattlefmt::skip]
fn line_192_alone_raises_v_blank(rt: HostRuntime) -> Result<(), AllocError> {
    try_lines(&rt, rt.alloc(), &[
        // Write(processor, register, width, value)   Event(raised at ARM9, at ARM7, what starts)
        Write(Nine,  DISPSTAT, Byte, 0x08),
        Write(Seven, DISPSTAT, Byte, 0x08),
        ToHblank(191), Event(VBLANK, VBLANK, VblankDma),
        // its H-blank, the start of line 193, and that line's H-blank and the next start
        Event(0, 0, Nothing), Event(0, 0, Nothing), Event(0, 0, Nothing), Event(0, 0, Nothing),
        // the last line, line 0, and the next time
        ToHblank(261), Event(0, 0, Nothing), Event(0, 0, Nothing), Event(0, 0, Nothing),
        ToHblank(191), Event(VBLANK, VBLANK, VblankDma), Event(0, 0, Nothing), Event(0, 0, Nothing),
    ])
}
