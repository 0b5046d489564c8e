//! Windows. BG0, of colour 4011h (2011h on engine B), is shown in window 0, BG1, of 4021h, in window 1, both of them in the object window,
//! where BG0 is transparent in places 8 to 15, and neither outside, where the backdrop 4000h is seen.

use super::registers::{A, B, BLDCNT, BLDY, POWCNT1, WIN0H, WIN0V, WININ};
use super::{Line, Screen, try_lines};
use Line::{Backgrounds, Colour, Layers, NextFrame, Object, Objects, Pixel, ToLine, Write};
use Proc::Nine;
use Screen::{Lower, Upper};
use Width::{Half, Word};
use ds_base::{Proc, Width};
use std::alloc::AllocError;

#[test]
#[rattlefmt::skip]
fn windows_have_their_sides_and_their_order(rt: HostRuntime) -> Result<(), AllocError> {
    try_lines(&rt, rt.alloc(), &[
        // Write(processor, register, width, value)   Layers(engine, DISPCNT, BG0CNT, BG1CNT, BG2CNT, BG3CNT)
        // Pixel(screen, line, place, colour)
        Backgrounds,
        Write(Nine, POWCNT1,   Half, 0x8202),
        Layers(A, 0x1_6300, 0x0004, 0x0105, 0, 0),
        Layers(B, 0x1_2300, 0x0004, 0x0105, 0, 0),
        // WININ, WINOUT
        Write(Nine, WININ,     Word, 0x0000_0201),
        Write(Nine, B + WININ, Word, 0x0002_0001),
        // window 0 has places 20 to 39 of lines 10 to 19, window 1 places 30 to 59 of lines 15 to 29
        Write(Nine, WIN0H,     Word, 0x1E3C_1428),
        Write(Nine, WIN0V,     Word, 0x0F1E_0A14),
        // B's window 0 is from 200 on and up to 49, in lines from 180 on and up to 4
        Write(Nine, B + WIN0H, Half, 0xC832),
        Write(Nine, B + WIN0V, Half, 0xB405),
        ToLine(192),
        Pixel(Upper, 10,  19,  0x4000),
        Pixel(Upper, 10,  20,  0x4011),
        Pixel(Upper, 10,  39,  0x4011),
        Pixel(Upper, 10,  40,  0x4000),
        Pixel(Upper, 9,   20,  0x4000),
        Pixel(Upper, 19,  20,  0x4011),
        Pixel(Upper, 20,  20,  0x4000),
        Pixel(Upper, 15,  29,  0x4011),
        Pixel(Upper, 15,  30,  0x4011),
        Pixel(Upper, 15,  40,  0x4021),
        Pixel(Upper, 15,  59,  0x4021),
        Pixel(Upper, 15,  60,  0x4000),
        Pixel(Upper, 14,  45,  0x4000),
        Pixel(Upper, 29,  45,  0x4021),
        Pixel(Upper, 30,  45,  0x4000),
        Pixel(Upper, 20,  30,  0x4021),
        Pixel(Lower, 0,   49,  0x2011),
        Pixel(Lower, 0,   50,  0x2021),
        Pixel(Lower, 0,   199, 0x2021),
        Pixel(Lower, 0,   200, 0x2011),
        Pixel(Lower, 0,   255, 0x2011),
        Pixel(Lower, 4,   0,   0x2011),
        Pixel(Lower, 5,   0,   0x2021),
        Pixel(Lower, 179, 0,   0x2021),
        Pixel(Lower, 180, 0,   0x2011),
        Pixel(Lower, 191, 0,   0x2011),
        // equal sides: nothing is inside, across and down
        Write(Nine, WIN0H,     Word, 0x0000_2020),
        Write(Nine, WIN0V,     Word, 0x0000_0A14),
        Write(Nine, B + WIN0H, Half, 0x0A14),
        Write(Nine, B + WIN0V, Half, 0x2020),
        NextFrame,
        Pixel(Upper, 15,  32,  0x4000),
        Pixel(Upper, 15,  0,   0x4000),
        Pixel(Lower, 32,  15,  0x2021),
        Pixel(Lower, 0,   15,  0x2021),
        // no window is on: all is shown, whatever the registers hold
        Layers(A, 0x1_0300, 0x0004, 0x0105, 0, 0),
        NextFrame,
        Pixel(Upper, 0,   0,   0x4011),
        Pixel(Upper, 0,   8,   0x4021),
    ])
}

#[test]
#[rattlefmt::skip]
fn the_object_window_is_where_its_objects_are_opaque(rt: HostRuntime) -> Result<(), AllocError> {
    try_lines(&rt, rt.alloc(), &[
        // Colour(index, colour)   Write(processor, register, width, value)   Layers(engine, DISPCNT, BG0CNT, BG1CNT, BG2CNT, BG3CNT)
        // Object(index, attributes 0, 1 and 2)   Pixel(screen, line, place, colour)
        Backgrounds, Objects, Colour(0x101, 0x1234),
        Write(Nine, POWCNT1, Half, 0x8202),
        // BG0 in the object window, BG1 and objects outside, and BG1 in window 0
        Write(Nine, WININ,   Word, 0x0112_0002),
        Write(Nine, WIN0H,   Half, 0x6470),
        Write(Nine, WIN0V,   Half, 0x3840),
        Layers(A, 0x1_B300, 0x0005, 0x0106, 0, 0),
        // tile 3 is transparent from its fifth place on; the second one reaches into window 0; the third is off
        Object(0, 0x0832, 100, 3),
        Object(1, 0x0838, 108, 0),
        Object(2, 0x0A32, 140, 0),
        // before it lies an object, which isn't shown in the object window
        Object(3, 0x0032, 96,  0),
        ToLine(192),
        Pixel(Upper, 50, 96,  0x1234),
        Pixel(Upper, 50, 99,  0x1234),
        Pixel(Upper, 50, 100, 0x4011),
        Pixel(Upper, 50, 103, 0x4011),
        Pixel(Upper, 50, 104, 0x4021),
        Pixel(Upper, 49, 100, 0x4021),
        Pixel(Upper, 58, 100, 0x4021),
        Pixel(Upper, 56, 111, 0x4021),
        Pixel(Upper, 56, 112, 0x4011),
        Pixel(Upper, 50, 140, 0x4021),
        // without bit 15 of DISPCNT nothing lies in the object window
        Layers(A, 0x1_3300, 0x0005, 0x0106, 0, 0),
        NextFrame,
        Pixel(Upper, 50, 100, 0x1234),
        Pixel(Upper, 50, 104, 0x4021),
        // nor without bit 12: all is outside
        Layers(A, 0x1_8300, 0x0005, 0x0106, 0, 0),
        NextFrame,
        Pixel(Upper, 50, 100, 0x4021),
        Pixel(Upper, 50, 96,  0x4021),
    ])
}

// BG0 is made brighter by half: 4011h has 17, 0 and 16, which becomes 24, 15 and 23.
#[test]
#[rattlefmt::skip]
fn effects_need_the_bit_of_the_window(rt: HostRuntime) -> Result<(), AllocError> {
    try_lines(&rt, rt.alloc(), &[
        // Colour(index, colour)   Write(processor, register, width, value)   Layers(engine, DISPCNT, BG0CNT, BG1CNT, BG2CNT, BG3CNT)
        // Object(index, attributes 0, 1 and 2)   Pixel(screen, line, place, colour)
        Backgrounds, Objects, Colour(0x101, 0x001F),
        Write(Nine, POWCNT1, Half, 0x8202),
        Layers(A, 0x1_3100, 0x0005, 0, 0, 0),
        Write(Nine, BLDCNT,  Word, 0x1010_0181),
        Write(Nine, BLDY,    Half, 8),
        // window 0 has places 0 to 15; effects are outside alone
        Write(Nine, WIN0H,   Half, 0x0010),
        Write(Nine, WIN0V,   Half, 0x00C0),
        Write(Nine, WININ,   Word, 0x0031_0011),
        // a semi-transparent object over BG0, a second target, in the window and outside
        Object(0, 0x0400, 12, 0),
        ToLine(192),
        Pixel(Upper, 0, 0,  0x4011),
        Pixel(Upper, 0, 12, 0x001F),
        Pixel(Upper, 0, 15, 0x001F),
        // 31 and 17, 0 and 0, 0 and 16, of which all is taken
        Pixel(Upper, 0, 16, 0x401F),
        Pixel(Upper, 0, 20, 0x5DF8),
        // inside alone
        Write(Nine, WININ,   Word, 0x0011_0031),
        NextFrame,
        Pixel(Upper, 0, 0,  0x5DF8),
        Pixel(Upper, 0, 16, 0x001F),
        Pixel(Upper, 0, 20, 0x4011),
    ])
}
