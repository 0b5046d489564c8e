//! Effects and master brightness. Layers are as in the tests of objects.

use super::registers::{A, B, BLDCNT, BLDY, DISPCNT, MASTER_BRIGHT, POWCNT1, WIN0H, WIN0V, WININ};
use super::{Line, Screen, try_lines};
use Line::{Backgrounds, Colour, Layers, NextFrame, Object, Objects, Pixel, ToLine, Write};
use Proc::Nine;
use Screen::{Lower, Upper};
use Width::{Half, Word};
use ds_base::{Proc, Width};
use std::alloc::AllocError;

// The first target has 20, 3 and 31, the second 20, 4 and 0.
#[test]
#[rattlefmt::skip]
fn first_targets_are_blended_with_second_ones(rt: HostRuntime) -> Result<(), AllocError> {
    try_lines(&rt, rt.alloc(), &[
        // Colour(index, colour)   Write(processor, register, width, value)   Layers(engine, DISPCNT, BG0CNT, BG1CNT, BG2CNT, BG3CNT)
        // Pixel(screen, line, place, colour)
        Backgrounds, Colour(0x11, 0x7C74), Colour(0x21, 0x0094), Colour(0x211, 0x7C74), Colour(0x200, 0x0094),
        Write(Nine, POWCNT1,    Half, 0x8202),
        Layers(A, 0x1_0300, 0x0004, 0x0105, 0,      0),
        Layers(B, 0x1_0100, 0x0004, 0,      0,      0),
        // A: BG0 over BG1, with factors of 31, which act as 16: 40, which is held to 31, 7, and 31
        Write(Nine, BLDCNT,     Word, 0x1F1F_0241),
        // B: BG0 over the backdrop, with 8 and 4: 15, 2, 15
        Write(Nine, B + BLDCNT, Word, 0x0408_2041),
        ToLine(192),
        Pixel(Upper, 0, 0, 0x7CFF),
        // where BG0 is transparent BG1 is in front, and no first target
        Pixel(Upper, 0, 8, 0x0094),
        Pixel(Lower, 0, 0, 0x3C4F),
        Pixel(Lower, 0, 8, 0x0094),
        // BG1 is no second target; BG0 is no first one; the backdrop is a first one, behind which nothing lies
        Write(Nine, BLDCNT,     Word, 0x1F1F_2441),
        Write(Nine, B + BLDCNT, Word, 0x0408_3F60),
        NextFrame,
        Pixel(Upper, 0, 0, 0x7C74),
        Pixel(Lower, 0, 0, 0x7C74),
        Pixel(Lower, 0, 8, 0x0094),
        // no effect: nothing is blended. B: all are targets
        Write(Nine, BLDCNT,     Word, 0x1F1F_3F3F),
        Write(Nine, B + BLDCNT, Word, 0x0008_3F7F),
        NextFrame,
        Pixel(Upper, 0, 0, 0x7C74),
        // 10, 1, 15
        Pixel(Lower, 0, 0, 0x3C2A),
        Pixel(Lower, 0, 8, 0x0094),
        // BG1 is the next layer, though BG2 is a second target: nothing is blended
        Layers(A, 0x1_0700, 0x0004, 0x0105, 0x0206, 0),
        Write(Nine, BLDCNT,     Word, 0x1010_0441),
        NextFrame,
        Pixel(Upper, 0, 0, 0x7C74),
        // with BG1 in front of BG0 it is blended as the first one: 20 and 20, 4 and 3, 0 and 31 of 16 and 8
        Layers(A, 0x1_0300, 0x0005, 0x0104, 0,      0),
        Write(Nine, BLDCNT,     Word, 0x0810_0142),
        NextFrame,
        Pixel(Upper, 0, 0, 0x3CBE),
    ])
}

// 0010h has 16, 0 and 0: half way up it is 23, 15 and 15, and half way down 8.
#[test]
#[rattlefmt::skip]
fn first_targets_are_made_brighter_and_darker(rt: HostRuntime) -> Result<(), AllocError> {
    try_lines(&rt, rt.alloc(), &[
        // Colour(index, colour)   Write(processor, register, width, value)   Layers(engine, DISPCNT, BG0CNT, BG1CNT, BG2CNT, BG3CNT)
        // Object(index, attributes 0, 1 and 2)   Pixel(screen, line, place, colour)
        Backgrounds, Objects, Colour(0x00, 0x0010), Colour(0x11, 0x0010), Colour(0x101, 0x0010), Colour(0x200, 0x7FFF),
        Colour(0x211, 0x0010), Colour(0x301, 0x7FFF),
        Write(Nine, POWCNT1,    Half, 0x8202),
        Layers(A, 0x1_1100, 0x0004, 0, 0, 0),
        Layers(B, 0x1_1100, 0x0004, 0, 0, 0),
        Object(0,   0, 16, 0),
        Object(128, 0, 16, 0),
        // A: BG0 brighter; B: BG0 darker
        Write(Nine, BLDCNT,     Half, 0x0081),
        Write(Nine, BLDY,       Half, 8),
        Write(Nine, B + BLDCNT, Half, 0x00C1),
        Write(Nine, B + BLDY,   Half, 8),
        ToLine(192),
        Pixel(Upper, 0, 0,  0x3DF7),
        Pixel(Upper, 0, 8,  0x0010),
        Pixel(Upper, 0, 16, 0x0010),
        Pixel(Lower, 0, 0,  0x0008),
        Pixel(Lower, 0, 8,  0x7FFF),
        Pixel(Lower, 0, 16, 0x7FFF),
        // objects and the backdrop: A brighter, B darker: 31 becomes 16
        Write(Nine, BLDCNT,     Half, 0x00B0),
        Write(Nine, B + BLDCNT, Half, 0x00F0),
        NextFrame,
        Pixel(Upper, 0, 0,  0x0010),
        Pixel(Upper, 0, 8,  0x3DF7),
        Pixel(Upper, 0, 16, 0x3DF7),
        Pixel(Lower, 0, 0,  0x0010),
        Pixel(Lower, 0, 8,  0x4210),
        Pixel(Lower, 0, 16, 0x4210),
        // 31 acts as 16
        Write(Nine, BLDY,       Half, 0x1F),
        Write(Nine, B + BLDY,   Half, 0x1F),
        NextFrame,
        Pixel(Upper, 0, 16, 0x7FFF),
        Pixel(Lower, 0, 16, 0x0000),
    ])
}

// The object has 31, 0 and 0, BG0 has 0, 31 and 0, BG1 has 0, 0 and 31; both factors are 8.
#[test]
#[rattlefmt::skip]
fn semi_transparent_objects_are_blended_over_second_targets(rt: HostRuntime) -> Result<(), AllocError> {
    try_lines(&rt, rt.alloc(), &[
        // Colour(index, colour)   Write(processor, register, width, value)   Layers(engine, DISPCNT, BG0CNT, BG1CNT, BG2CNT, BG3CNT)
        // Object(index, attributes 0, 1 and 2)   Pixel(screen, line, place, colour)
        Backgrounds, Objects, Colour(0x11, 0x03E0), Colour(0x21, 0x7C00), Colour(0x101, 0x001F), Colour(0x102, 0x03FF),
        Write(Nine, POWCNT1, Half, 0x8202),
        Layers(A, 0x1_1300, 0x0005, 0x0106, 0, 0),
        // over BG0, and over BG1 in the second entry, where BG0 is transparent
        Object(0, 0x0400, 4,  0),
        // it isn't blended with the object below it, which is no layer of its own
        Object(1, 0x0400, 32, 0),
        Object(2, 0x0000, 32, 2),
        // an object that isn't semi-transparent
        Object(3, 0x0000, 48, 0),
        // BG1 is a second target; objects are no first targets, and there is no effect
        Write(Nine, BLDCNT,  Word, 0x0808_0200),
        ToLine(192),
        Pixel(Upper, 0, 4,  0x001F),
        Pixel(Upper, 0, 8,  0x3C0F),
        Pixel(Upper, 0, 32, 0x001F),
        Pixel(Upper, 0, 48, 0x001F),
        // BG0 is one; the effect is darkening objects: that over BG0 is blended, that over BG1 is made darker
        Write(Nine, BLDCNT,  Word, 0x0808_01D0),
        Write(Nine, BLDY,    Half, 16),
        NextFrame,
        Pixel(Upper, 0, 4,  0x01EF),
        Pixel(Upper, 0, 8,  0x0000),
        Pixel(Upper, 0, 32, 0x01EF),
        Pixel(Upper, 0, 48, 0x0000),
        // alpha blending of objects over BG0: all objects there are blended, and over BG1 none
        Write(Nine, BLDCNT,  Word, 0x0808_0150),
        NextFrame,
        Pixel(Upper, 0, 4,  0x01EF),
        Pixel(Upper, 0, 8,  0x001F),
        Pixel(Upper, 0, 48, 0x01EF),
        // behind BG0 it makes nothing blended
        Layers(A, 0x1_1300, 0x0004, 0x0106, 0, 0),
        Object(0, 0x0400, 0,  0x0400),
        Write(Nine, BLDCNT,  Word, 0x0808_1000),
        NextFrame,
        Pixel(Upper, 0, 0,  0x03E0),
        // but where BG0 is a first target it is blended with objects
        Write(Nine, BLDCNT,  Word, 0x0808_1041),
        NextFrame,
        Pixel(Upper, 0, 0,  0x01EF),
    ])
}

#[test]
#[rattlefmt::skip]
fn master_brightness_comes_last(rt: HostRuntime) -> Result<(), AllocError> {
    try_lines(&rt, rt.alloc(), &[
        // Colour(index, colour)   Write(processor, register, width, value)   Layers(engine, DISPCNT, BG0CNT, BG1CNT, BG2CNT, BG3CNT)
        // Pixel(screen, line, place, colour)
        Backgrounds, Colour(0x00, 0x0010), Colour(0x211, 0x0010),
        Write(Nine, POWCNT1,           Half, 0x8202),
        // A: brighter by half, 23, 15 and 15, and then darker by half: 12, 8 and 8
        Layers(A, 0x1_0000, 0,      0, 0, 0),
        Write(Nine, BLDCNT,            Half, 0x00A0),
        Write(Nine, BLDY,              Half, 8),
        Write(Nine, MASTER_BRIGHT,     Half, 0x8008),
        // B: up by half, without an effect
        Layers(B, 0x1_0100, 0x0004, 0, 0, 0),
        Write(Nine, B + MASTER_BRIGHT, Half, 0x4008),
        ToLine(192),
        Pixel(Upper, 0, 0, 0x210C),
        Pixel(Lower, 0, 0, 0x3DF7),
        // on forced blank and in display mode 0 too: 31 becomes 16
        Write(Nine, DISPCNT,           Word, 0x1_0080),
        Write(Nine, B + DISPCNT,       Word, 0),
        Write(Nine, B + MASTER_BRIGHT, Half, 0x8010),
        NextFrame,
        Pixel(Upper, 0, 0, 0x4210),
        Pixel(Lower, 0, 0, 0x0000),
        // modes 0 and 3 change nothing; a disabled engine stays 0
        Write(Nine, MASTER_BRIGHT,     Half, 0xC010),
        Write(Nine, B + MASTER_BRIGHT, Half, 0x4010),
        Write(Nine, POWCNT1,           Half, 0x8002),
        NextFrame,
        Pixel(Upper, 0, 0, 0x7FFF),
        Pixel(Lower, 0, 0, 0x0000),
        Write(Nine, MASTER_BRIGHT,     Half, 0x0010),
        NextFrame,
        Pixel(Upper, 0, 0, 0x7FFF),
    ])
}

// BG0 has 8 red, and is transparent in places 8 to 15; objects have 16 red. BG1 has 4021h, BG3 4041h, the backdrop 4000h.
#[test]
#[rattlefmt::skip]
fn lines_without_effects_show_the_front_layer(rt: HostRuntime) -> Result<(), AllocError> {
    try_lines(&rt, rt.alloc(), &[
        // Colour(index, colour)   Write(processor, register, width, value)   Layers(engine, DISPCNT, BG0CNT, BG1CNT, BG2CNT, BG3CNT)
        // Pixel(screen, line, place, colour)   Object(index, attributes 0, 1 and 2)
        Backgrounds, Objects, Colour(0x11, 0x0008), Colour(0x101, 0x0010),
        Write(Nine, POWCNT1, Half, 0x8202),
        // without objects: BG0 before BG1 of its priority, and BG3 behind both
        Layers(A, 0x1_0B00, 0x0005, 0x0105, 0, 0x0306),
        ToLine(192),
        Pixel(Upper, 0, 16, 0x0008),
        Pixel(Upper, 0, 8,  0x4021),
        // BG3 before BG1
        Layers(A, 0x1_0B00, 0x0005, 0x0106, 0, 0x0305),
        NextFrame,
        Pixel(Upper, 0, 16, 0x0008),
        Pixel(Upper, 0, 8,  0x4041),
        // the same with one window, of places 16 to 30 of line 0: it shows BG1 alone
        Write(Nine, WIN0H,   Half, 0x101F),
        Write(Nine, WIN0V,   Half, 0x0001),
        Write(Nine, WININ,   Word, 0x003F_0002),
        Layers(A, 0x1_2B00, 0x0005, 0x0106, 0, 0x0305),
        NextFrame,
        Pixel(Upper, 0, 16, 0x4021),
        Pixel(Upper, 0, 31, 0x0008),
        Pixel(Upper, 1, 16, 0x0008),
        // objects alone
        Layers(A, 0x1_1000, 0,      0,      0, 0),
        Object(0, 0,      20, 0),
        NextFrame,
        Pixel(Upper, 0, 19, 0x4000),
        Pixel(Upper, 0, 20, 0x0010),
        Pixel(Upper, 0, 27, 0x0010),
        Pixel(Upper, 0, 28, 0x4000),
        // an object before BG0, of the same priority, and behind it
        Layers(A, 0x1_1100, 0x0005, 0,      0, 0),
        Object(0, 0,      20, 0x0400),
        Object(1, 0,      40, 0x0800),
        NextFrame,
        Pixel(Upper, 0, 20, 0x0010),
        Pixel(Upper, 0, 40, 0x0008),
        // a semi-transparent one isn't blended where no layer is a second target
        Object(0, 0x0400, 20, 0x0400),
        Write(Nine, BLDCNT,  Word, 0x0808_0000),
        NextFrame,
        Pixel(Upper, 0, 20, 0x0010),
        // and is over one, half and half, though there is no effect
        Write(Nine, BLDCNT,  Word, 0x0808_0100),
        NextFrame,
        Pixel(Upper, 0, 20, 0x000C),
        // brighter, but without a first target
        Layers(A, 0x1_0100, 0x0005, 0,      0, 0),
        Write(Nine, BLDCNT,  Word, 0x0808_0080),
        Write(Nine, BLDY,    Half, 16),
        NextFrame,
        Pixel(Upper, 0, 20, 0x0008),
        Pixel(Upper, 0, 8,  0x4000),
    ])
}
