//! Objects among the layers. `Stage::backgrounds` and `Stage::objects` say what video memory holds: BG0 has colour 11h and BG1 21h of the palette for
//! backgrounds, and an object with tile 0 has colour 1 of its palette, and with tile 2 colour 2.

use super::registers::{A, B, DISPCNT, POWCNT1};
use super::{Line, Screen, try_lines};
use Line::{
    Backgrounds, Bank, Colour, Fill, Layers, NextFrame, Object, Objects, Pixel, ToLine, Write,
};
use Proc::Nine;
use Screen::{Lower, Upper};
use Width::{Half, Word};
use ds_base::{Proc, Width};
use std::alloc::AllocError;

#[test]
#[rattlefmt::skip]
fn objects_lie_before_backgrounds_of_their_priority(rt: HostRuntime) -> Result<(), AllocError> {
    try_lines(&rt, rt.alloc(), &[
        // Write(processor, register, width, value)   Layers(engine, DISPCNT, BG0CNT, BG1CNT, BG2CNT, BG3CNT)   Colour(index, colour)
        // Object(index, attributes 0, 1 and 2)   Pixel(screen, line, place, colour)
        Backgrounds, Objects,
        Write(Nine, POWCNT1, Half, 0x8202),
        // BG0 has priority 1, BG1 priority 2; engine B has no backgrounds
        Layers(A, 0x1_1300, 0x0005, 0x0106, 0, 0),
        Layers(B, 0x1_1000, 0,      0,      0, 0),
        // bit 15 of a colour counts for nothing
        Colour(0x101, 0x9234), Colour(0x111, 0x0056), Colour(0x301, 0x0789),
        Object(0,   0,    16,    0x0400),
        Object(1,   0,    32,    0x0800),
        Object(2,   0,    48,    0x0000),
        Object(3,   0,    64,    0x0C00),
        // two at one place: of equal priorities the lower index, of others the lesser priority
        Object(4,   0,    80,    0x0400),
        Object(5,   0,    80,    0x1400),
        Object(6,   0,    96,    0x1400),
        Object(7,   0,    96,    0x0000),
        // an object behind the background hides none before it
        Object(8,   0,    112,   0x0800),
        Object(9,   0,    112,   0x1400),
        // of tile 3 the right half is transparent
        Object(10,  0,    128,   0x0003),
        // the lower of two is transparent
        Object(11,  0,    144,   0x0001),
        Object(12,  0,    144,   0x1400),
        // right edge and left edge
        Object(13,  0,    0x1FC, 0),
        Object(14,  0x10, 252,   0),
        // behind BG0 where that is opaque; in the second entry, where it is transparent, before BG1 of its priority
        Object(15,  0,    8,     0x0800),
        Object(128, 0,    0,     0x0C00),
        ToLine(192),
        Pixel(Upper, 0,  16,  0x1234),
        Pixel(Upper, 7,  23,  0x1234),
        Pixel(Upper, 8,  16,  0x4011),
        Pixel(Upper, 0,  24,  0x4011),
        Pixel(Upper, 0,  32,  0x4011),
        Pixel(Upper, 0,  48,  0x1234),
        Pixel(Upper, 0,  64,  0x4011),
        Pixel(Upper, 0,  80,  0x1234),
        Pixel(Upper, 0,  96,  0x1234),
        Pixel(Upper, 0,  112, 0x0056),
        Pixel(Upper, 0,  131, 0x1234),
        Pixel(Upper, 0,  132, 0x4011),
        Pixel(Upper, 0,  144, 0x0056),
        Pixel(Upper, 0,  3,   0x1234),
        Pixel(Upper, 0,  4,   0x4011),
        Pixel(Upper, 16, 251, 0x4011),
        Pixel(Upper, 16, 255, 0x1234),
        Pixel(Upper, 0,  8,   0x1234),
        Pixel(Upper, 8,  8,   0x4021),
        Pixel(Lower, 0,  0,   0x0789),
        Pixel(Lower, 0,  8,   0x2000),
        // without DISPCNT bit 12 none is shown
        Write(Nine, DISPCNT, Word, 0x1_0300),
        NextFrame,
        Pixel(Upper, 0,  16,  0x4011),
        Pixel(Upper, 0,  48,  0x4011),
    ])
}

// Object 0 is 16 by 16 and has 16 colours; object 1 is 8 by 8 and has 256; its palette number is 2.
#[test]
#[rattlefmt::skip]
fn boundaries_and_extended_palettes_of_objects(rt: HostRuntime) -> Result<(), AllocError> {
    try_lines(&rt, rt.alloc(), &[
        // Bank(bank, control)   Fill(space, address, words, value)   Colour(index, colour)   Write(processor, register, width, value)
        // Layers(engine, DISPCNT, BG0CNT, BG1CNT, BG2CNT, BG3CNT)   Object(index, attributes 0, 1 and 2)
        // Pixel(screen, line, place, colour)
        Objects,
        // bank F, of 16K, is engine A's extended palette for objects, and bank I engine B's
        Bank(b'F', 0x85), Bank(b'I', 0x83),
        Fill(ds_base::Space::AObjPalette, 0x400 + 0x44, 1, 0x0A0B_0C0D),
        Fill(ds_base::Space::BObjPalette, 0x400 + 0x44, 1, 0x0102_0304),
        Colour(0x101, 0x0011), Colour(0x102, 0x0022), Colour(0x122, 0x0033), Colour(0x302, 0x0044), Colour(0x322, 0x0055),
        Write(Nine, POWCNT1, Half, 0x8202),
        // two dimensions: tile 1 lies right of tile 0, and tile 32 below
        Layers(A, 0x1_1000,    0, 0, 0, 0),
        Layers(B, 0x1_1000,    0, 0, 0, 0),
        Object(0,   0,      0x4000, 0),
        // 256 colours: tile number 2 counts in units of 32 bytes; all indices are 22h
        Object(1,   0x2000, 32,     0x2002),
        Object(128, 0x2000, 32,     0x2002),
        ToLine(192),
        Pixel(Upper, 0, 0,  0x0011),
        Pixel(Upper, 0, 8,  0x4000),
        Pixel(Upper, 0, 32, 0x0033),
        Pixel(Lower, 0, 32, 0x0055),
        // with extended palettes: colour 22h of palette 2
        Layers(A, 0x8001_1000, 0, 0, 0, 0),
        Layers(B, 0x8001_1000, 0, 0, 0, 0),
        NextFrame,
        Pixel(Upper, 0, 32, 0x0C0D),
        Pixel(Lower, 0, 32, 0x0304),
        // 16 colours have the standard palette still
        Pixel(Upper, 0, 0,  0x0011),
        // one dimension: tiles 0, 1, 2, 3 of the object follow one another
        Layers(A, 0x1_1010,    0, 0, 0, 0),
        NextFrame,
        Pixel(Upper, 0, 0,  0x0011),
        Pixel(Upper, 0, 8,  0x4000),
        Pixel(Upper, 8, 0,  0x0022),
        Pixel(Upper, 8, 11, 0x0011),
        Pixel(Upper, 8, 12, 0x4000),
        // the boundary is 64 bytes: tile number 1 begins at tile 2
        Layers(A, 0x11_1010,   0, 0, 0, 0),
        Layers(B, 0x11_1010,   0, 0, 0, 0),
        Object(0,   0,      0,      1),
        Object(128, 0,      0,      1),
        NextFrame,
        Pixel(Upper, 0, 0,  0x0022),
        Pixel(Lower, 0, 0,  0x0044),
        // and 128 bytes: tile number 1 begins at tile 4, which is transparent
        Layers(A, 0x21_1010,   0, 0, 0, 0),
        NextFrame,
        Pixel(Upper, 0, 0,  0x4000),
        Pixel(Lower, 0, 0,  0x0044),
    ])
}
