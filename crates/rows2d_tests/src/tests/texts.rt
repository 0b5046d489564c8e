//! Text backgrounds.

use super::{Line, try_lines};
use Line::{Control, Entry, Fill, Scrolled, Text, Write};
use Space::{ABg, ABgPalette, BBg, BBgPalette};
use Width::{Byte, Half, Word};
use ds_base::{Space, Width};
use std::alloc::AllocError;

// Size 3 has 512 by 512 points: with both scrolls 511 the last point of all, in block 3, is at the left of line 0. Tiles begin at 16K.
#[test]
fn blocks_stand_left_to_right_then_down(rt: HostRuntime) -> Result<(), AllocError> {
    try_lines(
        &rt,
        rt.alloc(),
        &[
            Control(0, 0x81),
            // the entry at the corner of each block that the others touch, and the first entry of each
            Write(ABg, 0x0000, Half, 1),
            Write(ABg, 0x0800, Half, 2),
            Write(ABg, 0x1000, Half, 3),
            Write(ABg, 0x1800, Half, 4),
            Write(ABg, 0x083e, Half, 6),
            Write(ABg, 0x17c0, Half, 7),
            Write(ABg, 0x1ffe, Half, 8),
            Write(ABg, 0x0044, Half, 9),
            Fill(ABg, 0x4020, 8, 0x1111_1111),
            Fill(ABg, 0x4040, 8, 0x2222_2222),
            Fill(ABg, 0x4060, 8, 0x3333_3333),
            Fill(ABg, 0x4080, 8, 0x4444_4444),
            Fill(ABg, 0x40a0, 8, 0x5555_5555),
            Fill(ABg, 0x40c0, 8, 0x6666_6666),
            Fill(ABg, 0x40e0, 8, 0x7777_7777),
            Fill(ABg, 0x4100, 8, 0x8888_8888),
            Fill(ABg, 0x4120, 8, 0x9999_9999),
            Scrolled(3, 511, 511, 0, 0, 0xc008),
            Scrolled(3, 511, 511, 0, 1, 0xc007),
            Scrolled(3, 511, 511, 1, 0, 0xc006),
            Scrolled(3, 511, 511, 1, 1, 0xc001),
            Scrolled(0, 0, 0, 0, 0, 0xc001),
            Scrolled(0, 256, 0, 0, 0, 0xc001),
            Scrolled(0, 0, 256, 0, 0, 0xc001),
            Scrolled(0, 511, 255, 1, 1, 0xc001),
            Scrolled(1, 0, 0, 0, 0, 0xc001),
            Scrolled(1, 256, 0, 0, 0, 0xc002),
            Scrolled(1, 0, 256, 0, 0, 0xc001),
            Scrolled(1, 512, 0, 0, 0, 0xc001),
            Scrolled(2, 0, 0, 0, 0, 0xc001),
            Scrolled(2, 256, 0, 0, 0, 0xc001),
            Scrolled(2, 0, 256, 0, 0, 0xc002),
            Scrolled(2, 0, 511, 1, 0, 0xc001),
            Scrolled(3, 256, 0, 0, 0, 0xc002),
            Scrolled(3, 0, 256, 0, 0, 0xc003),
            Scrolled(3, 256, 256, 0, 0, 0xc004),
            Scrolled(3, 256, 0, 0, 255, 0xc006),
            Scrolled(3, 1, 0, 0, 255, 0xc002),
            Scrolled(3, 0, 0, 8, 16, 0xc009),
            Scrolled(3, 0, 0, 15, 23, 0xc009),
            Scrolled(3, 9, 3, 5, 7, 0xc009),
            Scrolled(0, 0xfe0a, 0xff07, 1, 13, 0xc009),
        ],
    )
}

// A tile whose first row is 1 to 8 and whose last is 9 to 15 and 0; with 256 colours its first four bytes are a row's first half.
#[test]
fn an_entry_has_a_tile_flips_and_a_palette(rt: HostRuntime) -> Result<(), AllocError> {
    try_lines(
        &rt,
        rt.alloc(),
        &[
            Control(0, 0x81),
            Write(ABg, 0x4020, Word, 0x8765_4321),
            Write(ABg, 0x403c, Word, 0x0fed_cba9),
            Write(ABg, 0xbfe0, Byte, 0xd0),
            Write(ABg, 0x8080, Word, 0xa403_0201),
            Write(ABg, 0x80b8, Word, 0x0000_0091),
            Entry(0x0001, 0x0004, 0, 0, 0xc001),
            Entry(0x0001, 0x0004, 0, 1, 0xc002),
            Entry(0x0001, 0x0004, 0, 7, 0xc008),
            Entry(0x0001, 0x0004, 7, 0, 0xc009),
            Entry(0x0001, 0x0004, 7, 6, 0xc00f),
            Entry(0x0001, 0x0004, 7, 7, 0),
            Entry(0x0001, 0x0004, 1, 0, 0),
            Entry(0x0401, 0x0004, 0, 0, 0xc008),
            Entry(0x0401, 0x0004, 0, 6, 0xc002),
            Entry(0x0801, 0x0004, 0, 0, 0xc009),
            Entry(0x0801, 0x0004, 7, 1, 0xc002),
            Entry(0x0c01, 0x0004, 0, 0, 0),
            Entry(0x0c01, 0x0004, 0, 1, 0xc00f),
            Entry(0x0c01, 0x0004, 7, 7, 0xc001),
            Entry(0x3001, 0x0004, 0, 2, 0xc033),
            Entry(0xf001, 0x0004, 7, 6, 0xc0ff),
            Entry(0xf001, 0x0004, 7, 7, 0),
            Entry(0x03ff, 0x0004, 0, 0, 0),
            Entry(0x03ff, 0x0004, 0, 1, 0xc00d),
            // priority, mosaic and, without extended palettes, bit 13 change nothing
            Entry(0x0001, 0x2047, 0, 3, 0xc004),
            // 256 colours: the entry's palette counts for nothing
            Entry(0x0002, 0x0088, 0, 0, 0xc001),
            Entry(0x0002, 0x0088, 0, 3, 0xc0a4),
            Entry(0x0402, 0x0088, 0, 4, 0xc0a4),
            Entry(0x0802, 0x0088, 0, 0, 0xc091),
            Entry(0x5002, 0x0088, 0, 2, 0xc003),
            Entry(0x5002, 0x0088, 0, 4, 0),
            // all ten bits of its tile count there too: 3FFh at 8000h + FFC0h
            Write(ABg, 0x1_7fc0, Byte, 0x3d),
            Entry(0x03ff, 0x0088, 0, 0, 0xc03d),
            Entry(0x01ff, 0x0088, 0, 0, 0),
        ],
    )
}

// Engine A adds steps of 64K by DISPCNT, which are exact sums, taken by remainder of 512K; engine B has none.
#[test]
fn maps_and_tiles_have_bases(rt: HostRuntime) -> Result<(), AllocError> {
    try_lines(
        &rt,
        rt.alloc(),
        &[
            Control(0, 0x81),
            Control(1, 0x89),
            Control(2, 0x91),
            Control(3, 0x99),
            Control(7, 0x81),
            Write(ABg, 0x0000, Half, 1),
            Write(ABg, 0x0800, Half, 2),
            Write(ABg, 0xf800, Half, 3),
            Write(ABg, 0x1_0000, Half, 4),
            Write(ABg, 0x7_f800, Half, 5),
            Write(ABg, 0x7_0800, Half, 6),
            Write(BBg, 0x0800, Half, 1),
            Write(BBg, 0x4020, Byte, 0x0b),
            Write(ABg, 0x4020, Byte, 1),
            Write(ABg, 0x4040, Byte, 2),
            Write(ABg, 0x4060, Byte, 3),
            Write(ABg, 0x4080, Byte, 4),
            Write(ABg, 0x40a0, Byte, 5),
            Write(ABg, 0x40c0, Byte, 6),
            Write(ABg, 0x3c020, Byte, 7),
            Write(ABg, 0x14020, Byte, 8),
            Write(ABg, 0x2c020, Byte, 9),
            Text(0, 0, 0, 0x0004, 0, 0xc001),
            Text(0, 0, 0, 0x0104, 0, 0xc002),
            Text(0, 0, 0, 0x1f04, 0, 0xc003),
            Text(0, 0, 0x0800_0000, 0x0004, 0, 0xc004),
            Text(0, 0, 0x3800_0000, 0x1f04, 0, 0xc005),
            Text(0, 0, 0x3800_0000, 0x0104, 0, 0xc006),
            Text(0, 0, 0, 0x003c, 0, 0xc007),
            Text(0, 0, 0x0100_0000, 0x0004, 0, 0xc008),
            Text(0, 0, 0x0700_0000, 0x003c, 0, 0xc009),
            Text(0, 0, 0xc0ff_ffff, 0x0004, 0, 0xc001),
            Text(1, 0, 0x3f00_0000, 0x0104, 0, 0xc00b),
        ],
    )
}

// Slot n has 8K, of sixteen palettes of 512 bytes; its colour here is 100h + n. Bit 13 adds 2 to the slot of backgrounds 0 and 1.
#[test]
fn extended_palettes_have_slots(rt: HostRuntime) -> Result<(), AllocError> {
    try_lines(
        &rt,
        rt.alloc(),
        &[
            Control(0, 0x81),
            Control(2, 0x84),
            Control(4, 0x84),
            Control(7, 0x82),
            Write(ABg, 0, Half, 0x5001),
            Write(ABg, 0x4040, Half, 0x0007),
            Write(ABg, 0x4020, Byte, 0x03),
            Write(BBg, 0, Half, 0x5001),
            Write(BBg, 0x4040, Half, 0x0007),
            Write(BBg, 0x4020, Byte, 0x03),
            Write(ABgPalette, 0xa0e, Half, 0x100),
            Write(BBgPalette, 0xa0e, Half, 0x8200),
            Write(ABgPalette, 0xa00, Half, 0x7fff),
            Write(ABgPalette, 0x2a0e, Half, 0x101),
            Write(BBgPalette, 0x2a0e, Half, 0x8201),
            Write(ABgPalette, 0x2a00, Half, 0x7fff),
            Write(ABgPalette, 0x4a0e, Half, 0x102),
            Write(BBgPalette, 0x4a0e, Half, 0x8202),
            Write(ABgPalette, 0x4a00, Half, 0x7fff),
            Write(ABgPalette, 0x6a0e, Half, 0x103),
            Write(BBgPalette, 0x6a0e, Half, 0x8203),
            Write(ABgPalette, 0x6a00, Half, 0x7fff),
            Text(0, 0, 0x4000_0000, 0x0084, 0, 0x8100),
            Text(0, 1, 0x4000_0000, 0x0084, 0, 0x8101),
            Text(0, 2, 0x4000_0000, 0x0084, 0, 0x8102),
            Text(0, 3, 0x4000_0000, 0x0084, 0, 0x8103),
            Text(0, 0, 0x4000_0000, 0x2084, 0, 0x8102),
            Text(0, 1, 0x4000_0000, 0x2084, 0, 0x8103),
            Text(0, 2, 0x4000_0000, 0x2084, 0, 0x8102),
            Text(0, 3, 0x4000_0000, 0x2084, 0, 0x8103),
            Text(1, 0, 0x4000_0000, 0x2084, 0, 0x8202),
            Text(1, 3, 0x4000_0000, 0x0084, 0, 0x8203),
            // palettes 13 and 15, whose lower three bits are those of 5 and 7
            Write(ABgPalette, 0x1a0e, Half, 0x0110),
            Write(ABgPalette, 0x7e0e, Half, 0x0111),
            Write(ABg, 0, Half, 0xd001),
            Text(0, 0, 0x4000_0000, 0x0084, 0, 0x8110),
            Write(ABg, 0, Half, 0xf001),
            Text(0, 3, 0x4000_0000, 0x0084, 0, 0x8111),
            Write(ABg, 0, Half, 0x5001),
            // index 0 is transparent here too; without bit 30, and with 16 colours, the standard palette counts
            Text(0, 0, 0x4000_0000, 0x0084, 1, 0),
            Text(0, 0, 0x8000_0000, 0x0084, 0, 0xc007),
            Text(0, 0, 0x4000_0000, 0x0004, 0, 0xc053),
        ],
    )
}
