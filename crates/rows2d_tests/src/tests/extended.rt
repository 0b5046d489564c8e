//! Extended backgrounds and banks that are shown as they lie. Colour i of the standard palette has the pixel C000h + i.

use super::{Line, try_lines};
use Line::{Bank, Control, Count, Extended, Write};
use Space::{ABg, ABgPalette, BBg, BBgPalette, Lcdc};
use Width::{Byte, Half};
use ds_base::{Space, Width};
use std::alloc::AllocError;

// A bitmap of halves of 256 by 256: line 2 begins at 2 * 2 * 256 = 400h, so that its pixel 3 is at 406h.
#[test]
fn halves_are_opaque_by_their_bit_15(rt: HostRuntime) -> Result<(), AllocError> {
    try_lines(
        &rt,
        rt.alloc(),
        &[
            Control(0, 0x81),
            Write(ABg, 0x406, Half, 0x801f),
            Extended(0, 2, 0, 0x4084, 0, 0x200, 0x100, 0, 3, 0x801f),
            Extended(0, 2, 0, 0x4084, 0, 0x200, 0x100, 0, 2, 0),
            // slanted, half as large, the other way round, from the side
            Extended(0, 3, 0, 0x4084, 0, 0, 0x100, 0xab, 3, 0x801f),
            Extended(0, 2, 0, 0x4084, 0, 0x2ff, 0x80, 0, 6, 0x801f),
            Extended(0, 2, 0, 0x4084, 0, 0x2ff, 0x80, 0, 8, 0),
            Extended(0, 2, 0, 0x4084, 0x800, 0x200, -0x100, 0, 5, 0x801f),
            Extended(0, 2, 0, 0x4084, 0x300, 0, 0, 0x100, 2, 0x801f),
            Extended(0, 2, 0, 0x4084, 0x300, 0, 0, 0x100, 3, 0),
            Write(ABg, 0x406, Half, 0x001f),
            Extended(0, 2, 0, 0x4084, 0, 0x200, 0x100, 0, 3, 0),
            Write(ABg, 0x406, Half, 0x7fff),
            Extended(0, 2, 0, 0x4084, 0, 0x200, 0x100, 0, 3, 0),
            Write(ABg, 0x406, Half, 0x8000),
            Extended(0, 2, 0, 0x4084, 0, 0x200, 0x100, 0, 3, 0x8000),
            Write(ABg, 0x406, Half, 0xffff),
            Extended(0, 2, 0, 0x4084, 0, 0x200, 0x100, 0, 3, 0xffff),
            // priority, mosaic, and DISPCNT change nothing
            Extended(0, 2, 0x7fff_ffff, 0x40c7, 0, 0x200, 0x100, 0, 3, 0xffff),
        ],
    )
}

// Bank A to D give engine A 512K. The last half of each size, and that at the left of line 1, which tells the width.
#[test]
fn bitmaps_of_halves_have_four_sizes(rt: HostRuntime) -> Result<(), AllocError> {
    try_lines(
        &rt,
        rt.alloc(),
        &[
            Control(0, 0x81),
            Control(1, 0x89),
            Control(2, 0x91),
            Control(3, 0x99),
            Write(ABg, 0x7ffe, Half, 0x8001),
            Write(ABg, 0x1_fffe, Half, 0x8002),
            Write(ABg, 0x3_fffe, Half, 0x8003),
            Write(ABg, 0x7_fffe, Half, 0x8004),
            Write(ABg, 0x100, Half, 0x8011),
            Write(ABg, 0x200, Half, 0x8012),
            Write(ABg, 0x400, Half, 0x8013),
            Extended(0, 2, 0, 0x0084, 0x7f00, 0x7f00, 0x100, 0, 0, 0x8001),
            Extended(0, 2, 0, 0x0084, 0x7f00, 0x7f00, 0x100, 0, 1, 0),
            Extended(0, 2, 0, 0x0084, 0x7f00, 0x7f00, 0, 0x100, 1, 0),
            Extended(0, 2, 0, 0x0084, 0, 0x100, 0x100, 0, 0, 0x8011),
            Extended(0, 2, 0, 0x4084, 0xff00, 0xff00, 0x100, 0, 0, 0x8002),
            Extended(0, 2, 0, 0x4084, 0xff00, 0xff00, 0x100, 0, 1, 0),
            Extended(0, 2, 0, 0x4084, 0xff00, 0x1_0000, 0x100, 0, 0, 0),
            Extended(0, 2, 0, 0x4084, 0, 0x100, 0x100, 0, 0, 0x8012),
            Extended(0, 3, 0, 0x8084, 0x1_ff00, 0xff00, 0x100, 0, 0, 0x8003),
            Extended(0, 3, 0, 0x8084, 0x1_ff00, 0xff00, 0x100, 0, 1, 0),
            Extended(0, 3, 0, 0x8084, 0x1_ff00, 0x1_0000, 0x100, 0, 0, 0),
            Extended(0, 3, 0, 0x8084, 0, 0, 0, 0x100, 1, 0x8013),
            Extended(0, 3, 0, 0xc084, 0x1_ff00, 0x1_ff00, 0x100, 0, 0, 0x8004),
            Extended(0, 3, 0, 0xc084, 0x1_ff00, 0x1_ff00, 0x100, 0, 1, 0),
            Extended(0, 3, 0, 0xc084, 0x1_ff00, 0x2_0000, 0x100, 0, 0, 0),
            Extended(0, 3, 0, 0xc084, 0, 0x100, 0x100, 0, 0, 0x8013),
        ],
    )
}

#[test]
fn bitmaps_of_bytes_have_four_sizes_and_the_standard_palette(
    rt: HostRuntime,
) -> Result<(), AllocError> {
    try_lines(
        &rt,
        rt.alloc(),
        &[
            Control(0, 0x81),
            Control(1, 0x89),
            Write(ABg, 0x3fff, Byte, 0x21),
            Write(ABg, 0xffff, Byte, 0x22),
            Write(ABg, 0x1_ffff, Byte, 0x23),
            Write(ABg, 0x3_ffff, Byte, 0xff),
            Write(ABg, 0x80, Byte, 0x31),
            Write(ABg, 0x100, Byte, 0x32),
            Write(ABg, 0x200, Byte, 0x33),
            Extended(0, 2, 0, 0x0080, 0x7f00, 0x7f00, 0x100, 0, 0, 0xc021),
            Extended(0, 2, 0, 0x0080, 0x7f00, 0x7f00, 0x100, 0, 1, 0),
            Extended(0, 2, 0, 0x0080, 0, 0x100, 0x100, 0, 0, 0xc031),
            Extended(0, 2, 0, 0x4080, 0xff00, 0xff00, 0x100, 0, 0, 0xc022),
            Extended(0, 2, 0, 0x4080, 0xff00, 0x1_0000, 0x100, 0, 0, 0),
            Extended(0, 2, 0, 0x4080, 0, 0x100, 0x100, 0, 0, 0xc032),
            Extended(0, 2, 0, 0x8080, 0x1_ff00, 0xff00, 0x100, 0, 0, 0xc023),
            Extended(0, 2, 0, 0x8080, 0x1_ff00, 0x1_0000, 0x100, 0, 0, 0),
            Extended(0, 2, 0, 0x8080, 0, 0, 0, 0x100, 1, 0xc033),
            Extended(0, 2, 0, 0xc080, 0x1_ff00, 0x1_ff00, 0x100, 0, 0, 0xc0ff),
            Extended(0, 2, 0, 0xc080, 0x1_ff00, 0x1_ff00, 0x100, 0, 1, 0),
            Extended(0, 2, 0, 0xc080, 0, 0x100, 0x100, 0, 0, 0xc033),
            // index 0 is transparent, though the palette has a colour there
            Extended(0, 2, 0, 0x4080, 0, 0, 0x100, 0, 0, 0),
            Extended(0, 2, 0, 0x4080, 0, 0, 0x100, 1, 0, 0),
            Write(ABg, 0, Byte, 1),
            Extended(0, 2, 0, 0x4080, 0, 0, 0x100, 0, 0, 0xc001),
            Extended(0, 2, 0, 0x4080, 0, 0, 0x100, 1, 0, 0xc001),
            // bitmaps have no extended palettes
            Extended(0, 2, 0x4000_0000, 0x4080, 0, 0, 0x100, 0, 0, 0xc001),
        ],
    )
}

// 512 by 256 halves: each way the background begins again by its own size.
#[test]
fn bitmaps_wrap_at_each_edge_where_bit_13_is_set(rt: HostRuntime) -> Result<(), AllocError> {
    try_lines(
        &rt,
        rt.alloc(),
        &[
            Control(0, 0x81),
            Control(1, 0x89),
            Write(ABg, 0, Half, 0x8001),
            Write(ABg, 0x3fe, Half, 0x8002),
            Write(ABg, 0x3_fc00, Half, 0x8003),
            Write(ABg, 0x3_fffe, Half, 0x8004),
            Extended(0, 2, 0, 0x8084, -0x100, 0, 0x100, 0, 0, 0),
            Extended(0, 2, 0, 0x8084, -0x100, 0, 0x100, 0, 1, 0x8001),
            Extended(0, 2, 0, 0x8084, -1, 0, 0x100, 0, 0, 0),
            Extended(0, 2, 0, 0x8084, 0, -1, 0x100, 0, 0, 0),
            Extended(0, 2, 0, 0x8084, 0x1_ff00, 0, 0x100, 0, 0, 0x8002),
            Extended(0, 2, 0, 0x8084, 0x1_ff00, 0, 0x100, 0, 1, 0),
            Extended(0, 2, 0, 0x8084, 0, 0xff00, 0, 0x100, 0, 0x8003),
            Extended(0, 2, 0, 0x8084, 0, 0xff00, 0, 0x100, 1, 0),
            Extended(0, 2, 0, 0xa084, -0x100, 0, 0x100, 0, 0, 0x8002),
            Extended(0, 2, 0, 0xa084, -1, 0, 0x100, 0, 0, 0x8002),
            Extended(0, 2, 0, 0xa084, 0x1_ff00, 0, 0x100, 0, 1, 0x8001),
            Extended(0, 2, 0, 0xa084, 0, -0x100, 0x100, 0, 0, 0x8003),
            Extended(0, 2, 0, 0xa084, 0, 0xff00, 0, 0x100, 1, 0x8001),
            Extended(0, 2, 0, 0xa084, -0x100, -0x100, 0x100, 0, 0, 0x8004),
            Extended(0, 2, 0, 0xa084, -0x2_0000, -0x1_0000, 0x100, 0, 0, 0x8001),
            Extended(0, 2, 0, 0xa084, 0x400_0000, 0x400_0000, 0x100, 0, 0, 0x8001),
        ],
    )
}

// Bases of bitmaps: 16K steps of bits 8 to 12 alone. The last one of engine A begins 16K before its space's end, where its space begins again.
#[test]
fn bases_of_bitmaps_take_nothing_from_dispcnt(rt: HostRuntime) -> Result<(), AllocError> {
    try_lines(
        &rt,
        rt.alloc(),
        &[
            Control(0, 0x81),
            Control(3, 0x99),
            Control(2, 0x84),
            Write(ABg, 0, Half, 0x8001),
            Write(ABg, 0x4000, Half, 0x8021),
            Write(ABg, 0x7_c000, Half, 0x8003),
            Write(BBg, 0, Half, 0x8024),
            Write(BBg, 0x1_c000, Half, 0x8005),
            Extended(0, 2, 0, 0x4084, 0, 0, 0x100, 0, 0, 0x8001),
            Extended(0, 2, 0x3f00_0000, 0x4084, 0, 0, 0x100, 0, 0, 0x8001),
            Extended(0, 2, 0x3f00_0000, 0x4184, 0, 0, 0x100, 0, 0, 0x8021),
            Extended(0, 2, 0, 0x4180, 0, 0, 0x100, 0, 0, 0xc021),
            Extended(0, 2, 0x3f00_0000, 0x4180, 0, 0, 0x100, 0, 0, 0xc021),
            Extended(0, 2, 0, 0x5f84, 0, 0, 0x100, 0, 0, 0x8003),
            Extended(0, 2, 0, 0x5f84, 0, 0x2000, 0x100, 0, 0, 0x8001),
            Extended(1, 2, 0, 0x4084, 0, 0, 0x100, 0, 0, 0x8024),
            Extended(1, 2, 0x3f00_0000, 0x4784, 0, 0, 0x100, 0, 0, 0x8005),
            Extended(1, 2, 0, 0x4884, 0, 0, 0x100, 0, 0, 0x8024),
            Extended(1, 3, 0, 0x4080, 0, 0, 0x100, 0, 0, 0xc024),
        ],
    )
}

// Pixel (x, y) of tile t, from 1 to 3, has the index 64 t + 8 y + x. Tiles begin at 8000h, and the map at 0. A size of n tiles has n entries of two
// bytes a line: its last one is at 2 (n n - 1), and the first one of its second line at 2 n.
#[test]
fn maps_have_four_sizes(rt: HostRuntime) -> Result<(), AllocError> {
    try_lines(
        &rt,
        rt.alloc(),
        &[
            Control(0, 0x81),
            Count(ABg, 0x8000),
            Write(ABg, 510, Half, 1),
            Write(ABg, 2_046, Half, 2),
            Write(ABg, 8_190, Half, 3),
            Write(ABg, 32_766, Half, 1),
            Write(ABg, 32, Half, 1),
            Write(ABg, 64, Half, 2),
            Write(ABg, 128, Half, 3),
            Write(ABg, 256, Half, 1),
            Extended(0, 2, 0, 0x0008, 0x7f00, 0x7f00, 0x100, 0, 0, 0xc07f),
            Extended(0, 2, 0, 0x0008, 0x7f00, 0x7f00, 0x100, 0, 1, 0),
            Extended(0, 2, 0, 0x0008, 0x7f00, 0x8000, 0x100, 0, 0, 0),
            Extended(0, 2, 0, 0x0008, 0, 0x800, 0x100, 0, 0, 0xc040),
            Extended(0, 2, 0, 0x0008, 0, 0x700, 0, 0x100, 2, 0xc048),
            Extended(0, 2, 0, 0x4008, 0xff00, 0xff00, 0x100, 0, 0, 0xc0bf),
            Extended(0, 2, 0, 0x4008, 0xff00, 0xff00, 0x100, 0, 1, 0),
            Extended(0, 2, 0, 0x4008, 0xff00, 0x1_0000, 0x100, 0, 0, 0),
            Extended(0, 2, 0, 0x4008, 0, 0x800, 0x100, 0, 0, 0xc080),
            Extended(0, 2, 0, 0x8008, 0x1_ff00, 0x1_ff00, 0x100, 0, 0, 0xc0ff),
            Extended(0, 2, 0, 0x8008, 0x1_ff00, 0x1_ff00, 0x100, 0, 1, 0),
            Extended(0, 2, 0, 0x8008, 0, 0x800, 0x100, 0, 0, 0xc0c0),
            Extended(0, 2, 0, 0xc008, 0x3_ff00, 0x3_ff00, 0x100, 0, 0, 0xc07f),
            Extended(0, 2, 0, 0xc008, 0x3_ff00, 0x3_ff00, 0x100, 0, 1, 0),
            Extended(0, 2, 0, 0xc008, 0x3_ff00, 0x4_0000, 0x100, 0, 0, 0),
            Extended(0, 2, 0, 0xc008, 0, 0x800, 0x100, 0, 0, 0xc040),
            // bit 13: the map begins again; bit 2 is the tiles' base, of 16K here
            Extended(0, 2, 0, 0x2008, -0x100, -0x100, 0x100, 0, 0, 0xc07f),
            Extended(0, 2, 0, 0x2008, 0, 0x8800, 0x100, 0, 0, 0xc040),
            Extended(0, 2, 0, 0x0008, -0x100, -0x100, 0x100, 0, 0, 0),
            Extended(0, 2, 0, 0x000c, 0, 0x800, 0x100, 0, 0, 0),
        ],
    )
}

#[test]
fn entries_have_flips_and_palettes_where_bit_30_is_set(rt: HostRuntime) -> Result<(), AllocError> {
    try_lines(
        &rt,
        rt.alloc(),
        &[
            Control(0, 0x81),
            Control(4, 0x84),
            Count(ABg, 0x8000),
            Write(ABg, 0, Half, 0x0001),
            Write(ABg, 2, Half, 0x0401),
            Write(ABg, 4, Half, 0x0801),
            Write(ABg, 6, Half, 0x0c01),
            Extended(0, 2, 0, 0x0008, 0, 0, 0x100, 0, 0, 0xc040),
            Extended(0, 2, 0, 0x0008, 0, 0, 0x100, 0, 9, 0xc046),
            Extended(0, 2, 0, 0x0008, 0, 0x100, 0x100, 0, 17, 0xc071),
            Extended(0, 2, 0, 0x0008, 0, 0x200, 0x100, 0, 25, 0xc06e),
            Extended(0, 2, 0, 0x0008, 0, 0x200, 0x100, 1, 25, 0xc06e),
            // colour 40h of palette 3 in slot 2, at 4000h + 600h + 80h, and in slot 3
            Write(ABgPalette, 0x4680, Half, 0x1234),
            Write(ABgPalette, 0x6680, Half, 0xa345),
            Write(ABgPalette, 0x4600, Half, 0x0777),
            Write(ABg, 0, Half, 0x3001),
            Write(ABg, 2, Half, 0x3000),
            Extended(0, 2, 0, 0x0008, 0, 0, 0x100, 0, 0, 0xc040),
            Extended(0, 2, 0x8000_0000, 0x0008, 0, 0, 0x100, 0, 0, 0xc040),
            Extended(0, 2, 0x4000_0000, 0x0008, 0, 0, 0x100, 0, 0, 0x9234),
            Extended(0, 3, 0x4000_0000, 0x0008, 0, 0, 0x100, 0, 0, 0xa345),
            Extended(0, 2, 0x4000_0000, 0x2008, 0, 0, 0x100, 0, 0, 0x9234),
            Extended(0, 2, 0x4000_0000, 0x0008, 0, 0x100, 0x100, 0, 0, 0x8000),
            // index 0 is transparent in every palette
            Extended(0, 2, 0x4000_0000, 0x0008, 0, 0, 0x100, 0, 8, 0),
        ],
    )
}

// Tile 3FFh begins at 8000h + FFC0h, 200h at 8000h + 8000h, and 1FFh, which has the same nine bits as the first, at 8000h + 7FC0h. Palette n of
// slot m begins at 2000h m + 200h n.
#[test]
fn entries_have_ten_bits_of_a_tile_and_four_of_a_palette(
    rt: HostRuntime,
) -> Result<(), AllocError> {
    try_lines(
        &rt,
        rt.alloc(),
        &[
            Control(0, 0x81),
            Control(4, 0x84),
            Write(ABg, 0x1_7fc0, Byte, 0x05),
            Write(ABg, 0xffc0, Byte, 0x06),
            Write(ABg, 0x1_0000, Byte, 0x07),
            Write(ABg, 0x8000, Byte, 0x08),
            Write(ABg, 0, Half, 0x03ff),
            Write(ABg, 2, Half, 0x01ff),
            Write(ABg, 4, Half, 0x0200),
            Write(ABg, 6, Half, 0x0000),
            Extended(0, 2, 0, 0x0008, 0, 0, 0x100, 0, 0, 0xc005),
            Extended(0, 2, 0, 0x0008, 0, 0, 0x100, 1, 0, 0xc005),
            Extended(0, 2, 0, 0x0008, 0, 0, 0x100, 0, 8, 0xc006),
            Extended(0, 2, 0, 0x0008, 0, 0, 0x100, 0, 16, 0xc007),
            Extended(0, 2, 0, 0x0008, 0, 0, 0x100, 1, 16, 0xc007),
            Extended(0, 2, 0, 0x0008, 0, 0, 0x100, 0, 24, 0xc008),
            // colour 5 of palettes 12 and 4 of slot 2, of 15 and 7 of slot 3, and of 8 and 0 of slot 2
            Write(ABgPalette, 0x580a, Half, 0x1111),
            Write(ABgPalette, 0x480a, Half, 0x2222),
            Write(ABgPalette, 0x7e0a, Half, 0x3333),
            Write(ABgPalette, 0x6e0a, Half, 0x4444),
            Write(ABgPalette, 0x500a, Half, 0x5555),
            Write(ABgPalette, 0x400a, Half, 0x6666),
            Write(ABg, 0, Half, 0xc3ff),
            Extended(0, 2, 0x4000_0000, 0x0008, 0, 0, 0x100, 0, 0, 0x9111),
            Extended(0, 2, 0x4000_0000, 0x0008, 0, 0, 0x100, 1, 0, 0x9111),
            Extended(0, 2, 0, 0x0008, 0, 0, 0x100, 0, 0, 0xc005),
            Write(ABg, 0, Half, 0xf3ff),
            Extended(0, 3, 0x4000_0000, 0x0008, 0, 0, 0x100, 0, 0, 0xb333),
            Write(ABg, 0, Half, 0x83ff),
            Extended(0, 2, 0x4000_0000, 0x0008, 0, 0, 0x100, 0, 0, 0xd555),
            Write(ABg, 0, Half, 0x43ff),
            Extended(0, 2, 0x4000_0000, 0x0008, 0, 0, 0x100, 0, 0, 0xa222),
        ],
    )
}

// 256 places show a part of a bitmap's line, which ends at its right edge or past it; behind a line's last pixel there is the next line's first,
// which isn't shown. The bitmap of bytes begins at 4000h.
#[test]
fn parts_of_lines_end_at_the_right_edge(rt: HostRuntime) -> Result<(), AllocError> {
    try_lines(
        &rt,
        rt.alloc(),
        &[
            Control(0, 0x81),
            Control(1, 0x89),
            Write(ABg, 0, Half, 0x8001),
            Write(ABg, 0x1fe, Half, 0x8002),
            Write(ABg, 0x200, Half, 0x8003),
            Write(ABg, 0x3fe, Half, 0x8004),
            Write(ABg, 0x400, Half, 0x8005),
            // 512 wide, from columns 256 and 257 on
            Extended(0, 2, 0, 0x8084, 0x1_0000, 0, 0x100, 0, 0, 0x8003),
            Extended(0, 2, 0, 0x8084, 0x1_0000, 0, 0x100, 0, 255, 0x8004),
            Extended(0, 2, 0, 0x8084, 0x1_00ff, 0, 0x100, 0, 255, 0x8004),
            Extended(0, 2, 0, 0x8084, 0x1_0100, 0, 0x100, 0, 254, 0x8004),
            Extended(0, 2, 0, 0x8084, 0x1_0100, 0, 0x100, 0, 255, 0),
            Extended(0, 2, 0, 0xa084, 0x1_0100, 0, 0x100, 0, 255, 0x8001),
            // 256 wide, from columns 0, 1 and -1 on
            Extended(0, 2, 0, 0x4084, 0, 0, 0x100, 0, 255, 0x8002),
            Extended(0, 2, 0, 0x4084, 0x100, 0, 0x100, 0, 254, 0x8002),
            Extended(0, 2, 0, 0x4084, 0x100, 0, 0x100, 0, 255, 0),
            Extended(0, 2, 0, 0x6084, 0x100, 0, 0x100, 0, 255, 0x8001),
            Extended(0, 2, 0, 0x4084, -0x100, 0, 0x100, 0, 0, 0),
            Extended(0, 2, 0, 0x4084, -0x100, 0, 0x100, 0, 1, 0x8001),
            // the same of bytes
            Write(ABg, 0x4000, Byte, 0x21),
            Write(ABg, 0x40ff, Byte, 0x22),
            Write(ABg, 0x4100, Byte, 0x23),
            Write(ABg, 0x41ff, Byte, 0x24),
            Write(ABg, 0x4200, Byte, 0x25),
            Extended(0, 2, 0, 0x8180, 0x1_0000, 0, 0x100, 0, 0, 0xc023),
            Extended(0, 2, 0, 0x8180, 0x1_0000, 0, 0x100, 0, 255, 0xc024),
            Extended(0, 2, 0, 0x8180, 0x1_0100, 0, 0x100, 0, 254, 0xc024),
            Extended(0, 2, 0, 0x8180, 0x1_0100, 0, 0x100, 0, 255, 0),
            Extended(0, 2, 0, 0xa180, 0x1_0100, 0, 0x100, 0, 255, 0xc021),
            Extended(0, 2, 0, 0x4180, 0, 0, 0x100, 0, 255, 0xc022),
            Extended(0, 2, 0, 0x4180, 0x100, 0, 0x100, 0, 254, 0xc022),
            Extended(0, 2, 0, 0x4180, 0x100, 0, 0x100, 0, 255, 0),
            Extended(0, 2, 0, 0x6180, 0x100, 0, 0x100, 0, 255, 0xc021),
        ],
    )
}

// A turned row's first and last places, by PC 1, which doesn't leave line 0 in 256 places, and by PC -1, which leaves line 1 behind its first; its
// columns go up and down.
#[test]
fn turned_rows_have_their_first_and_last_columns(rt: HostRuntime) -> Result<(), AllocError> {
    try_lines(
        &rt,
        rt.alloc(),
        &[
            Control(0, 0x81),
            Write(ABg, 0, Half, 0x8001),
            Write(ABg, 0x1fe, Half, 0x8002),
            Write(ABg, 0x200, Half, 0x8003),
            Extended(0, 2, 0, 0x4084, 0, 0, 0x100, 1, 0, 0x8001),
            Extended(0, 2, 0, 0x4084, 0, 0, 0x100, 1, 255, 0x8002),
            Extended(0, 2, 0, 0x4084, 0, 0x100, 0x100, -1, 0, 0x8003),
            Extended(0, 2, 0, 0x4084, 0, 0x100, 0x100, -1, 255, 0x8002),
            Extended(0, 2, 0, 0x4084, -0x100, 0, 0x100, 1, 0, 0),
            Extended(0, 2, 0, 0x4084, -0x100, 0, 0x100, 1, 1, 0x8001),
            Extended(0, 2, 0, 0x4084, 0x100, 0, 0x100, 1, 254, 0x8002),
            Extended(0, 2, 0, 0x4084, 0x100, 0, 0x100, 1, 255, 0),
            Extended(0, 2, 0, 0x4084, 0xff00, 0, -0x100, 1, 0, 0x8002),
            Extended(0, 2, 0, 0x4084, 0xff00, 0, -0x100, 1, 255, 0x8001),
            Extended(0, 2, 0, 0x6084, 0x100, 0, 0x100, 1, 255, 0x8001),
            // of bytes
            Write(ABg, 0x4000, Byte, 0x21),
            Write(ABg, 0x40ff, Byte, 0x22),
            Write(ABg, 0x4100, Byte, 0x23),
            Extended(0, 2, 0, 0x4180, 0, 0, 0x100, 1, 0, 0xc021),
            Extended(0, 2, 0, 0x4180, 0, 0, 0x100, 1, 255, 0xc022),
            Extended(0, 2, 0, 0x4180, 0x100, 0, 0x100, 1, 255, 0),
            Extended(0, 2, 0, 0x4180, 0, 0x100, 0x100, -1, 0, 0xc023),
            // of a map of 256 by 256, whose entries begin at 800h and whose tiles at 8000h: tile 1 at both ends of its first line of entries
            Count(ABg, 0x8000),
            Write(ABg, 0x800, Half, 1),
            Write(ABg, 0x83e, Half, 1),
            Extended(0, 2, 0, 0x4108, 0, 0, 0x100, 1, 0, 0xc040),
            Extended(0, 2, 0, 0x4108, 0, 0, 0x100, 1, 255, 0xc047),
            Extended(0, 2, 0, 0x4108, 0x100, 0, 0x100, 1, 255, 0),
            Extended(0, 2, 0, 0x6108, 0x100, 0, 0x100, 1, 255, 0xc040),
        ],
    )
}

// Maps have the bases of affine backgrounds: 2K steps and 64K steps of engine A.
#[test]
fn bases_of_maps_are_those_of_the_controls(rt: HostRuntime) -> Result<(), AllocError> {
    try_lines(
        &rt,
        rt.alloc(),
        &[
            Control(0, 0x81),
            Control(1, 0x89),
            Control(2, 0x84),
            Control(7, 0x82),
            Count(ABg, 0x8000),
            Count(ABg, 0x1_8000),
            Count(BBg, 0x4000),
            Write(ABg, 0x1_8040, Byte, 0x11),
            Write(ABg, 0x0800, Half, 0x0001),
            Write(ABg, 0x1_0800, Half, 0x0002),
            Write(BBg, 0x0800, Half, 0x1003),
            Write(BBgPalette, 0x6380, Half, 0x0055),
            Extended(0, 2, 0, 0x0108, 0, 0, 0x100, 0, 0, 0xc040),
            Extended(0, 2, 0x0100_0000, 0x0108, 0, 0, 0x100, 0, 0, 0xc011),
            Extended(0, 2, 0x0800_0000, 0x0108, 0, 0, 0x100, 0, 0, 0xc080),
            Extended(0, 2, 0x0800_0000, 0x0108, 0, 0, 0x100, 1, 0, 0xc080),
            Extended(1, 3, 0x3f00_0000, 0x0104, 0, 0, 0x100, 0, 0, 0xc0c0),
            Extended(1, 3, 0x7f00_0000, 0x0104, 0, 0, 0x100, 0, 0, 0x8055),
        ],
    )
}

// Two banks at one address are read together; where none is, all is 0.
#[test]
fn bitmaps_are_read_through_the_banks(rt: HostRuntime) -> Result<(), AllocError> {
    try_lines(
        &rt,
        rt.alloc(),
        &[
            Extended(0, 2, 0, 0x4084, 0, 0, 0x100, 0, 0, 0),
            Control(0, 0x81),
            Write(ABg, 0x200, Half, 0x8001),
            Control(0, 0),
            Control(4, 0x81),
            Write(ABg, 0x200, Half, 0x0010),
            Extended(0, 2, 0, 0x4084, 0, 0x100, 0x100, 0, 0, 0),
            Control(0, 0x81),
            Extended(0, 2, 0, 0x4084, 0, 0x100, 0x100, 0, 0, 0x8011),
            Extended(0, 2, 0, 0x4084, 0, 0x100, 0x100, 1, 0, 0x8011),
        ],
    )
}

// Bank B stands at LCDC 20000h; line 1 begins 200h after it.
#[test]
fn a_bank_is_shown_as_it_lies(rt: HostRuntime) -> Result<(), AllocError> {
    try_lines(
        &rt,
        rt.alloc(),
        &[
            Control(1, 0x80),
            Write(Lcdc, 0x2_0200, Half, 0x1234),
            Bank(0x0006_0000, 1, 0, 0x9234),
            Write(Lcdc, 0x2_0200, Half, 0x9234),
            Bank(0x0006_0000, 1, 0, 0x9234),
            Bank(0x0006_0000, 1, 1, 0x8000),
            Bank(0x0006_0000, 2, 0, 0x8000),
            // the last pixel, and the other banks
            Control(0, 0x80),
            Control(2, 0x80),
            Control(3, 0x80),
            Write(Lcdc, 0x1_7ffe, Half, 0x0001),
            Write(Lcdc, 0x3_7ffe, Half, 0x0002),
            Write(Lcdc, 0x5_7ffe, Half, 0x0003),
            Write(Lcdc, 0x7_7ffe, Half, 0x7fff),
            Bank(0x0002_0000, 191, 255, 0x8001),
            Bank(0x0006_0000, 191, 255, 0x8002),
            Bank(0x000a_0000, 191, 255, 0x8003),
            Bank(0x000e_0000, 191, 255, 0xffff),
            Bank(0xfff3_ffff, 191, 255, 0x8001),
            // a bank that isn't in LCDC gives 0, and so do others where it would be
            Control(1, 0x81),
            Bank(0x0006_0000, 1, 0, 0x8000),
            Bank(0x0006_0000, 191, 255, 0x8000),
        ],
    )
}
