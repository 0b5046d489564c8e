//! The fields of objects' attributes and of the control, shapes, and affine objects.

use super::{Line, try_lines};
use Line::{Boxed, Control, Covers, Fill, Object, Pattern, Turned, Write};
use Space::{AObj, AObjPalette, BObj, BObjPalette};
use Width::{Byte, Half};
use ds_base::{Space, Width};
use std::alloc::AllocError;

#[test]
fn fields_of_16_colours(rt: HostRuntime) -> Result<(), AllocError> {
    try_lines(
        &rt,
        rt.alloc(),
        &[
            Pattern,
            Write(AObj, 0x7fe0, Byte, 0x0f),
            Object(5, 0, 0, 0, 0x1000, 0, 0, 0, 0xc001),
            Object(5, 0, 0, 0, 0x1000, 0, 0, 7, 0xc008),
            Object(5, 0, 0, 0, 0x1000, 0, 1, 0, 0xc009),
            // Y wraps: at 255 an object shows its row 1 at line 0
            Object(5, 0x00ff, 0, 0, 0x1000, 0, 0, 0, 0xc009),
            Object(5, 0x00ff, 0, 0, 0x1000, 0, 1, 3, 0xc005),
            Object(5, 0x00ff, 0, 0, 0x1000, 0, 6, 0, 0xc00c),
            Object(5, 0x00ff, 0, 0, 0x1000, 0, 7, 0, 0),
            Object(5, 0x00bf, 0, 0, 0x1000, 0, 191, 0, 0xc001),
            // X is signed
            Object(5, 0, 0x01ff, 0, 0x1000, 0, 0, 0, 0xc002),
            Object(5, 0, 0x01ff, 0, 0x1000, 0, 0, 6, 0xc008),
            Object(5, 0, 0x01ff, 0, 0x1000, 0, 0, 7, 0),
            Object(5, 0, 0x01f8, 0, 0x1000, 0, 0, 0, 0),
            Object(5, 0, 0x00ff, 0, 0x1000, 0, 0, 255, 0xc001),
            Object(5, 0, 0x00ff, 0, 0x1000, 0, 0, 0, 0),
            Object(5, 0, 0x0100, 0, 0x1000, 0, 0, 0, 0),
            // tile and palette
            Object(5, 0, 0, 0x0001, 0x1000, 0, 0, 0, 0xc002),
            Object(5, 0, 0, 0x03ff, 0x1000, 0, 0, 0, 0xc00f),
            Object(5, 0, 0, 0x03ff, 0x1000, 0, 0, 1, 0),
            Object(5, 0, 0, 0x0258, 0x1000, 0, 0, 0, 0),
            Object(5, 0, 0, 0x3000, 0x1000, 0, 0, 0, 0xc031),
            Object(5, 0, 0, 0xf000, 0x1000, 0, 0, 7, 0xc0f8),
            // off, a bitmap, and no objects at all
            Object(5, 0x0200, 0, 0, 0x1000, 0, 0, 0, 0),
            Object(5, 0x0c00, 0, 0, 0x1000, 0, 0, 0, 0),
            Object(5, 0, 0, 0, 0x0000, 0, 0, 0, 0),
            Object(5, 0, 0, 0, 0xffff_efff, 0, 0, 0, 0),
            // mosaic changes nothing
            Object(5, 0x1000, 0, 0, 0x1000, 0, 0, 7, 0xc008),
            // flips, also where they exchange tiles
            Object(5, 0, 0x1000, 0, 0x1000, 0, 0, 0, 0xc008),
            Object(5, 0, 0x2000, 0, 0x1000, 0, 0, 0, 0xc00c),
            Object(5, 0, 0x3000, 0, 0x1000, 0, 0, 0, 0xc004),
            Object(5, 0, 0x5000, 0, 0x1000, 0, 0, 0, 0xc009),
            Object(5, 0, 0x5000, 0, 0x1000, 0, 0, 8, 0xc008),
            Object(5, 0, 0x6000, 0, 0x1000, 0, 0, 0, 0xc00e),
            Object(5, 0, 0x6000, 0, 0x1000, 0, 15, 0, 0xc001),
            // tiles in two dimensions: 32 a row
            Object(5, 0, 0x4000, 0, 0x1000, 0, 0, 8, 0xc002),
            Object(5, 0, 0x4000, 0, 0x1000, 0, 8, 0, 0xc003),
            Object(5, 0, 0x4000, 0, 0x0030_1000, 0, 8, 8, 0xc004),
            Object(5, 0, 0, 0x0003, 0x0030_1000, 0, 0, 0, 0xc004),
            // and in one: one after another, numbers counting 32, 64, 128 or 256 bytes
            Object(5, 0, 0x8000, 0, 0x1010, 0, 8, 0, 0xc005),
            Object(5, 0, 0x8000, 0, 0x1010, 0, 8, 24, 0xc008),
            Object(5, 0x8000, 0, 0, 0x1010, 0, 8, 0, 0xc002),
            Object(5, 0, 0, 0x0003, 0x1010, 0, 0, 0, 0xc004),
            Object(5, 0, 0, 0x0003, 0x0010_1010, 0, 0, 0, 0xc007),
            Object(5, 0, 0, 0x0003, 0x0020_1010, 0, 0, 0, 0xc00d),
            Object(5, 0, 0, 0x0003, 0x0030_1010, 0, 0, 0, 0xc00a),
            // extended palettes are of 256 colours alone
            Object(5, 0, 0, 0x3000, 0x8000_1000, 0, 0, 0, 0xc031),
        ],
    )
}

// An object of 256 colours has units of 64 bytes. Tile 256 begins where bytes count up.
#[test]
fn fields_of_256_colours(rt: HostRuntime) -> Result<(), AllocError> {
    try_lines(
        &rt,
        rt.alloc(),
        &[
            Pattern,
            Control(5, 0x85),
            Write(AObj, 0x5000, Byte, 0),
            Write(AObjPalette, 0x2, Half, 0x0123),
            Write(AObjPalette, 0xa02, Half, 0xfabc),
            Write(AObjPalette, 0x1ffe, Half, 0x7f00),
            Write(AObjPalette, 0xa00, Half, 1),
            Object(127, 0x2000, 0, 0x0100, 0x1000, 0, 0, 0, 0xc001),
            Object(127, 0x2000, 0, 0x0100, 0x1000, 0, 7, 7, 0xc040),
            // the palette's number counts for nothing
            Object(127, 0x2000, 0, 0x5100, 0x1000, 0, 0, 0, 0xc001),
            Object(127, 0x2000, 0, 0x5100, 0x4000_1000, 0, 0, 0, 0xc001),
            // two dimensions: two units a tile, and the lowest bit of a tile's number counts
            Object(127, 0x2000, 0, 0x0102, 0x1000, 0, 0, 0, 0xc041),
            Object(127, 0x2000, 0, 0x0101, 0x1000, 0, 0, 0, 0xc021),
            Object(127, 0x2000, 0x4000, 0x0100, 0x1000, 0, 0, 8, 0xc041),
            Object(127, 0x2000, 0x4000, 0x0100, 0x1000, 0, 8, 0, 0xc005),
            Object(127, 0x2000, 0x5000, 0x0100, 0x1000, 0, 0, 0, 0xc048),
            // one dimension
            Object(127, 0x2000, 0x4000, 0x0100, 0x1010, 0, 0, 8, 0xc041),
            Object(127, 0x2000, 0x4000, 0x0100, 0x1010, 0, 8, 0, 0xc081),
            Object(127, 0x2000, 0x4000, 0x0100, 0x1010, 0, 8, 8, 0xc0c1),
            Object(127, 0x2000, 0, 0x0080, 0x0010_1010, 0, 0, 0, 0xc001),
            Object(127, 0x2000, 0, 0x0081, 0x0010_1010, 0, 0, 0, 0xc041),
            // extended palettes; index 0 is transparent in them too
            Object(127, 0x2000, 0, 0x0100, 0x8000_1000, 0, 0, 0, 0x8123),
            Object(127, 0x2000, 0, 0x5100, 0x8000_1000, 0, 0, 0, 0xfabc),
            Object(127, 0x2000, 0, 0xf106, 0x8000_1000, 0, 7, 6, 0xff00),
            Object(127, 0x2000, 0, 0x5280, 0x8000_1000, 0, 0, 0, 0),
            Object(127, 0x2000, 0, 0x0280, 0x1000, 0, 0, 0, 0),
        ],
    )
}

// Engine B has spaces of its own, of objects and of their palettes.
#[test]
fn engine_b_reads_its_own_spaces(rt: HostRuntime) -> Result<(), AllocError> {
    try_lines(
        &rt,
        rt.alloc(),
        &[
            Control(3, 0x84),
            Control(4, 0x82),
            Control(8, 0x83),
            Write(AObj, 0, Byte, 0x01),
            Write(BObj, 0, Byte, 0x02),
            Write(BObjPalette, 4, Half, 0x0456),
            Object(0, 0, 0, 0, 0x1000, 0, 0, 0, 0xc001),
            Object(0, 0, 0, 0, 0x1000, 1, 0, 0, 0xc002),
            Object(0, 0x2000, 0, 0, 0x1000, 1, 0, 0, 0xc002),
            Object(0, 0x2000, 0, 0, 0x8000_1000, 1, 0, 0, 0x8456),
            Object(0, 0x2000, 0, 0, 0x8000_1000, 0, 0, 0, 0x8000),
        ],
    )
}

// Each pixel of each tile has index 1. The object's box begins at (10, 20).
#[test]
fn boxes_end_where_the_size_says(rt: HostRuntime) -> Result<(), AllocError> {
    try_lines(
        &rt,
        rt.alloc(),
        &[
            Control(4, 0x82),
            Fill(AObj, 0, 0x200, 0x1111_1111),
            Boxed(0, 0, 8, 8),
            Boxed(0, 1, 16, 16),
            Boxed(0, 2, 32, 32),
            Boxed(0, 3, 64, 64),
            Boxed(1, 0, 16, 8),
            Boxed(1, 1, 32, 8),
            Boxed(1, 2, 32, 16),
            Boxed(1, 3, 64, 32),
            Boxed(2, 0, 8, 16),
            Boxed(2, 1, 8, 32),
            Boxed(2, 2, 16, 32),
            Boxed(2, 3, 32, 64),
            Boxed(3, 0, 8, 8),
            Boxed(3, 1, 8, 8),
            Boxed(3, 2, 8, 8),
            Boxed(3, 3, 8, 8),
        ],
    )
}

// The object has 8 by 8 pixels, tile 0, at (0, 0). Its middle is between the pixels: distances go from -4 to 3, or from -8 to 7 in a box of
// double size.
#[test]
fn points_are_exact_and_floored(rt: HostRuntime) -> Result<(), AllocError> {
    try_lines(
        &rt,
        rt.alloc(),
        &[
            Pattern,
            Turned(0x0100, 0, 0x100, 0, 0, 0x100, 0x1000, 0, 0, 0xc001),
            Turned(0x0100, 0, 0x100, 0, 0, 0x100, 0x1000, 0, 7, 0xc008),
            Turned(0x0100, 0, 0x100, 0, 0, 0x100, 0x1000, 1, 0, 0xc009),
            Turned(0x0100, 0, 0x100, 0, 0, 0x100, 0x1000, 0, 8, 0),
            Turned(0x0100, 0, 0x100, 0, 0, 0x100, 0x1000, 8, 0, 0),
            // in a box of double size, from its own middle
            Turned(0x0300, 0, 0x100, 0, 0, 0x100, 0x1000, 4, 4, 0xc001),
            Turned(0x0300, 0, 0x100, 0, 0, 0x100, 0x1000, 4, 3, 0),
            Turned(0x0300, 0, 0x100, 0, 0, 0x100, 0x1000, 3, 4, 0),
            Turned(0x0300, 0, 0x100, 0, 0, 0x100, 0x1000, 4, 11, 0xc008),
            Turned(0x0300, 0, 0x100, 0, 0, 0x100, 0x1000, 4, 12, 0),
            Turned(0x0300, 0, 0x100, 0, 0, 0x100, 0x1000, 12, 4, 0),
            Turned(0x0300, 0, 0x80, 0, 0, 0x80, 0x1000, 0, 0, 0xc001),
            Turned(0x0300, 0, 0x80, 0, 0, 0x80, 0x1000, 15, 15, 0xc004),
            Turned(0x0300, 0, 0x80, 0, 0, 0x80, 0x1000, 16, 15, 0),
            Turned(0x0300, 0, 0x80, 0, 0, 0x80, 0x1000, 15, 16, 0),
            // twice as large: half a point is cut off downwards
            Turned(0x0100, 0, 0x80, 0, 0, 0x80, 0x1000, 0, 0, 0xc004),
            Turned(0x0100, 0, 0x80, 0, 0, 0x80, 0x1000, 4, 3, 0xc006),
            Turned(0x0100, 0, 0x80, 0, 0, 0x80, 0x1000, 3, 4, 0xc00e),
            Turned(0x0100, 0, 0x80, 0, 0, 0x80, 0x1000, 4, 4, 0xc007),
            // the sum is cut off, and not its parts
            Turned(0x0100, 0, 0x80, 0x80, 0, 0x100, 0x1000, 5, 3, 0xc00f),
            // a quarter turn, and left and right exchanged
            Turned(0x0100, 0, 0, 0x100, 0xff00, 0, 0x1000, 0, 7, 0xc009),
            Turned(0x0100, 0, 0, 0x100, 0xff00, 0, 0x1000, 0, 0, 0),
            Turned(0x0100, 0, 0xff00, 0, 0, 0x100, 0x1000, 0, 1, 0xc008),
            Turned(0x0100, 0, 0xff00, 0, 0, 0x100, 0x1000, 0, 0, 0),
            // far outside
            Turned(0x0100, 0, 0x7fff, 0, 0, 0x100, 0x1000, 0, 0, 0),
            Turned(0x0100, 0, 0x8000, 0, 0, 0x100, 0x1000, 0, 0, 0),
            Turned(0x0100, 0, 0x7fff, 0, 0, 0x100, 0x1000, 0, 4, 0xc005),
        ],
    )
}

// Palette 5 has FABCh and palette 0 0123h as the colour of index 1.
#[test]
fn an_affine_object_has_an_extended_palette(rt: HostRuntime) -> Result<(), AllocError> {
    try_lines(
        &rt,
        rt.alloc(),
        &[
            Pattern,
            Control(5, 0x85),
            Write(AObjPalette, 0x0a02, Half, 0xfabc),
            Write(AObjPalette, 0x0002, Half, 0x0123),
            Turned(
                0x2100,
                0x5100,
                0x100,
                0,
                0,
                0x100,
                0x8000_1000,
                0,
                0,
                0xfabc,
            ),
            Turned(0x2100, 0x5100, 0x100, 0, 0, 0x100, 0x1000, 0, 0, 0xc001),
            Turned(
                0x2100,
                0x0100,
                0x100,
                0,
                0,
                0x100,
                0x8000_1000,
                0,
                0,
                0x8123,
            ),
            Turned(
                0x0100,
                0x5000,
                0x100,
                0,
                0,
                0x100,
                0x8000_1000,
                0,
                0,
                0xc051,
            ),
        ],
    )
}

#[test]
fn an_object_covers_lines_by_its_box_alone(rt: HostRuntime) -> Result<(), AllocError> {
    try_lines(
        &rt,
        rt.alloc(),
        &[
            // a box of 8 lines from Y on
            Covers(20, 0, 0x1000, 20, true),
            Covers(20, 0, 0x1000, 27, true),
            Covers(20, 0, 0x1000, 19, false),
            Covers(20, 0, 0x1000, 28, false),
            Covers(0xff, 0, 0x1000, 6, true),
            Covers(0xff, 0, 0x1000, 7, false),
            // X, and what the box shows there, count for nothing
            Covers(20, 0x0100, 0x1000, 20, true),
            // the size, and twice it
            Covers(20, 0xc000, 0x1000, 83, true),
            Covers(20, 0xc000, 0x1000, 84, false),
            Covers(0x0314, 0xc000, 0x1000, 147, true),
            Covers(0x0314, 0xc000, 0x1000, 148, false),
            Covers(0x0114, 0xc000, 0x1000, 83, true),
            Covers(0x0114, 0xc000, 0x1000, 84, false),
            // each mode covers, that of bitmaps too; off covers none, and without bit 12 none does
            Covers(0x0414, 0, 0x1000, 20, true),
            Covers(0x0814, 0, 0x1000, 20, true),
            Covers(0x0c14, 0, 0x1000, 20, true),
            Covers(0x0214, 0, 0x1000, 20, false),
            Covers(0x0e14, 0, 0x1000, 20, false),
            Covers(20, 0, 0xffff_efff, 20, false),
            Covers(0x0c14, 0, 0, 20, false),
        ],
    )
}
