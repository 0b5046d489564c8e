//! Affine backgrounds. Pixel (x, y) of tile t, from 1 to 3, has the index 64 t + 8 y + x.

use super::{Line, try_lines};
use Line::{Affine, Control, Count, Point, Write};
use Space::{ABg, BBg};
use Width::Byte;
use ds_base::{Space, Width};
use std::alloc::AllocError;

#[test]
fn points_are_floored_and_wrap_where_the_control_says(rt: HostRuntime) -> Result<(), AllocError> {
    try_lines(
        &rt,
        rt.alloc(),
        &[
            Control(0, 0x81),
            Count(ABg, 0x4000),
            // sixteen entries a line: tile 1 at the left above, 2 beside it, 3 at the right above, 2 at the left below
            Write(ABg, 0, Byte, 1),
            Write(ABg, 1, Byte, 2),
            Write(ABg, 15, Byte, 3),
            Write(ABg, 16, Byte, 2),
            Write(ABg, 240, Byte, 2),
            Point(0x0004, 0, 0, 0x100, 0, 0, 0xc040),
            Point(0x0004, 0, 0, 0x100, 0, 7, 0xc047),
            Point(0x0004, 0, 0, 0x100, 0, 9, 0xc081),
            Point(0x0004, 0x200, 0x1ff, 0x100, 0, 1, 0xc04b),
            Point(0x0004, 0, 0x800, 0x100, 0, 3, 0xc083),
            Point(0x0004, 0, 0, 0x80, 0, 5, 0xc042),
            Point(0x0004, 0, 0, 0x200, 0, 2, 0xc044),
            Point(0x0004, 0, 0, 0x100, 0, 16, 0),
            // a quarter turn, the other way round, and both steps at once
            Point(0x0004, 0x100, 0, 0, 0x100, 3, 0xc059),
            Point(0x0004, 0, 0x700, 0, -0x100, 2, 0xc068),
            Point(0x0004, 0x700, 0, -0x100, 0x100, 3, 0xc05c),
            // outside: below 0, also by less than a point, and past the size
            Point(0x0004, -1, 0, 0x100, 0, 0, 0),
            Point(0x0004, -1, 0, 0x100, 0, 1, 0xc040),
            Point(0x0004, 0, -1, 0x100, 0, 0, 0),
            Point(0x0004, 0x7fff, 0, 0x100, 0, 0, 0xc0c7),
            Point(0x0004, 0x7fff, 0, 0x100, 0, 1, 0),
            Point(0x0004, 0, 0x8000, 0x100, 0, 0, 0),
            // or the background begins again
            Point(0x2004, -1, 0, 0x100, 0, 0, 0xc0c7),
            Point(0x2004, -0x8000, 0, 0x100, 0, 0, 0xc040),
            Point(0x2004, 0, -0x100, 0x100, 0, 0, 0xc0b8),
            Point(0x2004, 0x7fff, 0, 0x100, 0, 1, 0xc040),
            Point(0x2004, 0, 0x8000, 0x100, 0, 9, 0xc081),
            Point(0x2004, 0, 0, 0x100, 0, 129, 0xc041),
            Point(0x2004, 0, 0, -0x100, 0, 1, 0xc0c7),
            // priority, mosaic and 256 colours change nothing
            Point(0x20c7, 0, 0, 0x100, 0, 9, 0xc081),
        ],
    )
}

// A size of n tiles has n entries a line: its last point is in entry n n - 1. Bases are those of text backgrounds.
#[test]
fn sizes_and_bases_are_those_of_the_controls(rt: HostRuntime) -> Result<(), AllocError> {
    try_lines(
        &rt,
        rt.alloc(),
        &[
            Control(0, 0x81),
            Control(1, 0x89),
            Control(7, 0x81),
            Count(ABg, 0x8000),
            Count(ABg, 0x1_8000),
            Count(BBg, 0x4000),
            Write(ABg, 0x1_8040, Byte, 0x11),
            Write(ABg, 255, Byte, 2),
            Write(ABg, 1_023, Byte, 3),
            Write(ABg, 4_095, Byte, 2),
            Write(ABg, 16_383, Byte, 3),
            Write(ABg, 0x4800, Byte, 1),
            Write(ABg, 0x1_0800, Byte, 2),
            Write(BBg, 0x0800, Byte, 3),
            Affine(0, 0, 0x0008, 127, 0, 0xc0bf),
            Affine(0, 0, 0x0008, 127, 1, 0),
            Affine(0, 0, 0x4008, 255, 0, 0xc0ff),
            Affine(0, 0, 0x4008, 255, 1, 0),
            Affine(0, 0, 0x8008, 511, 0, 0xc0bf),
            Affine(0, 0, 0x8008, 511, 1, 0),
            Affine(0, 0, 0xc008, 1_023, 0, 0xc0ff),
            Affine(0, 0, 0xc008, 1_023, 1, 0),
            Affine(0, 0, 0x0908, 0, 0, 0xc040),
            Affine(0, 0x0100_0000, 0x0908, 0, 0, 0xc011),
            Affine(0, 0x0800_0000, 0x0108, 0, 0, 0xc080),
            Affine(1, 0x3f00_0000, 0x0104, 0, 0, 0xc0c0),
        ],
    )
}
