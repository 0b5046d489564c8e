//! The bank table laid beside GBATEK's ("DS Memory Control - VRAM"): each MST and each bit of OFS; and reads and writes.

use super::{Line, try_lines};
use Line::{Arm7, Around, Cell, Cells, Control, Nowhere, Reads, Row, Stands, Write};
use Space::{ABg, ABgPalette, AObj, AObjPalette, BBg, BBgPalette, BObj, BObjPalette, Lcdc};
use Width::{Byte, Half, Word};
use ds_base::{Space, Width};
use std::alloc::AllocError;

// A, B, H and I have no bit 2 of MST; bits of OFS that an entry doesn't name, and bits 5 and 6, count for nothing.
#[test]
fn each_entry_of_a_to_d_stands_where_the_table_says(rt: HostRuntime) -> Result<(), AllocError> {
    try_lines(
        &rt,
        rt.alloc(),
        &[
            Stands(0, 0x80, Lcdc, 0, 0x20000),
            Stands(0, 0x81, ABg, 0, 0x20000),
            Stands(0, 0x89, ABg, 0x20000, 0x20000),
            Stands(0, 0x91, ABg, 0x40000, 0x20000),
            Stands(0, 0x99, ABg, 0x60000, 0x20000),
            Stands(0, 0x82, AObj, 0, 0x20000),
            Stands(0, 0x8a, AObj, 0x20000, 0x20000),
            Stands(0, 0x92, AObj, 0, 0x20000),
            Stands(0, 0x84, Lcdc, 0, 0x20000),
            Stands(1, 0x80, Lcdc, 0x20000, 0x20000),
            Stands(1, 0x81, ABg, 0, 0x20000),
            Stands(1, 0x89, ABg, 0x20000, 0x20000),
            Stands(1, 0x91, ABg, 0x40000, 0x20000),
            Stands(1, 0x99, ABg, 0x60000, 0x20000),
            Stands(1, 0x82, AObj, 0, 0x20000),
            Stands(1, 0x8a, AObj, 0x20000, 0x20000),
            Stands(1, 0x9a, AObj, 0x20000, 0x20000),
            Stands(1, 0xe5, ABg, 0, 0x20000),
            Stands(2, 0x80, Lcdc, 0x40000, 0x20000),
            Stands(2, 0x81, ABg, 0, 0x20000),
            Stands(2, 0x89, ABg, 0x20000, 0x20000),
            Stands(2, 0x91, ABg, 0x40000, 0x20000),
            Stands(2, 0x99, ABg, 0x60000, 0x20000),
            Stands(2, 0x82, Space::Arm7, 0, 0x20000),
            Stands(2, 0x8a, Space::Arm7, 0x20000, 0x20000),
            Stands(2, 0x92, Space::Arm7, 0, 0x20000),
            Stands(2, 0x9c, BBg, 0, 0x20000),
            Stands(3, 0x80, Lcdc, 0x60000, 0x20000),
            Stands(3, 0x81, ABg, 0, 0x20000),
            Stands(3, 0x89, ABg, 0x20000, 0x20000),
            Stands(3, 0x91, ABg, 0x40000, 0x20000),
            Stands(3, 0x99, ABg, 0x60000, 0x20000),
            Stands(3, 0x82, Space::Arm7, 0, 0x20000),
            Stands(3, 0x9a, Space::Arm7, 0x20000, 0x20000),
            Stands(3, 0x84, BObj, 0, 0x20000),
        ],
    )
}

#[test]
fn each_entry_of_e_to_i_stands_where_the_table_says(rt: HostRuntime) -> Result<(), AllocError> {
    try_lines(
        &rt,
        rt.alloc(),
        &[
            Stands(4, 0x80, Lcdc, 0x80000, 0x10000),
            Stands(4, 0x99, ABg, 0, 0x10000),
            Stands(4, 0xfa, AObj, 0, 0x10000),
            Stands(4, 0x84, ABgPalette, 0, 0x8000),
            Stands(5, 0x80, Lcdc, 0x90000, 0x4000),
            Stands(5, 0x81, ABg, 0, 0x4000),
            Stands(5, 0x89, ABg, 0x4000, 0x4000),
            Stands(5, 0x91, ABg, 0x10000, 0x4000),
            Stands(5, 0x99, ABg, 0x14000, 0x4000),
            Stands(5, 0x82, AObj, 0, 0x4000),
            Stands(5, 0x8a, AObj, 0x4000, 0x4000),
            Stands(5, 0x92, AObj, 0x10000, 0x4000),
            Stands(5, 0x9a, AObj, 0x14000, 0x4000),
            Stands(5, 0x84, ABgPalette, 0, 0x4000),
            Stands(5, 0x8c, ABgPalette, 0x4000, 0x4000),
            Stands(5, 0x94, ABgPalette, 0, 0x4000),
            Stands(5, 0x85, AObjPalette, 0, 0x2000),
            Stands(6, 0x80, Lcdc, 0x94000, 0x4000),
            Stands(6, 0x81, ABg, 0, 0x4000),
            Stands(6, 0x89, ABg, 0x4000, 0x4000),
            Stands(6, 0x91, ABg, 0x10000, 0x4000),
            Stands(6, 0x99, ABg, 0x14000, 0x4000),
            Stands(6, 0x82, AObj, 0, 0x4000),
            Stands(6, 0x8a, AObj, 0x4000, 0x4000),
            Stands(6, 0x92, AObj, 0x10000, 0x4000),
            Stands(6, 0x9a, AObj, 0x14000, 0x4000),
            Stands(6, 0x84, ABgPalette, 0, 0x4000),
            Stands(6, 0x9c, ABgPalette, 0x4000, 0x4000),
            Stands(6, 0x8d, AObjPalette, 0, 0x2000),
            Stands(7, 0x80, Lcdc, 0x98000, 0x8000),
            Stands(7, 0x84, Lcdc, 0x98000, 0x8000),
            Stands(7, 0x9d, BBg, 0, 0x8000),
            Stands(7, 0x82, BBgPalette, 0, 0x8000),
            Stands(8, 0x80, Lcdc, 0xa0000, 0x4000),
            Stands(8, 0x81, BBg, 0x8000, 0x4000),
            Stands(8, 0x85, BBg, 0x8000, 0x4000),
            Stands(8, 0x82, BObj, 0, 0x4000),
            Stands(8, 0x86, BObj, 0, 0x4000),
            Stands(8, 0x83, BObjPalette, 0, 0x2000),
            Stands(8, 0x87, BObjPalette, 0, 0x2000),
        ],
    )
}

// MST 3 of A to G is for textures, and the last MSTs have no entry: such a bank is seen in no space.
#[test]
fn a_bank_with_textures_is_seen_nowhere(rt: HostRuntime) -> Result<(), AllocError> {
    try_lines(
        &rt,
        rt.alloc(),
        &[
            Nowhere(0, 0x83),
            Nowhere(1, 0x8b),
            Nowhere(2, 0x93),
            Nowhere(3, 0x9b),
            Nowhere(4, 0x83),
            Nowhere(5, 0x8b),
            Nowhere(6, 0x93),
            Nowhere(2, 0x85),
            Nowhere(3, 0x87),
            Nowhere(4, 0x85),
            Nowhere(5, 0x86),
            Nowhere(6, 0x87),
        ],
    )
}

#[test]
fn overlapping_banks_are_read_together_and_written_together(
    rt: HostRuntime,
) -> Result<(), AllocError> {
    try_lines(
        &rt,
        rt.alloc(),
        &[
            Control(0, 0x81),
            Write(ABg, 0, Half, 0x00f0),
            Control(0, 0),
            Control(1, 0x81),
            Write(ABg, 0, Half, 0x0f00),
            Control(1, 0),
            Control(2, 0x81),
            Write(ABg, 0, Half, 0x2000),
            Control(2, 0),
            Control(0, 0x81),
            Control(1, 0x81),
            Reads(ABg, 0, Half, 0x0ff0),
            Control(2, 0x81),
            Reads(ABg, 3, Word, 0x2ff0),
            Row(ABg, 0, 3, 0xf0, 0x2f, 0, 0xee, 0xee, 0xee),
            Write(ABg, 1, Half, 0x1234),
            Cell(0x0, 0x34),
            Cell(0x1, 0x12),
            Cell(0x2, 0),
            Cell(0x20000, 0x34),
            Cell(0x20001, 0x12),
            Cell(0x20002, 0),
            Cell(0x40000, 0x34),
            Cell(0x40001, 0x12),
            Cell(0x40002, 0),
        ],
    )
}

// F and G stand over the second 16K of A, and C over H and I; the pages beside those have one bank alone.
#[test]
fn pages_of_several_banks_stand_beside_pages_of_one(rt: HostRuntime) -> Result<(), AllocError> {
    try_lines(
        &rt,
        rt.alloc(),
        &[
            Control(0, 0x80),
            Write(Lcdc, 0x3fff, Byte, 0x01),
            Write(Lcdc, 0x4000, Byte, 0x02),
            Write(Lcdc, 0x7fff, Byte, 0x04),
            Write(Lcdc, 0x8000, Byte, 0x08),
            Control(5, 0x80),
            Write(Lcdc, 0x90000, Byte, 0x10),
            Write(Lcdc, 0x93fff, Byte, 0x20),
            Control(6, 0x80),
            Write(Lcdc, 0x94000, Byte, 0x40),
            Write(Lcdc, 0x97fff, Byte, 0x80),
            Control(0, 0x81),
            Row(ABg, 0x3fff, 2, 0x01, 0x02, 0xee, 0xee, 0xee, 0xee),
            Row(ABg, 0x7fff, 2, 0x04, 0x08, 0xee, 0xee, 0xee, 0xee),
            Control(5, 0x89),
            Row(ABg, 0x3fff, 2, 0x01, 0x12, 0xee, 0xee, 0xee, 0xee),
            Row(ABg, 0x7fff, 2, 0x24, 0x08, 0xee, 0xee, 0xee, 0xee),
            Control(6, 0x89),
            Row(ABg, 0x3fff, 2, 0x01, 0x52, 0xee, 0xee, 0xee, 0xee),
            Row(ABg, 0x7fff, 2, 0xa4, 0x08, 0xee, 0xee, 0xee, 0xee),
            Control(5, 0x99),
            Row(ABg, 0x3fff, 2, 0x01, 0x42, 0xee, 0xee, 0xee, 0xee),
            Row(ABg, 0x7fff, 2, 0x84, 0x08, 0xee, 0xee, 0xee, 0xee),
            Row(ABg, 0x13fff, 2, 0, 0x10, 0xee, 0xee, 0xee, 0xee),
            Row(ABg, 0x17fff, 2, 0x20, 0, 0xee, 0xee, 0xee, 0xee),
            Control(0, 0),
            Row(ABg, 0x3fff, 2, 0, 0x40, 0xee, 0xee, 0xee, 0xee),
            Row(ABg, 0x7fff, 2, 0x80, 0, 0xee, 0xee, 0xee, 0xee),
            Write(ABg, 0x3ffc, Word, 0x7777_7777),
            Write(ABg, 0x7ffc, Word, 0x3333_3333),
            Cell(0x3fff, 0x01),
            Cell(0x7fff, 0x04),
            Cell(0x97fff, 0x33),
            Control(2, 0x84),
            Write(BBg, 0x7ffc, Word, 0x0101_0101),
            Write(BBg, 0xbffe, Half, 0x0202),
            Control(7, 0x81),
            Write(BBg, 0x7fff, Byte, 0x11),
            Control(8, 0x81),
            Write(BBg, 0x8000, Byte, 0x21),
            Row(BBg, 0x7ffe, 3, 0x01, 0x11, 0x21, 0xee, 0xee, 0xee),
            Control(2, 0),
            Row(BBg, 0x7ffe, 3, 0, 0x11, 0x21, 0xee, 0xee, 0xee),
            Row(BBg, 0xbffe, 4, 0, 0, 0, 0, 0xee, 0xee),
            Cell(0x47fff, 0x11),
            Cell(0x48000, 0x21),
            Cell(0x9ffff, 0x11),
            Cell(0xa0000, 0x21),
        ],
    )
}

#[test]
fn with_no_bank_nothing_is_read_or_written(rt: HostRuntime) -> Result<(), AllocError> {
    try_lines(
        &rt,
        rt.alloc(),
        &[
            Write(ABg, 0, Word, 0xffff_ffff),
            Reads(ABg, 0, Word, 0),
            Control(0, 0x01),
            Control(1, 0x01),
            Control(2, 0x01),
            Control(3, 0x01),
            Control(4, 0x01),
            Control(5, 0x01),
            Control(6, 0x01),
            Control(7, 0x01),
            Control(8, 0x01),
            Write(ABg, 0, Word, 0xffff_ffff),
            Control(0, 0x80),
            Control(1, 0x80),
            Control(2, 0x80),
            Control(3, 0x80),
            Control(4, 0x80),
            Control(5, 0x80),
            Control(6, 0x80),
            Control(7, 0x80),
            Control(8, 0x80),
            Reads(Lcdc, 0, Word, 0),
            Reads(Lcdc, 0x20000, Word, 0),
            Reads(Lcdc, 0x40000, Word, 0),
            Reads(Lcdc, 0x60000, Word, 0),
            Reads(Lcdc, 0x80000, Word, 0),
            Reads(Lcdc, 0x90000, Word, 0),
            Reads(Lcdc, 0x94000, Word, 0),
            Reads(Lcdc, 0x98000, Word, 0),
            Reads(Lcdc, 0xa0000, Word, 0),
        ],
    )
}

// Each space has its own size: an access past it is the same as one inside.
#[test]
fn an_address_is_taken_by_remainder_of_its_space(rt: HostRuntime) -> Result<(), AllocError> {
    try_lines(
        &rt,
        rt.alloc(),
        &[
            Around(0, 0x81, ABg, 0x80000),
            Around(2, 0x84, BBg, 0x20000),
            Around(0, 0x82, AObj, 0x40000),
            Around(3, 0x84, BObj, 0x20000),
            Around(0, 0x80, Lcdc, 0x100000),
            Around(2, 0x82, Space::Arm7, 0x40000),
            Around(4, 0x84, ABgPalette, 0x8000),
            Around(7, 0x82, BBgPalette, 0x8000),
            Around(5, 0x85, AObjPalette, 0x2000),
            Around(8, 0x83, BObjPalette, 0x2000),
        ],
    )
}

#[test]
fn a_row_runs_on_at_the_start_of_its_space(rt: HostRuntime) -> Result<(), AllocError> {
    try_lines(
        &rt,
        rt.alloc(),
        &[
            Control(2, 0x84),
            Write(BBg, 0, Word, 0x0403_0201),
            Write(BBg, 0x1fffc, Word, 0x0807_0605),
            Row(BBg, 0x1fffe, 5, 7, 8, 1, 2, 3, 0xee),
            Row(BBg, 0xffff_fffe, 5, 7, 8, 1, 2, 3, 0xee),
            // A's last two bytes, then the first of B alone
            Control(0, 0x81),
            Control(1, 0x89),
            Write(ABg, 0x1fffe, Half, 0xa2a1),
            Write(ABg, 0x20000, Half, 0xb2b1),
            Row(ABg, 0x1fffe, 4, 0xa1, 0xa2, 0xb1, 0xb2, 0xee, 0xee),
            // past E's 64K nothing stands
            Control(4, 0x82),
            Write(AObj, 0xfffe, Half, 0xe2e1),
            Row(AObj, 0xfffe, 4, 0xe1, 0xe2, 0, 0, 0xee, 0xee),
            // F stands over E's first 16K, and then after them
            Write(AObj, 0x3ffc, Word, 0x0804_0201),
            Control(5, 0x82),
            Write(AObj, 0x3ffe, Half, 0x8040),
            Control(5, 0x8a),
            Write(AObj, 0x4000, Byte, 0x20),
            Row(AObj, 0x3ffc, 6, 1, 2, 0x40, 0x80, 0x20, 0),
        ],
    )
}

#[test]
fn arm7_sees_c_and_d_where_they_are_allotted(rt: HostRuntime) -> Result<(), AllocError> {
    try_lines(
        &rt,
        rt.alloc(),
        &[
            Control(2, 0x80),
            Control(3, 0x80),
            Write(Lcdc, 0x40000, Byte, 0x0c),
            Write(Lcdc, 0x60000, Byte, 0xd0),
            Arm7(0x80, 0x80, 0, 0, 0),
            Arm7(0x82, 0x80, 1, 0x0c, 0),
            Arm7(0x80, 0x8a, 2, 0, 0xd0),
            Arm7(0x82, 0x8a, 3, 0x0c, 0xd0),
            Arm7(0x82, 0x82, 3, 0xdc, 0),
            Arm7(0x02, 0x0a, 0, 0, 0),
        ],
    )
}

// The memory of all banks goes out from where it lies, A to I.
#[test]
fn all_bytes_stand_in_order(rt: HostRuntime) -> Result<(), AllocError> {
    try_lines(
        &rt,
        rt.alloc(),
        &[
            Control(0, 0x80),
            Write(Lcdc, 0, Byte, 1),
            Control(1, 0x80),
            Write(Lcdc, 0x20000, Byte, 2),
            Control(2, 0x80),
            Write(Lcdc, 0x40000, Byte, 3),
            Control(3, 0x80),
            Write(Lcdc, 0x60000, Byte, 4),
            Control(4, 0x80),
            Write(Lcdc, 0x80000, Byte, 5),
            Control(5, 0x80),
            Write(Lcdc, 0x90000, Byte, 6),
            Control(6, 0x80),
            Write(Lcdc, 0x94000, Byte, 7),
            Control(7, 0x80),
            Write(Lcdc, 0x98000, Byte, 8),
            Control(8, 0x80),
            Write(Lcdc, 0xa0000, Byte, 9),
            Cells(671_744),
            Cell(0, 1),
            Cell(0x20000, 2),
            Cell(0x40000, 3),
            Cell(0x60000, 4),
            Cell(0x80000, 5),
            Cell(0x90000, 6),
            Cell(0x94000, 7),
            Cell(0x98000, 8),
            Cell(0xa0000, 9),
        ],
    )
}
