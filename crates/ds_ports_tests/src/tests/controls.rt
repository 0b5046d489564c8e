//! Memory control.

use crate::tests::lines::Line::{Boot, Reads, Vram, Wramcnt, Write, WriteVram};
use crate::tests::lines::try_lines;
use ds_base::Proc::{Nine, Seven};
use ds_base::Space::Lcdc;
use ds_base::Width::{Byte, Half, Word};
use std::alloc::AllocError;

#[test]
fn controls_are_read_as_the_list_says(rt: HostRuntime) -> Result<(), AllocError> {
    try_lines(
        &rt,
        rt.alloc(),
        &[
            Wramcnt(3),
            Reads(Nine, 0x247, Byte, 3),
            Reads(Nine, 0x246, Half, 0x0300),
            Reads(Nine, 0x244, Word, 0x0300_0000),
            Reads(Nine, 0x300, Word, 1),
            Reads(Seven, 0x240, Word, 0x0300),
            Reads(Seven, 0x241, Byte, 3),
            Reads(Seven, 0x300, Byte, 1),
            // banks C and D for ARM7 (MST 2), and bank C without its enable
            Write(Nine, 0x242, Half, 0x8A82),
            Reads(Seven, 0x240, Byte, 3),
            Boot,
            Write(Nine, 0x242, Half, 0x8A02),
            Reads(Seven, 0x240, Byte, 2),
            Reads(Nine, 0x242, Half, 0),
        ],
    )
}

#[test]
fn a_wide_write_goes_through_its_registers(rt: HostRuntime) -> Result<(), AllocError> {
    try_lines(
        &rt,
        rt.alloc(),
        &[
            // E to G and WRAMCNT by a word at 244h; bits above 1 of WRAMCNT aren't kept
            Write(Nine, 0x244, Word, 0xFE80_8080),
            Reads(Nine, 0x247, Byte, 2),
            Reads(Seven, 0x241, Byte, 2),
            Wramcnt(2),
            // and by one at 247h, which is aligned down; what no register has reads 0
            Boot,
            Write(Nine, 0x247, Word, 0xFE80_8080),
            Reads(Nine, 0x247, Byte, 2),
            Reads(Seven, 0x243, Word, 0x0200),
            Reads(Seven, 0x241, Half, 0x0200),
            // bank H for LCDC at 98000h, bank I at A0000h
            Boot,
            Write(Nine, 0x248, Half, 0x8080),
            WriteVram(Lcdc, 0x9_8000, 5),
            WriteVram(Lcdc, 0xA_0000, 6),
            Vram(Lcdc, 0x9_8000, 5),
            Vram(Lcdc, 0xA_0000, 6),
            // ARM7 writes none of them
            Boot,
            Write(Seven, 0x240, Word, 0x0101_0101),
            Reads(Nine, 0x247, Byte, 3),
            Write(Nine, 0x300, Byte, 0),
            Reads(Nine, 0x300, Byte, 1),
        ],
    )
}
