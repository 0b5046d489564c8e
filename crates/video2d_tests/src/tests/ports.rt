//! Ports: the bits that each keeps, what is read, narrow and wide writes.

use super::registers::{
    B, BG0HOFS, BG2PA, BG3CNT, BG3Y, BLDALPHA, BLDCNT, BLDY, DISP_MMEM_FIFO, DISP3DCNT, DISPCAPCNT,
    DISPCNT, DISPSTAT, MASTER_BRIGHT, MOSAIC, POWCNT1, VCOUNT, WIN0V, WIN1V, WININ, WINOUT,
};
use super::{Line, try_lines};
use Line::{Reads, ToHblank, Write};
use Proc::{Nine, Seven};
use Width::{Byte, Half, Word};
use ds_base::{Proc, Width};
use std::alloc::AllocError;

#[test]
#[rattlefmt::skip]
fn dispstat_keeps_its_bits_and_vcount_cannot_be_written(rt: HostRuntime) -> Result<(), AllocError> {
    try_lines(&rt, rt.alloc(), &[
        // Write(processor, register, width, value)   Reads(processor, register, byte)
        Write(Nine, DISPSTAT, Half, 0xFFFF), Reads(Nine, DISPSTAT, 0xB8), Reads(Nine, DISPSTAT + 1, 0xFF),
        Reads(Seven, DISPSTAT, 0), Reads(Seven, DISPSTAT + 1, 0),
        // a byte leaves the other as it is
        Write(Nine, DISPSTAT, Byte, 0x08), Reads(Nine, DISPSTAT, 0x08), Reads(Nine, DISPSTAT + 1, 0xFF),
        Write(Nine, DISPSTAT + 1, Byte, 0x12), Reads(Nine, DISPSTAT, 0x08), Reads(Nine, DISPSTAT + 1, 0x12),
        // flags can't be written
        ToHblank(1), Write(Seven, DISPSTAT, Byte, 0), Reads(Seven, DISPSTAT, 0x02),
        // a word writes DISPSTAT alone, whatever its offset's low bits
        Write(Seven, DISPSTAT + 3, Word, 0x00C8_3420), Reads(Seven, DISPSTAT, 0x22), Reads(Seven, DISPSTAT + 1, 0x34),
        Reads(Seven, VCOUNT, 1),
        Write(Nine, VCOUNT, Half, 0x0064), Reads(Nine, VCOUNT, 1), Reads(Nine, VCOUNT + 1, 0),
    ])
}

#[test]
#[rattlefmt::skip]
fn registers_keep_their_bits(rt: HostRuntime) -> Result<(), AllocError> {
    try_lines(&rt, rt.alloc(), &[
        // Write(processor, register, width, value)   Reads(processor, register, byte)
        Write(Nine, DISPCNT, Word, 0xFFFF_FFFF), Reads(Nine, DISPCNT, 0xFF), Reads(Nine, DISPCNT + 3, 0xFF),
        Write(Nine, DISPCNT + 1, Byte, 0x12), Reads(Nine, DISPCNT, 0xFF), Reads(Nine, DISPCNT + 1, 0x12),
        Reads(Nine, DISPCNT + 2, 0xFF),
        Write(Nine, BG3CNT, Half, 0xFFFF), Reads(Nine, BG3CNT, 0xFF), Reads(Nine, BG3CNT + 1, 0xFF),
        // scrolls, affine numbers and the windows' sides read 0
        Write(Nine, BG0HOFS, Word, 0xFFFF_FFFF), Reads(Nine, BG0HOFS, 0), Reads(Nine, BG0HOFS + 1, 0),
        Write(Nine, BG2PA, Word, 0xFFFF_FFFF), Reads(Nine, BG2PA, 0),
        Write(Nine, BG3Y, Word, 0xFFFF_FFFF), Reads(Nine, BG3Y, 0),
        Write(Nine, WIN0V, Word, 0xFFFF_FFFF), Reads(Nine, WIN1V + 1, 0),
        Write(Nine, WININ, Word, 0xFFFF_FFFF), Reads(Nine, WININ, 0x3F), Reads(Nine, WININ + 1, 0x3F), Reads(Nine, WINOUT, 0x3F),
        Reads(Nine, WINOUT + 1, 0x3F),
        Write(Nine, MOSAIC, Word, 0xFFFF_FFFF), Reads(Nine, MOSAIC, 0), Reads(Nine, MOSAIC + 2, 0),
        Write(Nine, BLDCNT, Word, 0xFFFF_FFFF), Reads(Nine, BLDCNT, 0xFF), Reads(Nine, BLDCNT + 1, 0x3F),
        Reads(Nine, BLDALPHA, 0x1F), Reads(Nine, BLDALPHA + 1, 0x1F),
        Write(Nine, BLDY, Word, 0xFFFF_FFFF), Reads(Nine, BLDY, 0),
        // 3D's control is no port of the display
        Write(Nine, DISP3DCNT, Word, 0xFFFF_FFFF), Reads(Nine, DISP3DCNT, 0),
        Write(Nine, DISPCAPCNT, Word, 0x8765_4321), Reads(Nine, DISPCAPCNT, 0x21), Reads(Nine, DISPCAPCNT + 3, 0x87),
        Reads(Nine, DISP_MMEM_FIFO, 0),
        Write(Nine, MASTER_BRIGHT, Word, 0xFFFF_FFFF), Reads(Nine, MASTER_BRIGHT, 0x1F), Reads(Nine, MASTER_BRIGHT + 1, 0xC0),
        Reads(Nine, MASTER_BRIGHT + 2, 0),
        Write(Nine, POWCNT1, Word, 0xFFFF_FFFF), Reads(Nine, POWCNT1, 0xFF), Reads(Nine, POWCNT1 + 1, 0xFF),
        Reads(Nine, POWCNT1 + 2, 0),
    ])
}

#[test]
#[rattlefmt::skip]
fn engine_b_stands_at_its_own_base_and_arm7_has_neither(rt: HostRuntime) -> Result<(), AllocError> {
    try_lines(&rt, rt.alloc(), &[
        // Write(processor, register, width, value)   Reads(processor, register, byte)
        Write(Nine, B + DISPCNT, Word, 0x1234_5678), Reads(Nine, B + DISPCNT, 0x78), Reads(Nine, B + DISPCNT + 3, 0x12),
        Reads(Nine, DISPCNT, 0),
        Write(Nine, DISPCNT, Word, 0x9ABC_DEF0), Reads(Nine, B + DISPCNT, 0x78), Reads(Nine, DISPCNT, 0xF0),
        // no DISPSTAT, VCOUNT or DISPCAPCNT there
        Write(Nine, B + DISPSTAT, Word, 0xFFFF_FFFF), Reads(Nine, B + DISPSTAT, 0), Reads(Nine, B + VCOUNT, 0),
        Write(Nine, B + DISPCAPCNT, Word, 0xFFFF_FFFF), Reads(Nine, B + DISPCAPCNT, 0),
        Write(Nine, B + MASTER_BRIGHT, Half, 0xFFFF), Reads(Nine, B + MASTER_BRIGHT + 1, 0xC0),
        Write(Nine, 0x1070, Half, 0xFFFF), Reads(Nine, 0x1070, 0), Reads(Seven, DISPCNT, 0), Reads(Seven, B + DISPCNT, 0),
        Write(Seven, DISPCNT, Word, 0), Write(Seven, B + DISPCNT, Word, 0), Write(Seven, POWCNT1, Word, 0xFFFF_FFFF),
        Reads(Nine, DISPCNT, 0xF0), Reads(Nine, B + DISPCNT, 0x78), Reads(Nine, POWCNT1, 0),
        Write(Nine, POWCNT1, Half, 0x8203), Reads(Nine, POWCNT1 + 1, 0x82), Reads(Seven, POWCNT1, 0), Reads(Seven, POWCNT1 + 1, 0),
    ])
}
