//! The display's ports and events.

use crate::tests::lines::Line::{Boot, First, Keeps, Reads, Shows, Stops, Write};
use crate::tests::lines::try_lines;
use ds_base::LeftKind::DisplayMode;
use ds_base::Proc::{Nine, Seven};
use ds_base::Width::{Byte, Half, Word};
use std::alloc::AllocError;

/// All bits of a word, and of a half.
const ALL: u32 = 0xFFFF_FFFF;

const HALF: u32 = 0xFFFF;

/// The bits that each keeps are GBATEK's; that unused ones of DISPCNT, BGxCNT and DISPCAPCNT are kept too is our choice.
#[test]
fn each_register_reads_the_bits_that_it_keeps(rt: HostRuntime) -> Result<(), AllocError> {
    try_lines(
        &rt,
        rt.alloc(),
        &[
            Write(Nine, 0x000, Word, ALL),
            Reads(Nine, 0x000, Word, ALL),
            Write(Nine, 0x004, Half, HALF),
            Reads(Nine, 0x004, Half, 0xFFB8),
            Write(Nine, 0x008, Word, ALL),
            Reads(Nine, 0x008, Word, ALL),
            Write(Nine, 0x00E, Half, HALF),
            Reads(Nine, 0x00C, Word, 0xFFFF_0000),
            Write(Nine, 0x048, Word, ALL),
            Reads(Nine, 0x048, Word, 0x3F3F_3F3F),
            Write(Nine, 0x050, Word, ALL),
            Reads(Nine, 0x050, Word, 0x1F1F_3FFF),
            Write(Nine, 0x064, Word, ALL),
            Reads(Nine, 0x064, Word, ALL),
            Write(Nine, 0x06C, Word, ALL),
            Reads(Nine, 0x06C, Word, 0xC01F),
            Write(Nine, 0x304, Half, HALF),
            Reads(Nine, 0x304, Word, HALF),
        ],
    )
}

#[test]
fn those_that_are_written_alone_read_0_and_keep(rt: HostRuntime) -> Result<(), AllocError> {
    try_lines(
        &rt,
        rt.alloc(),
        &[
            Write(Nine, 0x010, Word, ALL),
            Reads(Nine, 0x010, Word, 0),
            Keeps(Nine, 0x010, 0xFF),
            Keeps(Nine, 0x011, 0x01),
            Keeps(Nine, 0x012, 0xFF),
            Keeps(Nine, 0x013, 0x01),
            // another byte stays where one is written
            Write(Nine, 0x010, Byte, 0x12),
            Keeps(Nine, 0x010, 0x12),
            Keeps(Nine, 0x011, 0x01),
            Write(Nine, 0x028, Word, ALL),
            Reads(Nine, 0x028, Word, 0),
            Keeps(Nine, 0x02A, 0xFF),
            Keeps(Nine, 0x02B, 0x0F),
            Write(Nine, 0x02A, Half, 0x1234),
            Keeps(Nine, 0x028, 0xFF),
            Keeps(Nine, 0x029, 0xFF),
            Keeps(Nine, 0x02A, 0x34),
            Keeps(Nine, 0x02B, 0x02),
            Write(Nine, 0x022, Half, 0xABCD),
            Keeps(Nine, 0x022, 0xCD),
            Keeps(Nine, 0x023, 0xAB),
            Reads(Nine, 0x020, Word, 0),
            Write(Nine, 0x040, Half, 0xABCD),
            Keeps(Nine, 0x041, 0xAB),
            Reads(Nine, 0x040, Half, 0),
            Write(Nine, 0x04C, Half, HALF),
            Keeps(Nine, 0x04D, 0xFF),
            Reads(Nine, 0x04C, Half, 0),
            Write(Nine, 0x054, Half, HALF),
            Keeps(Nine, 0x054, 0x1F),
            Keeps(Nine, 0x055, 0),
            Reads(Nine, 0x054, Half, 0),
        ],
    )
}

#[test]
fn a_narrow_write_leaves_the_other_bytes(rt: HostRuntime) -> Result<(), AllocError> {
    try_lines(
        &rt,
        rt.alloc(),
        &[
            Write(Nine, 0x000, Word, 0x1122_3344),
            Write(Nine, 0x001, Byte, 0xAA),
            Reads(Nine, 0x000, Word, 0x1122_AA44),
            Write(Nine, 0x002, Half, 0xBBCC),
            Reads(Nine, 0x000, Word, 0xBBCC_AA44),
            Reads(Nine, 0x002, Byte, 0xCC),
            Reads(Nine, 0x000, Half, 0xAA44),
            Write(Nine, 0x004, Half, 0x5538),
            Write(Nine, 0x005, Byte, 0xAA),
            Reads(Nine, 0x004, Half, 0xAA38),
            Write(Nine, 0x004, Byte, 0xFF),
            Reads(Nine, 0x004, Half, 0xAAB8),
            Write(Nine, 0x304, Half, 0x8203),
            Write(Nine, 0x305, Byte, 0x01),
            Reads(Nine, 0x304, Half, 0x0103),
            Write(Nine, 0x06D, Byte, 0xFF),
            Write(Nine, 0x06C, Byte, 0x0F),
            Reads(Nine, 0x06C, Half, 0xC00F),
        ],
    )
}

#[test]
fn the_engines_are_apart(rt: HostRuntime) -> Result<(), AllocError> {
    try_lines(
        &rt,
        rt.alloc(),
        &[
            Write(Nine, 0x1000, Word, 0x1234_5678),
            Reads(Nine, 0x000, Word, 0),
            Reads(Nine, 0x1000, Word, 0x1234_5678),
            Write(Nine, 0x008, Half, 0x0101),
            Write(Nine, 0x1008, Half, 0x0202),
            Reads(Nine, 0x008, Half, 0x0101),
            Reads(Nine, 0x1008, Half, 0x0202),
            Write(Nine, 0x1010, Half, HALF),
            Keeps(Nine, 0x1011, 0x01),
            Keeps(Nine, 0x010, 0),
            Write(Nine, 0x1048, Half, HALF),
            Reads(Nine, 0x1048, Word, 0x3F3F),
            Reads(Nine, 0x048, Word, 0),
            Write(Nine, 0x106C, Half, HALF),
            Reads(Nine, 0x106C, Half, 0xC01F),
            Reads(Nine, 0x06C, Half, 0),
            // engine B has neither capture nor a status of its own
            Write(Nine, 0x1064, Word, ALL),
            Reads(Nine, 0x1064, Word, 0),
            Write(Nine, 0x1004, Word, ALL),
            Reads(Nine, 0x1004, Word, 0),
        ],
    )
}

#[test]
fn arm7_has_its_own_status_and_the_line_alone(rt: HostRuntime) -> Result<(), AllocError> {
    try_lines(
        &rt,
        rt.alloc(),
        &[
            Write(Seven, 0x004, Half, 0x1234),
            Reads(Seven, 0x004, Half, 0x1230),
            Reads(Nine, 0x004, Half, 0),
            // the H-blank of line 1 has been
            Shows(3),
            Reads(Seven, 0x004, Half, 0x1232),
            Reads(Nine, 0x004, Half, 2),
            Reads(Seven, 0x006, Half, 1),
            Reads(Nine, 0x004, Word, 0x1_0002),
            // it can't be written
            Write(Seven, 0x006, Half, 5),
            Write(Nine, 0x006, Half, 5),
            Reads(Seven, 0x006, Half, 1),
            Reads(Nine, 0x006, Half, 1),
            // nor does a word that is written to the status
            Write(Nine, 0x004, Word, 0x1234_0028),
            Reads(Nine, 0x004, Word, 0x1_002A),
            // nothing else is ARM7's
            Write(Seven, 0x000, Word, ALL),
            Write(Seven, 0x304, Half, HALF),
            Write(Seven, 0x1000, Word, ALL),
            Reads(Seven, 0x000, Word, 0),
            Reads(Nine, 0x000, Word, 0),
            Reads(Nine, 0x304, Half, 0),
            Reads(Nine, 0x1000, Word, 0),
        ],
    )
}

/// IF's bits 0 to 2 are V-blank, H-blank and V-count.
#[test]
fn each_processor_is_interrupted_by_its_own_status(rt: HostRuntime) -> Result<(), AllocError> {
    try_lines(
        &rt,
        rt.alloc(),
        &[
            Write(Nine, 0x004, Half, 0x0010),
            Shows(1),
            Reads(Nine, 0x214, Word, 2),
            Reads(Seven, 0x214, Word, 0),
            // line 2 is ARM9's setting, and line 3 ARM7's
            Boot,
            Write(Nine, 0x004, Half, 0x0220),
            Write(Seven, 0x004, Half, 0x0320),
            Shows(3),
            Reads(Nine, 0x214, Word, 0),
            Shows(1),
            Reads(Nine, 0x214, Word, 4),
            Reads(Nine, 0x004, Half, 0x0224),
            Reads(Seven, 0x214, Word, 0),
            Shows(2),
            Reads(Seven, 0x214, Word, 4),
            Reads(Nine, 0x004, Half, 0x0220),
            // line 192 starts: V-blank, of ARM7 alone
            Boot,
            Write(Seven, 0x004, Half, 0x0008),
            Shows(383),
            Reads(Seven, 0x214, Word, 0),
            Reads(Seven, 0x004, Half, 0x000A),
            Shows(1),
            Reads(Seven, 0x214, Word, 1),
            Reads(Seven, 0x004, Half, 0x0009),
            Reads(Nine, 0x214, Word, 0),
            Reads(Nine, 0x004, Half, 0x0001),
            // line 262, the setting's bit 8 being bit 7
            Write(Nine, 0x004, Half, 0x06A0),
            Shows(139),
            Reads(Nine, 0x214, Word, 0),
            Shows(1),
            Reads(Nine, 0x214, Word, 4),
            Reads(Nine, 0x004, Half, 0x06A4),
        ],
    )
}

/// What a line needs that isn't there stops it, and then all is as it was.
#[test]
fn a_line_that_stops_changes_nothing(rt: HostRuntime) -> Result<(), AllocError> {
    try_lines(
        &rt,
        rt.alloc(),
        &[
            // engine A shows main memory, and H-blank would interrupt
            Write(Nine, 0x000, Word, 0x0003_0000),
            Write(Nine, 0x004, Half, 0x0010),
            Write(Nine, 0x304, Half, 0x0002),
            Stops(DisplayMode, 3),
            First(3212, 1),
            Reads(Nine, 0x004, Half, 0x0010),
            Reads(Nine, 0x214, Word, 0),
            Stops(DisplayMode, 3),
            // it is disabled: then nothing is needed
            Write(Nine, 0x304, Half, 0),
            Shows(1),
            First(4260, 1),
            Reads(Nine, 0x004, Half, 0x0012),
            Reads(Nine, 0x214, Word, 2),
        ],
    )
}
