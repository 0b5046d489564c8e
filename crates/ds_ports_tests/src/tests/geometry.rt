//! The geometry engine, through its ports, and what it makes of interrupts and DMA.

use crate::tests::lines::Line::{
    At, Boot, ChannelDue, Does, Fills, Finishes, First, GeometryDue, Held, Is, Reads, Settled,
    Settles, Swaps, Write,
};
use crate::tests::lines::{NEVER, try_lines};
use ds_base::Proc::{Nine, Seven};
use ds_base::Width::{Byte, Half, Word};
use std::alloc::AllocError;

/// GXSTAT where nothing waits and nothing is selected: fewer than 128 entries, and none.
const EMPTY: u32 = 0x0600_0000;

/// The same where some wait, fewer than five.
const BUSY: u32 = 0x0E00_0000;

/// GXFIFO, and the ports of MTX_MODE (one tick pair), MTX_POP, MTX_IDENTITY (38 ticks), VTX_10 and SWAP_BUFFERS.
const FIFO: u32 = 0x400;

const MODE: u32 = 0x440;

const POP: u32 = 0x448;

const IDENTITY: u32 = 0x454;

const VERTEX: u32 = 0x490;

const SWAP: u32 = 0x540;

/// All bits of a word.
const ALL: u32 = 0xFFFF_FFFF;

/// Bit 21 of IF.
const LEVEL: u32 = 0x20_0000;

#[test]
fn a_packed_word_waits_for_its_parameters(rt: HostRuntime) -> Result<(), AllocError> {
    try_lines(
        &rt,
        rt.alloc(),
        &[
            At(100),
            // MTX_MODE, which has a parameter, and MTX_IDENTITY, which has none
            Write(Nine, FIFO, Word, 0x1510),
            Reads(Nine, 0x600, Word, EMPTY),
            GeometryDue(NEVER),
            At(110),
            Write(Nine, FIFO, Word, 1),
            Reads(Nine, 0x600, Word, BUSY),
            GeometryDue(112),
            First(112, 12),
            Finishes,
            Reads(Nine, 0x600, Word, BUSY),
            GeometryDue(150),
            Finishes,
            Reads(Nine, 0x600, Word, EMPTY),
            GeometryDue(NEVER),
            Reads(Nine, FIFO, Word, 0),
        ],
    )
}

/// A command's own port adds its entry at once; what is narrower than a word is ignored there, and reads 0. ARM7 has none of these.
#[test]
fn ports_of_commands_take_whole_words(rt: HostRuntime) -> Result<(), AllocError> {
    try_lines(
        &rt,
        rt.alloc(),
        &[
            Write(Nine, FIFO, Half, 0x15),
            Write(Nine, FIFO, Byte, 0x15),
            Write(Nine, IDENTITY, Half, 0),
            Write(Nine, IDENTITY + 3, Byte, 0),
            Write(Seven, FIFO, Word, 0x15),
            Write(Seven, IDENTITY, Word, 0),
            Reads(Nine, 0x600, Word, EMPTY),
            Reads(Nine, FIFO, Half, 0),
            Reads(Nine, IDENTITY, Word, 0),
            // a code without a command adds nothing
            Write(Nine, 0x5FC, Word, 0),
            Reads(Nine, 0x600, Word, EMPTY),
            At(7),
            Write(Nine, IDENTITY, Word, 0),
            Reads(Nine, 0x600, Word, BUSY),
            Reads(Nine, 0x603, Byte, 0x0E),
            Reads(Nine, 0x602, Half, 0x0E00),
            GeometryDue(45),
            Write(Nine, FIFO, Word, 0x15),
            GeometryDue(45),
        ],
    )
}

/// The selector is kept; bit 15 acts where its byte is written, and not where another one is.
#[test]
fn gxstat_is_written_by_its_bytes(rt: HostRuntime) -> Result<(), AllocError> {
    try_lines(
        &rt,
        rt.alloc(),
        &[
            Write(Nine, 0x603, Byte, 0x40),
            Reads(Nine, 0x600, Word, EMPTY + 0x4000_0000),
            Write(Nine, 0x602, Byte, 0xFF),
            Reads(Nine, 0x600, Word, EMPTY + 0x4000_0000),
            Write(Nine, 0x602, Half, 0x8000),
            Reads(Nine, 0x600, Word, EMPTY + 0x8000_0000),
            // the projection stack has nothing to pop
            Does(1, POP, 1),
            Reads(Nine, 0x600, Word, EMPTY + 0x8000_8000),
            Write(Nine, 0x603, Byte, 0xC0),
            Reads(Nine, 0x600, Word, EMPTY + 0xC000_8000),
            Write(Nine, 0x600, Byte, 0xFF),
            Reads(Nine, 0x600, Word, EMPTY + 0xC000_8000),
            Write(Nine, 0x601, Byte, 0x80),
            Reads(Nine, 0x600, Word, EMPTY + 0xC000_0000),
            Does(1, POP, 1),
            Write(Nine, 0x600, Word, 0x8000),
            Reads(Nine, 0x600, Word, EMPTY),
        ],
    )
}

/// DISP3DCNT keeps bits 0 to 12 and 14; bit 13 tells that a list was full. RAM_COUNT tells how long the open lists are.
#[test]
fn lists_that_are_full_are_told_until_they_are_cleared(rt: HostRuntime) -> Result<(), AllocError> {
    try_lines(
        &rt,
        rt.alloc(),
        &[
            Write(Nine, 0x060, Word, ALL),
            Reads(Nine, 0x060, Word, 0x5FFF),
            Write(Nine, 0x061, Byte, 0),
            Reads(Nine, 0x060, Half, 0x00FF),
            Does(6144, VERTEX, 0),
            Reads(Nine, 0x604, Word, 0x1800_0000),
            Reads(Nine, 0x606, Half, 0x1800),
            Reads(Nine, 0x060, Word, 0x00FF),
            Does(1, VERTEX, 0),
            Reads(Nine, 0x060, Word, 0x20FF),
            // it isn't among what a narrower write keeps
            Write(Nine, 0x060, Byte, 0x12),
            Reads(Nine, 0x060, Word, 0x2012),
            Write(Nine, 0x061, Byte, 0x60),
            Reads(Nine, 0x060, Word, 0x4012),
            Write(Nine, 0x604, Word, ALL),
            Reads(Nine, 0x604, Word, 0x1800_0000),
            // a swap gives them out, once
            Swaps(false, 0, 0),
            Does(1, SWAP, 0),
            Reads(Nine, 0x600, Word, BUSY),
            Swaps(true, 6144, 0),
            Reads(Nine, 0x600, Word, EMPTY),
            Reads(Nine, 0x604, Word, 0),
            Swaps(false, 6144, 0),
        ],
    )
}

/// Bit 21 of ARM9's IF is as the selector says, after each step.
#[test]
fn the_interrupt_is_a_level(rt: HostRuntime) -> Result<(), AllocError> {
    try_lines(
        &rt,
        rt.alloc(),
        &[
            Settled(true),
            Write(Nine, 0x603, Byte, 0x40),
            Settled(false),
            Reads(Nine, 0x214, Word, 0),
            Settles,
            Settled(true),
            Reads(Nine, 0x214, Word, LEVEL),
            Reads(Seven, 0x214, Word, 0),
            // a 1 that is written to it leaves it up
            Write(Nine, 0x214, Word, ALL),
            Settles,
            Reads(Nine, 0x214, Word, LEVEL),
            // 127 entries and the four before them, then one more
            Fills(131, IDENTITY, 0),
            Settled(true),
            Fills(1, IDENTITY, 0),
            Settled(false),
            Settles,
            Reads(Nine, 0x214, Word, 0),
            Finishes,
            Settles,
            Reads(Nine, 0x214, Word, LEVEL),
            // with selector 2 none but the four may wait
            Write(Nine, 0x603, Byte, 0x80),
            Settles,
            Reads(Nine, 0x214, Word, 0),
            Boot,
            Write(Nine, 0x603, Byte, 0x80),
            Fills(4, IDENTITY, 0),
            Settles,
            Reads(Nine, 0x214, Word, LEVEL),
            Fills(1, IDENTITY, 0),
            Settles,
            Reads(Nine, 0x214, Word, 0),
            Finishes,
            Settles,
            Reads(Nine, 0x214, Word, LEVEL),
            Write(Nine, 0x603, Byte, 0xC0),
            Settles,
            Reads(Nine, 0x214, Word, 0),
            Write(Nine, 0x603, Byte, 0x40),
            Settles,
            Write(Nine, 0x603, Byte, 0),
            Settles,
            Reads(Nine, 0x214, Word, 0),
        ],
    )
}

/// More entries than four and 256 hold ARM9 and its channels, and the command that leaves fewer lets the channels go on at the next tick or later.
#[test]
fn a_stall_holds_arm9_and_its_channels(rt: HostRuntime) -> Result<(), AllocError> {
    try_lines(
        &rt,
        rt.alloc(),
        &[
            At(100),
            Write(Nine, 0x0C4, Word, 0x8400_0001),
            Write(Seven, 0x0C4, Word, 0x8400_0001),
            ChannelDue(Nine, 1, 104),
            Fills(260, IDENTITY, 0),
            ChannelDue(Nine, 1, 104),
            First(104, 15),
            Fills(1, IDENTITY, 0),
            Held(Nine, true),
            ChannelDue(Nine, 1, NEVER),
            ChannelDue(Seven, 1, 104),
            First(104, 19),
            GeometryDue(138),
            Finishes,
            ChannelDue(Nine, 1, 139),
            ChannelDue(Seven, 1, 104),
            First(104, 19),
            Write(Seven, 0x0C4, Word, 0),
            First(139, 15),
            // its own tick, where that is later
            Boot,
            At(100),
            Fills(261, MODE, 0),
            At(101),
            Write(Nine, 0x0B8, Word, 0x8400_0001),
            ChannelDue(Nine, 0, NEVER),
            First(102, 12),
            Finishes,
            ChannelDue(Nine, 0, 105),
            // ARM9 alone is held, also where no channel runs
            Boot,
            Fills(260, MODE, 0),
            Held(Nine, false),
            Fills(1, MODE, 0),
            Held(Nine, true),
            Is(Nine, false, false),
            Held(Seven, false),
            Finishes,
            Held(Nine, false),
        ],
    )
}

/// A channel of ARM9's with start 7 begins a burst where fewer than 128 entries and the four before them wait.
#[test]
fn a_burst_begins_while_the_fifo_is_less_than_half_full(rt: HostRuntime) -> Result<(), AllocError> {
    try_lines(
        &rt,
        rt.alloc(),
        &[
            Write(Nine, 0x0B8, Word, 0xBC00_00C8),
            ChannelDue(Nine, 0, NEVER),
            Settled(false),
            At(50),
            Settles,
            Settled(true),
            ChannelDue(Nine, 0, 54),
            Held(Nine, true),
            Boot,
            Fills(132, IDENTITY, 0),
            Write(Nine, 0x0B8, Word, 0xBC00_00C8),
            Settled(true),
            At(30),
            Settles,
            ChannelDue(Nine, 0, NEVER),
            Finishes,
            Settled(false),
            At(38),
            Settles,
            ChannelDue(Nine, 0, 42),
            // ARM7 has no such start: its start 3 is refused elsewhere, and its others don't wait for this
            Boot,
            Write(Seven, 0x0B8, Word, 0x9000_0001),
            Settled(true),
            Settles,
            ChannelDue(Seven, 0, NEVER),
        ],
    )
}
