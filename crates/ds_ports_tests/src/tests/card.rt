//! The card's ports, by GBATEK's "DS Cartridge I/O Ports", and by our choices of ticks, of the card's identity and of whom it tells.

use crate::tests::lines::Line::{
    At, Boot, CardDue, ChannelDue, File, First, Gives, Halt, Is, Moves, NoneDue, Press, Read,
    Reads, Refused, Settles, Takes, Write,
};
use crate::tests::lines::{NEVER, try_lines};
use ds_base::LeftKind::CardTransfer;
use ds_base::Proc::{Nine, Seven};
use ds_base::Width::{Byte, Half, Word};
use std::alloc::AllocError;

const AUXSPICNT: u32 = 0x1A0;

const ROMCTRL: u32 = 0x1A4;

const COMMAND: u32 = 0x1A8;

const ADDRESS: u32 = 0x1AC;

const DATA: u32 = 0x10_0010;

/// IF, and its bit of the card.
const IF: u32 = 0x214;

const ENDED: u32 = 0x8_0000;

#[test]
fn each_port_keeps_its_bits(rt: HostRuntime) -> Result<(), AllocError> {
    try_lines(
        &rt,
        rt.alloc(),
        &[
            // AUXSPICNT: bits 13 to 15, each processor its own
            Reads(Nine, AUXSPICNT, Word, 0),
            Write(Nine, AUXSPICNT, Word, 0xFFFF_FFFF),
            Reads(Nine, AUXSPICNT, Half, 0xE000),
            Reads(Nine, AUXSPICNT, Word, 0xE000),
            Reads(Seven, AUXSPICNT, Half, 0),
            Write(Seven, AUXSPICNT, Half, 0x5FFF),
            Write(Nine, AUXSPICNT, Byte, 0xFF),
            Reads(Nine, AUXSPICNT, Half, 0xE000),
            Write(Nine, AUXSPICNT + 1, Byte, 0x3F),
            Reads(Nine, AUXSPICNT, Half, 0x2000),
            Reads(Nine, AUXSPICNT + 1, Byte, 0x20),
            Reads(Seven, AUXSPICNT, Word, 0x4000),
            // ROMCTRL: bits 0 to 22 and 24 to 30, one register for both
            Write(Nine, ROMCTRL, Word, 0x7FFF_FFFF),
            Reads(Nine, ROMCTRL, Word, 0x7F7F_FFFF),
            Reads(Seven, ROMCTRL, Word, 0x7F7F_FFFF),
            Write(Seven, ROMCTRL + 2, Half, 0x1280),
            Reads(Nine, ROMCTRL, Word, 0x1200_FFFF),
            Write(Nine, ROMCTRL, Byte, 0x34),
            Reads(Seven, ROMCTRL, Half, 0xFF34),
            // the command: all bits, one for both
            Write(Nine, COMMAND, Word, 0x4433_2211),
            Write(Seven, ADDRESS, Word, 0x8877_6655),
            Write(Nine, COMMAND + 3, Byte, 0xDD),
            Write(Seven, ADDRESS + 2, Half, 0xBBAA),
            Reads(Seven, COMMAND, Word, 0xDD33_2211),
            Reads(Nine, ADDRESS, Word, 0xBBAA_6655),
            Reads(Nine, COMMAND + 2, Half, 0xDD33),
            Reads(Seven, ADDRESS + 3, Byte, 0xBB),
            // what stands beside them, and the data
            Write(Nine, AUXSPICNT + 2, Half, 0xFFFF),
            Reads(Nine, AUXSPICNT + 2, Half, 0),
            Reads(Nine, 0x1B0, Word, 0),
            Write(Nine, DATA, Word, 0xFFFF_FFFF),
            Reads(Nine, DATA, Word, 0),
            Reads(Nine, AUXSPICNT, Word, 0x2000),
            NoneDue,
        ],
    )
}

/// A block of one word, from 8004h on; each processor, and its other one.
#[test]
fn a_word_is_ready_after_40_ticks_for_its_starter(rt: HostRuntime) -> Result<(), AllocError> {
    for (proc, other) in [(Nine, Seven), (Seven, Nine)] {
        try_lines(
            &rt,
            rt.alloc(),
            &[
                File(0x1122_3344, 0x5566_7788),
                Write(proc, COMMAND, Word, 0x8000_00B7),
                Write(proc, ADDRESS, Word, 0x04),
                At(100),
                Write(proc, ROMCTRL, Word, 0x8700_0000),
                CardDue(140),
                First(140, 13),
                Reads(proc, ROMCTRL, Word, 0x8700_0000),
                At(139),
                Takes(proc, DATA, Word, 0),
                CardDue(140),
                At(140),
                Gives,
                CardDue(NEVER),
                NoneDue,
                Reads(proc, ROMCTRL, Word, 0x8780_0000),
                Reads(other, ROMCTRL + 2, Byte, 0x80),
                Reads(other, ROMCTRL + 2, Half, 0x8780),
                // what takes no word: the other processor, bytes and halves, the bytes beside the port
                At(145),
                Takes(other, DATA, Word, 0),
                Takes(proc, DATA, Half, 0),
                Takes(proc, DATA + 2, Half, 0),
                Takes(proc, DATA, Byte, 0),
                Takes(proc, DATA - 4, Word, 0),
                Takes(proc, DATA + 4, Word, 0),
                Reads(proc, DATA, Word, 0x5566_7788),
                Reads(other, DATA, Word, 0),
                Reads(proc, ROMCTRL, Word, 0x8780_0000),
                // and what does
                At(150),
                Takes(proc, DATA, Word, 0x5566_7788),
                Reads(proc, ROMCTRL, Word, 0x0700_0000),
                Reads(proc, IF, Word, 0),
                Reads(other, IF, Word, 0),
                Takes(proc, DATA, Word, 0),
                NoneDue,
            ],
        )?;
    }
    Ok(())
}

#[test]
fn the_next_word_is_due_40_ticks_after_the_one_before_was_taken(
    rt: HostRuntime,
) -> Result<(), AllocError> {
    try_lines(
        &rt,
        rt.alloc(),
        &[
            File(0x1122_3344, 0x5566_7788),
            // the place below 8000h is that within 200h
            Write(Nine, COMMAND, Word, 0x0200_00B7),
            At(10),
            Write(Nine, ROMCTRL, Word, 0x8100_0000),
            First(50, 13),
            At(50),
            Gives,
            At(60),
            Read(Nine, DATA, Half),
            NoneDue,
            Read(Nine, DATA, Word),
            CardDue(100),
            First(100, 13),
            Reads(Nine, ROMCTRL, Word, 0x8100_0000),
            At(100),
            Gives,
            At(777),
            Takes(Nine, DATA, Word, 0x5566_7788),
            First(817, 13),
            At(817),
            Gives,
            // past the file's end
            Takes(Nine, DATA, Word, 0),
            First(857, 13),
            // the identity, again and again
            Boot,
            At(0),
            Write(Seven, COMMAND, Byte, 0xB8),
            Write(Seven, ROMCTRL, Word, 0x8200_0000),
            First(40, 13),
            At(40),
            Gives,
            Takes(Seven, DATA, Word, 0xFC2),
            First(80, 13),
            At(80),
            Gives,
            Takes(Seven, DATA, Word, 0xFC2),
            First(120, 13),
        ],
    )
}

/// The byte that has bit 31 starts a transfer: which accesses cover it with that bit.
#[test]
fn the_top_byte_alone_starts_a_transfer(rt: HostRuntime) -> Result<(), AllocError> {
    for proc in [Nine, Seven] {
        try_lines(
            &rt,
            rt.alloc(),
            &[
                Write(proc, COMMAND, Word, 0xB7),
                Write(proc, ROMCTRL, Word, 0x0023_4567),
                At(100),
                Write(proc, ROMCTRL, Byte, 0x87),
                Write(proc, ROMCTRL + 1, Byte, 0x87),
                Write(proc, ROMCTRL + 2, Byte, 0x87),
                Write(proc, ROMCTRL, Half, 0x8700),
                Write(proc, ROMCTRL + 3, Byte, 0x7F),
                NoneDue,
                Reads(proc, ROMCTRL, Word, 0x7F07_8700),
                Write(proc, ROMCTRL + 3, Byte, 0x87),
                First(140, 13),
                Reads(proc, ROMCTRL, Word, 0x8707_8700),
                Boot,
                Write(proc, COMMAND, Word, 0xB7),
                Write(proc, ROMCTRL, Word, 0x0023_4567),
                Write(proc, ROMCTRL + 2, Half, 0x8789),
                First(140, 13),
                Reads(proc, ROMCTRL, Word, 0x8709_4567),
            ],
        )?;
    }
    Ok(())
}

#[test]
fn a_start_with_another_command_is_refused(rt: HostRuntime) -> Result<(), AllocError> {
    for proc in [Nine, Seven] {
        try_lines(
            &rt,
            rt.alloc(),
            &[
                // the value has the kept bits in the bytes that aren't written
                Write(Nine, ROMCTRL, Word, 0x0123_4567),
                Refused(proc, ROMCTRL, Word, 0x8765_4321, CardTransfer, 0x8765_4321),
                Reads(proc, ROMCTRL, Word, 0x0123_4567),
                Refused(proc, ROMCTRL + 2, Half, 0xFF80, CardTransfer, 0xFF80_4567),
                Reads(proc, ROMCTRL, Word, 0x0123_4567),
                Refused(proc, ROMCTRL + 3, Byte, 0x80, CardTransfer, 0x8023_4567),
                Reads(proc, ROMCTRL, Word, 0x0123_4567),
                NoneDue,
                // the command's first byte counts alone
                Write(proc, COMMAND, Word, 0xB7B7_B7B6),
                Refused(proc, ROMCTRL, Word, 0x8000_0000, CardTransfer, 0x8000_0000),
                Write(proc, COMMAND, Byte, 0xB9),
                Refused(proc, ROMCTRL + 3, Byte, 0x87, CardTransfer, 0x8723_4567),
                Write(proc, ROMCTRL, Half, 0x8000),
                Write(proc, ROMCTRL + 3, Byte, 0x7F),
                NoneDue,
                Write(proc, COMMAND, Byte, 0xB8),
                At(7),
                Write(proc, ROMCTRL + 3, Byte, 0x87),
                First(47, 13),
            ],
        )?;
    }
    Ok(())
}

#[test]
fn while_it_is_busy_its_registers_stay(rt: HostRuntime) -> Result<(), AllocError> {
    try_lines(
        &rt,
        rt.alloc(),
        &[
            File(0x1122_3344, 0x5566_7788),
            Write(Nine, COMMAND, Word, 0x8000_00B7),
            Write(Nine, ROMCTRL, Word, 0x8123_4567),
            At(20),
            // before the word is ready, and while it is, by both; no start is refused then
            Write(Nine, COMMAND, Word, 0),
            Write(Seven, ADDRESS, Byte, 4),
            Write(Seven, ROMCTRL, Word, 0x8700_0000),
            Write(Nine, ROMCTRL + 3, Byte, 0x80),
            First(40, 13),
            At(40),
            Gives,
            Write(Nine, ROMCTRL, Word, 0),
            Write(Seven, ROMCTRL + 3, Byte, 0x87),
            Write(Seven, COMMAND + 2, Half, 0x9F9F),
            Reads(Seven, ROMCTRL, Word, 0x81A3_4567),
            Reads(Nine, COMMAND, Word, 0x8000_00B7),
            Reads(Nine, ADDRESS, Word, 0),
            NoneDue,
            // and AUXSPICNT doesn't
            Write(Nine, AUXSPICNT, Half, 0x4000),
            Reads(Nine, AUXSPICNT, Half, 0x4000),
            Takes(Nine, DATA, Word, 0x1122_3344),
            Gives,
            Takes(Nine, DATA, Word, 0x5566_7788),
        ],
    )
}

/// The interrupt is the starter's, where bit 14 of its own AUXSPICNT is 1 at the end.
#[test]
fn the_end_raises_at_the_starter_alone(rt: HostRuntime) -> Result<(), AllocError> {
    for (proc, other) in [(Nine, Seven), (Seven, Nine)] {
        try_lines(
            &rt,
            rt.alloc(),
            &[
                Write(other, AUXSPICNT, Half, 0x4000),
                Write(proc, COMMAND, Word, 0xB7),
                Write(proc, ROMCTRL, Word, 0x8700_0000),
                Gives,
                Takes(proc, DATA, Word, 0),
                Reads(proc, IF, Word, 0),
                Reads(other, IF, Word, 0),
                // its own bit, set while the transfer is busy
                Write(other, AUXSPICNT, Half, 0),
                Write(proc, ROMCTRL, Word, 0x8700_0000),
                Write(proc, AUXSPICNT, Half, 0x4000),
                Gives,
                Reads(proc, IF, Word, 0),
                Takes(proc, DATA, Word, 0),
                Reads(proc, IF, Word, ENDED),
                Reads(other, IF, Word, 0),
                Write(proc, IF, Word, ENDED),
                Reads(proc, IF, Word, 0),
                // and cleared
                Write(proc, ROMCTRL, Word, 0x8700_0000),
                Write(proc, AUXSPICNT + 1, Byte, 0xA0),
                Gives,
                Takes(proc, DATA, Word, 0),
                Reads(proc, IF, Word, 0),
                // a block without words ends at its event
                Write(proc, AUXSPICNT, Half, 0x4000),
                At(60),
                Write(proc, ROMCTRL, Word, 0x8000_0000),
                First(100, 13),
                Reads(proc, ROMCTRL, Word, 0x8000_0000),
                Gives,
                NoneDue,
                Reads(proc, ROMCTRL, Word, 0),
                Reads(proc, IF, Word, ENDED),
                Reads(other, IF, Word, 0),
                Takes(proc, DATA, Word, 0),
            ],
        )?;
    }
    Ok(())
}

/// Controls of channels that wait for the card at a processor and at the other, one that waits for V-blank, and the rank of channel 1.
#[test]
fn a_word_triggers_channels_of_the_starter_alone(rt: HostRuntime) -> Result<(), AllocError> {
    for (proc, other, own, others, waits, rank) in [
        (Nine, Seven, 0xAF00_0001, 0xA700_0001, 0x8F00_0001, 15),
        (Seven, Nine, 0xA700_0001, 0xAF00_0001, 0x9700_0001, 19),
    ] {
        try_lines(
            &rt,
            rt.alloc(),
            &[
                File(0x1122_3344, 0x5566_7788),
                Write(proc, 0x0BC, Word, 0x0410_0010),
                Write(proc, 0x0C0, Word, 0x0220_0000),
                Write(proc, 0x0C4, Word, own),
                Write(other, 0x0B0, Word, 0x0410_0010),
                Write(other, 0x0B8, Word, others),
                // one that waits for V-blank
                Write(proc, 0x0B8, Word, waits),
                Write(proc, COMMAND, Word, 0x8000_00B7),
                Write(proc, ROMCTRL, Word, 0x8100_0000),
                First(40, 13),
                At(40),
                Gives,
                ChannelDue(proc, 1, 44),
                ChannelDue(proc, 0, NEVER),
                ChannelDue(other, 0, NEVER),
                First(44, rank),
                Is(proc, false, true),
                Is(other, false, false),
                Moves(proc, 1, 0x0410_0010, 0x0220_0000, Word),
                At(44),
                Takes(proc, DATA, Word, 0x1122_3344),
                ChannelDue(proc, 1, NEVER),
                Is(proc, false, false),
                First(84, 13),
                At(84),
                Gives,
                First(88, rank),
                // disabled meanwhile, it moves no more, and the word stays ready
                Write(proc, 0x0C4, Word, 0),
                NoneDue,
                Takes(proc, DATA, Word, 0x5566_7788),
            ],
        )?;
    }
    Ok(())
}

/// A block without words triggers none.
#[test]
fn no_word_triggers_no_channel(rt: HostRuntime) -> Result<(), AllocError> {
    try_lines(
        &rt,
        rt.alloc(),
        &[
            Write(Nine, 0x0B8, Word, 0xAF00_0001),
            Write(Nine, COMMAND, Word, 0xB7),
            Write(Nine, ROMCTRL, Word, 0x8000_0000),
            Gives,
            ChannelDue(Nine, 0, NEVER),
            NoneDue,
        ],
    )
}

#[test]
fn its_due_tick_is_found_again_after_each_change(rt: HostRuntime) -> Result<(), AllocError> {
    try_lines(
        &rt,
        rt.alloc(),
        &[
            Write(Nine, COMMAND, Word, 0xB7),
            Write(Nine, ROMCTRL, Word, 0x8100_0000),
            First(40, 13),
            // at one tick a timer, the divider, the root and geometry come before it, and channels behind it
            At(36),
            Write(Nine, 0x0B8, Word, 0x8400_0001),
            First(40, 13),
            At(14),
            Write(Nine, 0x2B8, Word, 9),
            First(40, 11),
            At(4),
            Write(Nine, 0x298, Word, 9),
            First(40, 10),
            Write(Seven, 0x100, Word, 0x0080_FFEE),
            First(40, 6),
            At(20),
            Write(Seven, 0x100, Word, 0),
            Boot,
            At(2),
            Write(Nine, 0x600, Word, 0x4000_0000),
            Write(Nine, 0x454, Word, 0),
            First(40, 12),
            At(0),
            Write(Nine, COMMAND, Word, 0xB7),
            Write(Nine, ROMCTRL, Word, 0x8100_0000),
            First(40, 12),
            // what leaves it: keys, a halt, another's read, a refused start of another
            Boot,
            At(100),
            Write(Seven, COMMAND, Word, 0xB7),
            Write(Seven, ROMCTRL, Word, 0x8700_0000),
            First(140, 13),
            Press(1),
            Halt(Nine),
            Read(Nine, DATA, Word),
            Read(Seven, DATA, Word),
            Settles,
            First(140, 13),
            Gives,
            NoneDue,
            At(150),
            Read(Nine, DATA, Word),
            NoneDue,
            Read(Seven, DATA, Word),
            NoneDue,
        ],
    )
}
