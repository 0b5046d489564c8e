//! DMA channels, through their ports.

use crate::tests::lines::Line::{
    At, Boot, ChannelDue, First, Is, Moves, NoneDue, PutsBack, Reads, Refused, Shows, Takes, Write,
};
use crate::tests::lines::{NEVER, try_lines};
use ds_base::LeftKind::DmaStart;
use ds_base::Proc::{Nine, Seven};
use ds_base::Width::{Byte, Half, Word};
use std::alloc::AllocError;

/// Each processor, and the rank of its channel 0.
#[test]
fn a_channel_moves_its_units_four_ticks_apart(rt: HostRuntime) -> Result<(), AllocError> {
    for (proc, rank) in [(Nine, 14), (Seven, 18)] {
        try_lines(
            &rt,
            rt.alloc(),
            &[
                Write(proc, 0x0B0, Word, 0x0200_0000),
                Write(proc, 0x0B4, Word, 0x0200_1000),
                At(100),
                Write(proc, 0x0B8, Word, 0xC400_0002),
                Is(proc, false, true),
                ChannelDue(proc, 0, 104),
                First(104, rank),
                Moves(proc, 0, 0x0200_0000, 0x0200_1000, Word),
                ChannelDue(proc, 0, 108),
                Reads(proc, 0x0B8, Word, 0xC400_0002),
                Reads(proc, 0x214, Word, 0),
                Moves(proc, 0, 0x0200_0004, 0x0200_1004, Word),
                ChannelDue(proc, 0, NEVER),
                NoneDue,
                Is(proc, false, false),
                Reads(proc, 0x0B8, Word, 0x4400_0002),
                Reads(proc, 0x214, Word, 0x100),
            ],
        )?;
    }
    Ok(())
}

#[test]
fn a_move_is_taken_back(rt: HostRuntime) -> Result<(), AllocError> {
    try_lines(
        &rt,
        rt.alloc(),
        &[
            Write(Seven, 0x0BC, Word, 0x0100),
            Write(Seven, 0x0C0, Word, 0x0200),
            Write(Seven, 0x0C4, Word, 0xC400_0001),
            First(4, 19),
            Moves(Seven, 1, 0x0100, 0x0200, Word),
            Reads(Seven, 0x214, Word, 0x200),
            Is(Seven, false, false),
            NoneDue,
            PutsBack(Seven),
            Reads(Seven, 0x214, Word, 0),
            Reads(Seven, 0x0C4, Word, 0xC400_0001),
            Is(Seven, false, true),
            First(4, 19),
            // and it moves the same unit again
            Moves(Seven, 1, 0x0100, 0x0200, Word),
        ],
    )
}

/// The end of a channel comes with its last unit and before that unit's write, here one of the channel's own ports or of IF.
#[test]
fn the_last_unit_writes_after_the_end(rt: HostRuntime) -> Result<(), AllocError> {
    try_lines(
        &rt,
        rt.alloc(),
        &[
            // its own control: disabled by the end and enabled by what is written, it begins anew, four ticks after that
            Write(Nine, 0x0B0, Word, 0x0200_0000),
            Write(Nine, 0x0B4, Word, 0x0400_00B8),
            At(100),
            Write(Nine, 0x0B8, Word, 0xC400_0001),
            At(104),
            Moves(Nine, 0, 0x0200_0000, 0x0400_00B8, Word),
            Write(Nine, 0x0B8, Word, 0x8400_0002),
            Reads(Nine, 0x0B8, Word, 0x8400_0002),
            Reads(Nine, 0x214, Word, 0x100),
            ChannelDue(Nine, 0, 108),
            Moves(Nine, 0, 0x0200_0000, 0x0400_00B8, Word),
            ChannelDue(Nine, 0, 112),
            // IF: the end raised its bit, and the write clears it
            Boot,
            At(100),
            Write(Nine, 0x0B4, Word, 0x0400_0214),
            Write(Nine, 0x0B8, Word, 0xC400_0001),
            At(104),
            Moves(Nine, 0, 0, 0x0400_0214, Word),
            Write(Nine, 0x214, Word, 0x100),
            Reads(Nine, 0x214, Word, 0),
            // its own control with a start that is left out: the channel isn't enabled then, so the write is refused, and all is taken back
            Boot,
            At(100),
            Write(Nine, 0x0B4, Word, 0x0400_00B8),
            Write(Nine, 0x0B8, Word, 0xC400_0001),
            At(104),
            Moves(Nine, 0, 0, 0x0400_00B8, Word),
            Refused(Nine, 0x0B8, Word, 0x9800_0001, DmaStart, 0x9800_0001),
            PutsBack(Nine),
            Reads(Nine, 0x0B8, Word, 0xC400_0001),
            Reads(Nine, 0x214, Word, 0),
            ChannelDue(Nine, 0, 104),
            // a unit that isn't the last one leaves the channel enabled, and then such a start is kept
            Boot,
            At(100),
            Write(Nine, 0x0B4, Word, 0x0400_00B8),
            Write(Nine, 0x0B8, Word, 0xC400_0002),
            At(104),
            Moves(Nine, 0, 0, 0x0400_00B8, Word),
            Write(Nine, 0x0B8, Word, 0x9C00_0001),
            Reads(Nine, 0x0B8, Word, 0x9C00_0001),
            ChannelDue(Nine, 0, 108),
        ],
    )
}

/// A channel whose source stays at 4100000h empties the receive FIFO, a word a unit.
#[test]
fn a_channel_receives_from_the_fifo(rt: HostRuntime) -> Result<(), AllocError> {
    try_lines(
        &rt,
        rt.alloc(),
        &[
            Write(Nine, 0x184, Half, 0x8000),
            Write(Seven, 0x184, Half, 0x8000),
            Write(Seven, 0x188, Word, 7),
            Write(Seven, 0x188, Word, 8),
            Write(Nine, 0x0B0, Word, 0x0410_0000),
            Write(Nine, 0x0B4, Word, 0x0200_0000),
            Write(Nine, 0x0B8, Word, 0x8500_0002),
            Moves(Nine, 0, 0x0410_0000, 0x0200_0000, Word),
            Takes(Nine, 0x10_0000, Word, 7),
            Moves(Nine, 0, 0x0410_0000, 0x0200_0004, Word),
            Takes(Nine, 0x10_0000, Word, 8),
            Reads(Nine, 0x184, Half, 0x8101),
            Reads(Seven, 0x184, Half, 0x8101),
        ],
    )
}

#[test]
fn addresses_and_controls_keep_the_bits_that_a_processor_has(
    rt: HostRuntime,
) -> Result<(), AllocError> {
    try_lines(
        &rt,
        rt.alloc(),
        &[
            Write(Nine, 0x0B8, Word, 0x8FFF_FFFF),
            Reads(Nine, 0x0B8, Word, 0x8FFF_FFFF),
            Write(Nine, 0x0DC, Word, 0x77FF_FFFF),
            Reads(Nine, 0x0DC, Word, 0x77FF_FFFF),
            Write(Seven, 0x0B8, Word, 0x9FFF_FFFF),
            Reads(Seven, 0x0B8, Word, 0x97E0_3FFF),
            Write(Seven, 0x0D0, Word, 0x7FFF_FFFF),
            Reads(Seven, 0x0D0, Word, 0x77E0_3FFF),
            Write(Seven, 0x0DC, Word, 0x9FFF_FFFF),
            Reads(Seven, 0x0DC, Word, 0x97E0_FFFF),
            Write(Nine, 0x0B0, Word, 0xFFFF_FFFF),
            Reads(Nine, 0x0B0, Word, 0x0FFF_FFFF),
            Write(Nine, 0x0D8, Word, 0xFFFF_FFFF),
            Reads(Nine, 0x0D8, Word, 0x0FFF_FFFF),
            Write(Seven, 0x0B4, Word, 0xFFFF_FFFF),
            Reads(Seven, 0x0B4, Word, 0x0FFF_FFFF),
            Write(Seven, 0x0D4, Word, 0xFFFF_FFFF),
            Reads(Seven, 0x0D4, Word, 0x0FFF_FFFF),
        ],
    )
}

#[test]
fn parts_of_a_control_are_written_beside_kept_ones(rt: HostRuntime) -> Result<(), AllocError> {
    try_lines(
        &rt,
        rt.alloc(),
        &[
            Write(Nine, 0x0B0, Word, 0x0234_5678),
            Write(Nine, 0x0B2, Byte, 0xAA),
            Reads(Nine, 0x0B0, Word, 0x02AA_5678),
            Write(Nine, 0x0B8, Half, 0x0002),
            At(60),
            Write(Nine, 0x0BA, Byte, 0x40),
            ChannelDue(Nine, 0, NEVER),
            At(70),
            Write(Nine, 0x0BB, Byte, 0x84),
            Reads(Nine, 0x0B8, Word, 0x8440_0002),
            ChannelDue(Nine, 0, 74),
        ],
    )
}

#[test]
fn fill_words_are_those_of_arm9_alone(rt: HostRuntime) -> Result<(), AllocError> {
    try_lines(
        &rt,
        rt.alloc(),
        &[
            Write(Seven, 0x0E0, Word, 0xFFFF_FFFF),
            Reads(Nine, 0x0E0, Word, 0),
            Write(Nine, 0x0E0, Word, 0x89AB_CD01),
            Write(Nine, 0x0E1, Byte, 0x11),
            Write(Seven, 0x0E4, Word, 0xFFFF_FFFF),
            Reads(Nine, 0x0E4, Word, 0),
            Write(Nine, 0x0E4, Word, 0x89AB_CD02),
            Write(Nine, 0x0E5, Byte, 0x11),
            Write(Seven, 0x0E8, Word, 0xFFFF_FFFF),
            Reads(Nine, 0x0E8, Word, 0),
            Write(Nine, 0x0E8, Word, 0x89AB_CD03),
            Write(Nine, 0x0E9, Byte, 0x11),
            Write(Seven, 0x0EC, Word, 0xFFFF_FFFF),
            Reads(Nine, 0x0EC, Word, 0),
            Write(Nine, 0x0EC, Word, 0x89AB_CD04),
            Write(Nine, 0x0ED, Byte, 0x11),
            Reads(Nine, 0x0E0, Word, 0x89AB_1101),
            Reads(Seven, 0x0E0, Word, 0),
            Reads(Nine, 0x0E4, Word, 0x89AB_1102),
            Reads(Seven, 0x0E4, Word, 0),
            Reads(Nine, 0x0E8, Word, 0x89AB_1103),
            Reads(Seven, 0x0E8, Word, 0),
            Reads(Nine, 0x0EC, Word, 0x89AB_1104),
            Reads(Seven, 0x0EC, Word, 0),
        ],
    )
}

/// Each start by a byte, a word and a half of the control: its highest byte, the whole word, and the upper half, and the control that is
/// refused.
#[test]
fn starts_that_are_left_out_are_refused_with_the_kept_control(
    rt: HostRuntime,
) -> Result<(), AllocError> {
    for (proc, kind, byte, value) in [
        (Nine, DmaStart, 0x98, 0x9800_1234),
        (Nine, DmaStart, 0xA0, 0xA000_1234),
        (Nine, DmaStart, 0xB0, 0xB000_1234),
        // ARM7 has no bit 27
        (Seven, DmaStart, 0xB8, 0xB000_1234),
    ] {
        try_lines(
            &rt,
            rt.alloc(),
            &[
                Write(proc, 0x0D0, Word, 0x0000_1234),
                At(9),
                Refused(proc, 0x0D3, Byte, byte, kind, value),
                Reads(proc, 0x0D0, Word, 0x0000_1234),
                Is(proc, false, false),
                NoneDue,
                Refused(proc, 0x0D0, Word, byte << 24 | 0x1234, kind, value),
                Reads(proc, 0x0D0, Word, 0x0000_1234),
                Is(proc, false, false),
                NoneDue,
                Refused(proc, 0x0D2, Half, byte << 8, kind, value),
                Reads(proc, 0x0D0, Word, 0x0000_1234),
                Is(proc, false, false),
                NoneDue,
            ],
        )?;
    }
    Ok(())
}

#[test]
fn an_event_triggers_channels_of_both(rt: HostRuntime) -> Result<(), AllocError> {
    try_lines(
        &rt,
        rt.alloc(),
        &[
            // V-blank is start 1 of both, H-blank start 2 of ARM9
            Write(Nine, 0x0C4, Word, 0x8800_0001),
            Write(Nine, 0x0D0, Word, 0x9000_0001),
            Write(Seven, 0x0B8, Word, 0x9000_0001),
            Is(Nine, false, false),
            Is(Seven, false, false),
            // the H-blank of line 0
            Shows(1),
            ChannelDue(Nine, 2, 3216),
            First(3216, 16),
            Is(Nine, false, true),
            Is(Seven, false, false),
            // the start of line 191, and its H-blank
            Shows(382),
            ChannelDue(Nine, 1, NEVER),
            ChannelDue(Seven, 0, NEVER),
            // the start of line 192; the channel with the least number of those that run
            Shows(1),
            ChannelDue(Nine, 1, 817_924),
            ChannelDue(Nine, 2, NEVER),
            ChannelDue(Seven, 0, 817_924),
            First(817_924, 15),
            Is(Nine, false, true),
            Is(Seven, false, true),
        ],
    )
}
