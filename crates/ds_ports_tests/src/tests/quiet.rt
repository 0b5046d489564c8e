//! Quiet geometry, which is due and doesn't act, and what acts behind the ports.

use crate::tests::lines::Line::{
    Acts, At, Boot, ChannelDue, Does, Fills, Finishes, First, GeometryDue, Halt, Moves, NoneActs,
    NoneDue, Press, PutsBack, Quiet, Read, Settles, Shows, Swaps, Write, WriteVram,
};
use crate::tests::lines::{NEVER, try_lines};
use ds_base::Proc::{Nine, Seven};
use ds_base::Space;
use ds_base::Width::{Byte, Word};
use std::alloc::AllocError;

/// The ports of MTX_IDENTITY (38 ticks) and SWAP_BUFFERS, and the byte of GXSTAT that has its selector.
const IDENTITY: u32 = 0x454;

const SWAP: u32 = 0x540;

const SELECTOR: u32 = 0x603;

/// A channel of ARM9's that is enabled with start 7, for one word, and the same channel where it isn't enabled.
const ARMED: u32 = 0xBC00_0001;

const DISABLED: u32 = 0x3C00_0001;

/// A timer that overflows 36 ticks after its start.
const TIMER: u32 = 0x0080_FFEE;

/// It is due, first of all, and yet what comes later acts first; where it isn't due, it isn't quiet.
#[test]
fn quiet_geometry_is_due_and_does_not_act(rt: HostRuntime) -> Result<(), AllocError> {
    try_lines(
        &rt,
        rt.alloc(),
        &[
            Quiet(false),
            NoneActs,
            At(90),
            Fills(1, IDENTITY, 0),
            Quiet(true),
            GeometryDue(128),
            First(128, 12),
            NoneActs,
            At(100),
            Write(Nine, 0x100, Word, TIMER),
            First(128, 12),
            Acts(136, 2),
            // what moves no due tick leaves it
            Press(1),
            Read(Nine, 0x10_0000, Word),
            Halt(Nine),
            Halt(Seven),
            WriteVram(Space::Lcdc, 0, 0),
            Quiet(true),
            First(128, 12),
            Acts(136, 2),
            Write(Nine, 0x100, Word, 0),
            First(128, 12),
            NoneActs,
            // its event
            Finishes,
            Quiet(false),
            NoneDue,
            NoneActs,
            // after the display's, at 3212, its next one acts
            Fills(2, IDENTITY, 0),
            Shows(1),
            First(138, 12),
            Acts(4260, 1),
            Finishes,
            First(176, 12),
            Acts(4260, 1),
            Quiet(true),
        ],
    )
}

#[test]
fn an_interrupt_that_follows_how_much_waits_is_heard(rt: HostRuntime) -> Result<(), AllocError> {
    try_lines(
        &rt,
        rt.alloc(),
        &[
            Write(Nine, SELECTOR, Byte, 0x40),
            Quiet(false),
            Fills(1, IDENTITY, 0),
            Quiet(false),
            First(38, 12),
            Acts(38, 12),
            Write(Nine, SELECTOR, Byte, 0x80),
            Quiet(false),
            Acts(38, 12),
            // selector 3 raises none, and counts as the others
            Write(Nine, SELECTOR, Byte, 0xC0),
            Quiet(false),
            Acts(38, 12),
            Write(Nine, SELECTOR, Byte, 0x3F),
            Quiet(true),
            NoneActs,
            Write(Nine, 0x600, Word, 0x4000_0000),
            Acts(38, 12),
            Write(Nine, 0x600, Word, 0x3FFF_FFFF),
            NoneActs,
            // DISP3DCNT and the other bytes of GXSTAT are nothing to it
            Write(Nine, 0x060, Word, 0xFFFF_FFFF),
            Write(Nine, 0x601, Byte, 0xFF),
            Quiet(true),
            First(38, 12),
            NoneActs,
        ],
    )
}

#[test]
fn a_channel_that_geometry_starts_hears_of_it(rt: HostRuntime) -> Result<(), AllocError> {
    for channel in 0..4 {
        let control = 0x0B8 + 12 * channel;
        try_lines(
            &rt,
            rt.alloc(),
            &[
                Fills(132, IDENTITY, 0),
                Write(Nine, control, Word, ARMED),
                Quiet(false),
                Acts(38, 12),
                Write(Nine, control, Word, DISABLED),
                Quiet(true),
                NoneActs,
                // its other starts, V-blank, H-blank and the card
                Write(Nine, control, Word, 0x8C00_0001),
                Quiet(true),
                Write(Nine, control, Word, 0x9400_0001),
                Quiet(true),
                Write(Nine, control, Word, 0xAC00_0001),
                Quiet(true),
                NoneActs,
                // it stays enabled with start 7, and then isn't enabled
                Write(Nine, control, Word, ARMED),
                Quiet(false),
                Write(Nine, control + 3, Byte, 0x3C),
                Quiet(true),
                // ARM7 has no such start
                Write(Seven, control, Word, 0x9C00_0001),
                Quiet(true),
                NoneActs,
            ],
        )?;
    }
    Ok(())
}

/// It hears of it also while it runs, until its last unit is moved.
#[test]
fn a_channel_that_runs_is_armed(rt: HostRuntime) -> Result<(), AllocError> {
    try_lines(
        &rt,
        rt.alloc(),
        &[
            Fills(1, IDENTITY, 0),
            Write(Nine, 0x0C4, Word, ARMED),
            Quiet(false),
            ChannelDue(Nine, 1, NEVER),
            At(30),
            Settles,
            ChannelDue(Nine, 1, 34),
            Quiet(false),
            First(34, 15),
            Acts(34, 15),
            Moves(Nine, 1, 0, 0, Word),
            Quiet(true),
            First(38, 12),
            NoneActs,
            PutsBack(Nine),
            Quiet(false),
            First(34, 15),
            Moves(Nine, 1, 0, 0, Word),
            NoneActs,
            // one that starts at once runs and doesn't hear of it
            At(40),
            Write(Nine, 0x0C4, Word, 0x8400_0001),
            Quiet(true),
            First(38, 12),
            Acts(44, 15),
        ],
    )
}

#[test]
fn a_stall_hears_of_it(rt: HostRuntime) -> Result<(), AllocError> {
    try_lines(
        &rt,
        rt.alloc(),
        &[
            Fills(260, IDENTITY, 0),
            Quiet(true),
            NoneActs,
            Fills(1, IDENTITY, 0),
            Quiet(false),
            Acts(38, 12),
            Fills(1, IDENTITY, 0),
            Finishes,
            Quiet(false),
            Acts(76, 12),
            Finishes,
            Quiet(true),
            First(114, 12),
            NoneActs,
        ],
    )
}

/// Geometry that waits for line 192 isn't due, and is due and quiet from then on.
#[test]
fn a_swap_lets_it_be_quiet_again(rt: HostRuntime) -> Result<(), AllocError> {
    try_lines(
        &rt,
        rt.alloc(),
        &[
            Does(1, SWAP, 0),
            Fills(1, IDENTITY, 0),
            GeometryDue(NEVER),
            Quiet(false),
            NoneDue,
            NoneActs,
            At(50),
            Swaps(true, 0, 0),
            GeometryDue(88),
            Quiet(true),
            First(88, 12),
            NoneActs,
            Boot,
            Quiet(false),
        ],
    )
}
