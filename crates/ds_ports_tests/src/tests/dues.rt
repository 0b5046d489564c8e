//! The first of what is due behind the ports, right after each change.

use crate::tests::lines::Line::{
    At, Divides, First, Halt, NoneDue, Overflows, Press, Read, Refused, Roots, TimerDue, Write,
};
use crate::tests::lines::try_lines;
use ds_base::LeftKind::DmaStart;
use ds_base::Proc::{Nine, Seven};
use ds_base::Width::{Byte, Word};
use std::alloc::AllocError;

/// Timers that overflow 36 ticks after their start.
const TIMER: u32 = 0x0080_FFEE;

/// Channels that start at once.
const CHANNEL: u32 = 0x8400_0001;

#[test]
fn at_one_tick_the_least_rank_is_first(rt: HostRuntime) -> Result<(), AllocError> {
    try_lines(
        &rt,
        rt.alloc(),
        &[
            NoneDue,
            // ever lower ranks: channels of ARM7 and of ARM9, the square root, the divider, timers of ARM7 and of ARM9
            At(132),
            Write(Seven, 0x0DC, Word, CHANNEL),
            First(136, 21),
            Write(Seven, 0x0B8, Word, CHANNEL),
            First(136, 18),
            Write(Nine, 0x0DC, Word, CHANNEL),
            First(136, 17),
            Write(Nine, 0x0C4, Word, CHANNEL),
            First(136, 15),
            At(110),
            Write(Nine, 0x2B8, Word, 9),
            First(136, 11),
            At(100),
            Write(Nine, 0x298, Word, 9),
            First(136, 10),
            Write(Seven, 0x10C, Word, TIMER),
            First(136, 9),
            Write(Seven, 0x100, Word, TIMER),
            First(136, 6),
            Write(Nine, 0x108, Word, TIMER),
            First(136, 4),
            Write(Nine, 0x104, Word, TIMER),
            First(136, 3),
            // each stops in turn
            At(120),
            Write(Nine, 0x104, Word, 0),
            First(136, 4),
            Write(Nine, 0x108, Word, 0),
            First(136, 6),
            Write(Seven, 0x100, Word, 0),
            First(136, 9),
            Write(Seven, 0x10C, Word, 0),
            First(136, 10),
            Divides,
            First(136, 11),
            Roots,
            First(136, 15),
            At(134),
            Write(Nine, 0x0C4, Word, 0),
            First(136, 17),
            Write(Nine, 0x0DC, Word, 0),
            First(136, 18),
            Write(Seven, 0x0B8, Word, 0),
            First(136, 21),
            Write(Seven, 0x0DF, Byte, 0),
            NoneDue,
        ],
    )
}

#[test]
fn the_first_is_found_again_after_each_change(rt: HostRuntime) -> Result<(), AllocError> {
    try_lines(
        &rt,
        rt.alloc(),
        &[
            At(100),
            Write(Nine, 0x100, Word, TIMER),
            Overflows(Nine, 0),
            First(172, 2),
            TimerDue(Nine, 0, 172),
            // what is not due by a register leaves it
            At(140),
            Write(Nine, 0x208, Word, 1),
            Press(1),
            Read(Nine, 0x10_0000, Word),
            Halt(Seven),
            First(172, 2),
            // nor does a write that is refused change it
            Refused(Nine, 0x0B8, Word, 0x9800_0001, DmaStart, 0x9800_0001),
            First(172, 2),
        ],
    )
}
