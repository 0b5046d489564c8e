//! Timers, through their ports.

use crate::tests::lines::Line::{At, Boot, Overflows, Reads, TimerDue, Write};
use crate::tests::lines::try_lines;
use ds_base::Proc::{Nine, Seven};
use ds_base::Width::{Byte, Half, Word};
use std::alloc::AllocError;

/// Timer 0 starts at tick 100 from FFFEh, a count each 2 ticks: by a word, by halves and by bytes.
#[test]
fn a_timer_starts_by_writes_of_any_width(rt: HostRuntime) -> Result<(), AllocError> {
    for proc in [Nine, Seven] {
        try_lines(
            &rt,
            rt.alloc(),
            &[
                At(100),
                Write(proc, 0x100, Word, 0x0080_FFFE),
                At(101),
                Reads(proc, 0x100, Half, 0xFFFE),
                At(102),
                Reads(proc, 0x100, Half, 0xFFFF),
                At(103),
                Reads(proc, 0x100, Word, 0x0080_FFFF),
                TimerDue(proc, 0, 104),
                Overflows(proc, 0),
                At(104),
                Reads(proc, 0x100, Half, 0xFFFE),
                TimerDue(proc, 0, 108),
                Reads(proc, 0x214, Word, 0),
                Boot,
                At(100),
                Write(proc, 0x100, Half, 0xFFFE),
                Write(proc, 0x102, Half, 0x0080),
                At(101),
                Reads(proc, 0x100, Half, 0xFFFE),
                At(102),
                Reads(proc, 0x100, Half, 0xFFFF),
                At(103),
                Reads(proc, 0x100, Word, 0x0080_FFFF),
                TimerDue(proc, 0, 104),
                Overflows(proc, 0),
                At(104),
                Reads(proc, 0x100, Half, 0xFFFE),
                TimerDue(proc, 0, 108),
                Reads(proc, 0x214, Word, 0),
                Boot,
                At(100),
                Write(proc, 0x100, Byte, 0xFE),
                Write(proc, 0x101, Byte, 0xFF),
                Write(proc, 0x102, Byte, 0x80),
                Write(proc, 0x103, Byte, 0xFF),
                At(101),
                Reads(proc, 0x100, Half, 0xFFFE),
                At(102),
                Reads(proc, 0x100, Half, 0xFFFF),
                At(103),
                Reads(proc, 0x100, Word, 0x0080_FFFF),
                TimerDue(proc, 0, 104),
                Overflows(proc, 0),
                At(104),
                Reads(proc, 0x100, Half, 0xFFFE),
                TimerDue(proc, 0, 108),
                Reads(proc, 0x214, Word, 0),
            ],
        )?;
    }
    Ok(())
}

#[test]
fn the_counter_is_read_and_the_reload_is_kept(rt: HostRuntime) -> Result<(), AllocError> {
    try_lines(
        &rt,
        rt.alloc(),
        &[
            // the reload isn't read, and a byte of it is written beside what is kept of it
            Write(Nine, 0x104, Half, 0x1234),
            Reads(Nine, 0x104, Half, 0),
            Write(Nine, 0x105, Byte, 0x56),
            // all bits of a control that are kept: C7h
            Write(Nine, 0x106, Half, 0xFFFB),
            Reads(Nine, 0x104, Word, 0x00C3_5634),
            Write(Nine, 0x106, Half, 0xFFFF),
            Reads(Nine, 0x106, Half, 0x00C7),
            // ARM7 has its own
            Reads(Seven, 0x104, Word, 0),
        ],
    )
}

#[test]
fn an_overflow_raises_its_bit_of_if(rt: HostRuntime) -> Result<(), AllocError> {
    try_lines(
        &rt,
        rt.alloc(),
        &[
            At(7),
            Write(Seven, 0x10C, Word, 0x00C0_FFFF),
            Overflows(Seven, 3),
            Reads(Seven, 0x214, Word, 0x40),
            Reads(Nine, 0x214, Word, 0),
            // and so do the others, each by its own
            Write(Nine, 0x100, Word, 0x00C0_FFFF),
            Overflows(Nine, 0),
            Reads(Nine, 0x214, Word, 0x08),
            Write(Nine, 0x104, Word, 0x00C0_FFFF),
            Overflows(Nine, 1),
            Reads(Nine, 0x214, Word, 0x18),
            Write(Nine, 0x108, Word, 0x00C0_FFFF),
            Overflows(Nine, 2),
            Reads(Nine, 0x214, Word, 0x38),
            Reads(Seven, 0x214, Word, 0x40),
        ],
    )
}
