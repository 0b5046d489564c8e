//! IME, IE and IF.

use crate::tests::lines::Line::{Asks, Reads, Write};
use crate::tests::lines::try_lines;
use ds_base::Proc::{Nine, Seven};
use ds_base::Width::{Byte, Half, Word};
use std::alloc::AllocError;

#[test]
fn interrupt_words_are_kept_as_each_processor_has_them(rt: HostRuntime) -> Result<(), AllocError> {
    for (proc, kept) in [(Nine, 0x2F_1F7F), (Seven, 0x0F_1F7F)] {
        try_lines(
            &rt,
            rt.alloc(),
            &[
                Write(proc, 0x210, Word, 0xFFFF_FFFF),
                Reads(proc, 0x210, Word, kept),
                // a byte beside kept ones
                Write(proc, 0x211, Byte, 0x01),
                Reads(proc, 0x210, Word, kept & 0xFFFF_01FF),
                Write(proc, 0x208, Word, 0xFFFF_FFFE),
                Reads(proc, 0x208, Word, 0),
                Write(proc, 0x208, Byte, 3),
                Reads(proc, 0x208, Word, 1),
            ],
        )?;
    }
    Ok(())
}

/// IME has four bytes, and its bit stands in the first.
#[test]
fn bytes_past_the_first_leave_ime(rt: HostRuntime) -> Result<(), AllocError> {
    for proc in [Nine, Seven] {
        try_lines(
            &rt,
            rt.alloc(),
            &[
                Write(proc, 0x209, Byte, 0x01),
                Write(proc, 0x20A, Half, 0xFFFF),
                Reads(proc, 0x208, Word, 0),
                Write(proc, 0x208, Byte, 1),
                Write(proc, 0x209, Byte, 0),
                Write(proc, 0x20A, Byte, 0),
                Write(proc, 0x20B, Byte, 0xFF),
                Reads(proc, 0x208, Word, 1),
                Reads(proc, 0x209, Byte, 0),
                Reads(proc, 0x20A, Byte, 0),
                Reads(proc, 0x20B, Byte, 0),
                Reads(proc, 0x20A, Half, 0),
            ],
        )?;
    }
    Ok(())
}

#[test]
fn bits_of_if_are_cleared_by_1(rt: HostRuntime) -> Result<(), AllocError> {
    try_lines(
        &rt,
        rt.alloc(),
        &[
            // ARM9 asks for interrupt 16 of the other side, and both FIFO interrupts; ARM7 sends sync and a word
            Write(Nine, 0x180, Half, 0x4000),
            Write(Nine, 0x184, Half, 0x8404),
            Write(Seven, 0x180, Half, 0x2500),
            Write(Seven, 0x184, Half, 0x8000),
            Write(Seven, 0x188, Word, 7),
            Reads(Nine, 0x214, Word, 0x0007_0000),
            Reads(Seven, 0x214, Word, 0),
            Reads(Nine, 0x180, Half, 0x4005),
            // a 0 clears nothing, and a byte of 1 clears its own bits alone
            Write(Nine, 0x216, Byte, 0x02),
            Reads(Nine, 0x214, Word, 0x0005_0000),
            Write(Nine, 0x214, Word, 0x0001_0000),
            Reads(Nine, 0x214, Word, 0x0004_0000),
        ],
    )
}

/// A write of some bytes of IF has 0 for the others, and leaves their bits: here bit 12 of the keys, 16 of sync and 17 of the FIFO.
#[test]
fn bytes_of_if_are_cleared_alone(rt: HostRuntime) -> Result<(), AllocError> {
    try_lines(
        &rt,
        rt.alloc(),
        &[
            Write(Nine, 0x132, Half, 0xC000),
            Write(Nine, 0x180, Half, 0x4000),
            Write(Nine, 0x184, Half, 0x0004),
            Write(Seven, 0x180, Half, 0x2000),
            Reads(Nine, 0x214, Word, 0x0003_1000),
            Write(Nine, 0x216, Byte, 0x01),
            Reads(Nine, 0x214, Word, 0x0002_1000),
            Write(Nine, 0x214, Byte, 0xFF),
            Write(Nine, 0x217, Byte, 0xFF),
            Reads(Nine, 0x214, Word, 0x0002_1000),
            Write(Nine, 0x214, Half, 0xFFFF),
            Reads(Nine, 0x214, Word, 0x0002_0000),
            Reads(Nine, 0x216, Byte, 0x02),
            Write(Nine, 0x216, Half, 0x0002),
            Reads(Nine, 0x214, Word, 0),
        ],
    )
}

/// A halted processor wakes where IE and IF share a bit; its line is up where IME is set too.
#[test]
fn the_line_asks_for_ime(rt: HostRuntime) -> Result<(), AllocError> {
    for proc in [Nine, Seven] {
        try_lines(
            &rt,
            rt.alloc(),
            &[
                Write(proc, 0x132, Half, 0xC000),
                Reads(proc, 0x214, Word, 0x1000),
                Asks(proc, false, false),
                Write(proc, 0x210, Word, 0x0001_0001),
                Asks(proc, false, false),
                Write(proc, 0x210, Word, 0x1000),
                Asks(proc, false, true),
                Write(proc, 0x208, Word, 1),
                Asks(proc, true, true),
                Write(proc, 0x215, Byte, 0x10),
                Asks(proc, false, false),
            ],
        )?;
    }
    Ok(())
}
