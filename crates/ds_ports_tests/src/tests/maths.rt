//! The divider and the square root unit, through their ports.

use crate::tests::lines::Line::{
    At, Boot, Divides, DivisionDue, First, NoneDue, Reads, RootDue, Roots, Write,
};
use crate::tests::lines::{NEVER, try_lines};
use ds_base::Proc::{Nine, Seven};
use ds_base::Width::{Byte, Half, Word};
use std::alloc::AllocError;

#[test]
fn five_by_zero(rt: HostRuntime) -> Result<(), AllocError> {
    try_lines(
        &rt,
        rt.alloc(),
        &[
            At(100),
            Write(Nine, 0x290, Word, 5),
            // busy, and the denominator is 0
            Reads(Nine, 0x280, Word, 0xC000),
            Reads(Nine, 0x2A0, Word, 0),
            DivisionDue(136),
            Divides,
            Reads(Nine, 0x280, Word, 0x4000),
            Reads(Nine, 0x290, Word, 5),
            Reads(Nine, 0x294, Word, 0),
            Reads(Nine, 0x2A0, Word, 0xFFFF_FFFF),
            Reads(Nine, 0x2A4, Word, 0),
            Reads(Nine, 0x2A8, Word, 5),
            Reads(Nine, 0x2AC, Word, 0),
            // ARM7 has none of them
            Reads(Seven, 0x280, Word, 0),
            Reads(Seven, 0x290, Word, 0),
            Reads(Seven, 0x294, Word, 0),
            Reads(Seven, 0x2A0, Word, 0),
            Reads(Seven, 0x2A4, Word, 0),
            Reads(Seven, 0x2A8, Word, 0),
            Reads(Seven, 0x2AC, Word, 0),
            DivisionDue(NEVER),
            NoneDue,
        ],
    )
}

/// The flag of a division by zero asks all 64 bits of the denominator, in each mode, also while it runs.
#[test]
fn a_zero_denominator_is_told_by_all_its_bits(rt: HostRuntime) -> Result<(), AllocError> {
    try_lines(
        &rt,
        rt.alloc(),
        &[
            Reads(Nine, 0x280, Word, 0x4000),
            Write(Nine, 0x290, Word, 5),
            // 32 by 32 bits, where only the upper word isn't 0: by zero, and the flag is 0
            Write(Nine, 0x29C, Word, 1),
            Reads(Nine, 0x280, Word, 0x8000),
            Divides,
            Reads(Nine, 0x280, Word, 0),
            Reads(Nine, 0x2A0, Word, 0xFFFF_FFFF),
            Reads(Nine, 0x2A4, Word, 0),
            Reads(Nine, 0x2A8, Word, 5),
            Write(Nine, 0x29C, Word, 0x8000_0000),
            Reads(Nine, 0x280, Half, 0x8000),
            Write(Nine, 0x29C, Word, 0),
            Reads(Nine, 0x280, Half, 0xC000),
            // 64 by 32 bits
            Write(Nine, 0x280, Word, 1),
            Reads(Nine, 0x280, Half, 0xC001),
            Write(Nine, 0x29F, Byte, 0x80),
            Reads(Nine, 0x280, Half, 0x8001),
            Divides,
            Reads(Nine, 0x280, Half, 1),
            Reads(Nine, 0x2A0, Word, 0xFFFF_FFFF),
            Reads(Nine, 0x2A4, Word, 0xFFFF_FFFF),
            // 64 by 64 bits: 5 by 2^63, a negative number
            Write(Nine, 0x280, Word, 2),
            Divides,
            Reads(Nine, 0x280, Half, 2),
            Reads(Nine, 0x2A0, Word, 0),
            Reads(Nine, 0x2A8, Word, 5),
            // the lower word alone
            Write(Nine, 0x29F, Byte, 0),
            Reads(Nine, 0x280, Half, 0xC002),
            Write(Nine, 0x298, Byte, 1),
            Reads(Nine, 0x280, Half, 0x8002),
        ],
    )
}

/// Which write, and when the division is done that it starts.
#[test]
fn a_write_of_any_word_starts_a_division(rt: HostRuntime) -> Result<(), AllocError> {
    for (at, width, value, due) in [
        (0x280, Word, 0, 136),
        (0x280, Byte, 1, 168),
        (0x283, Byte, 0xFF, 136),
        (0x290, Word, 1, 136),
        (0x294, Word, 1, 136),
        (0x298, Word, 1, 136),
        (0x29C, Word, 1, 136),
        (0x29F, Byte, 1, 136),
    ] {
        try_lines(
            &rt,
            rt.alloc(),
            &[
                At(100),
                Write(Seven, at, width, value),
                DivisionDue(NEVER),
                Write(Nine, at, width, value),
                DivisionDue(due),
                First(due, 10),
            ],
        )?;
    }
    Ok(())
}

#[test]
fn results_are_of_the_whole_operands_and_cannot_be_written(
    rt: HostRuntime,
) -> Result<(), AllocError> {
    try_lines(
        &rt,
        rt.alloc(),
        &[
            Write(Nine, 0x290, Word, 0x0000_0005),
            Write(Nine, 0x294, Word, 0x0000_0001),
            Write(Nine, 0x298, Word, 0x0000_0000),
            Write(Nine, 0x298, Byte, 0x02),
            Write(Nine, 0x280, Word, 0xFFFF_FFFE),
            Reads(Nine, 0x280, Word, 0x8002),
            Divides,
            Write(Nine, 0x2A0, Word, 0xFFFF_FFFF),
            Write(Nine, 0x2A4, Word, 0xFFFF_FFFF),
            Write(Nine, 0x2A8, Word, 0xFFFF_FFFF),
            Write(Nine, 0x2AC, Word, 0xFFFF_FFFF),
            Write(Nine, 0x2B4, Word, 0xFFFF_FFFF),
            NoneDue,
            Reads(Nine, 0x280, Word, 2),
            Reads(Nine, 0x290, Word, 5),
            Reads(Nine, 0x294, Word, 1),
            Reads(Nine, 0x298, Word, 2),
            Reads(Nine, 0x29C, Word, 0),
            Reads(Nine, 0x2A0, Word, 0x8000_0002),
            Reads(Nine, 0x2A4, Word, 0),
            Reads(Nine, 0x2A8, Word, 1),
            Reads(Nine, 0x2AC, Word, 0),
            Reads(Nine, 0x2B4, Word, 0),
        ],
    )
}

#[test]
fn a_wide_root(rt: HostRuntime) -> Result<(), AllocError> {
    try_lines(
        &rt,
        rt.alloc(),
        &[
            At(10),
            Write(Nine, 0x2B8, Word, 0xFFFF_FFFF),
            RootDue(36),
            Write(Nine, 0x2BC, Word, 0xFFFF_FFFF),
            RootDue(36),
            Write(Nine, 0x2B0, Word, 0xFFFF),
            RootDue(36),
            Reads(Nine, 0x2B0, Word, 0x8001),
            Reads(Nine, 0x2B4, Word, 0),
            Roots,
            Reads(Nine, 0x2B0, Word, 1),
            Reads(Nine, 0x2B4, Word, 0xFFFF_FFFF),
            // the lower word alone, beside what is kept of the upper one
            At(50),
            Write(Nine, 0x2B0, Byte, 0),
            At(60),
            Write(Nine, 0x2B8, Word, 17),
            Reads(Nine, 0x2B0, Word, 0x8000),
            RootDue(86),
            Roots,
            RootDue(NEVER),
            Reads(Nine, 0x2B4, Word, 4),
            Reads(Nine, 0x2BC, Word, 0xFFFF_FFFF),
            Boot,
            NoneDue,
        ],
    )
}
