//! The keys, and the halt of ARM7.

use crate::tests::lines::Line::{Boot, Halt, Is, Press, Reads, Refused, Wake, Write};
use crate::tests::lines::try_lines;
use ds_base::LeftKind::HaltMode;
use ds_base::Proc::{Nine, Seven};
use ds_base::Width::{Byte, Half, Word};
use std::alloc::AllocError;

#[test]
fn keys_are_told_by_keycnt(rt: HostRuntime) -> Result<(), AllocError> {
    try_lines(
        &rt,
        rt.alloc(),
        &[
            Reads(Nine, 0x130, Half, 0x03FF),
            Reads(Seven, 0x136, Half, 0x007F),
            // any of A and B at ARM9, both at ARM7, and neither bit beside at ARM7's
            Write(Nine, 0x132, Half, 0x7C03),
            Reads(Nine, 0x132, Half, 0x4003),
            Write(Seven, 0x132, Half, 0xC003),
            // A and Up, and Y
            Press(0x841),
            Reads(Nine, 0x130, Half, 0x03BE),
            Reads(Seven, 0x136, Half, 0x007D),
            Reads(Nine, 0x214, Word, 0x1000),
            Reads(Seven, 0x214, Word, 0),
            Press(0x003),
            Reads(Seven, 0x214, Word, 0x1000),
            // a write of it tells too; without its enable it doesn't
            Write(Nine, 0x214, Word, 0x1000),
            Write(Nine, 0x132, Half, 0x0003),
            Reads(Nine, 0x214, Word, 0),
            Write(Nine, 0x133, Byte, 0xC0),
            Reads(Nine, 0x132, Half, 0xC003),
            Reads(Nine, 0x214, Word, 0x1000),
        ],
    )
}

/// Each key: what is pressed, and what KEYINPUT and EXTKEYIN read. X and Y alone aren't keys of KEYCNT.
#[test]
fn each_key_has_its_bit(rt: HostRuntime) -> Result<(), AllocError> {
    for (pressed, keyinput, extkeyin, flags) in [
        (0x001, 0x03FE, 0x007F, 0x1000), // A
        (0x002, 0x03FD, 0x007F, 0x1000), // B
        (0x004, 0x03FB, 0x007F, 0x1000), // Select
        (0x008, 0x03F7, 0x007F, 0x1000), // Start
        (0x010, 0x03EF, 0x007F, 0x1000), // Right
        (0x020, 0x03DF, 0x007F, 0x1000), // Left
        (0x040, 0x03BF, 0x007F, 0x1000), // Up
        (0x080, 0x037F, 0x007F, 0x1000), // Down
        (0x100, 0x02FF, 0x007F, 0x1000), // R
        (0x200, 0x01FF, 0x007F, 0x1000), // L
        (0x400, 0x03FF, 0x007E, 0), // X
        (0x800, 0x03FF, 0x007D, 0), // Y
        (0xFFF, 0x0000, 0x007C, 0x1000), // all of them
        (0x000, 0x03FF, 0x007F, 0),
    ] {
        try_lines(
            &rt,
            rt.alloc(),
            &[
                // any key of KEYCNT at ARM9, this one alone at ARM7
                Write(Nine, 0x132, Half, 0x4FFF),
                Reads(Nine, 0x132, Half, 0x43FF),
                Write(Seven, 0x132, Half, 0x4000 | pressed as u32),
                Press(pressed),
                Reads(Nine, 0x130, Half, keyinput),
                Reads(Seven, 0x130, Half, keyinput),
                Reads(Seven, 0x136, Half, extkeyin),
                Reads(Nine, 0x136, Half, 0),
                Reads(Nine, 0x214, Word, flags),
                Reads(Seven, 0x214, Word, flags),
            ],
        )?;
    }
    Ok(())
}

/// With no key chosen 'all' holds whatever is pressed, and 'any' never does.
#[test]
fn all_of_no_key_holds_and_any_of_no_key_does_not(rt: HostRuntime) -> Result<(), AllocError> {
    for proc in [Nine, Seven] {
        try_lines(
            &rt,
            rt.alloc(),
            &[
                Write(proc, 0x132, Half, 0xC000),
                Reads(proc, 0x214, Word, 0x1000),
                Write(proc, 0x214, Word, 0x1000),
                Press(0x001),
                Reads(proc, 0x214, Word, 0x1000),
                Write(proc, 0x214, Word, 0x1000),
                Press(0x000),
                Reads(proc, 0x214, Word, 0x1000),
                // without its enable it asks for nothing
                Write(proc, 0x214, Word, 0x1000),
                Write(proc, 0x132, Half, 0x8000),
                Press(0xFFF),
                Reads(proc, 0x214, Word, 0),
                Write(proc, 0x132, Half, 0x4000),
                Press(0xFFE),
                Reads(proc, 0x214, Word, 0),
            ],
        )?;
    }
    Ok(())
}

/// Bit 12 is raised by each line of keys after which the condition holds, and by each write of KEYCNT.
#[test]
fn the_keys_interrupt_is_raised_again(rt: HostRuntime) -> Result<(), AllocError> {
    for proc in [Nine, Seven] {
        try_lines(
            &rt,
            rt.alloc(),
            &[
                Write(proc, 0x132, Half, 0x4001),
                Reads(proc, 0x214, Word, 0),
                Press(0x001),
                Reads(proc, 0x214, Word, 0x1000),
                Write(proc, 0x214, Word, 0x1000),
                // A is still pressed, B too
                Press(0x003),
                Reads(proc, 0x214, Word, 0x1000),
                Write(proc, 0x214, Word, 0x1000),
                Press(0x003),
                Reads(proc, 0x214, Word, 0x1000),
                Write(proc, 0x214, Word, 0x1000),
                Press(0x002),
                Reads(proc, 0x214, Word, 0),
                Press(0x001),
                Write(proc, 0x214, Word, 0x1000),
                Write(proc, 0x132, Half, 0x4001),
                Reads(proc, 0x214, Word, 0x1000),
                // a byte of it is a write of it too
                Write(proc, 0x214, Word, 0x1000),
                Write(proc, 0x132, Byte, 0x01),
                Reads(proc, 0x214, Word, 0x1000),
            ],
        )?;
    }
    Ok(())
}

#[test]
fn writes_leave_the_keys(rt: HostRuntime) -> Result<(), AllocError> {
    try_lines(
        &rt,
        rt.alloc(),
        &[
            // A, Select and Y
            Press(0x805),
            Write(Nine, 0x130, Half, 0x0000),
            Write(Seven, 0x130, Half, 0xFFFF),
            Write(Seven, 0x136, Half, 0x0000),
            Reads(Nine, 0x130, Half, 0x03FA),
            Reads(Seven, 0x130, Half, 0x03FA),
            Reads(Seven, 0x136, Half, 0x007D),
            Write(Nine, 0x130, Half, 0xFFFF),
            Write(Seven, 0x130, Half, 0x0000),
            Write(Seven, 0x136, Half, 0xFFFF),
            Reads(Nine, 0x130, Half, 0x03FA),
            Reads(Seven, 0x130, Half, 0x03FA),
            Reads(Seven, 0x136, Half, 0x007D),
            Press(0x000),
            // a word there goes to KEYCNT alone
            Write(Nine, 0x130, Word, 0x0001_0000),
            Reads(Nine, 0x130, Word, 0x0001_03FF),
            Write(Seven, 0x134, Word, 0x0000_0000),
            Reads(Seven, 0x134, Word, 0x007F_0000),
        ],
    )
}

#[test]
fn haltcnt_halts_or_is_refused(rt: HostRuntime) -> Result<(), AllocError> {
    for (value, wide) in [(0x40, 0x4000), (0xC1, 0xC100)] {
        try_lines(
            &rt,
            rt.alloc(),
            &[
                Refused(Seven, 0x301, Byte, value, HaltMode, value),
                Is(Seven, false, false),
                Refused(Seven, 0x300, Half, wide, HaltMode, value),
                Is(Seven, false, false),
                // by a half and by a word that cover it too; ARM9 has no such port
                Refused(Seven, 0x300, Word, wide, HaltMode, value),
                Is(Seven, false, false),
                Write(Nine, 0x301, Byte, value),
                Write(Nine, 0x300, Half, wide),
                Write(Nine, 0x300, Word, wide),
                Is(Nine, false, false),
            ],
        )?;
    }
    for (value, wide, halts) in [
        (0x00, 0x0000, false),
        (0x3F, 0x3F00, false),
        (0x80, 0x8000, true),
        (0xBF, 0xBF00, true),
    ] {
        try_lines(
            &rt,
            rt.alloc(),
            &[
                Write(Seven, 0x301, Byte, value),
                Is(Seven, halts, halts),
                Wake(Seven),
                Write(Seven, 0x300, Half, wide),
                Is(Seven, halts, halts),
                Wake(Seven),
                Write(Seven, 0x300, Word, wide),
                Is(Seven, halts, halts),
                Write(Nine, 0x301, Byte, value),
                Write(Nine, 0x300, Half, wide),
                Write(Nine, 0x300, Word, wide),
                Is(Nine, false, false),
            ],
        )?;
    }
    Ok(())
}

#[test]
fn a_halted_processor_is_held_until_it_wakes(rt: HostRuntime) -> Result<(), AllocError> {
    try_lines(
        &rt,
        rt.alloc(),
        &[
            Write(Seven, 0x301, Byte, 0x3F),
            Is(Seven, false, false),
            Write(Seven, 0x300, Half, 0x8000),
            Is(Seven, true, true),
            Is(Nine, false, false),
            // HALTCNT reads 0, beside POSTFLG
            Reads(Seven, 0x301, Byte, 0),
            Reads(Seven, 0x300, Half, 1),
            Wake(Seven),
            Is(Seven, false, false),
            Boot,
            Halt(Nine),
            Is(Nine, true, true),
            Is(Seven, false, false),
            Wake(Nine),
            Is(Nine, false, false),
        ],
    )
}
