//! What passes between the processors.

use crate::tests::lines::Line::{Boot, Read, Reads, Takes, Write};
use crate::tests::lines::try_lines;
use ds_base::Proc::{Nine, Seven};
use ds_base::Width::{Byte, Half, Word};
use std::alloc::AllocError;

#[test]
fn fifos_take_whole_words(rt: HostRuntime) -> Result<(), AllocError> {
    try_lines(
        &rt,
        rt.alloc(),
        &[
            Write(Nine, 0x184, Half, 0x8000),
            Write(Seven, 0x184, Half, 0x8000),
            // narrower writes are ignored, and narrower reads give 0 and take nothing
            Write(Nine, 0x188, Byte, 1),
            Write(Nine, 0x18A, Half, 1),
            Reads(Nine, 0x184, Half, 0x8101),
            Write(Nine, 0x188, Word, 0x1234_5678),
            Write(Nine, 0x188, Word, 9),
            Reads(Seven, 0x10_0000, Half, 0),
            Read(Seven, 0x10_0000, Half),
            Read(Seven, 0x10_0002, Byte),
            Reads(Seven, 0x10_0000, Word, 0x1234_5678),
            Read(Seven, 0x10_0000, Word),
            Reads(Seven, 0x10_0000, Word, 9),
            Read(Seven, 0x10_0000, Word),
            // the last word again, and the error; a byte of the control beside the enables that are kept
            Reads(Seven, 0x10_0000, Word, 9),
            Read(Seven, 0x10_0000, Word),
            Reads(Seven, 0x184, Half, 0xC101),
            Write(Seven, 0x184, Byte, 0x04),
            Reads(Seven, 0x184, Half, 0xC105),
            Write(Seven, 0x185, Byte, 0xC0),
            Reads(Seven, 0x184, Half, 0x8105),
        ],
    )
}

#[test]
fn seventeen_words_through_a_fifo(rt: HostRuntime) -> Result<(), AllocError> {
    for (from, to) in [(Nine, Seven), (Seven, Nine)] {
        try_lines(
            &rt,
            rt.alloc(),
            &[
                Write(from, 0x184, Half, 0x8000),
                Write(to, 0x184, Half, 0x8000),
                Write(from, 0x188, Word, 1),
                Write(from, 0x188, Word, 2),
                Write(from, 0x188, Word, 3),
                Write(from, 0x188, Word, 4),
                Write(from, 0x188, Word, 5),
                Write(from, 0x188, Word, 6),
                Write(from, 0x188, Word, 7),
                Write(from, 0x188, Word, 8),
                Write(from, 0x188, Word, 9),
                Write(from, 0x188, Word, 10),
                Write(from, 0x188, Word, 11),
                Write(from, 0x188, Word, 12),
                Write(from, 0x188, Word, 13),
                Write(from, 0x188, Word, 14),
                Write(from, 0x188, Word, 15),
                Write(from, 0x188, Word, 16),
                Write(from, 0x188, Word, 17),
                // the send FIFO is full, and the seventeenth set the error
                Reads(from, 0x184, Half, 0xC102),
                Takes(to, 0x10_0000, Word, 1),
                Takes(to, 0x10_0000, Word, 2),
                Takes(to, 0x10_0000, Word, 3),
                Takes(to, 0x10_0000, Word, 4),
                Takes(to, 0x10_0000, Word, 5),
                Takes(to, 0x10_0000, Word, 6),
                Takes(to, 0x10_0000, Word, 7),
                Takes(to, 0x10_0000, Word, 8),
                Takes(to, 0x10_0000, Word, 9),
                Takes(to, 0x10_0000, Word, 10),
                Takes(to, 0x10_0000, Word, 11),
                Takes(to, 0x10_0000, Word, 12),
                Takes(to, 0x10_0000, Word, 13),
                Takes(to, 0x10_0000, Word, 14),
                Takes(to, 0x10_0000, Word, 15),
                Takes(to, 0x10_0000, Word, 16),
                Reads(to, 0x10_0000, Word, 16),
                Read(to, 0x10_0000, Word),
                Reads(to, 0x184, Half, 0xC101),
            ],
        )?;
    }
    Ok(())
}

/// A byte of IPCSYNC leaves the bits of the other one, and sends where its own bit 13 asks; a word that covers more goes to it alone.
#[test]
fn parts_of_ipcsync_are_written_beside_kept_ones(rt: HostRuntime) -> Result<(), AllocError> {
    try_lines(
        &rt,
        rt.alloc(),
        &[
            Write(Nine, 0x180, Half, 0x4500),
            Write(Seven, 0x180, Half, 0x4000),
            Reads(Nine, 0x180, Half, 0x4500),
            // the upper byte: 6 goes out, its enable ends, and it sends
            Write(Nine, 0x181, Byte, 0x26),
            Reads(Nine, 0x180, Half, 0x0600),
            Reads(Seven, 0x180, Half, 0x4006),
            Reads(Seven, 0x214, Word, 0x1_0000),
            Write(Seven, 0x214, Word, 0x1_0000),
            // the lower byte has no bit that can be written, and sends nothing
            Write(Nine, 0x180, Byte, 0xFF),
            Reads(Nine, 0x180, Half, 0x0600),
            Reads(Seven, 0x180, Half, 0x4006),
            Reads(Seven, 0x214, Word, 0),
            // what is kept stays beside it: ARM7's enable, and what it sends
            Write(Seven, 0x181, Byte, 0x49),
            Write(Seven, 0x180, Byte, 0),
            Reads(Seven, 0x180, Half, 0x4906),
            Reads(Nine, 0x180, Half, 0x0609),
            // the two bytes after it are no port
            Write(Nine, 0x180, Word, 0xFFFF_2700),
            Reads(Nine, 0x180, Word, 0x0709),
            Reads(Seven, 0x214, Word, 0x1_0000),
        ],
    )
}

/// What is sent isn't read, and what is received isn't written.
#[test]
fn each_fifo_has_one_direction(rt: HostRuntime) -> Result<(), AllocError> {
    try_lines(
        &rt,
        rt.alloc(),
        &[
            Write(Nine, 0x184, Half, 0x8000),
            Write(Seven, 0x184, Half, 0x8000),
            Write(Nine, 0x188, Word, 0x1234_5678),
            Reads(Nine, 0x188, Word, 0),
            Reads(Nine, 0x188, Half, 0),
            Reads(Nine, 0x18B, Byte, 0),
            Takes(Nine, 0x188, Word, 0),
            Write(Seven, 0x10_0000, Word, 5),
            Write(Nine, 0x10_0000, Word, 5),
            Reads(Nine, 0x184, Half, 0x8100),
            Reads(Seven, 0x184, Half, 0x8001),
            Reads(Nine, 0x10_0000, Word, 0),
            Takes(Seven, 0x10_0000, Word, 0x1234_5678),
        ],
    )
}

/// A clear empties what its side sent and makes the other forget the word received last; by a byte the enables of the other one stay.
#[test]
fn a_clear_empties_what_was_sent(rt: HostRuntime) -> Result<(), AllocError> {
    for (from, to) in [(Nine, Seven), (Seven, Nine)] {
        try_lines(
            &rt,
            rt.alloc(),
            &[
                Write(from, 0x184, Half, 0x8000),
                Write(to, 0x184, Half, 0x8000),
                Write(from, 0x188, Word, 7),
                Write(from, 0x188, Word, 8),
                Takes(to, 0x10_0000, Word, 7),
                Write(from, 0x184, Half, 0x8008),
                Reads(from, 0x184, Half, 0x8101),
                Reads(to, 0x184, Half, 0x8101),
                Reads(to, 0x10_0000, Word, 0),
                // the bit isn't kept: what is sent afterwards waits
                Write(from, 0x188, Word, 9),
                Write(from, 0x185, Byte, 0x80),
                Reads(to, 0x10_0000, Word, 9),
                Write(from, 0x184, Byte, 0x08),
                Reads(from, 0x184, Half, 0x8101),
                Reads(to, 0x10_0000, Word, 0),
            ],
        )?;
    }
    Ok(())
}

/// Interrupt 17 at the sender, when the other side takes the last word; 18 at the receiver, when the first one waits.
#[test]
fn a_receive_raises_at_the_sender(rt: HostRuntime) -> Result<(), AllocError> {
    for (from, to) in [(Nine, Seven), (Seven, Nine)] {
        try_lines(
            &rt,
            rt.alloc(),
            &[
                // the enable on an empty FIFO raises at once
                Write(from, 0x184, Half, 0x8004),
                Reads(from, 0x214, Word, 0x2_0000),
                Write(from, 0x214, Word, 0x2_0000),
                Write(to, 0x184, Half, 0x8400),
                Write(from, 0x188, Word, 7),
                Reads(to, 0x214, Word, 0x4_0000),
                Write(to, 0x214, Word, 0x4_0000),
                Write(from, 0x188, Word, 8),
                Takes(to, 0x10_0000, Word, 7),
                Reads(from, 0x214, Word, 0),
                Takes(to, 0x10_0000, Word, 8),
                Reads(from, 0x214, Word, 0x2_0000),
                Reads(to, 0x214, Word, 0),
                // and so does a read whose value isn't asked for
                Boot,
                Write(from, 0x184, Half, 0x8000),
                Write(to, 0x184, Half, 0x8000),
                Write(from, 0x188, Word, 7),
                Write(from, 0x184, Half, 0x8004),
                Reads(from, 0x214, Word, 0),
                Read(to, 0x10_0000, Word),
                Reads(from, 0x214, Word, 0x2_0000),
            ],
        )?;
    }
    Ok(())
}
