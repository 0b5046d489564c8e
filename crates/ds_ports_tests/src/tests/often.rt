//! What is read most, by reads that are made: each processor has its own.

use crate::tests::lines::Line::{Press, Shows, Takes, Write};
use crate::tests::lines::try_lines;
use ds_base::Proc::{Nine, Seven};
use ds_base::Width::{Byte, Half, Word};
use std::alloc::AllocError;

#[test]
fn each_processor_reads_its_own_status_and_interrupts(rt: HostRuntime) -> Result<(), AllocError> {
    try_lines(
        &rt,
        rt.alloc(),
        &[
            Write(Nine, 0x004, Half, 0x5538),
            Write(Seven, 0x004, Half, 0x1234),
            Takes(Nine, 0x004, Half, 0x5538),
            Takes(Seven, 0x004, Half, 0x1230),
            Takes(Nine, 0x006, Half, 0),
            // the H-blank of line 1 has been: it is enabled at both
            Shows(3),
            Takes(Nine, 0x004, Half, 0x553A),
            Takes(Seven, 0x004, Half, 0x1232),
            Takes(Nine, 0x006, Half, 1),
            Takes(Seven, 0x006, Half, 1),
            // by a byte, and both by a word
            Takes(Seven, 0x005, Byte, 0x12),
            Takes(Seven, 0x004, Word, 0x1_1232),
            Write(Nine, 0x214, Word, 2),
            Takes(Nine, 0x214, Word, 0),
            Takes(Seven, 0x214, Word, 2),
            Write(Nine, 0x210, Word, 0x41),
            Write(Seven, 0x210, Word, 0x21),
            Takes(Nine, 0x210, Word, 0x41),
            Takes(Seven, 0x210, Word, 0x21),
            Takes(Seven, 0x210, Half, 0x21),
            Write(Seven, 0x208, Word, 1),
            Takes(Nine, 0x208, Word, 0),
            Takes(Seven, 0x208, Word, 1),
            Takes(Nine, 0x208, Half, 0),
            Takes(Seven, 0x208, Half, 1),
            Takes(Seven, 0x20A, Half, 0),
        ],
    )
}

#[test]
fn keys_are_both_processors_and_each_has_its_side_of_the_ipc(
    rt: HostRuntime,
) -> Result<(), AllocError> {
    try_lines(
        &rt,
        rt.alloc(),
        &[
            // A and Up, and Y
            Press(0x841),
            Takes(Nine, 0x130, Half, 0x03BE),
            Takes(Seven, 0x130, Half, 0x03BE),
            // 5 goes to ARM7
            Write(Nine, 0x180, Half, 0x4500),
            Takes(Nine, 0x180, Half, 0x4500),
            Takes(Seven, 0x180, Half, 0x0005),
            // ARM7's FIFO is enabled, and both are empty
            Write(Seven, 0x184, Half, 0x8000),
            Takes(Nine, 0x184, Half, 0x0101),
            Takes(Seven, 0x184, Half, 0x8101),
            Takes(Seven, 0x184, Word, 0x8101),
        ],
    )
}
