//! How much waits for the geometry engine at most.

use crate::tests::lines::Line::{
    At, Does, Fills, Finishes, GeometryDue, Held, Reads, Swaps, Write,
};
use crate::tests::lines::{NEVER, try_lines};
use ds_base::Proc::{Nine, Seven};
use ds_base::Width::Word;
use std::alloc::AllocError;

/// The ports of MTX_IDENTITY, which takes 38 ticks and no parameter, and of SWAP_BUFFERS.
const IDENTITY: u32 = 0x454;

const SWAP: u32 = 0x540;

/// Four MTX_IDENTITY in a packed word.
const FOUR: u32 = 0x1515_1515;

/// GXSTAT where something waits: its count, here at its most, stands in bits 16 to 24.
const FULL: u32 = 0x0900_0000;

/// 260 entries wait behind a swap, and ARM9 goes on. Sixteen words of four commands make 324: a stall holds ARM9, and GXSTAT's count is 256. From line 192 on, 64 of
/// them are done before it goes on again.
#[test]
fn sixteen_words_behind_260_entries_find_room(rt: HostRuntime) -> Result<(), AllocError> {
    let mut lines = Vec::new(rt.alloc());
    for line in [
        At(10),
        Does(1, SWAP, 0),
        Fills(260, IDENTITY, 0),
        Held(Nine, false),
        Reads(Nine, 0x600, Word, FULL),
    ] {
        lines.push(line)?;
    }
    for word in 0..16 {
        lines.push(Write(Nine, 0x400 + 4 * word, Word, FOUR))?;
    }
    for line in [
        Held(Nine, true),
        Held(Seven, false),
        Reads(Nine, 0x600, Word, FULL),
        GeometryDue(NEVER),
        At(5000),
        Swaps(true, 0, 0),
        GeometryDue(5038),
    ] {
        lines.push(line)?;
    }
    for _ in 0..63 {
        lines.push(Finishes)?;
    }
    for line in [
        Held(Nine, true),
        Reads(Nine, 0x600, Word, FULL),
        GeometryDue(7432),
        Finishes,
        Held(Nine, false),
        Reads(Nine, 0x600, Word, FULL),
        Finishes,
        Reads(Nine, 0x600, Word, 0x08FF_0000),
    ] {
        lines.push(line)?;
    }
    try_lines(&rt, rt.alloc(), &lines)
}
