//! The ports, what waits, and the swap.

use super::ports::{
    BEGIN_VTXS, BOX_TEST, CLIPMTX_RESULT, DISP3DCNT, GXFIFO, GXSTAT, MTX_IDENTITY, MTX_MODE,
    MTX_MULT_3X3, MTX_POP, MTX_PUSH, MTX_RESTORE, MTX_STORE, MTX_TRANS, POLYGON_ATTR, POS_RESULT,
    POS_TEST, RAM_COUNT, SWAP_BUFFERS, VEC_RESULT, VEC_TEST, VECMTX_RESULT, VTX_16, VTX_DIFF,
};
use Act::{
    Done, Finish, Half, Kept, Level, New, Read, Repeat, Stalled, Swap, Swapped, Waits, Write,
};
use ds_base::Tick;
use gx_fifo::Gx;
use std::alloc::{AllocError, Global};
use std::process::Abort;

/// One line of a table.
#[derive(Clone, Copy)]
enum Act {
    /// A new engine.
    New,
    /// A word to a port at a tick, once and so many times.
    Write(u32, u32, u64),
    Repeat(u32, u32, u32, u64),
    /// The head command is done.
    Finish,
    /// So many times a word to a port at tick 0, whose command is done then.
    Done(u32, u32, u32),
    /// Line 192 begins at a tick: whether a swap was made.
    Swap(u64, bool),
    /// How many entries wait, and when the head command is done; 0 where none is under way.
    Waits(u32, u64),
    /// What a port reads, and what of it is kept.
    Read(u32, u32),
    Kept(u32, u32),
    /// Whether ARM9 is held up, the count is below half, the interrupt's level.
    Stalled(bool),
    Half(bool),
    Level(bool),
    /// The tick and the parameter of the last swap.
    Swapped(u64, u32),
}

pub fn write(gx: &mut Gx, at: u32, word: u32, now: u64) {
    if gx.waiting() <= 320 {
        gx.port_write(at, word, Tick(now % 0x1_0000_0000));
    }
}

pub fn finish(gx: &mut Gx) {
    if let Some(due) = gx.due() {
        if due.0 <= 1 << 56 && gx.run_length() <= 1 << 56 {
            gx.finish();
        }
    }
}

fn due(gx: &Gx) -> u64 {
    match gx.due() {
        None => 0,
        Some(due) => due.0,
    }
}

/// What is done: what was seen, and what is wanted.
fn taken(gx: &mut Gx, act: Act) -> (u32, u32) {
    match act {
        Write(at, word, now) => write(gx, at, word, now),
        Repeat(times, at, word, now) => {
            for _ in 0..times {
                write(gx, at, word, now);
            }
        }
        Finish => finish(gx),
        Done(times, at, word) => {
            for _ in 0..times {
                write(gx, at, word, 0);
                finish(gx);
            }
        }
        Swap(now, wanted) => {
            return (gx.swap(Tick(now % 0x1_0000_0000)) as u32, wanted as u32);
        }
        asked => return seen(gx, asked),
    }
    (0, 0)
}

/// What is asked.
fn seen(gx: &Gx, act: Act) -> (u32, u32) {
    match act {
        Waits(count, tick) => ((gx.waiting() != count || due(gx) != tick) as u32, 0),
        Read(at, word) => (gx.port_read(at), word),
        Kept(at, word) => (gx.port_kept(at), word),
        Stalled(wanted) => (gx.stalled() as u32, wanted as u32),
        Half(wanted) => (gx.half_empty() as u32, wanted as u32),
        Level(wanted) => (gx.level() as u32, wanted as u32),
        Swapped(tick, parameter) => {
            let lists = gx.lists();
            (
                (lists.tick() != Tick(tick) || lists.parameter() != parameter) as u32,
                0,
            )
        }
        _ => (0, 1),
    }
}

/// A new engine.
fn renew(gx: &mut Gx, alloc: Global) -> Result<(), AllocError> {
    *gx = Gx::new(alloc)?;
    Ok(())
}

fn try_acts(rt: &impl Abort, alloc: Global, table: &str, acts: &[Act]) -> Result<(), AllocError> {
    let mut gx = Gx::new(alloc)?;
    for (number, act) in acts.iter().enumerate() {
        let (got, wanted) = match *act {
            New => {
                renew(&mut gx, alloc)?;
                (0, 0)
            }
            other => taken(&mut gx, other),
        };
        assert!(rt; got == wanted, "{table}, line {number}: {got}");
    }
    Ok(())
}

#[rattlefmt::skip]
const A_COMMAND_TAKES_ITS_CLOCKS_FROM_WHEN_IT_IS_COMPLETE_AND_FIRST: [Act; 29] = [
    // Waits(entries, done at)   Write(port, word, tick)
    // 15h has 19 clocks of 2 ticks
    Waits(0, 0),
    Write(MTX_IDENTITY, 0, 100), Waits(1, 138),
    Finish, Waits(0, 0),
    // the second one is first at 138
    Write(MTX_IDENTITY, 0, 100), Write(MTX_IDENTITY, 0, 110), Waits(2, 138),
    Finish, Waits(1, 176),
    Finish, Waits(0, 0),
    // 23h has two parameters and 9 clocks
    Write(VTX_16, 0, 10), Waits(1, 0),
    Write(VTX_16, 0, 50), Waits(2, 68),
    Finish, Waits(0, 0),
    // it takes the first two entries, whatever they were written for
    Write(GXFIFO, 0x23, 10), Write(GXFIFO, 7, 20), Waits(1, 0),
    Write(MTX_IDENTITY, 0, 30), Waits(2, 48),
    Finish, Waits(0, 0),
    // the packed command waits for its second parameter still
    Write(GXFIFO, 9, 60), Waits(1, 0),
    Write(VTX_16, 0, 70), Waits(2, 88),
];

#[rattlefmt::skip]
const PACKED_WORDS_ARE_TAKEN_APART_FROM_THE_LOWEST_BYTE: [Act; 37] = [
    // Write(port, word, tick)   Waits(entries, done at)   Read(port, word)
    // 10h with its parameter, 15h
    Write(GXFIFO, 0x1510, 0), Waits(0, 0),
    Write(GXFIFO, 1, 0), Waits(2, 2),
    Finish, Waits(1, 40),
    // any word of the port; 11h, and bytes that are no codes
    New, Write(GXFIFO + 0x3C, 0x00FF_0011, 0), Waits(1, 34),
    // a byte that is no code takes no parameter: 10h, 7Fh, 15h
    New, Write(GXFIFO, 0x0015_7F10, 0), Write(GXFIFO, 2, 0), Waits(2, 2),
    Write(GXFIFO, 0x15, 0), Waits(3, 2),
    // 10h, 15h, 10h, 11h
    New, Write(GXFIFO, 0x1110_1510, 0), Waits(0, 0),
    Write(GXFIFO, 1, 0), Waits(2, 2),
    Write(GXFIFO, 2, 0), Waits(4, 2),
    // no command at all
    New, Write(GXFIFO, 0, 0), Write(GXFIFO, 0xFFFF_FFFF, 0), Waits(0, 0),
    Write(GXFIFO, 0x1515_1515, 0), Waits(4, 38),
    // ports of no command: 1Dh, 7Fh; and past them
    New, Write(0x474, 0, 0), Write(0x5FC, 0, 0), Write(0x608, 0, 0), Write(0x3FC, 0x15, 0), Waits(0, 0), Read(GXFIFO, 0),
    Read(MTX_IDENTITY, 0), Read(0x608, 0),
];

#[rattlefmt::skip]
const A_SWAP_WAITS_FOR_LINE_192_AND_HOLDS_THE_NEXT_COMMAND_UP: [Act; 23] = [
    // Write(port, word, tick)   Waits(entries, done at)   Swap(tick, made)   Swapped(tick, parameter)   Read(port, word)
    // Done(times, port, word)
    // 50h has 392 clocks
    Write(SWAP_BUFFERS, 3, 1000), Waits(1, 1784),
    Swap(1100, false), Waits(1, 1784), Swapped(0, 0),
    Finish, Waits(0, 0), Read(GXSTAT, 0x0E00_0000),
    Write(MTX_IDENTITY, 0, 2000), Waits(1, 0),
    Swap(5000, true), Waits(1, 5038), Swapped(5000, 3),
    Swap(6000, false), Waits(1, 5038), Swapped(5000, 3),
    Finish, Waits(0, 0), Read(GXSTAT, 0x0600_0000),
    // nothing waits behind it
    Done(1, SWAP_BUFFERS, 1), Swap(7000, true), Waits(0, 0), Swapped(7000, 1),
];

#[rattlefmt::skip]
const MORE_THAN_260_ENTRIES_HOLD_ARM9_UP: [Act; 35] = [
    // Done(times, port, word)   Repeat(times, port, word, tick)   Waits(entries, done at)   Read(port, word)   Write(port, word, tick)
    // Swap(tick, made)
    Done(1, SWAP_BUFFERS, 0), Repeat(260, MTX_IDENTITY, 0, 10), Waits(260, 0), Stalled(false), Read(GXSTAT, 0x0900_0000),
    Repeat(15, GXFIFO, 0x1515_1515, 20), Waits(320, 0), Stalled(true),
    Write(GXFIFO, 0x1515_1515, 20), Waits(324, 0), Stalled(true), Read(GXSTAT, 0x0900_0000),
    Swap(5000, true), Waits(324, 5038),
    Finish, Waits(323, 5076),
    // down to 320, 261 and 260
    Finish, Finish, Finish, Waits(320, 5190),
    Repeat(1, MTX_IDENTITY, 0, 5100), Waits(321, 5190), Stalled(true),
    New, Done(1, SWAP_BUFFERS, 0), Repeat(261, MTX_IDENTITY, 0, 10), Stalled(true), Read(GXSTAT, 0x0900_0000),
    Swap(5000, true), Finish, Waits(260, 5076), Stalled(false), Read(GXSTAT, 0x0900_0000),
    Finish, Read(GXSTAT, 0x08FF_0000),
];

#[rattlefmt::skip]
const GXSTAT_TELLS_OF_WHAT_WAITS: [Act; 38] = [
    // Read(port, word)   Write(port, word, tick)   Repeat(times, port, word, tick)
    // the count is held at 0
    Read(GXSTAT, 0x0600_0000),
    Write(MTX_IDENTITY, 0, 0), Read(GXSTAT, 0x0E00_0000),
    Repeat(3, MTX_IDENTITY, 0, 0), Read(GXSTAT, 0x0E00_0000),
    Write(MTX_IDENTITY, 0, 0), Read(GXSTAT, 0x0A01_0000),
    Repeat(126, MTX_IDENTITY, 0, 0), Read(GXSTAT, 0x0A7F_0000), Half(true),
    Write(MTX_IDENTITY, 0, 0), Read(GXSTAT, 0x0880_0000), Half(false),
    Finish, Read(GXSTAT, 0x0A7F_0000),
    // each kind of command that it tells of, first or not
    New, Write(MTX_IDENTITY, 0, 0), Write(BOX_TEST, 0, 0), Read(GXSTAT, 0x0E00_0001),
    Write(MTX_PUSH, 0, 0), Read(GXSTAT, 0x0E00_4001),
    New, Write(MTX_POP, 0, 0), Read(GXSTAT, 0x0E00_4000),
    Finish, Write(POS_TEST, 0, 0), Read(GXSTAT, 0x0E00_8001),
    Write(POS_TEST, 0, 0), Finish, Read(GXSTAT, 0x0600_8000),
    Write(VEC_TEST, 0, 0), Read(GXSTAT, 0x0E00_8001),
    Finish, Read(GXSTAT, 0x0600_8000),
    // stores, restores and swaps are none of them
    Write(MTX_STORE, 0, 0), Write(MTX_RESTORE, 0, 0), Write(SWAP_BUFFERS, 0, 0), Read(GXSTAT, 0x0E00_8000),
];

#[rattlefmt::skip]
const GXSTAT_HAS_THE_STACKS_AND_THE_BOX_TEST: [Act; 19] = [
    // Done(times, port, word)   Read(port, word)   Write(port, word, tick)   Kept(port, word)
    // a pop at level 0 sets the error, which a 1 in bit 15 clears
    Done(1, MTX_POP, 1), Read(GXSTAT, 0x0600_8000),
    Write(GXSTAT, 0xC000_7FFF, 0), Read(GXSTAT, 0xC600_8000), Kept(GXSTAT, 0xC000_0000),
    Write(GXSTAT, 0x8000, 0), Read(GXSTAT, 0x0600_0000), Kept(GXSTAT, 0),
    // the projection level goes with it, the position level stays
    Done(1, MTX_PUSH, 0), Read(GXSTAT, 0x0600_2000),
    Done(1, MTX_MODE, 1), Done(2, MTX_PUSH, 0), Read(GXSTAT, 0x0600_2200),
    Write(GXSTAT, 0x8000, 0), Read(GXSTAT, 0x0600_0200),
    // a box at the origin is seen
    Done(1, BOX_TEST, 0), Done(1, BOX_TEST, 0x1000_0000), Done(1, BOX_TEST, 0x1000_1000), Read(GXSTAT, 0x0600_0202),
];

#[rattlefmt::skip]
const THE_SELECTOR_CHOOSES_THE_INTERRUPT: [Act; 22] = [
    // Write(port, word, tick)   Read(port, word)   Repeat(times, port, word, tick)
    Level(false),
    Write(GXSTAT, 0x4000_0000, 0), Read(GXSTAT, 0x4600_0000), Level(true),
    Repeat(131, MTX_IDENTITY, 0, 0), Level(true),
    Write(MTX_IDENTITY, 0, 0), Level(false),
    New, Write(GXSTAT, 0x8000_0000, 0), Read(GXSTAT, 0x8600_0000), Level(true),
    Repeat(4, MTX_IDENTITY, 0, 0), Level(true),
    Write(MTX_IDENTITY, 0, 0), Level(false),
    Write(GXSTAT, 0x4000_0000, 0), Level(true),
    Write(GXSTAT, 0xC000_0000, 0), Level(false),
    Write(GXSTAT, 0, 0), Level(false),
];

#[rattlefmt::skip]
const RESULTS_AND_MATRICES_ARE_READ: [Act; 44] = [
    // Done(times, port, word)   Read(port, word)
    // (-1, 2, 3) in clip space, with w
    Done(1, POS_TEST, 0x0002_FFFF), Done(1, POS_TEST, 3), Read(POS_RESULT, 0xFFFF_FFFF), Read(POS_RESULT + 4, 2),
    Read(POS_RESULT + 8, 3), Read(POS_RESULT + 12, 0x1000),
    // (511, 0, -512) of 512 parts
    Done(1, VEC_TEST, 0x2000_01FF), Read(VEC_RESULT, 0x0FF8), Read(VEC_RESULT + 4, 0xF000),
    // (0, -512, 511)
    Done(1, VEC_TEST, 0x1FF8_0000), Read(VEC_RESULT, 0xF000_0000), Read(VEC_RESULT + 4, 0x0FF8),
    // the identity moved by (1, 2, -3)
    Done(1, MTX_MODE, 1), Done(1, MTX_TRANS, 1), Done(1, MTX_TRANS, 2), Done(1, MTX_TRANS, 0xFFFF_FFFD),
    Read(CLIPMTX_RESULT, 0x1000), Read(CLIPMTX_RESULT + 4, 0), Read(CLIPMTX_RESULT + 20, 0x1000), Read(CLIPMTX_RESULT + 48, 1),
    Read(CLIPMTX_RESULT + 52, 2), Read(CLIPMTX_RESULT + 56, 0xFFFF_FFFD), Read(CLIPMTX_RESULT + 60, 0x1000),
    // the vector matrix by rows of three
    Done(1, MTX_MODE, 2), Done(1, MTX_MULT_3X3, 1), Done(1, MTX_MULT_3X3, 2), Done(1, MTX_MULT_3X3, 3), Done(1, MTX_MULT_3X3, 4),
    Done(1, MTX_MULT_3X3, 5), Done(1, MTX_MULT_3X3, 6), Done(1, MTX_MULT_3X3, 7), Done(1, MTX_MULT_3X3, 8),
    Done(1, MTX_MULT_3X3, 9), Read(VECMTX_RESULT, 1), Read(VECMTX_RESULT + 4, 2), Read(VECMTX_RESULT + 8, 3),
    Read(VECMTX_RESULT + 12, 4), Read(VECMTX_RESULT + 28, 8), Read(VECMTX_RESULT + 32, 9), Read(VECMTX_RESULT + 36, 0),
    // three vertices, and a polygon seen edge on
    Done(1, POLYGON_ATTR, 0xC0), Done(1, BEGIN_VTXS, 0), Done(3, VTX_DIFF, 0), Read(RAM_COUNT, 0x0003_0001),
];

#[rattlefmt::skip]
const THE_LISTS_OVERFLOW_IS_CLEARED_BY_ITS_BIT_ALONE: [Act; 22] = [
    // Read(port, word)   Write(port, word, tick)   Kept(port, word)   Done(times, port, word)   Swap(tick, made)
    Read(DISP3DCNT, 0),
    Write(DISP3DCNT, 0xFFFF_FFFF, 0), Read(DISP3DCNT, 0x5FFF), Kept(DISP3DCNT, 0x5FFF),
    Write(DISP3DCNT, 0, 0), Done(6144, VTX_DIFF, 0), Read(DISP3DCNT, 0), Read(RAM_COUNT, 0x1800_0000),
    Done(1, VTX_DIFF, 0), Read(DISP3DCNT, 0x2000), Read(RAM_COUNT, 0x1800_0000), Kept(DISP3DCNT, 0),
    Write(DISP3DCNT, 7, 0), Read(DISP3DCNT, 0x2007),
    Write(GXSTAT, 0x8000, 0), Read(DISP3DCNT, 0x2007),
    Done(1, SWAP_BUFFERS, 0), Swap(9000, true), Read(DISP3DCNT, 0x2007),
    Write(DISP3DCNT, 0x6001, 0), Read(DISP3DCNT, 0x4001), Kept(DISP3DCNT, 0x4001),
];

#[test]
fn each_table_holds(rt: HostRuntime) -> Result<(), AllocError> {
    let tables: [(&str, &[Act]); 9] = [
        (
            "a command takes its clocks from when it is complete and first",
            &A_COMMAND_TAKES_ITS_CLOCKS_FROM_WHEN_IT_IS_COMPLETE_AND_FIRST,
        ),
        (
            "packed words are taken apart from the lowest byte",
            &PACKED_WORDS_ARE_TAKEN_APART_FROM_THE_LOWEST_BYTE,
        ),
        (
            "a swap waits for line 192 and holds the next command up",
            &A_SWAP_WAITS_FOR_LINE_192_AND_HOLDS_THE_NEXT_COMMAND_UP,
        ),
        (
            "more than 260 entries hold arm9 up",
            &MORE_THAN_260_ENTRIES_HOLD_ARM9_UP,
        ),
        ("gxstat tells of what waits", &GXSTAT_TELLS_OF_WHAT_WAITS),
        (
            "gxstat has the stacks and the box test",
            &GXSTAT_HAS_THE_STACKS_AND_THE_BOX_TEST,
        ),
        (
            "the selector chooses the interrupt",
            &THE_SELECTOR_CHOOSES_THE_INTERRUPT,
        ),
        (
            "results and matrices are read",
            &RESULTS_AND_MATRICES_ARE_READ,
        ),
        (
            "the lists overflow is cleared by its bit alone",
            &THE_LISTS_OVERFLOW_IS_CLEARED_BY_ITS_BIT_ALONE,
        ),
    ];
    for (table, lines) in tables {
        try_acts(&rt, rt.alloc(), table, lines)?;
    }
    Ok(())
}
