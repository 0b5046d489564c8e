//! ARM9's DMA by the geometry FIFO, start 7: bursts of 112 words (GBATEK, "DS 3D Geometry Commands"), and the choices of this console.

use crate::tests::dma_lines::Line::{
    Awaits, Due, Enable, Event, Idle, Last, Moves, MovesAll, Reads, Write,
};
use crate::tests::dma_lines::try_lines;
use Cause::{Geometry, VBlank};
use DmaPort::Control;
use ds_base::Proc::Nine;
use ds_dma::{Cause, DmaPort};

/// Where the words of the tests are read.
const FROM: u32 = 0x0200_0000;

/// Where they are written: the geometry FIFO, a target that stays.
const FIFO: u32 = 0x0400_0400;

/// Each burst's words are 4 ticks apart, its first one is due 4 ticks after the trigger: 154 to 598, 602 to 1046, 2004 to 2304.
#[test]
fn three_hundred_words_go_as_112_112_and_76(rt: HostRuntime) {
    try_lines(
        &rt,
        Nine,
        &[
            // enabling it triggers nothing
            Enable(0, FROM, FIFO, 0xFC40_012C, 100),
            Idle,
            Awaits(true),
            Event(Geometry, 150),
            Due(0, 154),
            Awaits(false),
            Moves(FROM, FIFO, 0),
            Due(0, 158),
            MovesAll(111, 0),
            Last(598),
            Idle,
            Awaits(true),
            Reads(0, Control, 0xFC40_012C),
            // at the tick of the last word
            Event(Geometry, 598),
            Due(0, 602),
            Moves(FROM + 448, FIFO, 0),
            MovesAll(111, 0),
            Last(1046),
            Idle,
            Awaits(true),
            // and long after it; the interrupt comes at the end alone
            Event(Geometry, 2000),
            Due(0, 2004),
            Moves(FROM + 896, FIFO, 0),
            MovesAll(75, 0x100),
            Last(2304),
            Idle,
            Awaits(false),
            Reads(0, Control, 0x7C40_012C),
        ],
    );
}

/// The count, how many words the first burst has, and how many the second one has, if there is one.
const COUNTS: [(u32, u64, Option<u64>); 5] = [
    (1, 1, None),
    (111, 111, None),
    (112, 112, None),
    (113, 112, Some(1)),
    (224, 112, Some(112)),
];

#[test]
fn a_burst_has_112_words_or_what_is_left(rt: HostRuntime) {
    for (count, first, second) in COUNTS {
        let (raised, next) = match second {
            Some(next) => (0, (next, 0x200)),
            None => (0x200, (0, 0)),
        };
        try_lines(
            &rt,
            Nine,
            &[
                Enable(1, FROM, FIFO, 0xFC40_0000 | count, 0),
                Event(Geometry, 10),
                MovesAll(first, raised),
                Awaits(second.is_some()),
                Event(Geometry, 1000),
                MovesAll(next.0, next.1),
                Reads(1, Control, 0x7C40_0000 | count),
                Awaits(false),
                Event(Geometry, 5000),
                Idle,
            ],
        );
    }
}

#[test]
fn the_repeat_bit_is_ignored(rt: HostRuntime) {
    try_lines(
        &rt,
        Nine,
        &[
            Enable(0, FROM, FIFO, 0xFE40_0002, 0),
            Event(Geometry, 10),
            MovesAll(2, 0x100),
            Reads(0, Control, 0x7E40_0002),
            Awaits(false),
            // started at V-blank, and by the geometry FIFO when it ends
            Enable(0, FROM, FIFO, 0x8E40_0002, 100),
            Event(VBlank, 110),
            Moves(FROM, FIFO, 0),
            Write(0, 0xBE40_0002, 115),
            MovesAll(1, 0),
            Reads(0, Control, 0x3E40_0002),
            Awaits(false),
            // and the reverse: it is armed again
            Enable(0, FROM, FIFO, 0xBE40_0002, 200),
            Event(Geometry, 210),
            Moves(FROM, FIFO, 0),
            Write(0, 0x8E40_0003, 215),
            MovesAll(1, 0),
            Reads(0, Control, 0x8E40_0003),
            Event(VBlank, 300),
            Moves(FROM + 8, FIFO, 0),
            MovesAll(2, 0),
        ],
    );
}

#[test]
fn a_burst_has_its_own_words_whatever_the_start_then_is(rt: HostRuntime) {
    try_lines(
        &rt,
        Nine,
        &[
            // from the geometry FIFO to V-blank: the rest of 128 words waits for that
            Enable(0, FROM, FIFO, 0xBC40_0080, 0),
            Event(Geometry, 10),
            Moves(FROM, FIFO, 0),
            Write(0, 0x8C40_0080, 15),
            Due(0, 18),
            MovesAll(111, 0),
            Last(458),
            Idle,
            Awaits(false),
            Event(Geometry, 500),
            Idle,
            Event(VBlank, 600),
            Due(0, 604),
            Moves(FROM + 448, FIFO, 0),
            MovesAll(15, 0),
            Reads(0, Control, 0x0C40_0080),
            // from V-blank to the geometry FIFO: all 150 words go at once
            Enable(0, FROM, FIFO, 0x8C40_0096, 1000),
            Event(VBlank, 1010),
            Moves(FROM, FIFO, 0),
            Write(0, 0xBC40_0096, 1015),
            MovesAll(149, 0),
            Reads(0, Control, 0x3C40_0096),
            // from the geometry FIFO to at once, which triggers nothing: the rest waits for a start
            Enable(0, FROM, FIFO, 0xBC40_0080, 2000),
            Event(Geometry, 2010),
            Moves(FROM, FIFO, 0),
            Write(0, 0x8440_0080, 2015),
            MovesAll(111, 0),
            Awaits(false),
            Reads(0, Control, 0x8440_0080),
            Write(0, 0xBC40_0080, 3000),
            Idle,
            Awaits(true),
            Event(Geometry, 3001),
            MovesAll(16, 0),
        ],
    );
}

#[test]
fn a_second_event_leaves_a_burst_that_runs(rt: HostRuntime) {
    try_lines(
        &rt,
        Nine,
        &[
            Enable(0, FROM, FIFO, 0xBC40_0200, 0),
            Event(Geometry, 10),
            Event(Geometry, 13),
            Due(0, 14),
            Moves(FROM, FIFO, 0),
            Event(Geometry, 17),
            Due(0, 18),
            MovesAll(111, 0),
            Last(458),
            Awaits(true),
        ],
    );
}

#[test]
fn a_burst_that_is_cut_off_leaves_nothing_behind(rt: HostRuntime) {
    try_lines(
        &rt,
        Nine,
        &[
            Enable(0, FROM, FIFO, 0xBC40_0080, 0),
            Event(Geometry, 10),
            Moves(FROM, FIFO, 0),
            Write(0, 0x3C40_0080, 15),
            Idle,
            Awaits(false),
            // enabled again, at once: all of its 120 words
            Write(0, 0x8440_0078, 20),
            Due(0, 24),
            MovesAll(120, 0),
        ],
    );
}

#[test]
fn the_least_channel_ends_its_burst_first(rt: HostRuntime) {
    try_lines(
        &rt,
        Nine,
        &[
            Enable(2, FROM, FIFO, 0xFC40_0071, 0),
            Enable(3, FROM + 0x1000, FIFO, 0xFC40_0001, 0),
            Event(Geometry, 10),
            Due(2, 14),
            Moves(FROM, FIFO, 0),
            // the last word of the burst is at 458, and the other channel's word 4 ticks later
            MovesAll(112, 0x800),
            Last(462),
            Awaits(true),
            Event(Geometry, 462),
            Due(2, 466),
            MovesAll(1, 0x400),
            Idle,
        ],
    );
}
