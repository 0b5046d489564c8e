//! A processor's DMA channels, by GBATEK's "DS DMA Transfers" and by the choices of this console.

use crate::tests::dma_lines::Line::{
    Boot, Due, Enable, Event, Idle, Last, LastIn, Moves, MovesAll, MovesIn, NoLast, Reads, Refused,
    Unit, Write,
};
use crate::tests::dma_lines::try_lines;
use Cause::{Card, Geometry, HBlank, VBlank};
use DmaPort::{Control, Source, Target};
use Proc::{Nine, Seven};
use ds_base::LeftKind::DmaStart;
use ds_base::{Proc, Width};
use ds_dma::{Cause, DmaPort};
use std::process::Abort;

/// Where the units of the tests are read and written.
const FROM: u32 = 0x0200_0000;

const TO: u32 = 0x0300_0000;

#[test]
fn two_words_at_once_and_an_interrupt_at_the_end(rt: HostRuntime) {
    try_lines(
        &rt,
        Nine,
        &[
            Idle,
            NoLast,
            Enable(0, FROM, TO, 0xC400_0002, 100),
            Due(0, 104),
            Unit(Width::Word),
            Moves(FROM, TO, 0),
            Due(0, 108),
            Last(104),
            Moves(FROM + 4, TO + 4, 0x100),
            Reads(0, Control, 0x4400_0002),
            Idle,
            Last(108),
        ],
    );
}

#[test]
fn each_channel_raises_its_own_interrupt(rt: HostRuntime) {
    for proc in [Nine, Seven] {
        try_lines(
            &rt,
            proc,
            &[
                Enable(0, FROM, TO, 0xC400_0001, 0),
                Moves(FROM, TO, 0x100),
                Enable(0, FROM, TO, 0x8400_0001, 10),
                Moves(FROM, TO, 0),
                Enable(1, FROM, TO, 0xC400_0001, 0),
                Moves(FROM, TO, 0x200),
                Enable(1, FROM, TO, 0x8400_0001, 10),
                Moves(FROM, TO, 0),
                Enable(2, FROM, TO, 0xC400_0001, 0),
                Moves(FROM, TO, 0x400),
                Enable(2, FROM, TO, 0x8400_0001, 10),
                Moves(FROM, TO, 0),
                Enable(3, FROM, TO, 0xC400_0001, 0),
                Moves(FROM, TO, 0x800),
                Enable(3, FROM, TO, 0x8400_0001, 10),
                Moves(FROM, TO, 0),
            ],
        );
    }
}

#[test]
fn addresses_of_words_move_by_their_modes(rt: HostRuntime) {
    for proc in [Nine, Seven] {
        try_lines(
            &rt,
            proc,
            &[
                // up and up, and past 28 bits
                Enable(2, 0x0FFF_FFF8, 0x10, 0x8400_0003, 0),
                Moves(0x0FFF_FFF8, 0x10, 0),
                Moves(0x0FFF_FFFC, 0x14, 0),
                Moves(0x1000_0000, 0x18, 0),
                Idle,
                Reads(2, Source, 0x0FFF_FFF8),
                // down and down, and below 0
                Enable(2, 4, 0, 0x84A0_0003, 0),
                Moves(4, 0, 0),
                Moves(0, 0xFFFF_FFFC, 0),
                Moves(0xFFFF_FFFC, 0xFFFF_FFF8, 0),
                Idle,
                Reads(2, Source, 4),
                // a source that stays and a target that goes up, and the reverse
                Enable(2, 0x40, 0x80, 0x8500_0003, 0),
                Moves(0x40, 0x80, 0),
                Moves(0x40, 0x84, 0),
                Moves(0x40, 0x88, 0),
                Idle,
                Reads(2, Source, 0x40),
                Enable(2, 0x40, 0x80, 0x8440_0003, 0),
                Moves(0x40, 0x80, 0),
                Moves(0x44, 0x80, 0),
                Moves(0x48, 0x80, 0),
                Idle,
                Reads(2, Source, 0x40),
                // mode 3 goes up
                Enable(2, 0x40, 0x80, 0x85E0_0003, 0),
                Moves(0x40, 0x80, 0),
                Moves(0x44, 0x84, 0),
                Moves(0x48, 0x88, 0),
                Idle,
                Reads(2, Source, 0x40),
            ],
        );
    }
}

#[test]
fn addresses_of_halves_move_by_their_modes(rt: HostRuntime) {
    for proc in [Nine, Seven] {
        try_lines(
            &rt,
            proc,
            &[
                // up and down
                Enable(2, 0x40, 0x80, 0x8020_0003, 0),
                Unit(Width::Half),
                Moves(0x40, 0x80, 0),
                Moves(0x42, 0x7E, 0),
                Moves(0x44, 0x7C, 0),
                Idle,
                Reads(2, Source, 0x40),
                // down and up
                Enable(2, 2, 0x80, 0x8080_0003, 0),
                Moves(2, 0x80, 0),
                Moves(0, 0x82, 0),
                Moves(0xFFFF_FFFE, 0x84, 0),
                Idle,
                Reads(2, Source, 2),
                // mode 3 goes up
                Enable(2, 0x40, 0x80, 0x81E0_0003, 0),
                Moves(0x40, 0x80, 0),
                Moves(0x42, 0x82, 0),
                Moves(0x44, 0x84, 0),
                Idle,
                Reads(2, Source, 0x40),
            ],
        );
    }
}

#[test]
fn a_count_of_zero_is_the_greatest_and_one_more(rt: HostRuntime) {
    try_lines(
        &rt,
        Seven,
        &[
            Enable(0, FROM, TO, 0x8000_0000, 0),
            MovesAll(0x4000, 0),
            Enable(2, FROM, TO, 0xC400_0000, 0),
            MovesAll(0x4000, 0x400),
            Enable(1, FROM, TO, 0x8000_3FFF, 0),
            MovesAll(0x3FFF, 0),
            // channel 3 has two bits more
            Enable(3, FROM, TO, 0xC400_0000, 0),
            MovesAll(0x1_0000, 0x800),
            Enable(3, FROM, TO, 0x8000_FFFF, 0),
            MovesAll(0xFFFF, 0),
        ],
    );
    // each of ARM9's has 21 bits
    try_lines(
        &rt,
        Nine,
        &[
            Enable(0, FROM, TO, 0xC400_0000, 0),
            MovesAll(0x20_0000, 0x100),
            Idle,
        ],
    );
}

/// A count of 0, or of 1 and one bit more: the first unit is the only one where that bit isn't one of the channel's count.
#[test]
fn a_count_has_the_bits_of_its_channel(rt: HostRuntime) {
    try_lines(
        &rt,
        Nine,
        &[
            Enable(0, FROM, TO, 0x8000_0000, 0),
            Moves(FROM, TO, 0),
            Due(0, 8),
            Boot,
            Enable(0, FROM, TO, 0x8010_0001, 0),
            Moves(FROM, TO, 0),
            Due(0, 8),
            Boot,
            Enable(3, FROM, TO, 0x8010_0001, 0),
            Moves(FROM, TO, 0),
            Due(3, 8),
            Boot,
            Enable(3, FROM, TO, 0x8020_0001, 0),
            Moves(FROM, TO, 0),
            Idle,
        ],
    );
    try_lines(
        &rt,
        Seven,
        &[
            Enable(2, FROM, TO, 0x8000_2001, 0),
            Moves(FROM, TO, 0),
            Due(2, 8),
            Boot,
            Enable(2, FROM, TO, 0x8000_4001, 0),
            Moves(FROM, TO, 0),
            Idle,
            Boot,
            Enable(3, FROM, TO, 0x8000_0000, 0),
            Moves(FROM, TO, 0),
            Due(3, 8),
            Boot,
            Enable(3, FROM, TO, 0x8000_8001, 0),
            Moves(FROM, TO, 0),
            Due(3, 8),
            Boot,
            Enable(3, FROM, TO, 0x8001_0001, 0),
            Moves(FROM, TO, 0),
            Idle,
        ],
    );
}

#[test]
fn each_processor_keeps_its_bits(rt: HostRuntime) {
    try_lines(
        &rt,
        Nine,
        &[
            Enable(0, 0xFFFF_FFFF, 0xF123_4567, 0x4FFF_FFFF, 0),
            Reads(0, Source, 0x0FFF_FFFF),
            Reads(0, Target, 0x0123_4567),
            Reads(0, Control, 0x4FFF_FFFF),
            Enable(3, 0xFFFF_FFFF, 0xF123_4567, 0x4FFF_FFFF, 0),
            Reads(3, Source, 0x0FFF_FFFF),
            Reads(3, Target, 0x0123_4567),
            Reads(3, Control, 0x4FFF_FFFF),
            Idle,
        ],
    );
    try_lines(
        &rt,
        Seven,
        &[
            Enable(0, 0xFFFF_FFFF, 0xF123_4567, 0x4FFF_FFFF, 0),
            Reads(0, Source, 0x0FFF_FFFF),
            Reads(0, Target, 0x0123_4567),
            Reads(0, Control, 0x47E0_3FFF),
            Enable(2, 0xFFFF_FFFF, 0xF123_4567, 0x4FFF_FFFF, 0),
            Reads(2, Source, 0x0FFF_FFFF),
            Reads(2, Target, 0x0123_4567),
            Reads(2, Control, 0x47E0_3FFF),
            Enable(3, 0xFFFF_FFFF, 0xF123_4567, 0x4FFF_FFFF, 0),
            Reads(3, Source, 0x0FFF_FFFF),
            Reads(3, Target, 0x0123_4567),
            Reads(3, Control, 0x47E0_FFFF),
            Idle,
        ],
    );
}

/// The bits of the target's mode, and where the second unit of the first turn and the first one of the second turn are written.
const AGAIN: [(u32, u32, u32); 4] = [
    (0x0000_0000, TO + 4, TO + 8),
    (0x0020_0000, TO - 4, TO - 8),
    (0x0040_0000, TO, TO),
    (0x0060_0000, TO + 4, 0x0100_0000),
];

#[test]
fn a_channel_that_repeats_is_armed_again_with_the_count_that_stands(rt: HostRuntime) {
    for (mode, second, third) in AGAIN {
        try_lines(
            &rt,
            Nine,
            &[
                Enable(1, FROM, TO, 0xCE00_0002 | mode, 0),
                Idle,
                Event(VBlank, 10),
                Due(1, 14),
                Moves(FROM, TO, 0),
                // another count, source and target while it runs: none counts before its end
                Enable(1, 0x0400_0000, 0x0100_0000, 0xCE00_0003 | mode, 15),
                Due(1, 18),
                Moves(FROM + 4, second, 0x200),
                // it waits for the next event, and then moves three
                Idle,
                Reads(1, Control, 0xCE00_0003 | mode),
                Event(VBlank, 100),
                Due(1, 104),
                Moves(FROM + 8, third, 0),
                MovesAll(2, 0x200),
            ],
        );
    }
}

#[test]
fn a_channel_that_starts_at_once_or_does_not_repeat_ends_disabled(rt: HostRuntime) {
    try_lines(
        &rt,
        Nine,
        &[
            // it repeats, but starts at once
            Enable(0, FROM, TO, 0x8600_0001, 0),
            Moves(FROM, TO, 0),
            Idle,
            Reads(0, Control, 0x0600_0001),
            // it starts at V-blank, and doesn't repeat
            Enable(0, FROM, TO, 0x8C00_0001, 10),
            Event(VBlank, 20),
            Moves(FROM, TO, 0),
            Reads(0, Control, 0x0C00_0001),
            Event(VBlank, 40),
            Idle,
        ],
    );
}

#[test]
fn the_next_unit_waits_for_the_waits_of_the_last_one(rt: HostRuntime) {
    try_lines(
        &rt,
        Nine,
        &[
            Enable(0, FROM, TO, 0xC400_0002, 100),
            Due(0, 104),
            MovesIn(8, FROM, TO),
            LastIn(104, 8),
            Due(0, 116),
            Moves(FROM + 4, TO + 4, 0x100),
            LastIn(116, 0),
            Boot,
            // so does a channel of another number, and one that is triggered while they last
            Enable(0, FROM, TO, 0x8400_0001, 100),
            Enable(3, FROM, TO, 0x8400_0001, 100),
            MovesIn(16, FROM, TO),
            Due(3, 124),
            Enable(1, FROM, TO, 0x8400_0001, 119),
            Due(1, 124),
            Boot,
            // one that is triggered when they are over waits for its own 4 ticks alone
            Enable(0, FROM, TO, 0x8400_0001, 100),
            MovesIn(8, FROM, TO),
            Enable(1, FROM, TO, 0x8400_0001, 112),
            Due(1, 116),
            Enable(0, FROM, TO, 0x8400_0001, 113),
            Due(0, 117),
        ],
    );
}

#[test]
fn the_least_running_channel_goes_first(rt: HostRuntime) {
    try_lines(
        &rt,
        Seven,
        &[
            Enable(3, FROM, TO, 0x8400_0002, 100),
            Due(3, 104),
            Enable(1, FROM + 0x100, TO, 0x8400_0001, 102),
            Enable(2, FROM + 0x200, TO, 0x8400_0001, 102),
            Due(1, 106),
            Moves(FROM + 0x100, TO, 0),
            Due(2, 110),
            Moves(FROM + 0x200, TO, 0),
            Due(3, 114),
            // one that is triggered later than the last unit
            Enable(0, FROM, TO, 0x8400_0001, 113),
            Due(0, 117),
            MovesAll(3, 0),
            Last(125),
        ],
    );
}

#[test]
fn a_write_that_clears_enable_ends_a_transfer(rt: HostRuntime) {
    try_lines(
        &rt,
        Nine,
        &[
            Enable(0, FROM, TO, 0xC400_0003, 0),
            Moves(FROM, TO, 0),
            Write(0, 0x4400_0003, 5),
            Idle,
            Reads(0, Control, 0x4400_0003),
            // enabled again, it begins from its source
            Write(0, 0xC400_0001, 6),
            Due(0, 10),
            Moves(FROM, TO, 0x100),
        ],
    );
}

#[test]
fn a_write_that_leaves_it_enabled_triggers_nothing(rt: HostRuntime) {
    try_lines(
        &rt,
        Nine,
        &[
            Enable(0, FROM, TO, 0x8C00_0002, 0),
            Write(0, 0x8400_0002, 5),
            Event(VBlank, 10),
            Idle,
            // from words that go up to halves that go down, in the middle of a transfer
            Write(0, 0x8C00_0002, 11),
            Event(VBlank, 20),
            Moves(FROM, TO, 0),
            Write(0, 0xC8A0_0001, 25),
            Due(0, 28),
            Unit(Width::Half),
            Moves(FROM + 4, TO + 4, 0x100),
        ],
    );
}

#[test]
fn starts_that_are_left_out_are_refused(rt: HostRuntime) {
    try_lines(
        &rt,
        Nine,
        &[
            // a control that isn't enabled stays where one is refused
            Enable(1, FROM, TO, 0x1234, 0),
            Refused(1, 0x9800_0001, 0, DmaStart, 0x9800_0001),
            Idle,
            Reads(1, Control, 0x1234),
            Refused(1, 0xA000_0001, 0, DmaStart, 0xA000_0001),
            Idle,
            Reads(1, Control, 0x1234),
            Refused(1, 0xB000_0001, 0, DmaStart, 0xB000_0001),
            Idle,
            Reads(1, Control, 0x1234),
            // and these are taken
            Write(1, 0x8000_0001, 0),
            Boot,
            Enable(1, FROM, TO, 0x1234, 0),
            Write(1, 0x8800_0001, 0),
            Boot,
            Enable(1, FROM, TO, 0x1234, 0),
            Write(1, 0x9000_0001, 0),
            Boot,
            Enable(1, FROM, TO, 0x1234, 0),
            Write(1, 0xA800_0001, 0),
            Boot,
            Enable(1, FROM, TO, 0x1234, 0),
            Write(1, 0xB800_0001, 0),
        ],
    );
    try_lines(
        &rt,
        Seven,
        &[
            Enable(1, FROM, TO, 0x1234, 0),
            // ARM7's control has neither bit 27 nor bits 14 to 20 of a count
            Refused(1, 0xB81F_C001, 0, DmaStart, 0xB000_0001),
            Idle,
            Reads(1, Control, 0x1234),
            Write(1, 0x8800_0001, 0),
            Boot,
            Enable(1, FROM, TO, 0x1234, 0),
            Write(1, 0x9800_0001, 0),
            Boot,
            Enable(1, FROM, TO, 0x1234, 0),
            Write(1, 0xA800_0001, 0),
        ],
    );
}

#[test]
fn only_what_enables_a_channel_is_refused(rt: HostRuntime) {
    try_lines(
        &rt,
        Nine,
        &[
            // not enabled: every start is kept
            Write(0, 0x1800_0001, 0),
            Write(0, 0x3800_0001, 0),
            // enabled already: a start that is left out is kept
            Enable(0, FROM, TO, 0x8800_0001, 0),
            Write(0, 0x9800_0001, 0),
            Reads(0, Control, 0x9800_0001),
        ],
    );
}

/// Channel 3 enabled with a start, and channel 2 beside it not enabled; then each event.
fn try_start(rt: &impl Abort, proc: Proc, control: u32, starting: Cause, others: [Cause; 3]) {
    try_lines(
        rt,
        proc,
        &[
            Enable(3, FROM, TO, control, 0),
            Enable(2, FROM, TO, control & 0x7FFF_FFFF, 0),
            Event(others[0], 50),
            Idle,
            Event(others[1], 50),
            Idle,
            Event(others[2], 50),
            Idle,
            Event(starting, 50),
            Due(3, 54),
        ],
    );
}

#[test]
fn an_event_triggers_the_channels_that_wait_for_it(rt: HostRuntime) {
    for (proc, control, starting, others) in [
        (Nine, 0x8800_0001, VBlank, [HBlank, Card, Geometry]),
        (Nine, 0x9000_0001, HBlank, [VBlank, Card, Geometry]),
        (Nine, 0xA800_0001, Card, [VBlank, HBlank, Geometry]),
        (Nine, 0xB800_0001, Geometry, [VBlank, HBlank, Card]),
        (Seven, 0x9000_0001, VBlank, [HBlank, Card, Geometry]),
        (Seven, 0xA000_0001, Card, [VBlank, HBlank, Geometry]),
    ] {
        try_start(&rt, proc, control, starting, others);
    }
}

#[test]
fn an_event_leaves_a_running_channel(rt: HostRuntime) {
    try_lines(
        &rt,
        Nine,
        &[
            Enable(0, FROM, TO, 0x8A00_0002, 0),
            Enable(1, FROM, TO, 0x8A00_0001, 0),
            Event(VBlank, 10),
            Event(VBlank, 13),
            Due(0, 14),
            Moves(FROM, TO, 0),
            Event(VBlank, 16),
            Due(0, 18),
            MovesAll(2, 0),
        ],
    );
}
