//! A processor's timers, by GBATEK's "DS Timers". A count takes 2, 128, 512 or 2,048 ticks.

use ds_base::Tick;
use ds_timers::Timers;
use std::process::Abort;

/// A line of a table: the timer that it is about, and what its kind has.
#[derive(Clone, Copy)]
enum Line {
    /// A write of the reload.
    Reload(u8, u16),
    /// The reload is this.
    ReloadIs(u8, u16),
    /// A write of the control at a tick: what is kept of it, and the counter and the due tick after it.
    Write(u8, u16, u32, u16, u16, u64),
    /// The counter at a tick.
    Reads(u8, u32, u16),
    /// The timer's due tick.
    Due(u8, u64),
    /// The timer overflows when it is due, and raises these bits of IF.
    Overflows(u8, u64),
}

use Line::{Due, Overflows, Reads, Reload, ReloadIs, Write};

/// What a line shows: three numbers, as its kind has them.
type Seen = (u64, u64, u64);

/// The due tick of a timer that isn't due.
const NEVER: u64 = u64::MAX;

/// What is shown where what a line asks can't be done.
const IS_DUE: Seen = (NEVER, NEVER, NEVER);

/// A timer's due tick.
fn due(timers: &Timers, which: u8) -> u64 {
    timers.due(which % 4).map_or(NEVER, |due| due.0)
}

/// The counter, where the timer isn't due by then.
fn counter(timers: &Timers, which: u8, now: u32) -> u64 {
    match timers.due(which % 4) {
        Some(due) if due.0 <= now as u64 => NEVER,
        _ => timers.counter_at(which % 4, Tick(now.into())).into(),
    }
}

/// Writes the control, where the timer isn't due by then.
fn write(timers: &mut Timers, which: u8, control: u16, now: u32) -> Seen {
    match timers.due(which % 4) {
        Some(due) if due.0 <= now as u64 => IS_DUE,
        _ => {
            timers.set_control(which % 4, control, Tick(now.into()));
            let kept = timers.control(which % 4).into();
            (kept, counter(timers, which, now), due(timers, which))
        }
    }
}

/// Overflows a timer, where it is due.
fn overflow(timers: &mut Timers, which: u8) -> Seen {
    match timers.due(which % 4) {
        Some(due) if due.0 <= 1 << 56 => (timers.overflow(which % 4).into(), 0, 0),
        _ => IS_DUE,
    }
}

/// Does what a line says: what was seen, and what is wanted.
fn seen(timers: &mut Timers, line: Line) -> (Seen, Seen) {
    match line {
        Reload(which, value) => {
            timers.set_reload(which % 4, value);
            ((0, 0, 0), (0, 0, 0))
        }
        ReloadIs(which, value) => (
            (timers.reload(which % 4).into(), 0, 0),
            (value.into(), 0, 0),
        ),
        Write(which, control, now, kept, count, due) => {
            (
                write(timers, which, control, now),
                (kept.into(), count.into(), due),
            )
        }
        Reads(which, now, count) => ((counter(timers, which, now), 0, 0), (count.into(), 0, 0)),
        Due(which, tick) => ((due(timers, which), 0, 0), (tick, 0, 0)),
        Overflows(which, bits) => (overflow(timers, which), (bits, 0, 0)),
    }
}

/// Timers as at boot.
fn booted() -> Timers {
    let timers = Timers::new();
    timers.laws();
    timers
}

/// Timers from boot on, line by line.
fn try_lines(rt: &impl Abort, lines: &[Line]) {
    let mut timers = booted();
    for (number, line) in lines.iter().enumerate() {
        let (got, wanted) = seen(&mut timers, *line);
        let (one, two, three) = got;
        assert!(rt; got == wanted, "line {number}: {one}, {two}, {three}");
    }
}

#[test]
fn a_timer_counts_from_its_reload_and_starts_again_at_each_overflow(rt: HostRuntime) {
    try_lines(
        &rt,
        &[
            Reload(0, 0xFFFE),
            // timer 0 has none before it: it keeps the bit that asks it to count up, and counts time
            Write(0, 0x84, 100, 0x84, 0xFFFE, 104),
            Reads(0, 101, 0xFFFE),
            Reads(0, 102, 0xFFFF),
            Due(0, 104),
            Reload(0, 0xFFF0),
            Reads(0, 102, 0xFFFF),
            Due(0, 104),
            Overflows(0, 0),
            Reads(0, 104, 0xFFF0),
            Due(0, 136),
        ],
    );
}

#[test]
fn three_timers_that_count_up_overflow_with_the_one_before_them(rt: HostRuntime) {
    try_lines(
        &rt,
        &[
            Reload(0, 0xFFFF),
            Write(0, 0xC4, 0, 0xC4, 0xFFFF, 2),
            Reload(0, 0xFFF0),
            Reload(1, 0xFFFF),
            Write(1, 0xC4, 0, 0xC4, 0xFFFF, NEVER),
            Reload(1, 0xFFF1),
            Reload(2, 0xFFFF),
            Write(2, 0xC4, 0, 0xC4, 0xFFFF, NEVER),
            Reload(2, 0xFFF2),
            Reload(3, 0xFFFF),
            Write(3, 0xC4, 0, 0xC4, 0xFFFF, NEVER),
            Reload(3, 0xFFF3),
            Due(0, 2),
            Due(1, NEVER),
            Overflows(0, 0x78),
            Reads(0, 2, 0xFFF0),
            Reads(1, 2, 0xFFF1),
            Reads(2, 2, 0xFFF2),
            Reads(3, 2, 0xFFF3),
            Overflows(0, 8),
            Reads(1, 34, 0xFFF2),
            Reads(2, 34, 0xFFF2),
        ],
    );
}

/// The controls of timers 1, 2 and 3 beside timer 0 that overflows, each at its last count, and the bits and counters after it.
const CHAINS: [(u16, u16, u16, u64, u16, u16, u16); 6] = [
    (0xC4, 0xC4, 0xC4, 0x70, 0xFFFF, 0xFFFF, 0xFFFF),
    (0x84, 0xC4, 0x84, 0x20, 0xFFFF, 0xFFFF, 0xFFFF),
    // one that is stopped, and one that counts time, don't count; nor do those after them
    (0x44, 0xC4, 0xC4, 0, 0, 0xFFFF, 0xFFFF),
    (0xC4, 0x44, 0xC4, 0x10, 0xFFFF, 0, 0xFFFF),
    (0xC3, 0xC4, 0xC4, 0, 0xFFFF, 0xFFFF, 0xFFFF),
    (0xC4, 0xC4, 0x04, 0x30, 0xFFFF, 0xFFFF, 0),
];

/// Timers with these controls at their last counts, timer 0 of which overflows: the bits that it raises, and the counters after it.
fn overflowed(one: u16, two: u16, three: u16) -> (u64, [u64; 3]) {
    let mut timers = booted();
    for which in 0..4u8 {
        timers.set_reload(which, 0xFFFF);
    }
    write(&mut timers, 3, three, 0);
    write(&mut timers, 2, two, 0);
    write(&mut timers, 1, one, 0);
    write(&mut timers, 0, 0x80, 0);
    let raised = overflow(&mut timers, 0).0;
    let counts = [
        counter(&timers, 1, 2),
        counter(&timers, 2, 2),
        counter(&timers, 3, 2),
    ];
    (raised, counts)
}

#[test]
fn a_chain_ends_at_a_timer_that_does_not_count_up(rt: HostRuntime) {
    for (one, two, three, bits, first, second, third) in CHAINS {
        let (raised, counts) = overflowed(one, two, three);
        let wanted = [first.into(), second.into(), third.into()];
        let holds = raised == bits && counts == wanted;
        assert!(rt; holds, "{one:x}, {two:x}, {three:x}: {raised:x}");
    }
}

#[test]
fn a_write_of_the_control_keeps_the_counter_and_the_kept_bits(rt: HostRuntime) {
    try_lines(
        &rt,
        &[
            // starts, goes on, goes on, takes a new anchor
            Write(1, 0xFFB8, 0, 0x80, 0, 131_072),
            Write(1, 0xC0, 7, 0xC0, 3, 131_072),
            Write(1, 0x80, 7, 0x80, 3, 131_072),
            Write(1, 0x81, 7, 0x81, 3, 8_388_231),
            // counts up from here on, and goes on counting time after it: 500 + 65,532 counts of 512 ticks
            Write(1, 0x85, 135, 0x85, 4, NEVER),
            Write(1, 0xC4, 300, 0xC4, 4, NEVER),
            Write(1, 0x82, 500, 0x82, 4, 33_552_884),
            // stops, stays stopped, and starts again: 2,000 + 65,536 counts of 2,048 ticks
            Write(1, 0x02, 1_100, 0x02, 5, NEVER),
            Write(1, 0x41, 1_500, 0x41, 5, NEVER),
            Write(1, 0x83, 2_000, 0x83, 0, 134_219_728),
            // three counts after it
            Write(1, 0x03, 8_144, 0x03, 3, NEVER),
            // starts to count up
            Write(1, 0x84, 9_000, 0x84, 0, NEVER),
            Write(1, 0x04, 9_001, 0x04, 0, NEVER),
            Write(1, 0x80, 9_002, 0x80, 0, 140_074),
            Write(1, 0x00, 9_005, 0x00, 1, NEVER),
            Reload(1, 0x1234),
            Reads(1, 9_006, 1),
            ReloadIs(1, 0x1234),
        ],
    );
}

/// Each prescaler: a timer that starts at 1,000, two counts before its overflow.
#[test]
fn a_timer_counts_whole_paces(rt: HostRuntime) {
    try_lines(
        &rt,
        &[
            Reload(0, 0xFFFE),
            Write(0, 0x80, 1_000, 0x80, 0xFFFE, 1_004),
            Reads(0, 1_001, 0xFFFE),
            Reads(0, 1_002, 0xFFFF),
            Reload(1, 0xFFFE),
            Write(1, 0x81, 1_000, 0x81, 0xFFFE, 1_256),
            Reads(1, 1_127, 0xFFFE),
            Reads(1, 1_128, 0xFFFF),
            Reload(2, 0xFFFE),
            Write(2, 0x82, 1_000, 0x82, 0xFFFE, 2_024),
            Reads(2, 1_511, 0xFFFE),
            Reads(2, 1_512, 0xFFFF),
            Reload(3, 0xFFFE),
            Write(3, 0x83, 1_000, 0x83, 0xFFFE, 5_096),
            Reads(3, 3_047, 0xFFFE),
            Reads(3, 3_048, 0xFFFF),
        ],
    );
}
