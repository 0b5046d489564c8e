//! The order of steps, on worked pairs, and the ranks of actors.

use ds_base::{Due, Proc, Tick};
use ds_runs::{Actor, earlier, earlier_than, entry, later_than};

fn due(tick: u64, rank: u8) -> Due {
    Due {
        tick: Tick(tick),
        rank,
    }
}

/// Tick and rank of two actors in order, and whether the former goes first.
const PAIRS: [(u64, u8, u64, u8, bool); 4] = [
    (6, 22, 6, 23, true),
    (6, 2, 6, 1, true),
    (5, 1, 6, 2, true),
    (6, 1, 5, 23, false),
];

/// Whether this goes first of two that are due, by each way to ask.
fn goes_first(one: Due, other: Due, first: Due) -> bool {
    earlier(Some(one), Some(other)) == Some(first)
        && earlier_than(one, Some(other)) == first
        && later_than(Some(one), other) == first
}

/// Whether one that is due alone goes first, as the former and as the latter.
fn goes_alone(one: Due) -> bool {
    earlier(Some(one), None) == Some(one)
        && earlier(None, Some(one)) == Some(one)
        && earlier_than(one, None) == one
        && later_than(None, one) == one
}

#[test]
fn the_lesser_tick_and_then_the_former_goes_first(rt: HostRuntime) {
    for (tick, rank, later, other, former) in PAIRS {
        let one = due(tick, rank);
        let other = due(later, other);
        let first = if former { one } else { other };
        assert!(rt; goes_first(one, other, first), "{tick} and {later}");
        assert!(rt;
            goes_alone(one) && goes_alone(other),
            "{tick} and {later}, alone"
        );
    }
}

#[test]
fn what_is_not_due_has_no_entry(rt: HostRuntime) {
    assert!(rt; earlier(None, None) == None);
    assert!(rt; entry(7, Some(Tick(9))) == Some(due(9, 7)));
    assert!(rt; entry(7, None) == None);
}

/// An actor, but for what numbers it.
#[derive(Clone, Copy)]
enum Kind {
    KeyScript,
    Video,
    Timer,
    Divider,
    SquareRoot,
    Geometry,
    Card,
    Dma,
    Processor,
}

/// A rank, and the actor that has it: its kind, its processor and its number, where it has them (ARM9 and 0 where it hasn't).
const RANKS: [(u8, Kind, Proc, u8); 18] = [
    (0, Kind::KeyScript, Proc::Nine, 0),
    (1, Kind::Video, Proc::Nine, 0),
    (2, Kind::Timer, Proc::Nine, 0),
    (5, Kind::Timer, Proc::Nine, 3),
    (6, Kind::Timer, Proc::Seven, 0),
    (8, Kind::Timer, Proc::Seven, 2),
    (9, Kind::Timer, Proc::Seven, 3),
    (10, Kind::Divider, Proc::Nine, 0),
    (11, Kind::SquareRoot, Proc::Nine, 0),
    (12, Kind::Geometry, Proc::Nine, 0),
    (13, Kind::Card, Proc::Nine, 0),
    (14, Kind::Dma, Proc::Nine, 0),
    (15, Kind::Dma, Proc::Nine, 1),
    (17, Kind::Dma, Proc::Nine, 3),
    (18, Kind::Dma, Proc::Seven, 0),
    (21, Kind::Dma, Proc::Seven, 3),
    (22, Kind::Processor, Proc::Nine, 0),
    (23, Kind::Processor, Proc::Seven, 0),
];

/// The actor that a row tells.
fn actor(kind: Kind, proc: Proc, number: u8) -> Actor {
    match kind {
        Kind::KeyScript => Actor::KeyScript,
        Kind::Video => Actor::Video,
        Kind::Timer => Actor::Timer { proc, number },
        Kind::Divider => Actor::Divider,
        Kind::SquareRoot => Actor::SquareRoot,
        Kind::Geometry => Actor::Geometry,
        Kind::Card => Actor::Card,
        Kind::Dma => Actor::Dma {
            proc,
            channel: number,
        },
        Kind::Processor => Actor::Processor(proc),
    }
}

#[test]
fn actors_stand_in_the_order_of_their_ranks(rt: HostRuntime) {
    for (rank, kind, proc, number) in RANKS {
        let of = Actor::of(rank % 24);
        assert!(rt;
            of == actor(kind, proc, number) && of.rank() == rank,
            "rank {rank}"
        );
    }
}
