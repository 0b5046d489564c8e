//! The order of steps.

ghost use Rattle.std.specs.Prelude.{◌≡◌, Some};
ghost use Rattle.ds_runs.specs.OrderLaws.{due_with_rank, earlier};

use ds_base::{Due, Tick};

/// An actor's due tick, if it is due, with its rank.
#[inline(always)]
pub fn entry(rank: u8, tick: Option<Tick>) -> Option<Due>
    ensures { result ≡ due_with_rank rank tick }
{
    match tick {
        Some(tick) => Some(Due { tick, rank }),
        None => None,
    }
}

/// The first of two actors that may be due: by tick, and the former at equal ticks. (Our choice of order.)
#[inline(always)]
pub fn earlier(one: Option<Due>, other: Option<Due>) -> Option<Due>
    ensures { result ≡ earlier one other }
{
    match (one, other) {
        (Some(first), Some(last)) if last.tick.0 < first.tick.0 => Some(last),
        (Some(first), _) => Some(first),
        (None, last) => last,
    }
}

/// The same, where the former is due.
#[inline(always)]
pub fn earlier_than(one: Due, other: Option<Due>) -> Due
    ensures { Some result ≡ earlier (Some one) other }
{
    match other {
        Some(last) if last.tick.0 < one.tick.0 => last,
        _ => one,
    }
}

/// The same, where the latter is due.
#[inline(always)]
pub fn later_than(one: Option<Due>, other: Due) -> Due
    ensures { Some result ≡ earlier one (Some other) }
{
    match one {
        Some(first) if first.tick.0 <= other.tick.0 => first,
        _ => other,
    }
}
