//! Whether a run stops before the steps of a tick.

ghost use Rattle.std.specs.Prelude.{◌≡◌};

use crate::decks::{Deck, Stepped};
use crate::engines::{Met, Run};
use crate::points::Points;
use crate::stops::{Cause, Stop};
use ds_base::{Proc, Tick};

/// No tick has as many steps.
const MOST_STEPS: u32 = 64;

/// By each processor's count of steps, the one before which it was told to stand at a point.
#[derive(Clone, Copy)]
pub struct Told {
    nine: Option<u64>,
    seven: Option<u64>,
}

impl Told {
    /// Nothing was told.
    pub fn nothing() -> Told {
        Told {
            nine: None,
            seven: None,
        }
    }

    /// Whether it was told of a processor before a step.
    pub fn is_told(self, proc: Proc, steps: u64) -> bool {
        let told = match proc {
            Proc::Nine => self.nine,
            Proc::Seven => self.seven,
        };
        told == Some(steps)
    }

    /// Tells it of a processor before a step.
    pub fn tell(&mut self, proc: Proc, steps: u64) {
        match proc {
            Proc::Nine => self.nine = Some(steps),
            Proc::Seven => self.seven = Some(steps),
        }
    }
}

/// Whether a processor stands at a breakpoint at a tick, of which it wasn't told. (Its address is asked first, since that is read at once.)
fn stands_at_break<D: Deck>(deck: &D, points: &Points, run: &Run, proc: Proc, at: Tick) -> bool {
    let pc = deck.pc(proc);
    let is_point = if run.is_alone && proc != run.proc {
        points.broke_at(pc)
    } else {
        points.breaks_at(pc)
    };
    is_point && deck.is_due(proc, at) && !run.told.is_told(proc, deck.steps(proc))
}

/// Looks whether a processor stands at a breakpoint.
fn look_at<D: Deck>(
    deck: &D,
    points: &Points,
    run: &mut Run,
    proc: Proc,
    at: Tick,
) -> Option<Stop> {
    if !stands_at_break(deck, points, run, proc, at) {
        return None;
    }
    let stop = Stop::of(proc, Cause::Break);
    if run.meets(stop, deck.pc(proc), at) {
        run.told.tell(proc, deck.steps(proc));
        return Some(stop);
    }
    None
}

/// The stop of a processor whose step at a tick reaches watched bytes.
pub fn reaching<D: Deck>(deck: &D, points: &Points, proc: Proc, at: Tick) -> Option<Stop> {
    if !deck.is_due(proc, at) {
        return None;
    }
    let watched = points.watches.reached(proc, deck.reached(proc)?)?;
    Some(Stop::of(proc, Cause::Watch(watched)))
}

/// Looks whether a processor's step at a tick reaches watched bytes, of which it wasn't told.
fn look_reach<D: Deck>(
    deck: &D,
    points: &Points,
    run: &mut Run,
    proc: Proc,
    at: Tick,
) -> Option<Stop> {
    if run.reached.is_told(proc, deck.steps(proc)) {
        return None;
    }
    let stop = reaching(deck, points, proc, at)?;
    if run.meets(stop, deck.pc(proc), at) {
        run.reached.tell(proc, deck.steps(proc));
        return Some(stop);
    }
    None
}

/// Looks whether a processor stops before its step at a tick.
fn look_before<D: Deck>(
    deck: &D,
    points: &Points,
    run: &mut Run,
    proc: Proc,
    at: Tick,
) -> Option<Stop> {
    match look_at(deck, points, run, proc, at) {
        Some(stop) => Some(stop),
        None if points.watches.has_reached() => look_reach(deck, points, run, proc, at),
        None => None,
    }
}

/// Looks whether any processor does.
pub fn look<D: Deck>(deck: &D, points: &Points, run: &mut Run, at: Tick) -> Option<Stop> {
    let may_break = points.may_break(deck.pc(Proc::Nine), deck.pc(Proc::Seven));
    if !may_break && !points.watches.has_reached() {
        return None;
    }
    match look_before(deck, points, run, Proc::Nine, at) {
        Some(stop) => Some(stop),
        None => look_before(deck, points, run, Proc::Seven, at),
    }
}

/// How many steps all actors took.
pub fn work<D: Deck>(deck: &D) -> u64 {
    deck.steps(Proc::Nine)
        .saturating_add(deck.steps(Proc::Seven))
        .saturating_add(deck.events())
}

/// The rank of the actor whose step at the present tick changes watched bytes, if one does. The steps of that tick are taken then.
pub fn who_changes<D: Deck>(deck: &mut D, points: &mut Points, at: Tick) -> Option<u8>
    ensures boot { D.boot deck.new ≡ D.boot deck.old }
{
    points.watches.look(deck);
    let mut found = None;
    'steps: for _ in 0..MOST_STEPS {
        let now = deck.next();
        if now.tick.0 > at.0 || deck.step(now.tick) != Stepped::Taken {
            break;
        }
        if points.watches.changed(deck).is_some() && found.is_none() {
            found = Some(now.rank);
        }
    }
    found
}

/// What another processor met while one stepped alone, where its point still stands.
pub fn kept_meeting(met: Option<Met>, points: &Points) -> Option<Met> {
    let met = met?;
    let stands = match met.stop.cause {
        Cause::Break => points.breaks_at(met.place),
        Cause::Watch(watched) => points.watches(watched),
        _ => false,
    };
    if stands { Some(met) } else { None }
}
