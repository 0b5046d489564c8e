//! Ways back: a piece of the past is run again, and the last thing in it that was looked for is where the way ends.

ghost use Rattle.std.specs.Prelude.{◌≡◌};

use crate::decks::{Deck, Stepped};
use crate::engines::stand;
use crate::goals::{IRQ_MODE, Inside, Stand};
use crate::looks::{reaching, who_changes, work};
use crate::points::Points;
use crate::stops::{Cause, NO_MEMORY, Stop, TRAPPED, proc_of};
use ds_base::{Due, Proc, Tick};

/// How many ticks are looked through first; then always twice as many, up to the most.
const FIRST_TICKS: u64 = 65_536;

const MOST_TICKS: u64 = 4_481_520;

/// No piece of the past has as many steps, and no past as many pieces.
const MOST_ROUNDS: u64 = 0x100_0000_0000_0000;

/// Where a way back ends.
#[derive(Clone, Copy)]
struct Found {
    at: u64,
    stop: Stop,
    /// The tick at which watched bytes changed, where several actors stepped at it: which one it was is found out at the end.
    shared: Option<Tick>,
}

/// What is looked for, and what was found last.
#[derive(Clone, Copy)]
struct Search {
    /// The processor whose steps count.
    proc: Proc,
    /// Whether its last step is looked for, and not a point.
    is_step: bool,
    /// Whether steps in handlers count.
    is_shown: bool,
    /// Whether it is in a handler.
    inside: Inside,
    /// Whether it is in one whose entry lies before the piece.
    is_early: bool,
    /// The last step that counts, or the last point.
    found: Option<Found>,
    /// The last step of all.
    any: Option<Found>,
}

impl Search {
    /// Begins a piece of the past with nothing found.
    fn begin(&mut self, now: Stand) {
        self.inside = Inside::new(self.is_shown);
        self.is_early = !self.is_shown && now.mode == IRQ_MODE;
        self.found = None;
        self.any = None;
    }

    /// Whether a step counts.
    fn counts(&mut self, before: Stand, after: Stand) -> bool {
        if self.is_early {
            self.is_early = after.mode == IRQ_MODE;
            return false;
        }
        self.inside.takes(before, after)
    }

    /// Takes a step of the processor at a tick.
    fn takes(&mut self, before: Stand, after: Stand, at: Tick) {
        let step = Some(Found {
            at: at.0,
            stop: Stop::signal(self.proc, TRAPPED),
            shared: None,
        });
        self.any = step;
        if self.counts(before, after) {
            self.found = step;
        }
    }

    /// Takes a point.
    fn meets(&mut self, at: u64, stop: Stop) {
        self.found = Some(Found {
            at,
            stop,
            shared: None,
        });
    }

    /// Where the way ends: where the processor stands in a handler at its beginning, that handler's steps count.
    fn ending(&self, is_last: bool) -> Option<Found> {
        if self.is_step && is_last && (self.is_early || self.inside.is_inside()) {
            return self.any;
        }
        self.found
    }
}

/// Looks whether a processor stands at a breakpoint at a tick.
fn look_at<D: Deck>(deck: &D, points: &Points, search: &mut Search, proc: Proc, at: Tick) {
    if points.breaks_at(deck.pc(proc)) && deck.is_due(proc, at) {
        search.meets(at.0, Stop::of(proc, Cause::Break));
    }
}

/// Looks whether any does.
fn look<D: Deck>(deck: &D, points: &Points, search: &mut Search, at: Tick) {
    if points.may_break(deck.pc(Proc::Nine), deck.pc(Proc::Seven)) {
        look_at(deck, points, search, Proc::Nine, at);
        look_at(deck, points, search, Proc::Seven, at);
    }
}

/// The stop of the last processor whose step at a tick reaches watched bytes.
fn reaching_any<D: Deck>(deck: &D, points: &Points, at: Tick) -> Option<Stop> {
    if !points.watches.has_reached() {
        return None;
    }
    match reaching(deck, points, Proc::Seven, at) {
        Some(stop) => Some(stop),
        None => reaching(deck, points, Proc::Nine, at),
    }
}

/// Takes the steps of the next tick in a search for watchpoints. One is met right behind the tick.
fn pass_watches<D: Deck>(deck: &mut D, points: &mut Points, search: &mut Search, next: Due) -> bool
    ensures boot { D.boot deck.new ≡ D.boot deck.old }
{
    let reaches = reaching_any(deck, points, next.tick);
    let before = work(deck);
    if deck.step_all(next.tick) != Stepped::Taken {
        return false;
    }
    let behind = next.tick.0.saturating_add(1);
    if let Some(stop) = reaches {
        search.meets(behind, stop);
    }
    if let Some(watched) = points.watches.changed(deck) {
        let stop = Stop::of(proc_of(next.rank, search.proc), Cause::Watch(watched));
        let is_shared = work(deck) > before.saturating_add(1);
        search.found = Some(Found {
            at: behind,
            stop,
            shared: if is_shared { Some(next.tick) } else { None },
        });
    }
    true
}

/// Takes the steps of the next tick in a search for points.
fn pass_points<D: Deck>(deck: &mut D, points: &mut Points, search: &mut Search, next: Due) -> bool
    ensures boot { D.boot deck.new ≡ D.boot deck.old }
{
    look(deck, points, search, next.tick);
    if !points.watches.is_empty() {
        return pass_watches(deck, points, search, next);
    }
    deck.step_all(next.tick) == Stepped::Taken
}

/// Takes the steps of the next tick in a search for a processor's last step.
fn pass_step<D: Deck>(deck: &mut D, search: &mut Search, at: Tick) -> bool
    ensures boot { D.boot deck.new ≡ D.boot deck.old }
{
    let before = stand(deck, search.proc);
    let steps = deck.steps(search.proc);
    if deck.step_all(at) != Stepped::Taken {
        return false;
    }
    if deck.steps(search.proc) != steps {
        search.takes(before, stand(deck, search.proc), at);
    }
    true
}

/// Looks through the past from the present tick to a later one.
fn look_through<D: Deck>(deck: &mut D, points: &mut Points, search: &mut Search, end: u64)
    ensures boot { D.boot deck.new ≡ D.boot deck.old }
{
    search.begin(stand(deck, search.proc));
    points.watches.look(deck);
    'rounds: for _ in 0..MOST_ROUNDS {
        let next = deck.next();
        if next.tick.0 >= end {
            return;
        }
        let went = if search.is_step {
            pass_step(deck, search, next.tick)
        } else {
            pass_points(deck, points, search, next)
        };
        if !went {
            return;
        }
    }
}

/// Goes where a way back ends.
fn end_at<D: Deck>(deck: &mut D, at: u64, stop: Stop) -> Stop
    ensures boot { D.boot deck.new ≡ D.boot deck.old }
{
    if deck.go_to(Tick(at)) {
        stop
    } else {
        Stop::signal(stop.proc, NO_MEMORY)
    }
}

/// Goes where a search ends.
fn end_search<D: Deck>(deck: &mut D, points: &mut Points, found: Found) -> Stop
    ensures boot { D.boot deck.new ≡ D.boot deck.old }
{
    let mut stop = found.stop;
    if let Some(tick) = found.shared {
        if deck.go_to(tick) {
            if let Some(rank) = who_changes(deck, points, tick) {
                stop.proc = proc_of(rank, stop.proc);
            }
        }
    }
    end_at(deck, found.at, stop)
}

/// Looks through one piece of the past before a tick.
fn look_before<D: Deck>(
    deck: &mut D,
    points: &mut Points,
    search: &mut Search,
    start: u64,
    end: u64,
) -> bool
    ensures boot { D.boot deck.new ≡ D.boot deck.old }
{
    if !deck.go_to(Tick(start)) {
        return false;
    }
    look_through(deck, points, search, end);
    true
}

/// Goes back by a search.
fn go_back<D: Deck>(deck: &mut D, points: &mut Points, search: &mut Search) -> Stop
    ensures boot { D.boot deck.new ≡ D.boot deck.old }
{
    let now = deck.now().0;
    let mut end = now;
    let mut ticks = FIRST_TICKS;
    'ways: for _ in 0..MOST_ROUNDS {
        let start = end.saturating_sub(ticks);
        if !look_before(deck, points, search, start, end) {
            return Stop::signal(search.proc, NO_MEMORY);
        }
        if let Some(found) = search.ending(end == now) {
            return end_search(deck, points, found);
        }
        if start == 0 {
            break;
        }
        end = start;
        ticks = ticks.saturating_mul(2).min(MOST_TICKS);
    }
    end_at(deck, 0, Stop::of(search.proc, Cause::Begin))
}

/// One step of a processor back, or back to a point, or to the beginning.
pub fn back<D: Deck>(
    deck: &mut D,
    points: &mut Points,
    proc: Proc,
    is_step: bool,
    is_shown: bool,
) -> Stop
    ensures boot { D.boot deck.new ≡ D.boot deck.old }
{
    if !is_step && points.is_empty() {
        return end_at(deck, 0, Stop::of(proc, Cause::Begin));
    }
    let mut search = Search {
        proc,
        is_step,
        is_shown,
        inside: Inside::new(is_shown),
        is_early: false,
        found: None,
        any: None,
    };
    go_back(deck, points, &mut search)
}
