//! How a run goes on, step by step, up to where it stops.

ghost use Rattle.std.specs.Prelude.{◌≡◌};

use crate::decks::{Deck, Stepped};
use crate::goals::{Aim, Inside, Stand, is_met};
use crate::looks::{Told, look, who_changes, work};
use crate::points::Points;
use crate::stops::{Cause, NO_MEMORY, Stop, TRAPPED, Watched, proc_of};
use ds_base::{Due, LeftOut, Proc, Tick};
use ds_runs::ranks;
use gdb_packets::PointKind;

/// How many steps are taken between two looks whether a state is to be kept.
const CHUNK_STEPS: u32 = 65_536;

/// How many ticks are run between two such looks, where nothing is looked for.
const CHUNK_TICKS: u64 = 280_095;

/// No run takes as many chunks.
const MOST_CHUNKS: u64 = 0x100_0000_0000_0000;

/// What another processor met while one stepped alone: the run goes back there before it goes on.
#[derive(Clone, Copy)]
pub struct Met {
    /// Where in time.
    pub at: u64,
    /// The point's address.
    pub place: u32,
    /// The stop.
    pub stop: Stop,
}

/// A run: what it is for, and what came of it so far.
#[derive(Clone, Copy)]
pub struct Run {
    /// The processor whose steps count.
    pub proc: Proc,
    /// What it is for.
    pub aim: Aim,
    /// Whether it may stop for that processor alone.
    pub is_alone: bool,
    /// Whether that processor is in a handler.
    pub inside: Inside,
    /// The tick at which it ends in any case.
    pub end: u64,
    /// The signal with which it ends then.
    pub ending: u8,
    /// Before which breakpoints it was told to stand.
    pub told: Told,
    /// Before which steps that reach watched bytes.
    pub reached: Told,
    /// What the other processor met.
    pub met: Option<Met>,
}

impl Run {
    /// Takes note of a stop at a place in time. The answer is whether the run stops.
    pub fn meets(&mut self, stop: Stop, place: u32, at: Tick) -> bool {
        if !self.is_alone || stop.proc == self.proc {
            return true;
        }
        if self.met.is_none() {
            self.met = Some(Met {
                at: at.0,
                place,
                stop,
            });
        }
        false
    }

    /// Takes a step of its processor, which ends the run behind the present tick where it is the one that was wanted.
    fn takes(&mut self, before: Stand, after: Stand, at: Tick) {
        if self.inside.takes(before, after) && is_met(self.aim, after.pc) {
            self.end = at.0.saturating_add(1);
            self.ending = TRAPPED;
            self.aim = Aim::On;
        }
    }
}

/// What some steps of a run came to.
#[derive(Clone, Copy)]
enum Gone {
    /// It goes on.
    On,
    /// It stops.
    Stop(Stop),
}

/// Where a processor stands.
pub fn stand<D: Deck>(deck: &D, proc: Proc) -> Stand {
    Stand::of(deck.pc(proc), deck.cpsr(proc))
}

/// The stop at a step that is left out.
fn left_stop(left: LeftOut, proc: Proc, is_alone: bool) -> Stop {
    let own = if is_alone {
        proc
    } else {
        proc_of(left.rank, proc)
    };
    Stop::of(own, Cause::Left(left))
}

/// The stop at a change of watched bytes by the actor of a rank.
fn watch_stop(rank: u8, watched: Watched, proc: Proc) -> Stop {
    Stop {
        proc: proc_of(rank, proc),
        cause: Cause::Watch(watched),
        actor: if rank < ranks::ARM9 { Some(rank) } else { None },
    }
}

/// The stop, once the deck has gone to its tick.
fn stop_at<D: Deck>(deck: &mut D, at: Tick, stop: Stop) -> Stop
    ensures boot { D.boot deck.new ≡ D.boot deck.old }
{
    if deck.go_to(at) {
        stop
    } else {
        Stop::signal(stop.proc, NO_MEMORY)
    }
}

/// The stop at a step that is left out, at its tick.
fn stop_left<D: Deck>(deck: &mut D, left: LeftOut, run: &Run) -> Stop
    ensures boot { D.boot deck.new ≡ D.boot deck.old }
{
    stop_at(deck, left.tick, left_stop(left, run.proc, run.is_alone))
}

/// Takes the steps of the next tick. Where the run is to go on and on nobody asks which processor took one.
fn take_steps<D: Deck>(deck: &mut D, run: &mut Run, at: Tick) -> Stepped
    ensures boot { D.boot deck.new ≡ D.boot deck.old }
{
    if run.aim == Aim::On {
        return deck.step_all(at);
    }
    take_counted(deck, run, at)
}

/// The rank of the actor that changed watched bytes at a tick, by the first one at it and how many steps all took before. Where several stepped, they
/// step again one by one.
fn who_changed<D: Deck>(deck: &mut D, points: &mut Points, next: Due, before: u64) -> u8
    ensures boot { D.boot deck.new ≡ D.boot deck.old }
{
    if work(deck) == before.saturating_add(1) || !deck.go_to(next.tick) {
        return next.rank;
    }
    who_changes(deck, points, next.tick).unwrap_or(next.rank)
}

/// Whether it was told before the step that watched bytes changed by that it reaches them.
fn was_told<D: Deck>(deck: &D, run: &Run, watched: Watched, stop: Stop) -> bool {
    let before = deck.steps(stop.proc).saturating_sub(1);
    watched.kind == PointKind::Access
        && stop.actor.is_none()
        && run.reached.is_told(stop.proc, before)
}

/// Takes the steps of the next tick, and looks at what they change that is watched.
fn take_watched<D: Deck>(
    deck: &mut D,
    points: &mut Points,
    run: &mut Run,
    next: Due,
) -> Option<Stop>
    ensures boot { D.boot deck.new ≡ D.boot deck.old }
{
    let before = work(deck);
    if let Stepped::Left(left) = take_steps(deck, run, next.tick) {
        return Some(stop_left(deck, left, run));
    }
    let watched = points.watches.changed(deck)?;
    let rank = who_changed(deck, points, next, before);
    let stop = watch_stop(rank, watched, run.proc);
    if was_told(deck, run, watched, stop) {
        return None;
    }
    if run.meets(stop, watched.at, next.tick) {
        return Some(stop_at(deck, next.tick, stop));
    }
    None
}

/// Takes the steps of the next tick.
fn take<D: Deck>(deck: &mut D, points: &mut Points, run: &mut Run, next: Due) -> Option<Stop>
    ensures boot { D.boot deck.new ≡ D.boot deck.old }
{
    if !points.watches.is_empty() {
        return take_watched(deck, points, run, next);
    }
    match take_steps(deck, run, next.tick) {
        Stepped::Taken => None,
        Stepped::Left(left) => Some(stop_left(deck, left, run)),
    }
}

/// Takes the steps of the next tick in a run that ends with one of its processor's.
fn take_counted<D: Deck>(deck: &mut D, run: &mut Run, at: Tick) -> Stepped
    ensures boot { D.boot deck.new ≡ D.boot deck.old }
{
    let before = stand(deck, run.proc);
    let steps = deck.steps(run.proc);
    let stepped = deck.step_all(at);
    if stepped == Stepped::Taken && deck.steps(run.proc) != steps {
        run.takes(before, stand(deck, run.proc), at);
    }
    stepped
}

/// The end of a run in any case.
fn arrive<D: Deck>(deck: &mut D, run: &Run) -> Stop
    ensures boot { D.boot deck.new ≡ D.boot deck.old }
{
    match deck.run_to(Tick(run.end)) {
        Stepped::Taken => Stop::signal(run.proc, run.ending),
        Stepped::Left(left) => stop_left(deck, left, run),
    }
}

/// One step of a run, or its stop.
fn go_step<D: Deck>(deck: &mut D, points: &mut Points, run: &mut Run) -> Gone
    ensures boot { D.boot deck.new ≡ D.boot deck.old }
{
    let next = deck.next();
    if next.tick.0 >= run.end {
        return Gone::Stop(arrive(deck, run));
    }
    if let Some(stop) = look(deck, points, run, next.tick) {
        return Gone::Stop(stop_at(deck, next.tick, stop));
    }
    match take(deck, points, run, next) {
        Some(stop) => Gone::Stop(stop),
        None => Gone::On,
    }
}

/// Some steps of a run.
fn go_chunk<D: Deck>(deck: &mut D, points: &mut Points, run: &mut Run) -> Gone
    ensures boot { D.boot deck.new ≡ D.boot deck.old }
{
    'steps: for _ in 0..CHUNK_STEPS {
        if let Gone::Stop(stop) = go_step(deck, points, run) {
            return Gone::Stop(stop);
        }
    }
    Gone::On
}

/// Some ticks of a run in which nothing is looked for.
fn run_chunk<D: Deck>(deck: &mut D, run: &Run) -> Gone
    ensures boot { D.boot deck.new ≡ D.boot deck.old }
{
    let until = deck.now().0.saturating_add(CHUNK_TICKS);
    if until >= run.end {
        return Gone::Stop(arrive(deck, run));
    }
    match deck.run_to(Tick(until)) {
        Stepped::Taken => Gone::On,
        Stepped::Left(left) => Gone::Stop(stop_left(deck, left, run)),
    }
}

/// A run, up to its stop.
pub fn go<D: Deck>(deck: &mut D, points: &mut Points, run: &mut Run) -> Stop
    ensures boot { D.boot deck.new ≡ D.boot deck.old }
{
    let is_free = run.aim == Aim::On && points.is_empty();
    points.watches.look(deck);
    'chunks: for _ in 0..MOST_CHUNKS {
        let gone = if is_free {
            run_chunk(deck, run)
        } else {
            go_chunk(deck, points, run)
        };
        match gone {
            Gone::Stop(stop) => return stop,
            Gone::On => deck.keep(),
        }
    }
    Stop::signal(run.proc, run.ending)
}
