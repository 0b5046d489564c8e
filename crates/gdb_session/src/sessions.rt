//! A session: what gdb chose, the points that it put, and where the run stands.

ghost use Rattle.std.specs.Prelude.{◌≡◌};

use crate::backs::back;
use crate::decks::Deck;
use crate::engines::{Met, Run, go};
use crate::goals::{Aim, Inside};
use crate::looks::{Told, kept_meeting};
use crate::points::Points;
use crate::stops::{Cause, INTERRUPTED, SLICE_OVER, Stop, TRAPPED};
use ds_base::{Proc, Tick};
use gdb_packets::{Going, How};
use std::alloc::Global;

/// How many ticks a run takes before it is answered, so that an interrupt is heard.
const SLICE_TICKS: u64 = 8_000_000;

/// How many ticks a step may take: a second.
const STEP_TICKS: u64 = 67_027_964;

/// A session.
#[derive(Drop)]
pub struct Session {
    /// The processor that is looked at.
    look: Option<Proc>,
    /// The one that goes on.
    aim: Option<Proc>,
    /// Why the run stands, and which processor was told of.
    pub stop: Stop,
    /// The points.
    pub points: Points,
    /// Before which breakpoints it was told to stand.
    told: Told,
    /// Before which steps that reach watched bytes.
    reached: Told,
    /// What the other processor met while one stepped alone.
    met: Option<Met>,
    /// Where the next run stops in any case.
    pub until: Option<u64>,
    /// How many ticks a run takes before it is answered.
    pub slice: u64,
    /// Whether steps in handlers of interrupts count.
    pub shows_irq: bool,
    /// Whether the user wants the run to stop.
    pub is_interrupted: bool,
}

impl Session {
    /// A session with no point, before a run.
    pub fn new(alloc: Global) -> Session {
        Session {
            look: None,
            aim: None,
            stop: Stop::signal(Proc::Nine, TRAPPED),
            points: Points::new(alloc),
            told: Told::nothing(),
            reached: Told::nothing(),
            met: None,
            until: None,
            slice: SLICE_TICKS,
            shows_irq: false,
            is_interrupted: false,
        }
    }

    /// The processor that is looked at.
    pub fn looked_at(&self) -> Proc {
        self.look.unwrap_or(self.stop.proc)
    }

    /// Chooses it.
    pub fn choose_look(&mut self, proc: Option<Proc>) {
        self.look = proc;
    }

    /// Chooses the one that goes on.
    pub fn choose_aim(&mut self, proc: Option<Proc>) {
        self.aim = proc;
    }

    /// Nothing was told from here on: the place in time is another.
    fn forget(&mut self) {
        self.told = Told::nothing();
        self.reached = Told::nothing();
    }

    /// Takes note of a stop.
    fn stand(&mut self, stop: Stop) {
        self.stop = stop;
        self.look = Some(stop.proc);
    }

    /// The processor that goes on.
    fn aimed_at(&self) -> Proc {
        self.aim.unwrap_or(self.stop.proc)
    }

    /// The run that a packet asks for, from a tick on.
    fn run_of(&self, going: Going, now: u64) -> Run {
        let aim = match going.how {
            How::On { signal: _ } => Aim::On,
            How::Step => Aim::Step,
            How::Range { from, to } => Aim::Out { from, to },
        };
        let ticks = if aim == Aim::On {
            self.slice
        } else {
            STEP_TICKS
        };
        let ending = if aim == Aim::On {
            SLICE_OVER
        } else {
            INTERRUPTED
        };
        let proc = if aim == Aim::On {
            self.stop.proc
        } else {
            going.proc.unwrap_or(self.aimed_at())
        };
        Run {
            proc,
            aim,
            is_alone: going.is_alone,
            inside: Inside::new(self.shows_irq),
            end: now.saturating_add(ticks),
            ending,
            told: self.told,
            reached: self.reached,
            met: None,
        }
    }
}

/// Ends a run at the tick that the user gave, where that comes first.
fn bound(run: &mut Run, until: Option<u64>) {
    if let Some(until) = until {
        if until <= run.end {
            run.end = until;
            run.ending = TRAPPED;
        }
    }
}

/// Goes back to what the other processor met.
fn go_to_meeting<D: Deck>(session: &mut Session, deck: &mut D, met: Met) -> Stop
    ensures boot { D.boot deck.new ≡ D.boot deck.old }
{
    if !deck.go_to(Tick(met.at)) {
        return Stop::signal(met.stop.proc, crate::stops::NO_MEMORY);
    }
    let steps = deck.steps(met.stop.proc);
    match met.stop.cause {
        Cause::Watch(_) => session.reached.tell(met.stop.proc, steps),
        _ => session.told.tell(met.stop.proc, steps),
    }
    met.stop
}

/// Goes to the tick that the user gave, which isn't after the present one.
fn go_to_until<D: Deck>(session: &mut Session, deck: &mut D, until: u64) -> Stop
    ensures boot { D.boot deck.new ≡ D.boot deck.old }
{
    session.until = None;
    session.forget();
    if deck.go_to(Tick(until)) {
        Stop::signal(session.stop.proc, TRAPPED)
    } else {
        Stop::signal(session.stop.proc, crate::stops::NO_MEMORY)
    }
}

/// A run from here.
fn run_from_here<D: Deck>(session: &mut Session, deck: &mut D, going: Going) -> Stop
    ensures boot { D.boot deck.new ≡ D.boot deck.old }
{
    let now = deck.now().0;
    let mut run = session.run_of(going, now);
    if run.aim == Aim::On {
        bound(&mut run, session.until);
    }
    run.told.tell(run.proc, deck.steps(run.proc));
    let stop = go(deck, &mut session.points, &mut run);
    session.told = run.told;
    session.reached = run.reached;
    if run.met.is_some() {
        session.met = run.met;
    }
    stop
}

/// The stop of a run that goes on.
fn stop_of<D: Deck>(session: &mut Session, deck: &mut D, going: Going) -> Stop
    ensures boot { D.boot deck.new ≡ D.boot deck.old }
{
    if !going.is_alone {
        session.points.forget();
        let met = kept_meeting(session.met, &session.points);
        session.met = None;
        if let Some(met) = met {
            return go_to_meeting(session, deck, met);
        }
    }
    if let (How::On { signal: _ }, Some(until)) = (going.how, session.until) {
        if until <= deck.now().0 {
            return go_to_until(session, deck, until);
        }
    }
    run_from_here(session, deck, going)
}

/// Goes on, as a packet asks for.
pub fn go_on<D: Deck>(session: &mut Session, deck: &mut D, going: Going)
    ensures boot { D.boot deck.new ≡ D.boot deck.old }
{
    if session.is_interrupted {
        session.is_interrupted = false;
        let proc = session.stop.proc;
        session.stand(Stop::signal(proc, INTERRUPTED));
        return;
    }
    let stop = stop_of(session, deck, going);
    session.stand(stop);
    if session.until == Some(deck.now().0) {
        session.until = None;
    }
}

/// Goes back: one step, or to a point or the beginning.
pub fn go_back<D: Deck>(session: &mut Session, deck: &mut D, is_step: bool)
    ensures boot { D.boot deck.new ≡ D.boot deck.old }
{
    let proc = session.aimed_at();
    let stop = back(deck, &mut session.points, proc, is_step, session.shows_irq);
    session.met = None;
    session.forget();
    session.stand(stop);
}
