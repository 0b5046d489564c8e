//! What is kept between steps of the fast path.

ghost use Rattle.std.specs.Prelude.{◌≡◌, ◌<◌, ◌≤◌, ◌+◌, ◌-◌, ◌^◌, min, ℕ, Some, true, IfSome, IsSome};
ghost use Rattle.ds_ports.specs.Io.{is_settled};
ghost use Rattle.ds_runs.specs.Runs.{IsOver, due_at};
ghost use Rattle.ds_machine.specs.NextEvents as kept;
ghost use Rattle.ds_machine.specs.NextEvents.{acting_events_of, least_of, due_at_least, least_kept, line_kept, IsNextEvent};
ghost use Rattle.ds_machine.specs.NextEvents.{limit_by, limit_in, due_put};
ghost use Rattle.ds_machine.specs.Sound.{AreAsleep};
ghost use Rattle.ds_machine.specs.States.{MachineState};
ghost use Rattle.ds_machine.specs.Steps.{is_blocked};
ghost use Rattle.ds_machine.specs.TurnLaws.{HasEnds, IsFirst};

use crate::parts::Parts;
use ds_base::{Proc, Tick};

/// What the units behind the ports, the key script and the display tell: it stands still while a processor's steps change none of them.
#[derive(Clone, Copy)]
pub struct NextEvent {
    /// No actor but the processors acts before this tick, and one does at it; 0 where a halted processor is to wake, or the units behind the ports
    /// aren't settled.
    pub events_until: Tick,
    /// ARM9 is due at this tick at the earliest: 0, or past all ticks of a run while it is blocked.
    pub nine_least: u64,
    /// So is ARM7.
    pub seven_least: u64,
    /// Whether ARM9's interrupt line is up.
    pub nine_line: bool,
    /// Whether ARM7's interrupt line is up.
    pub seven_line: bool,
}

/// The processor that is the least acting actor.
#[derive(Clone, Copy)]
pub struct First {
    /// Which one it is.
    pub proc: Proc,
    /// From this tick on it isn't the least acting actor, or isn't due below a limit, any more, while it alone takes steps.
    pub limit: u64,
}

impl NextEvent {
    /// The earliest tick at which a processor may be due.
    #[inline(always)]
    pub fn least(&self, proc: Proc) -> u64
        ensures { result ≡ least_kept self.now proc }
    {
        match proc {
            Proc::Nine => self.nine_least,
            Proc::Seven => self.seven_least,
        }
    }

    /// Whether a processor's interrupt line is up.
    #[inline(always)]
    pub fn line(&self, proc: Proc) -> bool
        ensures { result ≡ line_kept self.now proc }
    {
        match proc {
            Proc::Nine => self.nine_line,
            Proc::Seven => self.seven_line,
        }
    }
}

/// When a processor is due, in ticks; past all ticks of a run while it is blocked.
#[inline(always)]
fn due_at_least(least: u64, due: u64) -> u64
    ensures { result ≡ due_at_least least due }
{
    due.max(least)
}

/// By these the processor whose turn begins is found. A turn of fast steps moves the tick of its own processor alone.
#[derive(Clone, Copy)]
pub struct Ends {
    /// The first tick at which an actor acts that is no processor, or that isn't below a limit; 0 where it isn't known.
    pub end: u64,
    /// When ARM9 is due; past all ticks of a run while it is blocked.
    pub nine: u64,
    /// So is ARM7.
    pub seven: u64,
}

impl Ends {
    /// The first tick at which a processor isn't the least acting actor, or isn't due below the limit, any more, while it alone takes steps.
    #[inline(always)]
    fn limit(&self, proc: Proc) -> u64
        ensures { result ≡ limit_in self.now proc }
    {
        match proc {
            Proc::Nine => past_if_below(self.seven, self.end),
            Proc::Seven => self.end.min(self.nine),
        }
    }

    /// The processor that is the least acting actor and due below the limit, where that is known; None where it isn't, or where another actor is the
    /// least that acts.
    #[inline(always)]
    pub fn first(&self) -> Option<First>
        ensures known { (until : ℕ) (s : MachineState) → until ≤ 2 ^ 56 → HasEnds until s self.now → IfSome result (λ first. IsFirst until s first) }
        ensures some { IsSome result → 0 < self.now.end }
    {
        let nine = self.nine;
        let seven = self.seven;
        if nine <= seven {
            if nine < self.end {
                return Some(First {
                    proc: Proc::Nine,
                    limit: self.limit(Proc::Nine),
                });
            }
        } else if seven < self.end {
            return Some(First {
                proc: Proc::Seven,
                limit: self.limit(Proc::Seven),
            });
        }
        None
    }

    /// A processor is due at this tick now.
    #[inline(always)]
    pub fn put(&mut self, proc: Proc, tick: Tick)
        ensures { self.new ≡ due_put self.old proc tick.0 }
    {
        match proc {
            Proc::Nine => self.nine = tick.0,
            Proc::Seven => self.seven = tick.0,
        }
    }
}

/// The tick after one that is below an end, and else the end.
#[inline(always)]
fn past_if_below(tick: u64, end: u64) -> u64
    ensures { result ≡ min end (min (tick + 1) (2 ^ 64 - 1)) }
{
    if tick < end { tick + 1 } else { end }
}

impl Parts {
    /// A tick before which no actor but the processors acts, and at which one does; 0 where a halted processor is to wake, or the units behind the
    /// ports aren't settled.
    fn next_event_tick(&self) -> Tick
        ensures events { IsOver (acting_events_of self.now) result.0 }
        ensures first { 0 < result.0 → (rank : ℕ) × (due_at (acting_events_of self.now) rank ≡ Some result) }
        ensures asleep { 0 < result.0 → AreAsleep self.now }
        ensures settled { 0 < result.0 → is_settled self.now.io ≡ true }
    {
        if self.wakes(Proc::Nine) || self.wakes(Proc::Seven) || !self.io.is_settled() {
            return Tick(0);
        }
        self.acting_event().tick
    }

    /// The earliest tick at which a processor may be due: 0, or past all ticks of a run while it is blocked.
    fn least_of(&self, proc: Proc) -> u64
        ensures { result ≡ least_of (is_blocked self.now proc) }
    {
        if self.is_blocked(proc) { u64::MAX } else { 0 }
    }

    /// What is to be kept of them.
    #[inline(never)]
    pub fn next_event(&self) -> NextEvent
        ensures { IsNextEvent result self.now }
    {
        NextEvent {
            events_until: self.next_event_tick(),
            nine_least: self.least_of(Proc::Nine),
            seven_least: self.least_of(Proc::Seven),
            nine_line: self.line(Proc::Nine),
            seven_line: self.line(Proc::Seven),
        }
    }

    /// When a processor is due, by what is kept.
    #[inline(always)]
    pub fn waits_until(&self, next_event: NextEvent, proc: Proc) -> u64
        ensures { result ≡ kept.waits_until next_event self.now proc }
    {
        due_at_least(next_event.least(proc), self.processor(proc).due)
    }

    /// The first tick at which a processor isn't the least acting actor, or isn't due below a limit any more, by what is kept.
    #[inline(always)]
    pub fn limit_by(&self, next_event: NextEvent, proc: Proc, until: Tick) -> u64
        ensures { result ≡ limit_by next_event self.now proc until.0 }
    {
        let end = next_event.events_until.0.min(until.0);
        match proc {
            Proc::Nine => past_if_below(self.waits_until(next_event, Proc::Seven), end),
            Proc::Seven => end.min(self.waits_until(next_event, Proc::Nine)),
        }
    }
}
