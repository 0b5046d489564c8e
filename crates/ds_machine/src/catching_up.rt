//! Quiet geometry, whose steps wait until one observes what they do: it catches up then.

ghost use Rattle.std.specs.Prelude.{◌≡◌, ◌≤◌, ◌^◌, [], false, true};
ghost use Rattle.ds_base.specs.Schedules.{IsEarly};
ghost use Rattle.ds_ports.specs.Acting.{is_quiet};
ghost use Rattle.ds_runs.specs.Runs.{Makes};
ghost use Rattle.ds_machine.specs.Acting as acting;
ghost use Rattle.ds_machine.specs.Acting.{is_behind};
ghost use Rattle.ds_machine.specs.CountingLaws.{last_limit, IsRunning};
ghost use Rattle.ds_machine.specs.Lagging.{CatchesUp, CatchesUpFor, ComesBeforeAll};
ghost use Rattle.ds_machine.specs.Hearing as hearing;
ghost use Rattle.ds_machine.specs.Hearing.{geometry_rank};
ghost use Rattle.ds_machine.specs.Reference.{reference_step};
ghost use Rattle.ds_machine.specs.Sound.{IsSound};
ghost use Rattle.ds_machine.specs.TurnLaws.{MayAct};

use crate::parts::Parts;
use ds_base::Tick;
use ds_runs::Actor;

/// Geometry's rank among the actors.
#[inline(always)]
fn geometry_rank() -> u8
    ensures { result ≡ hearing.geometry_rank }
{
    Actor::Geometry.rank()
}

/// Whether a due tick, if there is one, is geometry's before the place of a rank at a tick.
#[inline(always)]
fn is_due_before(due: Option<Tick>, tick: Tick, rank: u8) -> bool
    ensures { result ≡ acting.is_due_before due tick.0 rank }
{
    match due {
        Some(due) => due.0 < tick.0 || (due.0 == tick.0 && geometry_rank() < rank),
        None => false,
    }
}

impl Parts {
    /// Whether quiet geometry is due before the place of a rank at a tick.
    #[inline(always)]
    pub fn is_behind(&self, tick: Tick, rank: u8) -> bool
        ensures { result ≡ is_behind tick.0 rank self.now }
    {
        is_due_before(self.io.gx().due(), tick, rank) && self.io.is_quiet()
    }

    /// The step of quiet geometry. Nobody hears of it: on a sound machine nothing is to settle after it, and nobody is to wake.
    fn step_quiet(&mut self)
        requires sound { IsSound self.old }
        requires quiet { is_quiet self.old.io ≡ true }
        requires early { IsEarly self.old.io.gx.due }
        requires counted { self.old.events ≤ 2 ^ 61 }
        requires run { self.old.io.gx.geometry.numbers.run ≤ 2 ^ 56 }
        ensures { reference_step geometry_rank self.old ≡ Makes self.new [] }
    {
        self.io.event(Actor::Geometry, &[]);
        self.events += 1;
    }

    /// Takes the steps of quiet geometry that are due before the place of a rank at a tick.
    #[inline(never)]
    pub fn catch_up(&mut self, tick: Tick, rank: u8)
        requires running { IsRunning last_limit self.old }
        requires before { ComesBeforeAll tick.0 rank self.old }
        requires early { tick.0 ≤ 2 ^ 56 }
        ensures { CatchesUp tick.0 rank self.old self.new }
    {
        'steps: while self.is_behind(tick, rank) {
            self.step_quiet();
        }
    }

    /// Catches up with a step that may be taken, where that observes geometry. The answer is whether anything changed.
    #[inline(always)]
    pub fn catch_up_before(&mut self, tick: Tick, rank: u8) -> bool
        requires running { IsRunning last_limit self.old }
        requires early { tick.0 ≤ 2 ^ 56 }
        requires may { MayAct self.old tick rank }
        ensures caught { CatchesUpFor tick.0 rank self.old self.new }
        ensures same { result ≡ false → self.new ≡ self.old }
    {
        if !self.is_behind(tick, rank) || !self.observes(rank) {
            return false;
        }
        self.catch_up(tick, rank);
        true
    }
}
