//! When the machine's actors are due, and when they act.

ghost use Rattle.std.specs.Prelude.{◌≡◌, Some};
ghost use Rattle.ds_base.specs.declared.processors.Proc.TheVariants.{Nine, Seven};
ghost use Rattle.ds_ports.specs.Acting.{acting_io_due};
ghost use Rattle.ds_runs.specs.Actors.{IsNumbered};
ghost use Rattle.ds_runs.specs.OrderLaws as order;
ghost use Rattle.ds_runs.specs.OrderLaws.{due_with_rank, first_from};
ghost use Rattle.ds_runs.specs.declared.actors.Actor.TheVariants.{Geometry};
ghost use Rattle.ds_machine.specs.Acting.{IsActing};
ghost use Rattle.ds_machine.specs.NextEvents.{acting_events_of, events_of};
ghost use Rattle.ds_machine.specs.Private as private;
ghost use Rattle.ds_machine.specs.Reference.{due_by, processor_due};

use crate::fences::rank_of;
use crate::parts::Parts;
use ds_base::{Due, Proc, Tick};
use ds_runs::{Actor, earlier, earlier_than, entry, later_than, ranks};

impl Parts {
    /// When a processor is due, if it is.
    #[inline(always)]
    pub fn processor_due(&self, proc: Proc) -> Option<Tick>
        ensures { result ≡ processor_due self.now proc }
    {
        if self.is_blocked(proc) {
            return None;
        }
        Some(Tick(self.processor(proc).due))
    }

    /// When geometry is due, if it is and acts: quiet geometry doesn't.
    pub fn geometry_due(&self) -> Option<Tick>
        ensures { result ≡ acting_io_due Geometry self.now.io }
    {
        if self.io.is_quiet() {
            return None;
        }
        self.io.io_due(Actor::Geometry)
    }

    /// The first actor that is due, but for the processors.
    pub fn first_event(&self) -> Due
        ensures { Some result ≡ first_from 0 (events_of self.now) }
    {
        later_than(
            entry(ranks::KEY_SCRIPT, self.script.due()),
            self.io.first_due(),
        )
    }

    /// The first of them that acts.
    #[inline(always)]
    pub fn acting_event(&self) -> Due
        ensures { Some result ≡ first_from 0 (acting_events_of self.now) }
    {
        later_than(
            entry(ranks::KEY_SCRIPT, self.script.due()),
            self.io.first_acting(),
        )
    }

    /// The first of the processors that is due, if one is.
    #[inline(always)]
    pub fn first_processor(&self) -> Option<Due>
        ensures { result ≡ order.earlier (due_with_rank (private.rank_of Nine) (processor_due self.now Nine))
            (due_with_rank (private.rank_of Seven) (processor_due self.now Seven)) }
    {
        earlier(
            entry(rank_of(Proc::Nine), self.processor_due(Proc::Nine)),
            entry(rank_of(Proc::Seven), self.processor_due(Proc::Seven)),
        )
    }

    /// The actor that acts next: the least that is due, but for quiet geometry.
    #[inline(always)]
    pub fn acting(&self) -> Due
        ensures { IsActing self.now result }
    {
        earlier_than(self.acting_event(), self.first_processor())
    }

    /// When an actor is due.
    #[inline(always)]
    pub fn due_by(&self, actor: Actor) -> Option<Tick>
        requires { IsNumbered actor }
        ensures { result ≡ due_by actor self.now }
    {
        match actor {
            Actor::KeyScript => self.script.due(),
            Actor::Processor(proc) => self.processor_due(proc),
            _ => self.io.io_due(actor),
        }
    }
}
