//! When what may halt a processor, wake it or make it wait is due, and what belongs to a processor's turn.

ghost use Rattle.std.specs.Prelude.{◌≡◌, ◌↔◌, ◌<◌, ◌≤◌, ◌^◌, Option, Some, true};
ghost use Rattle.ds_base.specs.declared.processors.Proc.TheVariants.{Nine, Seven};
ghost use Rattle.ds_base.specs.declared.ticks.Due.{Due};
ghost use Rattle.ds_machine.specs.Acting.{acting_dues};
ghost use Rattle.ds_machine.specs.FenceTicks.{channel_dues, fence_dues, timer_dues};
ghost use Rattle.ds_machine.specs.NextEvents.{IsNextEvent};
ghost use Rattle.ds_machine.specs.Private as private;
ghost use Rattle.ds_machine.specs.Private.{IsAhead, IsBelowFence};
ghost use Rattle.ds_machine.specs.PrivateLaws.{IsFence};
ghost use Rattle.ds_machine.specs.TurnSteps.{BelongsToTurn};
ghost use Rattle.ds_machine.specs.TurnLaws.{HasLimit};
ghost use Rattle.ds_machine.specs.Reference.{keys_due, processor_due};
ghost use Rattle.ds_machine.specs.Steps.{processor_of};
ghost use Rattle.ds_runs.specs.OrderLaws as order;
ghost use Rattle.ds_runs.specs.OrderLaws.{due_with_rank, first_from};
ghost use Rattle.ds_runs.specs.Runs.{IsLeast};
ghost use Rattle.video2d.specs.Scans.{scan_due_tick};

use crate::next_events::NextEvent;
use crate::parts::Parts;
use ds_base::{Due, Proc, Tick, known};
use ds_runs::{Actor, earlier, earlier_than, entry, later_than, ranks};

/// A processor's rank among the actors.
#[inline(always)]
pub fn rank_of(proc: Proc) -> u8
    ensures { result ≡ private.rank_of proc }
{
    Actor::Processor(proc).rank()
}

impl Parts {
    /// The first of a processor's DMA channels that is due, whose ranks begin at one.
    fn first_channel(&self, proc: Proc, rank: u8) -> Option<Due>
        requires { rank < 2 ^ 6 }
        ensures { result ≡ first_from rank (channel_dues self.now.io proc) }
    {
        let mut first = entry(rank + 3, self.io.io_due(Actor::Dma { proc, channel: 3 }));
        first = earlier(
            entry(rank + 2, self.io.io_due(Actor::Dma { proc, channel: 2 })),
            first,
        );
        first = earlier(
            entry(rank + 1, self.io.io_due(Actor::Dma { proc, channel: 1 })),
            first,
        );
        earlier(
            entry(rank, self.io.io_due(Actor::Dma { proc, channel: 0 })),
            first,
        )
    }

    /// The first of the key script, the display, a processor's timers, whose ranks begin at one, and some others.
    fn first_before(&self, proc: Proc, rank: u8, others: Option<Due>) -> Due
        requires { rank < 2 ^ 6 }
        ensures { Some result
            ≡ order.earlier (due_with_rank 0 (keys_due self.now.keys)) (order.earlier (due_with_rank 1 (Some (scan_due_tick self.now.io.video.scan)))
            (order.earlier (first_from rank (timer_dues self.now.io proc)) others)) }
    {
        let first = earlier(self.io.processor(proc).first_timer(rank), others);
        let video = Due {
            tick: self.io.video().due(),
            rank: ranks::VIDEO,
        };
        let script = entry(ranks::KEY_SCRIPT, self.script.due());
        later_than(script, earlier_than(video, first))
    }

    /// The first that acts of those that may halt ARM9, wake it or make it wait.
    fn first_fence_of_nine(&self) -> Due
        ensures { Some result ≡ first_from 0 (fence_dues self.now Nine) }
    {
        let geometry = entry(ranks::GEOMETRY, self.geometry_due());
        let card = entry(ranks::CARD, self.io.card().due_for(Proc::Nine));
        let channels = self.first_channel(Proc::Nine, ranks::CHANNELS_OF_NINE);
        let later = earlier(card, channels);
        let others = earlier(geometry, later);
        self.first_before(Proc::Nine, ranks::TIMERS_OF_NINE, others)
    }

    /// The first of those that may halt ARM7 or wake it.
    fn first_fence_of_seven(&self) -> Due
        ensures { Some result ≡ first_from 0 (fence_dues self.now Seven) }
    {
        let card = entry(ranks::CARD, self.io.card().due_for(Proc::Seven));
        let channels = self.first_channel(Proc::Seven, ranks::CHANNELS_OF_SEVEN);
        let others = earlier(card, channels);
        self.first_before(Proc::Seven, ranks::TIMERS_OF_SEVEN, others)
    }

    /// The least tick at which one acts of those that may halt a processor, wake it or make it wait: quiet geometry doesn't.
    #[inline(never)]
    pub fn fence(&self, proc: Proc) -> Tick
        ensures { IsFence self.now proc result }
    {
        match proc {
            Proc::Nine => self.first_fence_of_nine().tick,
            Proc::Seven => self.first_fence_of_seven().tick,
        }
    }

    /// Whether a processor is the actor that acts next.
    fn is_first(&self, proc: Proc, tick: Tick) -> bool
        requires { processor_due self.now proc ≡ Some tick }
        ensures { (result ≡ true) ↔ IsLeast (acting_dues self.now) tick (private.rank_of proc) }
    {
        known!(tick);
        self.acting().rank == rank_of(proc)
    }

    /// Whether a tick is below a processor's fence, which is asked for only from the first event that acts on.
    fn is_below_known(&self, next_event: NextEvent, proc: Proc, tick: Tick) -> bool
        requires { IsNextEvent next_event self.now }
        ensures { (result ≡ true) ↔ IsBelowFence self.now proc tick }
    {
        tick.0 < next_event.events_until.0 || self.is_below_fence(proc, tick)
    }

    /// Whether a processor's next step may be taken before its turn.
    fn is_ahead(&self, next_event: NextEvent, proc: Proc, tick: Tick) -> bool
        requires due { processor_due self.now proc ≡ Some tick }
        requires next_event { IsNextEvent next_event self.now }
        ensures { (result ≡ true) ↔ IsAhead self.now proc }
    {
        self.is_below_known(next_event, proc, tick) && self.is_step_private(proc)
    }

    /// Whether a processor's next step belongs to its turn with a limit: it is due below the limit, and is the least acting step, or may be taken
    /// before its turn.
    pub fn belongs(&self, next_event: NextEvent, proc: Proc, until: Tick) -> bool
        requires { IsNextEvent next_event self.now }
        ensures { (result ≡ true) ↔ BelongsToTurn until.0 self.now proc }
    {
        match self.processor_due(proc) {
            Some(tick) => {
                tick.0 < until.0
                    && (self.is_first(proc, tick) || self.is_ahead(next_event, proc, tick))
            }
            None => false,
        }
    }

    /// The same, by a tick before which the processor is known to be the least acting actor, if one is known; 0 where none is.
    #[inline(always)]
    pub fn belongs_by(&self, next_event: NextEvent, proc: Proc, until: Tick, limit: u64) -> bool
        requires next_event { IsNextEvent next_event self.now }
        requires early { until.0 ≤ 2 ^ 56 }
        requires limit { (processor_of self.now proc).due < limit → HasLimit until.0 self.now proc limit }
        ensures { (result ≡ true) ↔ BelongsToTurn until.0 self.now proc }
    {
        if self.processor(proc).due < limit {
            return true;
        }
        self.belongs(next_event, proc, until)
    }
}
