//! When the units are due.

ghost use Rattle.std.specs.Prelude.{◌≡◌, ◌<◌, ◌==◌, ◌∷◌, ◌^◌, [], Some};
ghost use Rattle.ds_base.specs.declared.processors.Proc.TheVariants.{Nine};
ghost use Rattle.ds_runs.specs.Actors.{IsNumbered};
ghost use Rattle.ds_runs.specs.declared.actors.Actor.TheVariants.{Geometry};
ghost use Rattle.ds_runs.specs.OrderLaws.{first_from};
ghost use Rattle.ds_ports.specs.Acting.{acting_io_due, first_acting_io_due, is_quiet, is_silent};
ghost use Rattle.ds_ports.specs.Dues.{dma_due_in, io_due, io_dues, released_at};
ghost use Rattle.ds_ports.specs.Inside.{first_with};

use crate::units::Units;
use ds_base::{Due, Proc, Tick};
use ds_runs::{Actor, earlier, earlier_than, entry, ranks};

/// The offset of GXSTAT.
const GXSTAT: u32 = 0x600;

/// When a channel is due that isn't before a number of ticks.
fn released_at(released: u64, due: Option<Tick>) -> Option<Tick>
    ensures { result ≡ released_at released due }
{
    match due {
        Some(tick) => Some(Tick(released.max(tick.0))),
        None => None,
    }
}

impl Units {
    /// When an actor behind the ports is due, if it is; those that aren't behind them never are.
    pub fn io_due(&self, actor: Actor) -> Option<Tick>
        requires { IsNumbered actor }
        ensures { result ≡ io_due actor self.now }
    {
        match actor {
            Actor::Timer { proc, number } => self.processor(proc).timer_due(number),
            Actor::Divider => self.divider.due(),
            Actor::SquareRoot => self.root.due(),
            Actor::Geometry => self.gx.due(),
            Actor::Dma { proc, channel } => self.channel_due(proc, channel),
            Actor::Video => Some(self.video.due()),
            Actor::Card => self.card.due(),
            Actor::KeyScript | Actor::Processor(_) => None,
        }
    }

    /// When a DMA channel of a processor is due, if it is.
    fn channel_due(&self, proc: Proc, channel: u8) -> Option<Tick>
        requires { channel < 4 }
        ensures { result ≡ dma_due_in self.now proc channel }
    {
        match proc {
            Proc::Nine => {
                if self.gx.stalled() {
                    return None;
                }
                released_at(self.released, self.nine.channel_due(channel))
            }
            Proc::Seven => self.seven.channel_due(channel),
        }
    }

    /// The first of ARM9's DMA channels that is due; their ranks begin at one and go up.
    #[tactic(auto, using(crate::proofs::HeldDues::held_first))]
    fn first_channel_of_nine(&self, rank: u8) -> Option<Due>
        requires { rank < 2 ^ 6 }
        ensures { result ≡ first_from rank (dma_due_in self.now Nine 0 ∷ dma_due_in self.now Nine 1 ∷ dma_due_in self.now Nine 2
            ∷ dma_due_in self.now Nine 3 ∷ []) }
    {
        if self.gx.stalled() {
            return None;
        }
        let due = self.nine.first_channel(rank)?;
        Some(Due {
            tick: Tick(self.released.max(due.tick.0)),
            rank: due.rank,
        })
    }

    /// Whether GXSTAT's selector is 0, so that no interrupt follows how much waits: it is all that is kept of GXSTAT.
    #[tactic(auto, using(crate::proofs::Acting::unselected))]
    fn is_unselected(&self) -> bool
        ensures { result ≡ (self.now.gx.selector == 0) }
    {
        self.gx.port_kept(GXSTAT) == 0
    }

    /// Whether nobody hears of what geometry does, whether or not it is due: GXSTAT's selector is 0, no channel of ARM9's is enabled with the start
    /// of the geometry FIFO, whether or not it runs, and no stall holds ARM9.
    pub(crate) fn is_silent(&self) -> bool
        ensures { result ≡ is_silent self.now }
    {
        self.is_unselected() && !self.nine.any_armed() && !self.gx.stalled()
    }

    /// Whether geometry is due and quiet: nobody hears of what it does.
    pub fn is_quiet(&self) -> bool
        ensures { result ≡ is_quiet self.now }
    {
        self.gx.due().is_some() && self.is_silent()
    }

    /// When geometry is due, if it is and isn't quiet.
    fn geometry_acting(&self) -> Option<Tick>
        ensures { result ≡ acting_io_due Geometry self.now }
    {
        if self.is_quiet() {
            return None;
        }
        self.gx.due()
    }

    /// The first actor behind the ports that is due, by tick and then by rank, quiet geometry among them. It is found at each call.
    #[tactic(auto, using(crate::proofs::Acting::all_due), unfolding(crate::specs::Dues::first_io_due))]
    pub fn first_due(&self) -> Due
        ensures { Some result ≡ first_from 1 (io_dues self.now) }
    {
        self.first_with(self.gx.due())
    }

    /// The first actor behind the ports that is due and acts: all that are due do, but quiet geometry.
    #[tactic(auto, using(crate::proofs::Acting::all_acting))]
    pub(crate) fn find_acting(&self) -> Due
        ensures { Some result ≡ first_acting_io_due self.now }
    {
        self.first_with(self.geometry_acting())
    }

    /// The first of them, where geometry is due when it is told.
    #[tactic(auto, using(crate::proofs::Dues::first_by_parts))]
    fn first_with(&self, geometry: Option<Tick>) -> Due
        ensures { Some result ≡ first_with geometry self.now }
    {
        let mut first = earlier(
            self.first_channel_of_nine(ranks::CHANNELS_OF_NINE),
            self.seven.first_channel(ranks::CHANNELS_OF_SEVEN),
        );
        first = earlier(entry(ranks::CARD, self.card.due()), first);
        first = earlier(entry(ranks::GEOMETRY, geometry), first);
        first = earlier(entry(ranks::SQUARE_ROOT, self.root.due()), first);
        first = earlier(entry(ranks::DIVIDER, self.divider.due()), first);
        first = earlier(self.seven.first_timer(ranks::TIMERS_OF_SEVEN), first);
        first = earlier(self.nine.first_timer(ranks::TIMERS_OF_NINE), first);
        let video = Due {
            tick: self.video.due(),
            rank: ranks::VIDEO,
        };
        earlier_than(video, first)
    }
}
