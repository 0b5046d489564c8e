//! The events of the units.

ghost use Rattle.std.specs.Prelude.{◌≡◌, ◌<◌, ◌≤◌, ◌^◌, IsSome, Some, length};
ghost use Rattle.ds_base.specs.Schedules.{IsEarly};
ghost use Rattle.ds_card.specs.Cards.{card_due};
ghost use Rattle.ds_dma.specs.States.{dma_due, most_waits};
ghost use Rattle.ds_runs.specs.Actors.{IsNumbered};
ghost use Rattle.ds_timers.specs.Timing.{timer_at, timer_due};
ghost use Rattle.ds_ports.specs.Dues.{io_due};
ghost use Rattle.ds_ports.specs.ProcessorIo.{before_move};
ghost use Rattle.ds_ports.specs.Io.{card_done, channel_moved, channel_put_back, channels_shown, channels_triggered, geometry_done, geometry_triggered, io_event, io_of, is_settled, release_of, settled, timer_overflows, video_done};
ghost use Rattle.video2d.specs.Scans.{scan_due};
ghost use Rattle.video2d.specs.Videos.{video_answer};
ghost use Rattle.ds_runs.specs.declared.actors.Actor.TheVariants as actors;

use crate::processor_io::Before;
use crate::units::Units;
use ds_base::{Proc, Stop, Tick};
use ds_dma::Cause;
use ds_runs::Actor;
use video2d::Shown;

impl Units {
    /// The event of an actor behind the ports that is due, with the cartridge's file. The display's is told by `show`, a DMA channel's by
    /// `move_channel`.
    pub fn event(&mut self, actor: Actor, file: &[u8])
        requires numbered { IsNumbered actor }
        requires due { IsSome (io_due actor self.old) }
        requires early { IsEarly (io_due actor self.old) }
        requires run { actor ≡ actors.Geometry → self.old.gx.geometry.numbers.run ≤ 2 ^ 56 }
        ensures { self.new ≡ io_event file.now actor self.old }
    {
        match actor {
            Actor::Timer { proc, number } => self.overflow(proc, number),
            Actor::Divider => self.divider.finish(),
            Actor::SquareRoot => self.root.finish(),
            Actor::Geometry => self.finish_command(),
            Actor::Card => self.give_word(file),
            Actor::KeyScript | Actor::Video => {}
            Actor::Dma { .. } | Actor::Processor(_) => {}
        }
    }

    /// A processor's timer overflows, and its interrupts are raised.
    fn overflow(&mut self, proc: Proc, which: u8)
        requires which { which < 4 }
        requires due { IsSome (timer_due (timer_at (io_of self.old proc).timers which)) }
        requires early { IsEarly (timer_due (timer_at (io_of self.old proc).timers which)) }
        ensures { self.new ≡ timer_overflows proc which self.old }
    {
        match proc {
            Proc::Nine => self.nine.overflow(which),
            Proc::Seven => self.seven.overflow(which),
        }
    }

    /// The head command of geometry is done, and where it ends a stall ARM9's channels are due at the next tick or later.
    fn finish_command(&mut self)
        requires due { IsSome self.old.gx.due }
        requires early { IsEarly self.old.gx.due }
        requires run { self.old.gx.geometry.numbers.run ≤ 2 ^ 56 }
        ensures { self.new ≡ geometry_done self.old }
    {
        let due = self.gx.due();
        let stalled = self.gx.stalled();
        self.gx.finish();
        let ends = stalled && !self.gx.stalled();
        match due {
            Some(now) if ends => self.released = now.0 + 1,
            _ => {}
        }
    }

    /// Whether `settle` would leave all as it is.
    pub(crate) fn find_settled(&self) -> bool
        ensures { result ≡ is_settled self.now }
    {
        self.nine.is_levelled(self.gx.level())
            && !(self.gx.half_empty() && self.nine.awaits_geometry())
            && self.release() == self.released
    }

    /// What is kept of the last stall's end: the tick after it while it holds back the channel of ARM9's that is due and no stall does, and else 0.
    #[tactic(auto, using(crate::proofs::HeldDues::none_kept))]
    fn release(&self) -> u64
        ensures { result ≡ release_of self.now }
    {
        if self.released == 0 || self.gx.stalled() {
            return 0;
        }
        if self.nine.is_due_before(self.released) {
            self.released
        } else {
            0
        }
    }

    /// After a step at a tick: the level of geometry's interrupt is told as it is, the channels are triggered that wait for geometry, where its
    /// FIFO has room, and the last stall's end is forgotten where it holds back no channel.
    pub fn settle(&mut self, now: Tick)
        requires { IsEarly (Some now) }
        ensures { self.new ≡ settled now self.old }
    {
        self.nine.tell_level(self.gx.level());
        self.trigger_waiting(now);
        self.released = self.release();
    }

    /// Triggers the channels that wait for geometry, where its FIFO has room.
    fn trigger_waiting(&mut self, now: Tick)
        requires { IsEarly (Some now) }
        ensures { self.new ≡ geometry_triggered now self.old }
    {
        if self.gx.half_empty() {
            self.nine.trigger(Cause::Geometry, now);
        }
    }

    /// The display's event, with the memories of palettes and of objects: it raises interrupts, and triggers the channels that wait for it. Where
    /// it stops, nothing changes.
    pub fn show(&mut self, palette: &[u8], oam: &[u8]) -> Result<Shown, Stop>
        requires colours { length palette.now ≡ 2048 }
        requires objects { length oam.now ≡ 2048 }
        requires early { scan_due self.old.video.scan ≤ 2 ^ 56 }
        ensures answer { result ≡ video_answer oam.now self.old.video }
        ensures state { self.new ≡ video_done palette.now oam.now self.old }
    {
        let now = self.video.due();
        let shown = self.video.event(&self.vram, palette, oam)?;
        self.raise(shown.raised);
        self.trigger_shown(shown, now);
        Ok(shown)
    }

    /// An event of the display triggers the channels that wait for it.
    fn trigger_shown(&mut self, shown: Shown, now: Tick)
        requires { IsEarly (Some now) }
        ensures { self.new ≡ channels_shown shown now self.old }
    {
        if shown.vblank {
            self.trigger(Cause::VBlank, now);
        } else if shown.hblank {
            self.trigger(Cause::HBlank, now);
        }
    }

    /// An event triggers the channels of both processors that wait for it.
    fn trigger(&mut self, cause: Cause, now: Tick)
        requires { IsEarly (Some now) }
        ensures { self.new ≡ channels_triggered cause now self.old }
    {
        self.nine.trigger(cause, now);
        self.seven.trigger(cause, now);
    }

    /// The card's event, for the cartridge's file: a word is ready, which triggers the channels that wait for it, or a transfer without words ends,
    /// which raises an interrupt; both at the processor that started the transfer alone.
    fn give_word(&mut self, file: &[u8])
        requires due { IsSome (card_due self.old.card) }
        requires early { IsEarly (card_due self.old.card) }
        ensures { self.new ≡ card_done file.now self.old }
    {
        let (Some(starter), Some(now)) = (self.card.starter(), self.card.due()) else {
            return;
        };
        let done = self.card.event(file);
        match starter {
            Proc::Nine => self.nine.hear_of_card(done.raised.nine, done.ready, now),
            Proc::Seven => self.seven.hear_of_card(done.raised.seven, done.ready, now),
        }
    }

    /// A processor's channel that is due moves its first unit, with so many ticks of waits, but for the access itself.
    pub fn move_channel(&mut self, proc: Proc, now: Tick, waits: u32) -> Before
        requires due { IsSome (dma_due (io_of self.old proc).dma) }
        requires early { IsEarly (Some now) }
        requires waits { waits ≤ most_waits }
        ensures state { self.new ≡ channel_moved proc now waits self.old }
        ensures before { result ≡ before_move (io_of self.old proc) }
    {
        match proc {
            Proc::Nine => self.nine.move_channel(now, waits),
            Proc::Seven => self.seven.move_channel(now, waits),
        }
    }

    /// A processor's channels and interrupt words are again as they were before a move.
    pub fn put_back(&mut self, proc: Proc, before: Before)
        ensures { self.new ≡ channel_put_back proc before self.old }
    {
        match proc {
            Proc::Nine => self.nine.put_back(before),
            Proc::Seven => self.seven.put_back(before),
        }
    }
}
