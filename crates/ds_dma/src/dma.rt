//! The four channels of one processor.

ghost use Rattle.std.specs.Prelude.{◌≡◌, ◌<◌, ◌≤◌, ◌∷◌, ◌==◌, ℕ, List, Some, None, IsSome, IfSome, true, false, slice_set, map, is_some};
ghost use Rattle.ds_base.specs.Schedules.{IsEarly, Reschedules};
ghost use Rattle.ds_base.specs.declared.ticks.Tick.{Tick};
ghost use Rattle.ds_dma.specs.Channels.{IsChannel, is_running, channel_word, channel_refusal, is_triggered, plan_of, unit_of};
ghost use Rattle.ds_dma.specs.declared.channels.Unit.{Unit as DmaUnit};
ghost use Rattle.ds_dma.specs.declared.controls.Cause.TheVariants.{Geometry};
ghost use Rattle.ds_dma.specs.States.{DmaState, IsDma, AreReadyLater, awaits_geometry, channel_at, dma_at_boot, channel_written, dma_triggered, any_runs, least_running, channel_due, dma_due, due_channel, dma_finished, finished_bits, WaitsBriefly, last_tick, most_waits};

mod saved;

use crate::channels::{Channel, LastUnit, Unit};
use crate::controls::{Cause, DmaPort};
use crate::{channels, controls};
use ds_base::{Proc, Stop, Tick, known};
pub use saved::saved_laws;
use std::marker::Model;

/// The channel that is due, and when.
#[derive(Clone, Copy, PartialEq, Eq)]
pub struct DmaDue {
    /// When its first unit is due.
    pub tick: Tick,
    /// Its number, below 4.
    pub channel: u8,
}

/// The four DMA channels of one processor. Contracts see their words, what each has left to do, and the last unit's tick and
/// waits.
#[derive(Clone, Copy)]
pub struct Dma {
    proc: Proc,
    channels: [Channel; 4],
    last: Option<LastUnit>,
}

impl Model for Dma {
    ghost use Rattle.ds_dma.specs.States.{DmaState, HasEarlyTicks, IsDma};

    ghost Value = { DmaState };

    ghost view = { λ d. record { proc = d.proc; channels = d.channels; last = d.last } };

    ghost inverse = { λ s. record { proc = s.proc; channels = s.channels; last = s.last } };

    ghost inverse_ok = { λ d h i. record { proc = d.proc; channels = d.channels; last = d.last } };

    ghost invariant = { λ d. IsDma (record { proc = d.proc; channels = d.channels; last = d.last })
        × HasEarlyTicks (record { proc = d.proc; channels = d.channels; last = d.last }) };
}

impl Dma {
    /// The channels of a processor at boot: all 0, and none is enabled.
    pub fn new(proc: Proc) -> Dma
        ensures { result ≡ dma_at_boot proc }
    {
        let channel = Channel {
            sad: 0,
            dad: 0,
            cnt: 0,
            from: 0,
            to: 0,
            remaining: 0,
            trigger: None,
            burst: 0,
        };
        Dma {
            proc,
            channels: [channel, channel, channel, channel],
            last: None,
        }
    }

    /// A channel as it is kept.
    fn channel(&self, which: u8) -> Channel
        requires { which < 4 }
        ensures seen { result ≡ channel_at self.now.channels which }
        ensures is { IsChannel self.now.proc which result }
        ensures early { IsEarly result.trigger }
    {
        self.channels[which as usize]
    }

    /// Another channel in its place, and another last unit.
    fn put(&mut self, which: u8, channel: Channel, last: Option<LastUnit>)
        requires which { which < 4 }
        requires is { IsChannel self.old.proc which channel }
        requires trigger { IsEarly channel.trigger }
        requires last { IsEarly (last_tick last) }
        requires waits { WaitsBriefly last }
        ensures { self.new ≡ record self.old { channels = slice_set self.old.channels which channel; last = last } }
    {
        self.channels[which as usize] = channel;
        self.last = last;
    }

    /// The word that a port of a channel keeps: 28 bits of a source and a target, and of a control the bits that the processor has.
    pub fn read(&self, channel: u8, port: DmaPort) -> u32
        requires { channel < 4 }
        ensures { result ≡ channel_word port (channel_at self.now.channels channel) }
    {
        channels::word(self.channel(channel), port)
    }

    /// A write of a whole word to a port of a channel, at a tick. Enabling a channel latches its source, its target and its count; a
    /// start of 0 triggers it at once. A write that leaves it enabled changes the kept control alone, and one that clears enable
    /// ends the transfer. Some exactly where enable goes from 0 to 1 with a start that is left out: 3, 4 and 6 of ARM9, 3 of ARM7; the kind
    /// is DmaStart, the value the control as it would be kept, and all stays.
    pub fn write(&mut self, channel: u8, port: DmaPort, value: u32, now: Tick) -> Option<Stop>
        requires channel { channel < 4 }
        requires early { IsEarly (Some now) }
        ensures state { self.new ≡ channel_written self.old channel port value now }
        ensures stop { result ≡ channel_refusal self.old.proc channel port value (channel_at self.old.channels channel) }
        ensures later { AreReadyLater now self.old → AreReadyLater now self.new }
        ensures schedule { AreReadyLater now self.old → (each : ℕ) → each < 4
            → Reschedules now (channel_due self.old each) (channel_due self.new each) }
    {
        known!(self.laws());
        let old = self.channel(channel);
        let proc = self.proc;
        match channels::refused(proc, channel, old, port, value) {
            Some(stop) => Some(stop),
            None => {
                let new = channels::written(proc, channel, old, port, value, now);
                self.put(channel, new, self.last);
                None
            }
        }
    }

    /// An event at a tick: the channels that are enabled with its start are triggered, by the geometry FIFO for a burst of at most 112 units.
    /// One that runs stays as it is.
    pub fn trigger(&mut self, cause: Cause, now: Tick)
        requires { IsEarly (Some now) }
        ensures state { self.new ≡ dma_triggered self.old cause now }
        ensures settles { cause ≡ Geometry → awaits_geometry self.new ≡ false }
        ensures later { AreReadyLater now self.old → AreReadyLater now self.new }
        ensures schedule { (each : ℕ) → each < 4 → Reschedules now (channel_due self.old each) (channel_due self.new each) }
    {
        known!(self.laws());
        let proc = self.proc;
        self.channels = [
            channels::after(proc, cause, now, self.channel(0)),
            channels::after(proc, cause, now, self.channel(1)),
            channels::after(proc, cause, now, self.channel(2)),
            channels::after(proc, cause, now, self.channel(3)),
        ];
    }

    /// Whether an event triggers a channel.
    fn awaits(&self, cause: Cause, which: u8) -> bool
        requires { which < 4 }
        ensures { result ≡ is_triggered self.now.proc cause (channel_at self.now.channels which) }
    {
        channels::awaits(self.proc, cause, self.channel(which))
    }

    /// Whether a channel waits for the geometry FIFO: it is enabled with ARM9's start 7, and doesn't run. Where none does, that event changes
    /// nothing.
    pub fn awaits_geometry(&self) -> bool
        ensures waits { result ≡ awaits_geometry self.now }
        ensures settled { result ≡ false → (now : Tick) → dma_triggered self.now Geometry now ≡ self.now }
    {
        known!(self.laws());
        self.awaits(Cause::Geometry, 0)
            || self.awaits(Cause::Geometry, 1)
            || self.awaits(Cause::Geometry, 2)
            || self.awaits(Cause::Geometry, 3)
    }

    /// Whether a channel runs.
    fn runs(&self, which: u8) -> bool
        requires { which < 4 }
        ensures { result ≡ is_running (channel_at self.now.channels which) }
    {
        channels::runs(self.channel(which))
    }

    /// The running channel with the least number, and 3 where none runs.
    fn least(&self) -> u8
        ensures least { result ≡ least_running self.now.channels }
        ensures below { result < 4 }
    {
        if self.runs(0) {
            0
        } else if self.runs(1) {
            1
        } else if self.runs(2) {
            2
        } else {
            3
        }
    }

    /// The running channel with the least number, and when its first unit is due; None exactly where none runs.
    pub fn due(&self) -> Option<DmaDue>
        ensures due { result ≡ dma_due self.now }
        ensures runs { is_some result ≡ any_runs self.now.channels }
        ensures below { IfSome result (λ due. due.channel < 4) }
        ensures tick { IfSome result (λ due. channel_due self.now due.channel ≡ Some due.tick) }
    {
        let channel = self.least();
        let tick = channels::ready_at(self.last, self.channel(channel))?;
        Some(DmaDue { tick, channel })
    }

    /// The unit that is due: the first one of its channel's plan.
    pub fn unit(&self) -> Unit
        requires { IsSome (dma_due self.now) }
        ensures unit { result ≡ unit_of (due_channel self.now) 0 }
        ensures first { (rest : List DmaUnit) × (plan_of (due_channel self.now) ≡ result ∷ rest) }
    {
        known!(self.laws());
        channels::first(self.channel(self.least()))
    }

    /// The unit that is due is moved at a tick, and its two accesses waited so many ticks together. Its channel's plan has it no more. Where it
    /// was the last one of a burst, the channel stays armed and doesn't run. Where it was the last one of all, the channel is armed again or isn't
    /// enabled any more; gives the interrupt's bit that this raises, and 0 otherwise.
    pub fn finish(&mut self, now: Tick, waits: u32) -> u32
        requires due { IsSome (dma_due self.old) }
        requires early { IsEarly (Some now) }
        requires waits { waits ≤ most_waits }
        ensures state { self.new ≡ dma_finished self.old now waits }
        ensures bits { result ≡ finished_bits self.old }
        ensures later { AreReadyLater now self.new }
        ensures schedule { (each : ℕ) → each < 4 → Reschedules now (channel_due self.old each) (channel_due self.new each) }
    {
        known!(self.laws());
        let which = self.least();
        let channel = self.channel(which);
        let bits = channels::raised(which, channel);
        let rest = channels::without_first(self.proc, which, channel);
        let last = Some(LastUnit { tick: now, waits });
        self.put(which, rest, last);
        bits
    }

    /// Whether a channel runs; then its processor isn't due. Where none does, none is due by any tick.
    pub fn running(&self) -> bool
        ensures runs { result ≡ any_runs self.now.channels }
        ensures later { result ≡ false → (now : Tick) → AreReadyLater now self.now }
    {
        self.runs(0) || self.runs(1) || self.runs(2) || self.runs(3)
    }

    /// The tick and the waits of the last unit that was moved, if one was.
    pub fn last_unit(&self) -> Option<LastUnit>
        ensures value { result ≡ self.now.last }
        ensures early { IsEarly (last_tick result) }
    {
        self.last
    }

    /// Does nothing; its contract states what holds of the channels at every time: that there are four, and of each how many bits its
    /// numbers have, which bits its control has, and what it stands for where it isn't enabled.
    pub fn laws(&self)
        ensures { IsDma self.now }
    {
        let _first = self.channels[0];
    }
}
