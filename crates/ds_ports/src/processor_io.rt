//! What each processor has of its own behind the ports.

ghost use Rattle.std.specs.Prelude.{◌≡◌, ◌<◌, ◌≤◌, ◌+◌, ◌/◌, ◌%◌, ◌^◌, ◌==◌, ◌∷◌, [], IsSome, Some};
ghost use Rattle.ds_base.specs.Bits.{flag};
ghost use Rattle.ds_base.specs.Schedules.{IsEarly};
ghost use Rattle.ds_dma.specs.Channels.{channel_refusal, channel_word, unit_of};
ghost use Rattle.ds_dma.specs.States.{channel_at, channel_due, dma_due, due_channel, last_tick, most_waits, awaits_geometry};
ghost use Rattle.ds_dma.specs.declared.controls.Cause.TheVariants.{Card};
ghost use Rattle.ds_dma.specs.declared.controls.DmaPort.TheVariants.{Control};
ghost use Rattle.ds_runs.specs.OrderLaws.{first_from};
ghost use Rattle.ds_timers.specs.Irqs.{irq_levelled, line_is_up, shares_bit};
ghost use Rattle.ds_timers.specs.Timing.{counter_of, overflow_of, timer_at, timer_due};
ghost use Rattle.ds_ports.specs.Acting.{any_armed, is_armed};
ghost use Rattle.ds_ports.specs.HappeningLaws.{IsProcessorIo};
ghost use Rattle.ds_ports.specs.Inside.{own_written};
ghost use Rattle.ds_ports.specs.Io.{channel_comes_before, triggered_if};
ghost use Rattle.ds_ports.specs.ProcessorIo.{before_move, control_written, dma_written, extkeyin_word, haltcnt_written, ie_written, if_written, ime_written, blocks_processor, keycnt_written, keyinput_word, keys_hold, keys_told, processor_io_at_boot, processor_io_moved, processor_io_put_back, processor_io_raised, processor_io_triggered, reload_written};
ghost use Rattle.ds_ports.specs.RegisterMap.{numbers_of};

use crate::registers::Register;
use ds_base::{Due, Interrupt, Proc, Stop, Tick, known};
use ds_dma::{Cause, Dma, DmaPort, LastUnit, Unit};
use ds_runs::{earlier, entry};
use ds_timers::{Irq, Timers};
use std::marker::Model;

/// The bits that KEYCNT keeps. (GBATEK, "DS Keypad".)
const KEPT_OF_KEYCNT: u16 = 0xC3FF;

/// What a processor has of its own: its interrupt words, timers, KEYCNT, halt and DMA channels, and whether a channel runs.
#[derive(Drop)]
pub struct ProcessorIo {
    irq: Irq,
    timers: Timers,
    keycnt: u16,
    halted: bool,
    dma: Dma,
    running: bool,
}

impl Model for ProcessorIo {
    ghost use Rattle.std.specs.Prelude.{◌≡◌};
    ghost use Rattle.ds_dma.specs.States.{any_runs};
    ghost use Rattle.ds_ports.specs.ProcessorIo.{ProcessorIoState};

    ghost Value = { ProcessorIoState };

    ghost view = { λ o. record { irq = o.irq; timers = o.timers; keycnt = o.keycnt; halted = o.halted; dma = o.dma } };

    ghost invariant = { λ o. o.running ≡ any_runs o.dma.channels };
}

/// What a channel's move changes of a processor's own, as it was before: its DMA channels and interrupt words.
#[derive(Clone, Copy)]
pub struct Before {
    dma: Dma,
    irq: Irq,
}

impl Model for Before {
    ghost use Rattle.ds_ports.specs.ProcessorIo.{BeforeMove};

    ghost Value = { BeforeMove };

    ghost view = { λ b. record { dma = b.dma; irq = b.irq } };

    ghost inverse = { λ b. record { dma = b.dma; irq = b.irq } };
}

/// KEYINPUT, by the keys that are pressed.
pub fn keyinput(pressed: u16) -> u32
    ensures { result ≡ keyinput_word pressed }
{
    0x3FF - (pressed % 0x400) as u32
}

/// EXTKEYIN, by the keys that are pressed.
pub fn extkeyin(pressed: u16) -> u32
    requires { pressed < 2 ^ 12 }
    ensures { result ≡ extkeyin_word pressed }
{
    0x7C + (3 - (pressed >> 10) as u32)
}

/// Whether KEYCNT's condition holds.
fn keys_hold(keycnt: u16, pressed: u16) -> bool
    ensures { result ≡ keys_hold keycnt pressed }
{
    let chosen = keycnt % 0x400;
    let both = chosen & pressed;
    (keycnt >> 14) & 1 == 1
        && (if (keycnt >> 15) & 1 == 1 {
            both == chosen
        } else {
            both != 0
        })
}

/// Whether a control word enables a channel of ARM9's with the start of the geometry FIFO.
fn is_armed(control: u32) -> bool
    ensures { result ≡ is_armed control }
{
    (control >> 31) & 1 == 1 && (control >> 27) & 7 == 7
}

impl ProcessorIo {
    /// All of a processor's at boot: no interrupt, no timer, no channel, and the processor runs.
    pub fn new(proc: Proc) -> ProcessorIo
        ensures { result ≡ processor_io_at_boot proc }
    {
        ProcessorIo {
            irq: Irq::new(),
            timers: Timers::new(),
            keycnt: 0,
            halted: false,
            dma: Dma::new(proc),
            running: false,
        }
    }

    /// All of a processor's by its parts: interrupt words, timers, KEYCNT, whether it is halted, and channels.
    pub fn of(irq: Irq, timers: Timers, keycnt: u16, halted: bool, dma: Dma) -> ProcessorIo
        ensures { result ≡ record { irq = irq; timers = timers; keycnt = keycnt; halted = halted; dma = dma } }
    {
        ProcessorIo {
            irq,
            timers,
            keycnt,
            halted,
            dma,
            running: dma.running(),
        }
    }

    /// The interrupt words.
    pub fn irq(&self) -> &Irq
        ensures { result.now ≡ self.now.irq }
    {
        &self.irq
    }

    /// The timers.
    pub fn timers(&self) -> &Timers
        ensures { result.now ≡ self.now.timers }
    {
        &self.timers
    }

    /// KEYCNT.
    pub fn keycnt(&self) -> u16
        ensures { result ≡ self.now.keycnt }
    {
        self.keycnt
    }

    /// The DMA channels.
    pub fn dma(&self) -> &Dma
        ensures { result.now ≡ self.now.dma }
    {
        &self.dma
    }

    /// Raises bits of IF.
    #[inline(always)]
    pub fn raise(&mut self, bits: u32)
        ensures { self.new ≡ processor_io_raised self.old bits }
    {
        self.irq.raise(bits);
    }

    /// Whether the interrupt line is up.
    #[inline(always)]
    pub fn line(&self) -> bool
        ensures { result ≡ line_is_up self.now.irq }
    {
        self.irq.line()
    }

    /// Whether IE and IF share a bit, so that a halted processor wakes.
    #[inline(always)]
    pub fn wakes(&self) -> bool
        ensures { result ≡ shares_bit self.now.irq }
    {
        self.irq.wakes()
    }

    /// Whether the processor is halted.
    #[inline(always)]
    pub fn is_halted(&self) -> bool
        ensures { result ≡ self.now.halted }
    {
        self.halted
    }

    /// Halts the processor, or lets it go on.
    #[inline(always)]
    pub fn set_halted(&mut self, halted: bool)
        ensures { self.new ≡ record self.old { halted = halted } }
    {
        self.halted = halted;
    }

    /// Whether the processor isn't due: it is halted, or a channel of it runs.
    #[inline(always)]
    pub fn is_blocked(&self) -> bool
        ensures { result ≡ blocks_processor self.now }
    {
        self.halted || self.running
    }

    /// The level of geometry's interrupt is told as it is.
    pub fn tell_level(&mut self, on: bool)
        ensures { self.new ≡ record self.old { irq = irq_levelled self.old.irq on } }
    {
        self.irq.level21(on);
    }

    /// Whether IF tells it so already.
    pub fn is_levelled(&self, on: bool) -> bool
        ensures { result ≡ ((irq_levelled self.now.irq on).if_ == self.now.irq.if_) }
    {
        let mut told = self.irq;
        told.level21(on);
        told.flags() == self.irq.flags()
    }

    /// Whether a channel waits for geometry.
    pub fn awaits_geometry(&self) -> bool
        ensures { result ≡ awaits_geometry self.now.dma }
    {
        self.dma.awaits_geometry()
    }

    /// Whether a channel of ARM9's is enabled with the start of the geometry FIFO, whether or not it runs.
    pub fn any_armed(&self) -> bool
        ensures { result ≡ any_armed self.now.dma }
    {
        is_armed(self.channel(DmaPort::Control, 0))
            || is_armed(self.channel(DmaPort::Control, 1))
            || is_armed(self.channel(DmaPort::Control, 2))
            || is_armed(self.channel(DmaPort::Control, 3))
    }

    /// When a timer overflows, if it is due.
    pub fn timer_due(&self, which: u8) -> Option<Tick>
        requires { which < 4 }
        ensures { result ≡ timer_due (timer_at self.now.timers which) }
    {
        self.timers.due(which)
    }

    /// A timer overflows, and its interrupts are raised.
    pub fn overflow(&mut self, which: u8)
        requires which { which < 4 }
        requires due { IsSome (timer_due (timer_at self.old.timers which)) }
        requires early { IsEarly (timer_due (timer_at self.old.timers which)) }
        ensures { self.new ≡ processor_io_raised (record self.old { timers = (overflow_of self.old.timers which).timers })
            (overflow_of self.old.timers which).bits }
    {
        let bits = self.timers.overflow(which);
        self.irq.raise(bits);
    }

    /// The first timer that is due; their ranks begin at one and go up.
    pub fn first_timer(&self, rank: u8) -> Option<Due>
        requires { rank < 2 ^ 6 }
        ensures { result ≡ first_from rank (timer_due (timer_at self.now.timers 0) ∷ timer_due (timer_at self.now.timers 1)
            ∷ timer_due (timer_at self.now.timers 2) ∷ timer_due (timer_at self.now.timers 3) ∷ []) }
    {
        let mut first = entry(rank + 3, self.timers.due(3));
        first = earlier(entry(rank + 2, self.timers.due(2)), first);
        first = earlier(entry(rank + 1, self.timers.due(1)), first);
        earlier(entry(rank, self.timers.due(0)), first)
    }

    /// A timer's counter.
    pub fn counter(&self, which: u32, now: Tick) -> u32
        requires { which < 4 }
        ensures { result ≡ counter_of (timer_at self.now.timers which) now }
    {
        self.timers.counter_at(which as u8, now) as u32
    }

    /// A timer's reload.
    pub fn reload(&self, which: u32) -> u32
        requires { which < 4 }
        ensures { result ≡ (timer_at self.now.timers which).reload }
    {
        self.timers.reload(which as u8) as u32
    }

    /// A timer's control.
    pub fn control(&self, which: u32) -> u32
        requires { which < 4 }
        ensures { result ≡ (timer_at self.now.timers which).control }
    {
        self.timers.control(which as u8) as u32
    }

    /// A write of a timer's reload.
    pub fn set_reload(&mut self, which: u32, value: u32)
        requires { which < 4 }
        ensures { self.new ≡ reload_written self.old which (value % 2 ^ 16) }
    {
        self.timers
            .set_reload(which as u8, (value % 0x1_0000) as u16);
    }

    /// A write of a timer's control.
    pub fn set_control(&mut self, which: u32, value: u32, now: Tick)
        requires which { which < 4 }
        requires early { IsEarly (Some now) }
        ensures { self.new ≡ control_written self.old which (value % 2 ^ 16) now }
    {
        self.timers
            .set_control(which as u8, (value % 0x1_0000) as u16, now);
    }

    /// Raises the keys' interrupt, where KEYCNT's condition holds.
    pub fn tell_keys(&mut self, pressed: u16)
        ensures { self.new ≡ keys_told self.old pressed }
    {
        if keys_hold(self.keycnt, pressed) {
            self.irq.raise(Interrupt::Keys.bit());
        }
    }

    /// A write of KEYCNT.
    pub fn set_keycnt(&mut self, pressed: u16, value: u32)
        ensures { self.new ≡ keycnt_written self.old pressed (value % 2 ^ 16) }
    {
        self.keycnt = (value % 0x1_0000) as u16 & KEPT_OF_KEYCNT;
        self.tell_keys(pressed);
    }

    /// IME.
    pub fn ime(&self) -> u32
        ensures { result ≡ flag 0 self.now.irq.ime }
    {
        if self.irq.master() { 1 } else { 0 }
    }

    /// IE.
    pub fn ie(&self) -> u32
        ensures { result ≡ self.now.irq.ie }
    {
        self.irq.enabled()
    }

    /// IF.
    pub fn flags(&self) -> u32
        ensures { result ≡ self.now.irq.if_ }
    {
        self.irq.flags()
    }

    /// A write of IME.
    pub fn set_ime(&mut self, value: u32)
        ensures { self.new ≡ ime_written self.old value }
    {
        self.irq.set_master(value % 2 == 1);
    }

    /// A write of IE, of which a processor keeps the interrupts that it has.
    pub fn set_ie(&mut self, proc: Proc, value: u32)
        ensures { self.new ≡ ie_written proc self.old value }
    {
        self.irq.set_enabled(value & Irq::kept(proc));
    }

    /// A write of IF.
    pub fn acknowledge(&mut self, value: u32)
        ensures { self.new ≡ if_written self.old value }
    {
        self.irq.ack(value);
    }

    /// A write of HALTCNT that isn't refused.
    pub fn set_haltcnt(&mut self, value: u32)
        ensures { self.new ≡ haltcnt_written self.old (value % 2 ^ 8) }
    {
        if (value >> 6) % 4 == 2 {
            self.halted = true;
        }
    }

    /// A channel's source, target or control.
    pub fn channel(&self, port: DmaPort, which: u32) -> u32
        requires { which < 4 }
        ensures { result ≡ channel_word port (channel_at self.now.dma.channels which) }
    {
        self.dma.read(which as u8, port)
    }

    /// A write of a channel's source, target or control. One that is refused leaves all.
    pub fn set_channel(&mut self, now: Tick, port: DmaPort, which: u32, value: u32)
        requires which { which < 4 }
        requires early { IsEarly (Some now) }
        ensures { self.new ≡ dma_written self.old now port which value }
    {
        self.dma.write(which as u8, port, value, now);
        self.running = self.dma.running();
    }

    /// The stop for which a write of a channel's control is refused: that of the same write of a copy.
    #[inline(never)]
    pub fn control_refusal(&self, which: u32, value: u32) -> Option<Stop>
        requires { which < 4 }
        ensures { result ≡ channel_refusal self.now.dma.proc which Control value (channel_at self.now.dma.channels which) }
    {
        let mut copy = self.dma;
        copy.write(which as u8, DmaPort::Control, value, Tick(0))
    }

    /// An event at a tick triggers the channels that wait for it.
    pub fn trigger(&mut self, cause: Cause, now: Tick)
        requires { IsEarly (Some now) }
        ensures { self.new ≡ processor_io_triggered self.old cause now }
    {
        self.dma.trigger(cause, now);
        self.running = self.dma.running();
    }

    /// Tells of the card at a tick: bits of IF are raised, and the channels triggered that wait for a word, where one is ready.
    pub fn hear_of_card(&mut self, raised: u32, ready: bool, now: Tick)
        requires { IsEarly (Some now) }
        ensures { self.new ≡ triggered_if ready Card now (processor_io_raised self.old raised) }
    {
        self.raise(raised);
        if ready {
            self.trigger(Cause::Card, now);
        }
    }

    /// When a channel is due, if it is: of those that run the one with the least number.
    pub fn channel_due(&self, which: u8) -> Option<Tick>
        requires { which < 4 }
        ensures { result ≡ channel_due self.now.dma which }
    {
        match self.dma.due() {
            Some(due) if due.channel == which => Some(due.tick),
            _ => None,
        }
    }

    /// The channel that is due; their ranks begin at one and go up.
    #[tactic(auto, using(crate::proofs::Dues::first_channel))]
    pub fn first_channel(&self, rank: u8) -> Option<Due>
        requires { rank < 2 ^ 6 }
        ensures { result ≡ first_from rank (channel_due self.now.dma 0 ∷ channel_due self.now.dma 1 ∷ channel_due self.now.dma 2
            ∷ channel_due self.now.dma 3 ∷ []) }
    {
        let due = self.dma.due()?;
        Some(Due {
            tick: due.tick,
            rank: rank + due.channel,
        })
    }

    /// Whether the channel that is due comes before a number of ticks.
    pub fn is_due_before(&self, ticks: u64) -> bool
        ensures { result ≡ channel_comes_before (dma_due self.now.dma) ticks }
    {
        match self.dma.due() {
            Some(due) => due.tick.0 < ticks,
            None => false,
        }
    }

    /// The last unit that a DMA channel of it moved, if one did.
    pub fn last_unit(&self) -> Option<LastUnit>
        ensures value { result ≡ self.now.dma.last }
        ensures early { IsEarly (last_tick result) }
    {
        self.dma.last_unit()
    }

    /// The unit that is due of the channels.
    pub fn unit(&self) -> Unit
        requires { IsSome (dma_due self.now.dma) }
        ensures { result ≡ unit_of (due_channel self.now.dma) 0 }
    {
        self.dma.unit()
    }

    /// The channel that is due moves its first unit, with so many ticks of waits, but for the access itself. Gives what this changes as it was
    /// before.
    pub fn move_channel(&mut self, now: Tick, waits: u32) -> Before
        requires due { IsSome (dma_due self.old.dma) }
        requires early { IsEarly (Some now) }
        requires waits { waits ≤ most_waits }
        ensures state { self.new ≡ processor_io_moved self.old now waits }
        ensures before { result ≡ before_move self.old }
    {
        let before = Before {
            dma: self.dma,
            irq: self.irq,
        };
        let bits = self.dma.finish(now, waits);
        self.irq.raise(bits);
        self.running = self.dma.running();
        before
    }

    /// The channels and the interrupt words are again as they were before a move.
    pub fn put_back(&mut self, before: Before)
        ensures { self.new ≡ processor_io_put_back before self.old }
    {
        self.irq = before.irq;
        self.dma = before.dma;
        self.running = self.dma.running();
    }

    /// Does nothing; its contract states what holds of a processor's own at every time.
    pub fn laws(&self)
        ensures { IsProcessorIo self.now }
    {
        known!(self.timers.laws());
        known!(self.dma.laws());
    }

    /// A write of all bytes of a register that is the processor's own.
    pub fn write(
        &mut self,
        proc: Proc,
        pressed: u16,
        now: Tick,
        register: Register,
        number: u32,
        value: u32,
    )
        requires number { number < numbers_of register }
        requires early { IsEarly (Some now) }
        ensures { self.new ≡ own_written register proc now pressed self.old number value }
    {
        match register {
            Register::Dmasad => self.set_channel(now, DmaPort::Source, number, value),
            Register::Dmadad => self.set_channel(now, DmaPort::Target, number, value),
            Register::Dmacnt => self.set_channel(now, DmaPort::Control, number, value),
            Register::TmcntL => self.set_reload(number, value),
            Register::TmcntH => self.set_control(number, value, now),
            Register::Keycnt => self.set_keycnt(pressed, value),
            Register::Ime => self.set_ime(value),
            Register::Ie => self.set_ie(proc, value),
            Register::If => self.acknowledge(value),
            Register::Haltcnt => self.set_haltcnt(value),
            _ => {}
        }
    }
}
