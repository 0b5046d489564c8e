//! The interrupt words of one processor.

ghost use Rattle.std.specs.Prelude.{◌≡◌};
ghost use Rattle.ds_timers.specs.Irqs.{IsIrq, irq_at_boot, level, shares_bit, line_is_up, events, interrupts_of, irq_raised, irq_acked, irq_levelled};

mod saved;

use ds_base::{Interrupt, Proc};
use std::marker::Model;

/// IME, IE and IF of one processor. Contracts see the three.
#[derive(Clone, Copy)]
pub struct Irq {
    ime: bool,
    ie: u32,
    if_: u32,
}

impl Model for Irq {
    ghost use Rattle.ds_timers.specs.Irqs.{IrqState};

    ghost Value = { IrqState };

    ghost view = { λ i. record { ime = i.ime; ie = i.ie; if_ = i.if_ } };

    ghost inverse = { λ i. record { ime = i.ime; ie = i.ie; if_ = i.if_ } };
}

/// The bit of the geometry FIFO's interrupt, which is a level and no event.
fn level() -> u32
    ensures { result ≡ level }
{
    Interrupt::GeometryFifo.bit()
}

fn events(bits: u32) -> u32
    ensures { result ≡ events bits }
{
    bits & !level()
}

impl Irq {
    /// The words at boot: all 0.
    pub fn new() -> Irq
        ensures { result ≡ irq_at_boot }
    {
        Irq {
            ime: false,
            ie: 0,
            if_: 0,
        }
    }

    /// The bits that a processor's IE keeps: those of the interrupts that it has.
    pub const fn kept(proc: Proc) -> u32
        ensures { result ≡ interrupts_of proc }
    {
        match proc {
            Proc::Nine => 0x2F_1F7F,
            Proc::Seven => 0x0F_1F7F,
        }
    }

    /// Whether the line to the processor is up: IME is set, and IE and IF share a bit.
    pub fn line(&self) -> bool
        ensures { result ≡ line_is_up self.now }
    {
        self.ime && self.wakes()
    }

    /// Whether a halted processor wakes: IE and IF share a bit, whatever IME is (our choice).
    pub fn wakes(&self) -> bool
        ensures { result ≡ shares_bit self.now }
    {
        self.ie & self.if_ != 0
    }

    /// IE.
    pub fn enabled(&self) -> u32
        ensures { result ≡ self.now.ie }
    {
        self.ie
    }

    /// IF.
    pub fn flags(&self) -> u32
        ensures { result ≡ self.now.if_ }
    {
        self.if_
    }

    /// IME bit 0.
    pub fn master(&self) -> bool
        ensures { result ≡ self.now.ime }
    {
        self.ime
    }

    /// Events set their bits of IF. The geometry FIFO's is no event's and stays (our choice).
    pub fn raise(&mut self, bits: u32)
        ensures { self.new ≡ irq_raised self.old bits }
    {
        self.if_ |= events(bits);
    }

    /// A write of IF: the bits that are 1 are cleared, but for the geometry FIFO's, which only its level changes (our choice).
    pub fn ack(&mut self, bits: u32)
        ensures { self.new ≡ irq_acked self.old bits }
    {
        self.if_ &= !events(bits);
    }

    /// A write of IE, as the port keeps it.
    pub fn set_enabled(&mut self, bits: u32)
        ensures { self.new ≡ record self.old { ie = bits } }
    {
        self.ie = bits;
    }

    /// A write of IME's bit 0.
    pub fn set_master(&mut self, on: bool)
        ensures { self.new ≡ record self.old { ime = on } }
    {
        self.ime = on;
    }

    /// The geometry FIFO's bit of IF is set or clear from now on, until the next such call.
    pub fn level21(&mut self, on: bool)
        ensures { self.new ≡ irq_levelled self.old on }
    {
        self.if_ = if on {
            self.if_ | level()
        } else {
            events(self.if_)
        };
    }

    /// Does nothing; its contract states what holds of the words at every time: IE and IF have 32 bits.
    pub fn laws(&self)
        ensures { IsIrq self.now }
    {
        let _words = (self.enabled(), self.flags());
    }
}
