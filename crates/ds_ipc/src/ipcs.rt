//! Both sides, and the calls of each.

ghost use Rattle.std.specs.Prelude.{◌≡◌, IfOk};
ghost use Rattle.ds_base.specs.Processors.{raised_at};
ghost use Rattle.ds_ipc.specs.Sides.{control_kept, sync_kept};
ghost use Rattle.ds_ipc.specs.Ipcs.{AreSides, side_of, ipc_at_boot, ipc_sync_word, ipc_sync_written, ipc_sync_raised, ipc_control_word, ipc_control_written, ipc_control_raised, ipc_sent, ipc_send_raised, ipc_received, ipc_received_word, ipc_receive_raised};

use crate::sides;
use crate::sides::{Side, Taken};
use ds_base::{Proc, Raised, known};
use std::alloc::{AllocError, Global};
use std::marker::Model;

/// What a receive gives.
#[derive(Clone, Copy, PartialEq, Eq)]
pub struct Got {
    /// The word: the oldest that waits, or the last one received where none waits (0 at first and after a clear).
    pub word: u32,
    /// The interrupts that the receive raises.
    pub raised: Raised,
}

/// The ways between the processors. Contracts see two sides, each with the list of the words that it sent and that wait, at
/// most 16, and the last word that it received.
#[derive(Drop)]
pub struct Ipc {
    pub(crate) nine: Side,
    pub(crate) seven: Side,
}

impl Model for Ipc {
    ghost use Rattle.ds_ipc.specs.Ipcs.{IpcState};

    ghost Value = { IpcState };

    ghost view = { λ i. record { nine = i.nine; seven = i.seven } };
}

fn got_across(across: Proc, taken: Taken) -> Got
    ensures word { result.word ≡ taken.word }
    ensures raised { result.raised ≡ raised_at across taken.raised }
{
    Got {
        word: taken.word,
        raised: Raised::at(across, taken.raised),
    }
}

impl Ipc {
    /// Both sides at boot: all 0 and empty. It takes the memory of both FIFOs; an error is want of memory alone.
    pub fn new(alloc: Global) -> Result<Ipc, AllocError>
        ensures { IfOk result (λ ipc. ipc ≡ ipc_at_boot) }
    {
        let nine = Side::new(alloc)?;
        let seven = Side::new(alloc)?;
        Ok(Ipc { nine, seven })
    }

    /// IPCSYNC as a side reads it.
    pub fn sync_read(&self, side: Proc) -> u16
        ensures { result ≡ ipc_sync_word self.now side }
    {
        match side {
            Proc::Nine => sides::sync_read(&self.nine, &self.seven),
            Proc::Seven => sides::sync_read(&self.seven, &self.nine),
        }
    }

    /// The bits of IPCSYNC that stay where a side's write doesn't cover them.
    pub fn sync_kept(&self, side: Proc) -> u16
        ensures { result ≡ sync_kept (side_of self.now side) }
    {
        match side {
            Proc::Nine => sides::sync_kept(&self.nine),
            Proc::Seven => sides::sync_kept(&self.seven),
        }
    }

    /// A side writes IPCSYNC. Bit 13 raises IPC sync on the other side where that side's bit 14 is set.
    pub fn sync_write(&mut self, side: Proc, value: u16) -> Raised
        ensures state { self.new ≡ ipc_sync_written self.old side value }
        ensures raised { result ≡ ipc_sync_raised self.old side value }
    {
        match side {
            Proc::Nine => Raised::at(
                Proc::Seven,
                sides::sync_write(&mut self.nine, &self.seven, value),
            ),
            Proc::Seven => Raised::at(
                Proc::Nine,
                sides::sync_write(&mut self.seven, &self.nine, value),
            ),
        }
    }

    /// IPCFIFOCNT as a side reads it.
    pub fn control_read(&self, side: Proc) -> u16
        ensures { result ≡ ipc_control_word self.now side }
    {
        match side {
            Proc::Nine => sides::control_read(&self.nine, &self.seven),
            Proc::Seven => sides::control_read(&self.seven, &self.nine),
        }
    }

    /// The bits of IPCFIFOCNT that stay where a side's write doesn't cover them.
    pub fn control_kept(&self, side: Proc) -> u16
        ensures { result ≡ control_kept (side_of self.now side) }
    {
        match side {
            Proc::Nine => sides::control_kept(&self.nine),
            Proc::Seven => sides::control_kept(&self.seven),
        }
    }

    /// A side writes IPCFIFOCNT: its enables, then a 1 in bit 14 clears the error and a 1 in bit 3 the send FIFO.
    pub fn control_write(&mut self, side: Proc, value: u16) -> Raised
        ensures state { self.new ≡ ipc_control_written self.old side value }
        ensures raised { result ≡ ipc_control_raised self.old side value }
    {
        match side {
            Proc::Nine => Raised::at(
                Proc::Nine,
                sides::control_write(&mut self.nine, &mut self.seven, value),
            ),
            Proc::Seven => Raised::at(
                Proc::Seven,
                sides::control_write(&mut self.seven, &mut self.nine, value),
            ),
        }
    }

    /// A side sends a word. To a full FIFO it is lost; a disabled side sends nothing. Whether the other side is enabled doesn't
    /// count.
    pub fn send(&mut self, side: Proc, word: u32) -> Raised
        ensures state { self.new ≡ ipc_sent self.old side word }
        ensures raised { result ≡ ipc_send_raised self.old side }
    {
        match side {
            Proc::Nine => Raised::at(Proc::Seven, sides::send(&mut self.nine, &self.seven, word)),
            Proc::Seven => Raised::at(Proc::Nine, sides::send(&mut self.seven, &self.nine, word)),
        }
    }

    /// The word that a side's receive would give.
    pub fn look(&self, side: Proc) -> u32
        ensures { result ≡ ipc_received_word self.now side }
    {
        match side {
            Proc::Nine => sides::look(&self.nine, &self.seven),
            Proc::Seven => sides::look(&self.seven, &self.nine),
        }
    }

    /// A side receives a word. A disabled side sees the same word and takes nothing.
    pub fn receive(&mut self, side: Proc) -> Got
        ensures state { self.new ≡ ipc_received self.old side }
        ensures word { result.word ≡ ipc_received_word self.old side }
        ensures raised { result.raised ≡ ipc_receive_raised self.old side }
    {
        match side {
            Proc::Nine => got_across(Proc::Seven, sides::receive(&mut self.nine, &mut self.seven)),
            Proc::Seven => got_across(Proc::Nine, sides::receive(&mut self.seven, &mut self.nine)),
        }
    }

    /// Does nothing; its contract states what holds of both sides at every time: neither FIFO holds more than 16 words, and how
    /// many bits their numbers have, those of the words that wait too.
    pub fn laws(&self)
        ensures { AreSides self.now }
    {
        known!(self.nine.laws());
        known!(self.seven.laws());
    }
}
