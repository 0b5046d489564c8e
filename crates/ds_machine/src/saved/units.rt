//! The small units in bytes.

ghost use Rattle.std.specs.Prelude.{◌≡◌, Bool, OnOk, Some};
ghost use Rattle.ds_base.specs.Schedules.{IsEarly};
ghost use Rattle.ds_machine.specs.SavedParts.{saved_units, units_format};
ghost use Rattle.ds_state.specs.Formats.{bytes_written};
ghost use Rattle.ds_state.specs.Reading.{GivesIn, read_format};

use crate::parts::Parts;
use ds_base::{Proc, Tick};
use ds_ipc::Ipc;
use ds_math::{Divider, Root};
use ds_state::{Packer, Unpacked, Unpacker};
use ds_timers::{Irq, Timers};
use std::alloc::{AllocError, Global};
use std::marker::Model;

/// The small units; ARM9's interrupt words without the geometry FIFO's bit.
#[derive(Drop)]
pub struct SavedUnits {
    pub wramcnt: u8,
    pub irq_of_nine: Irq,
    pub irq_of_seven: Irq,
    pub timers_of_nine: Timers,
    pub timers_of_seven: Timers,
    pub divider: Divider,
    pub root: Root,
    pub ipc: Ipc,
    pub pressed: u16,
    pub keycnt_of_nine: u16,
    pub keycnt_of_seven: u16,
}

impl Model for SavedUnits {
    ghost use Rattle.std.specs.Prelude.{◌<◌, ◌^◌};
    ghost use Rattle.ds_machine.specs.SavedParts.{SavedUnits};

    ghost Value = { SavedUnits };

    ghost view = { λ u. record {
      wramcnt = u.wramcnt;
      irq_of_nine = u.irq_of_nine;
      irq_of_seven = u.irq_of_seven;
      timers_of_nine = u.timers_of_nine;
      timers_of_seven = u.timers_of_seven;
      divider = u.divider;
      root = u.root;
      ipc = u.ipc;
      pressed = u.pressed;
      keycnt_of_nine = u.keycnt_of_nine;
      keycnt_of_seven = u.keycnt_of_seven;
    } };

    ghost invariant = { λ u. (u.wramcnt < 4) × (u.pressed < 2 ^ 12) };
}

/// The bits that KEYCNT keeps.
const KEPT_OF_KEYCNT: u16 = 0xC3FF;

impl SavedUnits {
    /// Takes WRAMCNT, the interrupt words and the timers of both processors, the divider, the square root unit, what passes between the processors,
    /// the keys that are pressed and each KEYCNT, by whether ARM7 is halted. The error is want of memory, or where the first field begins that isn't
    /// whole or breaks its rule: those of the units; a WRAMCNT above 3; where ARM7 is halted a bit of its IF that stands in its IE; over twelve keys;
    /// a bit that KEYCNT doesn't keep.
    #[tactic(auto, unfolding(crate::specs::SavedParts::units_format))]
    pub fn take(
        alloc: Global,
        from: &mut Unpacker,
        at: Tick,
        halted: bool,
    ) -> Result<SavedUnits, Unpacked>
        requires { IsEarly (Some at) }
        ensures { GivesIn (λ u. u) result from.new (read_format (units_format halted) at.0 from.old) }
    {
        let wramcnt = from.take_at_most(3)?;
        let irq_of_nine = Irq::unpack(from, at, Proc::Nine)?;
        let irq_of_seven = Irq::unpack_by(from, at, Proc::Seven, halted)?;
        let timers_of_nine = Timers::unpack(from, at)?;
        let timers_of_seven = Timers::unpack(from, at)?;
        let divider = Divider::unpack(from, at)?;
        let root = Root::unpack(from, at)?;
        let ipc = Ipc::unpack(alloc, from, at)?;
        let pressed = from.take_half_at_most(0xFFF)?;
        let keycnt_of_nine = from.take_kept_half(KEPT_OF_KEYCNT)?;
        let keycnt_of_seven = from.take_kept_half(KEPT_OF_KEYCNT)?;
        Ok(SavedUnits {
            wramcnt,
            irq_of_nine,
            irq_of_seven,
            timers_of_nine,
            timers_of_seven,
            divider,
            root,
            ipc,
            pressed,
            keycnt_of_nine,
            keycnt_of_seven,
        })
    }
}

impl Parts {
    /// Puts the same, whether ARM7 is halted or not.
    #[tactic(auto, unfolding(crate::specs::SavedParts::units_format), using(crate::proofs::SavedBytes::irq_bytes))]
    pub fn put_units(&self, into: &mut Packer) -> Result<(), AllocError>
        ensures { (halted : Bool) → OnOk result (into.new ≡ bytes_written (units_format halted) into.old (saved_units self.now.io)) }
    {
        let nine = self.io.processor(Proc::Nine);
        let seven = self.io.processor(Proc::Seven);
        into.put_u8(self.io.wramcnt())?;
        nine.irq().pack(into)?;
        seven.irq().pack(into)?;
        nine.timers().pack(into)?;
        seven.timers().pack(into)?;
        self.io.divider().pack(into)?;
        self.io.root().pack(into)?;
        self.io.ipc().pack(into)?;
        into.put_u16(self.io.pressed())?;
        into.put_u16(nine.keycnt())?;
        into.put_u16(seven.keycnt())?;
        Ok(())
    }
}
