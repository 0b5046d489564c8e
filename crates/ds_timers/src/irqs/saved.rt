//! The interrupt words in bytes.

ghost use Rattle.std.specs.Prelude.{◌≡◌, ℕ, Bool, OnOk};
ghost use Rattle.ds_base.specs.declared.processors.Proc.{Proc};
ghost use Rattle.ds_state.specs.Formats.{bytes_written};
ghost use Rattle.ds_state.specs.Reading.{GivesRead, read_format};
ghost use Rattle.ds_timers.specs.Saved.{irq_format, irq_format_by, sleeps_by};

use crate::irqs::{Irq, events, level};
use ds_base::{Proc, Tick};
use ds_state::{Packer, Unpacked, Unpacker, holds};
use std::alloc::AllocError;

impl Irq {
    /// Puts IME, IE and IF, 9 bytes; the geometry FIFO's bit of IF as 0. The error is want of memory.
    #[tactic(auto, unfolding(crate::specs::Saved::irq_format_by))]
    pub fn pack(&self, into: &mut Packer) -> Result<(), AllocError>
        ensures { (proc : Proc) (asked : ℕ → ℕ → Bool) → OnOk result (into.new ≡ bytes_written (irq_format_by proc asked) into.old self.now) }
    {
        into.put_flag(self.ime)?;
        into.put_u32(self.ie)?;
        into.put_u32(events(self.if_))?;
        Ok(())
    }

    /// Takes what `pack` puts, for a processor. The error is where the first field begins that isn't whole, a flag that is no flag, an IE with
    /// bits of interrupts that the processor hasn't, or an IF with the geometry FIFO's bit.
    pub fn unpack(from: &mut Unpacker, at: Tick, proc: Proc) -> Result<Irq, Unpacked>
        ensures { GivesRead (λ i. i) result from.new (read_format (irq_format proc) at.0 from.old) }
    {
        Irq::unpack_by(from, at, proc, false)
    }

    /// Takes the same of a processor that may be asleep: where it is, an IF that shares a bit with IE is an error, too.
    #[tactic(auto, unfolding(crate::specs::Saved::irq_format_by))]
    pub fn unpack_by(
        from: &mut Unpacker,
        at: Tick,
        proc: Proc,
        asleep: bool,
    ) -> Result<Irq, Unpacked>
        ensures { GivesRead (λ i. i) result from.new (read_format (irq_format_by proc (sleeps_by asleep)) at.0 from.old) }
    {
        let ime = from.take_flag()?;
        let ie = from.take_kept_word(Irq::kept(proc))?;
        let offset = from.place();
        let if_ = from.take_kept_word(!level())?;
        holds(!asleep || ie & if_ == 0, offset)?;
        Ok(Irq { ime, ie, if_ })
    }
}
