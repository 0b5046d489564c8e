//! A core in bytes.

ghost use Rattle.std.specs.Prelude.{◌≡◌, IfOk, OnOk};
ghost use Rattle.arm_core.specs.Saved.{AreRegisters, RegistersAreSaved, registers_format};
ghost use Rattle.ds_state.specs.Formats.{bytes_written};
ghost use Rattle.ds_state.specs.Reading.{GivesRead, read_format};

use crate::cores::Core;
use crate::registers::Registers;
use crate::statuses::kept_status_bits;
use ds_base::{Arch, Tick, known};
use ds_state::{Packer, Unpacked, Unpacker, put_list, take_each};
use std::alloc::AllocError;

impl Core {
    /// Puts the 37 registers in the order of `registers`, 148 bytes. The error is want of memory.
    #[tactic(auto, unfolding(crate::specs::Saved::registers_format))]
    pub fn pack(&self, into: &mut Packer) -> Result<(), AllocError>
        ensures { OnOk result (into.new ≡ bytes_written (registers_format self.now.arch) into.old self.now.registers) }
    {
        put_list(into, &self.registers.general())?;
        into.put_u32(self.registers.pc)?;
        into.put_u32(self.registers.cpsr)?;
        let [fiq, supervisor, abort, irq, undefined] = self.registers.saved;
        into.put_u32(fiq)?;
        into.put_u32(supervisor)?;
        into.put_u32(abort)?;
        into.put_u32(irq)?;
        into.put_u32(undefined)?;
        Ok(())
    }

    /// Takes what `pack` puts, as a core of that architecture; the registers that its mode shows are brought anew. The error is where the first
    /// field begins that isn't whole, or where CPSR or an SPSR has a bit that the architecture doesn't keep.
    #[tactic(auto, unfolding(crate::specs::Saved::registers_format))]
    pub fn unpack(from: &mut Unpacker, at: Tick, arch: Arch) -> Result<Core, Unpacked>
        ensures reads { GivesRead (λ c. c.registers) result from.new (read_format (registers_format arch) at.0 from.old) }
        ensures arch { IfOk result (λ c. c.arch ≡ arch) }
    {
        let mut general = [0; 30];
        take_each(from, &mut general, at.0)?;
        let pc = from.take_u32()?;
        let kept = kept_status_bits(arch);
        let cpsr = from.take_kept_word(kept)?;
        let fiq = from.take_kept_word(kept)?;
        let supervisor = from.take_kept_word(kept)?;
        let abort = from.take_kept_word(kept)?;
        let irq = from.take_kept_word(kept)?;
        let undefined = from.take_kept_word(kept)?;
        let saved = [fiq, supervisor, abort, irq, undefined];
        Ok(Core {
            arch,
            registers: Registers::of(general, pc, cpsr, saved),
        })
    }

    /// Does nothing; its contract states what holds at every time: there are 37 registers, each a word.
    pub fn laws(&self)
        ensures { AreRegisters self.now.registers }
    {
        known!(self.registers.laws());
    }
}

/// Does nothing; its contract states that the bytes of a core whose status registers have the architecture's bits alone are read as it was,
/// whatever stands behind them, and that bytes which are read are those of what is read.
#[tactic(auto, using(crate::proofs::SavedLaws::registers_saved))]
pub fn saved_laws()
    ensures { RegistersAreSaved }
{}
