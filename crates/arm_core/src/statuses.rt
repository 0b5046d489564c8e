//! The status registers.

ghost use Rattle.std.specs.Prelude.{◌≡◌};
ghost use Rattle.arm_core.specs.Registers.{bank, saved_place};
ghost use Rattle.arm_core.specs.DataProcessing.{restored, with_flags};
ghost use Rattle.arm_core.specs.StatusRegisters.{kept_status_bits, replaced, saved_value, with_saved};

use crate::registers::Registers;
use crate::results::Computed;
use ds_base::Arch;

/// The bits that a status register keeps.
#[inline(always)]
pub fn kept_status_bits(arch: Arch) -> u32
    ensures { result ≡ kept_status_bits arch }
{
    match arch {
        Arch::V4 => 0xF000_00FF,
        Arch::V5 => 0xF800_00FF,
    }
}

/// A status register's value, with the operand's bits under a mask.
#[inline(always)]
pub fn replaced(mask: u32, old: u32, operand: u32) -> u32
    ensures { result ≡ replaced mask old operand }
{
    (old & !mask) | (operand & mask)
}

impl Registers {
    /// SPSR of the mode, and 0 where the mode has none.
    #[inline(always)]
    pub fn spsr(&self) -> u32
        ensures { result ≡ saved_value (saved_place (bank self.now)) self.now }
    {
        match self.bank().saved_place() {
            Some(at) => self.saved[at],
            None => 0,
        }
    }

    /// Writes the bits of SPSR that are under a mask, where the mode has an SPSR.
    #[inline(always)]
    pub fn write_spsr(&mut self, mask: u32, operand: u32)
        ensures { self.new ≡ with_saved (saved_place (bank self.old)) mask operand self.old }
    {
        if let Some(at) = self.bank().saved_place() {
            self.saved[at] = replaced(mask, self.saved[at], operand);
        }
    }

    /// CPSR becomes SPSR, where the mode has one: an exception's return (ARM manual, A2.6 "Exceptions").
    #[inline(always)]
    pub fn restore(&mut self)
        ensures { self.new ≡ restored self.old }
    {
        if let Some(at) = self.bank().saved_place() {
            self.set_cpsr(self.saved[at]);
        }
    }

    /// Sets the flags after a result: N is its bit 31, Z that it is 0, C and V go with it (ARM manual, A2.5.2 "The condition code
    /// flags").
    #[inline(always)]
    pub fn set_flags(&mut self, r: Computed)
        ensures { self.new ≡ with_flags r self.old }
    {
        self.cpsr = self.cpsr % 0x1000_0000
            + ((r.overflow as u32) << 28)
            + ((r.carry as u32) << 29)
            + (((r.value == 0) as u32) << 30)
            + (((r.value >> 31) & 1) << 31);
    }
}
