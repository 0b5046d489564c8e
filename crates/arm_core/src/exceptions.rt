//! Exceptions.

ghost use Rattle.std.specs.Prelude.{◌≡◌};
ghost use Rattle.arm_core.specs.Exceptions.{entered, entry_bank, entry_mode, kept_status, vector};
ghost use Rattle.arm_core.specs.Registers.{saved_place};

use crate::banks::Bank;
use crate::registers::Registers;

/// An exception that an instruction or the interrupt line makes (ARM manual, A2.6 "Exceptions").
#[derive(Clone, Copy, PartialEq, Eq)]
pub enum Exception {
    /// An undefined instruction.
    UndefinedInstruction,
    /// SWI.
    SoftwareInterrupt,
    /// BKPT, which is a prefetch abort (ARMv5).
    Breakpoint,
    /// The interrupt line is up and I is clear.
    Interrupt,
}

impl Exception {
    /// Where its vector stands from the base of the vectors on, in bytes.
    #[inline(always)]
    pub fn vector(self) -> u32
        ensures { result ≡ vector self }
    {
        match self {
            Exception::UndefinedInstruction => 0x04,
            Exception::SoftwareInterrupt => 0x08,
            Exception::Breakpoint => 0x0C,
            Exception::Interrupt => 0x18,
        }
    }

    /// The mode that it is handled in, as bits 4 to 0 of CPSR.
    #[inline(always)]
    pub fn mode(self) -> u32
        ensures { result ≡ entry_mode self }
    {
        match self {
            Exception::UndefinedInstruction => 0x1B,
            Exception::SoftwareInterrupt => 0x13,
            Exception::Breakpoint => 0x17,
            Exception::Interrupt => 0x12,
        }
    }

    /// The bank of that mode.
    #[inline(always)]
    pub fn bank(self) -> Bank
        ensures { result ≡ entry_bank self }
    {
        match self {
            Exception::UndefinedInstruction => Bank::Undefined,
            Exception::SoftwareInterrupt => Bank::Supervisor,
            Exception::Breakpoint => Bank::Abort,
            Exception::Interrupt => Bank::Irq,
        }
    }
}

impl Registers {
    /// Keeps CPSR in the SPSR of a bank that has one.
    #[inline(always)]
    fn keep_status(&mut self, bank: Bank)
        ensures { self.new ≡ record self.old { saved = kept_status (saved_place bank) self.old } }
    {
        if let Some(at) = bank.saved_place() {
            self.saved[at] = self.cpsr;
        }
    }

    /// Enters an exception: r14 and SPSR of its mode keep `link`, the address to return by, and CPSR; the processor goes on in that mode
    /// and in ARM state, with interrupts masked, at the exception's vector from `base` on (ARM manual, A2.6 "Exceptions").
    #[inline]
    pub fn enter(&mut self, base: u32, exception: Exception, link: u32)
        ensures { self.new ≡ entered base exception link self.old }
    {
        let bank = exception.bank();
        self.keep_status(bank);
        self.set_in(bank, 14, link);
        self.set_cpsr((self.cpsr & 0xFFFF_FF40) + 0x80 + exception.mode());
        self.pc = base.wrapping_add(exception.vector());
    }
}
