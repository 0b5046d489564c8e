//! A core.

ghost use Rattle.std.specs.Prelude.{◌≡◌};
ghost use Rattle.ds_base.specs.Bits.{bit};
ghost use Rattle.arm_core.specs.Registers.{words_of};
ghost use Rattle.arm_core.specs.Cores.{booted};

use crate::registers::Registers;
use ds_base::Arch;

mod saved;

pub use saved::saved_laws;

/// A processor's core: its registers, and the architecture that it was made for.
#[derive(Drop)]
pub struct Core {
    /// The architecture, by which `footprint` goes.
    pub arch: Arch,
    /// The 37 registers.
    pub registers: Registers,
}

impl Core {
    /// A core at boot, from its entry and the stacks of System, IRQ and Supervisor mode in this order.
    pub fn boot(arch: Arch, entry: u32, stacks: [u32; 3]) -> Core
        ensures arch { result.arch ≡ arch }
        ensures registers { result.registers ≡ booted entry stacks }
    {
        Core {
            arch,
            registers: Registers::boot(entry, stacks),
        }
    }

    /// All 37 registers in order: r0 to r12; r8 to r12 of FIQ; r13 and r14 of System, FIQ, Supervisor, Abort, IRQ, Undefined; r15, which
    /// is the address of the instruction that is executed next; CPSR; SPSR of FIQ, Supervisor, Abort, IRQ, Undefined.
    pub fn registers(&self) -> [u32; 37]
        ensures { result ≡ words_of self.now.registers }
    {
        self.registers.words()
    }

    /// Whether interrupts are masked: I is set.
    #[inline(always)]
    pub fn masked(&self) -> bool
        ensures { result ≡ bit 7 self.now.registers.cpsr }
    {
        (self.registers.cpsr() >> 7) & 1 == 1
    }
}
