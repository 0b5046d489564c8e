//! Exceptions.

ghost use Rattle.std.specs.Prelude.{◌≡◌, []};
ghost use Rattle.arm_core.specs.Effects.{cost_of};
ghost use Rattle.arm_core.specs.Exceptions.{breakpoint_meaning, interrupt_meaning, software_meaning, undefined_meaning};

use arm_core::{Class, Exception, Registers};
use ds_base::Arch;

/// An undefined instruction, with the base of the vectors; the result is its cost (ARM manual, A2.6.3 "Undefined Instruction exception").
#[inline]
pub fn undefined(arch: Arch, s: &mut Registers, base: u32) -> u32
    ensures registers { s.new ≡ (undefined_meaning base s.old).after [] }
    ensures cost { result ≡ cost_of arch (undefined_meaning base s.old) }
{
    let link = s.next_pc();
    s.enter(base, Exception::UndefinedInstruction, link);
    Class::Entry.cost(arch, false)
}

/// SWI, with the base of the vectors; the result is its cost (ARM manual, A2.6.4 "Software Interrupt exception").
#[inline]
pub fn software(arch: Arch, s: &mut Registers, base: u32) -> u32
    ensures registers { s.new ≡ (software_meaning base s.old).after [] }
    ensures cost { result ≡ cost_of arch (software_meaning base s.old) }
{
    let link = s.next_pc();
    s.enter(base, Exception::SoftwareInterrupt, link);
    Class::Entry.cost(arch, false)
}

/// BKPT, with the base of the vectors; the result is the entry's cost (ARM manual, A2.6.5 "Prefetch Abort", A4.1 "BKPT").
#[inline]
pub fn breakpoint(arch: Arch, s: &mut Registers, base: u32) -> u32
    ensures registers { s.new ≡ (breakpoint_meaning base s.old).after [] }
    ensures cost { result ≡ cost_of arch (breakpoint_meaning base s.old) }
{
    let address = s.pc();
    s.enter(base, Exception::Breakpoint, address.wrapping_add(4));
    Class::Entry.cost(arch, false)
}

/// The interrupt line is up before an instruction, with the base of the vectors; the result is the entry's cost (ARM manual, A2.6.8
/// "Interrupt request (IRQ) exception").
#[inline]
pub fn interrupt(arch: Arch, s: &mut Registers, base: u32) -> u32
    ensures registers { s.new ≡ (interrupt_meaning base s.old).after [] }
    ensures cost { result ≡ cost_of arch (interrupt_meaning base s.old) }
{
    let link = s.pc().wrapping_add(4);
    s.enter(base, Exception::Interrupt, link);
    Class::Entry.cost(arch, false)
}
