//! A step of ARM7.

ghost use Rattle.std.specs.Prelude.{◌≡◌, ◌<◌, IfSome};
ghost use Rattle.ds_base.specs.declared.processors.Arch.TheVariants.{V4};
ghost use Rattle.arm_words.specs.Fields.{HasFields};
ghost use Rattle.arm_core.specs.Steps.{executed_word};
ghost use Rattle.arm7_exec.specs.Arm7.{arm7, step7_of};
ghost use Rattle.arm_exec.specs.Stopped.{KeepsWhereStopped};
ghost use Rattle.arm_core.specs.StatusLaws.{HasStatuses};

use arm_core::{Bus, Core, Registers, Stepped};
use arm_exec::{Fetched, execute_word, step};
use ds_base::Arch;

/// A step of ARM7: the entry of the interrupt where its line is up and I is clear, and otherwise the instruction at r15, by its meaning on
/// ARMv4. It answers its cost in bus clocks, or the stop for which it needs what is left out: a write that the bus refused, or a SWI whose
/// number the boot ROM hasn't. Then the core is as it was, and the accesses before the refused one stand. It never answers a halt. Where CPSR and
/// each SPSR have no bits but those that ARMv4 keeps, this stays so.
#[inline]
pub fn step7<B: Bus>(core: &mut Core, bus: &mut B, line: bool) -> Stepped
    ensures core { core.new ≡ record core.old { registers = (step7_of B.memory line core.old.registers (B.state bus.old)).registers } }
    ensures state { B.state bus.new ≡ (step7_of B.memory line core.old.registers (B.state bus.old)).state }
    ensures stepped { result ≡ (step7_of B.memory line core.old.registers (B.state bus.old)).stepped }
    ensures same { B.identity bus.new ≡ B.identity bus.old }
    ensures left { KeepsWhereStopped core.old.registers result core.new.registers }
    ensures statuses { HasStatuses V4 core.old.registers → HasStatuses V4 core.new.registers }
{
    step(Arch::V4, 0, true, &mut core.registers, bus, line)
}

/// What is left of a step of ARM7 that enters no interrupt, once its word or half is fetched.
#[inline]
pub fn execute7<B: Bus>(s: &mut Registers, bus: &mut B, next: Fetched) -> Stepped
    requires low { next.number < 16 }
    requires fields { IfSome next.instr HasFields }
    ensures registers { s.new ≡ (executed_word B.memory arm7 s.old (B.state bus.old) next.number next.instr).registers }
    ensures state { B.state bus.new ≡ (executed_word B.memory arm7 s.old (B.state bus.old) next.number next.instr).state }
    ensures stepped { result ≡ (executed_word B.memory arm7 s.old (B.state bus.old) next.number next.instr).stepped }
    ensures same { B.identity bus.new ≡ B.identity bus.old }
{
    execute_word(Arch::V4, 0, true, s, bus, next.number, next.instr)
}
