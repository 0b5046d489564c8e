//! A step of ARM9.

ghost use Rattle.std.specs.Prelude.{◌≡◌, ◌<◌, IfSome};
ghost use Rattle.arm_words.specs.Fields.{HasFields};
ghost use Rattle.arm9_exec.specs.Coprocessors.{move_of};
ghost use Rattle.arm9_exec.specs.Arm9.{arm9, executed_or_moved, step9_of, step_waits};
ghost use Rattle.arm9_exec.specs.Stopped.{KeepsBothWhereStopped, ends_halted};
ghost use Rattle.arm9_exec.specs.Statuses.{HasNineStatuses};

use crate::coprocessors::{move_if, move_of};
use arm_core::{Bus, Core, Registers, Stepped};
use arm_exec::{Fetched, enters, execute_word, fetch, interrupt};
use cp15_tcm::{Cp15, Tcm};
use ds_base::Arch;

/// Whether SWI's vector lies in the boot ROM: the vectors are high, and ITCM doesn't answer the fetch there.
#[inline(always)]
pub fn in_rom(cp: &Cp15) -> bool
    ensures { result ≡ (arm9 cp.now).in_rom }
{
    cp.vectors() == 0xFFFF_0000 && !matches!(cp.tcm_place(0xFFFF_0008, false, true), Tcm::Itcm(_))
}

/// What is left of a step behind its fetch: a move to or from CP15, or another instruction.
#[inline]
fn execute<B: Bus>(s: &mut Registers, cp: &mut Cp15, bus: &mut B, fetched: Fetched) -> Stepped
    requires low { fetched.number < 16 }
    requires fields { IfSome fetched.instr HasFields }
    ensures registers { s.new
        ≡ (executed_or_moved B.memory s.old cp.old (record {
          number = fetched.number;
          instr = fetched.instr;
          state = B.state bus.old;
        }) (move_of fetched.instr)).registers }
    ensures cp { cp.new ≡ (executed_or_moved B.memory s.old cp.old (record {
      number = fetched.number;
      instr = fetched.instr;
      state = B.state bus.old;
    }) (move_of fetched.instr)).cp }
    ensures state { B.state bus.new
        ≡ (executed_or_moved B.memory s.old cp.old (record {
          number = fetched.number;
          instr = fetched.instr;
          state = B.state bus.old;
        }) (move_of fetched.instr)).state }
    ensures stepped { result
        ≡ (executed_or_moved B.memory s.old cp.old (record {
          number = fetched.number;
          instr = fetched.instr;
          state = B.state bus.old;
        }) (move_of fetched.instr)).stepped }
    ensures same { B.identity bus.new ≡ B.identity bus.old }
{
    match move_of(fetched.instr) {
        Some(m) => move_if(s, cp, m),
        None => execute_word(
            Arch::V5,
            cp.vectors(),
            in_rom(cp),
            s,
            bus,
            fetched.number,
            fetched.instr,
        ),
    }
}

/// A step: the interrupt's entry, a move to or from CP15, or another instruction.
#[inline]
fn step<B: Bus>(s: &mut Registers, cp: &mut Cp15, bus: &mut B, line: bool) -> Stepped
    ensures registers { s.new ≡ (step9_of B.memory line s.old cp.old (B.state bus.old)).registers }
    ensures cp { cp.new ≡ (step9_of B.memory line s.old cp.old (B.state bus.old)).cp }
    ensures state { B.state bus.new ≡ (step9_of B.memory line s.old cp.old (B.state bus.old)).state }
    ensures stepped { result ≡ (step9_of B.memory line s.old cp.old (B.state bus.old)).stepped }
    ensures same { B.identity bus.new ≡ B.identity bus.old }
{
    if enters(s, line) {
        return Stepped::Cost(interrupt(Arch::V5, s, cp.vectors()));
    }
    let fetched = fetch(Arch::V5, s, bus);
    execute(s, cp, bus, fetched)
}

/// A step of ARM9: the entry of the interrupt where its line is up and I is clear, and otherwise the instruction at r15, by its meaning on
/// ARMv5. It answers its cost in ticks, with a halt where it wrote the wait for an interrupt (c7,c0,4), or the stop for which it needs what
/// is left out: a write that the bus refused, big-endian mode, or a SWI whose number the boot ROM hasn't. Then the core and CP15 are as they
/// were, and the accesses before the refused one stand. Where CPSR and each SPSR have no bits but those that ARMv5 keeps, and CP15 keeps words, this
/// stays so.
#[inline]
pub fn step9<B: Bus>(core: &mut Core, cp: &mut Cp15, bus: &mut B, line: bool) -> Stepped
    ensures core { core.new ≡ record core.old { registers = (step9_of B.memory line core.old.registers cp.old (B.state bus.old)).registers } }
    ensures cp { cp.new ≡ (step9_of B.memory line core.old.registers cp.old (B.state bus.old)).cp }
    ensures state { B.state bus.new ≡ (step9_of B.memory line core.old.registers cp.old (B.state bus.old)).state }
    ensures stepped { result ≡ (step9_of B.memory line core.old.registers cp.old (B.state bus.old)).stepped }
    ensures same { B.identity bus.new ≡ B.identity bus.old }
    ensures left { KeepsBothWhereStopped core.old.registers cp.old result core.new.registers cp.new }
    ensures halted { ends_halted result ≡ step_waits B.memory line core.old.registers (B.state bus.old) }
    ensures statuses { HasNineStatuses core.old.registers cp.old → HasNineStatuses core.new.registers cp.new }
{
    step(&mut core.registers, cp, bus, line)
}
