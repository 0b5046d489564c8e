//! What somebody sees of a machine who looks on from outside.

ghost use Rattle.std.specs.Prelude.{◌≡◌};
ghost use Rattle.ds_machine.specs.Looks.{cpsr_of, IsReached, looked_of, pc_of};
ghost use Rattle.ds_machine.specs.Steps.{is_halted};

use super::Machine;
use crate::parts::Parts;
use arm_core::Reach;
use arm_exec::enters;
use ds_base::{Proc, Tick, Width};
use ds_map::looked_by_nine;

impl Parts {
    /// What a processor would read at an address at a tick, where anything answers there.
    fn looked(&self, proc: Proc, now: Tick, at: u32, width: Width) -> Option<u32>
        ensures { result ≡ looked_of self.now proc now at width }
    {
        match proc {
            Proc::Nine => {
                let nine = &self.nine;
                looked_by_nine(
                    &nine.cp15, &self.map, &self.io, &nine.itcm, &nine.dtcm, now, at, width,
                )
            }
            Proc::Seven => self.map.look(&self.io, Proc::Seven, now, at, width),
        }
    }
}

impl Machine {
    /// What a processor would read at an address at a tick: the value that its read gives there, by its own map, aligned down to the width. Nothing
    /// is read, so that a port's word isn't taken. None where the address names no place.
    pub fn looked(&self, proc: Proc, now: Tick, at: u32, width: Width) -> Option<u32>
        ensures { result ≡ looked_of self.now proc now at width }
    {
        self.parts.looked(proc, now, at, width)
    }

    /// What a processor's next step reaches as data: exactly the bytes of its accesses, and whether they are read, written or both; no byte where its
    /// condition fails. None where it executes no instruction: it isn't due, enters an interrupt, or fetches none.
    pub fn reached(&self, proc: Proc) -> Option<Reach>
        ensures { IsReached self.now proc result }
    {
        let registers = &self.parts.processor(proc).core.registers;
        if self.parts.is_blocked(proc) || enters(registers, self.parts.line(proc)) {
            return None;
        }
        match self.parts.next_instr(proc) {
            Some(instr) => Some(self.parts.footprint_of(proc, &instr)),
            None => None,
        }
    }

    /// The address of a processor's next instruction.
    #[inline(always)]
    pub fn pc(&self, proc: Proc) -> u32
        ensures { result ≡ pc_of self.now proc }
    {
        self.parts.processor(proc).core.registers.pc()
    }

    /// A processor's CPSR.
    #[inline(always)]
    pub fn cpsr(&self, proc: Proc) -> u32
        ensures { result ≡ cpsr_of self.now proc }
    {
        self.parts.processor(proc).core.registers.cpsr()
    }

    /// Whether a processor is halted.
    #[inline(always)]
    pub fn is_halted(&self, proc: Proc) -> bool
        ensures { result ≡ is_halted self.now proc }
    {
        self.parts.io.processor(proc).is_halted()
    }
}
