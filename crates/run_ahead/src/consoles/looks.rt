//! What somebody sees of a console who looks on from outside.

ghost use Rattle.std.specs.Prelude.{◌≡◌, ◌<◌};
ghost use Rattle.ds_runs.specs.Runs.{due_at};
ghost use Rattle.ds_machine.specs.Looks.{cpsr_of, IsReached, pc_of};
ghost use Rattle.ds_machine.specs.Reference.{dues_of};
ghost use Rattle.ds_machine.specs.Steps.{is_halted, processor_of};
ghost use Rattle.run_ahead.specs.Looks.{looked_in};

use super::Console;
use arm_core::Reach;
use ds_base::{Proc, Tick, Width};

impl Console {
    /// What a processor would read at an address, at the tick up to which the console was run: the value that its read gives there, by its own map,
    /// aligned down to the width. Nothing is read, so that a port's word isn't taken. None where the address names no place.
    pub fn looked(&self, proc: Proc, at: u32, width: Width) -> Option<u32>
        ensures { result ≡ looked_in self.now proc at width }
    {
        self.machine.looked(proc, Tick(self.limit), at, width)
    }

    /// What a processor's next step reaches as data: exactly the bytes of its accesses, and whether they are read, written or both; no byte where its
    /// condition fails. None where it executes no instruction: it isn't due, enters an interrupt, or fetches none.
    pub fn reached(&self, proc: Proc) -> Option<Reach>
        ensures { IsReached self.now.machine proc result }
    {
        self.machine.reached(proc)
    }

    /// The address of a processor's next instruction.
    #[inline(always)]
    pub fn pc(&self, proc: Proc) -> u32
        ensures { result ≡ pc_of self.now.machine proc }
    {
        self.machine.pc(proc)
    }

    /// A processor's CPSR.
    #[inline(always)]
    pub fn cpsr(&self, proc: Proc) -> u32
        ensures { result ≡ cpsr_of self.now.machine proc }
    {
        self.machine.cpsr(proc)
    }

    /// Whether a processor is halted.
    #[inline(always)]
    pub fn is_halted(&self, proc: Proc) -> bool
        ensures { result ≡ is_halted self.now.machine proc }
    {
        self.machine.is_halted(proc)
    }

    /// When the actor of a rank is due, if it is.
    pub fn due_of(&self, rank: u8) -> Option<Tick>
        requires { rank < 24 }
        ensures { result ≡ due_at (dues_of self.now.machine) rank }
    {
        self.machine.due_of(rank)
    }

    /// How many steps a processor took.
    #[inline(always)]
    pub fn steps(&self, proc: Proc) -> u64
        ensures { result ≡ (processor_of self.now.machine proc).steps }
    {
        self.machine.steps(proc)
    }
}
