//! What a session looks at and moves: a machine with its past.

ghost use Rattle.std.specs.Prelude.{◌≡◌, ◌≤◌, ◌^◌, ◌==◌, false, true, is_some};
ghost use Rattle.std.specs.Option.{option_map_or};
ghost use Rattle.ds_runs.specs.Runs.{due_at};
ghost use Rattle.ds_machine.specs.Acting.{IsActing};
ghost use Rattle.ds_machine.specs.Frames.{framed_of};
ghost use Rattle.ds_machine.specs.Inspections.{registers_of};
ghost use Rattle.ds_machine.specs.Looks.{cpsr_of, IsReached, pc_of};
ghost use Rattle.ds_machine.specs.Private.{rank_of};
ghost use Rattle.ds_machine.specs.Reference.{dues_of};
ghost use Rattle.ds_machine.specs.States.{MachineState};
ghost use Rattle.ds_machine.specs.Steps.{is_halted, processor_of};
ghost use Rattle.run_ahead.specs.Consoles.{ConsoleState};
ghost use Rattle.run_ahead.specs.Looks.{looked_in};
ghost use Rattle.gdb_session.specs.declared.decks.Stepped.TheVariants.{Taken};
ghost use Rattle.gdb_session.specs.Tapes.{ComesFrom, HasRunTo, StandsAt};

use arm_core::Reach;
use ds_base::{Due, LeftOut, Proc, Tick, Width};

/// What one step came to.
#[derive(Clone, Copy, PartialEq, Eq)]
pub enum Stepped {
    /// It was taken.
    Taken,
    /// It needs what is left out.
    Left(LeftOut),
}

/// A machine that goes forward and back. Each place in its time is a tick: all steps below it are taken, and none at it or later. (Our choice.)
pub trait Deck {
    /// The machine at the boot from which it came.
    ghost boot: { Self → MachineState };

    /// The console that is looked at.
    ghost console: { Self → ConsoleState };

    /// The tick up to which it was run: once it was run to a tick, its place in time.
    fn now(&self) -> Tick
        ensures { result.0 ≡ (console self.now).limit };

    /// The actor that acts next, and when.
    fn next(&self) -> Due
        ensures { IsActing (console self.now).machine result };

    /// The address of a processor's next instruction.
    fn pc(&self, proc: Proc) -> u32
        ensures { result ≡ pc_of (console self.now).machine proc };

    /// A processor's CPSR.
    fn cpsr(&self, proc: Proc) -> u32
        ensures { result ≡ cpsr_of (console self.now).machine proc };

    /// How many steps a processor took.
    fn steps(&self, proc: Proc) -> u64
        ensures { result ≡ (processor_of (console self.now).machine proc).steps };

    /// How many steps other actors took.
    fn events(&self) -> u64
        ensures { result ≡ (console self.now).machine.events };

    /// Whether a processor's next step is at a tick.
    fn is_due(&self, proc: Proc, at: Tick) -> bool
        ensures { result ≡ option_map_or (λ due. due.0 == at.0) (due_at (dues_of (console self.now).machine) (rank_of proc)) false };

    /// Whether a processor is halted.
    fn is_halted(&self, proc: Proc) -> bool
        ensures { result ≡ is_halted (console self.now).machine proc };

    /// Whether a processor waits neither for an interrupt nor for another actor.
    fn runs(&self, proc: Proc) -> bool
        ensures { result ≡ is_some (due_at (dues_of (console self.now).machine) (rank_of proc)) };

    /// All registers of a processor: r0 to r12; r8 to r12 of FIQ; r13 and r14 of System, FIQ, Supervisor, Abort, IRQ, Undefined; r15; CPSR; SPSR of
    /// FIQ, Supervisor, Abort, IRQ, Undefined.
    fn registers(&self, proc: Proc) -> [u32; 37]
        ensures { result ≡ registers_of (console self.now).machine proc };

    /// What a processor would read at an address.
    fn looked(&self, proc: Proc, at: u32, width: Width) -> Option<u32>
        ensures { result ≡ looked_in (console self.now) proc at width };

    /// What a processor's next step reaches as data; None where it executes no instruction.
    fn reached(&self, proc: Proc) -> Option<Reach>
        ensures { IsReached (console self.now).machine proc result };

    /// The step of the actor that acts next, at its tick, which is told. Where it is left out, the deck has to go back before it goes on.
    fn step(&mut self, at: Tick) -> Stepped
        ensures boot { boot self.new ≡ boot self.old }
        ensures comes { ComesFrom (console self.old) (console self.new) };

    /// The steps of all actors at the tick at which the next one acts, which is told.
    fn step_all(&mut self, at: Tick) -> Stepped
        ensures boot { boot self.new ≡ boot self.old }
        ensures comes { ComesFrom (console self.old) (console self.new) };

    /// Goes on to a tick, which is its place in time then; or comes to a step that needs what is left out.
    fn run_to(&mut self, until: Tick) -> Stepped
        ensures boot { boot self.new ≡ boot self.old }
        ensures comes { ComesFrom (console self.old) (console self.new) }
        ensures taken { result ≡ Taken → until.0 ≤ 2 ^ 56 → HasRunTo until.0 (console self.old) (console self.new) };

    /// Goes to a tick at which it was before, or on to one; false for want of memory, where a step on the way is left out, and past the last tick.
    fn go_to(&mut self, at: Tick) -> bool
        ensures boot { boot self.new ≡ boot self.old }
        ensures stands { result ≡ true → StandsAt at.0 (console self.new) };

    /// Keeps its state for the ways back, where work was done since the last one that is kept.
    fn keep(&mut self)
        ensures boot { boot self.new ≡ boot self.old }
        ensures comes { ComesFrom (console self.old) (console self.new) };

    /// How many states are kept.
    fn kept(&self) -> u64;

    /// The state in bytes, as the program `nds` saves it; None for want of memory.
    fn state(&mut self) -> Option<Vec<u8>>
        ensures boot { boot self.new ≡ boot self.old }
        ensures comes { ComesFrom (console self.old) (console self.new) };

    /// When the last whole frame became so.
    fn framed(&self) -> Option<Tick>
        ensures { result ≡ framed_of (console self.now).machine };

    /// The last whole frame: 98,304 pixels, line by line, the upper screen's first.
    fn frame(&self) -> &[u16]
        ensures { result.now ≡ (console self.now).machine.io.video.whole };
}
