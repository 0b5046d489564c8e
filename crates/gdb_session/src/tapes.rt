//! The console with its past.

ghost use Rattle.std.specs.Prelude.{◌≡◌, ◌<◌, ◌≤◌, true, IfOk};
ghost use Rattle.ds_machine.specs.Booted.{machine_booted};
ghost use Rattle.ds_machine.specs.Private.{rank_of};
ghost use Rattle.gdb_session.specs.Tapes.{ComesFromBoot, boot_of};

use crate::decks::{Deck, Stepped};
use crate::runs::{
    MOST_TICK, copy_keys, is_over, run_console, save_console, step_all_of, step_console,
};
use crate::saves::Saves;
use arm_core::Reach;
use ds_base::{Due, Keys, Proc, Tick, Width, known};
use ds_header::Cart;
use ds_machine::time_laws;
use ds_runs::ranks;
use run_ahead::{Console, turn_laws};
use sha2::{Digest, Sha256};
use std::alloc::{AllocError, Global};
use std::marker::Model;

/// A console, what was kept of its past, and what it takes to go there.
#[derive(Drop)]
pub struct Tape {
    alloc: Global,
    console: Console,
    keys: Keys,
    digest: [u8; 32],
    saves: Saves,
}

impl Model for Tape {
    ghost use Rattle.ds_machine.specs.Booted.{machine_booted};
    ghost use Rattle.gdb_session.specs.Tapes.{IsOfOneRun, TapeState};

    ghost Value = { TapeState };

    ghost view = { λ t. record { console = t.console; keys = t.keys } };

    ghost invariant = { λ t. IsOfOneRun (machine_booted t.console.machine.file t.keys) t.keys t.digest t.console t.saves.all.items };
}

impl Tape {
    /// A console that is switched on with a cartridge and a key script, at tick 0. The error is want of memory.
    pub fn new(alloc: Global, cart: Cart, keys: Keys) -> Result<Tape, AllocError>
        ensures { IfOk result (λ tape. boot_of tape ≡ machine_booted cart keys) }
    {
        known!(time_laws());
        let digest = Sha256::digest(cart.bytes());
        let script = copy_keys(alloc, &keys)?;
        let console = Console::new(alloc, cart, keys)?;
        known!(console.laws());
        let mut tape = Tape {
            alloc,
            console,
            keys: script,
            digest,
            saves: Saves::new(alloc),
        };
        tape.keep();
        Ok(tape)
    }

    /// How much work was done.
    fn work(&self) -> u64 {
        let counts = self.console.counts();
        counts
            .nine
            .saturating_add(counts.seven)
            .saturating_add(counts.events)
    }

    /// Becomes the last state that is kept and isn't after a tick.
    fn take(&mut self, at: u64) -> bool
        ensures boot { boot_of self.new ≡ boot_of self.old }
        ensures early { result ≡ true → self.new.console.limit ≤ at }
    {
        let Ok(keys) = copy_keys(self.alloc, &self.keys) else {
            return false;
        };
        let Some(save) = self.saves.before(at) else {
            return false;
        };
        let bytes = save.bytes.as_slice();
        if save.at >= MOST_TICK || bytes.len() > 0xffff_ffff {
            return false;
        }
        let until = Tick(save.at + 1);
        match self
            .console
            .go_back(self.alloc, keys, &self.digest, bytes, until)
        {
            Ok(()) => true,
            Err(_) => false,
        }
    }

    /// Comes to a tick from which the run goes on to another: stays, where that isn't behind, or takes a state that is kept.
    fn come_before(&mut self, at: u64) -> bool
        ensures boot { boot_of self.new ≡ boot_of self.old }
        ensures early { result ≡ true → self.new.console.limit ≤ at }
    {
        if self.console.limit().0 <= at && is_over(&self.console) {
            return true;
        }
        self.take(at)
    }

    /// Does nothing; its contract states that the console came by turns from the boot with its cartridge and the key script: so it is the reference
    /// run's, whatever was asked of the tape, forward or back.
    pub fn laws(&self)
        ensures { ComesFromBoot (boot_of self.now) self.now.console }
    {
        let _ = &self.console;
    }
}

impl Deck for Tape {
    ghost boot = { boot_of };

    ghost console = { λ t. t.console };

    fn now(&self) -> Tick {
        self.console.limit()
    }

    fn next(&self) -> Due {
        self.console.acting()
    }

    fn pc(&self, proc: Proc) -> u32 {
        self.console.pc(proc)
    }

    fn cpsr(&self, proc: Proc) -> u32 {
        self.console.cpsr(proc)
    }

    fn steps(&self, proc: Proc) -> u64 {
        self.console.steps(proc)
    }

    fn events(&self) -> u64 {
        self.console.counts().events
    }

    fn is_due(&self, proc: Proc, at: Tick) -> bool {
        match self.console.due_of(rank(proc)) {
            Some(due) => due.0 == at.0,
            None => false,
        }
    }

    fn is_halted(&self, proc: Proc) -> bool {
        self.console.is_halted(proc)
    }

    fn runs(&self, proc: Proc) -> bool {
        self.console.due_of(rank(proc)).is_some()
    }

    fn registers(&self, proc: Proc) -> [u32; 37] {
        self.console.registers(proc)
    }

    fn looked(&self, proc: Proc, at: u32, width: Width) -> Option<u32> {
        self.console.looked(proc, at, width)
    }

    fn reached(&self, proc: Proc) -> Option<Reach> {
        self.console.reached(proc)
    }

    fn step_all(&mut self, at: Tick) -> Stepped {
        step_all_of(&mut self.console, at)
    }

    fn step(&mut self, at: Tick) -> Stepped {
        step_console(&mut self.console, at)
    }

    fn run_to(&mut self, until: Tick) -> Stepped {
        run_console(&mut self.console, until)
    }

    fn go_to(&mut self, at: Tick) -> bool {
        if at.0 > MOST_TICK || !self.come_before(at.0) {
            return false;
        }
        match self.run_to(at) {
            Stepped::Taken => true,
            Stepped::Left(_) => false,
        }
    }

    fn keep(&mut self) {
        let at = self.now().0;
        let work = self.work();
        if !self.saves.wants(at, work) {
            return;
        }
        let Some(bytes) = save_console(self.alloc, &mut self.console, &self.digest) else {
            return;
        };
        known!(turn_laws());
        known!(time_laws());
        let at = self.console.limit().0;
        let _ = self.saves.push(at, work, bytes);
    }

    fn kept(&self) -> u64 {
        self.saves.len() as u64
    }

    fn state(&mut self) -> Option<Vec<u8>> {
        save_console(self.alloc, &mut self.console, &self.digest)
    }

    fn framed(&self) -> Option<Tick> {
        self.console.framed()
    }

    fn frame(&self) -> &[u16] {
        self.console.frame()
    }
}

/// A processor's rank among the actors.
fn rank(proc: Proc) -> u8
    ensures value { result ≡ rank_of proc }
    ensures few { result < 24 }
{
    match proc {
        Proc::Nine => ranks::ARM9,
        Proc::Seven => ranks::ARM7,
    }
}
