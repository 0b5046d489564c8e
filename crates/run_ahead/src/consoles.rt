//! The console.

ghost use Rattle.std.specs.Prelude.{max, ◌≡◌, ◌≢◌, ◌≤◌, ◌<◌, ◌+◌, ◌*◌, ◌^◌, false, true, None, Some, slice_index, IfOk, IfSome, IsSome, length};
ghost use Rattle.ds_base.specs.Memories.{memory_size};
ghost use Rattle.ds_machine.specs.Acting.{IsActing};
ghost use Rattle.ds_machine.specs.Booted.{machine_booted};
ghost use Rattle.ds_machine.specs.Frames.{framed_of};
ghost use Rattle.ds_machine.specs.FrameLaws.{FollowFrames, FollowLists};
ghost use Rattle.gx_fifo.specs.Entries.{most_entries};
ghost use Rattle.ds_machine.specs.Inspections.{memory_of, registers_of, seen_of};
ghost use Rattle.ds_ipc.specs.Ipcs.{AreSides};
ghost use Rattle.ds_machine.specs.Sound.{HasSoundParts, IsSound};
ghost use Rattle.ds_machine.specs.StepAnswers.{IsDue};
ghost use Rattle.ds_machine.specs.Statuses.{HasBothStatuses};
ghost use Rattle.ds_machine.specs.TurnLaws.{HasEnds};
ghost use Rattle.ds_machine.specs.WithinLaws.{IsWithinTick};
ghost use Rattle.run_ahead.specs.Consoles.{AreWithin};
ghost use Rattle.run_ahead.specs.Inside.{AreAtOnce, IsAtOnce, raised};
ghost use Rattle.run_ahead.specs.Turns.{Turns, counted_of};
ghost use Rattle.run_ahead.specs.TurnLaws.{TurnsUpTo, RunsOn, HasRuns, turns_remaining, shown_in};
ghost use Rattle.ds_base.specs.declared.left_out.LeftOut.{LeftOut};
ghost use Rattle.run_ahead.specs.declared.turns.Turned.TheVariants.{Ran, Stopped};

mod looks;
mod saved;

use crate::machine_turns::{first_processor, is_over, take_stretch_of, take_turn};
use crate::turns::Turned;
use ds_base::{Due, Keys, LeftOut, Memory, Proc, Tick, known};
use ds_header::Cart;
use ds_machine::{Done, Ends, First, Machine, Seen, time_laws};
use gx_geometry::Lists;
pub use saved::state_laws;
use std::alloc::{AllocError, Global};
use std::marker::Model;

/// How many steps a console took, by who took them, and how many of its turns counted.
#[derive(Clone, Copy, PartialEq, Eq)]
pub struct Counts {
    /// Steps of ARM9.
    pub nine: u64,
    /// Steps of ARM7.
    pub seven: u64,
    /// Steps of all other actors.
    pub events: u64,
    /// Turns that took a step and didn't stop.
    pub turns: u64,
}

/// A console. No call but `turn` and `run_on`, which is turns alone, changes it.
#[derive(Drop)]
pub struct Console {
    machine: Machine,
    limit: u64,
    stopped: Option<LeftOut>,
    open_until: u64,
    turns: u64,
}

impl Model for Console {
    ghost use Rattle.run_ahead.specs.Consoles.{ConsoleState, open_of};
    ghost use Rattle.ds_machine.specs.Booted.{machine_booted};
    ghost use Rattle.ds_machine.specs.CountingLaws.{IsRunning};
    ghost use Rattle.ds_machine.specs.States.{counts_of};
    ghost use Rattle.std.specs.Prelude.{◌≡◌, ◌≤◌, ◌*◌, ◌^◌, None};

    ghost Value = { ConsoleState };

    ghost view = { λ c. record { machine = c.machine; limit = c.limit; stopped = c.stopped; turns = c.turns } };

    // there were at most 24 steps for each tick below its limit; a turn whose limit isn't above the open one neither raises its limit nor comes after
    // a stop; unless it stopped its machine goes on, by that limit; and each turn that counts took a step
    ghost invariant = { λ c. (counts_of c.machine ≤ 24 * c.limit) × (c.limit ≤ 2 ^ 56) × (c.open_until ≡ open_of c.limit c.stopped)
        × (c.stopped ≡ None → IsRunning c.limit c.machine) × (c.turns ≤ counts_of c.machine) };
}

impl Console {
    /// A console that is switched on with a cartridge and a key script, and hasn't run. All memory of a run is taken here. What its machine keeps of
    /// times is as after a run to tick 0.
    pub fn new(alloc: Global, cart: Cart, keys: Keys) -> Result<Console, AllocError>
        ensures booted { IfOk result (λ console. console ≡ record { machine = machine_booted cart keys; limit = 0; stopped = None; turns = 0 }) }
        ensures within { IfOk result (λ console. IsWithinTick 0 console.machine) }
        ensures parts { IfOk result (λ console. HasSoundParts console.machine) }
    {
        known!(time_laws());
        let mut machine = Machine::new(alloc, &cart, keys)?;
        machine.insert(cart);
        Ok(Console {
            machine,
            limit: 0,
            stopped: None,
            open_until: 0,
            turns: 0,
        })
    }

    /// One turn: nothing where no actor is due below the limit; where quiet geometry alone is, all its steps below the limit; and otherwise the step
    /// of the first actor that acts, as quiet geometry doesn't, and where that is a processor then the longest run of its further steps that belong
    /// to the turn: each is due below the limit, and is the least acting one or may be taken before its turn. Before a step that observes geometry,
    /// geometry catches up. After a stop every turn answers the same and changes nothing. The frame that a turn made whole is the last whole one
    /// after it, and every other turn leaves the last whole one as it was; and so it is with the geometry lists that were swapped there. A turn that
    /// takes a step and doesn't stop counts, and fewer such turns are left below the limit.
    #[inline(never)]
    pub fn turn(&mut self, until: Tick) -> Turned
        requires { until.0 ≤ 2 ^ 56 }
        ensures turn { Turns until.0 self.old result self.new }
        ensures runs { self.old.stopped ≡ None → RunsOn until.0 self.old.machine result self.new.machine }
        ensures frames { FollowFrames self.old.machine self.new.machine (shown_in result self.old.machine self.new.machine) }
        ensures lists { FollowLists self.old.machine self.new.machine (shown_in result self.old.machine self.new.machine) }
        ensures counted { self.new.turns ≡ counted_of result + self.old.turns }
        ensures falls { counted_of result ≡ 1 → turns_remaining until.0 self.new.machine < turns_remaining until.0 self.old.machine }
    {
        known!(self.laws());
        self.step(until)
    }

    /// Turns up to one that answers anything but that it ran, whose answer this is: it made a frame whole, or no actor is due below the limit, or the
    /// console has stopped. The loop over turns stands here alone: who runs a console calls this, and comes back where there is something to look at.
    #[inline(never)]
    pub fn run_on(&mut self, until: Tick) -> Turned
        requires { until.0 ≤ 2 ^ 56 }
        ensures turns { TurnsUpTo until.0 self.old result self.new }
        ensures other { result ≢ Ran }
        ensures falls { counted_of result ≡ 1 → turns_remaining until.0 self.new.machine < turns_remaining until.0 self.old.machine }
    {
        self.raise(until);
        let mut ends = self.ends(until);
        'run: loop {
            known!(self.laws());
            if let Some(first) = ends.first() {
                if self.take_at_once(&mut ends, first, until) {
                    return self.stop_answer();
                }
                continue 'run;
            }
            match self.turn(until) {
                Turned::Ran => ends = self.ends(until),
                answer => return answer,
            }
        }
    }

    /// Does nothing; its contract states what holds of every console's machine: each unit's numbers are those that it can have, and the lines of the
    /// key script that are to come rise; unless the console has stopped no halted processor is to wake, and the units behind the ports are settled;
    /// neither FIFO between the processors holds more than 16 words, each of 32 bits; CPSR and each SPSR of both processors have no bits but those
    /// that are kept; no more than 324 entries wait for geometry, whose open lists and those of the last swap have at most 6,144 vertices and 2,048
    /// polygons; and no more turns counted than 24 times the limit.
    pub fn laws(&self)
        ensures parts { HasSoundParts self.now.machine }
        ensures sound { self.now.stopped ≡ None → IsSound self.now.machine }
        ensures ipc { AreSides self.now.machine.io.ipc }
        ensures statuses { HasBothStatuses self.now.machine }
        ensures entries { length self.now.machine.io.gx.fifo.entries ≤ most_entries }
        ensures open { AreWithin self.now.machine.io.gx.geometry.outcome.vertices self.now.machine.io.gx.geometry.outcome.polygons }
        ensures last { AreWithin self.now.machine.io.gx.geometry.last.vertices self.now.machine.io.gx.geometry.last.polygons }
        ensures turns { self.now.turns ≤ 24 * self.now.limit }
    {
        known!(self.machine.laws());
    }

    /// Raises the limit to that of a turn, as the first turn with it does, unless the console has stopped: so that one may be taken at once.
    #[inline(always)]
    fn raise(&mut self, until: Tick)
        requires { until.0 ≤ 2 ^ 56 }
        ensures { self.new ≡ raised until.0 self.old }
    {
        if self.stopped.is_none() {
            self.limit = self.limit.max(until.0);
            self.open_until = self.limit;
        }
    }

    /// By these the processor is found whose turn can be taken at once: it is known to be the least acting actor, and its turn raises no limit.
    #[inline(always)]
    fn ends(&self, until: Tick) -> Ends
        ensures { AreAtOnce until.0 self.now result }
    {
        let most = self.open_until;
        let ends = self.machine.ends(until);
        if until.0 > most {
            return Ends {
                end: 0,
                nine: ends.nine,
                seven: ends.seven,
            };
        }
        ends
    }

    /// The turn of such a processor, on the fast path, which has one caller. The answer is whether it stopped: the stop itself would be moved at each
    /// turn.
    #[inline(always)]
    fn take_at_once(&mut self, ends: &mut Ends, first: First, until: Tick) -> bool
        requires early { until.0 ≤ 2 ^ 56 }
        requires first { IsAtOnce until.0 self.old first }
        requires ends { HasEnds until.0 self.old.machine ends.old }
        ensures ran { result ≡ false → Turns until.0 self.old Ran self.new }
        ensures stopped { result ≡ true → (left : LeftOut) × (self.new.stopped ≡ Some left) × Turns until.0 self.old (Stopped left) self.new }
        ensures ends { result ≡ false → AreAtOnce until.0 self.new ends.new }
    {
        if take_stretch_of(&mut self.machine, &mut self.stopped, ends, first, until) {
            self.open_until = 0;
            return true;
        }
        self.turns += 1;
        false
    }

    /// What a console answers that has stopped.
    #[inline(never)]
    fn stop_answer(&self) -> Turned
        requires { IsSome self.now.stopped }
        ensures { (left : LeftOut) → self.now.stopped ≡ Some left → result ≡ Stopped left }
    {
        match self.stopped {
            Some(left) => Turned::Stopped(left),
            None => unreachable!(),
        }
    }

    /// A turn of any kind.
    #[inline(never)]
    fn step(&mut self, until: Tick) -> Turned
        requires { until.0 ≤ 2 ^ 56 }
        ensures { Turns until.0 self.old result self.new }
    {
        if let Some(left) = self.stopped {
            return Turned::Stopped(left);
        }
        self.limit = self.limit.max(until.0);
        self.open_until = self.limit;
        if is_over(&self.machine, until) {
            return Turned::AtEnd;
        }
        let acting = self.machine.acting();
        if until.0 <= acting.tick.0 && !self.machine.is_behind(until, 0) {
            return Turned::AtEnd;
        }
        // what it stops at is kept before anything else is called: a machine that stopped may have a halted processor that is to wake
        match take_turn(&mut self.machine, acting, until) {
            Done::Made => {
                self.turns += 1;
                Turned::Ran
            }
            Done::Frame { swapped } => {
                self.turns += 1;
                Turned::Frame { swapped }
            }
            Done::Stopped(left) => {
                self.stopped = Some(left);
                self.open_until = 0;
                Turned::Stopped(left)
            }
        }
    }

    /// The actor that is due first, and when: quiet geometry too, which doesn't act.
    pub fn due(&self) -> Due
        ensures { IsDue self.now.machine result }
    {
        self.machine.due()
    }

    /// The actor that acts next, and when: the least of all that are due but quiet geometry. A processor is mostly found at once.
    #[inline(always)]
    pub fn acting(&self) -> Due
        ensures { IsActing self.now.machine result }
    {
        match first_processor(&self.machine) {
            Some(first) => first,
            None => self.machine.acting(),
        }
    }

    /// Does nothing; its contract states that the reference run goes on from this machine to every limit.
    pub fn has_runs(&self)
        ensures { HasRuns self.now.machine }
    {
        known!(self.laws());
    }

    /// What a processor does next.
    pub fn seen(&self, proc: Proc) -> Seen
        ensures { result ≡ seen_of self.now.machine proc }
    {
        self.machine.seen(proc)
    }

    /// A memory's bytes, from where they lie: 4 MiB at most.
    pub fn bytes(&self, memory: Memory) -> &[u8]
        ensures value { result.now ≡ memory_of self.now.machine memory }
        ensures most { length result.now ≤ 0x400000 }
    {
        self.machine.bytes(memory)
    }

    /// The byte of a memory at a place.
    pub fn byte_of(&self, memory: Memory, at: u32) -> u8
        requires { at < memory_size memory }
        ensures { result ≡ slice_index (memory_of self.now.machine memory) at }
    {
        self.machine.byte_of(memory, at)
    }

    /// The last whole frame: 98,304 pixels, line by line, the upper screen's first; all 0 before the first one. Red, green and blue stand in
    /// bits 0 to 4, 5 to 9 and 10 to 14.
    pub fn frame(&self) -> &[u16]
        ensures value { result.now ≡ self.now.machine.io.video.whole }
        ensures long { length result.now ≡ 98304 }
    {
        self.machine.frame()
    }

    /// When the last whole frame became so: at the start of its line 192. None exactly where none is whole yet.
    pub fn framed(&self) -> Option<Tick>
        ensures { result ≡ framed_of self.now.machine }
    {
        self.machine.framed()
    }

    /// The geometry lists of the last swap; before the first one they are empty, and their tick is 0.
    pub fn lists(&self) -> &Lists
        ensures { result.now ≡ self.now.machine.io.gx.geometry.last }
    {
        self.machine.lists()
    }

    /// A processor's registers, in the order in which they are written out.
    pub fn registers(&self, proc: Proc) -> [u32; 37]
        ensures { result ≡ registers_of self.now.machine proc }
    {
        self.machine.registers(proc)
    }

    /// The greatest limit of the turns so far, up to the first that answered a stop; 0 at first.
    pub fn limit(&self) -> Tick
        ensures limit { result.0 ≡ self.now.limit }
        ensures range { result.0 ≤ 2 ^ 56 }
    {
        Tick(self.limit)
    }

    /// How many steps there were: they add up to at most 24 times the limit. And how many turns counted: no more than steps.
    pub fn counts(&self) -> Counts
        ensures nine { result.nine ≡ self.now.machine.nine.processor.steps }
        ensures seven { result.seven ≡ self.now.machine.seven.processor.steps }
        ensures events { result.events ≡ self.now.machine.events }
        ensures turns { result.turns ≡ self.now.turns }
        ensures bound { result.nine + result.seven + result.events ≤ 24 * self.now.limit }
        ensures fewer { result.turns ≤ result.nine + result.seven + result.events }
    {
        Counts {
            nine: self.machine.steps(Proc::Nine),
            seven: self.machine.steps(Proc::Seven),
            events: self.machine.events(),
            turns: self.turns,
        }
    }
}
