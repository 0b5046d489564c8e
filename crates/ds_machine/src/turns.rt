//! The step of the actor that is due, and those of the processors.

ghost use Rattle.std.specs.Prelude.{◌≡◌, ◌<◌, ◌≤◌, ◌+◌, ◌*◌, ◌^◌, Some, None, true};
ghost use Rattle.arm_core.specs.declared.outcomes.Stepped.TheVariants.{Cost};
ghost use Rattle.ds_base.specs.declared.processors.Proc.{Proc};
ghost use Rattle.ds_runs.specs.Actors.{IsNumbered};
ghost use Rattle.ds_runs.specs.declared.actors.Actor.TheVariants.{Geometry, Processor};
ghost use Rattle.ds_machine.specs.TurnLaws.{MayStep};
ghost use Rattle.ds_machine.specs.GuardedSteps.{IsFreeFor};
ghost use Rattle.ds_machine.specs.Processors.{stop_in};
ghost use Rattle.ds_machine.specs.Reference.{awake, due_by, step_by};
ghost use Rattle.ds_machine.specs.States.{with_file};
ghost use Rattle.ds_machine.specs.Private as private;
ghost use Rattle.ds_machine.specs.StepAnswers.{done_of, stepped_of, Steps};
ghost use Rattle.ds_machine.specs.CountingLaws.{last_limit, IsRunning};
ghost use Rattle.ds_machine.specs.Touching.{DataStaysNear, DataStaysPrivate};
ghost use Rattle.ds_base.specs.Processors.{ticks_per_clock};
ghost use Rattle.ds_machine.specs.Steps.{in_ticks, machine_concluded, goes_on, gone_by, is_halted, line_of, due_past_unit, outcome_of, processor_of, wakes, went_on, with_processor, woken, woken_one, ended};

use crate::answers::Done;
use crate::fences::rank_of;
use crate::parts::{Parts, bytes_in};
use crate::processors::{past_unit, ticks_of};
use crate::steps::{Came, Fast, take_fast_in_view, take_in_view};
use arm_core::Stepped;
use arm_ops::Runner;
use ds_base::{LeftOut, Proc, Stop, Tick, known};
use ds_map::{NineView, SevenView};
use ds_runs::Actor;

/// What a step that makes no frame whole came to, by its stop, if it stopped the machine.
#[inline(always)]
fn done_of(stop: Option<LeftOut>) -> Done
    ensures { result ≡ done_of stop }
{
    match stop {
        Some(left) => Done::Stopped(left),
        None => Done::Made,
    }
}

impl Parts {
    /// The step of the least actor, or of the least acting one, where its step doesn't observe geometry, or of a processor that may step before its
    /// turn, on a machine that goes on, with a cartridge's file.
    #[inline(always)]
    pub fn step_actor(&mut self, file: &[u8], rank: u8) -> Done
        requires may { MayStep (with_file file.now self.old) rank }
        requires running { IsRunning last_limit (with_file file.now self.old) }
        ensures { Steps rank (with_file file.now self.old) result (with_file file.now self.new) }
    {
        let actor = Actor::of(rank);
        match self.due_by(actor) {
            Some(tick) => self.step_at(file, rank, actor, tick),
            None => Done::Made,
        }
    }

    /// The same step with the cartridge that was inserted.
    #[inline(always)]
    pub fn step_inserted(&mut self, rank: u8) -> Done
        requires may { MayStep self.old rank }
        requires running { IsRunning last_limit self.old }
        ensures { Steps rank self.old result self.new }
    {
        let slot = self.slot.take();
        let done = self.step_actor(bytes_in(&slot), rank);
        self.slot = slot;
        done
    }

    /// The step of an actor that is due at a tick, with a cartridge's file.
    #[inline(always)]
    #[tactic(auto, using(crate::proofs::Files::awake_with))]
    fn step_at(&mut self, file: &[u8], rank: u8, actor: Actor, tick: Tick) -> Done
        requires numbered { IsNumbered actor }
        requires due { due_by actor self.old ≡ Some tick }
        requires early { tick.0 ≤ 2 ^ 56 }
        requires counted { (proc : Proc) → actor ≡ Processor proc → (processor_of self.old proc).steps ≤ 2 ^ 61 }
        requires events { self.old.events ≤ 2 ^ 61 }
        requires run { actor ≡ Geometry → self.old.io.gx.geometry.numbers.run ≤ 2 ^ 56 }
        ensures { awake (Some tick) (step_by rank actor (with_file file.now self.old))
            ≡ stepped_of (with_file file.now self.old) result (with_file file.now self.new) }
    {
        match actor {
            Actor::Processor(proc) => {
                let mut stop = None;
                self.step_processor(rank, proc, tick, &mut stop);
                done_of(stop)
            }
            Actor::KeyScript => self.step_script(rank, tick),
            Actor::Video => self.step_video(rank, tick),
            Actor::Dma { proc, channel } => self.step_channel(rank, proc, channel, tick),
            Actor::Geometry => self.step_geometry(rank, tick),
            _ => {
                self.step_event(file, actor, tick);
                Done::Made
            }
        }
    }

    /// The step of a processor that may step, as it is or before its turn, on a machine that goes on. A stop is put where stops are kept: an answer
    /// that carried it would be moved at each step.
    #[inline(always)]
    pub fn step_own(&mut self, proc: Proc, stop: &mut Option<LeftOut>)
        requires may { MayStep self.old (private.rank_of proc) }
        requires running { IsRunning last_limit self.old }
        requires none { stop.old ≡ None }
        ensures { Steps (private.rank_of proc) self.old (done_of stop.new) self.new }
    {
        if let Some(tick) = self.processor_due(proc) {
            self.step_processor(rank_of(proc), proc, tick, stop);
        }
    }

    /// A processor's step; a stop is put where stops are kept.
    #[inline(always)]
    #[tactic(auto, using(crate::proofs::GuardedSteps::free_then))]
    fn step_processor(&mut self, rank: u8, proc: Proc, tick: Tick, stop: &mut Option<LeftOut>)
        requires due { due_by (Actor.Processor proc) self.old ≡ Some tick }
        requires early { tick.0 ≤ 2 ^ 56 }
        requires counted { (processor_of self.old proc).steps ≤ 2 ^ 61 }
        requires none { stop.old ≡ None }
        ensures { awake (Some tick) (step_by rank (Actor.Processor proc) self.old) ≡ stepped_of self.old (done_of stop.new) self.new }
    {
        known!(self.laws());
        let line = self.line(proc);
        let came = self.take(proc, tick, line);
        self.conclude(rank, proc, tick, came, stop);
    }

    /// Takes a processor's step at a tick, but for its cost.
    #[inline(always)]
    fn take(&mut self, proc: Proc, now: Tick, line: bool) -> Came
        requires early { now.0 ≤ 2 ^ 56 }
        requires line { line ≡ line_of self.old proc }
        requires room { IsFreeFor proc self.old }
        ensures machine { self.new ≡ (outcome_of proc now self.old).machine }
        ensures stepped { in_ticks proc result.waits result.stepped ≡ (outcome_of proc now self.old).stepped }
    {
        match proc {
            Proc::Nine => {
                let mut view = NineView {
                    map: &mut self.map,
                    io: &mut self.io,
                    itcm: &mut self.nine.itcm,
                    dtcm: &mut self.nine.dtcm,
                    cp: &mut self.nine.cp15,
                    now,
                    waits: 0,
                };
                take_in_view(
                    &mut self.nine.processor.core.registers,
                    &mut self.nine.decoder,
                    &mut view,
                    line,
                )
            }
            Proc::Seven => {
                let mut view = SevenView {
                    map: &mut self.map,
                    io: &mut self.io,
                    now,
                    waits: 0,
                };
                take_in_view(
                    &mut self.seven.processor.core.registers,
                    &mut self.seven.decoder,
                    &mut view,
                    line,
                )
            }
        }
    }

    /// Takes it where it is fast, and where it is ahead of its turn (AHEAD is 1) reaches private places alone: what makes one access at most, or LDM
    /// and STM, as says who runs it. Where it isn't taken nothing is changed. No unit changes.
    #[inline(always)]
    pub fn take_fast<R: Runner, const AHEAD: u32>(
        &mut self,
        proc: Proc,
        now: Tick,
        line: bool,
    ) -> Fast
        requires early { now.0 ≤ 2 ^ 56 }
        requires line { line ≡ line_of self.old proc }
        requires room { IsFreeFor proc self.old }
        ensures none { result.clocks ≡ 0 → self.new ≡ self.old }
        ensures machine { 0 < result.clocks → self.new ≡ (outcome_of proc now self.old).machine }
        ensures stepped { 0 < result.clocks → (outcome_of proc now self.old).stepped ≡ Cost (ticks_per_clock proc * result.clocks + result.waits) }
        ensures stays { AHEAD ≡ 1 → 0 < result.clocks → DataStaysPrivate now self.old proc }
        ensures leaves { result.leaves ≡ true → DataStaysPrivate now self.old proc → ⊥ }
        ensures left { result.leaves ≡ true → (result.clocks ≡ 0) × (AHEAD ≡ 1) }
        ensures near { 0 < result.clocks → DataStaysNear now self.old proc }
        ensures io { self.new.io ≡ self.old.io }
    {
        match proc {
            Proc::Nine => {
                let mut view = NineView {
                    map: &mut self.map,
                    io: &mut self.io,
                    itcm: &mut self.nine.itcm,
                    dtcm: &mut self.nine.dtcm,
                    cp: &mut self.nine.cp15,
                    now,
                    waits: 0,
                };
                take_fast_in_view::<_, 5, R, AHEAD>(
                    &mut self.nine.processor.core.registers,
                    &mut self.nine.decoder,
                    &mut view,
                    line,
                )
            }
            Proc::Seven => {
                let mut view = SevenView {
                    map: &mut self.map,
                    io: &mut self.io,
                    now,
                    waits: 0,
                };
                take_fast_in_view::<_, 4, R, AHEAD>(
                    &mut self.seven.processor.core.registers,
                    &mut self.seven.decoder,
                    &mut view,
                    line,
                )
            }
        }
    }

    /// A processor took a step that costs so many ticks.
    #[inline(always)]
    pub fn go_on(&mut self, proc: Proc, ticks: u64, halted: bool)
        requires brief { ticks ≤ 2 ^ 40 }
        requires early { (processor_of self.old proc).due ≤ 2 ^ 56 }
        requires counted { (processor_of self.old proc).steps ≤ 2 ^ 61 }
        ensures { self.new ≡ with_processor proc self.old (went_on ticks halted (processor_of self.old proc)) }
    {
        match proc {
            Proc::Nine => self.nine.processor.go_on(ticks, halted),
            Proc::Seven => self.seven.processor.go_on(ticks, halted),
        }
    }

    /// A processor goes on by what its step came to, where it was taken.
    #[inline(always)]
    fn go_by(&mut self, proc: Proc, came: Came) -> Option<Stop>
        requires early { (processor_of self.old proc).due ≤ 2 ^ 56 }
        requires counted { (processor_of self.old proc).steps ≤ 2 ^ 61 }
        ensures state { self.new ≡ gone_by proc (in_ticks proc came.waits came.stepped) self.old }
        ensures stop { result ≡ stop_in came.stepped }
    {
        match came.stepped {
            Stepped::Cost(clocks) => {
                let halted = self.io.processor(proc).is_halted();
                self.go_on(proc, ticks_of(proc, clocks, came.waits), halted);
                None
            }
            Stepped::Halted(clocks) => {
                self.io.set_halted(proc, true);
                self.go_on(proc, ticks_of(proc, clocks, came.waits), true);
                None
            }
            Stepped::Left(stop) => Some(stop),
        }
    }

    /// Concludes a processor's step by what it came to.
    #[inline(always)]
    fn conclude(&mut self, rank: u8, proc: Proc, tick: Tick, came: Came, stop: &mut Option<LeftOut>)
        requires tick { tick.0 ≤ 2 ^ 56 }
        requires early { (processor_of self.old proc).due ≤ 2 ^ 56 }
        requires counted { (processor_of self.old proc).steps ≤ 2 ^ 61 }
        requires none { stop.old ≡ None }
        ensures { awake (Some tick) (machine_concluded rank proc self.old (in_ticks proc came.waits came.stepped))
            ≡ stepped_of self.old (done_of stop.new) self.new }
    {
        match self.go_by(proc, came) {
            None => self.end_step(tick),
            Some(left) => {
                *stop = Some(LeftOut {
                    kind: left.kind,
                    tick: Tick(self.processor(proc).due),
                    rank,
                    value: left.value,
                });
            }
        }
    }

    /// What follows a step that is taken at a tick: the units behind the ports settle, and halted processors wake that are to.
    #[inline(always)]
    #[tactic(auto, unfolding(crate::specs::Steps::ended))]
    pub fn end_step(&mut self, tick: Tick)
        requires { tick.0 ≤ 2 ^ 56 }
        ensures { self.new ≡ ended tick self.old }
    {
        self.io.settle(tick);
        self.wake(tick);
    }

    /// Halted processors wake that are to, after a step at a tick.
    #[inline(always)]
    pub fn wake(&mut self, tick: Tick)
        requires { tick.0 ≤ 2 ^ 56 }
        ensures { self.new ≡ woken tick self.old }
    {
        self.wake_one(Proc::Nine, tick);
        self.wake_one(Proc::Seven, tick);
    }

    /// Whether a processor is halted and its IE and IF share a bit, so that it is to wake.
    #[inline(always)]
    pub fn wakes(&self, proc: Proc) -> bool
        ensures { result ≡ wakes self.now proc }
    {
        self.io.processor(proc).is_halted() && self.io.processor(proc).wakes()
    }

    /// A processor that is halted wakes, where its IE and IF share a bit.
    #[inline(always)]
    fn wake_one(&mut self, proc: Proc, tick: Tick)
        requires { tick.0 ≤ 2 ^ 56 }
        ensures { self.new ≡ woken_one proc tick self.old }
    {
        if self.wakes(proc) {
            self.go_again(proc, tick);
        }
    }

    /// When a processor goes on after a tick: at the next one, or once the waits of its last unit are over.
    #[inline(always)]
    pub fn next_due(&self, proc: Proc, tick: Tick) -> u64
        requires { tick.0 ≤ 2 ^ 56 }
        ensures value { result ≡ due_past_unit self.now proc tick }
        ensures early { result ≤ 2 ^ 57 }
    {
        past_unit(self.io.processor(proc).last_unit(), tick)
    }

    /// A halted processor goes on after a tick.
    fn go_again(&mut self, proc: Proc, tick: Tick)
        requires { tick.0 ≤ 2 ^ 56 }
        ensures { self.new ≡ goes_on proc tick self.old }
    {
        let due = self.next_due(proc, tick);
        self.io.set_halted(proc, false);
        match proc {
            Proc::Nine => self.nine.processor.due = due,
            Proc::Seven => self.seven.processor.due = due,
        }
    }
}
