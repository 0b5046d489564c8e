//! Whether an actor's next step observes geometry, which may lag until one does.

ghost use Rattle.std.specs.Prelude.{◌≡◌, ◌<◌, ◌%◌, ◌^◌, false, Some, IfSome, IsSome};
ghost use Rattle.std.specs.List.{list_all};
ghost use Rattle.arm_core.specs.Footprints.{span};
ghost use Rattle.arm_ops.specs.Operations.{is_other, operation_of, HasOperation};
ghost use Rattle.arm_words.specs.Fields.{HasFields};
ghost use Rattle.ds_base.specs.declared.processors.Arch.TheVariants.{V5};
ghost use Rattle.ds_base.specs.declared.processors.Proc.TheVariants.{Nine};
ghost use Rattle.ds_dma.specs.States.{dma_due};
ghost use Rattle.ds_machine.specs.Lagging as lagging;
ghost use Rattle.ds_machine.specs.Lagging.{any_observes, channel_observes, nine_observes, observes_by};
ghost use Rattle.ds_machine.specs.Observing.{all_unobserved, data_unobserved, is_unobserved_at, is_observed_at, made_observed};
ghost use Rattle.ds_machine.specs.Sides.{data_accesses};
ghost use Rattle.ds_machine.specs.Reference.{dues_of, due_by};
ghost use Rattle.ds_machine.specs.Touching.{instr_at};
ghost use Rattle.ds_machine.specs.PrivateSides.{nine_side};
ghost use Rattle.ds_machine.specs.Steps.{nine_reach, tick_of};
ghost use Rattle.ds_runs.specs.Actors.{actor_of};
ghost use Rattle.ds_runs.specs.Runs.{due_at};

use crate::parts::Parts;
use arm_core::{Reach, Touch};
use arm_exec::enters;
use arm_ops::{DataAccess, Operation, access_made, is_other, loads};
use arm_words::Instr;
use cp15_tcm::Tcm;
use ds_base::{Proc, Width};
use ds_map::is_observed_port;
use ds_places::{Place, place};
use ds_runs::Actor;

/// Whether a place is an observed port.
#[inline(always)]
fn is_observed_place(place: Place) -> bool
    ensures { result ≡ lagging.is_observed_place place }
{
    match place {
        Place::Port(at) => is_observed_port(at),
        _ => false,
    }
}

impl Parts {
    /// Whether what an address of ARM9's names past its tightly coupled memories is an observed port, as a write or else a read reaches it.
    #[inline(always)]
    fn is_observed(&self, at: u32, writing: bool) -> bool
        ensures { result ≡ is_observed_at self.now writing at }
    {
        match self.nine.cp15.tcm_place(at, writing, false) {
            Tcm::Past => is_observed_place(place(Proc::Nine, self.io.wramcnt(), at)),
            _ => false,
        }
    }

    /// Whether none of so many bytes from an address up is one.
    fn is_span_unobserved(&self, first: u32, length: u32, writing: bool) -> bool
        ensures { result ≡ list_all (is_unobserved_at self.now writing) (span first length) }
    {
        for i in 0..length {
            if self.is_observed(first.wrapping_add(i), writing) {
                return false;
            }
        }
        true
    }

    /// Whether none of some bytes is one.
    fn is_touch_unobserved(&self, touch: Touch, writing: bool) -> bool
        ensures { result ≡ all_unobserved self.now writing touch }
    {
        match touch {
            Touch::Nothing => true,
            Touch::Span { first, length } => self.is_span_unobserved(first, length, writing),
        }
    }

    /// Whether none of the bytes that are reached as data is one, as they are read and written.
    fn is_data_unobserved(&self, reach: Reach) -> bool
        ensures { result ≡ data_unobserved self.now reach }
    {
        (!reach.reads || self.is_touch_unobserved(reach.touch, false))
            && (!reach.writes || self.is_touch_unobserved(reach.touch, true))
    }

    /// Whether an access of data of an instruction of ARM9's is of an observed port.
    fn instr_observes(&self, instr: &Instr) -> bool
        requires { HasFields instr.now }
        ensures { result ≡ (let r = nine_reach (tick_of self.now.nine.processor) self.now in any_observes r
            (data_accesses V5 (nine_side.step.base r) self.now.nine.processor.registers (Some instr.now))) }
    {
        !self.is_data_unobserved(self.footprint_of(Proc::Nine, instr))
    }

    /// What ARM9 fetches at r15 as an operation, where its decoder keeps it: it does where the step was tried just before.
    fn kept_operation(&self) -> Option<&Operation>
        ensures operation { IfSome result (λ operation. operation.now ≡ operation_of (instr_at self.now Nine)) }
        ensures fields { IfSome result (λ operation. HasOperation operation.now) }
    {
        let s = &self.nine.processor.core.registers;
        let at = s.pc();
        if s.is_thumb() {
            let half = self.fetch_of(Proc::Nine, at, Width::Half) % 0x1_0000;
            return self.nine.decoder.kept_half(at, half as u16);
        }
        let word = self.fetch_of(Proc::Nine, at, Width::Word);
        self.nine.decoder.kept_word(at, word)
    }

    /// Whether the access of a decoded operation of ARM9's is of an observed port, if it makes one.
    fn is_made_observed(&self, access: Option<DataAccess>) -> bool
        ensures { result ≡ made_observed self.now access }
    {
        match access {
            Some(it) => self.is_observed(it.to.address, !loads(it.op)),
            None => false,
        }
    }

    /// Whether the access of what ARM9 fetches at r15, as an operation, is of an observed port.
    #[tactic(auto, using(crate::proofs::ObservedTests::operation_observes_by))]
    fn operation_observes(&self, operation: &Operation) -> bool
        requires operation { operation.now ≡ operation_of (instr_at self.now Nine) }
        requires fields { HasOperation operation.now }
        requires known { is_other operation.now.op ≡ false }
        ensures { result ≡ (let r = nine_reach (tick_of self.now.nine.processor) self.now in any_observes r
            (data_accesses V5 (nine_side.step.base r) self.now.nine.processor.registers (instr_at self.now Nine))) }
    {
        self.is_made_observed(access_made(&self.nine.processor.core.registers, operation))
    }

    /// Whether ARM9's next step observes geometry.
    fn nine_observes(&self) -> bool
        ensures { result ≡ nine_observes self.now }
    {
        if enters(
            &self.processor(Proc::Nine).core.registers,
            self.line(Proc::Nine),
        ) {
            return false;
        }
        if let Some(operation) = self.kept_operation() {
            if !is_other(operation) {
                return self.operation_observes(operation);
            }
        }
        match self.next_instr(Proc::Nine) {
            Some(instr) => self.instr_observes(&instr),
            None => false,
        }
    }

    /// Whether the next unit of ARM9's channels does.
    fn channel_observes(&self) -> bool
        requires { IsSome (dma_due self.now.io.nine.dma) }
        ensures { result ≡ channel_observes self.now.io }
    {
        let unit = self.io.processor(Proc::Nine).unit();
        let wramcnt = self.io.wramcnt();
        is_observed_place(place(Proc::Nine, wramcnt, unit.from))
            || is_observed_place(place(Proc::Nine, wramcnt, unit.to))
    }

    /// Whether the next step of an actor that is due does.
    fn observes_by(&self, actor: Actor) -> bool
        requires { IsSome (due_by actor self.now) }
        ensures { result ≡ observes_by actor self.now }
    {
        match actor {
            Actor::Video => self.io.video().starts_vblank(),
            Actor::Dma {
                proc: Proc::Nine,
                ..
            } => self.channel_observes(),
            Actor::Processor(Proc::Nine) => self.nine_observes(),
            _ => false,
        }
    }

    /// Whether the next step of the actor of a rank does, which is due.
    pub fn observes(&self, rank: u8) -> bool
        requires { IsSome (due_at (dues_of self.now) rank) }
        ensures { result ≡ observes_by (actor_of rank) self.now }
    {
        self.observes_by(Actor::of(rank))
    }
}
