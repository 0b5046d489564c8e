//! What a processor reaches at its step, and what parts it from the other.

ghost use Rattle.std.specs.Prelude.{◌≡◌, ◌<◌, ◌≤◌, ℕ, List, false, true, IfSome};
ghost use Rattle.ds_base.specs.Accesses.{Fetch, MemoryMachine};
ghost use Rattle.arm_core.specs.declared.outcomes.Stepped.TheVariants.{Cost};
ghost use Rattle.arm_ops.specs.Meanings.{access_made, accesses_by, operation_meaning, AreNear};
ghost use Rattle.arm_ops.specs.Operations.{is_decoded, is_other, HasAccess, HasOperation};
ghost use Rattle.arm_words.specs.Fields.{HasFields};
ghost use Rattle.ds_ports.specs.declared.units.IoParts.{IoParts as IoState};
ghost use Rattle.cp15_tcm.specs.TightlyCoupled.{tcm_of};
ghost use Rattle.ds_base.specs.declared.processors.Proc.TheVariants.{Nine};
ghost use Rattle.ds_places.specs.AddressTables.{place_of};
ghost use Rattle.ds_map.specs.Maps.{MemoriesState};
ghost use Rattle.ds_map.specs.Shares.{is_private_place};
ghost use Rattle.ds_map.specs.Waits.{waits_of};
ghost use Rattle.ds_machine.specs.SteadyPorts.{is_steady_port};
ghost use Rattle.ds_machine.specs.PrivateSides as sides;
ghost use Rattle.ds_machine.specs.DecodedSteps.{operation_outcome, RunsAs};
ghost use Rattle.ds_machine.specs.PrivateSides.{is_private_tcm, SideOf};
ghost use Rattle.ds_machine.specs.Sides.{data_accesses};
ghost use Rattle.ds_machine.specs.Touching.{GoesByWords};

use crate::steady_ports::SteadyPorts;
use arm_core::{Registers, Stepped};
use arm_exec::{Fetched, execute_word};
use arm_ops::{DataAccess, Operation, Runner, run_made};
use arm7_exec::execute7;
use arm9_exec::{in_rom, move_if, move_of};
use cp15_tcm::{Cp15, Tcm};
use ds_base::{Arch, Proc, Width};
use ds_map::{Given, NineView, SevenView, fetched_by_nine};
use ds_places::{is_own, is_seven_rom};
use ds_ports::Io;

/// What a processor reaches at its step: a memory machine, with what parts it from what the other reaches.
pub trait Side {
    /// The states of what it reaches.
    ghost State: { Type 0 };

    /// The present state.
    ghost state: { Self → State };

    /// What each access gives and leaves.
    ghost memory: { MemoryMachine State };

    /// What parts the processor from the other.
    ghost side: { SideOf State };

    /// The units behind the ports.
    ghost io: { State → IoState };

    /// How many ticks its accesses of data waited since it was made.
    ghost waits: { Self → ℕ };

    /// Where the accesses of a step find room, so that its bus ignores none of its writes.
    ghost finds_room: { State → Type 0 };

    /// Which references it holds, which no call changes.
    ghost identity: { Self → List ℕ };

    /// The architecture.
    fn arch(&self) -> Arch
        ensures { result ≡ side.step.arch };

    /// What is fetched at an address, and how many ticks that waits; all stays as it is.
    fn fetched(&self, at: u32, width: Width) -> Given
        ensures number { result.number ≡ memory.fetch_value (state self.now) at width }
        ensures waits { result.waits ≡ side.step.wait (state self.now) (Fetch at width) }
        ensures most { result.waits ≤ 8 };

    /// How many ticks its accesses of data waited since it was made.
    fn waited(&self) -> u32
        ensures { result ≡ waits self.now };

    /// Where the exception vectors begin.
    fn base(&self) -> u32
        ensures { result ≡ side.step.base (state self.now) };

    /// Whether the byte at an address lies in the processor's private places, as a write, a fetch, or else a read reaches it.
    fn is_private(&self, at: u32, writing: bool, fetching: bool) -> bool
        ensures { result ≡ side.is_private (state self.now) writing fetching at };

    /// Does nothing; its contract states that the four bytes of a word that is aligned are private together.
    fn place_laws(&self)
        ensures { GoesByWords side };

    /// Executes what was fetched.
    fn execute(&mut self, s: &mut Registers, next: Fetched) -> Stepped
        requires low { next.number < 16 }
        requires fields { IfSome next.instr HasFields }
        requires room { finds_room (state self.old) }
        requires begins { waits self.old ≡ 0 }
        ensures registers { s.new ≡ (side.step.executed s.old (state self.old) next.number next.instr).registers }
        ensures state { state self.new ≡ (side.step.executed s.old (state self.old) next.number next.instr).state }
        ensures stepped { result ≡ (side.step.executed s.old (state self.old) next.number next.instr).stepped }
        ensures waits { waits self.new
            ≡ waits_of memory side.step.wait (state self.old) (data_accesses side.step.arch (side.step.base (state self.old)) s.old next.instr) }
        ensures brief { waits self.new ≤ 128 }
        ensures same { identity self.new ≡ identity self.old };

    /// Runs an operation, wherever its access is, which was asked for: it is what its instruction comes to.
    fn run(
        &mut self,
        s: &mut Registers,
        operation: &Operation,
        access: Option<DataAccess>,
    ) -> Stepped
        requires fields { HasOperation operation.now }
        requires known { is_other operation.now.op ≡ false }
        requires access { access ≡ access_made s.old operation.now }
        requires reaches { IfSome access HasAccess }
        requires room { finds_room (state self.old) }
        requires begins { waits self.old ≡ 0 }
        ensures registers { s.new ≡ (operation_outcome memory side s.old (state self.old) operation.now).registers }
        ensures state { state self.new ≡ (operation_outcome memory side s.old (state self.old) operation.now).state }
        ensures stepped { result ≡ (operation_outcome memory side s.old (state self.old) operation.now).stepped }
        ensures waits { waits self.new
            ≡ waits_of memory side.step.wait (state self.old) (operation_meaning side.step.arch s.old operation.now).accesses }
        ensures brief { waits self.new ≤ 128 }
        ensures executes { RunsAs memory side s.old (state self.old) operation.now }
        ensures same { identity self.new ≡ identity self.old };

    /// Runs an operation, where it is frequent and reaches RAM alone, or loads from a port that changes no unit and isn't observed; so no unit
    /// changes. It makes one access at most, or is LDM or STM, by who runs it. The result is its cost; 0 where it isn't run, and then nothing is
    /// changed.
    fn run_fast<R: Runner>(&mut self, s: &mut Registers, operation: &Operation) -> u32
        requires fields { HasOperation operation.now }
        requires room { finds_room (state self.old) }
        requires begins { waits self.old ≡ 0 }
        ensures none { result ≡ 0 → (s.new ≡ s.old) × (state self.new ≡ state self.old) }
        ensures known { 0 < result → is_decoded operation.now.op ≡ true }
        ensures told { R.lists ≡ false → 0 < result
            → (operation_meaning side.step.arch s.old operation.now).accesses ≡ accesses_by side.step.arch s.old (access_made s.old operation.now) }
        ensures registers { 0 < result → s.new ≡ (operation_outcome memory side s.old (state self.old) operation.now).registers }
        ensures state { 0 < result → state self.new ≡ (operation_outcome memory side s.old (state self.old) operation.now).state }
        ensures stepped { 0 < result → (operation_outcome memory side s.old (state self.old) operation.now).stepped ≡ Cost result }
        ensures waits { 0 < result → waits self.new
            ≡ waits_of memory side.step.wait (state self.old) (operation_meaning side.step.arch s.old operation.now).accesses }
        ensures brief { waits self.new ≤ 128 }
        ensures executes { 0 < result → RunsAs memory side s.old (state self.old) operation.now }
        ensures near { 0 < result → AreNear is_steady_port (operation_meaning side.step.arch s.old operation.now).accesses }
        ensures io { io (state self.new) ≡ io (state self.old) }
        ensures same { identity self.new ≡ identity self.old };
}

/// Whether the byte at an address past the tightly coupled memories lies in ARM9's private places, by what WRAMCNT keeps. Video memory does, whatever
/// is allotted to ARM7: no address of ARM9's reaches that.
#[inline(always)]
#[tactic(auto, using(crate::proofs::PlacesByWords::private_by_rows))]
fn is_private_past(wramcnt: u8, at: u32) -> bool
    ensures { (controls : List ℕ) → result ≡ is_private_place controls (place_of Nine wramcnt at) }
{
    // code lies in main memory most, which isn't
    if at >> 24 == 2 {
        return false;
    }
    match at >> 24 {
        3 => wramcnt < 3,
        5 | 6 | 7 => true,
        255 => at >= 0xFFFF_0000,
        _ => false,
    }
}

/// Whether the byte at an address lies in ARM9's private places, as a write, a fetch, or else a read reaches it.
#[inline(always)]
pub fn is_private_to_nine(cp: &Cp15, io: &Io, at: u32, writing: bool, fetching: bool) -> bool
    ensures { (memories : MemoriesState) → result
        ≡ is_private_tcm (tcm_of cp.now at writing fetching) (record { memories = memories; io = io.now }) at }
{
    match cp.tcm_place(at, writing, fetching) {
        Tcm::Past => is_private_past(io.wramcnt(), at),
        _ => true,
    }
}

/// Whether the byte at an address lies in ARM7's private places.
#[inline(always)]
pub fn is_private_to_seven(at: u32) -> bool
    ensures { result ≡ sides.is_private_to_seven at }
{
    is_seven_rom(at) || is_own(at)
}

impl Side for NineView<'_> {
    ghost use Rattle.std.specs.Prelude.{◌∷◌};
    ghost use Rattle.ds_base.specs.declared.processors.Proc.TheVariants.{Nine};
    ghost use Rattle.ds_map.specs.MapLaws.{map_seen, unreached};
    ghost use Rattle.ds_map.specs.Views.{NineReach, nine_memory};
    ghost use Rattle.ds_machine.specs.GuardedSteps.{IsFree};
    ghost use Rattle.ds_machine.specs.PrivateSides.{nine_side};

    ghost State = { NineReach };

    ghost state = { λ v. record { map = map_seen Nine v.map.now v.io.now; cp15 = v.cp.now; itcm = v.itcm.now; dtcm = v.dtcm.now; now = v.now } };

    ghost memory = { nine_memory };

    ghost side = { nine_side };

    ghost io = { λ r. r.map.io };

    ghost waits = { λ v. v.waits };

    ghost finds_room = { λ r. IsFree r.map.io.gx };

    ghost identity = { λ v. v.map.ghost_name ∷ v.io.ghost_name ∷ v.cp.ghost_name ∷ v.itcm.ghost_name ∷ v.dtcm.ghost_name ∷ unreached Nine v.map.now };

    #[inline(always)]
    fn arch(&self) -> Arch {
        Arch::V5
    }

    #[inline(always)]
    fn fetched(&self, at: u32, width: Width) -> Given {
        fetched_by_nine(self.cp, self.map, self.io, self.itcm, self.dtcm, at, width)
    }

    #[inline(always)]
    fn waited(&self) -> u32 {
        self.waits
    }

    #[inline(always)]
    fn base(&self) -> u32 {
        self.cp.vectors()
    }

    #[inline(always)]
    fn is_private(&self, at: u32, writing: bool, fetching: bool) -> bool {
        is_private_to_nine(self.cp, self.io, at, writing, fetching)
    }

    #[inline(always)]
    #[tactic(auto, using(crate::proofs::PlacesByWords::nine_by_words))]
    fn place_laws(&self) {}

    #[inline(always)]
    fn execute(&mut self, s: &mut Registers, next: Fetched) -> Stepped {
        if let Some(move_) = move_of(next.instr) {
            return move_if(s, self.cp, move_);
        }
        let base = self.cp.vectors();
        let rom = in_rom(self.cp);
        execute_word(Arch::V5, base, rom, s, self, next.number, next.instr)
    }

    #[inline(always)]
    #[tactic(auto, using(crate::proofs::WaitedSteps::nine_operation))]
    fn run(
        &mut self,
        s: &mut Registers,
        operation: &Operation,
        access: Option<DataAccess>,
    ) -> Stepped {
        run_made(Arch::V5, s, self, operation, access)
    }

    #[inline]
    #[tactic(auto, using(crate::proofs::WaitedSteps::waiting_refuses_none, crate::proofs::WaitedSteps::nine_operation))]
    fn run_fast<R: Runner>(&mut self, s: &mut Registers, operation: &Operation) -> u32 {
        R::run::<Self, SteadyPorts>(Arch::V5, s, self, operation)
    }
}

impl Side for SevenView<'_> {
    ghost use Rattle.std.specs.Prelude.{◌∷◌};
    ghost use Rattle.ds_base.specs.declared.processors.Proc.TheVariants.{Seven};
    ghost use Rattle.ds_map.specs.MapLaws.{map_seen, unreached};
    ghost use Rattle.ds_map.specs.Views.{SevenReach, seven_memory};
    ghost use Rattle.ds_machine.specs.PrivateSides.{seven_side};

    ghost State = { SevenReach };

    ghost state = { λ v. record { map = map_seen Seven v.map.now v.io.now; now = v.now } };

    ghost memory = { seven_memory };

    ghost side = { seven_side };

    ghost io = { λ r. r.map.io };

    ghost waits = { λ v. v.waits };

    ghost finds_room = { λ r. Unit {0} };

    ghost identity = { λ v. v.map.ghost_name ∷ v.io.ghost_name ∷ unreached Seven v.map.now };

    #[inline(always)]
    fn arch(&self) -> Arch {
        Arch::V4
    }

    #[inline(always)]
    fn fetched(&self, at: u32, width: Width) -> Given {
        self.map.fetch(self.io, Proc::Seven, at, width)
    }

    #[inline(always)]
    fn waited(&self) -> u32 {
        self.waits
    }

    #[inline(always)]
    fn base(&self) -> u32 {
        0
    }

    #[inline(always)]
    fn is_private(&self, at: u32, _writing: bool, _fetching: bool) -> bool {
        is_private_to_seven(at)
    }

    #[inline(always)]
    #[tactic(auto, using(crate::proofs::PlacesByWords::seven_by_words))]
    fn place_laws(&self) {}

    #[inline(always)]
    fn execute(&mut self, s: &mut Registers, next: Fetched) -> Stepped {
        execute7(s, self, next)
    }

    #[inline(always)]
    fn run(
        &mut self,
        s: &mut Registers,
        operation: &Operation,
        access: Option<DataAccess>,
    ) -> Stepped {
        run_made(Arch::V4, s, self, operation, access)
    }

    #[inline]
    #[tactic(auto, using(crate::proofs::WaitedSteps::seven_waiting_refuses_none))]
    fn run_fast<R: Runner>(&mut self, s: &mut Registers, operation: &Operation) -> u32 {
        R::run::<Self, SteadyPorts>(Arch::V4, s, self, operation)
    }
}
