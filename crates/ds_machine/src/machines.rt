//! The machine.

ghost use Rattle.std.specs.Prelude.{ℕ, ◌≡◌, ◌↔◌, ◌<◌, ◌≤◌, ◌^◌, false, true, slice_index, length, IfOk, IfSome, IsSome, None};
ghost use Rattle.ds_base.specs.Memories.{memory_size};
ghost use Rattle.ds_card.specs.Cards.{IsCard};
ghost use Rattle.ds_ipc.specs.Ipcs.{AreSides, other_proc};
ghost use Rattle.ds_ports.specs.Acting.{is_quiet};
ghost use Rattle.ds_ports.specs.Io.{io_at_boot};
ghost use Rattle.ds_runs.specs.Actors.{actor_of};
ghost use Rattle.ds_runs.specs.Runs.{due_at};
ghost use Rattle.gx_fifo.specs.GxStates.{IsGx};
ghost use Rattle.ds_machine.specs.Acting.{is_behind, IsActing};
ghost use Rattle.ds_machine.specs.Booted.{machine_booted};
ghost use Rattle.ds_machine.specs.Frames.{framed_of};
ghost use Rattle.ds_machine.specs.Lagging.{observes_by, CatchesUp, CatchesUpFor, ComesBeforeAll};
ghost use Rattle.ds_machine.specs.Inspections.{memory_of, registers_of, seen_of};
ghost use Rattle.ds_machine.specs.Private.{rank_of, IsPrivate};
ghost use Rattle.ds_machine.specs.PrivateLaws.{IsFence};
ghost use Rattle.ds_machine.specs.TurnLaws.{due_or_never, HasEnds, HasLimit, IsTurnEnd, MayAct, MayStep};
ghost use Rattle.ds_machine.specs.TurnSteps.{BelongsToTurn, TakesSteps};
ghost use Rattle.ds_machine.specs.declared.answers.Private.TheVariants.{Yes};
ghost use Rattle.ds_machine.specs.Reference.{dues_of};
ghost use Rattle.ds_machine.specs.Sound.{HasSoundParts};
ghost use Rattle.ds_machine.specs.StepAnswers.{done_of, IsDue, Steps};
ghost use Rattle.ds_machine.specs.CountingLaws.{last_limit, IsRunning, RunsAfter};
ghost use Rattle.ds_machine.specs.States.{with_file, MachineState};
ghost use Rattle.ds_machine.specs.Statuses.{HasBothStatuses};
ghost use Rattle.ds_machine.specs.Steps.{processor_of, tick_of};

mod looks;
mod saved;

use crate::answers::{Done, Private, Seen};
use crate::fences;
use crate::next_events::{Ends, NextEvent};
use crate::parts::{Parts, bytes_in};
use arm_exec::enters;
use ds_base::{Due, Keys, LeftOut, Memory, Proc, Tick, Width, known};
use ds_header::Cart;
use ds_runs::{Actor, earlier_than};
use gx_geometry::Lists;
use std::alloc::{AllocError, Global};
use std::marker::Model;

/// The whole console but for its outside: memories, processors, units, and the cartridge that was inserted, whose file is of the state that contracts
/// see. With no cartridge that file is empty; a step may then be lent one.
#[derive(Drop)]
pub struct Machine {
    parts: Parts,
    next_event: NextEvent,
}

impl Model for Machine {
    ghost use Rattle.ds_machine.specs.NextEvents.{IsNextEvent};
    ghost use Rattle.ds_machine.specs.States.{MachineState};
    ghost use Rattle.ds_machine.specs.Statuses.{HasBothStatuses};

    ghost Value = { MachineState };

    ghost view = { λ m. m.parts };

    // what is kept is so, and the status registers have only bits that are kept
    ghost invariant = { λ m. IsNextEvent m.next_event m.parts × HasBothStatuses m.parts };
}

impl Machine {
    /// The machine as it is when it is switched on with a cartridge and a key script: ARM9's image is copied to memory, then ARM7's, then the header;
    /// both processors are due at once. The images go to RAM, and leave the units behind the ports as they are at boot. No step was taken, so that
    /// none stopped it. The cartridge isn't inserted: its file is read, and the slot is empty. All memory of a run is taken here.
    pub fn new(alloc: Global, cart: &Cart, keys: Keys) -> Result<Machine, AllocError>
        ensures booted { IfOk result (λ machine. with_file cart.now machine ≡ machine_booted cart.now keys) }
        ensures units { IfOk result (λ machine. machine.io ≡ io_at_boot) }
        ensures running { IfOk result (λ machine. IsRunning 0 (with_file cart.now machine)) }
    {
        let parts = Parts::new(alloc, cart, keys)?;
        known!(parts.laws());
        let next_event = parts.next_event();
        Ok(Machine { parts, next_event })
    }

    /// Inserts a cartridge; one that was inserted before is let go.
    pub fn insert(&mut self, cart: Cart)
        ensures { self.new ≡ with_file cart self.old }
    {
        self.parts.slot = Some(cart);
        let next_event = self.parts.next_event();
        self.next_event = next_event;
    }

    /// The whole file of the cartridge that was inserted; with none it is empty.
    pub fn file(&self) -> &[u8]
        ensures { result.now ≡ self.now.file }
    {
        bytes_in(&self.parts.slot)
    }

    /// Becomes another machine, but keeps the cartridge that was inserted.
    pub fn take_over(&mut self, machine: Machine)
        ensures { self.new ≡ with_file self.old.file machine }
    {
        let slot = self.parts.slot.take();
        self.parts = machine.parts;
        self.parts.slot = slot;
        let next_event = self.parts.next_event();
        self.next_event = next_event;
    }

    /// The actor that is due first, quiet geometry among them.
    #[inline(always)]
    pub fn due(&self) -> Due
        ensures { IsDue self.now result }
    {
        earlier_than(self.parts.first_event(), self.parts.first_processor())
    }

    /// The actor that acts next: the least of all that are due but quiet geometry, of whose steps nobody hears.
    #[inline(always)]
    pub fn acting(&self) -> Due
        ensures { IsActing self.now result }
    {
        self.parts.acting()
    }

    /// When the actor of a rank is due, if it is.
    pub fn due_of(&self, rank: u8) -> Option<Tick>
        requires { rank < 24 }
        ensures { result ≡ due_at (dues_of self.now) rank }
    {
        self.parts.due_by(Actor::of(rank))
    }

    /// The step of the actor that is due first; or of the first that acts, where its step doesn't observe geometry, though quiet geometry may be due
    /// before it; or of a processor that may step before its turn. Then the geometry FIFO's interrupt is told as it is and DMA is triggered that
    /// waits for it, and halted processors wake whose IE and IF share a bit. A step that needs what is left out stops; the accesses before the
    /// refused one stand, and registers and due ticks are as they were. After such a step no other may be taken: `running` says that the last one
    /// didn't stop. It is so at boot, and after each step that is taken. The cartridge is lent for the step, whatever is inserted: the machine is
    /// read together with its file, before the step and after it.
    #[inline(always)]
    pub fn step(&mut self, cart: &Cart, rank: u8) -> Done
        requires running { IsRunning last_limit (with_file cart.now self.old) }
        requires may { MayStep self.old rank }
        ensures step { Steps rank (with_file cart.now self.old) result (with_file cart.now self.new) }
        ensures running { RunsAfter result (with_file cart.now self.new) }
    {
        let done = self.parts.step_actor(cart.bytes(), rank);
        let next_event = self.parts.next_event();
        self.next_event = next_event;
        done
    }

    /// The same step with the cartridge that was inserted.
    #[inline(always)]
    pub fn step_inserted(&mut self, rank: u8) -> Done
        requires running { IsRunning last_limit self.old }
        requires may { MayStep self.old rank }
        ensures step { Steps rank self.old result self.new }
        ensures running { RunsAfter result self.new }
    {
        let done = self.parts.step_inserted(rank);
        let next_event = self.parts.next_event();
        self.next_event = next_event;
        done
    }

    /// A processor's step of a turn, on a machine that goes on: it is the least that acts, or may be taken before its turn. Before it, where it
    /// observes geometry, the steps of quiet geometry are taken that are due before it. A stop is put where stops are kept.
    #[inline(always)]
    pub fn step_of_turn(&mut self, proc: Proc, tick: Tick, stop: &mut Option<LeftOut>)
        requires running { IsRunning last_limit self.old }
        requires early { tick.0 ≤ 2 ^ 56 }
        requires may { MayAct self.old tick (rank_of proc) }
        requires none { stop.old ≡ None }
        ensures step { (caught : MachineState) × CatchesUpFor tick.0 (rank_of proc) self.old caught
            × Steps (rank_of proc) caught (done_of stop.new) self.new }
        ensures running { RunsAfter (done_of stop.new) self.new }
    {
        let rank = fences::rank_of(proc);
        let _caught = self.parts.catch_up_before(tick, rank);
        self.parts.step_own(proc, stop);
        let next_event = self.parts.next_event();
        self.next_event = next_event;
    }

    /// By these the processor whose turn begins is found, where it is known at once: the first tick at which an actor acts that is no processor, or
    /// that isn't below a limit, and when each processor is due.
    #[inline(always)]
    pub fn ends(&self, until: Tick) -> Ends
        ensures { HasEnds until.0 self.now result }
    {
        Ends {
            end: self.next_event.events_until.0.min(until.0),
            nine: self.parts.waits_until(self.next_event, Proc::Nine),
            seven: self.parts.waits_until(self.next_event, Proc::Seven),
        }
    }

    /// A processor takes steps of its turn with a limit, while they are of the fast path; by the first tick at which it isn't the least acting one
    /// any more, and the first at which an event acts, or 0 where that isn't known. The answer is whether its turn is over; where it isn't known to
    /// be, `belongs_by` tells it, and the next step, where it belongs to the turn, is to be taken by `step`. No unit behind the ports changes: so no
    /// frame becomes whole, no lists are swapped, and every other actor stays due when it was. What is kept stays as it is. Whether the
    /// processor's interrupt line is up is asked for once a turn, since no step changes it; where it is, each step asks for I.
    #[inline(always)]
    pub fn go_fast(&mut self, proc: Proc, until: Tick, end: u64, limit: u64) -> bool
        requires running { IsRunning last_limit self.old }
        requires early { until.0 ≤ 2 ^ 56 }
        requires limit { HasLimit until.0 self.old proc limit }
        requires end { 0 < end → IsTurnEnd until.0 self.old end }
        ensures steps { TakesSteps until.0 proc self.old self.new }
        ensures over { result ≡ true → BelongsToTurn until.0 self.new proc → ⊥ }
        ensures io { self.new.io ≡ self.old.io }
        ensures limit { HasLimit until.0 self.new proc limit }
        ensures end { 0 < end → IsTurnEnd until.0 self.new end }
        ensures other { due_or_never self.new (other_proc proc) ≡ due_or_never self.old (other_proc proc) }
    {
        let up = self.next_event.line(proc);
        self.parts.go_fast(proc, until, end, limit, up)
    }

    /// The first tick at which a processor that isn't blocked isn't the least acting actor, or isn't due below a limit, any more, while it alone
    /// takes steps, where that is known.
    pub fn limit_of(&self, proc: Proc, until: Tick) -> Option<u64>
        requires { until.0 ≤ 2 ^ 56 }
        ensures { IfSome result (λ limit. HasLimit until.0 self.now proc limit) }
    {
        let next_event = self.next_event;
        if next_event.events_until.0 == 0 || next_event.least(proc) != 0 {
            return None;
        }
        Some(self.parts.limit_by(next_event, proc, until))
    }

    /// Whether a processor's next step may be taken before its turn, but for when it is due: it is due, its interrupt line is down, nothing that
    /// another actor raises reaches it, and the step reaches private places alone.
    pub fn touches(&self, proc: Proc) -> Private
        ensures { (result ≡ Yes) ↔ IsPrivate self.now proc }
    {
        if self.parts.is_step_private(proc) {
            return Private::Yes;
        }
        Private::No
    }

    /// The least tick at which one acts of those that may halt a processor, wake it or make it wait: the key script, the display, its timers, its DMA
    /// channels, the card where it started the transfer, and for ARM9 geometry, unless it is quiet.
    pub fn fence(&self, proc: Proc) -> Tick
        ensures { IsFence self.now proc result }
    {
        self.parts.fence(proc)
    }

    /// Whether a processor's next step belongs to its turn with a limit: it is due below the limit, and is the least acting step, or may be taken
    /// before its turn. It is told a tick before which the processor is known to be the least acting actor, or 0 where none is known.
    #[inline(always)]
    pub fn belongs_by(&self, proc: Proc, until: Tick, limit: u64) -> bool
        requires early { until.0 ≤ 2 ^ 56 }
        requires limit { (processor_of self.now proc).due < limit → HasLimit until.0 self.now proc limit }
        ensures { (result ≡ true) ↔ BelongsToTurn until.0 self.now proc }
    {
        self.parts.belongs_by(self.next_event, proc, until, limit)
    }

    /// Whether the next step of the actor of a rank, which is due, observes geometry: the start of line 192, a unit of ARM9's channels that reads or
    /// writes an observed port, or a step of ARM9's whose instruction does; a fetch doesn't, nor an instruction whose condition fails, nor the entry
    /// of an interrupt.
    pub fn observes(&self, rank: u8) -> bool
        requires { IsSome (due_at (dues_of self.now) rank) }
        ensures { result ≡ observes_by (actor_of rank) self.now }
    {
        self.parts.observes(rank)
    }

    /// Whether geometry is due and quiet: GXSTAT's selector is 0, no channel of ARM9's is enabled with the start of the geometry FIFO, and at most
    /// 260 entries wait. Its steps may then be taken later than those of others, since nobody hears of them.
    pub fn quiet(&self) -> bool
        ensures { result ≡ is_quiet self.now.io }
    {
        self.parts.io.is_quiet()
    }

    /// Whether quiet geometry is due before the place of a rank at a tick: earlier, or at that tick, where its own rank is lower.
    #[inline(always)]
    pub fn is_behind(&self, tick: Tick, rank: u8) -> bool
        ensures { result ≡ is_behind tick.0 rank self.now }
    {
        self.parts.is_behind(tick, rank)
    }

    /// On a machine that goes on, takes the steps of quiet geometry that are due before the place of a rank at a tick, before which nobody acts.
    pub fn catch_up(&mut self, tick: Tick, rank: u8)
        requires running { IsRunning last_limit self.old }
        requires before { ComesBeforeAll tick.0 rank self.old }
        requires early { tick.0 ≤ 2 ^ 56 }
        ensures caught { CatchesUp tick.0 rank self.old self.new }
        ensures running { IsRunning last_limit self.new }
    {
        if self.parts.is_behind(tick, rank) {
            self.parts.catch_up(tick, rank);
            let next_event = self.parts.next_event();
            self.next_event = next_event;
        }
    }

    /// Before a step of a turn, on a machine that goes on, takes the steps of quiet geometry that are due before it, where that step observes
    /// geometry. Else nothing changes. The step is that of the actor of a rank, which acts at a tick: it is the first that acts, or a processor that
    /// may step before its turn.
    #[inline(always)]
    pub fn catch_up_before(&mut self, tick: Tick, rank: u8)
        requires running { IsRunning last_limit self.old }
        requires early { tick.0 ≤ 2 ^ 56 }
        requires may { MayAct self.old tick rank }
        ensures caught { CatchesUpFor tick.0 rank self.old self.new }
        ensures running { IsRunning last_limit self.new }
    {
        if self.parts.catch_up_before(tick, rank) {
            let next_event = self.parts.next_event();
            self.next_event = next_event;
        }
    }

    /// Does nothing; its contract states what holds of every machine: each unit's numbers are those that it can have, and the lines of the key script
    /// that are to come rise; neither FIFO between the processors holds more than 16 words, each of 32 bits; the card's ports have no bits but those
    /// that are kept, and a transfer that is busy isn't past its words; CPSR and each SPSR of both processors have no bits but those that are kept;
    /// and no more than 324 entries wait for geometry, whose open lists and those of the last swap have at most 6,144 vertices and 2,048 polygons.
    pub fn laws(&self)
        ensures parts { HasSoundParts self.now }
        ensures ipc { AreSides self.now.io.ipc }
        ensures statuses { HasBothStatuses self.now }
        ensures card { IsCard self.now.io.card }
        ensures geometry { IsGx self.now.io.gx }
    {
        known!(self.parts.laws());
        self.parts.io.ipc().laws();
        self.parts.io.card().laws();
        self.parts.io.gx().laws();
    }

    /// What a processor does next: the entry of an interrupt, or a word of ARM code or a half of Thumb code; nothing while it isn't due: it is
    /// halted, a DMA channel of it runs, or a stall of geometry holds it.
    pub fn seen(&self, proc: Proc) -> Seen
        ensures { result ≡ seen_of self.now proc }
    {
        if self.parts.is_blocked(proc) {
            return Seen::Idle;
        }
        let registers = &self.parts.processor(proc).core.registers;
        let at = registers.pc();
        if enters(registers, self.parts.line(proc)) {
            return Seen::Irq(at);
        }
        if registers.is_thumb() {
            let half = (self.parts.fetch_of(proc, at, Width::Half) % 0x1_0000) as u16;
            return Seen::Half { at, half };
        }
        Seen::Word {
            at,
            word: self.parts.fetch_of(proc, at, Width::Word),
        }
    }

    /// A memory's bytes, from where they lie: 4 MiB at most.
    pub fn bytes(&self, memory: Memory) -> &[u8]
        ensures value { result.now ≡ memory_of self.now memory }
        ensures most { length result.now ≤ 0x400000 }
    {
        match memory {
            Memory::Itcm => self.parts.nine.itcm.bytes(),
            Memory::Dtcm => self.parts.nine.dtcm.bytes(),
            Memory::Main | Memory::Shared | Memory::Own7 | Memory::Palette | Memory::Oam => self
                .parts
                .map
                .bytes(memory),
            Memory::Vram => {
                self.parts.io.vram().bank_laws();
                self.parts.io.vram().bytes()
            }
        }
    }

    /// The byte of a memory at a place.
    pub fn byte_of(&self, memory: Memory, at: u32) -> u8
        requires { at < memory_size memory }
        ensures { result ≡ slice_index (memory_of self.now memory) at }
    {
        match memory {
            Memory::Itcm => self.parts.nine.itcm.byte(at as usize),
            Memory::Dtcm => self.parts.nine.dtcm.byte(at as usize),
            Memory::Main | Memory::Shared | Memory::Own7 | Memory::Palette | Memory::Oam => self
                .parts
                .map
                .byte_of(memory, at),
            Memory::Vram => self.parts.io.vram().byte_of(at),
        }
    }

    /// The last whole frame: 98,304 pixels, line by line, the upper screen's first; all 0 before the first one. Red, green and blue stand in bits
    /// 0 to 4, 5 to 9 and 10 to 14.
    pub fn frame(&self) -> &[u16]
        ensures value { result.now ≡ self.now.io.video.whole }
        ensures long { length result.now ≡ 98304 }
    {
        self.parts.io.video().frame()
    }

    /// When the last whole frame became so: at the start of its line 192. None exactly where none is whole yet.
    pub fn framed(&self) -> Option<Tick>
        ensures { result ≡ framed_of self.now }
    {
        self.parts.io.video().framed()
    }

    /// The geometry lists of the last swap; before the first one they are empty, and their tick is 0.
    pub fn lists(&self) -> &Lists
        ensures { result.now ≡ self.now.io.gx.geometry.last }
    {
        self.parts.io.gx().lists()
    }

    /// A processor's registers, in the order in which they are written out.
    pub fn registers(&self, proc: Proc) -> [u32; 37]
        ensures { result ≡ registers_of self.now proc }
    {
        self.parts.processor(proc).core.registers()
    }

    /// The tick at which a processor's next step is due, while nothing blocks it.
    #[inline(always)]
    pub fn tick_of(&self, proc: Proc) -> Tick
        ensures { result ≡ tick_of (processor_of self.now proc) }
    {
        Tick(self.parts.processor(proc).due)
    }

    /// How many steps a processor took.
    pub fn steps(&self, proc: Proc) -> u64
        ensures { result ≡ (processor_of self.now proc).steps }
    {
        self.parts.processor(proc).steps
    }

    /// How many steps the other actors took.
    pub fn events(&self) -> u64
        ensures { result ≡ self.now.events }
    {
        self.parts.events
    }
}
