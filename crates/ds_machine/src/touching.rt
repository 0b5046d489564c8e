//! Whether a processor's next step may be taken before its turn.

ghost use Rattle.std.specs.Prelude.{◌≡◌, ◌↔◌, ◌<◌, ◌*◌, ◌%◌, ◌^◌, Some, true, IfSome};
ghost use Rattle.std.specs.List.{list_all};
ghost use Rattle.arm_core.specs.Footprints.{span};
ghost use Rattle.arm_words.specs.Fields.{HasFields};
ghost use Rattle.ds_base.specs.Accesses.{Fetch};
ghost use Rattle.ds_machine.specs.Private as private;
ghost use Rattle.ds_machine.specs.Private.{is_deaf, IsPrivate, ProcessorStaysPrivate};
ghost use Rattle.ds_machine.specs.Sides.{next_fetch};
ghost use Rattle.ds_ports.specs.Io.{io_of};
ghost use Rattle.ds_machine.specs.Touching.{all_private, data_private, instr_at, is_private_to, is_told_nothing, FetchStaysPrivate, InstrStaysPrivate, IsFootprint};

use crate::parts::Parts;
use crate::sides::{is_private_to_nine, is_private_to_seven};
use arm_core::{Reach, Registers, Touch, access_touch, reach_of};
use arm_exec::{decoded_half, decoded_word, has_coprocessor};
use arm_words::Instr;
use ds_base::{Arch, Proc, Width};

/// Whether an instruction is of a kind that may be taken before its turn: it isn't undefined, enters no exception and doesn't change CP15.
fn may_go_ahead(arch: Arch, instr: &Instr) -> bool
    ensures { result ≡ private.may_go_ahead arch (Some instr.now) }
{
    match *instr {
        Instr::Swi { .. } | Instr::ThumbSwi { .. } | Instr::Bkpt { .. } | Instr::ThumbBkpt { .. } =>
            { false }
        Instr::Coprocessor { load, cp, .. } => load && has_coprocessor(arch, cp),
        _ => true,
    }
}

/// What an instruction is fetched by: its width.
fn width_at(s: &Registers) -> Width
    ensures { Fetch s.now.pc result ≡ next_fetch s.now }
{
    if s.is_thumb() {
        Width::Half
    } else {
        Width::Word
    }
}

impl Parts {
    /// Whether the byte at an address lies in a processor's private places, as a write, a fetch, or else a read reaches it.
    #[inline(always)]
    pub fn is_private(&self, proc: Proc, at: u32, writing: bool, fetching: bool) -> bool
        ensures { result ≡ is_private_to self.now proc writing fetching at }
    {
        match proc {
            Proc::Nine => { is_private_to_nine(&self.nine.cp15, &self.io, at, writing, fetching) }
            Proc::Seven => is_private_to_seven(at),
        }
    }

    /// Whether so many words from an aligned address up do: one byte of each tells it.
    fn are_words_private(
        &self,
        proc: Proc,
        first: u32,
        count: u32,
        writing: bool,
        fetching: bool,
    ) -> bool
        requires aligned { first % 4 ≡ 0 }
        requires few { count < 2 ^ 30 }
        ensures { result ≡ list_all (is_private_to self.now proc writing fetching) (span first (4 * count)) }
    {
        for i in 0..count {
            if !self.is_private(proc, first.wrapping_add(4 * i), writing, fetching) {
                return false;
            }
        }
        true
    }

    /// Whether so many bytes from an address up do.
    fn is_span_private(
        &self,
        proc: Proc,
        first: u32,
        length: u32,
        writing: bool,
        fetching: bool,
    ) -> bool
        ensures { result ≡ list_all (is_private_to self.now proc writing fetching) (span first length) }
    {
        if first % 4 == 0 && length % 4 == 0 {
            return self.are_words_private(proc, first, length / 4, writing, fetching);
        }
        for i in 0..length {
            if !self.is_private(proc, first.wrapping_add(i), writing, fetching) {
                return false;
            }
        }
        true
    }

    /// Whether all of some bytes do.
    fn is_touch_private(&self, proc: Proc, touch: Touch, writing: bool, fetching: bool) -> bool
        ensures { result ≡ all_private self.now proc writing fetching touch }
    {
        match touch {
            Touch::Nothing => true,
            Touch::Span { first, length } => {
                self.is_span_private(proc, first, length, writing, fetching)
            }
        }
    }

    /// What a processor fetches at r15, as an instruction.
    pub fn next_instr(&self, proc: Proc) -> Option<Instr>
        ensures instr { result ≡ instr_at self.now proc }
        ensures fields { IfSome result HasFields }
    {
        let s = &self.processor(proc).core.registers;
        let at = s.pc();
        let arch = proc.architecture();
        if s.is_thumb() {
            return decoded_half(arch, self.fetch_of(proc, at, Width::Half)).instr;
        }
        decoded_word(arch, self.fetch_of(proc, at, Width::Word)).instr
    }

    /// What an instruction of a processor's reaches as data.
    pub fn footprint_of(&self, proc: Proc, instr: &Instr) -> Reach
        requires { HasFields instr.now }
        ensures { IsFootprint self.now proc instr.now result }
    {
        match proc {
            Proc::Nine => reach_of(&self.nine.processor.core, instr),
            Proc::Seven => reach_of(&self.seven.processor.core, instr),
        }
    }

    /// Whether all bytes that are reached as data lie in private places, as they are read and written.
    fn is_data_private(&self, proc: Proc, reach: Reach) -> bool
        ensures { result ≡ data_private self.now proc reach }
    {
        (!reach.reads || self.is_touch_private(proc, reach.touch, false, false))
            && (!reach.writes || self.is_touch_private(proc, reach.touch, true, false))
    }

    /// Whether an instruction of a processor's is of a kind that may be taken before its turn, and its accesses of data stay in private places.
    fn instr_stays_private(&self, proc: Proc, instr: &Instr) -> bool
        requires { HasFields instr.now }
        ensures { (result ≡ true) ↔ InstrStaysPrivate self.now proc instr.now }
    {
        may_go_ahead(proc.architecture(), instr)
            && self.is_data_private(proc, self.footprint_of(proc, instr))
    }

    /// Whether what a processor fetches at r15 lies in private places.
    fn fetch_stays_private(&self, proc: Proc) -> bool
        ensures { (result ≡ true) ↔ FetchStaysPrivate self.now proc }
    {
        let s = &self.processor(proc).core.registers;
        self.is_touch_private(proc, access_touch(s.pc(), width_at(s)), false, true)
    }

    /// Whether a processor's next step reaches private places alone, where it enters no interrupt.
    fn stays_private(&self, proc: Proc) -> bool
        ensures { (result ≡ true) ↔ ProcessorStaysPrivate self.now proc }
    {
        if !self.fetch_stays_private(proc) {
            return false;
        }
        match self.next_instr(proc) {
            Some(instr) => self.instr_stays_private(proc, &instr),
            None => false,
        }
    }

    /// Whether a processor's IME is 0, or its IE has none of the interrupts that the other processor raises.
    pub fn is_told_nothing(&self, proc: Proc) -> bool
        ensures { result ≡ is_told_nothing (io_of self.now.io proc).irq }
    {
        let own = self.io.processor(proc);
        own.ime() == 0 || (own.ie() >> 16) % 8 == 0
    }

    /// Whether nothing that another actor raises reaches a processor.
    pub fn is_deaf(&self, proc: Proc) -> bool
        ensures { result ≡ is_deaf self.now proc }
    {
        let cpsr = self.processor(proc).core.registers.cpsr();
        (cpsr >> 7) & 1 == 1 || self.is_told_nothing(proc)
    }

    /// Whether a processor's next step may be taken before its turn, but for when it is due.
    pub fn is_step_private(&self, proc: Proc) -> bool
        ensures { (result ≡ true) ↔ IsPrivate self.now proc }
    {
        !self.is_blocked(proc) && !self.line(proc) && self.is_deaf(proc) && self.stays_private(proc)
    }
}
