//! Accesses of ports.

ghost use Rattle.std.specs.Prelude.{ℕ, ◌≡◌, ◌<◌, ◌≤◌, ◌+◌, ◌%◌, ◌^◌, false, true, IfSome, None, Some};
ghost use Rattle.ds_base.specs.Numbers.{aligned_down, width_bytes};
ghost use Rattle.ds_base.specs.Schedules.{IsEarly};
ghost use Rattle.ds_base.specs.declared.memories.Width.{Width};
ghost use Rattle.ds_base.specs.declared.memories.Width.TheVariants.{Word};
ghost use Rattle.ds_base.specs.declared.processors.Proc.{Proc};
ghost use Rattle.ds_base.specs.declared.ticks.Tick.{Tick};
ghost use Rattle.ds_ports.specs.Ports.{ignores, with_bytes_from, part, port_read, port_refusal, port_value, port_written, slot_joined, slot_refusal, slot_value, slot_written, unless_stopped, whole_in};
ghost use Rattle.ds_ports.specs.PortLaws.{GoesByHalves, byte_refusal, byte_written, half_refusal, half_written, halved_value, halved_refusal, halved_written, port_byte, port_half, port_word, word_refusal, word_written};
ghost use Rattle.gx_fifo.specs.GxStates.{AreWaiting, waiting_entries};
ghost use Rattle.ds_ports.specs.Guards.{guarded_refusal, guarded_written, is_overfull};
ghost use Rattle.ds_ports.specs.HappeningLaws.{Goes, IsProcessorIo, HasOnlyLaterEvents};
ghost use Rattle.ds_ports.specs.RegisterMap.{IsSlot, StandsWhole, slot_of};
ghost use Rattle.ds_ports.specs.Io.{IoState, io_of};
ghost use Rattle.ds_ports.specs.declared.registers.Register.TheVariants.{GxCommand};
ghost use Rattle.std.specs.Option.{option_or};

use crate::io::Io;
use crate::registers::{Register, Slot, slot_at, slot_of};
use ds_base::{Proc, Stop, Tick, Width};

/// The offset of IPCFIFOSEND.
const IPCFIFOSEND: u32 = 0x188;

/// The offset of IPCFIFORECV.
const IPCFIFORECV: u32 = 0x10_0000;

/// How many bytes an access moves.
#[inline(always)]
fn bytes_of(width: Width) -> u32
    ensures { result ≡ width_bytes width }
{
    match width {
        Width::Byte => 1,
        Width::Half => 2,
        Width::Word => 4,
    }
}

/// An offset, aligned down to an access's width.
#[inline(always)]
pub fn aligned_down(width: Width, at: u32) -> u32
    ensures value { result ≡ aligned_down width at }
    ensures even { result % width_bytes width ≡ 0 }
    ensures within { result ≤ at }
{
    match width {
        Width::Byte => at,
        Width::Half => at - at % 2,
        Width::Word => at - at % 4,
    }
}

/// So many bits of a number as the width has, from a byte of it on; 0 beyond its end.
pub fn part(width: Width, byte: u32, number: u32) -> u32
    requires { byte < 4 }
    ensures { result ≡ part width byte number }
{
    let rest = number >> (8 * byte);
    match width {
        Width::Byte => rest % 0x100,
        Width::Half => rest % 0x1_0000,
        Width::Word => rest,
    }
}

/// A kept number, with some of its bytes written.
fn with_bytes_from(width: Width, byte: u32, kept: u32, value: u32) -> u32
    requires { byte + width_bytes width ≤ 4 }
    ensures { result ≡ with_bytes_from width byte kept value }
{
    match (width, byte) {
        (Width::Byte, 0) => value % 0x100 + kept / 0x100 * 0x100,
        (Width::Byte, 1) => kept % 0x100 + value % 0x100 * 0x100 + kept / 0x1_0000 * 0x1_0000,
        (Width::Byte, 2) => kept % 0x1_0000
            + value % 0x100 * 0x1_0000
            + kept / 0x100_0000 * 0x100_0000,
        (Width::Byte, _) => kept % 0x100_0000 + value % 0x100 * 0x100_0000,
        (Width::Half, 0) => value % 0x1_0000 + kept / 0x1_0000 * 0x1_0000,
        (Width::Half, 1) => kept % 0x100
            + value % 0x1_0000 * 0x100
            + kept / 0x100_0000 * 0x100_0000,
        (Width::Half, _) => kept % 0x1_0000 + value % 0x1_0000 * 0x1_0000,
        (Width::Word, _) => value,
    }
}

/// The register in which an access lies, if it lies in one.
#[inline(always)]
fn whole_in(width: Width, slot: Option<Slot>) -> Option<Slot>
    requires { IfSome slot IsSlot }
    ensures value { result ≡ whole_in width slot }
    ensures within { IfSome result (λ s. IsSlot s × (s.byte + width_bytes width ≤ 4)) }
{
    match slot {
        Some(slot) if slot.byte + bytes_of(width) <= slot.bytes => Some(slot),
        _ => None,
    }
}

/// Whether a register ignores an access of a width: it takes whole words, and the access is narrower.
#[inline(always)]
fn ignores(width: Width, register: Register) -> bool
    ensures { result ≡ ignores width register }
{
    width != Width::Word
        && matches!(
            register,
            Register::Ipcfifosend | Register::Ipcfiforecv | Register::CardData | Register::GxCommand
        )
}

/// Whether an access is of a whole word of GXFIFO or of a command's port.
#[inline(always)]
fn is_command(width: Width, register: Register) -> bool
    ensures { result ≡ true → (width ≡ Word) × (register ≡ GxCommand) }
{
    matches!((width, register), (Width::Word, Register::GxCommand))
}

/// The first of two stops.
fn option_or(first: Option<Stop>, other: Option<Stop>) -> Option<Stop>
    ensures { result ≡ option_or first other }
{
    match first {
        Some(stop) => Some(stop),
        None => other,
    }
}

impl Io {
    /// What some bytes of a register read.
    #[inline(always)]
    fn slot_value(&self, proc: Proc, now: Tick, width: Width, slot: Slot) -> u32
        requires { IsSlot slot }
        ensures { result ≡ slot_value proc now self.now width slot }
    {
        if ignores(width, slot.register) {
            return 0;
        }
        part(
            width,
            slot.byte,
            self.value_of(proc, now, slot.register, slot.number),
        )
    }

    /// What a byte reads.
    fn read_byte(&self, proc: Proc, now: Tick, at: u32) -> u32
        ensures value { result ≡ port_byte proc now self.now at }
        ensures within { result < 2 ^ 8 }
    {
        match slot_of(proc, at) {
            Some(slot) => self.slot_value(proc, now, Width::Byte, slot),
            None => 0,
        }
    }

    /// What a half reads.
    fn read_half(&self, proc: Proc, now: Tick, at: u32) -> u32
        requires { at < 2 ^ 31 }
        ensures value { result ≡ port_half proc now self.now at }
        ensures within { result < 2 ^ 16 }
    {
        match whole_in(Width::Half, slot_of(proc, at)) {
            Some(slot) => self.slot_value(proc, now, Width::Half, slot),
            None => self.read_byte(proc, now, at) + 0x100 * self.read_byte(proc, now, at + 1),
        }
    }

    /// What a word reads.
    fn read_word(&self, proc: Proc, now: Tick, at: u32) -> u32
        requires { at < 2 ^ 30 }
        ensures { result ≡ port_word proc now self.now at }
    {
        match whole_in(Width::Word, slot_of(proc, at)) {
            Some(slot) => self.slot_value(proc, now, Width::Word, slot),
            None => self.read_half(proc, now, at) + 0x1_0000 * self.read_half(proc, now, at + 2),
        }
    }

    /// What an access reads, by halves.
    fn read_halved(&self, proc: Proc, now: Tick, at: u32, width: Width) -> u32
        requires { at < 2 ^ 24 }
        ensures { result ≡ halved_value proc now self.now at width }
    {
        match width {
            Width::Byte => self.read_byte(proc, now, at),
            Width::Half => self.read_half(proc, now, at),
            Width::Word => self.read_word(proc, now, at),
        }
    }

    /// What a processor's access reads at an offset from 4000000h, aligned down to its width, at a tick.
    #[tactic(auto, using(crate::proofs::Halving::reads_halved))]
    pub fn value(&self, proc: Proc, now: Tick, at: u32, width: Width) -> u32
        requires { at < 2 ^ 24 }
        ensures { result ≡ port_value proc now self.now (aligned_down width at) width }
    {
        self.read_halved(proc, now, aligned_down(width, at), width)
    }

    /// What a processor's read at a tick leaves, at an offset aligned down to its width. Only one of a whole word changes anything: it takes the word
    /// that is received, or the card's.
    #[tactic(auto, unfolding(crate::specs::Ports::port_read))]
    pub fn read(&mut self, proc: Proc, now: Tick, at: u32, width: Width)
        requires { IsEarly (Some now) }
        ensures { self.new ≡ port_read proc now self.old (aligned_down width at) width }
    {
        if width == Width::Word {
            if let Some(slot) = whole_in(Width::Word, slot_of(proc, aligned_down(width, at))) {
                self.read_register(proc, now, slot.register);
            }
        }
    }

    /// The same as `take`, by the register map. A register in which the access lies whole is found once.
    #[inline(never)]
    #[tactic(auto, using(crate::proofs::Wholes::value_whole, crate::proofs::Wholes::read_whole, crate::proofs::Wholes::read_apart, crate::proofs::Wholes::read_narrow, crate::proofs::Halving::reads_halved))]
    fn take_by_map(&mut self, proc: Proc, now: Tick, at: u32, width: Width) -> u32
        requires at { at < 2 ^ 24 }
        requires even { at % width_bytes width ≡ 0 }
        requires early { IsEarly (Some now) }
        ensures value { result ≡ port_value proc now self.old at width }
        ensures next { self.new ≡ port_read proc now self.old at width }
    {
        let Some(slot) = whole_in(width, slot_at(proc, at)) else {
            return self.read_halved(proc, now, at, width);
        };
        let value = self.slot_value(proc, now, width, slot);
        if width != Width::Word {
            return value;
        }
        self.read_register(proc, now, slot.register);
        value
    }

    /// What a processor's access reads at an offset from 4000000h, aligned down to its width, at a tick, and the read. What is read most is asked
    /// first.
    #[inline(always)]
    #[tactic(auto, using(crate::proofs::Often::received_word, crate::proofs::Often::received_left))]
    pub fn take(&mut self, proc: Proc, now: Tick, at: u32, width: Width) -> u32
        requires at { at < 2 ^ 24 }
        requires early { IsEarly (Some now) }
        ensures value { result ≡ port_value proc now self.old (aligned_down width at) width }
        ensures next { self.new ≡ port_read proc now self.old (aligned_down width at) width }
    {
        let at = aligned_down(width, at);
        if let Some(value) = self.value_often(proc, at, width) {
            return value;
        }
        if at == IPCFIFORECV && width == Width::Word {
            return self.receive(proc);
        }
        self.take_by_map(proc, now, at, width)
    }

    /// The number that a write of some bytes of a register gives it.
    fn slot_joined(&self, proc: Proc, width: Width, slot: Slot, value: u32) -> u32
        requires slot { IsSlot slot }
        requires whole { slot.byte + width_bytes width ≤ 4 }
        ensures { result ≡ slot_joined proc self.now width slot value }
    {
        let kept = self.kept_of(proc, slot.register, slot.number);
        with_bytes_from(width, slot.byte, kept, value)
    }

    /// The stop for which a write of some bytes of a register is refused.
    fn part_refusal(&self, proc: Proc, width: Width, slot: Slot, value: u32) -> Option<Stop>
        requires slot { IsSlot slot }
        requires whole { slot.byte + width_bytes width ≤ 4 }
        ensures { result ≡ slot_refusal proc self.now width slot value }
    {
        if ignores(width, slot.register) {
            return None;
        }
        let value = self.slot_joined(proc, width, slot, value);
        self.refusal_of(proc, slot.register, slot.number, value)
    }

    /// Writes some bytes of a register.
    fn write_part(&mut self, proc: Proc, now: Tick, width: Width, slot: Slot, value: u32)
        requires slot { IsSlot slot }
        requires whole { slot.byte + width_bytes width ≤ 4 }
        requires early { IsEarly (Some now) }
        requires room { is_overfull proc self.old ≡ false }
        ensures { self.new ≡ slot_written proc now self.old width slot value }
    {
        if !ignores(width, slot.register) {
            let value = self.slot_joined(proc, width, slot, value);
            self.write_register(proc, now, slot.register, slot.number, value);
        }
    }

    /// Writes some bytes of a register, unless it refuses this. A word that geometry is given is written at once.
    #[inline(always)]
    #[tactic(auto, using(crate::proofs::Wholes::command_refusal))]
    fn put_part(
        &mut self,
        proc: Proc,
        now: Tick,
        width: Width,
        slot: Slot,
        value: u32,
    ) -> Option<Stop>
        requires slot { IsSlot slot }
        requires whole { slot.byte + width_bytes width ≤ 4 }
        requires early { IsEarly (Some now) }
        requires room { is_overfull proc self.old ≡ false }
        ensures refusal { result ≡ slot_refusal proc self.old width slot value }
        ensures next { self.new
            ≡ unless_stopped (slot_refusal proc self.old width slot value) self.old (slot_written proc now self.old width slot value) }
    {
        if is_command(width, slot.register) {
            self.gx().laws();
            self.write_command(proc, now, slot.number, value);
            return None;
        }
        if ignores(width, slot.register) {
            return None;
        }
        let value = self.slot_joined(proc, width, slot, value);
        let stop = self.refusal_of(proc, slot.register, slot.number, value);
        if stop.is_none() {
            self.write_register(proc, now, slot.register, slot.number, value);
        }
        stop
    }

    fn byte_refusal(&self, proc: Proc, at: u32, value: u32) -> Option<Stop>
        ensures { result ≡ byte_refusal proc self.now at value }
    {
        match slot_of(proc, at) {
            Some(slot) => self.part_refusal(proc, Width::Byte, slot, value),
            None => None,
        }
    }

    fn half_refusal(&self, proc: Proc, at: u32, value: u32) -> Option<Stop>
        requires { at < 2 ^ 31 }
        ensures { result ≡ half_refusal proc self.now at value }
    {
        match whole_in(Width::Half, slot_of(proc, at)) {
            Some(slot) => self.part_refusal(proc, Width::Half, slot, value),
            None => option_or(
                self.byte_refusal(proc, at, value),
                self.byte_refusal(proc, at + 1, value >> 8),
            ),
        }
    }

    /// Writes a byte. That adds no entry to those that wait for geometry.
    #[tactic(auto, using(crate::proofs::Grows::byte_leaves_room))]
    fn write_byte(&mut self, proc: Proc, now: Tick, at: u32, value: u32)
        requires early { IsEarly (Some now) }
        requires room { is_overfull proc self.old ≡ false }
        ensures next { self.new ≡ byte_written proc now self.old at value }
        ensures room { is_overfull proc self.new ≡ false }
    {
        if let Some(slot) = slot_of(proc, at) {
            self.write_part(proc, now, Width::Byte, slot, value);
        }
    }

    /// Writes a half. That adds none either.
    #[tactic(auto, using(crate::proofs::Grows::half_leaves_room))]
    fn write_half(&mut self, proc: Proc, now: Tick, at: u32, value: u32)
        requires at { at < 2 ^ 31 }
        requires early { IsEarly (Some now) }
        requires room { is_overfull proc self.old ≡ false }
        ensures next { self.new ≡ half_written proc now self.old at value }
        ensures room { is_overfull proc self.new ≡ false }
    {
        match whole_in(Width::Half, slot_of(proc, at)) {
            Some(slot) => self.write_part(proc, now, Width::Half, slot, value),
            None => {
                self.write_byte(proc, now, at, value);
                self.write_byte(proc, now, at + 1, value >> 8);
            }
        }
    }

    /// Writes a byte, unless this is refused.
    fn put_byte(&mut self, proc: Proc, now: Tick, at: u32, value: u32) -> Option<Stop>
        requires early { IsEarly (Some now) }
        requires room { is_overfull proc self.old ≡ false }
        ensures refusal { result ≡ byte_refusal proc self.old at value }
        ensures next { self.new ≡ unless_stopped (byte_refusal proc self.old at value) self.old (byte_written proc now self.old at value) }
    {
        let slot = slot_of(proc, at)?;
        self.put_part(proc, now, Width::Byte, slot, value)
    }

    /// Writes a half, unless this is refused.
    fn put_half(&mut self, proc: Proc, now: Tick, at: u32, value: u32) -> Option<Stop>
        requires at { at < 2 ^ 31 }
        requires early { IsEarly (Some now) }
        requires room { is_overfull proc self.old ≡ false }
        ensures refusal { result ≡ half_refusal proc self.old at value }
        ensures next { self.new ≡ unless_stopped (half_refusal proc self.old at value) self.old (half_written proc now self.old at value) }
    {
        if let Some(slot) = whole_in(Width::Half, slot_of(proc, at)) {
            return self.put_part(proc, now, Width::Half, slot, value);
        }
        let stop = option_or(
            self.byte_refusal(proc, at, value),
            self.byte_refusal(proc, at + 1, value >> 8),
        );
        if stop.is_none() {
            self.write_byte(proc, now, at, value);
            self.write_byte(proc, now, at + 1, value >> 8);
        }
        stop
    }

    /// Writes a word, unless this is refused.
    fn put_word(&mut self, proc: Proc, now: Tick, at: u32, value: u32) -> Option<Stop>
        requires at { at < 2 ^ 30 }
        requires early { IsEarly (Some now) }
        requires room { is_overfull proc self.old ≡ false }
        ensures refusal { result ≡ word_refusal proc self.old at value }
        ensures next { self.new ≡ unless_stopped (word_refusal proc self.old at value) self.old (word_written proc now self.old at value) }
    {
        if let Some(slot) = whole_in(Width::Word, slot_of(proc, at)) {
            return self.put_part(proc, now, Width::Word, slot, value);
        }
        let stop = option_or(
            self.half_refusal(proc, at, value),
            self.half_refusal(proc, at + 2, value >> 16),
        );
        if stop.is_none() {
            self.write_half(proc, now, at, value);
            self.write_half(proc, now, at + 2, value >> 16);
        }
        stop
    }

    /// A write of any width that lies in no one register, unless it is refused.
    #[inline(never)]
    #[tactic(auto, using(crate::proofs::Halving::refuses_halved, crate::proofs::Halving::writes_halved))]
    fn put_apart(
        &mut self,
        proc: Proc,
        now: Tick,
        at: u32,
        width: Width,
        value: u32,
    ) -> Option<Stop>
        requires at { at < 2 ^ 24 }
        requires even { at % width_bytes width ≡ 0 }
        requires early { IsEarly (Some now) }
        requires room { is_overfull proc self.old ≡ false }
        ensures refusal { result ≡ port_refusal proc self.old at width value }
        ensures next { self.new
            ≡ unless_stopped (port_refusal proc self.old at width value) self.old (port_written proc now self.old at width value) }
    {
        match width {
            Width::Byte => self.put_byte(proc, now, at, value),
            Width::Half => self.put_half(proc, now, at, value),
            Width::Word => self.put_word(proc, now, at, value),
        }
    }

    /// A write of any width, unless it is refused, or ignored for want of room. A register in which it lies whole is found once.
    #[inline(always)]
    #[tactic(auto, using(crate::proofs::Wholes::refusal_whole, crate::proofs::Wholes::written_whole, crate::proofs::Often::sent_refusal, crate::proofs::Often::sent_written))]
    fn put_any(&mut self, proc: Proc, now: Tick, at: u32, width: Width, value: u32) -> Option<Stop>
        requires at { at < 2 ^ 24 }
        requires even { at % width_bytes width ≡ 0 }
        requires early { IsEarly (Some now) }
        ensures refusal { result ≡ guarded_refusal proc self.old at width value }
        ensures next { self.new ≡ guarded_written proc now self.old at width value }
    {
        if self.is_overfull(proc) {
            return None;
        }
        if at == IPCFIFOSEND && width == Width::Word {
            self.send(proc, value);
            return None;
        }
        match whole_in(width, slot_at(proc, at)) {
            Some(slot) => self.put_part(proc, now, width, slot, value),
            None => self.put_apart(proc, now, at, width, value),
        }
    }

    /// A processor's write at an offset from 4000000h, aligned down to its width, at a tick. Where it is refused, it gives the stop and leaves all:
    /// exactly where it would write HALTCNT's modes 1 or 3, kind HaltMode with the byte written; ROMCTRL's bit 31, kind CardTransfer with the whole
    /// word; or a DMA control that is refused, kind DmaStart with the control as it would be kept. `schedule`: it leaves each due tick as it was,
    /// or later than its own, where the processor's timers and its running channels come later than that. `grows`: it adds four entries at most to
    /// those that wait for geometry. While more than 320 wait there might be no room for them: then one of ARM9's is ignored.
    #[inline(always)]
    pub fn put(&mut self, proc: Proc, now: Tick, at: u32, width: Width, value: u32) -> Option<Stop>
        requires at { at < 2 ^ 24 }
        requires early { IsEarly (Some now) }
        ensures refusal { result ≡ guarded_refusal proc self.old (aligned_down width at) width value }
        ensures next { self.new ≡ guarded_written proc now self.old (aligned_down width at) width value }
        ensures schedule { IsProcessorIo (io_of self.old proc) → HasOnlyLaterEvents now (io_of self.old proc) → Goes proc now self.old self.new }
        ensures grows { AreWaiting self.old.gx → waiting_entries self.new.gx ≤ waiting_entries self.old.gx + 4 }
    {
        self.put_any(proc, now, aligned_down(width, at), width, value)
    }
}

/// Does nothing; its contract states laws of the maps and of accesses. `rows`: each register stands at a multiple of its width, and its
/// bytes follow one another from there on. `halves`: an access at a multiple of its width that lies in no one register reads, leaves and
/// refuses what one of its lower half and then one of its upper half does.
#[tactic(auto, using(crate::proofs::Together::stands_whole))]
pub fn register_laws()
    ensures rows { (proc : Proc) (at : ℕ) → IfSome (slot_of proc at) (StandsWhole proc at) }
    ensures halves { (proc : Proc) (now : Tick) (u : IoState) (at : ℕ) (width : Width) (value : ℕ) → at % width_bytes width ≡ 0
        → GoesByHalves proc now u at width value }
{}
