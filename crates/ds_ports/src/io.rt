//! The units behind the ports, with the first of them that is due and acts.

ghost use Rattle.std.specs.Prelude.{◌≡◌, ◌<◌, ◌≤◌, ◌^◌, false, true, IfOk, IsSome, Some, length};
ghost use Rattle.ds_base.specs.Schedules.{IsEarly};
ghost use Rattle.ds_ipc.specs.Ipcs.{ipc_received_word};
ghost use Rattle.ds_dma.specs.States.{dma_due, most_waits};
ghost use Rattle.ds_runs.specs.Actors.{IsNumbered};
ghost use Rattle.ds_runs.specs.declared.actors.Actor.TheVariants as actors;
ghost use Rattle.ds_runs.specs.OrderLaws.{first_from};
ghost use Rattle.gx_geometry.specs.States.{AreListsSince};
ghost use Rattle.vram_banks.specs.Cells.{vram_written};
ghost use Rattle.ds_ports.specs.Acting.{acting_io_dues};
ghost use Rattle.ds_ports.specs.Dues.{io_due};
ghost use Rattle.ds_ports.specs.Guards.{is_overfull};
ghost use Rattle.ds_ports.specs.Inside.{is_of_geometry, moves_dues};
ghost use Rattle.ds_ports.specs.ProcessorIo.{before_move};
ghost use Rattle.ds_ports.specs.Registers.{after_write, card_word_taken, meaning_of, word_received, word_sent};
ghost use Rattle.ds_ports.specs.declared.registers.Register.TheVariants.{GxCommand};
ghost use Rattle.ds_ports.specs.Io.{channel_moved, channel_put_back, geometry_swapped, io_at_boot, io_event, io_of, is_settled, keys_pressed, settled, video_done, with_halted};
ghost use Rattle.video2d.specs.Videos.{video_answer};
ghost use Rattle.ds_ports.specs.RegisterMap.{numbers_of};

use crate::processor_io::Before;
use crate::registers::Register;
use crate::units::{IoParts, Units};
use ds_base::{Due, Proc, Space, Stop, Tick, Width, known};
use ds_runs::Actor;
use std::alloc::{AllocError, Global};
use std::marker::Model;
use std::ops::Deref;
use video2d::Shown;

/// The units behind the ports, with what is kept of them. It lends them to be asked; they change by its calls alone, so that what is kept stays so.
#[derive(Drop)]
pub struct Io {
    units: Units,
    first: Due,
    settled: bool,
}

impl Model for Io {
    ghost use Rattle.std.specs.Prelude.{◌≡◌, true, Some};
    ghost use Rattle.ds_ports.specs.Acting.{first_acting_io_due};
    ghost use Rattle.ds_ports.specs.Io.{IoState, is_settled};

    ghost Value = { IoState };

    ghost view = { λ u. u.units };

    ghost invariant = { λ u. (Some u.first ≡ first_acting_io_due u.units) × (u.settled ≡ true → is_settled u.units ≡ true) };
}

impl Deref for Io {
    type Target = Units;

    #[inline(always)]
    fn deref(&self) -> &Units
        ensures { result.now ≡ self.now }
    {
        &self.units
    }
}

/// Whether a write of a register may change when something is due, or leave something to settle.
#[inline(always)]
fn moves_dues(register: Register) -> bool
    ensures { result ≡ moves_dues register }
{
    matches!(
        register,
        Register::Dmasad
            | Register::Dmadad
            | Register::Dmacnt
            | Register::TmcntL
            | Register::TmcntH
            | Register::Divcnt
            | Register::DivNumer
            | Register::DivDenom
            | Register::Sqrtcnt
            | Register::SqrtParam
            | Register::GxWord
            | Register::GxCommand
            | Register::Auxspicnt
            | Register::CardWord
            | Register::CardData
    )
}

/// Whether a register is one of geometry's: a write of it changes geometry alone.
#[inline(always)]
fn is_of_geometry(register: Register) -> bool
    ensures { result ≡ is_of_geometry register }
{
    matches!(register, Register::GxWord | Register::GxCommand)
}

impl Io {
    /// The units at boot: no bank of video memory is enabled, all memory is zeros, no key is pressed, nothing is due, and no interrupt is
    /// raised.
    pub fn new(alloc: Global) -> Result<Io, AllocError>
        ensures { IfOk result (λ io. io ≡ io_at_boot) }
    {
        let units = Units::new(alloc)?;
        let first = units.find_acting();
        Ok(Io {
            units,
            first,
            settled: false,
        })
    }

    /// The units by their parts; what is kept of them is found.
    pub fn of(parts: IoParts) -> Io
        requires wramcnt { parts.wramcnt < 4 }
        requires pressed { parts.pressed < 2 ^ 12 }
        ensures { result ≡ parts }
    {
        let units = Units::of(parts);
        let first = units.find_acting();
        let settled = units.find_settled();
        Io {
            units,
            first,
            settled,
        }
    }

    /// A write of video memory, at an address of one of its spaces.
    #[tactic(auto, using(crate::proofs::Dues::vram_moves_none, crate::proofs::Settles::vram_settled))]
    pub fn write_vram(&mut self, space: Space, at: u32, width: Width, value: u32)
        ensures { self.new ≡ record self.old { vram = vram_written self.old.vram space at width value } }
    {
        self.units.write_vram(space, at, width, value);
    }

    /// Halts a processor, or lets it go on.
    #[inline(always)]
    #[tactic(auto, using(crate::proofs::Dues::halts_move_none, crate::proofs::Settles::halt_settled))]
    pub fn set_halted(&mut self, proc: Proc, halted: bool)
        ensures { self.new ≡ with_halted proc self.old halted }
    {
        self.units.set_halted(proc, halted);
    }

    /// The first that acts of those that are due: all do but quiet geometry. It is kept, and found again only where one of them had its event, or a
    /// timer, a DMA channel, the divider, the square root unit or geometry changed.
    #[inline(always)]
    #[tactic(auto, unfolding(crate::specs::Acting::first_acting_io_due))]
    pub fn first_acting(&self) -> Due
        ensures { Some result ≡ first_from 1 (acting_io_dues self.now) }
    {
        self.first
    }

    /// The event of an actor behind the ports that is due: a timer overflows and its interrupts are raised, a division or a square root is done, or
    /// the head command of geometry, which may end a stall: then ARM9's channels are due at the next tick or later; or the card gives the next word
    /// of the cartridge's file, which triggers its starter's channels, or ends a transfer without words, which raises an interrupt there. The
    /// display's is told by `show`, a DMA channel's by `move_channel`. Where nobody hears of what geometry does, before and after, what is kept
    /// stays.
    #[tactic(auto, using(crate::proofs::Silent::event_moves_none, crate::proofs::Silent::event_settles_none))]
    pub fn event(&mut self, actor: Actor, file: &[u8])
        requires numbered { IsNumbered actor }
        requires due { IsSome (io_due actor self.old) }
        requires early { IsEarly (io_due actor self.old) }
        requires run { actor ≡ actors.Geometry → self.old.gx.geometry.numbers.run ≤ 2 ^ 56 }
        ensures { self.new ≡ io_event file.now actor self.old }
    {
        let silent = actor == Actor::Geometry && self.units.is_silent();
        self.units.event(actor, file);
        if silent && self.units.is_silent() {
            return;
        }
        self.settled = false;
        self.first = self.units.find_acting();
    }

    /// The display's event, with the memories of palettes and of objects: it goes on, and where a line is drawn it draws it; interrupts are raised by
    /// each processor's DISPSTAT, and DMA channels triggered. It stops where the line that would be drawn needs what isn't there; then nothing
    /// changes.
    pub fn show(&mut self, palette: &[u8], oam: &[u8]) -> Result<Shown, Stop>
        requires colours { length palette.now ≡ 2048 }
        requires objects { length oam.now ≡ 2048 }
        requires early { IsEarly (io_due actors.Video self.old) }
        ensures answer { result ≡ video_answer oam.now self.old.video }
        ensures state { self.new ≡ video_done palette.now oam.now self.old }
    {
        self.settled = false;
        let shown = self.units.show(palette, oam);
        self.first = self.units.find_acting();
        shown
    }

    /// A processor's DMA channel that is due moves its first unit at a tick, but for the access itself: the unit isn't its plan's any more,
    /// and at its end its interrupt is raised where it is enabled. The access waits so many ticks, which the next unit waits for. Gives what
    /// `put_back` takes this back by.
    pub fn move_channel(&mut self, proc: Proc, now: Tick, waits: u32) -> Before
        requires due { IsSome (dma_due (io_of self.old proc).dma) }
        requires early { IsEarly (Some now) }
        requires waits { waits ≤ most_waits }
        ensures state { self.new ≡ channel_moved proc now waits self.old }
        ensures before { result ≡ before_move (io_of self.old proc) }
    {
        self.settled = false;
        let before = self.units.move_channel(proc, now, waits);
        self.first = self.units.find_acting();
        before
    }

    /// Takes a channel's move back: the processor's DMA channels and interrupt words are again as they were before it.
    pub fn put_back(&mut self, proc: Proc, before: Before)
        ensures { self.new ≡ channel_put_back proc before self.old }
    {
        self.settled = false;
        self.units.put_back(proc, before);
        self.first = self.units.find_acting();
    }

    /// Line 192 begins at a tick: a swap of geometry's lists that waits is made. Gives whether one waited; nothing changes where none did.
    pub fn swap(&mut self, now: Tick) -> bool
        requires { IsEarly (Some now) }
        ensures state { self.new ≡ geometry_swapped now self.old }
        ensures waited { result ≡ self.old.gx.swap_waits }
        ensures lists { self.old.gx.swap_waits ≡ true
            → AreListsSince self.old.gx.geometry self.new.gx.geometry.last.vertices self.new.gx.geometry.last.polygons }
    {
        self.settled = false;
        let waited = self.units.swap(now);
        self.first = self.units.find_acting();
        waited
    }

    /// Whether `settle` would leave all as it is, which is kept where it is known.
    #[inline(always)]
    pub fn is_settled(&self) -> bool
        ensures { result ≡ is_settled self.now }
    {
        self.settled || self.units.find_settled()
    }

    /// What follows each step at a tick: bit 21 of ARM9's IF tells geometry's level as it is, ARM9's channels that wait for geometry are triggered
    /// where its count is below 128, and the tick after a stall's end is kept only while it holds back the channel that is due. It costs nothing
    /// where nothing happened since the last such call but halts, writes of video memory, reads of ports, writes of ports that move no due tick, and
    /// what geometry does that nobody hears of.
    #[inline(always)]
    #[tactic(auto, using(crate::proofs::Settles::settled_stays))]
    pub fn settle(&mut self, now: Tick)
        requires { IsEarly (Some now) }
        ensures { self.new ≡ settled now self.old }
    {
        known!(self.units.laws());
        if !self.settled {
            self.settle_units(now);
        }
    }

    /// The same, where that isn't known to leave all as it is.
    #[tactic(auto, using(crate::proofs::Settles::settled_stays, crate::proofs::Settles::settles))]
    fn settle_units(&mut self, now: Tick)
        requires { IsEarly (Some now) }
        ensures { self.new ≡ settled now self.old }
    {
        known!(self.units.laws());
        if !self.units.find_settled() {
            self.units.settle(now);
            self.first = self.units.find_acting();
        }
        self.settled = true;
    }

    /// From now on these keys are pressed, a bit for each of A, B, Select, Start, Right, Left, Up, Down, R, L, X and Y. Each processor is told
    /// of it where its KEYCNT asks.
    #[tactic(auto, using(crate::proofs::Dues::keys_move_none))]
    pub fn press(&mut self, pressed: u16)
        requires { pressed < 2 ^ 12 }
        ensures { self.new ≡ keys_pressed self.old pressed }
    {
        self.settled = false;
        self.units.press(pressed);
    }

    /// What a read of a whole register leaves, for a processor at a tick. When the card is due, one changes that takes the card's word.
    #[inline(always)]
    #[tactic(auto, using(crate::proofs::Dues::reads_move_none, crate::proofs::Settled::reads_leave_settled))]
    pub(crate) fn read_register(&mut self, proc: Proc, now: Tick, register: Register)
        requires { IsEarly (Some now) }
        ensures { self.new ≡ (meaning_of register).after_read proc now self.old }
    {
        if register == Register::CardData {
            return self.take_card_word(proc, now);
        }
        self.units.read_register(proc, now, register);
    }

    #[inline(never)]
    fn take_card_word(&mut self, proc: Proc, now: Tick)
        requires { IsEarly (Some now) }
        ensures { self.new ≡ card_word_taken proc now self.old }
    {
        self.settled = false;
        self.units.read_register(proc, now, Register::CardData);
        self.first = self.units.find_acting();
    }

    /// A write of all bytes of a register, for a processor at a tick.
    #[tactic(auto, using(crate::proofs::Dues::writes_move_none, crate::proofs::Settled::writes_leave_settled))]
    pub(crate) fn write_register(
        &mut self,
        proc: Proc,
        now: Tick,
        register: Register,
        number: u32,
        value: u32,
    )
        requires number { number < numbers_of register }
        requires early { IsEarly (Some now) }
        requires room { is_overfull proc self.old ≡ false }
        ensures { self.new ≡ after_write proc now self.old register number value }
    {
        if moves_dues(register) {
            return self.write_moving(proc, now, register, number, value);
        }
        self.units
            .write_register(proc, now, register, number, value);
    }

    /// A word is written to GXFIFO or to the port of a command.
    #[inline(never)]
    #[tactic(auto, using(crate::proofs::Silent::geometry_written_moves_none, crate::proofs::Silent::geometry_written_settles_none))]
    pub(crate) fn write_command(&mut self, proc: Proc, now: Tick, number: u32, value: u32)
        requires early { IsEarly (Some now) }
        requires room { is_overfull proc self.old ≡ false }
        ensures { self.new ≡ after_write proc now self.old GxCommand number value }
    {
        let silent = self.units.is_silent();
        self.units.set_gx(proc, now, number, value);
        if silent && self.units.is_silent() {
            return;
        }
        self.settled = false;
        self.first = self.units.find_acting();
    }

    /// A word is sent to the other processor.
    #[inline(never)]
    #[tactic(auto, using(crate::proofs::Dues::sent_moves_none, crate::proofs::Settled::sent_settled))]
    pub(crate) fn send(&mut self, proc: Proc, word: u32)
        ensures { self.new ≡ word_sent proc self.old word }
    {
        self.units.send(proc, word);
    }

    /// A word is received from the other processor.
    #[inline(never)]
    #[tactic(auto, using(crate::proofs::Dues::received_moves_none, crate::proofs::Settled::received_settled))]
    pub(crate) fn receive(&mut self, proc: Proc) -> u32
        ensures value { result ≡ ipc_received_word self.old.ipc proc }
        ensures next { self.new ≡ word_received proc self.old }
    {
        self.units.receive(proc)
    }

    /// The same, where it may change when something is due, or leave something to settle. A write of geometry's does neither where nobody hears of
    /// what it does, before and after: then what is kept stays.
    #[inline(never)]
    #[tactic(auto, using(crate::proofs::Silent::geometry_written_moves_none, crate::proofs::Silent::geometry_written_settles_none))]
    fn write_moving(&mut self, proc: Proc, now: Tick, register: Register, number: u32, value: u32)
        requires number { number < numbers_of register }
        requires early { IsEarly (Some now) }
        requires room { is_overfull proc self.old ≡ false }
        ensures { self.new ≡ after_write proc now self.old register number value }
    {
        let silent = is_of_geometry(register) && self.units.is_silent();
        self.units
            .write_register(proc, now, register, number, value);
        if silent && self.units.is_silent() {
            return;
        }
        self.settled = false;
        self.first = self.units.find_acting();
    }
}
