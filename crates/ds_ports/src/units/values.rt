//! What each register reads and keeps.

ghost use Rattle.std.specs.Prelude.{◌≡◌, ◌<◌, true, Some};
ghost use Rattle.ds_base.specs.Bits.{flag};
ghost use Rattle.ds_base.specs.Schedules.{IsEarly};
ghost use Rattle.ds_ipc.specs.Ipcs.{ipc_received_word};
ghost use Rattle.ds_ports.specs.Inside.{is_of_unit};
ghost use Rattle.ds_ports.specs.Registers.{card_word_taken, divcnt_word, meaning_of, sqrtcnt_word, word_of_two, word_received};
ghost use Rattle.ds_ports.specs.RegisterMap.{numbers_of};

use crate::displays::{display_kept, display_value};
use crate::processor_io::{extkeyin, keyinput};
use crate::registers::Register;
use crate::units::Units;
use ds_base::{Proc, Tick, Width};
use ds_dma::DmaPort;
use ds_math::{Divider, Root};

/// The offset of the port by which the card's words are taken.
const CARD_DATA: u32 = 0x10_0010;

/// The low or the high word of a number, by 0 and 1.
fn word_of_two(which: u32, number: u64) -> u32
    ensures { result ≡ word_of_two which number }
{
    if which == 0 {
        (number % 0x1_0000_0000) as u32
    } else {
        (number >> 32) as u32
    }
}

/// DIVCNT.
fn divcnt(divider: &Divider) -> u32
    ensures { result ≡ divcnt_word divider.now }
{
    let seen = divider.read();
    let zero = if seen.zero { 0x4000 } else { 0 };
    let busy = if seen.busy { 0x8000 } else { 0 };
    seen.mode as u32 + zero + busy
}

/// What SQRTCNT keeps.
fn is_wide(root: &Root) -> u32
    ensures { result ≡ flag 0 root.now.wide }
{
    if root.read().wide { 1 } else { 0 }
}

/// SQRTCNT.
fn sqrtcnt(root: &Root) -> u32
    ensures { result ≡ sqrtcnt_word root.now }
{
    let busy = if root.read().busy { 0x8000 } else { 0 };
    is_wide(root) + busy
}

impl Units {
    /// What a register reads, for a processor at a tick.
    pub(crate) fn value_of(&self, proc: Proc, now: Tick, register: Register, number: u32) -> u32
        requires { number < numbers_of register }
        ensures { result ≡ (meaning_of register).value proc now self.now number }
    {
        match register {
            Register::Dmasad => self.processor(proc).channel(DmaPort::Source, number),
            Register::Dmadad => self.processor(proc).channel(DmaPort::Target, number),
            Register::Dmacnt => self.processor(proc).channel(DmaPort::Control, number),
            Register::Dmafill => self.fill[number as usize],
            Register::TmcntL => self.processor(proc).counter(number, now),
            Register::TmcntH => self.processor(proc).control(number),
            Register::Keyinput => keyinput(self.pressed),
            Register::Keycnt => self.processor(proc).keycnt() as u32,
            Register::Extkeyin => extkeyin(self.pressed),
            Register::Ipcsync => self.ipc.sync_read(proc) as u32,
            Register::Ipcfifocnt => self.ipc.control_read(proc) as u32,
            Register::Ipcfiforecv => self.ipc.look(proc),
            Register::Ime => self.processor(proc).ime(),
            Register::Ie => self.processor(proc).ie(),
            Register::If => self.processor(proc).flags(),
            Register::Wramcnt | Register::Wramstat => self.wramcnt as u32,
            Register::Postflg => 1,
            Register::Ipcfifosend | Register::Haltcnt => 0,
            _ => self.value_of_unit(proc, now, register, number),
        }
    }

    /// The same, of one of video's, the maths unit's, geometry's and the card's. It stands apart so that the others need no stack.
    #[inline(never)]
    fn value_of_unit(&self, proc: Proc, now: Tick, register: Register, number: u32) -> u32
        requires number { number < numbers_of register }
        requires of_unit { is_of_unit register ≡ true }
        ensures { result ≡ (meaning_of register).value proc now self.now number }
    {
        match register {
            Register::DisplayHalf => display_value(&self.video, proc, Width::Half, number),
            Register::DisplayWord => display_value(&self.video, proc, Width::Word, number),
            Register::Vramstat => self.vram.allotted7() as u32,
            Register::Divcnt => divcnt(&self.divider),
            Register::DivNumer => word_of_two(number, self.divider.read().numerator),
            Register::DivDenom => word_of_two(number, self.divider.read().denominator),
            Register::DivResult => word_of_two(number, self.divider.read().quotient),
            Register::DivremResult => word_of_two(number, self.divider.read().remainder),
            Register::Sqrtcnt => sqrtcnt(&self.root),
            Register::SqrtResult => self.root.read().root,
            Register::SqrtParam => word_of_two(number, self.root.read().value),
            Register::GxWord | Register::GxCommand => self.gx.port_read(number),
            Register::Auxspicnt => self.card.value(proc, number, Width::Half),
            Register::CardWord => self.card.value(proc, number, Width::Word),
            Register::CardData => self.card.value(proc, CARD_DATA, Width::Word),
            _ => 0,
        }
    }

    /// What a read of a whole register leaves, for a processor at a tick.
    pub fn read_register(&mut self, proc: Proc, now: Tick, register: Register)
        requires early { IsEarly (Some now) }
        ensures { self.new ≡ (meaning_of register).after_read proc now self.old }
    {
        match register {
            Register::Ipcfiforecv => {
                let _word = self.receive(proc);
            }
            Register::CardData => self.take_card_word(proc, now),
            _ => {}
        }
    }

    /// Takes the card's word that a processor waits for, if one is ready.
    fn take_card_word(&mut self, proc: Proc, now: Tick)
        requires { IsEarly (Some now) }
        ensures { self.new ≡ card_word_taken proc now self.old }
    {
        let raised = self.card.read(proc, CARD_DATA, Width::Word, now).raised;
        match proc {
            Proc::Nine => self.nine.raise(raised.nine),
            Proc::Seven => self.seven.raise(raised.seven),
        }
    }

    /// Takes the word that a processor receives, and gives it.
    pub(crate) fn receive(&mut self, proc: Proc) -> u32
        ensures word { result ≡ ipc_received_word self.old.ipc proc }
        ensures state { self.new ≡ word_received proc self.old }
    {
        let got = self.ipc.receive(proc);
        self.raise(got.raised);
        got.word
    }

    /// The bits that a write of some of a register's bytes leaves as they are in the others.
    pub(crate) fn kept_of(&self, proc: Proc, register: Register, number: u32) -> u32
        requires { number < numbers_of register }
        ensures { result ≡ (meaning_of register).kept proc self.now number }
    {
        match register {
            Register::Dmasad => self.processor(proc).channel(DmaPort::Source, number),
            Register::Dmadad => self.processor(proc).channel(DmaPort::Target, number),
            Register::Dmacnt => self.processor(proc).channel(DmaPort::Control, number),
            Register::Dmafill => self.fill[number as usize],
            Register::TmcntL => self.processor(proc).reload(number),
            Register::TmcntH => self.processor(proc).control(number),
            Register::Keycnt => self.processor(proc).keycnt() as u32,
            Register::Ipcsync => self.ipc.sync_kept(proc) as u32,
            Register::Ipcfifocnt => self.ipc.control_kept(proc) as u32,
            Register::Ime => self.processor(proc).ime(),
            Register::Ie => self.processor(proc).ie(),
            Register::Wramcnt => self.wramcnt as u32,
            Register::Ipcfifosend | Register::If | Register::Haltcnt => 0,
            Register::Keyinput | Register::Extkeyin | Register::Ipcfiforecv => 0,
            Register::Wramstat | Register::Postflg => 0,
            _ => self.kept_of_unit(proc, register, number),
        }
    }

    /// The same, of one of video's, the maths unit's, geometry's and the card's.
    #[inline(never)]
    fn kept_of_unit(&self, proc: Proc, register: Register, number: u32) -> u32
        requires number { number < numbers_of register }
        requires of_unit { is_of_unit register ≡ true }
        ensures { result ≡ (meaning_of register).kept proc self.now number }
    {
        match register {
            Register::DisplayHalf => display_kept(&self.video, proc, Width::Half, number),
            Register::DisplayWord => display_kept(&self.video, proc, Width::Word, number),
            Register::Divcnt => self.divider.read().mode as u32,
            Register::DivNumer => word_of_two(number, self.divider.read().numerator),
            Register::DivDenom => word_of_two(number, self.divider.read().denominator),
            Register::Sqrtcnt => is_wide(&self.root),
            Register::SqrtParam => word_of_two(number, self.root.read().value),
            Register::GxWord | Register::GxCommand => self.gx.port_kept(number),
            Register::Auxspicnt => self.card.kept(proc, number, Width::Half),
            Register::CardWord => self.card.kept(proc, number, Width::Word),
            _ => 0,
        }
    }
}
