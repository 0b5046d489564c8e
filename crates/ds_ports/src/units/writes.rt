//! What a write of each register does.

ghost use Rattle.std.specs.Prelude.{◌≡◌, ◌<◌, ◌%◌, ◌^◌, false, true, Some};
ghost use Rattle.ds_base.specs.Bits.{bit};
ghost use Rattle.ds_base.specs.Schedules.{IsEarly};
ghost use Rattle.ds_ports.specs.Guards.{is_overfull};
ghost use Rattle.ds_ports.specs.Inside.{is_of_unit, is_own};
ghost use Rattle.ds_ports.specs.Registers.{bank_set, card_set, division_set, fifo_control_set, gx_set, halt_refusal, after_write, meaning_of, root_set, sync_set, with_word_of_two, word_sent};
ghost use Rattle.ds_ports.specs.RegisterMap.{numbers_of};

use crate::registers::Register;
use crate::units::Units;
use ds_base::{LeftKind, Proc, Stop, Tick, Width};
use gx_fifo::ENTRIES;

/// A number with another low or high word.
fn with_word_of_two(which: u32, number: u64, word: u32) -> u64
    ensures { result ≡ with_word_of_two which number word }
{
    if which == 0 {
        number / 0x1_0000_0000 * 0x1_0000_0000 + word as u64
    } else {
        number % 0x1_0000_0000 + word as u64 * 0x1_0000_0000
    }
}

/// The stop for which a write of HALTCNT is refused.
fn halt_refusal(value: u32) -> Option<Stop>
    requires { value < 2 ^ 8 }
    ensures { result ≡ halt_refusal value }
{
    let mode = value >> 6;
    if mode == 1 || mode == 3 {
        return Some(Stop {
            kind: LeftKind::HaltMode,
            value,
        });
    }
    None
}

impl Units {
    /// A write of a bank's control.
    fn set_bank(&mut self, bank: u32, value: u32)
        requires { bank < 9 }
        ensures { self.new ≡ bank_set self.old bank (value % 2 ^ 8) }
    {
        self.vram.set_control(bank as u8, (value % 0x100) as u8);
    }

    /// A write of IPCSYNC.
    fn set_sync(&mut self, proc: Proc, value: u32)
        ensures { self.new ≡ sync_set proc self.old (value % 2 ^ 16) }
    {
        let raised = self.ipc.sync_write(proc, (value % 0x1_0000) as u16);
        self.raise(raised);
    }

    /// A write of IPCFIFOCNT.
    fn set_fifo_control(&mut self, proc: Proc, value: u32)
        ensures { self.new ≡ fifo_control_set proc self.old (value % 2 ^ 16) }
    {
        let raised = self.ipc.control_write(proc, (value % 0x1_0000) as u16);
        self.raise(raised);
    }

    /// A write of IPCFIFOSEND.
    pub(crate) fn send(&mut self, proc: Proc, word: u32)
        ensures { self.new ≡ word_sent proc self.old word }
    {
        let raised = self.ipc.send(proc, word);
        self.raise(raised);
    }

    /// A write of DIVCNT starts a division.
    fn set_divcnt(&mut self, now: Tick, value: u32)
        requires { IsEarly (Some now) }
        ensures { self.new ≡ division_set self.old now (value % 2 ^ 2) self.old.divider.numerator self.old.divider.denominator }
    {
        let seen = self.divider.read();
        self.divider
            .start((value % 4) as u8, seen.numerator, seen.denominator, now);
    }

    /// So does one of a word of DIV_NUMER.
    fn set_numerator(&mut self, now: Tick, number: u32, value: u32)
        requires { IsEarly (Some now) }
        ensures { self.new ≡ division_set self.old now self.old.divider.mode
            (with_word_of_two number self.old.divider.numerator value) self.old.divider.denominator }
    {
        let seen = self.divider.read();
        let numerator = with_word_of_two(number, seen.numerator, value);
        self.divider
            .start(seen.mode, numerator, seen.denominator, now);
    }

    /// So does one of a word of DIV_DENOM.
    fn set_denominator(&mut self, now: Tick, number: u32, value: u32)
        requires { IsEarly (Some now) }
        ensures { self.new ≡ division_set self.old now self.old.divider.mode self.old.divider.numerator
            (with_word_of_two number self.old.divider.denominator value) }
    {
        let seen = self.divider.read();
        let denominator = with_word_of_two(number, seen.denominator, value);
        self.divider
            .start(seen.mode, seen.numerator, denominator, now);
    }

    /// A write of SQRTCNT starts a square root.
    fn set_sqrtcnt(&mut self, now: Tick, value: u32)
        requires { IsEarly (Some now) }
        ensures { self.new ≡ root_set self.old now (bit 0 value) self.old.root.value }
    {
        let seen = self.root.read();
        self.root.start(value % 2 == 1, seen.value, now);
    }

    /// So does one of a word of SQRT_PARAM.
    fn set_radicand(&mut self, now: Tick, number: u32, value: u32)
        requires { IsEarly (Some now) }
        ensures { self.new ≡ root_set self.old now self.old.root.wide (with_word_of_two number self.old.root.value value) }
    {
        let seen = self.root.read();
        let value = with_word_of_two(number, seen.value, value);
        self.root.start(seen.wide, value, now);
    }

    /// Whether more entries wait for geometry than leave room for what a write of a processor's may add. ARM7's adds none.
    #[inline(always)]
    pub fn is_overfull(&self, proc: Proc) -> bool
        ensures { result ≡ is_overfull proc self.now }
    {
        proc == Proc::Nine && self.gx.waiting() > ENTRIES as u32 - 4
    }

    /// A write of one of geometry's, which ARM9 alone has.
    pub(crate) fn set_gx(&mut self, proc: Proc, now: Tick, number: u32, value: u32)
        requires early { IsEarly (Some now) }
        requires room { is_overfull proc self.old ≡ false }
        ensures { self.new ≡ gx_set proc now self.old number value }
    {
        if proc == Proc::Nine {
            self.gx.port_write(number, value, now);
        }
    }

    /// A write of one of the card's; one that is refused leaves all.
    fn set_card(&mut self, proc: Proc, now: Tick, number: u32, width: Width, value: u32)
        requires { IsEarly (Some now) }
        ensures { self.new ≡ card_set width proc now self.old number value }
    {
        let _refused = self.card.write(proc, number, width, value, now);
    }

    /// A write of a register of a processor's own.
    #[tactic(auto, using(crate::proofs::OwnWrites::own_is))]
    fn write_processor_io(
        &mut self,
        proc: Proc,
        now: Tick,
        register: Register,
        number: u32,
        value: u32,
    )
        requires number { number < numbers_of register }
        requires own { is_own register ≡ true }
        requires early { IsEarly (Some now) }
        ensures { self.new ≡ after_write proc now self.old register number value }
    {
        let pressed = self.pressed;
        match proc {
            Proc::Nine => self.nine.write(proc, pressed, now, register, number, value),
            Proc::Seven => self
                .seven
                .write(proc, pressed, now, register, number, value),
        }
    }

    /// A write of all bytes of a register, for a processor at a tick.
    pub fn write_register(
        &mut self,
        proc: Proc,
        now: Tick,
        register: Register,
        number: u32,
        value: u32,
    )
        requires number { number < numbers_of register }
        requires early { IsEarly (Some now) }
        requires room { is_overfull proc self.old ≡ false }
        ensures { self.new ≡ after_write proc now self.old register number value }
    {
        match register {
            Register::Dmasad
            | Register::Dmadad
            | Register::Dmacnt
            | Register::TmcntL
            | Register::TmcntH
            | Register::Keycnt
            | Register::Ime
            | Register::Ie
            | Register::If
            | Register::Haltcnt => self.write_processor_io(proc, now, register, number, value),
            Register::Dmafill => self.fill[number as usize] = value,
            Register::Ipcsync => self.set_sync(proc, value),
            Register::Ipcfifocnt => self.set_fifo_control(proc, value),
            Register::Ipcfifosend => self.send(proc, value),
            Register::Wramcnt => self.wramcnt = (value % 4) as u8,
            Register::Keyinput | Register::Extkeyin | Register::Ipcfiforecv => {}
            Register::Wramstat | Register::Postflg => {}
            _ => self.write_unit(proc, now, register, number, value),
        }
    }

    /// The same, of one of video's, the maths unit's, geometry's and the card's.
    #[inline(never)]
    fn write_unit(&mut self, proc: Proc, now: Tick, register: Register, number: u32, value: u32)
        requires number { number < numbers_of register }
        requires of_unit { is_of_unit register ≡ true }
        requires early { IsEarly (Some now) }
        requires room { is_overfull proc self.old ≡ false }
        ensures { self.new ≡ after_write proc now self.old register number value }
    {
        match register {
            Register::DisplayHalf => self.video.port_write(proc, number, Width::Half, value),
            Register::DisplayWord => self.video.port_write(proc, number, Width::Word, value),
            Register::Vramcnt => self.set_bank(number, value),
            Register::Divcnt => self.set_divcnt(now, value),
            Register::DivNumer => self.set_numerator(now, number, value),
            Register::DivDenom => self.set_denominator(now, number, value),
            Register::Sqrtcnt => self.set_sqrtcnt(now, value),
            Register::SqrtParam => self.set_radicand(now, number, value),
            Register::GxWord | Register::GxCommand => self.set_gx(proc, now, number, value),
            Register::Auxspicnt => self.set_card(proc, now, number, Width::Half, value),
            Register::CardWord => self.set_card(proc, now, number, Width::Word, value),
            _ => {}
        }
    }

    /// The stop for which a write of all bytes of a register is refused.
    #[inline(always)]
    pub fn refusal_of(
        &self,
        proc: Proc,
        register: Register,
        number: u32,
        value: u32,
    ) -> Option<Stop>
        requires { number < numbers_of register }
        ensures { result ≡ (meaning_of register).refusal proc self.now number value }
    {
        match register {
            Register::Dmacnt => self.processor(proc).control_refusal(number, value),
            Register::Auxspicnt => self.card.refusal(number, Width::Half, value),
            Register::CardWord => self.card.refusal(number, Width::Word, value),
            Register::Haltcnt => halt_refusal(value % 0x100),
            _ => None,
        }
    }
}
