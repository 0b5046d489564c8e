//! The registers.

ghost use Rattle.std.specs.Prelude.{◌≡◌, ◌<◌, ◌^◌, ℕ, length, Some, None, Option, IfSome, if◌then◌else◌, slice_index};
ghost use Rattle.arm_core.specs.Registers.{bank, bank_of, general_of, is_thumb, jumped, late_r15, late_register, next, place, put, put_in, r15, register, register_in, saved_place, words_of};
ghost use Rattle.arm_core.specs.Cores.{booted};
ghost use Rattle.arm_core.specs.Saved.{AreRegisters};

use crate::banks::Bank;
use ds_base::known;
use std::marker::Model;

/// The 37 registers of a processor (ARM manual, A2.3 "Registers"). r15 is the address of the instruction that is executed next.
#[derive(Drop)]
pub struct Registers {
    /// r0 to r14 of the bank of CPSR's mode. The last is 0 always, so that the number of no register reads as 0.
    present: [u32; 16],
    /// r0 to r12; r8 to r12 of FIQ; r13 and r14 of System, FIQ, Supervisor, Abort, IRQ, Undefined. Those that are present count for nothing here.
    store: [u32; 30],
    pub(crate) pc: u32,
    pub(crate) cpsr: u32,
    /// SPSR of FIQ, Supervisor, Abort, IRQ, Undefined.
    pub(crate) saved: [u32; 5],
    /// The bank of CPSR's mode, made anew where CPSR's mode is written.
    bank: Bank,
    /// How many bytes an instruction of CPSR's state has, likewise.
    size: u32,
}

impl Model for Registers {
    ghost use Rattle.std.specs.Prelude.{◌≡◌, if◌then◌else◌, slice_index};
    ghost use Rattle.ds_base.specs.Bits.{bit, bits};
    ghost use Rattle.arm_core.specs.Registers.{RegisterState, bank_of, general_of};

    ghost Value = { RegisterState };

    ghost view = { λ s. record { general = general_of s.bank 15 s.present s.store; pc = s.pc; cpsr = s.cpsr; saved = s.saved } };

    ghost invariant = { λ s. (s.bank ≡ bank_of (bits 0 5 s.cpsr)) × (s.size ≡ (if bit 5 s.cpsr then 2 else 4)) × (slice_index s.present 15 ≡ 0) };
}

/// Where r0 to r14 stand in each bank, in the order of the banks. The last of sixteen is r15's, which isn't among them and isn't asked for.
const PLACES: [[u8; 16]; 6] = [
    [0, 1, 2, 3, 4, 5, 6, 7, 8, 9, 10, 11, 12, 18, 19, 0],
    [0, 1, 2, 3, 4, 5, 6, 7, 13, 14, 15, 16, 17, 20, 21, 0],
    [0, 1, 2, 3, 4, 5, 6, 7, 8, 9, 10, 11, 12, 22, 23, 0],
    [0, 1, 2, 3, 4, 5, 6, 7, 8, 9, 10, 11, 12, 24, 25, 0],
    [0, 1, 2, 3, 4, 5, 6, 7, 8, 9, 10, 11, 12, 26, 27, 0],
    [0, 1, 2, 3, 4, 5, 6, 7, 8, 9, 10, 11, 12, 28, 29, 0],
];

/// The bank of a mode.
#[inline(always)]
fn bank_by(mode: u32) -> Bank
    ensures { result ≡ bank_of mode }
{
    match mode {
        0x11 => Bank::Fiq,
        0x12 => Bank::Irq,
        0x13 => Bank::Supervisor,
        0x17 => Bank::Abort,
        0x1B => Bank::Undefined,
        _ => Bank::System,
    }
}

/// How many bytes an instruction has, in Thumb state or in ARM state.
#[inline(always)]
fn size_by(thumb: bool) -> u32
    ensures { result ≡ (if thumb then 2 else 4) }
{
    if thumb { 2 } else { 4 }
}

impl Bank {
    /// Where a register below r15 stands among the general registers.
    #[inline(always)]
    #[tactic(auto, using(crate::proofs::Places::whole_row))]
    pub fn place(self, r: u8) -> usize
        requires { r < 15 }
        ensures place { result ≡ place self r }
        ensures within { result < 30 }
    {
        PLACES[self as usize][r as usize] as usize
    }

    /// Which SPSR it has.
    #[inline(always)]
    pub fn saved_place(self) -> Option<usize>
        ensures place { result ≡ saved_place self }
        ensures within { IfSome result (λ at. at < 5) }
    {
        match self {
            Bank::System => None,
            Bank::Fiq => Some(0),
            Bank::Supervisor => Some(1),
            Bank::Abort => Some(2),
            Bank::Irq => Some(3),
            Bank::Undefined => Some(4),
        }
    }
}

/// Puts the registers that a bank shows among the general ones.
#[tactic(auto, using(crate::proofs::Presents::one_more, crate::proofs::Presents::none_yet))]
fn put_back(bank: Bank, present: &[u32; 16], store: &mut [u32; 30])
    ensures { store.new ≡ general_of bank 15 present.now store.old }
{
    for r in 0..15_u8 {
        store[bank.place(r)] = present[r as usize];
    }
}

/// Brings the registers that a bank shows.
fn bring(bank: Bank, store: &[u32; 30], present: &mut [u32; 16])
    ensures shown { (r : ℕ) → r < 15 → slice_index present.new r ≡ slice_index store.now (place bank r) }
    ensures last { slice_index present.new 15 ≡ slice_index present.old 15 }
{
    for r in 0..15_u8 {
        present[r as usize] = store[bank.place(r)];
    }
}

fn is_word(word: u32)
    ensures { word < 2 ^ 32 }
{}

/// Does nothing; its contract states that these are words.
fn are_words(words: &[u32])
    ensures { (i : ℕ) → i < length words.now → slice_index words.now i < 2 ^ 32 }
{
    for word in words {
        is_word(*word);
    }
}

impl Registers {
    /// The registers at boot, from the entry and the stacks of System, IRQ and Supervisor mode: System mode with interrupts masked, in
    /// ARM state; r12, r14 and r15 are the entry, and what isn't named is 0.
    #[tactic(auto, unfolding(crate::specs::Registers::general_of))]
    pub fn boot(entry: u32, stacks: [u32; 3]) -> Registers
        ensures { result ≡ booted entry stacks }
    {
        let [system, irq, supervisor] = stacks;
        let mut present = [0; 16];
        present[12] = entry;
        present[13] = system;
        present[14] = entry;
        let mut store = [0; 30];
        store[22] = supervisor;
        store[26] = irq;
        Registers {
            present,
            store,
            pc: entry,
            cpsr: 0xDF,
            saved: [0; 5],
            bank: Bank::System,
            size: 4,
        }
    }

    /// Those of these words: the general ones, r15, CPSR, and each SPSR, in the order of `words`.
    #[tactic(auto, using(crate::proofs::Presents::brought))]
    pub fn of(general: [u32; 30], pc: u32, cpsr: u32, saved: [u32; 5]) -> Registers
        ensures { result ≡ record { general = general; pc = pc; cpsr = cpsr; saved = saved } }
    {
        let bank = bank_by(cpsr & 31);
        let mut present = [0; 16];
        bring(bank, &general, &mut present);
        Registers {
            present,
            store: general,
            pc,
            cpsr,
            saved,
            bank,
            size: size_by((cpsr >> 5) & 1 == 1),
        }
    }

    /// Those before r15, in the order of `words`.
    pub fn general(&self) -> [u32; 30]
        ensures { result ≡ self.now.general }
    {
        let mut general = self.store;
        put_back(self.bank, &self.present, &mut general);
        general
    }

    /// All 37 in order: r0 to r12; r8 to r12 of FIQ; r13 and r14 of System, FIQ, Supervisor, Abort, IRQ, Undefined; r15; CPSR; SPSR of
    /// FIQ, Supervisor, Abort, IRQ, Undefined.
    pub fn words(&self) -> [u32; 37]
        ensures { result ≡ words_of self.now }
    {
        let general = self.general();
        let mut words = [0; 37];
        words[..30].copy_from_slice(&general);
        words[30] = self.pc;
        words[31] = self.cpsr;
        words[32..].copy_from_slice(&self.saved);
        words
    }

    /// Does nothing; its contract states what holds at every time: there are 37, and each is a word.
    pub fn laws(&self)
        ensures { AreRegisters self.now }
    {
        known!(are_words(&self.general()));
        known!(are_words(&self.saved));
        is_word(self.pc);
    }

    /// The address of the instruction that is executed next.
    #[inline(always)]
    pub fn pc(&self) -> u32
        ensures { result ≡ self.now.pc }
    {
        self.pc
    }

    /// CPSR.
    #[inline(always)]
    pub fn cpsr(&self) -> u32
        ensures { result ≡ self.now.cpsr }
    {
        self.cpsr
    }

    /// Writes CPSR with another mode: the registers of its bank become present.
    #[inline(never)]
    #[tactic(auto, using(crate::proofs::Presents::brought))]
    fn change_mode(&mut self, cpsr: u32)
        ensures { self.new ≡ record self.old { cpsr = cpsr } }
    {
        put_back(self.bank, &self.present, &mut self.store);
        self.bank = bank_by(cpsr & 31);
        bring(self.bank, &self.store, &mut self.present);
        self.cpsr = cpsr;
        self.size = size_by((cpsr >> 5) & 1 == 1);
    }

    /// Writes CPSR.
    #[inline(always)]
    pub fn set_cpsr(&mut self, cpsr: u32)
        ensures { self.new ≡ record self.old { cpsr = cpsr } }
    {
        if cpsr & 31 == self.cpsr & 31 {
            self.cpsr = cpsr;
            self.size = size_by((cpsr >> 5) & 1 == 1);
        } else {
            self.change_mode(cpsr);
        }
    }

    /// Whether the processor is in Thumb state.
    #[inline(always)]
    pub fn is_thumb(&self) -> bool
        ensures { result ≡ is_thumb self.now }
    {
        self.size == 2
    }

    /// The bank that the mode sees.
    #[inline(always)]
    pub fn bank(&self) -> Bank
        ensures { result ≡ bank self.now }
    {
        self.bank
    }

    /// What r15 reads as.
    #[inline(always)]
    pub fn r15(&self) -> u32
        ensures { result ≡ r15 self.now }
    {
        self.pc.wrapping_add(2 * self.size)
    }

    /// What r15 reads as where it is stored, and where a register shifts.
    #[inline(always)]
    pub fn late_r15(&self) -> u32
        ensures { result ≡ late_r15 self.now }
    {
        self.pc.wrapping_add(if self.is_thumb() { 4 } else { 12 })
    }

    /// A register below r15.
    #[inline(always)]
    #[tactic(auto, using(crate::proofs::Presents::shown))]
    pub fn low(&self, r: u8) -> u32
        requires { r < 15 }
        ensures { (as_r15 : ℕ) → result ≡ register_in (bank self.now) as_r15 self.now r }
    {
        self.present[r as usize]
    }

    /// A register of any bank below r15.
    #[inline(never)]
    #[tactic(auto, using(crate::proofs::Presents::shown))]
    fn low_of(&self, bank: Bank, r: u8) -> u32
        requires { r < 15 }
        ensures { (as_r15 : ℕ) → result ≡ register_in bank as_r15 self.now r }
    {
        let place = bank.place(r);
        if place == self.bank.place(r) {
            self.present[r as usize]
        } else {
            self.store[place]
        }
    }

    /// Writes a register below r15.
    #[inline(always)]
    #[tactic(auto, using(crate::proofs::Presents::put_shown))]
    pub fn set_low(&mut self, r: u8, value: u32)
        requires { r < 15 }
        ensures { self.new ≡ put_in (bank self.old) r value self.old }
    {
        self.present[r as usize] = value;
    }

    /// Writes a register of any bank below r15.
    #[inline(never)]
    #[tactic(auto, using(crate::proofs::Presents::put_shown))]
    fn set_low_of(&mut self, bank: Bank, r: u8, value: u32)
        requires { r < 15 }
        ensures { self.new ≡ put_in bank r value self.old }
    {
        let place = bank.place(r);
        if place == self.bank.place(r) {
            self.present[r as usize] = value;
        } else {
            self.store[place] = value;
        }
    }

    /// A register as an instruction reads it.
    #[inline(always)]
    pub fn get(&self, r: u8) -> u32
        requires { r < 16 }
        ensures { result ≡ register self.now r }
    {
        if r == 15 { self.r15() } else { self.low(r) }
    }

    /// A register of a bank, as it is stored, or read where a register shifts.
    #[inline(always)]
    pub fn get_late_in(&self, bank: Bank, r: u8) -> u32
        requires { r < 16 }
        ensures { result ≡ register_in bank (late_r15 self.now) self.now r }
    {
        if r == 15 {
            self.late_r15()
        } else if bank == self.bank {
            self.low(r)
        } else {
            self.low_of(bank, r)
        }
    }

    /// A register as it is stored, or read where a register shifts.
    #[inline(always)]
    pub fn get_late(&self, r: u8) -> u32
        requires { r < 16 }
        ensures { result ≡ late_register self.now r }
    {
        if r == 15 {
            self.late_r15()
        } else {
            self.low(r)
        }
    }

    /// The address of the instruction behind the one that is executed next.
    #[inline(always)]
    pub fn next_pc(&self) -> u32
        ensures { result ≡ (next self.now).pc }
    {
        self.pc.wrapping_add(self.size)
    }

    /// r15 goes on to the next instruction.
    #[inline(always)]
    pub fn go_on(&mut self)
        ensures { self.new ≡ next self.old }
    {
        self.pc = self.next_pc();
    }

    /// Writes r15, aligned for the state.
    #[inline(always)]
    pub fn jump(&mut self, target: u32)
        ensures { self.new ≡ jumped target self.old }
    {
        self.pc = target & !(self.size - 1);
    }

    /// Writes a register of a bank.
    #[inline(always)]
    pub fn set_in(&mut self, bank: Bank, r: u8, value: u32)
        requires { r < 16 }
        ensures { self.new ≡ put_in bank r value self.old }
    {
        if r == 15 {
            self.jump(value);
        } else if bank == self.bank {
            self.set_low(r, value);
        } else {
            self.set_low_of(bank, r, value);
        }
    }

    /// Writes a register.
    #[inline(always)]
    pub fn set(&mut self, r: u8, value: u32)
        requires { r < 16 }
        ensures { self.new ≡ put r value self.old }
    {
        if r == 15 {
            self.jump(value);
        } else {
            self.set_low(r, value);
        }
    }
}
