//! CP15.

ghost use Rattle.std.specs.Prelude.{◌≡◌, ◌↔◌, ◌<◌, false, true};
ghost use Rattle.cp15_tcm.specs.Registers.{Cp15State, IsCp15, cp15_at_boot, register_of, register_read, vectors_of, Writes};
ghost use Rattle.cp15_tcm.specs.TightlyCoupled.{tcm_of, IsMainPast};

mod saved;

use crate::answers::{Mcr, Tcm};
use crate::windows::{MAIN_FIRST, Windows};
use ds_base::{DTCM_BYTES, ITCM_BYTES, LeftKind, Stop};
pub use saved::saved_laws;
use std::marker::Model;

/// The control register's bits that are kept.
const CONTROL_MASK: u32 = 0x000F_7005;
/// Its bits that always read as 1.
const CONTROL_ONES: u32 = 0x0000_0078;
/// The bits of DTCM's register that are kept.
const DTCM_MASK: u32 = 0xFFFF_F03E;
/// The bits of ITCM's register that are kept.
const ITCM_MASK: u32 = 0x0000_003E;

/// CP15: the three numbers that it keeps, and where the tightly coupled memories answer by them.
#[derive(Clone, Copy)]
pub struct Cp15 {
    control: u32,
    dtcm: u32,
    itcm: u32,
    windows: Windows,
}

impl Model for Cp15 {
    ghost use Rattle.std.specs.Prelude.{◌≡◌};
    ghost use Rattle.cp15_tcm.specs.Registers.{Cp15State, IsCp15};
    ghost use Rattle.cp15_tcm.specs.Windows.{windows_of};

    ghost Value = { Cp15State };

    ghost view = { λ c. record { control = c.control; dtcm = c.dtcm; itcm = c.itcm } };

    ghost inverse = { λ s. record { control = s.control; dtcm = s.dtcm; itcm = s.itcm; windows = windows_of s } };

    ghost invariant = { λ c. (c.windows ≡ windows_of (record { control = c.control; dtcm = c.dtcm; itcm = c.itcm }))
        × IsCp15 (record { control = c.control; dtcm = c.dtcm; itcm = c.itcm }) };
}

impl Cp15 {
    fn made(control: u32, dtcm: u32, itcm: u32) -> Cp15
        requires { IsCp15 (record { control = control; dtcm = dtcm; itcm = itcm }) }
        ensures { result ≡ record { control = control; dtcm = dtcm; itcm = itcm } }
    {
        Cp15 {
            control,
            dtcm,
            itcm,
            windows: Windows::new(control, dtcm, itcm),
        }
    }

    /// CP15 at boot. (Our choice: ITCM is on at 0 with 32 MiB of mirrors, DTCM at 3000000h with 16 KiB, vectors are high.)
    pub fn boot() -> Cp15
        ensures { result ≡ cp15_at_boot }
    {
        Cp15::made(0x0005_2078, 0x0300_000A, 0x0000_0020)
    }

    /// What MRC reads of the register of these codes; 0 where there is none.
    pub fn mrc(&self, op1: u8, crn: u8, crm: u8, op2: u8) -> u32
        ensures { result ≡ register_read self.now (register_of op1 crn crm op2) }
    {
        match (op1, crn, crm, op2) {
            (0, 0, 0, 0) => 0x4105_9461,
            (0, 0, 0, 1) => 0x0F0D_2112,
            (0, 0, 0, 2) => 0x0014_0180,
            (0, 1, 0, 0) => self.control,
            (0, 9, 1, 0) => self.dtcm,
            (0, 9, 1, 1) => self.itcm,
            _ => 0,
        }
    }

    /// MCR writes the register of these codes: it takes the bits that it keeps. Halt comes exactly for the wait for an interrupt
    /// (c7,c0,4); Left exactly where bit 7 of the control register, big-endian mode, would be set, and then nothing changes.
    #[tactic(auto, using(crate::proofs::Kept::dtcm_kept, crate::proofs::Kept::itcm_kept))]
    pub fn mcr(&mut self, op1: u8, crn: u8, crm: u8, op2: u8, value: u32) -> Mcr
        ensures { Writes (register_of op1 crn crm op2) value self.old result self.new }
    {
        match (op1, crn, crm, op2) {
            (0, 1, 0, 0) => self.set_control(value),
            (0, 7, 0, 4) => Mcr::Halt,
            (0, 9, 1, 0) => {
                *self = Cp15::made(self.control, value & DTCM_MASK, self.itcm);
                Mcr::Kept
            }
            (0, 9, 1, 1) => {
                *self = Cp15::made(self.control, self.dtcm, value & ITCM_MASK);
                Mcr::Kept
            }
            _ => Mcr::Kept,
        }
    }

    #[tactic(auto, using(crate::proofs::Kept::control_kept))]
    fn set_control(&mut self, value: u32) -> Mcr
        ensures { Writes (register_of 0 1 0 0) value self.old result self.new }
    {
        if (value >> 7) & 1 == 1 {
            return Mcr::Left(Stop {
                kind: LeftKind::BigEndian,
                value,
            });
        }
        *self = Cp15::made((value & CONTROL_MASK) | CONTROL_ONES, self.dtcm, self.itcm);
        Mcr::Kept
    }

    /// Which tightly coupled memory answers at an address, and by which of its bytes: ITCM first, then DTCM, which fetches don't see. A
    /// memory in load mode takes writes alone.
    #[inline(always)]
    pub fn tcm_place(&self, at: u32, writing: bool, fetching: bool) -> Tcm
        ensures { result ≡ tcm_of self.now at writing fetching }
    {
        let windows = &self.windows;
        let itcm = if writing {
            windows.itcm_write
        } else {
            windows.itcm_read
        };
        if (at as u64) < itcm {
            return Tcm::Itcm(at % ITCM_BYTES as u32);
        }
        let dtcm = if writing {
            windows.dtcm_write
        } else {
            windows.dtcm_read
        };
        let offset = at.wrapping_sub(windows.dtcm_base);
        if !fetching && (offset as u64) < dtcm {
            return Tcm::Dtcm(offset % DTCM_BYTES as u32);
        }
        Tcm::Past
    }

    /// Whether for fetches main memory lies past both tightly coupled memories from its first address up to this one of it.
    #[inline(always)]
    pub fn is_main_fetch(&self, at: u32) -> bool
        ensures { (result ≡ true) ↔ IsMainPast self.now at false true }
    {
        at.wrapping_sub(MAIN_FIRST) < self.windows.main_fetch
    }

    /// Whether it does for reads.
    #[inline(always)]
    pub fn is_main_read(&self, at: u32) -> bool
        ensures { (result ≡ true) ↔ IsMainPast self.now at false false }
    {
        at.wrapping_sub(MAIN_FIRST) < self.windows.main_read
    }

    /// Whether it does for writes.
    #[inline(always)]
    pub fn is_main_write(&self, at: u32) -> bool
        ensures { (result ≡ true) ↔ IsMainPast self.now at true false }
    {
        at.wrapping_sub(MAIN_FIRST) < self.windows.main_write
    }

    /// Does nothing; its contract states what holds of CP15 at every time: its registers have only the bits that they keep.
    pub fn laws(&self)
        ensures { IsCp15 self.now }
    {
        let _control = self.control;
    }

    /// The base of the exception vectors: FFFF0000h where the control register has high vectors, and otherwise 0.
    pub fn vectors(&self) -> u32
        ensures { result ≡ vectors_of self.now }
    {
        if (self.control >> 13) & 1 == 1 {
            0xFFFF_0000
        } else {
            0
        }
    }
}
