//! DISPSTAT, of which each processor has its own.

ghost use Rattle.std.specs.Prelude.{◌≡◌, ◌≤◌, ◌+◌, ◌*◌};
ghost use Rattle.ds_base.specs.Bits.{bit, bits, flag};
ghost use Rattle.video2d.specs.Saved.{status_of_bits};
ghost use Rattle.video2d.specs.Statuses.{half_byte, with_half_byte, status_at_boot, status_written, vcount_setting, status_word, status_blanked, status_started, raised_where, raised_at_hblank, raised_at_start};

use crate::display_registers::DisplayRegister;
use ds_base::Interrupt;
use std::marker::Model;

/// One processor's DISPSTAT: what it keeps, and its flags.
#[derive(Drop)]
pub struct Status {
    kept: u16,
    vblank: bool,
    hblank: bool,
    vcount: bool,
}

impl Model for Status {
    ghost use Rattle.video2d.specs.Statuses.{StatusState};

    ghost Value = { StatusState };

    ghost view = { λ s. record { kept = s.kept; vblank = s.vblank; hblank = s.hblank; vcount = s.vcount } };
}

/// A byte of a half, the low one being byte 0.
pub fn half_byte(byte: u8, half: u16) -> u8
    ensures { result ≡ half_byte byte half }
{
    if byte == 0 {
        (half % 256) as u8
    } else {
        (half / 256) as u8
    }
}

/// A half with one of its bytes written.
pub fn with_half_byte(byte: u8, half: u16, value: u8) -> u16
    ensures { result ≡ with_half_byte byte half value }
{
    if byte == 0 {
        half / 256 * 256 + value as u16
    } else {
        half % 256 + 256 * value as u16
    }
}

fn mark(n: u8, set: bool) -> u16
    requires { n ≤ 15 }
    ensures { result ≡ flag n set }
{
    if set { 1 << n } else { 0 }
}

fn is_set(n: u8, word: u16) -> bool
    requires { n ≤ 15 }
    ensures { result ≡ bit n word }
{
    (word >> n) % 2 == 1
}

/// DISPSTAT of its flags and of what is kept.
fn joined(vblank: bool, hblank: bool, vcount: bool, kept: u16) -> u16
    ensures { result ≡ flag 0 vblank + flag 1 hblank + flag 2 vcount + 8 * bits 3 13 kept }
{
    mark(0, vblank) + mark(1, hblank) + mark(2, vcount) + 8 * (kept >> 3)
}

fn raised_where(asked: bool, interrupt: Interrupt) -> u32
    ensures { result ≡ raised_where asked interrupt }
{
    if asked { interrupt.bit() } else { 0 }
}

impl Status {
    /// At boot all is 0.
    pub fn new() -> Status
        ensures { result ≡ status_at_boot }
    {
        Status {
            kept: 0,
            vblank: false,
            hblank: false,
            vcount: false,
        }
    }

    /// DISPSTAT of its bits, as it is read.
    pub fn of_bits(word: u16) -> Status
        ensures { result ≡ status_of_bits word }
    {
        Status {
            kept: word & DisplayRegister::Dispstat.row().kept as u16,
            vblank: is_set(0, word),
            hblank: is_set(1, word),
            vcount: is_set(2, word),
        }
    }

    /// What it keeps: the enables in bits 3 to 5 and the V-count setting.
    pub fn kept(&self) -> u16
        ensures { result ≡ self.now.kept }
    {
        self.kept
    }

    /// A byte is written: the flags stay, and so does the other byte.
    pub fn write(&mut self, byte: u8, value: u8)
        ensures { self.new ≡ status_written self.old byte value }
    {
        self.kept = with_half_byte(byte, self.kept, value)
            & DisplayRegister::Dispstat.row().kept as u16;
    }

    /// The line at whose start V-count's flag is set.
    fn setting(&self) -> u16
        ensures { result ≡ vcount_setting self.now }
    {
        (self.kept >> 8) + 256 * ((self.kept >> 7) % 2)
    }

    /// DISPSTAT as it is read.
    pub fn word(&self) -> u16
        ensures { result ≡ status_word self.now }
    {
        joined(self.vblank, self.hblank, self.vcount, self.kept)
    }

    /// A line's H-blank.
    pub fn blank(&mut self)
        ensures { self.new ≡ status_blanked self.old }
    {
        self.hblank = true;
    }

    /// A line starts.
    pub fn start(&mut self, line: u16)
        ensures { self.new ≡ status_started line self.old }
    {
        if line == 192 {
            self.vblank = true;
        } else if line == 262 {
            self.vblank = false;
        }
        self.hblank = false;
        self.vcount = line == self.setting();
    }

    /// The bits of IF that a line's H-blank raises.
    pub fn raised_at_hblank(&self) -> u32
        ensures { result ≡ raised_at_hblank self.now }
    {
        raised_where((self.kept >> 4) % 2 == 1, Interrupt::HBlank)
    }

    /// The bits of IF that a line's start raises.
    pub fn raised_at_start(&self, line: u16) -> u32
        ensures { result ≡ raised_at_start line self.now }
    {
        let vblank = line == 192 && (self.kept >> 3) % 2 == 1;
        let vcount = line == self.setting() && (self.kept >> 5) % 2 == 1;
        raised_where(vblank, Interrupt::VBlank) + raised_where(vcount, Interrupt::VCount)
    }
}
