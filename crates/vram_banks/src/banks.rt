//! The banks of video memory, and how they are read and written where they stand.

ghost use Rattle.std.specs.Prelude.{◌≡◌, ◌<◌, ◌≤◌, ◌+◌, ◌/◌, ◌%◌, ◌^◌, ◌↔◌, ℕ, true, IfSome, IfOk, slice_index, slice_set, length};
ghost use Rattle.ds_base.specs.declared.memories.Width.TheVariants.{Byte, Half, Word};
ghost use Rattle.ds_base.specs.declared.memories.Space.TheVariants.{Arm7};
ghost use Rattle.ds_base.specs.Numbers.{width_bytes, aligned_down, value_by, put_by};
ghost use Rattle.vram_banks.specs.BankMap.{kept_bank_control, StandsIn};
ghost use Rattle.vram_banks.specs.Cells.{Banks, AreBanks, blank_banks, byte_or_0, put_there, vram_byte, vram_value, vram_written, allotted_bit, allotted_of, is_allotted, IsCellAt, IsOr, IsRead, IsRunOf, IsWritten};
ghost use Rattle.vram_banks.specs.paging.Flat.{or_at, put_in_cells};

mod saved;

use crate::cells::Cells;
use crate::maps::{BankMap, PAGE, Page};
use crate::windows::{LARGEST, flat, rest_of};
use ds_base::{Space, Width, known};
use std::alloc::{AllocError, Global};
use std::marker::Model;

/// Video memory: the bytes of the nine banks, 656K in the order A to I, and their controls (GBATEK, "DS Memory Control - VRAM").
/// Contracts see it as the list of the bytes and the list of the controls.
#[derive(Drop)]
pub struct Vram {
    cells: Cells,
    map: BankMap,
}

impl Model for Vram {
    ghost use Rattle.std.specs.Prelude.{length, ◌≡◌};
    ghost use Rattle.vram_banks.specs.Cells.{Banks};

    ghost Value = { Banks };

    ghost view = { λ v. record { bytes = v.cells; controls = v.map } };

    ghost invariant = { λ v. length v.cells ≡ 0xA4000 };
}

/// 1 where the control is that of a bank, C or D, that is mapped to ARM7, and else 0.
fn allotted_bit(control: u8) -> u8
    ensures { result ≡ allotted_bit control }
{
    if control >> 7 == 1 && control % 8 == 2 {
        1
    } else {
        0
    }
}

impl Vram {
    /// All bytes and controls are 0. This alone takes memory.
    pub fn new(alloc: Global) -> Result<Vram, AllocError>
        ensures { IfOk result (λ v. v ≡ blank_banks) }
    {
        let cells = Cells::new(alloc)?;
        Ok(Vram {
            cells,
            map: BankMap::new(),
        })
    }

    /// Writes the control of a bank, of 0 (A) to 8 (I): bit 7 enables it, bits 3 and 4 are OFS, and MST begins at bit 0, of two bits for
    /// A, B, H and I and of three for the others. The other bits aren't kept.
    pub fn set_control(&mut self, bank: u8, value: u8)
        requires { bank < 9 }
        ensures { self.new ≡ record self.old { controls = slice_set self.old.controls bank (kept_bank_control bank value) } }
    {
        self.map.set_control(bank, value);
    }

    fn byte_or_0(&self, cell: Option<u32>) -> u8
        requires { IfSome cell (λ i. i < 0xA4000) }
        ensures { result ≡ byte_or_0 self.now.bytes cell }
    {
        match cell {
            None => 0,
            Some(i) => self.cells.byte(i),
        }
    }

    /// The OR of all cells at a flat address, bank by bank.
    #[inline(never)]
    #[tactic(auto, using(crate::proofs::CellLemmas::or_none, crate::proofs::CellLemmas::or_more), unfolding(crate::specs::paging::Flat::or_at))]
    fn byte_of_several(&self, x: u32) -> u8
        ensures { result ≡ or_at self.now.controls self.now.bytes x }
    {
        let mut all = 0;
        for bank in 0..9u8 {
            let cell = self.map.cell(bank, x);
            all |= self.byte_or_0(cell);
        }
        all
    }

    #[inline(always)]
    fn byte(&self, x: u32) -> u8
        requires { x < 0x254000 }
        ensures { result ≡ value_by Byte (or_at self.now.controls self.now.bytes) x }
    {
        match self.map.found(x) {
            Page::Empty => 0,
            Page::One(cell) => self.cells.byte(cell),
            Page::Several => self.byte_of_several(x),
        }
    }

    /// The half at a flat address, byte by byte. This and what else visits all banks stands apart, so that an access of one bank stays short.
    #[inline(never)]
    fn half_of_several(&self, x: u32) -> u16
        requires { x < 0x254000 }
        ensures { result ≡ value_by Half (or_at self.now.controls self.now.bytes) x }
    {
        u16::from_le_bytes([self.byte_of_several(x), self.byte_of_several(x + 1)])
    }

    /// The word at a flat address, byte by byte.
    #[inline(never)]
    fn word_of_several(&self, x: u32) -> u32
        requires { x < 0x254000 }
        ensures { result ≡ value_by Word (or_at self.now.controls self.now.bytes) x }
    {
        u32::from_le_bytes([
            self.byte_of_several(x),
            self.byte_of_several(x + 1),
            self.byte_of_several(x + 2),
            self.byte_of_several(x + 3),
        ])
    }

    #[inline(always)]
    fn half(&self, x: u32) -> u16
        requires even { x % 2 ≡ 0 }
        requires small { x < 0x254000 }
        ensures { result ≡ value_by Half (or_at self.now.controls self.now.bytes) x }
    {
        match self.map.found(x) {
            Page::Empty => 0,
            Page::One(cell) => self.cells.half(cell),
            Page::Several => self.half_of_several(x),
        }
    }

    #[inline(always)]
    fn word(&self, x: u32) -> u32
        requires whole { x % 4 ≡ 0 }
        requires small { x < 0x254000 }
        ensures { result ≡ value_by Word (or_at self.now.controls self.now.bytes) x }
    {
        match self.map.found(x) {
            Page::Empty => 0,
            Page::One(cell) => self.cells.word(cell),
            Page::Several => self.word_of_several(x),
        }
    }

    /// An access at a flat address.
    #[inline(always)]
    fn read_flat(&self, x: u32, width: Width) -> u32
        requires { x < 0x254000 }
        ensures value { result ≡ value_by width (or_at self.now.controls self.now.bytes) (aligned_down width x) }
        ensures narrow { result < 256 ^ width_bytes width }
    {
        match width {
            Width::Byte => self.byte(x) as u32,
            Width::Half => self.half(x - x % 2) as u32,
            Width::Word => self.word(x - x % 4),
        }
    }

    /// What an access reads: the OR of all cells that stand at each byte's address, 0 where none stands. `at` is taken by
    /// remainder of the space's size and aligned down to the width.
    pub fn read(&self, space: Space, at: u32, width: Width) -> u32
        ensures value { result ≡ vram_value self.now space at width }
        ensures narrow { result < 256 ^ width_bytes width }
        ensures stands { IsRead self.now space at width result }
    {
        self.read_in_line(space, at, width)
    }

    /// The same, compiled into the place of the call, for loops over many accesses of one space and width.
    #[inline(always)]
    pub fn read_in_line(&self, space: Space, at: u32, width: Width) -> u32
        ensures value { result ≡ vram_value self.now space at width }
        ensures narrow { result < 256 ^ width_bytes width }
    {
        self.read_flat(flat(space, at), width)
    }

    fn put(&mut self, cell: Option<u32>, value: u8)
        requires { IfSome cell (λ i. i < 0xA4000) }
        ensures { self.new ≡ record self.old { bytes = put_there cell value self.old.bytes } }
    {
        if let Some(i) = cell {
            self.cells.put_byte(i, value);
        }
    }

    /// Writes all cells at a flat address, bank by bank.
    #[tactic(auto, using(crate::proofs::CellLemmas::put_none, crate::proofs::CellLemmas::put_more), unfolding(crate::specs::paging::Flat::put_in_cells))]
    fn put_several(&mut self, x: u32, value: u8)
        ensures { self.new ≡ record self.old { bytes = put_in_cells self.old.controls x value self.old.bytes } }
    {
        for bank in 0..9u8 {
            let cell = self.map.cell(bank, x);
            self.put(cell, value);
        }
    }

    #[inline(never)]
    fn put_half_in_several(&mut self, x: u32, value: u16)
        requires { x < 0x254000 }
        ensures { self.new ≡ record self.old { bytes = put_by Half (put_in_cells self.old.controls) x value self.old.bytes } }
    {
        let bytes = value.to_le_bytes();
        self.put_several(x, bytes[0]);
        self.put_several(x + 1, bytes[1]);
    }

    #[inline(never)]
    fn put_word_in_several(&mut self, x: u32, value: u32)
        requires { x < 0x254000 }
        ensures { self.new ≡ record self.old { bytes = put_by Word (put_in_cells self.old.controls) x value self.old.bytes } }
    {
        let bytes = value.to_le_bytes();
        self.put_several(x, bytes[0]);
        self.put_several(x + 1, bytes[1]);
        self.put_several(x + 2, bytes[2]);
        self.put_several(x + 3, bytes[3]);
    }

    fn put_byte(&mut self, x: u32, value: u8)
        requires { x < 0x254000 }
        ensures { self.new ≡ record self.old { bytes = put_by Byte (put_in_cells self.old.controls) x value self.old.bytes } }
    {
        match self.map.found(x) {
            Page::Empty => {}
            Page::One(cell) => self.cells.put_byte(cell, value),
            Page::Several => self.put_several(x, value),
        }
    }

    fn put_half(&mut self, x: u32, value: u16)
        requires even { x % 2 ≡ 0 }
        requires small { x < 0x254000 }
        ensures { self.new ≡ record self.old { bytes = put_by Half (put_in_cells self.old.controls) x value self.old.bytes } }
    {
        match self.map.found(x) {
            Page::Empty => {}
            Page::One(cell) => self.cells.put_half(cell, value),
            Page::Several => self.put_half_in_several(x, value),
        }
    }

    fn put_word(&mut self, x: u32, value: u32)
        requires whole { x % 4 ≡ 0 }
        requires small { x < 0x254000 }
        ensures { self.new ≡ record self.old { bytes = put_by Word (put_in_cells self.old.controls) x value self.old.bytes } }
    {
        match self.map.found(x) {
            Page::Empty => {}
            Page::One(cell) => self.cells.put_word(cell, value),
            Page::Several => self.put_word_in_several(x, value),
        }
    }

    /// An access at a flat address.
    fn write_flat(&mut self, x: u32, width: Width, value: u32)
        requires { x < 0x254000 }
        ensures { self.new ≡ record self.old { bytes = put_by width (put_in_cells self.old.controls) (aligned_down width x) value self.old.bytes } }
    {
        match width {
            Width::Byte => self.put_byte(x, (value % 0x100) as u8),
            Width::Half => self.put_half(x - x % 2, (value % 0x10000) as u16),
            Width::Word => self.put_word(x - x % 4, value),
        }
    }

    /// Writes an access's bytes into all cells that stand at their addresses, and changes nothing else. `at` is taken by
    /// remainder of the space's size and aligned down to the width; of `value` the low bytes of that width are written.
    pub fn write(&mut self, space: Space, at: u32, width: Width, value: u32)
        ensures value { self.new ≡ vram_written self.old space at width value }
        ensures changed { IsWritten self.old self.new space at width value }
    {
        // here the proof learns how many bytes there are
        let _ = &self.cells;
        self.write_flat(flat(space, at), width, value);
    }

    fn part_of_several(&self, x: u32, into: &mut [u8])
        requires { x + length into.old < 2 ^ 32 }
        ensures { (i : ℕ) → i < length into.new → slice_index into.new i ≡ or_at self.now.controls self.now.bytes (x + i) }
    {
        for i in 0..into.len() {
            into[i] = self.byte_of_several(x + i as u32);
        }
    }

    /// The bytes at the flat addresses from `x` on, all in one page.
    fn part(&self, x: u32, into: &mut [u8])
        requires small { x < 0x254000 }
        requires page { x % 8192 + length into.old ≤ 8192 }
        ensures { (i : ℕ) → i < length into.new → slice_index into.new i ≡ or_at self.now.controls self.now.bytes (x + i) }
    {
        match self.map.found(x) {
            Page::Empty => into.fill(0),
            Page::One(cell) => self.cells.copy(cell, into),
            Page::Several => self.part_of_several(x, into),
        }
    }

    /// Puts the bytes from an address of a space on into a row: at each place i the byte at the exact sum `at` + i, taken by
    /// remainder of the space's size.
    pub fn row(&self, space: Space, at: u32, into: &mut [u8])
        ensures value { (i : ℕ) → i < length into.new → slice_index into.new i ≡ vram_byte self.now space (at + i) }
        ensures stands { (i : ℕ) → i < length into.new → IsOr (IsCellAt self.now space (at + i)) self.now.bytes (slice_index into.new i) }
    {
        let mut done = 0;
        while done < into.len() {
            let x = flat(space, at % LARGEST + (done % LARGEST as usize) as u32);
            let count = (PAGE - x as usize % PAGE).min(into.len() - done);
            self.part(x, &mut into[done..done + count]);
            done += count;
        }
    }

    /// The bytes that one bank alone has in a row from an address of a space on, from where they lie: at most `most`, none of them past
    /// the space's end, and none at all where another bank stands there too, or no bank.
    pub fn run(&self, space: Space, at: u32, most: u32) -> &[u8]
        requires { at % 8192 ≡ 0 }
        ensures { IsRunOf self.now space at result.now }
    {
        // here the proof learns how many bytes there are
        let _ = &self.cells;
        let run = self.map.run(flat(space, at), rest_of(space, at).min(most));
        self.cells.part(run.first, run.size)
    }

    /// Does nothing; its contract tells that the bytes are 671,744 and the controls nine, each below 256 and with no bits but those
    /// that its bank keeps; that what stands at an address is a byte; and that a cell that stands at an address lies in a bank that is
    /// allotted to ARM7 exactly where the space is ARM7's.
    pub fn bank_laws(&self)
        ensures state { AreBanks self.now }
        ensures narrow { (space : Space) → (at : ℕ) → vram_byte self.now space at < 256 }
        ensures allotted { (space : Space) → (at cell : ℕ) → IsCellAt self.now space at cell → (is_allotted self.now.controls cell ≡ true)
            ↔ (space ≡ Arm7) }
    {
        known!(self.cells.byte_laws());
        known!(self.map.control_laws());
    }

    /// The memory of all banks, 671,744 bytes in the order A to I, from where they lie.
    pub fn bytes(&self) -> &[u8]
        ensures { result.now ≡ self.now.bytes }
    {
        self.cells.bytes()
    }

    /// The byte of a number, below 671,744, in the memory of all banks.
    pub fn byte_of(&self, at: u32) -> u8
        requires { at < 671744 }
        ensures { result ≡ slice_index self.now.bytes at }
    {
        self.cells.byte(at)
    }

    /// Which of C and D are mapped to ARM7: bit 0 is C, bit 1 is D (GBATEK, "DS Memory Control - VRAM", VRAMSTAT).
    pub fn allotted7(&self) -> u8
        ensures value { result ≡ allotted_of self.now.controls }
        ensures c { (result % 2 ≡ 1) ↔ StandsIn 2 (slice_index self.now.controls 2) Arm7 }
        ensures d { (result / 2 % 2 ≡ 1) ↔ StandsIn 3 (slice_index self.now.controls 3) Arm7 }
    {
        let c = allotted_bit(self.map.control(2));
        let d = allotted_bit(self.map.control(3));
        c + 2 * d
    }
}
