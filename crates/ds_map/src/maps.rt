//! The map.

ghost use Rattle.std.specs.Prelude.{◌≡◌, ◌<◌, ◌≤◌, ◌^◌, slice_index, length, false, true, ℕ, IfOk, IfSome, None, Some};
ghost use Rattle.ds_base.specs.Memories.{memory_size};
ghost use Rattle.ds_base.specs.declared.memories.Memory.TheVariants.{Main, Shared, Own7, Palette, Oam};
ghost use Rattle.ds_base.specs.Numbers.{aligned_down, number_at, with_number};
ghost use Rattle.ds_places.specs.AddressTables.{place_of, IsInside};
ghost use Rattle.ds_places.specs.declared.kinds.Place.TheVariants.{Cell, Port};
ghost use Rattle.ds_places.specs.Waits.{wait_of};
ghost use Rattle.cp15_tcm.specs.TightlyCoupled.{main_first, main_last};
ghost use Rattle.ds_base.specs.declared.processors.Proc.{Proc};
ghost use Rattle.ds_base.specs.declared.ticks.Tick.{Tick};
ghost use Rattle.ds_ports.specs.declared.units.IoParts.{IoParts as IoState};
ghost use Rattle.ds_map.specs.MapLaws.{blank_memories, is_reached, map_seen, reached, reaches, unreached_oam, unreached_palette, unreached_wram};
ghost use Rattle.ds_map.specs.Maps.{cells_of, with_cells};
ghost use Rattle.ds_base.specs.Schedules.{IsEarly};
ghost use Rattle.ds_ports.specs.Io.{video_done};
ghost use Rattle.video2d.specs.Scans.{scan_due};
ghost use Rattle.video2d.specs.Videos.{video_answer};
ghost use Rattle.ds_map.specs.Accesses.{cell_put, fetched_at, is_byte_of_nine, after_read_at, map_fetched, map_read, map_refusal, map_value, map_written, rom_value, takes_no_bytes, value_at};
ghost use Rattle.ds_map.specs.Waits.{wait_at};
ghost use Rattle.ds_map.specs.Guards.{guarded_at, guarded_refusal_at, is_guarded, map_guarded, map_guarded_refusal};

mod looks;

use crate::blocks::Block;
use ds_base::{
    MAIN_BYTES, Memory, OAM_BYTES, OWN7_BYTES, PALETTE_BYTES, Proc, SHARED_BYTES, Stop, Tick,
    Width, known,
};
use ds_places::{
    MAIN_FIRST, Place, is_main, main_cell, memory_wait, own_cell, place, port_at, rom_word, wait,
};
use ds_ports::{Io, aligned_down, part};
pub use looks::looked_by_nine;
use std::alloc::{AllocError, Global};
use std::marker::Model;
use video2d::Shown;

/// A number that is read or fetched, and how many ticks the access waits.
#[derive(Clone, Copy)]
pub struct Given {
    /// The number.
    pub number: u32,
    /// The ticks.
    pub waits: u32,
}

/// The memories past ARM9's tightly coupled ones. An access of them is handed the units behind the ports, which have video memory and WRAMCNT.
#[derive(Drop)]
pub struct Map {
    main: Block<MAIN_BYTES>,
    shared: Block<SHARED_BYTES>,
    wram: Block<OWN7_BYTES>,
    palette: Block<PALETTE_BYTES>,
    oam: Block<OAM_BYTES>,
}

impl Model for Map {
    ghost use Rattle.ds_map.specs.Maps.{MemoriesState};

    ghost Value = { MemoriesState };

    ghost view = { λ m. record { main = m.main; shared = m.shared; wram = m.wram; palette = m.palette; oam = m.oam } };
}

impl Map {
    /// The memories before anything is copied: all are zeros.
    pub fn new(alloc: Global) -> Result<Map, AllocError>
        ensures { IfOk result (λ m. m ≡ blank_memories) }
    {
        Ok(Map {
            main: Block::new(alloc)?,
            shared: Block::new(alloc)?,
            wram: Block::new(alloc)?,
            palette: Block::new(alloc)?,
            oam: Block::new(alloc)?,
        })
    }

    /// The memories by their blocks.
    pub fn of(
        main: Block<MAIN_BYTES>,
        shared: Block<SHARED_BYTES>,
        wram: Block<OWN7_BYTES>,
        palette: Block<PALETTE_BYTES>,
        oam: Block<OAM_BYTES>,
    ) -> Map
        ensures { result ≡ record { main = main; shared = shared; wram = wram; palette = palette; oam = oam } }
    {
        Map {
            main,
            shared,
            wram,
            palette,
            oam,
        }
    }

    /// Does nothing; its contract states that each memory has its size.
    pub fn laws(&self)
        ensures main { length self.now.main ≡ memory_size Main }
        ensures shared { length self.now.shared ≡ memory_size Shared }
        ensures wram { length self.now.wram ≡ memory_size Own7 }
        ensures palette { length self.now.palette ≡ memory_size Palette }
        ensures oam { length self.now.oam ≡ memory_size Oam }
    {
        known!(self.main.bytes());
        known!(self.shared.bytes());
        known!(self.wram.bytes());
        known!(self.palette.bytes());
        known!(self.oam.bytes());
    }

    /// The number at a cell of a memory, aligned down.
    #[inline(always)]
    fn cell(&self, memory: Memory, at: u32, width: Width) -> u32
        requires { at < memory_size memory }
        ensures { result ≡ number_at width (cells_of self.now memory) (aligned_down width at) }
    {
        let at = at as usize;
        match memory {
            Memory::Main => self.main.number(at, width),
            Memory::Shared => self.shared.number(at, width),
            Memory::Own7 => self.wram.number(at, width),
            Memory::Palette => self.palette.number(at, width),
            Memory::Oam => self.oam.number(at, width),
            Memory::Itcm | Memory::Dtcm | Memory::Vram => 0,
        }
    }

    /// Puts a number at a cell of a memory, aligned down.
    #[inline(always)]
    fn set_cell(&mut self, memory: Memory, at: u32, width: Width, value: u32)
        requires { at < memory_size memory }
        ensures { self.new ≡ with_cells memory self.old (with_number width (cells_of self.old memory) (aligned_down width at) value) }
    {
        let at = at as usize;
        match memory {
            Memory::Main => self.main.set_number(at, width, value),
            Memory::Shared => self.shared.set_number(at, width, value),
            Memory::Own7 => self.wram.set_number(at, width, value),
            Memory::Palette => self.palette.set_number(at, width, value),
            Memory::Oam => self.oam.set_number(at, width, value),
            Memory::Itcm | Memory::Dtcm | Memory::Vram => {}
        }
    }

    /// What a processor reads or fetches at an address of main memory, and how long that waits.
    #[inline(always)]
    #[tactic(auto, unfolding(crate::specs::Accesses::map_value, crate::specs::Accesses::map_read, crate::specs::Accesses::map_fetched, crate::specs::Waits::wait_at))]
    pub fn main_given(&self, proc: Proc, at: u32, width: Width) -> Given
        requires from { main_first ≤ at }
        requires upto { at ≤ main_last }
        ensures read { (now : Tick) → (io : IoState) → result.number ≡ map_value proc now (map_seen proc self.now io) at width }
        ensures fetched { (io : IoState) → result.number ≡ map_fetched proc (map_seen proc self.now io) at width }
        ensures next { (now : Tick) → (io : IoState) → map_read proc now (map_seen proc self.now io) at width ≡ map_seen proc self.now io }
        ensures waits { (wramcnt : ℕ) → result.waits ≡ wait_at proc wramcnt at width }
        ensures most { result.waits ≤ 8 }
    {
        let (memory, at) = (Memory::Main, main_at(at));
        Given {
            number: self.main.number(at as usize, width),
            waits: cell_wait(proc, memory, at, width),
        }
    }

    /// What ARM7 reads or fetches at a cell of its own work RAM, and how long that waits.
    #[inline(always)]
    fn own_given(&self, proc: Proc, at: u32, width: Width) -> Given
        requires { at < memory_size Own7 }
        ensures number { result.number ≡ number_at width self.now.wram (aligned_down width at) }
        ensures waits { result.waits ≡ wait_of proc (Cell Own7 at) width }
        ensures most { result.waits ≤ 8 }
    {
        let memory = Memory::Own7;
        Given {
            number: self.wram.number(at as usize, width),
            waits: cell_wait(proc, memory, at, width),
        }
    }

    /// What a processor reads at an address of main memory, or for ARM7 of its own work RAM, and how long that waits; none elsewhere.
    #[inline(always)]
    #[tactic(auto, unfolding(crate::specs::Accesses::map_value, crate::specs::Accesses::map_read, crate::specs::Waits::wait_at))]
    pub fn near_given(&self, proc: Proc, at: u32, width: Width) -> Option<Given>
        ensures value { IfSome result (λ given. (now : Tick) → (io : IoState) → given.number
            ≡ map_value proc now (map_seen proc self.now io) at width) }
        ensures next { IfSome result (λ _. (now : Tick) → (io : IoState) → map_read proc now (map_seen proc self.now io) at width
            ≡ map_seen proc self.now io) }
        ensures waits { IfSome result (λ given. (wramcnt : ℕ) → given.waits ≡ wait_at proc wramcnt at width) }
    {
        if let Some(at) = own_cell(proc, at) {
            return Some(self.own_given(proc, at, width));
        }
        if is_main(at) {
            return Some(self.main_given(proc, at, width));
        }
        None
    }

    /// Puts a number at an address of main memory; the result is how long that waits.
    #[inline(always)]
    #[tactic(auto, unfolding(crate::specs::Accesses::map_refusal, crate::specs::Accesses::map_written, crate::specs::Waits::wait_at))]
    pub fn put_main(&mut self, proc: Proc, at: u32, width: Width, value: u32) -> u32
        requires from { main_first ≤ at }
        requires upto { at ≤ main_last }
        ensures refusal { (io : IoState) → map_guarded_refusal proc (map_seen proc self.old io) at width value ≡ None }
        ensures next { (now : Tick) → (io : IoState) → map_seen proc self.new io ≡ map_guarded proc now (map_seen proc self.old io) at width value }
        ensures wram { unreached_wram proc self.new ≡ unreached_wram proc self.old }
        ensures palette { unreached_palette proc self.new ≡ unreached_palette proc self.old }
        ensures oam { unreached_oam proc self.new ≡ unreached_oam proc self.old }
        ensures waits { (wramcnt : ℕ) → result ≡ wait_at proc wramcnt at width }
    {
        let (memory, at) = (Memory::Main, main_at(at));
        self.main.set_number(at as usize, width, value);
        cell_wait(proc, memory, at, width)
    }

    /// What is read at a place at a tick, and the read.
    #[inline(always)]
    #[tactic(auto, using(crate::proofs::Reached::cells_reached))]
    fn read_at(&self, io: &mut Io, proc: Proc, now: Tick, place: Place, width: Width) -> u32
        requires inside { IsInside place }
        requires reached { is_reached proc place ≡ true }
        requires early { IsEarly (Some now) }
        ensures value { result ≡ value_at proc now place (map_seen proc self.now io.old) width }
        ensures next { map_seen proc self.now io.new ≡ after_read_at proc now place (map_seen proc self.now io.old) width }
    {
        match place {
            Place::Cell { memory, at } => self.cell(memory, at, width),
            Place::Banks { space, at } => io.vram().read(space, at, width),
            Place::Port(at) => io.take(proc, now, at, width),
            Place::Rom(at) => rom_value(proc, aligned_down(width, at), width),
            Place::Nothing => 0,
        }
    }

    /// What is fetched at a place.
    #[inline(always)]
    #[tactic(auto, using(crate::proofs::Reached::cells_reached))]
    fn fetch_at(&self, io: &Io, proc: Proc, place: Place, width: Width) -> u32
        requires inside { IsInside place }
        requires reached { is_reached proc place ≡ true }
        ensures { result ≡ fetched_at proc place (map_seen proc self.now io.now) width }
    {
        match place {
            Place::Cell { memory, at } => self.cell(memory, at, width),
            Place::Banks { space, at } => io.vram().read(space, at, width),
            Place::Rom(at) => rom_value(proc, aligned_down(width, at), width),
            Place::Port(_) | Place::Nothing => 0,
        }
    }

    /// Puts a number at a cell of a memory that a processor reaches, unless the memory takes no bytes of ARM9 and it is one.
    #[inline(always)]
    #[tactic(auto, using(crate::proofs::Reached::cells_reached, crate::proofs::Reached::set_reached, crate::proofs::Reached::set_wram, crate::proofs::Reached::set_palette, crate::proofs::Reached::set_oam))]
    fn write_cell(&mut self, proc: Proc, memory: Memory, at: u32, width: Width, value: u32)
        requires inside { at < memory_size memory }
        requires reached { reaches proc memory ≡ true }
        ensures next { reached proc self.new ≡ cell_put proc memory (reached proc self.old) at width value }
        ensures wram { unreached_wram proc self.new ≡ unreached_wram proc self.old }
        ensures palette { unreached_palette proc self.new ≡ unreached_palette proc self.old }
        ensures oam { unreached_oam proc self.new ≡ unreached_oam proc self.old }
    {
        if !(is_byte_of_nine(proc, width) && takes_no_bytes(memory)) {
            self.set_cell(memory, at, width, value);
        }
    }

    /// Writes a value at a place, for a processor at a tick, unless it is refused, or ignored for want of room.
    #[inline(always)]
    fn write_at(
        &mut self,
        io: &mut Io,
        proc: Proc,
        now: Tick,
        place: Place,
        width: Width,
        value: u32,
    ) -> Option<Stop>
        requires inside { IsInside place }
        requires reached { is_reached proc place ≡ true }
        requires early { IsEarly (Some now) }
        ensures refusal { result ≡ guarded_refusal_at proc place (map_seen proc self.old io.old) width value }
        ensures next { map_seen proc self.new io.new ≡ guarded_at proc now place (map_seen proc self.old io.old) width value }
        ensures wram { unreached_wram proc self.new ≡ unreached_wram proc self.old }
        ensures palette { unreached_palette proc self.new ≡ unreached_palette proc self.old }
        ensures oam { unreached_oam proc self.new ≡ unreached_oam proc self.old }
    {
        match place {
            Place::Cell { memory, at } => {
                self.write_cell(proc, memory, at, width, value);
                None
            }
            Place::Banks { space, at } => {
                if !is_byte_of_nine(proc, width) {
                    io.write_vram(space, at, width, value);
                }
                None
            }
            Place::Port(at) => io.put(proc, now, at, width, value),
            Place::Rom(_) | Place::Nothing => None,
        }
    }

    /// What a processor reads at an address at a tick, wherever it is, and the read.
    #[inline(never)]
    #[tactic(auto, using(crate::proofs::Reached::place_reached), unfolding(crate::specs::Accesses::map_value, crate::specs::Accesses::map_read))]
    fn read_any(&self, io: &mut Io, proc: Proc, now: Tick, at: u32, width: Width) -> u32
        requires { IsEarly (Some now) }
        ensures value { result ≡ map_value proc now (map_seen proc self.now io.old) at width }
        ensures next { map_seen proc self.now io.new ≡ map_read proc now (map_seen proc self.now io.old) at width }
    {
        let place = place(proc, io.wramcnt(), at);
        self.read_at(io, proc, now, place, width)
    }

    /// What a processor reads at a port at a tick, and the read.
    #[inline(never)]
    fn read_port(&self, io: &mut Io, proc: Proc, now: Tick, port: u32, width: Width) -> u32
        requires inside { port < 2 ^ 24 }
        requires early { IsEarly (Some now) }
        ensures value { result ≡ value_at proc now (Port port) (map_seen proc self.now io.old) width }
        ensures next { map_seen proc self.now io.new ≡ after_read_at proc now (Port port) (map_seen proc self.now io.old) width }
    {
        io.take(proc, now, port, width)
    }

    /// What a processor reads at an address at a tick, past the tightly coupled memories, how long it waits, and the read: of a port it may change
    /// what stands there.
    #[inline(always)]
    #[tactic(auto, unfolding(crate::specs::Accesses::map_value, crate::specs::Accesses::map_read, crate::specs::Waits::wait_at))]
    pub fn read(&self, io: &mut Io, proc: Proc, now: Tick, at: u32, width: Width) -> Given
        requires { IsEarly (Some now) }
        ensures value { result.number ≡ map_value proc now (map_seen proc self.now io.old) at width }
        ensures next { map_seen proc self.now io.new ≡ map_read proc now (map_seen proc self.now io.old) at width }
        ensures waits { result.waits ≡ wait_at proc io.old.wramcnt at width }
        ensures most { result.waits ≤ 8 }
    {
        if let Some(at) = own_cell(proc, at) {
            return self.own_given(proc, at, width);
        }
        if is_main(at) {
            return self.main_given(proc, at, width);
        }
        if let Some(port) = port_at(at) {
            let number = self.read_port(io, proc, now, port, width);
            let waits = wait(proc, Place::Port(port), width);
            return Given { number, waits };
        }
        let waits = wait_anywhere(io, proc, at, width);
        let number = self.read_any(io, proc, now, at, width);
        Given { number, waits }
    }

    /// What a processor fetches at an address, wherever it is.
    #[inline(never)]
    #[tactic(auto, using(crate::proofs::Reached::place_reached), unfolding(crate::specs::Accesses::map_fetched))]
    fn fetch_any(&self, io: &Io, proc: Proc, at: u32, width: Width) -> u32
        ensures { result ≡ map_fetched proc (map_seen proc self.now io.now) at width }
    {
        self.fetch_at(io, proc, place(proc, io.wramcnt(), at), width)
    }

    /// What a processor fetches at an address, past the tightly coupled memories, and how long it waits. From a port it is 0.
    #[inline(always)]
    #[tactic(auto, unfolding(crate::specs::Accesses::map_fetched, crate::specs::Waits::wait_at))]
    pub fn fetch(&self, io: &Io, proc: Proc, at: u32, width: Width) -> Given
        ensures number { result.number ≡ map_fetched proc (map_seen proc self.now io.now) at width }
        ensures waits { result.waits ≡ wait_at proc io.now.wramcnt at width }
        ensures most { result.waits ≤ 8 }
    {
        if let Some(at) = own_cell(proc, at) {
            return self.own_given(proc, at, width);
        }
        if is_main(at) {
            return self.main_given(proc, at, width);
        }
        let number = self.fetch_any(io, proc, at, width);
        let waits = wait_anywhere(io, proc, at, width);
        Given { number, waits }
    }

    /// Writes a processor's value at an address at a tick, wherever it is, unless it is refused or ignored.
    #[inline(never)]
    #[tactic(auto, using(crate::proofs::Reached::place_reached), unfolding(crate::specs::Accesses::map_refusal, crate::specs::Accesses::map_written))]
    fn write_any(
        &mut self,
        io: &mut Io,
        proc: Proc,
        now: Tick,
        at: u32,
        width: Width,
        value: u32,
    ) -> Option<Stop>
        requires { IsEarly (Some now) }
        ensures refusal { result ≡ map_guarded_refusal proc (map_seen proc self.old io.old) at width value }
        ensures next { map_seen proc self.new io.new ≡ map_guarded proc now (map_seen proc self.old io.old) at width value }
        ensures wram { unreached_wram proc self.new ≡ unreached_wram proc self.old }
        ensures palette { unreached_palette proc self.new ≡ unreached_palette proc self.old }
        ensures oam { unreached_oam proc self.new ≡ unreached_oam proc self.old }
    {
        let place = place(proc, io.wramcnt(), at);
        self.write_at(io, proc, now, place, width, value)
    }

    /// Puts a number at an address of main memory, or for ARM7 of its own work RAM, and tells how long that waits; none elsewhere.
    #[inline(always)]
    #[tactic(auto, unfolding(crate::specs::Accesses::map_refusal, crate::specs::Accesses::map_written, crate::specs::Waits::wait_at))]
    pub fn put_near(&mut self, proc: Proc, at: u32, width: Width, value: u32) -> Option<u32>
        ensures none { result ≡ None → self.new ≡ self.old }
        ensures refusal { IfSome result (λ _. (io : IoState) → map_guarded_refusal proc (map_seen proc self.old io) at width value ≡ None) }
        ensures next { IfSome result (λ _. (now : Tick) → (io : IoState) → map_seen proc self.new io
            ≡ map_guarded proc now (map_seen proc self.old io) at width value) }
        ensures wram { unreached_wram proc self.new ≡ unreached_wram proc self.old }
        ensures palette { unreached_palette proc self.new ≡ unreached_palette proc self.old }
        ensures oam { unreached_oam proc self.new ≡ unreached_oam proc self.old }
        ensures waits { IfSome result (λ waits. (wramcnt : ℕ) → waits ≡ wait_at proc wramcnt at width) }
    {
        if let Some(at) = own_cell(proc, at) {
            let memory = Memory::Own7;
            self.wram.set_number(at as usize, width, value);
            return Some(cell_wait(proc, memory, at, width));
        }
        if is_main(at) {
            return Some(self.put_main(proc, at, width, value));
        }
        None
    }

    /// Writes a processor's value at an address at a tick, past the tightly coupled memories, unless it is refused: exactly where it is a write of
    /// a port that refuses it. Then nothing is written. What the processor doesn't reach stays. A write of a port by ARM9 is ignored while more than
    /// 320 entries wait for geometry.
    #[inline(always)]
    #[tactic(auto, unfolding(crate::specs::Accesses::map_refusal, crate::specs::Accesses::map_written))]
    pub fn write(
        &mut self,
        io: &mut Io,
        proc: Proc,
        now: Tick,
        at: u32,
        width: Width,
        value: u32,
    ) -> Option<Stop>
        requires { IsEarly (Some now) }
        ensures refusal { result ≡ map_guarded_refusal proc (map_seen proc self.old io.old) at width value }
        ensures next { map_seen proc self.new io.new ≡ map_guarded proc now (map_seen proc self.old io.old) at width value }
        ensures wram { unreached_wram proc self.new ≡ unreached_wram proc self.old }
        ensures palette { unreached_palette proc self.new ≡ unreached_palette proc self.old }
        ensures oam { unreached_oam proc self.new ≡ unreached_oam proc self.old }
    {
        if self.put_near(proc, at, width, value).is_some() {
            return None;
        }
        self.write_any(io, proc, now, at, width, value)
    }

    /// The same, where it isn't ignored.
    #[inline(always)]
    pub fn put(
        &mut self,
        io: &mut Io,
        proc: Proc,
        now: Tick,
        at: u32,
        width: Width,
        value: u32,
    ) -> Option<Stop>
        requires early { IsEarly (Some now) }
        requires room { is_guarded proc (map_seen proc self.old io.old) at ≡ false }
        ensures refusal { result ≡ map_refusal proc (map_seen proc self.old io.old) at width value }
        ensures next { map_seen proc self.new io.new ≡ map_written proc now (map_seen proc self.old io.old) at width value }
        ensures wram { unreached_wram proc self.new ≡ unreached_wram proc self.old }
        ensures palette { unreached_palette proc self.new ≡ unreached_palette proc self.old }
        ensures oam { unreached_oam proc self.new ≡ unreached_oam proc self.old }
    {
        self.write(io, proc, now, at, width, value)
    }

    /// A memory's bytes, from where they lie, 4 MiB at most; none of a tightly coupled one, nor of video memory, which is among the units.
    pub fn bytes(&self, memory: Memory) -> &[u8]
        ensures value { result.now ≡ cells_of self.now memory }
        ensures most { length result.now ≤ 0x400000 }
    {
        match memory {
            Memory::Main => self.main.bytes(),
            Memory::Shared => self.shared.bytes(),
            Memory::Own7 => self.wram.bytes(),
            Memory::Palette => self.palette.bytes(),
            Memory::Oam => self.oam.bytes(),
            Memory::Itcm | Memory::Dtcm | Memory::Vram => &[],
        }
    }

    /// The display's event, with palettes and OAM, which stay as they are: what it does beside what it changes of the units. Where it stops, nothing
    /// changes.
    pub fn show(&self, io: &mut Io) -> Result<Shown, Stop>
        requires early { scan_due io.old.video.scan ≤ 2 ^ 56 }
        ensures answer { result ≡ video_answer self.now.oam io.old.video }
        ensures state { io.new ≡ video_done self.now.palette self.now.oam io.old }
    {
        io.show(self.palette.bytes(), self.oam.bytes())
    }

    /// The byte of a memory at a place.
    pub fn byte_of(&self, memory: Memory, at: u32) -> u8
        requires { at < memory_size memory }
        ensures { result ≡ slice_index (cells_of self.now memory) at }
    {
        match memory {
            Memory::Main => self.main.byte(at as usize),
            Memory::Shared => self.shared.byte(at as usize),
            Memory::Own7 => self.wram.byte(at as usize),
            Memory::Palette => self.palette.byte(at as usize),
            Memory::Oam => self.oam.byte(at as usize),
            Memory::Itcm | Memory::Dtcm | Memory::Vram => 0,
        }
    }
}

/// How long an access of a processor's at a cell of a memory waits: as at each other cell of it.
#[inline]
fn cell_wait(proc: Proc, memory: Memory, at: u32, width: Width) -> u32
    ensures value { result ≡ wait_of proc (Cell memory at) width }
    ensures most { result ≤ 8 }
{
    known!(at);
    memory_wait(proc, memory, width)
}

/// The cell of main memory at an address of it.
#[inline(always)]
#[tactic(auto, using(ds_places::proofs::Rows::main_place))]
fn main_at(at: u32) -> u32
    requires from { main_first ≤ at }
    requires upto { at ≤ main_last }
    ensures place { (proc : Proc) → (wramcnt : ℕ) → place_of proc wramcnt at ≡ Cell Main result }
    ensures inside { result < memory_size Main }
{
    (at - MAIN_FIRST) % MAIN_BYTES as u32
}

/// How long an access of a processor's at an address waits, wherever it is.
#[inline(never)]
#[tactic(auto, unfolding(crate::specs::Waits::wait_at))]
fn wait_anywhere(io: &Io, proc: Proc, at: u32, width: Width) -> u32
    ensures value { result ≡ wait_at proc io.now.wramcnt at width }
    ensures most { result ≤ 8 }
{
    wait(proc, place(proc, io.wramcnt(), at), width)
}

/// How long an access of a processor's at an address waits, in ticks, past the tightly coupled memories: at most 8, by what the address names.
#[inline(always)]
#[tactic(auto, unfolding(crate::specs::Waits::wait_at))]
pub fn wait_at(io: &Io, proc: Proc, at: u32, width: Width) -> u32
    ensures value { result ≡ wait_at proc io.now.wramcnt at width }
    ensures most { result ≤ 8 }
{
    if let Some(at) = main_cell(at) {
        let memory = Memory::Main;
        return cell_wait(proc, memory, at, width);
    }
    if let Some(at) = own_cell(proc, at) {
        let memory = Memory::Own7;
        return cell_wait(proc, memory, at, width);
    }
    if let Some(port) = port_at(at) {
        return wait(proc, Place::Port(port), width);
    }
    wait_anywhere(io, proc, at, width)
}

/// Whether an access is of a byte by ARM9.
#[inline(always)]
fn is_byte_of_nine(proc: Proc, width: Width) -> bool
    ensures { result ≡ is_byte_of_nine proc width }
{
    proc == Proc::Nine && width == Width::Byte
}

/// Whether a memory takes no bytes of ARM9. (GBATEK, "DS Memory Map".)
#[inline(always)]
fn takes_no_bytes(memory: Memory) -> bool
    ensures { result ≡ takes_no_bytes memory }
{
    matches!(memory, Memory::Palette | Memory::Vram | Memory::Oam)
}

/// What is read of the boot ROM at an offset that is aligned down.
fn rom_value(proc: Proc, at: u32, width: Width) -> u32
    ensures { result ≡ rom_value proc at width }
{
    let byte = at % 4;
    part(width, byte, rom_word(proc, at - byte))
}
