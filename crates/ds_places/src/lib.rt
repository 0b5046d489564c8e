//! What each address names, as either processor sees it: the two address tables of the console (GBATEK, "DS Memory Map" and
//! "DS Memory Control - WRAM"), past ARM9's tightly coupled memories.
//!
//! Proved of `place(proc, wramcnt, at)`, which tells what an address names for a processor past ARM9's tightly coupled memories (a byte of
//! a memory, the cells of banks of video memory at an address of a space, a port, a byte of the boot ROM, or nothing): the place is that of
//! the first region of the table in which the address lies, at the remainder of its offset (clause `value`), and of every such region, and
//! `Nothing` where it lies in none (`stands`); no other place meets `stands` (`only`), so every 32-bit address has exactly one place, for
//! each processor and each WRAMCNT. `within`: a cell's number is below its memory's size, and an address of a space below the space's.
//! `rom_word(proc, at)` is the word of a processor's boot ROM at a multiple of 4: that of the list of all 121 words of the stub that stands
//! in place of the console's boot ROMs, routine by routine, each beside its statement, and 0 past the list (`word`); from 1E4h on it is 0
//! (`zeros`). `wait(proc, place, width)` is how many ticks an access waits there by the table of regions (`value`), at most 8 (`most`). No
//! call takes memory.
//!
//! Only tested: that the tables are the console's, along each border of both tables on both sides, for each WRAMCNT, and the waits at each
//! place for each width (`units_tests`); that the words are those of their statements: `nds_rows` has the stub's listing, of which `asm`
//! makes exactly the words of `rom_word`, for both processors.
#![tactic(auto)]

mod boot_roms;
mod bounds;
mod kinds;
mod tables;
mod waits;

pub use boot_roms::rom_word;
pub use bounds::{
    MAIN_FIRST, MAIN_LAST, OWN7_FIRST, PORTS_FIRST, PORTS_LAST, is_main, is_own, is_port,
    is_seven_rom, main_cell, own_cell, port_at,
};
pub use kinds::Place;
pub use tables::place;
pub use waits::{memory_wait, wait};
