//! The ports: the register map of both processors, and the units behind it.
//!
//! The map is a table laid out like GBATEK's (specs/RegisterMap.antt, "DS I/O Maps"): for each processor the offset from 4000000h, the
//! width, GBATEK's name and the register. What each register reads, keeps and does when it is written is one definition by register
//! (specs/Registers.antt), and how an access goes through the registers that it covers is another (specs/Ports.antt).
//!
//! Proved: `slot_of` is the register whose byte stands at an offset, by the list of the processor (`register_map`), or none. `Io::value`,
//! `read`, `take` and `put`: what an access of any width, aligned down to it, reads and leaves at a tick, by the definition of each register; a
//! narrower write keeps what it doesn't cover, and all else stays. A write leaves each due tick as it was, or later than its tick (clause
//! `schedule`), where no timer of the processor is due by then and no channel of it that runs is ready by then; it leaves of geometry what no
//! access changes (`LeavesGeometry`), and adds four entries at most to those that wait for it (`grows`). Where there is no room for them, one
//! of ARM9's is ignored (`guarded_written`). Clause `refusal`: the stop for which a write is refused, which leaves all, exactly where it would
//! write HALTCNT's modes 1 or 3, enable a DMA channel with a start that is left out, or start a transfer of the card by a command that is left
//! out. A read may take a word of the card, at its tick: `after_read` is what it leaves.
//!
//! An access that lies in no one register goes through the registers that begin in it, each whole, in ascending address: what it reads is theirs, 0
//! where none is; a write writes them one after another, and is refused for the first that refuses it. `register_laws`: each register of the maps
//! stands at a multiple of its width (`rows`), and so such an access is one of its lower half and then one of its upper half (`halves`), as the code
//! goes.
//!
//! `io_due` is when each unit is due, `first_due` the first of them; `first_acting` is the first that acts of those that are due, which all do but
//! quiet geometry; it is kept, and found again only where it may have changed. `is_quiet` is true exactly where geometry is due, GXSTAT's selector is
//! 0, no channel of ARM9's is enabled with the start of the geometry FIFO, whether or not it runs, and no stall holds ARM9. `event` is the event of
//! each actor behind the ports (`io_event`), the card's with the cartridge's file; `move_channel` and `put_back` are those of DMA channels. `show` is
//! the display's, with palettes and objects: its answer (`answer`), and what it leaves, with the interrupts that it raises at both processors and the
//! channels that it triggers (`state`); where it stops, all stays. `swap` is line 192's, and clause `lists` says of which commands its lists are.
//! `settle` is what follows a step (`settled`): the level of geometry's interrupt, the channels that wait for it, and that a stall's end is forgotten
//! where it holds back no channel, or a new stall holds them all; `is_settled` is whether it would change anything. `laws` tells what holds of
//! timers, channels and what waits for geometry always.
//!
//! `Io` is the `Units` with two things that are kept of them: the first that acts, and whether they are settled. It lends them, so that what
//! they tell is asked of it by the same name; only what changes them is a call of its own, which keeps both so. `Io::of` and `ProcessorIo::of` make
//! the whole of its parts.
//!
//! Only tested, in `ds_ports_tests`: each row's first and last byte and its neighbours; accesses across registers and of some bytes of one;
//! each key, and KEYCNT with no key chosen; IF, IME and IPCSYNC by bytes; the FIFOs' directions, clears and interrupts; a DMA channel whose
//! last unit writes its own control or IF; a stall, bursts and geometry's interrupt; when geometry is quiet, and what acts first; worked
//! rows of each unit through its ports.
#![tactic(auto)]

mod displays;
mod io;
mod ports;
mod processor_io;
mod registers;
mod units;

pub use io::Io;
pub use ports::{aligned_down, part, register_laws};
pub use processor_io::{Before, ProcessorIo};
pub use registers::{DMA0FILL, DMA0SAD, Register, Slot, slot_of};
pub use units::{IoParts, Units};
