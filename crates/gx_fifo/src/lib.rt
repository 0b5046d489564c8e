//! The way into the geometry engine (GBATEK, "DS 3D Geometry Commands" and "DS 3D Status"): its ports, the FIFO in which commands wait with
//! their parameters, when each command is done, and the swap that waits for line 192. All memory is taken by `Gx::new`.
//!
//! `specs/` has the list of entries and its head command (Entries), the packed words (PackedWords), the table of ports and what each reads
//! (GxPorts), the whole with what each call leaves (GxStates), and its bytes (Saved).
//!
//! The definition is a list of entries, each a command by its name and a word, with the bytes left of the last packed word as a number; there is
//! no ring in it. The head command is the first entry's, and takes as many entries as it has parameters, and one where it has none, whatever
//! they were written for. The code keeps a ring of 324 entries, and beside it how many of them GXSTAT asks for; that these counts are those
//! of the list is proved.
//!
//! Proved. `Gx::port_write` leaves exactly `gx_written`, where at most 320 entries wait: what a packed word or a parameter, a word to a
//! command's own port, DISP3DCNT and GXSTAT leave; it adds four entries at most (clause `grows`), and leaves the due tick as it was or
//! later than `now` (`schedule`). `Gx::due`: when the head command is done, `2 * clocks` ticks after it was complete and first.
//! `Gx::finish`, where one is due and the run has at most 2^56 vertices: the engine after the command, without its entries, and the next
//! command begun at that tick. `Gx::swap` is true exactly where a swap waited, and what it gives out are the lists of all that was done
//! since the swap before (`lists`). `laws`: at most 324 entries; what is left of a packed word begins with a command that was given
//! fewer parameters than it has, or is 0; a command is due exactly where the head command is complete and no swap waits; which bits are
//! kept; a swap's parameter is there only while one waits; a command adds one vertex to the run at most. `pack` and `unpack`: the bytes of it
//! all and what is read of bytes, by one format; `saved_laws`: the bytes at a tick that isn't after the due tick, and no more than 2^32 before
//! it, are read as what they were, and bytes that are read are those of what is read; `bounds` has what that asks of each number beside `laws`.
//! `unpack_by` also refuses a number of entries that isn't what the rest of a machine asks (`Asked`): never so many, the interrupt's level down, a
//! stall, or the FIFO not half empty.
//!
//! Only tested, in `gx_tests`: ticks, packed words, GXSTAT, results, the stall and a swap, worked by hand, and that `Gx::new` succeeds with
//! ample memory.
#![tactic(auto)]

mod entries;
mod gx;
mod packed;
mod ports;

pub use entries::{ENTRIES, GxEntry};
pub use gx::{Asked, Gx, saved_laws};
pub use ports::{DISP3DCNT, ENGINE_PAST, GXFIFO, GxPort, port_at};
