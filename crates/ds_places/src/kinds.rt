//! What an address names.

use ds_base::{Memory, Space};

/// The place that an address names, past ARM9's tightly coupled memories (GBATEK, "DS Memory Map").
#[derive(Clone, Copy, PartialEq, Eq)]
pub enum Place {
    /// A byte of a memory.
    Cell {
        /// Which memory.
        memory: Memory,
        /// The byte's number in it, below the memory's size.
        at: u32,
    },
    /// All cells of banks of video memory that stand at an address of a space.
    Banks {
        /// Which space.
        space: Space,
        /// The address in it, below the space's size.
        at: u32,
    },
    /// A port, by its offset from 4000000h.
    Port(u32),
    /// A byte of the processor's boot ROM, by its offset; past the ROM's words there are zeros.
    Rom(u32),
    /// Nothing: it reads as 0, and a write changes nothing.
    Nothing,
}
