//! The values that every crate of the console speaks of: processors, ticks, memories, spaces, interrupts, key lines, and the causes
//! for which a run stops. They are plain data; each is what its name says in GBATEK or in the ARM Architecture Reference Manual.
//!
//! `specs/` has the words that every crate's contracts speak in: bits and bytes of numbers, sizes, digits, what every unit owes of its
//! due ticks (Schedules), and the memory machine on which instructions and DMA perform their accesses (Accesses).
#![tactic(auto)]

mod digits;
mod interrupts;
mod keys;
mod knowing;
mod left_out;
mod memories;
mod processors;
mod ticks;

pub use digits::{hex_digit, hex_digits};
pub use interrupts::Interrupt;
pub use keys::{KeyLine, Keys};
pub use left_out::{LeftKind, LeftOut, Stop};
pub use memories::{
    DTCM_BYTES, ITCM_BYTES, MAIN_BYTES, Memory, OAM_BYTES, OWN7_BYTES, PALETTE_BYTES, SHARED_BYTES,
    Space, VRAM_BYTES, Width,
};
pub use processors::{Arch, Proc, Raised};
pub use ticks::{Due, Tick};
