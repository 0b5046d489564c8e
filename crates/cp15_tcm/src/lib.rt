//! CP15, ARM9's system control coprocessor, as far as programs need it here, and the places of the two tightly coupled memories that it
//! switches (ARM946E-S manual, "Programmer's model"; GBATEK, "ARM CP15 System Control Coprocessor"). Caches and the protection unit
//! are left out: their registers take writes with no effect and read as 0.
//!
//! Proved, for every state: `mrc` reads exactly the register of its codes in the table, 0 where there is none. `mcr` (`Writes`): the register takes
//! exactly the bits that it keeps and nothing else changes; Halt comes exactly for c7,c0,4, Left exactly for bit 7 of the control register, with
//! the value, and then nothing changes. `tcm_place` is exactly the place of an address: ITCM first, then DTCM, which fetches don't see, by both
//! load modes. `is_main_fetch`, `is_main_read` and `is_main_write` tell by one compare exactly whether main memory lies past both from its first
//! address up to this one of it (`IsMainPast`). `vectors` is the base of the exception vectors. `laws`: registers have only the bits that they
//! keep. `pack`, `unpack`, `saved_laws`: CP15 in bytes; nothing else takes memory.
//!
//! Only tested, in `units_tests`: the table's values, and places at the edges of both memories, by rows worked from the manual.
#![tactic(auto)]

mod answers;
mod coprocessors;
mod windows;

pub use answers::{Mcr, Tcm};
pub use coprocessors::{Cp15, saved_laws};
