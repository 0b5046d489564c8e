//! ARM9's step: ARMv5TE, whose vectors stand where CP15 says, and the moves to and from CP15 (GBATEK, "NDS Overview": an ARM946E-S).
//!
//! Proved of `step9(core, cp, bus, line)`, over every bus, for every core, every state of CP15 and of the bus, and the line up or down:
//! registers (clause `core`), CP15 (`cp`), the state of the bus (`state`) and the answer (`stepped`) are those of ARM9's step (`step9_of`):
//! the interrupt's entry, a move to or from CP15 by its table, or any other instruction by its meaning on ARMv5, with vectors where CP15
//! says. `same`: the bus's identity stays. `left`: where the answer is `Left`, registers and CP15 are as they were. `halted`: the answer is
//! `Halted` exactly where the step wrote the wait for an interrupt (c7,c0,4). `statuses`: where CPSR and each SPSR have no bits but those
//! that ARMv5 keeps, and CP15 keeps words, this stays so. `move_of`, `move_if` and `in_rom` are its parts, for callers that look at what is
//! fetched first. They stand on the core that they are given as a core of ARMv5, whatever architecture that names.
#![tactic(auto)]

mod coprocessors;
mod steps;

pub use arm_core::Stepped;
pub use coprocessors::{Moved, move_if, move_of};
pub use steps::{in_rom, step9};
