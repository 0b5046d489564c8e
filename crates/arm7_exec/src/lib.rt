//! ARM7's step: ARMv4T, whose vectors stand at 0, in its boot ROM (GBATEK, "NDS Overview": an ARM7TDMI).
//!
//! Proved of `step7(core, bus, line)`, over every bus, for every core, every state of the bus, and the line up or down: registers (clause
//! `core`), the state of the bus (`state`) and the answer (`stepped`) are those of ARM7's step (`step7_of`: `step_of` on ARMv4, with
//! vectors at 0 and SWI's in the boot ROM). `Left` has a stop, exactly where a write of the meaning is refused, or where the condition of a
//! SWI holds whose number the boot ROM hasn't; then the registers are as they were; the answer is never `Halted` (`left`). `same`: the
//! bus's identity stays. `statuses`: where CPSR and each SPSR have no bits but those that ARMv4 keeps, this stays so. `execute7` is what is
//! left of such a step behind its fetch. Both stand on the core that they are given as a core of ARMv4, whatever architecture that names.
#![tactic(auto)]

mod steps;

pub use arm_core::Stepped;
pub use steps::{execute7, step7};
