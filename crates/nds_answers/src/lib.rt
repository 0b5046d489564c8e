//! The files that a command names, found on a shelf, read whole and checked (specs/Loads.antt: which are accepted, and when each refusal
//! comes); and how a call of the program ends: its statuses, their numbers, and the line that tells each to a person.
//!
//! Proved of `load`, `load_cart`, `load_run` and `load_saved`: NoFile, ReadFault, TooLong and BadHeader come by their causes: the name, the shelf's
//! count of faults, the length, the first field that breaks its rule with its value. NoFile, ReadFault and TooLong come of the key script too,
//! and BadScript exactly where it is no script, with its first bad line and column; any of them only where the cartridge is accepted. Of the file
//! of a saved state they come before those of the cartridge.
//! `number` is each status's number; `note` writes the status's line, or a front of it where the sink's count of faults rose.
#![tactic(auto)]

mod loads;
mod notes;
mod statuses;

pub use loads::{load, load_cart, load_run, load_saved};
pub use notes::{name_of_kind, note};
pub use statuses::{Ended, Status, number};
