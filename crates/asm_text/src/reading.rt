//! Statements read back.

mod arm_rows;
mod arm_stems;
mod arm_transfers;
pub(crate) mod lines;
mod names;
pub(crate) mod parts;
mod thumb_rows;
mod thumb_stems;
