//! The geometry engine's matrices (GBATEK, "DS 3D Matrix Types", "DS 3D Matrix Stack" and "DS 3D Matrix Load/Multiply"): the four
//! current ones, their stacks, and the commands 10h to 1Ch that change them. Numbers are signed words with 12 fractional bits,
//! vectors are rows. Every cell of a product is floor(sum / 4096) of the exact sum of products, wrapped to a signed word. Nothing
//! here takes memory. All geometry commands stand here too, by GBATEK's names: `specs/CommandTable` is their list, `specs/Commands` what those
//! of matrices leave.
//!
//! The definition is matrix algebra over whole numbers: a matrix is a rule that gives a cell by row and column, once for 4 by 4, 4 by 3 and
//! 3 by 3, and a cell of a product is a row times a column (`dot4`). The code sends each row of the left matrix through the right one.
//!
//! Proved: `GeometryCommand::of`, `parameters` and `clocks` are the table of the geometry commands (`command_row`): at most 32 parameters,
//! at least one bus clock, no two commands with one code (clause `code` of `parameters`). `Stacks::command` leaves exactly `command_taken`,
//! for every command with its number of parameters: the current matrices, the places of all stacks, the levels and the error, and that all
//! else stays; what can't be done sets the error and changes nothing else. `Stacks::clip` is position times projection: it is kept, and
//! made anew by the commands that may change it; that it is the product at every time is an invariant. The level is 31 at most (clause
//! `level`). `clear_error` clears the error and makes the projection and texture levels 0. `pack` and `unpack`: the bytes of all of them and
//! what is read of bytes, by one format (`specs/Saved`); `laws`: sixteen cells a matrix, each a signed word, and 31 places; `saved_laws`: their
//! bytes are read as they were, and bytes that are read are theirs.
//!
//! Only tested, in `gx_tests`: matrices and products worked by hand, and both ends of each stack.
#![tactic(auto)]

mod algebra;
mod commands;
mod currents;
mod stacks;

pub use algebra::{given, identity, product, scaling, translation};
pub use commands::GeometryCommand;
pub use currents::{Mode, Pose, Single};
pub use line_lanes::Matrix;
pub use stacks::{Stacks, saved_laws};
