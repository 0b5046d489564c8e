//! Bytes that states are saved as: one field after another, little-endian, and read back by rules. (Our choice of form.)
//!
//! A format is said once, as a list of fields (`specs/Formats`): how each stands in bytes, what it says of the state, and its rule. From it
//! come the bytes of a state, what is read of bytes, and the place of the first field that isn't whole or breaks its rule (`specs/Reading`).
//! The two laws of all formats are proved once, in `proofs/Exact` (a clause can't speak of all types of states, so each unit says them of its
//! own): the bytes of a state that keeps the rules are read as that state, whatever is behind them; and bytes that are read are those of the
//! state that is read. `Packer` puts fields, and `Unpacker` takes them, each call exactly by its code and
//! rule; `put_list`, `take_list` and `take_each` do
//! lists of parts. What is saved of a machine is made of its units' bytes (`ds_machine`).
#![tactic(auto)]

mod packer;
mod parts;
mod unpacker;
mod words;

pub use packer::Packer;
pub use parts::{Part, put_list, take_each, take_list};
pub use unpacker::{Unpacked, Unpacker, holds};
