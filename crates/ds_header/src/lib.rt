//! Cartridges: a file's header, the rules by which it is accepted, and what it says of the two processors' images.
//!
//! Proved: `Cart::read` accepts a file exactly where its header keeps all rules, and keeps its bytes; otherwise it answers the first field
//! that breaks its rule, in the order of `HeaderField`, with that field's value. Sums of offset and size are exact. `image` is the bytes
//! from the header's offset on, as many as its size says, 4 MiB at most; `place` and `entry` are the header's addresses: the image lies in
//! main memory's mirrors, ARM7's also in 37F8000h to 380FFFFh, and the entry is a multiple of 4 there. Checksums, logo and capacity aren't
//! looked at.
//!
//! Only tested, in `io_tests`: each rule at its edge on both sides, each rule before the next where both are broken, short files, sums past
//! 2^32, images of 4 MiB and one byte more, and one cartridge's images, places, entries and title.
#![tactic(auto)]

mod carts;
mod faults;
mod fields;
mod rules;

pub use carts::Cart;
pub use faults::{HeaderFault, HeaderField};
