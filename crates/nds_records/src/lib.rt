//! What is written: numbers as bytes, little-endian; the record of the geometry lists of a swap; the lines of traces, peeks and demos
//! (specs/Lines.antt). No line takes memory beside itself.
//!
//! Proved: each call on numbers gives exactly the number's bytes. `put_lists` puts the record of the lists of a swap whole, or a front of
//! it where the sink's count of faults rose. `step_line`, `entry_line`, `digest_line` and `put_peek` are exactly the lines of a step, of an
//! interrupt's entry, of a digest, and of bytes.
#![tactic(auto)]

mod digests;
mod lines;
mod lists;
mod numbers;
mod peeks;
mod steps;

pub use digests::digest_line;
pub use lines::OutLine;
pub use lists::put_lists;
pub use numbers::{five_longs, long_bytes, low_word_bytes, register_bytes, row_bytes, word_bytes};
pub use peeks::put_peek;
pub use steps::{entry_line, step_line};
