//! Words and halves that were decoded before, with their instructions: decoding one again is a look-up by the word itself.
//!
//! An entry is a word and its instruction, with the fact that it is that word's; so nothing is ever made invalid, and no public contract
//! speaks of what is kept. Each look-up is exactly the instruction of its word.
//!
//! Proved: `Decoder::arm_operation` and `thumb_operation` are exactly what the instruction of the word or half, on the version's
//! architecture, is decoded as (`operation_of`), whatever is kept and at whatever address; its fields are in their ranges. So is what `kept_word`
//! and `kept_half` give, where they give one: they change nothing. `Decoder::new` refuses only for want of memory, its error's one cause; all
//! memory is taken there.
//!
//! Only tested, in `arm_exec_tests`: words that were kept, and others at their places between them.
#![tactic(auto)]

mod caches;
mod decoders;

pub use decoders::Decoder;
