//! Tests of both processors' steps on rows that were worked by hand from the ARM Architecture Reference Manual and the ARM946E-S manual.
//! Nothing stands on this crate.
//!
//! A row has the state before, a word or half, all that the step leaves of the 37 words, of memory and of CP15, and its cost on each
//! processor; what it doesn't name must be as before. Where the architectures differ, both results stand beside each other. Each row whose
//! instruction is decoded to an operation is run as that too, in RAM and anywhere. Other rows tell the bytes that are reached, what is run
//! where loads are near, and what the cache keeps. Refused writes are tried on a memory that refuses one word. Its functions are proved to
//! end and to be safe; what they show is only tested: that meanings and costs are the manual's and ours.
#![tactic(auto)]

#[cfg(test)]
mod tests;
