//! Tests of the small units and tables on worked rows: each module has one unit's lines, what a line does, and tables of lines. Nothing
//! stands on this crate.
//!
//! Of `ds_base` they hold that `Keys::push` succeeds where there is memory, and the tables of memories, spaces, interrupts and digits by
//! GBATEK's numbers.
#![tactic(auto)]

#[cfg(test)]
mod tests;
