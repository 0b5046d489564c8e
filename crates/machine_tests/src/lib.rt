//! Tests of what a machine tells between two of its steps, on worked rows. Nothing stands on this crate.
#![tactic(auto)]

#[cfg(test)]
mod tests;
