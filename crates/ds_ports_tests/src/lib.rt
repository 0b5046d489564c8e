//! Tests of the ports on worked rows: the register map, and what each register reads, keeps and does. Nothing stands on this crate.
#![tactic(auto)]

#[cfg(test)]
mod tests;
