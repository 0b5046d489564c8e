//! Tests of the matrices, their stacks, the geometry engine and what waits for it, on commands worked by hand. Nothing stands on this crate.
#![tactic(auto)]

#[cfg(test)]
mod tests;
