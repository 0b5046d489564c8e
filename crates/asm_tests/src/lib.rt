//! Tests of the words, their statements and listings, written by hand from the ARM manual's encodings. Nothing stands on this crate.
#![tactic(auto)]

#[cfg(test)]
mod tests;
