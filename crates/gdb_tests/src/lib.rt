//! Tests of gdb's packets: bytes to packets, packets to requests, answers to bytes. Nothing stands on this crate.
#![tactic(auto)]

#[cfg(test)]
mod tests;
