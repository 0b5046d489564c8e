//! Tests of what comes in and goes out, on worked rows: whole files and bytes that are put, headers of cartridges, key scripts. Nothing stands
//! on this crate.
#![tactic(auto)]

#[cfg(test)]
mod tests;
