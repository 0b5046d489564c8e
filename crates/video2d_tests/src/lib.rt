//! Tests of the display as a unit: events, ports, stops and pictures, on rows worked by hand. Nothing stands on this crate.
#![tactic(auto)]

#[cfg(test)]
mod tests;
