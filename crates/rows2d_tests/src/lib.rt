//! Tests of video memory, of the rows of backgrounds and objects, and of the kernels over rows of pixels, all on worked rows. Nothing
//! stands on this crate.
#![tactic(auto)]

#[cfg(test)]
mod tests;
