//! Where transfers go.

/// Where a transfer goes, and what becomes of its base (ARM manual, A5.2 "Addressing Mode 2", A5.3 "Addressing Mode 3").
#[derive(Clone, Copy)]
pub struct Addressed {
    /// The address of the access, not aligned.
    pub address: u32,
    /// The base after the transfer, if it is written back.
    pub base: u32,
    /// Whether it is written back.
    pub written: bool,
}
