//! The two instruction sets.

/// An instruction set (ARM manual, "Programmer's model": the T bit).
#[derive(Clone, Copy, PartialEq, Eq)]
pub enum Set {
    /// Words of 32 bits.
    Arm,
    /// Halves of 16 bits.
    Thumb,
}
