//! What CP15 answers.

use ds_base::Stop;

/// What a write of a CP15 register came to.
#[derive(Clone, Copy, PartialEq, Eq)]
pub enum Mcr {
    /// The register took the bits that it keeps, or ignored the write.
    Kept,
    /// It was the wait for an interrupt (c7,c0,4): ARM9 halts.
    Halt,
    /// It would switch to big-endian mode, which is left out; nothing changed.
    Left(Stop),
}

/// Where a tightly coupled memory stands at an address.
#[derive(Clone, Copy, PartialEq, Eq)]
pub enum Tcm {
    /// The byte of ITCM at this place, below 32 KiB.
    Itcm(u32),
    /// The byte of DTCM at this place, below 16 KiB.
    Dtcm(u32),
    /// Neither stands there: the access goes past both.
    Past,
}
