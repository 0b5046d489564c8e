//! The two processors.

ghost use Rattle.std.specs.Prelude.{◌≡◌};
ghost use Rattle.ds_base.specs.Processors.{architecture_of, raised_at, ticks_per_clock};

/// One of the console's two processors (GBATEK, "NDS Overview"). It also names the processor's side of what both share.
#[derive(Clone, Copy, PartialEq, Eq, Debug)]
pub enum Proc {
    /// ARM9: an ARM946E-S, clocked once a tick.
    Nine,
    /// ARM7: an ARM7TDMI, clocked once in two ticks.
    Seven,
}

/// The architecture that a processor's instructions belong to (ARM Architecture Reference Manual, "Architecture versions").
#[derive(Clone, Copy, PartialEq, Eq, Debug)]
pub enum Arch {
    /// ARMv4T, that of ARM7.
    V4,
    /// ARMv5TE, that of ARM9.
    V5,
}

impl Proc {
    /// The architecture of its instructions.
    #[inline(always)]
    pub const fn architecture(self) -> Arch
        ensures { result ≡ architecture_of self }
    {
        match self {
            Proc::Nine => Arch::V5,
            Proc::Seven => Arch::V4,
        }
    }

    /// One of its clocks, in ticks.
    #[inline(always)]
    pub const fn ticks_per_clock(self) -> u64
        ensures { result ≡ ticks_per_clock self }
    {
        match self {
            Proc::Nine => 1,
            Proc::Seven => 2,
        }
    }
}

/// The bits of each processor's interrupt flags (IF) that an event raises (GBATEK, "DS Interrupts").
#[derive(Clone, Copy, PartialEq, Eq)]
pub struct Raised {
    /// The bits raised in ARM9's IF.
    pub nine: u32,
    /// The bits raised in ARM7's IF.
    pub seven: u32,
}

impl Raised {
    /// Bits raised at one processor alone.
    #[inline(always)]
    pub const fn at(proc: Proc, bits: u32) -> Raised
        ensures { result ≡ raised_at proc bits }
    {
        match proc {
            Proc::Nine => Raised {
                nine: bits,
                seven: 0,
            },
            Proc::Seven => Raised {
                nine: 0,
                seven: bits,
            },
        }
    }
}
