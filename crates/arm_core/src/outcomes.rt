//! What a step comes to.

use ds_base::Stop;

/// What a processor's step came to.
#[derive(Clone, Copy, PartialEq, Eq)]
pub enum Stepped {
    /// It was taken, and cost so many of the processor's own clocks.
    Cost(u32),
    /// It was taken and cost so many clocks, and the processor halts.
    Halted(u32),
    /// It needs what is left out. The core is as it was.
    Left(Stop),
}
