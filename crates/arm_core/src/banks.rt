//! The banks of registers.

/// Which registers a mode sees as r8 to r14, and which SPSR it has (ARM manual, A2.3 "Registers", figure "Register organization").
/// User and System mode share a bank, which has no SPSR.
#[derive(Clone, Copy, PartialEq, Eq)]
pub enum Bank {
    /// User and System mode, and the modes that there aren't.
    System,
    /// FIQ mode.
    Fiq,
    /// Supervisor mode.
    Supervisor,
    /// Abort mode.
    Abort,
    /// IRQ mode.
    Irq,
    /// Undefined mode.
    Undefined,
}
