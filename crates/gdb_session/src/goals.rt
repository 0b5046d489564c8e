//! When a processor that steps has made its step.

/// The mode of an interrupt.
pub const IRQ_MODE: u32 = 0x12;

/// The place of an interrupt's entry among the vectors.
const IRQ_ENTRY: u32 = 0x18;

/// Where a processor stands: its next instruction's address and its mode.
#[derive(Clone, Copy, PartialEq, Eq)]
pub struct Stand {
    /// The address.
    pub pc: u32,
    /// The mode.
    pub mode: u32,
}

impl Stand {
    /// By the address and CPSR.
    pub fn of(pc: u32, cpsr: u32) -> Stand {
        Stand {
            pc,
            mode: cpsr % 32,
        }
    }

    /// Whether a step from here to there was the entry of an interrupt.
    fn enters(self, after: Stand) -> bool {
        let is_vector = after.pc == IRQ_ENTRY || after.pc == 0xffff_0000 + IRQ_ENTRY;
        after.mode == IRQ_MODE && is_vector && self.mode != IRQ_MODE
    }
}

/// Whether a processor is in an interrupt's handler, and where it came from.
#[derive(Clone, Copy)]
pub struct Inside {
    from: Option<Stand>,
    is_shown: bool,
}

impl Inside {
    /// In none. Where handlers are shown it is never in one.
    pub fn new(is_shown: bool) -> Inside {
        Inside {
            from: None,
            is_shown,
        }
    }

    /// Whether it is in one.
    pub fn is_inside(self) -> bool {
        self.from.is_some()
    }

    /// Takes a step, and says whether it is one of those that are counted: neither an entry, nor in a handler.
    pub fn takes(&mut self, before: Stand, after: Stand) -> bool {
        if self.is_shown {
            return true;
        }
        if let Some(from) = self.from {
            if after == from {
                self.from = None;
            }
            return false;
        }
        if before.enters(after) {
            self.from = Some(before);
            return false;
        }
        true
    }
}

/// What a run is for.
#[derive(Clone, Copy, PartialEq, Eq)]
pub enum Aim {
    /// To go on and on.
    On,
    /// One step.
    Step,
    /// Steps out of the addresses from the first to before the second.
    Out {
        /// The first address.
        from: u32,
        /// The address after the last.
        to: u32,
    },
}

/// Whether a counted step that came to an address ends such a run.
pub fn is_met(aim: Aim, pc: u32) -> bool {
    match aim {
        Aim::On => false,
        Aim::Step => true,
        Aim::Out { from, to } => pc < from || pc >= to,
    }
}
