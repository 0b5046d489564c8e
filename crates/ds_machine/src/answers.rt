//! What a machine answers.

use ds_base::LeftOut;

/// What an actor's step came to.
#[derive(Clone, Copy, PartialEq, Eq)]
pub enum Done {
    /// It was taken.
    Made,
    /// It was taken, and was the start of line 192, which makes a frame whole. (GBATEK, "DS Video", V-blank.)
    Frame {
        /// Whether waiting geometry lists were swapped there.
        swapped: bool,
    },
    /// It needs what is left out, and wasn't taken.
    Stopped(LeftOut),
}

/// What a processor does next.
#[derive(Clone, Copy, PartialEq, Eq)]
pub enum Seen {
    /// It enters an interrupt at this r15.
    Irq(u32),
    /// It executes this word of ARM code.
    Word {
        /// The word's address.
        at: u32,
        /// The word.
        word: u32,
    },
    /// It executes this half of Thumb code.
    Half {
        /// The half's address.
        at: u32,
        /// The half.
        half: u16,
    },
    /// It isn't due.
    Idle,
}

/// Whether a processor's next step may be taken before its turn, but for when it is due.
#[derive(Clone, Copy, PartialEq, Eq)]
pub enum Private {
    /// It may: it reaches private places alone, while nothing that another actor raises reaches the processor.
    Yes,
    /// It may not.
    No,
}
