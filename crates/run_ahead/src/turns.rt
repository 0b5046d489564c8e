//! What a turn answers.

use ds_base::LeftOut;

/// What a turn did.
#[derive(Clone, Copy, PartialEq, Eq)]
pub enum Turned {
    /// It took steps, one at least.
    Ran,
    /// It was the start of line 192, behind the steps of geometry that it observes, and made a frame whole.
    Frame {
        /// Whether waiting geometry lists were swapped there.
        swapped: bool,
    },
    /// A step needs what is left out: the console has stopped for good.
    Stopped(LeftOut),
    /// No actor is due below the limit, and nothing was done.
    AtEnd,
}
