//! Why a text isn't read as a script.

use std::alloc::AllocError;
use thiserror::Error;

/// Why a text isn't read as a script.
#[derive(Clone, Copy, PartialEq, Eq, Debug, Error)]
pub enum ScriptFault {
    /// There was no memory for its lines.
    #[error("out of memory")]
    NoMemory,
    /// Its first bad line, and where that line is bad; both count from 1.
    #[error("bad script: line {line} column {column}")]
    Bad {
        /// The first line that is no line of a script, or whose tick isn't above the one of the line before it.
        line: u32,
        /// The column after the line's longest front with which a line of a script begins; 1 where it is the tick that doesn't rise.
        column: u32,
    },
}

impl From<AllocError> for ScriptFault {
    ghost use Rattle.std.specs.Prelude.{◌≡◌};
    ghost use Rattle.nds_words.specs.declared.faults.ScriptFault.TheVariants.{NoMemory};

    ghost from_gives = { λ _ e. e ≡ NoMemory };

    fn from(_fault: AllocError) -> ScriptFault {
        ScriptFault::NoMemory
    }
}
