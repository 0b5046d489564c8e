//! What goes wrong outside.

use std::alloc::AllocError;
use thiserror::Error;

/// A call of a shelf or a sink failed. It comes only where that object's count of faults rose.
#[derive(Clone, Copy, PartialEq, Eq, Debug, Error)]
#[error("the outside failed")]
pub struct Failed;

/// Why a file isn't read whole.
#[derive(Clone, Copy, PartialEq, Eq, Debug, Error)]
pub enum ReadFault {
    /// There was no memory for its bytes.
    #[error("out of memory")]
    NoMemory,
    /// A read failed, and the shelf's count of faults rose.
    #[error("a read failed")]
    Failed,
    /// It has more bytes than were asked for.
    #[error("too long")]
    TooLong,
}

impl From<AllocError> for ReadFault {
    ghost use Rattle.std.specs.Prelude.{◌≡◌};
    ghost use Rattle.ds_io.specs.declared.faults.ReadFault.TheVariants.{NoMemory};

    ghost from_gives = { λ _ e. e ≡ NoMemory };

    fn from(_fault: AllocError) -> ReadFault {
        ReadFault::NoMemory
    }
}

impl From<Failed> for ReadFault {
    ghost use Rattle.std.specs.Prelude.{◌≡◌};
    ghost use Rattle.ds_io.specs.declared.faults.ReadFault.TheVariants.{Failed};

    ghost from_gives = { λ _ e. e ≡ Failed };

    fn from(_fault: Failed) -> ReadFault {
        ReadFault::Failed
    }
}
