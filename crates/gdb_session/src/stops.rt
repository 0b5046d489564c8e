//! Why a run stands.

use ds_base::{LeftOut, Proc};
use ds_runs::ranks;
use gdb_packets::PointKind;

/// Bytes that are watched.
#[derive(Clone, Copy, PartialEq, Eq)]
pub struct Watched {
    /// Where they stop a run: where they change, are read, or are reached at all.
    pub kind: PointKind,
    /// The first address of the piece of them that stopped it.
    pub at: u32,
}

/// The causes of a stop.
#[derive(Clone, Copy, PartialEq, Eq)]
pub enum Cause {
    /// A signal by its number alone: a step was made, or a time came.
    Signal(u8),
    /// A breakpoint.
    Break,
    /// Watched bytes changed, or are reached by the next step.
    Watch(Watched),
    /// The beginning, on a way back.
    Begin,
    /// What the next step needs is left out.
    Left(LeftOut),
}

/// SIGINT, SIGILL, SIGTRAP, SIGABRT and SIGALRM.
pub const INTERRUPTED: u8 = 2;

pub const ILLEGAL: u8 = 4;

pub const TRAPPED: u8 = 5;

pub const NO_MEMORY: u8 = 6;

pub const SLICE_OVER: u8 = 14;

/// A stop.
#[derive(Clone, Copy, PartialEq, Eq)]
pub struct Stop {
    /// Of which processor.
    pub proc: Proc,
    /// Why.
    pub cause: Cause,
    /// The rank of the actor that did it, where it is no processor's step.
    pub actor: Option<u8>,
}

impl Stop {
    /// A stop of a processor with no actor.
    pub fn of(proc: Proc, cause: Cause) -> Stop {
        Stop {
            proc,
            cause,
            actor: None,
        }
    }

    /// A stop by a signal.
    pub fn signal(proc: Proc, number: u8) -> Stop {
        Stop::of(proc, Cause::Signal(number))
    }

    /// The number of its signal.
    pub fn number(self) -> u8 {
        match self.cause {
            Cause::Signal(number) => number,
            Cause::Break | Cause::Watch(_) | Cause::Begin => TRAPPED,
            Cause::Left(_) => ILLEGAL,
        }
    }
}

/// The processor of a rank; another actor's steps are those of the given one.
pub fn proc_of(rank: u8, other: Proc) -> Proc {
    match rank {
        ranks::ARM9 => Proc::Nine,
        ranks::ARM7 => Proc::Seven,
        _ => other,
    }
}
