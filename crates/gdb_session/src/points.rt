//! Breakpoints and watchpoints.

use crate::stops::Watched;
use crate::watches::Watches;
use ds_base::Proc;
use gdb_packets::{Point, PointKind};
use std::alloc::{AllocError, Global};

/// The points at which a run stops.
#[derive(Drop)]
pub struct Points {
    breaks: Vec<u32>,
    gone: Vec<u32>,
    /// A bit for each of 64 kinds of address, of those at which a breakpoint stands or was taken away: most addresses are told by it alone.
    kinds: u64,
    /// The watchpoints.
    pub watches: Watches,
}

/// The bit of an address's kind: code is of halves at least, and 64 of them after one another differ.
#[inline(always)]
fn kind_of(at: u32) -> u64 {
    1 << ((at >> 1) % 64)
}

/// Takes a number out of a list, wherever it stands, and says whether it stood there.
fn take_out(list: &mut Vec<u32>, number: u32) -> bool {
    for place in 0..list.len() {
        if list[place] == number {
            let _gone = list.remove(place);
            return true;
        }
    }
    false
}

impl Points {
    /// No point.
    pub fn new(alloc: Global) -> Points {
        Points {
            breaks: Vec::new(alloc),
            gone: Vec::new(alloc),
            kinds: 0,
            watches: Watches::new(alloc),
        }
    }

    /// Whether there is no point.
    pub fn is_empty(&self) -> bool {
        self.breaks.is_empty() && self.watches.is_empty()
    }

    /// Whether a breakpoint may stand at one of two addresses, or may have been taken away there.
    #[inline(always)]
    pub fn may_break(&self, one: u32, other: u32) -> bool {
        self.kinds & (kind_of(one) | kind_of(other)) != 0
    }

    /// Whether a breakpoint stands at an address.
    pub fn breaks_at(&self, at: u32) -> bool {
        self.breaks.contains(&at)
    }

    /// Whether one stands there, or was taken away since the run last stood.
    pub fn broke_at(&self, at: u32) -> bool {
        self.breaks.contains(&at) || self.gone.contains(&at)
    }

    /// Whether such bytes are watched.
    pub fn watches(&self, watched: Watched) -> bool {
        self.watches.has(watched)
    }

    /// Puts a point. The answer is whether it can be put.
    pub fn insert(&mut self, point: Point, proc: Proc) -> Result<bool, AllocError> {
        match point.kind {
            PointKind::Break => self.insert_break(point.at),
            _ => self.watches.insert(point, proc),
        }
    }

    /// Puts a breakpoint, once.
    fn insert_break(&mut self, at: u32) -> Result<bool, AllocError> {
        if !self.breaks_at(at) {
            self.breaks.push(at)?;
            self.kinds |= kind_of(at);
        }
        Ok(true)
    }

    /// Takes a point away. A breakpoint counts on for the processor that isn't stepped, until the run goes on as a whole.
    pub fn remove(&mut self, point: Point) -> Result<(), AllocError> {
        match point.kind {
            PointKind::Break => {
                if take_out(&mut self.breaks, point.at) {
                    self.gone.push(point.at)?;
                }
            }
            _ => self.watches.remove(point),
        }
        Ok(())
    }

    /// Forgets the breakpoints that were taken away.
    pub fn forget(&mut self) {
        self.gone.clear();
        self.kinds = 0;
        for at in &self.breaks {
            self.kinds |= kind_of(*at);
        }
    }
}
