//! Bytes that are watched.

use crate::decks::Deck;
use crate::stops::Watched;
use arm_core::{Reach, Touch};
use ds_base::{Proc, Width};
use gdb_packets::{Point, PointKind};
use std::alloc::{AllocError, Global};

/// The most bytes that a watchpoint watches.
const MOST_LENGTH: u32 = 1024;

/// The most bytes of a piece of it.
const PIECE_LENGTH: u32 = 8;

/// A piece of a watchpoint's bytes, and what they were when last looked at.
#[derive(Clone, Copy, PartialEq, Eq)]
struct Watch {
    /// The watchpoint.
    point: Point,
    /// Whose map its address is of.
    proc: Proc,
    /// The piece's first address.
    at: u32,
    /// How many bytes it has: 8 at most.
    length: u32,
    /// What they were, the first as the least significant.
    value: u64,
}

impl Watch {
    /// Whether it stops where its bytes change.
    fn sees_changes(&self) -> bool {
        self.point.kind != PointKind::Read
    }

    /// Whether it stops where an instruction of a processor's reaches some of its bytes, by what that reaches.
    fn is_reached(&self, proc: Proc, reach: Reach) -> bool {
        let is_of_kind = match self.point.kind {
            PointKind::Read => reach.reads,
            PointKind::Access => reach.reads || reach.writes,
            _ => false,
        };
        is_of_kind && self.proc == proc && self.meets(reach.touch)
    }

    /// Whether one of its bytes is among those of a touch.
    fn meets(&self, touch: Touch) -> bool {
        match touch {
            Touch::Nothing => false,
            Touch::Span { first, length } => {
                self.at.wrapping_sub(first) < length || first.wrapping_sub(self.at) < self.length
            }
        }
    }

    /// What is told of it.
    fn watched(&self) -> Watched {
        Watched {
            kind: self.point.kind,
            at: self.at,
        }
    }
}

/// The pieces of all watchpoints.
#[derive(Drop)]
pub struct Watches {
    all: Vec<Watch>,
    has_reached: bool,
}

/// A byte at an address; 0 where nothing answers.
fn byte_at<D: Deck>(deck: &D, proc: Proc, at: u32) -> u64 {
    match deck.looked(proc, at, Width::Byte) {
        Some(byte) => byte as u64,
        None => 0,
    }
}

/// A word at an aligned address.
fn word_at<D: Deck>(deck: &D, proc: Proc, at: u32) -> u64 {
    match deck.looked(proc, at, Width::Word) {
        Some(word) => word as u64,
        None => 0,
    }
}

/// Bytes from an address on, the first as the least significant.
fn bytes_at<D: Deck>(deck: &D, proc: Proc, at: u32, length: u32) -> u64 {
    if at % 4 == 0 && length == 4 {
        return word_at(deck, proc, at);
    }
    if at % 4 == 0 && length == PIECE_LENGTH {
        return word_at(deck, proc, at) | (word_at(deck, proc, at.wrapping_add(4)) << 32);
    }
    let mut value = 0;
    for place in 0..length.min(PIECE_LENGTH) {
        value |= byte_at(deck, proc, at.wrapping_add(place)) << (8 * place);
    }
    value
}

impl Watches {
    /// None.
    pub fn new(alloc: Global) -> Watches {
        Watches {
            all: Vec::new(alloc),
            has_reached: false,
        }
    }

    /// Whether there is none.
    pub fn is_empty(&self) -> bool {
        self.all.is_empty()
    }

    /// Whether one stops where bytes are reached, be they changed or not.
    pub fn has_reached(&self) -> bool {
        self.has_reached
    }

    /// Whether bytes are watched from an address on.
    pub fn has(&self, watched: Watched) -> bool {
        for watch in &self.all {
            if watch.watched() == watched {
                return true;
            }
        }
        false
    }

    /// Puts a watchpoint, once. The answer is whether it may be so long.
    pub fn insert(&mut self, point: Point, proc: Proc) -> Result<bool, AllocError> {
        if point.length > MOST_LENGTH {
            return Ok(false);
        }
        self.remove(point);
        for piece in 0..point.length.div_ceil(PIECE_LENGTH) {
            let place = PIECE_LENGTH * piece;
            self.all.push(Watch {
                point,
                proc,
                at: point.at.wrapping_add(place),
                length: point.length.saturating_sub(place).min(PIECE_LENGTH),
                value: 0,
            })?;
        }
        self.count();
        Ok(true)
    }

    /// Takes a watchpoint away.
    pub fn remove(&mut self, point: Point) {
        self.all.retain(|watch| watch.point != point);
        self.count();
    }

    /// Finds whether one stops where bytes are reached.
    fn count(&mut self) {
        self.has_reached = false;
        for watch in &self.all {
            if watch.point.kind != PointKind::Write {
                self.has_reached = true;
            }
        }
    }

    /// Looks at what is watched, for later.
    pub fn look<D: Deck>(&mut self, deck: &D) {
        for place in 0..self.all.len() {
            let watch = self.all[place];
            self.all[place].value = bytes_at(deck, watch.proc, watch.at, watch.length);
        }
    }

    /// What is watched and has changed since it was looked at, which it is now.
    pub fn changed<D: Deck>(&mut self, deck: &D) -> Option<Watched> {
        let mut found = None;
        for place in 0..self.all.len() {
            let watch = self.all[place];
            if watch.sees_changes() {
                let value = bytes_at(deck, watch.proc, watch.at, watch.length);
                if value != watch.value {
                    self.all[place].value = value;
                    found = Some(watch.watched());
                }
            }
        }
        found
    }

    /// What is watched and an instruction of a processor's reaches, by what that reaches.
    pub fn reached(&self, proc: Proc, reach: Reach) -> Option<Watched> {
        for watch in &self.all {
            if watch.is_reached(proc, reach) {
                return Some(watch.watched());
            }
        }
        None
    }
}
