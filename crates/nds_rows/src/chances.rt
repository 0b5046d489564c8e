//! Changes by chance.

use std::alloc::{AllocError, Global};

/// Numbers by chance, from a seed on: each is made from the one before. (Knuth's multiplier and odd addend, modulo 2^64; the low bits are left.)
#[derive(Clone, Copy)]
pub struct Chance {
    number: u64,
}

/// The parts of a saved state beside its memories, matrices and frames, where most fields have rules: where each begins, and its length.
const RULED: [(usize, usize); 6] = [
    (34, 40),
    (74, 326),
    (5_015_952, 9),
    (5_018_009, 754),
    (5_411_979, 5),
    (5_416_336, 2_000),
];

impl Chance {
    /// From this seed on.
    pub fn new(seed: u64) -> Chance {
        Chance { number: seed }
    }

    /// A number of 32 bits.
    fn next(&mut self) -> u32 {
        let grown = self.number.wrapping_mul(6_364_136_223_846_793_005);
        self.number = grown.wrapping_add(1_442_695_040_888_963_407);
        self.number.wrapping_shr(32) as u32
    }

    /// A number below this one, or 0.
    fn below(&mut self, count: usize) -> usize {
        let number = self.next() as usize;
        if count == 0 { 0 } else { number % count }
    }

    /// A place in so many bytes: mostly in the parts whose fields have rules.
    fn place(&mut self, length: usize) -> usize {
        let part = self.below(8);
        let place = match RULED.get(part) {
            Some((from, count)) => from.saturating_add(self.below(*count)),
            None => self.below(length),
        };
        if place < length {
            place
        } else {
            self.below(length)
        }
    }

    /// A byte in place of this one: near it, at an edge, with one bit changed, or any.
    fn byte(&mut self, old: u8) -> u8 {
        match self.below(8) {
            0 => 0,
            1 => 1,
            2 => 0xFF,
            3 => old.wrapping_add(1),
            4 => old.wrapping_sub(1),
            5 => old ^ 0x80,
            6 => old ^ 1u8.wrapping_shl(self.next() % 8),
            _ => (self.next() % 256) as u8,
        }
    }

    /// Changes some bytes that follow one another.
    fn change_some(&mut self, bytes: &mut [u8]) {
        let place = self.place(bytes.len());
        for i in 0..self.below(4).saturating_add(1) {
            let at = place.saturating_add(i);
            if at < bytes.len() {
                bytes[at] = self.byte(bytes[at]);
            }
        }
    }

    /// These bytes with some changed, in one place to three.
    pub fn changed(&mut self, alloc: Global, bytes: &[u8]) -> Result<Vec<u8>, AllocError> {
        let mut changed = Vec::from_slice(alloc, bytes)?;
        for _ in 0..self.below(3).saturating_add(1) {
            self.change_some(changed.as_mut_slice());
        }
        Ok(changed)
    }
}
