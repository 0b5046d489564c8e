//! The second target of a mix.
ghost use Rattle.std.specs.Prelude.{◌≡◌, ◌<◌, ◌≤◌, ◌+◌, ℕ, slice_index, take, drop};
ghost use Rattle.line_lanes.specs.Seconds.{pixels_of, HasBelow};

use std::simd::prelude::*;

/// The pixels that the second target has: those of a row, or one colour at every place.
#[derive(Clone, Copy)]
pub(crate) enum Second<'a> {
    Row(&'a [u16]),
    Colour(u16),
}

impl Second<'_> {
    /// The eight pixels from `at` on.
    pub(crate) fn eight(self, at: usize) -> u16x8
        requires { HasBelow self (at + 8) }
        ensures { (n : ℕ) → at + 8 ≤ n → result ≡ take 8 (drop at (pixels_of self.entry n)) }
    {
        match self {
            Second::Row(row) => u16x8::from_slice(&row[at..at + 8]),
            Second::Colour(pixel) => u16x8::splat(pixel),
        }
    }

    /// The pixel at `at`.
    pub(crate) fn one(self, at: usize) -> u16
        requires { HasBelow self (at + 1) }
        ensures { (n : ℕ) → at < n → result ≡ slice_index (pixels_of self.entry n) at }
    {
        match self {
            Second::Row(row) => row[at],
            Second::Colour(pixel) => pixel,
        }
    }
}
