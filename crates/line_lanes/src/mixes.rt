//! Two targets mixed, channel by channel, by factors in sixteenths. Brightening is a mix with white, darkening one with black.
ghost use Rattle.std.specs.Prelude.{◌≡◌, ◌<◌, ◌≤◌, ◌+◌, length, IsFalse};
ghost use Rattle.std.specs.Simd.Lanes.{zip2};
ghost use Rattle.line_lanes.specs.Lanes.{channel_from, mixed_channel, mixed_pixel};
ghost use Rattle.line_lanes.specs.Seconds.{pixels_of, Reaches};

use crate::lanes::{add_each, cap_each, channel_each, joined, raise_each, scale_each, shift_each};
use crate::seconds::Second;
use std::simd::prelude::*;

/// How two targets are mixed: min(31, (x EVA + y EVB + rounding) / 16) of each channel.
#[derive(Clone, Copy)]
pub(crate) struct Mix {
    /// The first target's factor, in sixteenths.
    pub(crate) eva: u16,
    /// The second target's factor, in sixteenths.
    pub(crate) evb: u16,
    /// 0 rounds down, 15 up.
    pub(crate) rounding: u16,
    /// Whether what is above 31 is held to it. It needn't be where the factors share sixteen sixteenths out.
    pub(crate) capped: bool,
    ghost first_fits: { eva ≤ 16 },
    ghost second_fits: { evb ≤ 16 },
    ghost rounding_fits: { rounding ≤ 15 },
    ghost shared_out: { IsFalse capped → eva + evb ≤ 16 },
}

impl Mix {
    /// One channel of eight pixels, which begins at bit `from`.
    fn channel_of_eight(self, top: u16x8, second: u16x8, from: u16) -> u16x8
        requires top_long { length top ≡ 8 }
        requires second_long { length second ≡ 8 }
        requires small { from < 16 }
        ensures { let mixed_here = mixed_channel self.eva self.evb self.rounding in
            result ≡ zip2 (λ p q. mixed_here (channel_from from p) (channel_from from q)) top second }
    {
        let first = scale_each(channel_each(top, from), self.eva);
        let other = scale_each(channel_each(second, from), self.evb);
        let sum = raise_each(add_each(first, other), self.rounding);
        let share = shift_each(sum, 4);
        if self.capped {
            return cap_each(share, 31);
        }
        share
    }

    /// Eight pixels.
    pub(crate) fn eight(self, top: u16x8, second: u16x8) -> u16x8
        requires top_long { length top ≡ 8 }
        requires second_long { length second ≡ 8 }
        ensures { result ≡ zip2 (mixed_pixel self.eva self.evb self.rounding) top second }
    {
        let red = self.channel_of_eight(top, second, 0);
        let green = self.channel_of_eight(top, second, 5);
        let blue = self.channel_of_eight(top, second, 10);
        joined(red, green, blue, top)
    }

    /// One channel of one pixel.
    fn channel(self, x: u16, y: u16) -> u16
        requires x_fits { x < 32 }
        requires y_fits { y < 32 }
        ensures { result ≡ mixed_channel self.eva self.evb self.rounding x y }
    {
        ((x * self.eva + y * self.evb + self.rounding) / 16).min(31)
    }

    /// One pixel.
    pub(crate) fn one(self, top: u16, second: u16) -> u16
        ensures { result ≡ mixed_pixel self.eva self.evb self.rounding top second }
    {
        let red = self.channel(top % 32, second % 32);
        let green = self.channel(top / 32 % 32, second / 32 % 32);
        let blue = self.channel(top / 1024 % 32, second / 1024 % 32);
        red + 32 * green + 1024 * blue + top / 32768 * 32768
    }

    /// A whole row: eights, and then the rest one by one. Each effect has this loop to itself, so that its constants fold.
    #[inline(always)]
    pub(crate) fn row(self, top: &mut [u16], second: Second)
        requires { Reaches second (length top.old) }
        ensures { let others = pixels_of second.entry (length top.old) in
            top.new ≡ zip2 (mixed_pixel self.eva self.evb self.rounding) top.old others }
    {
        let mut at = 0usize;
        'eights: while top.len() - at >= 8 {
            let block = self.eight(u16x8::from_slice(&top[at..at + 8]), second.eight(at));
            block.copy_to_slice(&mut top[at..at + 8]);
            at += 8;
        }
        'rest: while at < top.len() {
            top[at] = self.one(top[at], second.one(at));
            at += 1;
        }
    }
}
