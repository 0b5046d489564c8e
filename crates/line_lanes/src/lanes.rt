//! What is done to eight pixels at once: one operation a function, each said of the list of the lanes.
ghost use Rattle.std.specs.Prelude.{◌≡◌, ◌<◌, ◌+◌, ◌*◌, ◌/◌, ◌%◌, ◌^◌, length, min, map, bit_and};
ghost use Rattle.std.specs.Simd.Lanes.{zip2};
ghost use Rattle.line_lanes.specs.Lanes.{channel_from, joined_pixels};

use std::simd::prelude::*;

pub(crate) fn mask_each(lanes: u16x8, mask: u16) -> u16x8
    requires { length lanes ≡ 8 }
    ensures { result ≡ map (λ x. bit_and x mask) lanes }
{
    lanes & u16x8::splat(mask)
}

pub(crate) fn shift_each(lanes: u16x8, count: u16) -> u16x8
    requires long { length lanes ≡ 8 }
    requires small { count < 16 }
    ensures { result ≡ map (λ x. x / 2 ^ count) lanes }
{
    lanes >> u16x8::splat(count)
}

pub(crate) fn scale_each(lanes: u16x8, factor: u16) -> u16x8
    requires { length lanes ≡ 8 }
    ensures { result ≡ map (λ x. x * factor % 65536) lanes }
{
    lanes * u16x8::splat(factor)
}

pub(crate) fn raise_each(lanes: u16x8, by: u16) -> u16x8
    requires { length lanes ≡ 8 }
    ensures { result ≡ map (λ x. (x + by) % 65536) lanes }
{
    lanes + u16x8::splat(by)
}

pub(crate) fn cap_each(lanes: u16x8, most: u16) -> u16x8
    requires { length lanes ≡ 8 }
    ensures { result ≡ map (λ x. min x most) lanes }
{
    lanes.simd_min(u16x8::splat(most))
}

pub(crate) fn add_each(lanes: u16x8, others: u16x8) -> u16x8
    ensures { result ≡ zip2 (λ x y. (x + y) % 65536) lanes others }
{
    lanes + others
}

/// The channel that begins at bit `from`.
pub(crate) fn channel_each(pixels: u16x8, from: u16) -> u16x8
    requires long { length pixels ≡ 8 }
    requires small { from < 16 }
    ensures { result ≡ map (channel_from from) pixels }
{
    mask_each(shift_each(pixels, from), 31)
}

/// The pixels of these channels, with bit 15 of the old ones: green goes to bit 5, blue to bit 10.
pub(crate) fn joined(red: u16x8, green: u16x8, blue: u16x8, old: u16x8) -> u16x8
    requires red_long { length red ≡ 8 }
    requires green_long { length green ≡ 8 }
    requires blue_long { length blue ≡ 8 }
    requires old_long { length old ≡ 8 }
    ensures { result ≡ joined_pixels red green blue old }
{
    let low = add_each(red, scale_each(green, 32));
    let high = add_each(
        scale_each(blue, 1024),
        scale_each(shift_each(old, 15), 32768),
    );
    add_each(low, high)
}
