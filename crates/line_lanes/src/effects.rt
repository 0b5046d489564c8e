//! The effects of the 2D engines on a row of pixels.
ghost use Rattle.std.specs.Prelude.{◌≡◌, length, map};
ghost use Rattle.std.specs.Simd.Lanes.{zip2};
ghost use Rattle.line_lanes.specs.Pixels.{blended, brightened, darkened, mastered, held, StaysClear};

use crate::mixes::Mix;
use crate::seconds::Second;

/// White, with bit 15 clear.
const WHITE: u16 = 0x7FFF;

/// Black, with bit 15 clear.
const BLACK: u16 = 0;

/// A factor in sixteenths, held to 16.
fn held_factor(factor: u8) -> u16
    ensures { result ≡ held factor }
{
    factor.min(16) as u16
}

/// Alpha blending (GBATEK, "LCD I/O Color Special Effects"): each channel of `top` becomes min(31, (top EVA + next EVB) / 16).
/// Bit 15 of `next` is ignored, and that of `top` stays. A factor above 16 acts as 16.
pub fn blend(top: &mut [u16], next: &[u16], eva: u8, evb: u8)
    requires { length top.old ≡ length next.now }
    ensures row { top.new ≡ zip2 (blended eva evb) top.old next.now }
    ensures clear { StaysClear top.old top.new }
{
    let mix = Mix {
        eva: held_factor(eva),
        evb: held_factor(evb),
        rounding: 0,
        capped: true,
    };
    mix.row(top, Second::Row(next));
}

/// Brightness increase (GBATEK, "LCD I/O Color Special Effects"): each channel c becomes c + (31 - c) EVY / 16. Bit 15 stays. A
/// factor above 16 acts as 16.
pub fn brighten(row: &mut [u16], evy: u8)
    ensures row { row.new ≡ map (brightened evy) row.old }
    ensures clear { StaysClear row.old row.new }
{
    let evb = held_factor(evy);
    let mix = Mix {
        eva: 16 - evb,
        evb,
        rounding: 0,
        capped: false,
    };
    mix.row(row, Second::Colour(WHITE));
}

/// Brightness decrease (GBATEK, "LCD I/O Color Special Effects"): each channel c becomes c - c EVY / 16. Bit 15 stays. A factor
/// above 16 acts as 16.
pub fn darken(row: &mut [u16], evy: u8)
    ensures row { row.new ≡ map (darkened evy) row.old }
    ensures clear { StaysClear row.old row.new }
{
    // What is taken away is rounded down, so what is left is rounded up.
    let evb = held_factor(evy);
    let mix = Mix {
        eva: 16 - evb,
        evb,
        rounding: 15,
        capped: false,
    };
    mix.row(row, Second::Colour(BLACK));
}

/// Master brightness (GBATEK, "DS Video Stuff", MASTER_BRIGHT): `value` is the port's, its factor in bits 0 to 4 and its mode
/// in bits 14 to 15. Mode 1 brightens and mode 2 darkens; modes 0 and 3 leave the row as it is. Its channels have five bits
/// (our choice).
pub fn master(row: &mut [u16], value: u16)
    ensures row { row.new ≡ map (mastered value) row.old }
    ensures clear { StaysClear row.old row.new }
{
    let factor = (value % 32) as u8;
    match value / 16384 {
        1 => brighten(row, factor),
        2 => darken(row, factor),
        _ => {}
    }
}
