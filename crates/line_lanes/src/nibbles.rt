//! Packed nibbles.
ghost use Rattle.std.specs.Prelude.{◌≡◌, ℕ, ◌+◌, ◌*◌, ◌/◌, ◌%◌, length, map, slice_index, take, drop};
ghost use Rattle.line_lanes.specs.Nibbles.{nibbles};
ghost use Rattle.line_lanes.specs.Lanes.{woven};

use std::simd::prelude::*;

/// The low nibble of each of sixteen bytes.
fn low_nibbles(bytes: u8x16) -> u8x16
    requires { length bytes ≡ 16 }
    ensures { result ≡ map (λ b. b % 16) bytes }
{
    bytes & u8x16::splat(15)
}

/// The high nibble of each of sixteen bytes.
fn high_nibbles(bytes: u8x16) -> u8x16
    requires { length bytes ≡ 16 }
    ensures { result ≡ map (λ b. b / 16) bytes }
{
    bytes >> u8x16::splat(4)
}

/// The bytes of both in turn: the first sixteen, and the others.
fn weave(evens: u8x16, odds: u8x16) -> (u8x16, u8x16)
    requires evens_long { length evens ≡ 16 }
    requires odds_long { length odds ≡ 16 }
    ensures front { result.0 ≡ woven (take 8 evens) (take 8 odds) }
    ensures back { result.1 ≡ woven (drop 8 evens) (drop 8 odds) }
{
    evens.interleave(odds)
}

/// The nibbles of sixteen bytes, in order.
fn unpack_sixteen(bytes: &[u8], into: &mut [u8])
    requires bytes_long { length bytes.now ≡ 16 }
    requires into_long { length into.old ≡ 32 }
    ensures { into.new ≡ nibbles bytes.now }
{
    let pairs = u8x16::from_slice(bytes);
    let (front, back) = weave(low_nibbles(pairs), high_nibbles(pairs));
    front.copy_to_slice(&mut into[..16]);
    back.copy_to_slice(&mut into[16..32]);
}

/// The nibbles of packed bytes, as the pixels of 16-colour tiles lie (GBATEK, "LCD VRAM Character Data"): the low nibble of
/// byte i at place 2i, the high one at 2i + 1. `into` has two places for each byte.
pub fn unpack4(bytes: &[u8], into: &mut [u8])
    requires { length into.old ≡ 2 * length bytes.now }
    ensures whole { into.new ≡ nibbles bytes.now }
    ensures low { (i : ℕ) → slice_index into.new (2 * i) ≡ slice_index bytes.now i % 16 }
    ensures high { (i : ℕ) → slice_index into.new (2 * i + 1) ≡ slice_index bytes.now i / 16 }
{
    let mut at = 0usize;
    'sixteens: while bytes.len() - at >= 16 {
        unpack_sixteen(&bytes[at..at + 16], &mut into[2 * at..2 * at + 32]);
        at += 16;
    }
    'rest: while at < bytes.len() {
        into[2 * at] = bytes[at] % 16;
        into[2 * at + 1] = bytes[at] / 16;
        at += 1;
    }
}
