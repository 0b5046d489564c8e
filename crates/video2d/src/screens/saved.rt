//! Frames in bytes.

ghost use Rattle.std.specs.Prelude.{◌≡◌, ◌<◌, IfOk, OnOk, length};
ghost use Rattle.ds_state.specs.Formats.{bytes_written, written_each};
ghost use Rattle.ds_state.specs.Reading.{GivesIn, GivesRead, read_format, read_list};
ghost use Rattle.video2d.specs.Saved.{frame_format, frame_pixels, pixel_format};

use crate::screens::{PIXELS, Screens};
use ds_base::Tick;
use ds_state::{Packer, Unpacked, Unpacker};
use std::alloc::{AllocError, Global};

/// Puts pixels, one after another.
fn put_pixels(into: &mut Packer, pixels: &[u16]) -> Result<(), AllocError>
    ensures { OnOk result (into.new ≡ written_each (bytes_written pixel_format) into.old pixels.now) }
{
    for pixel in pixels {
        into.put_u16(*pixel)?;
    }
    Ok(())
}

/// Takes a pixel, whose bit 15 is 0.
#[inline(always)]
fn take_pixel(from: &mut Unpacker, at: Tick) -> Result<u16, Unpacked>
    ensures { GivesRead (λ p. p) result from.new (read_format pixel_format at.0 from.old) }
{
    from.take_half_at_most(0x7FFF)
}

/// Takes so many pixels, whose bit 15 is 0.
fn take_pixels(
    alloc: Global,
    from: &mut Unpacker,
    count: usize,
    at: Tick,
) -> Result<Vec<u16>, Unpacked>
    ensures reads { GivesIn (λ v. v.items) result from.new (read_list (read_format pixel_format at.0) count from.old) }
    ensures long { IfOk result (λ v. length v.items ≡ count) }
{
    let mut pixels = Vec::with_capacity(alloc, count)?;
    for _ in 0..count {
        let pixel = take_pixel(from, at)?;
        pixels.push(pixel)?;
    }
    Ok(pixels)
}

/// How many pixels a frame has.
#[tactic(auto, unfolding(crate::specs::Saved::frame_pixels))]
fn pixel_count() -> usize
    ensures { result ≡ frame_pixels }
{
    PIXELS
}

/// A frame of so many pixels.
#[tactic(auto, unfolding(crate::specs::Saved::frame_pixels))]
fn frame_of(pixels: Vec<u16>) -> Screens
    requires { length pixels.items ≡ frame_pixels }
    ensures { result ≡ pixels.items }
{
    Screens { pixels }
}

impl Screens {
    /// Puts all pixels.
    #[tactic(auto, unfolding(crate::specs::Saved::frame_format))]
    pub fn pack(&self, into: &mut Packer) -> Result<(), AllocError>
        ensures { OnOk result (into.new ≡ bytes_written frame_format into.old self.now) }
    {
        put_pixels(into, self.pixels.as_slice())
    }

    /// Takes what `pack` puts.
    #[tactic(auto, unfolding(crate::specs::Saved::frame_format))]
    pub fn unpack(alloc: Global, from: &mut Unpacker, at: Tick) -> Result<Screens, Unpacked>
        ensures { GivesIn (λ s. s) result from.new (read_format frame_format at.0 from.old) }
    {
        let pixels = take_pixels(alloc, from, pixel_count(), at)?;
        Ok(frame_of(pixels))
    }
}
