//! The frame being drawn, and the last whole one.

ghost use Rattle.std.specs.Prelude.{◌≡◌, ◌<◌, ◌≤◌, ◌+◌, ◌%◌, ℕ, false, IfOk, OnOk, length, slice_index, slice_index_or};
ghost use Rattle.ds_base.specs.Numbers.{zeroes};
ghost use Rattle.ds_state.specs.Formats.{bytes_written};
ghost use Rattle.video2d.specs.Pictures.{line_laid};
ghost use Rattle.video2d.specs.Saved.{frame_format, pixel_format};

use crate::screens::{LINES, PIXELS, Screens, WIDTH};
use ds_base::known;
use ds_state::Packer;
use std::alloc::{AllocError, Global};
use std::marker::Model;
use std::mem::swap;

/// The frame being drawn and the last whole one. Where a frame becomes whole the memories of both change places, and nothing is copied; so the lines
/// that weren't drawn since then stand in the last whole frame alone.
#[derive(Drop)]
pub struct Frames {
    /// Which lines of both screens were drawn since the last frame became whole.
    fresh: [bool; LINES],
    /// The frame being drawn, where its lines are fresh.
    drawn: Screens,
    /// The last whole frame.
    whole: Screens,
}

impl Model for Frames {
    ghost use Rattle.video2d.specs.rows.Frames.{FramesState, frame_of};

    ghost Value = { FramesState };

    ghost view = { λ f. record { drawn = frame_of f.fresh f.drawn f.whole; whole = f.whole } };
}

/// The same of all lines.
fn all_lines(fresh: bool) -> [bool; LINES]
    ensures { (number : ℕ) → number < 384 → slice_index_or result number false ≡ fresh }
{
    [fresh; LINES]
}

/// Puts a pixel.
#[inline(always)]
fn put_pixel(into: &mut Packer, pixel: u16) -> Result<(), AllocError>
    ensures { OnOk result (into.new ≡ bytes_written pixel_format into.old pixel) }
{
    into.put_u16(pixel)?;
    Ok(())
}

impl Frames {
    /// All pixels are 0.
    pub fn new(alloc: Global) -> Result<Frames, AllocError>
        ensures { IfOk result (λ f. f ≡ record { drawn = zeroes 98304; whole = zeroes 98304 }) }
    {
        let drawn = Screens::new(alloc)?;
        let whole = Screens::new(alloc)?;
        Ok(Frames::of(drawn, whole))
    }

    /// Both frames.
    pub fn of(drawn: Screens, whole: Screens) -> Frames
        ensures { result ≡ record { drawn = drawn; whole = whole } }
    {
        known!(drawn.pixel_laws());
        Frames {
            fresh: all_lines(true),
            drawn,
            whole,
        }
    }

    /// All pixels of the last whole frame, from where they lie.
    pub fn whole(&self) -> &[u16]
        ensures value { result.now ≡ self.now.whole }
        ensures long { length result.now ≡ 98304 }
    {
        self.whole.pixels()
    }

    /// Does nothing; its contract tells how many pixels the frame being drawn has.
    fn pixel_laws(&self)
        ensures { length self.now.drawn ≡ 98304 }
    {
        // here the proof learns what is kept
        let _ = &self.fresh;
    }

    /// A pixel of the frame being drawn.
    #[inline(always)]
    fn pixel(&self, i: usize) -> u16
        requires { i < 98304 }
        ensures { result ≡ slice_index self.now.drawn i }
    {
        if self.fresh[i / WIDTH] {
            self.drawn.pixels()[i]
        } else {
            self.whole.pixels()[i]
        }
    }

    /// Puts a line at a place of the frame being drawn.
    pub fn lay(&mut self, place: usize, line: &[u16; 256])
        requires inside { place + 256 ≤ 98304 }
        requires whole { place % 256 ≡ 0 }
        ensures { self.new ≡ record self.old { drawn = line_laid place line.now self.old.drawn } }
    {
        known!(self.drawn.pixel_laws());
        self.drawn.lay(place, line);
        self.fresh[place / WIDTH] = true;
    }

    /// The frame being drawn becomes the last whole one, and stays.
    pub fn finish(&mut self)
        ensures { self.new ≡ record self.old { whole = self.old.drawn } }
    {
        self.drawn.fill_rest(&self.fresh, &self.whole);
        swap(&mut self.drawn, &mut self.whole);
        self.fresh = all_lines(false);
    }

    /// Puts all pixels of the frame being drawn.
    #[tactic(auto, unfolding(crate::specs::Saved::frame_format))]
    pub fn pack_drawn(&self, into: &mut Packer) -> Result<(), AllocError>
        ensures { OnOk result (into.new ≡ bytes_written frame_format into.old self.now.drawn) }
    {
        known!(self.pixel_laws());
        for i in 0..PIXELS {
            put_pixel(into, self.pixel(i))?;
        }
        Ok(())
    }

    /// Puts all pixels of the last whole frame.
    pub fn pack_whole(&self, into: &mut Packer) -> Result<(), AllocError>
        ensures { OnOk result (into.new ≡ bytes_written frame_format into.old self.now.whole) }
    {
        self.whole.pack(into)
    }
}
