//! The pixels of both screens.

ghost use Rattle.std.specs.Prelude.{◌≡◌, ◌<◌, ◌≤◌, ◌+◌, ◌*◌, ◌/◌, ◌==◌, if◌then◌else◌, ℕ, IfOk, length, slice_index};
ghost use Rattle.ds_base.specs.Numbers.{zeroes};
ghost use Rattle.video2d.specs.Pictures.{line_laid};
ghost use Rattle.video2d.specs.rows.Frames.{frame_of, frame_pixel};

use std::alloc::{AllocError, Global};
use std::marker::Model;

mod saved;

/// How many pixels both screens have.
pub const PIXELS: usize = 98_304;

/// How many pixels a line has.
pub const WIDTH: usize = 256;

/// How many lines both screens have.
pub const LINES: usize = 384;

/// The pixels of both screens, the upper first.
#[derive(Drop)]
pub struct Screens {
    pixels: Vec<u16>,
}

impl Model for Screens {
    ghost use Rattle.std.specs.Prelude.{◌≡◌, ℕ, List, length};

    ghost Value = { List ℕ };

    ghost view = { λ s. s.pixels.items };

    ghost invariant = { λ s. length s.pixels.items ≡ 98304 };
}

/// So many zeros.
#[tactic(auto, unfolding(ds_base::specs::Numbers::zeroes))]
fn zeroed(alloc: Global, count: usize) -> Result<Vec<u16>, AllocError>
    ensures zero { IfOk result (λ v. v.items ≡ zeroes count) }
    ensures long { IfOk result (λ v. length v.items ≡ count) }
{
    Ok(vec![in alloc; 0; count]?)
}

/// Copies a line from one frame into another.
fn copy_line(number: usize, from: &[u16], into: &mut [u16])
    requires known { number < 384 }
    requires from { length from.now ≡ 98304 }
    requires into { length into.old ≡ 98304 }
    ensures each { (i : ℕ) → i < 98304 → slice_index into.new i ≡ (if i / 256 == number then slice_index from.now i else slice_index into.old i) }
    ensures long { length into.new ≡ 98304 }
{
    for i in WIDTH * number..WIDTH * number + WIDTH {
        into[i] = from[i];
    }
}

/// Copies the lines that aren't fresh from the last whole frame.
fn fill_rest(fresh: &[bool; LINES], whole: &[u16], drawn: &mut [u16])
    requires whole { length whole.now ≡ 98304 }
    requires drawn { length drawn.old ≡ 98304 }
    ensures each { (i : ℕ) → i < 98304 → slice_index drawn.new i ≡ frame_pixel fresh.now drawn.old whole.now i }
    ensures long { length drawn.new ≡ 98304 }
{
    for number in 0..LINES {
        if !fresh[number] {
            copy_line(number, whole, drawn);
        }
    }
}

impl Screens {
    /// All pixels are 0.
    pub fn new(alloc: Global) -> Result<Screens, AllocError>
        ensures { IfOk result (λ s. s ≡ zeroes 98304) }
    {
        Ok(Screens {
            pixels: zeroed(alloc, PIXELS)?,
        })
    }

    /// All pixels, from where they lie.
    pub fn pixels(&self) -> &[u16]
        ensures value { result.now ≡ self.now }
        ensures long { length result.now ≡ 98304 }
    {
        self.pixels.as_slice()
    }

    /// Puts a line at a place.
    #[tactic(auto, unfolding(crate::specs::Pictures::line_laid))]
    pub fn lay(&mut self, place: usize, line: &[u16; 256])
        requires { place + 256 ≤ 98304 }
        ensures { self.new ≡ line_laid place line.now self.old }
    {
        self.pixels[place..place + 256].copy_from_slice(line);
    }

    /// Does nothing; its contract tells how many pixels there are.
    pub fn pixel_laws(&self)
        ensures { length self.now ≡ 98304 }
    {
        // here the proof learns what is kept
        let _ = &self.pixels;
    }

    /// The lines that aren't fresh become those of the last whole frame.
    pub fn fill_rest(&mut self, fresh: &[bool; LINES], whole: &Screens)
        ensures { self.new ≡ frame_of fresh.now self.old whole.now }
    {
        fill_rest(fresh, whole.pixels(), self.pixels.as_mut_slice());
    }
}
