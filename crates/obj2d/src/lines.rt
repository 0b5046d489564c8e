//! Which objects are drawn on a line.

ghost use Rattle.std.specs.Prelude.{◌≡◌, ◌<◌, ◌≤◌, ◌+◌, ℕ, true, false, IsTrue, length};
ghost use Rattle.obj2d.specs.Attributes.{is_off, object_at};
ghost use Rattle.obj2d.specs.Places.{is_drawn};
ghost use Rattle.obj2d.specs.rows.Strips.{AreNotDrawn};

use crate::attributes::object_at;
use crate::places::is_drawn;

/// Whether the object of a number is drawn on a line. Most objects of a game are off, which one byte tells, or far away, since no box has more than
/// 128 lines.
#[inline(always)]
pub fn is_drawn_at(oam: &[u8], control: u32, line: u8, number: usize) -> bool
    requires long { length oam.now ≡ 1024 }
    requires known { number < 128 }
    ensures { result ≡ is_drawn control (object_at oam.now number) line }
{
    if oam[8 * number + 1] % 4 == 2 || line.wrapping_sub(oam[8 * number]) >= 128 {
        return false;
    }
    is_drawn(control, &object_at(oam, number), line)
}

/// Whether the object of a number is off, which one byte tells.
#[inline(always)]
fn is_off_at(oam: &[u8], number: usize) -> bool
    requires long { length oam.now ≡ 1024 }
    requires known { number < 128 }
    ensures { result ≡ is_off (object_at oam.now number) }
{
    oam[8 * number + 1] % 4 == 2
}

/// Whether four objects from a number on are off, so that none of them is drawn on any line.
#[inline(always)]
#[tactic(auto, using(crate::proofs::OffLemmas::four_off))]
fn are_four_off(oam: &[u8], control: u32, line: u8, number: usize) -> bool
    requires long { length oam.now ≡ 1024 }
    requires known { number + 3 < 128 }
    ensures { IsTrue result → (m : ℕ) → number ≤ m → m < number + 4 → is_drawn control (object_at oam.now m) line ≡ false }
{
    is_off_at(oam, number)
        && is_off_at(oam, number + 1)
        && is_off_at(oam, number + 2)
        && is_off_at(oam, number + 3)
}

/// The number of the first object that is drawn on a line, 128 where none is.
pub fn first_drawn(oam: &[u8], control: u32, line: u8) -> usize
    requires { length oam.now ≡ 1024 }
    ensures before { AreNotDrawn oam.now control line result }
    ensures here { result < 128 → is_drawn control (object_at oam.now result) line ≡ true }
    ensures small { result ≤ 128 }
{
    if (control >> 12) % 2 == 0 {
        return 128;
    }
    let mut number = 0;
    'numbers: while number < 128 {
        if number < 125 && are_four_off(oam, control, line, number) {
            number += 4;
        } else if is_drawn_at(oam, control, line, number) {
            return number;
        } else {
            number += 1;
        }
    }
    128
}
