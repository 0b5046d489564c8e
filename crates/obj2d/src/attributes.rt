//! The fields of objects' attributes.

ghost use Rattle.std.specs.Prelude.{◌≡◌, ◌<◌, ◌≤◌, ◌+◌, ◌*◌, ◌%◌, length};
ghost use Rattle.std.specs.Int.{cast_signed, w16};
ghost use Rattle.ds_base.specs.Bits.{bit};
ghost use Rattle.ds_base.specs.Numbers.{number_at};
ghost use Rattle.ds_base.specs.declared.memories.Width.TheVariants.{Half};
ghost use Rattle.obj2d.specs.Attributes.{object_at, turn_at, group, group_number, is_affine, is_double, is_off, object_has_mosaic, object_has_256, mode, shape, object_size, priority, flips_across, flips_down, width, height, box_width, box_height};

use crate::objects::{Object, Turn};

/// A half of OAM.
#[inline(always)]
fn half_at(oam: &[u8], at: usize) -> u16
    requires { at + 1 < length oam.now }
    ensures { result ≡ number_at Half oam.now at }
{
    u16::from_le_bytes([oam[at], oam[at + 1]])
}

/// The attributes of the object of a number.
pub fn object_at(oam: &[u8], number: usize) -> Object
    requires long { length oam.now ≡ 1024 }
    requires known { number < 128 }
    ensures { result ≡ object_at oam.now number }
{
    Object {
        attribute0: half_at(oam, 8 * number),
        attribute1: half_at(oam, 8 * number + 2),
        attribute2: half_at(oam, 8 * number + 4),
    }
}

/// The number of an affine object's group.
fn group(object: &Object) -> usize
    ensures value { result ≡ group object.now }
    ensures small { result < 32 }
{
    ((object.attribute1 >> 9) % 32) as usize
}

/// A signed half of OAM.
fn signed_at(oam: &[u8], at: usize) -> i16
    requires { at + 1 < length oam.now }
    ensures { result ≡ cast_signed w16 (number_at Half oam.now at) }
{
    half_at(oam, at).cast_signed()
}

/// Number k of a group: 0 is PA, 1 PB, 2 PC, 3 PD.
fn group_number(oam: &[u8], which: usize, k: usize) -> i16
    requires long { length oam.now ≡ 1024 }
    requires known { which < 32 }
    requires small { k < 4 }
    ensures { result ≡ group_number oam.now which k }
{
    signed_at(oam, 32 * which + 8 * k + 6)
}

/// The affine numbers of an object's group.
pub fn turn_of(oam: &[u8], object: &Object) -> Turn
    requires { length oam.now ≡ 1024 }
    ensures { result ≡ turn_at oam.now (group object.now) }
{
    let which = group(object);
    Turn {
        pa: group_number(oam, which, 0),
        pb: group_number(oam, which, 1),
        pc: group_number(oam, which, 2),
        pd: group_number(oam, which, 3),
    }
}

#[inline(always)]
pub fn is_affine(object: &Object) -> bool
    ensures { result ≡ is_affine object.now }
{
    (object.attribute0 >> 8) % 2 == 1
}

#[inline(always)]
fn bit_9(object: &Object) -> bool
    ensures { result ≡ bit 9 object.now.attribute0 }
{
    (object.attribute0 >> 9) % 2 == 1
}

#[inline(always)]
pub fn is_double(object: &Object) -> bool
    ensures { result ≡ is_double object.now }
{
    is_affine(object) && bit_9(object)
}

pub fn is_off(object: &Object) -> bool
    ensures { result ≡ is_off object.now }
{
    !is_affine(object) && bit_9(object)
}

pub fn mode(object: &Object) -> u8
    ensures { result ≡ mode object.now }
{
    ((object.attribute0 >> 10) % 4) as u8
}

pub fn object_has_mosaic(object: &Object) -> bool
    ensures { result ≡ object_has_mosaic object.now }
{
    (object.attribute0 >> 12) % 2 == 1
}

pub fn object_has_256(object: &Object) -> bool
    ensures { result ≡ object_has_256 object.now }
{
    (object.attribute0 >> 13) % 2 == 1
}

pub fn flips_across(object: &Object) -> bool
    ensures { result ≡ flips_across object.now }
{
    (object.attribute1 >> 12) % 2 == 1
}

pub fn flips_down(object: &Object) -> bool
    ensures { result ≡ flips_down object.now }
{
    (object.attribute1 >> 13) % 2 == 1
}

pub fn priority(object: &Object) -> u8
    ensures value { result ≡ priority object.now }
    ensures small { result < 4 }
{
    ((object.attribute2 >> 10) % 4) as u8
}

/// Widths in pixels, four sizes for each shape.
const WIDTHS: [usize; 16] = [8, 16, 32, 64, 16, 32, 32, 64, 8, 8, 16, 32, 8, 8, 8, 8];

/// Heights in pixels, likewise.
const HEIGHTS: [usize; 16] = [8, 16, 32, 64, 8, 8, 16, 32, 16, 32, 32, 64, 8, 8, 8, 8];

/// Which of the sixteen shapes and sizes the object has.
#[inline(always)]
fn form(object: &Object) -> usize
    ensures value { result ≡ 4 * shape object.now + object_size object.now }
    ensures small { result < 16 }
{
    4 * (object.attribute0 >> 14) as usize + (object.attribute1 >> 14) as usize
}

/// The object's width in pixels.
#[inline(always)]
pub fn width(object: &Object) -> usize
    ensures value { result ≡ width object.now }
    ensures some { 8 ≤ result }
    ensures small { result ≤ 64 }
    ensures whole { result % 8 ≡ 0 }
{
    WIDTHS[form(object)]
}

/// The object's height in pixels.
#[inline(always)]
pub fn height(object: &Object) -> usize
    ensures value { result ≡ height object.now }
    ensures some { 8 ≤ result }
    ensures small { result ≤ 64 }
{
    HEIGHTS[form(object)]
}

/// The width of the object's box in pixels.
#[inline(always)]
pub fn box_width(object: &Object) -> usize
    ensures value { result ≡ box_width object.now }
    ensures small { result ≤ 128 }
{
    if is_double(object) {
        2 * width(object)
    } else {
        width(object)
    }
}

/// The height of the object's box in pixels.
#[inline(always)]
pub fn box_height(object: &Object) -> usize
    ensures value { result ≡ box_height object.now }
    ensures small { result ≤ 128 }
{
    if is_double(object) {
        2 * height(object)
    } else {
        height(object)
    }
}
