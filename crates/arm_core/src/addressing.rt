//! The addresses of transfers.

ghost use Rattle.std.specs.Prelude.{◌≡◌, ◌<◌};
ghost use Rattle.arm_words.specs.Fields.{HasOffset, HasShortOffset};
ghost use Rattle.arm_core.specs.Addressing.{addressed, addressed_literal, moved_base, offset_value, short_offset_value, with_base};

use crate::addresses::Addressed;
use crate::registers::Registers;
use crate::shifter::shift_by_number;
use arm_words::{Offset, ShortOffset};

/// The offset of mode 2: a number, or a register that an amount shifts (ARM manual, A5.2).
#[inline(always)]
pub fn offset_value(s: &Registers, offset: Offset) -> u32
    requires { HasOffset offset }
    ensures { result ≡ offset_value s.now offset }
{
    match offset {
        Offset::Number { offset } => offset as u32,
        Offset::Register { rm, shift, amount } => {
            let c = (s.cpsr() >> 29) & 1 == 1;
            shift_by_number(shift, s.get(rm), amount as u32, c).value
        }
    }
}

/// The offset of mode 3: a number or a register (ARM manual, A5.3).
#[inline(always)]
pub fn short_offset_value(s: &Registers, offset: ShortOffset) -> u32
    requires { HasShortOffset offset }
    ensures { result ≡ short_offset_value s.now offset }
{
    match offset {
        ShortOffset::ShortNumber { offset } => offset as u32,
        ShortOffset::ShortRegister { rm } => s.get(rm),
    }
}

/// A base with an offset added (`up`) or taken away, modulo 2^32.
#[inline(always)]
pub fn moved_base(up: bool, base: u32, offset: u32) -> u32
    ensures { result ≡ moved_base up base offset }
{
    if up {
        base.wrapping_add(offset)
    } else {
        base.wrapping_sub(offset)
    }
}

/// Where a transfer with base `rn` goes, in modes 2 and 3. With `pre` the offset is added before the access, and the base is written back
/// with `write_back`; otherwise it is added after the access, and the base is written back. r15 isn't written back.
#[inline(always)]
pub fn addressed(
    s: &Registers,
    pre: bool,
    up: bool,
    write_back: bool,
    rn: u8,
    offset: u32,
) -> Addressed
    requires { rn < 16 }
    ensures { result ≡ addressed s.now pre up write_back rn offset }
{
    let old = s.get(rn);
    let base = moved_base(up, old, offset);
    Addressed {
        address: if pre { base } else { old },
        base,
        written: (write_back || !pre) && rn != 15,
    }
}

/// Where Thumb's load of a literal goes: `immed` words behind r15, whose bits 1 and 0 are cleared; nothing is written back (ARM manual, A7.1 "LDR
/// (3)").
#[inline(always)]
pub fn addressed_literal(s: &Registers, immed: u8) -> Addressed
    ensures { result ≡ addressed_literal s.now immed }
{
    let base = s.r15();
    Addressed {
        address: (base - base % 4).wrapping_add(4 * immed as u32),
        base,
        written: false,
    }
}

/// Writes the base back to `rn`, if it is `written` back.
#[inline(always)]
pub fn write_back(s: &mut Registers, written: bool, rn: u8, base: u32)
    requires { rn < 16 }
    ensures { s.new ≡ with_base written rn base s.old }
{
    if written {
        s.set(rn, base);
    }
}
