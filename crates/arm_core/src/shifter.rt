//! The shifter: the operand of data processing, and its carry.

ghost use Rattle.std.specs.Prelude.{◌≡◌, ◌<◌};
ghost use Rattle.arm_words.specs.Fields.{HasOperand};
ghost use Rattle.arm_core.specs.Shifter.{arithmetic_shift, first_operand, rotate, rotate_through, rotated_immediate, shift_by, shift_by_number, shift_left, shift_right, shift_right_signed, shifter_operand};

use crate::registers::Registers;
use arm_words::{Operand, Shift};

/// The operand of data processing, and the C that goes with it (ARM manual, A5.1 "Addressing Mode 1 - Data-processing operands").
#[derive(Clone, Copy, PartialEq, Eq)]
pub struct Shifted32 {
    /// The manual's shifter_operand.
    pub value: u32,
    /// The manual's shifter_carry_out.
    pub carry: bool,
}

/// Logical shift left below 32.
#[inline(always)]
fn left_below(rm: u32, amount: u32, c: bool) -> Shifted32
    requires { amount < 32 }
    ensures { result ≡ shift_left rm amount c }
{
    if amount == 0 {
        Shifted32 {
            value: rm,
            carry: c,
        }
    } else {
        Shifted32 {
            value: rm << amount,
            carry: (rm >> (32 - amount)) & 1 == 1,
        }
    }
}

/// Logical shift left (ARM manual, A5.1.6).
#[inline(always)]
fn shift_left(rm: u32, amount: u32, c: bool) -> Shifted32
    ensures { result ≡ shift_left rm amount c }
{
    if amount < 32 {
        left_below(rm, amount, c)
    } else if amount == 32 {
        Shifted32 {
            value: 0,
            carry: rm & 1 == 1,
        }
    } else {
        Shifted32 {
            value: 0,
            carry: false,
        }
    }
}

/// Logical shift right below 32.
#[inline(always)]
fn right_below(rm: u32, amount: u32, c: bool) -> Shifted32
    requires { amount < 32 }
    ensures { result ≡ shift_right rm amount c }
{
    if amount == 0 {
        Shifted32 {
            value: rm,
            carry: c,
        }
    } else {
        Shifted32 {
            value: rm >> amount,
            carry: (rm >> (amount - 1)) & 1 == 1,
        }
    }
}

/// Logical shift right (ARM manual, A5.1.8).
#[inline(always)]
fn shift_right(rm: u32, amount: u32, c: bool) -> Shifted32
    ensures { result ≡ shift_right rm amount c }
{
    if amount < 32 {
        right_below(rm, amount, c)
    } else if amount == 32 {
        Shifted32 {
            value: 0,
            carry: (rm >> 31) & 1 == 1,
        }
    } else {
        Shifted32 {
            value: 0,
            carry: false,
        }
    }
}

/// A word shifted right below 32, with its sign.
#[inline(always)]
fn arithmetic_shift(rm: u32, amount: u32) -> u32
    requires { amount < 32 }
    ensures { result ≡ arithmetic_shift rm amount }
{
    if (rm >> 31) & 1 == 1 {
        !(!rm >> amount)
    } else {
        rm >> amount
    }
}

/// Arithmetic shift right below 32.
#[inline(always)]
fn right_signed_below(rm: u32, amount: u32, c: bool) -> Shifted32
    requires { amount < 32 }
    ensures { result ≡ shift_right_signed rm amount c }
{
    if amount == 0 {
        Shifted32 {
            value: rm,
            carry: c,
        }
    } else {
        Shifted32 {
            value: arithmetic_shift(rm, amount),
            carry: (rm >> (amount - 1)) & 1 == 1,
        }
    }
}

/// Arithmetic shift right (ARM manual, A5.1.10).
#[inline(always)]
fn shift_right_signed(rm: u32, amount: u32, c: bool) -> Shifted32
    ensures { result ≡ shift_right_signed rm amount c }
{
    if amount < 32 {
        right_signed_below(rm, amount, c)
    } else if (rm >> 31) & 1 == 1 {
        Shifted32 {
            value: 0xFFFF_FFFF,
            carry: true,
        }
    } else {
        Shifted32 {
            value: 0,
            carry: false,
        }
    }
}

/// Rotate right (ARM manual, A5.1.12).
#[inline(always)]
fn rotate(rm: u32, amount: u32, c: bool) -> Shifted32
    ensures { result ≡ rotate rm amount c }
{
    if amount == 0 {
        Shifted32 {
            value: rm,
            carry: c,
        }
    } else if amount % 32 == 0 {
        Shifted32 {
            value: rm,
            carry: (rm >> 31) & 1 == 1,
        }
    } else {
        Shifted32 {
            value: rm.rotate_right(amount % 32),
            carry: (rm >> (amount % 32 - 1)) & 1 == 1,
        }
    }
}

/// A word shifted by a register's least byte (ARM manual, A5.1.6, A5.1.8, A5.1.10, A5.1.12), with the C before it.
#[inline(always)]
pub fn shift_by(shift: Shift, rm: u32, amount: u32, c: bool) -> Shifted32
    requires { amount < 256 }
    ensures { result ≡ shift_by shift rm amount c }
{
    match shift {
        Shift::Lsl => shift_left(rm, amount, c),
        Shift::Lsr => shift_right(rm, amount, c),
        Shift::Asr => shift_right_signed(rm, amount, c),
        Shift::Ror => rotate(rm, amount, c),
    }
}

/// Rotate right with extend (ARM manual, A5.1.13).
#[inline(always)]
fn rotate_through(rm: u32, c: bool) -> Shifted32
    ensures { result ≡ rotate_through rm c }
{
    Shifted32 {
        value: ((c as u32) << 31) + (rm >> 1),
        carry: rm & 1 == 1,
    }
}

/// A word shifted by an instruction's own amount, which is below 32: 0 stands for 32 at LSR and ASR, and for the rotation through C at
/// ROR (ARM manual, A5.1.5, A5.1.7, A5.1.9, A5.1.11, A5.1.13).
#[inline(always)]
pub fn shift_by_number(shift: Shift, rm: u32, amount: u32, c: bool) -> Shifted32
    requires { amount < 32 }
    ensures { result ≡ shift_by_number shift rm amount c }
{
    match shift {
        Shift::Lsl => left_below(rm, amount, c),
        Shift::Lsr if amount == 0 => shift_right(rm, 32, c),
        Shift::Lsr => right_below(rm, amount, c),
        Shift::Asr if amount == 0 => shift_right_signed(rm, 32, c),
        Shift::Asr => right_signed_below(rm, amount, c),
        Shift::Ror if amount == 0 => rotate_through(rm, c),
        Shift::Ror => rotate(rm, amount, c),
    }
}

/// A byte rotated right by twice a number below 16 (ARM manual, A5.1.3 "Immediate"), with the C before it.
#[inline(always)]
pub fn rotated_immediate(rotation: u8, immed: u8, c: bool) -> Shifted32
    requires { rotation < 16 }
    ensures { result ≡ rotated_immediate rotation immed c }
{
    let value = (immed as u32).rotate_right(2 * rotation as u32);
    if rotation == 0 {
        Shifted32 { value, carry: c }
    } else {
        Shifted32 {
            value,
            carry: (value >> 31) & 1 == 1,
        }
    }
}

/// The operand of data processing and its carry. Where a register shifts, r15 reads as the instruction's address + 12.
#[inline(always)]
pub fn shifter_operand(s: &Registers, operand: Operand) -> Shifted32
    requires { HasOperand operand }
    ensures { result ≡ shifter_operand s.now operand }
{
    let c = (s.cpsr() >> 29) & 1 == 1;
    match operand {
        Operand::Immediate { rotate, immed } => rotated_immediate(rotate, immed, c),
        Operand::Shifted { rm, shift, amount } => {
            shift_by_number(shift, s.get(rm), amount as u32, c)
        }
        Operand::ShiftedByRegister { rm, shift, rs } => {
            shift_by(shift, s.get_late(rm), s.get_late(rs) & 0xFF, c)
        }
    }
}

/// The first operand of data processing, a register.
#[inline(always)]
pub fn first_operand(s: &Registers, operand: Operand, rn: u8) -> u32
    requires { rn < 16 }
    ensures { result ≡ first_operand s.now operand rn }
{
    match operand {
        Operand::ShiftedByRegister { .. } => s.get_late(rn),
        _ => s.get(rn),
    }
}
