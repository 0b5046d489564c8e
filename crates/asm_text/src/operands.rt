//! Operands of data processing and addresses of transfers.

ghost use Rattle.std.specs.Prelude.{◌≡◌, ◌+◌, ◌<◌, ◌≤◌, length, ◌++◌, [], codes, if◌then◌else◌, not};
ghost use Rattle.arm_words.specs.Canonical.{immediate};
ghost use Rattle.arm_words.specs.Fields.{HasOffset, HasOperand, HasShortOffset, HasThumbOperand};
ghost use Rattle.asm_text.specs.Names.{field_letters, status_name};
ghost use Rattle.asm_text.specs.Operands.{address, amount_shown, at_offset, offset, operand, shift_shown, shifted, short_offset, small_operand};
ghost use Rattle.asm_text.specs.Text.{hex, number, register_name, where_set};

use crate::lines::Line;
use crate::names::{shift_name, status_name};
use crate::parts::{hex, number, register, where_set};
use arm_words::{FieldMask, Offset, Operand, Shift, ShortOffset, ThumbOperand};

pub fn amount_shown(amount: u8) -> u32
    requires { amount < 32 }
    ensures value { result ≡ amount_shown amount }
    ensures bound { result ≤ 32 }
{
    if amount == 0 { 32 } else { amount as u32 }
}

fn shift_shown(shift: Shift, amount: u8, into: &mut Line)
    requires room { length into.old + 17 ≤ 96 }
    requires amount { amount < 32 }
    ensures text { into.new ≡ into.old ++ shift_shown shift amount }
    ensures room { length into.new ≤ length into.old + 17 }
{
    match shift {
        Shift::Lsl => {
            if amount != 0 {
                into.put_text(", lsl ");
                number(amount as u32, into);
            }
        }
        Shift::Lsr => {
            into.put_text(", lsr ");
            number(amount_shown(amount), into);
        }
        Shift::Asr => {
            into.put_text(", asr ");
            number(amount_shown(amount), into);
        }
        Shift::Ror => {
            if amount == 0 {
                into.put_text(", rrx");
            } else {
                into.put_text(", ror ");
                number(amount as u32, into);
            }
        }
    }
}

fn shifted(rm: u8, shift: Shift, amount: u8, into: &mut Line)
    requires room { length into.old + 20 ≤ 96 }
    requires rm { rm < 16 }
    requires amount { amount < 32 }
    ensures text { into.new ≡ into.old ++ shifted rm shift amount }
    ensures room { length into.new ≤ length into.old + 20 }
{
    register(rm, into);
    shift_shown(shift, amount, into);
}

/// The number that a byte and a rotation give.
fn immediate(rotate: u8, immed: u8) -> u32
    requires { rotate < 16 }
    ensures { result ≡ immediate rotate immed }
{
    (immed as u32).rotate_right(2 * rotate as u32)
}

pub fn rotated(rotate: u8, immed: u8, into: &mut Line)
    requires room { length into.old + 11 ≤ 96 }
    requires rotate { rotate < 16 }
    ensures text { into.new ≡ into.old ++ number (immediate rotate immed) }
    ensures room { length into.new ≤ length into.old + 11 }
{
    number(immediate(rotate, immed), into);
}

pub fn operand(second: Operand, into: &mut Line)
    requires room { length into.old + 20 ≤ 96 }
    requires fields { HasOperand second }
    ensures text { into.new ≡ into.old ++ operand second }
    ensures room { length into.new ≤ length into.old + 20 }
{
    match second {
        Operand::Immediate { rotate, immed } => rotated(rotate, immed, into),
        Operand::Shifted { rm, shift, amount } => shifted(rm, shift, amount, into),
        Operand::ShiftedByRegister { rm, shift, rs } => {
            register(rm, into);
            into.put_text(", ");
            into.put_text(shift_name(shift));
            into.put_text(" ");
            register(rs, into);
        }
    }
}

pub fn small_operand(second: ThumbOperand, into: &mut Line)
    requires room { length into.old + 11 ≤ 96 }
    requires fields { HasThumbOperand second }
    ensures text { into.new ≡ into.old ++ small_operand second }
    ensures room { length into.new ≤ length into.old + 11 }
{
    match second {
        ThumbOperand::LowRegister { rm } => register(rm, into),
        ThumbOperand::Small { immed } => number(immed as u32, into),
    }
}

pub fn offset(up: bool, by: Offset, into: &mut Line)
    requires room { length into.old + 21 ≤ 96 }
    requires fields { HasOffset by }
    ensures text { into.new ≡ into.old ++ offset up by }
    ensures room { length into.new ≤ length into.old + 21 }
{
    match by {
        Offset::Number { offset } => {
            into.put_text("#");
            where_set(!up, "-", into);
            hex(offset as u32, into);
        }
        Offset::Register { rm, shift, amount } => {
            where_set(!up, "-", into);
            shifted(rm, shift, amount, into);
        }
    }
}

fn short_offset(up: bool, by: ShortOffset, into: &mut Line)
    requires room { length into.old + 12 ≤ 96 }
    requires fields { HasShortOffset by }
    ensures text { into.new ≡ into.old ++ short_offset up by }
    ensures room { length into.new ≤ length into.old + 12 }
{
    match by {
        ShortOffset::ShortNumber { offset } => {
            into.put_text("#");
            where_set(!up, "-", into);
            hex(offset as u32, into);
        }
        ShortOffset::ShortRegister { rm } => {
            where_set(!up, "-", into);
            register(rm, into);
        }
    }
}

/// The start of an address, as far as its offset.
pub fn open(pre: bool, rn: u8, into: &mut Line)
    requires room { length into.old + 7 ≤ 96 }
    requires rn { rn < 16 }
    ensures text { into.new ≡ into.old ++ (codes "[" ++ (register_name rn ++ (if pre then codes ", " else codes "], "))) }
    ensures room { length into.new ≤ length into.old + 7 }
{
    into.put_text("[");
    register(rn, into);
    into.put_text(if pre { ", " } else { "], " });
}

fn close(pre: bool, write_back: bool, into: &mut Line)
    requires { length into.old + 2 ≤ 96 }
    ensures text { into.new ≡ into.old ++ (if pre then codes "]" ++ where_set write_back (codes "!") else []) }
    ensures room { length into.new ≤ length into.old + 2 }
{
    if pre {
        into.put_text("]");
        where_set(write_back, "!", into);
    }
}

pub fn address(pre: bool, up: bool, write_back: bool, rn: u8, by: Offset, into: &mut Line)
    requires room { length into.old + 30 ≤ 96 }
    requires rn { rn < 16 }
    requires fields { HasOffset by }
    ensures text { into.new ≡ into.old ++ address pre write_back rn (offset up by) }
    ensures room { length into.new ≤ length into.old + 30 }
{
    open(pre, rn, into);
    offset(up, by, into);
    close(pre, write_back, into);
}

pub fn short_address(
    pre: bool,
    up: bool,
    write_back: bool,
    rn: u8,
    by: ShortOffset,
    into: &mut Line,
)
    requires room { length into.old + 21 ≤ 96 }
    requires rn { rn < 16 }
    requires fields { HasShortOffset by }
    ensures text { into.new ≡ into.old ++ address pre write_back rn (short_offset up by) }
    ensures room { length into.new ≤ length into.old + 21 }
{
    open(pre, rn, into);
    short_offset(up, by, into);
    close(pre, write_back, into);
}

/// A base and a number in brackets.
pub fn at_number(rn: u8, n: u32, into: &mut Line)
    requires room { length into.old + 18 ≤ 96 }
    requires rn { rn < 16 }
    ensures text { into.new ≡ into.old ++ at_offset rn (number n) }
    ensures room { length into.new ≤ length into.old + 18 }
{
    open(true, rn, into);
    number(n, into);
    into.put_text("]");
}

fn field_letters(fields: FieldMask, into: &mut Line)
    requires { length into.old + 4 ≤ 96 }
    ensures text { into.new ≡ into.old ++ field_letters fields }
    ensures room { length into.new ≤ length into.old + 4 }
{
    where_set(fields.f, "f", into);
    where_set(fields.s, "s", into);
    where_set(fields.x, "x", into);
    where_set(fields.c, "c", into);
}

pub fn status_fields(spsr: bool, fields: FieldMask, into: &mut Line)
    requires { length into.old + 9 ≤ 96 }
    ensures text { into.new ≡ into.old ++ (status_name spsr ++ (codes "_" ++ field_letters fields)) }
    ensures room { length into.new ≤ length into.old + 9 }
{
    into.put_text(status_name(spsr));
    into.put_text("_");
    field_letters(fields, into);
}
