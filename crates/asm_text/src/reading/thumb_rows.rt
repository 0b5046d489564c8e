//! The Thumb instruction of a statement's operands, by the row that its name stands for. Where several rows have one name, the
//! operands tell them apart. Nothing is refused: numbers are cut to their fields, and what is read is listed again and compared.

ghost use Rattle.std.specs.Prelude.{◌≡◌, ◌<◌, ◌≤◌, ◌^◌};
ghost use Rattle.arm_words.specs.Fields.{HasFields, HasThumbOperand};
ghost use Rattle.asm_text.specs.Reader.ThumbRows.{add_sub_row, branch_by, byte_offset, data_row, half_offset, halves_to, high_row, immediate_row, multiple_row, number_offset, push_pop_row, shift_named, small_at, thumb_row, transfer_row, sum_with_number, sum_with_register, word_offset};

use crate::reading::parts::{
    byte, hex_at, marked_at, one_at, past, register_at, registers_at, two_at,
};
use arm_words::{
    Condition, HighOp, Instr, Shift, ThumbDataOp, ThumbImmediateOp, ThumbOperand, ThumbTransferOp,
};

#[tactic(auto, unfolding(crate::specs::Reader::ThumbRows::small_at))]
fn small_at(text: &[u8]) -> ThumbOperand
    ensures value { result ≡ small_at text.now }
    ensures fields { HasThumbOperand result }
{
    if byte(text, 0) == b'#' {
        return ThumbOperand::Small {
            immed: (marked_at(text).0 % 8) as u8,
        };
    }
    ThumbOperand::LowRegister {
        rm: one_at(text) % 8,
    }
}

/// `add` and `sub` of a register and a number: r13 is the stack's.
fn sum_with_number(subtract: bool, rd: u8, n: u32) -> Instr
    ensures value { result ≡ sum_with_number subtract rd n }
    ensures fields { HasFields result }
{
    if rd == 13 {
        return Instr::ThumbAdjustStack {
            subtract,
            immed: (n / 4 % 128) as u8,
        };
    }
    Instr::ThumbImmediate {
        op: if subtract {
            ThumbImmediateOp::Sub
        } else {
            ThumbImmediateOp::Add
        },
        rd: rd % 8,
        immed: (n % 256) as u8,
    }
}

/// `add` and `sub` of two registers: r13 and r15 are bases of addresses.
fn sum_with_register(subtract: bool, rd: u8, rn: u8, third: &[u8]) -> Instr
    ensures value { result ≡ sum_with_register subtract rd rn third.now }
    ensures fields { HasFields result }
{
    if rn >= 8 {
        return Instr::ThumbAddress {
            stack: rn == 13,
            rd: rd % 8,
            immed: (marked_at(third).0 / 4 % 256) as u8,
        };
    }
    Instr::ThumbAddSub {
        subtract,
        operand: small_at(third),
        rn,
        rd: rd % 8,
    }
}

#[tactic(auto, unfolding(crate::specs::Reader::ThumbRows::add_sub_row))]
fn add_sub_row(subtract: bool, text: &[u8]) -> Instr
    ensures value { result ≡ add_sub_row subtract text.now }
    ensures fields { HasFields result }
{
    let (rd, rest) = register_at(text);
    let second = past(rest, 2);
    if byte(second, 0) == b'#' {
        return sum_with_number(subtract, rd, marked_at(second).0);
    }
    let (rn, rest) = register_at(second);
    sum_with_register(subtract, rd, rn, past(rest, 2))
}

#[tactic(auto, unfolding(crate::specs::Reader::ThumbRows::immediate_row))]
fn immediate_row(op: ThumbImmediateOp, text: &[u8]) -> Instr
    ensures value { result ≡ immediate_row op text.now }
    ensures fields { HasFields result }
{
    let (rd, rest) = register_at(text);
    Instr::ThumbImmediate {
        op,
        rd: rd % 8,
        immed: (marked_at(past(rest, 2)).0 % 256) as u8,
    }
}

/// The shift of that name.
fn shift_named(op: ThumbDataOp) -> Shift
    ensures { result ≡ shift_named op }
{
    match op {
        ThumbDataOp::Lsl => Shift::Lsl,
        ThumbDataOp::Lsr => Shift::Lsr,
        ThumbDataOp::Asr => Shift::Asr,
        _ => Shift::Ror,
    }
}

/// Two registers, and for a shift a third operand; with a number in place of the second register it is `cmp`.
#[tactic(auto, unfolding(crate::specs::Reader::ThumbRows::data_row))]
fn data_row(op: ThumbDataOp, text: &[u8]) -> Instr
    ensures value { result ≡ data_row op text.now }
    ensures fields { HasFields result }
{
    let (rd, rest) = register_at(text);
    let second = past(rest, 2);
    if byte(second, 0) == b'#' {
        return Instr::ThumbImmediate {
            op: ThumbImmediateOp::Cmp,
            rd: rd % 8,
            immed: (marked_at(second).0 % 256) as u8,
        };
    }
    let (rm, rest) = register_at(second);
    if byte(rest, 0) == b',' {
        return Instr::ThumbShift {
            shift: shift_named(op),
            amount: (marked_at(past(rest, 2)).0 % 32) as u8,
            rm: rm % 8,
            rd: rd % 8,
        };
    }
    Instr::ThumbData {
        op,
        rm: rm % 8,
        rd: rd % 8,
    }
}

/// A word at a base and a number: r13 and r15 have rows of their own.
fn word_offset(load: bool, rn: u8, rd: u8, n: u32) -> Instr
    requires { rd < 8 }
    ensures value { result ≡ word_offset load rn rd n }
    ensures fields { HasFields result }
{
    if rn == 13 {
        return Instr::ThumbStackOffset {
            load,
            rd,
            immed: (n / 4 % 256) as u8,
        };
    }
    if rn == 15 {
        return Instr::ThumbLoadLiteral {
            rd,
            immed: (n / 4 % 256) as u8,
        };
    }
    Instr::ThumbImmediateOffset {
        byte: false,
        load,
        immed: (n / 4 % 32) as u8,
        rn: rn % 8,
        rd,
    }
}

fn byte_offset(load: bool, rn: u8, rd: u8, n: u32) -> Instr
    requires { rd < 8 }
    ensures value { result ≡ byte_offset load rn rd n }
    ensures fields { HasFields result }
{
    Instr::ThumbImmediateOffset {
        byte: true,
        load,
        immed: (n % 32) as u8,
        rn: rn % 8,
        rd,
    }
}

fn half_offset(load: bool, rn: u8, rd: u8, n: u32) -> Instr
    requires { rd < 8 }
    ensures value { result ≡ half_offset load rn rd n }
    ensures fields { HasFields result }
{
    Instr::ThumbHalfOffset {
        load,
        immed: (n / 2 % 32) as u8,
        rn: rn % 8,
        rd,
    }
}

/// A transfer at a base and a number, by its width.
#[tactic(auto, unfolding(crate::specs::Reader::ThumbRows::number_offset))]
fn number_offset(op: ThumbTransferOp, rn: u8, rd: u8, n: u32) -> Instr
    requires { rd < 8 }
    ensures value { result ≡ number_offset op rn rd n }
    ensures fields { HasFields result }
{
    match op {
        ThumbTransferOp::Str => word_offset(false, rn, rd, n),
        ThumbTransferOp::Ldr => word_offset(true, rn, rd, n),
        ThumbTransferOp::Strb => byte_offset(false, rn, rd, n),
        ThumbTransferOp::Ldrb => byte_offset(true, rn, rd, n),
        ThumbTransferOp::Strh => half_offset(false, rn, rd, n),
        _ => half_offset(true, rn, rd, n),
    }
}

#[tactic(auto, unfolding(crate::specs::Reader::ThumbRows::transfer_row))]
fn transfer_row(op: ThumbTransferOp, text: &[u8]) -> Instr
    ensures value { result ≡ transfer_row op text.now }
    ensures fields { HasFields result }
{
    let (rd, rest) = register_at(text);
    let (rn, rest) = register_at(past(rest, 3));
    let by = past(rest, 2);
    if byte(by, 0) == b'#' {
        return number_offset(op, rn, rd % 8, marked_at(by).0);
    }
    Instr::ThumbRegisterOffset {
        op,
        rm: one_at(by) % 8,
        rn: rn % 8,
        rd: rd % 8,
    }
}

/// A list with r14 or r15, which stand above the low registers.
#[tactic(auto, unfolding(crate::specs::Reader::ThumbRows::push_pop_row))]
fn push_pop_row(load: bool, text: &[u8]) -> Instr
    ensures value { result ≡ push_pop_row load text.now }
    ensures fields { HasFields result }
{
    let list = registers_at(past(text, 1)).0;
    Instr::ThumbPushPop {
        load,
        extra: list >= 256,
        list: (list % 256) as u8,
    }
}

#[tactic(auto, unfolding(crate::specs::Reader::ThumbRows::multiple_row))]
fn multiple_row(load: bool, text: &[u8]) -> Instr
    ensures value { result ≡ multiple_row load text.now }
    ensures fields { HasFields result }
{
    let (rn, rest) = register_at(text);
    Instr::ThumbMultiple {
        load,
        rn: rn % 8,
        list: (registers_at(past(rest, 4)).0 % 256) as u8,
    }
}

/// Halves from what r15 reads as to a target.
fn halves_to(at: u32, target: u32) -> u32
    ensures { result ≡ halves_to at target }
{
    target.wrapping_sub(at).wrapping_sub(4) / 2
}

/// `b` without a condition has a row of its own.
fn branch_by(cond: Condition, by: u32) -> Instr
    ensures value { result ≡ branch_by cond by }
    ensures fields { HasFields result }
{
    match cond {
        Condition::Al => Instr::ThumbBranch {
            offset: (by % 0x800) as u16,
        },
        _ => Instr::ThumbBranchIf {
            cond,
            offset: (by % 0x100) as u8,
        },
    }
}

/// Two registers of sixteen.
fn high_row(op: HighOp, text: &[u8]) -> Instr
    ensures value { result ≡ high_row op text.now }
    ensures fields { HasFields result }
{
    let (rd, rm) = two_at(text);
    Instr::ThumbHigh { op, rm, rd }
}

/// The instruction of a Thumb statement at address `at`: `template` is the row that its name stands for (`swi` where it is none of
/// Thumb's), and `text` are its operands. Its fields are in their ranges, whatever the text.
#[tactic(auto, unfolding(crate::specs::Reader::ThumbRows::thumb_row))]
pub(crate) fn thumb_row(at: u32, template: Instr, cond: Condition, text: &[u8]) -> Instr
    ensures value { result ≡ thumb_row at template cond text.now }
    ensures fields { HasFields result }
{
    match template {
        Instr::ThumbAddSub { subtract, .. } => add_sub_row(subtract, text),
        Instr::ThumbImmediate { op, .. } => immediate_row(op, text),
        Instr::ThumbData { op, .. } => data_row(op, text),
        Instr::ThumbBx { .. } => Instr::ThumbBx { rm: one_at(text) },
        Instr::ThumbBlxRegister { .. } => Instr::ThumbBlxRegister { rm: one_at(text) },
        Instr::ThumbHigh { op, .. } => high_row(op, text),
        Instr::ThumbRegisterOffset { op, .. } => transfer_row(op, text),
        Instr::ThumbPushPop { load, .. } => push_pop_row(load, text),
        Instr::ThumbBkpt { .. } => Instr::ThumbBkpt {
            immed: (hex_at(text).0 % 256) as u8,
        },
        Instr::ThumbMultiple { load, .. } => multiple_row(load, text),
        Instr::ThumbBranch { .. } => branch_by(cond, halves_to(at, hex_at(text).0)),
        Instr::ThumbBlxSuffix { .. } => Instr::ThumbBlxSuffix {
            offset: (marked_at(text).0 / 2 % 0x400 * 2) as u16,
        },
        Instr::ThumbBlPrefix { .. } => Instr::ThumbBlPrefix {
            offset: (marked_at(text).0 % 0x800) as u16,
        },
        Instr::ThumbBlSuffix { .. } => Instr::ThumbBlSuffix {
            offset: (marked_at(text).0 % 0x800) as u16,
        },
        _ => Instr::ThumbSwi {
            immed: (hex_at(text).0 % 256) as u8,
        },
    }
}
