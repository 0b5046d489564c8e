//! The rows of Thumb's table whose operands aren't registers alone. They have no condition, which is written as Al is.

ghost use Rattle.std.specs.Prelude.{◌≡◌, ◌+◌, ◌<◌, ◌≤◌, ◌^◌, ◌*◌, length, ◌++◌, ◌∷◌, [], if◌then◌else◌};
ghost use Rattle.arm_words.specs.Fields.{HasThumbOperand};
ghost use Rattle.arm_words.specs.declared.instructions.Instr.TheVariants.{ThumbAddSub, ThumbAddress, ThumbAdjustStack, ThumbBranch, ThumbBranchIf, ThumbHalfOffset, ThumbImmediate, ThumbImmediateOffset, ThumbLoadLiteral, ThumbMultiple, ThumbPushPop, ThumbRegisterOffset, ThumbShift, ThumbStackOffset};
ghost use Rattle.arm_words.specs.declared.parts.Condition.TheVariants.{Al};
ghost use Rattle.asm_text.specs.Statements.{statement, thumb_amount, with_operands};
ghost use Rattle.asm_text.specs.Text.{number};

use crate::addresses::thumb_target;
use crate::arm::plain;
use crate::lines::Line;
use crate::names::{immediate_name, load_name, shift_name, transfer_name};
use crate::operands::{amount_shown, at_number, open, small_operand};
use crate::parts::{first, number, register, register_list, where_set};
use arm_words::{Condition, Shift, ThumbImmediateOp, ThumbOperand, ThumbTransferOp};

pub fn add_sub(at: u32, subtract: bool, second: ThumbOperand, rn: u8, rd: u8, into: &mut Line)
    requires room { length into.old + 80 ≤ 96 }
    requires second { HasThumbOperand second }
    requires rn { rn < 8 }
    requires rd { rd < 8 }
    ensures { into.new ≡ into.old ++ statement at (ThumbAddSub subtract second rn rd) }
{
    into.put_text(if subtract { "sub" } else { "add" });
    first(Condition::Al, rd, into);
    register(rn, into);
    into.put_text(", ");
    small_operand(second, into);
}

fn thumb_amount(shift: Shift, amount: u8) -> u32
    requires { amount < 32 }
    ensures { result ≡ thumb_amount shift amount }
{
    match shift {
        Shift::Lsl => amount as u32,
        Shift::Lsr | Shift::Asr | Shift::Ror => amount_shown(amount),
    }
}

pub fn shift_by(at: u32, shift: Shift, amount: u8, rm: u8, rd: u8, into: &mut Line)
    requires room { length into.old + 80 ≤ 96 }
    requires amount { amount < 32 }
    requires rm { rm < 8 }
    requires rd { rd < 8 }
    ensures { into.new ≡ into.old ++ statement at (ThumbShift shift amount rm rd) }
{
    into.put_text(shift_name(shift));
    first(Condition::Al, rd, into);
    register(rm, into);
    into.put_text(", ");
    number(thumb_amount(shift, amount), into);
}

pub fn immediate(at: u32, op: ThumbImmediateOp, rd: u8, immed: u8, into: &mut Line)
    requires room { length into.old + 80 ≤ 96 }
    requires rd { rd < 8 }
    ensures { into.new ≡ into.old ++ statement at (ThumbImmediate op rd immed) }
{
    into.put_text(immediate_name(op));
    first(Condition::Al, rd, into);
    number(immed as u32, into);
}

pub fn load_literal(at: u32, rd: u8, immed: u8, into: &mut Line)
    requires room { length into.old + 80 ≤ 96 }
    requires rd { rd < 8 }
    ensures { into.new ≡ into.old ++ statement at (ThumbLoadLiteral rd immed) }
{
    into.put_text("ldr");
    first(Condition::Al, rd, into);
    at_number(15, 4 * immed as u32, into);
}

pub fn register_offset(at: u32, op: ThumbTransferOp, rm: u8, rn: u8, rd: u8, into: &mut Line)
    requires room { length into.old + 80 ≤ 96 }
    requires rm { rm < 8 }
    requires rn { rn < 8 }
    requires rd { rd < 8 }
    ensures { into.new ≡ into.old ++ statement at (ThumbRegisterOffset op rm rn rd) }
{
    into.put_text(transfer_name(op));
    first(Condition::Al, rd, into);
    open(true, rn, into);
    register(rm, into);
    into.put_text("]");
}

pub fn immediate_offset(at: u32, byte: bool, load: bool, immed: u8, rn: u8, rd: u8, into: &mut Line)
    requires room { length into.old + 80 ≤ 96 }
    requires immed { immed < 32 }
    requires rn { rn < 8 }
    requires rd { rd < 8 }
    ensures { into.new ≡ into.old ++ statement at (ThumbImmediateOffset byte load immed rn rd) }
{
    into.put_text(load_name(load));
    where_set(byte, "b", into);
    first(Condition::Al, rd, into);
    at_number(rn, if byte { immed as u32 } else { 4 * immed as u32 }, into);
}

pub fn half_offset(at: u32, load: bool, immed: u8, rn: u8, rd: u8, into: &mut Line)
    requires room { length into.old + 80 ≤ 96 }
    requires rn { rn < 8 }
    requires rd { rd < 8 }
    ensures { into.new ≡ into.old ++ statement at (ThumbHalfOffset load immed rn rd) }
{
    into.put_text(load_name(load));
    into.put_text("h");
    first(Condition::Al, rd, into);
    at_number(rn, 2 * immed as u32, into);
}

pub fn stack_offset(at: u32, load: bool, rd: u8, immed: u8, into: &mut Line)
    requires room { length into.old + 80 ≤ 96 }
    requires rd { rd < 8 }
    ensures { into.new ≡ into.old ++ statement at (ThumbStackOffset load rd immed) }
{
    into.put_text(load_name(load));
    first(Condition::Al, rd, into);
    at_number(13, 4 * immed as u32, into);
}

pub fn address_of(at: u32, stack: bool, rd: u8, immed: u8, into: &mut Line)
    requires room { length into.old + 80 ≤ 96 }
    requires rd { rd < 8 }
    ensures { into.new ≡ into.old ++ statement at (ThumbAddress stack rd immed) }
{
    into.put_text("add");
    first(Condition::Al, rd, into);
    register(if stack { 13 } else { 15 }, into);
    into.put_text(", ");
    number(4 * immed as u32, into);
}

pub fn adjust_stack(at: u32, subtract: bool, immed: u8, into: &mut Line)
    requires room { length into.old + 80 ≤ 96 }
    ensures { into.new ≡ into.old ++ statement at (ThumbAdjustStack subtract immed) }
{
    into.put_text(if subtract { "sub" } else { "add" });
    first(Condition::Al, 13, into);
    number(4 * immed as u32, into);
}

pub fn push_pop(at: u32, load: bool, extra: bool, list: u8, into: &mut Line)
    requires room { length into.old + 80 ≤ 96 }
    ensures { into.new ≡ into.old ++ statement at (ThumbPushPop load extra list) }
{
    into.put_text(if load { "pop " } else { "push " });
    register_list(list as u16 + with(load, extra), into);
}

/// The register that PUSH and POP have beside the low ones, as a bit.
fn with(load: bool, extra: bool) -> u16
    ensures value { result ≡ (if extra then (if load then 2 ^ 15 else 2 ^ 14) else 0) }
    ensures bound { result ≤ 2 ^ 15 }
{
    match (extra, load) {
        (false, _) => 0,
        (true, false) => 0x4000,
        (true, true) => 0x8000,
    }
}

pub fn multiple(at: u32, load: bool, rn: u8, list: u8, into: &mut Line)
    requires room { length into.old + 80 ≤ 96 }
    requires rn { rn < 8 }
    ensures { into.new ≡ into.old ++ statement at (ThumbMultiple load rn list) }
{
    into.put_text(if load { "ldmia " } else { "stmia " });
    register(rn, into);
    into.put_text("!, ");
    register_list(list as u16, into);
}

pub fn branch_if(at: u32, cond: Condition, by: u8, into: &mut Line)
    requires room { length into.old + 80 ≤ 96 }
    ensures { into.new ≡ into.old ++ statement at (ThumbBranchIf cond by) }
{
    plain("b", cond, thumb_target(at, 0x80, by as u32), into);
}

pub fn branch(at: u32, by: u16, into: &mut Line)
    requires room { length into.old + 80 ≤ 96 }
    requires by { by < 2 ^ 11 }
    ensures { into.new ≡ into.old ++ statement at (ThumbBranch by) }
{
    plain("b", Condition::Al, thumb_target(at, 0x400, by as u32), into);
}

/// A name and a number as operand.
pub fn marked(name: &str, n: u32, into: &mut Line)
    requires room { length into.old + 80 ≤ 96 }
    requires name { length name.now ≤ 8 }
    ensures { into.new ≡ into.old ++ with_operands name.now (number n ∷ []) }
{
    into.put_text(name);
    into.put_text(" ");
    number(n, into);
}
