//! The statement of an instruction.

ghost use Rattle.std.specs.Prelude.{◌≡◌, ◌+◌, ◌≤◌, length, ◌++◌, true};
ghost use Rattle.arm_words.specs.Fields.{HasFields};
ghost use Rattle.arm_words.specs.Spellings.{spelled};
ghost use Rattle.asm_text.specs.Statements.{is_half_spelling, statement};

use crate::lines::Line;
use crate::names::{
    high_name, long_name, mla_name, mul_name, saturating_name, smla_name, smlal_name, smlaw_name,
    smul_name, smulw_name, thumb_data_name,
};
use crate::registers::{four, one, three, two};
use crate::{arm, thumb};
use arm_words::{Condition, Instr};

/// Adds the statement of an instruction at an address to an empty line.
pub fn statement(at: u32, instr: &Instr, into: &mut Line)
    requires room { length into.old ≡ 0 }
    requires fields { HasFields instr.now }
    ensures { into.new ≡ into.old ++ statement at instr.now }
{
    match *instr {
        Instr::Bx { cond, rm } => one("bx", cond, rm, into),
        Instr::BlxRegister { cond, rm } => one("blx", cond, rm, into),
        Instr::Bkpt { immed } => arm::plain("bkpt", Condition::Al, immed as u32, into),
        Instr::Clz { cond, rd, rm } => two("clz", cond, rd, rm, into),
        Instr::Saturating {
            cond,
            double,
            subtract,
            rd,
            rm,
            rn,
        } => three(saturating_name(double, subtract), cond, rd, rm, rn, into),
        Instr::Smla {
            cond,
            x,
            y,
            rd,
            rm,
            rs,
            rn,
        } => four(smla_name(x, y), cond, rd, rm, rs, rn, into),
        Instr::Smlaw {
            cond,
            y,
            rd,
            rm,
            rs,
            rn,
        } => four(smlaw_name(y), cond, rd, rm, rs, rn, into),
        Instr::Smulw {
            cond,
            y,
            rd,
            rm,
            rs,
        } => three(smulw_name(y), cond, rd, rm, rs, into),
        Instr::Smlal {
            cond,
            x,
            y,
            rd_lo,
            rd_hi,
            rm,
            rs,
        } => four(smlal_name(x, y), cond, rd_lo, rd_hi, rm, rs, into),
        Instr::Smul {
            cond,
            x,
            y,
            rd,
            rm,
            rs,
        } => three(smul_name(x, y), cond, rd, rm, rs, into),
        Instr::Mul {
            cond,
            set_flags,
            rd,
            rm,
            rs,
        } => three(mul_name(set_flags), cond, rd, rm, rs, into),
        Instr::Mla {
            cond,
            set_flags,
            rd,
            rm,
            rs,
            rn,
        } => four(mla_name(set_flags), cond, rd, rm, rs, rn, into),
        Instr::LongMultiply {
            cond,
            signed,
            accumulate,
            set_flags,
            rd_lo,
            rd_hi,
            rm,
            rs,
        } => four(
            long_name(signed, accumulate, set_flags),
            cond,
            rd_lo,
            rd_hi,
            rm,
            rs,
            into,
        ),
        Instr::Swap {
            cond,
            byte,
            rd,
            rm,
            rn,
        } => arm::swap(at, cond, byte, rd, rm, rn, into),
        Instr::HalfTransfer {
            cond,
            op,
            pre,
            up,
            write_back,
            rn,
            rd,
            offset,
        } => arm::half_transfer(at, cond, op, pre, up, write_back, rn, rd, offset, into),
        Instr::Mrs { cond, spsr, rd } => arm::mrs(at, cond, spsr, rd, into),
        Instr::Msr {
            cond,
            spsr,
            fields,
            rm,
        } => arm::msr(at, cond, spsr, fields, rm, into),
        Instr::MsrImmediate {
            cond,
            spsr,
            fields,
            rotate,
            immed,
        } => arm::msr_immediate(at, cond, spsr, fields, rotate, immed, into),
        Instr::Compare {
            cond,
            op,
            rn,
            operand,
        } => arm::compare(at, cond, op, rn, operand, into),
        Instr::Move {
            cond,
            op,
            set_flags,
            rd,
            operand,
        } => arm::move_operand(at, cond, op, set_flags, rd, operand, into),
        Instr::Data {
            cond,
            op,
            set_flags,
            rn,
            rd,
            operand,
        } => arm::data_processing(at, cond, op, set_flags, rn, rd, operand, into),
        Instr::DoubleTransfer {
            cond,
            store,
            pre,
            up,
            write_back,
            rn,
            rd,
            offset,
        } => arm::double_transfer(at, cond, store, pre, up, write_back, rn, rd, offset, into),
        Instr::Transfer {
            cond,
            pre,
            up,
            byte,
            write_back,
            load,
            rn,
            rd,
            offset,
        } => arm::transfer(
            at, cond, pre, up, byte, write_back, load, rn, rd, offset, into,
        ),
        Instr::Multiple {
            cond,
            pre,
            up,
            user,
            write_back,
            load,
            rn,
            list,
        } => arm::multiple(at, cond, pre, up, user, write_back, load, rn, list, into),
        Instr::Branch { cond, link, offset } => arm::branch(at, cond, link, offset, into),
        Instr::Coprocessor {
            cond,
            load,
            op1,
            crn,
            rd,
            cp,
            op2,
            crm,
        } => arm::coprocessor(at, cond, load, op1, crn, rd, cp, op2, crm, into),
        Instr::Swi { cond, immed } => arm::plain("swi", cond, immed, into),
        Instr::BlxTarget { half, offset } => arm::blx_target(at, half, offset, into),
        Instr::Pld { up, rn, offset } => arm::pld(at, up, rn, offset, into),
        Instr::Never { .. } => {}
        _ => of_thumb(at, instr, into),
    }
}

/// Adds the statement of an instruction that is a half.
fn of_thumb(at: u32, instr: &Instr, into: &mut Line)
    requires room { length into.old ≡ 0 }
    requires fields { HasFields instr.now }
    requires half { is_half_spelling (spelled instr.now) ≡ true }
    ensures { into.new ≡ into.old ++ statement at instr.now }
{
    match *instr {
        Instr::ThumbAddSub {
            subtract,
            operand,
            rn,
            rd,
        } => thumb::add_sub(at, subtract, operand, rn, rd, into),
        Instr::ThumbShift {
            shift,
            amount,
            rm,
            rd,
        } => thumb::shift_by(at, shift, amount, rm, rd, into),
        Instr::ThumbImmediate { op, rd, immed } => thumb::immediate(at, op, rd, immed, into),
        Instr::ThumbData { op, rm, rd } => two(thumb_data_name(op), Condition::Al, rd, rm, into),
        Instr::ThumbBx { rm } => one("bx", Condition::Al, rm, into),
        Instr::ThumbBlxRegister { rm } => one("blx", Condition::Al, rm, into),
        Instr::ThumbHigh { op, rm, rd } => two(high_name(op), Condition::Al, rd, rm, into),
        Instr::ThumbLoadLiteral { rd, immed } => thumb::load_literal(at, rd, immed, into),
        Instr::ThumbRegisterOffset { op, rm, rn, rd } => thumb::register_offset(
            at, op, rm, rn, rd, into,
        ),
        Instr::ThumbImmediateOffset {
            byte,
            load,
            immed,
            rn,
            rd,
        } => thumb::immediate_offset(at, byte, load, immed, rn, rd, into),
        Instr::ThumbHalfOffset {
            load,
            immed,
            rn,
            rd,
        } => thumb::half_offset(at, load, immed, rn, rd, into),
        Instr::ThumbStackOffset { load, rd, immed } => thumb::stack_offset(
            at, load, rd, immed, into,
        ),
        Instr::ThumbAddress { stack, rd, immed } => thumb::address_of(at, stack, rd, immed, into),
        Instr::ThumbAdjustStack { subtract, immed } => thumb::adjust_stack(
            at, subtract, immed, into,
        ),
        Instr::ThumbPushPop { load, extra, list } => thumb::push_pop(at, load, extra, list, into),
        Instr::ThumbBkpt { immed } => arm::plain("bkpt", Condition::Al, immed as u32, into),
        Instr::ThumbMultiple { load, rn, list } => thumb::multiple(at, load, rn, list, into),
        Instr::ThumbBranchIf { cond, offset } => thumb::branch_if(at, cond, offset, into),
        Instr::ThumbSwi { immed } => arm::plain("swi", Condition::Al, immed as u32, into),
        Instr::ThumbBranch { offset } => thumb::branch(at, offset, into),
        Instr::ThumbBlxSuffix { offset } => thumb::marked("blxl", offset as u32, into),
        Instr::ThumbBlPrefix { offset } => thumb::marked("blh", offset as u32, into),
        Instr::ThumbBlSuffix { offset } => thumb::marked("bll", offset as u32, into),
        _ => {}
    }
}
