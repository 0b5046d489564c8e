//! Thumb instructions as ARM instructions (ARM manual, A7.1, under each name: "Equivalent ARM syntax and encoding").

ghost use Rattle.std.specs.Prelude.{◌≡◌, ◌<◌, true, false, if◌then◌else◌};
ghost use Rattle.arm_words.specs.Fields.{HasFields, HasOperand, HasOffset, HasShortOffset, HasThumbOperand};
ghost use Rattle.arm_core.specs.Thumb.{address_instr, branch_equivalent, equivalent, transfer_equivalent, high_instr, immediate_instr, low_operand, offset_instr, plain_offset, plain_register, register_instr, stack_instr, word_at, words_immediate};

use crate::lists::has;
use arm_words::{
    CompareOp, Condition, DataOp, HalfOp, HighOp, Instr, MoveOp, Offset, Operand, Shift,
    ShortOffset, ThumbDataOp, ThumbImmediateOp, ThumbOperand, ThumbTransferOp,
};

/// A register as it is.
#[inline(always)]
fn plain_register(rm: u8) -> Operand
    requires { rm < 16 }
    ensures operand { result ≡ plain_register rm }
    ensures fields { HasOperand result }
{
    Operand::Shifted {
        rm,
        shift: Shift::Lsl,
        amount: 0,
    }
}

/// A byte as it is, rotated right by twice a number.
#[inline(always)]
fn number(rotate: u8, immed: u8) -> Operand
    requires { rotate < 16 }
    ensures operand { result ≡ Operand.Immediate rotate immed }
    ensures fields { HasOperand result }
{
    Operand::Immediate { rotate, immed }
}

/// Data processing of two operands.
#[inline(always)]
fn data(op: DataOp, set_flags: bool, rn: u8, rd: u8, operand: Operand) -> Instr
    requires rn { rn < 16 }
    requires rd { rd < 16 }
    requires operand { HasOperand operand }
    ensures instr { result ≡ Instr.Data Condition.Al op set_flags rn rd operand }
    ensures fields { HasFields result }
{
    Instr::Data {
        cond: Condition::Al,
        op,
        set_flags,
        rn,
        rd,
        operand,
    }
}

/// MOV and MVN.
#[inline(always)]
fn move_(op: MoveOp, set_flags: bool, rd: u8, operand: Operand) -> Instr
    requires rd { rd < 16 }
    requires operand { HasOperand operand }
    ensures instr { result ≡ Instr.Move Condition.Al op set_flags rd operand }
    ensures fields { HasFields result }
{
    Instr::Move {
        cond: Condition::Al,
        op,
        set_flags,
        rd,
        operand,
    }
}

/// TST, CMP and CMN.
#[inline(always)]
fn compare(op: CompareOp, rn: u8, operand: Operand) -> Instr
    requires rn { rn < 16 }
    requires operand { HasOperand operand }
    ensures instr { result ≡ Instr.Compare Condition.Al op rn operand }
    ensures fields { HasFields result }
{
    Instr::Compare {
        cond: Condition::Al,
        op,
        rn,
        operand,
    }
}

/// A shift of a register by another.
#[inline(always)]
fn shifted_by(shift: Shift, rm: u8, rd: u8) -> Instr
    requires rm { rm < 8 }
    requires rd { rd < 8 }
    ensures instr { result ≡ Instr.Move Condition.Al MoveOp.Mov true rd (Operand.ShiftedByRegister rd shift rm) }
    ensures fields { HasFields result }
{
    Instr::Move {
        cond: Condition::Al,
        op: MoveOp::Mov,
        set_flags: true,
        rd,
        operand: Operand::ShiftedByRegister {
            rm: rd,
            shift,
            rs: rm,
        },
    }
}

/// "ADD (1)", "ADD (3)", "SUB (1)", "SUB (3)".
#[inline(always)]
fn low_operand(operand: ThumbOperand) -> Operand
    requires { HasThumbOperand operand }
    ensures operand { result ≡ low_operand operand }
    ensures fields { HasOperand result }
{
    match operand {
        ThumbOperand::LowRegister { rm } => plain_register(rm),
        ThumbOperand::Small { immed } => number(0, immed),
    }
}

/// "MOV (1)", "CMP (1)", "ADD (2)", "SUB (2)".
#[inline(always)]
fn immediate_instr(op: ThumbImmediateOp, rd: u8, immed: u8) -> Instr
    requires { rd < 8 }
    ensures instr { result ≡ immediate_instr op rd immed }
    ensures fields { HasFields result }
{
    match op {
        ThumbImmediateOp::Mov => move_(MoveOp::Mov, true, rd, number(0, immed)),
        ThumbImmediateOp::Cmp => compare(CompareOp::Cmp, rd, number(0, immed)),
        ThumbImmediateOp::Add => data(DataOp::Add, true, rd, rd, number(0, immed)),
        ThumbImmediateOp::Sub => data(DataOp::Sub, true, rd, rd, number(0, immed)),
    }
}

/// "AND" to "MVN".
#[inline(always)]
fn register_instr(op: ThumbDataOp, rm: u8, rd: u8) -> Instr
    requires rm { rm < 8 }
    requires rd { rd < 8 }
    ensures instr { result ≡ register_instr op rm rd }
    ensures fields { HasFields result }
{
    let operand = plain_register(rm);
    match op {
        ThumbDataOp::And => data(DataOp::And, true, rd, rd, operand),
        ThumbDataOp::Eor => data(DataOp::Eor, true, rd, rd, operand),
        ThumbDataOp::Lsl => shifted_by(Shift::Lsl, rm, rd),
        ThumbDataOp::Lsr => shifted_by(Shift::Lsr, rm, rd),
        ThumbDataOp::Asr => shifted_by(Shift::Asr, rm, rd),
        ThumbDataOp::Adc => data(DataOp::Adc, true, rd, rd, operand),
        ThumbDataOp::Sbc => data(DataOp::Sbc, true, rd, rd, operand),
        ThumbDataOp::Ror => shifted_by(Shift::Ror, rm, rd),
        ThumbDataOp::Tst => compare(CompareOp::Tst, rd, operand),
        ThumbDataOp::Neg => data(DataOp::Rsb, true, rm, rd, number(0, 0)),
        ThumbDataOp::Cmp => compare(CompareOp::Cmp, rd, operand),
        ThumbDataOp::Cmn => compare(CompareOp::Cmn, rd, operand),
        ThumbDataOp::Orr => data(DataOp::Orr, true, rd, rd, operand),
        ThumbDataOp::Mul => Instr::Mul {
            cond: Condition::Al,
            set_flags: true,
            rd,
            rm,
            rs: rd,
        },
        ThumbDataOp::Bic => data(DataOp::Bic, true, rd, rd, operand),
        ThumbDataOp::Mvn => move_(MoveOp::Mvn, true, rd, operand),
    }
}

/// "ADD (4)", "CMP (3)", "MOV (3)".
#[inline(always)]
fn high_instr(op: HighOp, rm: u8, rd: u8) -> Instr
    requires rm { rm < 16 }
    requires rd { rd < 16 }
    ensures instr { result ≡ high_instr op rm rd }
    ensures fields { HasFields result }
{
    let operand = plain_register(rm);
    match op {
        HighOp::Add => data(DataOp::Add, false, rd, rd, operand),
        HighOp::Cmp => compare(CompareOp::Cmp, rd, operand),
        HighOp::Mov => move_(MoveOp::Mov, false, rd, operand),
    }
}

/// A transfer of a word or a byte at a base with an offset.
#[inline(always)]
fn word_at(byte: bool, load: bool, rn: u8, rd: u8, offset: Offset) -> Instr
    requires rn { rn < 16 }
    requires rd { rd < 16 }
    requires offset { HasOffset offset }
    ensures instr { result ≡ word_at byte load rn rd offset }
    ensures fields { HasFields result }
{
    Instr::Transfer {
        cond: Condition::Al,
        pre: true,
        up: true,
        byte,
        write_back: false,
        load,
        rn,
        rd,
        offset,
    }
}

/// A transfer of a half or of a signed byte at a base with an offset.
#[inline(always)]
fn half_at(op: HalfOp, rn: u8, rd: u8, offset: ShortOffset) -> Instr
    requires rn { rn < 16 }
    requires rd { rd < 16 }
    requires offset { HasShortOffset offset }
    ensures instr { result ≡ Instr.HalfTransfer Condition.Al op true true false rn rd offset }
    ensures fields { HasFields result }
{
    Instr::HalfTransfer {
        cond: Condition::Al,
        op,
        pre: true,
        up: true,
        write_back: false,
        rn,
        rd,
        offset,
    }
}

/// A register as an offset.
#[inline(always)]
fn plain_offset(rm: u8) -> Offset
    requires { rm < 16 }
    ensures offset { result ≡ plain_offset rm }
    ensures fields { HasOffset result }
{
    Offset::Register {
        rm,
        shift: Shift::Lsl,
        amount: 0,
    }
}

/// "STR (2)", "STRH (2)", "STRB (2)", "LDRSB", "LDR (2)", "LDRH (2)", "LDRB (2)", "LDRSH".
#[inline(always)]
fn offset_instr(op: ThumbTransferOp, rm: u8, rn: u8, rd: u8) -> Instr
    requires rm { rm < 8 }
    requires rn { rn < 8 }
    requires rd { rd < 8 }
    ensures instr { result ≡ offset_instr op rm rn rd }
    ensures fields { HasFields result }
{
    let short = ShortOffset::ShortRegister { rm };
    match op {
        ThumbTransferOp::Str => word_at(false, false, rn, rd, plain_offset(rm)),
        ThumbTransferOp::Strh => half_at(HalfOp::Strh, rn, rd, short),
        ThumbTransferOp::Strb => word_at(true, false, rn, rd, plain_offset(rm)),
        ThumbTransferOp::Ldrsb => half_at(HalfOp::Ldrsb, rn, rd, short),
        ThumbTransferOp::Ldr => word_at(false, true, rn, rd, plain_offset(rm)),
        ThumbTransferOp::Ldrh => half_at(HalfOp::Ldrh, rn, rd, short),
        ThumbTransferOp::Ldrb => word_at(true, true, rn, rd, plain_offset(rm)),
        ThumbTransferOp::Ldrsh => half_at(HalfOp::Ldrsh, rn, rd, short),
    }
}

/// LDM or STM with a base that goes up, or for PUSH down.
#[inline(always)]
fn multiple(pre: bool, up: bool, write_back: bool, load: bool, rn: u8, list: u16) -> Instr
    requires { rn < 16 }
    ensures instr { result ≡ Instr.Multiple Condition.Al pre up false write_back load rn list }
    ensures fields { HasFields result }
{
    Instr::Multiple {
        cond: Condition::Al,
        pre,
        up,
        user: false,
        write_back,
        load,
        rn,
        list,
    }
}

/// "PUSH", "POP".
#[inline(always)]
fn stack_instr(load: bool, extra: bool, list: u8) -> Instr
    ensures instr { result ≡ stack_instr load extra list }
    ensures fields { HasFields result }
{
    let low = list as u16;
    match (load, extra) {
        (false, false) => multiple(true, false, true, false, 13, low),
        (false, true) => multiple(true, false, true, false, 13, low + 0x4000),
        (true, false) => multiple(false, true, true, true, 13, low),
        (true, true) => multiple(false, true, true, true, 13, low + 0x8000),
    }
}

/// "ADD (5)" of the stack pointer, "ADD (6)", "ADD (7)", "SUB (4)": a number of words is added to r13 or taken away.
#[inline(always)]
fn stack_sum(subtract: bool, rd: u8, immed: u8) -> Instr
    requires { rd < 16 }
    ensures instr { result ≡ Instr.Data Condition.Al (if subtract then DataOp.Sub else DataOp.Add) false 13 rd (words_immediate immed) }
    ensures fields { HasFields result }
{
    let op = if subtract { DataOp::Sub } else { DataOp::Add };
    data(op, false, 13, rd, number(15, immed))
}

/// "ADD (5)", which is its own, and "ADD (6)".
#[inline(always)]
fn address_instr(stack: bool, rd: u8, immed: u8) -> Instr
    requires { rd < 8 }
    ensures instr { result ≡ address_instr stack rd immed }
    ensures fields { HasFields result }
{
    if stack {
        stack_sum(false, rd, immed)
    } else {
        Instr::ThumbAddress { stack, rd, immed }
    }
}

/// The ARM instruction of a Thumb transfer.
#[inline(always)]
fn transferring(instr: &Instr) -> Instr
    requires { HasFields instr.now }
    ensures instr { result ≡ transfer_equivalent instr.now }
    ensures fields { HasFields result }
{
    match *instr {
        Instr::ThumbRegisterOffset { op, rm, rn, rd } => offset_instr(op, rm, rn, rd),
        Instr::ThumbImmediateOffset {
            byte,
            load,
            immed,
            rn,
            rd,
        } => {
            let offset = if byte { immed as u16 } else { 4 * immed as u16 };
            word_at(byte, load, rn, rd, Offset::Number { offset })
        }
        Instr::ThumbHalfOffset {
            load,
            immed,
            rn,
            rd,
        } => {
            let op = if load { HalfOp::Ldrh } else { HalfOp::Strh };
            half_at(op, rn, rd, ShortOffset::ShortNumber { offset: 2 * immed })
        }
        Instr::ThumbStackOffset { load, rd, immed } => word_at(
            false,
            load,
            13,
            rd,
            Offset::Number {
                offset: 4 * immed as u16,
            },
        ),
        Instr::ThumbPushPop { load, extra, list } => stack_instr(load, extra, list),
        Instr::ThumbMultiple { load, rn, list } => {
            let list = list as u16;
            multiple(false, true, !(load && has(list, rn)), load, rn, list)
        }
        _ => branching(instr),
    }
}

/// The ARM instruction of another Thumb instruction that has one, and otherwise the instruction itself.
#[inline(always)]
fn branching(instr: &Instr) -> Instr
    requires { HasFields instr.now }
    ensures instr { result ≡ branch_equivalent instr.now }
    ensures fields { HasFields result }
{
    match *instr {
        Instr::ThumbBx { rm } => Instr::Bx {
            cond: Condition::Al,
            rm,
        },
        Instr::ThumbBlxRegister { rm } => Instr::BlxRegister {
            cond: Condition::Al,
            rm,
        },
        Instr::ThumbBkpt { immed } => Instr::Bkpt {
            immed: immed as u16,
        },
        Instr::ThumbSwi { immed } => Instr::Swi {
            cond: Condition::Al,
            immed: immed as u32,
        },
        other => other,
    }
}

/// The ARM instruction that does what a Thumb instruction does, where it has one; any other instruction is its own.
#[inline(always)]
pub fn equivalent(instr: &Instr) -> Instr
    requires { HasFields instr.now }
    ensures instr { result ≡ equivalent instr.now }
    ensures fields { HasFields result }
{
    match *instr {
        Instr::ThumbAddSub {
            subtract,
            operand,
            rn,
            rd,
        } => {
            let op = if subtract { DataOp::Sub } else { DataOp::Add };
            data(op, true, rn, rd, low_operand(operand))
        }
        Instr::ThumbShift {
            shift,
            amount,
            rm,
            rd,
        } => move_(
            MoveOp::Mov,
            true,
            rd,
            Operand::Shifted { rm, shift, amount },
        ),
        Instr::ThumbImmediate { op, rd, immed } => immediate_instr(op, rd, immed),
        Instr::ThumbData { op, rm, rd } => register_instr(op, rm, rd),
        Instr::ThumbHigh { op, rm, rd } => high_instr(op, rm, rd),
        Instr::ThumbAddress { stack, rd, immed } => address_instr(stack, rd, immed),
        Instr::ThumbAdjustStack { subtract, immed } => stack_sum(subtract, 13, immed),
        _ => transferring(instr),
    }
}
