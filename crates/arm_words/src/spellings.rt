//! Spelling an instruction as a word or half.

ghost use Rattle.std.specs.Prelude.{◌≡◌, ◌<◌, ◌≤◌, ◌+◌, ◌*◌, ◌/◌, ◌%◌, ◌^◌};
ghost use Rattle.ds_base.specs.declared.processors.Arch.{Arch};
ghost use Rattle.ds_base.specs.Bits.{flag};
ghost use Rattle.arm_words.specs.Canonical.{IsCanonical};
ghost use Rattle.arm_words.specs.Fields.{HasFields};
ghost use Rattle.arm_words.specs.Spellings.{decoded, index, low_byte, lows, regs, spelled, word, Has, IsInstruction};

use crate::instructions::Instr;
use crate::numbers::{
    compare_op_word, condition_number, data_op_word, field_mask_word, flag_bit, flag_half,
    half_op_word, high_op_half, move_op_word, offset_word, operand_word, shift_number,
    short_offset_word, thumb_data_op_half, thumb_immediate_op_half, thumb_operand_half,
    thumb_transfer_op_half,
};
use crate::parts::Condition;

/// What an instruction is spelled as.
#[derive(Clone, Copy, PartialEq, Eq)]
pub enum Spelling {
    /// An ARM word.
    Word(u32),
    /// A Thumb half.
    Half(u16),
}

fn word(cond: Condition, rest: u32) -> Spelling
    requires { rest < 2 ^ 28 }
    ensures { result ≡ word cond rest }
{
    Spelling::Word(((condition_number(cond) as u32) << 28) + rest)
}

fn regs(r16: u8, r12: u8, r8: u16, r0: u8) -> u32
    requires { r8 < 4096 }
    ensures { result ≡ regs r16 r12 r8 r0 }
{
    r16 as u32 * 0x1_0000 + r12 as u32 * 0x1000 + r8 as u32 * 0x100 + r0 as u32
}

fn index(pre: bool, up: bool, write_back: bool) -> u32
    ensures value { result ≡ index pre up write_back }
    ensures room { result ≤ 0x01A0_0000 }
{
    flag_bit(24, pre) + flag_bit(23, up) + flag_bit(21, write_back)
}

fn lows(r3: u8, r0: u8) -> u16
    ensures { result ≡ lows r3 r0 }
{
    r3 as u16 * 8 + r0 as u16
}

fn low_byte(r8: u8, immed: u8) -> u16
    requires { r8 < 16 }
    ensures { result ≡ low_byte r8 immed }
{
    r8 as u16 * 256 + immed as u16
}

/// The word or half whose fixed bits and fields are those of an instruction's row, whether an architecture has such an instruction or
/// not: what `encode` gives where one has it.
pub fn spell(instr: &Instr) -> Spelling
    requires { HasFields instr.now }
    ensures { result ≡ spelled instr.now }
{
    match *instr {
        Instr::Bx { cond, rm } => word(cond, 0x012F_FF10 + rm as u32),
        Instr::BlxRegister { cond, rm } => word(cond, 0x012F_FF30 + rm as u32),
        Instr::Bkpt { immed } => Spelling::Word(
            0xE120_0070 + regs(0, 0, immed / 16, (immed % 16) as u8),
        ),
        Instr::Clz { cond, rd, rm } => word(cond, 0x016F_0F10 + regs(0, rd, 0, rm)),
        Instr::Saturating {
            cond,
            double,
            subtract,
            rd,
            rm,
            rn,
        } => word(
            cond,
            0x0100_0050 + flag_bit(22, double) + flag_bit(21, subtract) + regs(rn, rd, 0, rm),
        ),
        Instr::Smla {
            cond,
            x,
            y,
            rd,
            rm,
            rs,
            rn,
        } => word(
            cond,
            0x0100_0080 + flag_bit(5, x) + flag_bit(6, y) + regs(rd, rn, rs as u16, rm),
        ),
        Instr::Smlaw {
            cond,
            y,
            rd,
            rm,
            rs,
            rn,
        } => word(
            cond,
            0x0120_0080 + flag_bit(6, y) + regs(rd, rn, rs as u16, rm),
        ),
        Instr::Smulw {
            cond,
            y,
            rd,
            rm,
            rs,
        } => word(
            cond,
            0x0120_00A0 + flag_bit(6, y) + regs(rd, 0, rs as u16, rm),
        ),
        Instr::Smlal {
            cond,
            x,
            y,
            rd_lo,
            rd_hi,
            rm,
            rs,
        } => word(
            cond,
            0x0140_0080 + flag_bit(5, x) + flag_bit(6, y) + regs(rd_hi, rd_lo, rs as u16, rm),
        ),
        Instr::Smul {
            cond,
            x,
            y,
            rd,
            rm,
            rs,
        } => word(
            cond,
            0x0160_0080 + flag_bit(5, x) + flag_bit(6, y) + regs(rd, 0, rs as u16, rm),
        ),
        Instr::Mul {
            cond,
            set_flags,
            rd,
            rm,
            rs,
        } => word(
            cond,
            0x0000_0090 + flag_bit(20, set_flags) + regs(rd, 0, rs as u16, rm),
        ),
        Instr::Mla {
            cond,
            set_flags,
            rd,
            rm,
            rs,
            rn,
        } => word(
            cond,
            0x0020_0090 + flag_bit(20, set_flags) + regs(rd, rn, rs as u16, rm),
        ),
        Instr::LongMultiply {
            cond,
            signed,
            accumulate,
            set_flags,
            rd_lo,
            rd_hi,
            rm,
            rs,
        } => word(
            cond,
            0x0080_0090
                + flag_bit(22, signed)
                + flag_bit(21, accumulate)
                + flag_bit(20, set_flags)
                + regs(rd_hi, rd_lo, rs as u16, rm),
        ),
        Instr::Swap {
            cond,
            byte,
            rd,
            rm,
            rn,
        } => word(cond, 0x0100_0090 + flag_bit(22, byte) + regs(rn, rd, 0, rm)),
        Instr::HalfTransfer {
            cond,
            op,
            pre,
            up,
            write_back,
            rn,
            rd,
            offset,
        } => word(
            cond,
            0x0000_0090
                + half_op_word(op)
                + index(pre, up, write_back)
                + regs(rn, rd, 0, 0)
                + short_offset_word(offset),
        ),
        Instr::Mrs { cond, spsr, rd } => word(
            cond,
            0x010F_0000 + flag_bit(22, spsr) + regs(0, rd, 0, 0),
        ),
        Instr::Msr {
            cond,
            spsr,
            fields,
            rm,
        } => word(
            cond,
            0x0120_F000 + flag_bit(22, spsr) + field_mask_word(fields) + rm as u32,
        ),
        Instr::MsrImmediate {
            cond,
            spsr,
            fields,
            rotate,
            immed,
        } => word(
            cond,
            0x0320_F000
                + flag_bit(22, spsr)
                + field_mask_word(fields)
                + regs(0, 0, rotate as u16, immed),
        ),
        Instr::Compare {
            cond,
            op,
            rn,
            operand,
        } => word(
            cond,
            0x0110_0000 + compare_op_word(op) + regs(rn, 0, 0, 0) + operand_word(operand),
        ),
        Instr::Move {
            cond,
            op,
            set_flags,
            rd,
            operand,
        } => word(
            cond,
            0x01A0_0000
                + move_op_word(op)
                + flag_bit(20, set_flags)
                + regs(0, rd, 0, 0)
                + operand_word(operand),
        ),
        Instr::Data {
            cond,
            op,
            set_flags,
            rn,
            rd,
            operand,
        } => word(
            cond,
            data_op_word(op) + flag_bit(20, set_flags) + regs(rn, rd, 0, 0) + operand_word(operand),
        ),
        Instr::DoubleTransfer {
            cond,
            store,
            pre,
            up,
            write_back,
            rn,
            rd,
            offset,
        } => word(
            cond,
            0x0000_00D0
                + flag_bit(5, store)
                + index(pre, up, write_back)
                + regs(rn, rd, 0, 0)
                + short_offset_word(offset),
        ),
        Instr::Transfer {
            cond,
            pre,
            up,
            byte,
            write_back,
            load,
            rn,
            rd,
            offset,
        } => word(
            cond,
            0x0400_0000
                + flag_bit(22, byte)
                + flag_bit(20, load)
                + index(pre, up, write_back)
                + regs(rn, rd, 0, 0)
                + offset_word(offset),
        ),
        Instr::Multiple {
            cond,
            pre,
            up,
            user,
            write_back,
            load,
            rn,
            list,
        } => word(
            cond,
            0x0800_0000
                + flag_bit(22, user)
                + flag_bit(20, load)
                + index(pre, up, write_back)
                + regs(rn, 0, 0, 0)
                + list as u32,
        ),
        Instr::Branch { cond, link, offset } => word(
            cond,
            0x0A00_0000 + flag_bit(24, link) + offset,
        ),
        Instr::Coprocessor {
            cond,
            load,
            op1,
            crn,
            rd,
            cp,
            op2,
            crm,
        } => word(
            cond,
            0x0E00_0010
                + flag_bit(20, load)
                + op1 as u32 * 0x20_0000
                + op2 as u32 * 0x20
                + regs(crn, rd, cp as u16, crm),
        ),
        Instr::Swi { cond, immed } => word(cond, 0x0F00_0000 + immed),
        Instr::BlxTarget { half, offset } => Spelling::Word(
            0xFA00_0000 + flag_bit(24, half) + offset,
        ),
        Instr::Pld { up, rn, offset } => Spelling::Word(
            0xF550_F000 + flag_bit(23, up) + regs(rn, 0, 0, 0) + offset_word(offset),
        ),
        Instr::Never { immed } => Spelling::Word(0xF000_0000 + immed),
        Instr::ThumbAddSub {
            subtract,
            operand,
            rn,
            rd,
        } => Spelling::Half(
            0x1800 + flag_half(9, subtract) + thumb_operand_half(operand) + lows(rn, rd),
        ),
        Instr::ThumbShift {
            shift,
            amount,
            rm,
            rd,
        } => Spelling::Half(shift_number(shift) * 0x800 + amount as u16 * 0x40 + lows(rm, rd)),
        Instr::ThumbImmediate { op, rd, immed } => Spelling::Half(
            0x2000 + thumb_immediate_op_half(op) + low_byte(rd, immed),
        ),
        Instr::ThumbData { op, rm, rd } => Spelling::Half(
            0x4000 + thumb_data_op_half(op) + lows(rm, rd),
        ),
        Instr::ThumbBx { rm } => Spelling::Half(0x4700 + lows(rm, 0)),
        Instr::ThumbBlxRegister { rm } => Spelling::Half(0x4780 + lows(rm, 0)),
        Instr::ThumbHigh { op, rm, rd } => Spelling::Half(
            0x4400 + high_op_half(op) + (rd / 8) as u16 * 0x80 + lows(rm, rd % 8),
        ),
        Instr::ThumbLoadLiteral { rd, immed } => Spelling::Half(0x4800 + low_byte(rd, immed)),
        Instr::ThumbRegisterOffset { op, rm, rn, rd } => Spelling::Half(
            0x5000 + thumb_transfer_op_half(op) + rm as u16 * 0x40 + lows(rn, rd),
        ),
        Instr::ThumbImmediateOffset {
            byte,
            load,
            immed,
            rn,
            rd,
        } => Spelling::Half(
            0x6000 + flag_half(12, byte) + flag_half(11, load) + immed as u16 * 0x40 + lows(rn, rd),
        ),
        Instr::ThumbHalfOffset {
            load,
            immed,
            rn,
            rd,
        } => Spelling::Half(0x8000 + flag_half(11, load) + immed as u16 * 0x40 + lows(rn, rd)),
        Instr::ThumbStackOffset { load, rd, immed } => Spelling::Half(
            0x9000 + flag_half(11, load) + low_byte(rd, immed),
        ),
        Instr::ThumbAddress { stack, rd, immed } => Spelling::Half(
            0xA000 + flag_half(11, stack) + low_byte(rd, immed),
        ),
        Instr::ThumbAdjustStack { subtract, immed } => Spelling::Half(
            0xB000 + flag_half(7, subtract) + immed as u16,
        ),
        Instr::ThumbPushPop { load, extra, list } => Spelling::Half(
            0xB400 + flag_half(11, load) + flag_half(8, extra) + list as u16,
        ),
        Instr::ThumbBkpt { immed } => Spelling::Half(0xBE00 + immed as u16),
        Instr::ThumbMultiple { load, rn, list } => Spelling::Half(
            0xC000 + flag_half(11, load) + low_byte(rn, list),
        ),
        Instr::ThumbBranchIf { cond, offset } => Spelling::Half(
            0xD000 + low_byte(condition_number(cond), offset),
        ),
        Instr::ThumbSwi { immed } => Spelling::Half(0xDF00 + immed as u16),
        Instr::ThumbBranch { offset } => Spelling::Half(0xE000 + offset),
        Instr::ThumbBlxSuffix { offset } => Spelling::Half(0xE800 + offset),
        Instr::ThumbBlPrefix { offset } => Spelling::Half(0xF000 + offset),
        Instr::ThumbBlSuffix { offset } => Spelling::Half(0xF800 + offset),
    }
}

/// The word or half that an instruction is spelled as: its fixed bits and its fields, and of the bits that decoding doesn't look
/// at those as 1 that the ARM manual says should be one, the others as 0. Decoding it gives the instruction again, on each
/// architecture that has it; and it is the canonical word or half of the instruction, where there is one.
pub fn encode(instr: &Instr) -> Spelling
    requires instruction { IsInstruction instr.now }
    ensures spelling { result ≡ spelled instr.now }
    ensures again { (arch : Arch) → Has arch instr.now → decoded arch result ≡ Some instr.now }
    ensures canonical { (arch : Arch) (s : Spelling) → IsCanonical arch s → decoded arch s ≡ Some instr.now → result ≡ s }
{
    spell(instr)
}
