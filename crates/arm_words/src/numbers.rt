//! The numbers of the parts of an instruction, at their places in a word or half.

ghost use Rattle.std.specs.Prelude.{◌≡◌, ◌<◌, ◌≤◌, ◌+◌, ◌*◌, ◌/◌, ◌%◌, ◌^◌};
ghost use Rattle.ds_base.specs.Bits.{flag};
ghost use Rattle.arm_words.specs.Fields.{HasOffset, HasOperand, HasShortOffset, HasThumbOperand};
ghost use Rattle.arm_words.specs.HighOperations.{high_op_number};
ghost use Rattle.arm_words.specs.Operations.{compare_op_number, data_op_number, half_op_bits, move_op_number};
ghost use Rattle.arm_words.specs.Parts.{condition_number, field_mask_bits, offset_bits, operand_bits, shift_number, short_offset_bits, thumb_operand_bits};
ghost use Rattle.arm_words.specs.ThumbImmediates.{thumb_immediate_op_number};
ghost use Rattle.arm_words.specs.ThumbOperations.{thumb_data_op_number, thumb_transfer_op_number};

use crate::operations::{
    CompareOp, DataOp, HalfOp, HighOp, MoveOp, ThumbDataOp, ThumbImmediateOp, ThumbTransferOp,
};
use crate::parts::{Condition, FieldMask, Offset, Operand, Shift, ShortOffset, ThumbOperand};

/// A bit at its place in a word.
pub fn flag_bit(at: u32, value: bool) -> u32
    requires { at < 32 }
    ensures value { result ≡ flag at value }
    ensures room { result ≤ 2 ^ at }
{
    if value { 1 << at } else { 0 }
}

/// A bit at its place in a half.
pub fn flag_half(at: u32, value: bool) -> u16
    requires { at < 16 }
    ensures value { result ≡ flag at value }
    ensures room { result ≤ 2 ^ at }
{
    if value { 1 << at } else { 0 }
}

/// The number of a condition.
pub fn condition_number(op: Condition) -> u8
    ensures value { result ≡ condition_number op }
    ensures room { result ≤ 14 }
{
    match op {
        Condition::Eq => 0,
        Condition::Ne => 1,
        Condition::Cs => 2,
        Condition::Cc => 3,
        Condition::Mi => 4,
        Condition::Pl => 5,
        Condition::Vs => 6,
        Condition::Vc => 7,
        Condition::Hi => 8,
        Condition::Ls => 9,
        Condition::Ge => 0xa,
        Condition::Lt => 0xb,
        Condition::Gt => 0xc,
        Condition::Le => 0xd,
        Condition::Al => 0xe,
    }
}

/// The number of a shift.
pub fn shift_number(op: Shift) -> u16
    ensures value { result ≡ shift_number op }
    ensures room { result ≤ 3 }
{
    match op {
        Shift::Lsl => 0,
        Shift::Lsr => 1,
        Shift::Asr => 2,
        Shift::Ror => 3,
    }
}

/// Data processing with two operands, in bits 24 to 21.
pub fn data_op_word(op: DataOp) -> u32
    ensures value { result ≡ data_op_number op * 2 ^ 21 }
    ensures room { result ≤ 0x01C0_0000 }
{
    match op {
        DataOp::And => 0,
        DataOp::Eor => 0x200000,
        DataOp::Sub => 0x400000,
        DataOp::Rsb => 0x600000,
        DataOp::Add => 0x800000,
        DataOp::Adc => 0xa00000,
        DataOp::Sbc => 0xc00000,
        DataOp::Rsc => 0xe00000,
        DataOp::Orr => 0x1800000,
        DataOp::Bic => 0x1c00000,
    }
}

/// Data processing that sets flags alone, in bits 22 and 21.
pub fn compare_op_word(op: CompareOp) -> u32
    ensures value { result ≡ compare_op_number op * 2 ^ 21 }
    ensures room { result ≤ 0x0060_0000 }
{
    match op {
        CompareOp::Tst => 0,
        CompareOp::Teq => 0x200000,
        CompareOp::Cmp => 0x400000,
        CompareOp::Cmn => 0x600000,
    }
}

/// MOV or MVN, in bit 22.
pub fn move_op_word(op: MoveOp) -> u32
    ensures value { result ≡ move_op_number op * 2 ^ 22 }
    ensures room { result ≤ 0x0040_0000 }
{
    match op {
        MoveOp::Mov => 0,
        MoveOp::Mvn => 0x400000,
    }
}

/// L, S and H of a transfer of a half or of a signed byte.
pub fn half_op_word(op: HalfOp) -> u32
    ensures value { result ≡ half_op_bits op }
    ensures room { result ≤ 0x0010_0060 }
{
    match op {
        HalfOp::Strh => 0x20,
        HalfOp::Ldrh => 0x100020,
        HalfOp::Ldrsb => 0x100040,
        HalfOp::Ldrsh => 0x100060,
    }
}

/// Thumb's data processing, in bits 9 to 6.
pub fn thumb_data_op_half(op: ThumbDataOp) -> u16
    ensures value { result ≡ thumb_data_op_number op * 2 ^ 6 }
    ensures room { result ≤ 0x03C0 }
{
    match op {
        ThumbDataOp::And => 0,
        ThumbDataOp::Eor => 0x40,
        ThumbDataOp::Lsl => 0x80,
        ThumbDataOp::Lsr => 0xc0,
        ThumbDataOp::Asr => 0x100,
        ThumbDataOp::Adc => 0x140,
        ThumbDataOp::Sbc => 0x180,
        ThumbDataOp::Ror => 0x1c0,
        ThumbDataOp::Tst => 0x200,
        ThumbDataOp::Neg => 0x240,
        ThumbDataOp::Cmp => 0x280,
        ThumbDataOp::Cmn => 0x2c0,
        ThumbDataOp::Orr => 0x300,
        ThumbDataOp::Mul => 0x340,
        ThumbDataOp::Bic => 0x380,
        ThumbDataOp::Mvn => 0x3c0,
    }
}

/// Thumb's transfers with a register as offset, in bits 11 to 9.
pub fn thumb_transfer_op_half(op: ThumbTransferOp) -> u16
    ensures value { result ≡ thumb_transfer_op_number op * 2 ^ 9 }
    ensures room { result ≤ 0x0E00 }
{
    match op {
        ThumbTransferOp::Str => 0,
        ThumbTransferOp::Strh => 0x200,
        ThumbTransferOp::Strb => 0x400,
        ThumbTransferOp::Ldrsb => 0x600,
        ThumbTransferOp::Ldr => 0x800,
        ThumbTransferOp::Ldrh => 0xa00,
        ThumbTransferOp::Ldrb => 0xc00,
        ThumbTransferOp::Ldrsh => 0xe00,
    }
}

/// Thumb's operations on a register and a byte, in bits 12 and 11.
pub fn thumb_immediate_op_half(op: ThumbImmediateOp) -> u16
    ensures value { result ≡ thumb_immediate_op_number op * 2 ^ 11 }
    ensures room { result ≤ 0x1800 }
{
    match op {
        ThumbImmediateOp::Mov => 0,
        ThumbImmediateOp::Cmp => 0x800,
        ThumbImmediateOp::Add => 0x1000,
        ThumbImmediateOp::Sub => 0x1800,
    }
}

/// Thumb's operations that reach the high registers, in bits 9 and 8.
pub fn high_op_half(op: HighOp) -> u16
    ensures value { result ≡ high_op_number op * 2 ^ 8 }
    ensures room { result ≤ 0x0200 }
{
    match op {
        HighOp::Add => 0,
        HighOp::Cmp => 0x100,
        HighOp::Mov => 0x200,
    }
}

/// The operand of data processing, in bits 25 and 11 to 0.
pub fn operand_word(operand: Operand) -> u32
    requires { HasOperand operand }
    ensures value { result ≡ operand_bits operand }
    ensures room { result < 0x0200_1000 }
{
    match operand {
        Operand::Immediate { rotate, immed } => 0x0200_0000 + rotate as u32 * 0x100 + immed as u32,
        Operand::Shifted { rm, shift, amount } => amount as u32 * 0x80
            + shift_number(shift) as u32 * 0x20
            + rm as u32,
        Operand::ShiftedByRegister { rm, shift, rs } => {
            rs as u32 * 0x100 + shift_number(shift) as u32 * 0x20 + 0x10 + rm as u32
        }
    }
}

/// The offset of a transfer of a word or byte, in bits 25 and 11 to 0.
pub fn offset_word(offset: Offset) -> u32
    requires { HasOffset offset }
    ensures value { result ≡ offset_bits offset }
    ensures room { result < 0x0200_1000 }
{
    match offset {
        Offset::Number { offset } => offset as u32,
        Offset::Register { rm, shift, amount } => {
            0x0200_0000 + amount as u32 * 0x80 + shift_number(shift) as u32 * 0x20 + rm as u32
        }
    }
}

/// The offset of the other transfers, in bits 22, 11 to 8 and 3 to 0.
pub fn short_offset_word(offset: ShortOffset) -> u32
    requires { HasShortOffset offset }
    ensures value { result ≡ short_offset_bits offset }
    ensures room { result < 0x0040_1000 }
{
    match offset {
        ShortOffset::ShortNumber { offset } => 0x0040_0000
            + (offset / 16) as u32 * 0x100
            + (offset % 16) as u32,
        ShortOffset::ShortRegister { rm } => rm as u32,
    }
}

/// The fields that MSR writes, in bits 19 to 16.
pub fn field_mask_word(fields: FieldMask) -> u32
    ensures value { result ≡ field_mask_bits fields }
    ensures room { result ≤ 0x000F_0000 }
{
    flag_bit(19, fields.f)
        + flag_bit(18, fields.s)
        + flag_bit(17, fields.x)
        + flag_bit(16, fields.c)
}

/// Thumb's operand of ADD and SUB, in bits 10 and 8 to 6.
pub fn thumb_operand_half(operand: ThumbOperand) -> u16
    requires { HasThumbOperand operand }
    ensures value { result ≡ thumb_operand_bits operand }
    ensures room { result ≤ 0x05C0 }
{
    match operand {
        ThumbOperand::LowRegister { rm } => rm as u16 * 0x40,
        ThumbOperand::Small { immed } => 0x400 + immed as u16 * 0x40,
    }
}
