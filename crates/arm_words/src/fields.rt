//! Reading the fields of a word or half.

ghost use Rattle.std.specs.Prelude.{◌≡◌, ◌≤◌, ◌<◌, ◌+◌, ◌*◌, ◌^◌};
ghost use Rattle.ds_base.specs.Bits.{bit, bits};
ghost use Rattle.arm_words.specs.Parts.{condition_of, shift_of, operand_of, offset_of, short_offset_of, field_mask_of, thumb_operand_of};
ghost use Rattle.arm_words.specs.Operations.{data_op_of, compare_op_of, move_op_of, half_op_of};
ghost use Rattle.arm_words.specs.ThumbOperations.{thumb_data_op_of, thumb_transfer_op_of};
ghost use Rattle.arm_words.specs.ThumbImmediates.{thumb_immediate_op_of};
ghost use Rattle.arm_words.specs.HighOperations.{high_op_of};
ghost use Rattle.arm_words.specs.ArmTable.{has_operand, has_result, has_offset, half_number, is_half};
ghost use Rattle.arm_words.specs.Rows.{v5};

use crate::operations::{
    CompareOp, DataOp, HalfOp, HighOp, MoveOp, ThumbDataOp, ThumbImmediateOp, ThumbTransferOp,
};
use crate::parts::{Condition, FieldMask, Offset, Operand, Shift, ShortOffset, ThumbOperand};
use ds_base::Arch;

/// Whether an architecture is ARMv5.
pub fn is_v5(arch: Arch) -> bool
    ensures { result ≡ v5 arch }
{
    match arch {
        Arch::V4 => false,
        Arch::V5 => true,
    }
}

/// A bit of a word.
pub fn flag(at: u32, word: u32) -> bool
    requires { at < 32 }
    ensures { result ≡ bit at word }
{
    (word >> at) & 1 == 1
}

/// A field of four bits, such as a register.
pub fn four(at: u32, word: u32) -> u8
    requires { at < 32 }
    ensures { result ≡ bits at 4 word }
{
    ((word >> at) & 15) as u8
}

/// A field of one bit, as a number.
pub fn one(at: u32, word: u32) -> u8
    requires { at < 32 }
    ensures { result ≡ bits at 1 word }
{
    ((word >> at) & 1) as u8
}

/// A field of two bits.
pub fn two(at: u32, word: u32) -> u8
    requires { at < 32 }
    ensures { result ≡ bits at 2 word }
{
    ((word >> at) & 3) as u8
}

/// A field of three bits.
pub fn three(at: u32, word: u32) -> u8
    requires { at < 32 }
    ensures { result ≡ bits at 3 word }
{
    ((word >> at) & 7) as u8
}

/// A field of five bits.
pub fn five(at: u32, word: u32) -> u8
    requires { at < 32 }
    ensures { result ≡ bits at 5 word }
{
    ((word >> at) & 31) as u8
}

/// A field of seven bits.
pub fn seven(word: u32) -> u8
    ensures { result ≡ bits 0 7 word }
{
    (word & 0x7F) as u8
}

/// A field of eleven bits.
pub fn eleven(word: u32) -> u16
    ensures { result ≡ bits 0 11 word }
{
    (word & 0x7FF) as u16
}

/// A field of 24 bits.
pub fn twenty_four(word: u32) -> u32
    ensures { result ≡ bits 0 24 word }
{
    word & 0xFF_FFFF
}

/// The lowest byte.
pub fn byte(word: u32) -> u8
    ensures { result ≡ bits 0 8 word }
{
    (word & 0xFF) as u8
}

/// The condition of a number below 15; of any other, always (ARM manual, A3.2 "The condition field").
pub fn condition(number: u32) -> Condition
    ensures { result ≡ condition_of number }
{
    match number {
        0 => Condition::Eq,
        1 => Condition::Ne,
        2 => Condition::Cs,
        3 => Condition::Cc,
        4 => Condition::Mi,
        5 => Condition::Pl,
        6 => Condition::Vs,
        7 => Condition::Vc,
        8 => Condition::Hi,
        9 => Condition::Ls,
        10 => Condition::Ge,
        11 => Condition::Lt,
        12 => Condition::Gt,
        13 => Condition::Le,
        _ => Condition::Al,
    }
}

/// The shift of a number below 4.
pub fn shift(number: u8) -> Shift
    ensures { result ≡ shift_of number }
{
    match number {
        0 => Shift::Lsl,
        1 => Shift::Lsr,
        2 => Shift::Asr,
        _ => Shift::Ror,
    }
}

/// The operand of data processing.
pub fn operand(word: u32) -> Operand
    ensures { result ≡ operand_of word }
{
    if flag(25, word) {
        Operand::Immediate {
            rotate: four(8, word),
            immed: byte(word),
        }
    } else if flag(4, word) {
        Operand::ShiftedByRegister {
            rm: four(0, word),
            shift: shift(two(5, word)),
            rs: four(8, word),
        }
    } else {
        Operand::Shifted {
            rm: four(0, word),
            shift: shift(two(5, word)),
            amount: five(7, word),
        }
    }
}

/// The offset of a transfer of a word or byte.
pub fn offset(word: u32) -> Offset
    ensures { result ≡ offset_of word }
{
    if flag(25, word) {
        Offset::Register {
            rm: four(0, word),
            shift: shift(two(5, word)),
            amount: five(7, word),
        }
    } else {
        Offset::Number {
            offset: (word & 0xFFF) as u16,
        }
    }
}

/// The offset of the other transfers.
pub fn short_offset(word: u32) -> ShortOffset
    ensures { result ≡ short_offset_of word }
{
    if flag(22, word) {
        ShortOffset::ShortNumber {
            offset: four(8, word) * 16 + four(0, word),
        }
    } else {
        ShortOffset::ShortRegister { rm: four(0, word) }
    }
}

/// The fields that MSR writes.
pub fn field_mask(word: u32) -> FieldMask
    ensures { result ≡ field_mask_of word }
{
    FieldMask {
        f: flag(19, word),
        s: flag(18, word),
        x: flag(17, word),
        c: flag(16, word),
    }
}

/// Thumb's operand of ADD and SUB.
pub fn thumb_operand(half: u32) -> ThumbOperand
    ensures { result ≡ thumb_operand_of half }
{
    if flag(10, half) {
        ThumbOperand::Small {
            immed: three(6, half),
        }
    } else {
        ThumbOperand::LowRegister { rm: three(6, half) }
    }
}

/// Data processing with two operands, by its number.
pub fn data_op(number: u8) -> DataOp
    ensures { result ≡ data_op_of number }
{
    match number {
        0 => DataOp::And,
        1 => DataOp::Eor,
        2 => DataOp::Sub,
        3 => DataOp::Rsb,
        4 => DataOp::Add,
        5 => DataOp::Adc,
        6 => DataOp::Sbc,
        7 => DataOp::Rsc,
        8..=12 => DataOp::Orr,
        _ => DataOp::Bic,
    }
}

/// Data processing that sets flags alone, by the low two bits of its number.
pub fn compare_op(number: u8) -> CompareOp
    ensures { result ≡ compare_op_of number }
{
    match number {
        0 => CompareOp::Tst,
        1 => CompareOp::Teq,
        2 => CompareOp::Cmp,
        _ => CompareOp::Cmn,
    }
}

/// MOV or MVN.
pub fn move_op(number: u8) -> MoveOp
    ensures { result ≡ move_op_of number }
{
    if number == 0 {
        MoveOp::Mov
    } else {
        MoveOp::Mvn
    }
}

/// A transfer of a half or of a signed byte, by L, S and H.
pub fn half_op(number: u8) -> HalfOp
    ensures { result ≡ half_op_of number }
{
    match number {
        0..=4 => HalfOp::Strh,
        5 => HalfOp::Ldrh,
        6 => HalfOp::Ldrsb,
        _ => HalfOp::Ldrsh,
    }
}

/// L, S and H of a transfer of a half or of a signed byte, as one number.
pub fn half_bits(word: u32) -> u8
    ensures { result ≡ half_number word }
{
    one(20, word) * 4 + two(5, word)
}

/// Whether L, S and H name a transfer of a half or of a signed byte.
pub fn names_half(word: u32) -> bool
    ensures { result ≡ is_half word }
{
    let number = half_bits(word);
    number == 1 || number > 4
}

/// Whether a word of data processing has an operand.
pub fn operand_given(word: u32) -> bool
    ensures { result ≡ has_operand word }
{
    word & 0x0200_0090 != 0x90
}

/// Whether a word of data processing has an operation with two operands and a result.
pub fn result_given(word: u32) -> bool
    ensures { result ≡ has_result word }
{
    let number = four(21, word);
    operand_given(word) && (number < 8 || number == 12 || number == 14)
}

/// Whether a word of a transfer has an offset.
pub fn offset_given(word: u32) -> bool
    ensures { result ≡ has_offset word }
{
    word & 0x0200_0010 != 0x0200_0010
}

/// Thumb's data processing, by its number.
pub fn thumb_data_op(number: u8) -> ThumbDataOp
    ensures { result ≡ thumb_data_op_of number }
{
    match number {
        0 => ThumbDataOp::And,
        1 => ThumbDataOp::Eor,
        2 => ThumbDataOp::Lsl,
        3 => ThumbDataOp::Lsr,
        4 => ThumbDataOp::Asr,
        5 => ThumbDataOp::Adc,
        6 => ThumbDataOp::Sbc,
        7 => ThumbDataOp::Ror,
        8 => ThumbDataOp::Tst,
        9 => ThumbDataOp::Neg,
        10 => ThumbDataOp::Cmp,
        11 => ThumbDataOp::Cmn,
        12 => ThumbDataOp::Orr,
        13 => ThumbDataOp::Mul,
        14 => ThumbDataOp::Bic,
        _ => ThumbDataOp::Mvn,
    }
}

/// Thumb's transfers with a register as offset, by their number.
pub fn thumb_transfer_op(number: u8) -> ThumbTransferOp
    ensures { result ≡ thumb_transfer_op_of number }
{
    match number {
        0 => ThumbTransferOp::Str,
        1 => ThumbTransferOp::Strh,
        2 => ThumbTransferOp::Strb,
        3 => ThumbTransferOp::Ldrsb,
        4 => ThumbTransferOp::Ldr,
        5 => ThumbTransferOp::Ldrh,
        6 => ThumbTransferOp::Ldrb,
        _ => ThumbTransferOp::Ldrsh,
    }
}

/// Thumb's operations on a register and a byte, by their number.
pub fn thumb_immediate_op(number: u8) -> ThumbImmediateOp
    ensures { result ≡ thumb_immediate_op_of number }
{
    match number {
        0 => ThumbImmediateOp::Mov,
        1 => ThumbImmediateOp::Cmp,
        2 => ThumbImmediateOp::Add,
        _ => ThumbImmediateOp::Sub,
    }
}

/// Thumb's operations that reach the high registers, by their number.
pub fn high_op(number: u8) -> HighOp
    ensures { result ≡ high_op_of number }
{
    match number {
        0 => HighOp::Add,
        1 => HighOp::Cmp,
        _ => HighOp::Mov,
    }
}
