//! Decoding ARM words.

ghost use Rattle.std.specs.Prelude.{◌≡◌, ◌≢◌, bit_and, IfSome};
ghost use Rattle.arm_words.specs.Fields.{HasFields};
ghost use Rattle.arm_words.specs.Spellings.{IsInstruction};
ghost use Rattle.arm_words.specs.Rows.{first, or_else};
ghost use Rattle.arm_words.specs.ArmTable.{branch_rows, coprocessor_rows, conditional_arm, data_rows, decoded_arm, double_rows, half_multiply_rows, half_product_rows, half_transfer_rows, immediate_status_rows, multiple_rows, multiply_rows, status_register_rows, transfer_rows, unconditional_rows};

use crate::fields::{
    byte, compare_op, condition, data_op, field_mask, flag, four, half_bits, half_op, is_v5,
    move_op, names_half, offset, offset_given, one, operand, operand_given, result_given,
    short_offset, three, twenty_four, two,
};
use crate::instructions::Instr;
use ds_base::Arch;

fn branches(arch: Arch, word: u32) -> Option<Instr>
    ensures { result ≡ first branch_rows arch word }
{
    if word & 0x0FF0_00F0 == 0x0120_0010 {
        return Some(Instr::Bx {
            cond: condition(word >> 28),
            rm: four(0, word),
        });
    }
    if is_v5(arch) && word & 0x0FF0_00F0 == 0x0120_0030 {
        return Some(Instr::BlxRegister {
            cond: condition(word >> 28),
            rm: four(0, word),
        });
    }
    if is_v5(arch) && word >> 28 == 14 && word & 0x0FF0_00F0 == 0x0120_0070 {
        return Some(Instr::Bkpt {
            immed: ((word >> 8) & 0xFFF) as u16 * 16 + (word & 15) as u16,
        });
    }
    if is_v5(arch) && word & 0x0FF0_00F0 == 0x0160_0010 {
        return Some(Instr::Clz {
            cond: condition(word >> 28),
            rd: four(12, word),
            rm: four(0, word),
        });
    }
    if is_v5(arch) && word & 0x0F90_00F0 == 0x0100_0050 {
        return Some(Instr::Saturating {
            cond: condition(word >> 28),
            double: flag(22, word),
            subtract: flag(21, word),
            rd: four(12, word),
            rm: four(0, word),
            rn: four(16, word),
        });
    }
    None
}

fn half_multiplies(arch: Arch, word: u32) -> Option<Instr>
    ensures { result ≡ first half_multiply_rows arch word }
{
    if !is_v5(arch) {
        return None;
    }
    if word & 0x0FF0_0090 == 0x0100_0080 {
        return Some(Instr::Smla {
            cond: condition(word >> 28),
            x: flag(5, word),
            y: flag(6, word),
            rd: four(16, word),
            rm: four(0, word),
            rs: four(8, word),
            rn: four(12, word),
        });
    }
    if word & 0x0FF0_00B0 == 0x0120_0080 {
        return Some(Instr::Smlaw {
            cond: condition(word >> 28),
            y: flag(6, word),
            rd: four(16, word),
            rm: four(0, word),
            rs: four(8, word),
            rn: four(12, word),
        });
    }
    if word & 0x0FF0_00B0 == 0x0120_00A0 {
        return Some(Instr::Smulw {
            cond: condition(word >> 28),
            y: flag(6, word),
            rd: four(16, word),
            rm: four(0, word),
            rs: four(8, word),
        });
    }
    None
}

fn half_products(arch: Arch, word: u32) -> Option<Instr>
    ensures { result ≡ first half_product_rows arch word }
{
    if !is_v5(arch) {
        return None;
    }
    if word & 0x0FF0_0090 == 0x0140_0080 {
        return Some(Instr::Smlal {
            cond: condition(word >> 28),
            x: flag(5, word),
            y: flag(6, word),
            rd_lo: four(12, word),
            rd_hi: four(16, word),
            rm: four(0, word),
            rs: four(8, word),
        });
    }
    if word & 0x0FF0_0090 == 0x0160_0080 {
        return Some(Instr::Smul {
            cond: condition(word >> 28),
            x: flag(5, word),
            y: flag(6, word),
            rd: four(16, word),
            rm: four(0, word),
            rs: four(8, word),
        });
    }
    None
}

fn multiplies(arch: Arch, word: u32) -> Option<Instr>
    ensures { result ≡ first multiply_rows arch word }
{
    if word & 0x0FE0_00F0 == 0x0000_0090 {
        return Some(Instr::Mul {
            cond: condition(word >> 28),
            set_flags: flag(20, word),
            rd: four(16, word),
            rm: four(0, word),
            rs: four(8, word),
        });
    }
    if word & 0x0FE0_00F0 == 0x0020_0090 {
        return Some(Instr::Mla {
            cond: condition(word >> 28),
            set_flags: flag(20, word),
            rd: four(16, word),
            rm: four(0, word),
            rs: four(8, word),
            rn: four(12, word),
        });
    }
    if word & 0x0F80_00F0 == 0x0080_0090 {
        return Some(Instr::LongMultiply {
            cond: condition(word >> 28),
            signed: flag(22, word),
            accumulate: flag(21, word),
            set_flags: flag(20, word),
            rd_lo: four(12, word),
            rd_hi: four(16, word),
            rm: four(0, word),
            rs: four(8, word),
        });
    }
    None
}

fn half_transfers(arch: Arch, word: u32) -> Option<Instr>
    ensures { result ≡ first half_transfer_rows arch word }
{
    if word & 0x0FB0_00F0 == 0x0100_0090 {
        return Some(Instr::Swap {
            cond: condition(word >> 28),
            byte: flag(22, word),
            rd: four(12, word),
            rm: four(0, word),
            rn: four(16, word),
        });
    }
    if names_half(word) && word & 0x0E00_0090 == 0x0000_0090 {
        return Some(Instr::HalfTransfer {
            cond: condition(word >> 28),
            op: half_op(half_bits(word)),
            pre: flag(24, word),
            up: flag(23, word),
            write_back: flag(21, word),
            rn: four(16, word),
            rd: four(12, word),
            offset: short_offset(word),
        });
    }
    None
}

fn statuses(arch: Arch, word: u32) -> Option<Instr>
    ensures { result ≡ first status_register_rows arch word }
{
    if word & 0x0FB0_00F0 == 0x0100_0000 {
        return Some(Instr::Mrs {
            cond: condition(word >> 28),
            spsr: flag(22, word),
            rd: four(12, word),
        });
    }
    if word & 0x0FB0_00F0 == 0x0120_0000 {
        return Some(Instr::Msr {
            cond: condition(word >> 28),
            spsr: flag(22, word),
            fields: field_mask(word),
            rm: four(0, word),
        });
    }
    None
}

fn immediate_statuses(arch: Arch, word: u32) -> Option<Instr>
    ensures { result ≡ first immediate_status_rows arch word }
{
    if word & 0x0FB0_0000 == 0x0320_0000 {
        return Some(Instr::MsrImmediate {
            cond: condition(word >> 28),
            spsr: flag(22, word),
            fields: field_mask(word),
            rotate: four(8, word),
            immed: byte(word),
        });
    }
    None
}

fn data(arch: Arch, word: u32) -> Option<Instr>
    ensures { result ≡ first data_rows arch word }
{
    if operand_given(word) && word & 0x0D90_0000 == 0x0110_0000 {
        return Some(Instr::Compare {
            cond: condition(word >> 28),
            op: compare_op(two(21, word)),
            rn: four(16, word),
            operand: operand(word),
        });
    }
    if operand_given(word) && word & 0x0DA0_0000 == 0x01A0_0000 {
        return Some(Instr::Move {
            cond: condition(word >> 28),
            op: move_op(one(22, word)),
            set_flags: flag(20, word),
            rd: four(12, word),
            operand: operand(word),
        });
    }
    if result_given(word) && word & 0x0C00_0000 == 0 {
        return Some(Instr::Data {
            cond: condition(word >> 28),
            op: data_op(four(21, word)),
            set_flags: flag(20, word),
            rn: four(16, word),
            rd: four(12, word),
            operand: operand(word),
        });
    }
    None
}

fn doubles(arch: Arch, word: u32) -> Option<Instr>
    ensures { result ≡ first double_rows arch word }
{
    if is_v5(arch) && !flag(12, word) && word & 0x0E10_00D0 == 0x0000_00D0 {
        return Some(Instr::DoubleTransfer {
            cond: condition(word >> 28),
            store: flag(5, word),
            pre: flag(24, word),
            up: flag(23, word),
            write_back: flag(21, word),
            rn: four(16, word),
            rd: four(12, word),
            offset: short_offset(word),
        });
    }
    None
}

fn transfers(arch: Arch, word: u32) -> Option<Instr>
    ensures { result ≡ first transfer_rows arch word }
{
    if offset_given(word) && word & 0x0C00_0000 == 0x0400_0000 {
        return Some(Instr::Transfer {
            cond: condition(word >> 28),
            pre: flag(24, word),
            up: flag(23, word),
            byte: flag(22, word),
            write_back: flag(21, word),
            load: flag(20, word),
            rn: four(16, word),
            rd: four(12, word),
            offset: offset(word),
        });
    }
    None
}

fn multiples(arch: Arch, word: u32) -> Option<Instr>
    ensures { result ≡ first multiple_rows arch word }
{
    if word & 0x0E00_0000 == 0x0800_0000 {
        return Some(Instr::Multiple {
            cond: condition(word >> 28),
            pre: flag(24, word),
            up: flag(23, word),
            user: flag(22, word),
            write_back: flag(21, word),
            load: flag(20, word),
            rn: four(16, word),
            list: (word & 0xFFFF) as u16,
        });
    }
    if word & 0x0E00_0000 == 0x0A00_0000 {
        return Some(Instr::Branch {
            cond: condition(word >> 28),
            link: flag(24, word),
            offset: twenty_four(word),
        });
    }
    None
}

fn coprocessors(arch: Arch, word: u32) -> Option<Instr>
    ensures { result ≡ first coprocessor_rows arch word }
{
    if is_v5(arch) && word & 0x0F00_0010 == 0x0E00_0010 {
        return Some(Instr::Coprocessor {
            cond: condition(word >> 28),
            load: flag(20, word),
            op1: three(21, word),
            crn: four(16, word),
            rd: four(12, word),
            cp: four(8, word),
            op2: three(5, word),
            crm: four(0, word),
        });
    }
    if word & 0x0F00_0000 == 0x0F00_0000 {
        return Some(Instr::Swi {
            cond: condition(word >> 28),
            immed: twenty_four(word),
        });
    }
    None
}

fn unconditional(arch: Arch, word: u32) -> Option<Instr>
    ensures { result ≡ first unconditional_rows arch word }
{
    if is_v5(arch) && word & 0xFE00_0000 == 0xFA00_0000 {
        return Some(Instr::BlxTarget {
            half: flag(24, word),
            offset: twenty_four(word),
        });
    }
    if is_v5(arch) && offset_given(word) && word & 0xFD70_F000 == 0xF550_F000 {
        return Some(Instr::Pld {
            up: flag(23, word),
            rn: four(16, word),
            offset: offset(word),
        });
    }
    if !is_v5(arch) && word & 0xF000_0000 == 0xF000_0000 {
        return Some(Instr::Never {
            immed: word & 0x0FFF_FFFF,
        });
    }
    None
}

// Words whose bits 27 to 26 aren't 00.
fn high(arch: Arch, word: u32) -> Option<Instr>
    requires { bit_and word 0x0C00_0000 ≢ 0 }
    ensures { result ≡ conditional_arm arch word }
{
    let class = word & 0x0C00_0000;
    if class == 0x0400_0000 {
        transfers(arch, word)
    } else if class == 0x0800_0000 {
        multiples(arch, word)
    } else {
        coprocessors(arch, word)
    }
}

// Words whose bits 27 to 25 are 001.
fn immediates(arch: Arch, word: u32) -> Option<Instr>
    ensures { result ≡ or_else (first immediate_status_rows arch word) (first data_rows arch word) }
{
    if let Some(instr) = immediate_statuses(arch, word) {
        return Some(instr);
    }
    data(arch, word)
}

// Words whose bits 27 to 25 are 000, and bits 7 and 4 are 1.
fn extras(arch: Arch, word: u32) -> Option<Instr>
    ensures { result ≡ or_else (first multiply_rows arch word)
        (or_else (first half_transfer_rows arch word) (or_else (first data_rows arch word) (first double_rows arch word))) }
{
    if let Some(instr) = multiplies(arch, word) {
        return Some(instr);
    }
    if let Some(instr) = half_transfers(arch, word) {
        return Some(instr);
    }
    if let Some(instr) = data(arch, word) {
        return Some(instr);
    }
    doubles(arch, word)
}

// Words whose bits 27 to 23 are 00010, and bit 20 is 0, and bits 7 and 4 aren't both 1.
fn miscellaneous(arch: Arch, word: u32) -> Option<Instr>
    ensures { result ≡ or_else (first branch_rows arch word)
        (or_else (first half_multiply_rows arch word)
        (or_else (first half_product_rows arch word) (or_else (first status_register_rows arch word) (first data_rows arch word)))) }
{
    if let Some(instr) = branches(arch, word) {
        return Some(instr);
    }
    if let Some(instr) = half_multiplies(arch, word) {
        return Some(instr);
    }
    if let Some(instr) = half_products(arch, word) {
        return Some(instr);
    }
    if let Some(instr) = statuses(arch, word) {
        return Some(instr);
    }
    data(arch, word)
}

// Words whose bits 27 to 26 are 00.
fn low(arch: Arch, word: u32) -> Option<Instr>
    requires { bit_and word 0x0C00_0000 ≡ 0 }
    ensures { result ≡ conditional_arm arch word }
{
    if word & 0x0200_0000 != 0 {
        immediates(arch, word)
    } else if word & 0x90 == 0x90 {
        extras(arch, word)
    } else if word & 0x0190_0000 == 0x0100_0000 {
        miscellaneous(arch, word)
    } else {
        data(arch, word)
    }
}

fn conditional(arch: Arch, word: u32) -> Option<Instr>
    ensures { result ≡ conditional_arm arch word }
{
    if word & 0x0C00_0000 == 0 {
        low(arch, word)
    } else {
        high(arch, word)
    }
}

fn by_tables(arch: Arch, word: u32) -> Option<Instr>
    ensures { result ≡ decoded_arm arch word }
{
    if word >> 28 == 15 {
        unconditional(arch, word)
    } else {
        conditional(arch, word)
    }
}

/// What an ARM word stands for on an architecture: the first row of the tables that has it, and None exactly where no row has
/// (ARM manual, "ARM instruction set encoding"). The fields are in their ranges, and the instruction can be encoded.
pub fn decode_arm(arch: Arch, word: u32) -> Option<Instr>
    ensures row { result ≡ decoded_arm arch word }
    ensures fields { IfSome result (λ i. HasFields i) }
    ensures instruction { IfSome result (λ i. IsInstruction i) }
{
    by_tables(arch, word)
}
