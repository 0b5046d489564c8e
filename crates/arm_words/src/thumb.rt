//! Decoding Thumb halves.

ghost use Rattle.std.specs.Prelude.{◌≡◌, ◌<◌, ◌^◌, IfSome};
ghost use Rattle.arm_words.specs.Fields.{HasFields};
ghost use Rattle.arm_words.specs.Spellings.{IsInstruction};
ghost use Rattle.arm_words.specs.Rows.{first, or_else};
ghost use Rattle.arm_words.specs.ThumbTable.{decoded_thumb, thumb_branch_rows, thumb_literal_rows, thumb_multiple_rows, thumb_offset_rows, thumb_register_rows, thumb_stack_rows, thumb_sum_rows};

use crate::fields::{
    byte, condition, eleven, five, flag, four, high_op, is_v5, one, seven, shift, three,
    thumb_data_op, thumb_immediate_op, thumb_operand, thumb_transfer_op, two,
};
use crate::instructions::Instr;
use ds_base::Arch;

fn sums(arch: Arch, half: u32) -> Option<Instr>
    ensures { result ≡ first thumb_sum_rows arch half }
{
    if half & 0xF800 == 0x1800 {
        return Some(Instr::ThumbAddSub {
            subtract: flag(9, half),
            operand: thumb_operand(half),
            rn: three(3, half),
            rd: three(0, half),
        });
    }
    if half & 0xE000 == 0x0000 {
        return Some(Instr::ThumbShift {
            shift: shift(two(11, half)),
            amount: five(6, half),
            rm: three(3, half),
            rd: three(0, half),
        });
    }
    if half & 0xE000 == 0x2000 {
        return Some(Instr::ThumbImmediate {
            op: thumb_immediate_op(two(11, half)),
            rd: three(8, half),
            immed: byte(half),
        });
    }
    None
}

fn registers(arch: Arch, half: u32) -> Option<Instr>
    ensures { result ≡ first thumb_register_rows arch half }
{
    if half & 0xFC00 == 0x4000 {
        return Some(Instr::ThumbData {
            op: thumb_data_op(four(6, half)),
            rm: three(3, half),
            rd: three(0, half),
        });
    }
    if half & 0xFF80 == 0x4700 {
        return Some(Instr::ThumbBx { rm: four(3, half) });
    }
    if is_v5(arch) && half & 0xFF80 == 0x4780 {
        return Some(Instr::ThumbBlxRegister { rm: four(3, half) });
    }
    if two(8, half) < 3 && half & 0xFC00 == 0x4400 {
        return Some(Instr::ThumbHigh {
            op: high_op(two(8, half)),
            rm: four(3, half),
            rd: one(7, half) * 8 + three(0, half),
        });
    }
    None
}

fn literals(arch: Arch, half: u32) -> Option<Instr>
    ensures { result ≡ first thumb_literal_rows arch half }
{
    if half & 0xF800 == 0x4800 {
        return Some(Instr::ThumbLoadLiteral {
            rd: three(8, half),
            immed: byte(half),
        });
    }
    if half & 0xF000 == 0x5000 {
        return Some(Instr::ThumbRegisterOffset {
            op: thumb_transfer_op(three(9, half)),
            rm: three(6, half),
            rn: three(3, half),
            rd: three(0, half),
        });
    }
    None
}

fn offsets(arch: Arch, half: u32) -> Option<Instr>
    ensures { result ≡ first thumb_offset_rows arch half }
{
    if half & 0xE000 == 0x6000 {
        return Some(Instr::ThumbImmediateOffset {
            byte: flag(12, half),
            load: flag(11, half),
            immed: five(6, half),
            rn: three(3, half),
            rd: three(0, half),
        });
    }
    if half & 0xF000 == 0x8000 {
        return Some(Instr::ThumbHalfOffset {
            load: flag(11, half),
            immed: five(6, half),
            rn: three(3, half),
            rd: three(0, half),
        });
    }
    if half & 0xF000 == 0x9000 {
        return Some(Instr::ThumbStackOffset {
            load: flag(11, half),
            rd: three(8, half),
            immed: byte(half),
        });
    }
    None
}

fn stacks(arch: Arch, half: u32) -> Option<Instr>
    ensures { result ≡ first thumb_stack_rows arch half }
{
    if half & 0xF000 == 0xA000 {
        return Some(Instr::ThumbAddress {
            stack: flag(11, half),
            rd: three(8, half),
            immed: byte(half),
        });
    }
    if half & 0xFF00 == 0xB000 {
        return Some(Instr::ThumbAdjustStack {
            subtract: flag(7, half),
            immed: seven(half),
        });
    }
    if half & 0xF600 == 0xB400 {
        return Some(Instr::ThumbPushPop {
            load: flag(11, half),
            extra: flag(8, half),
            list: byte(half),
        });
    }
    if is_v5(arch) && half & 0xFF00 == 0xBE00 {
        return Some(Instr::ThumbBkpt { immed: byte(half) });
    }
    None
}

fn multiples(arch: Arch, half: u32) -> Option<Instr>
    ensures { result ≡ first thumb_multiple_rows arch half }
{
    if half & 0xF000 == 0xC000 {
        return Some(Instr::ThumbMultiple {
            load: flag(11, half),
            rn: three(8, half),
            list: byte(half),
        });
    }
    if half & 0xFF00 == 0xDF00 {
        return Some(Instr::ThumbSwi { immed: byte(half) });
    }
    if four(8, half) < 14 && half & 0xF000 == 0xD000 {
        return Some(Instr::ThumbBranchIf {
            cond: condition((half >> 8) & 15),
            offset: byte(half),
        });
    }
    None
}

fn branches(arch: Arch, half: u32) -> Option<Instr>
    ensures { result ≡ first thumb_branch_rows arch half }
{
    if half & 0xF800 == 0xE000 {
        return Some(Instr::ThumbBranch {
            offset: eleven(half),
        });
    }
    if is_v5(arch) && half & 0xF801 == 0xE800 {
        return Some(Instr::ThumbBlxSuffix {
            offset: eleven(half),
        });
    }
    if half & 0xF800 == 0xF000 {
        return Some(Instr::ThumbBlPrefix {
            offset: eleven(half),
        });
    }
    if half & 0xF800 == 0xF800 {
        return Some(Instr::ThumbBlSuffix {
            offset: eleven(half),
        });
    }
    None
}

// Halves whose bits 15 to 13 are 010.
fn middles(arch: Arch, half: u32) -> Option<Instr>
    ensures { result ≡ or_else (first thumb_register_rows arch half) (first thumb_literal_rows arch half) }
{
    if let Some(instr) = registers(arch, half) {
        return Some(instr);
    }
    literals(arch, half)
}

fn by_tables(arch: Arch, half: u32) -> Option<Instr>
    requires { half < 2 ^ 16 }
    ensures { result ≡ decoded_thumb arch half }
{
    match half >> 13 {
        0 | 1 => sums(arch, half),
        2 => middles(arch, half),
        3 | 4 => offsets(arch, half),
        5 => stacks(arch, half),
        6 => multiples(arch, half),
        _ => branches(arch, half),
    }
}

/// What a Thumb half stands for on an architecture: the first row of the tables that has it, and None exactly where no row has
/// (ARM manual, "Thumb instruction set encoding"). The fields are in their ranges, and the instruction can be encoded.
pub fn decode_thumb(arch: Arch, half: u16) -> Option<Instr>
    ensures row { result ≡ decoded_thumb arch half }
    ensures fields { IfSome result (λ i. HasFields i) }
    ensures instruction { IfSome result (λ i. IsInstruction i) }
{
    by_tables(arch, half as u32)
}
