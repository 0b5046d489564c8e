//! The instruction that a row of ARM's tables and the text of its operands give: each register and number that stands where the row
//! has it. Nothing is refused.

ghost use Rattle.std.specs.Prelude.{◌≡◌, ◌%◌, ◌^◌};
ghost use Rattle.arm_words.specs.Fields.{HasFields};
ghost use Rattle.arm_words.specs.declared.instructions.Instr.TheVariants.{Bkpt, Bx, Clz, LongMultiply, Mla, Mul, Saturating, Smla, Smlal, Smlaw, Smul, Smulw, Swi};
ghost use Rattle.asm_text.specs.Reader.ArmRows.{arm_row, blx_at, branch_at, compare_at, coprocessor_at, data_at, distance_read, move_at, mrs_at, msr_at};
ghost use Rattle.asm_text.specs.Reader.Parts.{four_at, hex_at, one_at, three_at, two_at};

use crate::reading::arm_transfers::{
    double_transfer_at, half_transfer_at, multiple_at, pld_at, swap_at, transfer_at,
};
use crate::reading::parts::{
    byte, decimal_at, fields_at, four_at, hex_at, is_spsr, marked_at, one_at, operand_at, past,
    register_at, rotation_of, three_at, two_at,
};
use arm_words::{CompareOp, Condition, DataOp, Instr, MoveOp};

fn bx_at(cond: Condition, text: &[u8]) -> Instr
    ensures row { result ≡ Bx cond (one_at text.now) }
    ensures fields { HasFields result }
{
    Instr::Bx {
        cond,
        rm: one_at(text),
    }
}

fn bkpt_at(text: &[u8]) -> Instr
    ensures row { result ≡ Bkpt ((hex_at text.now).0 % 2 ^ 16) }
    ensures fields { HasFields result }
{
    Instr::Bkpt {
        immed: (hex_at(text).0 % 0x1_0000) as u16,
    }
}

fn swi_at(cond: Condition, text: &[u8]) -> Instr
    ensures row { result ≡ Swi cond ((hex_at text.now).0 % 2 ^ 24) }
    ensures fields { HasFields result }
{
    Instr::Swi {
        cond,
        immed: hex_at(text).0 % 0x100_0000,
    }
}

/// A target's distance from what r15 reads as.
fn distance_read(at: u32, target: u32) -> u32
    ensures { result ≡ distance_read at target }
{
    target.wrapping_sub(at).wrapping_sub(8)
}

#[tactic(auto, unfolding(crate::specs::Reader::ArmRows::branch_at))]
fn branch_at(at: u32, link: bool, cond: Condition, text: &[u8]) -> Instr
    ensures row { result ≡ branch_at at link cond text.now }
    ensures fields { HasFields result }
{
    Instr::Branch {
        cond,
        link,
        offset: distance_read(at, hex_at(text).0) / 4 % 0x100_0000,
    }
}

#[tactic(auto, unfolding(crate::specs::Reader::ArmRows::blx_at))]
fn blx_at(at: u32, cond: Condition, text: &[u8]) -> Instr
    ensures row { result ≡ blx_at at cond text.now }
    ensures fields { HasFields result }
{
    if byte(text, 0) == b'r' {
        return Instr::BlxRegister {
            cond,
            rm: one_at(text),
        };
    }
    let away = distance_read(at, hex_at(text).0);
    Instr::BlxTarget {
        half: away / 2 % 2 == 1,
        offset: away / 4 % 0x100_0000,
    }
}

#[tactic(auto, unfolding(crate::specs::Reader::ArmRows::mrs_at))]
fn mrs_at(cond: Condition, text: &[u8]) -> Instr
    ensures row { result ≡ mrs_at cond text.now }
    ensures fields { HasFields result }
{
    let (rd, more) = register_at(text);
    Instr::Mrs {
        cond,
        spsr: is_spsr(past(more, 2)),
        rd,
    }
}

#[tactic(auto, unfolding(crate::specs::Reader::ArmRows::msr_at))]
fn msr_at(cond: Condition, text: &[u8]) -> Instr
    ensures row { result ≡ msr_at cond text.now }
    ensures fields { HasFields result }
{
    let spsr = is_spsr(text);
    let (fields, more) = fields_at(past(text, 5));
    let last = past(more, 2);
    if byte(last, 0) != b'#' {
        let rm = register_at(last).0;
        return Instr::Msr {
            cond,
            spsr,
            fields,
            rm,
        };
    }
    let (rotate, immed) = rotation_of(marked_at(last).0);
    Instr::MsrImmediate {
        cond,
        spsr,
        fields,
        rotate,
        immed,
    }
}

#[tactic(auto, unfolding(crate::specs::Reader::ArmRows::compare_at))]
fn compare_at(op: CompareOp, cond: Condition, text: &[u8]) -> Instr
    ensures row { result ≡ compare_at op cond text.now }
    ensures fields { HasFields result }
{
    let (rn, more) = register_at(text);
    Instr::Compare {
        cond,
        op,
        rn,
        operand: operand_at(past(more, 2)),
    }
}

#[tactic(auto, unfolding(crate::specs::Reader::ArmRows::move_at))]
fn move_at(op: MoveOp, set_flags: bool, cond: Condition, text: &[u8]) -> Instr
    ensures row { result ≡ move_at op set_flags cond text.now }
    ensures fields { HasFields result }
{
    let (rd, more) = register_at(text);
    Instr::Move {
        cond,
        op,
        set_flags,
        rd,
        operand: operand_at(past(more, 2)),
    }
}

#[tactic(auto, unfolding(crate::specs::Reader::ArmRows::data_at))]
fn data_at(op: DataOp, set_flags: bool, cond: Condition, text: &[u8]) -> Instr
    ensures row { result ≡ data_at op set_flags cond text.now }
    ensures fields { HasFields result }
{
    let (rd, more) = register_at(text);
    let (rn, last) = register_at(past(more, 2));
    Instr::Data {
        cond,
        op,
        set_flags,
        rn,
        rd,
        operand: operand_at(past(last, 2)),
    }
}

#[tactic(auto, unfolding(crate::specs::Reader::ArmRows::coprocessor_at))]
fn coprocessor_at(load: bool, cond: Condition, text: &[u8]) -> Instr
    ensures row { result ≡ coprocessor_at load cond text.now }
    ensures fields { HasFields result }
{
    let (cp, after_cp) = decimal_at(past(text, 1));
    let (op1, after_op1) = decimal_at(past(after_cp, 2));
    let (rd, after_rd) = register_at(past(after_op1, 2));
    let (crn, after_crn) = decimal_at(past(after_rd, 3));
    let (crm, after_crm) = decimal_at(past(after_crn, 3));
    let (op2, _) = decimal_at(past(after_crm, 2));
    Instr::Coprocessor {
        cond,
        load,
        op1: op1 % 8,
        crn,
        rd,
        cp,
        op2: op2 % 8,
        crm,
    }
}

fn clz_at(cond: Condition, text: &[u8]) -> Instr
    ensures row { (let r = two_at text.now in result ≡ Clz cond r.0 r.1) }
    ensures fields { HasFields result }
{
    let (rd, rm) = two_at(text);
    Instr::Clz { cond, rd, rm }
}

fn saturating_at(double: bool, subtract: bool, cond: Condition, text: &[u8]) -> Instr
    ensures row { (let r = three_at text.now in result ≡ Saturating cond double subtract r.0 r.1 r.2) }
    ensures fields { HasFields result }
{
    let (rd, rm, rn) = three_at(text);
    Instr::Saturating {
        cond,
        double,
        subtract,
        rd,
        rm,
        rn,
    }
}

fn smla_at(x: bool, y: bool, cond: Condition, text: &[u8]) -> Instr
    ensures row { (let r = four_at text.now in result ≡ Smla cond x y r.0 r.1 r.2 r.3) }
    ensures fields { HasFields result }
{
    let (rd, rm, rs, rn) = four_at(text);
    Instr::Smla {
        cond,
        x,
        y,
        rd,
        rm,
        rs,
        rn,
    }
}

fn smlaw_at(y: bool, cond: Condition, text: &[u8]) -> Instr
    ensures row { (let r = four_at text.now in result ≡ Smlaw cond y r.0 r.1 r.2 r.3) }
    ensures fields { HasFields result }
{
    let (rd, rm, rs, rn) = four_at(text);
    Instr::Smlaw {
        cond,
        y,
        rd,
        rm,
        rs,
        rn,
    }
}

fn smulw_at(y: bool, cond: Condition, text: &[u8]) -> Instr
    ensures row { (let r = three_at text.now in result ≡ Smulw cond y r.0 r.1 r.2) }
    ensures fields { HasFields result }
{
    let (rd, rm, rs) = three_at(text);
    Instr::Smulw {
        cond,
        y,
        rd,
        rm,
        rs,
    }
}

fn smlal_at(x: bool, y: bool, cond: Condition, text: &[u8]) -> Instr
    ensures row { (let r = four_at text.now in result ≡ Smlal cond x y r.0 r.1 r.2 r.3) }
    ensures fields { HasFields result }
{
    let (rd_lo, rd_hi, rm, rs) = four_at(text);
    Instr::Smlal {
        cond,
        x,
        y,
        rd_lo,
        rd_hi,
        rm,
        rs,
    }
}

fn smul_at(x: bool, y: bool, cond: Condition, text: &[u8]) -> Instr
    ensures row { (let r = three_at text.now in result ≡ Smul cond x y r.0 r.1 r.2) }
    ensures fields { HasFields result }
{
    let (rd, rm, rs) = three_at(text);
    Instr::Smul {
        cond,
        x,
        y,
        rd,
        rm,
        rs,
    }
}

fn mul_at(set_flags: bool, cond: Condition, text: &[u8]) -> Instr
    ensures row { (let r = three_at text.now in result ≡ Mul cond set_flags r.0 r.1 r.2) }
    ensures fields { HasFields result }
{
    let (rd, rm, rs) = three_at(text);
    Instr::Mul {
        cond,
        set_flags,
        rd,
        rm,
        rs,
    }
}

fn mla_at(set_flags: bool, cond: Condition, text: &[u8]) -> Instr
    ensures row { (let r = four_at text.now in result ≡ Mla cond set_flags r.0 r.1 r.2 r.3) }
    ensures fields { HasFields result }
{
    let (rd, rm, rs, rn) = four_at(text);
    Instr::Mla {
        cond,
        set_flags,
        rd,
        rm,
        rs,
        rn,
    }
}

fn long_multiply_at(
    signed: bool,
    accumulate: bool,
    set_flags: bool,
    cond: Condition,
    text: &[u8],
) -> Instr
    ensures row { (let r = four_at text.now in result ≡ LongMultiply cond signed accumulate set_flags r.0 r.1 r.2 r.3) }
    ensures fields { HasFields result }
{
    let (rd_lo, rd_hi, rm, rs) = four_at(text);
    Instr::LongMultiply {
        cond,
        signed,
        accumulate,
        set_flags,
        rd_lo,
        rd_hi,
        rm,
        rs,
    }
}

/// The instruction of a row, whose flags are those of `template`, with a condition and the operands that the text has.
#[tactic(auto, unfolding(crate::specs::Reader::ArmRows::arm_row))]
pub(crate) fn arm_row(at: u32, template: Instr, cond: Condition, text: &[u8]) -> Instr
    ensures row { result ≡ arm_row at template cond text.now }
    ensures fields { HasFields result }
{
    match template {
        Instr::Bx { .. } => bx_at(cond, text),
        Instr::BlxRegister { .. } => blx_at(at, cond, text),
        Instr::Bkpt { .. } => bkpt_at(text),
        Instr::Clz { .. } => clz_at(cond, text),
        Instr::Saturating {
            double,
            subtract,
            ..
        } => saturating_at(double, subtract, cond, text),
        Instr::Smla { x, y, .. } => smla_at(x, y, cond, text),
        Instr::Smlaw { y, .. } => smlaw_at(y, cond, text),
        Instr::Smulw { y, .. } => smulw_at(y, cond, text),
        Instr::Smlal { x, y, .. } => smlal_at(x, y, cond, text),
        Instr::Smul { x, y, .. } => smul_at(x, y, cond, text),
        Instr::Mul { set_flags, .. } => mul_at(set_flags, cond, text),
        Instr::Mla { set_flags, .. } => mla_at(set_flags, cond, text),
        Instr::LongMultiply {
            signed,
            accumulate,
            set_flags,
            ..
        } => long_multiply_at(signed, accumulate, set_flags, cond, text),
        Instr::Swap { byte, .. } => swap_at(byte, cond, text),
        Instr::HalfTransfer { op, .. } => half_transfer_at(op, cond, text),
        Instr::Mrs { .. } => mrs_at(cond, text),
        Instr::Msr { .. } => msr_at(cond, text),
        Instr::Compare { op, .. } => compare_at(op, cond, text),
        Instr::Move { op, set_flags, .. } => move_at(op, set_flags, cond, text),
        Instr::Data { op, set_flags, .. } => data_at(op, set_flags, cond, text),
        Instr::DoubleTransfer { store, .. } => double_transfer_at(store, cond, text),
        Instr::Transfer {
            byte,
            write_back,
            load,
            ..
        } => transfer_at(byte, write_back, load, cond, text),
        Instr::Multiple { pre, up, load, .. } => multiple_at(pre, up, load, cond, text),
        Instr::Branch { link, .. } => branch_at(at, link, cond, text),
        Instr::Coprocessor { load, .. } => coprocessor_at(load, cond, text),
        Instr::Swi { .. } => swi_at(cond, text),
        Instr::Pld { .. } => pld_at(text),
        _ => Instr::Never { immed: 0 },
    }
}
