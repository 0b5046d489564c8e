//! The results of data processing.

ghost use Rattle.std.specs.Prelude.{◌≡◌, ◌≤◌};
ghost use Rattle.arm_core.specs.DataProcessing.{compare_result, data_result, difference_of, logical, move_result, sum_of};

use crate::shifter::Shifted32;
use arm_words::{CompareOp, DataOp, MoveOp};

/// A result of data processing, with the C and V that go with it (ARM manual, A3.4 "Data-processing instructions").
#[derive(Clone, Copy, PartialEq, Eq)]
pub struct Computed {
    /// The result.
    pub value: u32,
    /// The C that the instruction sets.
    pub carry: bool,
    /// The V that it sets.
    pub overflow: bool,
}

/// a + b + c, where `c` is 0 or 1, with CarryFrom and OverflowFrom (ARM manual, glossary).
#[inline(always)]
#[tactic(auto, using(crate::proofs::Signs::alike_and_differs))]
pub fn sum_of(a: u32, b: u32, c: u32) -> Computed
    requires { c ≤ 1 }
    ensures { result ≡ sum_of a b c }
{
    let value = a.wrapping_add(b).wrapping_add(c);
    Computed {
        value,
        carry: a as u64 + b as u64 + c as u64 >= 0x1_0000_0000,
        overflow: (a >> 31 ^ b >> 31 ^ 1) & (a >> 31 ^ value >> 31) == 1,
    }
}

/// a - b - c, where `c` is 0 or 1, with NOT BorrowFrom and OverflowFrom (ARM manual, glossary).
#[inline(always)]
#[tactic(auto, using(crate::proofs::Signs::both_differ))]
fn difference_of(a: u32, b: u32, c: u32) -> Computed
    requires { c ≤ 1 }
    ensures { result ≡ difference_of a b c }
{
    let value = a.wrapping_sub(b).wrapping_sub(c);
    Computed {
        value,
        carry: a as u64 >= b as u64 + c as u64,
        overflow: (a >> 31 ^ b >> 31) & (a >> 31 ^ value >> 31) == 1,
    }
}

/// A logical result: C is the shifter's carry, V stays.
#[inline(always)]
fn logical(value: u32, carry: bool, v: bool) -> Computed
    ensures { result ≡ logical value carry v }
{
    Computed {
        value,
        carry,
        overflow: v,
    }
}

/// What an operation gives of `rn`, the shifter's operand, and the C and V before it (ARM manual, A4.1 under each operation's name).
#[inline(always)]
pub fn data_result(op: DataOp, rn: u32, operand: Shifted32, c: bool, v: bool) -> Computed
    ensures { result ≡ data_result op rn operand c v }
{
    let shifted = operand.value;
    match op {
        DataOp::And => logical(rn & shifted, operand.carry, v),
        DataOp::Eor => logical(rn ^ shifted, operand.carry, v),
        DataOp::Sub => difference_of(rn, shifted, 0),
        DataOp::Rsb => difference_of(shifted, rn, 0),
        DataOp::Add => sum_of(rn, shifted, 0),
        DataOp::Adc => sum_of(rn, shifted, c as u32),
        DataOp::Sbc => difference_of(rn, shifted, !c as u32),
        DataOp::Rsc => difference_of(shifted, rn, !c as u32),
        DataOp::Orr => logical(rn | shifted, operand.carry, v),
        DataOp::Bic => logical(rn & !shifted, operand.carry, v),
    }
}

/// What a comparison gives of `rn`, the shifter's operand, and the V before it (ARM manual, A4.1 "TST", "TEQ", "CMP", "CMN").
#[inline(always)]
pub fn compare_result(op: CompareOp, rn: u32, operand: Shifted32, v: bool) -> Computed
    ensures { result ≡ compare_result op rn operand v }
{
    let shifted = operand.value;
    match op {
        CompareOp::Tst => logical(rn & shifted, operand.carry, v),
        CompareOp::Teq => logical(rn ^ shifted, operand.carry, v),
        CompareOp::Cmp => difference_of(rn, shifted, 0),
        CompareOp::Cmn => sum_of(rn, shifted, 0),
    }
}

/// What MOV and MVN give of the shifter's operand and the V before them (ARM manual, A4.1 "MOV", "MVN").
#[inline(always)]
pub fn move_result(op: MoveOp, operand: Shifted32, v: bool) -> Computed
    ensures { result ≡ move_result op operand v }
{
    match op {
        MoveOp::Mov => logical(operand.value, operand.carry, v),
        MoveOp::Mvn => logical(!operand.value, operand.carry, v),
    }
}
