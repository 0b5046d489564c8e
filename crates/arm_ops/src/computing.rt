//! What operations compute that make no access, of registers below r15.

ghost use Rattle.std.specs.Prelude.{◌≡◌, ◌<◌, [], false, true};
ghost use Rattle.arm_words.specs.declared.parts.Operand.TheVariants.{ShiftedByRegister};
ghost use Rattle.arm_core.specs.Conditions.{c_flag, v_flag};
ghost use Rattle.arm_core.specs.DataProcessing.{data_meaning, data_result, result_put};
ghost use Rattle.arm_core.specs.Effects.{cost_of};
ghost use Rattle.arm_core.specs.Registers.{next};
ghost use Rattle.arm_ops.specs.Meanings as ops;
ghost use Rattle.arm_ops.specs.Operations.{shifted_register, AreAllLow};

use crate::operands::{LowShifted, SecondOperand};
use crate::operations::{Number, ShiftedRegister};
use arm_core::{
    Class, Computed, Registers, Shifted32, compare_result, data_result, first_operand, move_result,
    shifter_operand,
};
use arm_words::{CompareOp, DataOp, MoveOp, Operand, Shift};
use ds_base::Arch;

/// A number that leaves C.
#[inline(always)]
pub(crate) fn kept(value: u32) -> Number
    ensures { result ≡ record { keeps_carry = true; value = value } }
{
    Number {
        keeps_carry: true,
        value,
    }
}

/// A register below r15 that an amount shifts.
#[inline(always)]
pub(crate) fn shifted(rm: u8, shift: Shift, amount: u8) -> LowShifted
    ensures { result.by ≡ shifted_register rm shift amount }
{
    LowShifted {
        by: ShiftedRegister { rm, shift, amount },
    }
}

/// A result goes to a register below r15, and r15 goes on; with S the flags are set.
#[inline(always)]
fn finish(s: &mut Registers, set_flags: bool, rd: u8, r: Computed)
    requires { rd < 15 }
    ensures { s.new ≡ result_put set_flags rd r (next s.old) }
{
    s.go_on();
    if set_flags {
        s.set_flags(r);
    }
    s.set_low(rd, r.value);
}

/// Data processing of two operands, with a register below r15 for its result.
#[inline(always)]
fn put_data(s: &mut Registers, op: DataOp, set_flags: bool, rd: u8, first: u32, second: Shifted32)
    requires { rd < 15 }
    ensures { s.new ≡ result_put set_flags rd (data_result op first second (c_flag s.old.cpsr) (v_flag s.old.cpsr)) (next s.old) }
{
    let c = (s.cpsr() >> 29) & 1 == 1;
    let v = (s.cpsr() >> 28) & 1 == 1;
    finish(s, set_flags, rd, data_result(op, first, second, c, v));
}

/// Data processing by its second operand; the result is its cost.
#[inline(always)]
pub(crate) fn data_by<O: SecondOperand>(
    arch: Arch,
    s: &mut Registers,
    op: DataOp,
    set_flags: bool,
    rd: u8,
    rn: u8,
    second: O,
) -> u32
    requires rd { rd < 15 }
    requires rn { rn < 15 }
    requires second { O.fits second }
    ensures registers { s.new ≡ (ops.data_by s.old op set_flags rd rn (O.found second s.old)).after [] }
    ensures cost { result ≡ cost_of arch (ops.data_by s.old op set_flags rd rn (O.found second s.old)) }
{
    let (first, second) = (s.low(rn), second.operand(s));
    put_data(s, op, set_flags, rd, first, second);
    Class::Processing.cost(arch, false)
}

/// Data processing with a register that another shifts, which leaves the flags; the result is its cost.
#[inline(always)]
pub(crate) fn data_shifted_by(
    arch: Arch,
    s: &mut Registers,
    op: DataOp,
    rd: u8,
    rn: u8,
    rm: u8,
    shift: Shift,
    rs: u8,
) -> u32
    requires low { AreAllLow rd rn rm }
    requires by { rs < 15 }
    ensures registers { s.new ≡ (data_meaning s.old op false rn rd (ShiftedByRegister rm shift rs)).after [] }
    ensures cost { result ≡ cost_of arch (data_meaning s.old op false rn rd (ShiftedByRegister rm shift rs)) }
{
    let by = Operand::ShiftedByRegister { rm, shift, rs };
    let (first, second) = (first_operand(s, by, rn), shifter_operand(s, by));
    put_data(s, op, false, rd, first, second);
    Class::ShiftByRegister.cost(arch, false)
}

/// A comparison by its second operand; the result is its cost.
#[inline(always)]
pub(crate) fn compare_by<O: SecondOperand>(
    arch: Arch,
    s: &mut Registers,
    op: CompareOp,
    rn: u8,
    second: O,
) -> u32
    requires rn { rn < 15 }
    requires second { O.fits second }
    ensures registers { s.new ≡ (ops.compare_by s.old op rn (O.found second s.old)).after [] }
    ensures cost { result ≡ cost_of arch (ops.compare_by s.old op rn (O.found second s.old)) }
{
    let v = (s.cpsr() >> 28) & 1 == 1;
    let r = compare_result(op, s.low(rn), second.operand(s), v);
    s.go_on();
    s.set_flags(r);
    Class::Processing.cost(arch, false)
}

/// A move of its operand; the result is its cost.
#[inline(always)]
pub(crate) fn move_by<O: SecondOperand>(
    arch: Arch,
    s: &mut Registers,
    set_flags: bool,
    rd: u8,
    second: O,
) -> u32
    requires rd { rd < 15 }
    requires second { O.fits second }
    ensures registers { s.new ≡ (ops.move_by s.old set_flags rd (O.found second s.old)).after [] }
    ensures cost { result ≡ cost_of arch (ops.move_by s.old set_flags rd (O.found second s.old)) }
{
    let v = (s.cpsr() >> 28) & 1 == 1;
    let r = move_result(MoveOp::Mov, second.operand(s), v);
    finish(s, set_flags, rd, r);
    Class::Processing.cost(arch, false)
}
