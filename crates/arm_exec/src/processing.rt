//! Data processing.

ghost use Rattle.std.specs.Prelude.{◌≡◌, ◌<◌, [], true};
ghost use Rattle.arm_words.specs.Fields.{HasOperand};
ghost use Rattle.arm_core.specs.Costs.{HasClocks};
ghost use Rattle.arm_core.specs.Effects.{cost_of};
ghost use Rattle.arm_core.specs.Conditions.{c_flag, v_flag};
ghost use Rattle.arm_core.specs.DataProcessing as processing;
ghost use Rattle.arm_core.specs.DataProcessing.{compare_meaning, data_meaning, result_put, move_meaning, operand_class, with_flags};
ghost use Rattle.arm_core.specs.Registers.{next};

use arm_core::{
    Class, Computed, Registers, Shifted32, compare_result, data_result, first_operand, move_result,
    shifter_operand,
};
use arm_words::{CompareOp, DataOp, MoveOp, Operand};
use ds_base::Arch;

/// What data processing with such an operand costs.
#[inline(always)]
fn operand_class(operand: Operand) -> Class
    ensures class { result ≡ operand_class operand }
    ensures clocks { HasClocks result }
{
    match operand {
        Operand::ShiftedByRegister { .. } => Class::ShiftByRegister,
        _ => Class::Processing,
    }
}

/// The result goes to `rd`, and with S the flags are set, or for r15 CPSR is restored.
#[inline(always)]
fn finish_with_flags(s: &mut Registers, rd: u8, r: Computed)
    requires { rd < 16 }
    ensures { s.new ≡ result_put true rd r s.old }
{
    if rd == 15 {
        s.restore();
    } else {
        s.set_flags(r);
    }
    s.set(rd, r.value);
}

/// What is computed from two operands, with the flags before it.
#[inline(always)]
fn data_of(s: &Registers, op: DataOp, first: u32, second: Shifted32) -> Computed
    ensures { result ≡ processing.data_result op first second (c_flag s.now.cpsr) (v_flag s.now.cpsr) }
{
    let cpsr = s.cpsr();
    data_result(
        op,
        first,
        second,
        (cpsr >> 29) & 1 == 1,
        (cpsr >> 28) & 1 == 1,
    )
}

/// What is computed from one operand, with the flags before it.
#[inline(always)]
fn move_of(s: &Registers, op: MoveOp, second: Shifted32) -> Computed
    ensures { result ≡ processing.move_result op second (v_flag s.now.cpsr) }
{
    move_result(op, second, (s.cpsr() >> 28) & 1 == 1)
}

/// Computes from two operands: the result goes to `rd`, and r15 goes on first.
#[inline(always)]
fn compute_data(
    s: &mut Registers,
    op: DataOp,
    set_flags: bool,
    rd: u8,
    first: u32,
    second: Shifted32,
)
    requires { rd < 16 }
    ensures { s.new ≡ result_put set_flags rd (processing.data_result op first second (c_flag s.old.cpsr) (v_flag s.old.cpsr)) (next s.old) }
{
    if set_flags {
        let r = data_of(s, op, first, second);
        s.go_on();
        finish_with_flags(s, rd, r);
    } else {
        // C and V of the result aren't asked for, nor found
        let value = data_of(s, op, first, second).value;
        s.go_on();
        s.set(rd, value);
    }
}

/// Computes from two operands and sets the flags alone; r15 goes on.
#[inline(always)]
fn compute_compare(s: &mut Registers, op: CompareOp, first: u32, second: Shifted32)
    ensures { s.new ≡ with_flags (processing.compare_result op first second (v_flag s.old.cpsr)) (next s.old) }
{
    let r = compare_result(op, first, second, (s.cpsr() >> 28) & 1 == 1);
    s.go_on();
    s.set_flags(r);
}

/// Computes from one operand: the result goes to `rd`, and r15 goes on first.
#[inline(always)]
fn compute_move(s: &mut Registers, op: MoveOp, set_flags: bool, rd: u8, second: Shifted32)
    requires { rd < 16 }
    ensures { s.new ≡ result_put set_flags rd (processing.move_result op second (v_flag s.old.cpsr)) (next s.old) }
{
    if set_flags {
        let r = move_of(s, op, second);
        s.go_on();
        finish_with_flags(s, rd, r);
    } else {
        let value = move_of(s, op, second).value;
        s.go_on();
        s.set(rd, value);
    }
}

/// Data processing with two operands and a result (ARM manual, A4.1 "ADC", "ADD", "AND", "BIC", "EOR", "ORR", "RSB", "RSC", "SBC", "SUB").
/// Gives what it costs, in the processor's own clocks.
#[inline]
pub fn data(
    arch: Arch,
    s: &mut Registers,
    op: DataOp,
    set_flags: bool,
    rn: u8,
    rd: u8,
    operand: Operand,
) -> u32
    requires rn { rn < 16 }
    requires rd { rd < 16 }
    requires operand { HasOperand operand }
    ensures registers { s.new ≡ (data_meaning s.old op set_flags rn rd operand).after [] }
    ensures cost { result ≡ cost_of arch (data_meaning s.old op set_flags rn rd operand) }
{
    let first = first_operand(s, operand, rn);
    let second = shifter_operand(s, operand);
    compute_data(s, op, set_flags, rd, first, second);
    operand_class(operand).cost(arch, rd == 15)
}

/// Data processing that sets the flags alone (ARM manual, A4.1 "CMN", "CMP", "TEQ", "TST"). Gives its cost in the processor's own clocks.
#[inline]
pub fn compare(arch: Arch, s: &mut Registers, op: CompareOp, rn: u8, operand: Operand) -> u32
    requires rn { rn < 16 }
    requires operand { HasOperand operand }
    ensures registers { s.new ≡ (compare_meaning s.old op rn operand).after [] }
    ensures cost { result ≡ cost_of arch (compare_meaning s.old op rn operand) }
{
    let first = first_operand(s, operand, rn);
    let second = shifter_operand(s, operand);
    compute_compare(s, op, first, second);
    operand_class(operand).cost(arch, false)
}

/// MOV and MVN (ARM manual, A4.1 "MOV", "MVN"). Gives their cost in the processor's own clocks.
#[inline]
pub fn move_(
    arch: Arch,
    s: &mut Registers,
    op: MoveOp,
    set_flags: bool,
    rd: u8,
    operand: Operand,
) -> u32
    requires rd { rd < 16 }
    requires operand { HasOperand operand }
    ensures registers { s.new ≡ (move_meaning s.old op set_flags rd operand).after [] }
    ensures cost { result ≡ cost_of arch (move_meaning s.old op set_flags rd operand) }
{
    let second = shifter_operand(s, operand);
    compute_move(s, op, set_flags, rd, second);
    operand_class(operand).cost(arch, rd == 15)
}
