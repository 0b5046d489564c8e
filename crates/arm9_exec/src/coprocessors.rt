//! MRC and MCR of CP15.

ghost use Rattle.std.specs.Prelude.{◌≡◌, ◌<◌, IfSome};
ghost use Rattle.arm_words.specs.Fields.{HasFields};
ghost use Rattle.arm_core.specs.Registers.{register};
ghost use Rattle.arm9_exec.specs.Coprocessors.{carried_over, move_of, moved_if, read_by, read_into, register_moved, written};

use arm_core::{Class, Registers, Stepped, holds};
use arm_exec::skip;
use arm_words::{Condition, Instr};
use cp15_tcm::{Cp15, Mcr};
use ds_base::Arch;

/// A move between a register and one of CP15's (ARM manual, A4.1 "MCR", "MRC"). Registers are numbers below 16, operations below 8.
#[derive(Clone, Copy)]
pub struct Moved {
    /// The condition under which it takes effect.
    pub cond: Condition,
    /// MRC, which reads CP15; otherwise MCR, which writes it.
    pub load: bool,
    /// The first operation, opcode_1.
    pub op1: u8,
    /// CP15's register.
    pub crn: u8,
    /// The processor's register.
    pub rd: u8,
    /// The second operation, opcode_2.
    pub op2: u8,
    /// CP15's further register.
    pub crm: u8,
}

/// The move that an instruction makes to or from CP15, if it makes one.
#[inline(always)]
pub fn move_of(instr: Option<Instr>) -> Option<Moved>
    requires { IfSome instr HasFields }
    ensures moved { result ≡ move_of instr }
    ensures within { IfSome result (λ m. m.rd < 16) }
{
    match instr {
        Some(
            Instr::Coprocessor {
                cond,
                load,
                op1,
                crn,
                rd,
                cp: 15,
                op2,
                crm,
            },
        ) => Some(Moved {
            cond,
            load,
            op1,
            crn,
            rd,
            op2,
            crm,
        }),
        _ => None,
    }
}

/// A value read from CP15 goes to `rd`; r15 stands for the flags.
#[inline(always)]
fn read_into(s: &mut Registers, rd: u8, value: u32)
    requires { rd < 16 }
    ensures { s.new ≡ read_into rd value s.old }
{
    if rd == 15 {
        s.set_cpsr(s.cpsr() % 0x1000_0000 + (value >> 28 << 28));
    } else {
        s.set(rd, value);
    }
}

/// MRC (ARM manual, A4.1 "MRC").
#[inline]
fn mrc(s: &mut Registers, cp: &Cp15, m: Moved) -> Stepped
    requires { m.rd < 16 }
    ensures registers { s.new ≡ (read_by s.old cp.now m.rd (register_moved m)).registers }
    ensures stepped { result ≡ (read_by s.old cp.now m.rd (register_moved m)).stepped }
{
    let value = cp.mrc(m.op1, m.crn, m.crm, m.op2);
    s.go_on();
    read_into(s, m.rd, value);
    Stepped::Cost(Class::Coprocessor.cost(Arch::V5, false))
}

/// MCR (ARM manual, A4.1 "MCR").
#[inline]
fn mcr(s: &mut Registers, cp: &mut Cp15, m: Moved) -> Stepped
    requires { m.rd < 16 }
    ensures registers { s.new ≡ (written s.old cp.old (register_moved m) (register s.old m.rd)).registers }
    ensures cp { cp.new ≡ (written s.old cp.old (register_moved m) (register s.old m.rd)).cp }
    ensures stepped { result ≡ (written s.old cp.old (register_moved m) (register s.old m.rd)).stepped }
{
    let value = s.get(m.rd);
    match cp.mcr(m.op1, m.crn, m.crm, m.op2, value) {
        Mcr::Kept => {
            s.go_on();
            Stepped::Cost(Class::Coprocessor.cost(Arch::V5, false))
        }
        Mcr::Halt => {
            s.go_on();
            Stepped::Halted(Class::Coprocessor.cost(Arch::V5, false))
        }
        Mcr::Left(stop) => Stepped::Left(stop),
    }
}

/// A move to or from CP15, after its fetch.
#[inline]
fn carry_over(s: &mut Registers, cp: &mut Cp15, m: Moved) -> Stepped
    requires { m.rd < 16 }
    ensures registers { s.new ≡ (carried_over s.old cp.old m).registers }
    ensures cp { cp.new ≡ (carried_over s.old cp.old m).cp }
    ensures stepped { result ≡ (carried_over s.old cp.old m).stepped }
{
    if m.load { mrc(s, cp, m) } else { mcr(s, cp, m) }
}

/// A move to or from CP15, after its fetch, where its condition holds. It answers its cost in ticks, with a halt where it wrote the wait for an
/// interrupt (c7,c0,4), or the stop for big-endian mode; then the registers and CP15 are as they were.
#[inline]
pub fn move_if(s: &mut Registers, cp: &mut Cp15, m: Moved) -> Stepped
    requires { m.rd < 16 }
    ensures registers { s.new ≡ (moved_if s.old cp.old m).registers }
    ensures cp { cp.new ≡ (moved_if s.old cp.old m).cp }
    ensures stepped { result ≡ (moved_if s.old cp.old m).stepped }
{
    if holds(m.cond, s.cpsr()) {
        carry_over(s, cp, m)
    } else {
        Stepped::Cost(skip(Arch::V5, s))
    }
}
