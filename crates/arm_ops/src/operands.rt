//! Second operands, and offsets.

ghost use Rattle.std.specs.Prelude.{◌≡◌, ◌<◌};
ghost use Rattle.arm_core.specs.Conditions.{c_flag};
ghost use Rattle.arm_core.specs.Registers.{RegisterState};
ghost use Rattle.arm_core.specs.declared.shifter.Shifted32 as shifter;

use crate::operations::{Number, ShiftedRegister};
use arm_core::{Registers, Shifted32, shift_by_number};

/// C (ARM manual, A2.5.2 "The condition code flags").
#[inline(always)]
fn carry(s: &Registers) -> bool
    ensures { result ≡ c_flag s.now.cpsr }
{
    (s.cpsr() >> 29) & 1 == 1
}

/// A second operand as it is decoded.
pub(crate) trait SecondOperand: Copy {
    /// Its fields are in their ranges.
    ghost fits: { Self → Type 0 };

    /// What it is in a state of the registers, with the carry that goes with it.
    ghost found: { Self → RegisterState → shifter.Shifted32 };

    /// What it is.
    fn operand(self, s: &Registers) -> Shifted32
        requires { fits self }
        ensures { result ≡ found self s.now };
}

/// A number: one that was rotated gives C as its bit 31 (ARM manual, A5.1.3 "Immediate").
impl SecondOperand for Number {
    ghost use Rattle.arm_ops.specs.Meanings.{number_operand};

    ghost fits = { λ it. Unit {0} };

    ghost found = { λ it s. number_operand s it };

    #[inline(always)]
    fn operand(self, s: &Registers) -> Shifted32 {
        let carry = if self.keeps_carry {
            carry(s)
        } else {
            self.value >> 31 == 1
        };
        Shifted32 {
            value: self.value,
            carry,
        }
    }
}

/// A register below r15 as it is.
#[derive(Clone, Copy)]
pub(crate) struct LowRegister {
    pub(crate) rm: u8,
}

/// A register as it is (ARM manual, A5.1.4 "Register").
impl SecondOperand for LowRegister {
    ghost use Rattle.arm_ops.specs.Meanings.{register_operand};

    ghost fits = { λ it. it.rm < 15 };

    ghost found = { λ it s. register_operand s it.rm };

    #[inline(always)]
    fn operand(self, s: &Registers) -> Shifted32 {
        Shifted32 {
            value: s.low(self.rm),
            carry: carry(s),
        }
    }
}

/// A register below r15 that an amount shifts.
#[derive(Clone, Copy)]
pub(crate) struct LowShifted {
    pub(crate) by: ShiftedRegister,
}

/// A register that an amount shifts, by the same sections of the manual.
impl SecondOperand for LowShifted {
    ghost use Rattle.arm_ops.specs.Meanings.{shifted_operand};

    ghost fits = { λ it. (it.by.rm < 15) × (it.by.amount < 32) };

    ghost found = { λ it s. shifted_operand s it.by };

    #[inline(always)]
    fn operand(self, s: &Registers) -> Shifted32 {
        let by = self.by;
        shift_by_number(by.shift, s.low(by.rm), by.amount as u32, carry(s))
    }
}

/// A register that an amount shifts (ARM manual, A5.1.5, A5.1.7, A5.1.9, A5.1.11, A5.1.13).
impl SecondOperand for ShiftedRegister {
    ghost use Rattle.arm_ops.specs.Meanings.{shifted_operand};
    ghost use Rattle.arm_ops.specs.Operations.{HasShifted};

    ghost fits = { λ it. HasShifted it };

    ghost found = { λ it s. shifted_operand s it };

    #[inline(always)]
    fn operand(self, s: &Registers) -> Shifted32 {
        shift_by_number(self.shift, s.get(self.rm), self.amount as u32, carry(s))
    }
}
