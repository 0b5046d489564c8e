//! When instructions take effect.

ghost use Rattle.std.specs.Prelude.{ℕ, ◌≡◌, ◌<◌, ◌*◌, ◌^◌};
ghost use Rattle.ds_base.specs.Bits.{bit};
ghost use Rattle.arm_core.specs.Conditions.{holds};
ghost use Rattle.arm_core.specs.Meanings.{condition};

use arm_words::{Condition, Instr};

/// Of each condition the sets of N, Z, C and V, as bits 3 to 0 of a number, for which it holds: bit i of the mask is 1
/// where it holds for i (ARM manual, A3.2, table "Condition codes").
#[inline(always)]
#[tactic(auto, using(crate::proofs::Masks::is_mask))]
fn mask_of(cond: Condition) -> u32
    ensures { (i : ℕ) → i < 16 → bit i result ≡ holds cond (i * 2 ^ 28) }
{
    match cond {
        Condition::Eq => 0xF0F0,
        Condition::Ne => 0x0F0F,
        Condition::Cs => 0xCCCC,
        Condition::Cc => 0x3333,
        Condition::Mi => 0xFF00,
        Condition::Pl => 0x00FF,
        Condition::Vs => 0xAAAA,
        Condition::Vc => 0x5555,
        Condition::Hi => 0x0C0C,
        Condition::Ls => 0xF3F3,
        Condition::Ge => 0xAA55,
        Condition::Lt => 0x55AA,
        Condition::Gt => 0x0A05,
        Condition::Le => 0xF5FA,
        Condition::Al => 0xFFFF,
    }
}

/// Whether a condition holds, by the flags of CPSR (ARM manual, A3.2 "The condition field").
#[inline(always)]
#[tactic(auto, using(crate::proofs::Masks::by_mask))]
pub fn holds(cond: Condition, cpsr: u32) -> bool
    ensures { result ≡ holds cond cpsr }
{
    (mask_of(cond) >> (cpsr >> 28)) & 1 == 1
}

/// The condition under which an instruction takes effect (ARM manual, A3.2); Thumb's have none, but for B.
#[inline(always)]
pub fn condition(instr: &Instr) -> Condition
    ensures { result ≡ condition instr.now }
{
    match *instr {
        Instr::Bx { cond, .. } => cond,
        Instr::BlxRegister { cond, .. } => cond,
        Instr::Clz { cond, .. } => cond,
        Instr::Saturating { cond, .. } => cond,
        Instr::Smla { cond, .. } => cond,
        Instr::Smlaw { cond, .. } => cond,
        Instr::Smulw { cond, .. } => cond,
        Instr::Smlal { cond, .. } => cond,
        Instr::Smul { cond, .. } => cond,
        Instr::Mul { cond, .. } => cond,
        Instr::Mla { cond, .. } => cond,
        Instr::LongMultiply { cond, .. } => cond,
        Instr::Swap { cond, .. } => cond,
        Instr::HalfTransfer { cond, .. } => cond,
        Instr::Mrs { cond, .. } => cond,
        Instr::Msr { cond, .. } => cond,
        Instr::MsrImmediate { cond, .. } => cond,
        Instr::Compare { cond, .. } => cond,
        Instr::Move { cond, .. } => cond,
        Instr::Data { cond, .. } => cond,
        Instr::DoubleTransfer { cond, .. } => cond,
        Instr::Transfer { cond, .. } => cond,
        Instr::Multiple { cond, .. } => cond,
        Instr::Branch { cond, .. } => cond,
        Instr::Coprocessor { cond, .. } => cond,
        Instr::Swi { cond, .. } => cond,
        Instr::ThumbBranchIf { cond, .. } => cond,
        Instr::Bkpt { .. }
        | Instr::BlxTarget { .. }
        | Instr::Pld { .. }
        | Instr::Never { .. }
        | Instr::ThumbAddSub { .. }
        | Instr::ThumbShift { .. }
        | Instr::ThumbImmediate { .. }
        | Instr::ThumbData { .. }
        | Instr::ThumbBx { .. }
        | Instr::ThumbBlxRegister { .. }
        | Instr::ThumbHigh { .. }
        | Instr::ThumbLoadLiteral { .. }
        | Instr::ThumbRegisterOffset { .. }
        | Instr::ThumbImmediateOffset { .. }
        | Instr::ThumbHalfOffset { .. }
        | Instr::ThumbStackOffset { .. }
        | Instr::ThumbAddress { .. }
        | Instr::ThumbAdjustStack { .. }
        | Instr::ThumbPushPop { .. }
        | Instr::ThumbBkpt { .. }
        | Instr::ThumbMultiple { .. }
        | Instr::ThumbSwi { .. }
        | Instr::ThumbBranch { .. }
        | Instr::ThumbBlxSuffix { .. }
        | Instr::ThumbBlPrefix { .. }
        | Instr::ThumbBlSuffix { .. } => Condition::Al,
    }
}
