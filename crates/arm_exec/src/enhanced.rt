//! What ARMv5 has beside ARMv4, by its kinds.

ghost use Rattle.std.specs.Prelude.{◌≡◌, ◌<◌, []};
ghost use Rattle.arm_core.specs.Costs.{clocks};
ghost use Rattle.arm_core.specs.Registers.{next};
ghost use Rattle.arm_core.specs.declared.classes.Class.TheVariants.{Processing};
ghost use Rattle.arm_words.specs.Fields.{HasFields};
ghost use Rattle.arm_core.specs.Effects.{cost_of};
ghost use Rattle.arm_core.specs.Enhanced.{clz_meaning, coprocessor_meaning, enhanced_meaning, link_meaning};
ghost use Rattle.arm_core.specs.Undefined.{has_coprocessor};

use crate::exceptions::{breakpoint, undefined};
use crate::half_multiplies::{
    accumulate_product, half_long, half_product, set_product, wide_product,
};
use crate::links::{link_exchange, link_suffix, link_target};
use crate::saturating::saturate;
use arm_core::{Class, Registers};
use arm_words::Instr;
use ds_base::Arch;

/// CLZ (ARM manual, A4.1 "CLZ"). Gives its cost in the processor's own clocks.
#[inline]
pub fn clz(arch: Arch, s: &mut Registers, rd: u8, rm: u8) -> u32
    requires rd { rd < 16 }
    requires rm { rm < 16 }
    ensures registers { s.new ≡ (clz_meaning s.old rd rm).after [] }
    ensures cost { result ≡ cost_of arch (clz_meaning s.old rd rm) }
{
    let zeros = s.get(rm).leading_zeros();
    s.go_on();
    s.set(rd, zeros);
    Class::Processing.cost(arch, rd == 15)
}

/// A branch, BKPT, PLD, a move to or from a coprocessor, or what is undefined; the result is its cost.
#[inline]
fn link(arch: Arch, base: u32, s: &mut Registers, instr: &Instr) -> u32
    requires { HasFields instr.now }
    ensures registers { s.new ≡ (link_meaning arch base s.old instr.now).after [] }
    ensures cost { result ≡ cost_of arch (link_meaning arch base s.old instr.now) }
    ensures plain { (link_meaning arch base s.old instr.now).accesses ≡ [] }
{
    match *instr {
        Instr::BlxRegister { rm, .. } => link_exchange(arch, s, rm),
        Instr::BlxTarget { half, offset } => link_target(arch, s, half, offset),
        Instr::ThumbBlxSuffix { offset } => link_suffix(arch, s, offset),
        Instr::Bkpt { .. } => breakpoint(arch, s, base),
        Instr::Pld { .. } => preload(arch, s),
        Instr::Coprocessor { cp, .. } => coprocessor(arch, base, s, cp),
        _ => undefined(arch, s, base),
    }
}

/// Whether a processor has a coprocessor: ARM9 has CP15 (ARM946E-S manual, "Programmer's model"), ARM7 none.
#[inline(always)]
pub fn has_coprocessor(arch: Arch, cp: u8) -> bool
    ensures { result ≡ has_coprocessor arch cp }
{
    match arch {
        Arch::V4 => false,
        Arch::V5 => cp == 15,
    }
}

/// What the core does of a move to or from a coprocessor, whose own part stands with it; one that isn't there makes it undefined. The result is its
/// cost.
#[inline(always)]
fn coprocessor(arch: Arch, base: u32, s: &mut Registers, cp: u8) -> u32
    ensures registers { s.new ≡ (coprocessor_meaning (has_coprocessor arch cp) base s.old).after [] }
    ensures cost { result ≡ cost_of arch (coprocessor_meaning (has_coprocessor arch cp) base s.old) }
{
    if has_coprocessor(arch, cp) {
        s.go_on();
        Class::Coprocessor.cost(arch, false)
    } else {
        undefined(arch, s, base)
    }
}

/// PLD, which makes no access; the result is its cost (our choice).
#[inline(always)]
fn preload(arch: Arch, s: &mut Registers) -> u32
    ensures registers { s.new ≡ next s.old }
    ensures cost { result ≡ clocks Processing arch }
{
    s.go_on();
    Class::Processing.cost(arch, false)
}

/// What ARMv5 adds; the result is its cost.
#[inline]
pub(crate) fn enhanced(arch: Arch, base: u32, s: &mut Registers, instr: &Instr) -> u32
    requires { HasFields instr.now }
    ensures registers { s.new ≡ (enhanced_meaning arch base s.old instr.now).after [] }
    ensures cost { result ≡ cost_of arch (enhanced_meaning arch base s.old instr.now) }
    ensures plain { (enhanced_meaning arch base s.old instr.now).accesses ≡ [] }
{
    match *instr {
        Instr::Clz { rd, rm, .. } => clz(arch, s, rd, rm),
        Instr::Saturating {
            double,
            subtract,
            rd,
            rm,
            rn,
            ..
        } => saturate(arch, s, double, subtract, rd, rm, rn),
        Instr::Smul {
            x,
            y,
            rd,
            rm,
            rs,
            ..
        } => {
            let product = half_product(x, y, s.get(rm), s.get(rs));
            set_product(arch, s, rd, product)
        }
        Instr::Smulw { y, rd, rm, rs, .. } => {
            let product = wide_product(y, s.get(rm), s.get(rs));
            set_product(arch, s, rd, product)
        }
        Instr::Smla {
            x,
            y,
            rd,
            rm,
            rs,
            rn,
            ..
        } => {
            let product = half_product(x, y, s.get(rm), s.get(rs));
            let added = s.get(rn);
            accumulate_product(arch, s, rd, product, added)
        }
        Instr::Smlaw {
            y,
            rd,
            rm,
            rs,
            rn,
            ..
        } => {
            let product = wide_product(y, s.get(rm), s.get(rs));
            let added = s.get(rn);
            accumulate_product(arch, s, rd, product, added)
        }
        Instr::Smlal {
            x,
            y,
            rd_lo,
            rd_hi,
            rm,
            rs,
            ..
        } => half_long(arch, s, x, y, rd_lo, rd_hi, rm, rs),
        _ => link(arch, base, s, instr),
    }
}
