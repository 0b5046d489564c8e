//! Multiplies of halves.

ghost use Rattle.std.specs.Prelude.{◌≡◌, ◌<◌, []};
ghost use Rattle.arm_core.specs.Effects.{cost_of};
ghost use Rattle.arm_core.specs.HalfMultiplies.{accumulated_meaning, half_long_meaning, chosen_half, half_product, product_meaning, wide_product};

use crate::multiplies::{accumulated, long_product, set_long};
use crate::saturating::set_lost;
use crate::transfers::signed_half;
use arm_core::{Class, Registers, sum_of};
use ds_base::Arch;

/// The top or the bottom half of a word, as a signed word.
#[inline(always)]
fn half_of(top: bool, word: u32) -> u32
    ensures { result ≡ chosen_half top word }
{
    signed_half(if top { word >> 16 } else { word })
}

/// The product of a half of `rm` (the top one with `x`) and a half of `rs` (`y`), modulo 2^32 (ARM manual, A4.1 "SMUL<x><y>").
#[inline(always)]
pub fn half_product(x: bool, y: bool, rm: u32, rs: u32) -> u32
    ensures { result ≡ half_product x y rm rs }
{
    half_of(x, rm).wrapping_mul(half_of(y, rs))
}

/// Bits 47 to 16 of the product of `rm` and a half of `rs` (ARM manual, A4.1 "SMULW<y>").
#[inline(always)]
pub fn wide_product(y: bool, rm: u32, rs: u32) -> u32
    ensures { result ≡ wide_product y rm rs }
{
    ((long_product(true, rm, half_of(y, rs), 0) >> 16) & 0xFFFF_FFFF) as u32
}

/// SMULxy and SMULWy, of which `product` is the product (ARM manual, A4.1). Gives their cost in the processor's own clocks.
#[inline]
pub fn set_product(arch: Arch, s: &mut Registers, rd: u8, product: u32) -> u32
    requires { rd < 16 }
    ensures registers { s.new ≡ (product_meaning s.old rd product).after [] }
    ensures cost { result ≡ cost_of arch (product_meaning s.old rd product) }
{
    s.go_on();
    s.set(rd, product);
    Class::Multiply.cost(arch, rd == 15)
}

/// SMLAxy and SMLAWy: `product` and what is added; Q is set where their sum overflows (ARM manual, A4.1). Gives their cost in the
/// processor's own clocks.
#[inline]
pub fn accumulate_product(arch: Arch, s: &mut Registers, rd: u8, product: u32, added: u32) -> u32
    requires { rd < 16 }
    ensures registers { s.new ≡ (accumulated_meaning s.old rd product added).after [] }
    ensures cost { result ≡ cost_of arch (accumulated_meaning s.old rd product added) }
{
    let sum = sum_of(product, added, 0);
    s.go_on();
    set_lost(s, sum.overflow);
    s.set(rd, sum.value);
    Class::Multiply.cost(arch, rd == 15)
}

/// SMLALxy: the product of two halves is added to 64 bits, of which `rd_lo` has the low word (ARM manual, A4.1 "SMLAL<x><y>"). Gives its
/// cost in the processor's own clocks.
#[inline]
pub fn half_long(
    arch: Arch,
    s: &mut Registers,
    x: bool,
    y: bool,
    rd_lo: u8,
    rd_hi: u8,
    rm: u8,
    rs: u8,
) -> u32
    requires lo { rd_lo < 16 }
    requires hi { rd_hi < 16 }
    requires rm { rm < 16 }
    requires rs { rs < 16 }
    ensures registers { s.new ≡ (half_long_meaning s.old x y rd_lo rd_hi rm rs).after [] }
    ensures cost { result ≡ cost_of arch (half_long_meaning s.old x y rd_lo rd_hi rm rs) }
{
    let added = accumulated(s, true, rd_lo, rd_hi);
    let product = long_product(true, half_of(x, s.get(rm)), half_of(y, s.get(rs)), added);
    s.go_on();
    set_long(s, rd_lo, rd_hi, product);
    Class::LongMultiply.cost(arch, rd_lo == 15 || rd_hi == 15)
}
