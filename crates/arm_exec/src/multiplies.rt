//! Multiplies.

ghost use Rattle.std.specs.Prelude.{◌≡◌, ◌<◌, ◌+◌, ◌*◌, ◌^◌, ◌%◌, [], if◌then◌else◌};
ghost use Rattle.arm_core.specs.Effects.{cost_of};
ghost use Rattle.arm_core.specs.Registers.{register};
ghost use Rattle.arm_core.specs.Multiplies.{long_multiply_meaning, long_product, multiply_meaning, widened, with_long, with_sign};

use arm_core::{Class, Registers};
use ds_base::Arch;

/// Sets N and Z, if they are to be.
#[inline(always)]
fn set_sign(s: &mut Registers, set_flags: bool, n: bool, z: bool)
    ensures { s.new ≡ with_sign set_flags n z s.old }
{
    if set_flags {
        s.set_cpsr(s.cpsr() % 0x4000_0000 + ((z as u32) << 30) + ((n as u32) << 31));
    }
}

/// The product of two words modulo 2^32, with what is added.
#[inline(always)]
fn product(rm: u32, rs: u32, added: u32) -> u32
    ensures { result ≡ (rm * rs + added) % 2 ^ 32 }
{
    rm.wrapping_mul(rs).wrapping_add(added)
}

/// MUL and MLA: `rm` * `rs` + `added` (ARM manual, A4.1 "MLA", "MUL"). Gives their cost in the processor's own clocks.
#[inline]
pub fn multiply(
    arch: Arch,
    s: &mut Registers,
    set_flags: bool,
    rd: u8,
    rm: u8,
    rs: u8,
    added: u32,
) -> u32
    requires rd { rd < 16 }
    requires rm { rm < 16 }
    requires rs { rs < 16 }
    ensures registers { s.new ≡ (multiply_meaning s.old set_flags rd rm rs added).after [] }
    ensures cost { result ≡ cost_of arch (multiply_meaning s.old set_flags rd rm rs added) }
{
    let product = product(s.get(rm), s.get(rs), added);
    s.go_on();
    set_sign(s, set_flags, (product >> 31) & 1 == 1, product == 0);
    s.set(rd, product);
    Class::Multiply.cost(arch, rd == 15)
}

/// A word as a number modulo 2^64: itself, or with its sign.
#[inline(always)]
fn widened(signed: bool, word: u32) -> u64
    ensures { result ≡ widened signed word }
{
    if signed && (word >> 31) & 1 == 1 {
        word as u64 + 0xFFFF_FFFF_0000_0000
    } else {
        word as u64
    }
}

/// The product of two words modulo 2^64, with what is added.
#[inline(always)]
pub(crate) fn long_product(signed: bool, rm: u32, rs: u32, added: u64) -> u64
    ensures { result ≡ long_product signed rm rs added }
{
    widened(signed, rm)
        .wrapping_mul(widened(signed, rs))
        .wrapping_add(added)
}

/// What a long multiply adds to.
#[inline(always)]
pub(crate) fn accumulated(s: &Registers, accumulate: bool, rd_lo: u8, rd_hi: u8) -> u64
    requires lo { rd_lo < 16 }
    requires hi { rd_hi < 16 }
    ensures { result ≡ (if accumulate then register s.now rd_lo + 2 ^ 32 * register s.now rd_hi else 0) }
{
    if accumulate {
        s.get(rd_lo) as u64 + ((s.get(rd_hi) as u64) << 32)
    } else {
        0
    }
}

/// The low word of a product goes to `rd_lo`, then the high word to `rd_hi`.
#[inline(always)]
pub(crate) fn set_long(s: &mut Registers, rd_lo: u8, rd_hi: u8, product: u64)
    requires lo { rd_lo < 16 }
    requires hi { rd_hi < 16 }
    ensures { s.new ≡ with_long rd_lo rd_hi product s.old }
{
    s.set(rd_lo, (product & 0xFFFF_FFFF) as u32);
    s.set(rd_hi, (product >> 32) as u32);
}

/// UMULL, UMLAL, SMULL and SMLAL: the low word goes to `rd_lo`, then the high word to `rd_hi` (ARM manual, A4.1 "SMLAL", "SMULL", "UMLAL",
/// "UMULL"). Gives their cost in the processor's own clocks.
#[inline]
pub fn long_multiply(
    arch: Arch,
    s: &mut Registers,
    signed: bool,
    accumulate: bool,
    set_flags: bool,
    rd_lo: u8,
    rd_hi: u8,
    rm: u8,
    rs: u8,
) -> u32
    requires lo { rd_lo < 16 }
    requires hi { rd_hi < 16 }
    requires rm { rm < 16 }
    requires rs { rs < 16 }
    ensures registers { s.new ≡ (long_multiply_meaning s.old signed accumulate set_flags rd_lo rd_hi rm rs).after [] }
    ensures cost { result ≡ cost_of arch (long_multiply_meaning s.old signed accumulate set_flags rd_lo rd_hi rm rs) }
{
    let added = accumulated(s, accumulate, rd_lo, rd_hi);
    let product = long_product(signed, s.get(rm), s.get(rs), added);
    s.go_on();
    set_sign(s, set_flags, (product >> 63) & 1 == 1, product == 0);
    set_long(s, rd_lo, rd_hi, product);
    Class::LongMultiply.cost(arch, rd_lo == 15 || rd_hi == 15)
}
