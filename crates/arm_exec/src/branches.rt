//! Branches.

ghost use Rattle.std.specs.Prelude.{◌≡◌, ◌<◌, ◌^◌, true, false, []};
ghost use Rattle.ds_base.specs.Bits.{flag};
ghost use Rattle.arm_core.specs.Effects.{cost_of};
ghost use Rattle.arm_core.specs.Branches.{address_meaning, branch_meaning, distance, exchange_meaning, exchanged, prefix_meaning, suffix_meaning, with_thumb};

use arm_core::{Class, Registers};
use ds_base::Arch;

/// Bit 5 of CPSR.
#[inline(always)]
fn thumb_flag(thumb: bool) -> u32
    ensures { result ≡ flag 5 thumb }
{
    if thumb { 0x20 } else { 0 }
}

/// Writes T.
#[inline(always)]
pub(crate) fn set_thumb(s: &mut Registers, thumb: bool)
    ensures { s.new ≡ with_thumb thumb s.old }
{
    s.set_cpsr((s.cpsr() & 0xFFFF_FFDF) | thumb_flag(thumb));
}

/// A branch and exchange to an address: bit 0 is T, and the address is aligned for the state.
#[inline(always)]
pub fn exchange_to(s: &mut Registers, target: u32)
    ensures { s.new ≡ exchanged target s.old }
{
    set_thumb(s, target % 2 == 1);
    s.jump(target);
}

/// BX; the result is its cost (ARM manual, A4.1 "BX").
#[inline]
pub fn exchange(arch: Arch, s: &mut Registers, rm: u8) -> u32
    requires { rm < 16 }
    ensures registers { s.new ≡ (exchange_meaning s.old rm).after [] }
    ensures cost { result ≡ cost_of arch (exchange_meaning s.old rm) }
{
    let target = s.get(rm);
    s.go_on();
    exchange_to(s, target);
    Class::Branch.cost(arch, false)
}

/// The distance of B and BL in bytes, modulo 2^32: a signed field of 24 bits counts words.
#[inline(always)]
pub fn distance24(field: u32) -> u32
    requires { field < 2 ^ 24 }
    ensures { result ≡ distance 24 4 field }
{
    let bytes = 4 * field;
    if field < 0x80_0000 {
        bytes
    } else {
        bytes + 0xFC00_0000
    }
}

/// The distance of Thumb's B without a condition in bytes, modulo 2^32: a signed field of 11 bits counts halves.
#[inline(always)]
pub fn distance11(field: u16) -> u32
    requires { field < 2 ^ 11 }
    ensures { result ≡ distance 11 2 field }
{
    let bytes = 2 * field as u32;
    if field < 0x400 {
        bytes
    } else {
        bytes + 0xFFFF_F000
    }
}

/// The distance of Thumb's B with a condition in bytes, modulo 2^32: a signed byte counts halves.
#[inline(always)]
pub fn distance8(field: u8) -> u32
    ensures { result ≡ distance 8 2 field }
{
    let bytes = 2 * field as u32;
    if field < 0x80 {
        bytes
    } else {
        bytes + 0xFFFF_FE00
    }
}

/// How far the first half of Thumb's BL moves r15, modulo 2^32: a signed field of 11 bits counts 4,096 bytes.
#[inline(always)]
fn prefix_distance(field: u16) -> u32
    requires { field < 2 ^ 11 }
    ensures { result ≡ distance 11 4096 field }
{
    let bytes = 4096 * field as u32;
    if field < 0x400 {
        bytes
    } else {
        bytes + 0xFF80_0000
    }
}

/// B (ARM manual, A4.1 "B, BL"; Thumb's A7.1 "B (1)", "B (2)").
#[inline(always)]
fn branch_away(arch: Arch, s: &mut Registers, far: u32) -> u32
    ensures registers { s.new ≡ (branch_meaning s.old false far).after [] }
    ensures cost { result ≡ cost_of arch (branch_meaning s.old false far) }
{
    let target = s.r15().wrapping_add(far);
    s.go_on();
    s.jump(target);
    Class::Branch.cost(arch, false)
}

/// BL (ARM manual, A4.1 "B, BL").
#[inline(always)]
fn branch_with_link(arch: Arch, s: &mut Registers, far: u32) -> u32
    ensures registers { s.new ≡ (branch_meaning s.old true far).after [] }
    ensures cost { result ≡ cost_of arch (branch_meaning s.old true far) }
{
    let target = s.r15().wrapping_add(far);
    s.go_on();
    s.set(14, s.pc());
    s.jump(target);
    Class::Branch.cost(arch, false)
}

/// B and BL (`link`) by a distance in bytes, modulo 2^32; the result is the cost (ARM manual, A4.1 "B, BL"; Thumb's A7.1 "B (1)",
/// "B (2)").
#[inline]
pub fn branch(arch: Arch, s: &mut Registers, link: bool, far: u32) -> u32
    ensures registers { s.new ≡ (branch_meaning s.old link far).after [] }
    ensures cost { result ≡ cost_of arch (branch_meaning s.old link far) }
{
    if link {
        branch_with_link(arch, s, far)
    } else {
        branch_away(arch, s, far)
    }
}

/// The first half of Thumb's BL; the result is its cost (ARM manual, A7.1 "BL, BLX (1)").
#[inline]
pub fn prefix(arch: Arch, s: &mut Registers, offset: u16) -> u32
    requires { offset < 2 ^ 11 }
    ensures registers { s.new ≡ (prefix_meaning s.old offset).after [] }
    ensures cost { result ≡ cost_of arch (prefix_meaning s.old offset) }
{
    let high = s.r15().wrapping_add(prefix_distance(offset));
    s.go_on();
    s.set(14, high);
    Class::Processing.cost(arch, false)
}

/// The second half of Thumb's BL; the result is its cost (ARM manual, A7.1 "BL, BLX (1)").
#[inline]
pub fn suffix(arch: Arch, s: &mut Registers, offset: u16) -> u32
    requires { offset < 2 ^ 11 }
    ensures registers { s.new ≡ (suffix_meaning s.old offset).after [] }
    ensures cost { result ≡ cost_of arch (suffix_meaning s.old offset) }
{
    let target = s.get(14).wrapping_add(2 * offset as u32);
    s.go_on();
    s.set(14, s.pc().wrapping_add(1));
    s.jump(target);
    Class::Branch.cost(arch, false)
}

/// Thumb's ADD of a number of words to r15; the result is its cost (ARM manual, A7.1 "ADD (5)").
#[inline]
pub fn address(arch: Arch, s: &mut Registers, rd: u8, immed: u8) -> u32
    requires { rd < 16 }
    ensures registers { s.new ≡ (address_meaning s.old rd immed).after [] }
    ensures cost { result ≡ cost_of arch (address_meaning s.old rd immed) }
{
    let base = s.r15();
    s.go_on();
    s.set(rd, (base - base % 4).wrapping_add(4 * immed as u32));
    Class::Processing.cost(arch, false)
}
