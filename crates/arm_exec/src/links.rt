//! Branches with link that can change the state.

ghost use Rattle.std.specs.Prelude.{◌≡◌, ◌<◌, ◌^◌, true, []};
ghost use Rattle.ds_base.specs.Bits.{flag};
ghost use Rattle.arm_core.specs.Effects.{cost_of};
ghost use Rattle.arm_core.specs.Links.{link_exchange_meaning, link_suffix_meaning, link_target_meaning, linked};
ghost use Rattle.arm_core.specs.Registers.{is_thumb};

use crate::branches::{distance24, exchange_to, set_thumb};
use arm_core::{Class, Registers};
use ds_base::Arch;

/// Bit 0 of the address that Thumb code leaves in r14.
#[inline(always)]
fn thumb_bit(s: &Registers) -> u32
    ensures { result ≡ flag 0 (is_thumb s.now) }
{
    if s.is_thumb() { 1 } else { 0 }
}

/// r14 has the next instruction's address, in Thumb state with bit 0 set.
#[inline(always)]
fn link(s: &mut Registers)
    ensures { s.new ≡ linked s.old }
{
    let to = s.next_pc().wrapping_add(thumb_bit(s));
    s.go_on();
    s.set(14, to);
}

/// BLX by a register, which is read before r14 is written; the result is the cost (ARM manual, A4.1 "BLX (2)"; Thumb's A7.1 "BLX (2)").
#[inline]
pub fn link_exchange(arch: Arch, s: &mut Registers, rm: u8) -> u32
    requires { rm < 16 }
    ensures registers { s.new ≡ (link_exchange_meaning s.old rm).after [] }
    ensures cost { result ≡ cost_of arch (link_exchange_meaning s.old rm) }
{
    let target = s.get(rm);
    link(s);
    exchange_to(s, target);
    Class::Branch.cost(arch, false)
}

/// What H adds to the target of BLX.
#[inline(always)]
fn half_bytes(half: bool) -> u32
    ensures { result ≡ flag 1 half }
{
    if half { 2 } else { 0 }
}

/// BLX to a target, which is Thumb code; `half` is H. The result is the cost (ARM manual, A4.1 "BLX (1)").
#[inline]
pub fn link_target(arch: Arch, s: &mut Registers, half: bool, offset: u32) -> u32
    requires { offset < 2 ^ 24 }
    ensures registers { s.new ≡ (link_target_meaning s.old half offset).after [] }
    ensures cost { result ≡ cost_of arch (link_target_meaning s.old half offset) }
{
    let target = s
        .r15()
        .wrapping_add(distance24(offset))
        .wrapping_add(half_bytes(half));
    link(s);
    set_thumb(s, true);
    s.jump(target);
    Class::Branch.cost(arch, false)
}

/// The second half of Thumb's BLX, which goes to ARM code; the result is the cost (ARM manual, A7.1 "BL, BLX (1)").
#[inline]
pub fn link_suffix(arch: Arch, s: &mut Registers, offset: u16) -> u32
    requires { offset < 2 ^ 11 }
    ensures registers { s.new ≡ (link_suffix_meaning s.old offset).after [] }
    ensures cost { result ≡ cost_of arch (link_suffix_meaning s.old offset) }
{
    let target = s.get(14).wrapping_add(2 * offset as u32);
    link(s);
    set_thumb(s, false);
    s.jump(target);
    Class::Branch.cost(arch, false)
}
