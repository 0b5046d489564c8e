//! The lists of LDM and STM: bit r of a list stands for register r (ARM manual, A5.4 "Addressing Mode 4").

ghost use Rattle.std.specs.Prelude.{◌≡◌, ◌<◌, ◌≤◌, ◌*◌, ◌^◌, ◌%◌, count_ones};
ghost use Rattle.ds_base.specs.Bits.{bit};
ghost use Rattle.arm_core.specs.Addressing.{list_bytes, lowest};
ghost use Rattle.arm_core.specs.Multiples.{is_first, is_last, keeps_base, stores_new_base, transferred};

use ds_base::Arch;

/// Whether a register is in a list.
#[inline(always)]
pub fn has(list: u16, r: u8) -> bool
    requires { r < 16 }
    ensures { result ≡ bit r list }
{
    (list >> r) & 1 == 1
}

/// By how many bytes a list moves its base: four a register, and 40h where it is empty.
#[inline(always)]
pub fn list_bytes(list: u16) -> u32
    ensures bytes { result ≡ list_bytes list }
    ensures within { result ≤ 64 }
{
    if list == 0 {
        0x40
    } else {
        4 * list.count_ones()
    }
}

/// The lowest address of a list's transfer, from its base: with `pre` the base itself is left out, with `up` addresses rise from it.
#[inline(always)]
pub fn lowest(pre: bool, up: bool, base: u32, bytes: u32) -> u32
    requires { bytes ≤ 64 }
    ensures { result ≡ lowest pre up base bytes }
{
    match (pre, up) {
        (false, true) => base,
        (true, true) => base.wrapping_add(4),
        (false, false) => base.wrapping_add(4).wrapping_sub(bytes),
        (true, false) => base.wrapping_sub(bytes),
    }
}

/// The list that is transferred: in place of an empty one ARMv4 transfers r15.
#[inline(always)]
pub fn transferred(arch: Arch, list: u16) -> u16
    ensures { result ≡ transferred arch list }
{
    match arch {
        Arch::V4 if list == 0 => 0x8000,
        _ => list,
    }
}

/// Two to the power of a register's number.
#[tactic(auto, using(crate::proofs::Powers::small_power))]
#[inline(always)]
fn power(r: u8) -> u32
    requires { r < 16 }
    ensures power { result ≡ 2 ^ r }
    ensures some { 0 < result }
{
    1 << r
}

/// Whether a register is the first of a list.
#[inline(always)]
fn is_first(rn: u8, list: u16) -> bool
    requires { rn < 16 }
    ensures { result ≡ is_first rn list }
{
    has(list, rn) && list as u32 % power(rn) == 0
}

/// Whether a register is the last of a list.
#[inline(always)]
fn is_last(rn: u8, list: u16) -> bool
    requires { rn < 16 }
    ensures { result ≡ is_last rn list }
{
    has(list, rn) && list >> rn == 1
}

/// Whether the base that LDM writes back stays, where it is in the list too. (Our choice.)
#[inline(always)]
pub fn keeps_base(arch: Arch, rn: u8, list: u16) -> bool
    requires { rn < 16 }
    ensures { result ≡ keeps_base arch rn list }
{
    match arch {
        Arch::V4 => !has(list, rn),
        Arch::V5 => {
            !has(list, rn) || is_first(rn, list) && is_last(rn, list) || !is_last(rn, list)
        }
    }
}

/// Whether STM stores the base as it is after the instruction, where it is in the list. (Our choice.)
#[inline(always)]
pub fn stores_new_base(arch: Arch, rn: u8, list: u16) -> bool
    requires { rn < 16 }
    ensures { result ≡ stores_new_base arch rn list }
{
    match arch {
        Arch::V4 => !is_first(rn, list),
        Arch::V5 => false,
    }
}
