//! Regions of the address tables of which more is asked than what stands there. Most accesses are of these, so users ask for them before the whole
//! table.

ghost use Rattle.std.specs.Prelude.{ℕ, ◌≡◌, ◌<◌, ◌^◌, IfSome};
ghost use Rattle.ds_base.specs.Memories.{memory_size};
ghost use Rattle.ds_base.specs.declared.memories.Memory.TheVariants.{Main, Own7};
ghost use Rattle.ds_base.specs.declared.processors.Proc.{Proc};
ghost use Rattle.ds_base.specs.declared.processors.Proc.TheVariants.{Seven};
ghost use Rattle.ds_places.specs.AddressTables.{is_of_region, main_region, own_region, place_of, ports_region, seven_rom_region};
ghost use Rattle.ds_places.specs.declared.kinds.Place.TheVariants.{Cell, Port};

use ds_base::{MAIN_BYTES, OWN7_BYTES, Proc};

/// The first address of main memory. (GBATEK, "DS Memory Map"; so are those below.)
pub const MAIN_FIRST: u32 = 0x0200_0000;

/// The last address of main memory.
pub const MAIN_LAST: u32 = 0x02FF_FFFF;

/// The first address of ARM7's own work RAM.
pub const OWN7_FIRST: u32 = 0x0380_0000;

/// The last address of ARM7's own work RAM.
pub const OWN7_LAST: u32 = 0x03FF_FFFF;

/// The first address of the ports.
pub const PORTS_FIRST: u32 = 0x0400_0000;

/// The last address of the ports.
pub const PORTS_LAST: u32 = 0x04FF_FFFF;

/// The last address of ARM7's boot ROM, which begins at 0.
pub const SEVEN_ROM_LAST: u32 = 0x3FFF;

/// Whether an address is of main memory.
#[inline(always)]
pub fn is_main(at: u32) -> bool
    ensures { result ≡ is_of_region main_region at }
{
    at >= MAIN_FIRST && at <= MAIN_LAST
}

/// Whether an address is of ARM7's own work RAM, for ARM7.
#[inline(always)]
pub fn is_own(at: u32) -> bool
    ensures { result ≡ is_of_region own_region at }
{
    at >= OWN7_FIRST && at <= OWN7_LAST
}

/// Whether an address is of the ports.
#[inline(always)]
pub fn is_port(at: u32) -> bool
    ensures { result ≡ is_of_region ports_region at }
{
    at >= PORTS_FIRST && at <= PORTS_LAST
}

/// Whether an address is of ARM7's boot ROM, for ARM7.
#[inline(always)]
pub fn is_seven_rom(at: u32) -> bool
    ensures { result ≡ is_of_region seven_rom_region at }
{
    at <= SEVEN_ROM_LAST
}

/// The cell of main memory at an address, where it is there.
#[inline(always)]
#[tactic(auto, using(crate::proofs::Rows::main_place))]
pub fn main_cell(at: u32) -> Option<u32>
    ensures place { IfSome result (λ cell. (proc : Proc) → (wramcnt : ℕ) → place_of proc wramcnt at ≡ Cell Main cell) }
    ensures inside { IfSome result (λ cell. cell < memory_size Main) }
{
    if at >= MAIN_FIRST && at <= MAIN_LAST {
        return Some((at - MAIN_FIRST) % MAIN_BYTES as u32);
    }
    None
}

/// The cell of ARM7's own work RAM at an address, where it is there.
#[inline(always)]
#[tactic(auto, using(crate::proofs::Rows::own_place))]
pub fn own_cell(proc: Proc, at: u32) -> Option<u32>
    ensures seven { IfSome result (λ cell. proc ≡ Seven) }
    ensures place { IfSome result (λ cell. (wramcnt : ℕ) → place_of proc wramcnt at ≡ Cell Own7 cell) }
    ensures inside { IfSome result (λ cell. cell < memory_size Own7) }
{
    if proc == Proc::Seven && at >= OWN7_FIRST && at <= OWN7_LAST {
        return Some((at - OWN7_FIRST) % OWN7_BYTES as u32);
    }
    None
}

/// The offset of a port at an address, where one is there.
#[inline(always)]
#[tactic(auto, using(crate::proofs::Rows::port_place))]
pub fn port_at(at: u32) -> Option<u32>
    ensures place { IfSome result (λ port. (proc : Proc) → (wramcnt : ℕ) → place_of proc wramcnt at ≡ Port port) }
    ensures inside { IfSome result (λ port. port < 2 ^ 24) }
{
    if at >= PORTS_FIRST && at <= PORTS_LAST {
        return Some(at - PORTS_FIRST);
    }
    None
}
