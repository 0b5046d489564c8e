//! How long accesses wait, by what an address names.

ghost use Rattle.std.specs.Prelude.{ℕ, ◌≡◌, ◌≤◌};
ghost use Rattle.ds_base.specs.declared.processors.Proc.{Proc};
ghost use Rattle.ds_places.specs.Waits.{chosen_wait, wait_of, waits_by_width};
ghost use Rattle.ds_places.specs.declared.kinds.Place.TheVariants.{Cell};

use crate::kinds::Place;
use ds_base::{Memory, Proc, Width};

/// How many ticks an access of a processor or of its DMA waits at a place, beside what its instruction costs: at most 8. (GBATEK, "DS Memory
/// Timings", has the idea; the numbers are our choice.) A fetch waits by its own width. The tightly coupled memories aren't places of the
/// address tables; an access that CP15 leads there doesn't wait.
pub fn wait(proc: Proc, place: Place, width: Width) -> u32
    ensures value { result ≡ wait_of proc place width }
    ensures most { result ≤ 8 }
{
    match (place, proc) {
        (Place::Cell { memory, .. }, _) => memory_wait(proc, memory, width),
        (Place::Banks { .. }, _) => narrow_wait(width),
        (Place::Port(_), Proc::Nine) => 2,
        (Place::Port(_), Proc::Seven) => 0,
        (Place::Rom(_) | Place::Nothing, _) => 0,
    }
}

/// The wait at a byte of a memory.
#[inline(always)]
pub fn memory_wait(proc: Proc, memory: Memory, width: Width) -> u32
    ensures value { (at : ℕ) → result ≡ wait_of proc (Cell memory at) width }
    ensures most { result ≤ 8 }
{
    match (memory, proc) {
        (Memory::Main, Proc::Nine) => 4,
        (Memory::Main, Proc::Seven) => 8,
        (Memory::Shared, Proc::Nine) => 2,
        (Memory::Shared, Proc::Seven) => 0,
        (Memory::Own7 | Memory::Itcm | Memory::Dtcm, _) => 0,
        (Memory::Palette | Memory::Vram | Memory::Oam, _) => narrow_wait(width),
    }
}

/// The wait at a memory whose bus is 16 bits wide.
fn narrow_wait(width: Width) -> u32
    ensures value { (proc : Proc) → result ≡ chosen_wait proc width (waits_by_width 2) }
    ensures most { result ≤ 8 }
{
    match width {
        Width::Word => 4,
        Width::Byte | Width::Half => 2,
    }
}
