//! What is seen at an address without a read.

ghost use Rattle.std.specs.Prelude.{◌≡◌, true};
ghost use Rattle.ds_places.specs.AddressTables.{IsInside};
ghost use Rattle.ds_base.specs.declared.processors.Proc.TheVariants.{Nine};
ghost use Rattle.ds_map.specs.Accesses.{value_at};
ghost use Rattle.ds_map.specs.Looks.{map_looked, nine_looked, where_placed};
ghost use Rattle.ds_map.specs.MapLaws.{is_reached, map_seen};

use super::{Map, rom_value};
use crate::blocks::Block;
use cp15_tcm::{Cp15, Tcm};
use ds_base::{DTCM_BYTES, ITCM_BYTES, Proc, Tick, Width};
use ds_places::{Place, place};
use ds_ports::{Io, aligned_down};

impl Map {
    /// What stands at a place at a tick.
    #[tactic(auto, using(crate::proofs::Reached::cells_reached))]
    fn look_at(&self, io: &Io, proc: Proc, now: Tick, place: Place, width: Width) -> Option<u32>
        requires inside { IsInside place }
        requires reached { is_reached proc place ≡ true }
        ensures { result ≡ where_placed place (value_at proc now place (map_seen proc self.now io.now) width) }
    {
        match place {
            Place::Cell { memory, at } => Some(self.cell(memory, at, width)),
            Place::Banks { space, at } => Some(io.vram().read(space, at, width)),
            Place::Port(at) => Some(io.value(proc, now, at, width)),
            Place::Rom(at) => Some(rom_value(proc, aligned_down(width, at), width)),
            Place::Nothing => None,
        }
    }

    /// What a processor would read at an address at a tick, past the tightly coupled memories, where anything answers there. Nothing is read: of a
    /// port too all stays as it is.
    #[tactic(auto, using(crate::proofs::Reached::place_reached), unfolding(crate::specs::Accesses::map_value))]
    pub fn look(&self, io: &Io, proc: Proc, now: Tick, at: u32, width: Width) -> Option<u32>
        ensures { result ≡ map_looked proc now (map_seen proc self.now io.now) at width }
    {
        self.look_at(io, proc, now, place(proc, io.wramcnt(), at), width)
    }
}

/// What ARM9 would read at an address at a tick, where anything answers there. Nothing is read.
pub fn looked_by_nine(
    cp: &Cp15,
    map: &Map,
    io: &Io,
    itcm: &Block<ITCM_BYTES>,
    dtcm: &Block<DTCM_BYTES>,
    now: Tick,
    at: u32,
    width: Width,
) -> Option<u32>
    ensures { result ≡ nine_looked (record {
      map = map_seen Nine map.now io.now;
      cp15 = cp.now;
      itcm = itcm.now;
      dtcm = dtcm.now;
      now = now;
    }) at width }
{
    match cp.tcm_place(at, false, false) {
        Tcm::Itcm(place) => Some(itcm.number(place as usize, width)),
        Tcm::Dtcm(place) => Some(dtcm.number(place as usize, width)),
        Tcm::Past => map.look(io, Proc::Nine, now, at, width),
    }
}
