//! The views of the processors.

ghost use Rattle.std.specs.Prelude.{◌≡◌, ◌≤◌, ◌+◌, ◌%◌, ◌^◌, false, true, Some};
ghost use Rattle.ds_base.specs.Schedules.{IsEarly};
ghost use Rattle.ds_base.specs.declared.ticks.Tick.{Tick};
ghost use Rattle.ds_base.specs.declared.processors.Proc.TheVariants.{Nine, Seven};
ghost use Rattle.ds_map.specs.MapLaws.{map_seen};
ghost use Rattle.ds_map.specs.Views.{nine_memory};
ghost use Rattle.ds_map.specs.Waits.{tcm_wait};
ghost use Rattle.cp15_tcm.specs.TightlyCoupled.{tcm_of};

use crate::blocks::Block;
use crate::maps::{Given, Map, wait_at};
use arm_core::Bus;
use cp15_tcm::{Cp15, Tcm};
use ds_base::{DTCM_BYTES, ITCM_BYTES, Proc, Stop, Tick, Width};
use ds_ports::Io;

/// What ARM7 reaches: the memories and the units behind the ports, at the tick of its step. As a bus it adds up how long its accesses wait.
#[derive(Drop)]
pub struct SevenView<'a> {
    /// The memories.
    pub map: &'a mut Map,
    /// The units behind the ports.
    pub io: &'a mut Io,
    /// The tick of the step.
    pub now: Tick,
    /// How many ticks the bus's accesses waited together so far.
    pub waits: u32,
    ghost early: { IsEarly (Some now) },
}

impl Bus for SevenView<'_> {
    ghost use Rattle.std.specs.Prelude.{◌∷◌};
    ghost use Rattle.ds_map.specs.MapLaws.{map_seen, unreached};
    ghost use Rattle.ds_map.specs.Views.{SevenReach, seven_memory};
    ghost use Rattle.ds_map.specs.Waits.{Waited, seven_wait, waiting};

    ghost State = { Waited SevenReach };

    ghost state = { λ v. record { reached = record { map = map_seen Seven v.map.now v.io.now; now = v.now }; waits = v.waits } };

    ghost memory = { waiting seven_memory seven_wait };

    ghost identity = { λ v. v.map.ghost_name ∷ v.io.ghost_name ∷ unreached Seven v.map.now };

    #[inline(always)]
    fn fetch(&mut self, at: u32, width: Width) -> u32 {
        let given = self.map.fetch(self.io, Proc::Seven, at, width);
        self.waits = self.waits.wrapping_add(given.waits);
        given.number
    }

    #[inline(always)]
    fn read(&mut self, at: u32, width: Width) -> u32 {
        let given = self.map.read(self.io, Proc::Seven, self.now, at, width);
        self.waits = self.waits.wrapping_add(given.waits);
        given.number
    }

    #[inline(always)]
    #[tactic(auto, using(crate::proofs::Guards::seven_refusal, crate::proofs::Guards::seven_written))]
    fn write(&mut self, at: u32, width: Width, value: u32) -> Option<Stop> {
        if let Some(waits) = self.map.put_near(Proc::Seven, at, width, value) {
            self.waits = self.waits.wrapping_add(waits);
            return None;
        }
        self.waits = self
            .waits
            .wrapping_add(wait_at(self.io, Proc::Seven, at, width));
        self.map
            .write(self.io, Proc::Seven, self.now, at, width, value)
    }
}

/// What ARM9 fetches at an address, whatever the tick, and how many ticks that waits: at most 8.
#[inline(always)]
pub fn fetched_by_nine(
    cp: &Cp15,
    map: &Map,
    io: &Io,
    itcm: &Block<ITCM_BYTES>,
    dtcm: &Block<DTCM_BYTES>,
    at: u32,
    width: Width,
) -> Given
    ensures number { (now : Tick) → result.number
        ≡ nine_memory.fetch_value (record {
          map = map_seen Nine map.now io.now;
          cp15 = cp.now;
          itcm = itcm.now;
          dtcm = dtcm.now;
          now = now;
        }) at width }
    ensures waits { result.waits ≡ tcm_wait (tcm_of cp.now at false true) io.now.wramcnt at width }
    ensures most { result.waits ≤ 8 }
{
    if cp.is_main_fetch(at) {
        return map.main_given(Proc::Nine, at, width);
    }
    match cp.tcm_place(at, false, true) {
        Tcm::Itcm(place) => at_once(itcm.number(place as usize, width)),
        Tcm::Dtcm(place) => at_once(dtcm.number(place as usize, width)),
        Tcm::Past => map.fetch(io, Proc::Nine, at, width),
    }
}

/// A number that is there without a wait.
#[inline(always)]
fn at_once(number: u32) -> Given
    ensures { result ≡ record { number = number; waits = 0 } }
{
    Given { number, waits: 0 }
}

/// How many ticks an access of ARM9's at an address waits, where a tightly coupled memory answers or past both.
#[inline(always)]
fn tcm_wait(io: &Io, tcm: Tcm, at: u32, width: Width) -> u32
    ensures value { result ≡ tcm_wait tcm io.now.wramcnt at width }
    ensures most { result ≤ 8 }
{
    match tcm {
        Tcm::Itcm(_) | Tcm::Dtcm(_) => 0,
        Tcm::Past => wait_at(io, Proc::Nine, at, width),
    }
}

/// What ARM9 reaches: CP15, its tightly coupled memories, where CP15 says, and behind them the map. As a bus it adds up how long its accesses wait,
/// and ignores a write of a port while more than 320 entries wait for geometry.
#[derive(Drop)]
pub struct NineView<'a> {
    /// The memories.
    pub map: &'a mut Map,
    /// The units behind the ports.
    pub io: &'a mut Io,
    /// ITCM.
    pub itcm: &'a mut Block<ITCM_BYTES>,
    /// DTCM.
    pub dtcm: &'a mut Block<DTCM_BYTES>,
    /// CP15.
    pub cp: &'a mut Cp15,
    /// The tick of the step.
    pub now: Tick,
    /// How many ticks the bus's accesses waited together so far.
    pub waits: u32,
    ghost early: { IsEarly (Some now) },
}

impl Bus for NineView<'_> {
    ghost use Rattle.std.specs.Prelude.{◌∷◌};
    ghost use Rattle.ds_map.specs.MapLaws.{map_seen, unreached};
    ghost use Rattle.ds_map.specs.Guards.{guarded_memory};
    ghost use Rattle.ds_map.specs.Views.{NineReach};
    ghost use Rattle.ds_map.specs.Waits.{Waited, nine_wait, waiting};

    ghost State = { Waited NineReach };

    ghost state = { λ v. record {
      reached = record { map = map_seen Nine v.map.now v.io.now; cp15 = v.cp.now; itcm = v.itcm.now; dtcm = v.dtcm.now; now = v.now };
      waits = v.waits;
    } };

    ghost memory = { waiting guarded_memory nine_wait };

    ghost identity = { λ v. v.map.ghost_name ∷ v.io.ghost_name ∷ v.cp.ghost_name ∷ v.itcm.ghost_name ∷ v.dtcm.ghost_name ∷ unreached Nine v.map.now };

    #[inline(always)]
    fn fetch(&mut self, at: u32, width: Width) -> u32 {
        let given = fetched_by_nine(self.cp, self.map, self.io, self.itcm, self.dtcm, at, width);
        self.waits = self.waits.wrapping_add(given.waits);
        given.number
    }

    #[inline(always)]
    fn read(&mut self, at: u32, width: Width) -> u32 {
        let given = if self.cp.is_main_read(at) {
            self.map.main_given(Proc::Nine, at, width)
        } else {
            match self.cp.tcm_place(at, false, false) {
                Tcm::Itcm(place) => at_once(self.itcm.number(place as usize, width)),
                Tcm::Dtcm(place) => at_once(self.dtcm.number(place as usize, width)),
                Tcm::Past => self.map.read(self.io, Proc::Nine, self.now, at, width),
            }
        };
        self.waits = self.waits.wrapping_add(given.waits);
        given.number
    }

    #[inline(always)]
    fn write(&mut self, at: u32, width: Width, value: u32) -> Option<Stop> {
        if self.cp.is_main_write(at) {
            let waits = self.map.put_main(Proc::Nine, at, width, value);
            self.waits = self.waits.wrapping_add(waits);
            return None;
        }
        let tcm = self.cp.tcm_place(at, true, false);
        self.waits = self.waits.wrapping_add(tcm_wait(self.io, tcm, at, width));
        match tcm {
            Tcm::Itcm(place) => self.itcm.set_number(place as usize, width, value),
            Tcm::Dtcm(place) => self.dtcm.set_number(place as usize, width, value),
            Tcm::Past => return self
                .map
                .write(self.io, Proc::Nine, self.now, at, width, value),
        }
        None
    }
}
