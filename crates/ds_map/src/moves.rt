//! How a DMA channel moves a unit.

ghost use Rattle.std.specs.Prelude.{◌≡◌, ◌≤◌, false, IsSome, Some};
ghost use Rattle.ds_base.specs.Schedules.{IsEarly};
ghost use Rattle.ds_dma.specs.States.{dma_due};
ghost use Rattle.ds_dma.specs.States.{most_waits};
ghost use Rattle.ds_map.specs.Accesses.{map_value};
ghost use Rattle.ds_map.specs.Moves.{unit_moved, unit_read, unit_refusal, unit_waits};
ghost use Rattle.ds_map.specs.MapLaws.{map_seen, unreached_oam, unreached_palette, unreached_wram};
ghost use Rattle.ds_ports.specs.Guards.{is_overfull};
ghost use Rattle.ds_ports.specs.Io.{io_of};

use crate::maps::{Map, wait_at};
use ds_base::{Proc, Stop, Tick};
use ds_dma::Unit;
use ds_ports::Io;

/// A unit that was read.
#[derive(Clone, Copy)]
struct UnitRead {
    /// What was read.
    value: u32,
    /// How many ticks its two accesses wait together.
    waits: u32,
}

impl Map {
    /// Reads a unit, and tells how long that and its write wait.
    #[inline(always)]
    fn read_unit(&self, io: &mut Io, proc: Proc, now: Tick, unit: Unit) -> UnitRead
        requires { IsEarly (Some now) }
        ensures value { result.value ≡ map_value proc now (map_seen proc self.now io.old) unit.from unit.width }
        ensures next { map_seen proc self.now io.new ≡ unit_read proc now unit (map_seen proc self.now io.old) }
        ensures waits { result.waits ≡ unit_waits proc now unit (map_seen proc self.now io.old) }
        ensures most { result.waits ≤ most_waits }
    {
        let read = self.read(io, proc, now, unit.from, unit.width);
        let waits = read.waits + wait_at(io, proc, unit.to, unit.width);
        let value = read.number;
        UnitRead { value, waits }
    }

    /// Moves a unit for the channel of a processor that is due, at a tick: reads it, takes it from the channel's plan, and writes it. Where the write
    /// is refused, the unit is still in the plan. What the processor doesn't reach stays. There is room for what it may add to geometry's entries.
    pub fn move_unit(&mut self, io: &mut Io, proc: Proc, now: Tick, unit: Unit) -> Option<Stop>
        requires due { IsSome (dma_due (io_of io.old proc).dma) }
        requires early { IsEarly (Some now) }
        requires room { is_overfull proc io.old ≡ false }
        ensures stop { result ≡ unit_refusal proc now unit (map_seen proc self.old io.old) }
        ensures map { map_seen proc self.new io.new ≡ unit_moved proc now unit (map_seen proc self.old io.old) }
        ensures wram { unreached_wram proc self.new ≡ unreached_wram proc self.old }
        ensures palette { unreached_palette proc self.new ≡ unreached_palette proc self.old }
        ensures oam { unreached_oam proc self.new ≡ unreached_oam proc self.old }
    {
        let read = self.read_unit(io, proc, now, unit);
        let before = io.move_channel(proc, now, read.waits);
        let stop = self.put(io, proc, now, unit.to, unit.width, read.value);
        if stop.is_some() {
            io.put_back(proc, before);
        }
        stop
    }
}
