//! The four channels in bytes.

ghost use Rattle.std.specs.Prelude.{◌≡◌, ◌≤◌, ◌^◌, Bool, Some, OnOk, true};
ghost use Rattle.ds_base.specs.Schedules.{IsEarly};
ghost use Rattle.ds_dma.specs.Saved.{DmasAreSaved, comes_by, dma_format, dma_format_by, last_waits, late_runs_by, numbered_last, waits_by};
ghost use Rattle.ds_dma.specs.States.{WaitsBriefly, dma_due, last_tick, most_waits};
ghost use Rattle.ds_state.specs.Formats.{bytes_written};
ghost use Rattle.ds_state.specs.Reading.{GivesRead, read_format};

use crate::channels::{LastUnit, runs, saved};
use crate::dma::Dma;
use ds_base::{Proc, Tick};
use ds_state::{Packer, Unpacked, Unpacker, holds};
use std::alloc::AllocError;

/// The last unit of a tick and its waits; none where the tick is 0.
fn last_of(tick: u64, waits: u32) -> Option<LastUnit>
    requires early { tick ≤ 2 ^ 56 }
    requires brief { waits ≤ most_waits }
    ensures value { result ≡ numbered_last tick waits }
    ensures brief { WaitsBriefly result }
    ensures early { IsEarly (last_tick result) }
{
    if tick == 0 {
        None
    } else {
        Some(LastUnit {
            tick: Tick(tick),
            waits,
        })
    }
}

/// Whether a last unit of a tick may have so many waits.
fn may_wait(tick: u64, waits: u32) -> bool
    ensures value { result ≡ waits_by tick 0 waits }
    ensures brief { result ≡ true → waits ≤ most_waits }
{
    if tick == 0 { waits == 0 } else { waits <= 16 }
}

impl Dma {
    /// Whether the channel that is due may be so in a state at a tick: one of ARM7 not before it.
    fn comes_by(&self, at: Tick) -> bool
        ensures { result ≡ comes_by self.now.proc at.0 (dma_due self.now) }
    {
        match (self.proc, self.due()) {
            (Proc::Seven, Some(due)) => due.tick.0 >= at.0,
            _ => true,
        }
    }

    /// Puts the four channels, and the last unit's tick and waits, 160 bytes. The error is want of memory.
    #[tactic(auto, unfolding(crate::specs::Saved::dma_format_by))]
    pub fn pack(&self, into: &mut Packer) -> Result<(), AllocError>
        ensures { (asked : Bool → Bool) → OnOk result (into.new ≡ bytes_written (dma_format_by self.now.proc asked) into.old self.now) }
    {
        saved::put(into, self.proc, 0, self.channel(0))?;
        saved::put(into, self.proc, 1, self.channel(1))?;
        saved::put(into, self.proc, 2, self.channel(2))?;
        saved::put(into, self.proc, 3, self.channel(3))?;
        let (tick, waits) = match self.last {
            Some(last) => (last.tick.0, last.waits),
            None => (0, 0),
        };
        into.put_u64(tick)?;
        into.put_u32(waits)?;
        Ok(())
    }

    /// Takes what `pack` puts, for a processor. The error is where the first field begins that isn't whole or breaks its rule: bits that aren't
    /// kept; of a channel that isn't enabled a next address or units left that aren't 0; of an enabled one no units left, or more than its greatest
    /// count and one, or a burst of more than these or than 112; a flag that is no flag; a channel that runs and isn't enabled, or has a burst and
    /// doesn't run; a trigger or a last unit after this tick, or a trigger of one that doesn't run; waits over 16, or without a last unit; and, told
    /// there, a channel of ARM7 that is due before this tick.
    pub fn unpack(from: &mut Unpacker, at: Tick, proc: Proc) -> Result<Dma, Unpacked>
        requires { IsEarly (Some at) }
        ensures { GivesRead (λ d. d) result from.new (read_format (dma_format proc) at.0 from.old) }
    {
        Dma::unpack_by(from, at, proc, false)
    }

    /// Takes the same of a processor that may be late: where it is, it is an error, too, where no channel runs, told where the last one says so.
    #[tactic(auto, unfolding(crate::specs::Saved::dma_format_by))]
    pub fn unpack_by(from: &mut Unpacker, at: Tick, proc: Proc, late: bool) -> Result<Dma, Unpacked>
        requires { IsEarly (Some at) }
        ensures { GivesRead (λ d. d) result from.new (read_format (dma_format_by proc (late_runs_by late)) at.0 from.old) }
    {
        let zero = saved::take(from, at, proc, 0)?;
        let one = saved::take(from, at, proc, 1)?;
        let two = saved::take(from, at, proc, 2)?;
        let before = runs(zero) || runs(one) || runs(two);
        let three = saved::take_last(from, at, proc, 3, late, before)?;
        let tick = from.take_earlier(true, at.0)?;
        let offset = from.place();
        let waits = from.take_u32()?;
        holds(may_wait(tick, waits), offset)?;
        let dma = Dma {
            proc,
            channels: [zero, one, two, three],
            last: last_of(tick, waits),
        };
        holds(dma.comes_by(at), offset)?;
        Ok(dma)
    }
}

/// Does nothing; its contract states that the channels' bytes at a tick are read as they were, whatever stands behind them, where no trigger and no
/// last unit is later, and none of ARM7's is due earlier; and that bytes which are read are those of what is read.
#[tactic(auto, using(crate::proofs::SavedLaws::dmas_saved))]
pub fn saved_laws()
    ensures { DmasAreSaved }
{}
