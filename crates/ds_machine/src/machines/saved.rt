//! The machine in bytes.

ghost use Rattle.std.specs.Prelude.{◌≡◌, ◌<◌, ◌≤◌, ◌+◌, ◌*◌, ℕ, List, IfOk, OnOk, Some, slice_index};
ghost use Rattle.ds_base.specs.Schedules.{IsEarly};
ghost use Rattle.ds_base.specs.declared.keys.KeyLine.{KeyLine};
ghost use Rattle.ds_machine.specs.Back.{HasMachineBounds};
ghost use Rattle.ds_machine.specs.CountingLaws.{IsRunning};
ghost use Rattle.ds_machine.specs.Saved.{machine_format};
ghost use Rattle.ds_machine.specs.States.{with_file};
ghost use Rattle.ds_state.specs.Formats.{bytes_written};
ghost use Rattle.ds_state.specs.Reading.{GivesIn, read_format};

use crate::machines::Machine;
use crate::parts::Parts;
use ds_base::{Keys, Tick, known};
use ds_state::{Packer, Unpacked, Unpacker};
use std::alloc::{AllocError, Global};

impl Machine {
    /// Puts the machine: both processors and CP15, the memories, the small units, the DMA channels, the display, the geometry engine with what waits
    /// for it, and the card. The memories are put from where they lie. What isn't put is the cartridge's file, the key script, and the counts of
    /// steps. The error is want of memory.
    pub fn pack(&self, into: &mut Packer) -> Result<(), AllocError>
        ensures { (file : List ℕ) (keys : List KeyLine) (nine seven events at : ℕ)
            → OnOk result (into.new ≡ bytes_written (machine_format file keys nine seven events at) into.old (with_file file self.now)) }
    {
        self.parts.pack(into)
    }

    /// Takes what `pack` puts, at a tick, with a cartridge's file, a whole key script, of which the lines from that tick on are to come, and the
    /// counts of steps of ARM9, of ARM7 and of all others. No cartridge is inserted. What is kept beside the state is found anew. The machine goes
    /// on: its units are settled, no halted processor is to wake, and nobody is due before the tick. The error is want of memory, or where the first
    /// field begins that isn't whole or breaks its rule: those of the parts, and those over several parts, of which each is told at the last of its
    /// fields: a bit that stands in IE and IF of a halted processor, at ARM7's IF, and for ARM9 where it is said how many entries wait for geometry;
    /// a due tick of a processor that is earlier though nothing holds it, at the running flag of ARM7's last channel, and for ARM9 at those entries;
    /// and there a channel that waits for the geometry FIFO though it is half empty.
    pub fn unpack(
        alloc: Global,
        file: &[u8],
        keys: Keys,
        steps: [u64; 3],
        from: &mut Unpacker,
        at: Tick,
    ) -> Result<Machine, Unpacked>
        requires early { IsEarly (Some at) }
        requires counts { slice_index steps 0 + slice_index steps 1 + slice_index steps 2 ≤ 24 * at.0 }
        requires bytes { (i : ℕ) → slice_index from.old.bytes i < 256 }
        ensures reads { GivesIn (λ m. with_file file.now m) result from.new
            (read_format (machine_format file.now keys (slice_index steps 0) (slice_index steps 1) (slice_index steps 2) at.0) at.0 from.old) }
        ensures running { IfOk result (λ m. IsRunning at.0 (with_file file.now m)) }
    {
        let parts = Parts::unpack(alloc, file, keys, steps, from, at)?;
        known!(parts.laws());
        let next_event = parts.next_event();
        Ok(Machine { parts, next_event })
    }

    /// Does nothing; its contract states what holds of each number of every machine, so that it has its bytes. It walks over what waits for geometry
    /// and over the geometry lists.
    pub fn bounds(&self)
        ensures { HasMachineBounds self.now }
    {
        known!(self.parts.bounds());
    }
}
