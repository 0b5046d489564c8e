//! The machine's parts in bytes: the processors, the memories, the small units and the DMA channels each in a module of its own.

ghost use Rattle.std.specs.Prelude.{◌≡◌, ℕ, List, IfOk, OnOk, Some, slice_index};
ghost use Rattle.ds_base.specs.Schedules.{IsEarly};
ghost use Rattle.ds_base.specs.declared.keys.KeyLine.{KeyLine};
ghost use Rattle.ds_machine.specs.Processors.{processor_taken};
ghost use Rattle.ds_machine.specs.Saved.{MachinesAreSaved, machine_format, released_again, script_from};
ghost use Rattle.ds_machine.specs.SavedParts.{asked_of};
ghost use Rattle.ds_machine.specs.SavedParts.{around_of, machine_parts, made_io};
ghost use Rattle.ds_machine.specs.States.{with_file};
ghost use Rattle.ds_machine.specs.Taken.{taken_machine};
ghost use Rattle.ds_state.specs.Formats.{bytes_written};
ghost use Rattle.ds_state.specs.Reading.{GivesIn, read_format};

mod bounds;
mod channels;
mod memories;
mod processors;
mod units;

use crate::parts::{Nine, Parts, Seven};
use crate::saved::channels::SavedChannels;
use crate::saved::memories::SavedMemories;
use crate::saved::processors::{SavedProcessors, TakenProcessor};
use crate::saved::units::SavedUnits;
use crate::scripts::Script;
use decode_cache::Decoder;
use ds_base::{Interrupt, Keys, Tick};
use ds_card::Card;
use ds_dma::Dma;
use ds_ports::{Io, IoParts, ProcessorIo};
use ds_state::{Packer, Unpacked, Unpacker};
use ds_timers::Irq;
use gx_fifo::{Asked, Gx};
use std::alloc::{AllocError, Global};
use video2d::Video;
use vram_banks::Vram;

/// What the rest of the machine asks of the geometry FIFO at a tick, by ARM9, its interrupt words and its DMA channels.
fn asked_of(at: Tick, nine: &TakenProcessor, irq: &Irq, dma: &Dma) -> Asked
    ensures { result ≡ asked_of at.0 (processor_taken nine.now) irq.now dma.now }
{
    Asked {
        wakes: nine.halted && irq.wakes(),
        hears: nine.halted && irq.enabled() & Interrupt::GeometryFifo.bit() != 0,
        late: nine.is_late(at) && !dma.running(),
        waits: dma.awaits_geometry(),
    }
}

/// What a stall's end left.
fn released_again(at: Tick, gx: &Gx, dma: &Dma) -> u64
    ensures { result ≡ released_again at.0 gx.now dma.now }
{
    if gx.stalled() {
        return 0;
    }
    match dma.due() {
        Some(due) => { if due.tick.0 < at.0 { at.0 } else { 0 } }
        None => 0,
    }
}

/// The units behind the ports: the geometry FIFO's bit of ARM9's IF, and what a stall's end left, are made anew.
fn made_io(
    at: Tick,
    processors: &SavedProcessors,
    vram: Vram,
    units: SavedUnits,
    channels: SavedChannels,
    video: Video,
    gx: Gx,
    card: Card,
) -> Io
    ensures { result ≡ made_io at.0 processors.now vram units channels video gx card }
{
    let mut irq = units.irq_of_nine;
    irq.level21(gx.level());
    let released = released_again(at, &gx, &channels.nine);
    let fill = channels.fill;
    let nine = ProcessorIo::of(
        irq,
        units.timers_of_nine,
        units.keycnt_of_nine,
        processors.nine.halted,
        channels.nine,
    );
    let seven = ProcessorIo::of(
        units.irq_of_seven,
        units.timers_of_seven,
        units.keycnt_of_seven,
        processors.seven.halted,
        channels.seven,
    );
    Io::of(IoParts {
        video,
        vram,
        wramcnt: units.wramcnt,
        ipc: units.ipc,
        pressed: units.pressed,
        fill,
        card,
        divider: units.divider,
        root: units.root,
        gx,
        released,
        nine,
        seven,
    })
}

impl Parts {
    /// Puts the parts. The error is want of memory.
    #[tactic(auto, using(crate::proofs::SavedParts::machine_writes), unfolding(crate::specs::SavedParts::machine_parts))]
    pub fn pack(&self, into: &mut Packer) -> Result<(), AllocError>
        ensures { (file : List ℕ) (keys : List KeyLine) (nine seven events at : ℕ)
            → OnOk result (into.new ≡ bytes_written (machine_format file keys nine seven events at) into.old (with_file file self.now)) }
    {
        self.put_processors(into)?;
        self.put_memories(into)?;
        self.put_units(into)?;
        self.put_channels(into)?;
        self.io.video().pack(into)?;
        self.io.gx().pack(into)?;
        self.io.card().pack(into)?;
        Ok(())
    }

    /// Takes what `pack` puts, with a cartridge's file, a whole key script, and the counts of steps of ARM9, of ARM7 and of all others.
    #[tactic(auto, using(crate::proofs::SavedParts::machine_reads))]
    pub fn unpack(
        alloc: Global,
        file: &[u8],
        keys: Keys,
        steps: [u64; 3],
        from: &mut Unpacker,
        at: Tick,
    ) -> Result<Parts, Unpacked>
        requires { IsEarly (Some at) }
        ensures { GivesIn (λ p. with_file file.now p) result from.new
            (read_format (machine_format file.now keys (slice_index steps 0) (slice_index steps 1) (slice_index steps 2) at.0) at.0 from.old) }
    {
        let taken = Taken::take(alloc, from, at, file)?;
        let parts = taken.made(alloc, keys, steps, at)?;
        Ok(parts)
    }
}

/// All that is read of a machine.
#[derive(Drop)]
pub struct Taken {
    pub processors: SavedProcessors,
    pub memories: SavedMemories,
    pub units: SavedUnits,
    pub channels: SavedChannels,
    pub video: Video,
    pub gx: Gx,
    pub card: Card,
}

impl Taken {
    /// Takes all of it, with the cartridge's file.
    #[tactic(auto, unfolding(crate::specs::SavedParts::machine_parts))]
    fn take(alloc: Global, from: &mut Unpacker, at: Tick, file: &[u8]) -> Result<Taken, Unpacked>
        requires { IsEarly (Some at) }
        ensures { (keys : List KeyLine) (nine seven events : ℕ)
            → GivesIn (taken_machine (around_of file.now keys nine seven events) at.0) result from.new
            (read_format (machine_parts (around_of file.now keys nine seven events) at.0) at.0 from.old) }
    {
        let processors = SavedProcessors::take(from, at)?;
        let memories = SavedMemories::take(alloc, from, at)?;
        let units = SavedUnits::take(alloc, from, at, processors.seven.halted)?;
        let channels = SavedChannels::take(from, at, processors.seven.is_late(at))?;
        let video = Video::unpack(alloc, from, at)?;
        let asked = asked_of(at, &processors.nine, &units.irq_of_nine, &channels.nine);
        let gx = Gx::unpack_by(alloc, from, at, asked)?;
        let card = Card::unpack(from, at, file)?;
        Ok(Taken {
            processors,
            memories,
            units,
            channels,
            video,
            gx,
            card,
        })
    }

    /// The parts, with a key script and the counts of steps. The error is want of memory.
    fn made(self, alloc: Global, keys: Keys, steps: [u64; 3], at: Tick) -> Result<Parts, AllocError>
        ensures { IfOk result (λ p. (file : List ℕ) → with_file file p
            ≡ taken_machine (around_of file keys (slice_index steps 0) (slice_index steps 1) (slice_index steps 2)) at.0 self) }
    {
        let of_nine = Decoder::new(alloc)?;
        let of_seven = Decoder::new(alloc)?;
        let script = Script::from_tick(keys, at);
        Ok(self.with_caches(of_nine, of_seven, script, steps, at))
    }

    /// The parts, with both decoders, the lines of the script that are to come, and the counts of steps.
    fn with_caches(
        self,
        of_nine: Decoder<5>,
        of_seven: Decoder<4>,
        script: Script,
        steps: [u64; 3],
        at: Tick,
    ) -> Parts
        ensures { (file : List ℕ) (keys : List KeyLine) → script ≡ script_from at.0 keys → with_file file result
            ≡ taken_machine (around_of file keys (slice_index steps 0) (slice_index steps 1) (slice_index steps 2)) at.0 self }
    {
        let memories = self.memories;
        let processors = self.processors;
        let io = made_io(
            at,
            &processors,
            memories.vram,
            self.units,
            self.channels,
            self.video,
            self.gx,
            self.card,
        );
        let [steps_of_nine, steps_of_seven, events] = steps;
        Parts {
            nine: Nine {
                processor: processors.nine.with_steps(steps_of_nine),
                decoder: of_nine,
                cp15: processors.cp15,
                itcm: memories.itcm,
                dtcm: memories.dtcm,
            },
            seven: Seven {
                processor: processors.seven.with_steps(steps_of_seven),
                decoder: of_seven,
            },
            map: memories.map,
            io,
            script,
            events,
            slot: None,
        }
    }
}

/// Does nothing; its contract states the laws of a machine's bytes: bytes that are read are those of what is read; and what is read has the counts of
/// steps and the cartridge's file that were handed in.
#[tactic(auto, using(crate::proofs::SavedBytes::machines_saved))]
pub fn saved_laws()
    ensures { MachinesAreSaved }
{}
