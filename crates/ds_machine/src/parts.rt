//! The machine's parts, and what is told of them.

ghost use Rattle.std.specs.Prelude.{◌≡◌, [], unwrap_or, IfOk};
ghost use Rattle.ds_ports.specs.Io.{io_at_boot};
ghost use Rattle.ds_machine.specs.Booted.{machine_blank, machine_booted};
ghost use Rattle.ds_machine.specs.Inspections.{fetch_of};
ghost use Rattle.ds_machine.specs.Processors.{state_of};
ghost use Rattle.ds_machine.specs.Sound.{HasSoundParts};
ghost use Rattle.ds_machine.specs.States.{with_file};
ghost use Rattle.ds_machine.specs.Steps.{is_blocked, line_of, processor_of};

use crate::processors::Processor;
use crate::scripts::Script;
use cp15_tcm::Cp15;
use decode_cache::Decoder;
use ds_base::{DTCM_BYTES, ITCM_BYTES, Keys, Proc, Width, known};
use ds_header::Cart;
use ds_map::{Block, Map, fetched_by_nine};
use ds_ports::Io;
use std::alloc::{AllocError, Global};
use std::marker::Model;

/// ARM9's own part.
#[derive(Drop)]
pub struct Nine {
    pub processor: Processor,
    pub decoder: Decoder<5>,
    pub cp15: Cp15,
    pub itcm: Block<ITCM_BYTES>,
    pub dtcm: Block<DTCM_BYTES>,
}

/// ARM7's own part, but for its own work RAM, which lies with the other memories.
#[derive(Drop)]
pub struct Seven {
    pub processor: Processor,
    pub decoder: Decoder<4>,
}

/// Memories, processors, units, and the cartridge that was inserted, if one was.
#[derive(Drop)]
pub struct Parts {
    pub nine: Nine,
    pub seven: Seven,
    pub map: Map,
    pub io: Io,
    pub script: Script,
    pub events: u64,
    pub slot: Option<Cart>,
}

impl Model for Parts {
    ghost use Rattle.ds_base.specs.declared.processors.Arch.TheVariants.{V4, V5};
    ghost use Rattle.ds_machine.specs.Processors.{state_of};
    ghost use Rattle.ds_machine.specs.States.{MachineState};
    ghost use Rattle.std.specs.Prelude.{◌≡◌, [], unwrap_or};

    ghost Value = { MachineState };

    ghost view = { λ m. record {
      nine = record {
        processor = state_of m.nine.processor;
        cp15 = m.nine.cp15;
        itcm = m.nine.itcm;
        dtcm = m.nine.dtcm;
      };
      seven = record { processor = state_of m.seven.processor; wram = m.map.wram };
      main = m.map.main;
      shared = m.map.shared;
      palette = m.map.palette;
      oam = m.map.oam;
      io = m.io;
      keys = m.script;
      events = m.events;
      file = unwrap_or m.slot [];
    } };

    ghost invariant = { λ m. (m.nine.processor.core.arch ≡ V5) × (m.seven.processor.core.arch ≡ V4) };
}

/// The bytes of the cartridge in the slot; an empty slot has none.
#[inline(always)]
pub fn bytes_in(slot: &Option<Cart>) -> &[u8]
    ensures { result.now ≡ unwrap_or slot.now [] }
{
    match slot {
        Some(cart) => cart.bytes(),
        None => &[],
    }
}

impl Parts {
    /// The parts at boot.
    pub fn new(alloc: Global, cart: &Cart, keys: Keys) -> Result<Parts, AllocError>
        ensures booted { IfOk result (λ parts. with_file cart.now parts ≡ machine_booted cart.now keys) }
        ensures units { IfOk result (λ parts. parts.io ≡ io_at_boot) }
    {
        let mut parts = Parts::blank(alloc, cart, keys)?;
        parts.copy_image(cart, Proc::Nine);
        parts.copy_image(cart, Proc::Seven);
        parts.copy_header(cart);
        Ok(parts)
    }

    /// The parts before anything is copied.
    fn blank(alloc: Global, cart: &Cart, keys: Keys) -> Result<Parts, AllocError>
        ensures { IfOk result (λ parts. with_file cart.now parts ≡ machine_blank cart.now keys) }
    {
        Ok(Parts {
            nine: Nine {
                processor: Processor::boot(Proc::Nine, cart),
                decoder: Decoder::new(alloc)?,
                cp15: Cp15::boot(),
                itcm: Block::new(alloc)?,
                dtcm: Block::new(alloc)?,
            },
            seven: Seven {
                processor: Processor::boot(Proc::Seven, cart),
                decoder: Decoder::new(alloc)?,
            },
            map: Map::new(alloc)?,
            io: Io::new(alloc)?,
            script: Script::new(keys),
            events: 0,
            slot: None,
        })
    }

    /// A processor.
    #[inline(always)]
    pub fn processor(&self, proc: Proc) -> &Processor
        ensures { state_of result.now ≡ processor_of self.now proc }
    {
        match proc {
            Proc::Nine => &self.nine.processor,
            Proc::Seven => &self.seven.processor,
        }
    }

    /// Whether a processor is blocked, so that it isn't due.
    #[inline(always)]
    pub fn is_blocked(&self, proc: Proc) -> bool
        ensures { result ≡ is_blocked self.now proc }
    {
        self.io.is_held(proc)
    }

    /// Whether a processor's interrupt line is up.
    #[inline(always)]
    pub fn line(&self, proc: Proc) -> bool
        ensures { result ≡ line_of self.now proc }
    {
        self.io.processor(proc).line()
    }

    /// Does nothing; its contract states what holds of every machine.
    pub fn laws(&self)
        ensures { HasSoundParts self.now }
    {
        known!(self.io.laws());
        known!(self.script.laws());
    }

    /// What a processor fetches at an address.
    pub fn fetch_of(&self, proc: Proc, at: u32, width: Width) -> u32
        ensures { result ≡ fetch_of self.now proc at width }
    {
        match proc {
            Proc::Nine => {
                let nine = &self.nine;
                fetched_by_nine(
                    &nine.cp15, &self.map, &self.io, &nine.itcm, &nine.dtcm, at, width,
                )
                .number
            }
            Proc::Seven => self.map.fetch(&self.io, Proc::Seven, at, width).number,
        }
    }
}
