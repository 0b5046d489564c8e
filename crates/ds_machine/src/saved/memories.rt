//! The memories in bytes.

ghost use Rattle.std.specs.Prelude.{◌≡◌, OnOk};
ghost use Rattle.ds_machine.specs.SavedParts.{memories_format, saved_memories};
ghost use Rattle.ds_state.specs.Formats.{bytes_written};
ghost use Rattle.ds_state.specs.Reading.{GivesIn, read_format};

use crate::parts::Parts;
use ds_base::{
    DTCM_BYTES, ITCM_BYTES, MAIN_BYTES, Memory, OAM_BYTES, OWN7_BYTES, PALETTE_BYTES, SHARED_BYTES,
    Tick,
};
use ds_map::{Block, Map};
use ds_state::{Packer, Unpacked, Unpacker};
use std::alloc::{AllocError, Global};
use std::marker::Model;
use vram_banks::Vram;

/// All memories.
#[derive(Drop)]
pub struct SavedMemories {
    pub map: Map,
    pub itcm: Block<ITCM_BYTES>,
    pub dtcm: Block<DTCM_BYTES>,
    pub vram: Vram,
}

impl Model for SavedMemories {
    ghost use Rattle.ds_machine.specs.SavedParts.{SavedMemories};

    ghost Value = { SavedMemories };

    ghost view = { λ m. record {
      main = m.map.main;
      shared = m.map.shared;
      wram = m.map.wram;
      itcm = m.itcm;
      dtcm = m.dtcm;
      palette = m.map.palette;
      vram = m.vram;
      oam = m.map.oam;
    } };
}

impl SavedMemories {
    /// Takes main memory, the shared work RAM, ARM7's own, ITCM, DTCM, palettes, video memory and OAM. The error is want of memory, or where the
    /// first one begins that isn't whole, or breaks a rule of video memory.
    #[tactic(auto, unfolding(crate::specs::SavedParts::memories_format, crate::specs::Saved::saved_size))]
    pub fn take(alloc: Global, from: &mut Unpacker, at: Tick) -> Result<SavedMemories, Unpacked>
        ensures { GivesIn (λ m. m) result from.new (read_format memories_format at.0 from.old) }
    {
        let main: Block<MAIN_BYTES> = Block::take(alloc, from)?;
        let shared: Block<SHARED_BYTES> = Block::take(alloc, from)?;
        let wram: Block<OWN7_BYTES> = Block::take(alloc, from)?;
        let itcm: Block<ITCM_BYTES> = Block::take(alloc, from)?;
        let dtcm: Block<DTCM_BYTES> = Block::take(alloc, from)?;
        let palette: Block<PALETTE_BYTES> = Block::take(alloc, from)?;
        let vram = Vram::unpack(alloc, from, at)?;
        let oam: Block<OAM_BYTES> = Block::take(alloc, from)?;
        Ok(SavedMemories {
            map: Map::of(main, shared, wram, palette, oam),
            itcm,
            dtcm,
            vram,
        })
    }
}

impl Parts {
    /// Puts all memories from where they lie.
    #[tactic(auto, unfolding(crate::specs::SavedParts::memories_format))]
    pub fn put_memories(&self, into: &mut Packer) -> Result<(), AllocError>
        ensures { OnOk result (into.new ≡ bytes_written memories_format into.old (saved_memories self.now)) }
    {
        into.put_bytes(self.map.bytes(Memory::Main))?;
        into.put_bytes(self.map.bytes(Memory::Shared))?;
        into.put_bytes(self.map.bytes(Memory::Own7))?;
        into.put_bytes(self.nine.itcm.bytes())?;
        into.put_bytes(self.nine.dtcm.bytes())?;
        into.put_bytes(self.map.bytes(Memory::Palette))?;
        self.io.vram().pack(into)?;
        into.put_bytes(self.map.bytes(Memory::Oam))?;
        Ok(())
    }
}
