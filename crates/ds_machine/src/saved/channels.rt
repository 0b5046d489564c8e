//! The DMA channels in bytes.

ghost use Rattle.std.specs.Prelude.{◌≡◌, Bool, OnOk, Some};
ghost use Rattle.ds_base.specs.Schedules.{IsEarly};
ghost use Rattle.ds_machine.specs.SavedParts.{channels_format, saved_channels};
ghost use Rattle.ds_state.specs.Formats.{bytes_written};
ghost use Rattle.ds_state.specs.Reading.{GivesRead, read_format};

use crate::parts::Parts;
use ds_base::{Proc, Tick};
use ds_dma::Dma;
use ds_state::{Packer, Unpacked, Unpacker, put_list, take_each};
use std::alloc::AllocError;
use std::marker::Model;

/// The channels of both processors, and the four words of DMA0FILL to DMA3FILL.
#[derive(Drop)]
pub struct SavedChannels {
    pub nine: Dma,
    pub seven: Dma,
    pub fill: [u32; 4],
}

impl Model for SavedChannels {
    ghost use Rattle.ds_machine.specs.SavedParts.{SavedChannels};

    ghost Value = { SavedChannels };

    ghost view = { λ c. record { nine = c.nine; seven = c.seven; fill = c.fill } };
}

impl SavedChannels {
    /// Takes them, ARM9's first, by whether ARM7 is late. The error is where the first field begins that isn't whole or breaks its rule: those of the
    /// channels; and where ARM7 is late, that none of its channels runs.
    #[tactic(auto, unfolding(crate::specs::SavedParts::channels_format))]
    pub fn take(from: &mut Unpacker, at: Tick, late: bool) -> Result<SavedChannels, Unpacked>
        requires { IsEarly (Some at) }
        ensures { GivesRead (λ c. c) result from.new (read_format (channels_format late) at.0 from.old) }
    {
        let nine = Dma::unpack(from, at, Proc::Nine)?;
        let seven = Dma::unpack_by(from, at, Proc::Seven, late)?;
        let mut fill = [0; 4];
        take_each(from, &mut fill, at.0)?;
        Ok(SavedChannels { nine, seven, fill })
    }
}

impl Parts {
    /// Puts the same, whether ARM7 is late or not.
    #[tactic(auto, unfolding(crate::specs::SavedParts::channels_format), using(crate::proofs::SavedBytes::dma_bytes))]
    pub fn put_channels(&self, into: &mut Packer) -> Result<(), AllocError>
        ensures { (late : Bool) → OnOk result (into.new ≡ bytes_written (channels_format late) into.old (saved_channels self.now.io)) }
    {
        self.io.processor(Proc::Nine).dma().pack(into)?;
        self.io.processor(Proc::Seven).dma().pack(into)?;
        put_list(into, &self.io.fill())?;
        Ok(())
    }
}
