//! Both sides in bytes.

ghost use Rattle.std.specs.Prelude.{◌≡◌, OnOk};
ghost use Rattle.ds_ipc.specs.Saved.{SidesAreSaved, ipc_format};
ghost use Rattle.ds_state.specs.Formats.{bytes_written};
ghost use Rattle.ds_state.specs.Reading.{GivesIn, read_format};

use crate::ipcs::Ipc;
use crate::sides::saved;
use ds_base::Tick;
use ds_state::{Packer, Unpacked, Unpacker};
use std::alloc::{AllocError, Global};

impl Ipc {
    /// Puts ARM9's side and then ARM7's: the bits that it passes, IPCSYNC's bit 14, the kept bits of IPCFIFOCNT, the word that it received last,
    /// and how many words wait for it and which; 18 bytes, and 4 for each word. The error is want of memory.
    #[tactic(auto, unfolding(crate::specs::Saved::ipc_format))]
    pub fn pack(&self, into: &mut Packer) -> Result<(), AllocError>
        ensures { OnOk result (into.new ≡ bytes_written ipc_format into.old self.now) }
    {
        saved::put(into, &self.nine, &self.seven)?;
        saved::put(into, &self.seven, &self.nine)?;
        Ok(())
    }

    /// Takes what `pack` puts. The error is want of memory, or where the first field begins that isn't whole, over 4 bits that are passed, a flag
    /// that is no flag, a control with other bits than 2, 10, 14 and 15, or over 16 words.
    #[tactic(auto, unfolding(crate::specs::Saved::ipc_format))]
    pub fn unpack(alloc: Global, from: &mut Unpacker, at: Tick) -> Result<Ipc, Unpacked>
        ensures { GivesIn (λ s. s) result from.new (read_format ipc_format at.0 from.old) }
    {
        let nine = saved::take(alloc, from, at)?;
        let seven = saved::take(alloc, from, at)?;
        let (nine, seven) = saved::crossed(nine, seven);
        Ok(Ipc { nine, seven })
    }
}

/// Does nothing; its contract states that the bytes of both sides are read as those sides, whatever stands behind them, and that bytes which are
/// read are those of the sides that are read.
#[tactic(auto, using(crate::proofs::SavedLaws::sides_saved))]
pub fn saved_laws()
    ensures { SidesAreSaved }
{}
