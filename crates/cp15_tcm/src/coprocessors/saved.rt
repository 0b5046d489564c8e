//! CP15 in bytes.

ghost use Rattle.std.specs.Prelude.{◌≡◌, OnOk};
ghost use Rattle.cp15_tcm.specs.Saved.{Cp15sAreSaved, cp15_format};
ghost use Rattle.ds_state.specs.Formats.{bytes_written};
ghost use Rattle.ds_state.specs.Reading.{GivesRead, read_format};

use crate::coprocessors::{CONTROL_MASK, CONTROL_ONES, Cp15, DTCM_MASK, ITCM_MASK};
use ds_base::Tick;
use ds_state::{Packer, Unpacked, Unpacker};
use std::alloc::AllocError;

impl Cp15 {
    /// Puts the control register without the bits that always read as 1, and the region registers of DTCM and of ITCM, 12 bytes. The error is
    /// want of memory.
    #[tactic(auto, unfolding(crate::specs::Saved::cp15_format))]
    pub fn pack(&self, into: &mut Packer) -> Result<(), AllocError>
        ensures { OnOk result (into.new ≡ bytes_written cp15_format into.old self.now) }
    {
        into.put_u32(self.control & CONTROL_MASK)?;
        into.put_u32(self.dtcm)?;
        into.put_u32(self.itcm)?;
        Ok(())
    }

    /// Takes what `pack` puts. The error is where the first field begins that isn't whole, or has bits that its register doesn't keep.
    #[tactic(auto, unfolding(crate::specs::Saved::cp15_format))]
    pub fn unpack(from: &mut Unpacker, at: Tick) -> Result<Cp15, Unpacked>
        ensures { GivesRead (λ c. c) result from.new (read_format cp15_format at.0 from.old) }
    {
        let control = from.take_kept_word(CONTROL_MASK)?;
        let dtcm = from.take_kept_word(DTCM_MASK)?;
        let itcm = from.take_kept_word(ITCM_MASK)?;
        Ok(Cp15::made(control | CONTROL_ONES, dtcm, itcm))
    }
}

/// Does nothing; its contract states that CP15's bytes are read as it was, whatever stands behind them, and that bytes which are read are those of
/// what is read.
#[tactic(auto, using(crate::proofs::SavedLaws::cp15s_saved))]
pub fn saved_laws()
    ensures { Cp15sAreSaved }
{}
