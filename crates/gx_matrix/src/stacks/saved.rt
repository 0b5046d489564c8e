//! The current matrices and their stacks in bytes; the clip matrix is made of them anew.

ghost use Rattle.std.specs.Prelude.{◌≡◌, OnOk};
ghost use Rattle.ds_state.specs.Formats.{bytes_written};
ghost use Rattle.ds_state.specs.Reading.{GivesRead, read_format};
ghost use Rattle.gx_matrix.specs.Saved.{AreStacks, StacksAreSaved, stacks_format};

use crate::currents::Currents;
use crate::stacks::Stacks;
use ds_base::{Tick, known};
use ds_state::{Packer, Unpacked, Unpacker};
use std::alloc::AllocError;

impl Stacks {
    /// Puts the mode, the levels, the error, and the current and the stored matrices, 4,357 bytes. The error is want of memory.
    pub fn pack(&self, into: &mut Packer) -> Result<(), AllocError>
        ensures { OnOk result (into.new ≡ bytes_written stacks_format into.old self.now) }
    {
        self.currents.pack(into)
    }

    /// Takes what `pack` puts; the clip matrix is made anew. The error is where the first field begins that isn't whole, or a mode, a level or
    /// a flag that there isn't.
    pub fn unpack(from: &mut Unpacker, at: Tick) -> Result<Stacks, Unpacked>
        ensures { GivesRead (λ s. s) result from.new (read_format stacks_format at.0 from.old) }
    {
        let currents = Currents::unpack(from, at.0)?;
        let clip = currents.clip();
        Ok(Stacks { currents, clip })
    }

    /// Does nothing; its contract states what holds at every time: how many cells and places there are, and that cells are signed words.
    pub fn laws(&self)
        ensures { AreStacks self.now }
    {
        known!(self.currents.laws());
    }
}

/// Does nothing; its contract states that the bytes of the matrices and their stacks are read as they were, whatever stands behind them, and
/// that bytes which are read are those of what is read.
#[tactic(auto, using(crate::proofs::SavedLaws::stacks_saved))]
pub fn saved_laws()
    ensures { StacksAreSaved }
{}
