//! The divider in bytes.

ghost use Rattle.std.specs.Prelude.{◌≡◌, OnOk};
ghost use Rattle.ds_math.specs.Saved.{divider_format};
ghost use Rattle.ds_state.specs.Formats.{bytes_written};
ghost use Rattle.ds_state.specs.Reading.{GivesRead, read_format};

use crate::dividers::Divider;
use ds_base::Tick;
use ds_state::{Packer, Unpacked, Unpacker};
use std::alloc::AllocError;

impl Divider {
    /// Puts its registers and due tick, 41 bytes. The error is want of memory.
    #[tactic(auto, unfolding(crate::specs::Saved::divider_format))]
    pub fn pack(&self, into: &mut Packer) -> Result<(), AllocError>
        ensures { OnOk result (into.new ≡ bytes_written divider_format into.old self.now) }
    {
        into.put_u8(self.mode)?;
        into.put_u64(self.numerator)?;
        into.put_u64(self.denominator)?;
        into.put_u64(self.quotient)?;
        into.put_u64(self.remainder)?;
        into.put_tick(Tick::number_of(self.due))?;
        Ok(())
    }

    /// Takes what `pack` puts. The error is where the first field begins that isn't whole, a mode above 3, or a due tick that isn't soon.
    #[tactic(auto, unfolding(crate::specs::Saved::divider_format))]
    pub fn unpack(from: &mut Unpacker, at: Tick) -> Result<Divider, Unpacked>
        ensures { GivesRead (λ d. d) result from.new (read_format divider_format at.0 from.old) }
    {
        let mode = from.take_at_most(3)?;
        let numerator = from.take_u64()?;
        let denominator = from.take_u64()?;
        let quotient = from.take_u64()?;
        let remainder = from.take_u64()?;
        let due = from.take_due(at.0)?;
        Ok(Divider {
            mode,
            numerator,
            denominator,
            quotient,
            remainder,
            due: Tick::numbered(due),
        })
    }
}
