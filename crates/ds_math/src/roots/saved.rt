//! The square root unit in bytes.

ghost use Rattle.std.specs.Prelude.{◌≡◌, OnOk};
ghost use Rattle.ds_math.specs.Saved.{root_format};
ghost use Rattle.ds_state.specs.Formats.{bytes_written};
ghost use Rattle.ds_state.specs.Reading.{GivesRead, read_format};

use crate::roots::Root;
use ds_base::Tick;
use ds_state::{Packer, Unpacked, Unpacker};
use std::alloc::AllocError;

impl Root {
    /// Puts its registers and due tick, 21 bytes. The error is want of memory.
    #[tactic(auto, unfolding(crate::specs::Saved::root_format))]
    pub fn pack(&self, into: &mut Packer) -> Result<(), AllocError>
        ensures { OnOk result (into.new ≡ bytes_written root_format into.old self.now) }
    {
        into.put_flag(self.wide)?;
        into.put_u64(self.value)?;
        into.put_u32(self.root)?;
        into.put_tick(Tick::number_of(self.due))?;
        Ok(())
    }

    /// Takes what `pack` puts. The error is where the first field begins that isn't whole, a flag that is no flag, or a due tick that isn't
    /// soon.
    #[tactic(auto, unfolding(crate::specs::Saved::root_format))]
    pub fn unpack(from: &mut Unpacker, at: Tick) -> Result<Root, Unpacked>
        ensures { GivesRead (λ r. r) result from.new (read_format root_format at.0 from.old) }
    {
        let wide = from.take_flag()?;
        let value = from.take_u64()?;
        let root = from.take_u32()?;
        let due = from.take_due(at.0)?;
        Ok(Root {
            wide,
            value,
            root,
            due: Tick::numbered(due),
        })
    }
}
