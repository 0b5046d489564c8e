//! Running points in bytes.

ghost use Rattle.std.specs.Prelude.{◌≡◌, OnOk};
ghost use Rattle.ds_state.specs.Formats.{bytes_written};
ghost use Rattle.ds_state.specs.Reading.{GivesRead, read_format};
ghost use Rattle.video2d.specs.Saved.{point_format};

use crate::points::Point;
use ds_base::Tick;
use ds_state::{Packer, Unpacked, Unpacker};
use std::alloc::AllocError;

impl Point {
    /// Puts both coordinates.
    #[tactic(auto, unfolding(crate::specs::Saved::point_format))]
    pub fn pack(&self, into: &mut Packer) -> Result<(), AllocError>
        ensures { OnOk result (into.new ≡ bytes_written point_format into.old self.now) }
    {
        into.put_u32(self.x)?;
        into.put_u32(self.y)?;
        Ok(())
    }

    /// Takes what `pack` puts.
    #[tactic(auto, unfolding(crate::specs::Saved::point_format))]
    pub fn unpack(from: &mut Unpacker, at: Tick) -> Result<Point, Unpacked>
        ensures { GivesRead (λ p. p) result from.new (read_format point_format at.0 from.old) }
    {
        let x = from.take_u32()?;
        let y = from.take_u32()?;
        Ok(Point { x, y })
    }
}
