//! The display in bytes.

ghost use Rattle.std.specs.Prelude.{◌≡◌, ℕ, Some, OnOk};
ghost use Rattle.ds_base.specs.Schedules.{IsEarly};
ghost use Rattle.ds_state.specs.Formats.{bytes_written};
ghost use Rattle.ds_state.specs.Reading.{GivesIn, read_format};
ghost use Rattle.video2d.specs.Saved.{VideoIsSaved, video_format};

use crate::engines::saved::take_registers;
use crate::engines::{Engine, EngineRegisters};
use crate::frames::Frames;
use crate::points::Point;
use crate::scans::Scan;
use crate::screens::Screens;
use crate::statuses::Status;
use crate::videos::Video;
use ds_base::Tick;
use ds_state::{Packer, Unpacked, Unpacker, holds};
use std::alloc::{AllocError, Global};

/// The bits of DISPSTAT that are used: all but bit 6.
const STATUS_BITS: u16 = 0xFFBF;

impl Video {
    /// Puts the display, 393,425 bytes. The error is want of memory.
    #[tactic(auto, unfolding(crate::specs::Saved::video_format))]
    pub fn pack(&self, into: &mut Packer) -> Result<(), AllocError>
        ensures { (at : ℕ) → OnOk result (into.new ≡ bytes_written (video_format at) into.old self.now) }
    {
        into.put_u16(self.scan.line())?;
        into.put_flag(self.scan.blanked())?;
        into.put_u16(self.nine.word())?;
        into.put_u16(self.seven.word())?;
        self.a.pack_ports(into, Engine::A)?;
        self.b.pack_ports(into, Engine::B)?;
        into.put_u16(self.power)?;
        self.a.pack_points(into)?;
        self.b.pack_points(into)?;
        self.frames.pack_drawn(into)?;
        self.frames.pack_whole(into)?;
        Ok(())
    }

    /// Takes what `pack` puts, at a tick. The error is want of memory, or where the first field begins that isn't whole or breaks its rule: a line or
    /// a phase that isn't the one which the events due below the tick leave, a bit that its register doesn't keep, a pixel with bit 15.
    #[tactic(auto, unfolding(crate::specs::Saved::video_format))]
    pub fn unpack(alloc: Global, from: &mut Unpacker, at: Tick) -> Result<Video, Unpacked>
        requires { IsEarly (Some at) }
        ensures { GivesIn (λ v. v) result from.new (read_format (video_format at.0) at.0 from.old) }
    {
        let scan = Scan::before(at);
        let offset = from.place();
        let line = from.take_u16()?;
        holds(line == scan.line(), offset)?;
        let offset = from.place();
        let blanked = from.take_flag()?;
        holds(blanked == scan.blanked(), offset)?;
        let nine = from.take_kept_half(STATUS_BITS)?;
        let seven = from.take_kept_half(STATUS_BITS)?;
        let ports_of_a = take_registers(from, at, Engine::A)?;
        let ports_of_b = take_registers(from, at, Engine::B)?;
        let power = from.take_u16()?;
        let two_of_a = Point::unpack(from, at)?;
        let three_of_a = Point::unpack(from, at)?;
        let two_of_b = Point::unpack(from, at)?;
        let three_of_b = Point::unpack(from, at)?;
        let drawn = Screens::unpack(alloc, from, at)?;
        let whole = Screens::unpack(alloc, from, at)?;
        Ok(Video {
            scan,
            nine: Status::of_bits(nine),
            seven: Status::of_bits(seven),
            a: EngineRegisters::of(ports_of_a, two_of_a, three_of_a),
            b: EngineRegisters::of(ports_of_b, two_of_b, three_of_b),
            power,
            frames: Frames::of(drawn, whole),
        })
    }
}

/// Does nothing; its contract states that the display's bytes at a tick are read as it was, whatever stands behind them, where it is where the events
/// due below that tick leave it; that bytes which are read are those of what is read; and that where the display is goes on from tick to tick by
/// its events.
#[tactic(auto, using(crate::proofs::SavedLaws::video_saved))]
pub fn saved_laws()
    ensures { VideoIsSaved }
{}
