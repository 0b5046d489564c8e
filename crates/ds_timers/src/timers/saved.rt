//! The four timers in bytes.

ghost use Rattle.std.specs.Prelude.{◌≡◌, ◌<◌, ◌≤◌, ◌^◌, Some, IfOk, OnOk};
ghost use Rattle.ds_base.specs.Schedules.{IsEarly};
ghost use Rattle.ds_state.specs.Formats.{bytes_written};
ghost use Rattle.ds_state.specs.Reading.{GivesRead, read_format};
ghost use Rattle.ds_timers.specs.Saved.{anchors_by, timer_format, timers_format};
ghost use Rattle.ds_timers.specs.Timing.{IsTimer, kept_control};

use crate::timers::{Timer, Timers, goes_alone, ticks};
use ds_base::Tick;
use ds_state::{Packer, Unpacked, Unpacker, holds};
use std::alloc::AllocError;

/// Puts one timer.
#[tactic(auto, unfolding(crate::specs::Saved::timer_format))]
fn put_timer(into: &mut Packer, which: u8, timer: Timer) -> Result<(), AllocError>
    requires { kept_control timer.control ≡ timer.control }
    ensures { OnOk result (into.new ≡ bytes_written (timer_format which) into.old timer) }
{
    into.put_u16(timer.reload)?;
    into.put_u8((timer.control & 0xC7) as u8)?;
    into.put_u16(timer.count)?;
    let since = match timer.since {
        Some(since) => since.0,
        None => 0,
    };
    into.put_u64(since)?;
    Ok(())
}

/// Takes one timer.
#[tactic(auto, unfolding(crate::specs::Saved::timer_format))]
fn take_timer(from: &mut Unpacker, at: Tick, which: u8) -> Result<Timer, Unpacked>
    requires { IsEarly (Some at) }
    ensures reads { GivesRead (λ x. x) result from.new (read_format (timer_format which) at.0 from.old) }
    ensures is { IfOk result (λ timer. IsTimer which timer) }
    ensures early { IfOk result (λ timer. IsEarly timer.since) }
{
    let reload = from.take_u16()?;
    let control = from.take_kept(0xC7)? as u16;
    let count = from.take_u16()?;
    let offset = from.place();
    let since = from.take_u64()?;
    let free = goes_alone(which, control);
    holds(is_anchor(free, control, count, at, since), offset)?;
    Ok(Timer {
        control,
        reload,
        count,
        since: if free { Some(Tick(since)) } else { None },
    })
}

/// Whether a tick is that of the anchor of a timer, at a tick.
fn is_anchor(free: bool, control: u16, count: u16, at: Tick, since: u64) -> bool
    requires early { IsEarly (Some at) }
    requires count { count < 2 ^ 16 }
    ensures { result ≡ anchors_by free control count at.0 since }
{
    if free {
        since <= at.0 && at.0 <= since + (0x1_0000 - count as u64) * ticks(control)
    } else {
        since == 0
    }
}

impl Timers {
    /// Puts the four timers, each its reload, its control, its count and the tick of its anchor, 52 bytes. The error is want of memory.
    #[tactic(auto, unfolding(crate::specs::Saved::timers_format))]
    pub fn pack(&self, into: &mut Packer) -> Result<(), AllocError>
        ensures { OnOk result (into.new ≡ bytes_written timers_format into.old self.now) }
    {
        put_timer(into, 0, self.timer(0))?;
        put_timer(into, 1, self.timer(1))?;
        put_timer(into, 2, self.timer(2))?;
        put_timer(into, 3, self.timer(3))?;
        Ok(())
    }

    /// Takes what `pack` puts. The error is where the first field begins that isn't whole, a control with bits that aren't kept, or a tick that is
    /// no anchor at this tick: of a timer that counts time one that is later, or by which it would have been due; of any other one that isn't 0.
    #[tactic(auto, unfolding(crate::specs::Saved::timers_format))]
    pub fn unpack(from: &mut Unpacker, at: Tick) -> Result<Timers, Unpacked>
        requires { IsEarly (Some at) }
        ensures { GivesRead (λ t. t) result from.new (read_format timers_format at.0 from.old) }
    {
        let zero = take_timer(from, at, 0)?;
        let one = take_timer(from, at, 1)?;
        let two = take_timer(from, at, 2)?;
        let three = take_timer(from, at, 3)?;
        Ok(Timers {
            timers: [zero, one, two, three],
        })
    }
}
