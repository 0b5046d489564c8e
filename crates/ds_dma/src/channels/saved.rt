//! One channel in bytes.

ghost use Rattle.std.specs.Prelude.{◌≡◌, ◌<◌, ◌≤◌, Bool, Some, IfOk, OnOk};
ghost use Rattle.ds_base.specs.Schedules.{IsEarly};
ghost use Rattle.ds_dma.specs.Channels.{IsChannel, is_running};
ghost use Rattle.ds_dma.specs.Saved.{asked_last, burst_left, channel_format, channel_format_by, late_runs_by, runs_by, units_left};
ghost use Rattle.ds_state.specs.Formats.{bytes_written};
ghost use Rattle.ds_state.specs.Reading.{GivesRead, read_format};

use crate::channels::{ADDRESS, Channel, runs};
use crate::controls;
use ds_base::{Proc, Tick};
use ds_state::{Packer, Unpacked, Unpacker, holds};
use std::alloc::AllocError;

/// Puts a channel.
#[tactic(auto, unfolding(crate::specs::Saved::channel_format_by))]
pub fn put(into: &mut Packer, proc: Proc, which: u8, channel: Channel) -> Result<(), AllocError>
    ensures { (asked : Bool → Bool) → OnOk result (into.new ≡ bytes_written (channel_format_by proc which asked) into.old channel) }
{
    into.put_u32(channel.sad)?;
    into.put_u32(channel.dad)?;
    into.put_u32(channel.cnt)?;
    into.put_u32(channel.from)?;
    into.put_u32(channel.to)?;
    into.put_u32(channel.remaining)?;
    into.put_u32(channel.burst)?;
    into.put_flag(runs(channel))?;
    let trigger = match channel.trigger {
        Some(trigger) => trigger.0,
        None => 0,
    };
    into.put_u64(trigger)?;
    Ok(())
}

/// Takes a channel of which nothing else is asked.
pub fn take(from: &mut Unpacker, at: Tick, proc: Proc, which: u8) -> Result<Channel, Unpacked>
    requires { IsEarly (Some at) }
    ensures reads { GivesRead (λ x. x) result from.new (read_format (channel_format proc which) at.0 from.old) }
    ensures is { IfOk result (λ channel. IsChannel proc which channel) }
    ensures early { IfOk result (λ channel. IsEarly channel.trigger) }
{
    take_last(from, at, proc, which, false, false)
}

/// Takes a channel, by whether its processor is late and whether one of those before it runs: where it is late and none does, this one has to run.
#[tactic(auto, unfolding(crate::specs::Saved::channel_format_by))]
pub fn take_last(
    from: &mut Unpacker,
    at: Tick,
    proc: Proc,
    which: u8,
    late: bool,
    before: bool,
) -> Result<Channel, Unpacked>
    requires { IsEarly (Some at) }
    ensures reads { GivesRead (λ x. x) result from.new
        (read_format (channel_format_by proc which (asked_last (late_runs_by late) before)) at.0 from.old) }
    ensures is { IfOk result (λ channel. IsChannel proc which channel) }
    ensures early { IfOk result (λ channel. IsEarly channel.trigger) }
{
    let sad = from.take_kept_word(ADDRESS)?;
    let dad = from.take_kept_word(ADDRESS)?;
    let cnt = from.take_kept_word(controls::mask(proc, which))?;
    let enabled = controls::enabled(cnt);
    let source = from.take_used_word(enabled)?;
    let target = from.take_used_word(enabled)?;
    let offset = from.place();
    let remaining = from.take_u32()?;
    holds(has_units(proc, which, enabled, remaining), offset)?;
    let offset = from.place();
    let burst = from.take_u32()?;
    holds(has_burst(enabled, remaining, burst), offset)?;
    let offset = from.place();
    let running = from.take_flag()?;
    holds(
        (!late || (before || running)) && may_run(enabled, burst, running),
        offset,
    )?;
    let trigger = from.take_earlier(running, at.0)?;
    Ok(Channel {
        sad,
        dad,
        cnt,
        from: source,
        to: target,
        remaining,
        trigger: if running { Some(Tick(trigger)) } else { None },
        burst,
    })
}

/// Whether a channel may have so many units left.
fn has_units(proc: Proc, which: u8, enabled: bool, units: u32) -> bool
    ensures { result ≡ units_left proc which enabled 0 units }
{
    if enabled {
        1 <= units && units <= controls::greatest(proc, which) + 1
    } else {
        units == 0
    }
}

/// Whether it may have so many left in a burst.
fn has_burst(enabled: bool, units: u32, burst: u32) -> bool
    ensures { result ≡ burst_left enabled units 0 burst }
{
    !enabled || (burst <= units && burst <= controls::BURST)
}

/// Whether it may say so of its running.
fn may_run(enabled: bool, burst: u32, running: bool) -> bool
    ensures { result ≡ runs_by enabled burst 0 running }
{
    if running { enabled } else { burst == 0 }
}
