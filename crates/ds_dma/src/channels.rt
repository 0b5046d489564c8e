//! One channel, as running addresses and a count of the units that are left.

ghost use Rattle.std.specs.Prelude.{◌≡◌, ◌≤◌, ◌+◌, ◌<◌, ◌^◌, Some, None, if◌then◌else◌};
ghost use Rattle.ds_base.specs.Schedules.{IsEarly};
ghost use Rattle.ds_base.specs.declared.ticks.Tick.{Tick};
ghost use Rattle.ds_dma.specs.Channels.{is_running, channel_controlled, latched, emptied, channel_word, channel_set, channel_refusal, is_triggered, triggered, after_unit, taken_bit, is_last_unit, armed_again, unit_of, ready};
ghost use Rattle.ds_dma.specs.Controls.{units_counted, disabled};
ghost use Rattle.ds_dma.specs.States.{WaitsBriefly, last_tick};

pub mod saved;

use crate::controls;
use crate::controls::{Cause, DmaPort};
use ds_base::{Proc, Stop, Tick, Width};

/// The bits that a source and a target keep.
const ADDRESS: u32 = 0x0FFF_FFFF;

/// One unit of a transfer: what is read at one address is written at the other.
#[derive(Clone, Copy, PartialEq, Eq)]
pub struct Unit {
    /// Where it is read.
    pub from: u32,
    /// Where it is written.
    pub to: u32,
    /// A half or a word.
    pub width: Width,
}

/// The last unit that a processor's channels moved.
#[derive(Clone, Copy, PartialEq, Eq)]
pub struct LastUnit {
    /// When it was moved.
    pub tick: Tick,
    /// The waits of its read and of its write together, in ticks: at most 16.
    pub waits: u32,
}

/// A channel's kept numbers, what it has left to do where it is enabled, since when it runs, and what is left of its burst if it has one.
#[derive(Clone, Copy)]
pub struct Channel {
    pub sad: u32,
    pub dad: u32,
    pub cnt: u32,
    pub from: u32,
    pub to: u32,
    pub remaining: u32,
    pub trigger: Option<Tick>,
    pub burst: u32,
}

/// Whether it runs.
pub fn runs(channel: Channel) -> bool
    ensures { result ≡ is_running channel }
{
    channel.trigger.is_some()
}

/// A channel that stands for no units, with this control.
fn without_units(channel: Channel, control: u32) -> Channel
    ensures { result ≡ emptied channel control }
{
    Channel {
        cnt: control,
        from: 0,
        to: 0,
        remaining: 0,
        trigger: None,
        burst: 0,
        ..channel
    }
}

/// A channel that is enabled.
fn with_units(proc: Proc, which: u8, channel: Channel, control: u32, now: Tick) -> Channel
    ensures { result ≡ latched proc which channel control now }
{
    let starts_immediately = controls::starts_immediately(proc, control);
    Channel {
        cnt: control,
        from: channel.sad,
        to: channel.dad,
        remaining: controls::units(proc, which, control),
        trigger: if starts_immediately { Some(now) } else { None },
        burst: 0,
        ..channel
    }
}

/// A channel after a write of its control, of which these bits are kept.
pub fn with_control(proc: Proc, which: u8, channel: Channel, control: u32, now: Tick) -> Channel
    ensures { result ≡ channel_controlled proc which channel control now }
{
    if !controls::enabled(control) {
        return without_units(channel, control);
    }
    if controls::enabled(channel.cnt) {
        return Channel {
            cnt: control,
            ..channel
        };
    }
    with_units(proc, which, channel, control, now)
}

/// What a port of a channel keeps.
pub fn word(channel: Channel, port: DmaPort) -> u32
    ensures { result ≡ channel_word port channel }
{
    match port {
        DmaPort::Source => channel.sad,
        DmaPort::Target => channel.dad,
        DmaPort::Control => channel.cnt,
    }
}

/// Why a write of a channel's port is refused, if it is.
pub fn refused(proc: Proc, which: u8, channel: Channel, port: DmaPort, value: u32) -> Option<Stop>
    ensures { result ≡ channel_refusal proc which port value channel }
{
    match port {
        DmaPort::Source | DmaPort::Target => None,
        DmaPort::Control => {
            let control = controls::kept(proc, which, value);
            controls::refused(proc, channel.cnt, control)
        }
    }
}

/// A channel after a write of one of its ports.
pub fn written(
    proc: Proc,
    which: u8,
    channel: Channel,
    port: DmaPort,
    value: u32,
    now: Tick,
) -> Channel
    ensures { result ≡ channel_set proc which port value now channel }
{
    match port {
        DmaPort::Source => Channel {
            sad: value & ADDRESS,
            ..channel
        },
        DmaPort::Target => Channel {
            dad: value & ADDRESS,
            ..channel
        },
        DmaPort::Control => {
            let control = controls::kept(proc, which, value);
            with_control(proc, which, channel, control, now)
        }
    }
}

/// Whether an event triggers it: it is enabled with that start, and doesn't run.
pub fn awaits(proc: Proc, cause: Cause, channel: Channel) -> bool
    ensures { result ≡ is_triggered proc cause channel }
{
    let waits = controls::enabled(channel.cnt) && controls::waits(proc, cause, channel.cnt);
    waits && !runs(channel)
}

/// A channel after an event.
pub fn after(proc: Proc, cause: Cause, now: Tick, channel: Channel) -> Channel
    ensures { result ≡ triggered proc cause now channel }
{
    if awaits(proc, cause, channel) {
        return Channel {
            trigger: Some(now),
            burst: controls::burst(cause, channel.remaining),
            ..channel
        };
    }
    channel
}

/// The first unit that is left.
pub fn first(channel: Channel) -> Unit
    requires from { channel.from < 2 ^ 32 }
    requires to { channel.to < 2 ^ 32 }
    ensures { result ≡ unit_of channel 0 }
{
    Unit {
        from: channel.from,
        to: channel.to,
        width: controls::width(channel.cnt),
    }
}

/// A channel after its first unit.
pub fn without_first(proc: Proc, which: u8, channel: Channel) -> Channel
    requires { 1 ≤ channel.remaining }
    ensures { result ≡ after_unit proc which channel }
{
    let control = channel.cnt;
    let from = channel.from.wrapping_add(controls::source_step(control));
    let to = channel.to.wrapping_add(controls::target_step(control));
    if channel.remaining != 1 {
        let pauses = channel.burst == 1;
        return Channel {
            from,
            to,
            remaining: channel.remaining - 1,
            trigger: if pauses { None } else { channel.trigger },
            burst: channel.burst.saturating_sub(1),
            ..channel
        };
    }
    if !controls::again(proc, control) {
        return without_units(channel, controls::without_enable(control));
    }
    let count = controls::units(proc, which, control);
    let to = if controls::target_again(control) {
        channel.dad
    } else {
        to
    };
    Channel {
        from,
        to,
        remaining: count,
        trigger: None,
        burst: 0,
        ..channel
    }
}

/// The bit of IF that its first unit raises: that of the channel, where this is its last one and its interrupt is enabled.
pub fn raised(which: u8, channel: Channel) -> u32
    ensures { result ≡ taken_bit which channel }
{
    if channel.remaining == 1 && controls::raises(channel.cnt) {
        controls::interrupt(which).bit()
    } else {
        0
    }
}

/// When its next unit is due once no lower channel runs: 4 ticks after its trigger, and 4 after the processor's last unit and its waits.
pub fn ready_at(last: Option<LastUnit>, channel: Channel) -> Option<Tick>
    requires last { IsEarly (last_tick last) }
    requires waits { WaitsBriefly last }
    requires trigger { IsEarly channel.trigger }
    ensures { result ≡ ready last channel }
{
    let trigger = channel.trigger?;
    match last {
        None => Some(Tick(trigger.0 + 4)),
        Some(last) => Some(Tick(trigger.0.max(last.tick.0 + last.waits as u64) + 4)),
    }
}
