//! What stands at an offset.

ghost use Rattle.std.specs.Prelude.{◌≡◌, ◌<◌, ◌≤◌};
ghost use Rattle.ds_base.specs.declared.processors.Proc.TheVariants.{Nine};
ghost use Rattle.video2d.specs.Ports.{video_port, port_of_one, IsInPorts};

use crate::engines::Engine;
use ds_base::Proc;

/// A byte of a port of the display.
#[derive(Clone, Copy)]
pub enum VideoPort {
    /// A byte of the processor's own DISPSTAT.
    Status(u8),
    /// A byte of VCOUNT.
    Count(u8),
    /// A byte of an engine's registers, by its offset from the engine's base.
    OfEngine(Engine, u32),
    /// A byte of POWCNT1.
    Power(u8),
    /// No port of the display.
    Nothing,
}

/// What ARM9 alone has at an offset.
fn port_of_nine(at: u32) -> VideoPort
    ensures value { result ≡ port_of_one Nine at }
    ensures inside { IsInPorts result }
{
    match at {
        0x000..=0x06F => VideoPort::OfEngine(Engine::A, at),
        0x304 => VideoPort::Power(0),
        0x305 => VideoPort::Power(1),
        0x1000..=0x106F => VideoPort::OfEngine(Engine::B, at - 0x1000),
        _ => VideoPort::Nothing,
    }
}

/// What a processor has at an offset.
pub fn video_port(proc: Proc, at: u32) -> VideoPort
    ensures value { result ≡ video_port proc at }
    ensures inside { IsInPorts result }
{
    match at {
        0x004 => VideoPort::Status(0),
        0x005 => VideoPort::Status(1),
        0x006 => VideoPort::Count(0),
        0x007 => VideoPort::Count(1),
        _ => match proc {
            Proc::Nine => port_of_nine(at),
            Proc::Seven => VideoPort::Nothing,
        },
    }
}
