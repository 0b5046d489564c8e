//! The registers of the display, whose bytes the display itself tells.

ghost use Rattle.std.specs.Prelude.{◌≡◌, ◌<◌, ◌+◌};
ghost use Rattle.ds_base.specs.Numbers.{value_by};
ghost use Rattle.video2d.specs.DisplayRegisters.{engine_base, engine_bytes};
ghost use Rattle.video2d.specs.Kept.{kept_byte};
ghost use Rattle.video2d.specs.Videos.{video_byte};
ghost use Rattle.video2d.specs.declared.engines.Engine.TheVariants.{B};

use ds_base::{Proc, Width};
use video2d::Video;

/// What the register of so many bytes reads that stands at an offset from 4000000h.
pub fn display_value(video: &Video, proc: Proc, width: Width, at: u32) -> u32
    requires { at < engine_base B + engine_bytes }
    ensures { result ≡ value_by width (video_byte proc video.now) at }
{
    let low = video.port_read(proc, at) as u32;
    match width {
        Width::Byte => low,
        Width::Half => low + 0x100 * video.port_read(proc, at + 1) as u32,
        Width::Word => low
            + 0x100 * video.port_read(proc, at + 1) as u32
            + 0x1_0000 * video.port_read(proc, at + 2) as u32
            + 0x100_0000 * video.port_read(proc, at + 3) as u32,
    }
}

/// What it keeps, whether it reads or not.
pub fn display_kept(video: &Video, proc: Proc, width: Width, at: u32) -> u32
    requires { at < engine_base B + engine_bytes }
    ensures { result ≡ value_by width (kept_byte proc video.now) at }
{
    let low = video.kept_byte(proc, at) as u32;
    match width {
        Width::Byte => low,
        Width::Half => low + 0x100 * video.kept_byte(proc, at + 1) as u32,
        Width::Word => low
            + 0x100 * video.kept_byte(proc, at + 1) as u32
            + 0x1_0000 * video.kept_byte(proc, at + 2) as u32
            + 0x100_0000 * video.kept_byte(proc, at + 3) as u32,
    }
}
