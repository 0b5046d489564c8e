//! Events: when they come, what they set, clear, raise and trigger.

use super::registers::{DISPSTAT, HBLANK, VBLANK, VCOUNT, VCOUNT_MATCH};
use super::{Line, Starts, try_lines};
use Line::{Due, Event, Reads, ToHblank, ToLine, Write};
use Proc::{Nine, Seven};
use Starts::{HblankDma, Nothing, VblankDma};
use Width::{Byte, Half};
use ds_base::{Proc, Width};
use std::alloc::AllocError;

// 3,212 ticks to H-blank, 4,260 a line, 1,120,380 a frame.
#[test]
#[rattlefmt::skip]
fn lines_and_frames_have_their_ticks(rt: HostRuntime) -> Result<(), AllocError> {
    try_lines(&rt, rt.alloc(), &[
        // Reads(processor, register, byte)   Event(raised at ARM9, at ARM7, what starts)
        Due(3_212), Reads(Nine, VCOUNT, 0), Reads(Nine, DISPSTAT, 0),
        Event(0, 0, HblankDma), Due(4_260), Reads(Nine, DISPSTAT, 0x02), Reads(Seven, DISPSTAT, 0x02),
        Event(0, 0, Nothing), Due(7_472), Reads(Nine, DISPSTAT, 0), Reads(Seven, VCOUNT, 1),
        ToLine(191),
        // line 191 is the last that is drawn, and line 192 makes the frame whole
        Event(0, 0, HblankDma), Due(817_920),
        Event(0, 0, VblankDma), Due(821_132), Reads(Nine, DISPSTAT, 0x01),
        Event(0, 0, Nothing), Reads(Nine, DISPSTAT, 0x03),
        ToHblank(261), Reads(Nine, DISPSTAT, 0x03), Reads(Nine, VCOUNT, 0x05), Reads(Nine, VCOUNT + 1, 0x01),
        Event(0, 0, Nothing),
        // in line 262 the V-blank flag is clear
        Reads(Nine, DISPSTAT, 0),
        Event(0, 0, Nothing), Due(1_120_380),
        Event(0, 0, Nothing), Due(1_123_592),
        // line 0 is that of the setting, which is 0: at boot the flag was clear, since no line had started
        Reads(Nine, DISPSTAT, 0x04), Reads(Seven, DISPSTAT, 0x04),
        Event(0, 0, HblankDma),
    ])
}

#[test]
#[rattlefmt::skip]
fn each_processor_has_its_own_enables_and_setting(rt: HostRuntime) -> Result<(), AllocError> {
    try_lines(&rt, rt.alloc(), &[
        // Write(processor, register, width, value)   Event(raised at ARM9, at ARM7, what starts)   Reads(processor, register, byte)
        // ARM9: V-count at line 5; ARM7: at line 260, whose bit 8 is bit 7
        Write(Nine, DISPSTAT, Half, 0x0520), Write(Seven, DISPSTAT, Half, 0x04A0), ToHblank(4), Event(VCOUNT_MATCH, 0, Nothing),
        Reads(Nine, DISPSTAT, 0x24), Reads(Nine, DISPSTAT + 1, 0x05), Reads(Seven, DISPSTAT, 0xA0),
        Reads(Seven, DISPSTAT + 1, 0x04),
        // the flag stays while the setting changes, and goes at the next line
        Write(Nine, DISPSTAT + 1, Byte, 9), Reads(Nine, DISPSTAT, 0x24),
        Event(0, 0, HblankDma), Reads(Nine, DISPSTAT, 0x26),
        Event(0, 0, Nothing), Reads(Nine, DISPSTAT, 0x20),
        // it isn't set in the middle of the line of a new setting
        Write(Nine, DISPSTAT + 1, Byte, 6), Reads(Nine, DISPSTAT, 0x20),
        ToHblank(259), Event(0, VCOUNT_MATCH, Nothing), Reads(Seven, DISPSTAT, 0xA5), Reads(Nine, DISPSTAT, 0x21),
    ])
}

#[test]
#[rattlefmt::skip]
fn vblank_and_hblank_are_raised_where_enabled(rt: HostRuntime) -> Result<(), AllocError> {
    try_lines(&rt, rt.alloc(), &[
        // Write(processor, register, width, value)   Event(raised at ARM9, at ARM7, what starts)
        Write(Nine, DISPSTAT, Byte, 0x08), Write(Seven, DISPSTAT, Byte, 0x10), Event(0, HBLANK, HblankDma),
        ToLine(191), Event(0, HBLANK, HblankDma), Event(VBLANK, 0, VblankDma),
        // H-blank is raised in lines that aren't drawn too
        Event(0, HBLANK, Nothing),
        // all three at ARM7: the setting is line 192
        Write(Seven, DISPSTAT, Half, 0xC038), Write(Nine, DISPSTAT, Half, 0), ToHblank(191),
        Event(0, VBLANK + VCOUNT_MATCH, VblankDma), Event(0, HBLANK, Nothing),
        ToLine(262), Event(0, HBLANK, Nothing),
    ])
}
