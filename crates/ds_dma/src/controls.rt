//! Control words, and what is read off them.

ghost use Rattle.std.specs.Prelude.{◌≡◌, ◌<◌, ◌≤◌, ◌+◌, ◌^◌};
ghost use Rattle.ds_base.specs.Interrupts.{interrupt_bit};
ghost use Rattle.ds_dma.specs.Controls.{greatest_count, channel_control_mask, kept_channel_control, units_counted, is_enabled, interrupts, repeats, disabled, unit_width, unit_bytes, target_mode, source_mode, latches_again, address_step, start_mode, starts_immediately, start_of_cause, waits_for, burst_of, is_left_out, refusal, is_armed_again, channel_interrupt};

use ds_base::{Interrupt, LeftKind, Proc, Stop, Width};

/// The units of a burst that the geometry FIFO triggers, where as many are left.
pub const BURST: u32 = 112;

/// A port of a channel (GBATEK, "DS DMA Transfers").
#[derive(Clone, Copy, PartialEq, Eq)]
pub enum DmaPort {
    /// DMAxSAD: where the units are read, 28 bits.
    Source,
    /// DMAxDAD: where they are written, 28 bits.
    Target,
    /// DMAxCNT: the count, how the addresses move, and when the channel starts.
    Control,
}

/// What triggers channels that are enabled and wait for it (GBATEK, "DS DMA Transfers", start modes).
#[derive(Clone, Copy, PartialEq, Eq)]
pub enum Cause {
    /// Line 192 begins: start 1 of both processors.
    VBlank,
    /// The H-blank of a visible line: ARM9's start 2.
    HBlank,
    /// A word of a card transfer is ready: ARM9's start 5, and ARM7's start 2.
    Card,
    /// The geometry FIFO is less than half full: ARM9's start 7, which runs in bursts.
    Geometry,
}

pub fn greatest(proc: Proc, which: u8) -> u32
    ensures value { result ≡ greatest_count proc which }
    ensures within { result ≤ 0x1FFFFF }
{
    match (proc, which) {
        (Proc::Nine, _) => 0x1F_FFFF,
        (Proc::Seven, 3) => 0xFFFF,
        (Proc::Seven, _) => 0x3FFF,
    }
}

pub fn mask(proc: Proc, which: u8) -> u32
    ensures { result ≡ channel_control_mask proc which }
{
    match (proc, which) {
        (Proc::Nine, _) => 0xFFFF_FFFF,
        (Proc::Seven, 3) => 0xF7E0_FFFF,
        (Proc::Seven, _) => 0xF7E0_3FFF,
    }
}

pub fn kept(proc: Proc, which: u8, value: u32) -> u32
    ensures { result ≡ kept_channel_control proc which value }
{
    value & mask(proc, which)
}

pub fn units(proc: Proc, which: u8, control: u32) -> u32
    ensures { result ≡ units_counted proc which control }
{
    let all = greatest(proc, which) + 1;
    match control % all {
        0 => all,
        count => count,
    }
}

pub fn enabled(control: u32) -> bool
    ensures { result ≡ is_enabled control }
{
    (control >> 31) & 1 == 1
}

pub fn raises(control: u32) -> bool
    ensures { result ≡ interrupts control }
{
    (control >> 30) & 1 == 1
}

pub fn again(proc: Proc, control: u32) -> bool
    ensures { result ≡ is_armed_again proc control }
{
    let repeats = (control >> 25) & 1 == 1;
    repeats && !starts_immediately(proc, control) && !waits(proc, Cause::Geometry, control)
}

pub fn without_enable(control: u32) -> u32
    ensures { result ≡ disabled control }
{
    control & 0x7FFF_FFFF
}

pub fn width(control: u32) -> Width
    ensures { result ≡ unit_width control }
{
    if (control >> 26) & 1 == 1 {
        Width::Word
    } else {
        Width::Half
    }
}

/// What is added to an address, modulo 2^32, from one unit to the next.
fn step(mode: u32, control: u32) -> u32
    ensures { result ≡ address_step mode (unit_bytes control) }
{
    let words = (control >> 26) & 1 == 1;
    match (mode, words) {
        (1, true) => 0xFFFF_FFFC,
        (1, false) => 0xFFFF_FFFE,
        (2, _) => 0,
        (_, true) => 4,
        (_, false) => 2,
    }
}

pub fn source_step(control: u32) -> u32
    ensures { result ≡ address_step (source_mode control) (unit_bytes control) }
{
    step((control >> 23) & 3, control)
}

pub fn target_step(control: u32) -> u32
    ensures { result ≡ address_step (target_mode control) (unit_bytes control) }
{
    step((control >> 21) & 3, control)
}

pub fn target_again(control: u32) -> bool
    ensures { result ≡ latches_again control }
{
    (control >> 21) & 3 == 3
}

fn start(proc: Proc, control: u32) -> u32
    ensures { result ≡ start_mode proc control }
{
    match proc {
        Proc::Nine => (control >> 27) & 7,
        Proc::Seven => (control >> 28) & 3,
    }
}

pub fn starts_immediately(proc: Proc, control: u32) -> bool
    ensures { result ≡ starts_immediately proc control }
{
    start(proc, control) == 0
}

pub fn waits(proc: Proc, cause: Cause, control: u32) -> bool
    ensures { result ≡ waits_for proc cause control }
{
    let start = start(proc, control);
    match (proc, cause) {
        (Proc::Nine, Cause::VBlank) => start == 1,
        (Proc::Nine, Cause::HBlank) => start == 2,
        (Proc::Nine, Cause::Card) => start == 5,
        (Proc::Nine, Cause::Geometry) => start == 7,
        (Proc::Seven, Cause::VBlank) => start == 1,
        (Proc::Seven, Cause::Card) => start == 2,
        (Proc::Seven, Cause::HBlank | Cause::Geometry) => false,
    }
}

/// How many units a channel with so many left moves in a burst that a cause triggers: 0 where it runs to the end of its count.
pub fn burst(cause: Cause, left: u32) -> u32
    ensures { result ≡ burst_of cause left }
{
    match cause {
        Cause::Geometry => left.min(BURST),
        Cause::VBlank | Cause::HBlank | Cause::Card => 0,
    }
}

fn left_out(proc: Proc, control: u32) -> bool
    ensures { result ≡ is_left_out proc control }
{
    let start = start(proc, control);
    match proc {
        Proc::Nine => start == 3 || start == 4 || start == 6,
        Proc::Seven => start == 3,
    }
}

/// Why a control isn't taken, if it isn't, from the old one and the one that would be kept.
pub fn refused(proc: Proc, old: u32, control: u32) -> Option<Stop>
    ensures { result ≡ refusal proc old control }
{
    if enabled(control) && !enabled(old) && left_out(proc, control) {
        return Some(Stop {
            kind: LeftKind::DmaStart,
            value: control,
        });
    }
    None
}

pub fn interrupt(which: u8) -> Interrupt
    ensures { result ≡ channel_interrupt which }
{
    match which {
        0 => Interrupt::Dma0,
        1 => Interrupt::Dma1,
        2 => Interrupt::Dma2,
        _ => Interrupt::Dma3,
    }
}
