//! The two address tables.

ghost use Rattle.std.specs.Prelude.{◌≡◌, ◌<◌, ◌≤◌, ◌+◌, ◌-◌, ◌/◌, ◌^◌};
ghost use Rattle.ds_places.specs.AddressTables.{place_of, place_at, place_by, regions_of, regions_of_nine, regions_of_seven, shared_for_nine, shared_for_seven, HasPlace, IsInside};

use crate::bounds::OWN7_FIRST;
use crate::kinds::Place;
use ds_base::{Memory, Proc, Space};

fn cell(memory: Memory, at: u32) -> Place
    ensures { result ≡ Place.Cell memory at }
{
    Place::Cell { memory, at }
}

fn banks(space: Space, at: u32) -> Place
    ensures { result ≡ Place.Banks space at }
{
    Place::Banks { space, at }
}

/// Shared work RAM as ARM9 sees it.
fn shared_for_nine(wramcnt: u8, at: u32) -> Place
    requires kept { wramcnt < 4 }
    requires region { 0x3000000 ≤ at }
    ensures value { result ≡ place_at (shared_for_nine wramcnt) (at - 0x3000000) }
    ensures within { IsInside result }
{
    match wramcnt {
        0 => cell(Memory::Shared, at % 0x8000),
        1 => cell(Memory::Shared, 0x4000 + at % 0x4000),
        2 => cell(Memory::Shared, at % 0x4000),
        _ => Place::Nothing,
    }
}

/// Shared work RAM as ARM7 sees it, or its own where it has none of it.
fn shared_for_seven(wramcnt: u8, at: u32) -> Place
    requires kept { wramcnt < 4 }
    requires region { 0x3000000 ≤ at }
    ensures value { result ≡ place_at (shared_for_seven wramcnt) (at - 0x3000000) }
    ensures within { IsInside result }
{
    match wramcnt {
        0 => cell(Memory::Own7, at % 0x10000),
        1 => cell(Memory::Shared, at % 0x4000),
        2 => cell(Memory::Shared, 0x4000 + at % 0x4000),
        _ => cell(Memory::Shared, at % 0x8000),
    }
}

/// ARM9's spaces of video memory.
fn video_for_nine(wramcnt: u8, at: u32) -> Place
    requires { at / 2 ^ 24 ≡ 6 }
    ensures value { result ≡ place_by (regions_of_nine wramcnt) at }
    ensures within { IsInside result }
{
    match (at >> 21) & 7 {
        0 => banks(Space::ABg, at % 0x80000),
        1 => banks(Space::BBg, at % 0x20000),
        2 => banks(Space::AObj, at % 0x40000),
        3 => banks(Space::BObj, at % 0x20000),
        _ => banks(Space::Lcdc, at % 0x100000),
    }
}

fn place_for_nine(wramcnt: u8, at: u32) -> Place
    requires { wramcnt < 4 }
    ensures value { result ≡ place_by (regions_of_nine wramcnt) at }
    ensures within { IsInside result }
{
    match at >> 24 {
        2 => cell(Memory::Main, at % 0x400000),
        3 => shared_for_nine(wramcnt, at),
        4 => Place::Port(at % 0x1000000),
        5 => cell(Memory::Palette, at % 0x800),
        6 => video_for_nine(wramcnt, at),
        7 => cell(Memory::Oam, at % 0x800),
        255 if at >= 0xffff_0000 => Place::Rom(at - 0xffff_0000),
        _ => Place::Nothing,
    }
}

fn place_for_seven(wramcnt: u8, at: u32) -> Place
    requires { wramcnt < 4 }
    ensures value { result ≡ place_by (regions_of_seven wramcnt) at }
    ensures within { IsInside result }
{
    match at >> 24 {
        0 if at < 0x4000 => Place::Rom(at),
        2 => cell(Memory::Main, at % 0x400000),
        3 if at < OWN7_FIRST => shared_for_seven(wramcnt, at),
        3 => cell(Memory::Own7, at % 0x10000),
        4 => Place::Port(at % 0x1000000),
        6 => banks(Space::Arm7, at % 0x40000),
        _ => Place::Nothing,
    }
}

/// The place that an address names for a processor, past ARM9's tightly coupled memories. `wramcnt` is what WRAMCNT keeps,
/// below 4. Ports and ROM bytes are given as offsets. Addresses aren't aligned here.
pub fn place(proc: Proc, wramcnt: u8, at: u32) -> Place
    requires { wramcnt < 4 }
    ensures value { result ≡ place_of proc wramcnt at }
    ensures stands { HasPlace (regions_of proc wramcnt) at result }
    ensures only { (other : Place) → HasPlace (regions_of proc wramcnt) at other → other ≡ result }
    ensures within { IsInside result }
{
    match proc {
        Proc::Nine => place_for_nine(wramcnt, at),
        Proc::Seven => place_for_seven(wramcnt, at),
    }
}
