//! Where each bank stands, by its control.

ghost use Rattle.std.specs.Prelude.{◌≡◌, ◌<◌, ◌≤◌, ◌+◌, ◌-◌, ◌%◌};
ghost use Rattle.ds_base.specs.Memories.{space_size};
ghost use Rattle.vram_banks.specs.BankMap.{first_cell, kept_bank_control, rows_of_ab, rows_of_cd, rows_of_e, rows_of_fg, rows_of_h, rows_of_i, row_by};
ghost use Rattle.vram_banks.specs.paging.Flat.{origin_of, window_by, window_of, no_window, IsRoomy};

use ds_base::Space;

/// The size of the largest space, of which every other space's size is a divisor.
pub const LARGEST: u32 = 0x100000;

/// A range of flat addresses, in which the first cells of a bank stand.
#[derive(Clone, Copy)]
pub struct Window {
    /// The first flat address.
    pub first: u32,
    /// How many bytes; 0 for a bank that stands nowhere.
    pub size: u32,
}

/// Where a space begins among the flat addresses.
#[inline(always)]
fn origin(space: Space) -> u32
    ensures { result ≡ origin_of space }
{
    match space {
        Space::ABg => 0,
        Space::BBg => 0x80000,
        Space::AObj => 0xa0000,
        Space::BObj => 0xe0000,
        Space::Lcdc => 0x100000,
        Space::Arm7 => 0x200000,
        Space::ABgPalette => 0x240000,
        Space::BBgPalette => 0x248000,
        Space::AObjPalette => 0x250000,
        Space::BObjPalette => 0x252000,
    }
}

/// A space's size less one, which is the mask of an address in it.
#[inline(always)]
fn mask(space: Space) -> u32
    ensures { result ≡ space_size space - 1 }
{
    match space {
        Space::ABg => 0x7ffff,
        Space::BBg => 0x1ffff,
        Space::AObj => 0x3ffff,
        Space::BObj => 0x1ffff,
        Space::Lcdc => 0xfffff,
        Space::Arm7 => 0x3ffff,
        Space::ABgPalette => 0x7fff,
        Space::BBgPalette => 0x7fff,
        Space::AObjPalette => 0x1fff,
        Space::BObjPalette => 0x1fff,
    }
}

/// The flat address of an address in a space, which is taken by remainder of the space's size. Where the space is the same in a loop, its origin and
/// its mask are found once.
#[inline(always)]
pub fn flat(space: Space, at: u32) -> u32
    ensures value { result ≡ origin_of space + at % space_size space }
    ensures small { result < 0x254000 }
{
    origin(space) + (at & mask(space))
}

/// How many bytes a space has from an address on, which is taken by remainder of its size.
#[inline(always)]
pub fn rest_of(space: Space, at: u32) -> u32
    ensures { result ≡ space_size space - at % space_size space }
{
    mask(space) - (at & mask(space)) + 1
}

/// Where a bank's bytes begin in the memory of all banks.
#[tactic(auto, unfolding(crate::specs::BankMap::first_cell))]
pub fn first_cell(bank: u8) -> u32
    requires { bank < 9 }
    ensures { result ≡ first_cell bank }
{
    match bank {
        0..=3 => bank as u32 * 0x20000,
        4 => 0x80000,
        5 => 0x90000,
        6 => 0x94000,
        7 => 0x98000,
        _ => 0xa0000,
    }
}

/// What a bank's control keeps of a byte that is written to it: MST, of two bits for A, B, H and I and of three for the others, OFS in
/// bits 3 and 4, and bit 7.
pub fn kept_bank_control(bank: u8, written: u8) -> u8
    ensures { result ≡ kept_bank_control bank written }
{
    let mst = if bank < 2 || 6 < bank {
        written % 4
    } else {
        written % 8
    };
    mst + (written >> 3) % 4 * 8 + (written >> 7) * 128
}

/// The window of a bank that stands nowhere.
pub fn nowhere() -> Window
    ensures { result ≡ no_window }
{
    Window { first: 0, size: 0 }
}

fn window_in(space: Space, base: u32, size: u32) -> Window
    requires { base < 0x100000 }
    ensures { result ≡ record { first = origin_of space + base; size = size } }
{
    Window {
        first: origin(space) + base,
        size,
    }
}

fn window_of_ab(lcdc: u32, mst: u8, control: u8) -> Window
    requires whole { lcdc % 8192 ≡ 0 }
    requires inside { lcdc ≤ 0xA0000 }
    ensures value { result ≡ window_by (row_by (rows_of_ab lcdc) mst) control }
    ensures roomy { IsRoomy 0x20000 result }
{
    let low = (control >> 3) as u32 % 2 * 0x20000;
    let high = (control >> 4) as u32 % 2 * 0x40000;
    match mst {
        0 => window_in(Space::Lcdc, lcdc, 0x20000),
        1 => window_in(Space::ABg, low + high, 0x20000),
        2 => window_in(Space::AObj, low, 0x20000),
        _ => nowhere(),
    }
}

fn window_of_cd(lcdc: u32, fourth: Space, mst: u8, control: u8) -> Window
    requires whole { lcdc % 8192 ≡ 0 }
    requires inside { lcdc ≤ 0xA0000 }
    requires fourth { origin_of fourth ≤ 0x100000 }
    ensures value { result ≡ window_by (row_by (rows_of_cd lcdc fourth) mst) control }
    ensures roomy { IsRoomy 0x20000 result }
{
    let low = (control >> 3) as u32 % 2 * 0x20000;
    let high = (control >> 4) as u32 % 2 * 0x40000;
    match mst {
        0 => window_in(Space::Lcdc, lcdc, 0x20000),
        1 => window_in(Space::ABg, low + high, 0x20000),
        2 => window_in(Space::Arm7, low, 0x20000),
        4 => window_in(fourth, 0, 0x20000),
        _ => nowhere(),
    }
}

fn window_of_e(mst: u8, control: u8) -> Window
    ensures value { result ≡ window_by (row_by rows_of_e mst) control }
    ensures roomy { IsRoomy 0x10000 result }
{
    match mst {
        0 => window_in(Space::Lcdc, 0x80000, 0x10000),
        1 => window_in(Space::ABg, 0, 0x10000),
        2 => window_in(Space::AObj, 0, 0x10000),
        4 => window_in(Space::ABgPalette, 0, 0x8000),
        _ => nowhere(),
    }
}

fn window_of_fg(lcdc: u32, mst: u8, control: u8) -> Window
    requires whole { lcdc % 8192 ≡ 0 }
    requires inside { lcdc ≤ 0xA0000 }
    ensures value { result ≡ window_by (row_by (rows_of_fg lcdc) mst) control }
    ensures roomy { IsRoomy 0x4000 result }
{
    let low = (control >> 3) as u32 % 2 * 0x4000;
    let high = (control >> 4) as u32 % 2 * 0x10000;
    match mst {
        0 => window_in(Space::Lcdc, lcdc, 0x4000),
        1 => window_in(Space::ABg, low + high, 0x4000),
        2 => window_in(Space::AObj, low + high, 0x4000),
        4 => window_in(Space::ABgPalette, low, 0x4000),
        5 => window_in(Space::AObjPalette, 0, 0x2000),
        _ => nowhere(),
    }
}

fn window_of_h(mst: u8, control: u8) -> Window
    ensures value { result ≡ window_by (row_by rows_of_h mst) control }
    ensures roomy { IsRoomy 0x8000 result }
{
    match mst {
        0 => window_in(Space::Lcdc, 0x98000, 0x8000),
        1 => window_in(Space::BBg, 0, 0x8000),
        2 => window_in(Space::BBgPalette, 0, 0x8000),
        _ => nowhere(),
    }
}

fn window_of_i(mst: u8, control: u8) -> Window
    ensures value { result ≡ window_by (row_by rows_of_i mst) control }
    ensures roomy { IsRoomy 0x4000 result }
{
    match mst {
        0 => window_in(Space::Lcdc, 0xa0000, 0x4000),
        1 => window_in(Space::BBg, 0x8000, 0x4000),
        2 => window_in(Space::BObj, 0, 0x4000),
        3 => window_in(Space::BObjPalette, 0, 0x2000),
        _ => nowhere(),
    }
}

/// Where a bank stands by its control.
#[tactic(auto, unfolding(crate::specs::paging::Flat::window_of, crate::specs::BankMap::first_cell))]
pub fn bank_window(bank: u8, control: u8) -> Window
    requires { bank < 9 }
    ensures value { result ≡ window_of bank control }
    ensures roomy { IsRoomy (0xA4000 - first_cell bank) result }
{
    if control >> 7 == 0 {
        return nowhere();
    }
    let mst = control % 8;
    match bank {
        0 => window_of_ab(0, mst, control),
        1 => window_of_ab(0x20000, mst, control),
        2 => window_of_cd(0x40000, Space::BBg, mst, control),
        3 => window_of_cd(0x60000, Space::BObj, mst, control),
        4 => window_of_e(mst, control),
        5 => window_of_fg(0x90000, mst, control),
        6 => window_of_fg(0x94000, mst, control),
        7 => window_of_h(mst, control),
        _ => window_of_i(mst, control),
    }
}
