//! What each processor's addresses name, past the tightly coupled memories: GBATEK, "DS Memory Map", with the borders of each region on
//! both sides.

use Memory::{Main, Oam, Own7, Palette, Shared};
use Proc::{Nine, Seven};
use Space::{ABg, AObj, Arm7, BBg, BObj, Lcdc};
use ds_base::{Memory, Proc, Space};
use ds_places::{Place, place};
use std::process::Abort;

/// A line of a table: an address, and what it names.
#[derive(Clone, Copy)]
enum Line {
    /// A byte of a memory.
    Cell(u32, Memory, u32),
    /// Banks of video memory, at an address of a space.
    Banks(u32, Space, u32),
    /// A port, by its offset.
    Port(u32, u32),
    /// A byte of the boot ROM.
    Rom(u32, u32),
    /// Nothing.
    Nothing(u32),
}

use Line::{Banks, Cell, Nothing, Port, Rom};

/// The address of a line, and what it names.
fn wanted(line: Line) -> (u32, Place) {
    match line {
        Cell(address, memory, at) => (address, Place::Cell { memory, at }),
        Banks(address, space, at) => (address, Place::Banks { space, at }),
        Port(address, at) => (address, Place::Port(at)),
        Rom(address, at) => (address, Place::Rom(at)),
        Nothing(address) => (address, Place::Nothing),
    }
}

/// What the addresses of the lines name, for a processor, where WRAMCNT keeps this.
fn try_lines(rt: &impl Abort, proc: Proc, wramcnt: u8, lines: &[Line]) {
    for line in lines {
        let (at, wanted) = wanted(*line);
        assert!(rt;
            place(proc, wramcnt % 4, at) == wanted,
            "{at:x} where WRAMCNT is {wramcnt}"
        );
    }
}

#[test]
fn arm9_sees_each_border_on_both_sides(rt: HostRuntime) {
    for wramcnt in 0..4u8 {
        try_lines(
            &rt,
            Nine,
            wramcnt,
            &[
                Nothing(0x0000_0000),
                Nothing(0x01ff_ffff),
                Cell(0x0200_0000, Main, 0),
                Cell(0x023f_ffff, Main, 0x3f_ffff),
                Cell(0x0240_0000, Main, 0),
                Cell(0x02ff_ffff, Main, 0x3f_ffff),
                Port(0x0400_0000, 0),
                Port(0x04ff_ffff, 0xff_ffff),
                Cell(0x0500_0000, Palette, 0),
                Cell(0x0500_0800, Palette, 0),
                Cell(0x05ff_ffff, Palette, 0x7ff),
                Banks(0x0600_0000, ABg, 0),
                Banks(0x0608_0000, ABg, 0),
                Banks(0x061f_ffff, ABg, 0x7_ffff),
                Banks(0x0620_0000, BBg, 0),
                Banks(0x0622_0000, BBg, 0),
                Banks(0x063f_ffff, BBg, 0x1_ffff),
                Banks(0x0640_0000, AObj, 0),
                Banks(0x0644_0000, AObj, 0),
                Banks(0x065f_ffff, AObj, 0x3_ffff),
                Banks(0x0660_0000, BObj, 0),
                Banks(0x0662_0000, BObj, 0),
                Banks(0x067f_ffff, BObj, 0x1_ffff),
                Banks(0x0680_0000, Lcdc, 0),
                Banks(0x0690_0000, Lcdc, 0),
                Banks(0x06ff_ffff, Lcdc, 0xf_ffff),
                Cell(0x0700_0000, Oam, 0),
                Cell(0x0700_0800, Oam, 0),
                Cell(0x07ff_ffff, Oam, 0x7ff),
                Nothing(0x0800_0000),
                Nothing(0x0a00_0000),
                Nothing(0x1200_0000),
                Nothing(0x2000_0000),
                Nothing(0x2200_0000),
                Nothing(0x4200_0000),
                Nothing(0x8200_0000),
                Nothing(0xff00_0000),
                Nothing(0xfffe_ffff),
                Rom(0xffff_0000, 0),
                Rom(0xffff_ffff, 0xffff),
            ],
        );
    }
}

#[test]
fn arm7_sees_each_border_on_both_sides(rt: HostRuntime) {
    for wramcnt in 0..4u8 {
        try_lines(
            &rt,
            Seven,
            wramcnt,
            &[
                Rom(0x0000_0000, 0),
                Rom(0x0000_3fff, 0x3fff),
                Nothing(0x0000_4000),
                Nothing(0x01ff_ffff),
                Cell(0x0200_0000, Main, 0),
                Cell(0x0240_0000, Main, 0),
                Cell(0x02ff_ffff, Main, 0x3f_ffff),
                Cell(0x0380_0000, Own7, 0),
                Cell(0x0380_8000, Own7, 0x8000),
                Cell(0x0381_0000, Own7, 0),
                Cell(0x03ff_ffff, Own7, 0xffff),
                Port(0x0400_0000, 0),
                Port(0x04ff_ffff, 0xff_ffff),
                Nothing(0x0500_0000),
                Nothing(0x05ff_ffff),
                Banks(0x0600_0000, Arm7, 0),
                Banks(0x0604_0000, Arm7, 0),
                Banks(0x06ff_ffff, Arm7, 0x3_ffff),
                Nothing(0x0700_0000),
                Nothing(0x0800_0000),
                Nothing(0x1200_0000),
                Nothing(0x2000_0000),
                Nothing(0x2200_0000),
                Nothing(0x4200_0000),
                Nothing(0x8200_0000),
                Nothing(0xffff_0000),
                Nothing(0xffff_ffff),
            ],
        );
    }
}

#[test]
fn wramcnt_shares_out_the_work_ram(rt: HostRuntime) {
    try_lines(
        &rt,
        Nine,
        0,
        &[
            Cell(0x0300_0000, Shared, 0),
            Cell(0x03ff_ffff, Shared, 0x7fff),
        ],
    );
    try_lines(
        &rt,
        Nine,
        1,
        &[
            Cell(0x0300_0000, Shared, 0x4000),
            Cell(0x03ff_ffff, Shared, 0x7fff),
        ],
    );
    try_lines(
        &rt,
        Nine,
        2,
        &[
            Cell(0x0300_0000, Shared, 0),
            Cell(0x03ff_ffff, Shared, 0x3fff),
        ],
    );
    try_lines(&rt, Nine, 3, &[Nothing(0x0300_0000), Nothing(0x03ff_ffff)]);
    try_lines(
        &rt,
        Seven,
        0,
        &[Cell(0x0300_0000, Own7, 0), Cell(0x037f_ffff, Own7, 0xffff)],
    );
    try_lines(
        &rt,
        Seven,
        1,
        &[
            Cell(0x0300_0000, Shared, 0),
            Cell(0x037f_ffff, Shared, 0x3fff),
        ],
    );
    try_lines(
        &rt,
        Seven,
        2,
        &[
            Cell(0x0300_0000, Shared, 0x4000),
            Cell(0x037f_ffff, Shared, 0x7fff),
        ],
    );
    try_lines(
        &rt,
        Seven,
        3,
        &[
            Cell(0x0300_0000, Shared, 0),
            Cell(0x037f_ffff, Shared, 0x7fff),
        ],
    );
}

/// Where WRAMCNT has a part of the shared work RAM, that part follows itself.
#[test]
fn the_shared_work_ram_repeats_by_its_part(rt: HostRuntime) {
    try_lines(
        &rt,
        Nine,
        0,
        &[
            Cell(0x0300_7fff, Shared, 0x7fff),
            Cell(0x0300_8000, Shared, 0),
        ],
    );
    try_lines(
        &rt,
        Nine,
        1,
        &[
            Cell(0x0300_3fff, Shared, 0x7fff),
            Cell(0x0300_4000, Shared, 0x4000),
        ],
    );
    try_lines(
        &rt,
        Nine,
        2,
        &[
            Cell(0x0300_3fff, Shared, 0x3fff),
            Cell(0x0300_4000, Shared, 0),
        ],
    );
    try_lines(&rt, Nine, 3, &[Nothing(0x0300_8000)]);
    try_lines(
        &rt,
        Seven,
        0,
        &[Cell(0x0300_8000, Own7, 0x8000), Cell(0x0301_0000, Own7, 0)],
    );
    try_lines(
        &rt,
        Seven,
        1,
        &[
            Cell(0x0300_3fff, Shared, 0x3fff),
            Cell(0x0300_4000, Shared, 0),
        ],
    );
    try_lines(
        &rt,
        Seven,
        2,
        &[
            Cell(0x0300_3fff, Shared, 0x7fff),
            Cell(0x0300_4000, Shared, 0x4000),
        ],
    );
    try_lines(
        &rt,
        Seven,
        3,
        &[
            Cell(0x0300_7fff, Shared, 0x7fff),
            Cell(0x0300_8000, Shared, 0),
        ],
    );
}
