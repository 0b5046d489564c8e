//! The display's events in the machine, while both processors are halted.

use crate::tests::told::Line::{Due, First, Frame, Main, NotDue, Pixel, Steps, Stops, Took, Until};
use crate::tests::told::{Line, file, script, try_lines};
use ds_base::{LeftKind, Stop};
use std::alloc::{AllocError, Global};
use std::process::Abort;

/// mov r0, #0x4000000: the ports.
const PORTS: u32 = 0xE3A0_0301;

/// add r3, r0, #0x200, and add r3, r0, #0x300.
const CONTROLS: u32 = 0xE280_3C02;

const POWER: u32 = 0xE280_3C03;

/// mcr p15, 0, r0, c7, c0, 4: ARM9 halts.
const WAIT: u32 = 0xEE07_0F90;

/// A branch to itself.
const LOOP: u32 = 0xEAFF_FFFE;

/// ARM7 halts, and would not wake.
const HALT_OF_SEVEN: [u32; 4] = [
    PORTS,
    0xE3A0_1080, // mov r1, #0x80
    0xE5C0_1301, // strb r1, [r0, #0x301]: HALTCNT
    LOOP,
];

/// Display mode 3.
const MODE_3: Stop = Stop {
    kind: LeftKind::DisplayMode,
    value: 3,
};

/// Lines of a machine with two programs; a line of keys comes at tick 5.
fn try_programs(
    rt: &impl Abort,
    alloc: Global,
    nine: &[u32],
    seven: &[u32],
    lines: &[Line],
) -> Result<(), AllocError> {
    let file = file(alloc, nine, seven)?;
    let keys = script(alloc, 5, 0)?;
    try_lines(rt, alloc, file, keys, lines)
}

#[test]
fn each_processor_wakes_by_its_own_interrupt(rt: HostRuntime) -> Result<(), AllocError> {
    const NINE: [u32; 8] = [
        PORTS,
        0xE3A0_1010, // mov r1, #0x10
        0xE1C0_10B4, // strh r1, [r0, #4]: DISPSTAT, H-blank
        0xE3A0_2002, // mov r2, #2
        CONTROLS,
        0xE583_2010, // str r2, [r3, #0x10]: IE
        WAIT,
        LOOP,
    ];
    const SEVEN: [u32; 9] = [
        PORTS,
        0xE3A0_1E12, // mov r1, #0x120
        0xE1C0_10B4, // strh r1, [r0, #4]: DISPSTAT, V-count at line 1
        0xE3A0_2004, // mov r2, #4
        CONTROLS,
        0xE583_2010, // str r2, [r3, #0x10]: IE
        0xE3A0_4080, // mov r4, #0x80
        0xE5C3_4101, // strb r4, [r3, #0x101]: HALTCNT
        LOOP,
    ];
    const LINES: [Line; 16] = [
        Until(3212),
        Took(7, 8, 1),
        NotDue(22),
        NotDue(23),
        First(3212, 1),
        // line 0's H-blank
        Steps(1),
        Took(7, 8, 2),
        Due(22, 3213),
        NotDue(23),
        Due(1, 4260),
        // line 1 starts
        Until(4260),
        NotDue(23),
        First(4260, 1),
        Steps(1),
        Due(23, 4261),
        Due(1, 7472),
    ];
    try_programs(&rt, rt.alloc(), &NINE, &SEVEN, &LINES)
}

#[test]
fn v_blank_wakes_whom_it_interrupts_and_makes_a_frame_whole(
    rt: HostRuntime,
) -> Result<(), AllocError> {
    const NINE: [u32; 11] = [
        PORTS,
        0xE3A0_1008, // mov r1, #8
        0xE1C0_10B4, // strh r1, [r0, #4]: DISPSTAT, V-blank
        0xE3A0_2001, // mov r2, #1
        CONTROLS,
        0xE583_2010, // str r2, [r3, #0x10]: IE
        0xE3A0_2003, // mov r2, #3
        POWER,
        0xE1C3_20B4, // strh r2, [r3, #4]: POWCNT1, engine A is enabled and drawn on the lower screen
        WAIT,
        LOOP,
    ];
    const LINES: [Line; 14] = [
        Until(3212),
        Took(10, 3, 1),
        // line 0's H-blank to that of line 191
        Steps(383),
        First(817_920, 1),
        NotDue(22),
        Pixel(49_152, 0),
        Frame,
        Took(10, 3, 385),
        Due(22, 817_921),
        NotDue(23),
        // without layers engine A's screen is white; engine B is disabled
        Pixel(0, 0),
        Pixel(49_151, 0),
        Pixel(49_152, 0x7FFF),
        Pixel(98_303, 0x7FFF),
    ];
    try_programs(&rt, rt.alloc(), &NINE, &HALT_OF_SEVEN, &LINES)
}

#[test]
fn h_blank_moves_a_unit_at_each_drawn_line(rt: HostRuntime) -> Result<(), AllocError> {
    const NINE: [u32; 10] = [
        PORTS,
        0xE3A0_1402, // mov r1, #0x2000000
        0xE580_10B0, // str r1, [r0, #0xb0]: the source
        0xE3A0_1622, // mov r1, #0x2200000
        0xE580_10B4, // str r1, [r0, #0xb4]: the target
        0xE3A0_1497, // mov r1, #0x97000000
        0xE381_1001, // orr r1, r1, #1
        0xE580_10B8, // str r1, [r0, #0xb8]: one word of the same place at each H-blank
        WAIT,
        LOOP,
    ];
    const LINES: [Line; 19] = [
        Until(3212),
        Took(9, 3, 1),
        NotDue(14),
        Steps(1),
        First(3216, 14),
        Main(0x20_0000, 0),
        Steps(1),
        NotDue(14),
        Main(0x20_0000, 0x01),
        Main(0x20_0001, 0x03),
        Main(0x20_0003, 0xE3),
        Main(0x20_0004, 0),
        First(4260, 1),
        // up to line 192's H-blank
        Until(821_132),
        Main(0x20_02FC, 0x01),
        Main(0x20_0300, 0),
        Steps(1),
        NotDue(14),
        First(822_180, 1),
    ];
    try_programs(&rt, rt.alloc(), &NINE, &HALT_OF_SEVEN, &LINES)
}

#[test]
fn a_line_that_needs_what_is_left_out_stops_the_machine(rt: HostRuntime) -> Result<(), AllocError> {
    const NINE: [u32; 10] = [
        PORTS,
        0xE3A0_1010, // mov r1, #0x10
        0xE1C0_10B4, // strh r1, [r0, #4]: DISPSTAT, H-blank
        0xE3A0_1803, // mov r1, #0x30000
        0xE580_1000, // str r1, [r0]: DISPCNT, display mode 3
        0xE3A0_2002, // mov r2, #2
        POWER,
        0xE1C3_20B4, // strh r2, [r3, #4]: POWCNT1
        WAIT,
        LOOP,
    ];
    const LINES: [Line; 7] = [
        Until(3212),
        Took(9, 3, 1),
        Stops(3212, 1, MODE_3),
        // it isn't counted, and stays due
        Took(9, 3, 1),
        NotDue(22),
        NotDue(23),
        First(3212, 1),
    ];
    try_programs(&rt, rt.alloc(), &NINE, &HALT_OF_SEVEN, &LINES)
}
