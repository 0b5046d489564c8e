//! Which steps observe geometry. All ticks are worked by hand from the instructions' costs.

use crate::tests::told::Line::{
    ActingSteps, Acts, Behind, Due, First, Next, NotDue, Observes, Quiet, Steps, Took, Until,
};
use crate::tests::told::{Line, file, script, try_lines};
use std::alloc::{AllocError, Global};
use std::process::Abort;

/// mov r0, #0x4000000: the ports.
const PORTS: u32 = 0xE3A0_0301;

/// A branch to itself.
const LOOP: u32 = 0xEAFF_FFFE;

/// ARM7 halts, at tick 20, and would not wake.
const HALT_OF_SEVEN: [u32; 4] = [
    PORTS,
    0xE3A0_1080, // mov r1, #0x80
    0xE5C0_1301, // strb r1, [r0, #0x301]: HALTCNT
    LOOP,
];

/// Lines of a machine with a program of ARM9, while ARM7 is halted.
fn try_program(
    rt: &impl Abort,
    alloc: Global,
    nine: &[u32],
    lines: &[Line],
) -> Result<(), AllocError> {
    let file = file(alloc, nine, &HALT_OF_SEVEN)?;
    let keys = script(alloc, 0x8000, 0)?;
    try_lines(rt, alloc, file, keys, lines)
}

#[test]
fn steps_of_arm9_observe_by_their_accesses(rt: HostRuntime) -> Result<(), AllocError> {
    const LINES: [Line; 35] = [
        Observes(22, false),
        Observes(23, false),
        Until(40),
        Next(8, 0xE590_1600),
        Observes(22, true),
        Steps(1),
        Next(9, 0x0590_1600),
        Observes(22, false),
        Steps(1),
        Next(10, 0xE580_10B8),
        Observes(22, true),
        Steps(1),
        Next(11, 0xE580_10B0),
        Observes(22, false),
        Steps(1),
        Next(12, 0xE1D0_16B0),
        Observes(22, true),
        Steps(1),
        Next(13, 0xE5D0_1064),
        Observes(22, false),
        Steps(1),
        Next(14, 0xE590_16FC),
        Observes(22, true),
        Steps(1),
        Next(15, 0xE590_1700),
        Observes(22, false),
        Steps(1),
        Next(16, 0xE280_2FFF),
        Observes(22, false),
        Steps(1),
        Next(17, 0xE892_0018),
        Observes(22, true),
        Steps(1),
        Next(18, LOOP),
        Observes(22, false),
    ];
    const ALL: [u32; 19] = [
        PORTS,
        PORTS,
        PORTS,
        PORTS,
        PORTS,
        PORTS,
        PORTS,
        PORTS,
        0xE590_1600, // ldr r1, [r0, #0x600]: GXSTAT
        0x0590_1600, // ldreq r1, [r0, #0x600], which isn't executed
        0xE580_10B8, // str r1, [r0, #0xB8]: DMA0CNT
        0xE580_10B0, // str r1, [r0, #0xB0]: DMA0SAD
        0xE1D0_16B0, // ldrh r1, [r0, #0x60]: DISP3DCNT
        0xE5D0_1064, // ldrb r1, [r0, #0x64]: DISPCAPCNT
        0xE590_16FC, // ldr r1, [r0, #0x6FC]
        0xE590_1700, // ldr r1, [r0, #0x700]
        0xE280_2FFF, // add r2, r0, #0x3FC
        0xE892_0018, // ldmia r2, {r3, r4}: at 3FCh and at 400h
        LOOP,
    ];
    try_program(&rt, rt.alloc(), &ALL, &LINES)
}

#[test]
fn units_of_dma_observe_by_their_places(rt: HostRuntime) -> Result<(), AllocError> {
    const NINE: [u32; 12] = [
        PORTS,
        0xE3A0_1402, // mov r1, #0x2000000
        0xE280_2B01, // add r2, r0, #0x400: GXFIFO
        0xE3A0_3321, // mov r3, #0x84000000: words, at once
        0xE383_3001, // orr r3, r3, #1
        0xE580_10B0, // str r1, [r0, #0xB0]: DMA0SAD
        0xE580_20B4, // str r2, [r0, #0xB4]: DMA0DAD
        0xE580_10BC, // str r1, [r0, #0xBC]: DMA1SAD
        0xE580_10C0, // str r1, [r0, #0xC0]: DMA1DAD
        0xE580_30C4, // str r3, [r0, #0xC4]: DMA1CNT
        0xE580_30B8, // str r3, [r0, #0xB8]: DMA0CNT
        LOOP,
    ];
    const LINES: [Line; 14] = [
        // DMA1 moves a word within main memory
        Until(54),
        Observes(15, false),
        NotDue(14),
        NotDue(22),
        Steps(1),
        Next(10, 0xE580_30B8),
        NotDue(15),
        // DMA0 moves one to GXFIFO
        Observes(22, true),
        Steps(1),
        Observes(14, true),
        NotDue(22),
        Steps(1),
        NotDue(14),
        Observes(22, false),
    ];
    try_program(&rt, rt.alloc(), &NINE, &LINES)
}

#[test]
fn the_start_of_line_192_observes(rt: HostRuntime) -> Result<(), AllocError> {
    const NINE: [u32; 2] = [
        0xEE07_0F90, // mcr p15, 0, r0, c7, c0, 4: ARM9 halts
        LOOP,
    ];
    const LINES: [Line; 12] = [
        Due(1, 3212),
        Observes(1, false),
        // line 191's H-blank
        Until(816_872),
        Due(1, 816_872),
        Observes(1, false),
        Steps(1),
        Due(1, 817_920),
        Observes(1, true),
        Steps(1),
        Due(1, 821_132),
        Observes(1, false),
        NotDue(22),
    ];
    try_program(&rt, rt.alloc(), &NINE, &LINES)
}

#[test]
fn quiet_geometry_waits_for_a_step_that_observes_it(rt: HostRuntime) -> Result<(), AllocError> {
    const NINE: [u32; 8] = [
        PORTS,
        0xE580_1454, // str r1, [r0, #0x454], at 5: MTX_IDENTITY, done at 43
        0xE3A0_2002, // mov r2, #2
        0xE252_2001, // subs r2, r2, #1, at 17 and 29
        0x1AFF_FFFD, // bne to it
        0xE1A0_0000, // mov r0, r0, at 39
        0xE590_1600, // ldr r1, [r0, #0x600], at 44: GXSTAT
        LOOP,
    ];
    const LINES: [Line; 26] = [
        Quiet(false),
        Behind(1000, 23, false),
        // ARM9 at 0 and 5, ARM7 at 0
        ActingSteps(3),
        Quiet(true),
        Due(12, 43),
        First(10, 23),
        Acts(10, 23),
        Behind(43, 0, false),
        Behind(43, 12, false),
        Behind(43, 13, true),
        Behind(44, 0, true),
        // ARM7 at 10 and 20, ARM9 up to 39
        ActingSteps(8),
        Took(8, 3, 0),
        First(43, 12),
        Acts(44, 22),
        Quiet(true),
        Behind(44, 22, true),
        Observes(12, false),
        Observes(22, true),
        // geometry's step, and then the load
        ActingSteps(1),
        Took(9, 3, 1),
        NotDue(12),
        Quiet(false),
        Behind(44, 22, false),
        First(52, 22),
        Acts(52, 22),
    ];
    try_program(&rt, rt.alloc(), &NINE, &LINES)
}
