//! Geometry's commands in the machine: stalls, the FIFO's interrupt and DMA, and the swap. All ticks are worked by hand from the costs of instructions and of commands.

use crate::tests::told::Line::{
    Due, First, Lists, Main, NotDue, Sees, Steps, SwappedFrame, Took, Until,
};
use crate::tests::told::{Line, file, script, try_lines};
use ds_base::Proc::Nine;
use ds_machine::Seen;
use std::alloc::{AllocError, Global};
use std::process::Abort;

/// mov r0, #0x4000000: the ports.
const PORTS: u32 = 0xE3A0_0301;

/// mcr p15, 0, r0, c7, c0, 4: ARM9 halts.
const WAIT: u32 = 0xEE07_0F90;

/// A branch to itself.
const LOOP: u32 = 0xEAFF_FFFE;

/// r1 is made 0x15151515, a packed word of four MTX_IDENTITY, each of which takes 19 bus clocks.
const FOUR_A: u32 = 0xE3A0_1015; // mov r1, #0x15

const FOUR_B: u32 = 0xE181_1401; // orr r1, r1, r1, lsl #8

const FOUR_C: u32 = 0xE181_1801; // orr r1, r1, r1, lsl #16

/// str r1, [r0, #0x540]: SWAP_BUFFERS, which takes 392 bus clocks.
const SWAP: u32 = 0xE580_1540;

/// str r1, [r0, #0x454]: MTX_IDENTITY.
const IDENTITY: u32 = 0xE580_1454;

/// str r1, [r0, #0x400]: GXFIFO.
const PACKED: u32 = 0xE580_1400;

/// ARM7 halts, and would not wake.
const HALT_OF_SEVEN: [u32; 4] = [
    PORTS,
    0xE3A0_1080, // mov r1, #0x80
    0xE5C0_1301, // strb r1, [r0, #0x301]: HALTCNT
    LOOP,
];

/// Lines of a machine with two programs; a line of keys comes at tick 32,768.
fn try_programs(
    rt: &impl Abort,
    alloc: Global,
    nine: &[u32],
    seven: &[u32],
    lines: &[Line],
) -> Result<(), AllocError> {
    let file = file(alloc, nine, seven)?;
    let keys = script(alloc, 0x8000, 0)?;
    try_lines(rt, alloc, file, keys, lines)
}

#[test]
fn a_stall_holds_arm9_and_not_arm7(rt: HostRuntime) -> Result<(), AllocError> {
    const NINE: [u32; 11] = [
        PORTS,
        FOUR_A,
        FOUR_B,
        FOUR_C,
        SWAP, // at 20: done at 804
        PACKED, // at 27, and then every 7 ticks, but for 7 of the branch behind each fifth
        PACKED,
        PACKED,
        PACKED,
        PACKED,
        0xEAFF_FFF9, // b to the first
    ];
    const SEVEN: [u32; 1] = [LOOP];
    const LINES: [Line; 21] = [
        // with the swap's entry and 64 words 257 wait, and ARM9 goes on
        Until(559),
        Due(22, 559),
        Due(12, 804),
        // the 65th makes 261: ARM9's branch would be due at 566
        Until(560),
        NotDue(22),
        Sees(Nine, Seen::Idle),
        Due(23, 560),
        Until(804),
        NotDue(22),
        Took(82, 58, 0),
        First(804, 12),
        // 260 are left: ARM9 is due at the next tick, and the swap holds geometry
        Steps(1),
        Due(22, 805),
        NotDue(12),
        Due(23, 812),
        Steps(1),
        Due(22, 812),
        // one more word
        Steps(1),
        NotDue(22),
        Due(23, 812),
        Took(84, 58, 1),
    ];
    try_programs(&rt, rt.alloc(), &NINE, &SEVEN, &LINES)
}

#[test]
fn line_192_swaps_and_a_stall_ends_after_it(rt: HostRuntime) -> Result<(), AllocError> {
    const NINE: [u32; 11] = [
        PORTS,
        FOUR_A,
        FOUR_B,
        FOUR_C,
        SWAP,
        PACKED,
        PACKED,
        PACKED,
        PACKED,
        PACKED,
        0xEAFF_FFF9, // b to the first
    ];
    const LINES: [Line; 16] = [
        Until(813),
        NotDue(22),
        NotDue(12),
        Until(817_920),
        NotDue(22),
        Lists(0, 0),
        First(817_920, 1),
        SwappedFrame,
        Lists(817_920, 0),
        // 264 wait; each command takes 38 ticks from the swap on
        Due(12, 817_958),
        Until(818_072),
        NotDue(22),
        First(818_072, 12),
        Steps(1),
        Due(22, 818_073),
        Due(12, 818_110),
    ];
    try_programs(&rt, rt.alloc(), &NINE, &HALT_OF_SEVEN, &LINES)
}

#[test]
fn a_stall_holds_the_channels_of_arm9(rt: HostRuntime) -> Result<(), AllocError> {
    const NINE: [u32; 15] = [
        PORTS,
        FOUR_A,
        FOUR_B,
        FOUR_C,
        SWAP, // at 20: done at 804
        0xE3A0_2402, // mov r2, #0x2000000
        0xE582_1000, // str r1, [r2]
        0xE580_20B0, // str r2, [r0, #0xb0]: the source
        0xE280_3B01, // add r3, r0, #0x400
        0xE580_30B4, // str r3, [r0, #0xb4]: the target, GXFIFO
        0xE3A0_2485, // mov r2, #0x85000000: words, from one place ..
        0xE382_2501, // orr r2, r2, #0x400000: .. to one place
        0xE382_2042, // orr r2, r2, #66
        0xE580_20B8, // str r2, [r0, #0xb8], at 75: a unit from 79 on, every 10 ticks by the waits for main memory and a port
        LOOP,
    ];
    const LINES: [Line; 15] = [
        Until(719),
        Due(14, 719),
        NotDue(22),
        // the 65th unit makes 261; the last would be due at 729
        Steps(1),
        NotDue(14),
        NotDue(22),
        First(804, 12),
        Took(14, 3, 65),
        // ARM9 is held by its channel still
        Steps(1),
        Due(14, 805),
        NotDue(22),
        // and after its last unit by the next stall
        Steps(1),
        NotDue(14),
        NotDue(22),
        NotDue(12),
    ];
    try_programs(&rt, rt.alloc(), &NINE, &HALT_OF_SEVEN, &LINES)
}

#[test]
fn a_stall_that_ends_early_leaves_the_later_tick(rt: HostRuntime) -> Result<(), AllocError> {
    const NINE: [u32; 25] = [
        PORTS,
        FOUR_A,
        FOUR_B,
        FOUR_C,
        SWAP, // at 20: done at 804
        0xE1A0_5001, // mov r5, r1
        0xE1A0_6001, // mov r6, r1
        0xE1A0_7001, // mov r7, r1
        0xE1A0_8001, // mov r8, r1
        0xE280_3B01, // add r3, r0, #0x400
        0xE3A0_400A, // mov r4, #10
        PACKED, // at 57, six of 42 ticks, and then every 54, the last at 578: 241 entries
        PACKED,
        PACKED,
        PACKED,
        PACKED,
        PACKED,
        0xE254_4001, // subs r4, r4, #1
        0x1AFF_FFF7, // bne to the first PACKED
        0xE3A0_4010, // mov r4, #16, at 595
        0xE254_4001, // subs r4, r4, #1: 190 ticks
        0x1AFF_FFFD, // bne to it
        0xE3A0_2000, // mov r2, #0, at 790
        0xE883_01E2, // stmia r3, {r1, r5-r8}, at 795: 20 entries, in 19 ticks
        LOOP,
    ];
    const LINES: [Line; 7] = [
        Until(795),
        Due(22, 795),
        Steps(1),
        NotDue(22),
        First(804, 12),
        Steps(1),
        Due(22, 814),
    ];
    try_programs(&rt, rt.alloc(), &NINE, &HALT_OF_SEVEN, &LINES)
}

#[test]
fn the_level_wakes_arm9_and_stays_when_it_is_acknowledged(
    rt: HostRuntime,
) -> Result<(), AllocError> {
    const NINE: [u32; 22] = [
        PORTS,
        0xE3A0_6602, // mov r6, #0x200000
        0xE280_4C02, // add r4, r0, #0x200
        0xE584_6010, // str r6, [r4, #0x10]: IE, bit 21
        FOUR_A,
        FOUR_B,
        FOUR_C,
        PACKED, // at 37: the first command is done at 75
        PACKED, // eight entries: GXSTAT's count is 4
        0xE3A0_2102, // mov r2, #0x80000000
        0xE280_3C06, // add r3, r0, #0x600
        0xE583_2000, // str r2, [r3]: GXSTAT, an interrupt where it is empty
        WAIT, // at 68
        0xE584_6014, // str r6, [r4, #0x14], at 190: it is acknowledged
        0xE594_5014, // ldr r5, [r4, #0x14]: IF
        0xE3A0_7622, // mov r7, #0x2200000
        0xE587_5000, // str r5, [r7]
        0xE3A0_2000, // mov r2, #0
        0xE583_2000, // str r2, [r3]: no interrupt any more
        0xE594_5014, // ldr r5, [r4, #0x14]
        0xE587_5004, // str r5, [r7, #4]
        LOOP, // at 248
    ];
    const LINES: [Line; 15] = [
        Until(151),
        NotDue(22),
        Steps(1),
        // five wait: the count is 1
        NotDue(22),
        Took(13, 3, 3),
        First(189, 12),
        Steps(1),
        Due(22, 190),
        Due(12, 227),
        Main(0x20_0002, 0),
        Until(248),
        Main(0x20_0000, 0),
        Main(0x20_0002, 0x20),
        Main(0x20_0006, 0),
        Due(22, 248),
    ];
    try_programs(&rt, rt.alloc(), &NINE, &HALT_OF_SEVEN, &LINES)
}

#[test]
fn the_step_that_arms_a_channel_starts_it(rt: HostRuntime) -> Result<(), AllocError> {
    const NINE: [u32; 9] = [
        PORTS,
        0xE3A0_1402, // mov r1, #0x2000000
        0xE580_10B0, // str r1, [r0, #0xb0]: the source
        0xE3A0_1622, // mov r1, #0x2200000
        0xE580_10B4, // str r1, [r0, #0xb4]: the target
        0xE3A0_24BC, // mov r2, #0xbc000000: words, by the geometry FIFO
        0xE382_2001, // orr r2, r2, #1
        0xE580_20B8, // str r2, [r0, #0xb8], at 39
        LOOP,
    ];
    const LINES: [Line; 9] = [
        Until(40),
        Due(14, 43),
        NotDue(22),
        Main(0x20_0000, 0),
        Until(44),
        NotDue(14),
        // its two waits, of 4 ticks each, and one tick more
        Due(22, 52),
        Main(0x20_0000, 0x01),
        Main(0x20_0003, 0xE3),
    ];
    try_programs(&rt, rt.alloc(), &NINE, &HALT_OF_SEVEN, &LINES)
}

#[test]
fn the_command_that_makes_room_starts_a_channel(rt: HostRuntime) -> Result<(), AllocError> {
    const NINE: [u32; 21] = [
        PORTS,
        FOUR_A,
        FOUR_B,
        FOUR_C,
        SWAP, // at 20: done at 804
        0xE3A0_4020, // mov r4, #32
        PACKED, // at 32, and then every 19 ticks, the last at 621
        0xE254_4001, // subs r4, r4, #1
        0x1AFF_FFFC, // bne to PACKED
        IDENTITY, // at 638
        IDENTITY,
        IDENTITY, // 132 entries wait: GXSTAT's count is 128
        0xE3A0_1402, // mov r1, #0x2000000
        0xE580_10B0, // str r1, [r0, #0xb0]: the source
        0xE3A0_1622, // mov r1, #0x2200000
        0xE580_10B4, // str r1, [r0, #0xb4]: the target
        0xE3A0_24BC, // mov r2, #0xbc000000: words, by the geometry FIFO
        0xE382_2001, // orr r2, r2, #1
        0xE580_20B8, // str r2, [r0, #0xb8], at 693
        WAIT,
        LOOP,
    ];
    const LINES: [Line; 11] = [
        Until(804),
        NotDue(14),
        NotDue(22),
        First(804, 12),
        Steps(1),
        First(808, 14),
        NotDue(22),
        Steps(1),
        NotDue(14),
        // ARM9 is halted still: neither a channel's end nor a command wakes it
        NotDue(22),
        Main(0x20_0000, 0x01),
    ];
    try_programs(&rt, rt.alloc(), &NINE, &HALT_OF_SEVEN, &LINES)
}

#[test]
fn line_192_gives_out_the_lists(rt: HostRuntime) -> Result<(), AllocError> {
    const NINE: [u32; 7] = [
        PORTS,
        0xE3A0_1001, // mov r1, #1
        0xE580_1500, // str r1, [r0, #0x500], at 10: BEGIN_VTXS, done at 12
        0xE580_1490, // str r1, [r0, #0x490], at 17: VTX_10, done at 33
        SWAP, // done at 817
        IDENTITY,
        WAIT,
    ];
    const LINES: [Line; 16] = [
        Until(817),
        First(817, 12),
        Steps(1),
        NotDue(12),
        Took(7, 3, 3),
        // line 191 starts at 813,660
        Until(817_920),
        NotDue(12),
        Lists(0, 0),
        First(817_920, 1),
        SwappedFrame,
        Lists(817_920, 1),
        First(817_958, 12),
        Steps(1),
        NotDue(12),
        // the end of a command, and of a swap, wakes none
        NotDue(22),
        Lists(817_920, 1),
    ];
    try_programs(&rt, rt.alloc(), &NINE, &HALT_OF_SEVEN, &LINES)
}
