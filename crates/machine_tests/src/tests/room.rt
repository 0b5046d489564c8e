//! The most that one instruction adds to what waits for geometry. All ticks are worked by hand from the costs of instructions and of commands.

use crate::tests::told::Line::{Due, First, NotDue, Steps, SwappedFrame, Took, Until};
use crate::tests::told::{Line, file, script, try_lines};
use std::alloc::AllocError;

/// A branch to itself.
const LOOP: u32 = 0xEAFF_FFFE;

#[test]
fn sixteen_registers_behind_260_entries_find_room(rt: HostRuntime) -> Result<(), AllocError> {
    const NINE: [u32; 29] = [
        0xE3A0_0301, // mov r0, #0x4000000
        0xE3A0_1015, // mov r1, #0x15
        0xE181_1401, // orr r1, r1, r1, lsl #8
        0xE181_1801, // orr r1, r1, r1, lsl #16: four MTX_IDENTITY, of 38 ticks each
        0xE580_1540, // str r1, [r0, #0x540], at 20: SWAP_BUFFERS, done at 804
        0xE3A0_400D, // mov r4, #13
        0xE580_1400, // str r1, [r0, #0x400], at 32, five of 35 ticks, and then every 47, the last at 624
        0xE580_1400,
        0xE580_1400,
        0xE580_1400,
        0xE580_1400,
        0xE254_4001, // subs r4, r4, #1
        0x1AFF_FFF8, // bne to the first store
        0xE1A0_2001, // mov r2, r1, at 815
        0xE1A0_3001, // mov r3, r1
        0xE1A0_4001, // mov r4, r1
        0xE1A0_5001, // mov r5, r1
        0xE1A0_6001, // mov r6, r1
        0xE1A0_7001, // mov r7, r1
        0xE1A0_8001, // mov r8, r1
        0xE1A0_9001, // mov r9, r1
        0xE1A0_A001, // mov r10, r1
        0xE1A0_B001, // mov r11, r1
        0xE1A0_C001, // mov r12, r1
        0xE1A0_D001, // mov r13, r1
        0xE1A0_E001, // mov r14, r1
        0xE280_0B01, // add r0, r0, #0x400: GXFIFO
        0xE880_FFFF, // stmia r0, {r0-r15}, at 885
        LOOP,
    ];
    const SEVEN: [u32; 4] = [
        0xE3A0_0301, // mov r0, #0x4000000
        0xE3A0_1080, // mov r1, #0x80
        0xE5C0_1301, // strb r1, [r0, #0x301]: HALTCNT
        LOOP,
    ];
    const LINES: [Line; 21] = [
        // with the swap's entry 65 words make 261: ARM9 goes on where the swap waits for line 192, with 260 behind it
        Until(625),
        NotDue(22),
        First(804, 12),
        Steps(1),
        NotDue(12),
        Due(22, 805),
        Until(885),
        Due(22, 885),
        // r1 to r14 add four each: 316 wait. r0, 4000400h, and r15, 2000078h, have no commands
        Steps(1),
        NotDue(22),
        Took(112, 3, 1),
        Until(817_920),
        First(817_920, 1),
        SwappedFrame,
        Due(12, 817_958),
        // ARM9 goes on where 260 are left again, after 56 commands
        Until(820_048),
        NotDue(22),
        First(820_048, 12),
        Steps(1),
        Due(22, 820_049),
        Due(12, 820_086),
    ];
    let file = file(rt.alloc(), &NINE, &SEVEN)?;
    let keys = script(rt.alloc(), 0x8000, 0)?;
    try_lines(&rt, rt.alloc(), file, keys, &LINES)
}
