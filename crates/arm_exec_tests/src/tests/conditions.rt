//! Instructions by their conditions.

use super::lines::Line::{Arm, Both, Nzcv, Pc, R, Seven, Thumb, To};
use super::lines::try_lines;
use std::alloc::AllocError;

/// A condition's number, and at which NZCV it holds: bit n of the mask is NZCV = n.
const CONDITIONS: [(u32, u32); 15] = [
    (0, 0xF0F0),
    (1, 0x0F0F),
    (2, 0xCCCC),
    (3, 0x3333),
    (4, 0xFF00),
    (5, 0x00FF),
    (6, 0xAAAA),
    (7, 0x5555),
    (8, 0x0C0C),
    (9, 0xF3F3),
    (10, 0xAA55),
    (11, 0x55AA),
    (12, 0x0A05),
    (13, 0xF5FA),
    (14, 0xFFFF),
];

#[test]
fn each_condition_holds_at_its_flags(rt: HostRuntime) -> Result<(), AllocError> {
    let [r0, r1, r2] = [R(0, 7), R(1, 3), R(2, 5)];
    for flags in 0..16u32 {
        for (cond, mask) in CONDITIONS {
            // mul r0, r1, r2
            let word = Arm((cond << 28) | 0x0000_0291);
            if (mask >> flags) & 1 == 1 {
                let lines = [Nzcv(flags), r0, r1, r2, word, To(0, 15), Both(4, 2)];
                try_lines(&rt, rt.alloc(), &lines)?;
            } else {
                let lines = [Nzcv(flags), r0, r1, r2, word, Both(1, 1)];
                try_lines(&rt, rt.alloc(), &lines)?;
            }
        }
        // condition 1111 never holds on ARM7
        let lines = [Nzcv(flags), r0, r1, r2, Arm(0xF000_0291), Seven(1)];
        try_lines(&rt, rt.alloc(), &lines)?;
    }
    Ok(())
}

#[test]
fn thumb_branches_where_the_condition_holds(rt: HostRuntime) -> Result<(), AllocError> {
    for (cond, mask) in CONDITIONS {
        // the last is no branch's
        if cond < 14 {
            for flags in 0..16u32 {
                // to 4 bytes before r15
                let half = Thumb(0xD0FE + (cond << 8));
                if (mask >> flags) & 1 == 1 {
                    let lines = [Nzcv(flags), half, Pc(0x100), Both(3, 3)];
                    try_lines(&rt, rt.alloc(), &lines)?;
                } else {
                    try_lines(&rt, rt.alloc(), &[Nzcv(flags), half, Both(1, 1)])?;
                }
            }
        }
    }
    Ok(())
}

#[test]
#[rattlefmt::skip]
fn what_has_no_effect_costs_1(rt: HostRuntime) -> Result<(), AllocError> {
    // words without their conditions
    for word in [
        0x03A0_0001, // mov r0, #1
        0x0091_0312, // adds r0, r1, r2, lsl r3
        0x0150_0001, // cmp r0, r1
        0x0000_0291, // mul r0, r1, r2
        0x0081_0392, // umull r0, r1, r2, r3
        0x010F_0000, // mrs r0, cpsr
        0x0128_F001, // msr cpsr_f, r1
        0x0491_0004, // ldr r0, [r1], #0x4
        0x05A1_0004, // str r0, [r1, #0x4]!
        0x01F1_00B2, // ldrh r0, [r1, #0x2]!
        0x08B1_8006, // ldmia r1!, {r1, r2, r15}
        0x08A1_0003, // stmia r1!, {r0, r1}
        0x0101_0091, // swp r0, r1, [r1]
        0x0A00_0010, // b
        0x0B00_0010, // bl
        0x012F_FF11, // bx r1
        0x0F03_0000, // swi 3
        0x0F0E_0000, // swi 0Eh
        0x0E07_0F90, // mcr
        0x05D1_F000, // pld [r1]
    ] {
        // eq without Z, ne with Z, and on ARM7 condition 1111 without it and with it
        let [r0, r1] = [R(0, 5), R(1, 0x40)];
        for (cond, flags) in [(0, 0), (1, 4)] {
            try_lines(&rt, rt.alloc(), &[Nzcv(flags), r0, r1, Arm((cond << 28) | word), Both(1, 1)])?;
        }
        for flags in [0, 4] {
            try_lines(&rt, rt.alloc(), &[Nzcv(flags), r0, r1, Arm((15 << 28) | word), Seven(1)])?;
        }
    }
    Ok(())
}
