//! The bytes that instructions reach, told before they are executed.

use super::lines::Line::{Arm, At, Cpsr, Nzcv, R, Reaches, Reaches7, Reaches9, Thumb};
use super::lines::try_lines;
use std::alloc::AllocError;

#[test]
#[rattlefmt::skip]
fn instructions_reach_their_bytes(rt: HostRuntime) -> Result<(), AllocError> {
    try_lines(&rt, rt.alloc(), &[
        // one register's bytes are aligned
        R(1, 1),             Arm(0xE591_0000), Reaches(0, 4), // ldr r0, [r1]
        R(1, 3),             Arm(0xE5D1_0000), Reaches(3, 1), // ldrb r0, [r1]
        R(1, 3),             Arm(0xE5C1_0000), Reaches(3, 1), // strb r0, [r1]
        R(1, 2),             Arm(0xE521_0004), Reaches(0xFFFF_FFFC, 4), // str r0, [r1, #-0x4]!
        // behind the access the base moves, and not the bytes
        R(1, 0x40),          Arm(0xE491_0004), Reaches(0x40, 4), // ldr r0, [r1], #0x4
        R(1, 0x40),          Arm(0xE421_0004), Reaches(0x40, 4), // strt r0, [r1], #-0x4
        R(1, 0x40), R(2, 3), Arm(0xE791_0102), Reaches(0x4C, 4), // ldr r0, [r1, r2, lsl #0x2]
        // r15 is the address and 8
                             Arm(0xE59F_0008), Reaches(0x110, 4), // ldr r0, [r15, #0x8]
        R(1, 0x40),          Arm(0xE591_F000), Reaches(0x40, 4), // ldr r15, [r1]
        R(1, 0x41),          Arm(0xE1C1_00B0), Reaches(0x40, 2), // strh r0, [r1]
        R(1, 3),             Arm(0xE1D1_00B0), Reaches(2, 2), // ldrh r0, [r1]
        R(1, 0x40), R(2, 8), Arm(0xE111_00B2), Reaches(0x38, 2), // ldrh r0, [r1, -r2]
        R(1, 3),             Arm(0xE1D1_00D0), Reaches(3, 1), // ldrsb r0, [r1]
        R(1, 2),             Arm(0xE1D1_00F0), Reaches(2, 2), // ldrsh r0, [r1]
        // a swap reads and writes one place
        R(1, 0x41),          Arm(0xE101_0092), Reaches(0x40, 4), // swp r0, r2, [r1]
        R(1, 0x43),          Arm(0xE141_0092), Reaches(0x43, 1), // swpb r0, r2, [r1]

        // lists reach a word a register from the lowest up
        // beyond FFFFFFFFh stands 0
        R(1, 0xFFFF_FFFC),        Arm(0xE8B1_0006), Reaches(0xFFFF_FFFC, 8), // ldmia r1!, {r1, r2}
        R(13, 0x200),             Arm(0xE92D_4010), Reaches(0x1F8, 8), // stmdb r13!, {r4, r14}
        // the lowest address is aligned: here it is 45h
        R(1, 0x41),               Arm(0xE991_000D), Reaches(0x44, 12), // ldmib r1, {r0, r2, r3}
        R(1, 0x40),               Arm(0xE801_0005), Reaches(0x3C, 8), // stmda r1, {r0, r2}
        // with ^ too the base is the mode's
        Cpsr(0x12), R(13, 0x300), Arm(0xE8CD_6000), Reaches(0x300, 8), // stmia r13, {r13, r14}^
        R(0, 0x40),               Arm(0xE890_FFFF), Reaches(0x40, 64), // ldmia r0, {r0 to r15}

        // thumb reaches what its equivalent does
        // r15 is 106h here, and its bits 1 and 0 are cleared
        At(0x102),                      Thumb(0x4802), Reaches(0x10C, 4), // ldr r0, [r15, #0x8]
        At(0x102), R(1, 0x40), R(2, 6), Thumb(0x5088), Reaches(0x44, 4), // str r0, [r1, r2]
        At(0x102), R(1, 0x40), R(2, 3), Thumb(0x5688), Reaches(0x43, 1), // ldsb r0, [r1, r2]
        At(0x102), R(1, 0x40),          Thumb(0x6FC8), Reaches(0xBC, 4), // ldr r0, [r1, #0x7C]
        At(0x102), R(1, 0x40),          Thumb(0x77C8), Reaches(0x5F, 1), // strb r0, [r1, #0x1F]
        At(0x102), R(1, 0x40),          Thumb(0x8848), Reaches(0x42, 2), // ldrh r0, [r1, #0x2]
        At(0x102), R(13, 0x200),        Thumb(0x9001), Reaches(0x204, 4), // str r0, [r13, #0x4]
        At(0x102), R(13, 0x200),        Thumb(0xB501), Reaches(0x1F8, 8), // push {r0, r14}
        At(0x102), R(13, 0x200),        Thumb(0xBD00), Reaches(0x200, 4), // pop {r15}
        At(0x102), R(1, 0x40),          Thumb(0xC105), Reaches(0x40, 8), // stmia r1!, {r0, r2}
        At(0x102),                      Thumb(0xA002), Reaches(0, 0), // add r0, r15, #0x8
        At(0x102),                      Thumb(0xE000), Reaches(0, 0), // b

        // what makes no access reaches nothing
        // eq without Z, and with it
        R(1, 0x40),               Arm(0x0591_0000), Reaches(0, 0), // ldreq r0, [r1]
        Nzcv(0b0100), R(1, 0x40), Arm(0x0591_0000), Reaches(0x40, 4), // ldreq r0, [r1]
        Nzcv(0b0100), R(1, 0x40), Arm(0x1881_0001), Reaches(0, 0), // stmneia r1, {r0}
        R(1, 0x40),               Arm(0x0101_0092), Reaches(0, 0), // swpeq r0, r2, [r1]
        R(1, 0x40),               Arm(0xE1A0_0001), Reaches(0, 0), // mov r0, r1
        R(1, 0x40),               Arm(0xE000_0291), Reaches(0, 0), // mul r0, r1, r2
                                  Arm(0xE10F_0000), Reaches(0, 0), // mrs r0, cpsr
                                  Arm(0xEA00_0010), Reaches(0, 0), // b
        R(1, 0x40),               Arm(0xE12F_FF11), Reaches(0, 0), // bx r1
                                  Arm(0xEF03_0000), Reaches(0, 0), // swi 3
        // what ARMv4 hasn't
        R(1, 0x40),               Arm(0x01C1_00D0), Reaches9(0, 0), // ldreqd r0, [r1]
        R(1, 0x40),               Arm(0xF5D1_F000), Reaches9(0, 0), // pld [r1]
                                  Arm(0xEE07_0F90), Reaches9(0, 0), // mcr

        // odd halves and empty lists differ by architecture
        R(1, 1),    Arm(0xE1D1_00F0), Reaches7(1, 1), // ldrsh r0, [r1]
        R(1, 1),    Arm(0xE1D1_00F0), Reaches9(0, 2), // ldrsh r0, [r1]
        // of an empty list ARMv4 transfers r15, and its base moves as by sixteen registers
        R(1, 0x80), Arm(0xE8B1_0000), Reaches7(0x80, 4), // ldmia r1!, {}
        R(1, 0x80), Arm(0xE8B1_0000), Reaches9(0, 0), // ldmia r1!, {}
        R(1, 0x80), Arm(0xE8A1_0000), Reaches7(0x80, 4), // stmia r1!, {}
        R(1, 0x80), Arm(0xE8A1_0000), Reaches9(0, 0), // stmia r1!, {}
        R(1, 0x80), Arm(0xE9A1_0000), Reaches7(0x84, 4), // stmib r1!, {}
        R(1, 0x80), Arm(0xE9A1_0000), Reaches9(0, 0), // stmib r1!, {}
        R(1, 0x80), Arm(0xE821_0000), Reaches7(0x44, 4), // stmda r1!, {}
        R(1, 0x80), Arm(0xE821_0000), Reaches9(0, 0), // stmda r1!, {}
        R(1, 0x80), Arm(0xE921_0000), Reaches7(0x40, 4), // stmdb r1!, {}
        R(1, 0x80), Arm(0xE921_0000), Reaches9(0, 0), // stmdb r1!, {}

        // two registers reach two words
        R(1, 0x48),          Arm(0xE1C1_00D0), Reaches9(0x48, 8), // ldrd r0, [r1]
        R(1, 0x47),          Arm(0xE1C1_00D0), Reaches9(0x44, 8), // ldrd r0, [r1]
        R(1, 0xFFFF_FFFC),   Arm(0xE1C1_00D0), Reaches9(0xFFFF_FFFC, 8), // ldrd r0, [r1]
        R(1, 0x40), R(2, 8), Arm(0xE081_00D2), Reaches9(0x40, 8), // ldrd r0, [r1], r2
        R(1, 0x50),          Arm(0xE161_20F8), Reaches9(0x48, 8), // strd r2, [r1, #-0x8]!

        // the bytes of an access to ports are told
        R(1, 0x400_0002), Arm(0xE591_0000), Reaches(0x400_0000, 4), // ldr r0, [r1]
        R(1, 0x400_0003), Arm(0xE5D1_0000), Reaches(0x400_0003, 1), // ldrb r0, [r1]
        R(1, 0x400_0003), Arm(0xE1C1_00B0), Reaches(0x400_0002, 2), // strh r0, [r1]
        // LDRSH at an odd address reads a byte on ARMv4, and the half on ARMv5
        R(1, 0x400_0003), Arm(0xE1D1_00F0), Reaches7(0x400_0003, 1), // ldrsh r0, [r1]
        R(1, 0x400_0003), Arm(0xE1D1_00F0), Reaches9(0x400_0002, 2), // ldrsh r0, [r1]
        // an addition, and a load whose condition fails
                          Arm(0xE281_0001), Reaches(0, 0), // add r0, r1, #1
                          Arm(0x0591_0000), Reaches(0, 0), // ldreq r0, [r1]
    ])
}
