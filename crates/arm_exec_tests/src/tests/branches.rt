//! Branches, and what else sets r15.

use super::lines::Line::{Arm, At, Both, Cpsr, Mem, Nine, Nzcv, Pc, R, Spsr, Thumb, To, To7, To9};
use super::lines::{CPSR, LR, LR_IRQ, PC, SP, try_lines};
use std::alloc::AllocError;

#[test]
#[rattlefmt::skip]
fn branches_set_r15_and_the_state(rt: HostRuntime) -> Result<(), AllocError> {
    try_lines(&rt, rt.alloc(), &[
        // branches go from r15
                      Arm(0xEA00_0010), Pc(0x148),                    Both(3, 3), // b forward
                      Arm(0xEAFF_FFFE), Pc(0x100),                    Both(3, 3), // b to itself
                      Arm(0xEA80_0000), Pc(0xFE00_0108),              Both(3, 3), // b as far back as it goes
                      Arm(0xEA7F_FFFF), Pc(0x200_0104),               Both(3, 3), // b as far on as it goes
                      Arm(0xEB00_0010), To(LR, 0x104), Pc(0x148),     Both(3, 3), // bl
        Cpsr(0x12),   Arm(0xEBFF_FFFE), To(LR_IRQ, 0x104), Pc(0x100), Both(3, 3), // bl in IRQ mode
                      Arm(0x0B00_0010),                               Both(1, 1), // bleq without Z
                      Thumb(0xE010),    Pc(0x124),                    Both(3, 3), // b forward
                      Thumb(0xE7FE),    Pc(0x100),                    Both(3, 3), // b to itself
                      Thumb(0xE400),    Pc(0xFFFF_F904),              Both(3, 3), // b as far back as it goes
        Nzcv(0b0100), Thumb(0xD010),    Pc(0x124),                    Both(3, 3), // beq forward
        Nzcv(0b0100), Thumb(0xD080),    Pc(4),                        Both(3, 3), // beq as far back as it goes
                      Thumb(0xD010),                                  Both(1, 1), // beq without Z

        // bx takes the state from bit 0
        R(1, 0x148), Arm(0xE12F_FF11), Pc(0x148),                 Both(3, 3), // bx to ARM
        R(1, 0x14B), Arm(0xE12F_FF11), Pc(0x14A), To(CPSR, 0x3F), Both(3, 3), // bx to Thumb
        // bits 1 and 0 are 10
        R(1, 0x14A), Arm(0xE12F_FF11), Pc(0x148),                 Both(3, 3), // bx to no state's address
                     Arm(0xE12F_FF1F), Pc(0x108),                 Both(3, 3), // bx r15
        R(1, 0x148), Thumb(0x4708),    Pc(0x148), To(CPSR, 0x1F), Both(3, 3), // bx from Thumb to ARM
        R(1, 0x14B), Thumb(0x4708),    Pc(0x14A),                 Both(3, 3), // bx from Thumb to Thumb
        // r15 reads as 106h
        At(0x102),   Thumb(0x4778),    Pc(0x104), To(CPSR, 0x1F), Both(3, 3), // bx r15 from Thumb

        // the halves of bl go by r14
                                  Thumb(0xF001), To(LR, 0x1104),            Both(1, 1), // blh by 1,000h
                                  Thumb(0xF7FF), To(LR, 0xFFFF_F104),       Both(1, 1), // blh by -1,000h
                                  Thumb(0xF400), To(LR, 0xFFC0_0104),       Both(1, 1), // blh by -400,000h
        At(0x102), R(14, 0x1104), Thumb(0xF810), To(LR, 0x105), Pc(0x1124), Both(3, 3), // bll by 20h
        R(14, 0x104),             Thumb(0xFFFF), To(LR, 0x103), Pc(0x1102), Both(3, 3), // bll by FFEh
        // Thumb stays, and bit 0 is cleared
        R(14, 0x1105),            Thumb(0xF800), To(LR, 0x103), Pc(0x1104), Both(3, 3), // bll from an odd r14

        // literals and addresses go from r15 aligned
                   Thumb(0x4801), To(0, 0x108_B2B2), Both(3, 2), // ldr r0, [r15, #0x4] at 100h
        At(0x10A), Thumb(0x4F00), To(7, 0x10C_C3C3), Both(3, 2), // ldr r7, [r15, #0x0] at 10Ah
        // 500h stands where 100h does
                   Thumb(0x48FF), To(0, 0x48FF),     Both(3, 2), // ldr r0, [r15, #0x3fc]
                   Thumb(0xA001), To(0, 0x108),      Both(1, 1), // add r0, r15, #0x4 at 100h
        At(0x102), Thumb(0xA7FF), To(7, 0x500),      Both(1, 1), // add r7, r15, #0x3fc at 102h

        // blx goes to either state
        R(1, 0x200),  Arm(0xE12F_FF31), Pc(0x200), To(LR, 0x104),                       Nine(3), // blx r1
        R(1, 0x201),  Arm(0xE12F_FF31), Pc(0x200), To(LR, 0x104), To(CPSR, 0x3F),       Nine(3), // blx r1
        R(1, 0x202),  Arm(0xE12F_FF31), Pc(0x200), To(LR, 0x104),                       Nine(3), // blx r1
        // the register is read before r14 is written
        R(14, 0x301), Arm(0xE12F_FF3E), Pc(0x300), To(LR, 0x104), To(CPSR, 0x3F),       Nine(3), // blx r14
        R(1, 0x201),  Arm(0x012F_FF31),                                                 Nine(1), // blxeq r1
        R(1, 0x201),  Arm(0xE12F_FF11), Pc(0x200), To(CPSR, 0x3F),                      Both(3, 3), // bx r1
        // to a target, from 108h on
                      Arm(0xFA00_003E), Pc(0x200), To(LR, 0x104), To(CPSR, 0x3F),       Nine(3), // blx
                      Arm(0xFB00_003E), Pc(0x202), To(LR, 0x104), To(CPSR, 0x3F),       Nine(3), // blx, H
                      Arm(0xFAFF_FFFE), Pc(0x100), To(LR, 0x104), To(CPSR, 0x3F),       Nine(3), // blx back
                      Arm(0xFBFF_FFBD), Pc(0xFFFF_FFFE), To(LR, 0x104), To(CPSR, 0x3F), Nine(3), // blx back, H

        // thumb code links with bit 0
        R(1, 0x200),        Thumb(0x4788), Pc(0x200), To(LR, 0x103), To(CPSR, 0x1F), Nine(3), // blx r1
        R(1, 0x201),        Thumb(0x4788), Pc(0x200), To(LR, 0x103),                 Nine(3), // blx r1
        R(14, 0x301),       Thumb(0x47F0), Pc(0x300), To(LR, 0x103),                 Nine(3), // blx r14
        // the second half of BLX: r14 + 20h, without its two low bits
        R(14, 0x1E2),       Thumb(0xE810), Pc(0x200), To(LR, 0x103), To(CPSR, 0x1F), Nine(3), // blxl #0x10
        R(14, 0xFFFF_F010), Thumb(0xEFFE), Pc(0xC), To(LR, 0x103), To(CPSR, 0x1F),   Nine(3), // blxl #0x7fe
        // the second half of BL stays in Thumb state
        R(14, 0x1E2),       Thumb(0xF810), Pc(0x202), To(LR, 0x103),                 Both(3, 3), // bll #0x10

        // a load of r15 sets the state on armv5
        R(1, 0x48),          Arm(0xE591_F000), To7(PC, 0x180), To9(PC, 0x182), To9(CPSR, 0x3F),              Both(5, 4), // ldr r15, [r1]
        R(1, 0x4C),          Arm(0xE591_F000), Pc(0x1A0),                                                    Both(5, 4), // ldr r15, [r1]
        R(1, 0x48),          Arm(0xE4B1_F004), To(1, 0x4C), To7(PC, 0x180), To9(PC, 0x182), To9(CPSR, 0x3F), Both(5, 4), // ldrt r15, [r1], #4
        R(1, 0x48),          Arm(0xE891_8000), To7(PC, 0x180), To9(PC, 0x182), To9(CPSR, 0x3F),              Both(5, 4), // ldmia r1, {r15}
        R(1, 0x4C),          Arm(0xE891_8000), Pc(0x1A0),                                                    Both(5, 4), // ldmia r1, {r15}
        R(13, 0x4C),         Thumb(0xBD00),    To(SP, 0x50), To7(PC, 0x1A2), To9(PC, 0x1A0), To9(CPSR, 0x1F), Both(5, 4), // pop {r15}
        // other loads keep it
        R(1, 0x40),          Arm(0xE5D1_F000), Pc(4),                                                        Both(5, 4), // ldrb r15, [r1]
        R(1, 0x48),          Arm(0xE1D1_F0F0), Pc(0x180),                                                    Both(5, 4), // ldrsh r15, [r1]
        R(1, 0x48), R(2, 5), Arm(0xE101_F092), Pc(0x180), Mem(0x48, 5),                                      Both(6, 6), // swp r15, r2, [r1]
        // so does data processing
        R(1, 0x183),         Arm(0xE1A0_F001), Pc(0x180),                                                    Both(3, 3), // mov r15, r1
        R(1, 0x182),         Thumb(0x468F),    Pc(0x182),                                                    Both(3, 3), // movh r15, r1

        // a load of r15 with a hat restores the state
        Cpsr(0x13), Spsr(0x3F), R(1, 0x4C), Arm(0xE8D1_8000), Pc(0x1A2), To(CPSR, 0x3F),                       Both(5, 4), // ldmia r1, {r15}^
        Cpsr(0x13), Spsr(0x1F), R(1, 0x48), Arm(0xE8D1_8000), Pc(0x180), To(CPSR, 0x1F),                       Both(5, 4), // ldmia r1, {r15}^
        // a mode without SPSR restores nothing, and on ARMv5 bit 0 sets T
        R(1, 0x48),                         Arm(0xE8D1_8000), To7(PC, 0x180), To9(PC, 0x182), To9(CPSR, 0x3F), Both(5, 4), // ldmia r1, {r15}^
    ])
}

#[test]
#[rattlefmt::skip]
fn instructions_cost_by_their_class(rt: HostRuntime) -> Result<(), AllocError> {
    try_lines(&rt, rt.alloc(), &[
        R(1, 0x40), R(2, 3), Arm(0xE081_0002), To(0, 0x43),                      Both(1, 1), // add r0, r1, r2
        R(1, 0x40), R(2, 3), Arm(0xE1A0_0211), To(0, 0x200),                     Both(2, 2), // mov r0, r1, lsl r2
        R(1, 0x40), R(2, 3), Arm(0xE1A0_F001), Pc(0x40),                         Both(3, 3), // mov r15, r1
        R(1, 0x40), R(2, 3), Arm(0xE10F_0000), To(0, 0x1F),                      Both(1, 1), // mrs r0, cpsr
        R(1, 0x40), R(2, 3), Arm(0xE000_0291), To(0, 0xC0),                      Both(4, 2), // mul r0, r1, r2
        R(1, 0x40), R(2, 3), Arm(0xE083_0291), To(0, 0xC0),                      Both(5, 3), // umull r0, r3, r1, r2
        R(1, 0x40), R(2, 3), Arm(0xE591_0000), To(0, 7),                         Both(3, 2), // ldr r0, [r1]
        R(1, 0x40), R(2, 3), Arm(0xE5D1_0000), To(0, 7),                         Both(3, 2), // ldrb r0, [r1]
        R(1, 0x40), R(2, 3), Arm(0xE581_2000), Mem(0x40, 3),                     Both(2, 1), // str r2, [r1]
        R(1, 0x40), R(2, 3), Arm(0xE101_0092), To(0, 7), Mem(0x40, 3),           Both(4, 4), // swp r0, r2, [r1]
        R(1, 0x40), R(2, 3), Arm(0xE891_0019), To(0, 7), To(3, 9), To(4, 0x183), Both(5, 4), // ldmia r1, {r0, r3, r4}
        R(1, 0x40), R(2, 3), Arm(0xE881_0006), Mem(0x40, 0x40), Mem(0x44, 3),    Both(3, 2), // stmia r1, {r1, r2}
        R(1, 0x40), R(2, 3), Arm(0xEA00_003E), Pc(0x200),                        Both(3, 3), // b
        R(1, 0x40), R(2, 3), Arm(0xEB00_003E), Pc(0x200), To(LR, 0x104),         Both(3, 3), // bl
        R(1, 0x40), R(2, 3), Arm(0x0A00_003E),                                   Both(1, 1), // beq
        R(1, 0x40), R(2, 3), Thumb(0x0048),    To(0, 0x80),                      Both(1, 1), // lsl r0, r1, #1
        R(1, 0x40), R(2, 3), Thumb(0x4091),    To(1, 0x200),                     Both(2, 2), // lsl r1, r2
        R(1, 0x40), R(2, 3), Thumb(0xF000),    To(LR, 0x104),                    Both(1, 1), // blh #0
        R(1, 0x40), R(2, 3), Thumb(0x6808),    To(0, 7),                         Both(3, 2), // ldr r0, [r1]
        R(1, 0x40), R(2, 3), Thumb(0xE07E),    Pc(0x200),                        Both(3, 3), // b
    ])
}
