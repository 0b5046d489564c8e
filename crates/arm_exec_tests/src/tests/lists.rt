//! LDM and STM.

use super::lines::Line::{
    Arm, Both, Cpsr, Mem, Mem7, Mem9, Nzcv, Pc, R, Spsr, Thumb, To, To7, To9,
};
use super::lines::{
    CPSR, LR, LR_ABT, LR_FIQ, LR_IRQ, LR_SVC, LR_UND, PC, R8_FIQ, R12_FIQ, SP, SP_IRQ, try_lines,
};
use std::alloc::AllocError;

#[test]
#[rattlefmt::skip]
fn lists_are_loaded(rt: HostRuntime) -> Result<(), AllocError> {
    try_lines(&rt, rt.alloc(), &[
        // lists are loaded in four modes
        R(1, 0x40), Arm(0xE8B1_000D), To(0, 7), To(1, 0x4C), To(2, 9), To(3, 0x183), Both(5, 4), // ia!
        R(1, 0x3C), Arm(0xE9B1_000D), To(0, 7), To(1, 0x48), To(2, 9), To(3, 0x183), Both(5, 4), // ib!
        R(1, 0x48), Arm(0xE831_000D), To(0, 7), To(1, 0x3C), To(2, 9), To(3, 0x183), Both(5, 4), // da!
        R(1, 0x4C), Arm(0xE931_000D), To(0, 7), To(1, 0x40), To(2, 9), To(3, 0x183), Both(5, 4), // db!
        R(1, 0x40), Arm(0xE891_000D), To(0, 7), To(1, 0x40), To(2, 9), To(3, 0x183), Both(5, 4), // ia
        R(1, 0x3C), Arm(0xE991_000D), To(0, 7), To(1, 0x3C), To(2, 9), To(3, 0x183), Both(5, 4), // ib
        R(1, 0x48), Arm(0xE811_000D), To(0, 7), To(1, 0x48), To(2, 9), To(3, 0x183), Both(5, 4), // da
        R(1, 0x4C), Arm(0xE911_000D), To(0, 7), To(1, 0x4C), To(2, 9), To(3, 0x183), Both(5, 4), // db
        // a word is read aligned, and isn't rotated
        R(1, 0x43), Arm(0xE8B1_000D), To(0, 7), To(1, 0x4F), To(2, 9), To(3, 0x183), Both(5, 4), // ia! at 43h

        // a base in a loaded list goes by the architecture
        // neither first nor last
        R(1, 0x40), Arm(0xE8B1_0007), To(0, 7), To(2, 0x183), To7(1, 9), To9(1, 0x4C), Both(5, 4), // ia!
        R(1, 0x3C), Arm(0xE9B1_0007), To(0, 7), To(2, 0x183), To7(1, 9), To9(1, 0x48), Both(5, 4), // ib!
        R(1, 0x48), Arm(0xE831_0007), To(0, 7), To(2, 0x183), To7(1, 9), To9(1, 0x3C), Both(5, 4), // da!
        R(1, 0x4C), Arm(0xE931_0007), To(0, 7), To(2, 0x183), To7(1, 9), To9(1, 0x40), Both(5, 4), // db!
        // first
        R(1, 0x40), Arm(0xE8B1_0006), To(2, 9), To7(1, 7), To9(1, 0x48),               Both(4, 3), // ia! first
        R(1, 0x3C), Arm(0xE9B1_0006), To(2, 9), To7(1, 7), To9(1, 0x44),               Both(4, 3), // ib! first
        R(1, 0x44), Arm(0xE831_0006), To(2, 9), To7(1, 7), To9(1, 0x3C),               Both(4, 3), // da! first
        R(1, 0x48), Arm(0xE931_0006), To(2, 9), To7(1, 7), To9(1, 0x40),               Both(4, 3), // db! first
        // last
        R(1, 0x40), Arm(0xE8B1_0003), To(0, 7), To(1, 9),                              Both(4, 3), // ia! last
        R(1, 0x3C), Arm(0xE9B1_0003), To(0, 7), To(1, 9),                              Both(4, 3), // ib! last
        R(1, 0x44), Arm(0xE831_0003), To(0, 7), To(1, 9),                              Both(4, 3), // da! last
        R(1, 0x48), Arm(0xE931_0003), To(0, 7), To(1, 9),                              Both(4, 3), // db! last
        // alone
        R(1, 0x40), Arm(0xE8B1_0002), To7(1, 7), To9(1, 0x44),                         Both(3, 2), // ia! alone
        R(1, 0x40), Arm(0xE9B1_0002), To7(1, 9), To9(1, 0x44),                         Both(3, 2), // ib! alone
        R(1, 0x44), Arm(0xE831_0002), To7(1, 9), To9(1, 0x40),                         Both(3, 2), // da! alone
        R(1, 0x44), Arm(0xE931_0002), To7(1, 7), To9(1, 0x40),                         Both(3, 2), // db! alone

        // r15 is loaded and an empty list loads it
        // ARMv4 stays in ARM state, and bits 1 and 0 are cleared; ARMv5 goes by bit 0, and loads nothing by an empty list
        R(1, 0x44), Arm(0xE8B1_8001), To(0, 9), To(1, 0x4C), To7(PC, 0x180), To9(PC, 0x182), To9(CPSR, 0x3F), Both(6, 5), // with r15
        R(1, 0x4C), Arm(0xE911_8000), To7(PC, 0x180), To9(PC, 0x182), To9(CPSR, 0x3F),              Both(5, 4), // r15 alone
        R(1, 0x48), Arm(0xE8B1_0000), To(1, 0x88), To7(PC, 0x180),                                  Both(4, 1), // ia! of none
        R(1, 0x44), Arm(0xE9B1_0000), To(1, 0x84), To7(PC, 0x180),                                  Both(4, 1), // ib! of none
        R(1, 0x84), Arm(0xE831_0000), To(1, 0x44), To7(PC, 0x180),                                  Both(4, 1), // da! of none
        R(1, 0x88), Arm(0xE931_0000), To(1, 0x48), To7(PC, 0x180),                                  Both(4, 1), // db! of none
        R(1, 0x48), Arm(0xE891_0000), To7(PC, 0x180),                                               Both(4, 1), // ia of none
        R(1, 0x84), Arm(0xE811_0000), To7(PC, 0x180),                                               Both(4, 1), // da of none
        // r15 as base
                    Arm(0xE8BF_0001), To(0, 0x108_B2B2),                                            Both(3, 2), // ia! at r15
                    Arm(0xE99F_0001), To(0, 0x10C_C3C3),                                            Both(3, 2), // ib at r15

        // user registers are loaded from each mode
        // r13, r14
        Cpsr(0x11), R(1, 0x40),  Arm(0xE8D1_6000), To(SP, 7), To(LR, 9),                             Both(4, 3), // ldm ^
        Cpsr(0x12), R(1, 0x40),  Arm(0xE8D1_6000), To(SP, 7), To(LR, 9),                             Both(4, 3), // ldm ^
        Cpsr(0x13), R(1, 0x40),  Arm(0xE8D1_6000), To(SP, 7), To(LR, 9),                             Both(4, 3), // ldm ^
        Cpsr(0x17), R(1, 0x40),  Arm(0xE8D1_6000), To(SP, 7), To(LR, 9),                             Both(4, 3), // ldm ^
        Cpsr(0x1B), R(1, 0x40),  Arm(0xE8D1_6000), To(SP, 7), To(LR, 9),                             Both(4, 3), // ldm ^
        R(1, 0x40),              Arm(0xE8D1_6000), To(SP, 7), To(LR, 9),                             Both(4, 3), // ldm ^
        Cpsr(0x10), R(1, 0x40),  Arm(0xE8D1_6000), To(SP, 7), To(LR, 9),                             Both(4, 3), // ldm ^
        // without `^` they are the mode's
        Cpsr(0x12), R(1, 0x40),  Arm(0xE891_6000), To(SP_IRQ, 7), To(LR_IRQ, 9),                     Both(4, 3), // ldm ^
        // r8, r12, r14
        Cpsr(0x11), R(1, 0x40),  Arm(0xE8D1_5100), To(8, 7), To(12, 9), To(LR, 0x183),               Both(5, 4), // ldm ^
        Cpsr(0x11), R(1, 0x40),  Arm(0xE891_5100), To(R8_FIQ, 7), To(R12_FIQ, 9), To(LR_FIQ, 0x183), Both(5, 4), // ldm ^
        Cpsr(0x12), R(1, 0x48),  Arm(0xE971_6000), To(1, 0x40), To(SP, 7), To(LR, 9),                Both(4, 3), // ldm ^
        // the mode's r13 is the base: it is written back, but where its number is in the list
        Cpsr(0x12), R(13, 0x40), Arm(0xE8FD_4000), To(LR, 7), To(SP_IRQ, 0x44),                      Both(3, 2), // ldm ^
        Cpsr(0x12), R(13, 0x40), Arm(0xE8FD_2001), To(0, 7), To(SP, 9),                              Both(4, 3), // ldm ^

        // r15 with the hat restores cpsr
        Cpsr(0x11), Spsr(0x13), R(1, 0x44),               Arm(0xE8F1_C000), To(1, 0x4C), To(LR_FIQ, 9), Pc(0x180), To(CPSR, 0x13),        Both(6, 5), // FIQ
        Cpsr(0x6000_0092), Spsr(0x8000_001F), R(1, 0x44), Arm(0xE8F1_C000), To(1, 0x4C), To(LR_IRQ, 9), Pc(0x180), To(CPSR, 0x8000_001F), Both(6, 5), // IRQ
        Cpsr(0x13), Spsr(0x12), R(1, 0x44),               Arm(0xE8F1_C000), To(1, 0x4C), To(LR_SVC, 9), Pc(0x180), To(CPSR, 0x12),        Both(6, 5), // Supervisor
        Cpsr(0x17), Spsr(0xF000_0010), R(1, 0x44),        Arm(0xE8F1_C000), To(1, 0x4C), To(LR_ABT, 9), Pc(0x180), To(CPSR, 0xF000_0010), Both(6, 5), // Abort
        Cpsr(0xDB), Spsr(0x1F), R(1, 0x44),               Arm(0xE8F1_C000), To(1, 0x4C), To(LR_UND, 9), Pc(0x180), To(CPSR, 0x1F),        Both(6, 5), // Undefined
        // the state that is restored aligns r15
        Cpsr(0xD2), Spsr(0x30), R(1, 0x44),               Arm(0xE8F1_C000), To(1, 0x4C), To(LR_IRQ, 9), Pc(0x182), To(CPSR, 0x30),        Both(6, 5), // IRQ to Thumb
        // a mode without SPSR keeps CPSR; on ARMv5 bit 0 then sets T
        Nzcv(0b0110), Spsr(0x12), R(1, 0x44),             Arm(0xE8F1_C000), To(1, 0x4C), To(LR, 9), To7(PC, 0x180), To7(CPSR, 0x6000_001F), To9(PC, 0x182), To9(CPSR, 0x6000_003F), Both(6, 5), // System
        Cpsr(0x10), Spsr(0x12), R(1, 0x44),               Arm(0xE8F1_C000), To(1, 0x4C), To(LR, 9), To7(PC, 0x180), To7(CPSR, 0x10), To9(PC, 0x182), To9(CPSR, 0x30), Both(6, 5), // User
        // on ARMv4 an empty list loads r15
        Cpsr(0x92), Spsr(0x30), R(1, 0x48),               Arm(0xE8F1_0000), To(1, 0x88), To7(PC, 0x182), To7(CPSR, 0x30),                 Both(4, 1), // of none
        Cpsr(0x92), Spsr(0x30), R(1, 0x48),               Arm(0xE891_8000), To7(PC, 0x180), To9(PC, 0x182), To9(CPSR, 0xB2),              Both(5, 4), // without the hat
    ])
}

#[test]
#[rattlefmt::skip]
fn lists_are_stored(rt: HostRuntime) -> Result<(), AllocError> {
    try_lines(&rt, rt.alloc(), &[
        // lists are stored in four modes
        R(0, 5), R(1, 0x40), R(2, 6), R(3, 8), Arm(0xE8A1_000D), To(1, 0x4C), Mem(0x40, 5), Mem(0x44, 6), Mem(0x48, 8), Both(4, 3), // ia!
        R(0, 5), R(1, 0x40), R(2, 6), R(3, 8), Arm(0xE9A1_000D), To(1, 0x4C), Mem(0x44, 5), Mem(0x48, 6), Mem(0x4C, 8), Both(4, 3), // ib!
        R(0, 5), R(1, 0x40), R(2, 6), R(3, 8), Arm(0xE821_000D), To(1, 0x34), Mem(0x38, 5), Mem(0x3C, 6), Mem(0x40, 8), Both(4, 3), // da!
        R(0, 5), R(1, 0x40), R(2, 6), R(3, 8), Arm(0xE921_000D), To(1, 0x34), Mem(0x34, 5), Mem(0x38, 6), Mem(0x3C, 8), Both(4, 3), // db!
        R(0, 5), R(1, 0x40), R(2, 6), R(3, 8), Arm(0xE881_000D), Mem(0x40, 5), Mem(0x44, 6), Mem(0x48, 8),              Both(4, 3), // ia
        R(0, 5), R(1, 0x40), R(2, 6), R(3, 8), Arm(0xE981_000D), Mem(0x44, 5), Mem(0x48, 6), Mem(0x4C, 8),              Both(4, 3), // ib
        R(0, 5), R(1, 0x40), R(2, 6), R(3, 8), Arm(0xE801_000D), Mem(0x38, 5), Mem(0x3C, 6), Mem(0x40, 8),              Both(4, 3), // da
        R(0, 5), R(1, 0x40), R(2, 6), R(3, 8), Arm(0xE901_000D), Mem(0x34, 5), Mem(0x38, 6), Mem(0x3C, 8),              Both(4, 3), // db
        // by an empty list ARMv4 stores r15, at the lowest of sixteen places, and ARMv5 nothing
        R(0, 5), R(1, 0x40), R(2, 6), R(3, 8), Arm(0xE8A1_0000), To(1, 0x80), Mem7(0x40, 0x10C),                        Both(1, 1), // ia! of none
        R(0, 5), R(1, 0x40), R(2, 6), R(3, 8), Arm(0xE9A1_0000), To(1, 0x80), Mem7(0x44, 0x10C),                        Both(1, 1), // ib! of none
        R(0, 5), R(1, 0x40), R(2, 6), R(3, 8), Arm(0xE821_0000), To(1, 0), Mem7(4, 0x10C),                              Both(1, 1), // da! of none
        R(0, 5), R(1, 0x40), R(2, 6), R(3, 8), Arm(0xE921_0000), To(1, 0), Mem7(0, 0x10C),                              Both(1, 1), // db! of none
        R(0, 5), R(1, 0x40), R(2, 6), R(3, 8), Arm(0xE881_0000), Mem7(0x40, 0x10C),                                     Both(1, 1), // ia of none
        R(0, 5), R(1, 0x40), R(2, 6), R(3, 8), Arm(0xE901_0000), Mem7(0, 0x10C),                                        Both(1, 1), // db of none
        // r15 in the list, and as base
        R(0, 5), R(1, 0x40), R(2, 6), R(3, 8), Arm(0xE8A1_8001), To(1, 0x48), Mem(0x40, 5), Mem(0x44, 0x10C),           Both(3, 2), // ia! with r15
        R(0, 5), R(1, 0x40), R(2, 6), R(3, 8), Arm(0xE8AF_0001), Mem(0x108, 5),                                         Both(2, 1), // ia! at r15
        R(0, 5), R(1, 0x40), R(2, 6), R(3, 8), Arm(0xE92F_8001), Mem(0x100, 5), Mem(0x104, 0x10C),                      Both(3, 2), // db! at r15 with r15

        // a stored base is the old one on armv5 and on armv4 where it is first
        // neither first nor last
        R(0, 5), R(1, 0x40), R(2, 6), R(3, 8), Arm(0xE8A1_0007), To(1, 0x4C), Mem(0x40, 5), Mem(0x48, 6), Mem7(0x44, 0x4C), Mem9(0x44, 0x40), Both(4, 3), // ia!
        R(0, 5), R(1, 0x40), R(2, 6), R(3, 8), Arm(0xE9A1_0007), To(1, 0x4C), Mem(0x44, 5), Mem(0x4C, 6), Mem7(0x48, 0x4C), Mem9(0x48, 0x40), Both(4, 3), // ib!
        R(0, 5), R(1, 0x40), R(2, 6), R(3, 8), Arm(0xE821_0007), To(1, 0x34), Mem(0x38, 5), Mem(0x40, 6), Mem7(0x3C, 0x34), Mem9(0x3C, 0x40), Both(4, 3), // da!
        R(0, 5), R(1, 0x40), R(2, 6), R(3, 8), Arm(0xE921_0007), To(1, 0x34), Mem(0x34, 5), Mem(0x3C, 6), Mem7(0x38, 0x34), Mem9(0x38, 0x40), Both(4, 3), // db!
        R(0, 5), R(1, 0x40), R(2, 6), R(3, 8), Arm(0xE881_0007), Mem(0x40, 5), Mem(0x44, 0x40), Mem(0x48, 6),                  Both(4, 3), // ia
        // first
        R(0, 5), R(1, 0x40), R(2, 6), R(3, 8), Arm(0xE8A1_0006), To(1, 0x48), Mem(0x40, 0x40), Mem(0x44, 6),                   Both(3, 2), // ia! first
        R(0, 5), R(1, 0x40), R(2, 6), R(3, 8), Arm(0xE9A1_0006), To(1, 0x48), Mem(0x44, 0x40), Mem(0x48, 6),                   Both(3, 2), // ib! first
        R(0, 5), R(1, 0x40), R(2, 6), R(3, 8), Arm(0xE821_0006), To(1, 0x38), Mem(0x3C, 0x40), Mem(0x40, 6),                   Both(3, 2), // da! first
        R(0, 5), R(1, 0x40), R(2, 6), R(3, 8), Arm(0xE921_0006), To(1, 0x38), Mem(0x38, 0x40), Mem(0x3C, 6),                   Both(3, 2), // db! first
        // last
        R(0, 5), R(1, 0x40), R(2, 6), R(3, 8), Arm(0xE8A1_0003), To(1, 0x48), Mem(0x40, 5), Mem7(0x44, 0x48), Mem9(0x44, 0x40), Both(3, 2), // ia! last
        R(0, 5), R(1, 0x40), R(2, 6), R(3, 8), Arm(0xE9A1_0003), To(1, 0x48), Mem(0x44, 5), Mem7(0x48, 0x48), Mem9(0x48, 0x40), Both(3, 2), // ib! last
        R(0, 5), R(1, 0x40), R(2, 6), R(3, 8), Arm(0xE821_0003), To(1, 0x38), Mem(0x3C, 5), Mem7(0x40, 0x38), Mem9(0x40, 0x40), Both(3, 2), // da! last
        R(0, 5), R(1, 0x40), R(2, 6), R(3, 8), Arm(0xE921_0003), To(1, 0x38), Mem(0x38, 5), Mem7(0x3C, 0x38), Mem9(0x3C, 0x40), Both(3, 2), // db! last
        // alone
        R(0, 5), R(1, 0x40), R(2, 6), R(3, 8), Arm(0xE8A1_0002), To(1, 0x44), Mem(0x40, 0x40),                                 Both(2, 1), // ia! alone
        R(0, 5), R(1, 0x40), R(2, 6), R(3, 8), Arm(0xE9A1_0002), To(1, 0x44), Mem(0x44, 0x40),                                 Both(2, 1), // ib! alone
        R(0, 5), R(1, 0x40), R(2, 6), R(3, 8), Arm(0xE821_0002), To(1, 0x3C), Mem(0x40, 0x40),                                 Both(2, 1), // da! alone
        R(0, 5), R(1, 0x40), R(2, 6), R(3, 8), Arm(0xE921_0002), To(1, 0x3C), Mem(0x3C, 0x40),                                 Both(2, 1), // db! alone

        // user registers are stored from each mode
        // User mode's r8 and r13 are 0, and its r12 and r14 100h, unless the mode sees them
        // r0, r13, r14
        Cpsr(0x11), R(0, 5), R(1, 0x40), R(8, 1), R(13, 0x40), R(14, 0xB), Arm(0xE8C1_6001), Mem(0x40, 5), Mem(0x44, 0), Mem(0x48, 0x100),                 Both(4, 3), // stm ^
        Cpsr(0x12), R(0, 5), R(1, 0x40), R(8, 1), R(13, 0x40), R(14, 0xB), Arm(0xE8C1_6001), Mem(0x40, 5), Mem(0x44, 0), Mem(0x48, 0x100),                 Both(4, 3), // stm ^
        Cpsr(0x13), R(0, 5), R(1, 0x40), R(8, 1), R(13, 0x40), R(14, 0xB), Arm(0xE8C1_6001), Mem(0x40, 5), Mem(0x44, 0), Mem(0x48, 0x100),                 Both(4, 3), // stm ^
        Cpsr(0x17), R(0, 5), R(1, 0x40), R(8, 1), R(13, 0x40), R(14, 0xB), Arm(0xE8C1_6001), Mem(0x40, 5), Mem(0x44, 0), Mem(0x48, 0x100),                 Both(4, 3), // stm ^
        Cpsr(0x1B), R(0, 5), R(1, 0x40), R(8, 1), R(13, 0x40), R(14, 0xB), Arm(0xE8C1_6001), Mem(0x40, 5), Mem(0x44, 0), Mem(0x48, 0x100),                 Both(4, 3), // stm ^
        R(0, 5), R(1, 0x40), R(8, 1), R(13, 0x40), R(14, 0xB),        Arm(0xE8C1_6001), Mem(0x40, 5), Mem(0x44, 0x40), Mem(0x48, 0xB),                Both(4, 3), // stm ^
        Cpsr(0x10), R(0, 5), R(1, 0x40), R(8, 1), R(13, 0x40), R(14, 0xB), Arm(0xE8C1_6001), Mem(0x40, 5), Mem(0x44, 0x40), Mem(0x48, 0xB),                Both(4, 3), // stm ^
        // without `^` they are the mode's
        Cpsr(0x12), R(0, 5), R(1, 0x40), R(8, 1), R(13, 0x40), R(14, 0xB), Arm(0xE881_6001), Mem(0x40, 5), Mem(0x44, 0x40), Mem(0x48, 0xB),                Both(4, 3), // stm ^
        // r8, r12; the first is 1 where the mode sees it
        Cpsr(0x11), R(0, 5), R(1, 0x40), R(8, 1), R(13, 0x40), R(14, 0xB), Arm(0xE8C1_1100), Mem(0x40, 0), Mem(0x44, 0x100),                               Both(3, 2), // stm ^
        Cpsr(0x12), R(0, 5), R(1, 0x40), R(8, 1), R(13, 0x40), R(14, 0xB), Arm(0xE8C1_1100), Mem(0x40, 1), Mem(0x44, 0x100),                               Both(3, 2), // stm ^
        // r14, r15
        Cpsr(0x12), R(0, 5), R(1, 0x40), R(8, 1), R(13, 0x40), R(14, 0xB), Arm(0xE8C1_C000), Mem(0x40, 0x100), Mem(0x44, 0x10C),                           Both(3, 2), // stm ^
        Cpsr(0x12), R(0, 5), R(1, 0x40), R(8, 1), R(13, 0x40), R(14, 0xB), Arm(0xE961_6001), To(1, 0x34), Mem(0x34, 5), Mem(0x38, 0), Mem(0x3C, 0x100),    Both(4, 3), // stm ^
        // r13 of the mode is the base, and User mode's is stored
        Cpsr(0x12), R(0, 5), R(1, 0x40), R(8, 1), R(13, 0x40), R(14, 0xB), Arm(0xE8ED_6000), To(SP_IRQ, 0x48), Mem(0x40, 0), Mem(0x44, 0x100),             Both(3, 2), // stm ^
        Cpsr(0x12), R(0, 5), R(1, 0x40), R(8, 1), R(13, 0x40), R(14, 0xB), Arm(0xE8ED_2001), To(SP_IRQ, 0x48), Mem(0x40, 5), Mem(0x44, 0),                 Both(3, 2), // stm ^
        R(0, 5), R(1, 0x40), R(8, 1), R(13, 0x40), R(14, 0xB),        Arm(0xE8ED_2001), To(SP, 0x48), Mem(0x40, 5), Mem7(0x44, 0x48), Mem9(0x44, 0x40), Both(3, 2), // stm ^

        // the addresses of a list align and wrap
        R(0, 5), R(1, 0x43),                 Arm(0xE8A1_0001), To(1, 0x47), Mem(0x40, 5),                    Both(2, 1), // at 43h
        R(0, 5), R(1, 0xFFFF_FFFC), R(2, 6), Arm(0xE8A1_0005), To(1, 4), Mem(0x1FC, 5), Mem(0, 6),           Both(3, 2), // at the last word
        R(0, 5), R(1, 4), R(2, 6),           Arm(0xE921_0005), To(1, 0xFFFF_FFFC), Mem(0x1FC, 5), Mem(0, 6), Both(3, 2), // down from 4

        // other lists go by the architecture too
        R(1, 0x40),          Arm(0xE8B1_0005), To(0, 7), To(1, 0x48), To(2, 9),                              Both(4, 3), // ldmia r1!, {r0, r2}
        R(1, 0x40),          Arm(0xE8B1_0000), To(1, 0x80), To7(PC, 4),                                      Both(4, 1), // ldmia r1!, {}
        R(1, 0x80),          Arm(0xE931_0000), To(1, 0x40), To7(PC, 4),                                      Both(4, 1), // ldmdb r1!, {}
        R(1, 0x40), R(2, 6), Arm(0xE8A1_0006), To(1, 0x48), Mem(0x40, 0x40), Mem(0x44, 6),                   Both(3, 2), // stmia r1!, {r1, r2}
        R(1, 0x40),          Thumb(0xC900),    To(1, 0x80), To7(PC, 6),                                      Both(4, 1), // ldmia r1!, {}
        R(1, 0x40),          Thumb(0xC100),    To(1, 0x80), Mem7(0x40, 0x104),                               Both(1, 1), // stmia r1!, {}
        R(0, 5), R(1, 0x40), Thumb(0xC103),    To(1, 0x48), Mem(0x40, 5), Mem7(0x44, 0x48), Mem9(0x44, 0x40), Both(3, 2), // stmia r1!, {r0, r1}
    ])
}
