//! Loads, stores and swaps of one register, and of two.

use super::lines::Line::{
    Arm, Both, Cpsr, Mem, Mem7, Mem9, Nine, Nzcv, Pc, R, Refuses, Stops, Stops9, Thumb, To, To7,
    To9,
};
use super::lines::{CPSR, LR, LR_SVC, PC, R8_FIQ, SP, SP_IRQ, SP_SVC, SP_UND, try_lines};
use ds_base::LeftKind::NotYet;
use std::alloc::AllocError;

#[test]
#[rattlefmt::skip]
fn words_and_bytes_are_loaded_and_stored(rt: HostRuntime) -> Result<(), AllocError> {
    try_lines(&rt, rt.alloc(), &[
        // words and bytes are loaded in each mode of address
        R(1, 0x40),                      Arm(0xE591_0000), To(0, 7),              Both(3, 2), // ldr r0, [r1, #0x0]
        R(1, 0x40),                      Arm(0xE591_0004), To(0, 9),              Both(3, 2), // ldr r0, [r1, #0x4]
        R(1, 0x44),                      Arm(0xE511_0004), To(0, 7),              Both(3, 2), // ldr r0, [r1, #-0x4]
        R(1, 0x40),                      Arm(0xE5B1_0004), To(0, 9), To(1, 0x44), Both(3, 2), // ldr r0, [r1, #0x4]!
        R(1, 0x44),                      Arm(0xE531_0004), To(0, 7), To(1, 0x40), Both(3, 2), // ldr r0, [r1, #-0x4]!
        R(1, 0x40),                      Arm(0xE491_0004), To(0, 7), To(1, 0x44), Both(3, 2), // ldr r0, [r1], #0x4
        R(1, 0x44),                      Arm(0xE411_0004), To(0, 9), To(1, 0x40), Both(3, 2), // ldr r0, [r1], #-0x4
        R(1, 0x40), R(2, 1),             Arm(0xE791_0102), To(0, 9),              Both(3, 2), // ldr r0, [r1, r2, lsl #0x2]
        // lsr by 0 is by 32: the offset is 0
        R(1, 0x40), R(2, 0xFFFF_FFFF),   Arm(0xE711_0022), To(0, 7),              Both(3, 2), // ldr r0, [r1, -r2, lsr #0x20]
        // asr by 0 is by 32: the offset is -1
        R(1, 0x3F), R(2, 0x8000_0000),   Arm(0xE711_0042), To(0, 7),              Both(3, 2), // ldr r0, [r1, -r2, asr #0x20]
        R(1, 0x44), R(2, 0xFFFF_FFF8),   Arm(0xE7B1_00C2), To(0, 7), To(1, 0x40), Both(3, 2), // ldr r0, [r1, r2, asr #0x1]!
        R(1, 0x40), R(2, 0x40),          Arm(0xE611_0262), To(0, 7), To(1, 0x3C), Both(3, 2), // ldr r0, [r1], -r2, ror #0x4
        // C is bit 31 of the offset
        Nzcv(0b0010), R(1, 0x8000_0040), Arm(0xE791_0062), To(0, 7),              Both(3, 2), // ldr r0, [r1, r2, rrx]
                                         Arm(0xE5D1_0003), To(0, 0x44),           Both(3, 2), // ldrb r0, [r1, #0x3]
        R(1, 8),                         Arm(0xE4D1_0001), To(0, 0x81), To(1, 9), Both(3, 2), // ldrb r0, [r1], #0x1

        // a word at an address that is not aligned is rotated
        R(1, 1),           Arm(0xE591_0000), To(0, 0x1144_3322),           Both(3, 2), // one byte on
        R(1, 2),           Arm(0xE591_0000), To(0, 0x2211_4433),           Both(3, 2), // two bytes on
        R(1, 3),           Arm(0xE591_0000), To(0, 0x3322_1144),           Both(3, 2), // three bytes on
        // the address counts with its offset, and the base is written back as it is
        R(1, 0xFFFF_FFFF), Arm(0xE5B1_0002), To(0, 0x1144_3322), To(1, 1), Both(3, 2), // ldr r0, [r1, #0x2]!
        R(1, 3),           Arm(0xE491_0004), To(0, 0x3322_1144), To(1, 7), Both(3, 2), // ldr r0, [r1], #0x4

        // words and bytes are stored
        R(0, 0x1234_5678), R(1, 0x40),          Arm(0xE581_0004), Mem(0x44, 0x1234_5678),              Both(2, 1), // str r0, [r1, #0x4]
        // a store is aligned, and not rotated
        R(0, 0x1234_5678), R(1, 0x40),          Arm(0xE581_0003), Mem(0x40, 0x1234_5678),              Both(2, 1), // str r0, [r1, #0x3]
        // the base is stored as it was
        R(1, 0x40),                             Arm(0xE5A1_1004), To(1, 0x44), Mem(0x44, 0x40),        Both(2, 1), // str r1, [r1, #0x4]!
        R(1, 0x40),                             Arm(0xE481_1004), To(1, 0x44), Mem(0x40, 0x40),        Both(2, 1), // str r1, [r1], #0x4
        R(0, 0x1234_5678), R(1, 0x40), R(2, 8), Arm(0xE601_0002), To(1, 0x38), Mem(0x40, 0x1234_5678), Both(2, 1), // str r0, [r1], -r2
        R(0, 0x1234_5678), R(1, 0x40),          Arm(0xE5C1_0001), Mem(0x40, 0x7807),                   Both(2, 1), // strb r0, [r1, #0x1]
        // r15 is stored as the address and 12
        R(1, 0x40),                             Arm(0xE581_F000), Mem(0x40, 0x10C),                    Both(2, 1), // str r15, [r1, #0x0]

        // the forms with t act as the others
        R(1, 0x40),                    Arm(0xE4B1_0004), To(0, 7), To(1, 0x44),               Both(3, 2), // ldrt r0, [r1], #0x4
        Cpsr(0x10), R(1, 0x40),        Arm(0xE4B1_0004), To(0, 7), To(1, 0x44),               Both(3, 2), // in User mode
        R(1, 8),                       Arm(0xE471_0001), To(0, 0x81), To(1, 7),               Both(3, 2), // ldrbt r0, [r1], #-0x1
        R(0, 0x1234_5678), R(1, 0x40), Arm(0xE421_0004), To(1, 0x3C), Mem(0x40, 0x1234_5678), Both(2, 1), // strt r0, [r1], #-0x4
        R(0, 0x1234_5678), R(1, 0x40), Arm(0xE4E1_0001), To(1, 0x41), Mem(0x40, 0x78),        Both(2, 1), // strbt r0, [r1], #0x1

        // a loaded base keeps what was loaded
        R(1, 0x40), Arm(0xE5B1_1004), To(1, 9), Both(3, 2), // ldr r1, [r1, #0x4]!
        R(1, 0x40), Arm(0xE491_1004), To(1, 7), Both(3, 2), // ldr r1, [r1], #0x4
        R(1, 0x44), Arm(0xE451_1004), To(1, 9), Both(3, 2), // ldrb r1, [r1], #-0x4

        // r15 is a base an offset or loaded
                           Arm(0xE59F_0004), To(0, 0x10C_C3C3),                                            Both(3, 2), // ldr r0, [r15, #0x4]
        // r15 isn't written back
                           Arm(0xE53F_0004), To(0, 0x104_A1A1),                                            Both(3, 2), // ldr r0, [r15, #-0x4]!
                           Arm(0xE49F_0004), To(0, 0x108_B2B2),                                            Both(3, 2), // ldr r0, [r15], #0x4
        R(1, 0xFFFF_FF38), Arm(0xE791_000F), To(0, 7),                                                     Both(3, 2), // ldr r0, [r1, r15]
        // ARMv4 stays in ARM state, and bits 1 and 0 are cleared; ARMv5 goes by bit 0; the write of r15 costs two more
        R(1, 0x48),        Arm(0xE491_F004), To(1, 0x4C), To7(PC, 0x180), To9(PC, 0x182), To9(CPSR, 0x3F), Both(5, 4), // ldr r15, [r1], #0x4
        R(1, 7),           Arm(0xE5F1_F001), To(1, 8), Pc(0x80),                                           Both(5, 4), // ldrb r15, [r1, #0x1]!

        // registers are those of the mode
        Cpsr(0x11), R(9, 0x40),               Arm(0xE599_8000), To(R8_FIQ, 7),                   Both(3, 2), // FIQ: ldr r8, [r9, #0x0]
        Cpsr(0x12), R(14, 0x40),              Arm(0xE5BE_D000), To(SP_IRQ, 7),                   Both(3, 2), // IRQ: ldr r13, [r14, #0x0]!
        Cpsr(0x13), R(13, 0x40),              Arm(0xE49D_E004), To(LR_SVC, 7), To(SP_SVC, 0x44), Both(3, 2), // Supervisor: ldr r14, [r13], #0x4
        Cpsr(0x17), R(13, 0x40), R(14, 0x44), Arm(0xE58D_E000), Mem(0x40, 0x44),                 Both(2, 1), // Abort: str r14, [r13, #0x0]
        Cpsr(0x1B), R(12, 0x40),              Arm(0xE59C_D000), To(SP_UND, 7),                   Both(3, 2), // Undefined: ldr r13, [r12, #0x0]
        // a mode that there isn't has System's
        Cpsr(0x14), R(1, 0x40),               Arm(0xE591_D000), To(SP, 7),                       Both(3, 2), // mode 14h: ldr r13, [r1, #0x0]
        Nzcv(0b0100), R(1, 0x40),             Arm(0x15B1_0004),                                  Both(1, 1), // ldrne r0, [r1, #0x4]!
    ])
}

#[test]
#[rattlefmt::skip]
fn halves_are_loaded_and_stored(rt: HostRuntime) -> Result<(), AllocError> {
    try_lines(&rt, rt.alloc(), &[
        // halves and signed bytes are loaded
                 Arm(0xE1D1_00B0), To(0, 0x2211),                            Both(3, 2), // ldrh r0, [r1, #0x0]
        R(1, 8), Arm(0xE1D1_00B2), To(0, 0x8483),                            Both(3, 2), // ldrh r0, [r1, #0x2]
        // at an odd address ARMv4 rotates the half by 8 in 32 bits, and ARMv5 aligns
        R(1, 1), Arm(0xE1D1_00B0), To7(0, 0x1100_0022), To9(0, 0x2211),      Both(3, 2), // ldrh at 1
        R(1, 3), Arm(0xE1D1_00B0), To7(0, 0x3300_0044), To9(0, 0x4433),      Both(3, 2), // ldrh at 3
        R(1, 8), Arm(0xE1D1_00F0), To(0, 0xFFFF_8281),                       Both(3, 2), // ldrsh r0, [r1, #0x0]
                 Arm(0xE1D1_00F0), To(0, 0x2211),                            Both(3, 2), // ldrsh of a half above 0
        // and LDRSH acts as LDRSB on ARMv4
        R(1, 1), Arm(0xE1D1_00F0), To7(0, 0x22), To9(0, 0x2211),             Both(3, 2), // ldrsh at 1
        R(1, 9), Arm(0xE1D1_00F0), To7(0, 0xFFFF_FF82), To9(0, 0xFFFF_8281), Both(3, 2), // ldrsh at 9
        R(1, 8), Arm(0xE1D1_00D0), To(0, 0xFFFF_FF81),                       Both(3, 2), // ldrsb r0, [r1, #0x0]
        R(1, 3), Arm(0xE1D1_00D0), To(0, 0x44),                              Both(3, 2), // ldrsb of a byte above 0

        // their addresses are of mode 3
        // the number is bits 11 to 8 and 3 to 0
        R(1, 0x14),          Arm(0xE1D1_02BC), To(0, 7),                                   Both(3, 2), // ldrh r0, [r1, #0x2c]
        R(1, 0x3C), R(2, 4), Arm(0xE1B1_00B2), To(0, 7), To(1, 0x40),                      Both(3, 2), // ldrh r0, [r1, r2]!
        R(1, 0x40), R(2, 4), Arm(0xE011_00B2), To(0, 7), To(1, 0x3C),                      Both(3, 2), // ldrh r0, [r1], -r2
        R(1, 0xA),           Arm(0xE151_00F2), To(0, 0xFFFF_8281),                         Both(3, 2), // ldrsh r0, [r1, #-0x2]
        // bit 21 beside an offset after the access changes nothing
        R(1, 0x40),          Arm(0xE0F1_00B2), To(0, 7), To(1, 0x42),                      Both(3, 2), // ldrh r0, [r1], #0x2 with W
        // a loaded base keeps what was loaded
        R(1, 8),             Arm(0xE1F1_10D1), To(1, 0xFFFF_FF82),                         Both(3, 2), // ldrsb r1, [r1, #0x1]!
        // r15 as base isn't written back
                             Arm(0xE0DF_00B4), To(0, 0xB2B2),                              Both(3, 2), // ldrh r0, [r15], #0x4
        // a load of r15 keeps the state
        R(1, 0x48),          Arm(0xE1D1_F0B0), Pc(0x180),                                  Both(5, 4), // ldrh r15, [r1, #0x0]
        R(1, 8),             Arm(0xE1D1_F0D0), Pc(0xFFFF_FF80),                            Both(5, 4), // ldrsb r15, [r1, #0x0]
        R(1, 9),             Arm(0xE1D1_F0F0), To7(PC, 0xFFFF_FF80), To9(PC, 0xFFFF_8280), Both(5, 4), // ldrsh r15, [r1, #0x0]

        // a register is subtracted from the base of mode 3
        R(1, 0x44), R(2, 4),          Arm(0xE111_00B2), To(0, 7),                          Both(3, 2), // ldrh r0, [r1, -r2]
        R(1, 0x44), R(2, 4),          Arm(0xE131_00B2), To(0, 7), To(1, 0x40),             Both(3, 2), // ldrh r0, [r1, -r2]!
        R(1, 0x0C), R(2, 4),          Arm(0xE111_00D2), To(0, 0xFFFF_FF81),                Both(3, 2), // ldrsb r0, [r1, -r2]
        R(0, 5), R(1, 0x44), R(2, 4), Arm(0xE101_00B2), Mem(0x40, 5),                      Both(2, 1), // strh r0, [r1, -r2]

        // halves are stored
        R(0, 0x1234_5678), R(1, 0x40), Arm(0xE1C1_00B2), Mem(0x40, 0x5678_0007),            Both(2, 1), // strh r0, [r1, #0x2]
        // at an odd address the store is aligned
        R(0, 0x1234_5678), R(1, 0x41), Arm(0xE1C1_00B0), Mem(0x40, 0x5678),                 Both(2, 1), // strh at 41h
        R(0, 0x1234_5678), R(1, 0x40), Arm(0xE0C1_01B0), To(1, 0x50), Mem(0x40, 0x5678),    Both(2, 1), // strh r0, [r1], #0x10
        // the base is stored as it was
        R(1, 0x40),                    Arm(0xE1E1_10B2), To(1, 0x42), Mem(0x40, 0x40_0007), Both(2, 1), // strh r1, [r1, #0x2]!
        // r15 is stored as the address and 12
        R(1, 0x40),                    Arm(0xE1C1_F0B0), Mem(0x40, 0x10C),                  Both(2, 1), // strh r15, [r1, #0x0]

        // odd addresses and bases in lists go by the architecture
        R(1, 1),             Arm(0xE591_0000), To(0, 0x1144_3322),                                           Both(3, 2), // ldr r0, [r1]
        R(1, 1),             Arm(0xE1D1_00B0), To7(0, 0x1100_0022), To9(0, 0x2211),                          Both(3, 2), // ldrh r0, [r1]
        R(1, 1),             Arm(0xE1D1_00F0), To7(0, 0x22), To9(0, 0x2211),                                 Both(3, 2), // ldrsh r0, [r1]
        R(0, 5), R(1, 0x40), Arm(0xE8A1_0003), To(1, 0x48), Mem(0x40, 5), Mem7(0x44, 0x48), Mem9(0x44, 0x40), Both(3, 2), // stmia r1!, {r0, r1}
        R(1, 0x40),          Arm(0xE8B1_0006), To(2, 9), To7(1, 7), To9(1, 0x48),                            Both(4, 3), // ldmia r1!, {r1, r2}
        R(1, 0x40),          Arm(0xE8A1_0000), To(1, 0x80), Mem7(0x40, 0x10C),                               Both(1, 1), // stmia r1!, {}
    ])
}

#[test]
#[rattlefmt::skip]
fn swaps_doubles_and_refused_writes(rt: HostRuntime) -> Result<(), AllocError> {
    try_lines(&rt, rt.alloc(), &[
        // a register and memory change places
        R(1, 0x40), R(2, 0x55),        Arm(0xE101_0092), To(0, 7), Mem(0x40, 0x55),                 Both(4, 4), // swp r0, r2, [r1]
        // what was read is rotated, the store is aligned
        R(1, 0x41), R(2, 0x1234_5678), Arm(0xE101_0092), To(0, 0x700_0000), Mem(0x40, 0x1234_5678), Both(4, 4), // swp at 41h
        R(0, 0x55), R(1, 0x40),        Arm(0xE101_0090), To(0, 7), Mem(0x40, 0x55),                 Both(4, 4), // swp r0, r0, [r1]
        R(1, 0x40),                    Arm(0xE101_1091), To(1, 7), Mem(0x40, 0x40),                 Both(4, 4), // swp r1, r1, [r1]
        R(1, 1), R(2, 0x1234),         Arm(0xE141_0092), To(0, 0x22), Mem(0, 0x4433_3411),          Both(4, 4), // swpb r0, r2, [r1]
        // r15 is stored as the address and 12
        R(1, 0x40),                    Arm(0xE101_009F), To(0, 7), Mem(0x40, 0x10C),                Both(4, 4), // swp r0, r15, [r1]
        // a write of r15 keeps the state, and costs two more
        R(1, 0x48), R(2, 0x55),        Arm(0xE101_F092), Pc(0x180), Mem(0x48, 0x55),                Both(6, 6), // swp r15, r2, [r1]
        R(1, 8), R(2, 0x55),           Arm(0xE141_F092), Pc(0x80), Mem(8, 0x8483_8255),             Both(6, 6), // swpb r15, r2, [r1]

        // two registers are loaded
        R(1, 0x40),                 Arm(0xE1C1_20D0), To(2, 7), To(3, 9),                   Nine(3), // ldrd r2, [r1]
        // at an odd place the aligned word and the next
        R(1, 0x43),                 Arm(0xE1C1_20D0), To(2, 7), To(3, 9),                   Nine(3), // ldrd r2, [r1]
        R(1, 0x45),                 Arm(0xE1C1_20D0), To(2, 9), To(3, 0x183),               Nine(3), // ldrd r2, [r1]
        R(1, 0x38),                 Arm(0xE1C1_20D8), To(2, 7), To(3, 9),                   Nine(3), // ldrd r2, [r1, #8]
        R(1, 0x48),                 Arm(0xE141_20D8), To(2, 7), To(3, 9),                   Nine(3), // ldrd r2, [r1, #-8]
        R(1, 0x38),                 Arm(0xE1E1_20D8), To(1, 0x40), To(2, 7), To(3, 9),      Nine(3), // ldrd r2, [r1, #8]!
        R(1, 0x40),                 Arm(0xE0C1_20D8), To(1, 0x48), To(2, 7), To(3, 9),      Nine(3), // ldrd r2, [r1], #8
        R(1, 0x30), R(4, 0x10),     Arm(0xE181_20D4), To(2, 7), To(3, 9),                   Nine(3), // ldrd r2, [r1, r4]
        R(1, 0x50), R(4, 0x10),     Arm(0xE101_20D4), To(2, 7), To(3, 9),                   Nine(3), // ldrd r2, [r1, -r4]
        // the base that was loaded keeps what was loaded
        R(1, 0x40),                 Arm(0xE0C1_00D8), To(0, 7), To(1, 9),                   Nine(3), // ldrd r0, [r1], #8
        // addresses wrap
        R(1, 0xFFFF_FFFC), R(2, 5), Arm(0xE1C1_20D0), To(2, 0), To(3, 0x4433_2211),         Nine(3), // ldrd r2, [r1]
        // r15 reads as 108h
                                    Arm(0xE1CF_20D0), To(2, 0x108_B2B2), To(3, 0x10C_C3C3), Nine(3), // ldrd r2, [r15]
        // r15 keeps the state, and loses its two low bits
        R(1, 0x40),                 Arm(0xE1C1_E0D0), To(LR, 7), Pc(8),                     Nine(5), // ldrd r14, [r1]
        // a condition that fails
        R(1, 0x40),                 Arm(0x01C1_20D0),                                       Nine(1), // ldrdeq r2, [r1]

        // two registers are stored
        R(1, 0x40), R(2, 5), R(3, 6), Arm(0xE1C1_20F0), Mem(0x40, 5), Mem(0x44, 6),                 Nine(2), // strd r2, [r1]
        R(1, 0x47), R(2, 5), R(3, 6), Arm(0xE1C1_20F0), Mem(0x44, 5), Mem(0x48, 6),                 Nine(2), // strd r2, [r1]
        R(1, 0x38), R(2, 5), R(3, 6), Arm(0xE1E1_20F8), To(1, 0x40), Mem(0x40, 5), Mem(0x44, 6),    Nine(2), // strd r2, [r1, #8]!
        // the old base is stored
        R(0, 5), R(1, 0x40),          Arm(0xE0C1_00F8), To(1, 0x48), Mem(0x40, 5), Mem(0x44, 0x40), Nine(2), // strd r0, [r1], #8
        // r15 is stored as its address and 12
        R(1, 0x40), R(14, 3),         Arm(0xE1C1_E0F0), Mem(0x40, 3), Mem(0x44, 0x10C),             Nine(2), // strd r14, [r1]

        // r15 is stored as the address and 12 and not written back
        R(1, 0x40), Arm(0xE5C1_F000), Mem(0x40, 0xC), Both(2, 1), // strb r15, [r1]
        R(1, 0x40), Arm(0xE141_009F), To(0, 7), Mem(0x40, 0xC), Both(4, 4), // swpb r0, r15, [r1]
        R(0, 5), Arm(0xE5AF_0004), Mem(0x10C, 5), Both(2, 1), // str r0, [r15, #0x4]!
        R(0, 5), Arm(0xE48F_0004), Mem(0x108, 5), Both(2, 1), // str r0, [r15], #0x4
        R(0, 5), Arm(0xE1EF_00B4), Mem(0x10C, 0x010C_0005), Both(2, 1), // strh r0, [r15, #0x4]!
        R(0, 5), Arm(0xE0CF_00B4), Mem(0x108, 0x0108_0005), Both(2, 1), // strh r0, [r15], #0x4
        Arm(0xE1EF_20D4), To(2, 0x010C_C3C3), To(3, 0), Nine(3), // ldrd r2, [r15, #0x4]!
        Arm(0xE0CF_20D8), To(2, 0x0108_B2B2), To(3, 0x010C_C3C3), Nine(3), // ldrd r2, [r15], #0x8
        R(2, 5), R(3, 6), Arm(0xE0CF_20F8), Mem(0x108, 5), Mem(0x10C, 6), Nine(2), // strd r2, [r15], #0x8

        // a refused write leaves the registers as they were
        // what was written before it stands
        Refuses(0x44), R(0, 5), R(1, 0x40), R(2, 6), Arm(0xE8A1_0005), Pc(0x100), Mem(0x40, 5), Stops(NotYet, 6), // stmia r1!, {r0, r2}
        Refuses(0x7C), R(0, 5), R(13, 0x80), R(14, 0x77), Thumb(0xB501), Pc(0x100), Mem(0x78, 5), Stops(NotYet, 0x77), // push {r0, r14}
        Refuses(0x44), R(0, 5), R(1, 0x40), Arm(0xE0C1_00F8), Pc(0x100), Mem(0x40, 5), Stops9(NotYet, 0x40), // strd r0, [r1], #8
        Refuses(0x40), R(0, 5), R(1, 0x40), Arm(0xE0C1_00F8), Pc(0x100), Stops9(NotYet, 5), // strd r0, [r1], #8
        // what was read goes nowhere
        Refuses(0x40), R(1, 0x40), R(2, 0x55), Arm(0xE101_0092), Pc(0x100), Stops(NotYet, 0x55), // swp r0, r2, [r1]
        Refuses(0x40), R(1, 0x41), R(2, 0x1255), Arm(0xE141_0092), Pc(0x100), Stops(NotYet, 0x55), // swpb r0, r2, [r1]
        // the base isn't written back
        Refuses(0x44), R(0, 5), R(1, 0x40), Arm(0xE5A1_0004), Pc(0x100), Stops(NotYet, 5), // str r0, [r1, #0x4]!
        Refuses(0x40), R(0, 0x1_2345), R(1, 0x40), Arm(0xE0C1_01B0), Pc(0x100), Stops(NotYet, 0x2345), // strh r0, [r1], #0x10
        // a condition that fails writes nothing
        Refuses(0x40), R(0, 5), R(1, 0x40), Arm(0x0581_0000), Both(1, 1), // streq r0, [r1]
    ])
}
