//! Multiplies, CLZ and the saturating sums.

use super::lines::Line::{Arm, Both, Cpsr, Flags, Nine, Nzcv, Pc, R, To, To7, To9};
use super::lines::{CPSR, try_lines};
use std::alloc::AllocError;

#[test]
#[rattlefmt::skip]
fn words_and_halves_are_multiplied(rt: HostRuntime) -> Result<(), AllocError> {
    try_lines(&rt, rt.alloc(), &[
        // words are multiplied
        // C and V stay
        Nzcv(0b0110), R(0, 9), R(1, 3), R(2, 5), R(3, 0),             Arm(0xE000_0291), To(0, 0xF), Flags(0b0110),         Both(4, 2), // mul
        Nzcv(0b0011), R(0, 9), R(1, 0x1_0000), R(2, 0x1_0000), R(3, 0), Arm(0xE010_0291), To(0, 0), Flags(0b0111),           Both(4, 2), // muls
        Nzcv(0b0111), R(0, 9), R(1, 0xFFFF_FFFF), R(2, 1), R(3, 0),   Arm(0xE010_0291), To(0, 0xFFFF_FFFF), Flags(0b1011), Both(4, 2), // muls
        Nzcv(0b1000), R(0, 9), R(1, 3), R(2, 5), R(3, 0xA),           Arm(0xE020_3291), To(0, 0x19), Flags(0b1000),        Both(4, 2), // mla
        Nzcv(0b1010), R(0, 9), R(1, 0xFFFF_FFFF), R(2, 5), R(3, 5),   Arm(0xE030_3291), To(0, 0), Flags(0b0110),           Both(4, 2), // mlas
        Nzcv(0b0100), R(0, 9), R(1, 3), R(2, 5), R(3, 0xA),           Arm(0xE030_3291), To(0, 0x19), Flags(0b0000),        Both(4, 2), // mlas
        Nzcv(0b0000), R(0, 9), R(1, 0), R(2, 0), R(3, 0),             Arm(0xE000_0090), To(0, 0x51), Flags(0b0000),        Both(4, 2), // mul r0, r0, r0

        // long products have 64 bits
        // C and V stay
        Nzcv(0b0011), R(0, 7), R(1, 7), R(2, 0xFFFF_FFFF), R(3, 0xFFFF_FFFF), Arm(0xE081_0392), To(0, 1), To(1, 0xFFFF_FFFE), To(2, 0xFFFF_FFFF), To(3, 0xFFFF_FFFF), Flags(0b0011), Both(5, 3), // umull
        Nzcv(0b0111), R(0, 7), R(1, 7), R(2, 0xFFFF_FFFF), R(3, 0xFFFF_FFFF), Arm(0xE091_0392), To(0, 1), To(1, 0xFFFF_FFFE), To(2, 0xFFFF_FFFF), To(3, 0xFFFF_FFFF), Flags(0b1011), Both(5, 3), // umulls
        Nzcv(0b1000), R(0, 7), R(1, 7), R(2, 0xFFFF_FFFF), R(3, 0),   Arm(0xE091_0392), To(0, 0), To(1, 0), To(2, 0xFFFF_FFFF), To(3, 0), Flags(0b0100), Both(5, 3), // umulls
        Nzcv(0b0000), R(0, 7), R(1, 7), R(2, 0xFFFF_FFFF), R(3, 0xFFFF_FFFF), Arm(0xE0C1_0392), To(0, 1), To(1, 0), To(2, 0xFFFF_FFFF), To(3, 0xFFFF_FFFF), Flags(0b0000), Both(5, 3), // smull
        Nzcv(0b0010), R(0, 7), R(1, 7), R(2, 0xFFFF_FFFF), R(3, 2),   Arm(0xE0D1_0392), To(0, 0xFFFF_FFFE), To(1, 0xFFFF_FFFF), To(2, 0xFFFF_FFFF), To(3, 2), Flags(0b1010), Both(5, 3), // smulls
        Nzcv(0b0001), R(0, 7), R(1, 7), R(2, 2), R(3, 0xFFFF_FFFF),   Arm(0xE0D1_0392), To(0, 0xFFFF_FFFE), To(1, 0xFFFF_FFFF), To(2, 2), To(3, 0xFFFF_FFFF), Flags(0b1001), Both(5, 3), // smulls
        Nzcv(0b1100), R(0, 7), R(1, 7), R(2, 0x8000_0000), R(3, 0x8000_0000), Arm(0xE0D1_0392), To(0, 0), To(1, 0x4000_0000), To(2, 0x8000_0000), To(3, 0x8000_0000), Flags(0b0000), Both(5, 3), // smulls
        Nzcv(0b0000), R(0, 0xFFFF_FFFF), R(1, 0), R(2, 1), R(3, 1),   Arm(0xE0A1_0392), To(0, 0), To(1, 1), To(2, 1), To(3, 1), Flags(0b0000),        Both(5, 3), // umlal
        Nzcv(0b1011), R(0, 0xFFFF_FFFF), R(1, 0xFFFF_FFFF), R(2, 1), R(3, 1), Arm(0xE0B1_0392), To(0, 0), To(1, 0), To(2, 1), To(3, 1), Flags(0b0111),        Both(5, 3), // umlals
        Nzcv(0b0100), R(0, 0), R(1, 0), R(2, 0xFFFF_FFFF), R(3, 1),   Arm(0xE0E1_0392), To(0, 0xFFFF_FFFF), To(1, 0xFFFF_FFFF), To(2, 0xFFFF_FFFF), To(3, 1), Flags(0b0100), Both(5, 3), // smlal
        Nzcv(0b0000), R(0, 5), R(1, 0), R(2, 0xFFFF_FFFF), R(3, 5),   Arm(0xE0F1_0392), To(0, 0), To(1, 0), To(2, 0xFFFF_FFFF), To(3, 5), Flags(0b0100), Both(5, 3), // smlals
        Nzcv(0b0000), R(0, 1), R(1, 0x8000_0000), R(2, 2), R(3, 3),   Arm(0xE0F1_0392), To(0, 7), To(1, 0x8000_0000), To(2, 2), To(3, 3), Flags(0b1000), Both(5, 3), // smlals
        // both results go to r1: it has the high word, and Z is that of the 64 bits
        Nzcv(0b0100), R(0, 7), R(1, 7), R(2, 1), R(3, 1),             Arm(0xE091_1392), To(0, 7), To(1, 0), To(2, 1), To(3, 1), Flags(0b0000),        Both(5, 3), // umulls r1, r1
        Nzcv(0b0000), R(0, 7), R(1, 7), R(2, 0x1_0000), R(3, 0x3_0000), Arm(0xE081_1392), To(0, 7), To(1, 3), To(2, 0x1_0000), To(3, 0x3_0000), Flags(0b0000), Both(5, 3), // umull r1, r1
        Nzcv(0b0000), R(0, 7), R(1, 5), R(2, 1), R(3, 0xFFFF_FFFF),   Arm(0xE0A1_1392), To(0, 7), To(1, 6), To(2, 1), To(3, 0xFFFF_FFFF), Flags(0b0000), Both(5, 3), // umlal r1, r1
        // the operands are read before a result is written
        Nzcv(0b0000), R(0, 7), R(1, 7), R(2, 0xFFFF_FFFF), R(3, 2),   Arm(0xE083_2392), To(0, 7), To(1, 7), To(2, 0xFFFF_FFFE), To(3, 1), Flags(0b0000), Both(5, 3), // umull r2, r3, r2, r3
        Nzcv(0b0000), R(0, 7), R(1, 7), R(2, 2), R(3, 0xFFFF_FFFF),   Arm(0xE0E3_2392), To(0, 7), To(1, 7), To(2, 0), To(3, 0xFFFF_FFFF), Flags(0b0000), Both(5, 3), // smlal r2, r3, r2, r3

        // halves are multiplied
        Nzcv(0b0110), R(0, 9), R(1, 0x3_FFFE), R(2, 0x5_0007), R(3, 0), Arm(0xE160_0281), To(0, 0xFFFF_FFF2), Flags(0b0110), Nine(2), // smulbb
        Nzcv(0b0110), R(0, 9), R(1, 0x3_FFFE), R(2, 0x5_0007), R(3, 0), Arm(0xE160_02A1), To(0, 0x15), Flags(0b0110),        Nine(2), // smultb
        Nzcv(0b0110), R(0, 9), R(1, 0x3_FFFE), R(2, 0x5_0007), R(3, 0), Arm(0xE160_02C1), To(0, 0xFFFF_FFF6), Flags(0b0110), Nine(2), // smulbt
        Nzcv(0b0110), R(0, 9), R(1, 0x3_FFFE), R(2, 0x5_0007), R(3, 0), Arm(0xE160_02E1), To(0, 0xF), Flags(0b0110),         Nine(2), // smultt
        Nzcv(0b0110), R(0, 9), R(1, 0x8000_8000), R(2, 0x8000_8000), R(3, 0), Arm(0xE160_0281), To(0, 0x4000_0000), Flags(0b0110), Nine(2), // smulbb
        Nzcv(0b0110), R(0, 9), R(1, 0x7FFF), R(2, 0x8000_8000), R(3, 0), Arm(0xE160_0281), To(0, 0xC000_8000), Flags(0b0110), Nine(2), // smulbb
        // bits 47 to 16 of a word by a half
        Nzcv(0b0110), R(0, 9), R(1, 0x1_0000), R(2, 0x5_FFFE), R(3, 0), Arm(0xE120_02A1), To(0, 0xFFFF_FFFE), Flags(0b0110), Nine(2), // smulwb
        Nzcv(0b0110), R(0, 9), R(1, 0x1_0000), R(2, 0x5_FFFE), R(3, 0), Arm(0xE120_02E1), To(0, 5), Flags(0b0110),           Nine(2), // smulwt
        Nzcv(0b0110), R(0, 9), R(1, 0x8000_0000), R(2, 0x8000_8000), R(3, 0), Arm(0xE120_02A1), To(0, 0x4000_0000), Flags(0b0110), Nine(2), // smulwb
        Nzcv(0b0110), R(0, 9), R(1, 1), R(2, 0xFFFF), R(3, 0),        Arm(0xE120_02A1), To(0, 0xFFFF_FFFF), Flags(0b0110), Nine(2), // smulwb
        Nzcv(0b0110), R(0, 9), R(1, 0x1234_5678), R(2, 0x100), R(3, 0), Arm(0xE120_02A1), To(0, 0x12_3456), Flags(0b0110),   Nine(2), // smulwb

        // products are accumulated
        Nzcv(0b0110), R(0, 9), R(1, 0x3_FFFE), R(2, 0x5_0007), R(3, 0x14), Arm(0xE100_3281), To(0, 6), Flags(0b0110),                   Nine(2), // smlabb
        Nzcv(0b0110), R(0, 9), R(1, 0x3_FFFE), R(2, 0x5_0007), R(3, 0x64), Arm(0xE100_32A1), To(0, 0x79), Flags(0b0110),                Nine(2), // smlatb
        Nzcv(0b0110), R(0, 9), R(1, 0x3_FFFE), R(2, 0x5_0007), R(3, 4), Arm(0xE100_32C1), To(0, 0xFFFF_FFFA), Flags(0b0110),         Nine(2), // smlabt
        Nzcv(0b0110), R(0, 9), R(1, 0x3_FFFE), R(2, 0x5_0007), R(3, 1), Arm(0xE100_32E1), To(0, 0x10), Flags(0b0110),                Nine(2), // smlatt
        // Q is set where the sum overflows, and the sum isn't held
        Nzcv(0b0110), R(0, 9), R(1, 0x8000_8000), R(2, 0x8000_8000), R(3, 0x4000_0000), Arm(0xE100_3281), To(0, 0x8000_0000), To(CPSR, 0x6800_001F), Nine(2), // smlabb
        Nzcv(0b0110), R(0, 9), R(1, 0x8000_8000), R(2, 0x8000_8000), R(3, 0x3FFF_FFFF), Arm(0xE100_3281), To(0, 0x7FFF_FFFF), Flags(0b0110),         Nine(2), // smlabb
        Nzcv(0b0110), R(0, 9), R(1, 0x7FFF), R(2, 0x8000_8000), R(3, 0x8000_0000), Arm(0xE100_3281), To(0, 0x4000_8000), To(CPSR, 0x6800_001F), Nine(2), // smlabb
        Nzcv(0b0110), R(0, 9), R(1, 0x1_0000), R(2, 0x5_FFFE), R(3, 2), Arm(0xE120_3281), To(0, 0), Flags(0b0110),                   Nine(2), // smlawb
        Nzcv(0b0110), R(0, 9), R(1, 0x1_0000), R(2, 0x5_FFFE), R(3, 2), Arm(0xE120_32C1), To(0, 7), Flags(0b0110),                   Nine(2), // smlawt
        Nzcv(0b0110), R(0, 9), R(1, 0x8000_0000), R(2, 0x8000_8000), R(3, 0x4000_0000), Arm(0xE120_3281), To(0, 0x8000_0000), To(CPSR, 0x6800_001F), Nine(2), // smlawb
        Nzcv(0b0110), R(0, 9), R(1, 0x1_0000), R(2, 0xFFFE), R(3, 0x7FFF_FFFF), Arm(0xE120_3281), To(0, 0x7FFF_FFFD), Flags(0b0110),         Nine(2), // smlawb

        // products are accumulated in 64 bits
        Nzcv(0b0110), R(0, 0), R(1, 0), R(2, 0x3_FFFE), R(3, 0x5_0007), Arm(0xE141_0382), To(0, 0xFFFF_FFF2), To(1, 0xFFFF_FFFF), Nine(3), // smlalbb
        Nzcv(0b0110), R(0, 0xFFFF_FFFF), R(1, 0), R(2, 0x3_FFFE), R(3, 0x5_0007), Arm(0xE141_03A2), To(0, 0x14), To(1, 1),                  Nine(3), // smlaltb
        Nzcv(0b0110), R(0, 0xA), R(1, 0), R(2, 0x3_FFFE), R(3, 0x5_0007), Arm(0xE141_03C2), To(0, 0), To(1, 0),                     Nine(3), // smlalbt
        Nzcv(0b0110), R(0, 0xFFFF_FFF1), R(1, 0xFFFF_FFFF), R(2, 0x3_FFFE), R(3, 0x5_0007), Arm(0xE141_03E2), To(0, 0), To(1, 0),                     Nine(3), // smlaltt
        // both results go to r1: it has the high word
        Nzcv(0b0110), R(0, 9), R(1, 0), R(2, 0x3_FFFE), R(3, 0x5_0007), Arm(0xE141_1382), To(0, 9), To(1, 0xFFFF_FFFF),           Nine(3), // smlalbb r1, r1
        Nzcv(0b0110), R(0, 9), R(1, 1), R(2, 0x3_FFFE), R(3, 0x5_0007), Arm(0xE141_13A2), To(0, 9), To(1, 1),                     Nine(3), // smlaltb r1, r1

        // products go to r15 without its low bits
        R(1, 0x3_FFFE), R(2, 0x5_0007), R(3, 0x100), Arm(0xE16F_02A1), Pc(0x14),               Nine(4), // smultb r15
        R(1, 0x3_FFFE), R(2, 0x5_0007), R(3, 0x100), Arm(0xE10F_32E1), Pc(0x10C),              Nine(4), // smlatt r15
        // r15 reads as 108h, and the high word goes to it
        R(0, 1), R(1, 0x3_FFFE), R(2, 0x5_0007),     Arm(0xE14F_02E1), To(0, 0x10), Pc(0x108), Nine(5), // smlaltt r0, r15
    ])
}

#[test]
#[rattlefmt::skip]
fn zeros_are_counted_and_sums_are_held(rt: HostRuntime) -> Result<(), AllocError> {
    try_lines(&rt, rt.alloc(), &[
        // zeros above the highest one are counted
        Nzcv(0b1111), R(1, 0),           Arm(0xE16F_0F11), To(0, 0x20), Nine(1), // clz r0, r1
        Nzcv(0b1111), R(1, 1),           Arm(0xE16F_0F11), To(0, 0x1F), Nine(1), // clz r0, r1
        Nzcv(0b1111), R(1, 0x100),       Arm(0xE16F_0F11), To(0, 0x17), Nine(1), // clz r0, r1
        Nzcv(0b1111), R(1, 0x1_8000),    Arm(0xE16F_0F11), To(0, 0xF),  Nine(1), // clz r0, r1
        Nzcv(0b1111), R(1, 0x7FFF_FFFF), Arm(0xE16F_0F11), To(0, 1),    Nine(1), // clz r0, r1
        Nzcv(0b1111), R(1, 0x8000_0000), Arm(0xE16F_0F11), To(0, 0),    Nine(1), // clz r0, r1
        Nzcv(0b1111), R(1, 0xFFFF_FFFF), Arm(0xE16F_0F11), To(0, 0),    Nine(1), // clz r0, r1
        // r15 reads as 108h
                                         Arm(0xE16F_0F1F), To(0, 0x17), Nine(1), // clz r0, r15
        R(1, 1),                         Arm(0xE16F_FF11), Pc(0x1C),    Nine(3), // clz r15, r1

        // sums are held to signed words
        Nzcv(0b1010), R(0, 9), R(1, 0x7FFF_FFFF), R(2, 1),           Arm(0xE102_0051), To(0, 0x7FFF_FFFF), To(CPSR, 0xA800_001F), Nine(1), // qadd
        Nzcv(0b1010), R(0, 9), R(1, 0x7FFF_FFFE), R(2, 1),           Arm(0xE102_0051), To(0, 0x7FFF_FFFF), Flags(0b1010),         Nine(1), // qadd
        Nzcv(0b1010), R(0, 9), R(1, 0x8000_0000), R(2, 0xFFFF_FFFF), Arm(0xE102_0051), To(0, 0x8000_0000), To(CPSR, 0xA800_001F), Nine(1), // qadd
        Nzcv(0b1010), R(0, 9), R(1, 0x8000_0000), R(2, 0x8000_0000), Arm(0xE102_0051), To(0, 0x8000_0000), To(CPSR, 0xA800_001F), Nine(1), // qadd
        Nzcv(0b1010), R(0, 9), R(1, 0x7FFF_FFFF), R(2, 0x8000_0000), Arm(0xE102_0051), To(0, 0xFFFF_FFFF), Flags(0b1010),         Nine(1), // qadd
        Nzcv(0b1010), R(0, 9), R(1, 5), R(2, 0xFFFF_FFFB),           Arm(0xE102_0051), To(0, 0), Flags(0b1010),                   Nine(1), // qadd
        Nzcv(0b1010), R(0, 9), R(1, 0x8000_0000), R(2, 1),           Arm(0xE122_0051), To(0, 0x8000_0000), To(CPSR, 0xA800_001F), Nine(1), // qsub
        Nzcv(0b1010), R(0, 9), R(1, 0x7FFF_FFFF), R(2, 0xFFFF_FFFF), Arm(0xE122_0051), To(0, 0x7FFF_FFFF), To(CPSR, 0xA800_001F), Nine(1), // qsub
        Nzcv(0b1010), R(0, 9), R(1, 0), R(2, 0x8000_0000),           Arm(0xE122_0051), To(0, 0x7FFF_FFFF), To(CPSR, 0xA800_001F), Nine(1), // qsub
        Nzcv(0b1010), R(0, 9), R(1, 0xFFFF_FFFF), R(2, 0x7FFF_FFFF), Arm(0xE122_0051), To(0, 0x8000_0000), Flags(0b1010),         Nine(1), // qsub
        Nzcv(0b1010), R(0, 9), R(1, 3), R(2, 5),                     Arm(0xE122_0051), To(0, 0xFFFF_FFFE), Flags(0b1010),         Nine(1), // qsub
        Nzcv(0b1010), R(0, 9), R(1, 0x10), R(2, 0xFFFF_FFFD),        Arm(0xE142_0051), To(0, 0xA), Flags(0b1010),                 Nine(1), // qdadd
        Nzcv(0b1010), R(0, 9), R(1, 1), R(2, 0x3FFF_FFFF),           Arm(0xE142_0051), To(0, 0x7FFF_FFFF), Flags(0b1010),         Nine(1), // qdadd
        Nzcv(0b1010), R(0, 9), R(1, 0x7FFF_FFFF), R(2, 1),           Arm(0xE142_0051), To(0, 0x7FFF_FFFF), To(CPSR, 0xA800_001F), Nine(1), // qdadd
        Nzcv(0b1010), R(0, 9), R(1, 0x8000_0000), R(2, 0xC000_0000), Arm(0xE142_0051), To(0, 0x8000_0000), To(CPSR, 0xA800_001F), Nine(1), // qdadd
        // the doubled rn alone is held
        Nzcv(0b1010), R(0, 9), R(1, 0xFFFF_FFFF), R(2, 0x4000_0000), Arm(0xE142_0051), To(0, 0x7FFF_FFFE), To(CPSR, 0xA800_001F), Nine(1), // qdadd
        Nzcv(0b1010), R(0, 9), R(1, 1), R(2, 0x8000_0000),           Arm(0xE142_0051), To(0, 0x8000_0001), To(CPSR, 0xA800_001F), Nine(1), // qdadd
        Nzcv(0b1010), R(0, 9), R(1, 0x10), R(2, 3),                  Arm(0xE162_0051), To(0, 0xA), Flags(0b1010),                 Nine(1), // qdsub
        Nzcv(0b1010), R(0, 9), R(1, 0), R(2, 0x4000_0000),           Arm(0xE162_0051), To(0, 0x8000_0001), To(CPSR, 0xA800_001F), Nine(1), // qdsub
        Nzcv(0b1010), R(0, 9), R(1, 0xFFFF_FFFF), R(2, 0x8000_0000), Arm(0xE162_0051), To(0, 0x7FFF_FFFF), To(CPSR, 0xA800_001F), Nine(1), // qdsub
        Nzcv(0b1010), R(0, 9), R(1, 0), R(2, 0xC000_0000),           Arm(0xE162_0051), To(0, 0x7FFF_FFFF), To(CPSR, 0xA800_001F), Nine(1), // qdsub

        // q stays until it is written and is no bit of armv4
        Cpsr(0x800_001F), R(1, 1), R(2, 1), Arm(0xE102_0051), To(0, 2),                                       Nine(1), // qadd
        Cpsr(0x800_001F), R(1, 1), R(2, 1), Arm(0xE091_0002), To(0, 2),                                       Nine(1), // adds r0, r1, r2
        Cpsr(0x800_001F), R(1, 0),          Arm(0xE128_F001), To(CPSR, 0x1F),                                 Nine(1), // msr cpsr_f, r1
        R(1, 0xFFFF_FFFF),                  Arm(0xE128_F001), To7(CPSR, 0xF000_001F), To9(CPSR, 0xF800_001F), Both(1, 1), // msr cpsr_f, r1
        // a condition that fails
        R(1, 0x7FFF_FFFF), R(2, 1),         Arm(0x0102_0051),                                                 Nine(1), // qaddeq
        // r15 reads as 108h, and is written without its two low bits
        R(2, 1),                            Arm(0xE102_005F), To(0, 0x109),                                   Nine(1), // qadd r0, r15, r2
        R(1, 0x183), R(2, 0),               Arm(0xE102_F051), Pc(0x180),                                      Nine(3), // qadd r15, r1, r2
    ])
}
