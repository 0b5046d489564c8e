//! Data processing: its results and flags, its operands, and r15 as each of them.

use super::lines::Line::{Arm, Both, Cpsr, Flags, Nzcv, Pc, R, Spsr, Thumb, To};
use super::lines::{CPSR, try_lines};
use std::alloc::AllocError;

#[test]
#[rattlefmt::skip]
fn data_processing_gives_results_and_flags(rt: HostRuntime) -> Result<(), AllocError> {
    try_lines(&rt, rt.alloc(), &[
        // operations give their results and flags
        Nzcv(0b0011), R(0, 7), R(1, 0xF0F0_F0F0), R(2, 0x8000_00FF), Arm(0xE011_0002), To(0, 0x8000_00F0), Flags(0b1011), Both(1, 1), // ands
        Nzcv(0b0000), R(0, 7), R(1, 0xFF), R(2, 0xFF),               Arm(0xE031_0002), To(0, 0), Flags(0b0100),           Both(1, 1), // eors
        Nzcv(0b0000), R(0, 7), R(1, 5), R(2, 5),                     Arm(0xE051_0002), To(0, 0), Flags(0b0110),           Both(1, 1), // subs
        Nzcv(0b0011), R(0, 7), R(1, 0), R(2, 1),                     Arm(0xE051_0002), To(0, 0xFFFF_FFFF), Flags(0b1000), Both(1, 1), // subs
        Nzcv(0b0000), R(0, 7), R(1, 0x8000_0000), R(2, 1),           Arm(0xE051_0002), To(0, 0x7FFF_FFFF), Flags(0b0011), Both(1, 1), // subs
        Nzcv(0b0010), R(0, 7), R(1, 0x7FFF_FFFF), R(2, 0xFFFF_FFFF), Arm(0xE051_0002), To(0, 0x8000_0000), Flags(0b1001), Both(1, 1), // subs
        Nzcv(0b0000), R(0, 7), R(1, 1), R(2, 0x8000_0000),           Arm(0xE051_0002), To(0, 0x8000_0001), Flags(0b1001), Both(1, 1), // subs
        Nzcv(0b0001), R(0, 7), R(1, 0xFFFF_FFFF), R(2, 0x7FFF_FFFF), Arm(0xE051_0002), To(0, 0x8000_0000), Flags(0b1010), Both(1, 1), // subs
        Nzcv(0b0001), R(0, 7), R(1, 0x8000_0000), R(2, 0x8000_0000), Arm(0xE051_0002), To(0, 0), Flags(0b0110),           Both(1, 1), // subs
        Nzcv(0b0010), R(0, 7), R(1, 1), R(2, 0),                     Arm(0xE071_0002), To(0, 0xFFFF_FFFF), Flags(0b1000), Both(1, 1), // rsbs
        Nzcv(0b0000), R(0, 7), R(1, 0x8000_0000), R(2, 0),           Arm(0xE071_0002), To(0, 0x8000_0000), Flags(0b1001), Both(1, 1), // rsbs
        Nzcv(0b0010), R(0, 7), R(1, 0x7FFF_FFFF), R(2, 1),           Arm(0xE091_0002), To(0, 0x8000_0000), Flags(0b1001), Both(1, 1), // adds
        Nzcv(0b0001), R(0, 7), R(1, 0xFFFF_FFFF), R(2, 1),           Arm(0xE091_0002), To(0, 0), Flags(0b0110),           Both(1, 1), // adds
        Nzcv(0b0000), R(0, 7), R(1, 0x8000_0000), R(2, 0x8000_0000), Arm(0xE091_0002), To(0, 0), Flags(0b0111),           Both(1, 1), // adds
        Nzcv(0b0010), R(0, 7), R(1, 0xFFFF_FFFF), R(2, 0),           Arm(0xE0B1_0002), To(0, 0), Flags(0b0110),           Both(1, 1), // adcs
        Nzcv(0b0010), R(0, 7), R(1, 0x7FFF_FFFF), R(2, 0),           Arm(0xE0B1_0002), To(0, 0x8000_0000), Flags(0b1001), Both(1, 1), // adcs
        Nzcv(0b0010), R(0, 7), R(1, 0xFFFF_FFFF), R(2, 0xFFFF_FFFF), Arm(0xE0B1_0002), To(0, 0xFFFF_FFFF), Flags(0b1010), Both(1, 1), // adcs
        Nzcv(0b1101), R(0, 7), R(1, 1), R(2, 2),                     Arm(0xE0B1_0002), To(0, 3), Flags(0b0000),           Both(1, 1), // adcs
        Nzcv(0b0010), R(0, 7), R(1, 5), R(2, 3),                     Arm(0xE0D1_0002), To(0, 2), Flags(0b0010),           Both(1, 1), // sbcs
        Nzcv(0b0000), R(0, 7), R(1, 5), R(2, 5),                     Arm(0xE0D1_0002), To(0, 0xFFFF_FFFF), Flags(0b1000), Both(1, 1), // sbcs
        Nzcv(0b0000), R(0, 7), R(1, 0x8000_0000), R(2, 0),           Arm(0xE0D1_0002), To(0, 0x7FFF_FFFF), Flags(0b0011), Both(1, 1), // sbcs
        Nzcv(0b0000), R(0, 7), R(1, 0), R(2, 0xFFFF_FFFF),           Arm(0xE0D1_0002), To(0, 0), Flags(0b0100),           Both(1, 1), // sbcs
        Nzcv(0b0000), R(0, 7), R(1, 1), R(2, 5),                     Arm(0xE0F1_0002), To(0, 3), Flags(0b0010),           Both(1, 1), // rscs
        Nzcv(0b0010), R(0, 7), R(1, 0x8000_0000), R(2, 0x7FFF_FFFF), Arm(0xE0F1_0002), To(0, 0xFFFF_FFFF), Flags(0b1001), Both(1, 1), // rscs
        Nzcv(0b0001), R(0, 7), R(1, 0x8000_0000), R(2, 1),           Arm(0xE191_0002), To(0, 0x8000_0001), Flags(0b1001), Both(1, 1), // orrs
        Nzcv(0b0010), R(0, 7), R(1, 0xFF), R(2, 0xF),                Arm(0xE1D1_0002), To(0, 0xF0), Flags(0b0010),        Both(1, 1), // bics
        Nzcv(0b0000), R(0, 7), R(1, 0), R(2, 0xFFFF_FFFF),           Arm(0xE1F0_0002), To(0, 0), Flags(0b0100),           Both(1, 1), // mvns
        // without S the flags stay
        Nzcv(0b0110), R(0, 7), R(1, 1), R(2, 2),                     Arm(0xE081_0002), To(0, 3), Flags(0b0110),           Both(1, 1), // add
        Nzcv(0b0101), R(0, 7), R(1, 5), R(2, 5),                     Arm(0xE0C1_0002), To(0, 0xFFFF_FFFF), Flags(0b0101), Both(1, 1), // sbc
        // comparisons write no register
        Nzcv(0b0011), R(0, 7), R(1, 1), R(2, 2),                     Arm(0xE111_0002), To(0, 7), Flags(0b0111),           Both(1, 1), // tst
        Nzcv(0b0000), R(0, 7), R(1, 0xFFFF_FFFF), R(2, 3),           Arm(0xE111_00A2), To(0, 7), Flags(0b0010),           Both(1, 1), // tst lsr #1
        Nzcv(0b0001), R(0, 7), R(1, 0x8000_0000), R(2, 0),           Arm(0xE131_0002), To(0, 7), Flags(0b1001),           Both(1, 1), // teq
        Nzcv(0b0000), R(0, 7), R(1, 0x8000_0000), R(2, 0),           Arm(0xE331_0102), To(0, 7), Flags(0b0110),           Both(1, 1), // teq #0x80000000
        Nzcv(0b0010), R(0, 7), R(1, 3), R(2, 5),                     Arm(0xE151_0002), To(0, 7), Flags(0b1000),           Both(1, 1), // cmp
        Nzcv(0b0000), R(0, 7), R(1, 0x8000_0000), R(2, 1),           Arm(0xE151_0002), To(0, 7), Flags(0b0011),           Both(1, 1), // cmp
        Nzcv(0b0000), R(0, 7), R(1, 0xFFFF_FFFF), R(2, 1),           Arm(0xE171_0002), To(0, 7), Flags(0b0110),           Both(1, 1), // cmn
        // an immediate's carry goes to logical results alone
        Nzcv(0b0000), R(0, 7), R(1, 0xFFFF_FFFF), R(2, 0),           Arm(0xE211_04FF), To(0, 0xFF00_0000), Flags(0b1010), Both(1, 1), // ands #0xff000000
        Nzcv(0b0010), R(0, 7), R(1, 1), R(2, 0),                     Arm(0xE291_04FF), To(0, 0xFF00_0001), Flags(0b1000), Both(1, 1), // adds #0xff000000

        // a comparison writes no r15 and costs 1
        // bits 15 to 12 of a comparison aren't asked for
        Nzcv(0b0000), R(1, 5), R(2, 5),     Arm(0xE151_F002), Flags(0b0110), Both(1, 1), // cmp r1, r2
        Nzcv(0b0000), R(1, 5), R(2, 5),     Arm(0xE171_F002), Flags(0b0000), Both(1, 1), // cmn r1, r2
        Nzcv(0b1011), R(1, 5), R(2, 2),     Arm(0xE111_F002), Flags(0b0111), Both(1, 1), // tst r1, r2
        Nzcv(0b1011), R(1, 5), R(2, 5),     Arm(0xE131_F002), Flags(0b0111), Both(1, 1), // teq r1, r2
        // r15 reads as 108h, in Thumb state as 104h
        Nzcv(0b0000), R(1, 0x109),          Arm(0xE15F_0001), Flags(0b1000), Both(1, 1), // cmp r15, r1
        Nzcv(0b0000),                       Arm(0xE31F_0001), Flags(0b0100), Both(1, 1), // tst r15, #1
        Nzcv(0b0000), R(0, 0x104),          Thumb(0x4587),    Flags(0b0110), Both(1, 1), // cmph r15, r0
        Nzcv(0b0000), R(0, 0x105),          Thumb(0x4578),    Flags(0b0010), Both(1, 1), // cmph r0, r15
        // in Supervisor mode nothing is restored
        Cpsr(0x13), Spsr(0x12), R(1, 5), R(2, 5), Arm(0xE151_F002), To(CPSR, 0x6000_0013), Both(1, 1), // cmp r1, r2
    ])
}

#[test]
#[rattlefmt::skip]
fn shifts_give_operands_and_their_carry(rt: HostRuntime) -> Result<(), AllocError> {
    try_lines(&rt, rt.alloc(), &[
        // shifts by a number give their carry
        // V stays
        Nzcv(0b0011), R(0, 0x77), R(1, 0x8000_0001), Arm(0xE1B0_0001), To(0, 0x8000_0001), Flags(0b1011), Both(1, 1), // lsl #0
        Nzcv(0b0000), R(0, 0x77), R(1, 0),           Arm(0xE1B0_0001), To(0, 0), Flags(0b0100),           Both(1, 1), // lsl #0
        Nzcv(0b0000), R(0, 0x77), R(1, 0x8000_0001), Arm(0xE1B0_0081), To(0, 2), Flags(0b0010),           Both(1, 1), // lsl #1
        Nzcv(0b0000), R(0, 0x77), R(1, 3),           Arm(0xE1B0_0F81), To(0, 0x8000_0000), Flags(0b1010), Both(1, 1), // lsl #31
        Nzcv(0b0010), R(0, 0x77), R(1, 1),           Arm(0xE1B0_0F81), To(0, 0x8000_0000), Flags(0b1000), Both(1, 1), // lsl #31
        Nzcv(0b0000), R(0, 0x77), R(1, 0x8000_0001), Arm(0xE1B0_00A1), To(0, 0x4000_0000), Flags(0b0010), Both(1, 1), // lsr #1
        Nzcv(0b0010), R(0, 0x77), R(1, 0x8000_0000), Arm(0xE1B0_0FA1), To(0, 1), Flags(0b0000),           Both(1, 1), // lsr #31
        Nzcv(0b0000), R(0, 0x77), R(1, 0xC000_0000), Arm(0xE1B0_0FA1), To(0, 1), Flags(0b0010),           Both(1, 1), // lsr #31
        // the amount 0 stands for 32
        Nzcv(0b0000), R(0, 0x77), R(1, 0x8000_0001), Arm(0xE1B0_0021), To(0, 0), Flags(0b0110),           Both(1, 1), // lsr #32
        Nzcv(0b0010), R(0, 0x77), R(1, 0x7FFF_FFFF), Arm(0xE1B0_0021), To(0, 0), Flags(0b0100),           Both(1, 1), // lsr #32
        Nzcv(0b0000), R(0, 0x77), R(1, 0x8000_0001), Arm(0xE1B0_00C1), To(0, 0xC000_0000), Flags(0b1010), Both(1, 1), // asr #1
        Nzcv(0b0010), R(0, 0x77), R(1, 0x7FFF_FFFE), Arm(0xE1B0_00C1), To(0, 0x3FFF_FFFF), Flags(0b0000), Both(1, 1), // asr #1
        Nzcv(0b0000), R(0, 0x77), R(1, 0x8000_0000), Arm(0xE1B0_0FC1), To(0, 0xFFFF_FFFF), Flags(0b1000), Both(1, 1), // asr #31
        Nzcv(0b0000), R(0, 0x77), R(1, 0x4000_0000), Arm(0xE1B0_0FC1), To(0, 0), Flags(0b0110),           Both(1, 1), // asr #31
        Nzcv(0b0000), R(0, 0x77), R(1, 0x8000_0000), Arm(0xE1B0_0041), To(0, 0xFFFF_FFFF), Flags(0b1010), Both(1, 1), // asr #32
        Nzcv(0b0010), R(0, 0x77), R(1, 0x7FFF_FFFF), Arm(0xE1B0_0041), To(0, 0), Flags(0b0100),           Both(1, 1), // asr #32
        Nzcv(0b0000), R(0, 0x77), R(1, 1),           Arm(0xE1B0_00E1), To(0, 0x8000_0000), Flags(0b1010), Both(1, 1), // ror #1
        Nzcv(0b0010), R(0, 0x77), R(1, 2),           Arm(0xE1B0_00E1), To(0, 1), Flags(0b0000),           Both(1, 1), // ror #1
        Nzcv(0b0000), R(0, 0x77), R(1, 0x4000_0001), Arm(0xE1B0_0FE1), To(0, 0x8000_0002), Flags(0b1010), Both(1, 1), // ror #31
        // the rotation through C
        Nzcv(0b0000), R(0, 0x77), R(1, 1),           Arm(0xE1B0_0061), To(0, 0), Flags(0b0110),           Both(1, 1), // rrx
        Nzcv(0b0010), R(0, 0x77), R(1, 2),           Arm(0xE1B0_0061), To(0, 0x8000_0001), Flags(0b1000), Both(1, 1), // rrx
        Nzcv(0b0011), R(0, 0x77), R(1, 3),           Arm(0xE1B0_0061), To(0, 0x8000_0001), Flags(0b1011), Both(1, 1), // rrx
        // a byte rotated by twice a number: by 0 it keeps C
        Nzcv(0b0010), R(0, 0x77), R(1, 0),           Arm(0xE3B0_00FF), To(0, 0xFF), Flags(0b0010),        Both(1, 1), // #0xff
        Nzcv(0b0000), R(0, 0x77), R(1, 0),           Arm(0xE3B0_04FF), To(0, 0xFF00_0000), Flags(0b1010), Both(1, 1), // #0xff ror 8
        Nzcv(0b0010), R(0, 0x77), R(1, 0),           Arm(0xE3B0_0F01), To(0, 4), Flags(0b0000),           Both(1, 1), // #0x01 ror 30
        Nzcv(0b0010), R(0, 0x77), R(1, 0),           Arm(0xE3B0_0100), To(0, 0), Flags(0b0100),           Both(1, 1), // #0x00 ror 2
        Nzcv(0b0010), R(0, 0x77), R(1, 0),           Arm(0xE3F0_0000), To(0, 0xFFFF_FFFF), Flags(0b1010), Both(1, 1), // mvns #0
        // without S the flags stay
        Nzcv(0b1011), R(0, 0x77), R(1, 0),           Arm(0xE3A0_0000), To(0, 0), Flags(0b1011),           Both(1, 1), // mov #0
        Nzcv(0b0100), R(0, 0x77), R(1, 0x8000_0000), Arm(0xE1A0_0041), To(0, 0xFFFF_FFFF), Flags(0b0100), Both(1, 1), // mov asr #32

        // shifts by a register go by its least byte
        Nzcv(0b0010), R(0, 0x77), R(1, 0x8000_0001), R(2, 0),    Arm(0xE1B0_0211), To(0, 0x8000_0001), Flags(0b1010), Both(2, 2), // lsl 0
        Nzcv(0b0010), R(0, 0x77), R(1, 1), R(2, 0x100),          Arm(0xE1B0_0211), To(0, 1), Flags(0b0010),           Both(2, 2), // lsl 100h
        Nzcv(0b0000), R(0, 0x77), R(1, 0x8000_0001), R(2, 1),    Arm(0xE1B0_0211), To(0, 2), Flags(0b0010),           Both(2, 2), // lsl 1
        Nzcv(0b0000), R(0, 0x77), R(1, 3), R(2, 0x1F),           Arm(0xE1B0_0211), To(0, 0x8000_0000), Flags(0b1010), Both(2, 2), // lsl 31
        Nzcv(0b0000), R(0, 0x77), R(1, 1), R(2, 0x20),           Arm(0xE1B0_0211), To(0, 0), Flags(0b0110),           Both(2, 2), // lsl 32
        Nzcv(0b0010), R(0, 0x77), R(1, 0xFFFF_FFFF), R(2, 0x21), Arm(0xE1B0_0211), To(0, 0), Flags(0b0100),           Both(2, 2), // lsl 33
        Nzcv(0b0010), R(0, 0x77), R(1, 0), R(2, 0),              Arm(0xE1B0_0231), To(0, 0), Flags(0b0110),           Both(2, 2), // lsr 0
        Nzcv(0b0000), R(0, 0x77), R(1, 3), R(2, 1),              Arm(0xE1B0_0231), To(0, 1), Flags(0b0010),           Both(2, 2), // lsr 1
        Nzcv(0b0000), R(0, 0x77), R(1, 0xC000_0000), R(2, 0x1F), Arm(0xE1B0_0231), To(0, 1), Flags(0b0010),           Both(2, 2), // lsr 31
        Nzcv(0b0000), R(0, 0x77), R(1, 0x8000_0000), R(2, 0x20), Arm(0xE1B0_0231), To(0, 0), Flags(0b0110),           Both(2, 2), // lsr 32
        Nzcv(0b0010), R(0, 0x77), R(1, 0xFFFF_FFFF), R(2, 0x21), Arm(0xE1B0_0231), To(0, 0), Flags(0b0100),           Both(2, 2), // lsr 33
        Nzcv(0b0000), R(0, 0x77), R(1, 0x8000_0000), R(2, 0),    Arm(0xE1B0_0251), To(0, 0x8000_0000), Flags(0b1000), Both(2, 2), // asr 0
        Nzcv(0b0000), R(0, 0x77), R(1, 0x8000_0001), R(2, 1),    Arm(0xE1B0_0251), To(0, 0xC000_0000), Flags(0b1010), Both(2, 2), // asr 1
        Nzcv(0b0000), R(0, 0x77), R(1, 0x8000_0000), R(2, 0x1F), Arm(0xE1B0_0251), To(0, 0xFFFF_FFFF), Flags(0b1000), Both(2, 2), // asr 31
        Nzcv(0b0000), R(0, 0x77), R(1, 0x8000_0000), R(2, 0x20), Arm(0xE1B0_0251), To(0, 0xFFFF_FFFF), Flags(0b1010), Both(2, 2), // asr 32
        Nzcv(0b0000), R(0, 0x77), R(1, 0x8000_0000), R(2, 0x21), Arm(0xE1B0_0251), To(0, 0xFFFF_FFFF), Flags(0b1010), Both(2, 2), // asr 33
        Nzcv(0b0010), R(0, 0x77), R(1, 0x7FFF_FFFF), R(2, 0xFF), Arm(0xE1B0_0251), To(0, 0), Flags(0b0100),           Both(2, 2), // asr 255
        Nzcv(0b0010), R(0, 0x77), R(1, 1), R(2, 0),              Arm(0xE1B0_0271), To(0, 1), Flags(0b0010),           Both(2, 2), // ror 0
        Nzcv(0b0000), R(0, 0x77), R(1, 1), R(2, 1),              Arm(0xE1B0_0271), To(0, 0x8000_0000), Flags(0b1010), Both(2, 2), // ror 1
        Nzcv(0b0000), R(0, 0x77), R(1, 0x4000_0001), R(2, 0x1F), Arm(0xE1B0_0271), To(0, 0x8000_0002), Flags(0b1010), Both(2, 2), // ror 31
        Nzcv(0b0000), R(0, 0x77), R(1, 0x8000_0001), R(2, 0x20), Arm(0xE1B0_0271), To(0, 0x8000_0001), Flags(0b1010), Both(2, 2), // ror 32
        Nzcv(0b0000), R(0, 0x77), R(1, 1), R(2, 0x21),           Arm(0xE1B0_0271), To(0, 0x8000_0000), Flags(0b1010), Both(2, 2), // ror 33
        Nzcv(0b0010), R(0, 0x77), R(1, 1), R(2, 0x40),           Arm(0xE1B0_0271), To(0, 1), Flags(0b0000),           Both(2, 2), // ror 64
    ])
}

#[test]
#[rattlefmt::skip]
fn r15_is_an_operand_and_a_result(rt: HostRuntime) -> Result<(), AllocError> {
    try_lines(&rt, rt.alloc(), &[
        // r15 is read as 108 where a register shifts as 10c
        R(1, 0), R(2, 0),                   Arm(0xE1A0_000F), To(0, 0x108),            Both(1, 1), // mov r0, r15
        R(1, 0), R(2, 0),                   Arm(0xE1A0_008F), To(0, 0x210),            Both(1, 1), // mov r0, r15, lsl #1
        R(1, 0), R(2, 0),                   Arm(0xE28F_0000), To(0, 0x108),            Both(1, 1), // add r0, r15, #0
        R(1, 1), R(2, 0),                   Arm(0xE08F_0001), To(0, 0x109),            Both(1, 1), // add r0, r15, r1
        R(1, 1), R(2, 0),                   Arm(0xE081_000F), To(0, 0x109),            Both(1, 1), // add r0, r1, r15
        R(1, 1), R(2, 0),                   Arm(0xE08F_0211), To(0, 0x10D),            Both(2, 2), // add r0, r15, r1, lsl r2
        R(1, 0), R(2, 0),                   Arm(0xE1A0_021F), To(0, 0x10C),            Both(2, 2), // mov r0, r15, lsl r2
        R(1, 1), R(2, 0),                   Arm(0xE1A0_0F11), To(0, 0x1000),           Both(2, 2), // mov r0, r1, lsl r15
        R(1, 2), R(2, 0),                   Arm(0xE000_019F), To(0, 0x210),            Both(4, 2), // mul r0, r15, r1
        R(1, 2), R(2, 0),                   Arm(0xE000_0F91), To(0, 0x210),            Both(4, 2), // mul r0, r1, r15
        R(1, 1), R(2, 1),                   Arm(0xE020_F291), To(0, 0x109),            Both(4, 2), // mla r0, r1, r2, r15
        Nzcv(0b0000), R(0, 7), R(1, 0x108), Arm(0xE15F_0001), To(0, 7), Flags(0b0110), Both(1, 1), // cmp r15, r1
        Nzcv(0b0000), R(0, 7),              Arm(0xE13F_000F), Flags(0b0100),           Both(1, 1), // teq r15, r15
        Nzcv(0b0000), R(0, 7), R(1, 0x10C), Arm(0xE15F_0211), To(0, 7), Flags(0b0110), Both(2, 2), // cmp r15, r1, lsl r2
        Nzcv(0b1111),                       Arm(0xE128_F00F), Flags(0b0000),           Both(1, 1), // msr cpsr_f, r15

        // r15 is written with bits 1 and 0 cleared
        R(1, 0x203), R(2, 0),                    Arm(0xE1A0_F001), Pc(0x200),           Both(3, 3), // mov r15, r1
        R(1, 0xFFFF_FDFC), R(2, 0),              Arm(0xE1E0_F001), Pc(0x200),           Both(3, 3), // mvn r15, r1
        R(1, 0x11), R(2, 0),                     Arm(0xE08F_F001), Pc(0x118),           Both(3, 3), // add r15, r15, r1
        R(1, 0xC1), R(2, 1),                     Arm(0xE1A0_F211), Pc(0x180),           Both(4, 4), // mov r15, r1, lsl r2
        R(1, 1), R(2, 1),                        Arm(0xE08F_F211), Pc(0x10C),           Both(4, 4), // add r15, r15, r1, lsl r2
        R(1, 0xC1), R(2, 2),                     Arm(0xE00F_0291), Pc(0x180),           Both(6, 4), // mul r15, r1, r2
        R(1, 0x101), R(2, 2),                    Arm(0xE080_F291), Pc(0x200),           Both(7, 5), // umull r15, r0, r1, r2
        R(1, 0), R(2, 0),                        Arm(0xE10F_F000), Pc(0x1C),            Both(3, 3), // mrs r15, cpsr
        R(0, 7), R(1, 0x8000_0000), R(2, 0x400), Arm(0xE08F_0291), To(0, 0), Pc(0x200), Both(7, 5), // umull r0, r15, r1, r2
        // r15 reads as 108h
        R(0, 7), R(1, 8), R(2, 2),               Arm(0xE0A0_F291), To(0, 7), Pc(0x118), Both(7, 5), // umlal r15, r0, r1, r2
        R(0, 7),                                 Arm(0xE0AF_0291), To(0, 7), Pc(0x108), Both(7, 5), // umlal r0, r15, r1, r2

        // an s with r15 restores cpsr
        Cpsr(0x6000_0092), Spsr(0x8000_001F), R(1, 0x206), R(2, 2), Arm(0xE1B0_F001), To(CPSR, 0x8000_001F), Pc(0x204), Both(3, 3), // movs from IRQ
        Cpsr(0xD1), Spsr(0x13), R(1, 0x204), R(2, 2),               Arm(0xE1B0_F001), To(CPSR, 0x13), Pc(0x204),        Both(3, 3), // movs from FIQ
        Cpsr(0x13), Spsr(0x12), R(1, 0x204), R(2, 2),               Arm(0xE1B0_F001), To(CPSR, 0x12), Pc(0x204),        Both(3, 3), // movs from Supervisor
        Cpsr(0x17), Spsr(0x10), R(1, 0x204), R(2, 2),               Arm(0xE1B0_F001), To(CPSR, 0x10), Pc(0x204),        Both(3, 3), // movs from Abort
        Cpsr(0xDB), Spsr(0xF000_001F), R(1, 0x204), R(2, 2),        Arm(0xE1B0_F001), To(CPSR, 0xF000_001F), Pc(0x204), Both(3, 3), // movs from Undefined
        // the state that is restored aligns r15
        Cpsr(0xD2), Spsr(0x30), R(1, 0x203), R(2, 2),               Arm(0xE1B0_F001), To(CPSR, 0x30), Pc(0x202),        Both(3, 3), // movs to Thumb
        Cpsr(0xD2), Spsr(0x10), R(1, 0x204), R(2, 2),               Arm(0xE251_F004), To(CPSR, 0x10), Pc(0x200),        Both(3, 3), // subs r15, r1, #4
        Cpsr(0x93), Spsr(0x6000_0030), R(1, 0x206), R(2, 2),        Arm(0xE091_F002), To(CPSR, 0x6000_0030), Pc(0x208), Both(3, 3), // adds r15, r1, r2
        Cpsr(0xD2), Spsr(0x3F), R(1, 0x81), R(2, 2),                Arm(0xE1B0_F211), To(CPSR, 0x3F), Pc(0x204),        Both(4, 4), // movs r15, r1, lsl r2
        // without S CPSR stays
        Cpsr(0xD2), Spsr(0x30), R(1, 0x203), R(2, 2),               Arm(0xE1A0_F001), To(CPSR, 0xD2), Pc(0x200),        Both(3, 3), // mov r15, r1
        // a multiply sets N and Z, and restores nothing
        Cpsr(0x6000_00D2), Spsr(0x1F), R(1, 0xC1), R(2, 2),         Arm(0xE01F_0291), To(CPSR, 0x2000_00D2), Pc(0x180), Both(6, 4), // muls r15, r1, r2
        // these modes have no SPSR: CPSR stays whole
        Nzcv(0b0110), R(1, 0x206), R(2, 2),                         Arm(0xE1B0_F001), Flags(0b0110), Pc(0x204),         Both(3, 3), // movs from System
        Cpsr(0xB000_0010), R(1, 0), R(2, 2),                        Arm(0xE1B0_F001), To(CPSR, 0xB000_0010), Pc(0),     Both(3, 3), // movs from User
        Cpsr(0xD4), R(1, 0x204), R(2, 2),                           Arm(0xE1B0_F001), To(CPSR, 0xD4), Pc(0x204),        Both(3, 3), // movs from mode 14h
    ])
}
