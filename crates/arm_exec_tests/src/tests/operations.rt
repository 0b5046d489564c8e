//! Instructions that are decoded as operations, and those that aren't; of the others' rows each operation is tried too.

use super::lines::Line::{
    Arm, At, Both, Cpsr, Far, Flags, List, Mem, Near, Nzcv, Other, Pc, R, Spsr, Stops, Thumb, To,
    To7, To9,
};
use super::lines::{CPSR, LR, PC, SP, try_lines};
use ds_base::LeftKind::Swi;
use std::alloc::AllocError;

#[test]
#[rattlefmt::skip]
fn operations_are_run_in_ram_or_anywhere(rt: HostRuntime) -> Result<(), AllocError> {
    try_lines(&rt, rt.alloc(), &[
        // flags go by each form of the operand
        // FF000000h + 1000000h is 0 with C, and no V, since the signs differ
        Nzcv(0b1001), R(0, 0x77), R(1, 0x100_0000), R(2, 0),  Arm(0xE291_04FF), To(0, 0), Flags(0b0110),           Near, Both(1, 1), // adds
        Nzcv(0b0101), R(0, 0x77), R(1, 0x100), R(2, 4),       Arm(0xE041_0182), To(0, 0xE0), Flags(0b0101),        Near, Both(1, 1), // sub lsl 3
        Nzcv(0b0010), R(0, 0x77), R(1, 0xF0), R(2, 0x3C),     Arm(0xE011_0002), To(0, 0x30), Flags(0b0010),        Near, Both(1, 1), // ands
        // a move of a number that was rotated gives C as its bit 31, and of another keeps C
        Nzcv(0b0001), R(0, 0x77), R(1, 0), R(2, 0),           Arm(0xE3B0_04FF), To(0, 0xFF00_0000), Flags(0b1011), Near, Both(1, 1), // ror 8
        Nzcv(0b0010), R(0, 0x77), R(1, 0), R(2, 0),           Arm(0xE3B0_0F01), To(0, 4), Flags(0b0000),           Near, Both(1, 1), // ror 30
        Nzcv(0b0010), R(0, 0x77), R(1, 0), R(2, 0),           Arm(0xE3B0_00FF), To(0, 0xFF), Flags(0b0010),        Near, Both(1, 1), // #0xff
        Nzcv(0b0001), R(0, 0x77), R(1, 0x7FFF_FFFF), R(2, 0), Arm(0xE311_0102), To(0, 0x77), Flags(0b0111),        Near, Both(1, 1), // tst
        // 5 - 7 borrows; 80000000h - 1 doesn't, and overflows
        Nzcv(0b0110), R(0, 0x77), R(1, 5), R(2, 7),           Arm(0xE151_0002), To(0, 0x77), Flags(0b1000),        Near, Both(1, 1), // cmp
        Nzcv(0b0000), R(0, 0x77), R(1, 0x8000_0000), R(2, 1), Arm(0xE151_0002), To(0, 0x77), Flags(0b0011),        Near, Both(1, 1), // cmp
        Nzcv(0b0000), R(0, 0x77), R(1, 4), R(2, 8),           Arm(0xE151_00A2), To(0, 0x77), Flags(0b0110),        Near, Both(1, 1), // cmp lsr 1
        // a move by LSL 0 keeps C, and by LSR 0 is by 32
        Nzcv(0b0011), R(0, 0x77), R(1, 0x8000_0001), R(2, 0), Arm(0xE1B0_0001), To(0, 0x8000_0001), Flags(0b1011), Near, Both(1, 1), // lsl 0
        Nzcv(0b0000), R(0, 0x77), R(1, 0x8000_0001), R(2, 0), Arm(0xE1B0_0021), To(0, 0), Flags(0b0110),           Near, Both(1, 1), // lsr 32

        // RAM is loaded and stored
        R(1, 0x200_0068),                             Arm(0xE511_0004), To(0, 9),                                     Near, Both(3, 2), // ldr r0, [r1, #-4]
        R(1, 0x200_0060), R(2, 1),                    Arm(0xE7B1_0102), To(0, 9), To(1, 0x200_0064),                  Near, Both(3, 2), // ldr r0, [r1, r2, lsl #2]!
        R(1, 0x200_0063),                             Arm(0xE4D1_0001), To(0, 0x87), To(1, 0x200_0064),               Near, Both(3, 2), // ldrb r0, [r1], #1
        // LDRSH of ARMv4 at an odd address loads the signed byte
        R(1, 0x200_0063),                             Arm(0xE1D1_00F0), To7(0, 0xFFFF_FF87), To9(0, 0xFFFF_8765),     Near, Both(3, 2), // ldrsh r0, [r1]
        R(0, 0x1234_5678), R(1, 0x200_0060), R(2, 2), Arm(0xE181_00B2), Mem(0x200_0060, 0x5678_4321),                 Near, Both(2, 1), // strh r0, [r1, r2]
        R(1, 0x200_0064), R(2, 4),                    Arm(0xE111_00B2), To(0, 0x4321),                                Near, Both(3, 2), // ldrh r0, [r1, -r2]
        R(1, 0x200_0064), R(2, 4),                    Arm(0xE131_00B2), To(0, 0x4321), To(1, 0x200_0060),             Near, Both(3, 2), // ldrh r0, [r1, -r2]!
        // r15 reads as 2000104h
        At(0x200_0100),                               Thumb(0x4801),    To(0, 0x108_B2B2),                            Near, Both(3, 2), // ldr r0, [r15, #0x4]
        // a word that isn't aligned is rotated
        R(1, 0x200_0061),                             Arm(0xE591_0000), To(0, 0x2187_6543),                           Near, Both(3, 2), // ldr r0, [r1]
        R(1, 0x200_0063),                             Arm(0xE591_0000), To(0, 0x6543_2187),                           Near, Both(3, 2), // ldr r0, [r1]
        // a load of r15 sets the state on ARMv5
        R(1, 0x200_0064),                             Arm(0xE591_F000), Pc(8), To9(CPSR, 0x3F), Near, Both(5, 4), // ldr r15, [r1]

        // branches products and skips
        // r15 reads as the address + 8, and a word further is 200010Ch
        At(0x200_0100),                       Arm(0xEB00_0001), To(LR, 0x200_0104), Pc(0x200_010C), Near, Both(3, 3), // bl
        R(1, 3), R(2, 5),                     Arm(0xE000_0291), To(0, 15),                          Near, Both(4, 2), // mul r0, r1, r2
        // Z is clear
        R(0, 7),                              Arm(0x0280_0001),                                     Near, Both(1, 1), // addeq r0, r0, #1
        // S with r15 restores CPSR where the mode has an SPSR
        R(1, 0x203),                          Arm(0xE1B0_F001), Pc(0x200),                          Near, Both(3, 3), // movs r15, r1
        Cpsr(0x92), Spsr(0x30), R(1, 0x203),  Arm(0xE1B0_F001), Pc(0x202), To(CPSR, 0x30),          Near, Both(3, 3), // movs r15, r1
        Cpsr(0x92), Spsr(0x1F), R(14, 0x208), Arm(0xE25E_F004), Pc(0x204), To(CPSR, 0x1F),          Near, Both(3, 3), // subs r15, r14, #4
        // the halves of Thumb's BL
        At(0x200_0100),                       Thumb(0xF001),    To(LR, 0x200_1104),                 Near, Both(1, 1), // blh #0x1
        At(0x200_0102), R(14, 0x200_1104),    Thumb(0xF810),    To(LR, 0x200_0105), Pc(0x200_1124), Near, Both(3, 3), // bll #0x10

        // what is far is run where it may be
        // the memory of these rows is 200h bytes over and over
        R(1, 0x400_0000),             Arm(0xE591_0000), To(0, 0x4433_2211),                           Far, Both(3, 2), // ldr r0, [r1]
        R(1, 0x400_0064),             Arm(0xE591_0000), To(0, 9),                                     Far, Both(3, 2), // ldr r0, [r1]
        R(1, 0x1FF_FFFF),             Arm(0xE4D1_0001), To(0, 0), To(1, 0x200_0000),                  Far, Both(3, 2), // ldrb r0, [r1], #1
        // the base moves out of RAM
        R(0, 0x77), R(1, 0x3FF_FFFC), Arm(0xE5A1_0004), Mem(0x400_0000, 0x77), To(1, 0x400_0000),     Far, Both(2, 1), // str r0, [r1, #4]!
        R(1, 0x600_0000),             Arm(0xE1D1_00B0), To(0, 0x2211),                                Far, Both(3, 2), // ldrh r0, [r1]
        R(1, 0x600_0062),             Arm(0xE1D1_00B0), To(0, 0x8765),                                Far, Both(3, 2), // ldrh r0, [r1]
        // a literal of Thumb at the end of RAM, and past it
        At(0x3FF_FFF8),               Thumb(0x4800),    To(0, 0),                                     Near, Both(3, 2), // ldr r0, [r15, #0x0]
        At(0x3FF_FFF8),               Thumb(0x4801),    To(0, 0x4433_2211),                           Far, Both(3, 2), // ldr r0, [r15, #0x4]

        // other instructions are no operations
                          Arm(0xEF00_0000), Pc(0x100),          Other, Stops(Swi, 0), // swi
        R(1, 0x200_0060), Arm(0xE891_0001), To(0, 0x8765_4321), List,  Both(3, 2), // ldmia r1, {r0}

        // LDM and STM are run where lists are asked for, in RAM alone
        R(1, 0x200_0040),                            Arm(0xE8B1_000D), To(0, 7), To(1, 0x200_004C), To(2, 9), To(3, 0x183), List, Both(5, 4), // ldmia r1!
        R(1, 0x200_004C),                            Arm(0xE931_000D), To(0, 7), To(1, 0x200_0040), To(2, 9), To(3, 0x183), List, Both(5, 4), // ldmdb r1!
        // a base that is loaded stays so on ARMv4, and on ARMv5 is written back where it isn't the last
        R(1, 0x200_0040),                            Arm(0xE8B1_0007), To(0, 7), To(2, 0x183), To7(1, 9), To9(1, 0x200_004C), List, Both(5, 4), // ldmia r1!
        // r15 is loaded
        R(1, 0x200_0044), Arm(0xE8B1_8001), To(0, 9), To(1, 0x200_004C), To7(PC, 0x180), To9(PC, 0x182), To9(CPSR, 0x3F), List, Both(6, 5), // ldmia r1!
        At(0x102), R(13, 0x200_004C),                Thumb(0xBD00), To(SP, 0x200_0050), To7(PC, 0x1A2), To9(PC, 0x1A0), To9(CPSR, 0x1F), List, Both(5, 4), // pop {r15}
        // sixteen words from 3FFFFC0h up are the last of RAM; whose first word is past it takes the instruction's own way
        R(1, 0x3FF_FFC0), Arm(0xE891_0001), List, To(0, 0), Both(3, 2), // ldmia r1, {r0}
        R(1, 0x3FF_FFC4), Arm(0xE891_0001), Other, To(0, 0), Both(3, 2), // ldmia r1, {r0}
        R(1, 0x1FF_FFFC), Arm(0xE891_0001), Other, To(0, 0), Both(3, 2), // ldmia r1, {r0}
        // so does another bank, r15 as the base, and none at all
        R(1, 0x200_0040), Arm(0xE8D1_0001), Other, To(0, 7), Both(3, 2), // ldmia r1, {r0}^
        At(0x200_0100), Arm(0xE89F_0001), Other, To(0, 0x108_B2B2), Both(3, 2), // ldmia r15, {r0}
    ])
}
