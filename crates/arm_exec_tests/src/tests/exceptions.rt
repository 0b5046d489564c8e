//! Entries to the vectors, functions of the boot ROM that aren't there, and PLD.

use super::lines::Line::{
    Arm, At, Both, Cp15, Cpsr, Irq, Nine, Nzcv, Pc, R, Seven, Stops, Stops9, Thumb, To, Vector,
};
use super::lines::{
    CPSR, LR_ABT, LR_IRQ, LR_SVC, LR_UND, SPSR_ABT, SPSR_IRQ, SPSR_SVC, SPSR_UND, try_lines,
};
use ds_base::LeftKind::Swi;
use std::alloc::AllocError;

#[test]
#[rattlefmt::skip]
fn exceptions_enter_their_vectors(rt: HostRuntime) -> Result<(), AllocError> {
    try_lines(&rt, rt.alloc(), &[
        // swi and undefined instructions enter their vectors
        // the flags stay, I is set, F stays
        Nzcv(0b0110), Arm(0xEF03_0000), To(LR_SVC, 0x104), To(SPSR_SVC, 0x6000_001F), To(CPSR, 0x6000_0093), Vector(8), Both(3, 3), // swi 3
        Cpsr(0x51),   Arm(0xEF0B_0000), To(LR_SVC, 0x104), To(SPSR_SVC, 0x51), To(CPSR, 0xD3), Vector(8), Both(3, 3), // swi 0Bh in FIQ mode
        At(0x102),    Thumb(0xDF04),    To(LR_SVC, 0x104), To(SPSR_SVC, 0x3F), To(CPSR, 0x93), Vector(8), Both(3, 3), // swi 4 of Thumb
                      Arm(0xEF05_0000), To(LR_SVC, 0x104), To(SPSR_SVC, 0x1F), To(CPSR, 0x93), Vector(8), Both(3, 3), // swi 5
                      Arm(0xEF06_0000), To(LR_SVC, 0x104), To(SPSR_SVC, 0x1F), To(CPSR, 0x93), Vector(8), Both(3, 3), // swi 6
                      Arm(0xEF09_FFFF), To(LR_SVC, 0x104), To(SPSR_SVC, 0x1F), To(CPSR, 0x93), Vector(8), Both(3, 3), // swi 9
                      Arm(0x0F03_0000),                                                               Both(1, 1), // swieq 3 without Z
                      Arm(0x0F0E_0000),                                                               Both(1, 1), // swieq 0Eh without Z
                      Arm(0xE7F0_00F0), To(LR_UND, 0x104), To(SPSR_UND, 0x1F), To(CPSR, 0x9B), Vector(4), Both(3, 3), // an undefined word
                      Arm(0xEE07_0F90), To(LR_UND, 0x104), To(SPSR_UND, 0x1F), To(CPSR, 0x9B), Vector(4), Seven(3), // mcr
        Cpsr(0x12),   Arm(0xE7F0_00F0), To(LR_UND, 0x104), To(SPSR_UND, 0x12), To(CPSR, 0x9B), Vector(4), Both(3, 3), // an undefined word in IRQ mode
                      Arm(0x07F0_00F0),                                                               Both(1, 1), // an undefined word whose condition fails
                      Thumb(0xDE00),    To(LR_UND, 0x102), To(SPSR_UND, 0x3F), To(CPSR, 0x9B), Vector(4), Both(3, 3), // an undefined half
                      Arm(0xF7F0_00F0),                                                               Seven(1), // a word with condition 1111

        // the interrupt line enters its vector where i is clear
        // r14 is the address of the instruction that isn't executed, and 4
        Irq,                         Arm(0xE591_0000), To(LR_IRQ, 0x104), To(SPSR_IRQ, 0x1F), To(CPSR, 0x92), Vector(0x18), Both(3, 3), // in ARM state
        Irq, At(0x102),              Thumb(0x6848),    To(LR_IRQ, 0x106), To(SPSR_IRQ, 0x3F), To(CPSR, 0x92), Vector(0x18), Both(3, 3), // in Thumb state
        Cpsr(0xA000_0053), Irq,      Arm(0x0000_0000), To(LR_IRQ, 0x104), To(SPSR_IRQ, 0xA000_0053), To(CPSR, 0xA000_00D2), Vector(0x18), Both(3, 3), // in Supervisor mode, with F
        // I is set: the instruction is executed
        Cpsr(0x9F), Irq, R(1, 0x40), Arm(0xE591_0000), To(0, 7),                                                     Both(3, 2), // masked

        // a function that the boot rom has not stops the step
         Arm(0xEF0E_0000), Pc(0x100), Stops(Swi, 0xE), // swi 0Eh
        // bits 23 to 16 are the number
         Arm(0xEF00_FFFF), Pc(0x100), Stops(Swi, 0), // swi 0
         Arm(0xEFFF_0003), Pc(0x100), Stops(Swi, 0xFF), // swi FFh
         Thumb(0xDF0A),    Pc(0x100), Stops(Swi, 0xA), // swi 0Ah of Thumb

        // calls of the boot rom are taken or left out
                                          Thumb(0xDF06),    Vector(8), To(LR_SVC, 0x102), To(SPSR_SVC, 0x3F), To(CPSR, 0x93), Both(3, 3), // swi 6
                                          Arm(0xEF08_0000), Pc(0x100),                                                    Stops(Swi, 8), // swi 8
                                          Thumb(0xDF08),    Pc(0x100),                                                    Stops(Swi, 8), // swi 8
                                          Arm(0x0F08_0000),                                                               Both(1, 1), // swieq 8
        // low vectors aren't in the boot ROM
        Cp15(0x5_0078, 0x300_000A, 0x20), Arm(0xEF08_0000), Pc(8), To(LR_SVC, 0x104), To(SPSR_SVC, 0x1F), To(CPSR, 0x93), Nine(3), // swi 8
        // ITCM answers the vector's fetch
        Cp15(0x5_2078, 0x300_000A, 0x3E), Arm(0xEF08_0000), Pc(0xFFFF_0008), To(LR_SVC, 0x104), To(SPSR_SVC, 0x1F), To(CPSR, 0x93), Nine(3), // swi 8
        // in load mode it doesn't
        Cp15(0xD_2078, 0x300_000A, 0x3E), Arm(0xEF08_0000), Pc(0x100),                                                    Stops9(Swi, 8), // swi 8

        // interrupts have the vectors of cp15
        Irq,                                   Arm(0xE3A0_0001), Vector(0x18), To(LR_IRQ, 0x104), To(SPSR_IRQ, 0x1F), To(CPSR, 0x92), Both(3, 3), // an interrupt
        Cp15(0x5_0078, 0x300_000A, 0x20), Irq, Arm(0xE3A0_0001), Pc(0x18), To(LR_IRQ, 0x104), To(SPSR_IRQ, 0x1F), To(CPSR, 0x92), Nine(3), // an interrupt, low
        // it goes before a wait
        Irq,                                   Arm(0xEE07_0F90), Vector(0x18), To(LR_IRQ, 0x104), To(SPSR_IRQ, 0x1F), To(CPSR, 0x92), Nine(3), // an interrupt before a wait
        Cpsr(0x9F), Irq,                       Arm(0xE3A0_0001), To(0, 1),                                                     Both(1, 1), // masked

        // a breakpoint is taken in abort mode
        Cpsr(0xF800_001F), Arm(0xE120_0070), Vector(0xC), To(LR_ABT, 0x104), To(SPSR_ABT, 0xF800_001F), To(CPSR, 0xF800_0097), Nine(3), // bkpt
                           Thumb(0xBE00),    Vector(0xC), To(LR_ABT, 0x104), To(SPSR_ABT, 0x3F), To(CPSR, 0x97), Nine(3), // bkpt

        // low vectors stand at 0
        Cp15(0x5_0078, 0x300_000A, 0x20), Irq, Thumb(0x6848),    Pc(0x18), To(LR_IRQ, 0x104), To(SPSR_IRQ, 0x3F), To(CPSR, 0x92), Nine(3), // an interrupt in Thumb state
        Cp15(0x5_0078, 0x300_000A, 0x20),      Arm(0xE7F0_00F0), Pc(4), To(LR_UND, 0x104), To(SPSR_UND, 0x1F), To(CPSR, 0x9B),    Nine(3), // an undefined word
        Cp15(0x5_0078, 0x300_000A, 0x20),      Thumb(0xDE00),    Pc(4), To(LR_UND, 0x102), To(SPSR_UND, 0x3F), To(CPSR, 0x9B),    Nine(3), // an undefined half
        Cp15(0x5_0078, 0x300_000A, 0x20),      Arm(0xE120_0070), Pc(0xC), To(LR_ABT, 0x104), To(SPSR_ABT, 0x1F), To(CPSR, 0x97),  Nine(3), // bkpt
        Cp15(0x5_0078, 0x300_000A, 0x20),      Thumb(0xBE00),    Pc(0xC), To(LR_ABT, 0x104), To(SPSR_ABT, 0x3F), To(CPSR, 0x97),  Nine(3), // bkpt of Thumb

        // a mode that there is not is left as any other
        Cpsr(0x14),      Arm(0xEF03_0000), To(LR_SVC, 0x104), To(SPSR_SVC, 0x14), To(CPSR, 0x93), Vector(8),    Both(3, 3), // swi 3
        Cpsr(0x14),      Arm(0xE7F0_00F0), To(LR_UND, 0x104), To(SPSR_UND, 0x14), To(CPSR, 0x9B), Vector(4),    Both(3, 3), // an undefined word
        Cpsr(0x14),      Arm(0xE120_0070), To(LR_ABT, 0x104), To(SPSR_ABT, 0x14), To(CPSR, 0x97), Vector(0xC),  Nine(3), // bkpt
        Cpsr(0x14), Irq, Arm(0xE3A0_0001), To(LR_IRQ, 0x104), To(SPSR_IRQ, 0x14), To(CPSR, 0x92), Vector(0x18), Both(3, 3), // an interrupt
    ])
}

#[test]
#[rattlefmt::skip]
fn what_has_no_row_is_undefined(rt: HostRuntime) -> Result<(), AllocError> {
    try_lines(&rt, rt.alloc(), &[
        // words without a row are undefined
         Arm(0xE600_0010), Vector(4), To(LR_UND, 0x104), To(SPSR_UND, 0x1F), To(CPSR, 0x9B), Both(3, 3), // undefined
         Arm(0xF000_0000), Vector(4), To(LR_UND, 0x104), To(SPSR_UND, 0x1F), To(CPSR, 0x9B), Nine(3), // undefined, 1111
         Arm(0x0600_0010),                                                               Both(1, 1), // undefined, eq
         Arm(0xE1C2_10D0), Vector(4), To(LR_UND, 0x104), To(SPSR_UND, 0x1F), To(CPSR, 0x9B), Nine(3), // ldrd of an odd register

        // pld does nothing
        R(1, 0x43),          Arm(0xF5D1_F000), Nine(1), // pld [r1, #0x0]
        R(1, 0x43), R(2, 8), Arm(0xF751_F002), Nine(1), // pld [r1, -r2]

        // what armv5 adds is undefined on arm7
        Arm(0xE16F_0F11), To(LR_UND, 0x104), To(SPSR_UND, 0x1F), To(CPSR, 0x9B), Vector(4), Seven(3), // clz r0, r1
        Arm(0xE102_0051), To(LR_UND, 0x104), To(SPSR_UND, 0x1F), To(CPSR, 0x9B), Vector(4), Seven(3), // qadd r0, r1, r2
        Arm(0xE122_0051), To(LR_UND, 0x104), To(SPSR_UND, 0x1F), To(CPSR, 0x9B), Vector(4), Seven(3), // qsub
        Arm(0xE142_0051), To(LR_UND, 0x104), To(SPSR_UND, 0x1F), To(CPSR, 0x9B), Vector(4), Seven(3), // qdadd
        Arm(0xE162_0051), To(LR_UND, 0x104), To(SPSR_UND, 0x1F), To(CPSR, 0x9B), Vector(4), Seven(3), // qdsub
        Arm(0xE100_3281), To(LR_UND, 0x104), To(SPSR_UND, 0x1F), To(CPSR, 0x9B), Vector(4), Seven(3), // smlabb r0, r1, r2, r3
        Arm(0xE120_3281), To(LR_UND, 0x104), To(SPSR_UND, 0x1F), To(CPSR, 0x9B), Vector(4), Seven(3), // smlawb r0, r1, r2, r3
        Arm(0xE120_02A1), To(LR_UND, 0x104), To(SPSR_UND, 0x1F), To(CPSR, 0x9B), Vector(4), Seven(3), // smulwb r0, r1, r2
        Arm(0xE141_0382), To(LR_UND, 0x104), To(SPSR_UND, 0x1F), To(CPSR, 0x9B), Vector(4), Seven(3), // smlalbb r0, r1, r2, r3
        Arm(0xE160_0281), To(LR_UND, 0x104), To(SPSR_UND, 0x1F), To(CPSR, 0x9B), Vector(4), Seven(3), // smulbb r0, r1, r2
        Arm(0xE1C1_20D0), To(LR_UND, 0x104), To(SPSR_UND, 0x1F), To(CPSR, 0x9B), Vector(4), Seven(3), // ldrd r2, [r1]
        Arm(0xE1C1_20F0), To(LR_UND, 0x104), To(SPSR_UND, 0x1F), To(CPSR, 0x9B), Vector(4), Seven(3), // strd r2, [r1]
        Arm(0xE12F_FF31), To(LR_UND, 0x104), To(SPSR_UND, 0x1F), To(CPSR, 0x9B), Vector(4), Seven(3), // blx r1
        Arm(0xE120_0070), To(LR_UND, 0x104), To(SPSR_UND, 0x1F), To(CPSR, 0x9B), Vector(4), Seven(3), // bkpt
        // a condition that fails
        Arm(0x016F_0F11), Seven(1), // clzeq r0, r1
        // with condition 1111 nothing is done
        Arm(0xFA00_003E), Seven(1), // blx
        R(1, 0x43), Arm(0xF5D1_F000), Seven(1), // pld [r1]
        Arm(0xFE07_0F90), Seven(1), // mcr2
        Arm(0xFE17_0F90), Seven(1), // mrc2
        // halves
        Thumb(0x4780), To(LR_UND, 0x102), To(SPSR_UND, 0x3F), To(CPSR, 0x9B), Vector(4), Seven(3), // blx r0
        Thumb(0x47F0), To(LR_UND, 0x102), To(SPSR_UND, 0x3F), To(CPSR, 0x9B), Vector(4), Seven(3), // blx r14
        Thumb(0xBE00), To(LR_UND, 0x102), To(SPSR_UND, 0x3F), To(CPSR, 0x9B), Vector(4), Seven(3), // bkpt
        Thumb(0xE802), To(LR_UND, 0x102), To(SPSR_UND, 0x3F), To(CPSR, 0x9B), Vector(4), Seven(3), // blxl #0x2

        // what armv5 has not either is undefined on arm9
        // the second half of BLX to an odd place
        R(14, 0x1E2),                      Thumb(0xE803),    To(LR_UND, 0x102), To(SPSR_UND, 0x3F), To(CPSR, 0x9B), Vector(4), Nine(3), // blxl #0x3
        // BKPT with a condition
                                           Arm(0x0120_0070), Both(1, 1), // bkpteq without Z
        Nzcv(0b0100),                      Arm(0x0120_0070), To(LR_UND, 0x104), To(SPSR_UND, 0x4000_001F), To(CPSR, 0x4000_009B), Vector(4), Both(3, 3), // bkpteq with Z
        // MCR and MRC with condition 1111
                                           Arm(0xFE07_0F90), To(LR_UND, 0x104), To(SPSR_UND, 0x1F), To(CPSR, 0x9B), Vector(4), Nine(3), // mcr2 p15, 0, r0, c7, c0, 4
        R(0, 5),                           Arm(0xFE10_0F10), To(LR_UND, 0x104), To(SPSR_UND, 0x1F), To(CPSR, 0x9B), Vector(4), Nine(3), // mrc2 p15, 0, r0, c0, c0, 0
    ])
}
