//! MSR and MRS, and moves to and from CP15.

use super::lines::Line::{
    Arm, Both, Cpsr, Flags, Halts, Kept, Nine, Nzcv, Pc, R, Spsr, Stops9, To, To7, To9, Vector,
};
use super::lines::{CPSR, LR, LR_UND, SP, SPSR_IRQ, SPSR_UND, try_lines};
use ds_base::LeftKind::BigEndian;
use std::alloc::AllocError;

#[test]
#[rattlefmt::skip]
fn status_registers_are_read_and_written(rt: HostRuntime) -> Result<(), AllocError> {
    try_lines(&rt, rt.alloc(), &[
        // msr writes its fields of cpsr
        Cpsr(0xDF), R(1, 0x13),               Arm(0xE121_F001), To(CPSR, 0x13),                                 Both(1, 1), // c from System
        Cpsr(0xD3), R(1, 0x32),               Arm(0xE121_F001), To(CPSR, 0x12),                                 Both(1, 1), // c with T
        Cpsr(0xF000_00D3), R(1, 0x1F),        Arm(0xE121_F001), To(CPSR, 0xF000_001F),                          Both(1, 1), // c keeps the flags
        Cpsr(0xDF), R(1, 0xFFFF_FFFF),        Arm(0xE122_F001), To(CPSR, 0xDF),                                 Both(1, 1), // x
        Cpsr(0xDF), R(1, 0xFFFF_FFFF),        Arm(0xE124_F001), To(CPSR, 0xDF),                                 Both(1, 1), // s
        // bit 27 is ARMv5's
        Cpsr(0xDF), R(1, 0xFFFF_FFFF),        Arm(0xE128_F001), To7(CPSR, 0xF000_00DF), To9(CPSR, 0xF800_00DF), Both(1, 1), // f
        Cpsr(0xA000_00DF), R(1, 0x5000_0000), Arm(0xE128_F001), To(CPSR, 0x5000_00DF),                          Both(1, 1), // f clears
        Cpsr(0x13), R(1, 0xFFFF_FFFF),        Arm(0xE12F_F001), To7(CPSR, 0xF000_00DF), To9(CPSR, 0xF800_00DF), Both(1, 1), // fsxc
        Cpsr(0x13), R(1, 0xFFFF_FFFF),        Arm(0xE120_F001), To(CPSR, 0x13),                                 Both(1, 1), // none
        Cpsr(0x10), R(1, 0xDF),               Arm(0xE121_F001), To(CPSR, 0x10),                                 Both(1, 1), // c from User
        Cpsr(0x10), R(1, 0xFFFF_FFFF),        Arm(0xE122_F001), To(CPSR, 0x10),                                 Both(1, 1), // x from User
        Cpsr(0x10), R(1, 0xFFFF_FFFF),        Arm(0xE124_F001), To(CPSR, 0x10),                                 Both(1, 1), // s from User
        Cpsr(0x10), R(1, 0xFFFF_FFFF),        Arm(0xE128_F001), To7(CPSR, 0xF000_0010), To9(CPSR, 0xF800_0010), Both(1, 1), // f from User
        Cpsr(0x8000_0010), R(1, 0x6000_00DF), Arm(0xE12F_F001), To(CPSR, 0x6000_0010),                          Both(1, 1), // fsxc from User
        // a mode that there isn't is privileged
        Cpsr(0x14), R(1, 0x1F),               Arm(0xE121_F001), To(CPSR, 0x1F),                                 Both(1, 1), // c from mode 14h
        // so are those without bit 4: 0 is no User mode, 2 no IRQ mode
        Cpsr(0x00), R(1, 0x13),               Arm(0xE121_F001), To(CPSR, 0x13),                                 Both(1, 1), // c from mode 0
        Cpsr(0x00), R(1, 0x6000_00D2),        Arm(0xE12F_F001), To(CPSR, 0x6000_00D2),                          Both(1, 1), // fsxc from mode 0
        Cpsr(0x00), R(1, 0),                  Arm(0xE321_F013), To(CPSR, 0x13),                                 Both(1, 1), // c, #0x13 from mode 0
        Cpsr(0x02), R(1, 0x1F),               Arm(0xE121_F001), To(CPSR, 0x1F),                                 Both(1, 1), // c from mode 2
        Cpsr(0x0F), R(1, 0x1F),               Arm(0xE121_F001), To(CPSR, 0x1F),                                 Both(1, 1), // c from mode Fh
        Cpsr(0xDF), R(1, 0),                  Arm(0xE121_F001), To(CPSR, 0),                                    Both(1, 1), // c to mode 0
        Cpsr(0xDF), R(1, 0),                  Arm(0xE328_F20F), To(CPSR, 0xF000_00DF),                          Both(1, 1), // f, #0xf0000000
        Cpsr(0xDF), R(1, 0),                  Arm(0xE321_F013), To(CPSR, 0x13),                                 Both(1, 1), // c, #0x13
        Cpsr(0x10), R(1, 0),                  Arm(0xE321_F013), To(CPSR, 0x10),                                 Both(1, 1), // c, #0x13 from User
        // spsr, in modes without one
        Nzcv(0b0000), R(1, 0xFFFF_FFFF),      Arm(0xE16F_F001), Flags(0b0000),                                  Both(1, 1), // spsr in System
        Cpsr(0x10), R(1, 0xFFFF_FFFF),        Arm(0xE16F_F001), To(CPSR, 0x10),                                 Both(1, 1), // spsr in User

        // msr writes its fields of spsr
        Cpsr(0x12), R(1, 0xFFFF_FFFF),                    Arm(0xE161_F001), To(SPSR_IRQ, 0xFF),                                     Both(1, 1), // c
        Cpsr(0x12), Spsr(0xF000_001F), R(1, 0x30),        Arm(0xE161_F001), To(SPSR_IRQ, 0xF000_0030),                              Both(1, 1), // c keeps the flags
        Cpsr(0x12), Spsr(0x13), R(1, 0xFFFF_FFFF),        Arm(0xE162_F001), To(SPSR_IRQ, 0x13),                                     Both(1, 1), // x
        Cpsr(0x12), Spsr(0x13), R(1, 0xFFFF_FFFF),        Arm(0xE164_F001), To(SPSR_IRQ, 0x13),                                     Both(1, 1), // s
        Cpsr(0x12), Spsr(0x13), R(1, 0xFFFF_FFFF),        Arm(0xE168_F001), To7(SPSR_IRQ, 0xF000_0013), To9(SPSR_IRQ, 0xF800_0013), Both(1, 1), // f
        Cpsr(0x12), Spsr(0x6000_0013), R(1, 0x9FFF_FF30), Arm(0xE16F_F001), To7(SPSR_IRQ, 0x9000_0030), To9(SPSR_IRQ, 0x9800_0030), Both(1, 1), // fsxc
        Cpsr(0x12), Spsr(0xF000_0010), R(1, 0),           Arm(0xE369_F01F), To(SPSR_IRQ, 0x1F),                                     Both(1, 1), // fc, #0x1f
        Cpsr(0x12), Spsr(0x13), R(1, 0x12),               Arm(0xE12F_F001), To(SPSR_IRQ, 0x13),                                     Both(1, 1), // cpsr

        // mrs reads a status register
        Cpsr(0xA000_00D2), Spsr(0x13), R(0, 7), Arm(0xE10F_0000), To(0, 0xA000_00D2), Both(1, 1), // cpsr
        Cpsr(0x6000_0010), R(0, 7),             Arm(0xE10F_0000), To(0, 0x6000_0010), Both(1, 1), // cpsr in User
        Cpsr(0xD2), Spsr(0x6000_0030), R(0, 7), Arm(0xE14F_0000), To(0, 0x6000_0030), Both(1, 1), // spsr of IRQ
        Cpsr(0xD1), Spsr(0x1F), R(0, 7),        Arm(0xE14F_0000), To(0, 0x1F),        Both(1, 1), // spsr of FIQ
        Cpsr(0xDF), R(0, 7),                    Arm(0xE14F_0000), To(0, 0),           Both(1, 1), // spsr of System
        Cpsr(0x6000_0010), R(0, 7),             Arm(0xE14F_0000), To(0, 0),           Both(1, 1), // spsr of User

        // status registers of a mode that there is not
        // there is no SPSR: it reads as 0, and isn't written
        Cpsr(0x14), R(0, 7),           Arm(0xE14F_0000), To(0, 0),                                       Both(1, 1), // mrs r0, spsr
        Cpsr(0x14), R(0, 7),           Arm(0xE10F_0000), To(0, 0x14),                                    Both(1, 1), // mrs r0, cpsr
        Cpsr(0x14), R(1, 0xFFFF_FFFF), Arm(0xE16F_F001), To(CPSR, 0x14),                                 Both(1, 1), // msr spsr_fsxc, r1
        Cpsr(0x14), R(1, 0xFFFF_FFFF), Arm(0xE128_F001), To7(CPSR, 0xF000_0014), To9(CPSR, 0xF800_0014), Both(1, 1), // msr cpsr_f, r1
        Cpsr(0x14), R(1, 0xD3),        Arm(0xE12F_F001), To(CPSR, 0xD3),                                 Both(1, 1), // msr cpsr_fsxc, r1
        Cpsr(0x00), R(0, 7),           Arm(0xE14F_0000), To(0, 0),                                       Both(1, 1), // mrs r0, spsr
        Cpsr(0x02), R(0, 7),           Arm(0xE14F_0000), To(0, 0),                                       Both(1, 1), // mrs r0, spsr
        Cpsr(0x02), R(1, 0xFFFF_FFFF), Arm(0xE16F_F001), To(CPSR, 0x02),                                 Both(1, 1), // msr spsr_fsxc, r1
        // its registers are System's
        Cpsr(0x00), R(1, 5),           Arm(0xE1A0_D001), To(SP, 5),                                      Both(1, 1), // mov r13, r1
        Cpsr(0x02), R(1, 5),           Arm(0xE1A0_E001), To(LR, 5),                                      Both(1, 1), // mov r14, r1
        Cpsr(0x01), R(1, 5),           Arm(0xE1A0_8001), To(8, 5),                                       Both(1, 1), // mov r8, r1
        // and it can be entered
        Cpsr(0xDF), R(1, 0x14),        Arm(0xE121_F001), To(CPSR, 0x14),                                 Both(1, 1), // msr cpsr_c, r1

        // q is a bit of each status register of armv5
        Cpsr(0xD2), Spsr(0x6800_0030), R(0, 7),  Arm(0xE14F_0000), To(0, 0x6800_0030),              Nine(1), // mrs r0, spsr
        Cpsr(0x12), Spsr(0xF800_0013), R(1, 0),  Arm(0xE168_F001), To(SPSR_IRQ, 0x13),              Nine(1), // msr spsr_f, r1
        Cpsr(0xF800_0010), R(1, 0),              Arm(0xE128_F001), To(CPSR, 0x10),                  Nine(1), // msr cpsr_f, r1 in User mode
        Cpsr(0x10), R(1, 0x0800_0000),           Arm(0xE12F_F001), To(CPSR, 0x0800_0010),           Nine(1), // msr cpsr_fsxc, r1 in User mode
        Cpsr(0x92), Spsr(0xF800_001F), R(1, 0x204), Arm(0xE1B0_F001), Pc(0x204), To(CPSR, 0xF800_001F), Nine(3), // movs r15, r1
    ])
}

#[test]
#[rattlefmt::skip]
fn cp15_is_read_and_written(rt: HostRuntime) -> Result<(), AllocError> {
    try_lines(&rt, rt.alloc(), &[
        // registers of cp15 are read
        R(0, 5),           Arm(0xEE10_0F10), To(0, 0x4105_9461),    Nine(2), // main ID
        R(0, 5),           Arm(0xEE10_0F30), To(0, 0xF0D_2112),     Nine(2), // cache type
        R(0, 5),           Arm(0xEE10_0F50), To(0, 0x14_0180),      Nine(2), // size of the memories
        R(0, 5),           Arm(0xEE11_0F10), To(0, 0x5_2078),       Nine(2), // control
        R(0, 5),           Arm(0xEE19_0F11), To(0, 0x300_000A),     Nine(2), // DTCM
        R(0, 5),           Arm(0xEE19_0F31), To(0, 0x20),           Nine(2), // ITCM
        R(0, 5),           Arm(0xEE10_0F70), To(0, 0),              Nine(2), // none
        R(0, 5),           Arm(0xEE30_0F10), To(0, 0),              Nine(2), // another operation
        // r15 stands for N, Z, C and V
        Cpsr(0xB800_001F), Arm(0xEE10_FF10), To(CPSR, 0x4800_001F), Nine(2), // mrc p15, 0, r15, c0, c0, 0
        R(0, 5),           Arm(0x0E10_0F10),                        Nine(1), // mrceq

        // registers of cp15 are written
        R(0, 0xFFFF_FF7F), Arm(0xEE01_0F10), Kept(0xF_707D, 0x300_000A, 0x20),  Nine(2), // control
        R(0, 0),           Arm(0xEE01_0F10), Kept(0x78, 0x300_000A, 0x20),      Nine(2), // control
        R(0, 0xFFFF_FFFF), Arm(0xEE09_0F11), Kept(0x5_2078, 0xFFFF_F03E, 0x20), Nine(2), // DTCM
        R(0, 0xFFFF_FFFF), Arm(0xEE09_0F31), Kept(0x5_2078, 0x300_000A, 0x3E),  Nine(2), // ITCM
        R(0, 0xFFFF_FFFF), Arm(0xEE07_0F15),                                    Nine(2), // a cache
        R(0, 0xFFFF_FFFF), Arm(0xEE29_0F11),                                    Nine(2), // another operation
        R(0, 0),           Arm(0xEE27_0F90),                                    Nine(2), // a halt by another operation
        // r15 gives 108h
                           Arm(0xEE09_FF11), Kept(0x5_2078, 8, 0x20),           Nine(2), // mcr p15, 0, r15, c9, c1, 0

        // a write halts or is left out
                        Arm(0xEE07_0F90),            Halts(2), // mcr p15, 0, r0, c7, c0, 4
                        Arm(0x0E07_0F90),            Nine(1), // mcreq p15, 0, r0, c7, c0, 4
        R(0, 5),        Arm(0xEE17_0F90), To(0, 0),  Nine(2), // mrc p15, 0, r0, c7, c0, 4
        // the core and CP15 are as they were
        R(0, 0x5_20F8), Arm(0xEE01_0F10), Pc(0x100), Stops9(BigEndian, 0x5_20F8), // mcr p15, 0, r0, c1, c0, 0

        // other coprocessors are undefined
        R(0, 5), Arm(0xEE10_0E10), Vector(4), To(LR_UND, 0x104), To(SPSR_UND, 0x1F), To(CPSR, 0x9B), Nine(3), // mrc p14, 0, r0, c0, c0, 0
        R(0, 5), Arm(0xEE07_0090), Vector(4), To(LR_UND, 0x104), To(SPSR_UND, 0x1F), To(CPSR, 0x9B), Nine(3), // mcr p0, 0, r0, c7, c0, 4
        R(0, 5), Arm(0x0E10_0E10),                                                               Nine(1), // mrceq p14
        // a data operation
                 Arm(0xEE00_0F00), Vector(4), To(LR_UND, 0x104), To(SPSR_UND, 0x1F), To(CPSR, 0x9B), Both(3, 3), // cdp p15
    ])
}
