//! Thumb's data processing, loads, stores and lists.

use super::lines::Line::{
    At, Both, Cpsr, Flags, Mem, Mem7, Mem9, Nzcv, Pc, R, Thumb, To, To7, To9,
};
use super::lines::{PC, R8_FIQ, SP, SP_IRQ, try_lines};
use std::alloc::AllocError;

#[test]
#[rattlefmt::skip]
fn thumb_processes_data(rt: HostRuntime) -> Result<(), AllocError> {
    try_lines(&rt, rt.alloc(), &[
        // thumb shifts sums and immediates
        Nzcv(0b0011), R(0, 7), R(1, 0x8000_0001), R(2, 0), Thumb(0x0008), To(0, 0x8000_0001), Flags(0b1011), Both(1, 1), // lsl r0, r1, #0
        Nzcv(0b0000), R(0, 7), R(1, 0x8000_0001), R(2, 0), Thumb(0x0048), To(0, 2), Flags(0b0010),           Both(1, 1), // lsl r0, r1, #1
        Nzcv(0b0000), R(0, 7), R(1, 3), R(2, 0),           Thumb(0x07C8), To(0, 0x8000_0000), Flags(0b1010), Both(1, 1), // lsl r0, r1, #31
        Nzcv(0b0000), R(0, 7), R(1, 3), R(2, 0),           Thumb(0x0848), To(0, 1), Flags(0b0010),           Both(1, 1), // lsr r0, r1, #1
        Nzcv(0b0000), R(0, 7), R(1, 0x8000_0000), R(2, 0), Thumb(0x0808), To(0, 0), Flags(0b0110),           Both(1, 1), // lsr r0, r1, #32
        Nzcv(0b0000), R(0, 7), R(1, 0x8000_0001), R(2, 0), Thumb(0x1048), To(0, 0xC000_0000), Flags(0b1010), Both(1, 1), // asr r0, r1, #1
        Nzcv(0b0010), R(0, 7), R(1, 0x7FFF_FFFF), R(2, 0), Thumb(0x1008), To(0, 0), Flags(0b0100),           Both(1, 1), // asr r0, r1, #32
        Nzcv(0b0000), R(0, 7), R(1, 0x8000_0000), R(2, 0), Thumb(0x1008), To(0, 0xFFFF_FFFF), Flags(0b1010), Both(1, 1), // asr r0, r1, #32
        Nzcv(0b0010), R(0, 7), R(1, 0x7FFF_FFFF), R(2, 1), Thumb(0x1888), To(0, 0x8000_0000), Flags(0b1001), Both(1, 1), // add r0, r1, r2
        Nzcv(0b0001), R(0, 7), R(1, 0xFFFF_FFFF), R(2, 1), Thumb(0x1888), To(0, 0), Flags(0b0110),           Both(1, 1), // add r0, r1, r2
        Nzcv(0b0000), R(0, 7), R(1, 0x8000_0000), R(2, 1), Thumb(0x1A88), To(0, 0x7FFF_FFFF), Flags(0b0011), Both(1, 1), // sub r0, r1, r2
        Nzcv(0b0011), R(0, 7), R(1, 0), R(2, 1),           Thumb(0x1A88), To(0, 0xFFFF_FFFF), Flags(0b1000), Both(1, 1), // sub r0, r1, r2
        Nzcv(0b0000), R(0, 7), R(1, 0xFFFF_FFF9), R(2, 0), Thumb(0x1DC8), To(0, 0), Flags(0b0110),           Both(1, 1), // add r0, r1, #7
        Nzcv(0b1111), R(0, 7), R(1, 5), R(2, 0),           Thumb(0x1C08), To(0, 5), Flags(0b0000),           Both(1, 1), // add r0, r1, #0
        Nzcv(0b0000), R(0, 7), R(1, 6), R(2, 0),           Thumb(0x1FC8), To(0, 0xFFFF_FFFF), Flags(0b1000), Both(1, 1), // sub r0, r1, #7
        Nzcv(0b1011), R(0, 7), R(1, 0), R(2, 0),           Thumb(0x2000), To(0, 0), Flags(0b0111),           Both(1, 1), // mov r0, #0
        Nzcv(0b0110), R(0, 7), R(1, 0), R(2, 0),           Thumb(0x20FF), To(0, 0xFF), Flags(0b0010),        Both(1, 1), // mov r0, #0xff
        Nzcv(0b1001), R(0, 7), R(1, 0), R(2, 0),           Thumb(0x2807), To(0, 7), Flags(0b0110),           Both(1, 1), // cmp r0, #7
        Nzcv(0b0110), R(0, 7), R(1, 0), R(2, 0),           Thumb(0x2808), To(0, 7), Flags(0b1000),           Both(1, 1), // cmp r0, #8
        Nzcv(0b1111), R(0, 7), R(1, 0), R(2, 0),           Thumb(0x30FF), To(0, 0x106), Flags(0b0000),       Both(1, 1), // add r0, #0xff
        Nzcv(0b1001), R(0, 7), R(1, 0), R(2, 0),           Thumb(0x3807), To(0, 0), Flags(0b0110),           Both(1, 1), // sub r0, #7
        Nzcv(0b0110), R(0, 7), R(1, 0), R(2, 0),           Thumb(0x3808), To(0, 0xFFFF_FFFF), Flags(0b1000), Both(1, 1), // sub r0, #8

        // thumb operations of two registers
        Nzcv(0b0011), R(0, 0xF0F0_F0F0), R(1, 0x8000_00FF), Thumb(0x4008), To(0, 0x8000_00F0), Flags(0b1011), Both(1, 1), // and
        Nzcv(0b0010), R(0, 0xFF), R(1, 0xFF),               Thumb(0x4048), To(0, 0), Flags(0b0110),           Both(1, 1), // eor
        Nzcv(0b0000), R(0, 0x8000_0001), R(1, 1),           Thumb(0x4088), To(0, 2), Flags(0b0010),           Both(2, 2), // lsl by 1
        Nzcv(0b0010), R(0, 1), R(1, 0x100),                 Thumb(0x4088), To(0, 1), Flags(0b0010),           Both(2, 2), // lsl by 100h
        Nzcv(0b0000), R(0, 1), R(1, 0x20),                  Thumb(0x4088), To(0, 0), Flags(0b0110),           Both(2, 2), // lsl by 32
        Nzcv(0b0010), R(0, 0xFFFF_FFFF), R(1, 0x21),        Thumb(0x4088), To(0, 0), Flags(0b0100),           Both(2, 2), // lsl by 33
        Nzcv(0b0000), R(0, 3), R(1, 1),                     Thumb(0x40C8), To(0, 1), Flags(0b0010),           Both(2, 2), // lsr by 1
        Nzcv(0b0000), R(0, 0x8000_0000), R(1, 0x20),        Thumb(0x40C8), To(0, 0), Flags(0b0110),           Both(2, 2), // lsr by 32
        Nzcv(0b0000), R(0, 0x8000_0001), R(1, 1),           Thumb(0x4108), To(0, 0xC000_0000), Flags(0b1010), Both(2, 2), // asr by 1
        Nzcv(0b0000), R(0, 0x8000_0000), R(1, 0x21),        Thumb(0x4108), To(0, 0xFFFF_FFFF), Flags(0b1010), Both(2, 2), // asr by 33
        Nzcv(0b0010), R(0, 0xFFFF_FFFF), R(1, 0),           Thumb(0x4148), To(0, 0), Flags(0b0110),           Both(1, 1), // adc
        Nzcv(0b0010), R(0, 0x7FFF_FFFF), R(1, 0),           Thumb(0x4148), To(0, 0x8000_0000), Flags(0b1001), Both(1, 1), // adc
        Nzcv(0b1101), R(0, 1), R(1, 2),                     Thumb(0x4148), To(0, 3), Flags(0b0000),           Both(1, 1), // adc
        Nzcv(0b0000), R(0, 5), R(1, 5),                     Thumb(0x4188), To(0, 0xFFFF_FFFF), Flags(0b1000), Both(1, 1), // sbc
        Nzcv(0b0010), R(0, 5), R(1, 3),                     Thumb(0x4188), To(0, 2), Flags(0b0010),           Both(1, 1), // sbc
        Nzcv(0b0000), R(0, 1), R(1, 1),                     Thumb(0x41C8), To(0, 0x8000_0000), Flags(0b1010), Both(2, 2), // ror by 1
        Nzcv(0b0000), R(0, 0x8000_0001), R(1, 0x20),        Thumb(0x41C8), To(0, 0x8000_0001), Flags(0b1010), Both(2, 2), // ror by 32
        Nzcv(0b0011), R(0, 1), R(1, 2),                     Thumb(0x4208), To(0, 1), Flags(0b0111),           Both(1, 1), // tst
        Nzcv(0b0110), R(0, 9), R(1, 1),                     Thumb(0x4248), To(0, 0xFFFF_FFFF), Flags(0b1000), Both(1, 1), // neg
        Nzcv(0b0000), R(0, 9), R(1, 0),                     Thumb(0x4248), To(0, 0), Flags(0b0110),           Both(1, 1), // neg
        Nzcv(0b0000), R(0, 9), R(1, 0x8000_0000),           Thumb(0x4248), To(0, 0x8000_0000), Flags(0b1001), Both(1, 1), // neg
        Nzcv(0b0110), R(0, 3), R(1, 5),                     Thumb(0x4288), To(0, 3), Flags(0b1000),           Both(1, 1), // cmp
        Nzcv(0b1001), R(0, 5), R(1, 5),                     Thumb(0x4288), To(0, 5), Flags(0b0110),           Both(1, 1), // cmp
        Nzcv(0b0000), R(0, 0xFFFF_FFFF), R(1, 1),           Thumb(0x42C8), To(0, 0xFFFF_FFFF), Flags(0b0110), Both(1, 1), // cmn
        Nzcv(0b0001), R(0, 0x8000_0000), R(1, 1),           Thumb(0x4308), To(0, 0x8000_0001), Flags(0b1001), Both(1, 1), // orr
        Nzcv(0b1111), R(0, 3), R(1, 5),                     Thumb(0x4348), To(0, 0xF), Flags(0b0011),         Both(4, 2), // mul
        Nzcv(0b0100), R(0, 0xFFFF_FFFF), R(1, 2),           Thumb(0x4348), To(0, 0xFFFF_FFFE), Flags(0b1000), Both(4, 2), // mul
        Nzcv(0b0010), R(0, 0xFF), R(1, 0xF),                Thumb(0x4388), To(0, 0xF0), Flags(0b0010),        Both(1, 1), // bic
        Nzcv(0b0011), R(0, 5), R(1, 0),                     Thumb(0x43C8), To(0, 0xFFFF_FFFF), Flags(0b1011), Both(1, 1), // mvn

        // thumb reaches high registers
        Nzcv(0b1111), R(0, 5), R(1, 0x205), R(8, 6), R(14, 0x185), Thumb(0x4488), To(8, 0x20B),  Both(1, 1), // add r8, r1
        Nzcv(0b1111), R(0, 5), R(1, 0x205), R(8, 6), R(14, 0x185), Thumb(0x4440), To(0, 0xB),    Both(1, 1), // add r0, r8
        Nzcv(0b1111), R(0, 5), R(1, 0x205), R(8, 6), R(14, 0x185), Thumb(0x44F5), To(SP, 0x185), Both(1, 1), // add r13, r14
        Nzcv(0b1111), R(0, 5), R(1, 0x205), R(8, 6), R(14, 0x185), Thumb(0x4478), To(0, 0x109),  Both(1, 1), // add r0, r15
        Nzcv(0b1111), R(0, 5), R(1, 0x205), R(8, 6), R(14, 0x185), Thumb(0x448F), Pc(0x308),     Both(3, 3), // add r15, r1
        Nzcv(0b1111), R(0, 5), R(1, 0x205), R(8, 6), R(14, 0x185), Thumb(0x4688), To(8, 0x205),  Both(1, 1), // mov r8, r1
        Nzcv(0b1111), R(0, 5), R(1, 0x205), R(8, 6), R(14, 0x185), Thumb(0x4640), To(0, 6),      Both(1, 1), // mov r0, r8
        Nzcv(0b1111), R(0, 5), R(1, 0x205), R(8, 6), R(14, 0x185), Thumb(0x4678), To(0, 0x104),  Both(1, 1), // mov r0, r15
        Nzcv(0b1111), R(0, 5), R(1, 0x205), R(8, 6), R(14, 0x185), Thumb(0x468F), Pc(0x204),     Both(3, 3), // mov r15, r1
        Nzcv(0b1111), R(0, 5), R(1, 0x205), R(8, 6), R(14, 0x185), Thumb(0x46F7), Pc(0x184),     Both(3, 3), // mov r15, r14
        Nzcv(0b1111), R(0, 5), R(1, 0x205), R(8, 6), R(14, 0x185), Thumb(0x4580), Flags(0b0010), Both(1, 1), // cmp r8, r0
        Nzcv(0b1111), R(0, 5), R(1, 0x205), R(8, 6), R(14, 0x185), Thumb(0x4540), Flags(0b1000), Both(1, 1), // cmp r0, r8
        Nzcv(0b1111), R(0, 5), R(1, 0x205), R(8, 6), R(14, 0x185), Thumb(0x45C0), Flags(0b0110), Both(1, 1), // cmp r8, r8
        // r15 isn't aligned
        At(0x102), R(0, 5),                                        Thumb(0x4478), To(0, 0x10B),  Both(1, 1), // add r0, r15 at 102h
        Cpsr(0x31), R(1, 3),                                       Thumb(0x4688), To(R8_FIQ, 3), Both(1, 1), // mov r8, r1 in FIQ mode

        // thumb sums of r13 keep the flags
        Nzcv(0b1111), R(13, 0x40), Thumb(0xA801), To(0, 0x44),         Both(1, 1), // add r0, r13, #0x4
        R(13, 0x40),               Thumb(0xAFFF), To(7, 0x43C),        Both(1, 1), // add r7, r13, #0x3fc
        Nzcv(0b1111), R(13, 0x40), Thumb(0xB001), To(SP, 0x44),        Both(1, 1), // add r13, #0x4
        R(13, 0x40),               Thumb(0xB07F), To(SP, 0x23C),       Both(1, 1), // add r13, #0x1fc
        R(13, 0x40),               Thumb(0xB081), To(SP, 0x3C),        Both(1, 1), // sub r13, #0x4
        R(13, 0x40),               Thumb(0xB0FF), To(SP, 0xFFFF_FE44), Both(1, 1), // sub r13, #0x1fc
        Nzcv(0b1010), R(13, 4),    Thumb(0xB081), To(SP, 0),           Both(1, 1), // sub r13, #0x4 to 0
        Cpsr(0x32), R(13, 0x40),   Thumb(0xB001), To(SP_IRQ, 0x44),    Both(1, 1), // add r13, #0x4 in IRQ mode
    ])
}

#[test]
#[rattlefmt::skip]
fn thumb_loads_and_stores(rt: HostRuntime) -> Result<(), AllocError> {
    try_lines(&rt, rt.alloc(), &[
        // thumb loads
        R(1, 0x40), R(2, 4), Thumb(0x5888), To(0, 9),                                 Both(3, 2), // ldr r0, [r1, r2]
        R(2, 1),             Thumb(0x5888), To(0, 0x1144_3322),                       Both(3, 2), // ldr at 1
        R(1, 8), R(2, 2),    Thumb(0x5A88), To(0, 0x8483),                            Both(3, 2), // ldrh r0, [r1, r2]
        R(2, 1),             Thumb(0x5A88), To7(0, 0x1100_0022), To9(0, 0x2211),      Both(3, 2), // ldrh at 1
        R(1, 8), R(2, 1),    Thumb(0x5C88), To(0, 0x82),                              Both(3, 2), // ldrb r0, [r1, r2]
        R(1, 8), R(2, 1),    Thumb(0x5688), To(0, 0xFFFF_FF82),                       Both(3, 2), // ldrsb r0, [r1, r2]
        R(1, 8),             Thumb(0x5E88), To(0, 0xFFFF_8281),                       Both(3, 2), // ldrsh r0, [r1, r2]
        R(1, 8), R(2, 1),    Thumb(0x5E88), To7(0, 0xFFFF_FF82), To9(0, 0xFFFF_8281), Both(3, 2), // ldrsh at 9
        R(1, 0x40),          Thumb(0x6848), To(0, 9),                                 Both(3, 2), // ldr r0, [r1, #0x4]
                             Thumb(0x7848), To(0, 0x22),                              Both(3, 2), // ldrb r0, [r1, #0x1]
                             Thumb(0x8848), To(0, 0x4433),                            Both(3, 2), // ldrh r0, [r1, #0x2]
        R(13, 0x40),         Thumb(0x9801), To(0, 9),                                 Both(3, 2), // ldr r0, [r13, #0x4]

        // thumb stores
        R(0, 0x1234_5678), R(1, 0x40), R(2, 4), Thumb(0x5088), Mem(0x44, 0x1234_5678), Both(2, 1), // str r0, [r1, r2]
        R(0, 0x1234_5678), R(1, 0x40), R(2, 2), Thumb(0x5288), Mem(0x40, 0x5678_0007), Both(2, 1), // strh r0, [r1, r2]
        R(0, 0x1234_5678), R(1, 0x40), R(2, 1), Thumb(0x5488), Mem(0x40, 0x7807),      Both(2, 1), // strb r0, [r1, r2]
        R(0, 0x1234_5678), R(1, 0x40),          Thumb(0x6048), Mem(0x44, 0x1234_5678), Both(2, 1), // str r0, [r1, #0x4]
        R(0, 0x1234_5678), R(1, 0x40),          Thumb(0x7048), Mem(0x40, 0x7807),      Both(2, 1), // strb r0, [r1, #0x1]
        R(0, 0x1234_5678), R(1, 0x40),          Thumb(0x8048), Mem(0x40, 0x5678_0007), Both(2, 1), // strh r0, [r1, #0x2]
        R(0, 0x1234_5678), R(13, 0x40),         Thumb(0x9001), Mem(0x44, 0x1234_5678), Both(2, 1), // str r0, [r13, #0x4]

        // thumb lists are stored
        R(0, 5), R(1, 0x40), R(2, 6), R(13, 0x80), R(14, 0x77),       Thumb(0xB405), To(SP, 0x78), Mem(0x78, 5), Mem(0x7C, 6),                     Both(3, 2), // push {r0, r2}
        R(0, 5), R(1, 0x40), R(2, 6), R(13, 0x80), R(14, 0x77),       Thumb(0xB501), To(SP, 0x78), Mem(0x78, 5), Mem(0x7C, 0x77),                  Both(3, 2), // push {r0, r14}
        R(0, 5), R(1, 0x40), R(2, 6), R(13, 0x80), R(14, 0x77),       Thumb(0xB500), To(SP, 0x7C), Mem(0x7C, 0x77),                                Both(2, 1), // push {r14}
        // r15 is stored, as the address and 4
        R(0, 5), R(1, 0x40), R(2, 6), R(13, 0x80), R(14, 0x77),       Thumb(0xB400), To(SP, 0x40), Mem7(0x40, 0x104),                              Both(1, 1), // push {}
        R(0, 5), R(1, 0x40), R(2, 6), R(13, 0x80), R(14, 0x77),       Thumb(0xC105), To(1, 0x48), Mem(0x40, 5), Mem(0x44, 6),                      Both(3, 2), // stmia r1!, {r0, r2}
        // the base is stored as it was where it is the first
        R(0, 5), R(1, 0x40), R(2, 6), R(13, 0x80), R(14, 0x77),       Thumb(0xC106), To(1, 0x48), Mem(0x40, 0x40), Mem(0x44, 6),                   Both(3, 2), // stmia r1!, {r1, r2}
        R(0, 5), R(1, 0x40), R(2, 6), R(13, 0x80), R(14, 0x77),       Thumb(0xC102), To(1, 0x44), Mem(0x40, 0x40),                                 Both(2, 1), // stmia r1!, {r1}
        R(0, 5), R(1, 0x40), R(2, 6), R(13, 0x80), R(14, 0x77),       Thumb(0xC103), To(1, 0x48), Mem(0x40, 5), Mem7(0x44, 0x48), Mem9(0x44, 0x40), Both(3, 2), // stmia r1!, {r0, r1}
        R(0, 5), R(1, 0x40), R(2, 6), R(13, 0x80), R(14, 0x77),       Thumb(0xC107), To(1, 0x4C), Mem(0x40, 5), Mem(0x48, 6), Mem7(0x44, 0x4C), Mem9(0x44, 0x40), Both(4, 3), // stmia r1!, {r0, r1, r2}
        R(0, 5), R(1, 0x40), R(2, 6), R(13, 0x80), R(14, 0x77),       Thumb(0xC100), To(1, 0x80), Mem7(0x40, 0x104),                               Both(1, 1), // stmia r1!, {}
        Cpsr(0x32), R(0, 5), R(1, 0x40), R(2, 6), R(13, 0x80), R(14, 0x77), Thumb(0xB500), To(SP_IRQ, 0x7C), Mem(0x7C, 0x77),                            Both(2, 1), // push {r14} in IRQ mode

        // thumb lists are loaded
        R(13, 0x40),             Thumb(0xBC03), To(0, 7), To(1, 9), To(SP, 0x48),  Both(4, 3), // pop {r0, r1}
        // bit 0 is cleared
        R(13, 0x44),             Thumb(0xBD01), To(0, 9), To(SP, 0x4C), Pc(0x182), Both(6, 5), // pop {r0, r15}
        R(13, 0x48),             Thumb(0xBD00), To(SP, 0x4C), Pc(0x182),           Both(5, 4), // pop {r15}
        R(13, 0x48),             Thumb(0xBC00), To(SP, 0x88), To7(PC, 0x182),      Both(4, 1), // pop {}
        Cpsr(0x32), R(13, 0x40), Thumb(0xBC01), To(0, 7), To(SP_IRQ, 0x44),        Both(3, 2), // pop {r0} in IRQ mode
        R(1, 0x40),              Thumb(0xC905), To(0, 7), To(1, 0x48), To(2, 9),   Both(4, 3), // ldmia r1!, {r0, r2}
        // a base in the list keeps what was loaded
        R(1, 0x40),              Thumb(0xC906), To(1, 7), To(2, 9),                Both(4, 3), // ldmia r1!, {r1, r2}
        R(1, 0x40),              Thumb(0xC903), To(0, 7), To(1, 9),                Both(4, 3), // ldmia r1!, {r0, r1}
        R(1, 0x40),              Thumb(0xC902), To(1, 7),                          Both(3, 2), // ldmia r1!, {r1}
        R(1, 0x48),              Thumb(0xC900), To(1, 0x88), To7(PC, 0x182),       Both(4, 1), // ldmia r1!, {}
    ])
}
