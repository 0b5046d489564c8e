//! Each form of operation, beside the step of its instruction: its operands, its results and flags, and its cost.

use super::forms::Form;
use super::forms::Form::{
    AccessNumber, AccessRegister, AddNumber, AddRegister, AddsNumber, AddsRegister, AndNumber,
    AndRegister, AndsRegister, BicNumber, BicRegister, BicsRegister, Branch, CmnNumber, CmpNumber,
    CmpRegister, DataShifted, DataShiftedBy, EorNumber, EorRegister, EorsRegister, Exchange,
    LdrNumber, LdrRegister, LdrbNumber, LdrbRegister, LdrhNumber, LdrhRegister, LinkPrefix,
    LinkSuffix, Literal, Mla, MovAsr, MovLsl, MovLsr, MovNumber, MovRor, MovsAsr, MovsLsl, MovsLsr,
    MovsNumber, Mul, OrrNumber, OrrRegister, OrrsRegister, Plain, RsbNumber, RsbRegister,
    StrNumber, StrRegister, StrbNumber, StrbRegister, StrhNumber, StrhRegister, SubNumber,
    SubRegister, SubsNumber, SubsRegister, TransferNumber, TransferRegister, TransferShifted,
    TstNumber, TstRegister,
};
use super::lines::Line::{
    Arm, At, Both, Flags, Is, List, Mem, Near, Nzcv, Other, Pc, R, Thumb, To, To7, To9,
};
use super::lines::{CPSR, LR, SP, try_lines};
use std::alloc::AllocError;

#[test]
#[rattlefmt::skip]
fn data_processing_is_an_operation_of_its_form(rt: HostRuntime) -> Result<(), AllocError> {
    try_lines(&rt, rt.alloc(), &[
        // with a number: the flags stay
        Nzcv(0b0011), R(1, 0x3C),         Arm(0xE201_E0F0), Is(AndNumber), To(LR, 0x30),       Near, Both(1, 1), // and r14, r1, #0xf0
        Nzcv(0b1100), R(14, 0xF),         Arm(0xE22E_00FF), Is(EorNumber), To(0, 0xF0),        Near, Both(1, 1), // eor r0, r14, #0xff
        Nzcv(0b0101), R(14, 0x200),       Arm(0xE24E_D001), Is(SubNumber), To(SP, 0x1FF),      Near, Both(1, 1), // sub r13, r14, #0x1
        Nzcv(0b1010), R(14, 5),           Arm(0xE26E_0000), Is(RsbNumber), To(0, 0xFFFF_FFFB), Near, Both(1, 1), // rsb r0, r14, #0x0
        Nzcv(0b0110), R(13, 0x200_0000),  Arm(0xE28D_E4FF), Is(AddNumber), To(LR, 0x100_0000), Near, Both(1, 1), // add r14, r13, #0xff000000
        Nzcv(0b1001), R(14, 0xF00),       Arm(0xE38E_C00F), Is(OrrNumber), To(12, 0xF0F),      Near, Both(1, 1), // orr r12, r14, #0xf
        Nzcv(0b1111), R(14, 0xFFFF_FFFF), Arm(0xE3CE_04FF), Is(BicNumber), To(0, 0xFF_FFFF),   Near, Both(1, 1), // bic r0, r14, #0xff000000
        // with a register: the flags stay
        Nzcv(0b0011), R(1, 0x3C), R(2, 0xF0),           Arm(0xE001_E002), Is(AndRegister), To(LR, 0x30),       Near, Both(1, 1), // and r14, r1, r2
        Nzcv(0b1100), R(2, 0xFF), R(14, 0xF),           Arm(0xE02E_0002), Is(EorRegister), To(0, 0xF0),        Near, Both(1, 1), // eor r0, r14, r2
        Nzcv(0b0101), R(1, 0x200), R(14, 1),            Arm(0xE041_000E), Is(SubRegister), To(0, 0x1FF),       Near, Both(1, 1), // sub r0, r1, r14
        Nzcv(0b1010), R(1, 5), R(14, 0x200),            Arm(0xE061_E00E), Is(RsbRegister), To(LR, 0x1FB),      Near, Both(1, 1), // rsb r14, r1, r14
        Nzcv(0b0110), R(14, 0x8000_0001),               Arm(0xE08E_E00E), Is(AddRegister), To(LR, 2),          Near, Both(1, 1), // add r14, r14, r14
        Nzcv(0b1001), R(2, 0xF), R(14, 0xF00),          Arm(0xE18E_D002), Is(OrrRegister), To(SP, 0xF0F),      Near, Both(1, 1), // orr r13, r14, r2
        Nzcv(0b1111), R(1, 0xFFFF_FFFF), R(14, 0xFF00), Arm(0xE1C1_000E), Is(BicRegister), To(0, 0xFFFF_00FF), Near, Both(1, 1), // bic r0, r1, r14
        // of operands with bits alone and in common each has a result of its own
        Nzcv(0b1111), R(1, 0xFF0), Arm(0xE201_00FF), Is(AndNumber),    To(0, 0xF0),         Near, Both(1, 1), // and r0, r1, #0xff
        Nzcv(0b1111), R(1, 0xFF0), Arm(0xE221_00FF), Is(EorNumber),    To(0, 0xF0F),        Near, Both(1, 1), // eor r0, r1, #0xff
        Nzcv(0b1111), R(1, 0xFF0), Arm(0xE241_00FF), Is(SubNumber),    To(0, 0xEF1),        Near, Both(1, 1), // sub r0, r1, #0xff
        Nzcv(0b1111), R(1, 0xFF0), Arm(0xE261_00FF), Is(RsbNumber),    To(0, 0xFFFF_F10F),  Near, Both(1, 1), // rsb r0, r1, #0xff
        Nzcv(0b1111), R(1, 0xFF0), Arm(0xE281_00FF), Is(AddNumber),    To(0, 0x10EF),       Near, Both(1, 1), // add r0, r1, #0xff
        Nzcv(0b1111), R(1, 0xFF0), Arm(0xE381_00FF), Is(OrrNumber),    To(0, 0xFFF),        Near, Both(1, 1), // orr r0, r1, #0xff
        Nzcv(0b1111), R(1, 0xFF0), Arm(0xE3C1_00FF), Is(BicNumber),    To(0, 0xF00),        Near, Both(1, 1), // bic r0, r1, #0xff
        Nzcv(0b1111), R(1, 0xFF0), R(2, 0xFF), Arm(0xE001_0002), Is(AndRegister),  To(0, 0xF0),         Near, Both(1, 1), // and r0, r1, r2
        Nzcv(0b1111), R(1, 0xFF0), R(2, 0xFF), Arm(0xE021_0002), Is(EorRegister),  To(0, 0xF0F),        Near, Both(1, 1), // eor r0, r1, r2
        Nzcv(0b1111), R(1, 0xFF0), R(2, 0xFF), Arm(0xE041_0002), Is(SubRegister),  To(0, 0xEF1),        Near, Both(1, 1), // sub r0, r1, r2
        Nzcv(0b1111), R(1, 0xFF0), R(2, 0xFF), Arm(0xE061_0002), Is(RsbRegister),  To(0, 0xFFFF_F10F),  Near, Both(1, 1), // rsb r0, r1, r2
        Nzcv(0b1111), R(1, 0xFF0), R(2, 0xFF), Arm(0xE081_0002), Is(AddRegister),  To(0, 0x10EF),       Near, Both(1, 1), // add r0, r1, r2
        Nzcv(0b1111), R(1, 0xFF0), R(2, 0xFF), Arm(0xE181_0002), Is(OrrRegister),  To(0, 0xFFF),        Near, Both(1, 1), // orr r0, r1, r2
        Nzcv(0b1111), R(1, 0xFF0), R(2, 0xFF), Arm(0xE1C1_0002), Is(BicRegister),  To(0, 0xF00),        Near, Both(1, 1), // bic r0, r1, r2
        Nzcv(0b1111), R(1, 0xFF0), R(2, 0xFF), Arm(0xE251_00FF), Is(SubsNumber),   To(0, 0xEF1),        Flags(0b0010), Near, Both(1, 1), // subs r0, r1, #0xff
        Nzcv(0b1111), R(1, 0xFF0), R(2, 0xFF), Arm(0xE291_00FF), Is(AddsNumber),   To(0, 0x10EF),       Flags(0b0000), Near, Both(1, 1), // adds r0, r1, #0xff
        Nzcv(0b1111), R(1, 0xFF0), R(2, 0xFF), Arm(0xE011_0002), Is(AndsRegister), To(0, 0xF0),         Flags(0b0011), Near, Both(1, 1), // ands r0, r1, r2
        Nzcv(0b1111), R(1, 0xFF0), R(2, 0xFF), Arm(0xE031_0002), Is(EorsRegister), To(0, 0xF0F),        Flags(0b0011), Near, Both(1, 1), // eors r0, r1, r2
        Nzcv(0b1111), R(1, 0xFF0), R(2, 0xFF), Arm(0xE051_0002), Is(SubsRegister), To(0, 0xEF1),        Flags(0b0010), Near, Both(1, 1), // subs r0, r1, r2
        Nzcv(0b1111), R(1, 0xFF0), R(2, 0xFF), Arm(0xE091_0002), Is(AddsRegister), To(0, 0x10EF),       Flags(0b0000), Near, Both(1, 1), // adds r0, r1, r2
        Nzcv(0b1111), R(1, 0xFF0), R(2, 0xFF), Arm(0xE191_0002), Is(OrrsRegister), To(0, 0xFFF),        Flags(0b0011), Near, Both(1, 1), // orrs r0, r1, r2
        Nzcv(0b1111), R(1, 0xFF0), R(2, 0xFF), Arm(0xE1D1_0002), Is(BicsRegister), To(0, 0xF00),        Flags(0b0011), Near, Both(1, 1), // bics r0, r1, r2
        // a difference has C where nothing is borrowed, as with 0, and V where the signs part
        Nzcv(0b0000), R(14, 5),
            Arm(0xE25E_0000), Is(SubsNumber),   To(0, 5), Flags(0b0010),            Near, Both(1, 1), // subs r0, r14, #0x0
        Nzcv(0b0000), R(0, 7), R(14, 0),
            Arm(0xE25E_0000), Is(SubsNumber),   To(0, 0), Flags(0b0110),            Near, Both(1, 1), // subs r0, r14, #0x0
        Nzcv(0b0110), R(14, 0),
            Arm(0xE25E_E001), Is(SubsNumber),   To(LR, 0xFFFF_FFFF), Flags(0b1000), Near, Both(1, 1), // subs r14, r14, #0x1
        Nzcv(0b0000), R(1, 0x8000_0000),
            Arm(0xE251_E001), Is(SubsNumber),   To(LR, 0x7FFF_FFFF), Flags(0b0011), Near, Both(1, 1), // subs r14, r1, #0x1
        Nzcv(0b0010), R(1, 0x7FFF_FFFF),
            Arm(0xE251_04FF), Is(SubsNumber),   To(0, 0x80FF_FFFF), Flags(0b1001),  Near, Both(1, 1), // subs r0, r1, #0xff000000
        Nzcv(0b0001), R(1, 0x8000_0001),
            Arm(0xE251_0102), Is(SubsNumber),   To(0, 1), Flags(0b0010),            Near, Both(1, 1), // subs r0, r1, #0x80000000
        Nzcv(0b0000), R(1, 5), R(14, 0),
            Arm(0xE051_000E), Is(SubsRegister), To(0, 5), Flags(0b0010),            Near, Both(1, 1), // subs r0, r1, r14
        Nzcv(0b1010), R(1, 1), R(14, 0),
            Arm(0xE05E_E001), Is(SubsRegister), To(LR, 0xFFFF_FFFF), Flags(0b1000), Near, Both(1, 1), // subs r14, r14, r1
        Nzcv(0b0000), R(1, 0x8000_0000), R(14, 1),
            Arm(0xE051_E00E), Is(SubsRegister), To(LR, 0x7FFF_FFFF), Flags(0b0011), Near, Both(1, 1), // subs r14, r1, r14
        Nzcv(0b0010), R(1, 0xFFFF_FFFF), R(14, 0x7FFF_FFFF),
            Arm(0xE05E_0001), Is(SubsRegister), To(0, 0x8000_0000), Flags(0b1001),  Near, Both(1, 1), // subs r0, r14, r1
        Nzcv(0b0001), R(0, 7), R(14, 9),
            Arm(0xE05E_000E), Is(SubsRegister), To(0, 0), Flags(0b0110),            Near, Both(1, 1), // subs r0, r14, r14
        // a sum has C past 32 bits, so none with 0, and V where the signs part
        Nzcv(0b0011), R(14, 5),
            Arm(0xE29E_0000), Is(AddsNumber),   To(0, 5), Flags(0b0000),            Near, Both(1, 1), // adds r0, r14, #0x0
        Nzcv(0b0010), R(0, 7), R(14, 0),
            Arm(0xE29E_0000), Is(AddsNumber),   To(0, 0), Flags(0b0100),            Near, Both(1, 1), // adds r0, r14, #0x0
        Nzcv(0b0000), R(1, 0x7FFF_FFFF),
            Arm(0xE291_E001), Is(AddsNumber),   To(LR, 0x8000_0000), Flags(0b1001), Near, Both(1, 1), // adds r14, r1, #0x1
        Nzcv(0b0000), R(14, 0xFFFF_FFFF),
            Arm(0xE29E_E001), Is(AddsNumber),   To(LR, 0), Flags(0b0110),           Near, Both(1, 1), // adds r14, r14, #0x1
        Nzcv(0b0000), R(0, 7), R(1, 0x8000_0000),
            Arm(0xE291_0102), Is(AddsNumber),   To(0, 0), Flags(0b0111),            Near, Both(1, 1), // adds r0, r1, #0x80000000
        Nzcv(0b0011), R(1, 5), R(14, 0),
            Arm(0xE091_000E), Is(AddsRegister), To(0, 5), Flags(0b0000),            Near, Both(1, 1), // adds r0, r1, r14
        Nzcv(0b0000), R(1, 0x7FFF_FFFF), R(14, 1),
            Arm(0xE091_E00E), Is(AddsRegister), To(LR, 0x8000_0000), Flags(0b1001), Near, Both(1, 1), // adds r14, r1, r14
        Nzcv(0b0000), R(14, 0x8000_0000),
            Arm(0xE09E_E00E), Is(AddsRegister), To(LR, 0), Flags(0b0111),           Near, Both(1, 1), // adds r14, r14, r14
        Nzcv(0b0001), R(1, 0xFFFF_FFFF), R(14, 2),
            Arm(0xE09E_0001), Is(AddsRegister), To(0, 1), Flags(0b0010),            Near, Both(1, 1), // adds r0, r14, r1
        // logical results leave C and V
        Nzcv(0b0111), R(1, 0x8000_00FF), R(14, 0x8000_0F00),
            Arm(0xE011_E00E), Is(AndsRegister), To(LR, 0x8000_0000), Flags(0b1011), Near, Both(1, 1), // ands r14, r1, r14
        Nzcv(0b1000), R(0, 7), R(2, 0xF0), R(14, 0xF),
            Arm(0xE01E_0002), Is(AndsRegister), To(0, 0), Flags(0b0100),            Near, Both(1, 1), // ands r0, r14, r2
        Nzcv(0b0111), R(1, 0x8000_00FF), R(14, 0xFF),
            Arm(0xE031_E00E), Is(EorsRegister), To(LR, 0x8000_0000), Flags(0b1011), Near, Both(1, 1), // eors r14, r1, r14
        Nzcv(0b1000), R(0, 7), R(2, 0xF), R(14, 0xF),
            Arm(0xE03E_0002), Is(EorsRegister), To(0, 0), Flags(0b0100),            Near, Both(1, 1), // eors r0, r14, r2
        Nzcv(0b0111), R(1, 0x8000_00FF), R(14, 0xF00),
            Arm(0xE191_E00E), Is(OrrsRegister), To(LR, 0x8000_0FFF), Flags(0b1011), Near, Both(1, 1), // orrs r14, r1, r14
        Nzcv(0b1000), R(0, 7), R(14, 0),
            Arm(0xE19E_000E), Is(OrrsRegister), To(0, 0), Flags(0b0100),            Near, Both(1, 1), // orrs r0, r14, r14
        Nzcv(0b0111), R(1, 0x8000_00FF), R(14, 0xF),
            Arm(0xE1D1_E00E), Is(BicsRegister), To(LR, 0x8000_00F0), Flags(0b1011), Near, Both(1, 1), // bics r14, r1, r14
        Nzcv(0b1000), R(0, 7), R(2, 0xFF), R(14, 0xF),
            Arm(0xE1DE_0002), Is(BicsRegister), To(0, 0), Flags(0b0100),            Near, Both(1, 1), // bics r0, r14, r2
        // a register that an amount shifts; 0 stands for LSR and ASR by 32, and for ROR by 1 through C
        Nzcv(0b0011), R(1, 0xFFFF), R(2, 0x8000_00F1),
            Arm(0xE001_E202), Is(DataShifted), To(LR, 0xF10),       Near, Both(1, 1), // and r14, r1, r2, lsl #4
        Nzcv(0b1100), R(2, 0x8000_00F1), R(14, 0xFFFF),
            Arm(0xE02E_0222), Is(DataShifted), To(0, 0x800_FFF0),   Near, Both(1, 1), // eor r0, r14, r2, lsr #4
        Nzcv(0b0101), R(1, 0x100), R(14, 0x8000_0000),
            Arm(0xE041_0FCE), Is(DataShifted), To(0, 0x101),        Near, Both(1, 1), // sub r0, r1, r14, asr #31
        Nzcv(0b1010), R(1, 1), R(14, 0xF),
            Arm(0xE061_E26E), Is(DataShifted), To(LR, 0xEFFF_FFFF), Near, Both(1, 1), // rsb r14, r1, r14, ror #4
        Nzcv(0b0110), R(14, 0x8000_0001),
            Arm(0xE08E_E02E), Is(DataShifted), To(LR, 0x8000_0001), Near, Both(1, 1), // add r14, r14, r14, lsr #32
        Nzcv(0b0110), R(1, 5), R(14, 0x8000_0000),
            Arm(0xE081_004E), Is(DataShifted), To(0, 4),            Near, Both(1, 1), // add r0, r1, r14, asr #32
        Nzcv(0b0110), R(1, 5), R(14, 2),
            Arm(0xE081_006E), Is(DataShifted), To(0, 0x8000_0006),  Near, Both(1, 1), // add r0, r1, r14, rrx
        Nzcv(0b0100), R(1, 5), R(14, 2),
            Arm(0xE081_006E), Is(DataShifted), To(0, 6),            Near, Both(1, 1), // add r0, r1, r14, rrx
        Nzcv(0b0010), R(2, 3), R(14, 5),
            Arm(0xE0AE_0082), Is(DataShifted), To(0, 0xC),          Near, Both(1, 1), // adc r0, r14, r2, lsl #1
        Nzcv(0b1101), R(2, 3), R(14, 5),
            Arm(0xE0AE_0082), Is(DataShifted), To(0, 0xB),          Near, Both(1, 1), // adc r0, r14, r2, lsl #1
        Nzcv(0b0010), R(2, 3), R(14, 5),
            Arm(0xE0CE_00A2), Is(DataShifted), To(0, 4),            Near, Both(1, 1), // sbc r0, r14, r2, lsr #1
        Nzcv(0b1101), R(2, 3), R(14, 5),
            Arm(0xE0CE_00A2), Is(DataShifted), To(0, 3),            Near, Both(1, 1), // sbc r0, r14, r2, lsr #1
        Nzcv(0b0010), R(1, 3), R(14, 5),
            Arm(0xE0E1_008E), Is(DataShifted), To(0, 7),            Near, Both(1, 1), // rsc r0, r1, r14, lsl #1
        Nzcv(0b1101), R(1, 3), R(14, 5),
            Arm(0xE0E1_008E), Is(DataShifted), To(0, 6),            Near, Both(1, 1), // rsc r0, r1, r14, lsl #1
        Nzcv(0b1001), R(2, 0xF000_0000), R(14, 0xF00),
            Arm(0xE18E_D242), Is(DataShifted), To(SP, 0xFF00_0F00), Near, Both(1, 1), // orr r13, r14, r2, asr #4
        Nzcv(0b1111), R(1, 0xFFFF_FFFF), R(14, 0xFF),
            Arm(0xE1C1_046E), Is(DataShifted), To(0, 0xFF_FFFF),    Near, Both(1, 1), // bic r0, r1, r14, ror #8
        // a register that another shifts, by its least byte: it costs 2, and 32 and more are amounts too
        Nzcv(0b0011), R(1, 0xFFFF), R(2, 0x8000_00F1), R(3, 4),
            Arm(0xE001_E312), Is(DataShiftedBy), To(LR, 0xF10),       Near, Both(2, 2), // and r14, r1, r2, lsl r3
        Nzcv(0b1100), R(2, 0x8000_00F1), R(3, 4), R(14, 0xFFFF),
            Arm(0xE02E_0332), Is(DataShiftedBy), To(0, 0x800_FFF0),   Near, Both(2, 2), // eor r0, r14, r2, lsr r3
        Nzcv(0b0101), R(1, 0x100), R(3, 0x1F), R(14, 0x8000_0000),
            Arm(0xE041_035E), Is(DataShiftedBy), To(0, 0x101),        Near, Both(2, 2), // sub r0, r1, r14, asr r3
        Nzcv(0b1010), R(1, 1), R(2, 0xF), R(14, 4),
            Arm(0xE061_0E72), Is(DataShiftedBy), To(0, 0xEFFF_FFFF),  Near, Both(2, 2), // rsb r0, r1, r2, ror r14
        Nzcv(0b0110), R(3, 0x100), R(14, 0x8000_0001),
            Arm(0xE08E_E33E), Is(DataShiftedBy), To(LR, 2),           Near, Both(2, 2), // add r14, r14, r14, lsr r3
        Nzcv(0b0110), R(1, 5), R(2, 0xFFFF_FFFF), R(14, 0x20),
            Arm(0xE081_0E12), Is(DataShiftedBy), To(0, 5),            Near, Both(2, 2), // add r0, r1, r2, lsl r14
        Nzcv(0b0110), R(1, 5), R(2, 0x8000_0000), R(14, 0x20),
            Arm(0xE081_0E52), Is(DataShiftedBy), To(0, 4),            Near, Both(2, 2), // add r0, r1, r2, asr r14
        Nzcv(0b0100), R(1, 5), R(2, 2), R(14, 0x21),
            Arm(0xE081_0E72), Is(DataShiftedBy), To(0, 6),            Near, Both(2, 2), // add r0, r1, r2, ror r14
        Nzcv(0b0110), R(1, 5), R(2, 2), R(14, 0),
            Arm(0xE081_0E72), Is(DataShiftedBy), To(0, 7),            Near, Both(2, 2), // add r0, r1, r2, ror r14
        Nzcv(0b0010), R(2, 3), R(3, 1), R(14, 5),
            Arm(0xE0AE_0312), Is(DataShiftedBy), To(0, 0xC),          Near, Both(2, 2), // adc r0, r14, r2, lsl r3
        Nzcv(0b1101), R(2, 3), R(3, 1), R(14, 5),
            Arm(0xE0AE_0312), Is(DataShiftedBy), To(0, 0xB),          Near, Both(2, 2), // adc r0, r14, r2, lsl r3
        Nzcv(0b0010), R(2, 3), R(3, 1), R(14, 5),
            Arm(0xE0CE_0332), Is(DataShiftedBy), To(0, 4),            Near, Both(2, 2), // sbc r0, r14, r2, lsr r3
        Nzcv(0b1101), R(2, 3), R(3, 1), R(14, 5),
            Arm(0xE0CE_0332), Is(DataShiftedBy), To(0, 3),            Near, Both(2, 2), // sbc r0, r14, r2, lsr r3
        Nzcv(0b0010), R(1, 3), R(3, 1), R(14, 5),
            Arm(0xE0E1_031E), Is(DataShiftedBy), To(0, 7),            Near, Both(2, 2), // rsc r0, r1, r14, lsl r3
        Nzcv(0b1101), R(1, 3), R(3, 1), R(14, 5),
            Arm(0xE0E1_031E), Is(DataShiftedBy), To(0, 6),            Near, Both(2, 2), // rsc r0, r1, r14, lsl r3
        Nzcv(0b1001), R(2, 0xF000_0000), R(3, 4), R(14, 0xF00),
            Arm(0xE18E_D352), Is(DataShiftedBy), To(SP, 0xFF00_0F00), Near, Both(2, 2), // orr r13, r14, r2, asr r3
        Nzcv(0b1111), R(1, 0xFFFF_FFFF), R(3, 8), R(14, 0xFF),
            Arm(0xE1C1_037E), Is(DataShiftedBy), To(0, 0xFF_FFFF),    Near, Both(2, 2), // bic r0, r1, r14, ror r3
    ])
}

#[test]
#[rattlefmt::skip]
fn comparisons_and_moves_are_operations_of_their_forms(rt: HostRuntime) -> Result<(), AllocError> {
    try_lines(&rt, rt.alloc(), &[
        // TST has N and Z of what is common, and C of a number that was rotated; another keeps C
        Nzcv(0b0001), R(14, 0xFFFF_FFFF),
            Arm(0xE31E_04FF), Is(TstNumber),   Flags(0b1011), Near, Both(1, 1), // tst r14, #0xff000000
        Nzcv(0b0011), R(14, 0x7FFF_FFFF),
            Arm(0xE31E_0102), Is(TstNumber),   Flags(0b0111), Near, Both(1, 1), // tst r14, #0x80000000
        Nzcv(0b0010), R(14, 0xFFFF_FFFF),
            Arm(0xE31E_0F01), Is(TstNumber),   Flags(0b0000), Near, Both(1, 1), // tst r14, #0x4
        Nzcv(0b1111), R(14, 0xF0),
            Arm(0xE31E_000F), Is(TstNumber),   Flags(0b0111), Near, Both(1, 1), // tst r14, #0xf
        Nzcv(0b0100), R(14, 0xFF),
            Arm(0xE31E_000F), Is(TstNumber),   Flags(0b0000), Near, Both(1, 1), // tst r14, #0xf
        Nzcv(0b0111), R(1, 0x8000_0001), R(14, 0xF000_0000),
            Arm(0xE111_000E), Is(TstRegister), Flags(0b1011), Near, Both(1, 1), // tst r1, r14
        Nzcv(0b1000), R(2, 0xF0), R(14, 0xF),
            Arm(0xE11E_0002), Is(TstRegister), Flags(0b0100), Near, Both(1, 1), // tst r14, r2
        // CMP is a difference: C where nothing is borrowed, as with 0
        Nzcv(0b0000), R(14, 5),                    Arm(0xE35E_0000), Is(CmpNumber),   Flags(0b0010), Near, Both(1, 1), // cmp r14, #0x0
        Nzcv(0b0000), R(14, 0),                    Arm(0xE35E_0000), Is(CmpNumber),   Flags(0b0110), Near, Both(1, 1), // cmp r14, #0x0
        Nzcv(0b0010), R(14, 0),                    Arm(0xE35E_0001), Is(CmpNumber),   Flags(0b1000), Near, Both(1, 1), // cmp r14, #0x1
        Nzcv(0b0000), R(14, 0x8000_0000),          Arm(0xE35E_0001), Is(CmpNumber),   Flags(0b0011), Near, Both(1, 1), // cmp r14, #0x1
        Nzcv(0b0110), R(14, 0x7FFF_FFFF),          Arm(0xE35E_04FF), Is(CmpNumber),   Flags(0b1001), Near, Both(1, 1), // cmp r14, #0xff000000
        Nzcv(0b0101), R(14, 0x80),                 Arm(0xE35E_0080), Is(CmpNumber),   Flags(0b0110), Near, Both(1, 1), // cmp r14, #0x80
        Nzcv(0b0000), R(1, 5), R(14, 0),           Arm(0xE151_000E), Is(CmpRegister), Flags(0b0010), Near, Both(1, 1), // cmp r1, r14
        Nzcv(0b0000), R(1, 0), R(14, 0),           Arm(0xE15E_0001), Is(CmpRegister), Flags(0b0110), Near, Both(1, 1), // cmp r14, r1
        Nzcv(0b0010), R(1, 1), R(14, 0),           Arm(0xE15E_0001), Is(CmpRegister), Flags(0b1000), Near, Both(1, 1), // cmp r14, r1
        Nzcv(0b0000), R(1, 0x8000_0000), R(14, 1), Arm(0xE151_000E), Is(CmpRegister), Flags(0b0011), Near, Both(1, 1), // cmp r1, r14
        Nzcv(0b0110), R(1, 0x8000_0000), R(14, 0), Arm(0xE15E_0001), Is(CmpRegister), Flags(0b1001), Near, Both(1, 1), // cmp r14, r1
        // CMN is a sum: no C with 0
        Nzcv(0b0010), R(14, 5),           Arm(0xE37E_0000), Is(CmnNumber), Flags(0b0000), Near, Both(1, 1), // cmn r14, #0x0
        Nzcv(0b1011), R(14, 0),           Arm(0xE37E_0000), Is(CmnNumber), Flags(0b0100), Near, Both(1, 1), // cmn r14, #0x0
        Nzcv(0b0000), R(14, 0xFFFF_FFFF), Arm(0xE37E_0001), Is(CmnNumber), Flags(0b0110), Near, Both(1, 1), // cmn r14, #0x1
        Nzcv(0b0000), R(14, 0x7FFF_FFFF), Arm(0xE37E_0001), Is(CmnNumber), Flags(0b1001), Near, Both(1, 1), // cmn r14, #0x1
        Nzcv(0b0000), R(14, 0x8000_0000), Arm(0xE37E_0102), Is(CmnNumber), Flags(0b0111), Near, Both(1, 1), // cmn r14, #0x80000000
        // moves of a number
        Nzcv(0b0110),           Arm(0xE3A0_E4FF), Is(MovNumber),  To(LR, 0xFF00_0000),                Near, Both(1, 1), // mov r14, #0xff000000
        Nzcv(0b1001),           Arm(0xE3E0_E0F0), Is(MovNumber),  To(LR, 0xFFFF_FF0F),                Near, Both(1, 1), // mvn r14, #0xf0
        Nzcv(0b0101),           Arm(0xE3B0_E4FF), Is(MovsNumber), To(LR, 0xFF00_0000), Flags(0b1011), Near, Both(1, 1), // movs r14, #0xff000000
        Nzcv(0b1011), R(14, 7), Arm(0xE3B0_E000), Is(MovsNumber), To(LR, 0), Flags(0b0111),           Near, Both(1, 1), // movs r14, #0x0
        Nzcv(0b1011),           Arm(0xE3B0_EF01), Is(MovsNumber), To(LR, 4), Flags(0b0001),           Near, Both(1, 1), // movs r14, #0x4
        Nzcv(0b1100),           Arm(0xE3B0_00FF), Is(MovsNumber), To(0, 0xFF), Flags(0b0000),         Near, Both(1, 1), // movs r0, #0xff
        // of a register that an amount shifts
        Nzcv(0b0110), R(14, 0x8000_0001),
            Arm(0xE1A0_000E), Is(MovLsl),  To(0, 0x8000_0001),                 Near, Both(1, 1), // mov r0, r14
        Nzcv(0b1001), R(1, 0x8000_0001),
            Arm(0xE1A0_E201), Is(MovLsl),  To(LR, 0x10),                       Near, Both(1, 1), // mov r14, r1, lsl #4
        Nzcv(0b0110), R(14, 0x8000_0001),
            Arm(0xE1A0_E22E), Is(MovLsr),  To(LR, 0x800_0000),                 Near, Both(1, 1), // mov r14, r14, lsr #4
        Nzcv(0b1001), R(0, 7), R(14, 0x8000_0001),
            Arm(0xE1A0_002E), Is(MovLsr),  To(0, 0),                           Near, Both(1, 1), // mov r0, r14, lsr #32
        Nzcv(0b0110), R(1, 0x8000_0010),
            Arm(0xE1A0_E241), Is(MovAsr),  To(LR, 0xF800_0001),                Near, Both(1, 1), // mov r14, r1, asr #4
        Nzcv(0b1001), R(14, 0x8000_0000),
            Arm(0xE1A0_004E), Is(MovAsr),  To(0, 0xFFFF_FFFF),                 Near, Both(1, 1), // mov r0, r14, asr #32
        Nzcv(0b0110), R(1, 0x8000_0012),
            Arm(0xE1A0_E261), Is(MovRor),  To(LR, 0x2800_0001),                Near, Both(1, 1), // mov r14, r1, ror #4
        Nzcv(0b0010), R(14, 2),
            Arm(0xE1A0_006E), Is(MovRor),  To(0, 0x8000_0001),                 Near, Both(1, 1), // mov r0, r14, rrx
        Nzcv(0b1101), R(14, 2),
            Arm(0xE1A0_006E), Is(MovRor),  To(0, 1),                           Near, Both(1, 1), // mov r0, r14, rrx
        Nzcv(0b0111), R(14, 0x8000_0001),
            Arm(0xE1B0_000E), Is(MovsLsl), To(0, 0x8000_0001), Flags(0b1011),  Near, Both(1, 1), // movs r0, r14
        Nzcv(0b1000), R(1, 0), R(14, 7),
            Arm(0xE1B0_E001), Is(MovsLsl), To(LR, 0), Flags(0b0100),           Near, Both(1, 1), // movs r14, r1
        Nzcv(0b0101), R(1, 0x1800_0001),
            Arm(0xE1B0_E201), Is(MovsLsl), To(LR, 0x8000_0010), Flags(0b1011), Near, Both(1, 1), // movs r14, r1, lsl #4
        Nzcv(0b0010), R(14, 0x4000_0000),
            Arm(0xE1B0_008E), Is(MovsLsl), To(0, 0x8000_0000), Flags(0b1000),  Near, Both(1, 1), // movs r0, r14, lsl #1
        Nzcv(0b0000), R(0, 7), R(14, 0x8000_0000),
            Arm(0xE1B0_008E), Is(MovsLsl), To(0, 0), Flags(0b0110),            Near, Both(1, 1), // movs r0, r14, lsl #1
        Nzcv(0b0001), R(14, 0x8000_0008),
            Arm(0xE1B0_E22E), Is(MovsLsr), To(LR, 0x800_0000), Flags(0b0011),  Near, Both(1, 1), // movs r14, r14, lsr #4
        Nzcv(0b1010), R(14, 0x17),
            Arm(0xE1B0_022E), Is(MovsLsr), To(0, 1), Flags(0b0000),            Near, Both(1, 1), // movs r0, r14, lsr #4
        Nzcv(0b1000), R(0, 7), R(14, 0x8000_0001),
            Arm(0xE1B0_002E), Is(MovsLsr), To(0, 0), Flags(0b0110),            Near, Both(1, 1), // movs r0, r14, lsr #32
        Nzcv(0b0010), R(1, 0x7FFF_FFFF), R(14, 7),
            Arm(0xE1B0_E021), Is(MovsLsr), To(LR, 0), Flags(0b0100),           Near, Both(1, 1), // movs r14, r1, lsr #32
        Nzcv(0b0001), R(1, 0x8000_0008),
            Arm(0xE1B0_E241), Is(MovsAsr), To(LR, 0xF800_0000), Flags(0b1011), Near, Both(1, 1), // movs r14, r1, asr #4
        Nzcv(0b0010), R(14, 0x8000_0007),
            Arm(0xE1B0_024E), Is(MovsAsr), To(0, 0xF800_0000), Flags(0b1000),  Near, Both(1, 1), // movs r0, r14, asr #4
        Nzcv(0b0100), R(14, 0x8000_0000),
            Arm(0xE1B0_004E), Is(MovsAsr), To(0, 0xFFFF_FFFF), Flags(0b1010),  Near, Both(1, 1), // movs r0, r14, asr #32
        Nzcv(0b1010), R(0, 7), R(14, 0x7FFF_FFFF),
            Arm(0xE1B0_004E), Is(MovsAsr), To(0, 0), Flags(0b0100),            Near, Both(1, 1), // movs r0, r14, asr #32
        // what is rarer is done as it is
        Nzcv(0b0000), R(14, 8),
            Arm(0xE1B0_026E), Is(Plain), To(0, 0x8000_0000), Flags(0b1010),  Near, Both(1, 1), // movs r0, r14, ror #4
        Nzcv(0b0010),
            Arm(0xE3F0_E4FF), Is(Plain), To(LR, 0xFF_FFFF), Flags(0b0010),   Near, Both(1, 1), // mvns r14, #0xff000000
        Nzcv(0b0110), R(14, 0xF0),
            Arm(0xE1E0_000E), Is(Plain), To(0, 0xFFFF_FF0F),                 Near, Both(1, 1), // mvn r0, r14
        Nzcv(0b0001), R(14, 0xFFFF_FFFF),
            Arm(0xE21E_04FF), Is(Plain), To(0, 0xFF00_0000), Flags(0b1011),  Near, Both(1, 1), // ands r0, r14, #0xff000000
        Nzcv(0b0010), R(14, 5),
            Arm(0xE2AE_0001), Is(Plain), To(0, 7),                           Near, Both(1, 1), // adc r0, r14, #0x1
        Nzcv(0b0010), R(1, 0x7FFF_FFFF), R(14, 0),
            Arm(0xE0B1_E00E), Is(Plain), To(LR, 0x8000_0000), Flags(0b1001), Near, Both(1, 1), // adcs r14, r1, r14
        Nzcv(0b0000), R(14, 5),
            Arm(0xE2DE_0000), Is(Plain), To(0, 4), Flags(0b0010),            Near, Both(1, 1), // sbcs r0, r14, #0x0
        Nzcv(0b0000), R(0, 7), R(14, 0),
            Arm(0xE27E_0000), Is(Plain), To(0, 0), Flags(0b0110),            Near, Both(1, 1), // rsbs r0, r14, #0x0
        Nzcv(0b0000), R(14, 5),
            Arm(0xE27E_0000), Is(Plain), To(0, 0xFFFF_FFFB), Flags(0b1000),  Near, Both(1, 1), // rsbs r0, r14, #0x0
        Nzcv(0b0000), R(1, 0), R(14, 0),
            Arm(0xE0F1_E00E), Is(Plain), To(LR, 0xFFFF_FFFF), Flags(0b1000), Near, Both(1, 1), // rscs r14, r1, r14
        Nzcv(0b0011), R(14, 0xF0),
            Arm(0xE33E_00F0), Is(Plain), Flags(0b0111),                      Near, Both(1, 1), // teq r14, #0xf0
        Nzcv(0b0011), R(2, 0x8000_0000), R(14, 0),
            Arm(0xE13E_0002), Is(Plain), Flags(0b1011),                      Near, Both(1, 1), // teq r14, r2
        Nzcv(0b0011), R(2, 0), R(14, 5),
            Arm(0xE17E_0002), Is(Plain), Flags(0b0000),                      Near, Both(1, 1), // cmn r14, r2
        Nzcv(0b0000), R(2, 0x8000_0000), R(14, 0x8000_0000),
            Arm(0xE09E_0082), Is(Plain), To(0, 0x8000_0000), Flags(0b1000),  Near, Both(1, 1), // adds r0, r14, r2, lsl #1
        Nzcv(0b0000), R(2, 0x8000_0001), R(14, 0xFF),
            Arm(0xE01E_0082), Is(Plain), To(0, 2), Flags(0b0010),            Near, Both(1, 1), // ands r0, r14, r2, lsl #1
        Nzcv(0b0000), R(0, 7), R(2, 5), R(3, 0), R(14, 5),
            Arm(0xE05E_0312), Is(Plain), To(0, 0), Flags(0b0110),            Near, Both(2, 2), // subs r0, r14, r2, lsl r3
        Nzcv(0b0010), R(0, 7), R(2, 1), R(3, 0x20), R(14, 5),
            Arm(0xE01E_0332), Is(Plain), To(0, 0), Flags(0b0100),            Near, Both(2, 2), // ands r0, r14, r2, lsr r3
        Nzcv(0b0000), R(2, 1), R(3, 0x20), R(14, 5),
            Arm(0xE15E_0312), Is(Plain), Flags(0b0010),                      Near, Both(2, 2), // cmp r14, r2, lsl r3
        Nzcv(0b0000), R(2, 8), R(14, 5),
            Arm(0xE15E_0222), Is(Plain), Flags(0b0010),                      Near, Both(1, 1), // cmp r14, r2, lsr #4
        Nzcv(0b0000), R(2, 0x8000_0000), R(3, 1), R(14, 5),
            Arm(0xE11E_0312), Is(Plain), Flags(0b0110),                      Near, Both(2, 2), // tst r14, r2, lsl r3
        Nzcv(0b0110), R(2, 0xFF), R(3, 0x21),
            Arm(0xE1A0_E372), Is(Plain), To(LR, 0x8000_007F),                Near, Both(2, 2), // mov r14, r2, ror r3
        Nzcv(0b0001), R(2, 0x8000_0000), R(3, 0xFF),
            Arm(0xE1B0_E352), Is(Plain), To(LR, 0xFFFF_FFFF), Flags(0b1011), Near, Both(2, 2), // movs r14, r2, asr r3
    ])
}

#[test]
#[rattlefmt::skip]
fn products_branches_and_accesses_are_operations_of_their_forms(rt: HostRuntime) -> Result<(), AllocError> {
    try_lines(&rt, rt.alloc(), &[
        // products leave the flags, or with S set N and Z; C and V stay
        Nzcv(0b1001), R(1, 3), R(14, 5),
            Arm(0xE000_0E91), Is(Mul), To(0, 15), Near, Both(4, 2), // mul r0, r1, r14
        Nzcv(0b0110), R(14, 0x1_0001),
            Arm(0xE00E_0E9E), Is(Mul), To(LR, 0x2_0001), Near, Both(4, 2), // mul r14, r14, r14
        R(1, 2),
            Arm(0xE000_019F), Is(Mul), To(0, 0x210), Near, Both(4, 2), // mul r0, r15, r1
        Nzcv(0b1001), R(1, 3), R(2, 5), R(14, 7),
            Arm(0xE02E_E291), Is(Mla), To(LR, 22), Near, Both(4, 2), // mla r14, r1, r2, r14
        Nzcv(0b0110), R(1, 3), R(2, 5), R(14, 7),
            Arm(0xE020_219E), Is(Mla), To(0, 26), Near, Both(4, 2), // mla r0, r14, r1, r2
        Nzcv(0b0111), R(1, 0x8000_0000), R(2, 1),
            Arm(0xE01E_0291), Is(Plain), To(LR, 0x8000_0000), Flags(0b1011), Near, Both(4, 2), // muls r14, r1, r2
        Nzcv(0b1011), R(1, 1), R(2, 1), R(14, !0),
            Arm(0xE030_E291), Is(Plain), To(0, 0), Flags(0b0111), Near, Both(4, 2), // mlas r0, r1, r2, r14
        Nzcv(0b1001), R(1, !0), R(2, 2),
            Arm(0xE08E_0291), Is(Plain), To(0, 0xFFFF_FFFE), To(LR, 1), Near, Both(5, 3), // umull r0, r14, r1, r2
        Nzcv(0b0110), R(1, !0), R(2, 2), R(14, 7),
            Arm(0xE0CE_0291), Is(Plain), To(0, 0xFFFF_FFFE), To(LR, !0), Near, Both(5, 3), // smull r0, r14, r1, r2

        // branches: r15 reads as 108h, in Thumb state as 104h
        R(14, 7),     Arm(0xEA00_0001), Is(Branch), Pc(0x10C),                                Near, Both(3, 3), // b
        R(14, 7),     Arm(0xEBFF_FFFE), Is(Branch), Pc(0x100), To(LR, 0x104),                 Near, Both(3, 3), // bl
        Nzcv(0b0100), Arm(0x1B00_0001), Is(Branch),                                           Near, Both(1, 1), // blne
        Nzcv(0b0100), Arm(0x0A00_0001), Is(Branch), Pc(0x10C),                                Near, Both(3, 3), // beq
        R(14, 7),     Thumb(0xE7FE),    Is(Branch), Pc(0x100),                                Near, Both(3, 3), // b
                      Thumb(0xD1FE),    Is(Branch), Pc(0x100),                                Near, Both(3, 3), // bne
                      Thumb(0xD0FE),    Is(Branch),                                           Near, Both(1, 1), // beq
        R(14, 0x201), Arm(0xE12F_FF1E), Is(Exchange), Pc(0x200), To(CPSR, 0x3F),              Near, Both(3, 3), // bx r14
        R(14, 0x204), Thumb(0x4770),    Is(Exchange), Pc(0x204), To(CPSR, 0x1F),              Near, Both(3, 3), // bx r14
        At(0x102),    Thumb(0xA001),    Is(Plain),  To(0, 0x108),                             Near, Both(1, 1), // add r0, r15, #0x4
        R(14, 7),     Thumb(0xF7FF),    Is(LinkPrefix), To(LR, 0xFFFF_F104),                  Near, Both(1, 1), // blh #0x7ff
        R(14, 0x300), Thumb(0xF802),    Is(LinkSuffix), To(LR, 0x103), Pc(0x304),             Near, Both(3, 3), // bll #0x2

        // loads and stores at the sum of a register and a number; the word at 2000060h is 87654321h, and the next is 9
        R(14, 0x200_0060),
            Arm(0xE59E_0004), Is(LdrNumber), To(0, 9), Near, Both(3, 2), // ldr r0, [r14, #0x4]
        R(1, 0x200_0060), R(14, 7),
            Arm(0xE591_E000), Is(LdrNumber), To(LR, 0x8765_4321), Near, Both(3, 2), // ldr r14, [r1]
        R(14, 0x200_0060),
            Arm(0xE59E_E001), Is(LdrNumber), To(LR, 0x2187_6543), Near, Both(3, 2), // ldr r14, [r14, #0x1]
        R(14, 0x200_0060),
            Arm(0xE5DE_0003), Is(LdrbNumber), To(0, 0x87), Near, Both(3, 2), // ldrb r0, [r14, #0x3]
        R(1, 0x200_0060), R(14, 0x1234_5678),
            Arm(0xE581_E007), Is(StrNumber), Mem(0x200_0064, 0x1234_5678), Near, Both(2, 1), // str r14, [r1, #0x7]
        R(1, 0x200_0060), R(14, 0x1234_5678),
            Arm(0xE5C1_E001), Is(StrbNumber), Mem(0x200_0060, 0x8765_7821), Near, Both(2, 1), // strb r14, [r1, #0x1]
        R(14, 0x200_0060),
            Arm(0xE1DE_00B2), Is(LdrhNumber), To(0, 0x8765), Near, Both(3, 2), // ldrh r0, [r14, #0x2]
        R(14, 0x200_0060),
            Arm(0xE1DE_00B1), Is(LdrhNumber), To7(0, 0x2100_0043), To9(0, 0x4321), Near, Both(3, 2), // ldrh r0, [r14, #0x1]
        R(14, 0x200_0060),
            Arm(0xE1DE_00D3), Is(AccessNumber), To(0, 0xFFFF_FF87), Near, Both(3, 2), // ldrsb r0, [r14, #0x3]
        R(14, 0x200_0060),
            Arm(0xE1DE_00F2), Is(AccessNumber), To(0, 0xFFFF_8765), Near, Both(3, 2), // ldrsh r0, [r14, #0x2]
        R(14, 0x200_0060),
            Arm(0xE1DE_00F3), Is(AccessNumber), To7(0, 0xFFFF_FF87), To9(0, 0xFFFF_8765), Near, Both(3, 2), // ldrsh r0, [r14, #0x3]
        R(1, 0x200_0060), R(14, 0x1234_5678),
            Arm(0xE1C1_E0B3), Is(StrhNumber), Mem(0x200_0060, 0x5678_4321), Near, Both(2, 1), // strh r14, [r1, #0x3]
        R(14, 0x200_0060),
            Arm(0x159E_0004), Is(LdrNumber), To(0, 9), Near, Both(3, 2), // ldrne r0, [r14, #0x4]
        Nzcv(0b0100), R(14, 0x200_0060),
            Arm(0x159E_0004), Is(LdrNumber), Near, Both(1, 1), // ldrne r0, [r14, #0x4]
        // and of two registers
        R(2, 4), R(14, 0x200_0060),
            Arm(0xE79E_0002), Is(LdrRegister), To(0, 9), Near, Both(3, 2), // ldr r0, [r14, r2]
        R(1, 0x200_0060), R(14, 4),
            Arm(0xE791_000E), Is(LdrRegister), To(0, 9), Near, Both(3, 2), // ldr r0, [r1, r14]
        R(1, 0x200_0060), R(2, 3), R(14, 7),
            Arm(0xE7D1_E002), Is(LdrbRegister), To(LR, 0x87), Near, Both(3, 2), // ldrb r14, [r1, r2]
        R(1, 0x200_0060), R(2, 4), R(14, 0x1234_5678),
            Arm(0xE781_E002), Is(StrRegister), Mem(0x200_0064, 0x1234_5678), Near, Both(2, 1), // str r14, [r1, r2]
        R(0, 0x78), R(1, 2), R(14, 0x200_0060),
            Arm(0xE7CE_0001), Is(StrbRegister), Mem(0x200_0060, 0x8778_4321), Near, Both(2, 1), // strb r0, [r14, r1]
        R(1, 0x200_0060), R(14, 2),
            Arm(0xE191_00BE), Is(LdrhRegister), To(0, 0x8765), Near, Both(3, 2), // ldrh r0, [r1, r14]
        R(0, 0x5678), R(2, 2), R(14, 0x200_0060),
            Arm(0xE18E_00B2), Is(StrhRegister), Mem(0x200_0060, 0x5678_4321), Near, Both(2, 1), // strh r0, [r14, r2]
        R(1, 0x200_0060), R(2, 3), R(14, 7),
            Arm(0xE191_E0D2), Is(AccessRegister), To(LR, 0xFFFF_FF87), Near, Both(3, 2), // ldrsb r14, [r1, r2]
        R(1, 0x200_0060), R(2, 2), R(14, 7),
            Arm(0xE191_E0F2), Is(AccessRegister), To(LR, 0xFFFF_8765), Near, Both(3, 2), // ldrsh r14, [r1, r2]

        // others with a number
        R(14, 0x200_0064),
            Arm(0xE51E_0004), Is(TransferNumber), To(0, 0x8765_4321), Near, Both(3, 2), // ldr r0, [r14, #-0x4]
        R(1, 0x200_0060), R(14, 0x1234_5678),
            Arm(0xE481_E004), Is(TransferNumber), Mem(0x200_0060, 0x1234_5678), To(1, 0x200_0064), Near, Both(2, 1), // str r14, [r1], #0x4
        R(14, 0x200_0062),
            Arm(0xE5FE_0001), Is(TransferNumber), To(0, 0x87), To(LR, 0x200_0063), Near, Both(3, 2), // ldrb r0, [r14, #0x1]!
        R(0, 0x5678), R(14, 0x200_0062),
            Arm(0xE04E_00B2), Is(TransferNumber), Mem(0x200_0060, 0x5678_4321), To(LR, 0x200_0060), Near, Both(2, 1), // strh r0, [r14], #-0x2
        R(1, 0x200_0064), R(14, 7),
            Arm(0xE171_E0F2), Is(TransferNumber), To(LR, 0xFFFF_8765), To(1, 0x200_0062), Near, Both(3, 2), // ldrsh r14, [r1, #-0x2]!
        R(14, 0x200_0064),
            Arm(0xE49E_E004), Is(TransferNumber), To(LR, 9), Near, Both(3, 2), // ldr r14, [r14], #0x4
        R(14, 0x200_0060),
            Arm(0xE5AE_E004), Is(TransferNumber), Mem(0x200_0064, 0x200_0060), To(LR, 0x200_0064), Near, Both(2, 1), // str r14, [r14, #0x4]!
        At(0x200_0100),
            Arm(0xE59F_0004), Is(TransferNumber), To(0, 0x010C_C3C3), Near, Both(3, 2), // ldr r0, [r15, #0x4]
        At(0x200_0100), R(14, 0x200_0060),
            Arm(0xE58E_F004), Is(TransferNumber), Mem(0x200_0064, 0x200_010C), Near, Both(2, 1), // str r15, [r14, #0x4]
        // with a register
        R(2, 4), R(14, 0x200_0064),
            Arm(0xE71E_0002), Is(TransferRegister), To(0, 0x8765_4321), Near, Both(3, 2), // ldr r0, [r14, -r2]
        R(1, 0x200_0060), R(14, 4),
            Arm(0xE691_000E), Is(TransferRegister), To(0, 0x8765_4321), To(1, 0x200_0064), Near, Both(3, 2), // ldr r0, [r1], r14
        R(0, 0x1234_5678), R(2, 4), R(14, 0x200_0060),
            Arm(0xE7AE_0002), Is(TransferRegister), Mem(0x200_0064, 0x1234_5678), To(LR, 0x200_0064), Near, Both(2, 1), // str r0, [r14, r2]!
        R(1, 0x200_0062), R(2, 2), R(14, 0x5678),
            Arm(0xE001_E0B2), Is(TransferRegister), Mem(0x200_0060, 0x5678_4321), To(1, 0x200_0060), Near, Both(2, 1), // strh r14, [r1], -r2
        R(2, 3), R(14, 0x200_0060),
            Arm(0xE1BE_00D2), Is(TransferRegister), To(0, 0xFFFF_FF87), To(LR, 0x200_0063), Near, Both(3, 2), // ldrsb r0, [r14, r2]!
        // with a register that an amount shifts, which is as for other operands
        R(2, 1), R(14, 0x200_0060),
            Arm(0xE79E_0102), Is(TransferShifted), To(0, 9), Near, Both(3, 2), // ldr r0, [r14, r2, lsl #2]
        R(1, 0x200_0064), R(14, 0x40),
            Arm(0xE711_022E), Is(TransferShifted), To(0, 0x8765_4321), Near, Both(3, 2), // ldr r0, [r1, -r14, lsr #4]
        R(1, 0x200_0060), R(2, 0xFFFF_FFF8), R(14, 0x1234_5678),
            Arm(0xE681_E0C2), Is(TransferShifted), Mem(0x200_0060, 0x1234_5678), To(1, 0x200_005C), Near, Both(2, 1), // str r14, [r1], r2, asr #1
        R(2, 0x30), R(14, 0x200_0060),
            Arm(0xE7FE_0262), Is(TransferShifted), To(0, 0x87), To(LR, 0x200_0063), Near, Both(3, 2), // ldrb r0, [r14, r2, ror #4]!
        R(1, 0x200_0060), R(14, 0xFFFF_FFFF),
            Arm(0xE791_002E), Is(TransferShifted), To(0, 0x8765_4321), Near, Both(3, 2), // ldr r0, [r1, r14, lsr #32]
        R(1, 0x200_0065), R(14, 0x8000_0000),
            Arm(0xE791_004E), Is(TransferShifted), To(0, 9), Near, Both(3, 2), // ldr r0, [r1, r14, asr #32]
        Nzcv(0b0010), R(1, 0x8200_0060), R(14, 8),
            Arm(0xE791_006E), Is(TransferShifted), To(0, 9), Near, Both(3, 2), // ldr r0, [r1, r14, rrx]
        R(1, 0x200_0060), R(14, 8),
            Arm(0xE791_006E), Is(TransferShifted), To(0, 9), Near, Both(3, 2), // ldr r0, [r1, r14, rrx]
        At(0x200_0102),
            Thumb(0x4802), Is(Literal), To(0, 0x010C_C3C3), Near, Both(3, 2), // ldr r0, [r15, #0x8]

        // and what is no operation
        Nzcv(0b1001),
            Arm(0xE10F_E000), Is(Form::Other), To(LR, 0x9000_001F), Other, Both(1, 1), // mrs r14, cpsr
        R(14, 0xF000_0000),
            Arm(0xE128_F00E), Is(Form::Other), Flags(0b1111), Other, Both(1, 1), // msr cpsr_f, r14
        R(1, 0x200_0060), R(14, 7),
            Arm(0xE101_009E), Is(Form::Other), To(0, 0x8765_4321), Mem(0x200_0060, 7), Other, Both(4, 4), // swp r0, r14, [r1]
        R(14, 0x200_0060),
            Arm(0xE8BE_0003), Is(Form::Multiple), To(0, 0x8765_4321), To(1, 9), To(LR, 0x200_0068), List, Both(4, 3), // ldmia
        R(14, 0x200_0060), R(1, 5),
            Arm(0xE88E_0002), Is(Form::Multiple), Mem(0x200_0060, 5), List, Both(2, 1), // stmia r14, {r1}
    ])
}
