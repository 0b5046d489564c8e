//! Thumb's table.

use super::{AT, lists_halves};
use ds_base::Arch;

#[test]
fn data_processing(rt: HostRuntime) {
    let rows = [
        (0x1840, "add r0, r0, r1"),
        (0x1A51, "sub r1, r2, r1"),
        (0x1C51, "add r1, r2, #0x1"),
        (0x1E51, "sub r1, r2, #0x1"),
        (0x0811, "lsr r1, r2, #0x20"),
        (0x1011, "asr r1, r2, #0x20"),
        (0x17C8, "asr r0, r1, #0x1f"),
        (0x0051, "lsl r1, r2, #0x1"),
        (0x2105, "mov r1, #0x5"),
        (0x2AFF, "cmp r2, #0xff"),
        (0x3105, "add r1, #0x5"),
        (0x3905, "sub r1, #0x5"),
        (0x4011, "and r1, r2"),
        (0x4051, "eor r1, r2"),
        (0x4091, "lsl r1, r2"),
        (0x40D1, "lsr r1, r2"),
        (0x4111, "asr r1, r2"),
        (0x4151, "adc r1, r2"),
        (0x4191, "sbc r1, r2"),
        (0x41D1, "ror r1, r2"),
        (0x4211, "tst r1, r2"),
        (0x4251, "neg r1, r2"),
        (0x4291, "cmp r1, r2"),
        (0x42D1, "cmn r1, r2"),
        (0x4311, "orr r1, r2"),
        (0x4351, "mul r1, r2"),
        (0x4391, "bic r1, r2"),
        (0x43D1, "mvn r1, r2"),
        (0x4770, "bx r14"),
        (0x47A0, "blx r4"),
        (0x46C0, "movh r8, r8"),
        (0x4495, "addh r13, r2"),
        (0x45F1, "cmph r9, r14"),
        (0xA102, "add r1, r15, #0x8"),
        (0xA902, "add r1, r13, #0x8"),
        (0xB002, "add r13, #0x8"),
        (0xB082, "sub r13, #0x8"),
    ];
    lists_halves(&rt, Arch::V5, AT, &rows);
}

#[test]
fn transfers(rt: HostRuntime) {
    let rows = [
        (0x4905, "ldr r1, [r15, #0x14]"),
        (0x50D1, "str r1, [r2, r3]"),
        (0x52D1, "strh r1, [r2, r3]"),
        (0x54D1, "strb r1, [r2, r3]"),
        (0x56D1, "ldrsb r1, [r2, r3]"),
        (0x58D1, "ldr r1, [r2, r3]"),
        (0x5AD1, "ldrh r1, [r2, r3]"),
        (0x5CD1, "ldrb r1, [r2, r3]"),
        (0x5ED1, "ldrsh r1, [r2, r3]"),
        (0x6051, "str r1, [r2, #0x4]"),
        (0x6851, "ldr r1, [r2, #0x4]"),
        (0x7051, "strb r1, [r2, #0x1]"),
        (0x7FD1, "ldrb r1, [r2, #0x1f]"),
        (0x8051, "strh r1, [r2, #0x2]"),
        (0x8851, "ldrh r1, [r2, #0x2]"),
        (0x9101, "str r1, [r13, #0x4]"),
        (0x9901, "ldr r1, [r13, #0x4]"),
        (0xB570, "push {r4,r5,r6,r14}"),
        (0xBD01, "pop {r0,r15}"),
        (0xB400, "push {}"),
        (0xB5FF, "push {r0,r1,r2,r3,r4,r5,r6,r7,r14}"),
        (0xBDFF, "pop {r0,r1,r2,r3,r4,r5,r6,r7,r15}"),
        (0xC906, "ldmia r1!, {r1,r2}"),
        (0xC006, "stmia r0!, {r1,r2}"),
    ];
    lists_halves(&rt, Arch::V4, AT, &rows);
}

#[test]
fn branches_and_halves_that_are_not_canonical(rt: HostRuntime) {
    let five = [
        (0xBE12, "bkpt 0x12"),
        (0xD0FE, "beq 0x2000000"),
        (0xD1FE, "bne 0x2000000"),
        (0xD2FE, "bcs 0x2000000"),
        (0xD3FE, "bcc 0x2000000"),
        (0xD4FE, "bmi 0x2000000"),
        (0xD5FE, "bpl 0x2000000"),
        (0xD6FE, "bvs 0x2000000"),
        (0xD7FE, "bvc 0x2000000"),
        (0xD8FE, "bhi 0x2000000"),
        (0xD9FE, "bls 0x2000000"),
        (0xDAFE, "bge 0x2000000"),
        (0xDBFE, "blt 0x2000000"),
        (0xDCFE, "bgt 0x2000000"),
        (0xDDFE, "ble 0x2000000"),
        (0xD07F, "beq 0x2000102"),
        (0xD080, "beq 0x1ffff04"),
        (0xDF05, "swi 0x5"),
        (0xE7FE, "b 0x2000000"),
        (0xE3FF, "b 0x2000802"),
        (0xE400, "b 0x1fff804"),
        (0xE802, "blxl #0x2"),
        (0xF7FF, "blh #0x7ff"),
        (0xF801, "bll #0x1"),
        (0x4771, ".half 0x4771"),
        (0xDE00, ".half 0xde00"),
        (0xE801, ".half 0xe801"),
    ];
    lists_halves(&rt, Arch::V5, AT, &five);
    let four = [
        (0x47A0, ".half 0x47a0"),
        (0xBE12, ".half 0xbe12"),
        (0xE802, ".half 0xe802"),
    ];
    lists_halves(&rt, Arch::V4, AT, &four);
    let at_the_end = [(0xE7FE, "b 0xfffffffe"), (0xE000, "b 0x2")];
    lists_halves(&rt, Arch::V4, 0xFFFF_FFFE, &at_the_end);
}
