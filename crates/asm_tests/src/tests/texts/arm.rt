//! ARM's tables.

use super::{AT, lists_words};
use ds_base::Arch;

#[test]
fn registers_and_multiplies(rt: HostRuntime) {
    let rows = [
        (0xE12F_FF1E, "bx r14"),
        (0x012F_FF33, "blxeq r3"),
        (0xE121_2374, "bkpt 0x1234"),
        (0xE16F_1F12, "clz r1, r2"),
        (0xE102_0051, "qadd r0, r1, r2"),
        (0xE122_0051, "qsub r0, r1, r2"),
        (0xE142_0051, "qdadd r0, r1, r2"),
        (0xE162_0051, "qdsub r0, r1, r2"),
        (0xE101_4382, "smlabb r1, r2, r3, r4"),
        (0xE101_43C2, "smlabt r1, r2, r3, r4"),
        (0xE101_43A2, "smlatb r1, r2, r3, r4"),
        (0x110E_BCED, "smlattne r14, r13, r12, r11"),
        (0xE121_4382, "smlawb r1, r2, r3, r4"),
        (0xE121_43C2, "smlawt r1, r2, r3, r4"),
        (0xE121_03A2, "smulwb r1, r2, r3"),
        (0xE125_07E6, "smulwt r5, r6, r7"),
        (0xE142_1483, "smlalbb r1, r2, r3, r4"),
        (0xE142_14A3, "smlaltb r1, r2, r3, r4"),
        (0xE146_58C7, "smlalbt r5, r6, r7, r8"),
        (0xE142_14E3, "smlaltt r1, r2, r3, r4"),
        (0xE161_0382, "smulbb r1, r2, r3"),
        (0xE164_06C5, "smulbt r4, r5, r6"),
        (0xE164_06A5, "smultb r4, r5, r6"),
        (0xE161_03E2, "smultt r1, r2, r3"),
        (0xE001_0392, "mul r1, r2, r3"),
        (0x1011_0392, "mulsne r1, r2, r3"),
        (0xE021_4392, "mla r1, r2, r3, r4"),
        (0x0031_4392, "mlaseq r1, r2, r3, r4"),
        (0xE082_1493, "umull r1, r2, r3, r4"),
        (0xE092_1493, "umulls r1, r2, r3, r4"),
        (0xE0A2_1493, "umlal r1, r2, r3, r4"),
        (0xE0B2_1493, "umlals r1, r2, r3, r4"),
        (0xE0C2_1493, "smull r1, r2, r3, r4"),
        (0xE0D2_1493, "smulls r1, r2, r3, r4"),
        (0xE0E2_1493, "smlal r1, r2, r3, r4"),
        (0xE0F2_1493, "smlals r1, r2, r3, r4"),
        (0xE102_1093, "swp r1, r3, [r2]"),
        (0xE142_1093, "swpb r1, r3, [r2]"),
        (0x0142_1093, "swpbeq r1, r3, [r2]"),
        (0x1092_1493, "umullsne r1, r2, r3, r4"),
    ];
    lists_words(&rt, Arch::V5, AT, &rows);
}

#[test]
fn conditions_and_operations(rt: HostRuntime) {
    let rows = [
        (0x01A0_0001, "moveq r0, r1"),
        (0x11A0_0001, "movne r0, r1"),
        (0x21A0_0001, "movcs r0, r1"),
        (0x31A0_0001, "movcc r0, r1"),
        (0x41A0_0001, "movmi r0, r1"),
        (0x51A0_0001, "movpl r0, r1"),
        (0x61A0_0001, "movvs r0, r1"),
        (0x71A0_0001, "movvc r0, r1"),
        (0x81A0_0001, "movhi r0, r1"),
        (0x91A0_0001, "movls r0, r1"),
        (0xA1A0_0001, "movge r0, r1"),
        (0xB1A0_0001, "movlt r0, r1"),
        (0xC1A0_0001, "movgt r0, r1"),
        (0xD1A0_0001, "movle r0, r1"),
        (0xE1A0_0001, "mov r0, r1"),
        (0xE002_1003, "and r1, r2, r3"),
        (0xE022_1003, "eor r1, r2, r3"),
        (0xE042_1003, "sub r1, r2, r3"),
        (0xE062_1003, "rsb r1, r2, r3"),
        (0xE0A2_1003, "adc r1, r2, r3"),
        (0xE0C2_1003, "sbc r1, r2, r3"),
        (0xE0E2_1003, "rsc r1, r2, r3"),
        (0xE182_1003, "orr r1, r2, r3"),
        (0xE1D2_1003, "bics r1, r2, r3"),
        (0xE133_0284, "teq r3, r4, lsl #0x5"),
        (0xE171_0372, "cmn r1, r2, ror r3"),
        (0xE1F0_1332, "mvns r1, r2, lsr r3"),
        (0x01B0_0001, "movseq r0, r1"),
        (0x1091_2003, "addsne r2, r1, r3"),
        (0x0150_0001, "cmpeq r0, r1"),
    ];
    lists_words(&rt, Arch::V4, AT, &rows);
}

#[test]
fn status_and_data_processing(rt: HostRuntime) {
    let rows = [
        (0xE10F_1000, "mrs r1, cpsr"),
        (0xE14F_2000, "mrs r2, spsr"),
        (0x010F_1000, "mrseq r1, cpsr"),
        (0x1129_F001, "msrne cpsr_fc, r1"),
        (0xE129_F001, "msr cpsr_fc, r1"),
        (0xE166_F002, "msr spsr_sx, r2"),
        (0xE12F_F001, "msr cpsr_fsxc, r1"),
        (0xE124_F001, "msr cpsr_s, r1"),
        (0xE121_F001, "msr cpsr_c, r1"),
        (0xE120_F001, "msr cpsr_, r1"),
        (0xE328_F20F, "msr cpsr_f, #0xf0000000"),
        (0xE351_0004, "cmp r1, #0x4"),
        (0xE111_0002, "tst r1, r2"),
        (0xE3A0_0001, "mov r0, #0x1"),
        (0xE3A0_0C01, "mov r0, #0x100"),
        (0xE3A0_01FF, "mov r0, #0xc000003f"),
        (0xE3A0_0D05, "mov r0, #0x140"),
        (0xE3A0_0E11, "mov r0, #0x110"),
        (0xE3A0_0F41, "mov r0, #0x104"),
        (0xE1B0_F00E, "movs r15, r14"),
        (0xE1E0_1002, "mvn r1, r2"),
        (0xE081_2003, "add r2, r1, r3"),
        (0xE091_2183, "adds r2, r1, r3, lsl #0x3"),
        (0xE081_2023, "add r2, r1, r3, lsr #0x20"),
        (0xE081_2043, "add r2, r1, r3, asr #0x20"),
        (0xE081_20E3, "add r2, r1, r3, ror #0x1"),
        (0xE081_2063, "add r2, r1, r3, rrx"),
        (0xE081_2413, "add r2, r1, r3, lsl r4"),
        (0xE081_2453, "add r2, r1, r3, asr r4"),
    ];
    lists_words(&rt, Arch::V5, AT, &rows);
}

#[test]
fn transfers(rt: HostRuntime) {
    let rows = [
        (0xE1C2_10B4, "strh r1, [r2, #0x4]"),
        (0xE1D2_11BF, "ldrh r1, [r2, #0x1f]"),
        (0xE092_10F3, "ldrsh r1, [r2], r3"),
        (0xE152_10D1, "ldrsb r1, [r2, #-0x1]"),
        (0xE1C2_40D8, "ldrd r4, [r2, #0x8]"),
        (0xE122_40F3, "strd r4, [r2, -r3]!"),
        (0xE592_1004, "ldr r1, [r2, #0x4]"),
        (0xE592_1000, "ldr r1, [r2, #0x0]"),
        (0xE512_1000, "ldr r1, [r2, #-0x0]"),
        (0xE712_1243, "ldr r1, [r2, -r3, asr #0x4]"),
        (0xE492_1004, "ldr r1, [r2], #0x4"),
        (0xE5C2_1FFF, "strb r1, [r2, #0xfff]"),
        (0xE5F2_1001, "ldrb r1, [r2, #0x1]!"),
        (0xE4B2_1000, "ldrt r1, [r2], #0x0"),
        (0xE4F2_1001, "ldrbt r1, [r2], #0x1"),
        (0xE4A2_1001, "strt r1, [r2], #0x1"),
        (0xE4E2_1001, "strbt r1, [r2], #0x1"),
        (0xE7A2_1103, "str r1, [r2, r3, lsl #0x2]!"),
        (0xE412_1004, "ldr r1, [r2], #-0x4"),
        (0xE692_1103, "ldr r1, [r2], r3, lsl #0x2"),
        (0xE612_1063, "ldr r1, [r2], -r3, rrx"),
        (0xE712_1023, "ldr r1, [r2, -r3, lsr #0x20]"),
        (0x05D2_1001, "ldrbeq r1, [r2, #0x1]"),
        (0x14F2_1001, "ldrbtne r1, [r2], #0x1"),
        (0x14A2_1001, "strtne r1, [r2], #0x1"),
        (0x01D0_30B0, "ldrheq r3, [r0, #0x0]"),
        (0x01C2_40D8, "ldrdeq r4, [r2, #0x8]"),
        (0xE810_0002, "ldmda r0, {r1}"),
        (0xE910_0002, "ldmdb r0, {r1}"),
        (0xE990_0002, "ldmib r0, {r1}"),
        (0xE800_0002, "stmda r0, {r1}"),
        (0xE880_0002, "stmia r0, {r1}"),
        (0xE980_0002, "stmib r0, {r1}"),
        (0xE8BD_8006, "ldmia r13!, {r1,r2,r15}"),
        (0xE94D_0001, "stmdb r13, {r0}^"),
        (0xE890_0000, "ldmia r0, {}"),
        (
            0x097D_FFFF,
            "ldmdbeq r13!, {r0,r1,r2,r3,r4,r5,r6,r7,r8,r9,r10,r11,r12,r13,r14,r15}^",
        ),
        (0xF5D2_F004, "pld [r2, #0x4]"),
        (0xF752_F103, "pld [r2, -r3, lsl #0x2]"),
    ];
    lists_words(&rt, Arch::V5, AT, &rows);
}

#[test]
fn branches_and_calls(rt: HostRuntime) {
    let rows = [
        (0xEAFF_FFFE, "b 0x2000000"),
        (0xEB00_0000, "bl 0x2000008"),
        (0x0A00_0000, "beq 0x2000008"),
        (0x0B00_0000, "bleq 0x2000008"),
        (0xEA7F_FFFF, "b 0x4000004"),
        (0xEA80_0000, "b 0x8"),
        (0xFA00_0000, "blx 0x2000008"),
        (0xFB00_0000, "blx 0x200000a"),
        (0xFA7F_FFFF, "blx 0x4000004"),
        (0xFB7F_FFFF, "blx 0x4000006"),
        (0xFA80_0000, "blx 0x8"),
        (0xFB80_0000, "blx 0xa"),
        (0xEE07_0F90, "mcr p15, 0, r0, c7, c0, 4"),
        (0xEE11_1F10, "mrc p15, 0, r1, c1, c0, 0"),
        (0xEEB3_2ED4, "mrc p14, 5, r2, c3, c4, 6"),
        (0xEF06_0000, "swi 0x60000"),
        (0x0F06_0000, "swieq 0x60000"),
        (0x1E07_0F90, "mcrne p15, 0, r0, c7, c0, 4"),
    ];
    lists_words(&rt, Arch::V5, AT, &rows);
    lists_words(&rt, Arch::V4, 0, &[(0xEAFF_FFFD, "b 0xfffffffc")]);
    let at_the_end = [(0xEAFF_FFFE, "b 0xfffffffc"), (0xEA00_0000, "b 0x4")];
    lists_words(&rt, Arch::V4, 0xFFFF_FFFC, &at_the_end);
}

#[test]
fn words_that_are_not_canonical(rt: HostRuntime) {
    let five = [
        (0xE3A0_0F40, ".word 0xe3a00f40"),
        (0xE3A0_0104, ".word 0xe3a00104"),
        (0xE3A0_0D03, ".word 0xe3a00d03"),
        (0xE3A0_0E0F, ".word 0xe3a00e0f"),
        (0xE3A0_0F3F, ".word 0xe3a00f3f"),
        (0xE12F_FF01, ".word 0xe12fff01"),
        (0xE0F2_10B4, ".word 0xe0f210b4"),
        (0x0000_10F0, ".word 0x000010f0"),
    ];
    lists_words(&rt, Arch::V5, AT, &five);
    let four = [
        (0xE12F_FF33, ".word 0xe12fff33"),
        (0xF000_0000, ".word 0xf0000000"),
    ];
    lists_words(&rt, Arch::V4, AT, &four);
}
