//! Halves (ARM manual, "Thumb instruction set encoding"), and every half there and back.

use super::half;
use arm_words::Condition::{Cc, Cs, Eq, Ge, Gt, Hi, Le, Ls, Lt, Mi, Ne, Pl, Vc, Vs};
use arm_words::Instr::{
    ThumbAddSub, ThumbAddress, ThumbAdjustStack, ThumbBkpt, ThumbBlPrefix, ThumbBlSuffix,
    ThumbBlxRegister, ThumbBlxSuffix, ThumbBranch, ThumbBranchIf, ThumbBx, ThumbData,
    ThumbHalfOffset, ThumbHigh, ThumbImmediate, ThumbImmediateOffset, ThumbLoadLiteral,
    ThumbMultiple, ThumbPushPop, ThumbRegisterOffset, ThumbShift, ThumbStackOffset, ThumbSwi,
};
use arm_words::ThumbOperand::{LowRegister, Small};
use arm_words::{
    HighOp, Shift, Spelling, ThumbDataOp, ThumbImmediateOp, ThumbTransferOp, decode_thumb, encode,
};
use ds_base::Arch;
use ds_base::Arch::{V4, V5};
use std::process::Abort;

fn round_trips(rt: &impl Abort, arch: Arch) {
    for half in 0..=u16::MAX {
        if let Some(instr) = decode_thumb(arch, half) {
            let spelling = encode(&instr);
            let kept = if half & 0xFF00 == 0x4700 {
                half & 0xFFF8
            } else {
                half
            };
            assert!(rt; spelling == Spelling::Half(kept), "at {half}");
        }
    }
}

#[test]
fn every_half_round_trips(rt: HostRuntime) {
    round_trips(&rt, Arch::V4);
    round_trips(&rt, Arch::V5);
}

#[test]
#[rattlefmt::skip]
fn sums_shifts_and_registers(rt: HostRuntime) {
    half(&rt, V4, 0x1840, &ThumbAddSub { subtract: false, operand: LowRegister { rm: 1 }, rn: 0, rd: 0 });
    half(&rt, V4, 0x1A88, &ThumbAddSub { subtract: true, operand: LowRegister { rm: 2 }, rn: 1, rd: 0 });
    half(&rt, V5, 0x1E51, &ThumbAddSub { subtract: true, operand: Small { immed: 1 }, rn: 2, rd: 1 });
    half(&rt, V4, 0x0051, &ThumbShift { shift: Shift::Lsl, amount: 1, rm: 2, rd: 1 });
    half(&rt, V5, 0x0811, &ThumbShift { shift: Shift::Lsr, amount: 0, rm: 2, rd: 1 });
    half(&rt, V5, 0x17C8, &ThumbShift { shift: Shift::Asr, amount: 31, rm: 1, rd: 0 });
    half(&rt, V4, 0x2305, &ThumbImmediate { op: ThumbImmediateOp::Mov, rd: 3, immed: 5 });
    half(&rt, V5, 0x2B05, &ThumbImmediate { op: ThumbImmediateOp::Cmp, rd: 3, immed: 5 });
    half(&rt, V4, 0x3305, &ThumbImmediate { op: ThumbImmediateOp::Add, rd: 3, immed: 5 });
    half(&rt, V5, 0x3B05, &ThumbImmediate { op: ThumbImmediateOp::Sub, rd: 3, immed: 5 });
    half(&rt, V4, 0x4770, &ThumbBx { rm: 14 });
    half(&rt, V5, 0x47F0, &ThumbBlxRegister { rm: 14 });
    half(&rt, V5, 0x4485, &ThumbHigh { op: HighOp::Add, rm: 0, rd: 13 });
    half(&rt, V5, 0x45F1, &ThumbHigh { op: HighOp::Cmp, rm: 14, rd: 9 });
    half(&rt, V5, 0x46C0, &ThumbHigh { op: HighOp::Mov, rm: 8, rd: 8 });
}

#[test]
#[rattlefmt::skip]
fn data_processing(rt: HostRuntime) {
    half(&rt, V5, 0x4011, &ThumbData { op: ThumbDataOp::And, rm: 2, rd: 1 });
    half(&rt, V4, 0x4051, &ThumbData { op: ThumbDataOp::Eor, rm: 2, rd: 1 });
    half(&rt, V4, 0x4091, &ThumbData { op: ThumbDataOp::Lsl, rm: 2, rd: 1 });
    half(&rt, V4, 0x40D1, &ThumbData { op: ThumbDataOp::Lsr, rm: 2, rd: 1 });
    half(&rt, V4, 0x4111, &ThumbData { op: ThumbDataOp::Asr, rm: 2, rd: 1 });
    half(&rt, V4, 0x4151, &ThumbData { op: ThumbDataOp::Adc, rm: 2, rd: 1 });
    half(&rt, V4, 0x4191, &ThumbData { op: ThumbDataOp::Sbc, rm: 2, rd: 1 });
    half(&rt, V4, 0x41D1, &ThumbData { op: ThumbDataOp::Ror, rm: 2, rd: 1 });
    half(&rt, V4, 0x4211, &ThumbData { op: ThumbDataOp::Tst, rm: 2, rd: 1 });
    half(&rt, V4, 0x4251, &ThumbData { op: ThumbDataOp::Neg, rm: 2, rd: 1 });
    half(&rt, V4, 0x4291, &ThumbData { op: ThumbDataOp::Cmp, rm: 2, rd: 1 });
    half(&rt, V4, 0x42D1, &ThumbData { op: ThumbDataOp::Cmn, rm: 2, rd: 1 });
    half(&rt, V4, 0x4311, &ThumbData { op: ThumbDataOp::Orr, rm: 2, rd: 1 });
    half(&rt, V4, 0x4351, &ThumbData { op: ThumbDataOp::Mul, rm: 2, rd: 1 });
    half(&rt, V4, 0x4391, &ThumbData { op: ThumbDataOp::Bic, rm: 2, rd: 1 });
    half(&rt, V5, 0x43D1, &ThumbData { op: ThumbDataOp::Mvn, rm: 2, rd: 1 });
}

#[test]
#[rattlefmt::skip]
fn transfers(rt: HostRuntime) {
    half(&rt, V5, 0x4B04, &ThumbLoadLiteral { rd: 3, immed: 4 });
    half(&rt, V4, 0x5088, &ThumbRegisterOffset { op: ThumbTransferOp::Str, rm: 2, rn: 1, rd: 0 });
    half(&rt, V4, 0x5288, &ThumbRegisterOffset { op: ThumbTransferOp::Strh, rm: 2, rn: 1, rd: 0 });
    half(&rt, V4, 0x5488, &ThumbRegisterOffset { op: ThumbTransferOp::Strb, rm: 2, rn: 1, rd: 0 });
    half(&rt, V5, 0x5688, &ThumbRegisterOffset { op: ThumbTransferOp::Ldrsb, rm: 2, rn: 1, rd: 0 });
    half(&rt, V4, 0x5888, &ThumbRegisterOffset { op: ThumbTransferOp::Ldr, rm: 2, rn: 1, rd: 0 });
    half(&rt, V4, 0x5A88, &ThumbRegisterOffset { op: ThumbTransferOp::Ldrh, rm: 2, rn: 1, rd: 0 });
    half(&rt, V4, 0x5C88, &ThumbRegisterOffset { op: ThumbTransferOp::Ldrb, rm: 2, rn: 1, rd: 0 });
    half(&rt, V5, 0x5E88, &ThumbRegisterOffset { op: ThumbTransferOp::Ldrsh, rm: 2, rn: 1, rd: 0 });
    half(&rt, V5, 0x6848, &ThumbImmediateOffset { byte: false, load: true, immed: 1, rn: 1, rd: 0 });
    half(&rt, V5, 0x7048, &ThumbImmediateOffset { byte: true, load: false, immed: 1, rn: 1, rd: 0 });
    half(&rt, V5, 0x8848, &ThumbHalfOffset { load: true, immed: 1, rn: 1, rd: 0 });
    half(&rt, V5, 0x9101, &ThumbStackOffset { load: false, rd: 1, immed: 1 });
    half(&rt, V5, 0xC907, &ThumbMultiple { load: true, rn: 1, list: 7 });
    half(&rt, V4, 0xC006, &ThumbMultiple { load: false, rn: 0, list: 6 });
}

#[test]
#[rattlefmt::skip]
fn stack_and_branches(rt: HostRuntime) {
    half(&rt, V5, 0xA101, &ThumbAddress { stack: false, rd: 1, immed: 1 });
    half(&rt, V5, 0xA901, &ThumbAddress { stack: true, rd: 1, immed: 1 });
    half(&rt, V4, 0xB002, &ThumbAdjustStack { subtract: false, immed: 2 });
    half(&rt, V5, 0xB081, &ThumbAdjustStack { subtract: true, immed: 1 });
    half(&rt, V5, 0xB570, &ThumbPushPop { load: false, extra: true, list: 0x70 });
    half(&rt, V5, 0xBC70, &ThumbPushPop { load: true, extra: false, list: 0x70 });
    half(&rt, V5, 0xBE12, &ThumbBkpt { immed: 0x12 });
    half(&rt, V5, 0xDF12, &ThumbSwi { immed: 0x12 });
    half(&rt, V5, 0xE7FE, &ThumbBranch { offset: 0x7FE });
    half(&rt, V5, 0xE802, &ThumbBlxSuffix { offset: 2 });
    half(&rt, V5, 0xF123, &ThumbBlPrefix { offset: 0x123 });
    half(&rt, V5, 0xF923, &ThumbBlSuffix { offset: 0x123 });
}

#[test]
#[rattlefmt::skip]
fn conditions(rt: HostRuntime) {
    half(&rt, V4, 0xD0FE, &ThumbBranchIf { cond: Eq, offset: 0xFE });
    half(&rt, V4, 0xD1FE, &ThumbBranchIf { cond: Ne, offset: 0xFE });
    half(&rt, V4, 0xD2FE, &ThumbBranchIf { cond: Cs, offset: 0xFE });
    half(&rt, V4, 0xD3FE, &ThumbBranchIf { cond: Cc, offset: 0xFE });
    half(&rt, V4, 0xD4FE, &ThumbBranchIf { cond: Mi, offset: 0xFE });
    half(&rt, V4, 0xD5FE, &ThumbBranchIf { cond: Pl, offset: 0xFE });
    half(&rt, V4, 0xD6FE, &ThumbBranchIf { cond: Vs, offset: 0xFE });
    half(&rt, V4, 0xD7FE, &ThumbBranchIf { cond: Vc, offset: 0xFE });
    half(&rt, V4, 0xD8FE, &ThumbBranchIf { cond: Hi, offset: 0xFE });
    half(&rt, V4, 0xD9FE, &ThumbBranchIf { cond: Ls, offset: 0xFE });
    half(&rt, V4, 0xDAFE, &ThumbBranchIf { cond: Ge, offset: 0xFE });
    half(&rt, V4, 0xDBFE, &ThumbBranchIf { cond: Lt, offset: 0xFE });
    half(&rt, V4, 0xDCFE, &ThumbBranchIf { cond: Gt, offset: 0xFE });
    half(&rt, V5, 0xDDFE, &ThumbBranchIf { cond: Le, offset: 0xFE });
}
