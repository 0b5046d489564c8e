//! The names of Thumb statements, and the row that each stands for. Where several rows have one name, it stands for the first, and
//! the operands tell.

use crate::reading::names::{Stem, key};
use arm_words::{HighOp, Instr, ThumbDataOp, ThumbImmediateOp, ThumbOperand, ThumbTransferOp};

pub(crate) const THUMB_STEMS: [(u64, Stem); 43] = [
    (
        key!(b"add"),
        Stem::Row(Instr::ThumbAddSub {
            subtract: false,
            operand: ThumbOperand::Small { immed: 0 },
            rn: 0,
            rd: 0,
        }),
    ),
    (
        key!(b"sub"),
        Stem::Row(Instr::ThumbAddSub {
            subtract: true,
            operand: ThumbOperand::Small { immed: 0 },
            rn: 0,
            rd: 0,
        }),
    ),
    (
        key!(b"mov"),
        Stem::Row(Instr::ThumbImmediate {
            op: ThumbImmediateOp::Mov,
            rd: 0,
            immed: 0,
        }),
    ),
    (
        key!(b"and"),
        Stem::Row(Instr::ThumbData {
            op: ThumbDataOp::And,
            rm: 0,
            rd: 0,
        }),
    ),
    (
        key!(b"eor"),
        Stem::Row(Instr::ThumbData {
            op: ThumbDataOp::Eor,
            rm: 0,
            rd: 0,
        }),
    ),
    (
        key!(b"lsl"),
        Stem::Row(Instr::ThumbData {
            op: ThumbDataOp::Lsl,
            rm: 0,
            rd: 0,
        }),
    ),
    (
        key!(b"lsr"),
        Stem::Row(Instr::ThumbData {
            op: ThumbDataOp::Lsr,
            rm: 0,
            rd: 0,
        }),
    ),
    (
        key!(b"asr"),
        Stem::Row(Instr::ThumbData {
            op: ThumbDataOp::Asr,
            rm: 0,
            rd: 0,
        }),
    ),
    (
        key!(b"adc"),
        Stem::Row(Instr::ThumbData {
            op: ThumbDataOp::Adc,
            rm: 0,
            rd: 0,
        }),
    ),
    (
        key!(b"sbc"),
        Stem::Row(Instr::ThumbData {
            op: ThumbDataOp::Sbc,
            rm: 0,
            rd: 0,
        }),
    ),
    (
        key!(b"ror"),
        Stem::Row(Instr::ThumbData {
            op: ThumbDataOp::Ror,
            rm: 0,
            rd: 0,
        }),
    ),
    (
        key!(b"tst"),
        Stem::Row(Instr::ThumbData {
            op: ThumbDataOp::Tst,
            rm: 0,
            rd: 0,
        }),
    ),
    (
        key!(b"neg"),
        Stem::Row(Instr::ThumbData {
            op: ThumbDataOp::Neg,
            rm: 0,
            rd: 0,
        }),
    ),
    (
        key!(b"cmp"),
        Stem::Row(Instr::ThumbData {
            op: ThumbDataOp::Cmp,
            rm: 0,
            rd: 0,
        }),
    ),
    (
        key!(b"cmn"),
        Stem::Row(Instr::ThumbData {
            op: ThumbDataOp::Cmn,
            rm: 0,
            rd: 0,
        }),
    ),
    (
        key!(b"orr"),
        Stem::Row(Instr::ThumbData {
            op: ThumbDataOp::Orr,
            rm: 0,
            rd: 0,
        }),
    ),
    (
        key!(b"mul"),
        Stem::Row(Instr::ThumbData {
            op: ThumbDataOp::Mul,
            rm: 0,
            rd: 0,
        }),
    ),
    (
        key!(b"bic"),
        Stem::Row(Instr::ThumbData {
            op: ThumbDataOp::Bic,
            rm: 0,
            rd: 0,
        }),
    ),
    (
        key!(b"mvn"),
        Stem::Row(Instr::ThumbData {
            op: ThumbDataOp::Mvn,
            rm: 0,
            rd: 0,
        }),
    ),
    (key!(b"bx"), Stem::Row(Instr::ThumbBx { rm: 0 })),
    (key!(b"blx"), Stem::Row(Instr::ThumbBlxRegister { rm: 0 })),
    (
        key!(b"addh"),
        Stem::Row(Instr::ThumbHigh {
            op: HighOp::Add,
            rm: 0,
            rd: 0,
        }),
    ),
    (
        key!(b"cmph"),
        Stem::Row(Instr::ThumbHigh {
            op: HighOp::Cmp,
            rm: 0,
            rd: 0,
        }),
    ),
    (
        key!(b"movh"),
        Stem::Row(Instr::ThumbHigh {
            op: HighOp::Mov,
            rm: 0,
            rd: 0,
        }),
    ),
    (
        key!(b"str"),
        Stem::Row(Instr::ThumbRegisterOffset {
            op: ThumbTransferOp::Str,
            rm: 0,
            rn: 0,
            rd: 0,
        }),
    ),
    (
        key!(b"strh"),
        Stem::Row(Instr::ThumbRegisterOffset {
            op: ThumbTransferOp::Strh,
            rm: 0,
            rn: 0,
            rd: 0,
        }),
    ),
    (
        key!(b"strb"),
        Stem::Row(Instr::ThumbRegisterOffset {
            op: ThumbTransferOp::Strb,
            rm: 0,
            rn: 0,
            rd: 0,
        }),
    ),
    (
        key!(b"ldrsb"),
        Stem::Row(Instr::ThumbRegisterOffset {
            op: ThumbTransferOp::Ldrsb,
            rm: 0,
            rn: 0,
            rd: 0,
        }),
    ),
    (
        key!(b"ldr"),
        Stem::Row(Instr::ThumbRegisterOffset {
            op: ThumbTransferOp::Ldr,
            rm: 0,
            rn: 0,
            rd: 0,
        }),
    ),
    (
        key!(b"ldrh"),
        Stem::Row(Instr::ThumbRegisterOffset {
            op: ThumbTransferOp::Ldrh,
            rm: 0,
            rn: 0,
            rd: 0,
        }),
    ),
    (
        key!(b"ldrb"),
        Stem::Row(Instr::ThumbRegisterOffset {
            op: ThumbTransferOp::Ldrb,
            rm: 0,
            rn: 0,
            rd: 0,
        }),
    ),
    (
        key!(b"ldrsh"),
        Stem::Row(Instr::ThumbRegisterOffset {
            op: ThumbTransferOp::Ldrsh,
            rm: 0,
            rn: 0,
            rd: 0,
        }),
    ),
    (
        key!(b"push"),
        Stem::Row(Instr::ThumbPushPop {
            load: false,
            extra: false,
            list: 0,
        }),
    ),
    (
        key!(b"pop"),
        Stem::Row(Instr::ThumbPushPop {
            load: true,
            extra: false,
            list: 0,
        }),
    ),
    (key!(b"bkpt"), Stem::Row(Instr::ThumbBkpt { immed: 0 })),
    (
        key!(b"stmia"),
        Stem::Row(Instr::ThumbMultiple {
            load: false,
            rn: 0,
            list: 0,
        }),
    ),
    (
        key!(b"ldmia"),
        Stem::Row(Instr::ThumbMultiple {
            load: true,
            rn: 0,
            list: 0,
        }),
    ),
    (key!(b"swi"), Stem::Row(Instr::ThumbSwi { immed: 0 })),
    (key!(b"b"), Stem::Row(Instr::ThumbBranch { offset: 0 })),
    (
        key!(b"blxl"),
        Stem::Row(Instr::ThumbBlxSuffix { offset: 0 }),
    ),
    (key!(b"blh"), Stem::Row(Instr::ThumbBlPrefix { offset: 0 })),
    (key!(b"bll"), Stem::Row(Instr::ThumbBlSuffix { offset: 0 })),
    (key!(b".half"), Stem::Raw(0)),
];
