//! The names of ARM's statements.

use crate::reading::names::{Stem, key};
use arm_words::{
    CompareOp, Condition, DataOp, FieldMask, HalfOp, Instr, MoveOp, Offset, Operand, ShortOffset,
};

/// A row: what its name tells, and the registers and numbers that it doesn't.
macro_rules! row {
    ($row:ident { $($told:ident: $value:expr),* } $($number:ident)*) => {
        Stem::Row(Instr::$row { cond: Condition::Al, $($told: $value,)* $($number: 0),* })
    };
}

macro_rules! operand {
    () => {
        Operand::Immediate {
            rotate: 0,
            immed: 0,
        }
    };
}

macro_rules! compare {
    ($op:ident) => {
        row!(Compare { op: CompareOp::$op, operand: operand!() } rn)
    };
}

macro_rules! move_operand {
    ($op:ident, $set_flags:literal) => {
        row!(Move { op: MoveOp::$op, set_flags: $set_flags, operand: operand!() } rd)
    };
}

macro_rules! data {
    ($op:ident, $set_flags:literal) => {
        row!(Data { op: DataOp::$op, set_flags: $set_flags, operand: operand!() } rn rd)
    };
}

macro_rules! short_offset {
    () => {
        ShortOffset::ShortNumber { offset: 0 }
    };
}

macro_rules! half_transfer {
    ($op:ident) => {
        row!(HalfTransfer { op: HalfOp::$op, pre: false, up: false, write_back: false, offset: short_offset!() } rn rd)
    };
}

macro_rules! double_transfer {
    ($store:literal) => {
        row!(DoubleTransfer { store: $store, pre: false, up: false, write_back: false, offset: short_offset!() } rn rd)
    };
}

/// `t` is bit 21, which the name tells where the address doesn't.
macro_rules! transfer {
    ($load:literal, $byte:literal, $t:literal) => {
        row!(Transfer { load: $load, byte: $byte, write_back: $t, pre: false, up: false, offset: Offset::Number { offset: 0 } } rn rd)
    };
}

macro_rules! multiple {
    ($load:literal, $pre:literal, $up:literal) => {
        row!(Multiple { load: $load, pre: $pre, up: $up, user: false, write_back: false } rn list)
    };
}

/// Each name, with what it stands for. Those that programs have most often stand first, since the table is read from its start.
pub(crate) const ARM_STEMS: [(u64, Stem); 97] = [
    (key!(b"ldr"), transfer!(true, false, false)),
    (key!(b"mov"), move_operand!(Mov, false)),
    (key!(b"b"), row!(Branch { link: false } offset)),
    (key!(b"str"), transfer!(false, false, false)),
    (key!(b"add"), data!(Add, false)),
    (key!(b"cmp"), compare!(Cmp)),
    (key!(b"bl"), row!(Branch { link: true } offset)),
    (key!(b"sub"), data!(Sub, false)),
    (key!(b"ldrb"), transfer!(true, true, false)),
    (key!(b"strb"), transfer!(false, true, false)),
    (key!(b"ldmia"), multiple!(true, false, true)),
    (key!(b"stmdb"), multiple!(false, true, false)),
    (key!(b"bx"), row!(Bx {} rm)),
    (key!(b"and"), data!(And, false)),
    (key!(b"orr"), data!(Orr, false)),
    (key!(b"tst"), compare!(Tst)),
    (key!(b"bic"), data!(Bic, false)),
    (key!(b"adds"), data!(Add, true)),
    (key!(b"subs"), data!(Sub, true)),
    (key!(b"movs"), move_operand!(Mov, true)),
    (key!(b"rsb"), data!(Rsb, false)),
    (key!(b"ands"), data!(And, true)),
    (key!(b"orrs"), data!(Orr, true)),
    (key!(b"eor"), data!(Eor, false)),
    (key!(b"mvn"), move_operand!(Mvn, false)),
    (key!(b"ldrh"), half_transfer!(Ldrh)),
    (key!(b"strh"), half_transfer!(Strh)),
    (key!(b"teq"), compare!(Teq)),
    (key!(b"cmn"), compare!(Cmn)),
    (key!(b".word"), Stem::Raw(0)),
    (key!(b"blx"), row!(BlxRegister {} rm)),
    (key!(b"bkpt"), Stem::Row(Instr::Bkpt { immed: 0 })),
    (key!(b"clz"), row!(Clz {} rd rm)),
    (
        key!(b"qadd"),
        row!(Saturating { double: false, subtract: false } rd rm rn),
    ),
    (
        key!(b"qsub"),
        row!(Saturating { double: false, subtract: true } rd rm rn),
    ),
    (
        key!(b"qdadd"),
        row!(Saturating { double: true, subtract: false } rd rm rn),
    ),
    (
        key!(b"qdsub"),
        row!(Saturating { double: true, subtract: true } rd rm rn),
    ),
    (
        key!(b"smlabb"),
        row!(Smla { x: false, y: false } rd rm rs rn),
    ),
    (
        key!(b"smlabt"),
        row!(Smla { x: false, y: true } rd rm rs rn),
    ),
    (
        key!(b"smlatb"),
        row!(Smla { x: true, y: false } rd rm rs rn),
    ),
    (key!(b"smlatt"), row!(Smla { x: true, y: true } rd rm rs rn)),
    (key!(b"smlawb"), row!(Smlaw { y: false } rd rm rs rn)),
    (key!(b"smlawt"), row!(Smlaw { y: true } rd rm rs rn)),
    (key!(b"smulwb"), row!(Smulw { y: false } rd rm rs)),
    (key!(b"smulwt"), row!(Smulw { y: true } rd rm rs)),
    (
        key!(b"smlalbb"),
        row!(Smlal { x: false, y: false } rd_lo rd_hi rm rs),
    ),
    (
        key!(b"smlalbt"),
        row!(Smlal { x: false, y: true } rd_lo rd_hi rm rs),
    ),
    (
        key!(b"smlaltb"),
        row!(Smlal { x: true, y: false } rd_lo rd_hi rm rs),
    ),
    (
        key!(b"smlaltt"),
        row!(Smlal { x: true, y: true } rd_lo rd_hi rm rs),
    ),
    (key!(b"smulbb"), row!(Smul { x: false, y: false } rd rm rs)),
    (key!(b"smulbt"), row!(Smul { x: false, y: true } rd rm rs)),
    (key!(b"smultb"), row!(Smul { x: true, y: false } rd rm rs)),
    (key!(b"smultt"), row!(Smul { x: true, y: true } rd rm rs)),
    (key!(b"mul"), row!(Mul { set_flags: false } rd rm rs)),
    (key!(b"muls"), row!(Mul { set_flags: true } rd rm rs)),
    (key!(b"mla"), row!(Mla { set_flags: false } rd rm rs rn)),
    (key!(b"mlas"), row!(Mla { set_flags: true } rd rm rs rn)),
    (
        key!(b"umull"),
        row!(LongMultiply { signed: false, accumulate: false, set_flags: false } rd_lo rd_hi rm rs),
    ),
    (
        key!(b"umulls"),
        row!(LongMultiply { signed: false, accumulate: false, set_flags: true } rd_lo rd_hi rm rs),
    ),
    (
        key!(b"umlal"),
        row!(LongMultiply { signed: false, accumulate: true, set_flags: false } rd_lo rd_hi rm rs),
    ),
    (
        key!(b"umlals"),
        row!(LongMultiply { signed: false, accumulate: true, set_flags: true } rd_lo rd_hi rm rs),
    ),
    (
        key!(b"smull"),
        row!(LongMultiply { signed: true, accumulate: false, set_flags: false } rd_lo rd_hi rm rs),
    ),
    (
        key!(b"smulls"),
        row!(LongMultiply { signed: true, accumulate: false, set_flags: true } rd_lo rd_hi rm rs),
    ),
    (
        key!(b"smlal"),
        row!(LongMultiply { signed: true, accumulate: true, set_flags: false } rd_lo rd_hi rm rs),
    ),
    (
        key!(b"smlals"),
        row!(LongMultiply { signed: true, accumulate: true, set_flags: true } rd_lo rd_hi rm rs),
    ),
    (key!(b"swp"), row!(Swap { byte: false } rd rm rn)),
    (key!(b"swpb"), row!(Swap { byte: true } rd rm rn)),
    (key!(b"ldrsb"), half_transfer!(Ldrsb)),
    (key!(b"ldrsh"), half_transfer!(Ldrsh)),
    (key!(b"mrs"), row!(Mrs { spsr: false } rd)),
    (
        key!(b"msr"),
        row!(Msr { spsr: false, fields: FieldMask { f: false, s: false, x: false, c: false } } rm),
    ),
    (key!(b"mvns"), move_operand!(Mvn, true)),
    (key!(b"eors"), data!(Eor, true)),
    (key!(b"rsbs"), data!(Rsb, true)),
    (key!(b"adc"), data!(Adc, false)),
    (key!(b"adcs"), data!(Adc, true)),
    (key!(b"sbc"), data!(Sbc, false)),
    (key!(b"sbcs"), data!(Sbc, true)),
    (key!(b"rsc"), data!(Rsc, false)),
    (key!(b"rscs"), data!(Rsc, true)),
    (key!(b"bics"), data!(Bic, true)),
    (key!(b"ldrd"), double_transfer!(false)),
    (key!(b"strd"), double_transfer!(true)),
    (key!(b"strt"), transfer!(false, false, true)),
    (key!(b"strbt"), transfer!(false, true, true)),
    (key!(b"ldrt"), transfer!(true, false, true)),
    (key!(b"ldrbt"), transfer!(true, true, true)),
    (key!(b"stmda"), multiple!(false, false, false)),
    (key!(b"stmia"), multiple!(false, false, true)),
    (key!(b"stmib"), multiple!(false, true, true)),
    (key!(b"ldmda"), multiple!(true, false, false)),
    (key!(b"ldmdb"), multiple!(true, true, false)),
    (key!(b"ldmib"), multiple!(true, true, true)),
    (
        key!(b"mcr"),
        row!(Coprocessor { load: false } op1 crn rd cp op2 crm),
    ),
    (
        key!(b"mrc"),
        row!(Coprocessor { load: true } op1 crn rd cp op2 crm),
    ),
    (key!(b"swi"), row!(Swi {} immed)),
    (
        key!(b"pld"),
        Stem::Row(Instr::Pld {
            up: false,
            rn: 0,
            offset: Offset::Number { offset: 0 },
        }),
    ),
];
