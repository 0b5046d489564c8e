//! Data processing and status registers (ARM manual, "Data-processing instructions", "Status register access instructions").

use super::word;
use arm_words::CompareOp::{Cmn, Cmp, Teq, Tst};
use arm_words::Condition::{Al, Cc, Ge};
use arm_words::DataOp::{Adc, Add, And, Bic, Eor, Orr, Rsb, Rsc, Sbc, Sub};
use arm_words::Instr::{Compare, Data, Move, Mrs, Msr, MsrImmediate};
use arm_words::MoveOp::{Mov, Mvn};
use arm_words::Operand::{Immediate, Shifted, ShiftedByRegister};
use arm_words::Shift::{Asr, Lsl, Lsr, Ror};
use arm_words::{FieldMask, Operand};
use ds_base::Arch::{V4, V5};
use std::process::Abort;

const R3: Operand = Shifted {
    rm: 3,
    shift: Lsl,
    amount: 0,
};

fn fields(f: bool, s: bool, x: bool, c: bool) -> FieldMask {
    FieldMask { f, s, x, c }
}

#[test]
#[rattlefmt::skip]
fn status_registers(rt: HostRuntime) {
    word(&rt, V4, 0xE10F_1000, &Mrs { cond: Al, spsr: false, rd: 1 });
    word(&rt, V5, 0xE14F_2000, &Mrs { cond: Al, spsr: true, rd: 2 });
    word(&rt, V5, 0xE129_F001, &Msr { cond: Al, spsr: false, fields: fields(true, false, false, true), rm: 1 });
    word(&rt, V5, 0xE166_F002, &Msr { cond: Al, spsr: true, fields: fields(false, true, true, false), rm: 2 });
    word(&rt, V5, 0xE120_F001, &Msr { cond: Al, spsr: false, fields: fields(false, false, false, false), rm: 1 });
    word(&rt, V4, 0xE128_F001, &Msr { cond: Al, spsr: false, fields: fields(true, false, false, false), rm: 1 });
    word(&rt, V4, 0xE124_F001, &Msr { cond: Al, spsr: false, fields: fields(false, true, false, false), rm: 1 });
    word(&rt, V4, 0xE122_F001, &Msr { cond: Al, spsr: false, fields: fields(false, false, true, false), rm: 1 });
    word(&rt, V4, 0xE121_F001, &Msr { cond: Al, spsr: false, fields: fields(false, false, false, true), rm: 1 });
    word(&rt, V5, 0xE328_F20F, &MsrImmediate { cond: Al, spsr: false, fields: fields(true, false, false, false), rotate: 2, immed: 0xF });
    word(&rt, V5, 0xE361_F0D3, &MsrImmediate { cond: Al, spsr: true, fields: fields(false, false, false, true), rotate: 0, immed: 0xD3 });
}

#[test]
#[rattlefmt::skip]
fn with_the_flags_alone_or_one_operand(rt: HostRuntime) {
    word(&rt, V5, 0xE351_0002, &Compare { cond: Al, op: Cmp, rn: 1, operand: Immediate { rotate: 0, immed: 2 } });
    word(&rt, V5, 0xE111_0002, &Compare { cond: Al, op: Tst, rn: 1, operand: Shifted { rm: 2, shift: Lsl, amount: 0 } });
    word(&rt, V5, 0xE133_0284, &Compare { cond: Al, op: Teq, rn: 3, operand: Shifted { rm: 4, shift: Lsl, amount: 5 } });
    word(&rt, V5, 0xE171_0372, &Compare { cond: Al, op: Cmn, rn: 1, operand: ShiftedByRegister { rm: 2, shift: Ror, rs: 3 } });
    word(&rt, V5, 0xE3A0_14FF, &Move { cond: Al, op: Mov, set_flags: false, rd: 1, operand: Immediate { rotate: 4, immed: 0xFF } });
    word(&rt, V5, 0xE1B0_1062, &Move { cond: Al, op: Mov, set_flags: true, rd: 1, operand: Shifted { rm: 2, shift: Ror, amount: 0 } });
    word(&rt, V5, 0xE1E0_1042, &Move { cond: Al, op: Mvn, set_flags: false, rd: 1, operand: Shifted { rm: 2, shift: Asr, amount: 0 } });
    word(&rt, V4, 0xA1A0_1312, &Move { cond: Ge, op: Mov, set_flags: false, rd: 1, operand: ShiftedByRegister { rm: 2, shift: Lsl, rs: 3 } });
    word(&rt, V4, 0xE1A0_1332, &Move { cond: Al, op: Mov, set_flags: false, rd: 1, operand: ShiftedByRegister { rm: 2, shift: Lsr, rs: 3 } });
    word(&rt, V4, 0xE1A0_1352, &Move { cond: Al, op: Mov, set_flags: false, rd: 1, operand: ShiftedByRegister { rm: 2, shift: Asr, rs: 3 } });
}

#[test]
#[rattlefmt::skip]
fn with_two_operands(rt: HostRuntime) {
    word(&rt, V5, 0xE002_1003, &Data { cond: Al, op: And, set_flags: false, rn: 2, rd: 1, operand: R3 });
    word(&rt, V4, 0xE022_1003, &Data { cond: Al, op: Eor, set_flags: false, rn: 2, rd: 1, operand: R3 });
    word(&rt, V4, 0xE042_1003, &Data { cond: Al, op: Sub, set_flags: false, rn: 2, rd: 1, operand: R3 });
    word(&rt, V4, 0xE062_1003, &Data { cond: Al, op: Rsb, set_flags: false, rn: 2, rd: 1, operand: R3 });
    word(&rt, V5, 0xE292_1001, &Data { cond: Al, op: Add, set_flags: true, rn: 2, rd: 1, operand: Immediate { rotate: 0, immed: 1 } });
    word(&rt, V4, 0xE0A2_1003, &Data { cond: Al, op: Adc, set_flags: false, rn: 2, rd: 1, operand: R3 });
    word(&rt, V4, 0xE0C2_1003, &Data { cond: Al, op: Sbc, set_flags: false, rn: 2, rd: 1, operand: R3 });
    word(&rt, V5, 0xE0E2_10A3, &Data { cond: Al, op: Rsc, set_flags: false, rn: 2, rd: 1, operand: Shifted { rm: 3, shift: Lsr, amount: 1 } });
    word(&rt, V5, 0xE382_1001, &Data { cond: Al, op: Orr, set_flags: false, rn: 2, rd: 1, operand: Immediate { rotate: 0, immed: 1 } });
    word(&rt, V4, 0x33C2_100F, &Data { cond: Cc, op: Bic, set_flags: false, rn: 2, rd: 1, operand: Immediate { rotate: 0, immed: 0xF } });
}
