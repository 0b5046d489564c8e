//! Transfers, branches and coprocessors (ARM manual, "Load and store instructions", "Extra load/store instructions", "Load and
//! store multiple", "Branch instructions", "Coprocessor instructions"): each flag apart from each other.

use super::word;
use arm_words::Condition::{Al, Ne, Vs};
use arm_words::HalfOp::{Ldrh, Ldrsb, Ldrsh, Strh};
use arm_words::Instr::{
    BlxTarget, Branch, Coprocessor, DoubleTransfer, HalfTransfer, Multiple, Never, Pld, Swi,
    Transfer,
};
use arm_words::Offset::{Number, Register};
use arm_words::Shift::{Asr, Lsl, Lsr, Ror};
use arm_words::ShortOffset::{ShortNumber, ShortRegister};
use ds_base::Arch::{V4, V5};

#[test]
#[rattlefmt::skip]
fn of_words_and_bytes(rt: HostRuntime) {
    word(&rt, V5, 0xE592_1004, &Transfer { cond: Al, pre: true, up: true, byte: false, write_back: false, load: true, rn: 2, rd: 1, offset: Number { offset: 4 } });
    word(&rt, V4, 0xE582_1FFF, &Transfer { cond: Al, pre: true, up: true, byte: false, write_back: false, load: false, rn: 2, rd: 1, offset: Number { offset: 0xFFF } });
    word(&rt, V5, 0xE402_1004, &Transfer { cond: Al, pre: false, up: false, byte: false, write_back: false, load: false, rn: 2, rd: 1, offset: Number { offset: 4 } });
    word(&rt, V5, 0xE7F2_1103, &Transfer { cond: Al, pre: true, up: true, byte: true, write_back: true, load: true, rn: 2, rd: 1, offset: Register { rm: 3, shift: Lsl, amount: 2 } });
    word(&rt, V4, 0xE792_11A3, &Transfer { cond: Al, pre: true, up: true, byte: false, write_back: false, load: true, rn: 2, rd: 1, offset: Register { rm: 3, shift: Lsr, amount: 3 } });
    word(&rt, V4, 0xE792_1243, &Transfer { cond: Al, pre: true, up: true, byte: false, write_back: false, load: true, rn: 2, rd: 1, offset: Register { rm: 3, shift: Asr, amount: 4 } });
    word(&rt, V4, 0xE792_12E3, &Transfer { cond: Al, pre: true, up: true, byte: false, write_back: false, load: true, rn: 2, rd: 1, offset: Register { rm: 3, shift: Ror, amount: 5 } });
    word(&rt, V4, 0xE4B2_1000, &Transfer { cond: Al, pre: false, up: true, byte: false, write_back: true, load: true, rn: 2, rd: 1, offset: Number { offset: 0 } });
    word(&rt, V5, 0xE662_1003, &Transfer { cond: Al, pre: false, up: false, byte: true, write_back: true, load: false, rn: 2, rd: 1, offset: Register { rm: 3, shift: Lsl, amount: 0 } });
}

#[test]
#[rattlefmt::skip]
fn of_halves_and_two_words(rt: HostRuntime) {
    word(&rt, V4, 0xE1C2_10B4, &HalfTransfer { cond: Al, op: Strh, pre: true, up: true, write_back: false, rn: 2, rd: 1, offset: ShortNumber { offset: 4 } });
    word(&rt, V5, 0xE012_10B3, &HalfTransfer { cond: Al, op: Ldrh, pre: false, up: false, write_back: false, rn: 2, rd: 1, offset: ShortRegister { rm: 3 } });
    word(&rt, V5, 0xE1F2_11D2, &HalfTransfer { cond: Al, op: Ldrsb, pre: true, up: true, write_back: true, rn: 2, rd: 1, offset: ShortNumber { offset: 0x12 } });
    word(&rt, V5, 0xE112_10F3, &HalfTransfer { cond: Al, op: Ldrsh, pre: true, up: false, write_back: false, rn: 2, rd: 1, offset: ShortRegister { rm: 3 } });
    word(&rt, V5, 0xE0F2_10B4, &HalfTransfer { cond: Al, op: Ldrh, pre: false, up: true, write_back: true, rn: 2, rd: 1, offset: ShortNumber { offset: 4 } });
    word(&rt, V5, 0xE1C1_20D8, &DoubleTransfer { cond: Al, store: false, pre: true, up: true, write_back: false, rn: 1, rd: 2, offset: ShortNumber { offset: 8 } });
    word(&rt, V5, 0xE081_40F2, &DoubleTransfer { cond: Al, store: true, pre: false, up: true, write_back: false, rn: 1, rd: 4, offset: ShortRegister { rm: 2 } });
}

#[test]
#[rattlefmt::skip]
fn of_several_registers(rt: HostRuntime) {
    word(&rt, V5, 0xE92D_4010, &Multiple { cond: Al, pre: true, up: false, user: false, write_back: true, load: false, rn: 13, list: 0x4010 });
    word(&rt, V5, 0x68D1_000F, &Multiple { cond: Vs, pre: false, up: true, user: true, write_back: false, load: true, rn: 1, list: 0xF });
    word(&rt, V4, 0xE95D_8001, &Multiple { cond: Al, pre: true, up: false, user: true, write_back: false, load: true, rn: 13, list: 0x8001 });
    word(&rt, V4, 0xE8B1_FFFF, &Multiple { cond: Al, pre: false, up: true, user: false, write_back: true, load: true, rn: 1, list: 0xFFFF });
}

#[test]
#[rattlefmt::skip]
fn branches_and_coprocessors(rt: HostRuntime) {
    word(&rt, V5, 0xEA00_0000, &Branch { cond: Al, link: false, offset: 0 });
    word(&rt, V4, 0x1BFF_FFFE, &Branch { cond: Ne, link: true, offset: 0xFF_FFFE });
    word(&rt, V5, 0xEE07_1F90, &Coprocessor { cond: Al, load: false, op1: 0, crn: 7, rd: 1, cp: 15, op2: 4, crm: 0 });
    word(&rt, V5, 0xEEB3_2ED4, &Coprocessor { cond: Al, load: true, op1: 5, crn: 3, rd: 2, cp: 14, op2: 6, crm: 4 });
    word(&rt, V5, 0xEF12_3456, &Swi { cond: Al, immed: 0x12_3456 });
    word(&rt, V5, 0xFA00_0001, &BlxTarget { half: false, offset: 1 });
    word(&rt, V5, 0xFBFF_FFFF, &BlxTarget { half: true, offset: 0xFF_FFFF });
    word(&rt, V4, 0xFA00_0001, &Never { immed: 0x0A00_0001 });
    word(&rt, V4, 0xF3A0_0001, &Never { immed: 0x03A0_0001 });
    word(&rt, V5, 0xF5D1_F008, &Pld { up: true, rn: 1, offset: Number { offset: 8 } });
    word(&rt, V5, 0xF751_F182, &Pld { up: false, rn: 1, offset: Register { rm: 2, shift: Lsl, amount: 3 } });
}
