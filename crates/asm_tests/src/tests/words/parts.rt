//! Conditions by their names, branches to registers, BKPT and CLZ (ARM manual, "The condition field", "Miscellaneous instructions").

use super::{reads, word};
use arm_words::Condition::{Al, Cc, Cs, Eq, Ge, Gt, Hi, Le, Ls, Lt, Mi, Ne, Pl, Vc, Vs};
use arm_words::Instr::{Bkpt, BlxRegister, Bx, Clz};
use ds_base::Arch::{V4, V5};

#[test]
#[rattlefmt::skip]
fn conditions(rt: HostRuntime) {
    word(&rt, V5, 0x012F_FF1E, &Bx { cond: Eq, rm: 14 });
    word(&rt, V4, 0x112F_FF1E, &Bx { cond: Ne, rm: 14 });
    word(&rt, V4, 0x212F_FF1E, &Bx { cond: Cs, rm: 14 });
    word(&rt, V4, 0x312F_FF1E, &Bx { cond: Cc, rm: 14 });
    word(&rt, V4, 0x412F_FF1E, &Bx { cond: Mi, rm: 14 });
    word(&rt, V4, 0x512F_FF1E, &Bx { cond: Pl, rm: 14 });
    word(&rt, V4, 0x612F_FF1E, &Bx { cond: Vs, rm: 14 });
    word(&rt, V4, 0x712F_FF1E, &Bx { cond: Vc, rm: 14 });
    word(&rt, V4, 0x812F_FF1E, &Bx { cond: Hi, rm: 14 });
    word(&rt, V4, 0x912F_FF1E, &Bx { cond: Ls, rm: 14 });
    word(&rt, V4, 0xA12F_FF1E, &Bx { cond: Ge, rm: 14 });
    word(&rt, V4, 0xB12F_FF1E, &Bx { cond: Lt, rm: 14 });
    word(&rt, V4, 0xC12F_FF1E, &Bx { cond: Gt, rm: 14 });
    word(&rt, V4, 0xD12F_FF1E, &Bx { cond: Le, rm: 14 });
    word(&rt, V4, 0xE12F_FF11, &Bx { cond: Al, rm: 1 });
}

#[test]
#[rattlefmt::skip]
fn registers_and_breakpoints(rt: HostRuntime) {
    reads(&rt, V5, 0xE120_0010, &Bx { cond: Al, rm: 0 });
    word(&rt, V5, 0xE12F_FF33, &BlxRegister { cond: Al, rm: 3 });
    word(&rt, V5, 0xE121_2374, &Bkpt { immed: 0x1234 });
    word(&rt, V5, 0xE16F_1F12, &Clz { cond: Al, rd: 1, rm: 2 });
}
