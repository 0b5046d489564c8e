//! Multiplies and swaps (ARM manual, "Multiply instructions", "Enhanced DSP instructions", "Semaphore instructions"): each field
//! different, and each flag both ways.

use super::word;
use arm_words::Condition::{Al, Eq, Ne};
use arm_words::Instr::{LongMultiply, Mla, Mul, Saturating, Smla, Smlal, Smlaw, Smul, Smulw, Swap};
use ds_base::Arch::{V4, V5};

#[test]
#[rattlefmt::skip]
fn multiplies_of_halves(rt: HostRuntime) {
    word(&rt, V5, 0xE101_43A2, &Smla { cond: Al, x: true, y: false, rd: 1, rm: 2, rs: 3, rn: 4 });
    word(&rt, V5, 0xE101_43C2, &Smla { cond: Al, x: false, y: true, rd: 1, rm: 2, rs: 3, rn: 4 });
    word(&rt, V5, 0x110E_BCED, &Smla { cond: Ne, x: true, y: true, rd: 14, rm: 13, rs: 12, rn: 11 });
    word(&rt, V5, 0xE121_43C2, &Smlaw { cond: Al, y: true, rd: 1, rm: 2, rs: 3, rn: 4 });
    word(&rt, V5, 0xE129_6788, &Smlaw { cond: Al, y: false, rd: 9, rm: 8, rs: 7, rn: 6 });
    word(&rt, V5, 0xE121_03A2, &Smulw { cond: Al, y: false, rd: 1, rm: 2, rs: 3 });
    word(&rt, V5, 0xE125_07E6, &Smulw { cond: Al, y: true, rd: 5, rm: 6, rs: 7 });
    word(&rt, V5, 0xE142_1483, &Smlal { cond: Al, x: false, y: false, rd_lo: 1, rd_hi: 2, rm: 3, rs: 4 });
    word(&rt, V5, 0xE142_14A3, &Smlal { cond: Al, x: true, y: false, rd_lo: 1, rd_hi: 2, rm: 3, rs: 4 });
    word(&rt, V5, 0xE146_58C7, &Smlal { cond: Al, x: false, y: true, rd_lo: 5, rd_hi: 6, rm: 7, rs: 8 });
    word(&rt, V5, 0xE161_03E2, &Smul { cond: Al, x: true, y: true, rd: 1, rm: 2, rs: 3 });
    word(&rt, V5, 0xE164_06A5, &Smul { cond: Al, x: true, y: false, rd: 4, rm: 5, rs: 6 });
    word(&rt, V5, 0xE164_06C5, &Smul { cond: Al, x: false, y: true, rd: 4, rm: 5, rs: 6 });
}

#[test]
#[rattlefmt::skip]
fn multiplies_of_words_sums_and_swaps(rt: HostRuntime) {
    word(&rt, V4, 0xE001_0392, &Mul { cond: Al, set_flags: false, rd: 1, rm: 2, rs: 3 });
    word(&rt, V5, 0xE011_0392, &Mul { cond: Al, set_flags: true, rd: 1, rm: 2, rs: 3 });
    word(&rt, V4, 0xE021_4392, &Mla { cond: Al, set_flags: false, rd: 1, rm: 2, rs: 3, rn: 4 });
    word(&rt, V5, 0x0031_4392, &Mla { cond: Eq, set_flags: true, rd: 1, rm: 2, rs: 3, rn: 4 });
    word(&rt, V5, 0xE082_1493, &LongMultiply { cond: Al, signed: false, accumulate: false, set_flags: false, rd_lo: 1, rd_hi: 2, rm: 3, rs: 4 });
    word(&rt, V4, 0xE092_1493, &LongMultiply { cond: Al, signed: false, accumulate: false, set_flags: true, rd_lo: 1, rd_hi: 2, rm: 3, rs: 4 });
    word(&rt, V4, 0xE0A2_1493, &LongMultiply { cond: Al, signed: false, accumulate: true, set_flags: false, rd_lo: 1, rd_hi: 2, rm: 3, rs: 4 });
    word(&rt, V5, 0xE0B2_1493, &LongMultiply { cond: Al, signed: false, accumulate: true, set_flags: true, rd_lo: 1, rd_hi: 2, rm: 3, rs: 4 });
    word(&rt, V5, 0xE0C2_1493, &LongMultiply { cond: Al, signed: true, accumulate: false, set_flags: false, rd_lo: 1, rd_hi: 2, rm: 3, rs: 4 });
    word(&rt, V5, 0xE102_0051, &Saturating { cond: Al, double: false, subtract: false, rd: 0, rm: 1, rn: 2 });
    word(&rt, V5, 0xE124_5053, &Saturating { cond: Al, double: false, subtract: true, rd: 5, rm: 3, rn: 4 });
    word(&rt, V5, 0xE144_5053, &Saturating { cond: Al, double: true, subtract: false, rd: 5, rm: 3, rn: 4 });
    word(&rt, V5, 0xE164_5053, &Saturating { cond: Al, double: true, subtract: true, rd: 5, rm: 3, rn: 4 });
    word(&rt, V5, 0xE103_1092, &Swap { cond: Al, byte: false, rd: 1, rm: 2, rn: 3 });
    word(&rt, V5, 0xE143_1092, &Swap { cond: Al, byte: true, rd: 1, rm: 2, rn: 3 });
}
