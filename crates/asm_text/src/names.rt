//! The names of operations.

ghost use Rattle.std.specs.Prelude.{◌≡◌, ◌≤◌, ◌++◌, codes, length};
ghost use Rattle.asm_text.specs.Names.{block_mode, compare_name, data_name, half_letter, half_name, high_name, immediate_name, load_name, long_name, move_name, saturating_name, shift_name, status_name, suffix, thumb_data_name, transfer_name};
ghost use Rattle.asm_text.specs.Text.{where_set};

use arm_words::{
    CompareOp, Condition, DataOp, HalfOp, HighOp, MoveOp, Shift, ThumbDataOp, ThumbImmediateOp,
    ThumbTransferOp,
};

pub fn suffix(cond: Condition) -> &'static str
    ensures text { result.now ≡ suffix cond }
    ensures room { length result.now ≤ 2 }
{
    match cond {
        Condition::Eq => "eq",
        Condition::Ne => "ne",
        Condition::Cs => "cs",
        Condition::Cc => "cc",
        Condition::Mi => "mi",
        Condition::Pl => "pl",
        Condition::Vs => "vs",
        Condition::Vc => "vc",
        Condition::Hi => "hi",
        Condition::Ls => "ls",
        Condition::Ge => "ge",
        Condition::Lt => "lt",
        Condition::Gt => "gt",
        Condition::Le => "le",
        Condition::Al => "",
    }
}

pub fn shift_name(shift: Shift) -> &'static str
    ensures text { result.now ≡ shift_name shift }
    ensures room { length result.now ≤ 3 }
{
    match shift {
        Shift::Lsl => "lsl",
        Shift::Lsr => "lsr",
        Shift::Asr => "asr",
        Shift::Ror => "ror",
    }
}

pub fn data_name(op: DataOp) -> &'static str
    ensures text { result.now ≡ data_name op }
    ensures room { length result.now ≤ 3 }
{
    match op {
        DataOp::And => "and",
        DataOp::Eor => "eor",
        DataOp::Sub => "sub",
        DataOp::Rsb => "rsb",
        DataOp::Add => "add",
        DataOp::Adc => "adc",
        DataOp::Sbc => "sbc",
        DataOp::Rsc => "rsc",
        DataOp::Orr => "orr",
        DataOp::Bic => "bic",
    }
}

pub fn compare_name(op: CompareOp) -> &'static str
    ensures text { result.now ≡ compare_name op }
    ensures room { length result.now ≤ 3 }
{
    match op {
        CompareOp::Tst => "tst",
        CompareOp::Teq => "teq",
        CompareOp::Cmp => "cmp",
        CompareOp::Cmn => "cmn",
    }
}

pub fn move_name(op: MoveOp) -> &'static str
    ensures text { result.now ≡ move_name op }
    ensures room { length result.now ≤ 3 }
{
    match op {
        MoveOp::Mov => "mov",
        MoveOp::Mvn => "mvn",
    }
}

pub fn half_name(op: HalfOp) -> &'static str
    ensures text { result.now ≡ half_name op }
    ensures room { length result.now ≤ 5 }
{
    match op {
        HalfOp::Strh => "strh",
        HalfOp::Ldrh => "ldrh",
        HalfOp::Ldrsb => "ldrsb",
        HalfOp::Ldrsh => "ldrsh",
    }
}

pub fn saturating_name(double: bool, subtract: bool) -> &'static str
    ensures text { result.now ≡ saturating_name double subtract }
    ensures room { length result.now ≤ 5 }
{
    match (double, subtract) {
        (false, false) => "qadd",
        (false, true) => "qsub",
        (true, false) => "qdadd",
        (true, true) => "qdsub",
    }
}

pub fn smla_name(x: bool, y: bool) -> &'static str
    ensures text { result.now ≡ codes "smla" ++ (half_letter x ++ half_letter y) }
    ensures room { length result.now ≤ 7 }
{
    match (x, y) {
        (false, false) => "smlabb",
        (false, true) => "smlabt",
        (true, false) => "smlatb",
        (true, true) => "smlatt",
    }
}

pub fn smlal_name(x: bool, y: bool) -> &'static str
    ensures text { result.now ≡ codes "smlal" ++ (half_letter x ++ half_letter y) }
    ensures room { length result.now ≤ 7 }
{
    match (x, y) {
        (false, false) => "smlalbb",
        (false, true) => "smlalbt",
        (true, false) => "smlaltb",
        (true, true) => "smlaltt",
    }
}

pub fn smul_name(x: bool, y: bool) -> &'static str
    ensures text { result.now ≡ codes "smul" ++ (half_letter x ++ half_letter y) }
    ensures room { length result.now ≤ 7 }
{
    match (x, y) {
        (false, false) => "smulbb",
        (false, true) => "smulbt",
        (true, false) => "smultb",
        (true, true) => "smultt",
    }
}

pub fn smlaw_name(y: bool) -> &'static str
    ensures text { result.now ≡ codes "smlaw" ++ half_letter y }
    ensures room { length result.now ≤ 6 }
{
    if y { "smlawt" } else { "smlawb" }
}

pub fn smulw_name(y: bool) -> &'static str
    ensures text { result.now ≡ codes "smulw" ++ half_letter y }
    ensures room { length result.now ≤ 6 }
{
    if y { "smulwt" } else { "smulwb" }
}

pub fn mul_name(set_flags: bool) -> &'static str
    ensures text { result.now ≡ codes "mul" ++ where_set set_flags (codes "s") }
    ensures room { length result.now ≤ 4 }
{
    if set_flags { "muls" } else { "mul" }
}

pub fn mla_name(set_flags: bool) -> &'static str
    ensures text { result.now ≡ codes "mla" ++ where_set set_flags (codes "s") }
    ensures room { length result.now ≤ 4 }
{
    if set_flags { "mlas" } else { "mla" }
}

pub fn long_name(signed: bool, accumulate: bool, set_flags: bool) -> &'static str
    ensures text { result.now ≡ long_name signed accumulate ++ where_set set_flags (codes "s") }
    ensures room { length result.now ≤ 6 }
{
    match (signed, accumulate, set_flags) {
        (false, false, false) => "umull",
        (false, false, true) => "umulls",
        (false, true, false) => "umlal",
        (false, true, true) => "umlals",
        (true, false, false) => "smull",
        (true, false, true) => "smulls",
        (true, true, false) => "smlal",
        (true, true, true) => "smlals",
    }
}

pub fn load_name(load: bool) -> &'static str
    ensures text { result.now ≡ load_name load }
    ensures room { length result.now ≤ 3 }
{
    if load { "ldr" } else { "str" }
}

pub fn block_mode(pre: bool, up: bool) -> &'static str
    ensures text { result.now ≡ block_mode pre up }
    ensures room { length result.now ≤ 2 }
{
    match (pre, up) {
        (false, false) => "da",
        (false, true) => "ia",
        (true, false) => "db",
        (true, true) => "ib",
    }
}

pub fn status_name(spsr: bool) -> &'static str
    ensures text { result.now ≡ status_name spsr }
    ensures room { length result.now ≤ 4 }
{
    if spsr { "spsr" } else { "cpsr" }
}

pub fn immediate_name(op: ThumbImmediateOp) -> &'static str
    ensures text { result.now ≡ immediate_name op }
    ensures room { length result.now ≤ 3 }
{
    match op {
        ThumbImmediateOp::Mov => "mov",
        ThumbImmediateOp::Cmp => "cmp",
        ThumbImmediateOp::Add => "add",
        ThumbImmediateOp::Sub => "sub",
    }
}

pub fn thumb_data_name(op: ThumbDataOp) -> &'static str
    ensures text { result.now ≡ thumb_data_name op }
    ensures room { length result.now ≤ 3 }
{
    match op {
        ThumbDataOp::And => "and",
        ThumbDataOp::Eor => "eor",
        ThumbDataOp::Lsl => "lsl",
        ThumbDataOp::Lsr => "lsr",
        ThumbDataOp::Asr => "asr",
        ThumbDataOp::Adc => "adc",
        ThumbDataOp::Sbc => "sbc",
        ThumbDataOp::Ror => "ror",
        ThumbDataOp::Tst => "tst",
        ThumbDataOp::Neg => "neg",
        ThumbDataOp::Cmp => "cmp",
        ThumbDataOp::Cmn => "cmn",
        ThumbDataOp::Orr => "orr",
        ThumbDataOp::Mul => "mul",
        ThumbDataOp::Bic => "bic",
        ThumbDataOp::Mvn => "mvn",
    }
}

pub fn high_name(op: HighOp) -> &'static str
    ensures text { result.now ≡ high_name op }
    ensures room { length result.now ≤ 4 }
{
    match op {
        HighOp::Add => "addh",
        HighOp::Cmp => "cmph",
        HighOp::Mov => "movh",
    }
}

pub fn transfer_name(op: ThumbTransferOp) -> &'static str
    ensures text { result.now ≡ transfer_name op }
    ensures room { length result.now ≤ 5 }
{
    match op {
        ThumbTransferOp::Str => "str",
        ThumbTransferOp::Strh => "strh",
        ThumbTransferOp::Strb => "strb",
        ThumbTransferOp::Ldrsb => "ldrsb",
        ThumbTransferOp::Ldr => "ldr",
        ThumbTransferOp::Ldrh => "ldrh",
        ThumbTransferOp::Ldrb => "ldrb",
        ThumbTransferOp::Ldrsh => "ldrsh",
    }
}
