//! The operations that rows of one shape choose from, each in the order of its numbers in the ARM manual's encoding.

/// Data processing with a result and two operands (ARM manual, "Data-processing instructions"): numbers 0 to 7, 12 and 14.
#[derive(Clone, Copy)]
pub enum DataOp {
    And,
    Eor,
    Sub,
    Rsb,
    Add,
    Adc,
    Sbc,
    Rsc,
    Orr,
    Bic,
}

/// Data processing that sets the flags alone: numbers 8 to 11.
#[derive(Clone, Copy)]
pub enum CompareOp {
    Tst,
    Teq,
    Cmp,
    Cmn,
}

/// Data processing with one operand: numbers 13 and 15.
#[derive(Clone, Copy)]
pub enum MoveOp {
    Mov,
    Mvn,
}

/// Transfers of a half or of a signed byte (ARM manual, "Load and store halfword and load signed byte"), by L, S and H: 001, 101,
/// 110 and 111.
#[derive(Clone, Copy)]
pub enum HalfOp {
    Strh,
    Ldrh,
    Ldrsb,
    Ldrsh,
}

/// Thumb's operations on a register and a byte (ARM manual, "Thumb instruction set encoding": move, compare, add and subtract
/// immediate).
#[derive(Clone, Copy)]
pub enum ThumbImmediateOp {
    Mov,
    Cmp,
    Add,
    Sub,
}

/// Thumb's data processing on two low registers.
#[derive(Clone, Copy)]
pub enum ThumbDataOp {
    And,
    Eor,
    Lsl,
    Lsr,
    Asr,
    Adc,
    Sbc,
    Ror,
    Tst,
    Neg,
    Cmp,
    Cmn,
    Orr,
    Mul,
    Bic,
    Mvn,
}

/// Thumb's operations that reach the high registers.
#[derive(Clone, Copy)]
pub enum HighOp {
    Add,
    Cmp,
    Mov,
}

/// Thumb's transfers whose offset is a register.
#[derive(Clone, Copy)]
pub enum ThumbTransferOp {
    Str,
    Strh,
    Strb,
    Ldrsb,
    Ldr,
    Ldrh,
    Ldrb,
    Ldrsh,
}
