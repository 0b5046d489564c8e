//! What a word or half can stand for.

use crate::operations::{
    CompareOp, DataOp, HalfOp, HighOp, MoveOp, ThumbDataOp, ThumbImmediateOp, ThumbTransferOp,
};
use crate::parts::{Condition, FieldMask, Offset, Operand, Shift, ShortOffset, ThumbOperand};

/// An instruction: its row of the table, and that row's fields. Registers are numbers below 16, and below 8 where Thumb has three
/// bits for them. Names are those of the ARM Architecture Reference Manual; where it has a single letter for a bit, the letter
/// stands in the comment.
///
/// `load` is L, `byte` B, `link` L, `spsr` R, `set_flags` S; in transfers `pre` is P (the offset is added before the access),
/// `up` is U (added, not taken away) and `write_back` is W. With `pre` false and `write_back` true a transfer of a word or byte is
/// its `t` form.
#[derive(Clone, Copy)]
pub enum Instr {
    /// BX rm.
    Bx {
        cond: Condition,
        rm: u8,
    },
    /// BLX rm (BLX (2); ARMv5).
    BlxRegister {
        cond: Condition,
        rm: u8,
    },
    /// BKPT (ARMv5); always executed.
    Bkpt {
        immed: u16,
    },
    /// CLZ rd, rm (ARMv5).
    Clz {
        cond: Condition,
        rd: u8,
        rm: u8,
    },
    /// QADD, QSUB, QDADD, QDSUB rd, rm, rn (ARMv5).
    Saturating {
        cond: Condition,
        double: bool,
        subtract: bool,
        rd: u8,
        rm: u8,
        rn: u8,
    },
    /// SMLAxy rd, rm, rs, rn (ARMv5); `x` and `y` choose the top half of rm and of rs.
    Smla {
        cond: Condition,
        x: bool,
        y: bool,
        rd: u8,
        rm: u8,
        rs: u8,
        rn: u8,
    },
    /// SMLAWy rd, rm, rs, rn (ARMv5).
    Smlaw {
        cond: Condition,
        y: bool,
        rd: u8,
        rm: u8,
        rs: u8,
        rn: u8,
    },
    /// SMULWy rd, rm, rs (ARMv5).
    Smulw {
        cond: Condition,
        y: bool,
        rd: u8,
        rm: u8,
        rs: u8,
    },
    /// SMLALxy rd_lo, rd_hi, rm, rs (ARMv5).
    Smlal {
        cond: Condition,
        x: bool,
        y: bool,
        rd_lo: u8,
        rd_hi: u8,
        rm: u8,
        rs: u8,
    },
    /// SMULxy rd, rm, rs (ARMv5).
    Smul {
        cond: Condition,
        x: bool,
        y: bool,
        rd: u8,
        rm: u8,
        rs: u8,
    },
    /// MUL rd, rm, rs.
    Mul {
        cond: Condition,
        set_flags: bool,
        rd: u8,
        rm: u8,
        rs: u8,
    },
    /// MLA rd, rm, rs, rn.
    Mla {
        cond: Condition,
        set_flags: bool,
        rd: u8,
        rm: u8,
        rs: u8,
        rn: u8,
    },
    /// UMULL, UMLAL, SMULL, SMLAL rd_lo, rd_hi, rm, rs.
    LongMultiply {
        cond: Condition,
        signed: bool,
        accumulate: bool,
        set_flags: bool,
        rd_lo: u8,
        rd_hi: u8,
        rm: u8,
        rs: u8,
    },
    /// SWP, SWPB rd, rm, [rn].
    Swap {
        cond: Condition,
        byte: bool,
        rd: u8,
        rm: u8,
        rn: u8,
    },
    /// STRH, LDRH, LDRSB, LDRSH.
    HalfTransfer {
        cond: Condition,
        op: HalfOp,
        pre: bool,
        up: bool,
        write_back: bool,
        rn: u8,
        rd: u8,
        offset: ShortOffset,
    },
    /// MRS rd, CPSR or SPSR.
    Mrs {
        cond: Condition,
        spsr: bool,
        rd: u8,
    },
    /// MSR CPSR or SPSR, rm.
    Msr {
        cond: Condition,
        spsr: bool,
        fields: FieldMask,
        rm: u8,
    },
    /// MSR CPSR or SPSR, the byte `immed` rotated right by twice `rotate`, which is below 16.
    MsrImmediate {
        cond: Condition,
        spsr: bool,
        fields: FieldMask,
        rotate: u8,
        immed: u8,
    },
    /// TST, TEQ, CMP, CMN rn, operand.
    Compare {
        cond: Condition,
        op: CompareOp,
        rn: u8,
        operand: Operand,
    },
    /// MOV, MVN rd, operand.
    Move {
        cond: Condition,
        op: MoveOp,
        set_flags: bool,
        rd: u8,
        operand: Operand,
    },
    /// The other data processing: rd, rn, operand.
    Data {
        cond: Condition,
        op: DataOp,
        set_flags: bool,
        rn: u8,
        rd: u8,
        operand: Operand,
    },
    /// LDRD, STRD (ARMv5); rd is even.
    DoubleTransfer {
        cond: Condition,
        store: bool,
        pre: bool,
        up: bool,
        write_back: bool,
        rn: u8,
        rd: u8,
        offset: ShortOffset,
    },
    /// STR, LDR, STRB, LDRB and their `t` forms.
    Transfer {
        cond: Condition,
        pre: bool,
        up: bool,
        byte: bool,
        write_back: bool,
        load: bool,
        rn: u8,
        rd: u8,
        offset: Offset,
    },
    /// STM, LDM. `user` is S, written `^`; bit i of `list` is register i.
    Multiple {
        cond: Condition,
        pre: bool,
        up: bool,
        user: bool,
        write_back: bool,
        load: bool,
        rn: u8,
        list: u16,
    },
    /// B, BL; `offset` is the field of 24 bits, a signed number of words.
    Branch {
        cond: Condition,
        link: bool,
        offset: u32,
    },
    /// MCR, MRC (`load`), of coprocessor `cp`; the operations are below 8 (ARMv5).
    Coprocessor {
        cond: Condition,
        load: bool,
        op1: u8,
        crn: u8,
        rd: u8,
        cp: u8,
        op2: u8,
        crm: u8,
    },
    /// SWI; `immed` is below 2^24.
    Swi {
        cond: Condition,
        immed: u32,
    },
    /// BLX to a target (BLX (1); ARMv5); `half` is H, which adds 2.
    BlxTarget {
        half: bool,
        offset: u32,
    },
    /// PLD [rn, offset] (ARMv5).
    Pld {
        up: bool,
        rn: u8,
        offset: Offset,
    },
    /// A word with condition 1111 on ARMv4, which does nothing; `immed` is its other 28 bits.
    Never {
        immed: u32,
    },

    /// Thumb's ADD, SUB rd, rn, operand.
    ThumbAddSub {
        subtract: bool,
        operand: ThumbOperand,
        rn: u8,
        rd: u8,
    },
    /// Thumb's LSL, LSR, ASR rd, rm, amount; `shift` isn't Ror.
    ThumbShift {
        shift: Shift,
        amount: u8,
        rm: u8,
        rd: u8,
    },
    /// Thumb's MOV, CMP, ADD, SUB rd, immed.
    ThumbImmediate {
        op: ThumbImmediateOp,
        rd: u8,
        immed: u8,
    },
    /// Thumb's data processing rd, rm.
    ThumbData {
        op: ThumbDataOp,
        rm: u8,
        rd: u8,
    },
    /// Thumb's BX rm, which is below 16.
    ThumbBx {
        rm: u8,
    },
    /// Thumb's BLX rm, which is below 16 (ARMv5).
    ThumbBlxRegister {
        rm: u8,
    },
    /// Thumb's ADD, CMP, MOV rd, rm, both below 16.
    ThumbHigh {
        op: HighOp,
        rm: u8,
        rd: u8,
    },
    /// Thumb's LDR rd, [r15, 4 immed].
    ThumbLoadLiteral {
        rd: u8,
        immed: u8,
    },
    /// Thumb's transfers rd, [rn, rm].
    ThumbRegisterOffset {
        op: ThumbTransferOp,
        rm: u8,
        rn: u8,
        rd: u8,
    },
    /// Thumb's STR, LDR rd, [rn, 4 immed] and STRB, LDRB rd, [rn, immed]; `immed` is below 32.
    ThumbImmediateOffset {
        byte: bool,
        load: bool,
        immed: u8,
        rn: u8,
        rd: u8,
    },
    /// Thumb's STRH, LDRH rd, [rn, 2 immed]; `immed` is below 32.
    ThumbHalfOffset {
        load: bool,
        immed: u8,
        rn: u8,
        rd: u8,
    },
    /// Thumb's STR, LDR rd, [r13, 4 immed].
    ThumbStackOffset {
        load: bool,
        rd: u8,
        immed: u8,
    },
    /// Thumb's ADD rd, r15 or r13 (`stack`), 4 immed.
    ThumbAddress {
        stack: bool,
        rd: u8,
        immed: u8,
    },
    /// Thumb's ADD, SUB r13, 4 immed; `immed` is below 128.
    ThumbAdjustStack {
        subtract: bool,
        immed: u8,
    },
    /// Thumb's PUSH, POP (`load`); `extra` is R: r14 for PUSH and r15 for POP.
    ThumbPushPop {
        load: bool,
        extra: bool,
        list: u8,
    },
    /// Thumb's BKPT (ARMv5).
    ThumbBkpt {
        immed: u8,
    },
    /// Thumb's STMIA, LDMIA rn!, list.
    ThumbMultiple {
        load: bool,
        rn: u8,
        list: u8,
    },
    /// Thumb's B with a condition, which isn't Al; `offset` is a signed number of halves.
    ThumbBranchIf {
        cond: Condition,
        offset: u8,
    },
    /// Thumb's SWI.
    ThumbSwi {
        immed: u8,
    },
    /// Thumb's B; `offset` is the field of 11 bits, a signed number of halves.
    ThumbBranch {
        offset: u16,
    },
    /// The second half of Thumb's BLX (ARMv5); `offset` is below 2,048 and even.
    ThumbBlxSuffix {
        offset: u16,
    },
    /// The first half of Thumb's BL and BLX; `offset` is below 2,048.
    ThumbBlPrefix {
        offset: u16,
    },
    /// The second half of Thumb's BL; `offset` is below 2,048.
    ThumbBlSuffix {
        offset: u16,
    },
}
