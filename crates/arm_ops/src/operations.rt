//! The operations.

use arm_core::Addressed;
use arm_words::{Condition, DataOp, HalfOp, Instr, Shift};

/// A number as a second operand, which with a rotation gives C as its bit 31.
#[derive(Clone, Copy)]
pub struct Number {
    /// Whether it has no rotation.
    pub keeps_carry: bool,
    /// The number.
    pub value: u32,
}

/// A register that an amount shifts, as a second operand or an offset.
#[derive(Clone, Copy)]
pub struct ShiftedRegister {
    /// The register.
    pub rm: u8,
    /// How it is shifted.
    pub shift: Shift,
    /// By how much, below 32.
    pub amount: u8,
}

/// What an access of data is.
#[derive(Clone, Copy)]
pub enum TransferOp {
    /// LDR, LDRB, STR or STRB, by L and B.
    WordOrByte { load: bool, byte: bool },
    /// STRH, LDRH, LDRSB or LDRSH.
    HalfOrSigned { op: HalfOp },
}

/// What a load or store of one register does, beside its offset.
#[derive(Clone, Copy)]
pub struct Transfer {
    /// What its access is.
    pub op: TransferOp,
    /// Whether the offset is added before the access.
    pub pre: bool,
    /// Whether it is added, and not taken away.
    pub up: bool,
    /// Whether the base is written back.
    pub write_back: bool,
    /// The base.
    pub rn: u8,
    /// The register that is loaded or stored.
    pub rd: u8,
}

/// What a load or store of several registers does: LDM or STM of the mode's own registers.
#[derive(Clone, Copy)]
pub struct RegisterList {
    /// Whether the base itself is left out: P.
    pub pre: bool,
    /// Whether the registers go up from the base: U.
    pub up: bool,
    /// Whether the base is written back.
    pub write_back: bool,
    /// Whether they are loaded, and not stored.
    pub load: bool,
    /// The base.
    pub rn: u8,
    /// The registers, a bit for each.
    pub list: u16,
}

/// The access of data that an operation makes.
#[derive(Clone, Copy)]
pub struct DataAccess {
    /// What it is.
    pub op: TransferOp,
    /// Its base.
    pub rn: u8,
    /// The register that is loaded or stored.
    pub rd: u8,
    /// Where it goes.
    pub to: Addressed,
}

/// What an instruction does where its condition holds, with its operands made. (Our choice of forms; the operations are those of the ARM manual's
/// A4.1 under their names.) What is frequent and has registers below r15 alone has a variant for each operation and form of its second operand, so
/// that one jump finds what to do; what is rarer is an instruction as it is. A name with `s` behind the operation sets the flags.
#[derive(Clone, Copy)]
pub enum Op {
    /// Another instruction, or none.
    Other,
    /// AND with a number.
    AndNumber {
        rd: u8,
        rn: u8,
        value: u32,
    },
    /// EOR with a number.
    EorNumber {
        rd: u8,
        rn: u8,
        value: u32,
    },
    /// SUB with a number.
    SubNumber {
        rd: u8,
        rn: u8,
        value: u32,
    },
    /// RSB with a number.
    RsbNumber {
        rd: u8,
        rn: u8,
        value: u32,
    },
    /// ADD with a number.
    AddNumber {
        rd: u8,
        rn: u8,
        value: u32,
    },
    /// ORR with a number.
    OrrNumber {
        rd: u8,
        rn: u8,
        value: u32,
    },
    /// BIC with a number.
    BicNumber {
        rd: u8,
        rn: u8,
        value: u32,
    },
    /// AND with a register.
    AndRegister {
        rd: u8,
        rn: u8,
        rm: u8,
    },
    /// EOR with a register.
    EorRegister {
        rd: u8,
        rn: u8,
        rm: u8,
    },
    /// SUB with a register.
    SubRegister {
        rd: u8,
        rn: u8,
        rm: u8,
    },
    /// RSB with a register.
    RsbRegister {
        rd: u8,
        rn: u8,
        rm: u8,
    },
    /// ADD with a register.
    AddRegister {
        rd: u8,
        rn: u8,
        rm: u8,
    },
    /// ORR with a register.
    OrrRegister {
        rd: u8,
        rn: u8,
        rm: u8,
    },
    /// BIC with a register.
    BicRegister {
        rd: u8,
        rn: u8,
        rm: u8,
    },
    /// SUBS with a number.
    SubsNumber {
        rd: u8,
        rn: u8,
        value: u32,
    },
    /// ADDS with a number.
    AddsNumber {
        rd: u8,
        rn: u8,
        value: u32,
    },
    /// ANDS with a register.
    AndsRegister {
        rd: u8,
        rn: u8,
        rm: u8,
    },
    /// EORS with a register.
    EorsRegister {
        rd: u8,
        rn: u8,
        rm: u8,
    },
    /// SUBS with a register.
    SubsRegister {
        rd: u8,
        rn: u8,
        rm: u8,
    },
    /// ADDS with a register.
    AddsRegister {
        rd: u8,
        rn: u8,
        rm: u8,
    },
    /// ORRS with a register.
    OrrsRegister {
        rd: u8,
        rn: u8,
        rm: u8,
    },
    /// BICS with a register.
    BicsRegister {
        rd: u8,
        rn: u8,
        rm: u8,
    },
    /// Data processing with a register that an amount shifts, which leaves the flags.
    DataShifted {
        op: DataOp,
        rd: u8,
        rn: u8,
        by: ShiftedRegister,
    },
    /// Data processing with a register that another shifts, which leaves the flags.
    DataShiftedBy {
        op: DataOp,
        rd: u8,
        rn: u8,
        rm: u8,
        shift: Shift,
        rs: u8,
    },
    /// TST with a number, from which it may take C.
    TstNumber {
        rn: u8,
        number: Number,
    },
    /// CMP with a number.
    CmpNumber {
        rn: u8,
        value: u32,
    },
    /// CMN with a number.
    CmnNumber {
        rn: u8,
        value: u32,
    },
    /// TST with a register.
    TstRegister {
        rn: u8,
        rm: u8,
    },
    /// CMP with a register.
    CmpRegister {
        rn: u8,
        rm: u8,
    },
    /// MOV of a number, or MVN of its complement.
    MovNumber {
        rd: u8,
        value: u32,
    },
    /// MOVS of a number, from which it may take C.
    MovsNumber {
        rd: u8,
        number: Number,
    },
    /// MOV of a register that an amount shifts, by LSL.
    MovLsl {
        rd: u8,
        rm: u8,
        amount: u8,
    },
    /// MOV of a register that an amount shifts, by LSR.
    MovLsr {
        rd: u8,
        rm: u8,
        amount: u8,
    },
    /// MOV of a register that an amount shifts, by ASR.
    MovAsr {
        rd: u8,
        rm: u8,
        amount: u8,
    },
    /// MOV of a register that an amount shifts, by ROR.
    MovRor {
        rd: u8,
        rm: u8,
        amount: u8,
    },
    /// MOVS of a register that an amount shifts, by LSL.
    MovsLsl {
        rd: u8,
        rm: u8,
        amount: u8,
    },
    /// MOVS of a register that an amount shifts, by LSR.
    MovsLsr {
        rd: u8,
        rm: u8,
        amount: u8,
    },
    /// MOVS of a register that an amount shifts, by ASR.
    MovsAsr {
        rd: u8,
        rm: u8,
        amount: u8,
    },
    /// MUL, which leaves the flags. It may have r15.
    Mul {
        rd: u8,
        rm: u8,
        rs: u8,
    },
    /// MLA, which leaves the flags. It may have r15.
    Mla {
        rd: u8,
        rm: u8,
        rs: u8,
        rn: u8,
    },
    /// A branch by a distance in bytes, modulo 2^32, from what r15 reads as.
    Branch {
        link: bool,
        far: u32,
    },
    /// BX.
    Exchange {
        rm: u8,
    },
    /// The first half of Thumb's BL and BLX; `offset` is below 2,048.
    LinkPrefix {
        offset: u16,
    },
    /// The second half of Thumb's BL; `offset` is below 2,048.
    LinkSuffix {
        offset: u16,
    },
    /// LDR at a register and a number. The base stays.
    LdrNumber {
        rd: u8,
        rn: u8,
        offset: u16,
    },
    /// LDRB at a register and a number. The base stays.
    LdrbNumber {
        rd: u8,
        rn: u8,
        offset: u16,
    },
    /// LDRH at a register and a number. The base stays.
    LdrhNumber {
        rd: u8,
        rn: u8,
        offset: u16,
    },
    /// STR at a register and a number. The base stays.
    StrNumber {
        rd: u8,
        rn: u8,
        offset: u16,
    },
    /// STRB at a register and a number. The base stays.
    StrbNumber {
        rd: u8,
        rn: u8,
        offset: u16,
    },
    /// STRH at a register and a number. The base stays.
    StrhNumber {
        rd: u8,
        rn: u8,
        offset: u16,
    },
    /// LDR at two registers. The base stays.
    LdrRegister {
        rd: u8,
        rn: u8,
        rm: u8,
    },
    /// LDRB at two registers. The base stays.
    LdrbRegister {
        rd: u8,
        rn: u8,
        rm: u8,
    },
    /// LDRH at two registers. The base stays.
    LdrhRegister {
        rd: u8,
        rn: u8,
        rm: u8,
    },
    /// STR at two registers. The base stays.
    StrRegister {
        rd: u8,
        rn: u8,
        rm: u8,
    },
    /// STRB at two registers. The base stays.
    StrbRegister {
        rd: u8,
        rn: u8,
        rm: u8,
    },
    /// STRH at two registers. The base stays.
    StrhRegister {
        rd: u8,
        rn: u8,
        rm: u8,
    },
    /// A load of a signed byte or half at a register and a number. The base stays.
    AccessNumber {
        op: TransferOp,
        rd: u8,
        rn: u8,
        offset: u16,
    },
    /// A load of a signed byte or half at two registers. The base stays.
    AccessRegister {
        op: TransferOp,
        rd: u8,
        rn: u8,
        rm: u8,
    },
    /// Another load or store with a number as its offset.
    TransferNumber(Transfer, u16),
    /// Another load or store with a register as it is as its offset.
    TransferRegister(Transfer, u8),
    /// A load or store with a register that an amount shifts as its offset.
    TransferShifted(Transfer, ShiftedRegister),
    /// Thumb's load of a word behind r15.
    Literal {
        rd: u8,
        immed: u8,
    },
    /// LDM or STM of the mode's own registers, of one at least, by a base that isn't r15.
    Multiple(RegisterList),
    /// An instruction as it is, which makes no access and needs nothing that is left out.
    Plain(Instr),
}

/// An operation with the condition under which it takes effect.
#[derive(Clone, Copy)]
pub struct Operation {
    /// The condition.
    pub cond: Condition,
    /// The operation.
    pub op: Op,
}
