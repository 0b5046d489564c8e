//! The parts that several instructions share. Their names are those of the ARM Architecture Reference Manual.

/// When an instruction takes effect (ARM manual, "The condition field"), in the order of the field's numbers 0 to 14.
#[derive(Clone, Copy)]
pub enum Condition {
    /// Z is set.
    Eq,
    /// Z is clear.
    Ne,
    /// C is set.
    Cs,
    /// C is clear.
    Cc,
    /// N is set.
    Mi,
    /// N is clear.
    Pl,
    /// V is set.
    Vs,
    /// V is clear.
    Vc,
    /// C is set and Z is clear.
    Hi,
    /// C is clear or Z is set.
    Ls,
    /// N is V.
    Ge,
    /// N isn't V.
    Lt,
    /// Z is clear and N is V.
    Gt,
    /// Z is set or N isn't V.
    Le,
    /// Always.
    Al,
}

/// How a register is shifted (ARM manual, "Data-processing operands"), in the order of the field's numbers 0 to 3.
#[derive(Clone, Copy)]
pub enum Shift {
    /// Left.
    Lsl,
    /// Right, with zeros.
    Lsr,
    /// Right, with the sign.
    Asr,
    /// Round to the right.
    Ror,
}

/// The last operand of data processing (ARM manual, "Addressing mode 1").
#[derive(Clone, Copy)]
pub enum Operand {
    /// The byte `immed`, rotated right by twice `rotate`, which is below 16.
    Immediate { rotate: u8, immed: u8 },
    /// Register `rm`, shifted by `amount`, which is below 32. An `amount` of 0 stands for 32 at Lsr and Asr, and for a rotation
    /// through C at Ror.
    Shifted { rm: u8, shift: Shift, amount: u8 },
    /// Register `rm`, shifted by register `rs`.
    ShiftedByRegister { rm: u8, shift: Shift, rs: u8 },
}

/// What is added to or taken from the base of a transfer of a word or byte (ARM manual, "Addressing mode 2").
#[derive(Clone, Copy)]
pub enum Offset {
    /// A number below 4,096.
    Number { offset: u16 },
    /// Register `rm`, shifted by `amount` below 32, as in `Operand::Shifted`.
    Register { rm: u8, shift: Shift, amount: u8 },
}

/// What is added to or taken from the base of a transfer of a half, of a signed byte or of two words (ARM manual, "Addressing
/// mode 3").
#[derive(Clone, Copy)]
pub enum ShortOffset {
    /// A number below 256.
    ShortNumber { offset: u8 },
    /// Register `rm`.
    ShortRegister { rm: u8 },
}

/// Which fields of a status register MSR writes (ARM manual, "MSR").
#[derive(Clone, Copy)]
pub struct FieldMask {
    /// Bits 31 to 24, the flags.
    pub f: bool,
    /// Bits 23 to 16, the status.
    pub s: bool,
    /// Bits 15 to 8, the extension.
    pub x: bool,
    /// Bits 7 to 0, the control.
    pub c: bool,
}

/// The last operand of Thumb's ADD and SUB of three operands (ARM manual, "ADD (1)", "ADD (3)").
#[derive(Clone, Copy)]
pub enum ThumbOperand {
    /// Register `rm`, below 8.
    LowRegister { rm: u8 },
    /// A number below 8.
    Small { immed: u8 },
}
