//! Instructions made into operations.

ghost use Rattle.std.specs.Prelude.{◌≡◌, ◌<◌, ℕ, IfSome, true, if◌then◌else◌};
ghost use Rattle.arm_words.specs.Fields.{HasFields, HasOperand};
ghost use Rattle.arm_words.specs.declared.parts.Condition.TheVariants.{Al};
ghost use Rattle.arm_core.specs.Meanings.{meaning};
ghost use Rattle.ds_base.specs.declared.processors.Arch.{Arch};
ghost use Rattle.arm_core.specs.Registers.{RegisterState};
ghost use Rattle.arm_ops.specs.Meanings.{operation_meaning};
ghost use Rattle.arm_ops.specs.Operations as ops;
ghost use Rattle.arm_ops.specs.Operations.{is_decoded, operation_of, HasOp, HasOperation};

use crate::operations::{
    Number, Op, Operation, RegisterList, ShiftedRegister, Transfer, TransferOp,
};
use arm_core::{condition, equivalent, rotated_immediate};
use arm_exec::{distance8, distance11, distance24};
use arm_words::{
    CompareOp, Condition, DataOp, HalfOp, Instr, MoveOp, Offset, Operand, Shift, ShortOffset,
};

/// Whether a shift leaves a register as it is.
fn is_plain(shift: Shift, amount: u8) -> bool
    ensures { result ≡ ops.is_plain shift amount }
{
    matches!(shift, Shift::Lsl) && amount == 0
}

/// An immediate as a number.
fn rotated_number(rotate: u8, immed: u8) -> Number
    requires { rotate < 16 }
    ensures { result ≡ ops.rotated_number rotate immed }
{
    Number {
        keeps_carry: rotate == 0,
        value: rotated_immediate(rotate, immed, false).value,
    }
}

/// Data processing of registers below r15 with a number, by its operation and whether it sets the flags.
fn data_number(instr: Instr, op: DataOp, set_flags: bool, rd: u8, rn: u8, value: u32) -> Op
    ensures { result ≡ ops.data_number instr op set_flags rd rn value }
{
    match (op, set_flags) {
        (DataOp::And, false) => Op::AndNumber { rd, rn, value },
        (DataOp::Eor, false) => Op::EorNumber { rd, rn, value },
        (DataOp::Sub, false) => Op::SubNumber { rd, rn, value },
        (DataOp::Rsb, false) => Op::RsbNumber { rd, rn, value },
        (DataOp::Add, false) => Op::AddNumber { rd, rn, value },
        (DataOp::Orr, false) => Op::OrrNumber { rd, rn, value },
        (DataOp::Bic, false) => Op::BicNumber { rd, rn, value },
        (DataOp::Sub, true) => Op::SubsNumber { rd, rn, value },
        (DataOp::Add, true) => Op::AddsNumber { rd, rn, value },
        _ => Op::Plain(instr),
    }
}

/// The same with a register.
fn data_register(instr: Instr, op: DataOp, set_flags: bool, rd: u8, rn: u8, rm: u8) -> Op
    ensures { result ≡ ops.data_register instr op set_flags rd rn rm }
{
    match (op, set_flags) {
        (DataOp::And, false) => Op::AndRegister { rd, rn, rm },
        (DataOp::Eor, false) => Op::EorRegister { rd, rn, rm },
        (DataOp::Sub, false) => Op::SubRegister { rd, rn, rm },
        (DataOp::Rsb, false) => Op::RsbRegister { rd, rn, rm },
        (DataOp::Add, false) => Op::AddRegister { rd, rn, rm },
        (DataOp::Orr, false) => Op::OrrRegister { rd, rn, rm },
        (DataOp::Bic, false) => Op::BicRegister { rd, rn, rm },
        (DataOp::And, true) => Op::AndsRegister { rd, rn, rm },
        (DataOp::Eor, true) => Op::EorsRegister { rd, rn, rm },
        (DataOp::Sub, true) => Op::SubsRegister { rd, rn, rm },
        (DataOp::Add, true) => Op::AddsRegister { rd, rn, rm },
        (DataOp::Orr, true) => Op::OrrsRegister { rd, rn, rm },
        (DataOp::Bic, true) => Op::BicsRegister { rd, rn, rm },
        _ => Op::Plain(instr),
    }
}

/// The same with a register that an amount shifts, or that is as it is.
fn data_plain_or_shifted(
    instr: Instr,
    op: DataOp,
    set_flags: bool,
    rd: u8,
    rn: u8,
    by: ShiftedRegister,
) -> Op
    ensures { result ≡ ops.data_plain_or_shifted instr op set_flags rd rn by.rm by.shift by.amount }
{
    if is_plain(by.shift, by.amount) {
        return data_register(instr, op, set_flags, rd, rn, by.rm);
    }
    if set_flags {
        return Op::Plain(instr);
    }
    Op::DataShifted { op, rd, rn, by }
}

/// Data processing with a register that another shifts.
fn data_by_shift(
    instr: Instr,
    op: DataOp,
    set_flags: bool,
    rd: u8,
    rn: u8,
    rm: u8,
    shift: Shift,
    rs: u8,
) -> Op
    ensures { result ≡ ops.data_by_shift instr op set_flags rd rn rm shift rs }
{
    if set_flags {
        return Op::Plain(instr);
    }
    Op::DataShiftedBy {
        op,
        rd,
        rn,
        rm,
        shift,
        rs,
    }
}

/// Data processing, by its second operand; what has r15 is done by the instruction itself.
fn data_op(instr: Instr, op: DataOp, set_flags: bool, rd: u8, rn: u8, operand: Operand) -> Op
    requires { HasOperand operand }
    ensures { result ≡ ops.data_op instr op set_flags rd rn operand }
{
    match operand {
        Operand::Immediate { rotate, immed } => {
            if rd == 15 || rn == 15 {
                return Op::Plain(instr);
            }
            data_number(
                instr,
                op,
                set_flags,
                rd,
                rn,
                rotated_number(rotate, immed).value,
            )
        }
        Operand::Shifted { rm, shift, amount } => {
            if rd == 15 || rn == 15 || rm == 15 {
                return Op::Plain(instr);
            }
            let by = ShiftedRegister { rm, shift, amount };
            data_plain_or_shifted(instr, op, set_flags, rd, rn, by)
        }
        Operand::ShiftedByRegister { rm, shift, rs } => {
            if rd == 15 || rn == 15 || rm == 15 || rs == 15 {
                return Op::Plain(instr);
            }
            data_by_shift(instr, op, set_flags, rd, rn, rm, shift, rs)
        }
    }
}

/// A comparison of a register below r15 with a number.
fn compare_number(instr: Instr, op: CompareOp, rn: u8, number: Number) -> Op
    ensures { result ≡ ops.compare_number instr op rn number }
{
    let value = number.value;
    match op {
        CompareOp::Tst => Op::TstNumber { rn, number },
        CompareOp::Cmp => Op::CmpNumber { rn, value },
        CompareOp::Cmn => Op::CmnNumber { rn, value },
        CompareOp::Teq => Op::Plain(instr),
    }
}

/// The same with a register.
fn compare_register(instr: Instr, op: CompareOp, rn: u8, rm: u8) -> Op
    ensures { result ≡ ops.compare_register instr op rn rm }
{
    match op {
        CompareOp::Tst => Op::TstRegister { rn, rm },
        CompareOp::Cmp => Op::CmpRegister { rn, rm },
        CompareOp::Teq | CompareOp::Cmn => Op::Plain(instr),
    }
}

/// A comparison, by its second operand.
fn compare_op(instr: Instr, op: CompareOp, rn: u8, operand: Operand) -> Op
    requires { HasOperand operand }
    ensures { result ≡ ops.compare_op instr op rn operand }
{
    match operand {
        Operand::Immediate { rotate, immed } => {
            if rn == 15 {
                return Op::Plain(instr);
            }
            compare_number(instr, op, rn, rotated_number(rotate, immed))
        }
        Operand::Shifted { rm, shift, amount } => {
            if rn == 15 || rm == 15 {
                return Op::Plain(instr);
            }
            if is_plain(shift, amount) {
                return compare_register(instr, op, rn, rm);
            }
            Op::Plain(instr)
        }
        Operand::ShiftedByRegister { .. } => Op::Plain(instr),
    }
}

/// A move of a number to a register below r15. MVNS takes C from the number, and not from its complement.
fn move_number(instr: Instr, op: MoveOp, set_flags: bool, rd: u8, number: Number) -> Op
    ensures { result ≡ ops.move_number instr op set_flags rd number }
{
    let value = number.value;
    match (op, set_flags) {
        (MoveOp::Mov, false) => Op::MovNumber { rd, value },
        (MoveOp::Mvn, false) => Op::MovNumber { rd, value: !value },
        (MoveOp::Mov, true) => Op::MovsNumber { rd, number },
        (MoveOp::Mvn, true) => Op::Plain(instr),
    }
}

/// A move of a register that an amount shifts to one below r15.
fn move_shifted(instr: Instr, op: MoveOp, set_flags: bool, rd: u8, by: ShiftedRegister) -> Op
    ensures { result ≡ ops.move_shifted instr op set_flags rd by.rm by.shift by.amount }
{
    let ShiftedRegister { rm, shift, amount } = by;
    match (op, set_flags, shift) {
        (MoveOp::Mov, false, Shift::Lsl) => Op::MovLsl { rd, rm, amount },
        (MoveOp::Mov, false, Shift::Lsr) => Op::MovLsr { rd, rm, amount },
        (MoveOp::Mov, false, Shift::Asr) => Op::MovAsr { rd, rm, amount },
        (MoveOp::Mov, false, Shift::Ror) => Op::MovRor { rd, rm, amount },
        (MoveOp::Mov, true, Shift::Lsl) => Op::MovsLsl { rd, rm, amount },
        (MoveOp::Mov, true, Shift::Lsr) => Op::MovsLsr { rd, rm, amount },
        (MoveOp::Mov, true, Shift::Asr) => Op::MovsAsr { rd, rm, amount },
        _ => Op::Plain(instr),
    }
}

/// A move, by its operand.
fn move_op(instr: Instr, op: MoveOp, set_flags: bool, rd: u8, operand: Operand) -> Op
    requires { HasOperand operand }
    ensures { result ≡ ops.move_op instr op set_flags rd operand }
{
    match operand {
        Operand::Immediate { rotate, immed } => {
            if rd == 15 {
                return Op::Plain(instr);
            }
            move_number(instr, op, set_flags, rd, rotated_number(rotate, immed))
        }
        Operand::Shifted { rm, shift, amount } => {
            if rd == 15 || rm == 15 {
                return Op::Plain(instr);
            }
            move_shifted(
                instr,
                op,
                set_flags,
                rd,
                ShiftedRegister { rm, shift, amount },
            )
        }
        Operand::ShiftedByRegister { .. } => Op::Plain(instr),
    }
}

/// MUL.
fn mul_op(instr: Instr, set_flags: bool, rd: u8, rm: u8, rs: u8) -> Op
    ensures { result ≡ ops.mul_op instr set_flags rd rm rs }
{
    if set_flags {
        return Op::Plain(instr);
    }
    Op::Mul { rd, rm, rs }
}

/// MLA.
fn mla_op(instr: Instr, set_flags: bool, rd: u8, rm: u8, rs: u8, rn: u8) -> Op
    ensures { result ≡ ops.mla_op instr set_flags rd rm rs rn }
{
    if set_flags {
        return Op::Plain(instr);
    }
    Op::Mla { rd, rm, rs, rn }
}

/// Whether a load or store goes to the sum of its base, which stays, and its offset, and has no r15 but as its offset.
fn is_simple(it: Transfer) -> bool
    ensures { result ≡ ops.is_simple it }
{
    it.pre && it.up && !it.write_back && it.rn != 15 && it.rd != 15
}

/// A load or store at the sum of a register and a number, by what its access is.
#[rattlefmt::skip]
fn number_access(op: TransferOp, rd: u8, rn: u8, offset: u16) -> Op
    ensures { result ≡ ops.number_access op rd rn offset }
{
    match op {
        TransferOp::WordOrByte { load: true, byte: false } => Op::LdrNumber { rd, rn, offset },
        TransferOp::WordOrByte { load: true, byte: true } => Op::LdrbNumber { rd, rn, offset },
        TransferOp::WordOrByte { load: false, byte: false } => Op::StrNumber { rd, rn, offset },
        TransferOp::WordOrByte { load: false, byte: true } => Op::StrbNumber { rd, rn, offset },
        TransferOp::HalfOrSigned { op: HalfOp::Ldrh } => Op::LdrhNumber { rd, rn, offset },
        TransferOp::HalfOrSigned { op: HalfOp::Strh } => Op::StrhNumber { rd, rn, offset },
        _ => Op::AccessNumber { op, rd, rn, offset },
    }
}

/// The same at the sum of two registers.
#[rattlefmt::skip]
fn register_access(op: TransferOp, rd: u8, rn: u8, rm: u8) -> Op
    ensures { result ≡ ops.register_access op rd rn rm }
{
    match op {
        TransferOp::WordOrByte { load: true, byte: false } => Op::LdrRegister { rd, rn, rm },
        TransferOp::WordOrByte { load: true, byte: true } => Op::LdrbRegister { rd, rn, rm },
        TransferOp::WordOrByte { load: false, byte: false } => Op::StrRegister { rd, rn, rm },
        TransferOp::WordOrByte { load: false, byte: true } => Op::StrbRegister { rd, rn, rm },
        TransferOp::HalfOrSigned { op: HalfOp::Ldrh } => Op::LdrhRegister { rd, rn, rm },
        TransferOp::HalfOrSigned { op: HalfOp::Strh } => Op::StrhRegister { rd, rn, rm },
        _ => Op::AccessRegister { op, rd, rn, rm },
    }
}

/// A load or store with a number as its offset.
fn number_transfer(it: Transfer, offset: u16) -> Op
    ensures { result ≡ ops.number_transfer it offset }
{
    if is_simple(it) {
        return number_access(it.op, it.rd, it.rn, offset);
    }
    Op::TransferNumber(it, offset)
}

/// A load or store with a register as it is as its offset.
fn register_transfer(it: Transfer, rm: u8) -> Op
    ensures { result ≡ ops.register_transfer it rm }
{
    if is_simple(it) && rm != 15 {
        return register_access(it.op, it.rd, it.rn, rm);
    }
    Op::TransferRegister(it, rm)
}

/// A load or store of a word or byte, by its offset.
fn transfer_op(it: Transfer, offset: Offset) -> Op
    ensures { result ≡ ops.transfer_op it offset }
{
    match offset {
        Offset::Number { offset } => number_transfer(it, offset),
        Offset::Register { rm, shift, amount } if is_plain(shift, amount) => {
            register_transfer(it, rm)
        }
        Offset::Register { rm, shift, amount } => Op::TransferShifted(
            it,
            ShiftedRegister { rm, shift, amount },
        ),
    }
}

/// A load or store of a half, or a load of a signed byte or half, by its offset.
fn short_transfer_op(it: Transfer, offset: ShortOffset) -> Op
    ensures { result ≡ ops.short_transfer_op it offset }
{
    match offset {
        ShortOffset::ShortNumber { offset } => number_transfer(it, offset as u16),
        ShortOffset::ShortRegister { rm } => register_transfer(it, rm),
    }
}

/// LDM or STM; what needs another bank, has r15 as its base or an empty list is done by the instruction itself.
fn multiple_op(user: bool, it: RegisterList) -> Op
    ensures { result ≡ ops.multiple_op user it }
{
    if user || it.rn == 15 || it.list == 0 {
        return Op::Other;
    }
    Op::Multiple(it)
}

/// The operation of an instruction in its form of ARM code.
#[rattlefmt::skip]
#[tactic(auto, using(crate::proofs::Fields::op_fields))]
fn op_of(instr: &Instr) -> Op
    requires { HasFields instr.now }
    ensures op { result ≡ ops.op_of instr.now }
    ensures fields { HasOp result }
{
    match *instr {
        Instr::Data { op, set_flags, rn, rd, operand, .. } => data_op(*instr, op, set_flags, rd, rn, operand),
        Instr::Compare { op, rn, operand, .. } => compare_op(*instr, op, rn, operand),
        Instr::Move { op, set_flags, rd, operand, .. } => move_op(*instr, op, set_flags, rd, operand),
        Instr::Branch { link, offset, .. } => Op::Branch { link, far: distance24(offset) },
        Instr::ThumbBranchIf { offset, .. } => Op::Branch { link: false, far: distance8(offset) },
        Instr::ThumbBranch { offset } => Op::Branch { link: false, far: distance11(offset) },
        Instr::Bx { rm, .. } => Op::Exchange { rm },
        Instr::ThumbBlPrefix { offset } => Op::LinkPrefix { offset },
        Instr::ThumbBlSuffix { offset } => Op::LinkSuffix { offset },
        Instr::Transfer { pre, up, byte, write_back, load, rn, rd, offset, .. } => {
            transfer_op(Transfer { op: TransferOp::WordOrByte { load, byte }, pre, up, write_back, rn, rd }, offset)
        }
        Instr::HalfTransfer { op, pre, up, write_back, rn, rd, offset, .. } => {
            short_transfer_op(Transfer { op: TransferOp::HalfOrSigned { op }, pre, up, write_back, rn, rd }, offset)
        }
        Instr::ThumbLoadLiteral { rd, immed } => Op::Literal { rd, immed },
        Instr::Mul { set_flags, rd, rm, rs, .. } => mul_op(*instr, set_flags, rd, rm, rs),
        Instr::Mla { set_flags, rd, rm, rs, rn, .. } => mla_op(*instr, set_flags, rd, rm, rs, rn),
        Instr::Multiple { pre, up, user, write_back, load, rn, list, .. } => {
            multiple_op(user, RegisterList { pre, up, write_back, load, rn, list })
        }
        Instr::LongMultiply { .. } | Instr::ThumbAddress { .. } => Op::Plain(*instr),
        _ => Op::Other,
    }
}

/// An operation with its condition, which for another instruction always holds.
fn operation_by(cond: Condition, op: Op) -> Operation
    ensures cond { result.cond ≡ (if is_decoded op then cond else Al) }
    ensures op { result.op ≡ op }
{
    match op {
        Op::Other => Operation {
            cond: Condition::Al,
            op,
        },
        _ => Operation { cond, op },
    }
}

/// An instruction, or none, as an operation to be run (our choice of forms). What is run of it means what the instruction means, on every
/// architecture, with every base of the vectors and in every state of the registers.
#[tactic(auto, using(crate::proofs::Fields::operation_fields, crate::proofs::Laws::operation_means))]
pub fn operation(instr: Option<Instr>) -> Operation
    requires { IfSome instr HasFields }
    ensures operation { result ≡ operation_of instr }
    ensures fields { HasOperation result }
    ensures means { IfSome instr (λ i. (arch : Arch) → (base : ℕ) → (s : RegisterState) → is_decoded result.op ≡ true → meaning arch base s i
        ≡ operation_meaning arch s result) }
{
    match instr {
        None => Operation {
            cond: Condition::Al,
            op: Op::Other,
        },
        Some(instr) => operation_by(condition(&instr), op_of(&equivalent(&instr))),
    }
}
