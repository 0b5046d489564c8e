//! The accesses of data that operations make.

ghost use Rattle.std.specs.Prelude.{◌≡◌, ◌<◌, true, false, IfSome};
ghost use Rattle.arm_core.specs.Addressing.{addressed};
ghost use Rattle.arm_core.specs.Effects.{carried_out};
ghost use Rattle.arm_core.specs.FootprintLaws.{HasBytes, accessed_bytes, touched_bytes};
ghost use Rattle.arm_core.specs.Registers.{RegisterState};
ghost use Rattle.arm_ops.specs.Meanings as ops;
ghost use Rattle.arm_ops.specs.Meanings.{access_meaning};
ghost use Rattle.arm_ops.specs.Operations.{HasAccess, HasOp, HasTransfer};

use crate::operands::SecondOperand;
use crate::operations::{DataAccess, Op, Transfer, TransferOp};
use crate::running::Anywhere;
use arm_core::{
    Addressed, Bus, Registers, Stepped, Touch, access_touch, addressed, addressed_literal,
    half_touch, width_by,
};
use arm_exec::{half_transfer_at, transfer_at};
use arm_words::HalfOp;
use ds_base::Arch;

/// LDR.
const LDR: TransferOp = TransferOp::WordOrByte {
    load: true,
    byte: false,
};

/// LDRB.
const LDRB: TransferOp = TransferOp::WordOrByte {
    load: true,
    byte: true,
};

/// LDRH.
const LDRH: TransferOp = TransferOp::HalfOrSigned { op: HalfOp::Ldrh };

/// STR.
const STR: TransferOp = TransferOp::WordOrByte {
    load: false,
    byte: false,
};

/// STRB.
const STRB: TransferOp = TransferOp::WordOrByte {
    load: false,
    byte: true,
};

/// STRH.
const STRH: TransferOp = TransferOp::HalfOrSigned { op: HalfOp::Strh };

/// The access of a load or store with an offset.
#[inline(always)]
fn access_by(s: &Registers, it: Transfer, offset: u32) -> DataAccess
    requires { HasTransfer it }
    ensures { result ≡ ops.access_by s.now it offset }
{
    DataAccess {
        op: it.op,
        rn: it.rn,
        rd: it.rd,
        to: addressed(s, it.pre, it.up, it.write_back, it.rn, offset),
    }
}

/// The sum of a register below r15 and an offset, as where a load or store goes; nothing is written back.
#[inline(always)]
pub(crate) fn sum(s: &Registers, rn: u8, offset: u32) -> Addressed
    requires { rn < 15 }
    ensures { result ≡ addressed s.now true true false rn offset }
{
    let address = s.low(rn).wrapping_add(offset);
    Addressed {
        address,
        base: address,
        written: false,
    }
}

/// The access of a load or store at the sum of a register below r15 and an offset.
#[inline(always)]
fn access_at(s: &Registers, op: TransferOp, rd: u8, rn: u8, offset: u32) -> DataAccess
    requires { rn < 15 }
    ensures { result ≡ ops.access_at s.now op rd rn offset }
{
    let to = sum(s, rn, offset);
    DataAccess { op, rn, rd, to }
}

/// The access of Thumb's load of a word behind r15.
#[inline(always)]
fn literal_access(s: &Registers, rd: u8, immed: u8) -> DataAccess
    ensures { result ≡ ops.literal_access s.now rd immed }
{
    DataAccess {
        op: LDR,
        rn: 15,
        rd,
        to: addressed_literal(s, immed),
    }
}

/// The access of data that an operation makes, if it makes one.
#[inline(always)]
#[rattlefmt::skip]
pub(crate) fn access_of(s: &Registers, op: &Op) -> Option<DataAccess>
    requires { HasOp op.now }
    ensures access { result ≡ ops.access_of s.now op.now }
    ensures fields { IfSome result HasAccess }
{
    match *op {
        Op::LdrNumber { rd, rn, offset } => Some(access_at(s, LDR, rd, rn, offset as u32)),
        Op::LdrbNumber { rd, rn, offset } => Some(access_at(s, LDRB, rd, rn, offset as u32)),
        Op::LdrhNumber { rd, rn, offset } => Some(access_at(s, LDRH, rd, rn, offset as u32)),
        Op::StrNumber { rd, rn, offset } => Some(access_at(s, STR, rd, rn, offset as u32)),
        Op::StrbNumber { rd, rn, offset } => Some(access_at(s, STRB, rd, rn, offset as u32)),
        Op::StrhNumber { rd, rn, offset } => Some(access_at(s, STRH, rd, rn, offset as u32)),
        Op::LdrRegister { rd, rn, rm } => Some(access_at(s, LDR, rd, rn, s.low(rm))),
        Op::LdrbRegister { rd, rn, rm } => Some(access_at(s, LDRB, rd, rn, s.low(rm))),
        Op::LdrhRegister { rd, rn, rm } => Some(access_at(s, LDRH, rd, rn, s.low(rm))),
        Op::StrRegister { rd, rn, rm } => Some(access_at(s, STR, rd, rn, s.low(rm))),
        Op::StrbRegister { rd, rn, rm } => Some(access_at(s, STRB, rd, rn, s.low(rm))),
        Op::StrhRegister { rd, rn, rm } => Some(access_at(s, STRH, rd, rn, s.low(rm))),
        Op::AccessNumber { op, rd, rn, offset } => Some(access_at(s, op, rd, rn, offset as u32)),
        Op::AccessRegister { op, rd, rn, rm } => Some(access_at(s, op, rd, rn, s.low(rm))),
        Op::TransferNumber(it, offset) => Some(access_by(s, it, offset as u32)),
        Op::TransferRegister(it, rm) => Some(access_by(s, it, s.get(rm))),
        Op::TransferShifted(it, rm) => Some(access_by(s, it, rm.operand(s).value)),
        Op::Literal { rd, immed } => Some(literal_access(s, rd, immed)),
        _ => None,
    }
}

/// Makes an access, wherever it is.
#[inline(always)]
pub(crate) fn make<B: Bus>(arch: Arch, s: &mut Registers, bus: &mut B, it: DataAccess) -> Stepped
    requires { HasAccess it }
    ensures registers { s.new ≡ (carried_out B.memory arch s.old (B.state bus.old) (access_meaning arch s.old it)).registers }
    ensures state { B.state bus.new ≡ (carried_out B.memory arch s.old (B.state bus.old) (access_meaning arch s.old it)).state }
    ensures stepped { result ≡ (carried_out B.memory arch s.old (B.state bus.old) (access_meaning arch s.old it)).stepped }
    ensures same { B.identity bus.new ≡ B.identity bus.old }
{
    match it.op {
        TransferOp::WordOrByte { load, byte } => transfer_at::<B, Anywhere>(
            arch, s, bus, load, byte, it.rn, it.rd, it.to,
        ),
        TransferOp::HalfOrSigned { op } => half_transfer_at::<B, Anywhere>(
            arch, s, bus, op, it.rn, it.rd, it.to,
        ),
    }
}

/// The bytes of an access.
#[inline(always)]
pub(crate) fn bytes_of(arch: Arch, it: DataAccess) -> Touch
    ensures bytes { (s : RegisterState) → touched_bytes result ≡ accessed_bytes (access_meaning arch s it).accesses }
    ensures some { HasBytes result }
{
    match it.op {
        TransferOp::WordOrByte { byte, .. } => access_touch(it.to.address, width_by(byte)),
        TransferOp::HalfOrSigned { op } => half_touch(arch, op, it.to),
    }
}
