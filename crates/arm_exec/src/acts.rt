//! What instructions do where their conditions hold, by their kinds: each class of the manual, and then the next.

ghost use Rattle.std.specs.Prelude.{◌≡◌, ◌<◌, [], false};
ghost use Rattle.arm_words.specs.Fields.{HasFields};
ghost use Rattle.arm_core.specs.Effects.{carried_out, cost_of};
ghost use Rattle.arm_core.specs.Meanings.{act, act_branch, act_multiply, act_processing, skipped};

use crate::branches::{
    address, branch, distance8, distance11, distance24, exchange, prefix, suffix,
};
use crate::doubles::double;
use crate::enhanced::enhanced;
use crate::exceptions::software;
use crate::multiples::multiple;
use crate::multiplies::{long_multiply, multiply};
use crate::processing::{compare, data, move_};
use crate::statuses::{mrs, msr};
use crate::swaps::swap;
use crate::transfers::{half_transfer, literal, transfer};
use arm_core::{Bus, Class, Registers, Stepped, rotated_immediate};
use arm_words::Instr;
use ds_base::Arch;

/// An instruction that has no effect; the result is its cost.
#[inline(always)]
pub fn skip(arch: Arch, s: &mut Registers) -> u32
    ensures registers { s.new ≡ (skipped s.old).after [] }
    ensures cost { result ≡ cost_of arch (skipped s.old) }
{
    s.go_on();
    Class::Nothing.cost(arch, false)
}

/// A branch, an exception, an instruction without effect, or what ARMv5 adds; the result is its cost.
#[inline]
fn act_branch(arch: Arch, base: u32, s: &mut Registers, instr: &Instr) -> u32
    requires { HasFields instr.now }
    ensures registers { s.new ≡ (act_branch arch base s.old instr.now).after [] }
    ensures cost { result ≡ cost_of arch (act_branch arch base s.old instr.now) }
    ensures plain { (act_branch arch base s.old instr.now).accesses ≡ [] }
{
    match *instr {
        Instr::Bx { rm, .. } => exchange(arch, s, rm),
        Instr::Branch { link, offset, .. } => branch(arch, s, link, distance24(offset)),
        Instr::Swi { .. } => software(arch, s, base),
        Instr::Never { .. } => skip(arch, s),
        Instr::ThumbBranchIf { offset, .. } => branch(arch, s, false, distance8(offset)),
        Instr::ThumbBranch { offset } => branch(arch, s, false, distance11(offset)),
        Instr::ThumbBlPrefix { offset } => prefix(arch, s, offset),
        Instr::ThumbBlSuffix { offset } => suffix(arch, s, offset),
        _ => enhanced(arch, base, s, instr),
    }
}

/// A multiply, an access of a status register, or what is neither; the result is its cost.
#[inline]
fn act_multiply(arch: Arch, base: u32, s: &mut Registers, instr: &Instr) -> u32
    requires { HasFields instr.now }
    ensures registers { s.new ≡ (act_multiply arch base s.old instr.now).after [] }
    ensures cost { result ≡ cost_of arch (act_multiply arch base s.old instr.now) }
    ensures plain { (act_multiply arch base s.old instr.now).accesses ≡ [] }
{
    match *instr {
        Instr::Mul {
            set_flags,
            rd,
            rm,
            rs,
            ..
        } => multiply(arch, s, set_flags, rd, rm, rs, 0),
        Instr::Mla {
            set_flags,
            rd,
            rm,
            rs,
            rn,
            ..
        } => {
            let added = s.get(rn);
            multiply(arch, s, set_flags, rd, rm, rs, added)
        }
        Instr::LongMultiply {
            signed,
            accumulate,
            set_flags,
            rd_lo,
            rd_hi,
            rm,
            rs,
            ..
        } => { long_multiply(arch, s, signed, accumulate, set_flags, rd_lo, rd_hi, rm, rs) }
        Instr::Mrs { spsr, rd, .. } => mrs(arch, s, spsr, rd),
        Instr::Msr {
            spsr,
            fields,
            rm,
            ..
        } => {
            let operand = s.get(rm);
            msr(arch, s, spsr, fields, operand)
        }
        Instr::MsrImmediate {
            spsr,
            fields,
            rotate,
            immed,
            ..
        } => {
            let operand = rotated_immediate(rotate, immed, false).value;
            msr(arch, s, spsr, fields, operand)
        }
        _ => act_branch(arch, base, s, instr),
    }
}

/// Data processing, or what isn't it; the result is its cost.
#[inline]
pub fn act_processing(arch: Arch, base: u32, s: &mut Registers, instr: &Instr) -> u32
    requires { HasFields instr.now }
    ensures registers { s.new ≡ (act_processing arch base s.old instr.now).after [] }
    ensures cost { result ≡ cost_of arch (act_processing arch base s.old instr.now) }
    ensures plain { (act_processing arch base s.old instr.now).accesses ≡ [] }
{
    match *instr {
        Instr::Data {
            op,
            set_flags,
            rn,
            rd,
            operand,
            ..
        } => { data(arch, s, op, set_flags, rn, rd, operand) }
        Instr::Compare {
            op,
            rn,
            operand,
            ..
        } => compare(arch, s, op, rn, operand),
        Instr::Move {
            op,
            set_flags,
            rd,
            operand,
            ..
        } => { move_(arch, s, op, set_flags, rd, operand) }
        Instr::ThumbAddress { rd, immed, .. } => address(arch, s, rd, immed),
        _ => act_multiply(arch, base, s, instr),
    }
}

/// What an instruction does where its condition holds, with the base of the vectors: a load, a store, a swap, or another.
#[inline]
pub fn act<B: Bus>(arch: Arch, base: u32, s: &mut Registers, bus: &mut B, instr: &Instr) -> Stepped
    requires { HasFields instr.now }
    ensures registers { s.new ≡ (carried_out B.memory arch s.old (B.state bus.old) (act arch base s.old instr.now)).registers }
    ensures state { B.state bus.new ≡ (carried_out B.memory arch s.old (B.state bus.old) (act arch base s.old instr.now)).state }
    ensures stepped { result ≡ (carried_out B.memory arch s.old (B.state bus.old) (act arch base s.old instr.now)).stepped }
    ensures same { B.identity bus.new ≡ B.identity bus.old }
{
    match *instr {
        Instr::Transfer {
            pre,
            up,
            byte,
            write_back,
            load,
            rn,
            rd,
            offset,
            ..
        } => {
            transfer(
                arch, s, bus, pre, up, byte, write_back, load, rn, rd, offset,
            )
        }
        Instr::HalfTransfer {
            op,
            pre,
            up,
            write_back,
            rn,
            rd,
            offset,
            ..
        } => { half_transfer(arch, s, bus, op, pre, up, write_back, rn, rd, offset) }
        Instr::DoubleTransfer {
            store,
            pre,
            up,
            write_back,
            rn,
            rd,
            offset,
            ..
        } => { double(arch, s, bus, store, pre, up, write_back, rn, rd, offset) }
        Instr::Multiple {
            pre,
            up,
            user,
            write_back,
            load,
            rn,
            list,
            ..
        } => { multiple(arch, s, bus, pre, up, user, write_back, load, rn, list) }
        Instr::Swap {
            byte,
            rd,
            rm,
            rn,
            ..
        } => swap(arch, s, bus, byte, rd, rm, rn),
        Instr::ThumbLoadLiteral { rd, immed } => literal(arch, s, bus, rd, immed),
        _ => Stepped::Cost(act_processing(arch, base, s, instr)),
    }
}
