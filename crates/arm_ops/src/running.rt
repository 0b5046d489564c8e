//! Operations that are run.

ghost use Rattle.std.specs.Prelude.{◌≡◌, ◌<◌, [], Bool, false, true, None};
ghost use Rattle.arm_words.specs.Fields.{HasFields};
ghost use Rattle.arm_core.specs.Conditions as conditions;
ghost use Rattle.arm_core.specs.Effects.{carried_out, cost_of};
ghost use Rattle.arm_core.specs.Meanings as meanings;
ghost use Rattle.arm_core.specs.declared.outcomes.Stepped.TheVariants.{Cost};
ghost use Rattle.arm_ops.specs.Meanings as ops;
ghost use Rattle.arm_ops.specs.Meanings.{access_made, access_meaning, accesses_by, is_ram, op_meaning, operation_meaning, AreNear, RefusesNoneInRam};
ghost use Rattle.arm_ops.specs.Inside.{IsPaid};
ghost use Rattle.arm_ops.specs.Operations.{is_decoded, is_other, loads, HasAccess, HasOp, HasOperation};

use crate::accesses::{access_of, sum};
use crate::computing::{compare_by, data_by, data_shifted_by, kept, move_by, shifted};
use crate::lists::run_list;
use crate::near::{Near, load_byte, load_half, load_word, store};
use crate::operands::{LowRegister, LowShifted};
use crate::operations::{DataAccess, Op, Operation, TransferOp};
use arm_core::{Bus, Registers, Stepped, addressed_literal, holds};
use arm_exec::{
    act_processing, branch, exchange, half_transfer_at, multiply, prefix, skip, suffix, transfer_at,
};
use arm_words::{CompareOp, Condition, DataOp, HalfOp, Instr, Shift};
use ds_base::{Arch, Width};

/// Whether an address is of RAM, 2000000h to 3FFFFFFh (GBATEK, "DS Memory Map").
#[inline(always)]
fn is_ram(at: u32) -> bool
    ensures { result ≡ is_ram at }
{
    at >> 25 == 1
}

/// Whether a kind of access loads.
#[inline(always)]
pub fn loads(op: TransferOp) -> bool
    ensures { result ≡ loads op }
{
    match op {
        TransferOp::WordOrByte { load, .. } => load,
        TransferOp::HalfOrSigned { op } => !matches!(op, HalfOp::Strh),
    }
}

/// Whether a condition holds; what always holds asks for no flags (ARM manual, A3.2 "The condition field").
#[inline(always)]
pub(crate) fn takes_effect(cond: Condition, s: &Registers) -> bool
    ensures { result ≡ conditions.holds cond s.now.cpsr }
{
    match cond {
        Condition::Al => true,
        _ => holds(cond, s.cpsr()),
    }
}

/// An instruction as it is, which enters no exception; the result is its cost.
#[inline(never)]
#[tactic(auto, using(crate::proofs::Laws::costs))]
fn plain(arch: Arch, instr: &Instr, s: &mut Registers) -> u32
    requires { HasFields instr.now }
    ensures registers { s.new ≡ (meanings.act_processing arch 0 s.old instr.now).after [] }
    ensures cost { result ≡ cost_of arch (meanings.act_processing arch 0 s.old instr.now) }
    ensures plain { (meanings.act_processing arch 0 s.old instr.now).accesses ≡ [] }
    ensures some { 0 < result }
{
    act_processing(arch, 0, s, instr)
}

/// Who runs operations wherever each access is, and tries none at once.
pub(crate) enum Anywhere {}

impl<B: Bus> Near<B> for Anywhere {
    ghost near = { λ at. false };

    #[inline(always)]
    fn is_near(_at: u32) -> bool {
        false
    }

    #[inline(always)]
    fn read_near(_bus: &mut B, _at: u32, _width: Width) -> Option<u32> {
        None
    }

    #[inline(always)]
    fn write_near(_bus: &mut B, _at: u32, _width: Width, _value: u32) -> bool {
        false
    }
}

/// An operation that makes no access, or one that is tried at once and finds its memory there; the result is its cost, and 0 where it is neither or
/// isn't run here. What makes no access, which is most, and what is tried stand in one match, so that one jump finds it. Who calls has a copy of
/// its own, as of `transfer_at`.
#[inline(always)]
#[rattlefmt::skip]
#[tactic(auto, using(crate::proofs::Laws::costs, crate::proofs::Laws::not_none))]
pub(crate) fn compute<B: Bus, N: Near<B>, Caller>(arch: Arch, s: &mut Registers, bus: &mut B, op: &Op) -> u32
    requires { HasOp op.now }
    ensures all { ops.access_of s.old op.now ≡ None → is_other op.now ≡ false → 0 < result }
    ensures none { result ≡ 0 → (s.new ≡ s.old) × (B.state bus.new ≡ B.state bus.old) }
    ensures known { 0 < result → is_other op.now ≡ false }
    ensures registers { 0 < result → s.new ≡ (carried_out B.memory arch s.old (B.state bus.old) (op_meaning arch s.old op.now)).registers }
    ensures state { 0 < result → B.state bus.new ≡ (carried_out B.memory arch s.old (B.state bus.old) (op_meaning arch s.old op.now)).state }
    ensures stepped { 0 < result → (carried_out B.memory arch s.old (B.state bus.old) (op_meaning arch s.old op.now)).stepped ≡ Cost result }
    ensures near { 0 < result → AreNear N.near (op_meaning arch s.old op.now).accesses }
    ensures same { B.identity bus.new ≡ B.identity bus.old }
{
    match *op {
        Op::AndNumber { rd, rn, value } => data_by(arch, s, DataOp::And, false, rd, rn, kept(value)),
        Op::EorNumber { rd, rn, value } => data_by(arch, s, DataOp::Eor, false, rd, rn, kept(value)),
        Op::SubNumber { rd, rn, value } => data_by(arch, s, DataOp::Sub, false, rd, rn, kept(value)),
        Op::RsbNumber { rd, rn, value } => data_by(arch, s, DataOp::Rsb, false, rd, rn, kept(value)),
        Op::AddNumber { rd, rn, value } => data_by(arch, s, DataOp::Add, false, rd, rn, kept(value)),
        Op::OrrNumber { rd, rn, value } => data_by(arch, s, DataOp::Orr, false, rd, rn, kept(value)),
        Op::BicNumber { rd, rn, value } => data_by(arch, s, DataOp::Bic, false, rd, rn, kept(value)),
        Op::AndRegister { rd, rn, rm } => data_by(arch, s, DataOp::And, false, rd, rn, LowRegister { rm }),
        Op::EorRegister { rd, rn, rm } => data_by(arch, s, DataOp::Eor, false, rd, rn, LowRegister { rm }),
        Op::SubRegister { rd, rn, rm } => data_by(arch, s, DataOp::Sub, false, rd, rn, LowRegister { rm }),
        Op::RsbRegister { rd, rn, rm } => data_by(arch, s, DataOp::Rsb, false, rd, rn, LowRegister { rm }),
        Op::AddRegister { rd, rn, rm } => data_by(arch, s, DataOp::Add, false, rd, rn, LowRegister { rm }),
        Op::OrrRegister { rd, rn, rm } => data_by(arch, s, DataOp::Orr, false, rd, rn, LowRegister { rm }),
        Op::BicRegister { rd, rn, rm } => data_by(arch, s, DataOp::Bic, false, rd, rn, LowRegister { rm }),
        Op::SubsNumber { rd, rn, value } => data_by(arch, s, DataOp::Sub, true, rd, rn, kept(value)),
        Op::AddsNumber { rd, rn, value } => data_by(arch, s, DataOp::Add, true, rd, rn, kept(value)),
        Op::AndsRegister { rd, rn, rm } => data_by(arch, s, DataOp::And, true, rd, rn, LowRegister { rm }),
        Op::EorsRegister { rd, rn, rm } => data_by(arch, s, DataOp::Eor, true, rd, rn, LowRegister { rm }),
        Op::SubsRegister { rd, rn, rm } => data_by(arch, s, DataOp::Sub, true, rd, rn, LowRegister { rm }),
        Op::AddsRegister { rd, rn, rm } => data_by(arch, s, DataOp::Add, true, rd, rn, LowRegister { rm }),
        Op::OrrsRegister { rd, rn, rm } => data_by(arch, s, DataOp::Orr, true, rd, rn, LowRegister { rm }),
        Op::BicsRegister { rd, rn, rm } => data_by(arch, s, DataOp::Bic, true, rd, rn, LowRegister { rm }),
        Op::DataShifted { op, rd, rn, by } => data_by(arch, s, op, false, rd, rn, LowShifted { by }),
        Op::DataShiftedBy { op, rd, rn, rm, shift, rs } => data_shifted_by(arch, s, op, rd, rn, rm, shift, rs),
        Op::TstNumber { rn, number } => compare_by(arch, s, CompareOp::Tst, rn, number),
        Op::CmpNumber { rn, value } => compare_by(arch, s, CompareOp::Cmp, rn, kept(value)),
        Op::CmnNumber { rn, value } => compare_by(arch, s, CompareOp::Cmn, rn, kept(value)),
        Op::TstRegister { rn, rm } => compare_by(arch, s, CompareOp::Tst, rn, LowRegister { rm }),
        Op::CmpRegister { rn, rm } => compare_by(arch, s, CompareOp::Cmp, rn, LowRegister { rm }),
        Op::MovNumber { rd, value } => move_by(arch, s, false, rd, kept(value)),
        Op::MovsNumber { rd, number } => move_by(arch, s, true, rd, number),
        Op::MovLsl { rd, rm, amount } => move_by(arch, s, false, rd, shifted(rm, Shift::Lsl, amount)),
        Op::MovLsr { rd, rm, amount } => move_by(arch, s, false, rd, shifted(rm, Shift::Lsr, amount)),
        Op::MovAsr { rd, rm, amount } => move_by(arch, s, false, rd, shifted(rm, Shift::Asr, amount)),
        Op::MovRor { rd, rm, amount } => move_by(arch, s, false, rd, shifted(rm, Shift::Ror, amount)),
        Op::MovsLsl { rd, rm, amount } => move_by(arch, s, true, rd, shifted(rm, Shift::Lsl, amount)),
        Op::MovsLsr { rd, rm, amount } => move_by(arch, s, true, rd, shifted(rm, Shift::Lsr, amount)),
        Op::MovsAsr { rd, rm, amount } => move_by(arch, s, true, rd, shifted(rm, Shift::Asr, amount)),
        Op::Mul { rd, rm, rs } => multiply(arch, s, false, rd, rm, rs, 0),
        Op::Mla { rd, rm, rs, rn } => multiply(arch, s, false, rd, rm, rs, s.get(rn)),
        Op::Branch { link, far } => branch(arch, s, link, far),
        Op::Exchange { rm } => exchange(arch, s, rm),
        Op::LinkPrefix { offset } => prefix(arch, s, offset),
        Op::LinkSuffix { offset } => suffix(arch, s, offset),
        Op::Plain(ref instr) => plain(arch, instr, s),
        Op::LdrNumber { rd, rn, offset } => load_word::<B, N>(arch, s, bus, rn, rd, sum(s, rn, offset as u32)),
        Op::LdrRegister { rd, rn, rm } => load_word::<B, N>(arch, s, bus, rn, rd, sum(s, rn, s.low(rm))),
        Op::LdrbNumber { rd, rn, offset } => load_byte::<B, N>(arch, s, bus, rn, rd, sum(s, rn, offset as u32)),
        Op::LdrbRegister { rd, rn, rm } => load_byte::<B, N>(arch, s, bus, rn, rd, sum(s, rn, s.low(rm))),
        Op::LdrhNumber { rd, rn, offset } => load_half::<B, N>(arch, s, bus, rn, rd, sum(s, rn, offset as u32)),
        Op::LdrhRegister { rd, rn, rm } => load_half::<B, N>(arch, s, bus, rn, rd, sum(s, rn, s.low(rm))),
        Op::StrNumber { rd, rn, offset } => store::<B, N>(arch, s, bus, rn, rd, sum(s, rn, offset as u32), Width::Word),
        Op::StrRegister { rd, rn, rm } => store::<B, N>(arch, s, bus, rn, rd, sum(s, rn, s.low(rm)), Width::Word),
        Op::StrbNumber { rd, rn, offset } => store::<B, N>(arch, s, bus, rn, rd, sum(s, rn, offset as u32), Width::Byte),
        Op::StrbRegister { rd, rn, rm } => store::<B, N>(arch, s, bus, rn, rd, sum(s, rn, s.low(rm)), Width::Byte),
        Op::StrhNumber { rd, rn, offset } => store::<B, N>(arch, s, bus, rn, rd, sum(s, rn, offset as u32), Width::Half),
        Op::StrhRegister { rd, rn, rm } => store::<B, N>(arch, s, bus, rn, rd, sum(s, rn, s.low(rm)), Width::Half),
        Op::Literal { rd, immed } if rd < 15 => load_word::<B, N>(arch, s, bus, 15, rd, addressed_literal(s, immed)),
        Op::Other | Op::Multiple(_) => 0,
        Op::AccessNumber { .. }
        | Op::AccessRegister { .. }
        | Op::TransferNumber(..)
        | Op::TransferRegister(..)
        | Op::TransferShifted(..)
        | Op::Literal { .. } => 0,
    }
}

/// The cost of a step that was taken.
#[inline(always)]
pub(crate) fn paid(stepped: Stepped) -> u32
    requires { IsPaid stepped }
    ensures cost { stepped ≡ Cost result }
    ensures some { 0 < result }
{
    match stepped {
        Stepped::Cost(clocks) => clocks,
        _ => 0,
    }
}

/// Makes an access, where it is of RAM, or a load that is near too; the result is its cost, and 0 where it is neither.
#[inline(always)]
fn make_near<B: Bus, N: Near<B>, Caller>(
    arch: Arch,
    s: &mut Registers,
    bus: &mut B,
    it: DataAccess,
) -> u32
    requires fields { HasAccess it }
    requires ram { RefusesNoneInRam B.memory }
    ensures none { result ≡ 0 → (s.new ≡ s.old) × (B.state bus.new ≡ B.state bus.old) }
    ensures registers { 0 < result → s.new ≡ (carried_out B.memory arch s.old (B.state bus.old) (access_meaning arch s.old it)).registers }
    ensures state { 0 < result → B.state bus.new ≡ (carried_out B.memory arch s.old (B.state bus.old) (access_meaning arch s.old it)).state }
    ensures stepped { 0 < result → (carried_out B.memory arch s.old (B.state bus.old) (access_meaning arch s.old it)).stepped ≡ Cost result }
    ensures near { 0 < result → AreNear N.near (access_meaning arch s.old it).accesses }
    ensures same { B.identity bus.new ≡ B.identity bus.old }
{
    let at = it.to.address;
    if !is_ram(at) && !(N::is_near(at) && loads(it.op)) {
        return 0;
    }
    match it.op {
        TransferOp::WordOrByte { load, byte } => {
            paid(transfer_at::<B, Caller>(arch, s, bus, load, byte, it.rn, it.rd, it.to))
        }
        TransferOp::HalfOrSigned { op } => paid(half_transfer_at::<B, Caller>(
            arch, s, bus, op, it.rn, it.rd, it.to,
        )),
    }
}

/// An operation that takes effect, where it is run here; the result is its cost, and 0 where it isn't. An access that found no memory at once is made
/// here.
#[inline(always)]
#[tactic(auto, using(crate::proofs::Laws::means_access))]
fn run_op<B: Bus, N: Near<B>, Caller>(arch: Arch, s: &mut Registers, bus: &mut B, op: &Op) -> u32
    requires fields { HasOp op.now }
    requires ram { RefusesNoneInRam B.memory }
    ensures none { result ≡ 0 → (s.new ≡ s.old) × (B.state bus.new ≡ B.state bus.old) }
    ensures known { 0 < result → is_other op.now ≡ false }
    ensures registers { 0 < result → s.new ≡ (carried_out B.memory arch s.old (B.state bus.old) (op_meaning arch s.old op.now)).registers }
    ensures state { 0 < result → B.state bus.new ≡ (carried_out B.memory arch s.old (B.state bus.old) (op_meaning arch s.old op.now)).state }
    ensures stepped { 0 < result → (carried_out B.memory arch s.old (B.state bus.old) (op_meaning arch s.old op.now)).stepped ≡ Cost result }
    ensures near { 0 < result → AreNear N.near (op_meaning arch s.old op.now).accesses }
    ensures same { B.identity bus.new ≡ B.identity bus.old }
{
    let clocks = compute::<B, N, Caller>(arch, s, bus, op);
    if clocks != 0 {
        return clocks;
    }
    match access_of(s, op) {
        Some(it) => make_near::<B, N, Caller>(arch, s, bus, it),
        None => 0,
    }
}

/// Which operations are run.
pub trait Runner {
    /// Whether they are LDM and STM, and not those that make one access at most.
    ghost lists: { Bool };

    /// Whether they are LDM and STM.
    fn lists() -> bool
        ensures { result ≡ lists };

    /// Runs an operation over a bus that refuses no write of RAM: one that makes one access at most, of RAM or a load that is near, or LDM or STM of
    /// sixteen words of RAM. The result is its cost in the processor's own clocks; 0 where it isn't run, and then nothing is changed.
    fn run<B: Bus, N: Near<B>>(
        arch: Arch,
        s: &mut Registers,
        bus: &mut B,
        operation: &Operation,
    ) -> u32
        requires operation { HasOperation operation.now }
        requires ram { RefusesNoneInRam B.memory }
        ensures none { result ≡ 0 → (s.new ≡ s.old) × (B.state bus.new ≡ B.state bus.old) }
        ensures known { 0 < result → is_decoded operation.now.op ≡ true }
        ensures told { lists ≡ false → 0 < result → (operation_meaning arch s.old operation.now).accesses
            ≡ accesses_by arch s.old (access_made s.old operation.now) }
        ensures registers { 0 < result → s.new
            ≡ (carried_out B.memory arch s.old (B.state bus.old) (operation_meaning arch s.old operation.now)).registers }
        ensures state { 0 < result → B.state bus.new
            ≡ (carried_out B.memory arch s.old (B.state bus.old) (operation_meaning arch s.old operation.now)).state }
        ensures stepped { 0 < result → (carried_out B.memory arch s.old (B.state bus.old) (operation_meaning arch s.old operation.now)).stepped
            ≡ Cost result }
        ensures near { 0 < result → AreNear N.near (operation_meaning arch s.old operation.now).accesses }
        ensures same { B.identity bus.new ≡ B.identity bus.old };
}

/// Operations that make one access at most are. Each loop over steps has a copy of its own, by a number, which stands in line in it.
pub enum Singles<const COPY: u32> {}

/// LDM and STM are.
pub enum Lists<const COPY: u32> {}

impl<const COPY: u32> Runner for Singles<COPY> {
    ghost lists = { false };

    #[inline(always)]
    fn lists() -> bool {
        false
    }

    #[inline(always)]
    #[tactic(auto, using(crate::proofs::Laws::run_is_decoded, crate::proofs::Laws::made_accesses, crate::proofs::Laws::skipped_accesses))]
    fn run<B: Bus, N: Near<B>>(
        arch: Arch,
        s: &mut Registers,
        bus: &mut B,
        operation: &Operation,
    ) -> u32 {
        if !takes_effect(operation.cond, s) {
            return skip(arch, s);
        }
        run_op::<B, N, Singles<COPY>>(arch, s, bus, &operation.op)
    }
}

impl<const COPY: u32> Runner for Lists<COPY> {
    ghost lists = { true };

    #[inline(always)]
    fn lists() -> bool {
        true
    }

    #[inline(always)]
    fn run<B: Bus, N: Near<B>>(
        arch: Arch,
        s: &mut Registers,
        bus: &mut B,
        operation: &Operation,
    ) -> u32 {
        if !takes_effect(operation.cond, s) {
            return skip(arch, s);
        }
        run_list::<B, N>(arch, s, bus, &operation.op)
    }
}
