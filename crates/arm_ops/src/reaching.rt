//! Operations that may reach past RAM.

ghost use Rattle.std.specs.Prelude.{◌≡◌, false, true, None, IfSome};
ghost use Rattle.arm_core.specs.Effects.{carried_out};
ghost use Rattle.arm_core.specs.FootprintLaws.{TellsNothing, accessed_bytes, touched_bytes};
ghost use Rattle.arm_core.specs.Registers.{RegisterState};
ghost use Rattle.arm_core.specs.declared.outcomes.Stepped.TheVariants.{Cost};
ghost use Rattle.arm_ops.specs.Meanings.{access_made, accesses_by, operation_meaning};
ghost use Rattle.arm_ops.specs.Operations as ops;
ghost use Rattle.arm_ops.specs.Operations.{is_other, HasAccess, HasOperation};

use crate::accesses::{access_of, bytes_of, make};
use crate::operations::{DataAccess, Op, Operation};
use crate::running::{Anywhere, compute, takes_effect};
use arm_core::{Bus, Registers, Stepped, Touch};
use arm_exec::skip;
use ds_base::Arch;

/// Whether it is an instruction that makes more accesses than one, or isn't run here.
#[inline(always)]
pub fn is_other(operation: &Operation) -> bool
    ensures { result ≡ ops.is_other operation.now.op }
{
    matches!(operation.op, Op::Other | Op::Multiple(_))
}

/// The access of data that an operation makes which makes one at most: none where its condition fails. Of another it tells nothing: None, whatever
/// that reaches.
#[inline(always)]
pub fn access_made(s: &Registers, operation: &Operation) -> Option<DataAccess>
    requires { HasOperation operation.now }
    ensures access { result ≡ access_made s.now operation.now }
    ensures other { is_other operation.now.op ≡ true → result ≡ None }
    ensures fields { IfSome result HasAccess }
{
    if !takes_effect(operation.cond, s) {
        return None;
    }
    access_of(s, &operation.op)
}

/// The bytes that an access reaches, if there is one, told before it is made. It is `Nothing` exactly where there is none.
#[inline(always)]
fn bytes_reached(arch: Arch, access: Option<DataAccess>) -> Touch
    ensures bytes { (s : RegisterState) → touched_bytes result ≡ accessed_bytes (accesses_by arch s access) }
    ensures nothing { (s : RegisterState) → TellsNothing result (accesses_by arch s access) }
{
    match access {
        Some(it) => bytes_of(arch, it),
        None => Touch::Nothing,
    }
}

/// The bytes that an operation's access reaches, told before it is run. It is `Nothing` exactly where there is no access, as where its
/// condition fails.
#[tactic(auto, using(crate::proofs::Laws::made_accesses))]
pub fn touched(arch: Arch, s: &Registers, operation: &Operation) -> Touch
    requires operation { HasOperation operation.now }
    requires known { is_other operation.now.op ≡ false }
    ensures bytes { touched_bytes result ≡ accessed_bytes (operation_meaning arch s.now operation.now).accesses }
    ensures nothing { TellsNothing result (operation_meaning arch s.now operation.now).accesses }
{
    bytes_reached(arch, access_made(s, operation))
}

/// An operation that makes no access; the result is its cost.
fn run_still<B: Bus>(arch: Arch, s: &mut Registers, bus: &mut B, operation: &Operation) -> u32
    requires operation { HasOperation operation.now }
    requires known { is_other operation.now.op ≡ false }
    requires none { access_made s.old operation.now ≡ None }
    ensures registers { s.new ≡ (carried_out B.memory arch s.old (B.state bus.old) (operation_meaning arch s.old operation.now)).registers }
    ensures state { B.state bus.new ≡ (carried_out B.memory arch s.old (B.state bus.old) (operation_meaning arch s.old operation.now)).state }
    ensures stepped { (carried_out B.memory arch s.old (B.state bus.old) (operation_meaning arch s.old operation.now)).stepped ≡ Cost result }
    ensures same { B.identity bus.new ≡ B.identity bus.old }
{
    if !takes_effect(operation.cond, s) {
        return skip(arch, s);
    }
    compute::<B, Anywhere, Anywhere>(arch, s, bus, &operation.op)
}

/// Runs an operation over a bus, wherever its access is, which was asked for before. The result is the cost, or the stop of a write that the bus
/// refused; then the registers are as they were.
#[inline(always)]
#[tactic(auto, using(crate::proofs::Laws::made_means))]
pub fn run_made<B: Bus>(
    arch: Arch,
    s: &mut Registers,
    bus: &mut B,
    operation: &Operation,
    access: Option<DataAccess>,
) -> Stepped
    requires operation { HasOperation operation.now }
    requires known { is_other operation.now.op ≡ false }
    requires access { access ≡ access_made s.old operation.now }
    requires fields { IfSome access HasAccess }
    ensures registers { s.new ≡ (carried_out B.memory arch s.old (B.state bus.old) (operation_meaning arch s.old operation.now)).registers }
    ensures state { B.state bus.new ≡ (carried_out B.memory arch s.old (B.state bus.old) (operation_meaning arch s.old operation.now)).state }
    ensures stepped { result ≡ (carried_out B.memory arch s.old (B.state bus.old) (operation_meaning arch s.old operation.now)).stepped }
    ensures same { B.identity bus.new ≡ B.identity bus.old }
{
    match access {
        Some(it) => make(arch, s, bus, it),
        None => Stepped::Cost(run_still(arch, s, bus, operation)),
    }
}

/// Runs an operation over a bus, wherever its access is. The result is the cost, or the stop of a write that the bus refused; then the registers are
/// as they were.
#[inline(always)]
pub fn run_anywhere<B: Bus>(
    arch: Arch,
    s: &mut Registers,
    bus: &mut B,
    operation: &Operation,
) -> Stepped
    requires operation { HasOperation operation.now }
    requires known { is_other operation.now.op ≡ false }
    ensures registers { s.new ≡ (carried_out B.memory arch s.old (B.state bus.old) (operation_meaning arch s.old operation.now)).registers }
    ensures state { B.state bus.new ≡ (carried_out B.memory arch s.old (B.state bus.old) (operation_meaning arch s.old operation.now)).state }
    ensures stepped { result ≡ (carried_out B.memory arch s.old (B.state bus.old) (operation_meaning arch s.old operation.now)).stepped }
    ensures same { B.identity bus.new ≡ B.identity bus.old }
{
    let access = access_made(s, operation);
    run_made(arch, s, bus, operation, access)
}
