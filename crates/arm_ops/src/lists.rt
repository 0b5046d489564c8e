//! LDM and STM whose words all are of RAM.

ghost use Rattle.std.specs.Prelude.{◌≡◌, ◌<◌, ◌≤◌, true};
ghost use Rattle.arm_core.specs.Addressing.{list_bytes, lowest};
ghost use Rattle.arm_core.specs.Effects.{carried_out};
ghost use Rattle.arm_core.specs.Registers.{register};
ghost use Rattle.arm_core.specs.declared.outcomes.Stepped.TheVariants.{Cost};
ghost use Rattle.arm_ops.specs.Meanings.{op_meaning, AreNear, RefusesNoneInRam};
ghost use Rattle.arm_ops.specs.Operations.{is_decoded, HasOp};
ghost use Rattle.arm_ops.specs.declared.operations.Op.TheVariants.{Multiple};

use crate::near::Near;
use crate::operations::{Op, Operation, RegisterList};
use crate::running::paid;
use arm_core::{Bus, Registers, list_bytes, lowest};
use arm_exec::multiple;
use ds_base::Arch;

/// Whether an operation is LDM or STM.
#[inline(always)]
pub fn is_list(operation: &Operation) -> bool {
    matches!(operation.op, Op::Multiple(_))
}

/// Whether sixteen words from an address up are of RAM.
#[inline(always)]
fn is_ram_run(at: u32) -> bool
    ensures low { result ≡ true → 0x2000000 ≤ at }
    ensures high { result ≡ true → at ≤ 0x3FFFFC0 }
{
    at >= 0x200_0000 && at <= 0x3FF_FFC0
}

/// Where the words of LDM or STM begin (ARM manual, A5.4 "Addressing Mode 4").
#[inline(always)]
pub fn first_word(s: &Registers, it: RegisterList) -> u32
    requires { it.rn < 15 }
    ensures { result ≡ lowest it.pre it.up (register s.now it.rn) (list_bytes it.list) }
{
    lowest(it.pre, it.up, s.low(it.rn), list_bytes(it.list))
}

/// LDM or STM, where its words are of RAM; the result is its cost, and 0 where they aren't.
#[inline(always)]
#[tactic(auto, using(crate::proofs::Words::list_near, crate::proofs::Words::list_paid))]
fn move_list<B: Bus, N: Near<B>>(
    arch: Arch,
    s: &mut Registers,
    bus: &mut B,
    it: RegisterList,
) -> u32
    requires fields { HasOp (Multiple it) }
    requires ram { RefusesNoneInRam B.memory }
    ensures none { result ≡ 0 → (s.new ≡ s.old) × (B.state bus.new ≡ B.state bus.old) }
    ensures registers { 0 < result → s.new ≡ (carried_out B.memory arch s.old (B.state bus.old) (op_meaning arch s.old (Multiple it))).registers }
    ensures state { 0 < result → B.state bus.new ≡ (carried_out B.memory arch s.old (B.state bus.old) (op_meaning arch s.old (Multiple it))).state }
    ensures stepped { 0 < result → (carried_out B.memory arch s.old (B.state bus.old) (op_meaning arch s.old (Multiple it))).stepped ≡ Cost result }
    ensures near { 0 < result → AreNear N.near (op_meaning arch s.old (Multiple it)).accesses }
    ensures same { B.identity bus.new ≡ B.identity bus.old }
{
    if !is_ram_run(first_word(s, it)) {
        return 0;
    }
    paid(multiple(
        arch,
        s,
        bus,
        it.pre,
        it.up,
        false,
        it.write_back,
        it.load,
        it.rn,
        it.list,
    ))
}

/// LDM or STM, where it is one and its words are of RAM; the result is its cost, and 0 where it isn't or they aren't.
#[inline(always)]
pub(crate) fn run_list<B: Bus, N: Near<B>>(
    arch: Arch,
    s: &mut Registers,
    bus: &mut B,
    op: &Op,
) -> u32
    requires fields { HasOp op.now }
    requires ram { RefusesNoneInRam B.memory }
    ensures none { result ≡ 0 → (s.new ≡ s.old) × (B.state bus.new ≡ B.state bus.old) }
    ensures known { 0 < result → is_decoded op.now ≡ true }
    ensures registers { 0 < result → s.new ≡ (carried_out B.memory arch s.old (B.state bus.old) (op_meaning arch s.old op.now)).registers }
    ensures state { 0 < result → B.state bus.new ≡ (carried_out B.memory arch s.old (B.state bus.old) (op_meaning arch s.old op.now)).state }
    ensures stepped { 0 < result → (carried_out B.memory arch s.old (B.state bus.old) (op_meaning arch s.old op.now)).stepped ≡ Cost result }
    ensures near { 0 < result → AreNear N.near (op_meaning arch s.old op.now).accesses }
    ensures same { B.identity bus.new ≡ B.identity bus.old }
{
    match *op {
        Op::Multiple(it) => move_list::<B, N>(arch, s, bus, it),
        _ => 0,
    }
}
