//! Loads and stores where memory is reached at once, as which the frequent ones are tried first.

ghost use Rattle.std.specs.Prelude.{◌≡◌, ◌<◌, ◌%◌, ◌^◌, ℕ, Bool, true, false, None, IfSome};
ghost use Rattle.arm_core.specs.Addressing.{with_base};
ghost use Rattle.arm_core.specs.Costs.{clocks};
ghost use Rattle.arm_core.specs.Effects.{carried_out};
ghost use Rattle.arm_core.specs.Registers.{next, put};
ghost use Rattle.arm_core.specs.Transfers.{load_meaning, load_word_meaning, rotated_half, store_meaning};
ghost use Rattle.arm_core.specs.declared.classes.Class.TheVariants.{Load};
ghost use Rattle.arm_core.specs.declared.outcomes.Stepped.TheVariants.{Cost};
ghost use Rattle.arm_ops.specs.Meanings.{is_ram};
ghost use Rattle.ds_base.specs.declared.memories.Width.TheVariants.{Byte, Half};

use arm_core::{Addressed, Bus, Class, Registers, write_back};
use arm_exec::{cut, rotated_half, rotated_word};
use ds_base::{Arch, Width};

/// What is near for whoever runs operations over a bus: memory that is reached at once, and where loads are made past RAM.
pub trait Near<B: Bus> {
    /// Whether a load from an address past RAM is.
    ghost near: { ℕ → Bool };

    /// Whether a load from an address past RAM is.
    fn is_near(at: u32) -> bool
        ensures { result ≡ near at };

    /// Reads data where that is memory that is reached at once, which is RAM; elsewhere nothing is changed.
    fn read_near(bus: &mut B, at: u32, width: Width) -> Option<u32>
        ensures ram { IfSome result (λ _. is_ram at ≡ true) }
        ensures value { IfSome result (λ value. value ≡ B.memory.read_value (B.state bus.old) at width) }
        ensures next { IfSome result (λ _. B.state bus.new ≡ B.memory.read_next (B.state bus.old) at width) }
        ensures none { result ≡ None → B.state bus.new ≡ B.state bus.old }
        ensures same { B.identity bus.new ≡ B.identity bus.old };

    /// Writes data there, if it is; elsewhere nothing is changed.
    fn write_near(bus: &mut B, at: u32, width: Width, value: u32) -> bool
        ensures ram { result ≡ true → is_ram at ≡ true }
        ensures refusal { result ≡ true → B.memory.refusal (B.state bus.old) at width value ≡ None }
        ensures next { result ≡ true → B.state bus.new ≡ B.memory.write_next (B.state bus.old) at width value }
        ensures none { result ≡ false → B.state bus.new ≡ B.state bus.old }
        ensures same { B.identity bus.new ≡ B.identity bus.old };
}

/// What a load of a register below r15 does after the access; the result is its cost.
#[inline(always)]
fn loaded(arch: Arch, s: &mut Registers, rn: u8, rd: u8, to: Addressed, value: u32) -> u32
    requires rn { rn < 16 }
    requires rd { rd < 15 }
    ensures registers { s.new ≡ put rd value (with_base to.written rn to.base (next s.old)) }
    ensures cost { result ≡ clocks Load arch }
{
    s.go_on();
    write_back(s, to.written, rn, to.base);
    s.set_low(rd, value);
    Class::Load.cost(arch, false)
}

/// LDR where it reaches near memory; the result is its cost, and 0 where it doesn't: then nothing is changed.
#[inline(always)]
#[tactic(auto, using(crate::proofs::Laws::low_word))]
pub(crate) fn load_word<B: Bus, N: Near<B>>(
    arch: Arch,
    s: &mut Registers,
    bus: &mut B,
    rn: u8,
    rd: u8,
    to: Addressed,
) -> u32
    requires rn { rn < 16 }
    requires rd { rd < 15 }
    ensures none { result ≡ 0 → (s.new ≡ s.old) × (B.state bus.new ≡ B.state bus.old) }
    ensures registers { 0 < result → s.new ≡ (carried_out B.memory arch s.old (B.state bus.old) (load_word_meaning arch s.old rn rd to)).registers }
    ensures state { 0 < result → B.state bus.new ≡ (carried_out B.memory arch s.old (B.state bus.old) (load_word_meaning arch s.old rn rd to)).state }
    ensures stepped { 0 < result → (carried_out B.memory arch s.old (B.state bus.old) (load_word_meaning arch s.old rn rd to)).stepped ≡ Cost result }
    ensures ram { 0 < result → is_ram to.address ≡ true }
    ensures same { B.identity bus.new ≡ B.identity bus.old }
{
    match N::read_near(bus, to.address, Width::Word) {
        None => 0,
        Some(value) => loaded(arch, s, rn, rd, to, rotated_word(to.address, value)),
    }
}

/// LDRB likewise.
#[inline(always)]
pub(crate) fn load_byte<B: Bus, N: Near<B>>(
    arch: Arch,
    s: &mut Registers,
    bus: &mut B,
    rn: u8,
    rd: u8,
    to: Addressed,
) -> u32
    requires rn { rn < 16 }
    requires rd { rd < 15 }
    ensures none { result ≡ 0 → (s.new ≡ s.old) × (B.state bus.new ≡ B.state bus.old) }
    ensures registers { 0 < result → s.new
        ≡ (carried_out B.memory arch s.old (B.state bus.old) (load_meaning s.old rn rd to Byte (λ value. value % 2 ^ 8))).registers }
    ensures state { 0 < result → B.state bus.new
        ≡ (carried_out B.memory arch s.old (B.state bus.old) (load_meaning s.old rn rd to Byte (λ value. value % 2 ^ 8))).state }
    ensures stepped { 0 < result
        → (carried_out B.memory arch s.old (B.state bus.old) (load_meaning s.old rn rd to Byte (λ value. value % 2 ^ 8))).stepped ≡ Cost result }
    ensures ram { 0 < result → is_ram to.address ≡ true }
    ensures same { B.identity bus.new ≡ B.identity bus.old }
{
    match N::read_near(bus, to.address, Width::Byte) {
        None => 0,
        Some(value) => loaded(arch, s, rn, rd, to, value & 0xFF),
    }
}

/// LDRH likewise.
#[inline(always)]
pub(crate) fn load_half<B: Bus, N: Near<B>>(
    arch: Arch,
    s: &mut Registers,
    bus: &mut B,
    rn: u8,
    rd: u8,
    to: Addressed,
) -> u32
    requires rn { rn < 16 }
    requires rd { rd < 15 }
    ensures none { result ≡ 0 → (s.new ≡ s.old) × (B.state bus.new ≡ B.state bus.old) }
    ensures registers { 0 < result → s.new
        ≡ (carried_out B.memory arch s.old (B.state bus.old) (load_meaning s.old rn rd to Half (rotated_half arch to.address))).registers }
    ensures state { 0 < result → B.state bus.new
        ≡ (carried_out B.memory arch s.old (B.state bus.old) (load_meaning s.old rn rd to Half (rotated_half arch to.address))).state }
    ensures stepped { 0 < result
        → (carried_out B.memory arch s.old (B.state bus.old) (load_meaning s.old rn rd to Half (rotated_half arch to.address))).stepped
        ≡ Cost result }
    ensures ram { 0 < result → is_ram to.address ≡ true }
    ensures same { B.identity bus.new ≡ B.identity bus.old }
{
    match N::read_near(bus, to.address, Width::Half) {
        None => 0,
        Some(value) => loaded(arch, s, rn, rd, to, rotated_half(arch, to.address, value)),
    }
}

/// STR, STRB and STRH likewise.
#[inline(always)]
pub(crate) fn store<B: Bus, N: Near<B>>(
    arch: Arch,
    s: &mut Registers,
    bus: &mut B,
    rn: u8,
    rd: u8,
    to: Addressed,
    width: Width,
) -> u32
    requires rn { rn < 16 }
    requires rd { rd < 15 }
    ensures none { result ≡ 0 → (s.new ≡ s.old) × (B.state bus.new ≡ B.state bus.old) }
    ensures registers { 0 < result → s.new ≡ (carried_out B.memory arch s.old (B.state bus.old) (store_meaning s.old rn rd to width)).registers }
    ensures state { 0 < result → B.state bus.new ≡ (carried_out B.memory arch s.old (B.state bus.old) (store_meaning s.old rn rd to width)).state }
    ensures stepped { 0 < result → (carried_out B.memory arch s.old (B.state bus.old) (store_meaning s.old rn rd to width)).stepped ≡ Cost result }
    ensures ram { 0 < result → is_ram to.address ≡ true }
    ensures same { B.identity bus.new ≡ B.identity bus.old }
{
    if !N::write_near(bus, to.address, width, cut(width, s.low(rd))) {
        return 0;
    }
    s.go_on();
    write_back(s, to.written, rn, to.base);
    Class::Store.cost(arch, false)
}
