//! LDRD and STRD.

ghost use Rattle.std.specs.Prelude.{◌≡◌, ◌<◌, ◌%◌, ◌+◌, ◌∷◌, []};
ghost use Rattle.ds_base.specs.Accesses.{perform};
ghost use Rattle.ds_base.specs.Numbers.{aligned_down};
ghost use Rattle.ds_base.specs.declared.memories.Width.TheVariants.{Word};
ghost use Rattle.arm_words.specs.Fields.{HasShortOffset};
ghost use Rattle.arm_core.specs.Effects.{carried_out};
ghost use Rattle.arm_core.specs.Doubles.{double_at, double_meaning, load_double_meaning, store_double_meaning};
ghost use Rattle.arm_core.specs.Multiples.{writes};

use arm_core::{
    Addressed, Bus, Class, Registers, Stepped, addressed, short_offset_value, write_back,
};
use arm_words::ShortOffset;
use ds_base::{Arch, Stop, Width};

/// The address of the first word.
#[inline(always)]
fn aligned(at: u32) -> u32
    ensures { result ≡ aligned_down Word at }
{
    at - at % 4
}

/// LDRD (ARM manual, A4.1).
#[inline(always)]
fn load_double<B: Bus>(
    arch: Arch,
    s: &mut Registers,
    bus: &mut B,
    rn: u8,
    rd: u8,
    to: Addressed,
) -> Stepped
    requires rn { rn < 16 }
    requires rd { rd < 16 }
    requires even { rd % 2 ≡ 0 }
    ensures registers { s.new ≡ (carried_out B.memory arch s.old (B.state bus.old) (load_double_meaning s.old rn rd to)).registers }
    ensures state { B.state bus.new ≡ (carried_out B.memory arch s.old (B.state bus.old) (load_double_meaning s.old rn rd to)).state }
    ensures stepped { result ≡ (carried_out B.memory arch s.old (B.state bus.old) (load_double_meaning s.old rn rd to)).stepped }
    ensures same { B.identity bus.new ≡ B.identity bus.old }
{
    let at = aligned(to.address);
    let first = bus.read(at, Width::Word);
    let second = bus.read(at.wrapping_add(4), Width::Word);
    s.go_on();
    write_back(s, to.written, rn, to.base);
    s.set(rd, first);
    s.set(rd + 1, second);
    Stepped::Cost(Class::LoadMultiple(2).cost(arch, rd == 14))
}

/// Stores two words one after another, until a write is refused.
#[inline(always)]
fn store_words<B: Bus>(bus: &mut B, at: u32, first: u32, second: u32) -> Option<Stop>
    ensures stop { result ≡ (perform B.memory (B.state bus.old) (writes at (first ∷ second ∷ []))).stop }
    ensures state { B.state bus.new ≡ (perform B.memory (B.state bus.old) (writes at (first ∷ second ∷ []))).state }
    ensures same { B.identity bus.new ≡ B.identity bus.old }
{
    if let Some(stop) = bus.write(at, Width::Word, first) {
        return Some(stop);
    }
    bus.write(at.wrapping_add(4), Width::Word, second)
}

/// STRD (ARM manual, A4.1).
#[inline(always)]
fn store_double<B: Bus>(
    arch: Arch,
    s: &mut Registers,
    bus: &mut B,
    rn: u8,
    rd: u8,
    to: Addressed,
) -> Stepped
    requires rn { rn < 16 }
    requires rd { rd < 16 }
    requires even { rd % 2 ≡ 0 }
    ensures registers { s.new ≡ (carried_out B.memory arch s.old (B.state bus.old) (store_double_meaning s.old rn rd to)).registers }
    ensures state { B.state bus.new ≡ (carried_out B.memory arch s.old (B.state bus.old) (store_double_meaning s.old rn rd to)).state }
    ensures stepped { result ≡ (carried_out B.memory arch s.old (B.state bus.old) (store_double_meaning s.old rn rd to)).stepped }
    ensures same { B.identity bus.new ≡ B.identity bus.old }
{
    let first = s.get_late(rd);
    let second = s.get_late(rd + 1);
    match store_words(bus, aligned(to.address), first, second) {
        Some(stop) => Stepped::Left(stop),
        None => {
            s.go_on();
            write_back(s, to.written, rn, to.base);
            Stepped::Cost(Class::StoreMultiple(2).cost(arch, false))
        }
    }
}

/// LDRD and STRD at an address.
#[inline(always)]
fn double_at<B: Bus>(
    arch: Arch,
    s: &mut Registers,
    bus: &mut B,
    store: bool,
    rn: u8,
    rd: u8,
    to: Addressed,
) -> Stepped
    requires rn { rn < 16 }
    requires rd { rd < 16 }
    requires even { rd % 2 ≡ 0 }
    ensures registers { s.new ≡ (carried_out B.memory arch s.old (B.state bus.old) (double_at s.old store rn rd to)).registers }
    ensures state { B.state bus.new ≡ (carried_out B.memory arch s.old (B.state bus.old) (double_at s.old store rn rd to)).state }
    ensures stepped { result ≡ (carried_out B.memory arch s.old (B.state bus.old) (double_at s.old store rn rd to)).stepped }
    ensures same { B.identity bus.new ≡ B.identity bus.old }
{
    if store {
        store_double(arch, s, bus, rn, rd, to)
    } else {
        load_double(arch, s, bus, rn, rd, to)
    }
}

/// LDRD and STRD (`store`) of `rd`, which is even, and the register behind it (ARM manual, A4.1 "LDRD", "STRD", A5.3 "Addressing Mode 3").
#[inline]
pub fn double<B: Bus>(
    arch: Arch,
    s: &mut Registers,
    bus: &mut B,
    store: bool,
    pre: bool,
    up: bool,
    write_back: bool,
    rn: u8,
    rd: u8,
    offset: ShortOffset,
) -> Stepped
    requires rn { rn < 16 }
    requires rd { rd < 16 }
    requires even { rd % 2 ≡ 0 }
    requires offset { HasShortOffset offset }
    ensures registers { s.new
        ≡ (carried_out B.memory arch s.old (B.state bus.old) (double_meaning s.old store pre up write_back rn rd offset)).registers }
    ensures state { B.state bus.new
        ≡ (carried_out B.memory arch s.old (B.state bus.old) (double_meaning s.old store pre up write_back rn rd offset)).state }
    ensures stepped { result
        ≡ (carried_out B.memory arch s.old (B.state bus.old) (double_meaning s.old store pre up write_back rn rd offset)).stepped }
    ensures same { B.identity bus.new ≡ B.identity bus.old }
{
    let to = addressed(s, pre, up, write_back, rn, short_offset_value(s, offset));
    double_at(arch, s, bus, store, rn, rd, to)
}
