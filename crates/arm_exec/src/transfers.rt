//! Loads and stores of one register.

ghost use Rattle.std.specs.Prelude.{◌≡◌, ◌<◌, ◌+◌, ◌%◌, ◌^◌, ◌==◌, true, false, if◌then◌else◌};
ghost use Rattle.ds_base.specs.Numbers.{cut_to};
ghost use Rattle.ds_base.specs.declared.memories.Width.TheVariants.{Byte, Half, Word};
ghost use Rattle.ds_base.specs.declared.processors.Arch.TheVariants.{V4, V5};
ghost use Rattle.arm_words.specs.Fields.{HasOffset, HasShortOffset};
ghost use Rattle.arm_core.specs.Addressing.{with_base};
ghost use Rattle.arm_core.specs.Costs.{clocks, jump_clocks};
ghost use Rattle.arm_core.specs.Effects.{carried_out};
ghost use Rattle.arm_core.specs.Registers.{next, put};
ghost use Rattle.arm_core.specs.Transfers.{half_or_signed_meaning, half_transfer_meaning, literal_meaning, load_meaning, load_word_meaning, put_word, rotated_half, rotated_word, signed_byte, signed_half, signed_half_meaning, store_meaning, transfer_meaning, word_or_byte_meaning};
ghost use Rattle.arm_core.specs.declared.classes.Class.TheVariants.{Load};

use crate::branches::exchange_to;
use arm_core::{
    Addressed, Bus, Class, Registers, Stepped, addressed, addressed_literal, offset_value,
    short_offset_value, write_back,
};
use arm_words::{HalfOp, Offset, ShortOffset};
use ds_base::{Arch, Width};

/// A number, cut to an access's width.
#[inline(always)]
pub fn cut(width: Width, value: u32) -> u32
    ensures { result ≡ cut_to width value }
{
    match width {
        Width::Byte => value & 0xFF,
        Width::Half => value & 0xFFFF,
        Width::Word => value,
    }
}

/// The low byte with its sign.
#[inline(always)]
fn signed_byte(value: u32) -> u32
    ensures { result ≡ signed_byte value }
{
    let low = value & 0xFF;
    if (value >> 7) & 1 == 1 {
        low + 0xFFFF_FF00
    } else {
        low
    }
}

/// The low half with its sign.
#[inline(always)]
pub(crate) fn signed_half(value: u32) -> u32
    ensures { result ≡ signed_half value }
{
    let low = value & 0xFFFF;
    if (value >> 15) & 1 == 1 {
        low + 0xFFFF_0000
    } else {
        low
    }
}

/// The word that LDR makes of what was read at an address.
#[inline(always)]
pub fn rotated_word(address: u32, value: u32) -> u32
    ensures { result ≡ rotated_word address value }
{
    value.rotate_right(8 * (address % 4))
}

/// The half that LDRH makes of what was read at an address.
#[inline(always)]
pub fn rotated_half(arch: Arch, address: u32, value: u32) -> u32
    ensures { result ≡ rotated_half arch address value }
{
    let half = value & 0xFFFF;
    match arch {
        Arch::V4 => half.rotate_right(8 * (address % 2)),
        Arch::V5 => half,
    }
}

/// A word is loaded: on ARMv5 a load of r15 is a branch and exchange.
#[inline(always)]
fn set_word(arch: Arch, s: &mut Registers, rd: u8, value: u32)
    requires { rd < 16 }
    ensures { s.new ≡ put_word arch rd value s.old }
{
    match arch {
        Arch::V4 => s.set(rd, value),
        Arch::V5 => {
            if rd == 15 {
                exchange_to(s, value);
            } else {
                s.set(rd, value);
            }
        }
    }
}

/// What a load other than of a word does after the access; the result is its cost.
#[inline(always)]
fn loaded(arch: Arch, s: &mut Registers, rn: u8, rd: u8, to: Addressed, value: u32) -> u32
    requires rn { rn < 16 }
    requires rd { rd < 16 }
    ensures registers { s.new ≡ put rd value (with_base to.written rn to.base (next s.old)) }
    ensures cost { result ≡ clocks Load arch + (if rd == 15 then jump_clocks else 0) }
{
    s.go_on();
    write_back(s, to.written, rn, to.base);
    s.set(rd, value);
    Class::Load.cost(arch, rd == 15)
}

/// What a load of a word does after the access; the result is its cost.
#[inline(always)]
fn loaded_word(arch: Arch, s: &mut Registers, rn: u8, rd: u8, to: Addressed, value: u32) -> u32
    requires rn { rn < 16 }
    requires rd { rd < 16 }
    ensures registers { s.new ≡ put_word arch rd value (with_base to.written rn to.base (next s.old)) }
    ensures cost { result ≡ clocks Load arch + (if rd == 15 then jump_clocks else 0) }
{
    s.go_on();
    write_back(s, to.written, rn, to.base);
    set_word(arch, s, rd, value);
    Class::Load.cost(arch, rd == 15)
}

/// LDR (ARM manual, A4.1).
#[inline(always)]
fn load_word<B: Bus>(
    arch: Arch,
    s: &mut Registers,
    bus: &mut B,
    rn: u8,
    rd: u8,
    to: Addressed,
) -> Stepped
    requires rn { rn < 16 }
    requires rd { rd < 16 }
    ensures registers { s.new ≡ (carried_out B.memory arch s.old (B.state bus.old) (load_word_meaning arch s.old rn rd to)).registers }
    ensures state { B.state bus.new ≡ (carried_out B.memory arch s.old (B.state bus.old) (load_word_meaning arch s.old rn rd to)).state }
    ensures stepped { result ≡ (carried_out B.memory arch s.old (B.state bus.old) (load_word_meaning arch s.old rn rd to)).stepped }
    ensures same { B.identity bus.new ≡ B.identity bus.old }
{
    let value = bus.read(to.address, Width::Word);
    Stepped::Cost(loaded_word(arch, s, rn, rd, to, rotated_word(to.address, value)))
}

/// LDRB (ARM manual, A4.1).
#[inline(always)]
fn load_byte<B: Bus>(
    arch: Arch,
    s: &mut Registers,
    bus: &mut B,
    rn: u8,
    rd: u8,
    to: Addressed,
) -> Stepped
    requires rn { rn < 16 }
    requires rd { rd < 16 }
    ensures registers { s.new
        ≡ (carried_out B.memory arch s.old (B.state bus.old) (load_meaning s.old rn rd to Byte (λ value. value % 2 ^ 8))).registers }
    ensures state { B.state bus.new
        ≡ (carried_out B.memory arch s.old (B.state bus.old) (load_meaning s.old rn rd to Byte (λ value. value % 2 ^ 8))).state }
    ensures stepped { result
        ≡ (carried_out B.memory arch s.old (B.state bus.old) (load_meaning s.old rn rd to Byte (λ value. value % 2 ^ 8))).stepped }
    ensures same { B.identity bus.new ≡ B.identity bus.old }
{
    let value = bus.read(to.address, Width::Byte);
    Stepped::Cost(loaded(arch, s, rn, rd, to, value & 0xFF))
}

/// LDRSB (ARM manual, A4.1).
#[inline(always)]
fn load_signed_byte<B: Bus>(
    arch: Arch,
    s: &mut Registers,
    bus: &mut B,
    rn: u8,
    rd: u8,
    to: Addressed,
) -> Stepped
    requires rn { rn < 16 }
    requires rd { rd < 16 }
    ensures registers { s.new ≡ (carried_out B.memory arch s.old (B.state bus.old) (load_meaning s.old rn rd to Byte signed_byte)).registers }
    ensures state { B.state bus.new ≡ (carried_out B.memory arch s.old (B.state bus.old) (load_meaning s.old rn rd to Byte signed_byte)).state }
    ensures stepped { result ≡ (carried_out B.memory arch s.old (B.state bus.old) (load_meaning s.old rn rd to Byte signed_byte)).stepped }
    ensures same { B.identity bus.new ≡ B.identity bus.old }
{
    let value = bus.read(to.address, Width::Byte);
    Stepped::Cost(loaded(arch, s, rn, rd, to, signed_byte(value)))
}

/// LDRH (ARM manual, A4.1).
#[inline(always)]
fn load_half<B: Bus>(
    arch: Arch,
    s: &mut Registers,
    bus: &mut B,
    rn: u8,
    rd: u8,
    to: Addressed,
) -> Stepped
    requires rn { rn < 16 }
    requires rd { rd < 16 }
    ensures registers { s.new
        ≡ (carried_out B.memory arch s.old (B.state bus.old) (load_meaning s.old rn rd to Half (rotated_half arch to.address))).registers }
    ensures state { B.state bus.new
        ≡ (carried_out B.memory arch s.old (B.state bus.old) (load_meaning s.old rn rd to Half (rotated_half arch to.address))).state }
    ensures stepped { result
        ≡ (carried_out B.memory arch s.old (B.state bus.old) (load_meaning s.old rn rd to Half (rotated_half arch to.address))).stepped }
    ensures same { B.identity bus.new ≡ B.identity bus.old }
{
    let value = bus.read(to.address, Width::Half);
    Stepped::Cost(loaded(arch, s, rn, rd, to, rotated_half(arch, to.address, value)))
}

/// LDRSH (ARM manual, A4.1) at an even address.
#[inline(always)]
fn load_signed_half<B: Bus>(
    arch: Arch,
    s: &mut Registers,
    bus: &mut B,
    rn: u8,
    rd: u8,
    to: Addressed,
) -> Stepped
    requires rn { rn < 16 }
    requires rd { rd < 16 }
    ensures registers { s.new ≡ (carried_out B.memory arch s.old (B.state bus.old) (load_meaning s.old rn rd to Half signed_half)).registers }
    ensures state { B.state bus.new ≡ (carried_out B.memory arch s.old (B.state bus.old) (load_meaning s.old rn rd to Half signed_half)).state }
    ensures stepped { result ≡ (carried_out B.memory arch s.old (B.state bus.old) (load_meaning s.old rn rd to Half signed_half)).stepped }
    ensures same { B.identity bus.new ≡ B.identity bus.old }
{
    let value = bus.read(to.address, Width::Half);
    Stepped::Cost(loaded(arch, s, rn, rd, to, signed_half(value)))
}

/// STR, STRB, STRH (ARM manual, A4.1).
#[inline(always)]
fn store<B: Bus>(
    arch: Arch,
    s: &mut Registers,
    bus: &mut B,
    rn: u8,
    rd: u8,
    to: Addressed,
    width: Width,
) -> Stepped
    requires rn { rn < 16 }
    requires rd { rd < 16 }
    ensures registers { s.new ≡ (carried_out B.memory arch s.old (B.state bus.old) (store_meaning s.old rn rd to width)).registers }
    ensures state { B.state bus.new ≡ (carried_out B.memory arch s.old (B.state bus.old) (store_meaning s.old rn rd to width)).state }
    ensures stepped { result ≡ (carried_out B.memory arch s.old (B.state bus.old) (store_meaning s.old rn rd to width)).stepped }
    ensures same { B.identity bus.new ≡ B.identity bus.old }
{
    let stored = cut(width, s.get_late(rd));
    match bus.write(to.address, width, stored) {
        Some(stop) => Stepped::Left(stop),
        None => {
            s.go_on();
            write_back(s, to.written, rn, to.base);
            Stepped::Cost(Class::Store.cost(arch, false))
        }
    }
}

/// Who executes a transfer as it is decoded.
enum AsDecoded {}

/// LDR, LDRB, STR and STRB at an address. The last type says who calls: each caller has a copy of its own, which can stand in line in its loop over
/// steps.
#[inline(always)]
pub fn transfer_at<B: Bus, Caller>(
    arch: Arch,
    s: &mut Registers,
    bus: &mut B,
    load: bool,
    byte: bool,
    rn: u8,
    rd: u8,
    to: Addressed,
) -> Stepped
    requires rn { rn < 16 }
    requires rd { rd < 16 }
    ensures registers { s.new ≡ (carried_out B.memory arch s.old (B.state bus.old) (word_or_byte_meaning arch s.old load byte rn rd to)).registers }
    ensures state { B.state bus.new ≡ (carried_out B.memory arch s.old (B.state bus.old) (word_or_byte_meaning arch s.old load byte rn rd to)).state }
    ensures stepped { result ≡ (carried_out B.memory arch s.old (B.state bus.old) (word_or_byte_meaning arch s.old load byte rn rd to)).stepped }
    ensures same { B.identity bus.new ≡ B.identity bus.old }
{
    match (load, byte) {
        (true, true) => load_byte(arch, s, bus, rn, rd, to),
        (true, false) => load_word(arch, s, bus, rn, rd, to),
        (false, true) => store(arch, s, bus, rn, rd, to, Width::Byte),
        (false, false) => store(arch, s, bus, rn, rd, to, Width::Word),
    }
}

/// LDR, LDRB, STR and STRB, also with `t` (ARM manual, A4.1 under their names, A5.2 "Addressing Mode 2").
#[inline]
pub fn transfer<B: Bus>(
    arch: Arch,
    s: &mut Registers,
    bus: &mut B,
    pre: bool,
    up: bool,
    byte: bool,
    write_back: bool,
    load: bool,
    rn: u8,
    rd: u8,
    offset: Offset,
) -> Stepped
    requires rn { rn < 16 }
    requires rd { rd < 16 }
    requires offset { HasOffset offset }
    ensures registers { s.new
        ≡ (carried_out B.memory arch s.old (B.state bus.old) (transfer_meaning arch s.old pre up byte write_back load rn rd offset)).registers }
    ensures state { B.state bus.new
        ≡ (carried_out B.memory arch s.old (B.state bus.old) (transfer_meaning arch s.old pre up byte write_back load rn rd offset)).state }
    ensures stepped { result
        ≡ (carried_out B.memory arch s.old (B.state bus.old) (transfer_meaning arch s.old pre up byte write_back load rn rd offset)).stepped }
    ensures same { B.identity bus.new ≡ B.identity bus.old }
{
    let to = addressed(s, pre, up, write_back, rn, offset_value(s, offset));
    transfer_at::<B, AsDecoded>(arch, s, bus, load, byte, rn, rd, to)
}

/// LDRSH (ARM manual, A4.1).
#[inline(always)]
fn load_signed_half_or_byte<B: Bus>(
    arch: Arch,
    s: &mut Registers,
    bus: &mut B,
    rn: u8,
    rd: u8,
    to: Addressed,
) -> Stepped
    requires rn { rn < 16 }
    requires rd { rd < 16 }
    ensures registers { s.new ≡ (carried_out B.memory arch s.old (B.state bus.old) (signed_half_meaning arch s.old rn rd to)).registers }
    ensures state { B.state bus.new ≡ (carried_out B.memory arch s.old (B.state bus.old) (signed_half_meaning arch s.old rn rd to)).state }
    ensures stepped { result ≡ (carried_out B.memory arch s.old (B.state bus.old) (signed_half_meaning arch s.old rn rd to)).stepped }
    ensures same { B.identity bus.new ≡ B.identity bus.old }
{
    match arch {
        Arch::V5 => load_signed_half(arch, s, bus, rn, rd, to),
        Arch::V4 => {
            if to.address % 2 == 0 {
                load_signed_half(arch, s, bus, rn, rd, to)
            } else {
                load_signed_byte(arch, s, bus, rn, rd, to)
            }
        }
    }
}

/// STRH, LDRH, LDRSB and LDRSH at an address. The last type says who calls.
#[inline(always)]
pub fn half_transfer_at<B: Bus, Caller>(
    arch: Arch,
    s: &mut Registers,
    bus: &mut B,
    op: HalfOp,
    rn: u8,
    rd: u8,
    to: Addressed,
) -> Stepped
    requires rn { rn < 16 }
    requires rd { rd < 16 }
    ensures registers { s.new ≡ (carried_out B.memory arch s.old (B.state bus.old) (half_or_signed_meaning arch s.old op rn rd to)).registers }
    ensures state { B.state bus.new ≡ (carried_out B.memory arch s.old (B.state bus.old) (half_or_signed_meaning arch s.old op rn rd to)).state }
    ensures stepped { result ≡ (carried_out B.memory arch s.old (B.state bus.old) (half_or_signed_meaning arch s.old op rn rd to)).stepped }
    ensures same { B.identity bus.new ≡ B.identity bus.old }
{
    match op {
        HalfOp::Strh => store(arch, s, bus, rn, rd, to, Width::Half),
        HalfOp::Ldrh => load_half(arch, s, bus, rn, rd, to),
        HalfOp::Ldrsb => load_signed_byte(arch, s, bus, rn, rd, to),
        HalfOp::Ldrsh => load_signed_half_or_byte(arch, s, bus, rn, rd, to),
    }
}

/// STRH, LDRH, LDRSB and LDRSH (ARM manual, A4.1 under their names, A5.3 "Addressing Mode 3").
#[inline]
pub fn half_transfer<B: Bus>(
    arch: Arch,
    s: &mut Registers,
    bus: &mut B,
    op: HalfOp,
    pre: bool,
    up: bool,
    write_back: bool,
    rn: u8,
    rd: u8,
    offset: ShortOffset,
) -> Stepped
    requires rn { rn < 16 }
    requires rd { rd < 16 }
    requires offset { HasShortOffset offset }
    ensures registers { s.new
        ≡ (carried_out B.memory arch s.old (B.state bus.old) (half_transfer_meaning arch s.old op pre up write_back rn rd offset)).registers }
    ensures state { B.state bus.new
        ≡ (carried_out B.memory arch s.old (B.state bus.old) (half_transfer_meaning arch s.old op pre up write_back rn rd offset)).state }
    ensures stepped { result
        ≡ (carried_out B.memory arch s.old (B.state bus.old) (half_transfer_meaning arch s.old op pre up write_back rn rd offset)).stepped }
    ensures same { B.identity bus.new ≡ B.identity bus.old }
{
    let to = addressed(s, pre, up, write_back, rn, short_offset_value(s, offset));
    half_transfer_at::<B, AsDecoded>(arch, s, bus, op, rn, rd, to)
}

/// Thumb's LDR of a literal, `immed` words behind r15, whose bits 1 and 0 are cleared (ARM manual, A7.1 "LDR (3)").
#[inline(always)]
pub fn literal<B: Bus>(arch: Arch, s: &mut Registers, bus: &mut B, rd: u8, immed: u8) -> Stepped
    requires { rd < 16 }
    ensures registers { s.new ≡ (carried_out B.memory arch s.old (B.state bus.old) (literal_meaning arch s.old rd immed)).registers }
    ensures state { B.state bus.new ≡ (carried_out B.memory arch s.old (B.state bus.old) (literal_meaning arch s.old rd immed)).state }
    ensures stepped { result ≡ (carried_out B.memory arch s.old (B.state bus.old) (literal_meaning arch s.old rd immed)).stepped }
    ensures same { B.identity bus.new ≡ B.identity bus.old }
{
    let to = addressed_literal(s, immed);
    load_word(arch, s, bus, 15, rd, to)
}
