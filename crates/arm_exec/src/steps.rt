//! A processor's step.

ghost use Rattle.std.specs.Prelude.{◌≡◌, ◌<◌, ◌/◌, ◌%◌, ◌^◌, [], None, if◌then◌else◌, IfSome};
ghost use Rattle.arm_words.specs.ArmTable.{decoded_arm};
ghost use Rattle.arm_words.specs.Fields.{HasFields};
ghost use Rattle.arm_words.specs.Parts.{condition_of};
ghost use Rattle.arm_words.specs.ThumbTable.{decoded_thumb};
ghost use Rattle.arm_core.specs.Conditions.{holds};
ghost use Rattle.arm_core.specs.Effects.{cost_of};
ghost use Rattle.arm_core.specs.Exceptions.{undefined_meaning};
ghost use Rattle.arm_core.specs.Meanings.{skipped};
ghost use Rattle.arm_core.specs.Steps.{enters, executed, executed_word, fetched, fetched_half, fetched_word, step_of, swi_stop, unserved};

use crate::acts::{act, skip};
use crate::exceptions::{interrupt, undefined};
use arm_core::{Bus, Registers, Stepped, condition, equivalent, holds};
use arm_words::{Condition, Instr, condition_of, decode_arm, decode_thumb};
use ds_base::{Arch, LeftKind, Stop, Width};

/// The stop that a call of the boot ROM's function of a number needs, where it has none (GBATEK, "BIOS Functions"; our choice of those
/// that there are).
#[inline(always)]
fn unserved(number: u32) -> Option<Stop>
    ensures { result ≡ unserved number }
{
    match number {
        0x03 | 0x04 | 0x05 | 0x06 | 0x09 | 0x0B => None,
        _ => Some(Stop {
            kind: LeftKind::Swi,
            value: number,
        }),
    }
}

/// The stop that a SWI into the boot ROM needs, if it does.
#[inline(always)]
fn swi_stop(instr: &Instr) -> Option<Stop>
    ensures { result ≡ swi_stop instr.now }
{
    match *instr {
        Instr::Swi { immed, .. } => unserved(immed >> 16),
        Instr::ThumbSwi { immed } => unserved(immed as u32),
        _ => None,
    }
}

/// The stop that an instruction needs before it makes an access, if it does.
#[inline(always)]
fn stop_before(in_rom: bool, instr: &Instr) -> Option<Stop>
    ensures { result ≡ (if in_rom then swi_stop instr.now else None) }
{
    if in_rom { swi_stop(instr) } else { None }
}

/// Executes an instruction: with the base of the vectors, and whether SWI's lies in the boot ROM.
#[inline]
pub fn execute<B: Bus>(
    arch: Arch,
    base: u32,
    in_rom: bool,
    s: &mut Registers,
    bus: &mut B,
    instr: &Instr,
) -> Stepped
    requires { HasFields instr.now }
    ensures registers { s.new
        ≡ (executed B.memory (record { arch = arch; base = base; in_rom = in_rom }) s.old (B.state bus.old) instr.now).registers }
    ensures state { B.state bus.new
        ≡ (executed B.memory (record { arch = arch; base = base; in_rom = in_rom }) s.old (B.state bus.old) instr.now).state }
    ensures stepped { result ≡ (executed B.memory (record { arch = arch; base = base; in_rom = in_rom }) s.old (B.state bus.old) instr.now).stepped }
    ensures same { B.identity bus.new ≡ B.identity bus.old }
{
    if !holds(condition(instr), s.cpsr()) {
        return Stepped::Cost(skip(arch, s));
    }
    if let Some(stop) = stop_before(in_rom, instr) {
        return Stepped::Left(stop);
    }
    act(arch, base, s, bus, &equivalent(instr))
}

/// A word or half that has no instruction is undefined, where its condition holds; the result is its cost.
#[inline]
fn undefined_word(arch: Arch, base: u32, s: &mut Registers, cond: Condition) -> u32
    ensures registers { s.new ≡ (if holds cond s.old.cpsr then undefined_meaning base s.old else skipped s.old).after [] }
    ensures cost { result ≡ cost_of arch (if holds cond s.old.cpsr then undefined_meaning base s.old else skipped s.old) }
{
    if holds(cond, s.cpsr()) {
        undefined(arch, s, base)
    } else {
        skip(arch, s)
    }
}

/// Executes the instruction of a word or half that was fetched, if it has one; `number` is that of its condition.
#[inline]
pub fn execute_word<B: Bus>(
    arch: Arch,
    base: u32,
    in_rom: bool,
    s: &mut Registers,
    bus: &mut B,
    number: u32,
    instr: Option<Instr>,
) -> Stepped
    requires number { number < 16 }
    requires fields { IfSome instr HasFields }
    ensures registers { s.new
        ≡ (executed_word B.memory (record { arch = arch; base = base; in_rom = in_rom }) s.old (B.state bus.old) number instr).registers }
    ensures state { B.state bus.new
        ≡ (executed_word B.memory (record { arch = arch; base = base; in_rom = in_rom }) s.old (B.state bus.old) number instr).state }
    ensures stepped { result
        ≡ (executed_word B.memory (record { arch = arch; base = base; in_rom = in_rom }) s.old (B.state bus.old) number instr).stepped }
    ensures same { B.identity bus.new ≡ B.identity bus.old }
{
    match instr {
        Some(instr) => execute(arch, base, in_rom, s, bus, &instr),
        None => Stepped::Cost(undefined_word(arch, base, s, condition_of(number))),
    }
}

/// What was fetched at r15.
#[derive(Clone, Copy)]
pub struct Fetched {
    /// The number of the condition under which it takes effect, below 16.
    pub number: u32,
    /// Its instruction, if it has one.
    pub instr: Option<Instr>,
}

/// A word of ARM code, decoded: it takes effect under the condition of its upper four bits.
#[inline(always)]
pub fn decoded_word(arch: Arch, word: u32) -> Fetched
    ensures number { result.number ≡ word / 2 ^ 28 }
    ensures instr { result.instr ≡ decoded_arm arch word }
    ensures low { result.number < 16 }
    ensures fields { IfSome result.instr HasFields }
{
    Fetched {
        number: word >> 28,
        instr: decode_arm(arch, word),
    }
}

/// A half of Thumb code, decoded: it always takes effect.
#[inline(always)]
pub fn decoded_half(arch: Arch, half: u32) -> Fetched
    ensures number { result.number ≡ 14 }
    ensures instr { result.instr ≡ decoded_thumb arch (half % 2 ^ 16) }
    ensures low { result.number < 16 }
    ensures fields { IfSome result.instr HasFields }
{
    Fetched {
        number: 14,
        instr: decode_thumb(arch, (half % 0x1_0000) as u16),
    }
}

/// Fetches a word at r15.
#[inline(always)]
fn fetch_word<B: Bus>(arch: Arch, s: &Registers, bus: &mut B) -> Fetched
    ensures number { result.number ≡ (fetched_word B.memory arch s.now (B.state bus.old)).number }
    ensures instr { result.instr ≡ (fetched_word B.memory arch s.now (B.state bus.old)).instr }
    ensures state { B.state bus.new ≡ (fetched_word B.memory arch s.now (B.state bus.old)).state }
    ensures low { result.number < 16 }
    ensures fields { IfSome result.instr HasFields }
    ensures same { B.identity bus.new ≡ B.identity bus.old }
{
    decoded_word(arch, bus.fetch(s.pc(), Width::Word))
}

/// Fetches a half at r15.
#[inline(always)]
fn fetch_half<B: Bus>(arch: Arch, s: &Registers, bus: &mut B) -> Fetched
    ensures number { result.number ≡ (fetched_half B.memory arch s.now (B.state bus.old)).number }
    ensures instr { result.instr ≡ (fetched_half B.memory arch s.now (B.state bus.old)).instr }
    ensures state { B.state bus.new ≡ (fetched_half B.memory arch s.now (B.state bus.old)).state }
    ensures low { result.number < 16 }
    ensures fields { IfSome result.instr HasFields }
    ensures same { B.identity bus.new ≡ B.identity bus.old }
{
    decoded_half(arch, bus.fetch(s.pc(), Width::Half))
}

/// Fetches at r15: a word of ARM code, or in Thumb state a half of Thumb code.
#[inline(always)]
pub fn fetch<B: Bus>(arch: Arch, s: &Registers, bus: &mut B) -> Fetched
    ensures number { result.number ≡ (fetched B.memory arch s.now (B.state bus.old)).number }
    ensures instr { result.instr ≡ (fetched B.memory arch s.now (B.state bus.old)).instr }
    ensures state { B.state bus.new ≡ (fetched B.memory arch s.now (B.state bus.old)).state }
    ensures low { result.number < 16 }
    ensures fields { IfSome result.instr HasFields }
    ensures same { B.identity bus.new ≡ B.identity bus.old }
{
    if s.is_thumb() {
        fetch_half(arch, s, bus)
    } else {
        fetch_word(arch, s, bus)
    }
}

/// Whether the interrupt is entered: the line is up, and I is clear (ARM manual, A2.6 "Exceptions").
#[inline(always)]
pub fn enters(s: &Registers, line: bool) -> bool
    ensures { result ≡ enters line s.now }
{
    line && (s.cpsr() >> 7) & 1 == 0
}

/// A processor's step: the interrupt's entry where the line is up and I is clear, and otherwise the instruction at r15, of ARM code or in
/// Thumb state of Thumb code. `base` is that of the vectors, and `in_rom` whether SWI's lies in the boot ROM. (ARM manual, A2.6
/// "Exceptions".)
#[inline]
pub fn step<B: Bus>(
    arch: Arch,
    base: u32,
    in_rom: bool,
    s: &mut Registers,
    bus: &mut B,
    line: bool,
) -> Stepped
    ensures registers { s.new ≡ (step_of B.memory (record { arch = arch; base = base; in_rom = in_rom }) line s.old (B.state bus.old)).registers }
    ensures state { B.state bus.new ≡ (step_of B.memory (record { arch = arch; base = base; in_rom = in_rom }) line s.old (B.state bus.old)).state }
    ensures stepped { result ≡ (step_of B.memory (record { arch = arch; base = base; in_rom = in_rom }) line s.old (B.state bus.old)).stepped }
    ensures same { B.identity bus.new ≡ B.identity bus.old }
{
    if enters(s, line) {
        return Stepped::Cost(interrupt(arch, s, base));
    }
    let fetched = fetch(arch, s, bus);
    execute_word(arch, base, in_rom, s, bus, fetched.number, fetched.instr)
}
