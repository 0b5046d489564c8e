//! The bytes that an instruction's accesses of data reach.

ghost use Rattle.std.specs.Prelude.{◌≡◌, ◌<◌, ◌≤◌, ◌*◌, ℕ, Bool, not, if◌then◌else◌};
ghost use Rattle.ds_base.specs.declared.processors.Arch.{Arch};
ghost use Rattle.ds_base.specs.Numbers.{aligned_down, width_bytes};
ghost use Rattle.ds_base.specs.declared.memories.Width.TheVariants.{Byte, Word};
ghost use Rattle.arm_words.specs.Fields.{HasFields};
ghost use Rattle.arm_core.specs.Doubles.{double_at};
ghost use Rattle.arm_core.specs.FootprintLaws.{AreAsTold, AreOfData, Covers, GoesOver, HasBytes, TellsNothing, accessed_bytes, first_without, touched_bytes};
ghost use Rattle.arm_core.specs.Footprints.{span};
ghost use Rattle.arm_core.specs.Meanings.{act, meaning};
ghost use Rattle.arm_core.specs.Multiples.{multiple_meaning};
ghost use Rattle.arm_core.specs.Registers.{RegisterState};
ghost use Rattle.arm_core.specs.Swaps.{swap_meaning};
ghost use Rattle.arm_core.specs.Transfers.{half_or_signed_meaning, word_or_byte_meaning};

use crate::addresses::Addressed;
use crate::addressing::{addressed, addressed_literal, offset_value, short_offset_value};
use crate::conditions::{condition, holds};
use crate::cores::Core;
use crate::lists::{list_bytes, lowest, transferred};
use crate::registers::Registers;
use crate::thumb::equivalent;
use arm_words::{HalfOp, Instr};
use ds_base::{Arch, Width};

/// The addresses of the bytes that an instruction reads or writes as data.
#[derive(Clone, Copy, PartialEq, Eq)]
pub enum Touch {
    /// None.
    Nothing,
    /// `first` + i, modulo 2^32, for each i below `length`.
    Span {
        /// The first byte's address.
        first: u32,
        /// How many bytes there are, of which there is one at least.
        length: u32,
    },
}

/// What an instruction reaches as data.
#[derive(Clone, Copy, PartialEq, Eq)]
pub struct Reach {
    /// The bytes.
    pub touch: Touch,
    /// Whether they are read.
    pub reads: bool,
    /// Whether they are written; both, where one place is read and then written.
    pub writes: bool,
}

const NOTHING: Reach = Reach {
    touch: Touch::Nothing,
    reads: false,
    writes: false,
};

/// The bytes of an access, which is aligned (ARM manual, A2.8 "Unaligned access support").
#[inline(always)]
pub fn access_touch(at: u32, width: Width) -> Touch
    ensures bytes { touched_bytes result ≡ span (aligned_down width at) (width_bytes width) }
    ensures some { HasBytes result }
{
    let length = width.bytes();
    Touch::Span {
        first: at - at % length,
        length,
    }
}

/// The width of a transfer, by B (ARM manual, A5.2 "Addressing Mode 2").
#[inline(always)]
pub fn width_by(byte: bool) -> Width
    ensures { result ≡ (if byte then Byte else Word) }
{
    if byte { Width::Byte } else { Width::Word }
}

/// The bytes of STRH, LDRH, LDRSB or LDRSH: on ARMv4 LDRSH at an odd address reads a byte (our choice).
#[inline(always)]
pub fn half_touch(arch: Arch, op: HalfOp, to: Addressed) -> Touch
    ensures over { (s : RegisterState) → (rn : ℕ) → (rd : ℕ) → GoesOver result (half_or_signed_meaning arch s op rn rd to).accesses }
    ensures bytes { (s : RegisterState) → (rn : ℕ) → (rd : ℕ) → touched_bytes result
        ≡ accessed_bytes (half_or_signed_meaning arch s op rn rd to).accesses }
    ensures some { HasBytes result }
{
    let width = match op {
        HalfOp::Strh | HalfOp::Ldrh => Width::Half,
        HalfOp::Ldrsb => Width::Byte,
        HalfOp::Ldrsh => match arch {
            Arch::V4 if to.address % 2 == 1 => Width::Byte,
            _ => Width::Half,
        },
    };
    access_touch(to.address, width)
}

/// The bytes of so many words from an address up, which is aligned.
#[inline(always)]
fn words_touch(at: u32, count: u32) -> Touch
    requires { count ≤ 16 }
    ensures bytes { touched_bytes result ≡ span (aligned_down Word at) (4 * count) }
    ensures some { HasBytes result }
{
    if count == 0 {
        return Touch::Nothing;
    }
    Touch::Span {
        first: at - at % 4,
        length: 4 * count,
    }
}

/// Bytes that are read, or else written.
#[inline(always)]
fn by_kind(touch: Touch, reads: bool) -> Reach
    ensures { result ≡ record { touch = touch; reads = reads; writes = not reads } }
{
    Reach {
        touch,
        reads,
        writes: !reads,
    }
}

/// What LDR, LDRB, STR or STRB reaches.
#[inline(always)]
#[tactic(auto, using(crate::proofs::Data::word_or_byte_told, crate::proofs::Data::word_or_byte_data))]
fn word_or_byte_reach(to: Addressed, load: bool, byte: bool) -> Reach
    ensures over { (arch : Arch) → (s : RegisterState) → (rn : ℕ) → (rd : ℕ)
        → GoesOver result.touch (word_or_byte_meaning arch s load byte rn rd to).accesses }
    ensures some { HasBytes result.touch }
    ensures told { (arch : Arch) → (s : RegisterState) → (rn : ℕ) → (rd : ℕ)
        → AreAsTold result.reads result.writes (word_or_byte_meaning arch s load byte rn rd to).accesses }
    ensures words { (arch : Arch) → (s : RegisterState) → (rn : ℕ) → (rd : ℕ) → AreOfData (word_or_byte_meaning arch s load byte rn rd to).accesses }
{
    by_kind(access_touch(to.address, width_by(byte)), load)
}

/// What STRH, LDRH, LDRSB or LDRSH reaches.
#[inline(always)]
#[tactic(auto, using(crate::proofs::Data::half_told, crate::proofs::Data::half_data))]
fn half_reach(arch: Arch, op: HalfOp, to: Addressed) -> Reach
    ensures over { (s : RegisterState) → (rn : ℕ) → (rd : ℕ) → GoesOver result.touch (half_or_signed_meaning arch s op rn rd to).accesses }
    ensures some { HasBytes result.touch }
    ensures told { (s : RegisterState) → (rn : ℕ) → (rd : ℕ)
        → AreAsTold result.reads result.writes (half_or_signed_meaning arch s op rn rd to).accesses }
    ensures words { (s : RegisterState) → (rn : ℕ) → (rd : ℕ) → AreOfData (half_or_signed_meaning arch s op rn rd to).accesses }
{
    by_kind(half_touch(arch, op, to), !matches!(op, HalfOp::Strh))
}

/// What LDRD or STRD reaches.
#[inline(always)]
#[tactic(auto, using(crate::proofs::Footprints::double_over, crate::proofs::Data::double_told, crate::proofs::Data::double_data))]
fn double_reach(to: Addressed, store: bool) -> Reach
    ensures over { (s : RegisterState) → (rn : ℕ) → (rd : ℕ) → GoesOver result.touch (double_at s store rn rd to).accesses }
    ensures some { HasBytes result.touch }
    ensures told { (s : RegisterState) → (rn : ℕ) → (rd : ℕ) → AreAsTold result.reads result.writes (double_at s store rn rd to).accesses }
    ensures words { (s : RegisterState) → (rn : ℕ) → (rd : ℕ) → AreOfData (double_at s store rn rd to).accesses }
{
    by_kind(words_touch(to.address, 2), !store)
}

/// What LDM or STM reaches: a word for each register that is transferred, from the lowest address up.
#[inline(always)]
fn list_reach(
    arch: Arch,
    s: &Registers,
    pre: bool,
    up: bool,
    load: bool,
    rn: u8,
    list: u16,
) -> Reach
    requires { rn < 16 }
    ensures over { (user : Bool) → (write_back : Bool)
        → GoesOver result.touch (multiple_meaning arch s.now pre up user write_back load rn list).accesses }
    ensures some { HasBytes result.touch }
    ensures told { (user : Bool) → (write_back : Bool)
        → AreAsTold result.reads result.writes (multiple_meaning arch s.now pre up user write_back load rn list).accesses }
    ensures words { (user : Bool) → (write_back : Bool) → AreOfData (multiple_meaning arch s.now pre up user write_back load rn list).accesses }
{
    let at = lowest(pre, up, s.get(rn), list_bytes(list));
    by_kind(words_touch(at, transferred(arch, list).count_ones()), load)
}

/// What SWP or SWPB reaches.
#[inline(always)]
#[tactic(auto, using(crate::proofs::Data::swap_told, crate::proofs::Data::swap_data))]
fn swap_reach(s: &Registers, byte: bool, rn: u8) -> Reach
    requires { rn < 16 }
    ensures over { (rd : ℕ) → (rm : ℕ) → GoesOver result.touch (swap_meaning s.now byte rd rm rn).accesses }
    ensures some { HasBytes result.touch }
    ensures told { (rd : ℕ) → (rm : ℕ) → AreAsTold result.reads result.writes (swap_meaning s.now byte rd rm rn).accesses }
    ensures words { (rd : ℕ) → (rm : ℕ) → AreOfData (swap_meaning s.now byte rd rm rn).accesses }
{
    Reach {
        touch: access_touch(s.get(rn), width_by(byte)),
        reads: true,
        writes: true,
    }
}

/// What an instruction reaches whose condition holds. Only loads, stores and swaps reach any bytes.
#[inline]
fn act_reach(arch: Arch, s: &Registers, instr: &Instr) -> Reach
    requires { HasFields instr.now }
    ensures over { (base : ℕ) → GoesOver result.touch (act arch base s.now instr.now).accesses }
    ensures some { HasBytes result.touch }
    ensures told { (base : ℕ) → AreAsTold result.reads result.writes (act arch base s.now instr.now).accesses }
    ensures words { (base : ℕ) → AreOfData (act arch base s.now instr.now).accesses }
{
    match *instr {
        Instr::Transfer {
            pre,
            up,
            byte,
            write_back,
            load,
            rn,
            offset,
            ..
        } => {
            let to = addressed(s, pre, up, write_back, rn, offset_value(s, offset));
            word_or_byte_reach(to, load, byte)
        }
        Instr::HalfTransfer {
            op,
            pre,
            up,
            write_back,
            rn,
            offset,
            ..
        } => {
            let to = addressed(s, pre, up, write_back, rn, short_offset_value(s, offset));
            half_reach(arch, op, to)
        }
        Instr::DoubleTransfer {
            store,
            pre,
            up,
            write_back,
            rn,
            offset,
            ..
        } => {
            let to = addressed(s, pre, up, write_back, rn, short_offset_value(s, offset));
            double_reach(to, store)
        }
        Instr::Multiple {
            pre,
            up,
            load,
            rn,
            list,
            ..
        } => list_reach(arch, s, pre, up, load, rn, list),
        Instr::Swap { byte, rn, .. } => swap_reach(s, byte, rn),
        Instr::ThumbLoadLiteral { immed, .. } => {
            word_or_byte_reach(addressed_literal(s, immed), true, false)
        }
        _ => NOTHING,
    }
}

/// What an instruction reaches, one byte after another as its accesses go over them.
#[inline]
fn touched(arch: Arch, s: &Registers, instr: &Instr) -> Reach
    requires { HasFields instr.now }
    ensures over { (base : ℕ) → GoesOver result.touch (meaning arch base s.now instr.now).accesses }
    ensures some { HasBytes result.touch }
    ensures told { (base : ℕ) → AreAsTold result.reads result.writes (meaning arch base s.now instr.now).accesses }
    ensures words { (base : ℕ) → AreOfData (meaning arch base s.now instr.now).accesses }
{
    if holds(condition(instr), s.cpsr()) {
        act_reach(arch, s, &equivalent(instr))
    } else {
        NOTHING
    }
}

/// What an instruction's accesses of data reach, told before it is executed: the bytes, exactly those, and in the order in which they are
/// first reached, and whether they are read, written, or both. The touch is `Nothing` exactly where there is no access of data, as where
/// the instruction's condition fails. All addresses are words, and nothing is fetched.
#[inline]
pub fn reach_of(core: &Core, instr: &Instr) -> Reach
    requires fields { HasFields instr.now }
    ensures covers { (base : ℕ) → Covers result.touch (meaning core.now.arch base core.now.registers instr.now).accesses }
    ensures order { (base : ℕ) → (is_there : ℕ → Bool) → first_without is_there (touched_bytes result.touch)
        ≡ first_without is_there (accessed_bytes (meaning core.now.arch base core.now.registers instr.now).accesses) }
    ensures nothing { (base : ℕ) → TellsNothing result.touch (meaning core.now.arch base core.now.registers instr.now).accesses }
    ensures told { (base : ℕ) → AreAsTold result.reads result.writes (meaning core.now.arch base core.now.registers instr.now).accesses }
    ensures words { (base : ℕ) → AreOfData (meaning core.now.arch base core.now.registers instr.now).accesses }
{
    touched(core.arch, &core.registers, instr)
}

/// The bytes that an instruction's accesses of data reach, told before it is executed: exactly those, in the order in which they are first
/// reached, and `Nothing` exactly where there is no access of data, as where the instruction's condition fails.
#[inline]
pub fn footprint(core: &Core, instr: &Instr) -> Touch
    requires fields { HasFields instr.now }
    ensures covers { (base : ℕ) → Covers result (meaning core.now.arch base core.now.registers instr.now).accesses }
    ensures order { (base : ℕ) → (is_there : ℕ → Bool) → first_without is_there (touched_bytes result)
        ≡ first_without is_there (accessed_bytes (meaning core.now.arch base core.now.registers instr.now).accesses) }
    ensures nothing { (base : ℕ) → TellsNothing result (meaning core.now.arch base core.now.registers instr.now).accesses }
{
    reach_of(core, instr).touch
}
