//! Which words and halves are canonical: those that are the spelling of what they stand for.

ghost use Rattle.ds_base.specs.declared.processors.Arch.{Arch};
ghost use Rattle.std.specs.Prelude.{◌≡◌, ◌<◌, ◌^◌, ◌↔◌, IfSome, IsSome};
ghost use Rattle.arm_words.specs.Canonical.{canonical, canonical_form, least_operand, least_rotation, same_spelling, IsCanonical};
ghost use Rattle.arm_words.specs.Fields.{HasFields, HasOperand};
ghost use Rattle.arm_words.specs.Spellings.{decoded, IsInRange, IsInstruction};

use crate::arm::decode_arm;
use crate::instructions::Instr;
use crate::parts::Operand;
use crate::spellings::{Spelling, encode};
use crate::thumb::decode_thumb;
use ds_base::Arch;

fn is_least(rotate: u8, immed: u8) -> bool
    requires { rotate < 16 }
    ensures { result ≡ least_rotation rotate immed }
{
    let room = match rotate {
        0..=12 => 0,
        13 => 4,
        14 => 16,
        _ => 64,
    };
    rotate == 0 || immed % 4 != 0 && immed >= room
}

fn is_least_operand(operand: Operand) -> bool
    requires { HasOperand operand }
    ensures { result ≡ least_operand operand }
{
    match operand {
        Operand::Immediate { rotate, immed } => is_least(rotate, immed),
        Operand::Shifted { .. } => true,
        Operand::ShiftedByRegister { .. } => true,
    }
}

fn has_form(instr: &Instr) -> bool
    requires { HasFields instr.now }
    ensures { result ≡ canonical_form instr.now }
{
    match *instr {
        Instr::HalfTransfer {
            pre,
            write_back,
            ..
        } => pre || !write_back,
        Instr::DoubleTransfer {
            pre,
            write_back,
            ..
        } => pre || !write_back,
        Instr::MsrImmediate { rotate, immed, .. } => is_least(rotate, immed),
        Instr::Compare { operand, .. } => is_least_operand(operand),
        Instr::Move { operand, .. } => is_least_operand(operand),
        Instr::Data { operand, .. } => is_least_operand(operand),
        Instr::Never { .. } => false,
        _ => true,
    }
}

fn is_same(a: Spelling, b: Spelling) -> bool
    ensures { result ≡ same_spelling a b }
{
    match (a, b) {
        (Spelling::Word(w), Spelling::Word(v)) => w == v,
        (Spelling::Half(h), Spelling::Half(g)) => h == g,
        (Spelling::Word(_), Spelling::Half(_)) => false,
        (Spelling::Half(_), Spelling::Word(_)) => false,
    }
}

/// What a word or half stands for on an architecture, as `decode_arm` and `decode_thumb` have it.
pub fn decode(arch: Arch, spelling: Spelling) -> Option<Instr>
    ensures row { result ≡ decoded arch spelling }
    ensures fields { IfSome result (λ i. HasFields i) }
    ensures instruction { IfSome result (λ i. IsInstruction i) }
{
    match spelling {
        Spelling::Word(word) => decode_arm(arch, word),
        Spelling::Half(half) => decode_thumb(arch, half),
    }
}

fn keep(arch: Arch, spelling: Spelling) -> Option<Instr>
    ensures test { result ≡ canonical arch spelling }
    ensures fields { IfSome (decoded arch spelling) (λ i. HasFields i) }
    ensures instruction { IfSome (decoded arch spelling) (λ i. IsInstruction i) }
{
    let instr = decode(arch, spelling)?;
    if has_form(&instr) && is_same(encode(&instr), spelling) {
        Some(instr)
    } else {
        None
    }
}

/// What a canonical word or half stands for, and None exactly for any other. A canonical one is the spelling of its instruction: of
/// the bits that decoding doesn't look at those that the ARM manual says should be one are 1, the others 0. Immediates of data
/// processing and of MSR have the least rotation; transfers of a half, a signed byte or two words that are post-indexed have no
/// bit 21; and ARMv4's words that do nothing are never canonical. (Our choice, by what assemblers write.)
pub fn canonical(arch: Arch, spelling: Spelling) -> Option<Instr>
    ensures test { result ≡ canonical arch spelling }
    ensures exactly { IsSome result ↔ IsCanonical arch spelling }
    ensures fields { IfSome result (λ i. HasFields i) }
    ensures instruction { IfSome result (λ i. IsInstruction i) }
{
    keep(arch, spelling)
}
