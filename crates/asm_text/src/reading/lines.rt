//! The word or half whose statement a text may be.

ghost use Rattle.std.specs.Prelude.{◌≡◌, ◌<◌, ◌^◌, ℕ, IfSome, Some};
ghost use Rattle.ds_base.specs.declared.processors.Arch.{Arch};
ghost use Rattle.arm_words.specs.Fields.{HasFields};
ghost use Rattle.arm_words.specs.Spellings.{IsInRange};
ghost use Rattle.asm_text.specs.Reader.Candidates.{candidate, in_set, number_read, read_in, row_in, stems_in, HasStem};
ghost use Rattle.asm_text.specs.Listed.{listed, number_in, spelling};

use super::arm_rows::arm_row;
use super::arm_stems::ARM_STEMS;
use super::names::{Stem, name, named_stem};
use super::parts::hex_at;
use super::thumb_rows::thumb_row;
use super::thumb_stems::THUMB_STEMS;
use crate::sets::Set;
use arm_words::{Condition, Instr, Spelling, spell};

fn stems_in(set: Set) -> &'static [(u64, Stem)]
    ensures { result.now ≡ stems_in set }
{
    match set {
        Set::Arm => &ARM_STEMS,
        Set::Thumb => &THUMB_STEMS,
    }
}

fn row_in(set: Set, at: u32, template: Instr, cond: Condition, text: &[u8]) -> Instr
    ensures row { result ≡ row_in set at template cond text.now }
    ensures fields { HasFields result }
{
    match set {
        Set::Arm => arm_row(at, template, cond, text),
        Set::Thumb => thumb_row(at, template, cond, text),
    }
}

/// What a text may be the statement of: a row's instruction with its fields, or a number.
#[tactic(auto, unfolding(crate::specs::Reader::Names::read))]
fn read_in(set: Set, at: u32, text: &[u8]) -> Option<Stem>
    ensures value { result ≡ read_in set at text.now }
    ensures fields { IfSome result HasStem }
{
    let (key, rest) = name(text);
    let (stem, cond) = named_stem(stems_in(set), key);
    match stem {
        Some(Stem::Row(instr)) => Some(Stem::Row(row_in(set, at, instr, cond, rest))),
        Some(Stem::Raw(_)) => Some(Stem::Raw(hex_at(rest).0)),
        None => None,
    }
}

fn number_in(spelling: Spelling) -> u32
    ensures { result ≡ number_in spelling }
{
    match spelling {
        Spelling::Word(word) => word,
        Spelling::Half(half) => half as u32,
    }
}

fn number_read(stem: Stem) -> u32
    requires { HasStem stem }
    ensures { result ≡ number_read stem }
{
    match stem {
        Stem::Row(instr) => number_in(spell(&instr)),
        Stem::Raw(number) => number,
    }
}

fn in_set(set: Set, n: u32) -> u32
    ensures value { result ≡ in_set set n }
    ensures range { IsInRange (spelling set result) }
{
    match set {
        Set::Arm => n,
        Set::Thumb => n % 0x1_0000,
    }
}

/// The word whose statement a text may be: if it is one's, then this one's.
fn candidate(set: Set, at: u32, text: &[u8]) -> Option<u32>
    ensures value { result ≡ candidate set at text.now }
    ensures range { IfSome result (λ word. IsInRange (spelling set word)) }
{
    match read_in(set, at, text) {
        Some(stem) => Some(in_set(set, number_read(stem))),
        None => None,
    }
}

/// The one word or half whose statement at an address a text can be; where it is none's, any or none. (The reader refuses nothing: list it again, and
/// compare.)
pub fn only_candidate(set: Set, at: u32, text: &[u8]) -> Option<u32>
    ensures own { (arch : Arch) (word : ℕ) → IsInRange (spelling set word) → text.now ≡ listed arch set at word → result ≡ Some word }
    ensures range { IfSome result (λ word. IsInRange (spelling set word)) }
{
    candidate(set, at, text)
}
