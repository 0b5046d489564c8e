//! Words of which each is one of a few.

ghost use Rattle.std.specs.Prelude.{◌≡◌, ◌≢◌, IfSome, IfNone};
ghost use Rattle.nds_words.specs.Words.{keep_word, image_word, proc_word, memory_word};

use crate::commands::Keep;
use asm_text::Set;
use ds_base::{Memory, Proc};

/// What is kept, by its word.
pub(crate) fn keep_of(word: &str) -> Option<Keep>
    ensures some { IfSome result (λ keep. word.now ≡ keep_word keep) }
    ensures none { IfNone result ((keep : Keep) → word.now ≢ keep_word keep) }
{
    if word == "all" {
        Some(Keep::All)
    } else if word == "last" {
        Some(Keep::Last)
    } else if word == "none" {
        Some(Keep::Nothing)
    } else {
        None
    }
}

/// An image and how it is listed, by its word.
pub(crate) fn image_of_word(word: &str) -> Option<(Proc, Set)>
    ensures some { IfSome result (λ i. word.now ≡ image_word i.0 i.1) }
    ensures none { IfNone result ((proc : Proc) → (set : Set) → word.now ≢ image_word proc set) }
{
    if word == "9" {
        Some((Proc::Nine, Set::Arm))
    } else if word == "7" {
        Some((Proc::Seven, Set::Arm))
    } else if word == "9t" {
        Some((Proc::Nine, Set::Thumb))
    } else if word == "7t" {
        Some((Proc::Seven, Set::Thumb))
    } else {
        None
    }
}

/// A processor, by its word.
pub(crate) fn proc_of(word: &str) -> Option<Proc>
    ensures some { IfSome result (λ proc. word.now ≡ proc_word proc) }
    ensures none { IfNone result ((proc : Proc) → word.now ≢ proc_word proc) }
{
    if word == "9" {
        Some(Proc::Nine)
    } else if word == "7" {
        Some(Proc::Seven)
    } else {
        None
    }
}

/// A memory, by its word.
pub(crate) fn memory_of(word: &str) -> Option<Memory>
    ensures some { IfSome result (λ memory. word.now ≡ memory_word memory) }
    ensures none { IfNone result ((memory : Memory) → word.now ≢ memory_word memory) }
{
    match word {
        "main" => Some(Memory::Main),
        "wram" => Some(Memory::Shared),
        "wram7" => Some(Memory::Own7),
        "itcm" => Some(Memory::Itcm),
        "dtcm" => Some(Memory::Dtcm),
        "palette" => Some(Memory::Palette),
        "vram" => Some(Memory::Vram),
        "oam" => Some(Memory::Oam),
        _ => None,
    }
}
