//! A word or half itself, with all its digits.

ghost use Rattle.std.specs.Prelude.{◌≡◌, ◌+◌, ◌<◌, ◌≤◌, ◌^◌, length, ◌++◌};
ghost use Rattle.arm_words.specs.Spellings.{IsInRange};
ghost use Rattle.arm_words.specs.declared.spellings.Spelling.TheVariants.{Half, Word};
ghost use Rattle.asm_text.specs.Listed.{raw, spelling};

use crate::lines::Line;
use crate::sets::Set;
use arm_words::Spelling;
use ds_base::hex_digits;

fn raw_word(word: u32, into: &mut Line)
    requires { length into.old + 16 ≤ 96 }
    ensures { into.new ≡ into.old ++ raw (Word word) }
{
    into.put_text(".word 0x");
    into.put_bytes(&hex_digits(word));
}

fn raw_half(half: u16, into: &mut Line)
    requires { length into.old + 16 ≤ 96 }
    ensures { into.new ≡ into.old ++ raw (Half half) }
{
    into.put_text(".half 0x");
    into.put_bytes(&hex_digits(half as u32)[4..]);
}

/// Adds a word or half itself, as `.word` or `.half` and all its digits.
pub fn raw(spelling: Spelling, into: &mut Line)
    requires { length into.old + 16 ≤ 96 }
    ensures { into.new ≡ into.old ++ raw spelling }
{
    match spelling {
        Spelling::Word(word) => raw_word(word, into),
        Spelling::Half(half) => raw_half(half, into),
    }
}

/// A number as a word or half of a set.
pub fn spelling(set: Set, word: u32) -> Spelling
    requires { IsInRange (spelling set word) }
    ensures { result ≡ spelling set word }
{
    match set {
        Set::Arm => Spelling::Word(word),
        Set::Thumb => Spelling::Half(word as u16),
    }
}
