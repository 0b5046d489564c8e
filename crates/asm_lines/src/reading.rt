//! The word or half whose statement a text is.

ghost use Rattle.std.specs.Prelude.{◌≡◌, ◌≢◌, ◌<◌, ◌^◌, ℕ, IfOk, Ok, OnErr};
ghost use Rattle.arm_words.specs.Spellings.{IsInRange};
ghost use Rattle.asm_text.specs.Listed.{listed, number_in, spelling};

use crate::listing::list_word;
use arm_words::Spelling;
use asm_text::{Line, Set, only_candidate, same, spelling};
use ds_base::Arch;

/// A text is no word's or half's statement.
#[derive(Clone, Copy, PartialEq, Eq, Debug)]
pub struct NotText;

/// Reads the statement of a word (ARM) or half (Thumb) at address `at`: it is the one whose statement, as `list_word` writes it, is
/// the text, to the byte. Each word or half has one statement at an address, and no other text is read as it. `NotText` exactly
/// where the text is none's statement there.
pub fn read_bytes(arch: Arch, set: Set, at: u32, text: &[u8]) -> Result<Spelling, NotText>
    ensures found { IfOk result (λ s. IsInRange s × (s ≡ spelling set (number_in s)) × (text.now ≡ listed arch set at (number_in s))) }
    ensures own { (word : ℕ) → IsInRange (spelling set word) → text.now ≡ listed arch set at word → result ≡ Ok (spelling set word) }
    ensures none { OnErr result ((word : ℕ) → IsInRange (spelling set word) → text.now ≢ listed arch set at word) }
{
    let Some(word) = only_candidate(set, at, text) else {
        return Err(NotText);
    };
    let mut line = Line::new();
    list_word(arch, set, at, word, &mut line);
    if same(line.bytes(), text) {
        Ok(spelling(set, word))
    } else {
        Err(NotText)
    }
}

/// The same for a text that is known to be text.
pub fn read_line(arch: Arch, set: Set, at: u32, text: &str) -> Result<Spelling, NotText>
    ensures found { IfOk result (λ s. IsInRange s × (s ≡ spelling set (number_in s)) × (text.now ≡ listed arch set at (number_in s))) }
    ensures own { (word : ℕ) → IsInRange (spelling set word) → text.now ≡ listed arch set at word → result ≡ Ok (spelling set word) }
    ensures none { OnErr result ((word : ℕ) → IsInRange (spelling set word) → text.now ≢ listed arch set at word) }
{
    read_bytes(arch, set, at, text.as_bytes())
}
