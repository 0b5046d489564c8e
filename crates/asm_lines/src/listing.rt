//! One line for a word or half.

ghost use Rattle.std.specs.Prelude.{◌≡◌};
ghost use Rattle.arm_words.specs.Spellings.{IsInRange};
ghost use Rattle.asm_text.specs.Listed.{listed, spelling};

use arm_words::canonical;
use asm_text::{Line, Set, raw, spelling, statement};
use ds_base::Arch;

/// Makes `into` the statement of a word (ARM) or half (Thumb, below 65,536) at address `at`, whatever it was before: its
/// instruction's text where it is canonical, otherwise `.word` or `.half` and all its digits. Mnemonics, registers and operands are
/// the ARM manual's in lower case, numbers and targets are hexadecimal without leading zeros (our choice; `specs/Statements.antt`
/// has each statement).
pub fn list_word(arch: Arch, set: Set, at: u32, word: u32, into: &mut Line)
    requires { IsInRange (spelling set word) }
    ensures { into.new ≡ listed arch set at word }
{
    into.clear();
    let spelling = spelling(set, word);
    match canonical(arch, spelling) {
        Some(instr) => statement(at, &instr, into),
        None => raw(spelling, into),
    }
}
