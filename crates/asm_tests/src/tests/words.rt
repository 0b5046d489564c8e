//! What no clause says: that the tables are those of the manual, at words worked out by hand. A row is an instruction and its word:
//! the instruction is spelled as the word, and the word is read as an instruction that is spelled so.

ghost use Rattle.arm_words.specs.Fields.{HasFields};

use arm_words::{Instr, Spelling, decode_arm, decode_thumb, spell};
use ds_base::Arch;
use std::process::Abort;

mod canonicals;
mod data;
mod halves;
mod multiplies;
mod parts;
mod rows;
mod transfers;

/// A word is read as an instruction.
fn reads(rt: &impl Abort, arch: Arch, word: u32, instr: &Instr)
    requires { HasFields instr.now }
{
    match decode_arm(arch, word) {
        Some(read) => assert!(rt; spell(&read) == spell(instr), "read at {word:#X}"),
        None => assert!(rt; false, "no row at {word:#X}"),
    }
}

/// A word is an instruction's, both ways.
fn word(rt: &impl Abort, arch: Arch, word: u32, instr: &Instr)
    requires { HasFields instr.now }
{
    assert!(rt;
        spell(instr) == Spelling::Word(word),
        "spelled at {word:#X}"
    );
    reads(rt, arch, word, instr);
}

/// A half is an instruction's, both ways.
fn half(rt: &impl Abort, arch: Arch, half: u16, instr: &Instr)
    requires { HasFields instr.now }
{
    assert!(rt;
        spell(instr) == Spelling::Half(half),
        "spelled at {half:#X}"
    );
    match decode_thumb(arch, half) {
        Some(read) => assert!(rt; spell(&read) == Spelling::Half(half), "read at {half:#X}"),
        None => assert!(rt; false, "no row at {half:#X}"),
    }
}
