//! Statements written by hand from the ARM manual's encodings: for each row of both tables one, and the edges of what is canonical,
//! listed and read back; and texts that are near a statement and none.

mod arm;
mod refused;
mod thumb;

use arm_words::Spelling;
use asm_lines::{list_word, read_line};
use asm_text::{Line, Set};
use ds_base::Arch;
use std::process::Abort;

const AT: u32 = 0x200_0000;

fn lists_words(rt: &impl Abort, arch: Arch, at: u32, rows: &[(u32, &str)]) {
    let mut line = Line::new();
    for (word, text) in rows {
        list_word(arch, Set::Arm, at, *word, &mut line);
        assert!(rt; line.bytes() == text.as_bytes(), "at {word:#X}");
        let read = read_line(arch, Set::Arm, at, text);
        assert!(rt; read == Ok(Spelling::Word(*word)), "read at {word:#X}");
    }
}

fn lists_halves(rt: &impl Abort, arch: Arch, at: u32, rows: &[(u16, &str)]) {
    let mut line = Line::new();
    for (half, text) in rows {
        list_word(arch, Set::Thumb, at, *half as u32, &mut line);
        assert!(rt; line.bytes() == text.as_bytes(), "at {half:#X}");
        let read = read_line(arch, Set::Thumb, at, text);
        assert!(rt; read == Ok(Spelling::Half(*half)), "read at {half:#X}");
    }
}
