//! Words and halves as statements of assembly: one line of text for each word or half at an address, which is its instruction's
//! statement where it is canonical, and the number itself otherwise. `specs/` has the text of each statement. `asm_lines` writes and reads it whole.
//!
//! Proved: `only_candidate` gives the word whose statement a text is, where it is one's (clause `own`). `statement_laws`: no two words have
//! one statement at an address; no statement is a byte's line; each is one line, of three bytes at least. `list_start` and `read_start`,
//! `list_byte` and `read_byte`: the first line of a listing and the lines of bytes, written and read exactly. `Line` has at most 96 bytes
//! (`room` of `bytes`), and each statement fits: no call loses a byte. Behind each `own` stands one theorem: what the reader takes from a
//! word's statement is that word (proofs/ReadBack.antt), for each row of both tables and each part of a statement. The reader itself
//! refuses nothing; what it takes is listed again and compared with the text. No call takes memory beside the line.
//!
//! Only tested, in `asm_tests`: that the texts are what a reader of the ARM manual expects, by some 230 words and halves worked out by
//! hand, listed and read back (each row of both tables, each condition and operation by its name, all sixteen registers of a list, targets
//! past the end of the addresses), and some 90 texts that are near a statement and none.
#![tactic(auto)]

mod addresses;
mod arm;
mod laws;
mod lines;
mod listing;
mod names;
mod operands;
mod parts;
mod reading;
mod registers;
mod sets;
mod starts;
mod statements;
mod thumb;

pub use laws::statement_laws;
pub use lines::{Line, same};
pub use listing::{raw, spelling};
pub use reading::lines::only_candidate;
pub use sets::Set;
pub use starts::{list_byte, list_start, read_byte, read_start};
pub use statements::statement;
