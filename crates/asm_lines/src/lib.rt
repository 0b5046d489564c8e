//! Statements of words and halves, written and read: a word or half at an address has one line of text, `asm_text` says which, and no other
//! text is read as it.
//!
//! Proved: `list_word` makes the line exactly the statement of a word or half at its address, on both architectures and in both sets
//! (`listed`), whatever the line was before: the text of its instruction where it is canonical, otherwise `.word` or `.half` and all
//! digits. `read_line`, and `read_bytes` for any bytes: an answer's word has the text as its statement there (clause `found`); where the
//! text is a word's statement, that word is the answer (`own`); `NotText` comes only where the text is no word's statement (`none`). So
//! each word has exactly one accepted statement at an address, and reading a listed line gives its word. For Thumb `list_word` asks for a
//! number below 65,536. docs/LISTING.md shows each statement's form by example.
#![tactic(auto)]

mod listing;
mod reading;

pub use listing::list_word;
pub use reading::{NotText, read_bytes, read_line};
