//! The instruction tables: what each ARM word and each Thumb half stands for on the console's two architectures, and the word
//! or half that an instruction is spelled as. `specs/` has the tables as data; decoding is exactly the first row that agrees.
//!
//! Proved: `decode_arm` and `decode_thumb` give exactly the first row of the tables that agrees (clause `row`), and None exactly where none
//! does; the tables are data (mask, value, architectures, side condition, fields), and the contract doesn't know of the code's looking at
//! the top bits first. What they give has its fields in the ranges of their bits, registers below 16 (`fields`), and can be encoded
//! (`instruction`). `encode` gives exactly the sum of fixed bits and fields (`spelling`); decoding that gives the instruction again, on
//! each architecture that has it (`again`), and it is the canonical word or half of the instruction, where there is one (`canonical`).
//! `canonical` gives an instruction exactly for canonical words and halves (`exactly`): the spelling of what they decode to, with the least
//! of all rotations that give an immediate, no post-index with bit 21, and not ARMv4's words that do nothing. No call takes memory.
//!
//! Only tested, in `asm_tests`: that the tables are the manual's, by some 290 words and halves worked out by hand, spelled and read back
//! with each field different from the others and each flag both ways: every condition, operation and shift, each field of each multiply;
//! for each row and side condition one word just outside; the least rotation at each of its edges; and all 65,536 halves there and back on
//! both architectures.
#![tactic(auto)]

mod arm;
mod canonicals;
mod fields;
mod instructions;
mod numbers;
mod operations;
mod parts;
mod spellings;
mod thumb;

pub use arm::decode_arm;
pub use canonicals::{canonical, decode};
pub use fields::condition as condition_of;
pub use instructions::Instr;
pub use operations::{
    CompareOp, DataOp, HalfOp, HighOp, MoveOp, ThumbDataOp, ThumbImmediateOp, ThumbTransferOp,
};
pub use parts::{Condition, FieldMask, Offset, Operand, Shift, ShortOffset, ThumbOperand};
pub use spellings::{Spelling, encode, spell};
pub use thumb::decode_thumb;
