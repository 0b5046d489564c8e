//! Where a line of a listing stands, and what it may be.

use arm_words::Spelling;

/// Where a line stands.
#[derive(Clone, Copy)]
pub struct LinePlace {
    /// The address of a statement here.
    pub at: u32,
    /// How many bytes stand on lines of their own so far.
    pub left: u8,
}

/// What a line stands for.
#[derive(Clone, Copy)]
pub enum Piece {
    /// A word or half.
    Number(Spelling),
    /// A byte.
    Byte(u8),
}
