//! Why a line of a file of rows says nothing.

use std::alloc::{AllocError, AllocFailed};

/// Why a line says nothing.
#[derive(Clone, Copy)]
pub enum BadLine {
    /// There was no memory for it.
    NoMemory,
    /// It begins with a word, or has one after `is`, that isn't of the language.
    NoSuchWord,
    /// Something is missing at its end.
    TooShort,
    /// Something is left over at its end.
    TooLong,
    /// A number is none, or too large.
    NoNumber,
    /// What stands for bytes isn't a text in quotes, nor two, four or eight hexadecimal digits.
    NoBytes,
    /// A text's closing quote is missing, or what follows a backslash in it isn't known.
    BadText,
    /// It stands before the first table, or before the first row of its table.
    OutsideRow,
    /// The cartridge that it speaks of is refused, so that it has no console.
    NoConsole,
}

impl BadLine {
    /// What is told of it.
    pub fn text(self) -> &'static str {
        match self {
            BadLine::NoMemory => "out of memory",
            BadLine::NoSuchWord => "a word that isn't of the language",
            BadLine::TooShort => "something is missing at its end",
            BadLine::TooLong => "something is left over at its end",
            BadLine::NoNumber => "a number is none, or too large",
            BadLine::NoBytes => "bytes that are none",
            BadLine::BadText => "a text that doesn't end well",
            BadLine::OutsideRow => "no row begins before it",
            BadLine::NoConsole => "there is no console",
        }
    }
}

impl From<AllocError> for BadLine {
    fn from(_fault: AllocError) -> BadLine {
        BadLine::NoMemory
    }
}

impl<T: Drop> From<AllocFailed<T>> for BadLine {
    fn from(_fault: AllocFailed<T>) -> BadLine {
        BadLine::NoMemory
    }
}
