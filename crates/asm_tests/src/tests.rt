//! Words and halves by the tables, statements both ways, and whole listings.

mod files;
mod texts;
mod words;
