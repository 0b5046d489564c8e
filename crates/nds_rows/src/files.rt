//! Reading a file of rows.

use crate::faults::BadLine;
use crate::lines::{Line, Said, add_lines};
use crate::lists::push;
use crate::tokens::{Token, tokens_of};
use std::alloc::{AllocError, Global};

/// A line that more lines may go on with, from its number on.
#[derive(Drop)]
struct Begun {
    number: u64,
    tokens: Vec<Token>,
}

/// Whether a line goes on with the one before.
fn goes_on(tokens: &[Token]) -> bool {
    match tokens {
        [first, ..] => first.is("+"),
        [] => false,
    }
}

/// A file that is read line by line.
#[derive(Drop)]
struct Reader {
    alloc: Global,
    said: Vec<Said>,
    begun: Begun,
    number: u64,
}

impl Reader {
    /// Before the first line.
    fn new(alloc: Global) -> Reader {
        Reader {
            alloc,
            said: Vec::new(alloc),
            begun: Begun {
                number: 0,
                tokens: Vec::new(alloc),
            },
            number: 0,
        }
    }

    /// Keeps that a line says nothing.
    fn keep_bad(&mut self, bad: BadLine) -> Result<(), AllocError> {
        let number = self.number;
        let line = Line::Bad(bad);
        push(&mut self.said, Said { number, line })
    }

    /// Ends the line that was begun.
    fn end(&mut self) -> Result<(), AllocError> {
        let number = self.begun.number;
        add_lines(
            self.alloc,
            &mut self.said,
            number,
            self.begun.tokens.as_slice(),
        )
    }

    /// Takes the words of a line.
    fn take(&mut self, tokens: Vec<Token>) -> Result<(), AllocError> {
        if tokens.is_empty() {
            return Ok(());
        }
        let mut tokens = tokens;
        if goes_on(tokens.as_slice()) {
            tokens.remove(0);
            return self.begun.tokens.append(&mut tokens);
        }
        self.end()?;
        self.begun = Begun {
            number: self.number,
            tokens,
        };
        Ok(())
    }

    /// Reads the next line.
    fn read(&mut self, line: &str) -> Result<(), AllocError> {
        self.number = self.number.saturating_add(1);
        match tokens_of(self.alloc, line) {
            Ok(tokens) => self.take(tokens),
            Err(bad) => self.keep_bad(bad),
        }
    }
}

/// All lines of a file.
pub fn read_file(alloc: Global, text: &str) -> Result<Vec<Said>, AllocError> {
    let mut reader = Reader::new(alloc);
    for line in text.lines() {
        reader.read(line)?;
    }
    reader.end()?;
    Ok(reader.said)
}
