//! The words and texts of a line.

use crate::faults::BadLine;
use std::alloc::Global;

/// A word, or a text in quotes.
#[derive(Drop)]
pub struct Token {
    /// Its characters, without quotes.
    pub text: String,
    /// Whether it stood in quotes.
    pub is_quoted: bool,
}

impl Token {
    /// Whether it is this word.
    pub fn is(&self, word: &str) -> bool {
        !self.is_quoted && self.text.as_str() == word
    }
}

/// Where in a line the next character stands.
#[derive(Clone, Copy)]
enum Within {
    Blank,
    Word,
    Quotes,
    Escape,
    Comment,
}

/// A line, as far as it is parted.
#[derive(Drop)]
struct Parting {
    tokens: Vec<Token>,
    text: String,
    within: Within,
}

impl Parting {
    /// Ends the token that stands there.
    fn end(&mut self, alloc: Global, is_quoted: bool) -> Result<(), BadLine> {
        let text = std::mem::replace(&mut self.text, String::new(alloc));
        self.tokens.push(Token { text, is_quoted })?;
        self.within = Within::Blank;
        Ok(())
    }

    /// Takes a character between tokens.
    fn begin(&mut self, c: char) -> Result<(), BadLine> {
        match c {
            ' ' => {}
            ';' => self.within = Within::Comment,
            '"' => self.within = Within::Quotes,
            _ => {
                self.text.push(c)?;
                self.within = Within::Word;
            }
        }
        Ok(())
    }

    /// Takes a character of a word, or what ends it: a blank, or its last character `*`.
    fn go_on(&mut self, alloc: Global, c: char) -> Result<(), BadLine> {
        if c == ' ' {
            return self.end(alloc, false);
        }
        self.text.push(c)?;
        if c == '*' {
            self.end(alloc, false)?;
        }
        Ok(())
    }

    /// Takes a character of a text.
    fn quote(&mut self, alloc: Global, c: char) -> Result<(), BadLine> {
        match c {
            '"' => self.end(alloc, true)?,
            '\\' => self.within = Within::Escape,
            _ => self.text.push(c)?,
        }
        Ok(())
    }

    /// Takes the character after a backslash.
    fn escape(&mut self, c: char) -> Result<(), BadLine> {
        let meant = match c {
            'n' => '\n',
            'r' => '\r',
            '\\' => '\\',
            '"' => '"',
            _ => return Err(BadLine::BadText),
        };
        self.text.push(meant)?;
        self.within = Within::Quotes;
        Ok(())
    }

    /// Takes the next character.
    fn take(&mut self, alloc: Global, c: char) -> Result<(), BadLine> {
        match self.within {
            Within::Blank => self.begin(c),
            Within::Word => self.go_on(alloc, c),
            Within::Quotes => self.quote(alloc, c),
            Within::Escape => self.escape(c),
            Within::Comment => Ok(()),
        }
    }
}

/// The words and texts of a line, without the comment at its end.
pub fn tokens_of(alloc: Global, line: &str) -> Result<Vec<Token>, BadLine> {
    let mut parting = Parting {
        tokens: Vec::new(alloc),
        text: String::new(alloc),
        within: Within::Blank,
    };
    for c in line.chars() {
        parting.take(alloc, c)?;
    }
    match parting.within {
        Within::Blank | Within::Comment => {}
        Within::Word => parting.end(alloc, false)?,
        Within::Quotes | Within::Escape => return Err(BadLine::BadText),
    }
    Ok(parting.tokens)
}
