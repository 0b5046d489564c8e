//! Going over the words of a line: names, numbers and bytes.

use crate::faults::BadLine;
use crate::lists::push;
use crate::tokens::Token;
use ds_base::Proc;
use ds_places::rom_word;
use std::alloc::{AllocError, Global};

/// The words of a line that are still to be read. What is wrong first is kept, and what is read after it counts for nothing.
#[derive(Drop)]
pub struct Cursor<'a> {
    /// Where memory comes from.
    alloc: Global,
    tokens: &'a [Token],
    bad: Option<BadLine>,
}

impl<'a> Cursor<'a> {
    /// All of these words.
    pub fn new(alloc: Global, tokens: &'a [Token]) -> Cursor<'a> {
        Cursor {
            alloc,
            tokens,
            bad: None,
        }
    }

    /// Keeps that something is wrong.
    pub fn fail(&mut self, bad: BadLine) {
        if self.bad.is_none() {
            self.bad = Some(bad);
        }
    }

    /// The characters of the next.
    pub fn word(&mut self) -> &'a str {
        let tokens = self.tokens;
        match tokens {
            [first, rest @ ..] => {
                self.tokens = rest;
                first.text.as_str()
            }
            [] => {
                self.fail(BadLine::TooShort);
                ""
            }
        }
    }

    /// The next as a decimal number.
    pub fn number(&mut self) -> u64 {
        match self.word().parse::<u64>() {
            Ok(number) => number,
            Err(_) => {
                self.fail(BadLine::NoNumber);
                0
            }
        }
    }

    /// The next as a decimal number that is a length.
    pub fn length(&mut self) -> usize {
        match self.word().parse::<usize>() {
            Ok(length) => length,
            Err(_) => {
                self.fail(BadLine::NoNumber);
                0
            }
        }
    }

    /// The next as a hexadecimal number.
    pub fn hex(&mut self) -> u32 {
        match u32::from_str_radix(self.word(), 16) {
            Ok(number) => number,
            Err(_) => {
                self.fail(BadLine::NoNumber);
                0
            }
        }
    }

    /// The next as a decimal number, or a hexadecimal one; `_` is none.
    pub fn perhaps(&mut self, radix: Radix) -> Option<u64> {
        let word = self.word();
        if word == "_" {
            return None;
        }
        let number = match radix {
            Radix::Decimal => word.parse::<u64>(),
            Radix::Hex => u64::from_str_radix(word, 16),
        };
        match number {
            Ok(number) => Some(number),
            Err(_) => {
                self.fail(BadLine::NoNumber);
                None
            }
        }
    }

    /// A word as a text that is kept.
    fn kept(&mut self, word: &str) -> String {
        match String::from_str(self.alloc, word) {
            Ok(text) => text,
            Err(_) => {
                self.fail(BadLine::NoMemory);
                String::new(self.alloc)
            }
        }
    }

    /// Puts a value behind others.
    fn push<T: Drop>(&mut self, values: &mut Vec<T>, value: T) {
        match push(values, value) {
            Ok(()) => {}
            Err(_) => self.fail(BadLine::NoMemory),
        }
    }

    /// These numbers, as a list that is kept.
    pub fn list(&mut self, numbers: &[Option<u64>]) -> Vec<Option<u64>> {
        match Vec::from_slice(self.alloc, numbers) {
            Ok(numbers) => numbers,
            Err(_) => {
                self.fail(BadLine::NoMemory);
                Vec::new(self.alloc)
            }
        }
    }

    /// These words, as texts that are kept.
    pub fn texts(&mut self, words: &[&str]) -> Vec<String> {
        let mut texts = Vec::new(self.alloc);
        for word in words {
            let text = self.kept(word);
            self.push(&mut texts, text);
        }
        texts
    }

    /// The next as a text that is kept.
    pub fn name(&mut self) -> String {
        let word = self.word();
        self.kept(word)
    }

    /// All that are left, as texts.
    pub fn names(&mut self) -> Vec<String> {
        let mut names = Vec::new(self.alloc);
        for _ in 0..self.tokens.len() {
            let name = self.name();
            self.push(&mut names, name);
        }
        names
    }

    /// All that are left, as one text with a blank between each two.
    pub fn text(&mut self) -> String {
        match joined(self.alloc, self.tokens) {
            Ok(text) => {
                self.tokens = &[];
                text
            }
            Err(_) => {
                self.fail(BadLine::NoMemory);
                String::new(self.alloc)
            }
        }
    }

    /// All that are left and one at least, as decimal numbers, or hexadecimal ones; `_` is none.
    pub fn numbers(&mut self, radix: Radix) -> Vec<Option<u64>> {
        if self.tokens.is_empty() {
            self.fail(BadLine::TooShort);
        }
        let mut numbers = Vec::new(self.alloc);
        for _ in 0..self.tokens.len() {
            let number = self.perhaps(radix);
            self.push(&mut numbers, number);
        }
        numbers
    }

    /// All that are left, as hexadecimal words.
    pub fn words(&mut self) -> Vec<u32> {
        let mut words = Vec::new(self.alloc);
        for _ in 0..self.tokens.len() {
            let word = self.hex();
            self.push(&mut words, word);
        }
        words
    }

    /// All that are left, as bytes.
    pub fn bytes(&mut self) -> Vec<u8> {
        match bytes_of(self.alloc, self.tokens) {
            Ok(bytes) => {
                self.tokens = &[];
                bytes
            }
            Err(bad) => {
                self.fail(bad);
                Vec::new(self.alloc)
            }
        }
    }

    /// What is wrong, or this.
    pub fn bad_or(&self, bad: BadLine) -> BadLine {
        self.bad.unwrap_or(bad)
    }

    /// What is wrong, if only that something is left.
    pub fn end(&self) -> Result<(), BadLine> {
        match self.bad {
            Some(bad) => Err(bad),
            None if self.tokens.is_empty() => Ok(()),
            None => Err(BadLine::TooLong),
        }
    }
}

/// In which digits numbers are written.
#[derive(Clone, Copy)]
pub enum Radix {
    /// Ten.
    Decimal,
    /// Sixteen.
    Hex,
}

/// Tokens as one text with a blank between each two.
fn joined(alloc: Global, tokens: &[Token]) -> Result<String, AllocError> {
    let mut text = String::new(alloc);
    for token in tokens {
        if !text.is_empty() {
            text.push(' ')?;
        }
        text.push_str(token.text.as_str())?;
    }
    Ok(text)
}

/// The bytes that tokens stand for.
fn bytes_of(alloc: Global, tokens: &[Token]) -> Result<Vec<u8>, BadLine> {
    let mut bytes = Vec::new(alloc);
    let mut times = 1;
    for token in tokens {
        match times_of(token)? {
            Some(number) => times = number,
            None => {
                add_token(&mut bytes, token, times)?;
                times = 1;
            }
        }
    }
    Ok(bytes)
}

/// How many times the next token stands, where a token says that: `N*`.
fn times_of(token: &Token) -> Result<Option<usize>, BadLine> {
    if token.is_quoted {
        return Ok(None);
    }
    let Some(times) = token.text.strip_suffix("*") else {
        return Ok(None);
    };
    match times.parse::<usize>() {
        Ok(times) => Ok(Some(times)),
        Err(_) => Err(BadLine::NoNumber),
    }
}

/// Adds, so many times, the bytes that a token stands for: those of a text in quotes; a number of two, four or eight hexadecimal digits
/// as a byte, a half or a word, little-endian; a processor's boot ROM for `rom9` or `rom7`.
fn add_token(bytes: &mut Vec<u8>, token: &Token, times: usize) -> Result<(), BadLine> {
    let text = token.text.as_str();
    if token.is_quoted {
        return add_all(bytes, text.as_bytes(), times);
    }
    match text {
        "rom9" => add_rom(bytes, Proc::Nine),
        "rom7" => add_rom(bytes, Proc::Seven),
        _ => add_number(bytes, text, times),
    }
}

/// Adds a number so many times, by its digits.
fn add_number(bytes: &mut Vec<u8>, digits: &str, times: usize) -> Result<(), BadLine> {
    let Ok(number) = u32::from_str_radix(digits, 16) else {
        return Err(BadLine::NoBytes);
    };
    let [low, next, third, high] = number.to_le_bytes();
    match digits.len() {
        2 => add_bytes(bytes, low, times),
        4 => add_all(bytes, &[low, next], times),
        8 => add_all(bytes, &[low, next, third, high], times),
        _ => Err(BadLine::NoBytes),
    }
}

/// Adds a byte so many times.
fn add_bytes(bytes: &mut Vec<u8>, byte: u8, times: usize) -> Result<(), BadLine> {
    let length = bytes.len().saturating_add(times);
    bytes.resize(length, byte)?;
    Ok(())
}

/// Adds some bytes so many times.
fn add_all(bytes: &mut Vec<u8>, more: &[u8], times: usize) -> Result<(), BadLine> {
    for _ in 0..times {
        bytes.extend_from_slice(more)?;
    }
    Ok(())
}

/// Adds a processor's boot ROM, as far as it isn't 0.
fn add_rom(bytes: &mut Vec<u8>, proc: Proc) -> Result<(), BadLine> {
    for index in 0..121u32 {
        bytes.extend_from_slice(&rom_word(proc, index * 4).to_le_bytes())?;
    }
    Ok(())
}
