//! Numbers and words in a packet.

use crate::framing::digit_value;
use ds_base::Proc;

/// What is left of a packet's body to read.
#[derive(Clone, Copy)]
pub struct Reader<'a> {
    rest: &'a [u8],
}

impl<'a> Reader<'a> {
    /// All of some bytes.
    pub fn new(rest: &'a [u8]) -> Reader<'a> {
        Reader { rest }
    }

    /// What is left.
    pub fn rest(&self) -> &'a [u8] {
        self.rest
    }

    /// Whether nothing is left.
    pub fn is_at_end(&self) -> bool {
        self.rest.is_empty()
    }

    /// Passes a byte, where it is the next one.
    pub fn passes(&mut self, byte: u8) -> bool {
        match self.rest.split_first() {
            Some((first, others)) if *first == byte => {
                self.rest = others;
                true
            }
            _ => false,
        }
    }

    /// Passes a text, where it comes next.
    pub fn passes_text(&mut self, text: &[u8]) -> bool {
        if text.len() > self.rest.len() || !self.rest.starts_with(text) {
            return false;
        }
        self.rest = &self.rest[text.len()..];
        true
    }

    /// The value of the next digit, which is passed.
    fn digit(&mut self) -> Option<u8> {
        let (first, others) = self.rest.split_first()?;
        let value = digit_value(*first)?;
        self.rest = others;
        Some(value)
    }

    /// A number of up to eight hexadecimal digits, the most significant first; None where there is no digit, or where there are more.
    pub fn number(&mut self) -> Option<u32> {
        let mut value = self.digit()? as u32;
        for _ in 0..7 {
            match self.digit() {
                Some(digit) => value = (value << 4) | digit as u32,
                None => return Some(value),
            }
        }
        if self.digit().is_some() {
            return None;
        }
        Some(value)
    }

    /// A thread: a processor by its number, and None inside for any (0) or all (-1). None where it is no thread of these.
    pub fn thread(&mut self) -> Option<Option<Proc>> {
        if self.passes_text(b"-1") {
            return Some(None);
        }
        match self.number()? {
            0 => Some(None),
            1 => Some(Some(Proc::Nine)),
            2 => Some(Some(Proc::Seven)),
            _ => None,
        }
    }
}
