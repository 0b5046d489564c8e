//! Answers to bytes.

ghost use Rattle.std.specs.Prelude.{◌≡◌, ◌%◌, [], ◌++◌, sum, OnOk, IfOk};
ghost use Rattle.std.specs.Fmt.{decimal};
ghost use Rattle.ds_base.specs.Digits.{hex_digits};
ghost use Rattle.gdb_packets.specs.Packets.{digits_of, word_digits, escaped_byte, packet_of};

use ds_base::hex_digits;
use itoa::Buffer;
use std::alloc::{AllocError, Global};
use std::marker::Model;

/// The two digits of a byte, the more significant first.
fn two_digits(byte: u8) -> [u8; 2]
    ensures { result ≡ hex_digits 2 byte }
{
    let all = hex_digits(byte as u32);
    [all[6], all[7]]
}

/// The body of an answer, as it is made. Its value in contracts is the list of its bytes. Each call that puts something puts it behind them; where
/// there is no memory for it, a front of it may stand there.
#[derive(Drop)]
pub struct Answer {
    bytes: Vec<u8>,
}

impl Model for Answer {
    ghost use Rattle.std.specs.Prelude.{ℕ, List};

    ghost Value = { List ℕ };

    ghost view = { λ a. a.bytes.items };
}

impl Answer {
    /// An empty one.
    pub fn new(alloc: Global) -> Answer
        ensures { result ≡ [] }
    {
        Answer {
            bytes: Vec::new(alloc),
        }
    }

    /// Takes all bytes away.
    pub fn clear(&mut self)
        ensures { self.new ≡ [] }
    {
        self.bytes.clear();
    }

    /// Its bytes.
    pub fn bytes(&self) -> &[u8]
        ensures { result.now ≡ self.now }
    {
        self.bytes.as_slice()
    }

    /// Puts bytes as they are.
    pub fn put(&mut self, bytes: &[u8]) -> Result<(), AllocError>
        ensures { OnOk result (self.new ≡ self.old ++ bytes.now) }
    {
        self.bytes.extend_from_slice(bytes)
    }

    /// Puts a byte as two hexadecimal digits.
    pub fn put_byte(&mut self, byte: u8) -> Result<(), AllocError>
        ensures { OnOk result (self.new ≡ self.old ++ hex_digits 2 byte) }
    {
        self.put(&two_digits(byte))
    }

    /// Puts a word as its four bytes in the order of memory, the least significant first.
    pub fn put_word(&mut self, word: u32) -> Result<(), AllocError>
        ensures { OnOk result (self.new ≡ self.old ++ word_digits word) }
    {
        self.put_text(&word.to_le_bytes())
    }

    /// Puts a number in eight hexadecimal digits, the most significant first.
    pub fn put_address(&mut self, number: u32) -> Result<(), AllocError>
        ensures { OnOk result (self.new ≡ self.old ++ hex_digits 8 number) }
    {
        self.put(&hex_digits(number))
    }

    /// Puts a number in decimal digits.
    pub fn put_number(&mut self, number: u64) -> Result<(), AllocError>
        ensures { OnOk result (self.new ≡ self.old ++ decimal number) }
    {
        let mut buffer = Buffer::new();
        self.put(buffer.format(number).as_bytes())
    }

    /// Puts a text, each byte as two digits: an answer to a command of the user's, or a line that gdb prints.
    pub fn put_text(&mut self, text: &[u8]) -> Result<(), AllocError>
        ensures { OnOk result (self.new ≡ self.old ++ digits_of text.now) }
    {
        for byte in text {
            self.put_byte(*byte)?;
        }
        Ok(())
    }

    /// Puts what stands in another answer as a text.
    pub fn put_answer(&mut self, other: &Answer) -> Result<(), AllocError>
        ensures { OnOk result (self.new ≡ self.old ++ digits_of other.now) }
    {
        self.put_text(other.bytes())
    }

    /// Puts a byte of a packet's body with the escape that it may need, and tells how much that adds to the packet's sum.
    fn put_escaped(&mut self, byte: u8) -> Result<u8, AllocError>
        ensures put { OnOk result (self.new ≡ self.old ++ escaped_byte byte) }
        ensures adds { IfOk result (λ more. more ≡ sum (escaped_byte byte) % 256) }
    {
        if matches!(byte, b'$' | b'#' | b'}' | b'*') {
            let turned = byte ^ 0x20;
            self.put(&[b'}', turned])?;
            return Ok(b'}'.wrapping_add(turned));
        }
        self.put(&[byte])?;
        Ok(byte)
    }

    /// Puts the packet of a body: a dollar, the body with its escapes, and behind a `#` the sum of what stands between.
    pub fn put_packet(&mut self, body: &[u8]) -> Result<(), AllocError>
        ensures { OnOk result (self.new ≡ self.old ++ packet_of body.now) }
    {
        self.put(b"$")?;
        let mut total = 0u8;
        for byte in body {
            let more = self.put_escaped(*byte)?;
            total = total.wrapping_add(more);
        }
        self.put(b"#")?;
        self.put_byte(total)
    }
}
