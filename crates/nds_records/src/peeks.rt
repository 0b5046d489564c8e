//! The lines of bytes of a memory.

ghost use Rattle.std.specs.Prelude.{◌≡◌, ◌<◌, ◌≤◌, ◌+◌, ◌*◌, ◌^◌, ◌++◌, ◌∷◌, length, take, drop, OnOk, OnErr};
ghost use Rattle.ds_base.specs.Digits.{hex_digits};
ghost use Rattle.ds_io.specs.Faults.{Rose};
ghost use Rattle.ds_io.specs.Sinks.{Appended, AppendedFront};
ghost use Rattle.nds_records.specs.Lines.{peek_line, peek_lines};

use crate::lines::OutLine;
use ds_base::{hex_digit, hex_digits};
use ds_io::{Failed, Sink, put_all};

/// How many bytes stand on a line.
const A_LINE: usize = 16;

/// A space and both digits of a byte.
fn byte_digits(byte: u8) -> [u8; 3]
    ensures { result ≡ 32 ∷ hex_digits 2 byte }
{
    [b' ', hex_digit(byte >> 4), hex_digit(byte & 15)]
}

/// The line of at most 16 bytes from a place on.
fn peek_line(place: u32, bytes: &[u8]) -> OutLine
    requires { length bytes.now ≤ 16 }
    ensures { result ≡ peek_line place bytes.now }
{
    let mut line = OutLine::new();
    line.put(&hex_digits(place));
    line.put(b":");
    for byte in bytes {
        line.put(&byte_digits(*byte));
    }
    line.put(b"\n");
    line
}

/// The line of a number among those of bytes from a place on.
#[tactic(auto, using(crate::proofs::LineLists::line_lent))]
fn line_at(place: u32, bytes: &[u8], line: usize) -> OutLine
    requires fits { place + length bytes.now < 2 ^ 32 }
    requires within { 16 * line < length bytes.now }
    ensures { result ≡ peek_line (place + 16 * line) (take 16 (drop (16 * line) bytes.now)) }
{
    let from = A_LINE * line;
    let to = bytes.len().min(from + A_LINE);
    peek_line(place + from as u32, &bytes[from..to])
}

/// Puts the lines of bytes of a memory from a place on: 16 bytes a line, and fewer on the last.
pub fn put_peek<O: Sink>(out: &mut O, place: u32, bytes: &[u8]) -> Result<(), Failed>
    requires { place + length bytes.now < 2 ^ 32 }
    ensures ok { OnOk result (Appended O.tells O.taken out.old out.new (peek_lines place bytes.now)) }
    ensures err { OnErr result (AppendedFront O.tells O.taken out.old out.new (peek_lines place bytes.now)) }
    ensures cause { OnErr result (Rose (O.faults out.old) (O.faults out.new)) }
    ensures later { O.faults out.old ≤ O.faults out.new }
{
    let lines = bytes.len().div_ceil(A_LINE);
    for line in 0..lines {
        put_all(out, line_at(place, bytes, line).bytes())?;
    }
    Ok(())
}
