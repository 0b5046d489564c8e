//! The line of a digest.

ghost use Rattle.std.specs.Prelude.{◌≡◌};
ghost use Rattle.ds_base.specs.Digits.{hex_digits};
ghost use Rattle.nds_records.specs.Lines.{digest_line};

use crate::lines::OutLine;
use ds_base::hex_digit;

/// Both digits of a byte.
fn digits(byte: u8) -> [u8; 2]
    ensures { result ≡ hex_digits 2 byte }
{
    [hex_digit(byte >> 4), hex_digit(byte & 15)]
}

/// The line of a digest of 32 bytes: `sha256`, and both hexadecimal digits of each byte.
pub fn digest_line(digest: &[u8; 32]) -> OutLine
    ensures { result ≡ digest_line digest.now }
{
    let mut line = OutLine::new();
    line.put(b"sha256 ");
    for byte in digest.as_slice() {
        line.put(&digits(*byte));
    }
    line.put(b"\n");
    line
}
