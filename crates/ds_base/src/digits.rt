//! Hexadecimal digits.

ghost use Rattle.std.specs.Prelude.{◌≡◌, ◌<◌};
ghost use Rattle.ds_base.specs.Digits.{hex_digit, hex_digits};

/// A hexadecimal digit in ASCII, in lower case.
pub fn hex_digit(digit: u8) -> u8
    requires { digit < 16 }
    ensures { result ≡ hex_digit digit }
{
    if digit < 10 {
        b'0' + digit
    } else {
        b'a' + (digit - 10)
    }
}

/// All eight hexadecimal digits of a word, the highest first.
pub fn hex_digits(word: u32) -> [u8; 8]
    ensures { result ≡ hex_digits 8 word }
{
    [
        hex_digit((word >> 28) as u8),
        hex_digit((word >> 24 & 15) as u8),
        hex_digit((word >> 20 & 15) as u8),
        hex_digit((word >> 16 & 15) as u8),
        hex_digit((word >> 12 & 15) as u8),
        hex_digit((word >> 8 & 15) as u8),
        hex_digit((word >> 4 & 15) as u8),
        hex_digit((word & 15) as u8),
    ]
}
