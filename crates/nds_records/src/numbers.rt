//! Numbers as bytes, little-endian.

ghost use Rattle.std.specs.Prelude.{◌≡◌, ◌∷◌, [], length};
ghost use Rattle.nds_records.specs.Numbers.{longs, words, halves};

use byteorder::{ByteOrder, LittleEndian};

/// The 8 bytes of a number.
#[tactic(auto, unfolding(crate::specs::Numbers::longs))]
pub fn long_bytes(value: u64) -> [u8; 8]
    ensures { result ≡ longs (value ∷ []) }
{
    let mut bytes = [0; 8];
    LittleEndian::write_u64_into(&[value], &mut bytes);
    bytes
}

/// The 8 bytes of each of five numbers.
#[tactic(auto, unfolding(crate::specs::Numbers::longs))]
pub fn five_longs(values: &[u64; 5]) -> [u8; 40]
    ensures { result ≡ longs values.now }
{
    let mut bytes = [0; 40];
    LittleEndian::write_u64_into(values, &mut bytes);
    bytes
}

/// The 4 bytes of a number.
#[tactic(auto, unfolding(crate::specs::Numbers::words))]
pub fn word_bytes(value: u32) -> [u8; 4]
    ensures { result ≡ words (value ∷ []) }
{
    let mut bytes = [0; 4];
    LittleEndian::write_u32_into(&[value], &mut bytes);
    bytes
}

/// The lowest 4 bytes of a number.
#[tactic(auto, unfolding(crate::specs::Numbers::longs, crate::specs::Numbers::words))]
pub fn low_word_bytes(value: u64) -> [u8; 4]
    ensures { result ≡ words (value ∷ []) }
{
    let bytes = long_bytes(value);
    [bytes[0], bytes[1], bytes[2], bytes[3]]
}

/// The 4 bytes of each of a processor's registers.
#[tactic(auto, unfolding(crate::specs::Numbers::words))]
pub fn register_bytes(registers: &[u32; 37]) -> [u8; 148]
    ensures { result ≡ words registers.now }
{
    let mut bytes = [0; 148];
    LittleEndian::write_u32_into(registers, &mut bytes);
    bytes
}

/// The 2 bytes of each pixel of a row of 256.
#[tactic(auto, unfolding(crate::specs::Numbers::halves))]
pub fn row_bytes(row: &[u16]) -> [u8; 512]
    requires { length row.now ≡ 256 }
    ensures { result ≡ halves row.now }
{
    let mut bytes = [0; 512];
    LittleEndian::write_u16_into(row, &mut bytes);
    bytes
}
