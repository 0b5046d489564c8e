//! Places in tiles, and the bytes of a tile's row.

ghost use Rattle.std.specs.Prelude.{◌≡◌, ◌<◌, ◌+◌, ◌*◌, ◌/◌, ◌%◌, ◌^◌, ℕ, length, slice_index};
ghost use Rattle.vram_banks.specs.Cells.{vram_byte, IsRunOf};
ghost use Rattle.vram_banks.specs.Tiles.{flipped, nibble_at};

use crate::banks::Vram;
use crate::cells::word_at;
use ds_base::{Space, Width, known};

/// A place in a tile's row or column, flipped or not.
#[inline(always)]
pub fn flipped(flip: bool, place: usize) -> usize
    requires { place < 8 }
    ensures value { result ≡ flipped flip place }
    ensures small { result < 8 }
{
    if flip { 7 - place } else { place }
}

/// The four bytes of a word.
#[inline(always)]
fn word_bytes(vram: &Vram, space: Space, at: u32) -> [u8; 4]
    requires { at % 4 ≡ 0 }
    ensures { (i : ℕ) → i < 4 → slice_index result i ≡ vram_byte vram.now space (at + i) }
{
    known!(vram.bank_laws());
    let word = vram.read_in_line(space, at, Width::Word);
    [
        (word % 0x100) as u8,
        (word >> 8 & 0xff) as u8,
        (word >> 16 & 0xff) as u8,
        (word >> 24) as u8,
    ]
}

/// The row of a tile of 16 colours as one word, of which the lowest nibble is the index on the left.
#[inline(always)]
pub fn row_word(vram: &Vram, space: Space, at: u32) -> u32
    requires { at % 4 ≡ 0 }
    ensures { (i : ℕ) → i < 8 → result / 2 ^ (4 * i) % 16 ≡ nibble_at i (vram_byte vram.now space (at + i / 2)) }
{
    known!(vram.bank_laws());
    vram.read_in_line(space, at, Width::Word)
}

/// The same of the row that begins `offset` bytes past `base`, from where the bytes from there on lie if `run` has the row's.
#[inline(always)]
pub fn row_word_within(vram: &Vram, space: Space, run: &[u8], base: u32, offset: u32) -> u32
    requires run { IsRunOf vram.now space base run.now }
    requires whole { (base + offset) % 4 ≡ 0 }
    requires small { base + offset < 2 ^ 32 }
    ensures { (i : ℕ) → i < 8 → result / 2 ^ (4 * i) % 16 ≡ nibble_at i (vram_byte vram.now space (base + offset + i / 2)) }
{
    let at = offset as usize;
    if at + 4 <= run.len() {
        word_at(run, at)
    } else {
        row_word(vram, space, base + offset)
    }
}

/// Copies the eight bytes from an address on.
#[inline(always)]
pub fn copy_eight(vram: &Vram, space: Space, at: u32, into: &mut [u8])
    requires whole { at % 4 ≡ 0 }
    requires small { at < 2 ^ 31 }
    requires room { length into.old ≡ 8 }
    ensures { (i : ℕ) → i < 8 → slice_index into.new i ≡ vram_byte vram.now space (at + i) }
{
    let low = word_bytes(vram, space, at);
    let high = word_bytes(vram, space, at + 4);
    into.copy_from_slice(&[
        low[0], low[1], low[2], low[3], high[0], high[1], high[2], high[3],
    ]);
}

/// The same of those from `offset` bytes past `base` on, from where the bytes from there on lie if `run` has them.
#[inline(always)]
pub fn copy_eight_within(
    vram: &Vram,
    space: Space,
    run: &[u8],
    base: u32,
    offset: u32,
    into: &mut [u8],
)
    requires run { IsRunOf vram.now space base run.now }
    requires whole { (base + offset) % 4 ≡ 0 }
    requires small { base + offset < 2 ^ 31 }
    requires room { length into.old ≡ 8 }
    ensures { (i : ℕ) → i < 8 → slice_index into.new i ≡ vram_byte vram.now space (base + offset + i) }
{
    let at = offset as usize;
    if at + 8 <= run.len() {
        into.copy_from_slice(&run[at..at + 8]);
    } else {
        copy_eight(vram, space, base + offset, into);
    }
}
