//! Memories of a fixed size.

ghost use Rattle.std.specs.Prelude.{◌≡◌, ◌<◌, ◌≤◌, ◌+◌, ◌%◌, IfOk, slice_index, slice_set, length};
ghost use Rattle.ds_base.specs.declared.memories.Width.TheVariants.{Half, Word};
ghost use Rattle.ds_base.specs.Numbers.{zeroes, aligned_down, number_at, with_number};
ghost use Rattle.ds_state.specs.Formats.{array};
ghost use Rattle.ds_state.specs.Reading.{GivesIn, read_code};

use ds_base::Width;
use ds_state::{Unpacked, Unpacker};
use std::alloc::{AllocError, Global};
use std::marker::Model;

/// N bytes, seen as their list. The size travels with the type, so no access tests it.
#[derive(Drop)]
pub struct Block<const N: usize> {
    bytes: Vec<u8>,
}

impl<const N: usize> Model for Block<N> {
    ghost use Rattle.std.specs.Prelude.{◌≡◌, ℕ, List, length};

    ghost Value = { List ℕ };

    ghost view = { λ b. b.bytes.items };

    ghost invariant = { λ b. length b.bytes.items ≡ N };
}

/// So many zeros.
#[tactic(auto, unfolding(ds_base::specs::Numbers::zeroes))]
fn zeroed(alloc: Global, count: usize) -> Result<Vec<u8>, AllocError>
    ensures zero { IfOk result (λ v. v.items ≡ zeroes count) }
    ensures long { IfOk result (λ v. length v.items ≡ count) }
{
    Ok(vec![in alloc; 0; count]?)
}

/// Puts a half at a place, by one store.
#[inline(always)]
#[tactic(auto, using(vram_banks::proofs::Puts::two_put))]
fn put_half(bytes: &mut [u8], at: usize, value: u32)
    requires { at + 2 ≤ length bytes.old }
    ensures { bytes.new ≡ with_number Half bytes.old at value }
{
    let [first, second, _, _] = value.to_le_bytes();
    bytes[at..at + 2].copy_from_slice(&[first, second]);
}

/// Puts a word at a place, by one store.
#[inline(always)]
#[tactic(auto, using(vram_banks::proofs::Puts::four_put))]
fn put_word(bytes: &mut [u8], at: usize, value: u32)
    requires { at + 4 ≤ length bytes.old }
    ensures { bytes.new ≡ with_number Word bytes.old at value }
{
    bytes[at..at + 4].copy_from_slice(&value.to_le_bytes());
}

impl<const N: usize> Block<N> {
    /// N zeros.
    pub fn new(alloc: Global) -> Result<Block<N>, AllocError>
        ensures { IfOk result (λ b. b ≡ zeroes N) }
    {
        Ok(Block {
            bytes: zeroed(alloc, N)?,
        })
    }

    /// Takes N bytes as they are. The error is want of memory, or where they begin that aren't all there.
    pub fn take(alloc: Global, from: &mut Unpacker) -> Result<Block<N>, Unpacked>
        ensures { GivesIn (λ b. b) result from.new (read_code (array N) from.old) }
    {
        Ok(Block {
            bytes: from.take_bytes(alloc, N)?,
        })
    }

    /// All the bytes, from where they lie.
    #[inline(always)]
    pub fn bytes(&self) -> &[u8]
        ensures value { result.now ≡ self.now }
        ensures long { length result.now ≡ N }
    {
        self.bytes.as_slice()
    }

    /// The byte at a place.
    #[inline(always)]
    pub fn byte(&self, at: usize) -> u8
        requires { at < N }
        ensures { result ≡ slice_index self.now at }
    {
        self.bytes[at]
    }

    /// Puts a byte at a place.
    #[inline(always)]
    pub fn set_byte(&mut self, at: usize, value: u8)
        requires { at < N }
        ensures { self.new ≡ slice_set self.old at value }
    {
        self.bytes[at] = value;
    }

    /// The number of a width that stands at a place, aligned down, the least significant byte first.
    #[inline(always)]
    pub fn number(&self, at: usize, width: Width) -> u32
        requires within { at < N }
        requires words { N % 4 ≡ 0 }
        ensures { result ≡ number_at width self.now (aligned_down width at) }
    {
        let bytes = &self.bytes;
        match width {
            Width::Byte => bytes[at] as u32,
            Width::Half => {
                let at = at - at % 2;
                let two = &bytes[at..at + 2];
                u16::from_le_bytes([two[0], two[1]]) as u32
            }
            Width::Word => {
                let at = at - at % 4;
                let four = &bytes[at..at + 4];
                u32::from_le_bytes([four[0], four[1], four[2], four[3]])
            }
        }
    }

    /// Puts a number of a width at a place, aligned down, the least significant byte first.
    #[inline(always)]
    pub fn set_number(&mut self, at: usize, width: Width, value: u32)
        requires within { at < N }
        requires words { N % 4 ≡ 0 }
        ensures { self.new ≡ with_number width self.old (aligned_down width at) value }
    {
        match width {
            Width::Byte => self.bytes[at] = (value % 0x100) as u8,
            Width::Half => put_half(&mut self.bytes, at - at % 2, value),
            Width::Word => put_word(&mut self.bytes, at - at % 4, value),
        }
    }
}
