//! The bytes of all nine banks.

ghost use Rattle.std.specs.Prelude.{◌≡◌, ◌<◌, ◌≤◌, ◌+◌, ℕ, IfOk, slice_index, slice_range, slice_set, length};
ghost use Rattle.ds_base.specs.declared.memories.Width.TheVariants.{Half, Word};
ghost use Rattle.ds_base.specs.Numbers.{zeroes, value_by, put_by, with_number};
ghost use Rattle.ds_state.specs.Formats.{array};
ghost use Rattle.ds_state.specs.Reading.{GivesIn, read_code};
ghost use Rattle.vram_banks.specs.Saved.{banks_size};

use ds_base::{VRAM_BYTES, known};
use ds_state::{Unpacked, Unpacker};
use std::alloc::{AllocError, Global};
use std::marker::Model;

/// The bytes of the nine banks, 656K in the order A to I. Contracts see the list of them.
#[derive(Drop)]
pub struct Cells {
    bytes: Vec<u8>,
}

impl Model for Cells {
    ghost use Rattle.std.specs.Prelude.{List, ℕ, length, ◌≡◌};

    ghost Value = { List ℕ };

    ghost view = { λ c. c.bytes.items };

    ghost invariant = { λ c. length c.bytes.items ≡ 0xA4000 };
}

#[tactic(auto, unfolding(ds_base::specs::Numbers::zeroes))]
fn zeroed(alloc: Global, count: usize) -> Result<Vec<u8>, AllocError>
    ensures value { IfOk result (λ v. v.items ≡ zeroes count) }
    ensures long { IfOk result (λ v. length v.items ≡ count) }
{
    vec![in alloc; 0; count]
}

/// Does nothing; its contract tells that the elements of a slice of bytes are bytes.
fn are_narrow(bytes: &[u8])
    ensures { (i : ℕ) → slice_index bytes.now i < 256 }
{
    known!(bytes);
}

/// The word at a place, by one load.
#[inline(always)]
pub fn word_at(bytes: &[u8], at: usize) -> u32
    requires { at + 4 ≤ length bytes.now }
    ensures { result ≡ value_by Word (slice_index bytes.now) at }
{
    u32::from_le_bytes([bytes[at], bytes[at + 1], bytes[at + 2], bytes[at + 3]])
}

/// Puts a half at a place, by one store.
#[inline(always)]
#[tactic(auto, using(crate::proofs::Puts::two_put))]
fn put_half(bytes: &mut [u8], at: usize, value: u16)
    requires { at + 2 ≤ length bytes.old }
    ensures { bytes.new ≡ with_number Half bytes.old at value }
{
    bytes[at..at + 2].copy_from_slice(&value.to_le_bytes());
}

/// Puts a word at a place, by one store.
#[inline(always)]
#[tactic(auto, using(crate::proofs::Puts::four_put))]
fn put_word(bytes: &mut [u8], at: usize, value: u32)
    requires { at + 4 ≤ length bytes.old }
    ensures { bytes.new ≡ with_number Word bytes.old at value }
{
    bytes[at..at + 4].copy_from_slice(&value.to_le_bytes());
}

impl Cells {
    /// All bytes are 0.
    pub fn new(alloc: Global) -> Result<Cells, AllocError>
        ensures { IfOk result (λ c. c ≡ zeroes 0xA4000) }
    {
        let bytes = zeroed(alloc, VRAM_BYTES)?;
        Ok(Cells { bytes })
    }

    /// Takes all bytes as they are.
    #[tactic(auto, unfolding(crate::specs::Saved::banks_size))]
    pub fn unpack(alloc: Global, from: &mut Unpacker) -> Result<Cells, Unpacked>
        ensures { GivesIn (λ c. c) result from.new (read_code (array banks_size) from.old) }
    {
        let bytes = from.take_bytes(alloc, VRAM_BYTES)?;
        Ok(Cells { bytes })
    }

    /// All the bytes, from where they lie.
    pub fn bytes(&self) -> &[u8]
        ensures { result.now ≡ self.now }
    {
        self.bytes.as_slice()
    }

    /// Does nothing; its contract tells how many bytes there are, and that they are bytes.
    pub fn byte_laws(&self)
        ensures long { length self.now ≡ 0xA4000 }
        ensures narrow { (i : ℕ) → slice_index self.now i < 256 }
    {
        known!(are_narrow(self.bytes.as_slice()));
    }

    pub fn byte(&self, at: u32) -> u8
        requires { at < 0xA4000 }
        ensures { result ≡ slice_index self.now at }
    {
        self.bytes[at as usize]
    }

    pub fn half(&self, at: u32) -> u16
        requires { at + 2 ≤ 0xA4000 }
        ensures { result ≡ value_by Half (slice_index self.now) at }
    {
        let at = at as usize;
        u16::from_le_bytes([self.bytes[at], self.bytes[at + 1]])
    }

    pub fn word(&self, at: u32) -> u32
        requires { at + 4 ≤ 0xA4000 }
        ensures { result ≡ value_by Word (slice_index self.now) at }
    {
        word_at(&self.bytes, at as usize)
    }

    pub fn put_byte(&mut self, at: u32, value: u8)
        requires { at < 0xA4000 }
        ensures { self.new ≡ slice_set self.old at value }
    {
        self.bytes[at as usize] = value;
    }

    pub fn put_half(&mut self, at: u32, value: u16)
        requires { at + 2 ≤ 0xA4000 }
        ensures { self.new ≡ put_by Half (λ a x bytes. slice_set bytes a x) at value self.old }
    {
        put_half(&mut self.bytes, at as usize, value);
    }

    pub fn put_word(&mut self, at: u32, value: u32)
        requires { at + 4 ≤ 0xA4000 }
        ensures { self.new ≡ put_by Word (λ a x bytes. slice_set bytes a x) at value self.old }
    {
        put_word(&mut self.bytes, at as usize, value);
    }

    /// So many bytes from a place on, from where they lie.
    pub fn part(&self, at: u32, count: u32) -> &[u8]
        requires { at + count ≤ 0xA4000 }
        ensures value { result.now ≡ slice_range self.now at (at + count) }
        ensures long { length result.now ≡ count }
    {
        &self.bytes[at as usize..(at + count) as usize]
    }

    /// Copies the bytes from a place on.
    pub fn copy(&self, at: u32, into: &mut [u8])
        requires { at + length into.old ≤ 0xA4000 }
        ensures { into.new ≡ slice_range self.now at (at + length into.old) }
    {
        let at = at as usize;
        into.copy_from_slice(&self.bytes[at..at + into.len()]);
    }
}
