//! A cache of words, or of halves, of one version of the architecture.

ghost use Rattle.std.specs.Prelude.{◌≡◌, ◌<◌, ◌%◌, ◌^◌, IfOk, IfSome, slice_set, slice_index};
ghost use Rattle.std.specs.Coded.{Coded-set};
ghost use Rattle.decode_cache.specs.Kept.{kept_at_start, places_of};
ghost use Rattle.decode_cache.specs.Known.{arch_of, known};
ghost use Rattle.arm_ops.specs.Operations.{operation_of};
ghost use Rattle.arm_words.specs.Fields.{HasFields};

use arm_ops::{Operation, operation};
use arm_words::{Instr, decode_arm, decode_thumb};
use ds_base::Arch;
use std::alloc::{AllocError, Global};
use std::marker::Model;

/// How many numbers of so many bits are kept: as many as 64 KiB of code have, whether words or halves. (Our choice.)
#[inline(always)]
const fn places<const BITS: u32>() -> usize
    ensures value { result ≡ places_of BITS }
    ensures some { 0 < result }
    ensures few { result < 2 ^ 16 }
{
    if BITS == 16 { 32_768 } else { 16_384 }
}

/// A number with its instruction, or none, as an operation. The filler, always 0, makes it 32 bytes long, so that finding its place is a shift.
#[derive(Clone, Copy)]
struct CacheEntry<const VERSION: u32, const BITS: u32> {
    number: u32,
    operation: Operation,
    filler: u32,
    ghost made: { operation_of (known VERSION BITS number)
        ≡ operation } by { Coded-set operation-code (operation_of (known VERSION BITS number)) operation },
}

/// Numbers of so many bits with their instructions.
#[derive(Drop)]
pub struct DecodeCache<const VERSION: u32, const BITS: u32> {
    entries: Vec<CacheEntry<VERSION, BITS>>,
}

impl<const VERSION: u32, const BITS: u32> Model for DecodeCache<VERSION, BITS> {
    ghost use Rattle.std.specs.Prelude.{◌≡◌, ℕ, List, length, map};
    ghost use Rattle.decode_cache.specs.Kept.{places_of};

    ghost Value = { List ℕ };

    ghost view = { λ m. map (λ e. e.number) m.entries.items };

    ghost invariant = { λ m. length m.entries.items ≡ places_of BITS };
}

/// Where a number is kept that was found at a place of the code, counted in words or in halves: what lies side by side is kept side by side. (Our
/// choice.)
#[inline(always)]
fn place<const BITS: u32>(at: u32) -> usize
    ensures { result ≡ at % places_of BITS }
{
    (at % places::<BITS>() as u32) as usize
}

/// The architecture of a version.
const fn arch_of<const VERSION: u32>() -> Arch
    ensures { result ≡ arch_of VERSION }
{
    if VERSION == 5 { Arch::V5 } else { Arch::V4 }
}

/// The instruction of a number, by the tables.
#[tactic(auto, unfolding(crate::specs::Known::known))]
fn decoded<const VERSION: u32, const BITS: u32>(number: u32) -> Option<Instr>
    ensures instr { result ≡ known VERSION BITS number }
    ensures fields { IfSome result HasFields }
{
    let arch = arch_of::<VERSION>();
    if BITS == 16 {
        decode_thumb(arch, (number % 0x1_0000) as u16)
    } else {
        decode_arm(arch, number)
    }
}

/// The entry of a number.
#[inline(never)]
fn made<const VERSION: u32, const BITS: u32>(number: u32) -> CacheEntry<VERSION, BITS>
    ensures { result.number ≡ number }
{
    let operation = operation(decoded::<VERSION, BITS>(number));
    CacheEntry {
        number,
        operation,
        filler: 0,
    }
}

impl<const VERSION: u32, const BITS: u32> CacheEntry<VERSION, BITS> {
    /// Makes it the entry of a number, if it isn't.
    #[inline(always)]
    fn learn(&mut self, number: u32)
        ensures { self.new.number ≡ number }
    {
        if self.number != number {
            *self = made::<VERSION, BITS>(number);
        }
    }
}

impl<const VERSION: u32, const BITS: u32> DecodeCache<VERSION, BITS> {
    /// A cache that keeps the number 0 at each place. It refuses only for want of memory.
    pub fn new(alloc: Global) -> Result<DecodeCache<VERSION, BITS>, AllocError>
        ensures { IfOk result (λ cache. cache ≡ kept_at_start BITS) }
    {
        Ok(DecodeCache {
            entries: vec![in alloc; made::<VERSION, BITS>(0); places::<BITS>()]?,
        })
    }

    /// Keeps a number that was found at a place of the code.
    #[inline(always)]
    pub fn learn(&mut self, at: u32, number: u32)
        ensures keeps { self.new ≡ slice_set self.old (at % places_of BITS) number }
        ensures kept { slice_index self.new (at % places_of BITS) ≡ number }
    {
        let entry = &mut self.entries[place::<BITS>(at)];
        entry.learn(number);
    }

    /// The instruction of a number as an operation, where the number is kept for a place of the code.
    #[inline(always)]
    pub fn kept(&self, at: u32, number: u32) -> Option<&Operation>
        ensures { IfSome result (λ operation. operation.now ≡ operation_of (known VERSION BITS number)) }
    {
        let entry = &self.entries[place::<BITS>(at)];
        if entry.number != number {
            return None;
        }
        Some(&entry.operation)
    }

    /// The instruction of a number that is kept for a place of the code, or none, as an operation.
    #[inline(always)]
    pub fn operation(&self, at: u32, number: u32) -> &Operation
        requires { slice_index self.now (at % places_of BITS) ≡ number }
        ensures { result.now ≡ operation_of (known VERSION BITS number) }
    {
        &self.entries[place::<BITS>(at)].operation
    }
}
