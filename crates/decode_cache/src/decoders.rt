//! A decoder of one version of the architecture.

ghost use Rattle.std.specs.Prelude.{◌≡◌, IfSome};
ghost use Rattle.decode_cache.specs.Known.{arch_of};
ghost use Rattle.arm_ops.specs.Operations.{operation_of, HasOperation};
ghost use Rattle.arm_words.specs.ArmTable.{decoded_arm};
ghost use Rattle.arm_words.specs.ThumbTable.{decoded_thumb};

use crate::caches::DecodeCache;
use arm_ops::Operation;
use std::alloc::{AllocError, Global};
use std::marker::Model;

/// Decodes words of ARM code and halves of Thumb code of ARMv5 where VERSION is 5, and otherwise of ARMv4, makes their operations, and keeps what it
/// made last. Contracts see nothing of it: one decoder is as any other, and none is another after a call, whatever it keeps.
#[derive(Drop)]
pub struct Decoder<const VERSION: u32> {
    words: DecodeCache<VERSION, 32>,
    halves: DecodeCache<VERSION, 16>,
}

impl<const VERSION: u32> Model for Decoder<VERSION> {
    ghost Value = { Unit {0} };

    ghost view = { λ d. tt };
}

impl<const VERSION: u32> Decoder<VERSION> {
    /// A decoder, which keeps the word 0 and the half 0 at each of their places. All its memory is taken here, and it refuses only for want of that.
    pub fn new(alloc: Global) -> Result<Decoder<VERSION>, AllocError> {
        Ok(Decoder {
            words: DecodeCache::new(alloc)?,
            halves: DecodeCache::new(alloc)?,
        })
    }

    /// What a word of ARM code at an address stands for, or none, as `decode_arm` of `arm_words` has it, as an operation. The address tells where it
    /// is kept and nothing else.
    #[inline(always)]
    #[tactic(auto, unfolding(crate::specs::Known::known), using(crate::proofs::Fields::word_operation))]
    pub fn arm_operation(&mut self, at: u32, word: u32) -> &Operation
        ensures operation { result.now ≡ operation_of (decoded_arm (arch_of VERSION) word) }
        ensures fields { HasOperation result.now }
    {
        self.words.learn(at / 4, word);
        self.words.operation(at / 4, word)
    }

    /// What a half of Thumb code at an address stands for, or none, as `decode_thumb` of `arm_words` has it, as an operation. The address tells where
    /// it is kept and nothing else.
    #[inline(always)]
    #[tactic(auto, unfolding(crate::specs::Known::known), using(crate::proofs::Fields::half_operation, crate::proofs::Fields::half_itself))]
    pub fn thumb_operation(&mut self, at: u32, half: u16) -> &Operation
        ensures operation { result.now ≡ operation_of (decoded_thumb (arch_of VERSION) half) }
        ensures fields { HasOperation result.now }
    {
        self.halves.learn(at / 2, half as u32);
        self.halves.operation(at / 2, half as u32)
    }

    /// The same as `arm_operation`, where the word is kept.
    #[inline(always)]
    #[tactic(auto, unfolding(crate::specs::Known::known), using(crate::proofs::Fields::word_operation))]
    pub fn kept_word(&self, at: u32, word: u32) -> Option<&Operation>
        ensures operation { IfSome result (λ operation. operation.now ≡ operation_of (decoded_arm (arch_of VERSION) word)) }
        ensures fields { IfSome result (λ operation. HasOperation operation.now) }
    {
        self.words.kept(at / 4, word)
    }

    /// The same as `thumb_operation`, where the half is kept.
    #[inline(always)]
    #[tactic(auto, unfolding(crate::specs::Known::known), using(crate::proofs::Fields::half_operation, crate::proofs::Fields::half_itself))]
    pub fn kept_half(&self, at: u32, half: u16) -> Option<&Operation>
        ensures operation { IfSome result (λ operation. operation.now ≡ operation_of (decoded_thumb (arch_of VERSION) half)) }
        ensures fields { IfSome result (λ operation. HasOperation operation.now) }
    {
        self.halves.kept(at / 2, half as u32)
    }
}
