//! Sinks that keep no byte: one that counts what it takes and makes its SHA-256, and one that lets it go.

ghost use Rattle.std.specs.Prelude.{◌≡◌, ◌%◌, ◌^◌, ℕ, List, [], length};
ghost use Rattle.sha2.specs.Sha256.{sha256};
ghost use Rattle.nds_plays.specs.Taken.{HasTaken};

use ds_io::{Failed, Sink};
use sha2::{Digest, Sha256};

/// A sink that counts bytes and hashes them. It never fails.
#[derive(Drop)]
pub struct HashSink {
    count: u64,
    hasher: Sha256,
}

impl HashSink {
    /// A sink that has taken nothing.
    pub fn new() -> HashSink
        ensures { HasTaken result [] }
    {
        HashSink {
            count: 0,
            hasher: Sha256::new(),
        }
    }

    /// How many bytes it has taken, modulo 2^64.
    pub fn count(&self) -> u64
        ensures { (bytes : List ℕ) → HasTaken self.now bytes → result ≡ length bytes % 2 ^ 64 }
    {
        self.count
    }

    /// The SHA-256 of what it has taken (FIPS 180-4).
    pub fn digest(self) -> [u8; 32]
        ensures { (bytes : List ℕ) → HasTaken self bytes → result ≡ sha256 bytes }
    {
        self.hasher.finalize()
    }
}

impl Sink for HashSink {
    ghost use Rattle.std.specs.Prelude.{◌^◌, true, refl};
    ghost use Rattle.nds_plays.specs.Taken.{HasTaken};

    ghost tells = { λ _. true };

    ghost taken = { λ s had. HasTaken s had };

    ghost room = { λ _. 2 ^ 64 };

    ghost faults = { λ _. 0 };

    ghost roomy = { λ _ _. refl };

    fn put(&mut self, bytes: &[u8]) -> Result<usize, Failed> {
        self.count = self.count.wrapping_add(bytes.len() as u64);
        self.hasher.update(bytes);
        Ok(bytes.len())
    }
}

/// A sink that lets go of all that it takes. It never fails.
#[derive(Drop)]
pub struct Nowhere;

impl Sink for Nowhere {
    ghost use Rattle.std.specs.Prelude.{false, ⊤};
    ghost use Rattle.ds_io.specs.Sinks.{no_room};

    ghost tells = { λ _. false };

    ghost taken = { λ _ _. ⊤ };

    ghost room = { λ _. 0 };

    ghost faults = { λ _. 0 };

    ghost roomy = { λ _ h. no_room false h };

    fn put(&mut self, bytes: &[u8]) -> Result<usize, Failed> {
        Ok(bytes.len())
    }
}
