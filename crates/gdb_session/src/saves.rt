//! States that are kept for the ways back.

ghost use Rattle.std.specs.Prelude.{◌≡◌, ◌++◌, ◌∷◌, ◌≤◌, [], ℕ, All, Contains, IfSome};

use std::alloc::{AllocError, Global};

/// How much work there is between two states: steps of processors, and of all other actors.
const FIRST_GAP: u64 = 500_000;

/// The most states that are kept.
const MOST_SAVES: usize = 64;

/// A state that is kept.
#[derive(Drop)]
pub struct Save {
    /// Its place in time.
    pub at: u64,
    /// How much work was done up to it.
    work: u64,
    /// The state in bytes.
    pub bytes: Vec<u8>,
}

/// States that are kept, the earliest first, which is the one at tick 0. Of too many every other one goes, and the gap between them doubles.
#[derive(Drop)]
pub struct Saves {
    all: Vec<Save>,
    gap: u64,
}

impl Saves {
    /// None is kept.
    pub fn new(alloc: Global) -> Saves
        ensures { result.all.items ≡ [] }
    {
        Saves {
            all: Vec::new(alloc),
            gap: FIRST_GAP,
        }
    }

    /// How many are kept.
    pub fn len(&self) -> usize {
        self.all.len()
    }

    /// Whether a state is to be kept, by its place in time and the work up to it.
    pub fn wants(&self, at: u64, work: u64) -> bool {
        match self.all.last() {
            None => true,
            Some(last) => at > last.at && work >= last.work.saturating_add(self.gap),
        }
    }

    /// Keeps a state behind the others. Those that stand there then were there, or it is the one.
    pub fn push(&mut self, at: u64, work: u64, bytes: Vec<u8>) -> Result<(), AllocError>
        ensures { All (Contains (self.old.all.items ++ record { at = at; work = work; bytes = bytes } ∷ [])) self.new.all.items }
    {
        if self.all.len() >= MOST_SAVES {
            self.thin();
        }
        self.all.push(Save { at, work, bytes })?;
        Ok(())
    }

    /// Takes every other one away.
    fn thin(&mut self)
        ensures { All (Contains self.old.all.items) self.new.all.items }
    {
        self.gap = self.gap.saturating_mul(2);
        'places: for place in 1..MOST_SAVES {
            if place < self.all.len() {
                let _gone = self.all.remove(place);
            }
        }
    }

    /// The last one that isn't after a tick.
    pub fn before(&self, at: u64) -> Option<&Save>
        ensures there { IfSome result (λ save. Contains self.now.all.items save.now) }
        ensures early { IfSome result (λ save. save.now.at ≤ at) }
    {
        let mut found = None;
        'saves: for save in self.all.iter() {
            if save.at <= at {
                found = Some(save);
            }
        }
        found
    }
}
