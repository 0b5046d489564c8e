//! A list with room for a number of elements, which it takes at once.

ghost use Rattle.std.specs.Prelude.{◌≡◌, ◌<◌, ◌++◌, ◌∷◌, [], length, IfOk};

use std::alloc::{AllocError, Global};
use std::marker::Model;

/// A list of at most N elements, whose memory is taken when it is made. Contracts see it as the list of its elements.
#[derive(Drop)]
pub struct Capped<T: Copy + Drop, const N: usize> {
    items: Vec<T>,
}

impl<T: Copy + Drop, const N: usize> Model for Capped<T, N> {
    ghost use Rattle.std.specs.Prelude.{List, ◌≤◌, vec_capacity, vec_len};

    ghost Value = { List T };

    ghost view = { λ c. c.items.items };

    ghost invariant = { λ c. (N ≤ vec_capacity c.items) × (vec_len c.items ≤ N) };
}

impl<T: Copy + Drop, const N: usize> Capped<T, N> {
    /// The empty list, with all its memory.
    pub fn new(alloc: Global) -> Result<Capped<T, N>, AllocError>
        ensures { IfOk result (λ c. c ≡ []) }
    {
        let items = Vec::with_capacity(alloc, N)?;
        Ok(Capped { items })
    }

    /// Adds an element at the end.
    pub fn push(&mut self, item: T)
        requires { length self.old < N }
        ensures { self.new ≡ self.old ++ item ∷ [] }
    {
        match self.items.push(item) {
            Ok(()) => (),
            Err(_) => unreachable!(),
        }
    }

    /// Takes all elements out.
    pub fn clear(&mut self)
        ensures { self.new ≡ [] }
    {
        self.items.clear();
    }

    /// The elements.
    pub fn as_slice(&self) -> &[T]
        ensures { result.now ≡ self.now }
    {
        self.items.as_slice()
    }
}
