//! Numbered calls, some of which are to fail.

ghost use Rattle.std.specs.Prelude.{◌≡◌, ◌<◌, ◌≤◌, ◌-◌, ◌^◌, ◌++◌, ◌∷◌, ◌==◌, [], IsTrue, OnOk, OnErr};
ghost use Rattle.std.specs.List.{list_any};
ghost use Rattle.ds_io.specs.Faults.{Rose};
ghost use Rattle.ds_io.specs.Numbered.{IsNextCall, called, fails_now, fault_count};

use std::alloc::{AllocError, Global};
use std::marker::Model;

/// The numbers of the calls of an object that are to fail. They rise, and begin at 1. Contracts see them as their list.
#[derive(Drop)]
pub struct Calls {
    numbers: Vec<u64>,
}

impl Model for Calls {
    ghost use Rattle.std.specs.Prelude.{ℕ, List};
    ghost use Rattle.ds_io.specs.Numbered.{AreCalls};

    ghost Value = { List ℕ };

    ghost view = { λ c. c.numbers.items };

    ghost invariant = { λ c. AreCalls c.numbers.items };
}

impl Calls {
    /// No call is to fail. It takes no memory.
    pub fn new(alloc: Global) -> Calls
        ensures { result ≡ [] }
    {
        Calls {
            numbers: Vec::new(alloc),
        }
    }

    /// Adds the number of a call at the end. For want of memory the numbers stay as they were.
    pub fn push(&mut self, call: u64) -> Result<(), AllocError>
        requires rises { IsNextCall self.old call }
        requires below { call < 2 ^ 64 - 1 }
        ensures ok { OnOk result (self.new ≡ self.old ++ call ∷ []) }
        ensures err { OnErr result (self.new ≡ self.old) }
    {
        self.numbers.push(call)?;
        Ok(())
    }

    /// Whether a number is among them.
    fn contains(&self, call: u64) -> bool
        ensures among { result ≡ list_any (λ c. c == call) self.now }
        ensures below { IsTrue result → call < 2 ^ 64 - 1 }
    {
        self.numbers.contains(&call)
    }
}

/// The calls of an object so far.
#[derive(Drop)]
pub(crate) struct Numbering {
    fails: Calls,
    made: u64,
}

impl Model for Numbering {
    ghost use Rattle.std.specs.Prelude.{◌<◌, ◌^◌};
    ghost use Rattle.ds_io.specs.Numbered.{Numbered};

    ghost Value = { Numbered };

    ghost view = { λ n. record { fails = n.fails; made = n.made } };

    ghost invariant = { λ n. n.made < 2 ^ 64 };
}

impl Numbering {
    /// No call was made yet.
    pub(crate) fn new(fails: Calls) -> Numbering
        ensures { result ≡ record { fails = fails; made = 0 } }
    {
        Numbering { fails, made: 0 }
    }

    /// Counts a call, and says whether it is to fail.
    pub(crate) fn call(&mut self) -> bool
        ensures next { self.new ≡ called self.old }
        ensures fails { result ≡ fails_now self.new }
        ensures cause { IsTrue result → Rose (fault_count self.old) (fault_count self.new) }
        ensures later { fault_count self.old ≤ fault_count self.new }
    {
        self.made = self.made.saturating_add(1);
        self.fails.contains(self.made)
    }
}
