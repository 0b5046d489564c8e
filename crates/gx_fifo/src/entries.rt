//! The entries that wait, in a ring, with how many of them GXSTAT asks for.

ghost use Rattle.std.specs.Prelude.{◌≡◌, ◌<◌, ◌≤◌, ◌∷◌, ◌++◌, [], cond, drop, length, map, option_map, take, slice_get, Some, IfOk};
ghost use Rattle.gx_matrix.specs.CommandTable.{command_row};
ghost use Rattle.gx_fifo.specs.Entries.{is_tested, is_stacked, kind_waits, complete_command, entries_taken, words_taken, most_entries};

mod saved;

use arrayvec::ArrayVec;
use circular_buffer::HeapCircularBuffer;
use gx_matrix::GeometryCommand;
pub use saved::take_entries;
use std::alloc::{AllocError, Global};
use std::marker::Model;

/// How many entries there is room for: the 260 that don't stall ARM9, and the 64 that one instruction adds at most.
pub const ENTRIES: u16 = 324;

/// A command, or one parameter of it, that waits.
#[derive(Clone, Copy)]
pub struct GxEntry {
    /// The command that it was written for.
    pub command: GeometryCommand,
    /// The parameter; 0 where a packed command has none.
    pub word: u32,
}

/// The entries that wait. Contracts see them as a list, the oldest first.
#[derive(Drop)]
pub struct Entries {
    ring: HeapCircularBuffer<GxEntry>,
    tests: u16,
    stacks: u16,
}

impl Model for Entries {
    ghost use Rattle.std.specs.Prelude.{List, ◌≡◌, ◌≤◌, length, count_by};
    ghost use Rattle.gx_fifo.specs.Entries.{is_test_entry, is_stack_entry, most_entries};
    ghost use Rattle.gx_fifo.specs.declared.entries.GxEntry.{GxEntry};

    ghost Value = { List GxEntry };

    ghost view = { λ e. e.ring.items };

    ghost invariant = { λ e. (e.ring.capacity ≡ most_entries) × (length e.ring.items ≤ most_entries)
        × (e.tests ≡ count_by is_test_entry e.ring.items) × (e.stacks ≡ count_by is_stack_entry e.ring.items) };
}

/// Whether a command is a test.
fn is_test(command: GeometryCommand) -> bool
    ensures { result ≡ is_tested command }
{
    matches!(
        command,
        GeometryCommand::BoxTest | GeometryCommand::PosTest | GeometryCommand::VecTest
    )
}

/// Whether a command is a push or a pop.
fn is_stack(command: GeometryCommand) -> bool
    ensures { result ≡ is_stacked command }
{
    matches!(command, GeometryCommand::MtxPush | GeometryCommand::MtxPop)
}

fn one_if(holds: bool) -> u16
    ensures value { result ≡ cond holds 1 0 }
    ensures within { result ≤ 1 }
{
    if holds { 1 } else { 0 }
}

/// How many entries a command takes.
pub fn entries_taken(command: GeometryCommand) -> u8
    ensures value { result ≡ entries_taken command }
    ensures within { result ≤ 32 }
{
    match command.parameters() {
        0 => 1,
        more => more,
    }
}

impl Entries {
    /// No entry; this takes the memory of all.
    pub fn new(alloc: Global) -> Result<Entries, AllocError>
        ensures { IfOk result (λ e. e ≡ []) }
    {
        let ring = HeapCircularBuffer::with_capacity(alloc, ENTRIES as usize)?;
        Ok(Entries {
            ring,
            tests: 0,
            stacks: 0,
        })
    }

    /// How many wait.
    pub fn count(&self) -> u32
        ensures value { result ≡ length self.now }
        ensures within { result ≤ most_entries }
    {
        self.ring.len() as u32
    }

    /// Adds an entry at the end.
    #[tactic(auto, using(crate::proofs::Counts::counted_last, crate::proofs::Counts::counted_within))]
    pub fn add(&mut self, entry: GxEntry)
        requires { length self.old < most_entries }
        ensures { self.new ≡ self.old ++ entry ∷ [] }
    {
        self.tests += one_if(is_test(entry.command));
        self.stacks += one_if(is_stack(entry.command));
        self.ring.push_back(entry);
    }

    /// The word of the oldest entry, which leaves.
    #[tactic(auto, using(crate::proofs::Counts::counted_first))]
    fn next(&mut self) -> Option<u32>
        ensures word { result ≡ option_map (λ e. e.word) (slice_get self.old 0) }
        ensures rest { self.new ≡ drop 1 self.old }
    {
        match self.ring.pop_front() {
            None => None,
            Some(entry) => {
                self.tests -= one_if(is_test(entry.command));
                self.stacks -= one_if(is_stack(entry.command));
                Some(entry.word)
            }
        }
    }

    /// The head command, where all its entries wait.
    pub fn complete(&self) -> Option<GeometryCommand>
        ensures { result ≡ complete_command self.now }
    {
        match self.ring.front() {
            Some(entry) if entries_taken(entry.command) as usize <= self.ring.len() => {
                Some(entry.command)
            }
            _ => None,
        }
    }

    /// So many of the oldest entries leave, and give their words.
    fn take_words(&mut self, count: u8) -> ArrayVec<u32, 32>
        requires { count ≤ 32 }
        ensures words { result.items ≡ map (λ e. e.word) (take count self.old) }
        ensures rest { self.new ≡ drop count self.old }
    {
        let mut words = ArrayVec::new();
        let mut wanted = count;
        while wanted != 0 {
            match self.next() {
                None => (),
                Some(word) => words.push(word),
            }
            wanted -= 1;
        }
        words
    }

    /// The entries of the head command leave, and give its parameters.
    pub fn take(&mut self, command: GeometryCommand) -> ArrayVec<u32, 32>
        ensures words { result.items ≡ words_taken command self.old }
        ensures rest { self.new ≡ drop (entries_taken command) self.old }
    {
        let words = self.take_words(command.parameters());
        if command.parameters() == 0 {
            let _without = self.next();
        }
        words
    }

    /// Whether a test waits.
    #[tactic(auto, using(crate::proofs::Counts::some_counted))]
    pub fn has_test(&self) -> bool
        ensures { result ≡ kind_waits is_tested self.now }
    {
        self.tests != 0
    }

    /// Whether a push or a pop waits.
    #[tactic(auto, using(crate::proofs::Counts::some_counted))]
    pub fn has_stack(&self) -> bool
        ensures { result ≡ kind_waits is_stacked self.now }
    {
        self.stacks != 0
    }
}
