//! Packed words, taken apart into entries.

ghost use Rattle.std.specs.Prelude.{◌≡◌, ◌<◌, ◌≤◌, ◌+◌, ◌^◌, ◌∷◌, ◌++◌, true, length, drop, map, option_to_list, [], Some, IfOk};
ghost use Rattle.gx_matrix.specs.CommandTable.{command_of};
ghost use Rattle.gx_fifo.specs.Entries.{words_taken, entries_taken, most_entries};
ghost use Rattle.gx_fifo.specs.PackedWords.{added_by, bytes_left, first_command, first_parameters, fifo_at_boot, is_given, packed_commands, without_word, unpacked, word_taken, entry_added};
ghost use Rattle.gx_fifo.specs.Unpacking.{stops_at};

mod saved;

use crate::entries::{Entries, GxEntry};
use arrayvec::ArrayVec;
use gx_matrix::GeometryCommand;
pub use saved::take_left;
use std::alloc::{AllocError, Global};
use std::marker::Model;

/// The entries that wait, and what is left of the last packed word: its upper bytes, the lowest of them the code of the command that was given
/// some of its parameters; 0 where none waits for any.
#[derive(Drop)]
pub struct Fifo {
    entries: Entries,
    packed: u32,
    given: u8,
}

impl Model for Fifo {
    ghost use Rattle.std.specs.Prelude.{◌≡◌, ◌<◌, ◌≤◌, ◌^◌, true, length};
    ghost use Rattle.gx_fifo.specs.Entries.{most_entries};
    ghost use Rattle.gx_fifo.specs.PackedWords.{FifoState, is_given};

    ghost Value = { FifoState };

    ghost view = { λ f. record { entries = f.entries; packed = f.packed; given = f.given } };

    ghost invariant = { λ f. (f.packed < 2 ^ 32) × (f.given < 32) × (is_given f.packed f.given ≡ true)
        × (length f.entries ≤ most_entries) };
}

/// The command of the first byte.
fn first_command(word: u32) -> Option<GeometryCommand>
    ensures { result ≡ first_command word }
{
    GeometryCommand::of((word & 0xFF) as u8)
}

/// How many parameters the command of the first byte has.
fn first_parameters(word: u32) -> u8
    ensures value { result ≡ first_parameters word }
    ensures within { result ≤ 32 }
{
    match first_command(word) {
        None => 0,
        Some(command) => command.parameters(),
    }
}

/// Whether nothing is left, or a command that has parameters stands first.
fn stops_at(word: u32) -> bool
    ensures { result ≡ stops_at word }
{
    word == 0 || first_parameters(word) != 0
}

/// The command of the first byte becomes an entry without a parameter.
fn add_first(entries: &mut Entries, word: u32)
    requires { length entries.old + length (option_to_list (first_command word)) ≤ most_entries }
    ensures { entries.new ≡ entries.old ++ map without_word (option_to_list (first_command word)) }
{
    if let Some(command) = first_command(word) {
        entries.add(GxEntry { command, word: 0 });
    }
}

/// The commands at the front of a packed word that have no parameters become entries. What is left of the word.
fn unpack(entries: &mut Entries, word: u32) -> u32
    requires room { length entries.old + length (packed_commands word) ≤ most_entries }
    ensures entries { entries.new ≡ entries.old ++ added_by word }
    ensures left { result ≡ bytes_left word }
    ensures given { is_given result 0 ≡ true }
{
    let mut left = word;
    while !stops_at(left) {
        add_first(entries, left);
        left >>= 8;
    }
    left
}

impl Fifo {
    /// Nothing waits, and nothing is left; this takes all memory.
    pub fn new(alloc: Global) -> Result<Fifo, AllocError>
        ensures { IfOk result (λ f. f ≡ fifo_at_boot) }
    {
        let entries = Entries::new(alloc)?;
        Ok(Fifo {
            entries,
            packed: 0,
            given: 0,
        })
    }

    /// The entries that wait.
    pub fn entries(&self) -> &Entries
        ensures value { result.now ≡ self.now.entries }
        ensures within { length self.now.entries ≤ most_entries }
        ensures packed { self.now.packed < 2 ^ 32 }
        ensures given { is_given self.now.packed self.now.given ≡ true }
    {
        &self.entries
    }

    /// A word that is written to the FIFO's port.
    #[tactic(auto, using(crate::proofs::Unpacks::four_commands))]
    pub fn take_word(&mut self, word: u32)
        requires room { length self.old.entries + 4 ≤ most_entries }
        ensures state { self.new ≡ word_taken word self.old }
        ensures packed { self.old.packed < 2 ^ 32 }
    {
        match first_command(self.packed) {
            None => self.take_packed(word),
            Some(command) => self.take_parameter(command, word),
        }
    }

    /// A packed word, or what is left of one behind a command.
    #[tactic(auto, unfolding(crate::specs::PackedWords::unpacked))]
    fn take_packed(&mut self, word: u32)
        requires room { length self.old.entries + length (packed_commands word) ≤ most_entries }
        ensures state { self.new ≡ unpacked self.old.entries word }
    {
        self.packed = unpack(&mut self.entries, word);
        self.given = 0;
    }

    /// A parameter of the command that waits for it.
    fn take_parameter(&mut self, command: GeometryCommand, word: u32)
        requires room { length self.old.entries + 4 ≤ most_entries }
        requires first { first_command self.old.packed ≡ Some command }
        ensures state { self.new ≡ word_taken word self.old }
    {
        self.entries.add(GxEntry { command, word });
        if command.parameters() <= self.given + 1 {
            self.take_packed(self.packed >> 8);
        } else {
            self.given += 1;
        }
    }

    /// A word that is written to a command's own port.
    pub fn add(&mut self, code: u8, word: u32)
        requires room { length self.old.entries < most_entries }
        ensures { self.new ≡ entry_added (command_of code) word self.old }
    {
        if let Some(command) = GeometryCommand::of(code) {
            self.entries.add(GxEntry { command, word });
        }
    }

    /// The entries of the head command leave, and give its parameters.
    pub fn take(&mut self, command: GeometryCommand) -> ArrayVec<u32, 32>
        ensures words { result.items ≡ words_taken command self.old.entries }
        ensures rest { self.new ≡ record self.old { entries = drop (entries_taken command) self.old.entries } }
    {
        self.entries.take(command)
    }
}
