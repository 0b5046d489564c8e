//! Entries in bytes.

ghost use Rattle.std.specs.Prelude.{◌≡◌, ◌<◌, ◌≤◌, ◌^◌, length, IfOk, OnOk};
ghost use Rattle.std.specs.List.{AllByRecursion};
ghost use Rattle.ds_state.specs.Formats.{bytes_written, number_code, written_each};
ghost use Rattle.ds_state.specs.Reading.{GivesIn, GivesRead, read_code, read_format, read_list, ruled};
ghost use Rattle.gx_matrix.specs.CommandTable.{command_row};
ghost use Rattle.gx_fifo.specs.Entries.{most_entries};
ghost use Rattle.gx_fifo.specs.Saved.{entry_format, has_command};

use crate::entries::{Entries, GxEntry};
use ds_base::known;
use ds_state::{Packer, Part, Unpacked, Unpacker, put_list};
use gx_matrix::GeometryCommand;
use std::alloc::{AllocError, Global};

impl Part for GxEntry {
    ghost use Rattle.ds_state.specs.Formats.{bytes_written};
    ghost use Rattle.ds_state.specs.Reading.{read_format};
    ghost use Rattle.gx_fifo.specs.Saved.{entry_format};
    ghost use Rattle.gx_fifo.specs.declared.entries.GxEntry.{GxEntry};

    ghost State = { GxEntry };

    ghost state = { λ e. e };

    ghost reader = { read_format entry_format };

    ghost writer = { bytes_written entry_format };

    #[tactic(auto, unfolding(crate::specs::Saved::entry_format))]
    fn put(&self, into: &mut Packer) -> Result<(), AllocError> {
        into.put_u8(self.command.code())?;
        into.put_u32(self.word)?;
        Ok(())
    }

    #[tactic(auto, using(crate::proofs::Codes::first_again), unfolding(crate::specs::Saved::entry_format))]
    fn take(from: &mut Unpacker, at: u64) -> Result<GxEntry, Unpacked> {
        let command = take_command(from)?;
        let word = from.take_u32()?;
        Ok(GxEntry { command, word })
    }
}

/// Takes the command of a code that has one.
fn take_command(from: &mut Unpacker) -> Result<GeometryCommand, Unpacked>
    ensures { GivesRead (λ c. (command_row c).code) result from.new (ruled (has_command 0) from.old (read_code (number_code 1) from.old)) }
{
    let offset = from.place();
    match GeometryCommand::of(from.take_u8()?) {
        Some(command) => Ok(command),
        None => Err(Unpacked::Bad { offset }),
    }
}

fn is_word(word: u32)
    ensures { word < 2 ^ 32 }
{}

/// Does nothing; its contract states that each entry's word is a word.
#[tactic(auto, using(crate::proofs::Walks::all_words))]
fn are_words(entries: &[GxEntry])
    ensures { AllByRecursion (λ e. e.word < 2 ^ 32) entries.now }
{
    for entry in entries {
        is_word(entry.word);
    }
}

/// Takes so many entries.
pub fn take_entries(
    alloc: Global,
    from: &mut Unpacker,
    count: u16,
    at: u64,
) -> Result<Entries, Unpacked>
    requires { count ≤ most_entries }
    ensures reads { GivesIn (λ e. e) result from.new (read_list (read_format entry_format at) count from.old) }
    ensures long { IfOk result (λ e. length e ≡ count) }
{
    let mut entries = Entries::new(alloc)?;
    for _ in 0..count {
        let entry = GxEntry::take(from, at)?;
        entries.add(entry);
    }
    Ok(entries)
}

impl Entries {
    /// Puts the entries, the oldest first.
    pub fn put(&self, into: &mut Packer) -> Result<(), AllocError>
        ensures { OnOk result (into.new ≡ written_each (bytes_written entry_format) into.old self.now) }
    {
        let (front, back) = self.ring.as_slices();
        put_list(into, front)?;
        put_list(into, back)?;
        Ok(())
    }

    /// Does nothing; its contract states that each entry's word is a word.
    #[tactic(auto, using(crate::proofs::Walks::both_words))]
    pub fn bounds(&self)
        ensures { AllByRecursion (λ e. e.word < 2 ^ 32) self.now }
    {
        let (front, back) = self.ring.as_slices();
        known!(are_words(front));
        known!(are_words(back));
    }
}
