//! What is left of a packed word in bytes.

ghost use Rattle.std.specs.Prelude.{◌≡◌, ◌≤◌, ◌-◌, true, length, IfOk};
ghost use Rattle.ds_state.specs.Formats.{number_code};
ghost use Rattle.ds_state.specs.Reading.{GivesRead, read_code, ruled};
ghost use Rattle.gx_fifo.specs.Entries.{most_entries};
ghost use Rattle.gx_fifo.specs.PackedWords.{first_parameters};
ghost use Rattle.gx_fifo.specs.Saved.{are_left, parameters_left};

use crate::entries::Entries;
use crate::packed::{Fifo, first_parameters};
use ds_state::{Unpacked, Unpacker, holds};

/// Takes how many parameters the command that waits has left: from one to all of them, and none where no byte is left.
pub fn take_left(from: &mut Unpacker, packed: u32) -> Result<u8, Unpacked>
    ensures reads { GivesRead (λ n. n) result from.new (ruled (are_left packed 0) from.old (read_code (number_code 1) from.old)) }
    ensures left { IfOk result (λ n. are_left packed 0 n ≡ true) }
{
    let offset = from.place();
    let left = from.take_u8()?;
    holds(
        packed == 0 && left == 0 || left >= 1 && left <= first_parameters(packed),
        offset,
    )?;
    Ok(left)
}

impl Fifo {
    /// These entries, and what is left of a packed word, whose first command has so many parameters left.
    #[tactic(auto, using(crate::proofs::SavedLaws::left_given, crate::proofs::SavedLaws::left_below, crate::proofs::SavedLaws::left_within))]
    pub fn of(entries: Entries, packed: u32, left: u8) -> Fifo
        requires few { length entries ≤ most_entries }
        requires left { are_left packed 0 left ≡ true }
        ensures { result ≡ record { entries = entries; packed = packed; given = first_parameters packed - left } }
    {
        Fifo {
            entries,
            packed,
            given: first_parameters(packed) - left,
        }
    }

    /// What is left of the last packed word.
    pub fn packed(&self) -> u32
        ensures { result ≡ self.now.packed }
    {
        self.packed
    }

    /// How many parameters its first command has left.
    #[tactic(auto, using(crate::proofs::SavedLaws::given_within))]
    pub fn parameters_left(&self) -> u8
        ensures { result ≡ parameters_left self.now }
    {
        first_parameters(self.packed) - self.given
    }
}
