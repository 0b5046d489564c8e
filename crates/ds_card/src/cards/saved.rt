//! The card in bytes.

ghost use Rattle.std.specs.Prelude.{◌≡◌, true, IfOk, OnOk, List, ℕ};
ghost use Rattle.ds_card.specs.Cards.{is_known};
ghost use Rattle.ds_card.specs.Saved.{CardsAreSaved, card_format, keeps_romctrl, starts_by, takes_by, due_where, starter_number, numbered_starter, taken_of, transfer_numbered};
ghost use Rattle.ds_state.specs.Formats.{array, bytes_written, number_code};
ghost use Rattle.ds_state.specs.Reading.{GivesRead, read_code, read_format, ruled};

use super::{Card, NextWord, Transfer, is_known, word_of};
use crate::ports;
use crate::serials::Serial;
use ds_base::{Proc, Tick};
use ds_state::{Packer, Unpacked, Unpacker, holds};
use std::alloc::AllocError;

/// Takes ROMCTRL as it is kept.
fn take_romctrl(from: &mut Unpacker) -> Result<[u8; 4], Unpacked>
    ensures reads { GivesRead (λ port. port) result from.new (ruled (keeps_romctrl 0) from.old (read_code (array 4) from.old)) }
    ensures kept { IfOk result (λ port. keeps_romctrl 0 port ≡ true) }
{
    let offset = from.place();
    let mut port = [0; 4];
    holds(from.take_into(&mut port), offset)?;
    holds(port[2] < 128 && port[3] < 128, offset)?;
    Ok(port)
}

/// Takes the command.
fn take_command(from: &mut Unpacker) -> Result<[u8; 8], Unpacked>
    ensures { GivesRead (λ command. command) result from.new (read_code (array 8) from.old) }
{
    let offset = from.place();
    let mut command = [0; 8];
    holds(from.take_into(&mut command), offset)?;
    Ok(command)
}

/// Takes who started the transfer.
fn take_starter(from: &mut Unpacker, command: &[u8; 8]) -> Result<u8, Unpacked>
    ensures reads { GivesRead (λ starter. starter) result from.new
        (ruled (starts_by command.now 0) from.old (read_code (number_code 1) from.old)) }
    ensures ruled { IfOk result (λ starter. starts_by command.now 0 starter ≡ true) }
{
    let offset = from.place();
    let starter = from.take_u8()?;
    holds(starter == 0 || starter < 3 && is_known(command[0]), offset)?;
    Ok(starter)
}

/// Whether so many words may have been taken, of a block of so many.
fn may_have_taken(words: u32, starter: u8, taken: u32) -> bool
    ensures { result ≡ takes_by words starter 0 taken }
{
    if starter == 0 {
        taken == 0
    } else {
        words == 0 || taken < words
    }
}

/// Whether a transfer may be due so.
fn may_be_due(words: u32, starter: u8, taken: u32, due: Option<u64>) -> bool
    ensures { result ≡ due_where words starter taken due }
{
    if starter == 0 {
        due.is_none()
    } else {
        words != 0 || taken == 0 && due.is_some()
    }
}

fn starter_number(starter: Option<Proc>) -> u8
    ensures { result ≡ starter_number starter }
{
    match starter {
        None => 0,
        Some(Proc::Nine) => 1,
        Some(Proc::Seven) => 2,
    }
}

fn numbered_starter(number: u8) -> Option<Proc>
    ensures { result ≡ numbered_starter number }
{
    match number {
        1 => Some(Proc::Nine),
        2 => Some(Proc::Seven),
        _ => None,
    }
}

/// The transfer of a starter, with the word that is ready where it isn't due.
fn transfer_numbered(
    starter: Option<Proc>,
    taken: u32,
    word: u32,
    due: Option<u64>,
) -> Option<Transfer>
    ensures { result ≡ transfer_numbered starter taken word due }
{
    let next = match due {
        Some(due) => NextWord::Due(Tick(due)),
        None => NextWord::Ready(word),
    };
    Some(Transfer {
        starter: starter?,
        taken,
        next,
    })
}

impl Card {
    fn taken(&self) -> u32
        ensures { result ≡ taken_of self.now.transfer }
    {
        match self.transfer {
            Some(transfer) => transfer.taken,
            None => 0,
        }
    }

    /// Puts each processor's AUXSPICNT, ROMCTRL without the bits that show how a transfer stands, the command, the transfer's starter and
    /// how many words it took, and the due tick, 29 bytes. The error is want of memory.
    #[tactic(auto, unfolding(crate::specs::Saved::card_format))]
    pub fn pack(&self, into: &mut Packer) -> Result<(), AllocError>
        ensures { (file : List ℕ) → OnOk result (into.new ≡ bytes_written (card_format file) into.old self.now) }
    {
        into.put_bytes(self.nine.bytes())?;
        into.put_bytes(self.seven.bytes())?;
        into.put_bytes(&self.romctrl)?;
        into.put_bytes(&self.command)?;
        into.put_u8(starter_number(self.starter()))?;
        into.put_u32(self.taken())?;
        into.put_tick(Tick::number_of(self.due()))?;
        Ok(())
    }

    /// Takes what `pack` puts; a word that is ready is that of the cartridge's file. The error is where the first field begins that isn't whole or
    /// breaks its rule: bits that aren't kept; a starter that there isn't, or one whose command is left out; words taken without a transfer, or all
    /// of its block's; a due tick that isn't soon, or without a transfer; and of a block without words one that isn't there, or words taken.
    #[tactic(auto, unfolding(crate::specs::Saved::card_format))]
    pub fn unpack(from: &mut Unpacker, at: Tick, file: &[u8]) -> Result<Card, Unpacked>
        ensures { GivesRead (λ c. c) result from.new (read_format (card_format file.now) at.0 from.old) }
    {
        let nine = Serial::take(from)?;
        let seven = Serial::take(from)?;
        let romctrl = take_romctrl(from)?;
        let command = take_command(from)?;
        let starter = take_starter(from, &command)?;
        let words = ports::block_words(&romctrl);
        let offset = from.place();
        let taken = from.take_u32()?;
        holds(may_have_taken(words, starter, taken), offset)?;
        let offset = from.place();
        let due = from.take_due(at.0)?;
        holds(may_be_due(words, starter, taken, due), offset)?;
        let word = word_of(file, &command, taken);
        Ok(Card {
            nine,
            seven,
            romctrl,
            command,
            transfer: transfer_numbered(numbered_starter(starter), taken, word, due),
        })
    }
}

/// Does nothing; its contract states that the card's bytes at a tick are read as it was, whatever stands behind them, where a word that is ready
/// is the file's and no due tick is earlier; that bytes which are read are those of what is read; and that a word that is ready stays the
/// file's, whatever is written, read or comes.
#[tactic(auto, using(crate::proofs::SavedLaws::cards_saved))]
pub fn saved_laws()
    ensures { CardsAreSaved }
{}
