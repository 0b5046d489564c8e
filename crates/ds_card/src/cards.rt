//! The card, and the calls of its users.

ghost use Rattle.std.specs.Prelude.{◌≡◌, ◌≤◌, ◌+◌, ◌^◌, ◌&&◌, not, true, IfSome, IsSome, Some, None, slice_index_or};
ghost use Rattle.ds_base.specs.Processors.{raised_at};
ghost use Rattle.ds_base.specs.Schedules.{IsEarly, Reschedules};
ghost use Rattle.ds_base.specs.Numbers.{value_by, width_bytes};
ghost use Rattle.ds_card.specs.CardPorts.{overwritten, romctrl_at, starts_at};
ghost use Rattle.ds_card.specs.Cards.{IsCard, is_busy, card_at_boot, card_kept, card_taken, start_refusal, card_written, card_value, card_after_read, port_byte_of, card_word, read_raised, card_due, card_due_for, card_starter, card_after_event, next_word_after, end_interrupt, event_readies, event_raised, is_known, is_ready, last_raised, none_raised, ports_written, taken_by};
ghost use Rattle.ds_card.specs.Saved.{KeepsAuxspicnt};

mod saved;

use crate::ports;
use crate::serials::Serial;
use ds_base::{Interrupt, LeftKind, Proc, Raised, Stop, Tick, Width, known};
pub use saved::saved_laws;
use std::marker::Model;

/// After so many ticks a word is ready, counted from the start, or from when the word before it was taken. (Our choice.)
const WORD_TICKS: u64 = 40;

/// The next word of a transfer.
#[derive(Clone, Copy, PartialEq, Eq)]
pub enum NextWord {
    /// It is ready from this tick on.
    Due(Tick),
    /// It is ready to be taken.
    Ready(u32),
}

/// A transfer that is busy.
#[derive(Clone, Copy, PartialEq, Eq)]
pub struct Transfer {
    /// The processor that started it, which alone takes its words.
    pub starter: Proc,
    /// How many words were taken.
    pub taken: u32,
    /// The next one.
    pub next: NextWord,
}

/// What a read gives.
#[derive(Clone, Copy, PartialEq, Eq)]
pub struct CardRead {
    /// The value, below 2^(8 bytes of its width).
    pub value: u32,
    /// The interrupt of a transfer that ends with it.
    pub raised: Raised,
}

/// What the card's event makes.
#[derive(Clone, Copy, PartialEq, Eq)]
pub struct CardDone {
    /// Whether a word is ready, for which the starter's DMA waits.
    pub ready: bool,
    /// The interrupt of a transfer that ends with it.
    pub raised: Raised,
}

/// The card's port. Contracts see its registers' bytes as they are kept, and the transfer while one is busy.
#[derive(Drop)]
pub struct Card {
    nine: Serial,
    seven: Serial,
    romctrl: [u8; 4],
    command: [u8; 8],
    transfer: Option<Transfer>,
}

impl Model for Card {
    ghost use Rattle.ds_card.specs.Cards.{CardState, IsCard};

    ghost Value = { CardState };

    ghost view = { λ c. record { nine = c.nine; seven = c.seven; romctrl = c.romctrl; command = c.command; transfer = c.transfer } };

    ghost invariant = { λ c. IsCard (record { nine = c.nine; seven = c.seven; romctrl = c.romctrl; command = c.command; transfer = c.transfer }) };
}

impl Card {
    /// The card at boot: all registers 0, and no transfer.
    pub fn new() -> Card
        ensures { result ≡ card_at_boot }
    {
        Card {
            nine: Serial::new(),
            seven: Serial::new(),
            romctrl: [0; 4],
            command: [0; 8],
            transfer: None,
        }
    }

    /// When its event comes, None exactly where no transfer is busy or a word is ready.
    pub fn due(&self) -> Option<Tick>
        ensures { result ≡ card_due self.now }
    {
        match self.transfer {
            Some(
                Transfer {
                    next: NextWord::Due(tick),
                    ..
                },
            ) => Some(tick),
            _ => None,
        }
    }

    /// The processor that started the transfer, None exactly where none is busy.
    pub fn starter(&self) -> Option<Proc>
        ensures { result ≡ card_starter self.now }
    {
        self.transfer.map(|it| it.starter)
    }

    /// The same, where a processor started the transfer; None where the other did.
    pub fn due_for(&self, proc: Proc) -> Option<Tick>
        ensures { result ≡ card_due_for proc self.now }
    {
        match self.transfer {
            Some(
                Transfer {
                    starter,
                    next: NextWord::Due(tick),
                    ..
                },
            ) if starter == proc => Some(tick),
            _ => None,
        }
    }

    /// A processor writes at an offset above 4000000h, aligned down to the width. A write that covers ROMCTRL's top byte and sets bit 31
    /// starts a transfer for the writer, where none is busy. It answers the stop exactly where its command is left out; then all stays as
    /// it was.
    pub fn write(
        &mut self,
        proc: Proc,
        at: u32,
        width: Width,
        value: u32,
        now: Tick,
    ) -> Option<Stop>
        requires { IsEarly (Some now) }
        ensures answer { result ≡ start_refusal self.old at width value }
        ensures state { self.new ≡ card_written self.old proc at width value now }
        ensures schedule { Reschedules now (card_due self.old) (card_due self.new) }
    {
        if let Some(stop) = self.refusal(at, width, value) {
            return Some(stop);
        }
        let at = ports::aligned(width, at);
        let starting = self.is_starting(&self.overwritten(width, at, value), width, at);
        self.write_ports(proc, at, width, value);
        if starting {
            self.transfer = Some(Transfer {
                starter: proc,
                taken: 0,
                next: due_after(now),
            });
        }
        None
    }

    /// The stop for which a write is refused: it would start a transfer whose command is left out. It tells ROMCTRL as it was to be written.
    pub fn refusal(&self, at: u32, width: Width, value: u32) -> Option<Stop>
        ensures { result ≡ start_refusal self.now at width value }
    {
        let at = ports::aligned(width, at);
        let raw = self.overwritten(width, at, value);
        if self.is_starting(&raw, width, at) && !is_known(self.command[0]) {
            return Some(Stop {
                kind: LeftKind::CardTransfer,
                value: ports::word(&raw),
            });
        }
        None
    }

    /// ROMCTRL as an access would write it, with the bits that it doesn't keep.
    fn overwritten(&self, width: Width, at: u32, value: u32) -> [u8; 4]
        requires { at + width_bytes width ≤ 2 ^ 32 }
        ensures { result ≡ overwritten romctrl_at self.now.romctrl width at value }
    {
        let mut raw = self.romctrl;
        ports::overwrite(&mut raw, ports::ROMCTRL, width, at, value);
        raw
    }

    /// Whether an access that would write ROMCTRL so starts a transfer.
    fn is_starting(&self, raw: &[u8; 4], width: Width, at: u32) -> bool
        requires { at + width_bytes width ≤ 2 ^ 32 }
        ensures { result ≡ (not (is_busy self.now) && starts_at width at raw.now) }
    {
        self.transfer.is_none() && ports::starts(width, at, raw)
    }

    /// What a processor's read gives at an offset above 4000000h, aligned down to the width, without what the read leaves.
    pub fn value(&self, proc: Proc, at: u32, width: Width) -> u32
        ensures { result ≡ card_value self.now proc at width }
    {
        match self.taken_word(proc, at, width) {
            Some(word) => word,
            None => {
                let romctrl = ports::shown_romctrl(
                    &self.romctrl,
                    self.is_ready(),
                    self.transfer.is_some(),
                );
                self.number(proc, &romctrl, ports::aligned(width, at), width)
            }
        }
    }

    /// What a write of some bytes of a register leaves in the others: ROMCTRL is without the bits that show how a transfer stands.
    pub fn kept(&self, proc: Proc, at: u32, width: Width) -> u32
        ensures { result ≡ card_kept self.now proc at width }
    {
        self.number(proc, &self.romctrl, ports::aligned(width, at), width)
    }

    /// A processor reads at an offset above 4000000h, aligned down to the width. The starter's read of the data port by a whole word takes
    /// the word that is ready; any other changes nothing.
    pub fn read(&mut self, proc: Proc, at: u32, width: Width, now: Tick) -> CardRead
        requires { IsEarly (Some now) }
        ensures value { result.value ≡ card_value self.old proc at width }
        ensures raised { result.raised ≡ read_raised self.old proc at width }
        ensures state { self.new ≡ card_after_read self.old proc at width now }
        ensures schedule { Reschedules now (card_due self.old) (card_due self.new) }
    {
        let value = self.value(proc, at, width);
        let raised = match self.taken_word(proc, at, width) {
            Some(_) => self.take(now),
            None => none_raised(),
        };
        CardRead { value, raised }
    }

    /// The word that a processor's read takes, if it takes one.
    fn taken_word(&self, proc: Proc, at: u32, width: Width) -> Option<u32>
        ensures word { result ≡ card_taken self.now proc at width }
        ensures ready { IfSome result (λ word. is_ready self.now.transfer ≡ true) }
    {
        let transfer = self.transfer?;
        let NextWord::Ready(word) = transfer.next else {
            return None;
        };
        if transfer.starter != proc
            || width != Width::Word
            || ports::aligned(width, at) != ports::DATA
        {
            return None;
        }
        Some(word)
    }

    /// Its event, for the cartridge's file: the next word is ready, or a transfer without words ends.
    pub fn event(&mut self, file: &[u8]) -> CardDone
        requires { IsSome (card_due self.old) }
        ensures ready { result.ready ≡ event_readies self.old }
        ensures raised { result.raised ≡ event_raised self.old }
        ensures state { self.new ≡ card_after_event file.now self.old }
        ensures schedule { card_due self.new ≡ None }
    {
        let none = CardDone {
            ready: false,
            raised: none_raised(),
        };
        let Some(transfer) = self.transfer else {
            return none;
        };
        if ports::block_words(&self.romctrl) == 0 {
            self.transfer = None;
            return CardDone {
                ready: false,
                raised: self.end_raised(transfer.starter),
            };
        }
        let word = word_of(file, &self.command, transfer.taken);
        self.transfer = Some(Transfer {
            starter: transfer.starter,
            taken: transfer.taken,
            next: NextWord::Ready(word),
        });
        CardDone {
            ready: true,
            raised: none_raised(),
        }
    }

    /// Does nothing; its contract states what holds of the card at every time.
    pub fn laws(&self)
        ensures { IsCard self.now }
    {
        let _kept = &self.romctrl;
    }

    /// Does nothing; its contract states that each processor's AUXSPICNT has the kept bits alone at every time.
    pub fn kept_laws(&self)
        ensures nine { KeepsAuxspicnt self.now.nine }
        ensures seven { KeepsAuxspicnt self.now.seven }
    {
        known!(self.nine.laws());
        known!(self.seven.laws());
    }

    fn write_ports(&mut self, proc: Proc, at: u32, width: Width, value: u32)
        requires { at + width_bytes width ≤ 2 ^ 32 }
        ensures { self.new ≡ ports_written self.old proc at width value }
    {
        match proc {
            Proc::Nine => self.nine.write(width, at, value),
            Proc::Seven => self.seven.write(width, at, value),
        }
        if self.transfer.is_none() {
            ports::overwrite(&mut self.romctrl, ports::ROMCTRL, width, at, value);
            ports::keep_romctrl(&mut self.romctrl);
            ports::overwrite(&mut self.command, ports::COMMAND, width, at, value);
        }
    }

    fn end_raised(&self, starter: Proc) -> Raised
        ensures { result ≡ raised_at starter (end_interrupt self.now starter) }
    {
        let port = match starter {
            Proc::Nine => self.nine.bytes(),
            Proc::Seven => self.seven.bytes(),
        };
        let bits = if port[1] / 64 % 2 == 1 {
            Interrupt::CardTransfer.bit()
        } else {
            0
        };
        Raised::at(starter, bits)
    }

    /// Takes the word that is ready.
    fn take(&mut self, now: Tick) -> Raised
        requires early { IsEarly (Some now) }
        requires ready { is_ready self.old.transfer ≡ true }
        ensures raised { result ≡ last_raised self.old self.old.transfer }
        ensures state { self.new ≡ taken_by self.old self.old.transfer now }
    {
        let Some(transfer) = self.transfer else {
            return none_raised();
        };
        if transfer.taken + 1 == ports::block_words(&self.romctrl) {
            self.transfer = None;
            return self.end_raised(transfer.starter);
        }
        self.transfer = Some(Transfer {
            starter: transfer.starter,
            taken: transfer.taken + 1,
            next: due_after(now),
        });
        none_raised()
    }

    /// The number that the bytes of its ports stand for, where ROMCTRL's are these.
    fn number(&self, proc: Proc, romctrl: &[u8; 4], at: u32, width: Width) -> u32
        requires { at + width_bytes width ≤ 2 ^ 32 }
        ensures { result ≡ value_by width (port_byte_of romctrl.now self.now proc) at }
    {
        match width {
            Width::Byte => self.byte(proc, romctrl, at) as u32,
            Width::Half => {
                self.byte(proc, romctrl, at) as u32 + 256 * self.byte(proc, romctrl, at + 1) as u32
            }
            Width::Word => {
                self.byte(proc, romctrl, at) as u32
                    + 256 * self.byte(proc, romctrl, at + 1) as u32
                    + 65536 * self.byte(proc, romctrl, at + 2) as u32
                    + 16777216 * self.byte(proc, romctrl, at + 3) as u32
            }
        }
    }

    fn byte(&self, proc: Proc, romctrl: &[u8; 4], place: u32) -> u8
        ensures { result ≡ port_byte_of romctrl.now self.now proc place }
    {
        let own = match proc {
            Proc::Nine => self.nine.bytes(),
            Proc::Seven => self.seven.bytes(),
        };
        if ports::AUXSPICNT <= place && place < ports::AUXSPICNT + 2 {
            own[(place - ports::AUXSPICNT) as usize]
        } else if ports::ROMCTRL <= place && place < ports::ROMCTRL + 4 {
            romctrl[(place - ports::ROMCTRL) as usize]
        } else if ports::COMMAND <= place && place < ports::COMMAND + 8 {
            self.command[(place - ports::COMMAND) as usize]
        } else {
            0
        }
    }

    fn is_ready(&self) -> bool
        ensures { result ≡ is_ready self.now.transfer }
    {
        match self.transfer {
            Some(
                Transfer {
                    next: NextWord::Ready(_),
                    ..
                },
            ) => true,
            _ => false,
        }
    }
}

fn is_known(first: u8) -> bool
    ensures { result ≡ is_known first }
{
    first == 0xB7 || first == 0xB8
}

fn due_after(now: Tick) -> NextWord
    requires { IsEarly (Some now) }
    ensures { result ≡ next_word_after now }
{
    NextWord::Due(Tick(now.0 + WORD_TICKS))
}

fn none_raised() -> Raised
    ensures { result ≡ none_raised }
{
    Raised { nine: 0, seven: 0 }
}

fn file_byte(file: &[u8], place: u64) -> u32
    ensures { result ≡ slice_index_or file.now place 0 }
{
    match file.get(place as usize) {
        Some(byte) => *byte as u32,
        None => 0,
    }
}

/// The word of a number that a command asks for.
fn word_of(file: &[u8], command: &[u8; 8], number: u32) -> u32
    ensures { result ≡ card_word file.now command.now number }
{
    if command[0] == 0xB8 {
        return 0xFC2;
    }
    let asked = u32::from_be_bytes([command[1], command[2], command[3], command[4]]);
    let from = if asked < 0x8000 {
        0x8000 + asked % 0x200
    } else {
        asked
    };
    let at = from as u64 + 4 * number as u64;
    file_byte(file, at)
        + 256 * file_byte(file, at + 1)
        + 65536 * file_byte(file, at + 2)
        + 16777216 * file_byte(file, at + 3)
}
