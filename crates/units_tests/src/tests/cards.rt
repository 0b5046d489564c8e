//! The card's port, by GBATEK's "DS Cartridge I/O Ports" and "DS Cartridge Protocol", and by our choices of ticks and identity.

use Line::{Block, Boot, Due, Event, Left, Read, Saved, Set, Taken, Write};
use Proc::{Nine, Seven};
use Width::{Byte, Half, Word};
use ds_base::{LeftKind, Proc, Raised, Tick, Width};
use ds_card::Card;
use ds_state::{Packer, Unpacker};
use std::alloc::{AllocError, Global};

const AUXSPICNT: u32 = 0x1A0;

const ROMCTRL: u32 = 0x1A4;

const COMMAND: u32 = 0x1A8;

const PARAMETERS: u32 = 0x1AC;

const DATA: u32 = 0x10_0010;
/// Bit 19 of IF.
const ENDED: u32 = 0x8_0000;

/// What is done, and what is seen of it.
#[derive(Clone, Copy)]
enum Line {
    /// A card at boot.
    Boot,
    /// A write of a whole word at tick 0.
    Set(Proc, u32, u32),
    /// A write at a tick.
    Write(Proc, u32, Width, u32, u32),
    /// A write that is refused, and the value that the stop tells.
    Left(Proc, u32, Width, u32, u32),
    /// A read at tick 0, and its value; nothing is raised.
    Read(Proc, u32, Width, u32),
    /// A read of the data port at a tick, the place in the file of the word that it gives, and what is raised on ARM9 and ARM7.
    Taken(Proc, u32, u32, u32, u32),
    /// When the card is due, or 0 where it isn't.
    Due(u32),
    /// Its event: whether a word is ready, and what is raised on ARM9 and ARM7.
    Event(bool, u32, u32),
    /// It is put in bytes and taken from them at a tick, and goes on so.
    Saved(u32),
    /// From a place on so many words are taken, each after its event; whether the transfer is busy before each, and after the last.
    Block(Proc, u32, u32, bool),
}

/// A value, and the bits raised at ARM9 and at ARM7.
type Seen = (u32, u32, u32);

/// The cartridge's file has 9000h bytes, each told by its place; past its end words are 0.
fn file_byte(place: u32) -> u8 {
    if place < 0x9000 {
        ((place % 251 + place / 256) % 256) as u8
    } else {
        0
    }
}

fn file_word(place: u32) -> u32 {
    let at = place % 0x10_0000;
    u32::from_le_bytes([
        file_byte(at),
        file_byte(at + 1),
        file_byte(at + 2),
        file_byte(at + 3),
    ])
}

fn file(alloc: Global) -> Result<Vec<u8>, AllocError> {
    let mut bytes = Vec::new(alloc);
    for place in 0..0x9000 {
        bytes.push(file_byte(place))?;
    }
    Ok(bytes)
}

fn got(value: u32, raised: Raised) -> Seen {
    (value, raised.nine, raised.seven)
}

fn write(card: &mut Card, proc: Proc, at: u32, width: Width, value: u32, now: u32) -> Seen {
    match card.write(proc, at, width, value, Tick(now.into())) {
        Some(stop) if stop.kind == LeftKind::CardTransfer => (stop.value, 1, 0),
        Some(_) => (0, 2, 0),
        None => (0, 0, 0),
    }
}

fn read(card: &mut Card, proc: Proc, at: u32, width: Width, now: u32) -> Seen {
    let read = card.read(proc, at, width, Tick(now.into()));
    got(read.value, read.raised)
}

fn event(card: &mut Card, file: &[u8]) -> Seen {
    if card.due().is_none() {
        return (2, 0, 0);
    }
    let done = card.event(file);
    got(done.ready as u32, done.raised)
}

fn due(card: &Card) -> u32 {
    match card.due() {
        Some(tick) => (tick.0 % 0x1_0000_0000) as u32,
        None => 0,
    }
}

/// How many words of a block weren't taken as they should be, and whether the transfer is busy after it.
fn block(card: &mut Card, file: &[u8], proc: Proc, first: u32, words: u32) -> Seen {
    let mut wrong = 0u32;
    for number in 0..words {
        let busy = card.starter() == Some(proc);
        let ready = event(card, file);
        let place = first % 0x10_0000 + number % 0x1_0000 * 4;
        let word = read(card, proc, DATA, Word, number);
        if !busy || ready != (1, 0, 0) || word.0 != file_word(place) {
            wrong = wrong.saturating_add(1);
        }
    }
    (wrong, card.starter().is_some() as u32, 0)
}

/// Puts the card in bytes, and takes it from them: how many they are, and whether they are read.
fn again(alloc: Global, card: &mut Card, file: &[u8], at: u32) -> Seen {
    let mut into = Packer::new(alloc);
    if card.pack(&mut into).is_err() {
        return (0, 2, 0);
    }
    let bytes = into.finish();
    let (some, _) = bytes.as_slice().split_at(bytes.len().min(400));
    let mut from = Unpacker::new(some);
    match Card::unpack(&mut from, Tick(at.into()), file) {
        Ok(it) => *card = it,
        Err(_) => return (from.place(), 1, 0),
    }
    (from.place(), 0, 0)
}

/// Does what a line says: what was seen, and what is wanted.
fn seen(alloc: Global, card: &mut Card, file: &[u8], line: Line) -> (Seen, Seen) {
    match line {
        Boot => {
            *card = Card::new();
            ((0, 0, 0), (0, 0, 0))
        }
        Set(proc, at, value) => (write(card, proc, at, Word, value, 0), (0, 0, 0)),
        Write(proc, at, width, value, now) => (write(card, proc, at, width, value, now), (0, 0, 0)),
        Left(proc, at, width, value, told) => (
            write(card, proc, at, width, value, 0),
            (told, 1, 0),
        ),
        Read(proc, at, width, value) => (read(card, proc, at, width, 0), (value, 0, 0)),
        Taken(proc, now, place, nine, seven) => (
            read(card, proc, DATA, Word, now),
            (file_word(place), nine, seven),
        ),
        Due(tick) => ((due(card), 0, 0), (tick, 0, 0)),
        Event(ready, nine, seven) => (event(card, file), (ready as u32, nine, seven)),
        Saved(at) => (again(alloc, card, file, at), (29, 0, 0)),
        Block(proc, first, words, busy) => (
            block(card, file, proc, first, words),
            (0, busy as u32, 0),
        ),
    }
}

const LINES: [Line; 151] = [
    // registers: which bits stay, one register for each processor or for both, by words, halves and bytes
    Boot,
    Read(Nine, AUXSPICNT, Word, 0),
    Read(Nine, ROMCTRL, Word, 0),
    Read(Nine, COMMAND, Word, 0),
    Read(Nine, PARAMETERS, Word, 0),
    Read(Nine, DATA, Word, 0),
    Due(0),
    Saved(0),
    Write(Nine, AUXSPICNT, Half, 0xFFFF, 0),
    Read(Nine, AUXSPICNT, Word, 0xE000),
    Read(Seven, AUXSPICNT, Half, 0),
    Write(Seven, AUXSPICNT + 1, Byte, 0x5F, 0),
    Read(Seven, AUXSPICNT, Half, 0x4000),
    Read(Nine, AUXSPICNT + 1, Byte, 0xE0),
    Set(Nine, ROMCTRL, 0x7FFF_FFFF),
    Read(Seven, ROMCTRL, Word, 0x7F7F_FFFF),
    Write(Seven, ROMCTRL + 2, Byte, 0x80, 0),
    Read(Nine, ROMCTRL, Word, 0x7F00_FFFF),
    Write(Seven, ROMCTRL, Half, 0x1234, 0),
    Read(Nine, ROMCTRL + 2, Half, 0x7F00),
    Read(Nine, ROMCTRL, Half, 0x1234),
    Set(Seven, COMMAND, 0x4433_2211),
    Set(Nine, PARAMETERS, 0x8877_6655),
    Write(Nine, COMMAND + 6, Byte, 0xAA, 0),
    Read(Seven, COMMAND, Word, 0x4433_2211),
    Read(Seven, PARAMETERS, Word, 0x88AA_6655),
    Read(Nine, COMMAND + 2, Half, 0x4433),
    Read(Nine, COMMAND + 7, Byte, 0x88),
    Saved(1_000),
    Read(Nine, AUXSPICNT, Half, 0xE000),
    Read(Seven, AUXSPICNT, Half, 0x4000),
    Read(Nine, ROMCTRL, Word, 0x7F00_1234),
    Read(Seven, PARAMETERS, Word, 0x88AA_6655),
    // an offset is aligned down, and other offsets have nothing
    Read(Nine, COMMAND + 3, Word, 0x4433_2211),
    Read(Nine, 0x1A2, Half, 0),
    Read(Nine, 0x1B0, Word, 0),
    Read(Nine, 0x1B0, Byte, 0),
    // another command is left out: what is told is the word with the kept bits of the bytes that aren't written
    Left(Nine, ROMCTRL, Word, 0xA780_0000, 0xA780_0000),
    Left(Seven, ROMCTRL + 3, Byte, 0x80, 0x8000_1234),
    Left(Nine, ROMCTRL + 2, Half, 0x8081, 0x8081_1234),
    Read(Nine, ROMCTRL, Word, 0x7F00_1234),
    Due(0),
    // a block of four bytes, from 8010h on
    Boot,
    Set(Nine, COMMAND, 0x8000_00B7),
    Set(Nine, PARAMETERS, 0x10),
    Write(Nine, ROMCTRL, Word, 0x8700_0000, 100),
    Saved(140),
    Due(140),
    Read(Nine, ROMCTRL, Word, 0x8700_0000),
    Read(Nine, DATA, Word, 0),
    Event(true, 0, 0),
    Due(0),
    Saved(149),
    Read(Seven, ROMCTRL, Word, 0x8780_0000),
    Read(Seven, DATA, Word, 0),
    Read(Nine, DATA, Half, 0),
    Read(Nine, DATA, Byte, 0),
    Due(0),
    Taken(Nine, 150, 0x8010, 0, 0),
    Due(0),
    Read(Nine, ROMCTRL, Word, 0x0700_0000),
    Read(Nine, DATA, Word, 0),
    // an address below 8000h is 8000h and its place within 200h
    Set(Nine, COMMAND, 0xB7),
    Write(Nine, ROMCTRL + 3, Byte, 0x87, 300),
    Due(340),
    Event(true, 0, 0),
    Taken(Nine, 350, 0x8010, 0, 0),
    Set(Nine, COMMAND, 0x7F00_00B7),
    Set(Nine, PARAMETERS, 0xFC),
    Write(Nine, ROMCTRL, Word, 0x8700_0000, 400),
    Event(true, 0, 0),
    Taken(Nine, 450, 0x81FC, 0, 0),
    // 7FFFh is the last of them: the word's bytes are those at 81FFh to 8202h; 8200h is an address of its own
    Set(Nine, PARAMETERS, 0xFF),
    Write(Nine, ROMCTRL, Word, 0x8700_0000, 500),
    Event(true, 0, 0),
    Taken(Nine, 550, 0x81FF, 0, 0),
    Set(Nine, COMMAND, 0x8200_00B7),
    Set(Nine, PARAMETERS, 0),
    Write(Nine, ROMCTRL, Word, 0x8700_0000, 600),
    Event(true, 0, 0),
    Taken(Nine, 650, 0x8200, 0, 0),
    // the smallest block of words on ARM7, with its interrupt: the next word is due 40 ticks after the one before it was taken
    Boot,
    Set(Seven, AUXSPICNT, 0x4000),
    Set(Nine, COMMAND, 0x8F00_00B7),
    Set(Nine, PARAMETERS, 0xFC),
    Write(Seven, ROMCTRL + 2, Half, 0x8100, 7),
    Due(47),
    Event(true, 0, 0),
    // while it is busy ROMCTRL and the command are let be, and AUXSPICNT isn't
    Set(Seven, ROMCTRL, 0x8700_0000),
    Set(Nine, COMMAND, 0),
    Write(Nine, PARAMETERS + 3, Byte, 9, 0),
    Write(Nine, AUXSPICNT, Half, 0x2000, 0),
    Read(Nine, ROMCTRL, Word, 0x8180_0000),
    Read(Nine, COMMAND, Word, 0x8F00_00B7),
    Read(Nine, PARAMETERS, Word, 0xFC),
    Read(Nine, AUXSPICNT, Word, 0x2000),
    Read(Nine, DATA, Word, 0),
    Taken(Seven, 60, 0x8FFC, 0, 0),
    Saved(61),
    Due(100),
    Event(true, 0, 0),
    Saved(101),
    // past the file's end there are zeros
    Read(Seven, ROMCTRL, Word, 0x8180_0000),
    Taken(Seven, 200, 0x9000, 0, 0),
    Due(240),
    // the identity, word for word, and without an interrupt where AUXSPICNT doesn't ask for it
    Boot,
    Set(Nine, COMMAND, 0xB8),
    Write(Nine, ROMCTRL, Word, 0x8700_0000, 0),
    Event(true, 0, 0),
    Read(Nine, ROMCTRL, Word, 0x8780_0000),
    Read(Nine, DATA, Word, 0xFC2),
    Read(Nine, ROMCTRL, Word, 0x0700_0000),
    // no words at all: the event ends it, and nothing is ready
    Boot,
    Set(Nine, AUXSPICNT, 0x4000),
    Set(Nine, COMMAND, 0xB7),
    Write(Nine, ROMCTRL, Word, 0x8000_0000, 5),
    Saved(6),
    Due(45),
    Read(Nine, ROMCTRL, Word, 0x8000_0000),
    Event(false, ENDED, 0),
    Due(0),
    Read(Nine, ROMCTRL, Word, 0),
    // each block's size: a word is still to come before its last, and none after it
    Boot,
    Set(Nine, COMMAND, 0xB7),
    Write(Nine, ROMCTRL, Word, 0x8100_0000, 0),
    Block(Nine, 0x8000, 127, true),
    Block(Nine, 0x81FC, 1, false),
    Write(Nine, ROMCTRL, Word, 0x8200_0000, 0),
    Block(Nine, 0x8000, 255, true),
    Block(Nine, 0x83FC, 1, false),
    Write(Nine, ROMCTRL, Word, 0x8300_0000, 0),
    Block(Nine, 0x8000, 511, true),
    Block(Nine, 0x87FC, 1, false),
    Write(Seven, ROMCTRL, Word, 0x8400_0000, 0),
    Block(Seven, 0x8000, 1023, true),
    Block(Seven, 0x8FFC, 1, false),
    Write(Seven, ROMCTRL, Word, 0x8500_0000, 0),
    Block(Seven, 0x8000, 2047, true),
    Block(Seven, 0x9FFC, 1, false),
    Write(Nine, ROMCTRL, Word, 0x8600_0000, 0),
    Block(Nine, 0x8000, 4095, true),
    Block(Nine, 0xBFFC, 1, false),
    // the interrupt is the starter's, by its own AUXSPICNT
    Boot,
    Set(Seven, AUXSPICNT, 0x4000),
    Set(Nine, COMMAND, 0xB7),
    Write(Nine, ROMCTRL, Word, 0x8700_0000, 0),
    Event(true, 0, 0),
    Taken(Nine, 50, 0x8000, 0, 0),
    Write(Seven, ROMCTRL, Word, 0x8700_0000, 60),
    Event(true, 0, 0),
    Taken(Seven, 110, 0x8000, 0, ENDED),
];

#[test]
fn words_are_taken_in_order_by_their_starter(rt: HostRuntime) -> Result<(), AllocError> {
    let bytes = file(rt.alloc())?;
    let mut card = Card::new();
    for (number, line) in LINES.iter().enumerate() {
        let (got, wanted) = seen(rt.alloc(), &mut card, &bytes, *line);
        card.laws();
        assert!(rt;
            got == wanted,
            "line {number}: {:x}, {:x}, {:x}",
            got.0,
            got.1,
            got.2
        );
    }
    Ok(())
}
