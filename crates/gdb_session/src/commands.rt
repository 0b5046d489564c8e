//! Commands of the user's: what stands behind `monitor`.

ghost use Rattle.std.specs.Prelude.{◌≡◌};

use crate::decks::Deck;
use crate::sessions::Session;
use ds_base::Tick;
use gdb_packets::Answer;
use std::alloc::{AllocError, Global};

/// Where files are written.
pub trait Outlet {
    /// Writes a file whole, by its name; false where that can't be done.
    fn write(&mut self, name: &str, bytes: &[u8]) -> bool;
}

/// How many ticks a frame takes, a line, and those from the beginning to behind the first whole frame.
const FRAME_TICKS: u64 = 1_120_380;

const LINE_TICKS: u64 = 4_260;

const FIRST_FRAME: u64 = 817_922;

/// The greatest tick that a run is told to stop at.
const MOST_UNTIL: u64 = 0x100_0000_0000_0000;

const HELP: &[u8] =
    b"tick, until TICK, until-frame N, slice TICKS, irq skip|show, saves, state FILE, frame FILE, help\n";

/// The value of a hexadecimal digit.
fn digit_of(byte: u8) -> Option<u8> {
    match byte {
        b'0'..=b'9' => Some(byte - b'0'),
        b'a'..=b'f' => Some(byte - b'a' + 10),
        b'A'..=b'F' => Some(byte - b'A' + 10),
        _ => None,
    }
}

/// The bytes that hexadecimal digits stand for, up to the first that is none.
fn bytes_of(alloc: Global, digits: &[u8]) -> Result<Vec<u8>, AllocError> {
    let mut bytes = Vec::new(alloc);
    let mut high = None;
    for digit in digits {
        let Some(value) = digit_of(*digit) else {
            return Ok(bytes);
        };
        match high {
            None => high = Some(value),
            Some(first) => {
                bytes.push((first << 4) | value)?;
                high = None;
            }
        }
    }
    Ok(bytes)
}

/// The first word of a text and what stands behind the blank after it.
fn first_word(text: &[u8]) -> (&[u8], &[u8]) {
    for place in 0..text.len() {
        if text[place] == b' ' {
            return (&text[..place], &text[place + 1..]);
        }
    }
    (text, &[])
}

/// A number in decimal digits.
fn number_of(text: &[u8]) -> Option<u64> {
    if text.is_empty() || text.len() > 18 {
        return None;
    }
    let mut value = 0u64;
    for byte in text {
        if !matches!(*byte, b'0'..=b'9') {
            return None;
        }
        value = value
            .saturating_mul(10)
            .saturating_add((*byte - b'0') as u64);
    }
    Some(value)
}

/// Puts where the run stands.
fn put_tick<D: Deck>(into: &mut Answer, deck: &D) -> Result<(), AllocError> {
    let now = deck.now().0;
    into.put(b"tick ")?;
    into.put_number(now)?;
    into.put(b", frame ")?;
    into.put_number(now / FRAME_TICKS)?;
    into.put(b" (line ")?;
    into.put_number(now % FRAME_TICKS / LINE_TICKS)?;
    into.put(b"); steps ")?;
    into.put_number(deck.steps(ds_base::Proc::Nine))?;
    into.put(b" and ")?;
    into.put_number(deck.steps(ds_base::Proc::Seven))?;
    into.put(b", events ")?;
    into.put_number(deck.events())?;
    into.put(b"\n")
}

/// Has the next run stop at a tick.
fn set_until(session: &mut Session, into: &mut Answer, until: u64) -> Result<(), AllocError> {
    session.until = Some(until.min(MOST_UNTIL));
    into.put(b"a run stops at tick ")?;
    into.put_number(until.min(MOST_UNTIL))
}

/// `until`.
fn until_tick(session: &mut Session, into: &mut Answer, text: &[u8]) -> Result<(), AllocError> {
    let Some(until) = number_of(text) else {
        return into.put(b"until TICK: a number, please\n");
    };
    set_until(session, into, until)?;
    into.put(b"\n")
}

/// `until-frame`.
fn until_frame(session: &mut Session, into: &mut Answer, text: &[u8]) -> Result<(), AllocError> {
    let number = match number_of(text) {
        Some(number) if number > 0 => number,
        _ => return into.put(b"until-frame N: a number from 1 on, please\n"),
    };
    let until = (number - 1)
        .saturating_mul(FRAME_TICKS)
        .saturating_add(FIRST_FRAME);
    set_until(session, into, until)?;
    into.put(b", after frame ")?;
    into.put_number(number)?;
    into.put(b"\n")
}

/// `slice`.
fn set_slice(session: &mut Session, into: &mut Answer, text: &[u8]) -> Result<(), AllocError> {
    match number_of(text) {
        Some(ticks) if ticks > 0 => {
            session.slice = ticks;
            into.put(b"an interrupt is heard every so many ticks\n")
        }
        _ => into.put(b"slice TICKS: a number from 1 on, please\n"),
    }
}

/// `irq`.
fn set_irq(session: &mut Session, into: &mut Answer, text: &[u8]) -> Result<(), AllocError> {
    match text {
        b"skip" => session.shows_irq = false,
        b"show" => session.shows_irq = true,
        _ => return into.put(b"irq skip|show\n"),
    }
    if session.shows_irq {
        into.put(b"steps go through handlers of interrupts\n")
    } else {
        into.put(b"steps pass over handlers of interrupts\n")
    }
}

/// Puts what came of a file.
fn put_written(into: &mut Answer, is_written: bool, at: u64) -> Result<(), AllocError> {
    if !is_written {
        return into.put(b"the file can't be written\n");
    }
    into.put(b"written as of tick ")?;
    into.put_number(at)?;
    into.put(b"\n")
}

/// A file's name.
fn name_of(text: &[u8]) -> Option<&str> {
    if text.is_empty() {
        return None;
    }
    std::str::from_utf8(text).ok()
}

/// `state`.
fn write_state<D: Deck, F: Outlet>(
    deck: &mut D,
    files: &mut F,
    into: &mut Answer,
    text: &[u8],
) -> Result<(), AllocError>
    ensures boot { D.boot deck.new ≡ D.boot deck.old }
{
    let Some(name) = name_of(text) else {
        return into.put(b"state FILE: a name, please\n");
    };
    let Some(bytes) = deck.state() else {
        return into.put(b"there is no memory for it\n");
    };
    put_written(into, files.write(name, bytes.as_slice()), deck.now().0)
}

/// The record of the last whole frame: the letter F, its tick in eight bytes, and its pixels, each number with the least significant byte first.
fn frame_record<D: Deck>(alloc: Global, deck: &D, tick: Tick) -> Result<Vec<u8>, AllocError> {
    let mut record = Vec::new(alloc);
    record.push(b'F')?;
    for byte in tick.0.to_le_bytes() {
        record.push(byte)?;
    }
    for pixel in deck.frame() {
        for byte in pixel.to_le_bytes() {
            record.push(byte)?;
        }
    }
    Ok(record)
}

/// `frame`.
fn write_frame<D: Deck, F: Outlet>(
    alloc: Global,
    deck: &D,
    files: &mut F,
    into: &mut Answer,
    text: &[u8],
) -> Result<(), AllocError> {
    let Some(name) = name_of(text) else {
        return into.put(b"frame FILE: a name, please\n");
    };
    let Some(tick) = deck.framed() else {
        return into.put(b"no frame is whole yet\n");
    };
    let record = frame_record(alloc, deck, tick)?;
    put_written(into, files.write(name, record.as_slice()), tick.0)
}

/// Puts how many states are kept.
fn put_saves<D: Deck>(into: &mut Answer, deck: &D) -> Result<(), AllocError> {
    into.put_number(deck.kept())?;
    into.put(b" states are kept\n")
}

/// Carries out a command that neither looks at the run nor writes a file.
fn set<'a>(
    session: &mut Session,
    into: &mut Answer,
    name: &[u8],
    rest: &'a [u8],
) -> Result<(), AllocError> {
    match name {
        b"until" => until_tick(session, into, rest),
        b"until-frame" => until_frame(session, into, rest),
        b"slice" => set_slice(session, into, rest),
        b"irq" => set_irq(session, into, rest),
        _ => into.put(HELP),
    }
}

/// Carries out a command, and puts its text.
fn carry_out<D: Deck, F: Outlet>(
    alloc: Global,
    session: &mut Session,
    deck: &mut D,
    files: &mut F,
    into: &mut Answer,
    text: &[u8],
) -> Result<(), AllocError>
    ensures boot { D.boot deck.new ≡ D.boot deck.old }
{
    let (name, rest) = first_word(text);
    match name {
        b"tick" => put_tick(into, deck),
        b"saves" => put_saves(into, deck),
        b"state" => write_state(deck, files, into, rest),
        b"frame" => write_frame(alloc, deck, files, into, rest),
        _ => set(session, into, name, rest),
    }
}

/// Carries out a command in hexadecimal digits, and puts its text in digits as well.
pub fn command<D: Deck, F: Outlet>(
    alloc: Global,
    session: &mut Session,
    deck: &mut D,
    files: &mut F,
    into: &mut Answer,
    digits: &[u8],
) -> Result<(), AllocError>
    ensures boot { D.boot deck.new ≡ D.boot deck.old }
{
    let text = bytes_of(alloc, digits)?;
    let mut answer = Answer::new(alloc);
    carry_out(alloc, session, deck, files, &mut answer, text.as_slice())?;
    into.put_answer(&answer)
}
