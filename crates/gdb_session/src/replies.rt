//! Answers to what gdb asks of a session that stands.

use crate::decks::Deck;
use crate::registers::register;
use crate::sessions::Session;
use crate::stops::{Cause, Stop};
use ds_base::{LeftOut, Proc, Width};
use gdb_packets::{Answer, PointKind};
use nds_answers::name_of_kind;
use std::alloc::{AllocError, Global};

/// What goes out for a packet: a text that gdb prints, where there is one, and the answer's body.
#[derive(Drop)]
pub struct Reply {
    /// The text.
    pub note: Answer,
    /// The body.
    pub body: Answer,
}

impl Reply {
    /// Nothing.
    pub fn new(alloc: Global) -> Reply {
        Reply {
            note: Answer::new(alloc),
            body: Answer::new(alloc),
        }
    }

    /// Takes all away.
    pub fn clear(&mut self) {
        self.note.clear();
        self.body.clear();
    }
}

/// The number of a processor's thread.
pub fn thread_of(proc: Proc) -> &'static [u8] {
    match proc {
        Proc::Nine => b"1",
        Proc::Seven => b"2",
    }
}

/// The registers that stand in each stop, by gdb's numbers and as they are spelled there.
const TOLD: [(u32, &[u8]); 5] = [
    (11, b"0b:"),
    (13, b"0d:"),
    (14, b"0e:"),
    (15, b"0f:"),
    (25, b"19:"),
];

/// Puts a register's bytes; where there is no such register, those of one that isn't there.
fn put_register(into: &mut Answer, all: &[u32; 37], number: u32) -> Result<(), AllocError> {
    match register(all, number) {
        Some(word) => into.put_word(word),
        None => into.put(b"xxxxxxxx"),
    }
}

/// What a stop by a watchpoint is called. (The GDB manual, "Stop Reply Packets".)
fn name_of_watch(kind: PointKind) -> &'static [u8] {
    match kind {
        PointKind::Read => b"rwatch:",
        PointKind::Access => b"awatch:",
        _ => b"watch:",
    }
}

/// Puts why the run stands, but for the signal.
fn put_cause(into: &mut Answer, cause: Cause) -> Result<(), AllocError> {
    match cause {
        Cause::Signal(_) | Cause::Left(_) => Ok(()),
        Cause::Break => into.put(b"swbreak:;"),
        Cause::Begin => into.put(b"replaylog:begin;"),
        Cause::Watch(watched) => {
            into.put(name_of_watch(watched.kind))?;
            into.put_address(watched.at)?;
            into.put(b";")
        }
    }
}

/// Puts where and why the run stands.
pub fn put_stop<D: Deck>(into: &mut Answer, deck: &D, stop: Stop) -> Result<(), AllocError> {
    into.put(b"T")?;
    into.put_byte(stop.number())?;
    put_cause(into, stop.cause)?;
    into.put(b"thread:")?;
    into.put(thread_of(stop.proc))?;
    into.put(b";")?;
    let all = deck.registers(stop.proc);
    for (number, spelled) in TOLD {
        into.put(spelled)?;
        put_register(into, &all, number)?;
        into.put(b";")?;
    }
    Ok(())
}

/// Puts the text of what is left out.
fn put_left(into: &mut Answer, left: LeftOut) -> Result<(), AllocError> {
    into.put(b"left out: ")?;
    into.put(name_of_kind(left.kind).as_bytes())?;
    into.put(b" tick ")?;
    into.put_number(left.tick.0)?;
    into.put(b" actor ")?;
    into.put_number(left.rank as u64)?;
    into.put(b" value 0x")?;
    into.put_address(left.value)?;
    into.put(b"\n")
}

/// Puts what there is to say of a stop beside the stop itself.
pub fn put_note(into: &mut Answer, stop: Stop) -> Result<(), AllocError> {
    if let Cause::Left(left) = stop.cause {
        return put_left(into, left);
    }
    if let (Cause::Watch(_), Some(rank)) = (stop.cause, stop.actor) {
        into.put(b"changed by actor ")?;
        into.put_number(rank as u64)?;
        return into.put(b", which is no processor\n");
    }
    Ok(())
}

/// Puts all registers of the processor that is looked at, by gdb's numbers.
pub fn put_registers<D: Deck>(into: &mut Answer, deck: &D, proc: Proc) -> Result<(), AllocError> {
    let all = deck.registers(proc);
    for number in 0..47u32 {
        if number < 16 || number > 24 {
            put_register(into, &all, number)?;
        }
    }
    Ok(())
}

/// Puts one of them.
pub fn put_one_register<D: Deck>(
    into: &mut Answer,
    deck: &D,
    proc: Proc,
    number: u32,
) -> Result<(), AllocError> {
    match register(&deck.registers(proc), number) {
        Some(word) => into.put_word(word),
        None => into.put(b"E01"),
    }
}

/// Puts bytes as a processor reads them, up to the first that nothing answers for.
pub fn put_memory<D: Deck>(
    into: &mut Answer,
    deck: &D,
    proc: Proc,
    at: u32,
    length: u32,
) -> Result<(), AllocError> {
    for place in 0..length.min(0x3ff0) {
        match deck.looked(proc, at.wrapping_add(place), Width::Byte) {
            Some(byte) => into.put_byte((byte % 256) as u8)?,
            None => break,
        }
    }
    if into.bytes().is_empty() && length > 0 {
        return into.put(b"E0e");
    }
    Ok(())
}

/// Puts what there is to say of a processor.
pub fn put_text<D: Deck>(into: &mut Answer, deck: &D, proc: Proc) -> Result<(), AllocError> {
    let name: &[u8] = match proc {
        Proc::Nine => b"ARM9, ",
        Proc::Seven => b"ARM7, ",
    };
    let state: &[u8] = if deck.is_halted(proc) {
        b"halted"
    } else if deck.runs(proc) {
        b"runs"
    } else {
        b"held"
    };
    into.put_text(name)?;
    into.put_text(state)
}

/// Puts a part of a text.
fn put_from(into: &mut Answer, text: &[u8], offset: u32, length: u32) -> Result<(), AllocError> {
    let start = (offset as usize).min(text.len());
    let count = (length as usize).min(text.len() - start);
    let letter: &[u8] = if start + count < text.len() {
        b"m"
    } else {
        b"l"
    };
    into.put(letter)?;
    into.put(&text[start..start + count])
}

/// Puts a part of the registers' description.
pub fn put_features(
    alloc: Global,
    into: &mut Answer,
    offset: u32,
    length: u32,
) -> Result<(), AllocError> {
    let mut text = Answer::new(alloc);
    crate::descriptions::put_target(&mut text)?;
    put_from(into, text.bytes(), offset, length)
}

/// Puts the stop of a session with what there is to say of it.
pub fn put_standing<D: Deck>(
    reply: &mut Reply,
    session: &Session,
    deck: &D,
) -> Result<(), AllocError> {
    put_note(&mut reply.note, session.stop)?;
    put_stop(&mut reply.body, deck, session.stop)
}
