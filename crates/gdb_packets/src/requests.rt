//! What a packet asks for.

use crate::goings::{Going, read_goings, read_older};
use crate::readers::Reader;
use ds_base::Proc;

/// Where a point stops the program.
#[derive(Clone, Copy, PartialEq, Eq, Debug)]
pub enum PointKind {
    /// Before the instruction at the address, whichever processor comes to it.
    Break,
    /// Where bytes change.
    Write,
    /// Where a processor reads bytes.
    Read,
    /// Where a processor reads or writes bytes.
    Access,
}

/// A breakpoint or a watchpoint.
#[derive(Clone, Copy, PartialEq, Eq, Debug)]
pub struct Point {
    /// Where it stops.
    pub kind: PointKind,
    /// Its first address.
    pub at: u32,
    /// How many bytes it watches; of a breakpoint the kind of instruction, which isn't looked at.
    pub length: u32,
}

/// What a packet asks for. (The GDB manual, "Packets" and "General Query Packets".)
#[derive(Clone, Copy, PartialEq, Eq, Debug)]
pub enum Request<'a> {
    /// Which features there are.
    Supported,
    /// No more plus and minus after packets.
    NoAck,
    /// A part of the description of the registers.
    Features {
        /// Its first byte.
        offset: u32,
        /// How many bytes at most.
        length: u32,
    },
    /// Why the program stands.
    Reason,
    /// The threads, and then that there are no more.
    FirstThreads,
    /// That there are no more.
    MoreThreads,
    /// Which thread is the current one.
    Current,
    /// Whether a thread lives: a processor does.
    Alive,
    /// What there is to say of a thread.
    Text(Proc),
    /// Which processor is looked at from now on; None is any.
    Look(Option<Proc>),
    /// Which processor is to go on from now on; None is any or all.
    Aim(Option<Proc>),
    /// All registers.
    Registers,
    /// One register by its number.
    Register(u32),
    /// Bytes as the processor reads them that is looked at.
    Memory {
        /// The first address.
        at: u32,
        /// How many.
        length: u32,
    },
    /// A write of registers or memory, which the machine doesn't take.
    Change,
    /// Puts a point.
    Insert(Point),
    /// Takes it away.
    Remove(Point),
    /// Which actions there are to go on.
    Actions,
    /// The program goes on.
    Go(Going),
    /// One step back.
    BackStep,
    /// Back to a point, or to the beginning.
    BackOn,
    /// A command of the user's, in hexadecimal digits.
    Command(&'a [u8]),
    /// Whether the program ran before gdb came.
    Attached,
    /// Whether symbols are wanted.
    Symbols,
    /// gdb goes.
    Detach,
    /// The end.
    Kill,
    /// A request of these whose words are no such words.
    Wrong,
    /// Anything else: the answer is empty, by which gdb knows that there is no such request.
    Unknown,
}

/// Two numbers with a comma between them, and then nothing more.
fn two_numbers(text: &[u8]) -> Option<(u32, u32)> {
    let mut from = Reader::new(text);
    let first = from.number()?;
    if !from.passes(b',') {
        return None;
    }
    let second = from.number()?;
    if !from.is_at_end() {
        return None;
    }
    Some((first, second))
}

/// A thread and nothing more.
fn whole_thread(text: &[u8]) -> Option<Option<Proc>> {
    let mut from = Reader::new(text);
    let thread = from.thread()?;
    if !from.is_at_end() {
        return None;
    }
    Some(thread)
}

/// A point: its kind as a digit, a comma, its address, a comma, its length. None where it is no point.
fn read_point(text: &[u8]) -> Option<Point> {
    let (digit, others) = text.split_first()?;
    let kind = match *digit {
        b'0' | b'1' => PointKind::Break,
        b'2' => PointKind::Write,
        b'3' => PointKind::Read,
        b'4' => PointKind::Access,
        _ => return None,
    };
    let mut from = Reader::new(others);
    if !from.passes(b',') {
        return None;
    }
    let (at, length) = two_numbers(from.rest())?;
    Some(Point { kind, at, length })
}

/// What a query asks for, by what stands behind `q`.
fn read_query(text: &[u8]) -> Request<'_> {
    let mut from = Reader::new(text);
    if from.passes_text(b"Supported") {
        return Request::Supported;
    }
    if from.passes_text(b"Xfer:features:read:target.xml:") {
        return match two_numbers(from.rest()) {
            Some((offset, length)) => Request::Features { offset, length },
            None => Request::Wrong,
        };
    }
    if from.passes_text(b"Rcmd,") {
        return Request::Command(from.rest());
    }
    if from.passes_text(b"ThreadExtraInfo,") {
        return match whole_thread(from.rest()) {
            Some(Some(proc)) => Request::Text(proc),
            _ => Request::Wrong,
        };
    }
    if from.passes_text(b"Symbol:") {
        return Request::Symbols;
    }
    if from.passes_text(b"Attached") {
        return Request::Attached;
    }
    match text {
        b"fThreadInfo" => Request::FirstThreads,
        b"sThreadInfo" => Request::MoreThreads,
        b"C" => Request::Current,
        _ => Request::Unknown,
    }
}

/// What a packet asks for whose name begins with `v`, by what stands behind that.
fn read_verbose(text: &[u8]) -> Request<'_> {
    let mut from = Reader::new(text);
    if from.passes_text(b"Kill") {
        return Request::Kill;
    }
    if !from.passes_text(b"Cont") {
        return Request::Unknown;
    }
    if from.passes(b'?') {
        return Request::Actions;
    }
    match read_goings(from.rest()) {
        Some(going) => Request::Go(going),
        None => Request::Wrong,
    }
}

/// Which processor is chosen, by what stands behind `H`.
fn read_choice(text: &[u8]) -> Request<'_> {
    let Some((letter, others)) = text.split_first() else {
        return Request::Wrong;
    };
    match (*letter, whole_thread(others)) {
        (b'g', Some(thread)) => Request::Look(thread),
        (b'c', Some(thread)) => Request::Aim(thread),
        _ => Request::Wrong,
    }
}

/// A request with a point.
fn with_point<'a>(text: &[u8], inserts: bool) -> Request<'a> {
    match read_point(text) {
        Some(point) if inserts => Request::Insert(point),
        Some(point) => Request::Remove(point),
        None => Request::Wrong,
    }
}

/// Bytes of memory, by what stands behind `m`.
fn read_memory<'a>(text: &[u8]) -> Request<'a> {
    match two_numbers(text) {
        Some((at, length)) => Request::Memory { at, length },
        None => Request::Wrong,
    }
}

/// One register, by what stands behind `p`.
fn read_register<'a>(text: &[u8]) -> Request<'a> {
    let mut from = Reader::new(text);
    match from.number() {
        Some(number) if from.is_at_end() => Request::Register(number),
        _ => Request::Wrong,
    }
}

/// Whether a thread lives, by what stands behind `T`.
fn read_alive<'a>(text: &[u8]) -> Request<'a> {
    match whole_thread(text) {
        Some(Some(_)) => Request::Alive,
        _ => Request::Wrong,
    }
}

/// An older packet that goes on.
fn go_by_older<'a>(body: &[u8]) -> Request<'a> {
    match read_older(body) {
        Some(going) => Request::Go(going),
        None => Request::Wrong,
    }
}

/// A step back, or back on and on.
fn read_back<'a>(text: &[u8]) -> Request<'a> {
    match text {
        b"s" => Request::BackStep,
        b"c" => Request::BackOn,
        _ => Request::Unknown,
    }
}

/// What the body of a packet asks for.
pub fn read_request(body: &[u8]) -> Request<'_> {
    let Some((letter, others)) = body.split_first() else {
        return Request::Unknown;
    };
    match *letter {
        b'q' => read_query(others),
        b'v' => read_verbose(others),
        b'H' => read_choice(others),
        b'm' => read_memory(others),
        b'p' => read_register(others),
        b'Z' => with_point(others, true),
        b'z' => with_point(others, false),
        b'T' => read_alive(others),
        b'b' => read_back(others),
        b'c' | b'C' | b's' | b'S' => go_by_older(body),
        b'g' if others.is_empty() => Request::Registers,
        b'?' if others.is_empty() => Request::Reason,
        b'G' | b'P' | b'M' | b'X' => Request::Change,
        b'D' => Request::Detach,
        b'k' => Request::Kill,
        b'Q' if others.starts_with(b"StartNoAckMode") => Request::NoAck,
        _ => Request::Unknown,
    }
}
