//! The numbers that are seen in a console.

use crate::answers::Came;
use crate::facts::Quantity;
use crate::views::{Views, add_answer, add_written, place_of, registers_at};
use ds_base::{LeftKind, LeftOut, Memory, Proc};
use run_ahead::{Console, Seen, Turned};
use std::alloc::{AllocError, Global};

/// Bytes of a memory, one by one, as far as they are there.
fn bytes_one_by_one(
    alloc: Global,
    console: &Console,
    memory: Memory,
    at: usize,
    count: usize,
) -> Result<Vec<u8>, AllocError> {
    let mut bytes = Vec::new(alloc);
    for i in 0..count {
        let at = at.saturating_add(i);
        if at < memory.size() && at < 0x1000_0000 {
            bytes.push(console.byte_of(memory, at as u32))?;
        }
    }
    Ok(bytes)
}

/// Words of a memory, as the console tells them by both calls.
fn add_memory(
    views: &mut Views,
    console: &Console,
    memory: Memory,
    at: usize,
    count: usize,
) -> Result<(), AllocError> {
    views.add_words(console.bytes(memory), at, count)?;
    let bytes = bytes_one_by_one(views.alloc, console, memory, at, count.saturating_mul(4))?;
    views.add_words(bytes.as_slice(), 0, count)
}

/// Words of a memory: in the output where the run came to its tick, and in the console.
fn add_memory_words(
    views: &mut Views,
    came: &Came,
    console: Option<&Console>,
    memory: Memory,
    at: usize,
    count: usize,
) -> Result<(), AllocError> {
    let place = place_of(memory).saturating_add(at).saturating_add(1);
    add_written(views, came, place, count)?;
    match console {
        Some(console) => add_memory(views, console, memory, at, count),
        None => Ok(()),
    }
}

/// Registers of a processor: in the output where the run came to its tick, and in the console.
fn add_registers(
    views: &mut Views,
    came: &Came,
    console: Option<&Console>,
    proc: Proc,
    from: usize,
    count: usize,
) -> Result<(), AllocError> {
    let place = registers_at(proc).saturating_add(from.saturating_mul(4));
    add_written(views, came, place, count)?;
    match console {
        Some(console) => views.add_registers(&console.registers(proc), from, count),
        None => Ok(()),
    }
}

/// What a processor does next.
fn add_seen(views: &mut Views, console: &Console, proc: Proc) -> Result<(), AllocError> {
    match console.seen(proc) {
        Seen::Idle => views.add(&[0]),
        Seen::Irq(at) => views.add(&[1, u64::from(at)]),
        Seen::Word { at, word } => views.add(&[2, u64::from(at), u64::from(word)]),
        Seen::Half { at, half } => views.add(&[3, u64::from(at), u64::from(half)]),
    }
}

/// The control field of a processor's CPSR.
fn control_of(console: &Console, proc: Proc) -> u64 {
    let [.., cpsr, _, _, _, _, _] = console.registers(proc);
    u64::from(cpsr % 0x100)
}

/// What a console tells.
fn add_told(views: &mut Views, console: &Console, of: Quantity) -> Result<(), AllocError> {
    match of {
        Quantity::Counts => {
            let counts = console.counts();
            views.add(&[counts.nine, counts.seven, counts.events, counts.turns])
        }
        Quantity::Next => {
            let due = console.due();
            views.add(&[due.tick.0, u64::from(due.rank)])
        }
        Quantity::Limit => views.add(&[console.limit().0]),
        Quantity::Seen(proc) => add_seen(views, console, proc),
        Quantity::Control(proc) => views.add(&[control_of(console, proc)]),
        _ => Ok(()),
    }
}

/// What the console tells, where there is one.
fn add_console(
    views: &mut Views,
    came: &Came,
    console: Option<&Console>,
    of: Quantity,
    count: usize,
) -> Result<(), AllocError> {
    match of {
        Quantity::Consoles => views.add(&[u64::from(console.is_some())]),
        Quantity::Words(memory, at) => add_memory_words(views, came, console, memory, at, count),
        Quantity::Registers(proc, from) => add_registers(views, came, console, proc, from, count),
        _ => match console {
            Some(console) => add_told(views, console, of),
            None => Ok(()),
        },
    }
}

/// The numbers that are seen, so many where that is open, at each place where they are.
pub fn views_of(
    alloc: Global,
    came: &Came,
    console: Option<&Console>,
    kept: &[u8],
    of: Quantity,
    count: usize,
) -> Result<Views, AllocError> {
    let mut views = Views::new(alloc);
    if !add_answer(&mut views, came, kept, of)? {
        add_console(&mut views, came, console, of, count)?;
    }
    Ok(views)
}

/// The number of a stop's kind, as in the record of a stop.
fn kind_of(left: LeftOut) -> u64 {
    match left.kind {
        LeftKind::NotYet => 1,
        LeftKind::Swi => 2,
        LeftKind::BigEndian => 3,
        LeftKind::HaltMode => 4,
        LeftKind::DmaStart => 5,
        LeftKind::CardTransfer => 6,
        LeftKind::DisplayMode => 7,
        LeftKind::BgMode => 8,
        LeftKind::Capture => 9,
        LeftKind::Mosaic => 10,
        LeftKind::ExtendedBackground => 11,
        LeftKind::BitmapObject => 12,
    }
}

/// A limit and what a turn answered, as numbers.
pub fn turned(alloc: Global, limit: u64, answer: Turned) -> Result<Vec<u64>, AllocError> {
    match answer {
        Turned::Ran => Ok(vec![in alloc; limit, 0]?),
        Turned::Frame { swapped: _ } => Ok(vec![in alloc; limit, 1]?),
        Turned::AtEnd => Ok(vec![in alloc; limit, 3]?),
        Turned::Stopped(left) => {
            let (tick, rank) = (left.tick.0, u64::from(left.rank));
            Ok(vec![in alloc; limit, 2, kind_of(left), tick, rank, u64::from(left.value)]?)
        }
    }
}
