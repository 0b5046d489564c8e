//! The numbers that are seen in what a call wrote and answered.

use crate::answers::Came;
use crate::facts::{FRAME_SIZE, Quantity, frame_at};
use crate::lists::push;
use ds_base::{Memory, Proc};
use std::alloc::{AllocError, Global};

/// The place of ARM9's registers in the output of a run that comes to its tick, behind the letter and the memories.
const NINE_AT: usize = 5_017_601;

/// The place of ARM7's, 37 words later.
const SEVEN_AT: usize = 5_017_749;

/// The place of the record of the end, 37 words later.
const END_AT: usize = 5_017_897;

/// What is seen: numbers, and then such numbers again for each other place where the same is seen.
#[derive(Drop)]
pub struct Views {
    /// Where memory comes from.
    pub alloc: Global,
    places: Vec<Vec<u64>>,
}

/// The little-endian number of so many bytes at a place; nothing past the end.
fn number_at(bytes: &[u8], at: usize, count: usize) -> Option<u64> {
    let mut number = 0u64;
    for i in 0..count {
        let byte = *bytes.get(at.saturating_add(i))?;
        let shifted = u64::from(byte).wrapping_shl((i.saturating_mul(8) % 64) as u32);
        number |= shifted;
    }
    Some(number)
}

impl Views {
    /// Nothing is seen.
    pub fn new(alloc: Global) -> Views {
        Views {
            alloc,
            places: Vec::new(alloc),
        }
    }

    /// What is seen at each place.
    pub fn places(&self) -> &[Vec<u64>] {
        self.places.as_slice()
    }

    /// These numbers are seen.
    pub fn add(&mut self, numbers: &[u64]) -> Result<(), AllocError> {
        let numbers = Vec::from_slice(self.alloc, numbers)?;
        push(&mut self.places, numbers)
    }

    /// So many words are seen, from a place of these bytes on, as far as they are there.
    pub fn add_words(&mut self, bytes: &[u8], at: usize, count: usize) -> Result<(), AllocError> {
        let mut words = Vec::new(self.alloc);
        for i in 0..count {
            let at = at.saturating_add(i.saturating_mul(4));
            if let Some(word) = number_at(bytes, at, 4) {
                push(&mut words, word)?;
            }
        }
        push(&mut self.places, words)
    }

    /// So many registers are seen, from one on, as far as they are there.
    pub fn add_registers(
        &mut self,
        registers: &[u32],
        from: usize,
        count: usize,
    ) -> Result<(), AllocError> {
        let mut numbers = Vec::new(self.alloc);
        for i in 0..count {
            if let Some(register) = registers.get(from.saturating_add(i)) {
                push(&mut numbers, u64::from(*register))?;
            }
        }
        push(&mut self.places, numbers)
    }
}

/// The records of the output, behind those of frames.
fn records_of(came: &Came) -> &[u8] {
    came.out.get(came.from..).unwrap_or(&[])
}

/// How many of so many records of frames the output begins with.
pub fn frames_before(out: &[u8], count: usize) -> usize {
    for number in 0..count {
        if out.get(number.saturating_mul(FRAME_SIZE)) != Some(&b'F') {
            return number;
        }
    }
    count
}

/// The tick of a frame, by its number from 1, where the output has it.
fn add_frame_tick(views: &mut Views, out: &[u8], number: usize) -> Result<(), AllocError> {
    let at = frame_at(number);
    match (out.get(at), number_at(out, at.saturating_add(1), 8)) {
        (Some(b'F'), Some(tick)) => views.add(&[tick]),
        _ => Ok(()),
    }
}

/// A number of the output's records; 0 past their end.
fn number_or_0(records: &[u8], at: usize, count: usize) -> u64 {
    number_at(records, at, count).unwrap_or(0)
}

/// Whether these records are whole memories and the record of the end.
fn is_end(records: &[u8]) -> bool {
    records.len() == END_AT + 41
        && records.first() == Some(&b'M')
        && records.get(END_AT) == Some(&b'E')
}

/// The numbers of the record of the end, where it ends the output and all was told.
fn add_end(views: &mut Views, came: &Came) -> Result<(), AllocError> {
    let records = records_of(came);
    if !is_end(records) || !came.is_told {
        return views.add(&[]);
    }
    let mut numbers = [0; 5];
    for i in 0..5usize {
        numbers[i] = number_or_0(records, END_AT + 1 + 8 * i, 8);
    }
    views.add(&numbers)
}

/// The numbers of the record of a stop, where it is alone and all was told.
fn add_stop(views: &mut Views, came: &Came) -> Result<(), AllocError> {
    let records = records_of(came);
    if records.len() != 15 || records.first() != Some(&b'X') || !came.is_told {
        return views.add(&[]);
    }
    let tick = number_or_0(records, 1, 8);
    let rank = number_or_0(records, 9, 1);
    let kind = number_or_0(records, 10, 1);
    views.add(&[tick, rank, kind, number_or_0(records, 11, 4)])
}

/// How the output stands to the one that was kept.
fn kept_of(came: &Came, kept: &[u8]) -> u64 {
    let out = came.out.as_slice();
    if out == kept {
        2
    } else if kept.starts_with(out) {
        1
    } else if before_turns(out) == before_turns(kept) {
        3
    } else {
        0
    }
}

/// What an output has before its last eight bytes, the count of turns.
fn before_turns(out: &[u8]) -> &[u8] {
    out.get(..out.len().saturating_sub(8)).unwrap_or(&[])
}

/// The place of a memory among the memories as they are written.
pub fn place_of(memory: Memory) -> usize {
    match memory {
        Memory::Main => 0,
        Memory::Shared => 0x40_0000,
        Memory::Own7 => 0x40_8000,
        Memory::Itcm => 0x41_8000,
        Memory::Dtcm => 0x42_0000,
        Memory::Palette => 0x42_4000,
        Memory::Vram => 0x42_4800,
        Memory::Oam => 0x4C_8800,
    }
}

/// Words of the output from a place of its memories on, where the run came to its tick.
pub fn add_written(
    views: &mut Views,
    came: &Came,
    at: usize,
    count: usize,
) -> Result<(), AllocError> {
    let records = records_of(came);
    if records.first() != Some(&b'M') {
        return Ok(());
    }
    views.add_words(records, at, count)
}

/// The place of a processor's registers in the output of a run that comes to its tick.
pub fn registers_at(proc: Proc) -> usize {
    match proc {
        Proc::Nine => NINE_AT,
        Proc::Seven => SEVEN_AT,
    }
}

/// One number of what the call wrote and answered, where that is one and is there.
fn number_of(came: &Came, kept: &[u8], of: Quantity) -> Option<u64> {
    match of {
        Quantity::Status => Some(u64::from(came.status?)),
        Quantity::Length => Some(came.out.len() as u64),
        Quantity::Told => Some(u64::from(came.is_told)),
        Quantity::Kept => Some(kept_of(came, kept)),
        Quantity::Near => Some(u64::from(kept_of(came, kept) >= 2)),
        _ => None,
    }
}

/// Adds such a number.
fn add_number(views: &mut Views, came: &Came, kept: &[u8], of: Quantity) -> Result<(), AllocError> {
    match number_of(came, kept, of) {
        Some(number) => views.add(&[number]),
        None => Ok(()),
    }
}

/// What the call wrote and answered; false where the numbers aren't of that.
pub fn add_answer(
    views: &mut Views,
    came: &Came,
    kept: &[u8],
    of: Quantity,
) -> Result<bool, AllocError> {
    match of {
        Quantity::Status | Quantity::Length | Quantity::Told | Quantity::Kept | Quantity::Near => {
            add_number(views, came, kept, of)?;
        }
        Quantity::Frame(number) => add_frame_tick(views, came.out.as_slice(), number)?,
        Quantity::End => add_end(views, came)?,
        Quantity::Stop => add_stop(views, came)?,
        _ => return Ok(false),
    }
    Ok(true)
}
