//! One side in bytes.

ghost use Rattle.std.specs.Prelude.{◌≡◌, ◌≤◌, IfOk, OnOk, [], length};
ghost use Rattle.circular_buffer.specs.Buffer.{buffer};
ghost use Rattle.ds_ipc.specs.Sides.{AreWords};
ghost use Rattle.ds_ipc.specs.Saved.{saved_control, side_format, with_words};
ghost use Rattle.ds_state.specs.Formats.{bytes_written, word_format, written_each};
ghost use Rattle.ds_state.specs.Reading.{GivesIn, read_format, read_list};

use super::{Side, WORDS, control_kept, has, mark};
use circular_buffer::HeapCircularBuffer;
use ds_base::Tick;
use ds_state::{Packer, Unpacked, Unpacker, put_list, take_list};
use std::alloc::{AllocError, Global};

/// The bits of IPCFIFOCNT that a side keeps.
const KEPT: u16 = 0xC404;

/// The kept bits of a side's IPCFIFOCNT.
fn control(own: &Side) -> u16
    ensures { result ≡ saved_control own.now }
{
    control_kept(own) + mark(14, own.error)
}

/// Puts a side, with the words that wait for it.
#[tactic(auto, unfolding(crate::specs::Saved::side_format))]
pub fn put(into: &mut Packer, own: &Side, other: &Side) -> Result<(), AllocError>
    ensures { OnOk result (into.new ≡ bytes_written side_format into.old (with_words own.now other.now.words)) }
{
    into.put_u8(own.passed as u8)?;
    into.put_flag(own.sync_raises)?;
    into.put_u16(control(own))?;
    into.put_u32(own.last)?;
    into.put_u8(other.words.len() as u8)?;
    put_words(into, &other.words)
}

/// Puts the words that wait.
fn put_words(into: &mut Packer, words: &HeapCircularBuffer<u32>) -> Result<(), AllocError>
    ensures { OnOk result (into.new ≡ written_each (bytes_written word_format) into.old words.now.items) }
{
    let (front, back) = words.as_slices();
    put_list(into, front)?;
    put_list(into, back)?;
    Ok(())
}

/// Takes so many words that wait.
fn take_words(
    alloc: Global,
    from: &mut Unpacker,
    count: u8,
    at: Tick,
) -> Result<HeapCircularBuffer<u32>, Unpacked>
    requires { count ≤ 16 }
    ensures reads { GivesIn (λ b. b.items) result from.new (read_list (read_format word_format at.0) count from.old) }
    ensures room { IfOk result (λ b. b.capacity ≡ 16) }
    ensures few { IfOk result (λ b. length b.items ≤ 16) }
    ensures words { IfOk result (λ b. AreWords b.items) }
{
    let received = take_list(alloc, from, count as u32, at.0)?;
    let mut words = HeapCircularBuffer::with_capacity(alloc, WORDS)?;
    fill(&mut words, &received);
    Ok(words)
}

/// Puts so many words into an empty FIFO.
fn fill(words: &mut HeapCircularBuffer<u32>, received: &[u32])
    requires empty { words.old ≡ buffer [] 16 }
    requires few { length received.now ≤ 16 }
    ensures state { words.new ≡ buffer received.now 16 }
    ensures fit { AreWords received.now }
{
    words.extend_from_slice(received);
}

/// Takes a side, with the words that wait for it.
#[tactic(auto, unfolding(crate::specs::Saved::side_format))]
pub fn take(alloc: Global, from: &mut Unpacker, at: Tick) -> Result<Side, Unpacked>
    ensures { GivesIn (λ s. s) result from.new (read_format side_format at.0 from.old) }
{
    let passed = from.take_at_most(15)? as u16;
    let sync_raises = from.take_flag()?;
    let control = from.take_kept_half(KEPT)?;
    let last = from.take_u32()?;
    let count = from.take_at_most(16)?;
    let words = take_words(alloc, from, count, at)?;
    Ok(Side {
        passed,
        sync_raises,
        words,
        last,
        error: has(control, 14),
        enabled: has(control, 15),
        empty_raises: has(control, 2),
        filled_raises: has(control, 10),
    })
}

/// Both sides, each with the words of the other.
pub fn crossed(nine: Side, seven: Side) -> (Side, Side)
    ensures nine { result.0 ≡ with_words nine seven.words }
    ensures seven { result.1 ≡ with_words seven nine.words }
{
    let mut nine = nine;
    let mut seven = seven;
    std::mem::swap(&mut nine.words, &mut seven.words);
    (nine, seven)
}
