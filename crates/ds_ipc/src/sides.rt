//! One processor's side, and what a call of one side does to both: `own` is the caller's, `other` the other processor's.

ghost use Rattle.std.specs.Prelude.{◌≡◌, ◌≤◌, IfOk};
ghost use Rattle.ds_base.specs.Bits.{bit, flag};
ghost use Rattle.ds_ipc.specs.Sides.{IsSide, side_at_boot, raised_if, sync_kept, sync_word, control_kept, sync_written, sync_raised, control_word, fifo_control_written, control_forgotten, control_raised, sent, send_raised, received, received_word, oldest_taken, receive_raised};

pub mod saved;

use circular_buffer::HeapCircularBuffer;
use ds_base::Interrupt;
use std::alloc::{AllocError, Global};
use std::marker::Model;

/// How many words a FIFO holds.
const WORDS: usize = 16;

/// One processor's side.
#[derive(Drop)]
pub struct Side {
    passed: u16,
    sync_raises: bool,
    words: HeapCircularBuffer<u32>,
    last: u32,
    error: bool,
    enabled: bool,
    empty_raises: bool,
    filled_raises: bool,
}

impl Model for Side {
    ghost use Rattle.std.specs.Prelude.{◌≡◌, ◌≤◌, ◌<◌, length};
    ghost use Rattle.ds_ipc.specs.Sides.{AreWords, Side};

    ghost Value = { Side };

    ghost view = { λ s. record {
      passed = s.passed;
      sync_raises = s.sync_raises;
      words = s.words.items;
      last = s.last;
      error = s.error;
      enabled = s.enabled;
      empty_raises = s.empty_raises;
      filled_raises = s.filled_raises;
    } };

    ghost invariant = { λ s. (s.words.capacity ≡ 16) × (length s.words.items ≤ 16) × (s.passed < 16) × AreWords s.words.items };
}

/// What a receive takes, and whether the other side hears of it.
#[derive(Clone, Copy)]
pub struct Taken {
    pub word: u32,
    pub raised: u32,
}

impl Side {
    pub fn new(alloc: Global) -> Result<Side, AllocError>
        ensures { IfOk result (λ side. side ≡ side_at_boot) }
    {
        let words = HeapCircularBuffer::with_capacity(alloc, WORDS)?;
        Ok(Side {
            passed: 0,
            sync_raises: false,
            words,
            last: 0,
            error: false,
            enabled: false,
            empty_raises: false,
            filled_raises: false,
        })
    }

    /// What holds of the side at every time.
    pub fn laws(&self)
        ensures { IsSide self.now }
    {
        let _last: u32 = self.last;
    }
}

fn has(value: u16, n: u8) -> bool
    requires { n ≤ 15 }
    ensures { result ≡ bit n value }
{
    (value >> n) & 1 == 1
}

fn mark(n: u8, set: bool) -> u16
    requires { n ≤ 15 }
    ensures { result ≡ flag n set }
{
    if set { 1 << n } else { 0 }
}

fn when(raised: bool, interrupt: Interrupt) -> u32
    ensures { result ≡ raised_if raised interrupt }
{
    if raised { interrupt.bit() } else { 0 }
}

pub fn sync_read(own: &Side, other: &Side) -> u16
    ensures { result ≡ sync_word own.now other.now }
{
    other.passed + (own.passed << 8) + mark(14, own.sync_raises)
}

pub fn sync_kept(own: &Side) -> u16
    ensures { result ≡ sync_kept own.now }
{
    (own.passed << 8) + mark(14, own.sync_raises)
}

pub fn sync_write(own: &mut Side, other: &Side, value: u16) -> u32
    ensures own { own.new ≡ sync_written own.old value }
    ensures raised { result ≡ sync_raised other.now value }
{
    own.passed = (value >> 8) & 15;
    own.sync_raises = has(value, 14);
    when(has(value, 13) && other.sync_raises, Interrupt::IpcSync)
}

pub fn control_read(own: &Side, other: &Side) -> u16
    ensures { result ≡ control_word own.now other.now }
{
    mark(0, own.words.is_empty())
        + mark(1, own.words.is_full())
        + mark(2, own.empty_raises)
        + mark(8, other.words.is_empty())
        + mark(9, other.words.is_full())
        + mark(10, own.filled_raises)
        + mark(14, own.error)
        + mark(15, own.enabled)
}

pub fn control_kept(own: &Side) -> u16
    ensures { result ≡ control_kept own.now }
{
    mark(2, own.empty_raises) + mark(10, own.filled_raises) + mark(15, own.enabled)
}

pub fn control_write(own: &mut Side, other: &mut Side, value: u16) -> u32
    ensures own { own.new ≡ fifo_control_written own.old value }
    ensures other { other.new ≡ control_forgotten other.old value }
    ensures raised { result ≡ control_raised own.old other.old value }
{
    let clears = has(value, 3);
    let rises_on_empty = has(value, 2) && !own.empty_raises && own.words.is_empty();
    let empties = clears && !own.words.is_empty();
    let rises_on_filled = has(value, 10) && !own.filled_raises && !other.words.is_empty();
    own.enabled = has(value, 15);
    own.empty_raises = has(value, 2);
    own.filled_raises = has(value, 10);
    own.error = own.error && !has(value, 14);
    if clears {
        own.words.clear();
        other.last = 0;
    }
    let emptied = when(
        rises_on_empty || own.empty_raises && empties,
        Interrupt::SendFifoEmpty,
    );
    let filled = when(rises_on_filled, Interrupt::ReceiveFifoNotEmpty);
    emptied + filled
}

pub fn send(own: &mut Side, other: &Side, word: u32) -> u32
    ensures own { own.new ≡ sent own.old word }
    ensures raised { result ≡ send_raised own.old other.now }
{
    if !own.enabled {
        return 0;
    }
    if own.words.is_full() {
        own.error = true;
        return 0;
    }
    let first = own.words.is_empty();
    own.words.push_back(word);
    when(first && other.filled_raises, Interrupt::ReceiveFifoNotEmpty)
}

pub fn look(own: &Side, other: &Side) -> u32
    ensures { result ≡ received_word own.now other.now }
{
    other.words.front().copied().unwrap_or(own.last)
}

pub fn receive(own: &mut Side, other: &mut Side) -> Taken
    ensures own { own.new ≡ received own.old other.old }
    ensures other { other.new ≡ oldest_taken own.old other.old }
    ensures word { result.word ≡ received_word own.old other.old }
    ensures raised { result.raised ≡ receive_raised own.old other.old }
{
    let takes = own.enabled;
    if !takes {
        let word = other.words.front().copied().unwrap_or(own.last);
        return Taken { word, raised: 0 };
    }
    match other.words.pop_front() {
        None => {
            own.error = true;
            Taken {
                word: own.last,
                raised: 0,
            }
        }
        Some(word) => {
            own.last = word;
            let raised = when(
                other.words.is_empty() && other.empty_raises,
                Interrupt::SendFifoEmpty,
            );
            Taken { word, raised }
        }
    }
}
