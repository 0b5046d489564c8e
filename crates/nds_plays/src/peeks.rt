//! Bytes of a memory after a run.

ghost use Rattle.std.specs.Prelude.{◌≡◌, ◌≤◌, ◌+◌, ◌^◌, None, length};
ghost use Rattle.ds_base.specs.Memories.{memory_size};
ghost use Rattle.nds_plays.specs.Watches.{WritesAfter, bytes_at, peeked};

use crate::plays::Played;
use crate::throughs::run_through;
use ds_base::{Memory, Tick};
use ds_io::Sink;
use nds_records::put_peek;
use run_ahead::Console;

/// The most bytes that are peeked at.
const MOST: usize = 4096;

/// Takes bytes of a memory from a place on, as many as there is room for.
fn copy(console: &Console, memory: Memory, place: usize, into: &mut [u8])
    requires { place + length into.old ≤ memory_size memory }
    ensures { into.new ≡ bytes_at memory place (length into.old) console.now.machine }
{
    for i in 0..into.len() {
        into[i] = console.byte_of(memory, (place + i) as u32);
    }
}

/// Runs a console to a tick, and writes so many bytes of a memory from a place on, as they are then: 16 a line. Where it stops before, nothing
/// is written.
pub fn peek<O: Sink>(
    console: &mut Console,
    until: Tick,
    memory: Memory,
    place: usize,
    count: usize,
    out: &mut O,
) -> Played
    requires early { until.0 ≤ 2 ^ 56 }
    requires open { console.old.stopped ≡ None }
    requires few { count ≤ 4096 }
    requires within { place + count ≤ memory_size memory }
    ensures { WritesAfter O.tells O.taken O.faults until.0 (peeked memory place count) console.old out.old result console.new out.new }
{
    if let Some(left) = run_through(console, until) {
        return Played::LeftOut(left);
    }
    let mut bytes = [0; MOST];
    let bytes = &mut bytes[..count];
    copy(console, memory, place, bytes);
    match put_peek(out, place as u32, bytes) {
        Ok(()) => Played::Done,
        Err(_) => Played::WriteFault,
    }
}
