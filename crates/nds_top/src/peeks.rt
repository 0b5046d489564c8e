//! The command that writes bytes of a memory.

ghost use Rattle.std.specs.Prelude.{◌≡◌, ◌≤◌, ◌+◌, None, option_map};
ghost use Rattle.ds_base.specs.Memories.{memory_size};
ghost use Rattle.ds_io.specs.Shelves.{files_of};
ghost use Rattle.nds_plays.specs.Calls.{around};
ghost use Rattle.nds_words.specs.Words.{AskPeek};
ghost use Rattle.nds_top.specs.Answers.{CommandGives};

use crate::statuses::status_of;
use ds_base::{Memory, Tick};
use ds_io::{Shelf, Sink};
use nds_answers::Ended;
use nds_plays::seat_run;
use nds_words::RunFiles;
use run_ahead::Console;
use std::alloc::Global;

/// Runs a cartridge with the keys of its script to a tick, and writes so many bytes of a memory from a place on, as they are then.
pub fn peek<'a, F: Shelf, O: Sink>(
    alloc: Global,
    files: RunFiles<'a>,
    ticks: u64,
    memory: Memory,
    place: usize,
    count: usize,
    shelf: &mut F,
    out: &mut O,
    seat: &mut Option<Console>,
) -> Ended<'a>
    requires early { ticks ≤ 100000000000 }
    requires few { count ≤ 4096 }
    requires within { place + count ≤ memory_size memory }
    requires empty { seat.old ≡ None }
    ensures answer { CommandGives (around F.told F.faults O.tells O.taken O.faults shelf.old shelf.new out.old out.new seat.new)
        (AskPeek files.entry.cart.now (option_map (λ name. name.now) files.entry.keys) ticks memory place count) result.file.now result.status }
    ensures files { files_of (F.told shelf.new) ≡ files_of (F.told shelf.old) }
{
    if let Err(ended) = seat_run(alloc, files.cart, files.keys, shelf, seat) {
        return ended;
    }
    let Some(console) = seat else { unreachable!() };
    let played = nds_plays::peek(console, Tick(ticks), memory, place, count, out);
    let (status, file) = (status_of(played), files.cart);
    Ended { status, file }
}
