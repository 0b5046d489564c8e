//! The command that writes the steps of a processor.

ghost use Rattle.std.specs.Prelude.{◌≡◌, ◌≤◌, None, option_map};
ghost use Rattle.ds_io.specs.Shelves.{files_of};
ghost use Rattle.nds_plays.specs.Calls.{around};
ghost use Rattle.nds_words.specs.Words.{AskTrace};
ghost use Rattle.nds_top.specs.Answers.{CommandGives};

use crate::statuses::status_of;
use ds_base::{Proc, Tick};
use ds_io::{Shelf, Sink};
use nds_answers::Ended;
use nds_plays::{empty_seat, let_go, seat_run};
use nds_words::RunFiles;
use run_ahead::Console;
use std::alloc::Global;

/// Runs a cartridge with the keys of its script to a tick at most, and writes the first steps of a processor, so many at most.
pub fn trace<'a, F: Shelf, O: Sink>(
    alloc: Global,
    files: RunFiles<'a>,
    ticks: u64,
    proc: Proc,
    count: u32,
    shelf: &mut F,
    out: &mut O,
) -> Ended<'a>
    requires { ticks ≤ 100000000000 }
    ensures answer { CommandGives (around F.told F.faults O.tells O.taken O.faults shelf.old shelf.new out.old out.new None)
        (AskTrace files.entry.cart.now (option_map (λ name. name.now) files.entry.keys) ticks proc count) result.file.now result.status }
    ensures files { files_of (F.told shelf.new) ≡ files_of (F.told shelf.old) }
{
    let mut seat = empty_seat();
    let ended = trace_seated(alloc, files, ticks, proc, count, shelf, out, &mut seat);
    let_go(seat);
    ended
}

/// The same, in a seat. Its console is let go by the caller.
fn trace_seated<'a, F: Shelf, O: Sink>(
    alloc: Global,
    files: RunFiles<'a>,
    ticks: u64,
    proc: Proc,
    count: u32,
    shelf: &mut F,
    out: &mut O,
    seat: &mut Option<Console>,
) -> Ended<'a>
    requires early { ticks ≤ 100000000000 }
    requires empty { seat.old ≡ None }
    ensures answer { CommandGives (around F.told F.faults O.tells O.taken O.faults shelf.old shelf.new out.old out.new None)
        (AskTrace files.entry.cart.now (option_map (λ name. name.now) files.entry.keys) ticks proc count) result.file.now result.status }
    ensures files { files_of (F.told shelf.new) ≡ files_of (F.told shelf.old) }
{
    if let Err(ended) = seat_run(alloc, files.cart, files.keys, shelf, seat) {
        return ended;
    }
    let Some(console) = seat else { unreachable!() };
    let played = nds_plays::trace(console, Tick(ticks), proc, count, out);
    let (status, file) = (status_of(played), files.cart);
    Ended { status, file }
}
