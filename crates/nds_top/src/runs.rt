//! The command that runs a cartridge.

ghost use Rattle.std.specs.Prelude.{◌≡◌, ◌≤◌, None, option_map};
ghost use Rattle.ds_io.specs.Shelves.{files_of};
ghost use Rattle.nds_plays.specs.Calls.{around};
ghost use Rattle.nds_words.specs.Words.{AskRun};
ghost use Rattle.nds_top.specs.Answers.{CommandGives};
ghost use Rattle.nds_top.specs.Inside.{RunsSo};

use ds_base::Tick;
use ds_io::{Shelf, Sink};
use nds_answers::{Ended, Status};
use nds_plays::{Played, play, seat_run};
use nds_words::{Keep, RunFiles};
use run_ahead::Console;
use std::alloc::Global;

/// Runs a cartridge to a tick, with the keys of its script.
pub fn run<'a, F: Shelf, O: Sink>(
    alloc: Global,
    files: RunFiles<'a>,
    ticks: u64,
    keep: Keep,
    shelf: &mut F,
    out: &mut O,
    seat: &mut Option<Console>,
) -> Ended<'a>
    requires early { ticks ≤ 100000000000 }
    requires empty { seat.old ≡ None }
    ensures answer { CommandGives (around F.told F.faults O.tells O.taken O.faults shelf.old shelf.new out.old out.new seat.new)
        (AskRun files.entry.cart.now (option_map (λ name. name.now) files.entry.keys) ticks keep) result.file.now result.status }
    ensures files { files_of (F.told shelf.new) ≡ files_of (F.told shelf.old) }
{
    if let Err(ended) = seat_run(alloc, files.cart, files.keys, shelf, seat) {
        return ended;
    }
    let Some(console) = seat else { unreachable!() };
    let status = run_seated(console, ticks, keep, out);
    let file = files.cart;
    Ended { status, file }
}

/// Runs the console of a seat to a tick.
pub(crate) fn run_seated<O: Sink>(
    console: &mut Console,
    ticks: u64,
    keep: Keep,
    out: &mut O,
) -> Status
    requires early { ticks ≤ 100000000000 }
    requires open { console.old.stopped ≡ None }
    ensures { RunsSo O.tells O.taken O.faults ticks keep console.old out.old result console.new out.new }
{
    match play(console, Tick(ticks), keep, out) {
        Played::Done => Status::Done,
        Played::LeftOut(left) => Status::LeftOut(left),
        Played::WriteFault => Status::WriteFault,
    }
}
