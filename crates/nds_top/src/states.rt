//! The commands that write a console in bytes, and go on from one.

ghost use Rattle.std.specs.Prelude.{◌≡◌, ◌≤◌, None, option_map};
ghost use Rattle.ds_io.specs.Shelves.{files_of};
ghost use Rattle.nds_plays.specs.Calls.{around};
ghost use Rattle.nds_words.specs.Words.{AskSave};
ghost use Rattle.nds_top.specs.Answers.{CommandGives};
ghost use Rattle.nds_top.specs.StateAnswers.{ResumeGives};

use crate::runs::run_seated;
use crate::statuses::status_of;
use ds_base::Tick;
use ds_io::{Shelf, Sink};
use nds_answers::{Ended, Status};
use nds_plays::{clear_seat, seat_resumed, seat_run};
use nds_words::{Keep, RunFiles};
use run_ahead::Console;
use std::alloc::Global;

/// Runs a cartridge with the keys of its script to a tick, and writes the console as it is then. Where there is no memory for its bytes, no console
/// is left.
pub fn save<'a, F: Shelf, O: Sink>(
    alloc: Global,
    files: RunFiles<'a>,
    ticks: u64,
    shelf: &mut F,
    out: &mut O,
    seat: &mut Option<Console>,
) -> Ended<'a>
    requires early { ticks ≤ 100000000000 }
    requires empty { seat.old ≡ None }
    ensures answer { CommandGives (around F.told F.faults O.tells O.taken O.faults shelf.old shelf.new out.old out.new seat.new)
        (AskSave files.entry.cart.now (option_map (λ name. name.now) files.entry.keys) ticks) result.file.now result.status }
    ensures files { files_of (F.told shelf.new) ≡ files_of (F.told shelf.old) }
{
    if let Err(ended) = seat_run(alloc, files.cart, files.keys, shelf, seat) {
        return ended;
    }
    let Some(console) = seat else { unreachable!() };
    let file = files.cart;
    let Ok(played) = nds_plays::save(alloc, console, Tick(ticks), out) else {
        clear_seat(seat);
        let status = Status::NoMemory;
        return Ended { status, file };
    };
    let status = status_of(played);
    Ended { status, file }
}

/// Goes on from a saved console to a tick, with its cartridge and the keys of its script.
pub fn resume<'a, F: Shelf, O: Sink>(
    alloc: Global,
    state: &'a str,
    files: RunFiles<'a>,
    ticks: u64,
    keep: Keep,
    shelf: &mut F,
    out: &mut O,
    seat: &mut Option<Console>,
) -> Ended<'a>
    requires early { ticks ≤ 100000000000 }
    requires empty { seat.old ≡ None }
    ensures answer { ResumeGives (around F.told F.faults O.tells O.taken O.faults shelf.old shelf.new out.old out.new seat.new) state.entry.now
        files.entry.cart.now (option_map (λ name. name.now) files.entry.keys) ticks keep result.file.now result.status }
    ensures files { files_of (F.told shelf.new) ≡ files_of (F.told shelf.old) }
{
    let until = Tick(ticks);
    if let Err(ended) = seat_resumed(alloc, state, files.cart, files.keys, until, shelf, seat) {
        return ended;
    }
    let Some(console) = seat else { unreachable!() };
    let status = run_seated(console, ticks, keep, out);
    let file = files.cart;
    Ended { status, file }
}
