//! The top call.

ghost use Rattle.std.specs.Prelude.{◌≡◌, List, None, map, ℕ};
ghost use Rattle.std.specs.String.{string_bytes};
ghost use Rattle.ds_io.specs.Shelves.{files_of};
ghost use Rattle.nds_plays.specs.Calls.{around};
ghost use Rattle.nds_top.specs.Answers.{CommandGives, Gives};
ghost use Rattle.nds_words.specs.CommandLaws.{asked_by};
ghost use Rattle.nds_answers.specs.Notes.{Noted, note_of};
ghost use Rattle.nds_words.specs.Words.{IsAllowed};

use crate::demos::demo;
use crate::listings::{assemble, list};
use crate::peeks::peek;
use crate::runs::run;
use crate::states::{resume, save};
use crate::steps::trace;
use ds_io::{Shelf, Sink};
use nds_answers::{Ended, Status, note};
use nds_words::{Command, read_words};
use run_ahead::Console;
use std::alloc::Global;

/// Carries out what the words of a command line ask for, and says how it ended. `words` leaves out the program's name. The
/// output goes to `out`, and the line that tells the status to `notes`. The console that ran is left in `seat`, which is empty
/// before, and stays so where none ran, and after a trace.
///
/// - `run CART KEYS TICKS KEEP` boots a cartridge, runs it to a tick, and writes the records of memories and of the end, or that
///   of the stop that it came to. KEYS is the file of a key script, which says which keys are pressed and when; `none` presses none.
/// - `list CART PROC` writes the listing of one image of a cartridge: of ARM9's, `9`, or ARM7's, `7`, as words, or of the same
///   as halves, `9t` and `7t`.
/// - `asm FILE` writes the bytes whose listing the file is. All of it is read before the first byte is written.
/// - `trace CART KEYS TICKS PROC COUNT` runs a cartridge as `run` does, to the tick at most, and writes a line for each of the first
///   steps of ARM9, `9`, or ARM7, `7`: when it is taken, and what is executed. It runs no further than to the last line. A step at which the run
///   stops has none.
/// - `peek CART KEYS TICKS MEMORY PLACE LENGTH` runs a cartridge as `run` does, and writes bytes of a memory as they are at the tick.
///   MEMORY is `main`, `wram`, `wram7`, `itcm`, `dtcm`, `palette`, `vram` or `oam`. Where the run stops nothing is written.
/// - `demo NUMBER TICKS` runs the cartridge that is made from a number, and writes how many bytes `run` would write of it with all frames and
///   lists, their SHA-256, and the counts. Where the run stops nothing is written.
/// - `save CART KEYS TICKS` runs a cartridge as `run` does, and writes the console in bytes, as it is at the tick. Where the run stops nothing is
///   written.
/// - `resume STATE CART KEYS TICKS KEEP` goes on from such bytes, in the file STATE, and writes what `run` does from there on. The cartridge
///   has to be the one whose SHA-256 the bytes have, and their tick below TICKS. The count of turns in the end goes on from the bytes'; the
///   script's lines before their tick are left out.
///
/// A file's name isn't empty and doesn't begin with `-`. A cartridge has 33,554,432 bytes at most, a key script 4,194,304, a
/// listing 134,217,728, a saved console 8,388,608. The script is looked for once the cartridge is accepted, and the cartridge once the saved
/// console's file is read; of the files' refusals the first is told. The shelf's files stay as they were.
pub fn ds_main<F: Shelf, O: Sink, N: Sink>(
    alloc: Global,
    words: &[String],
    shelf: &mut F,
    out: &mut O,
    notes: &mut N,
    seat: &mut Option<Console>,
) -> Status
    requires { seat.old ≡ None }
    ensures answer { (named : List ℕ)
        × Gives (around F.told F.faults O.tells O.taken O.faults shelf.old shelf.new out.old out.new seat.new)
        (map string_bytes words.now) named result
        × Noted N.tells N.taken N.faults (note_of result named) notes.old notes.new }
    ensures files { files_of (F.told shelf.new) ≡ files_of (F.told shelf.old) }
{
    match read_words(words) {
        None => {
            note(notes, &Status::Usage, "");
            Status::Usage
        }
        Some(command) => {
            let ended = carry_out(alloc, command, shelf, out, seat);
            note(notes, &ended.status, ended.file);
            ended.status
        }
    }
}

/// Carries out a command.
fn carry_out<'a, F: Shelf, O: Sink>(
    alloc: Global,
    command: Command<'a>,
    shelf: &mut F,
    out: &mut O,
    seat: &mut Option<Console>,
) -> Ended<'a>
    requires allowed { IsAllowed (asked_by command) }
    requires empty { seat.old ≡ None }
    ensures answer { CommandGives (around F.told F.faults O.tells O.taken O.faults shelf.old shelf.new out.old out.new seat.new)
        (asked_by command.entry) result.file.now result.status }
    ensures files { files_of (F.told shelf.new) ≡ files_of (F.told shelf.old) }
{
    match command {
        Command::Run { files, ticks, keep } => run(alloc, files, ticks, keep, shelf, out, seat),
        Command::List { cart, proc, set } => Ended {
            status: list(alloc, cart, proc, set, shelf, out),
            file: cart,
        },
        Command::Asm { file } => Ended {
            status: assemble(alloc, file, shelf, out),
            file,
        },
        Command::Trace {
            files,
            ticks,
            proc,
            count,
        } => trace(alloc, files, ticks, proc, count, shelf, out),
        Command::Peek {
            files,
            ticks,
            memory,
            place,
            count,
        } => peek(alloc, files, ticks, memory, place, count, shelf, out, seat),
        Command::Demo { number, ticks } => Ended {
            status: demo(alloc, number, ticks, shelf, out, seat),
            file: "",
        },
        Command::Save { files, ticks } => save(alloc, files, ticks, shelf, out, seat),
        Command::Resume {
            state,
            files,
            ticks,
            keep,
        } => resume(alloc, state, files, ticks, keep, shelf, out, seat),
    }
}
