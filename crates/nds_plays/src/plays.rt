//! Playing a console: a run, and what it writes.

ghost use Rattle.std.specs.Prelude.{◌≡◌, ◌≤◌, ◌+◌, ◌^◌, ◌++◌, length, None, OnOk};
ghost use Rattle.nds_plays.specs.Plays.{Plays};
ghost use Rattle.nds_plays.specs.Inside.{Ran, ending, most_after, most_shown, shown_after, shown_now};
ghost use Rattle.ds_io.specs.Puts.{Puts};
ghost use Rattle.nds_plays.specs.Records.{last_records, latest_of};

use crate::records::{put_last, put_latest, put_now, put_stop};
use ds_base::{LeftOut, Tick, known};
use ds_io::{Failed, Sink};
use ds_machine::frame_laws;
use nds_words::Keep;
use run_ahead::{Console, Turned};

/// How playing a console ended.
#[derive(Clone, Copy, PartialEq, Eq, Debug)]
pub enum Played {
    /// It came to the tick, and all is written.
    Done,
    /// It came to a stop, and all is written.
    LeftOut(LeftOut),
    /// A call of the sink failed; a front is written.
    WriteFault,
}

/// Runs a console to a tick, and writes what the run gives: the frames and geometry lists that are kept, each as it comes or the last ones after the
/// run, and then the records of memories and of the end, or that of the stop alone. Where the run makes no frame whole, the console's last whole
/// frame before it is the last, and so it is with lists. What is written has fewer than 2^64 bytes: frames are 1,120,380 ticks apart, and what each
/// writes has at most 383,006 bytes.
pub fn play<O: Sink>(console: &mut Console, until: Tick, keep: Keep, out: &mut O) -> Played
    requires early { until.0 ≤ 2 ^ 56 }
    requires open { console.old.stopped ≡ None }
    ensures played { Plays O.tells O.taken O.faults until.0 keep console.old out.old result console.new out.new }
    ensures later { O.faults out.old ≤ O.faults out.new }
{
    known!(console.laws());
    known!(frame_laws());
    let Ok(stop) = run_to(console, until, keep, out) else {
        return Played::WriteFault;
    };
    if put_records(out, until, keep, stop, console).is_err() {
        return Played::WriteFault;
    }
    match stop {
        None => Played::Done,
        Some(left) => Played::LeftOut(left),
    }
}

/// Runs a console until no actor is due below a tick, or until it stops, and writes each frame and the lists that are swapped with it as they come,
/// where all are kept.
fn run_to<O: Sink>(
    console: &mut Console,
    until: Tick,
    keep: Keep,
    out: &mut O,
) -> Result<Option<LeftOut>, Failed>
    requires early { until.0 ≤ 2 ^ 56 }
    requires open { console.old.stopped ≡ None }
    ensures ran { Ran O.tells O.taken O.faults until.0 keep console.old out.old result console.new out.new }
    ensures later { O.faults out.old ≤ O.faults out.new }
{
    'turns: loop {
        match console.run_on(until) {
            Turned::Frame { swapped } => {
                known!(console.laws());
                put_shown(out, keep, swapped, console)?;
            }
            Turned::Stopped(left) => return Ok(Some(left)),
            Turned::AtEnd => return Ok(None),
            Turned::Ran => unreachable!(),
        }
    }
}

/// Writes the frame that just became whole, and the lists that were swapped there, where all are kept.
fn put_shown<O: Sink>(
    out: &mut O,
    keep: Keep,
    swapped: bool,
    console: &Console,
) -> Result<(), Failed>
    ensures put { Puts O.tells O.taken O.faults (shown_now keep swapped console.now.machine) result out.old out.new }
    ensures few { OnOk result (length (shown_now keep swapped console.now.machine) ≤ most_shown) }
{
    match keep {
        Keep::All => put_now(out, swapped, console),
        Keep::Last | Keep::Nothing => Ok(()),
    }
}

/// Writes the last whole frame and the last lists, where they are kept.
fn put_kept<O: Sink>(out: &mut O, keep: Keep, console: &Console) -> Result<(), Failed>
    ensures put { Puts O.tells O.taken O.faults (shown_after keep (latest_of console.now.machine)) result out.old out.new }
    ensures few { OnOk result (length (shown_after keep (latest_of console.now.machine)) ≤ most_shown) }
{
    match keep {
        Keep::Last => put_latest(out, console),
        Keep::All | Keep::Nothing => Ok(()),
    }
}

/// Writes the last records of a run, by the stop that it came to.
fn put_ending<O: Sink>(
    out: &mut O,
    until: Tick,
    stop: Option<LeftOut>,
    console: &Console,
) -> Result<(), Failed>
    ensures put { Puts O.tells O.taken O.faults (last_records until.0 console.now.turns (ending stop console.now.machine)) result out.old out.new }
    ensures few { length (last_records until.0 console.now.turns (ending stop console.now.machine)) + most_shown ≤ most_after }
{
    match stop {
        None => put_last(out, until, console),
        Some(left) => put_stop(out, left),
    }
}

/// Writes what comes after a run: the last whole frame and the last lists, where they are kept, and the last records.
fn put_records<O: Sink>(
    out: &mut O,
    until: Tick,
    keep: Keep,
    stop: Option<LeftOut>,
    console: &Console,
) -> Result<(), Failed>
    ensures put { Puts O.tells O.taken O.faults (shown_after keep (latest_of console.now.machine)
        ++ last_records until.0 console.now.turns (ending stop console.now.machine)) result out.old out.new }
    ensures few { OnOk result (length (shown_after keep (latest_of console.now.machine)
        ++ last_records until.0 console.now.turns (ending stop console.now.machine)) ≤ most_after) }
{
    put_kept(out, keep, console)?;
    put_ending(out, until, stop, console)
}
