//! The steps of a processor, as it takes them.

ghost use Rattle.std.specs.Prelude.{◌≡◌, ◌≤◌, ◌<◌, ◌+◌, ◌^◌, None, length, option_to_list};
ghost use Rattle.std.specs.List.{concat};
ghost use Rattle.ds_machine.specs.Inspections.{seen_of};
ghost use Rattle.ds_machine.specs.Sound.{IsSound};
ghost use Rattle.ds_io.specs.Puts.{Puts};
ghost use Rattle.run_ahead.specs.TickTurns.{IsTickBefore};
ghost use Rattle.nds_plays.specs.TraceParts.{IsLineDue, Took};
ghost use Rattle.nds_plays.specs.Watches.{Traces, seen_line};

use crate::plays::Played;
use asm_text::Set;
use ds_base::{LeftOut, Proc, Tick, known};
use ds_io::{Failed, Sink, put_all};
use ds_machine::rank_of;
use nds_records::{OutLine, entry_line, step_line};
use run_ahead::{Console, Seen, Turned, tick_turn_laws};

/// What a turn of one tick comes to, of a console that hasn't stopped.
#[derive(Clone, Copy)]
pub(crate) enum Taken {
    /// It took its steps.
    Step,
    /// It met a stop.
    Stop(LeftOut),
}

/// The line of what a processor does at a tick.
fn seen_line(proc: Proc, tick: Tick, seen: Seen) -> OutLine
    ensures { result ≡ seen_line proc tick.0 seen }
{
    let arch = proc.architecture();
    match seen {
        Seen::Irq(at) => entry_line(tick, at),
        Seen::Word { at, word } => step_line(arch, Set::Arm, tick, at, word),
        Seen::Half { at, half } => step_line(arch, Set::Thumb, tick, at, half as u32),
        Seen::Idle => OutLine::new(),
    }
}

/// The line of the actor that acts next, where it is the processor and acts below a limit.
fn line_due(console: &Console, proc: Proc, limit: Tick) -> Option<OutLine>
    ensures { IsLineDue limit.0 proc console.now.machine result }
{
    let acting = console.acting();
    if acting.rank != rank_of(proc) || limit.0 <= acting.tick.0 {
        return None;
    }
    Some(seen_line(proc, acting.tick, console.seen(proc)))
}

/// Takes a turn whose limit is the tick after the one at which the first actor is due: one step of an actor that acts, or those of quiet geometry
/// alone.
fn take(console: &mut Console, limit: Tick) -> Taken
    requires early { limit.0 ≤ 2 ^ 56 }
    requires sound { IsSound console.old.machine }
    requires before { IsTickBefore limit.0 console.old.machine }
    requires open { console.old.stopped ≡ None }
    ensures { Took limit.0 console.old result console.new }
{
    known!(tick_turn_laws());
    match console.turn(limit) {
        Turned::Ran => Taken::Step,
        Turned::Frame { swapped: _ } => Taken::Step,
        Turned::Stopped(left) => Taken::Stop(left),
        Turned::AtEnd => unreachable!(),
    }
}

/// Writes a line, where there is one.
fn put_line<O: Sink>(out: &mut O, line: &Option<OutLine>) -> Result<(), Failed>
    ensures { Puts O.tells O.taken O.faults (concat (option_to_list line.now)) result out.old out.new }
{
    match line {
        Some(line) => put_all(out, line.bytes()),
        None => Ok(()),
    }
}

/// How many lines are left to write after one, where there is one.
fn fewer(left: u32, line: &Option<OutLine>) -> u32
    requires { 0 < left }
    ensures { result + length (option_to_list line.now) ≡ left }
{
    if line.is_some() { left - 1 } else { left }
}

/// Runs a console to a tick, and writes the first steps of a processor, so many at most: a line a step, which is found before the step is taken and
/// written once it was. A step at which it stops has no line. It runs no further than to the last line. Each turn is one of a single tick, so that it
/// takes one step of the processor at most.
pub fn trace<O: Sink>(
    console: &mut Console,
    until: Tick,
    proc: Proc,
    count: u32,
    out: &mut O,
) -> Played
    requires early { until.0 ≤ 2 ^ 56 }
    requires open { console.old.stopped ≡ None }
    ensures { Traces O.tells O.taken O.faults until.0 proc count console.old.machine out.old result out.new }
{
    let mut left = count;
    'turns: loop {
        known!(console.laws());
        if left == 0 {
            known!(console.has_runs());
            return Played::Done;
        }
        let due = console.due();
        if until.0 <= due.tick.0 {
            return Played::Done;
        }
        let limit = Tick(due.tick.0 + 1);
        let line = line_due(console, proc, limit);
        match take(console, limit) {
            Taken::Step => {}
            Taken::Stop(stop) => return Played::LeftOut(stop),
        }
        match put_line(out, &line) {
            Ok(()) => {}
            Err(_) => {
                known!(console.has_runs());
                return Played::WriteFault;
            }
        }
        left = fewer(left, &line);
    }
}
