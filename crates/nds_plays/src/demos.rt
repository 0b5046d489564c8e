//! What came of a run.

ghost use Rattle.std.specs.Prelude.{◌≡◌, ◌≤◌, ◌<◌, ◌^◌, None, List, ℕ, length};
ghost use Rattle.nds_plays.specs.Taken.{HasTaken};
ghost use Rattle.ds_io.specs.Puts.{Puts};
ghost use Rattle.nds_plays.specs.Watches.{WritesAfter, demo_lines, demo_of};

use crate::hashes::HashSink;
use crate::plays::{Played, play};
use ds_base::Tick;
use ds_io::{Failed, Sink, put_parts};
use itoa::Buffer;
use nds_records::digest_line;
use nds_words::Keep;
use run_ahead::{Console, Counts};

/// Runs a console to a tick, and writes what came of it in four lines, which name the number that the run is of: how many bytes the run would
/// write with all its frames and lists, their SHA-256, and the counts. Where it stops before, nothing is written.
pub fn demo<O: Sink>(console: &mut Console, number: u32, until: Tick, out: &mut O) -> Played
    requires early { until.0 ≤ 2 ^ 56 }
    requires open { console.old.stopped ≡ None }
    ensures { WritesAfter O.tells O.taken O.faults until.0
        (demo_of number until.0 console.old.machine) console.old out.old result console.new out.new }
{
    let mut sink = HashSink::new();
    match play(console, until, Keep::All, &mut sink) {
        Played::Done => {}
        Played::LeftOut(left) => return Played::LeftOut(left),
        Played::WriteFault => unreachable!(),
    }
    match put_demo(out, number, until, sink, console) {
        Ok(()) => Played::Done,
        Err(_) => Played::WriteFault,
    }
}

/// Writes the four lines of a demo.
fn put_demo<O: Sink>(
    out: &mut O,
    number: u32,
    until: Tick,
    sink: HashSink,
    console: &Console,
) -> Result<(), Failed>
    ensures { (output : List ℕ) → HasTaken sink output → length output < 2 ^ 64
        → Puts O.tells O.taken O.faults (demo_lines number until.0 output console.now) result out.old out.new }
{
    let Counts {
        nine,
        seven,
        events,
        turns,
    } = console.counts();
    let bytes = sink.count();
    let digest = digest_line(&sink.digest());
    let mut number_text = Buffer::new();
    let mut until_text = Buffer::new();
    let mut bytes_text = Buffer::new();
    let mut nine_text = Buffer::new();
    let mut seven_text = Buffer::new();
    let mut events_text = Buffer::new();
    let mut turns_text = Buffer::new();
    put_parts(
        out,
        &[
            b"demo ",
            number_text.format(number).as_bytes(),
            b" ",
            until_text.format(until.0).as_bytes(),
            b"\nbytes ",
            bytes_text.format(bytes).as_bytes(),
            b"\n",
            digest.bytes(),
            b"steps9 ",
            nine_text.format(nine).as_bytes(),
            b" steps7 ",
            seven_text.format(seven).as_bytes(),
            b" events ",
            events_text.format(events).as_bytes(),
            b" turns ",
            turns_text.format(turns).as_bytes(),
            b"\n",
        ],
    )
}
