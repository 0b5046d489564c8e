//! The program: it hands the system's files and streams and the command line's words to the top call, and ends with the number
//! of its status. It does nothing else.
//!
//! It is trusted, and has no contract of its own, so no wrong bodies. Status 12 or 13 where the system can't give the words. One run is
//! stored: without words the status is 2.
#![tactic(auto)]

ghost use Rattle.std.specs.Prelude.{◌≡◌, None};

use ds_io::{DiskShelf, Shelf, Sink, StdSink};
use nds_top::{ds_main, empty_seat, let_go, number};
use run_ahead::Console;
use std::alloc::Global;
use std::io::ErrorKind;
use std::process::ExitCode;
use std::{env, io};

/// Where the system can't give the words: for want of memory, and for any other cause.
const NO_MEMORY: u8 = 12;

const NO_WORDS: u8 = 13;

/// The words after the program's name.
fn words(rt: &HostRuntime) -> io::Result<Vec<String>> {
    let mut words = Vec::new(rt.alloc());
    for word in env::args(rt)?.skip(1) {
        words.push(word)?;
    }
    Ok(words)
}

/// The top call over any shelf and sinks: its status's number.
fn number_of_call<F: Shelf, O: Sink, N: Sink>(
    alloc: Global,
    words: &[String],
    shelf: &mut F,
    out: &mut O,
    notes: &mut N,
    seat: &mut Option<Console>,
) -> u8
    requires { seat.old ≡ None }
{
    number(&ds_main(alloc, words, shelf, out, notes, seat))
}

fn main(rt: HostRuntime) -> ExitCode {
    let words = match words(&rt) {
        Ok(words) => words,
        Err(fault) if fault.kind() == ErrorKind::OutOfMemory => return ExitCode::from(NO_MEMORY),
        Err(_) => return ExitCode::from(NO_WORDS),
    };
    let mut shelf = DiskShelf::new(&rt);
    let mut out = StdSink::new(io::writer(&rt));
    let mut notes = StdSink::new(rt.stderr());
    let mut seat = empty_seat();
    let status = number_of_call(
        rt.alloc(),
        words.as_slice(),
        &mut shelf,
        &mut out,
        &mut notes,
        &mut seat,
    );
    let_go(seat);
    ExitCode::from(status)
}
