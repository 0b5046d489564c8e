//! The program: gdb's remote protocol on standard input and output, over a console with a cartridge and a key script.
//!
//! It is trusted, and has no contract of its own: its wrong bodies are unsafe, or don't end. It ends with status 0 when gdb goes or its input ends,
//! and as `nds` does where a file can't be read or isn't accepted; with 12 for want of memory, 5 where its output can't be written, 13 where the
//! system can't give the words.
//!
//! A session is kept in `stdin` and `stdout`. By hand, from gdb's manual (appendix "GDB Remote Serial Protocol") and the cartridge's code: each sum;
//! the plus, the minus to a wrong sum, the answer sent again to a minus, and no signs after QStartNoAckMode; the 64 bytes of the description behind
//! their `m`; the threads, and what is said of the first; the bytes at 2000000h; every OK, E01, E0e and empty answer; why each run stopped, by
//! which thread and where: before 20003ACh at the breakpoint, right behind it after a step, before 2000208h at the read of 2000394h, before the store
//! of 2000403h at 20001ECh and behind the one of 2000400h at 2000204h. Only kept: ticks, counts of steps, and registers but r15.
#![tactic(auto)]

use ds_io::{DiskShelf, Sink, StdSink, put_all};
use gdb_packets::Answer;
use gdb_session::{Deck, Line, Outlet, Tape};
use nds_answers::{Ended, Status, load_run, note, number};
use std::alloc::Global;
use std::fs::File;
use std::io::{Read, Write};
use std::process::ExitCode;
use std::rt::Files;
use std::{env, io};

/// Where the system can't give the words.
const NO_WORDS: u8 = 13;

/// The system's files.
#[derive(Drop)]
struct Disk<'a, R: Files> {
    rt: &'a R,
}

impl<R: Files> Outlet for Disk<'_, R> {
    fn write(&mut self, name: &str, bytes: &[u8]) -> bool {
        match File::create(self.rt, name) {
            Ok(mut file) => file.write_all(bytes).is_ok(),
            Err(_) => false,
        }
    }
}

/// The words after the program's name.
fn words(rt: &HostRuntime) -> io::Result<Vec<String>> {
    let mut words = Vec::new(rt.alloc());
    for word in env::args(rt)?.skip(1) {
        words.push(word)?;
    }
    Ok(words)
}

/// Answers what comes in until it ends, or gdb goes.
fn talk<D: Deck, F: Outlet, I: Read, O: Sink>(
    alloc: Global,
    deck: &mut D,
    files: &mut F,
    from: &mut I,
    to: &mut O,
) -> Status {
    let mut line = Line::new(alloc);
    let mut out = Answer::new(alloc);
    let mut buffer = [0u8; 4096];
    for _ in 0..u64::MAX {
        let count = match from.read(&mut buffer) {
            Ok(count) => count,
            Err(_) => return Status::ReadFault,
        };
        if count == 0 {
            return Status::Done;
        }
        out.clear();
        if line.hear(deck, files, &buffer[..count], &mut out).is_err() {
            return Status::NoMemory;
        }
        if put_all(to, out.bytes()).is_err() {
            return Status::WriteFault;
        }
        if line.is_over() {
            return Status::Done;
        }
    }
    Status::Done
}

/// The console of a cartridge and a key script.
fn tape_of<'a, R: Files>(
    rt: &R,
    alloc: Global,
    cart: &'a str,
    keys: &'a str,
) -> Result<Tape, Ended<'a>> {
    let mut shelf = DiskShelf::new(rt);
    let script = if keys == "none" { None } else { Some(keys) };
    let (file, lines) = load_run(alloc, &mut shelf, cart, script)?;
    match Tape::new(alloc, file, lines) {
        Ok(tape) => Ok(tape),
        Err(_) => Err(Ended {
            status: Status::NoMemory,
            file: cart,
        }),
    }
}

fn main(rt: HostRuntime) -> ExitCode {
    let Ok(words) = words(&rt) else {
        return ExitCode::from(NO_WORDS);
    };
    let mut notes = StdSink::new(rt.stderr());
    if words.len() != 2 {
        let _ = put_all(&mut notes, b"usage: nds-gdb CART KEYS\n");
        return ExitCode::from(number(&Status::Usage));
    }
    let mut tape = match tape_of(&rt, rt.alloc(), words[0].as_str(), words[1].as_str()) {
        Ok(tape) => tape,
        Err(ended) => {
            note(&mut notes, &ended.status, ended.file);
            return ExitCode::from(number(&ended.status));
        }
    };
    let mut files = Disk { rt: &rt };
    let mut out = StdSink::new(io::writer(&rt));
    let mut from = rt.stdin();
    let status = talk(rt.alloc(), &mut tape, &mut files, &mut from, &mut out);
    note(&mut notes, &status, words[0].as_str());
    ExitCode::from(number(&status))
}
