//! Sinks in memory: what is put, what they keep, and until when they tell it.

ghost use Rattle.std.specs.Prelude.{◌<◌, ◌-◌, ◌^◌, IfOk, IsTrue};

use ds_io::{Calls, Failed, MemSink, QuietSink, Sink, put_all};
use std::alloc::{AllocError, Global};
use std::process::Abort;

/// A line of a table: how many of three bytes are put, and those.
#[derive(Clone, Copy)]
enum Line {
    /// All of them are taken by one put.
    Puts(usize, u8, u8, u8),
    /// Two of them are.
    Two(usize, u8, u8, u8),
    /// The put fails.
    Fails(usize, u8, u8, u8),
    /// All of them are put, by as many puts as it takes.
    All(usize, u8, u8, u8),
    /// That fails.
    AllFails(usize, u8, u8, u8),
    /// Whether the sink tells what was put.
    Tells(bool),
    /// It keeps so many bytes, of which the first and the last are these.
    Keeps(usize, u8, u8),
}

use Line::{All, AllFails, Fails, Keeps, Puts, Tells, Two};

/// What a line shows: a count, and two bytes.
type Seen = (usize, u8, u8);

const FAILED: Seen = (usize::MAX, 0, 0);

/// Puts the first of three bytes by one put.
fn put<S: Sink>(sink: &mut S, count: usize, bytes: [u8; 3]) -> Seen {
    match sink.put(&bytes[..count.min(3)]) {
        Ok(taken) => (taken, 0, 0),
        Err(Failed) => FAILED,
    }
}

/// Puts the first of three bytes, all of them.
fn all<S: Sink>(sink: &mut S, count: usize, bytes: [u8; 3]) -> Seen {
    match put_all(sink, &bytes[..count.min(3)]) {
        Ok(()) => (count, 0, 0),
        Err(Failed) => FAILED,
    }
}

/// How many bytes there are, and the first and the last one.
fn kept(bytes: &[u8]) -> Seen {
    match bytes {
        [] => (0, 0, 0),
        [only] => (1, *only, *only),
        [first, .., last] => (bytes.len(), *first, *last),
    }
}

/// A sink some of whose calls fail, line by line.
fn try_lines(rt: &impl Abort, sink: &mut MemSink, lines: &[Line]) {
    for (number, line) in lines.iter().enumerate() {
        let (got, wanted) = match *line {
            Puts(count, a, b, c) => (put(sink, count, [a, b, c]), (count, 0, 0)),
            Two(count, a, b, c) => (put(sink, count, [a, b, c]), (2, 0, 0)),
            Fails(count, a, b, c) => (put(sink, count, [a, b, c]), FAILED),
            All(count, a, b, c) => (all(sink, count, [a, b, c]), (count, 0, 0)),
            AllFails(count, a, b, c) => (all(sink, count, [a, b, c]), FAILED),
            Tells(told) => ((sink.is_told().into(), 0, 0), (told.into(), 0, 0)),
            Keeps(count, first, last) => (kept(sink.bytes()), (count, first, last)),
        };
        let (count, first, last) = got;
        assert!(rt; got == wanted, "line {number}: {count}, {first}, {last}");
    }
}

/// Two numbers of calls.
fn calls_of(alloc: Global, first: u64, second: u64) -> Result<Calls, AllocError>
    requires above { 0 < first }
    requires rises { first < second }
    requires below { second < 2 ^ 64 - 1 }
{
    let mut calls = Calls::new(alloc);
    calls.push(first)?;
    calls.push(second)?;
    Ok(calls)
}

/// A sink with room for so many bytes, whose calls with these two numbers fail.
fn failing(alloc: Global, first: u64, second: u64, room: usize) -> Result<MemSink, AllocError>
    requires above { 0 < first }
    requires rises { first < second }
    requires below { second < 2 ^ 64 - 1 }
{
    let calls = calls_of(alloc, first, second)?;
    MemSink::new(alloc, calls, room)
}

/// Known without a run, through the clauses of every sink: three bytes fit a room of four.
fn told(alloc: Global) -> Result<bool, AllocError>
    ensures { IfOk result (λ told. IsTrue told) }
{
    let mut sink = QuietSink::new(alloc, 4)?;
    let _ = put_all(&mut sink, &[1, 2, 3]);
    Ok(sink.is_told())
}

#[test]
fn sinks_tell_while_the_bytes_fit(rt: HostRuntime) -> Result<(), AllocError> {
    assert!(rt; told(rt.alloc())?);
    let mut failing = failing(rt.alloc(), 3, 5, 4)?;
    try_lines(
        &rt,
        &mut failing,
        &[
            Puts(3, 1, 2, 3),
            Tells(true),
            Keeps(3, 1, 3),
            Puts(3, 4, 5, 6),
            Tells(false),
            Fails(1, 7, 0, 0),
            Puts(1, 7, 0, 0),
            Tells(false),
            Keeps(3, 1, 3),
        ],
    );
    assert!(rt; failing.bytes() == [1, 2, 3].as_slice());
    Ok(())
}

/// A call takes two bytes at most; who puts all of them goes on behind those.
#[test]
fn a_slow_sink_takes_a_front(rt: HostRuntime) -> Result<(), AllocError> {
    let calls = calls_of(rt.alloc(), 2, 6)?;
    let mut slow = MemSink::slow(rt.alloc(), calls, 8, 2)?;
    try_lines(
        &rt,
        &mut slow,
        &[
            Two(3, 1, 2, 3),
            Keeps(2, 1, 2),
            Fails(3, 3, 4, 5),
            Keeps(2, 1, 2),
            All(3, 3, 4, 5),
            Keeps(5, 1, 5),
            AllFails(3, 6, 7, 8),
            Tells(true),
            Keeps(7, 1, 7),
            Puts(1, 8, 0, 0),
            Tells(true),
            Two(3, 9, 10, 11),
            Tells(false),
            Keeps(8, 1, 8),
        ],
    );
    assert!(rt; slow.bytes() == [1, 2, 3, 4, 5, 6, 7, 8].as_slice());
    Ok(())
}

/// The same of the sink that never fails.
#[test]
fn a_quiet_sink_tells_while_the_bytes_fit(rt: HostRuntime) -> Result<(), AllocError> {
    let mut quiet = QuietSink::new(rt.alloc(), 4)?;
    for (count, byte, tells) in [(3, 1, true), (3, 4, false), (1, 7, false)] {
        assert!(rt;
            put(&mut quiet, count, [byte, byte, byte]) == (count, 0, 0),
            "{byte}"
        );
        assert!(rt;
            quiet.is_told() == tells && quiet.bytes() == [1, 1, 1].as_slice(),
            "{byte}"
        );
    }
    Ok(())
}

/// A put that fails keeps nothing, and a later one goes on after what was kept.
#[test]
fn a_failed_put_keeps_nothing(rt: HostRuntime) -> Result<(), AllocError> {
    let mut sink = failing(rt.alloc(), 2, 4, 8)?;
    try_lines(
        &rt,
        &mut sink,
        &[
            Puts(2, 1, 2, 0),
            Fails(2, 3, 4, 0),
            Puts(2, 5, 6, 0),
            Fails(2, 7, 8, 0),
            Puts(2, 9, 10, 0),
            Tells(true),
            Keeps(6, 1, 10),
        ],
    );
    assert!(rt; sink.bytes() == [1, 2, 5, 6, 9, 10].as_slice());
    Ok(())
}

/// A front is kept where a put fails in the middle, and room is used up to its last byte.
#[test]
fn a_failed_put_ends_what_is_put(rt: HostRuntime) -> Result<(), AllocError> {
    let mut sink = failing(rt.alloc(), 2, 3, 4)?;
    try_lines(
        &rt,
        &mut sink,
        &[
            All(2, 1, 2, 0),
            AllFails(1, 3, 0, 0),
            AllFails(1, 4, 0, 0),
            All(2, 5, 6, 0),
            Tells(true),
            Keeps(4, 1, 6),
            Puts(0, 0, 0, 0),
            Tells(true),
            Puts(1, 7, 0, 0),
            Tells(false),
            Keeps(4, 1, 6),
        ],
    );
    assert!(rt; sink.bytes() == [1, 2, 5, 6].as_slice());
    Ok(())
}
