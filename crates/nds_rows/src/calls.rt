//! Calls of the top call, and consoles.

ghost use Rattle.std.specs.Prelude.{◌≡◌, IsTrue, None};

use crate::answers::Came;
use crate::faults::BadLine;
use crate::scenes::Scene;
use ds_base::{Keys, Tick};
use ds_header::Cart;
use ds_io::{Calls, MemShelf, MemSink, Shelf, Sink};
use nds_top::{Keep, Status, ds_main, number, play, switch_on};
use run_ahead::{Console, Turned};
use std::alloc::{AllocError, Global};

/// The greatest limit of a turn here, in ticks.
const MOST_TICKS: u64 = 100_000_000_000;

/// More turns than are taken below one more tick.
const MOST_TURNS: u64 = 1_000;

/// The call with this number, or none.
fn only(alloc: Global, call: u64) -> Result<Calls, AllocError> {
    let mut calls = Calls::new(alloc);
    if 0 < call && call < u64::MAX {
        calls.push(call)?;
    }
    Ok(calls)
}

/// The shelf that a scene has.
fn shelf_of(alloc: Global, scene: &Scene) -> Result<MemShelf, AllocError> {
    let files = scene.shelf(alloc)?;
    let fails = only(alloc, scene.fails.shelf)?;
    Ok(MemShelf::new(files, fails))
}

/// A sink with room for so many bytes, of which this call fails, and which takes at most so many bytes a call, or 1.
fn sink_of(alloc: Global, fails: u64, room: usize, most: usize) -> Result<MemSink, AllocError> {
    let fails = only(alloc, fails)?;
    let most = if most == 0 { 1 } else { most };
    MemSink::slow(alloc, fails, room, most)
}

/// The top call with these words over any shelf and sinks: its status's number.
fn number_of_call<F: Shelf, O: Sink, N: Sink>(
    alloc: Global,
    words: &[String],
    shelf: &mut F,
    out: &mut O,
    notes: &mut N,
    seat: &mut Option<Console>,
) -> u8
    requires { seat.old ≡ None }
{
    let status = ds_main(alloc, words, shelf, out, notes, seat);
    number(&status)
}

/// The number of want of memory, which no call over ample memory answers.
pub fn number_of_want() -> u8 {
    number(&Status::NoMemory)
}

/// What a call came to, by its status's number and what it wrote.
fn gathered(alloc: Global, status: u8, out: &MemSink, notes: &MemSink) -> Result<Came, AllocError> {
    let note = Vec::from_slice(alloc, notes.bytes())?;
    let is_told = out.is_told();
    let out = Vec::from_slice(alloc, out.bytes())?;
    let status = Some(status);
    Ok(Came {
        status,
        note,
        out,
        is_told,
        from: 0,
    })
}

/// The top call over a shelf, with room for 200 bytes of notes.
fn call_over(
    alloc: Global,
    scene: &Scene,
    shelf: &mut MemShelf,
    seat: &mut Option<Console>,
) -> Result<Came, AllocError>
    requires { seat.old ≡ None }
{
    let mut out = sink_of(alloc, scene.fails.out, scene.room, scene.most)?;
    let mut notes = sink_of(alloc, scene.fails.notes, 200, scene.most)?;
    let words = scene.words.as_slice();
    let status = number_of_call(alloc, words, shelf, &mut out, &mut notes, seat);
    gathered(alloc, status, &out, &notes)
}

/// The top call over what a scene has. The console that it leaves is in the seat, which is empty before.
pub fn call(alloc: Global, scene: &Scene, seat: &mut Option<Console>) -> Result<Came, AllocError>
    requires { seat.old ≡ None }
{
    let mut shelf = shelf_of(alloc, scene)?;
    call_over(alloc, scene, &mut shelf, seat)
}

/// The cartridge of a scene; nothing where it is refused.
fn cart_of(alloc: Global, scene: &Scene) -> Result<Option<Cart>, AllocError> {
    let file = scene.cart(alloc)?;
    Ok(Cart::read(file).ok())
}

/// Puts a console of a scene's cartridge, without keys, that hasn't run, into the seat, which is empty before; none where the cartridge is refused.
pub fn seat_scene(
    alloc: Global,
    scene: &Scene,
    seat: &mut Option<Console>,
) -> Result<(), AllocError>
    requires { seat.old ≡ None }
{
    match cart_of(alloc, scene)? {
        Some(cart) => switch_on(alloc, cart, Keys::new(alloc), seat),
        None => Ok(()),
    }
}

/// One turn of a console.
pub fn turn(console: &mut Console, until: u64) -> Turned {
    console.turn(Tick(until.min(MOST_TICKS)))
}

/// How many turns with a limit a console takes until a frame is whole, that turn counted; 0 where none is.
pub fn turns_to_a_frame(console: &mut Console, until: u64) -> u64 {
    let until = until.min(MOST_TICKS);
    for taken in 0..until {
        if let Turned::Frame { swapped: _ } = turn(console, until) {
            return taken + 1;
        }
    }
    0
}

/// Takes turns with a limit until none is left below it.
fn turn_to_end(console: &mut Console, until: u64) {
    for _ in 0..MOST_TURNS {
        match turn(console, until) {
            Turned::AtEnd | Turned::Stopped(_) => return,
            Turned::Ran | Turned::Frame { swapped: _ } => {}
        }
    }
}

/// Takes turns with each limit up to this one, from 1 on, each to its end.
pub fn climb(console: &mut Console, until: u64) {
    for limit in 0..until.min(MOST_TICKS) {
        turn_to_end(console, limit + 1);
    }
}

/// Plays a console to a tick over any sink.
fn play_over<O: Sink>(console: &mut Console, until: u64, keep: Keep, out: &mut O)
    requires { console.old.stopped ≡ None }
{
    let _ = play(console, Tick(until.min(MOST_TICKS)), keep, out);
}

/// Whether a console can be played on. (A turn without a tick below its limit changes nothing, and tells whether the console has stopped.)
pub fn goes_on(console: &mut Console) -> bool
    ensures { IsTrue result → console.new.stopped ≡ None }
{
    match console.turn(Tick(0)) {
        Turned::AtEnd => true,
        _ => false,
    }
}

/// Plays a console that hasn't stopped to a tick, and gives what is written.
pub fn played(
    alloc: Global,
    console: &mut Console,
    until: u64,
    keep: Keep,
) -> Result<Vec<u8>, BadLine> {
    if !goes_on(console) {
        return Err(BadLine::NoConsole);
    }
    let mut out = MemSink::new(alloc, Calls::new(alloc), 6_000_000)?;
    play_over(console, until, keep, &mut out);
    Ok(Vec::from_slice(alloc, out.bytes())?)
}
