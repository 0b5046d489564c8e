//! The seat of a call: where its console stands.

ghost use Rattle.std.specs.Prelude.{◌≡◌, ◌≤◌, ◌<◌, ◌^◌, length, None, Some, Ok, Err, IfErr, IsOkAnd, IsSomeAnd, OnOk, OnErr, option_map};
ghost use Rattle.sha2.specs.Sha256.{sha256};
ghost use Rattle.ds_io.specs.Faults.{Rose};
ghost use Rattle.ds_io.specs.Shelves.{files_of};
ghost use Rattle.ds_machine.specs.Booted.{machine_booted};
ghost use Rattle.run_ahead.specs.Consoles.{ConsoleState};
ghost use Rattle.run_ahead.specs.Saved.{FailsState, read_state};
ghost use Rattle.nds_plays.specs.Calls.{IsSwitchedOn, switched_on};
ghost use Rattle.nds_plays.specs.States.{IsReady, IsResumed, RefusesState};
ghost use Rattle.nds_answers.specs.Loads.{RefusesRun};

use ds_base::{Keys, Tick};
use ds_header::Cart;
use ds_io::Shelf;
use ds_state::Unpacked;
use nds_answers::{Ended, Status, load_run, load_saved};
use run_ahead::Console;
use sha2::{Digest, Sha256};
use std::alloc::{AllocError, Global};
use std::mem::replace;

/// A seat without a console.
pub fn empty_seat() -> Option<Console>
    ensures { result ≡ None }
{
    None
}

/// Lets the console of a seat go, if there is one.
pub fn let_go(seat: Option<Console>) {
    let _seat = seat;
}

/// Lets the console of a seat go, if there is one, and leaves the seat empty.
pub fn clear_seat(seat: &mut Option<Console>)
    ensures { seat.new ≡ None }
{
    *seat = None;
}

/// Puts what was made where nothing is. (It drops nothing, so that what is dear to drop is no dearer to put.)
fn put_made<T, E>(made: Result<T, E>, place: &mut Option<T>) -> Result<(), E>
    requires { place.old ≡ None }
    ensures ok { OnOk result (IsOkAnd made (λ thing. place.new ≡ Some thing)) }
    ensures err { OnErr result (place.new ≡ None) }
    ensures cause { IfErr result (λ e. made ≡ Err e) }
{
    match replace(place, Some(made?)) {
        None => Ok(()),
        Some(_was) => unreachable!(),
    }
}

/// Switches on a console with a cartridge and a key script's keys, in the seat, which is empty before.
pub fn switch_on(
    alloc: Global,
    cart: Cart,
    keys: Keys,
    seat: &mut Option<Console>,
) -> Result<(), AllocError>
    requires { seat.old ≡ None }
    ensures on { OnOk result (seat.new ≡ Some (switched_on (machine_booted cart keys))) }
    ensures ready { OnOk result (IsSomeAnd seat.new IsReady) }
    ensures none { OnErr result (seat.new ≡ None) }
{
    put_made(Console::new(alloc, cart, keys), seat)
}

/// Finds and checks the files of a run, and switches on a console with them, in the seat, which is empty before; or says how the call ends without
/// one.
pub fn seat_run<'a, F: Shelf>(
    alloc: Global,
    cart: &'a str,
    keys: Option<&'a str>,
    shelf: &mut F,
    seat: &mut Option<Console>,
) -> Result<(), Ended<'a>>
    requires { seat.old ≡ None }
    ensures ok { OnOk result (IsSwitchedOn (files_of (F.told shelf.old)) cart.entry.now (option_map (λ name. name.now) keys.entry) seat.new) }
    ensures ready { OnOk result (IsSomeAnd seat.new IsReady) }
    ensures err { IfErr result
        (λ ended. RefusesRun (files_of (F.told shelf.old)) (Rose (F.faults shelf.old) (F.faults shelf.new)) cart.entry.now
        (option_map (λ name. name.now) keys.entry) ended.status ended.file.now) }
    ensures none { OnErr result (seat.new ≡ None) }
    ensures files { files_of (F.told shelf.new) ≡ files_of (F.told shelf.old) }
{
    let (file, lines) = load_run(alloc, shelf, cart, keys)?;
    match switch_on(alloc, file, lines, seat) {
        Ok(()) => Ok(()),
        Err(_) => Err(Ended {
            status: Status::NoMemory,
            file: cart,
        }),
    }
}

/// Puts the console that bytes stand for in the seat, which is empty before, with a cartridge and a key script's keys; it is to be run on to a tick.
pub fn put_resumed(
    alloc: Global,
    cart: Cart,
    keys: Keys,
    bytes: &[u8],
    until: Tick,
    seat: &mut Option<Console>,
) -> Result<(), Unpacked>
    requires few { length bytes.now < 2 ^ 32 }
    requires early { until.0 ≤ 2 ^ 56 }
    requires empty { seat.old ≡ None }
    ensures on { OnOk result ((k : ConsoleState) × (read_state (sha256 cart) until.0 cart keys bytes.now ≡ Ok k) × (seat.new ≡ Some k)) }
    ensures bad { IfErr result (λ e. FailsState e (read_state (sha256 cart) until.0 cart keys bytes.now)) }
    ensures open { OnOk result (IsSomeAnd seat.new (λ k. (k.stopped ≡ None) × (k.limit < until.0))) }
    ensures none { OnErr result (seat.new ≡ None) }
{
    let digest = Sha256::digest(cart.bytes());
    put_made(
        Console::resume(alloc, cart, keys, &digest, bytes, until),
        seat,
    )
}

/// Finds and checks the files of a run that goes on from a saved console, and puts that console in the seat, which is empty before; or says how the
/// call ends without one.
pub fn seat_resumed<'a, F: Shelf>(
    alloc: Global,
    state: &'a str,
    cart: &'a str,
    keys: Option<&'a str>,
    until: Tick,
    shelf: &mut F,
    seat: &mut Option<Console>,
) -> Result<(), Ended<'a>>
    requires early { until.0 ≤ 2 ^ 56 }
    requires empty { seat.old ≡ None }
    ensures ok { OnOk result (IsResumed (files_of (F.told shelf.old)) state.entry.now cart.entry.now
        (option_map (λ name. name.now) keys.entry) until.0 seat.new) }
    ensures open { OnOk result (IsSomeAnd seat.new (λ k. (k.stopped ≡ None) × (k.limit < until.0))) }
    ensures err { IfErr result
        (λ ended. RefusesState (files_of (F.told shelf.old)) (Rose (F.faults shelf.old) (F.faults shelf.new)) state.entry.now cart.entry.now
        (option_map (λ name. name.now) keys.entry) until.0 ended.status ended.file.now) }
    ensures none { OnErr result (seat.new ≡ None) }
    ensures files { files_of (F.told shelf.new) ≡ files_of (F.told shelf.old) }
{
    let (bytes, file, lines) = load_saved(alloc, shelf, state, cart, keys)?;
    match put_resumed(alloc, file, lines, bytes.as_slice(), until, seat) {
        Ok(()) => Ok(()),
        Err(Unpacked::NoMemory) => Err(Ended {
            status: Status::NoMemory,
            file: state,
        }),
        Err(Unpacked::Bad { offset }) => Err(Ended {
            status: Status::BadState { offset },
            file: state,
        }),
    }
}
