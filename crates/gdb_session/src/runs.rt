//! Calls of a console, each with what it needs tested first.

ghost use Rattle.std.specs.Prelude.{◌≡◌, ◌≤◌, ◌^◌, None, IfOk, IfSome};
ghost use Rattle.ds_machine.specs.WithinLaws.{IsWithinTick};
ghost use Rattle.ds_machine.specs.Reference.{dues_of};
ghost use Rattle.ds_runs.specs.Runs.{IsOver};
ghost use Rattle.gdb_session.specs.Tapes.{ComesFrom, HasRunTo};
ghost use Rattle.gdb_session.specs.declared.decks.Stepped.TheVariants.{Taken};
ghost use Rattle.run_ahead.specs.Saved.{IsReadBack};

use crate::decks::Stepped;
use ds_base::{Keys, Tick};
use run_ahead::{Console, Turned};
use std::alloc::{AllocError, Global};

/// The greatest tick that a run comes to, by the name of `Console::turn`.
pub const MOST_TICK: u64 = 0x100_0000_0000_0000;

/// A copy of a key script.
pub fn copy_keys(alloc: Global, keys: &Keys) -> Result<Keys, AllocError>
    ensures { IfOk result (λ copy. copy ≡ keys.now) }
{
    let mut copy = Keys::new(alloc);
    let count = keys.len();
    'lines: for place in 0..count {
        copy.push(keys.line(place))?;
    }
    Ok(copy)
}

/// Whether all steps below a console's limit are taken, so far as can be seen.
pub fn is_over(console: &Console) -> bool {
    console.due().tick.0 >= console.limit().0
}

/// The step of the actor that acts next, at its tick, alone.
pub fn step_console(console: &mut Console, at: Tick) -> Stepped
    ensures { ComesFrom console.old console.new }
{
    if at.0 >= MOST_TICK {
        return Stepped::Taken;
    }
    match console.turn(Tick(at.0 + 1)) {
        Turned::Stopped(left) => Stepped::Left(left),
        _ => Stepped::Taken,
    }
}

/// The steps of all actors at the tick at which the next one acts.
pub fn step_all_of(console: &mut Console, at: Tick) -> Stepped
    ensures { ComesFrom console.old console.new }
{
    run_console(console, Tick(at.0.min(MOST_TICK - 1) + 1))
}

/// Runs a console to a tick, the last one at most.
pub fn run_console(console: &mut Console, until: Tick) -> Stepped
    ensures comes { ComesFrom console.old console.new }
    ensures taken { result ≡ Taken → until.0 ≤ 2 ^ 56 → HasRunTo until.0 console.old console.new }
{
    let until = Tick(until.0.min(MOST_TICK));
    'frames: loop {
        match console.run_on(until) {
            Turned::Stopped(left) => return Stepped::Left(left),
            Turned::AtEnd => return Stepped::Taken,
            _ => {}
        }
    }
}

/// The console in bytes, where it hasn't stopped and all steps below its limit are taken.
pub fn save_console(alloc: Global, console: &mut Console, digest: &[u8; 32]) -> Option<Vec<u8>>
    ensures comes { ComesFrom console.old console.new }
    ensures open { IfSome result (λ _. console.new.stopped ≡ None) }
    ensures over { IfSome result (λ _. IsOver (dues_of console.new.machine) console.new.limit) }
    ensures back { IfSome result (λ bytes. IsWithinTick console.new.limit console.new.machine → IsReadBack digest.now console.new bytes.items) }
{
    let at = console.limit();
    if !is_over(console) {
        return None;
    }
    match console.turn(at) {
        Turned::AtEnd => console.save(alloc, digest, at).ok(),
        _ => None,
    }
}
