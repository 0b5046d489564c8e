//! The command that runs the cartridge that is made from a number.

ghost use Rattle.std.specs.Prelude.{◌≡◌, ◌≤◌, None};
ghost use Rattle.nds_plays.specs.Calls.{around};
ghost use Rattle.nds_top.specs.ViewAnswers.{DemoGives};

use crate::statuses::status_of;
use ds_base::{Keys, Tick};
use ds_header::Cart;
use ds_io::{Shelf, Sink};
use nds_answers::Status;
use nds_plays::{demo_cart, switch_on};
use run_ahead::Console;
use std::alloc::Global;

/// Runs the cartridge that is made from a number to a tick, and writes what came of it. No file is looked for.
pub fn demo<F: Shelf, O: Sink>(
    alloc: Global,
    number: u32,
    ticks: u64,
    shelf: &F,
    out: &mut O,
    seat: &mut Option<Console>,
) -> Status
    requires early { ticks ≤ 100000000000 }
    requires empty { seat.old ≡ None }
    ensures { DemoGives (around F.told F.faults O.tells O.taken O.faults shelf.now shelf.now out.old out.new seat.new) number ticks result }
{
    let Ok(file) = demo_cart(alloc, number) else {
        return Status::NoMemory;
    };
    let Ok(cart) = Cart::read(file) else {
        unreachable!()
    };
    let Ok(()) = switch_on(alloc, cart, Keys::new(alloc), seat) else {
        return Status::NoMemory;
    };
    let Some(console) = seat else { unreachable!() };
    let played = nds_plays::demo(console, number, Tick(ticks), out);
    status_of(played)
}
