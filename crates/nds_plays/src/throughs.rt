//! Runs of which nothing is written while they run.

ghost use Rattle.std.specs.Prelude.{◌≡◌, ◌≤◌, ◌^◌, None, List};
ghost use Rattle.ds_machine.specs.Reference.{Shown};
ghost use Rattle.nds_plays.specs.Watches.{RanTo};

use crate::hashes::Nowhere;
use crate::plays::{Played, play};
use ds_base::{LeftOut, Tick};
use nds_words::Keep;
use run_ahead::Console;

/// Runs a console to a tick or to a stop, which it gives.
pub(crate) fn run_through(console: &mut Console, until: Tick) -> Option<LeftOut>
    requires early { until.0 ≤ 2 ^ 56 }
    requires open { console.old.stopped ≡ None }
    ensures { (outs : List Shown) × RanTo until.0 console.old result console.new outs }
{
    match play(console, until, Keep::Nothing, &mut Nowhere) {
        Played::Done => None,
        Played::LeftOut(left) => Some(left),
        Played::WriteFault => unreachable!(),
    }
}
