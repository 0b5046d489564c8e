//! The laws of traces, and of runs that are cut in two.

ghost use Rattle.nds_plays.specs.Cuts.{RunsAreCut};
ghost use Rattle.nds_plays.specs.Watches.{LinesAreOne};

use ds_base::known;
use ds_machine::{frame_laws, reference_laws};

/// Does nothing; its contract states that a run has one list of lines.
pub fn trace_laws()
    ensures { LinesAreOne }
{}

/// Does nothing; its contract states that a run may be cut in two at a tick: the rest is the run from the machine to which the front came. It ends as
/// the whole does and puts out what the front didn't; and the whole writes what is written while the front runs, and then what the rest writes.
pub fn cut_laws()
    ensures { RunsAreCut }
{
    known!(reference_laws());
    known!(frame_laws());
}
