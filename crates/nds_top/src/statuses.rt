//! The statuses of runs.

ghost use Rattle.std.specs.Prelude.{◌≡◌};
ghost use Rattle.nds_top.specs.Inside.{played_status};

use nds_answers::Status;
use nds_plays::Played;

/// The status of how a run went.
pub(crate) fn status_of(played: Played) -> Status
    ensures { result ≡ played_status played }
{
    match played {
        Played::Done => Status::Done,
        Played::LeftOut(left) => Status::LeftOut(left),
        Played::WriteFault => Status::WriteFault,
    }
}
