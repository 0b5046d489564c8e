//! A console in bytes, after a run.

ghost use Rattle.std.specs.Prelude.{◌≡◌, ◌≤◌, ◌^◌, None, IfOk, OnErr};
ghost use Rattle.nds_plays.specs.States.{SavesWhole, saved_after};
ghost use Rattle.nds_plays.specs.Watches.{WritesAfter};

use crate::plays::Played;
use crate::throughs::run_through;
use ds_base::{Tick, known};
use ds_io::{Sink, put_all};
use ds_machine::time_laws;
use run_ahead::Console;
use sha2::{Digest, Sha256};
use std::alloc::{AllocError, Global};

/// Runs a console to a tick, and writes it in bytes as it is then: they are read back as it, where the console was ready. Where it stops before,
/// nothing is written. The error is want of memory for the bytes; then nothing is written either.
pub fn save<O: Sink>(
    alloc: Global,
    console: &mut Console,
    until: Tick,
    out: &mut O,
) -> Result<Played, AllocError>
    requires early { until.0 ≤ 2 ^ 56 }
    requires open { console.old.stopped ≡ None }
    requires limit { console.old.limit ≤ until.0 }
    ensures ok { IfOk result (λ played. WritesAfter O.tells O.taken O.faults until.0 saved_after console.old out.old played console.new out.new) }
    ensures back { IfOk result (λ played. SavesWhole console.old played console.new) }
    ensures err { OnErr result (out.new ≡ out.old) }
{
    known!(time_laws());
    if let Some(left) = run_through(console, until) {
        return Ok(Played::LeftOut(left));
    }
    let digest = Sha256::digest(console.file());
    let bytes = console.save(alloc, &digest, until)?;
    match put_all(out, bytes.as_slice()) {
        Ok(()) => Ok(Played::Done),
        Err(_) => Ok(Played::WriteFault),
    }
}
