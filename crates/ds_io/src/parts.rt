//! Parts of output.

ghost use Rattle.std.specs.Prelude.{flat_map};
ghost use Rattle.ds_io.specs.Puts.{Puts};

use crate::faults::Failed;
use crate::sinks::{Sink, put_all};

/// Puts parts of output to a sink, one after the other. It fails where a call of the sink fails; a front of the parts was put then, and the
/// sink's count of faults rose.
pub fn put_parts<O: Sink>(out: &mut O, parts: &[&[u8]]) -> Result<(), Failed>
    ensures { Puts O.tells O.taken O.faults (flat_map (λ part. part.now) parts.now) result out.old out.new }
{
    for part in parts {
        put_all(out, part)?;
    }
    Ok(())
}
