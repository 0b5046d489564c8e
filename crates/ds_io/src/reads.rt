//! Whole files.

ghost use Rattle.std.specs.Prelude.{◌≡◌, ◌<◌, ◌≤◌, ◌+◌, ◌^◌, IfOk, OnErr, IsErrOf, length};
ghost use Rattle.ds_io.specs.Faults.{Rose};
ghost use Rattle.ds_io.specs.Shelves.{TookAll, TookSome, TookTooMany, files_of};

use crate::faults::ReadFault;
use crate::shelves::Shelf;
use std::alloc::Global;

/// The rest of the file that was found last, where it has at most `limit` bytes. After `Failed` or `NoMemory` the place is past
/// what was read.
pub fn read_all<F: Shelf>(alloc: Global, shelf: &mut F, limit: usize) -> Result<Vec<u8>, ReadFault>
    requires { limit < 2 ^ 62 }

    // All that was left, or the sign that more was left than the limit: where no read fails, one comes exactly where the
    // other doesn't.
    ensures ok { IfOk result (λ bytes. TookAll (F.told shelf.old) bytes.items (F.told shelf.new)) }
    ensures within { IfOk result (λ bytes. length bytes.items ≤ limit) }
    ensures long { IsErrOf result ReadFault.TooLong → TookTooMany (F.told shelf.old) limit (F.told shelf.new) }

    ensures err { OnErr result (TookSome (F.told shelf.old) (limit + 1) (F.told shelf.new)) }
    ensures cause { IsErrOf result ReadFault.Failed → Rose (F.faults shelf.old) (F.faults shelf.new) }
    ensures later { F.faults shelf.old ≤ F.faults shelf.new }
    ensures files { files_of (F.told shelf.new) ≡ files_of (F.told shelf.old) }
{
    let mut all = Vec::new(alloc);
    let mut buffer = [0u8; 4096];
    while all.len() <= limit {
        let room = (limit - all.len()).min(4095) + 1;
        let n = shelf.read(&mut buffer[..room])?;
        if n == 0 {
            return Ok(all);
        }
        all.extend_from_slice(&buffer[..n])?;
    }
    Err(ReadFault::TooLong)
}
