//! Whole scripts.

ghost use Rattle.std.specs.Prelude.{◌≡◌, ◌<◌, ◌+◌, ◌^◌, length, Decides, IfErr, IfOk};
ghost use Rattle.ds_base.specs.KeyLines.{AreKeyLines, ComesAfter};
ghost use Rattle.nds_words.specs.Scripts.{IsCause, IsScript};
ghost use Rattle.nds_words.specs.declared.faults.ScriptFault.TheVariants.{Bad};

use crate::faults::ScriptFault;
use crate::lines::{first_line, read_line};
use ds_base::{KeyLine, Keys};
use std::alloc::Global;

/// Whether a line's tick is above that of the last line so far.
fn rises(keys: &Keys, line: KeyLine) -> bool
    ensures rises { Decides result (ComesAfter keys.now line) }
    ensures lines { AreKeyLines keys.now }
{
    let count = keys.len();
    count == 0 || keys.line(count - 1).tick < line.tick
}

/// The fault of the line after the lines so far.
fn bad(keys: &Keys, column: u32) -> ScriptFault
    requires { length keys.now + 1 < 2 ^ 32 }
    ensures { result ≡ Bad (length keys.now + 1) column }
{
    ScriptFault::Bad {
        line: keys.len() as u32 + 1,
        column,
    }
}

/// The lines whose script a text is; where it is the script of none, the first bad line and column. (Our choice of form; the keys are
/// those of GBATEK, "DS Keypad".)
pub fn read_script(alloc: Global, bytes: &[u8]) -> Result<Keys, ScriptFault>
    requires { length bytes.now < 2 ^ 32 }
    ensures ok { IfOk result (λ keys. IsScript bytes.now keys) }
    ensures bad { IfErr result (λ fault. IsCause bytes.now fault) }
{
    let mut keys = Keys::new(alloc);
    let mut rest = bytes;
    while !rest.is_empty() {
        let (text, more) = first_line(rest);
        let line = match read_line(text) {
            Ok(line) => line,
            Err(count) => return Err(bad(&keys, count as u32 + 1)),
        };
        if !rises(&keys, line) {
            return Err(bad(&keys, 1));
        }
        keys.push(line)?;
        rest = more;
    }
    Ok(keys)
}
