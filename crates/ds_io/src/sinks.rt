//! What takes bytes.

ghost use Rattle.std.specs.Prelude.{◌≡◌, ◌<◌, ◌≤◌, ◌+◌, ℕ, List, [], Bool, true, length, take, IfOk, OnOk, OnErr};
ghost use Rattle.ds_io.specs.Faults.{Rose};
ghost use Rattle.ds_io.specs.Sinks.{Appended, AppendedFront};

use crate::faults::Failed;

/// What takes bytes. (Our choice.)
pub trait Sink {
    /// Whether it tells what it has taken. Once it doesn't, it never does again.
    ghost tells: { Self → Bool };

    /// The lists of bytes that it stands for: what it has taken.
    ghost taken: { Self → List ℕ → Type 0 };

    /// It tells for certain while fewer bytes than this are put; 0 where nothing is promised.
    ghost room: { Self → ℕ };

    /// How many faults there were. It never falls.
    ghost faults: { Self → ℕ };

    /// With room left it tells.
    ghost roomy: { (s : Self) → 0 < room s → tells s ≡ true };

    /// Takes the first bytes of a slice, and says how many: one at least, where the slice isn't empty. A failure takes none.
    fn put(&mut self, bytes: &[u8]) -> Result<usize, Failed>
        ensures count { IfOk result (λ n. (n ≤ length bytes.now) × (0 < length bytes.now → 0 < n)) }
        ensures ok { IfOk result (λ n. Appended tells taken self.old self.new (take n bytes.now)) }
        ensures err { OnErr result (Appended tells taken self.old self.new []) }
        ensures left { IfOk result (λ n. room self.old ≤ room self.new + n) }
        ensures left_err { OnErr result (room self.old ≤ room self.new) }
        ensures cause { OnErr result (Rose (faults self.old) (faults self.new)) }
        ensures later { faults self.old ≤ faults self.new };
}

/// Takes all the bytes, or after a failure a front of them.
pub fn put_all<O: Sink>(sink: &mut O, bytes: &[u8]) -> Result<(), Failed>
    ensures ok { OnOk result (Appended O.tells O.taken sink.old sink.new bytes.now) }
    ensures err { OnErr result (AppendedFront O.tells O.taken sink.old sink.new bytes.now) }
    ensures left { O.room sink.old ≤ O.room sink.new + length bytes.now }
    ensures cause { OnErr result (Rose (O.faults sink.old) (O.faults sink.new)) }
    ensures later { O.faults sink.old ≤ O.faults sink.new }
{
    let mut done = 0;
    while done < bytes.len() {
        let n = sink.put(&bytes[done..])?;
        done += n;
    }
    Ok(())
}
