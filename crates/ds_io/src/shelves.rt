//! Where files are found and read.

ghost use Rattle.std.specs.Prelude.{◌≡◌, ◌≤◌, ℕ, Option, length, IfOk, OnErr};
ghost use Rattle.ds_io.specs.Faults.{Rose};
ghost use Rattle.ds_io.specs.Shelves.{Told, Finds, Reads};

use crate::faults::Failed;

/// Where files are found by name and then read in order. Its files never change, nor does whether they are told. (Our choice.)
pub trait Shelf {
    /// Its files and what is left of the one that was found last, where it tells them.
    ghost told: { Self → Option Told };

    /// How many faults there were. It never falls.
    ghost faults: { Self → ℕ };

    /// Looks for a file. Where the files are told, the answer is `false` exactly where no file has the name; `true` begins
    /// that file at its first byte, and any other answer leaves the found file and the place in it.
    fn find(&mut self, name: &str) -> Result<bool, Failed>
        ensures ok { IfOk result (λ found. Finds (told self.old) name.now found (told self.new)) }
        ensures err { OnErr result (told self.new ≡ told self.old) }
        ensures cause { OnErr result (Rose (faults self.old) (faults self.new)) }
        ensures later { faults self.old ≤ faults self.new };

    /// Puts the next bytes of the found file into the front of a slice, and says how many. None for a slice that isn't empty
    /// means the end of the file, or that no file was found. A failure leaves the place.
    fn read(&mut self, into: &mut [u8]) -> Result<usize, Failed>
        ensures count { IfOk result (λ n. n ≤ length into.old) }
        ensures ok { IfOk result (λ n. Reads (told self.old) into.old n into.new (told self.new)) }
        ensures err { OnErr result (told self.new ≡ told self.old) }
        ensures cause { OnErr result (Rose (faults self.old) (faults self.new)) }
        ensures later { faults self.old ≤ faults self.new };
}
