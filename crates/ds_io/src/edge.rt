//! The system's files and streams. Nothing is told of what they hold; the counts of faults say for which failures they answered.

ghost use Rattle.std.specs.Prelude.{◌≡◌, ◌≤◌};
ghost use Rattle.ds_io.specs.Faults.{Rose};

use crate::faults::Failed;
use crate::shelves::Shelf;
use crate::sinks::Sink;
use std::fs::File;
use std::io::{ErrorKind, Read, Write};
use std::rt::Files as SystemFiles;

/// The count of faults after one more. It stays at its last value, 2^64 - 1, once it is there.
fn one_more(faults: u64) -> u64
    ensures rose { Rose faults result }
    ensures later { faults ≤ result }
{
    faults.saturating_add(1)
}

/// The system's files, by their paths. Each error that the system answers is a fault, whatever its kind, but that there is no
/// such file.
#[derive(Drop)]
pub struct DiskShelf<'a, R: SystemFiles> {
    rt: &'a R,
    file: Option<R::File>,
    faults: u64,
}

impl<'a, R: SystemFiles> DiskShelf<'a, R> {
    /// The files that the runtime reaches. None is found yet.
    pub fn new(rt: &'a R) -> DiskShelf<'a, R>
        ensures { ⟦<DiskShelf<'a, R> as Shelf>⟧.faults result ≡ 0 }
    {
        DiskShelf {
            rt,
            file: None,
            faults: 0,
        }
    }
}

impl<R: SystemFiles> Shelf for DiskShelf<'_, R> {
    ghost use Rattle.std.specs.Prelude.{None};

    ghost told = { λ _. None };

    ghost faults = { λ s. s.faults };

    fn find(&mut self, name: &str) -> Result<bool, Failed> {
        match File::open(self.rt, name) {
            Ok(file) => {
                self.file = Some(file);
                Ok(true)
            }
            Err(fault) if fault.kind() == ErrorKind::NotFound => Ok(false),
            Err(_) => {
                self.faults = one_more(self.faults);
                Err(Failed)
            }
        }
    }

    fn read(&mut self, into: &mut [u8]) -> Result<usize, Failed> {
        let Some(file) = &mut self.file else {
            return Ok(0);
        };
        match file.read(into) {
            Ok(n) => Ok(n),
            Err(_) => {
                self.faults = one_more(self.faults);
                Err(Failed)
            }
        }
    }
}

/// A stream of the system. Each error that it answers is a fault, and so is a write that takes no byte.
#[derive(Drop)]
pub struct StdSink<W: Write> {
    to: W,
    faults: u64,
}

impl<W: Write> StdSink<W> {
    /// A sink that writes to the stream at once, and keeps no bytes back.
    pub fn new(to: W) -> StdSink<W>
        ensures { ⟦<StdSink<W> as Sink>⟧.faults result ≡ 0 }
    {
        StdSink { to, faults: 0 }
    }
}

impl<W: Write> Sink for StdSink<W> {
    ghost use Rattle.std.specs.Prelude.{false, ⊤};
    ghost use Rattle.ds_io.specs.Sinks.{no_room};

    ghost tells = { λ _. false };

    ghost taken = { λ _ _. ⊤ };

    ghost room = { λ _. 0 };

    ghost faults = { λ s. s.faults };

    ghost roomy = { λ _ h. no_room false h };

    fn put(&mut self, bytes: &[u8]) -> Result<usize, Failed> {
        if bytes.is_empty() {
            return Ok(0);
        }
        match self.to.write(bytes) {
            Ok(n) if n > 0 => Ok(n),
            _ => {
                self.faults = one_more(self.faults);
                Err(Failed)
            }
        }
    }
}
