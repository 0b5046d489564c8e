//! A shelf and a sink in memory whose calls fail by number, to try each failure.

ghost use Rattle.std.specs.Prelude.{◌≡◌, ◌≤◌, ◌<◌, ◌-◌, ◌^◌, ◌++◌, ◌↔◌, [], None, true, IsTrue, IsErr, IfOk, OnErr, is_some, length, min, take, drop};
ghost use Rattle.ds_io.specs.Faults.{Rose};
ghost use Rattle.ds_io.specs.Fakes.{empty_sink, shelf_called, sink_called};
ghost use Rattle.ds_io.specs.Kept.{kept_after};
ghost use Rattle.ds_io.specs.Numbered.{called, fails_now, fault_count};
ghost use Rattle.ds_io.specs.Shelves.{file_of, found_in, left_of, moved};

use crate::calls::{Calls, Numbering};
use crate::faults::Failed;
use crate::files::Files;
use crate::quiet::{QuietShelf, QuietSink};
use crate::shelves::Shelf;
use crate::sinks::Sink;
use std::alloc::{AllocError, Global};
use std::marker::Model;

/// Files in memory, as a shelf that tells them, and of which some calls fail. Its calls are numbered from 1, `find` and `read`
/// together; the numbering stays at 2^64 - 1 once it is there.
#[derive(Drop)]
pub struct MemShelf {
    shelf: QuietShelf,
    calls: Numbering,
}

impl Model for MemShelf {
    ghost use Rattle.ds_io.specs.Fakes.{FailingShelf};

    ghost Value = { FailingShelf };

    ghost view = { λ s. record { told = s.shelf; calls = s.calls } };
}

impl MemShelf {
    /// A shelf with these files, of which none is found yet, and whose calls with these numbers fail.
    pub fn new(files: Files, fails: Calls) -> MemShelf
        ensures { result ≡ record { told = record { files = files; left = None }; calls = record { fails = fails; made = 0 } } }
    {
        MemShelf {
            shelf: QuietShelf::new(files),
            calls: Numbering::new(fails),
        }
    }
}

impl Shelf for MemShelf {
    ghost use Rattle.std.specs.Prelude.{Some};
    ghost use Rattle.ds_io.specs.Numbered.{fault_count};

    ghost told = { λ s. Some s.told };

    ghost faults = { λ s. fault_count s.calls };

    fn find(&mut self, name: &str) -> Result<bool, Failed>
        ensures fails { IsErr result ↔ IsTrue (fails_now (called self.old.calls)) }
        ensures answer { IfOk result (λ found. found ≡ is_some (file_of self.old.told.files name.now)) }
        ensures next { self.new ≡ shelf_called self.old (found_in self.old.told name.now) }
        ensures cause { OnErr result (Rose (fault_count self.old.calls) (fault_count self.new.calls)) }
        ensures later { fault_count self.old.calls ≤ fault_count self.new.calls }
    {
        if self.calls.call() {
            return Err(Failed);
        }
        self.shelf.find(name)
    }

    fn read(&mut self, into: &mut [u8]) -> Result<usize, Failed>
        ensures fails { IsErr result ↔ IsTrue (fails_now (called self.old.calls)) }
        ensures answer { IfOk result (λ n. n ≡ min (length into.old) (length (left_of self.old.told))) }
        ensures put { IfOk result (λ n. into.new ≡ take n (left_of self.old.told) ++ drop n into.old) }
        ensures next { self.new ≡ shelf_called self.old (moved self.old.told (min (length into.old) (length (left_of self.old.told)))) }
        ensures cause { OnErr result (Rose (fault_count self.old.calls) (fault_count self.new.calls)) }
        ensures later { fault_count self.old.calls ≤ fault_count self.new.calls }
    {
        if self.calls.call() {
            return Err(Failed);
        }
        self.shelf.read(into)
    }
}

/// A sink in memory of which some calls fail, and which may take few bytes at a time. Its calls are numbered from 1; the
/// numbering stays at 2^64 - 1 once it is there. It keeps and tells all that it takes, while it fits the room that it was made
/// with; with the first bytes that don't fit it stops telling for good, and drops what it takes from then on.
#[derive(Drop)]
pub struct MemSink {
    sink: QuietSink,
    calls: Numbering,
    most: usize,
}

impl Model for MemSink {
    ghost use Rattle.std.specs.Prelude.{◌<◌};
    ghost use Rattle.ds_io.specs.Fakes.{FailingSink};

    ghost Value = { FailingSink };

    ghost view = { λ s. record { kept = s.sink; calls = s.calls; most = s.most } };

    ghost invariant = { λ s. 0 < s.most };
}

impl MemSink {
    /// An empty sink with room for so many bytes, whose calls with these numbers fail, and each other takes all its bytes. All
    /// its memory is taken here.
    pub fn new(alloc: Global, fails: Calls, room: usize) -> Result<MemSink, AllocError>
        ensures { IfOk result (λ s. s ≡ empty_sink fails room (2 ^ 64 - 1)) }
    {
        MemSink::slow(alloc, fails, room, usize::MAX)
    }

    /// Such a sink of which a call that doesn't fail takes so many bytes at most, and one at least.
    pub fn slow(
        alloc: Global,
        fails: Calls,
        room: usize,
        most: usize,
    ) -> Result<MemSink, AllocError>
        requires some { 0 < most }
        ensures { IfOk result (λ s. s ≡ empty_sink fails room most) }
    {
        let sink = QuietSink::new(alloc, room)?;
        Ok(MemSink {
            sink,
            calls: Numbering::new(fails),
            most,
        })
    }

    /// The bytes that it keeps.
    pub fn bytes(&self) -> &[u8]
        ensures { result.now ≡ self.now.kept.bytes }
    {
        self.sink.bytes()
    }

    /// Whether they are all that was put.
    pub fn is_told(&self) -> bool
        ensures { result ≡ self.now.kept.told }
    {
        self.sink.is_told()
    }
}

impl Sink for MemSink {
    ghost use Rattle.std.specs.Prelude.{◌≡◌};
    ghost use Rattle.ds_io.specs.Kept.{room_of, room_tells};
    ghost use Rattle.ds_io.specs.Numbered.{fault_count};

    ghost tells = { λ s. s.kept.told };

    ghost taken = { λ s had. s.kept.bytes ≡ had };

    ghost room = { λ s. room_of s.kept };

    ghost faults = { λ s. fault_count s.calls };

    ghost roomy = { λ s h. room_tells s.kept h };

    fn put(&mut self, bytes: &[u8]) -> Result<usize, Failed>
        ensures fails { IsErr result ↔ IsTrue (fails_now (called self.old.calls)) }
        ensures some { 0 < self.old.most }
        ensures answer { IfOk result (λ n. n ≡ min (length bytes.now) self.old.most) }
        ensures next { self.new ≡ sink_called self.old (kept_after self.old.kept (take (min (length bytes.now) self.old.most) bytes.now)) }
        ensures cause { OnErr result (Rose (fault_count self.old.calls) (fault_count self.new.calls)) }
        ensures later { fault_count self.old.calls ≤ fault_count self.new.calls }
    {
        if self.calls.call() {
            return Err(Failed);
        }
        let front = &bytes[..bytes.len().min(self.most)];
        self.sink.put(front)
    }
}
