//! A shelf and a sink in memory that never fail.

ghost use Rattle.std.specs.Prelude.{◌≡◌, ◌++◌, [], None, Ok, true, IfOk, is_some, length, min, take, drop};
ghost use Rattle.ds_io.specs.Kept.{kept_after};
ghost use Rattle.ds_io.specs.Shelves.{file_of, found_in, left_of, moved};

use crate::faults::Failed;
use crate::files::Files;
use crate::shelves::Shelf;
use crate::sinks::Sink;
use std::alloc::{AllocError, Global};
use std::marker::Model;

/// Files in memory, as a shelf that tells them and never fails.
#[derive(Drop)]
pub struct QuietShelf {
    files: Files,
    found: Option<usize>,
    place: usize,
}

impl Model for QuietShelf {
    ghost use Rattle.std.specs.Prelude.{drop, option_map, slice_index_or};
    ghost use Rattle.ds_io.specs.Entries.{no_file};
    ghost use Rattle.ds_io.specs.Shelves.{Told};

    ghost Value = { Told };

    ghost view = { λ s. record { files = s.files; left = option_map (λ at. drop s.place (slice_index_or s.files at no_file).bytes) s.found } };
}

impl QuietShelf {
    /// A shelf with these files, of which none is found yet.
    pub fn new(files: Files) -> QuietShelf
        ensures { result ≡ record { files = files; left = None } }
    {
        QuietShelf {
            files,
            found: None,
            place: 0,
        }
    }
}

impl Shelf for QuietShelf {
    ghost use Rattle.std.specs.Prelude.{Some};

    ghost told = { λ s. Some s };

    ghost faults = { λ _. 0 };

    fn find(&mut self, name: &str) -> Result<bool, Failed>
        ensures answer { result ≡ Ok (is_some (file_of self.old.files name.now)) }
        ensures next { self.new ≡ found_in self.old name.now }
    {
        match self.files.position(name) {
            Some(at) => {
                self.found = Some(at);
                self.place = 0;
                Ok(true)
            }
            None => Ok(false),
        }
    }

    fn read(&mut self, into: &mut [u8]) -> Result<usize, Failed>
        ensures answer { result ≡ Ok (min (length into.old) (length (left_of self.old))) }
        ensures put { let n = min (length into.old) (length (left_of self.old)) in into.new ≡ take n (left_of self.old) ++ drop n into.old }
        ensures next { self.new ≡ moved self.old (min (length into.old) (length (left_of self.old))) }
    {
        match self.found {
            Some(at) => {
                let n = self.files.copy(at, self.place, into);
                self.place += n;
                Ok(n)
            }
            None => Ok(0),
        }
    }
}

/// A sink in memory that never fails. It keeps and tells all that is put, while it fits the room that it was made with; with
/// the first bytes that don't fit it stops telling for good, and drops what is put from then on.
#[derive(Drop)]
pub struct QuietSink {
    bytes: Vec<u8>,
    room: usize,
    told: bool,
}

impl Model for QuietSink {
    ghost use Rattle.std.specs.Prelude.{◌≡◌, ◌≤◌, length, vec_len, vec_capacity};
    ghost use Rattle.ds_io.specs.Kept.{KeptBytes};

    ghost Value = { KeptBytes };

    ghost view = { λ s. record { bytes = s.bytes.items; room = s.room; told = s.told } };

    ghost invariant = { λ s. (vec_len s.bytes ≡ length s.bytes.items) × (vec_len s.bytes ≤ s.room) × (s.room ≤ vec_capacity s.bytes) };
}

impl QuietSink {
    /// An empty sink with room for so many bytes. All its memory is taken here.
    pub fn new(alloc: Global, room: usize) -> Result<QuietSink, AllocError>
        ensures { IfOk result (λ s. s ≡ record { bytes = []; room = room; told = true }) }
    {
        let bytes = Vec::with_capacity(alloc, room)?;
        Ok(QuietSink {
            bytes,
            room,
            told: true,
        })
    }

    /// The bytes that it keeps.
    pub fn bytes(&self) -> &[u8]
        ensures { result.now ≡ self.now.bytes }
    {
        self.bytes.as_slice()
    }

    /// Whether they are all that was put.
    pub fn is_told(&self) -> bool
        ensures { result ≡ self.now.told }
    {
        self.told
    }
}

impl Sink for QuietSink {
    ghost use Rattle.std.specs.Prelude.{◌≡◌};
    ghost use Rattle.ds_io.specs.Kept.{room_of, room_tells};

    ghost tells = { λ s. s.told };

    ghost taken = { λ s had. s.bytes ≡ had };

    ghost room = { λ s. room_of s };

    ghost faults = { λ _. 0 };

    ghost roomy = { λ s h. room_tells s h };

    fn put(&mut self, bytes: &[u8]) -> Result<usize, Failed>
        ensures answer { result ≡ Ok (length bytes.now) }
        ensures kept { self.new ≡ kept_after self.old bytes.now }
    {
        let fits = self.told && bytes.len() <= self.room - self.bytes.len();
        self.told = fits && self.bytes.extend_from_slice(bytes).is_ok();
        Ok(bytes.len())
    }
}
