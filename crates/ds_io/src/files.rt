//! Named files in memory.

ghost use Rattle.std.specs.Prelude.{◌≡◌, ◌<◌, ◌++◌, ◌∷◌, ◌+◌, ◌-◌, ◌^◌, [], Some, None, length, take, drop, min, slice_index_or, IfSome, IfNone, OnOk, OnErr};
ghost use Rattle.std.specs.String.{string_bytes};
ghost use Rattle.ds_io.specs.Shelves.{file_of};
ghost use Rattle.ds_io.specs.Entries.{no_file};

use std::alloc::{AllocError, Global};
use std::marker::Model;

#[derive(Drop)]
struct Entry {
    name: String,
    bytes: Vec<u8>,
}

/// Named files in memory. Contracts see them as the list of their names and bytes; the first of a name counts.
#[derive(Drop)]
pub struct Files {
    entries: Vec<Entry>,
}

impl Model for Files {
    ghost use Rattle.std.specs.Prelude.{List, map};
    ghost use Rattle.ds_io.specs.Entries.{entry_file};
    ghost use Rattle.ds_io.specs.Shelves.{Named};

    ghost Value = { List Named };

    ghost view = { λ f. map entry_file f.entries.items };
}

impl Files {
    /// No files. It takes no memory.
    pub fn new(alloc: Global) -> Files
        ensures { result ≡ [] }
    {
        Files {
            entries: Vec::new(alloc),
        }
    }

    /// Adds a file at the end. For want of memory the files stay as they were, and what was handed in is dropped.
    pub fn push(&mut self, name: String, bytes: Vec<u8>) -> Result<(), AllocError>
        ensures ok { OnOk result (self.new ≡ self.old ++ (record { name = string_bytes name; bytes = bytes.items }) ∷ []) }
        ensures err { OnErr result (self.new ≡ self.old) }
    {
        self.entries.push(Entry { name, bytes })?;
        Ok(())
    }

    /// Where the first file of a name stands.
    pub(crate) fn position(&self, name: &str) -> Option<usize>
        ensures found { IfSome result (λ at. file_of self.now name.now ≡ Some (slice_index_or self.now at no_file).bytes) }
        ensures none { IfNone result (file_of self.now name.now ≡ None) }
    {
        for i in 0..self.entries.len() {
            if self.entries[i].name.as_str() == name {
                return Some(i);
            }
        }
        None
    }

    /// Copies bytes of a file, from a place on, into the front of a slice, and says how many.
    pub(crate) fn copy(&self, at: usize, from: usize, into: &mut [u8]) -> usize
        ensures count { result ≡ min (length into.old) (length (slice_index_or self.now at no_file).bytes - from) }
        ensures small { from + result < 2 ^ 64 }
        ensures put { into.new ≡ take result (drop from (slice_index_or self.now at no_file).bytes) ++ drop result into.old }
    {
        if at >= self.entries.len() {
            return 0;
        }
        let bytes = self.entries[at].bytes.as_slice();
        if from >= bytes.len() {
            return 0;
        }
        let n = into.len().min(bytes.len() - from);
        into[..n].copy_from_slice(&bytes[from..from + n]);
        n
    }
}
