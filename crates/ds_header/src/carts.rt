//! Accepted cartridges.

ghost use Rattle.std.specs.Prelude.{◌≡◌, ◌≤◌, ◌%◌, ◌^◌, Some, IfOk, IfErr, length};
ghost use Rattle.ds_header.specs.Fields.{image_entry, image_of, image_length, image_place, title_of};
ghost use Rattle.ds_header.specs.Rules.{IsAccepted, ImageLies, fault_of};

use crate::faults::HeaderFault;
use crate::fields::{TITLE, image_fields};
use crate::rules::fault;
use ds_base::Proc;
use std::marker::Model;

/// A cartridge whose header keeps all rules. Contracts see it as the bytes of its file.
#[derive(Drop)]
pub struct Cart {
    file: Vec<u8>,
}

impl Model for Cart {
    ghost use Rattle.std.specs.Prelude.{List, ℕ};
    ghost use Rattle.ds_header.specs.Rules.{IsAccepted};

    ghost Value = { List ℕ };

    ghost view = { λ c. c.file.items };

    ghost invariant = { λ c. IsAccepted c.file.items };
}

impl Cart {
    /// A file as a cartridge, where its header keeps all rules; otherwise the first field that breaks its rule, with its value.
    /// (GBATEK, "DS Cartridge Header"; the rules are our choice.)
    pub fn read(bytes: Vec<u8>) -> Result<Cart, HeaderFault>
        ensures accepted { IfOk result (λ cart. (cart ≡ bytes.items) × IsAccepted bytes.items) }
        ensures refused { IfErr result (λ fault. fault_of bytes.items ≡ Some fault) }
    {
        match fault(bytes.as_slice()) {
            Some(fault) => Err(fault),
            None => Ok(Cart { file: bytes }),
        }
    }

    /// The whole file, of 512 bytes at least.
    pub fn bytes(&self) -> &[u8]
        ensures bytes { result.now ≡ self.now }
        ensures long { 512 ≤ length result.now }
        ensures accepted { IsAccepted self.now }
    {
        self.file.as_slice()
    }

    /// The image of a processor, of 4 MiB at most.
    pub fn image(&self, proc: Proc) -> &[u8]
        ensures image { result.now ≡ image_of self.now proc }
        ensures length { length result.now ≡ image_length self.now proc }
        ensures longest { length result.now ≤ 2 ^ 22 }
    {
        let file = self.file.as_slice();
        let fields = image_fields(file, proc);
        let from = fields.offset as usize;
        &file[from..from + fields.length as usize]
    }

    /// The address at which the image of a processor goes to memory.
    pub fn place(&self, proc: Proc) -> u32
        ensures place { result ≡ image_place self.now proc }
        ensures lies { ImageLies proc result (length (image_of self.now proc)) }
    {
        image_fields(self.file.as_slice(), proc).place
    }

    /// The address at which a processor begins to run.
    pub fn entry(&self, proc: Proc) -> u32
        ensures entry { result ≡ image_entry self.now proc }
        ensures aligned { result % 4 ≡ 0 }
        ensures lies { ImageLies proc result 0 }
    {
        image_fields(self.file.as_slice(), proc).entry
    }

    /// The twelve bytes of the title.
    pub fn title(&self) -> &[u8]
        ensures title { result.now ≡ title_of self.now }
        ensures length { length result.now ≡ 12 }
    {
        &self.file.as_slice()[..TITLE]
    }
}
