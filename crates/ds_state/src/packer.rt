//! Bytes that are put one field after another.

ghost use Rattle.std.specs.Prelude.{◌≡◌, ◌≤◌, ◌<◌, ◌^◌, ◌++◌, if◌then◌else◌, OnOk, OnErr, []};
ghost use Rattle.std.specs.Int.{w16, w32, cast_unsigned};
ghost use Rattle.byteorder.specs.Endian.{little_bytes};
ghost use Rattle.ds_state.specs.Formats.{IsCodeWidth, tick_number};

use byteorder::{ByteOrder, LittleEndian};
use std::alloc::{AllocError, Global};
use std::marker::Model;

/// Bytes to which fields are put. Contracts see the bytes so far.
#[derive(Drop)]
pub struct Packer {
    bytes: Vec<u8>,
}

impl Model for Packer {
    ghost use Rattle.std.specs.Prelude.{List, ℕ};

    ghost Value = { List ℕ };

    ghost view = { λ p. p.bytes.items };
}

impl Packer {
    /// No bytes; this takes no memory yet.
    pub fn new(alloc: Global) -> Packer
        ensures { result ≡ [] }
    {
        Packer {
            bytes: Vec::new(alloc),
        }
    }

    /// Puts a number in 1, 2, 4 or 8 bytes, the lowest first.
    pub fn put(&mut self, value: u64, bytes: u8) -> Result<(), AllocError>
        requires width { IsCodeWidth bytes }
        requires fits { value < 256 ^ bytes }
        ensures ok { OnOk result (self.new ≡ self.old ++ little_bytes bytes value) }
        ensures err { OnErr result (self.new ≡ self.old) }
    {
        match bytes {
            1 => self.put_u8((value % 0x100) as u8),
            2 => self.put_u16((value % 0x1_0000) as u16),
            4 => self.put_u32((value % 0x1_0000_0000) as u32),
            _ => self.put_u64(value),
        }
    }

    /// All bytes that were put.
    pub fn finish(self) -> Vec<u8>
        ensures { result.items ≡ self }
    {
        self.bytes
    }

    /// Puts bytes as they are. The error is want of memory; then all is as it was. So with each call that puts.
    pub fn put_bytes(&mut self, bytes: &[u8]) -> Result<(), AllocError>
        ensures ok { OnOk result (self.new ≡ self.old ++ bytes.now) }
        ensures err { OnErr result (self.new ≡ self.old) }
    {
        self.bytes.extend_from_slice(bytes)
    }

    /// Puts a byte.
    pub fn put_u8(&mut self, value: u8) -> Result<(), AllocError>
        ensures ok { OnOk result (self.new ≡ self.old ++ little_bytes 1 value) }
        ensures err { OnErr result (self.new ≡ self.old) }
    {
        self.put_bytes(&[value])
    }

    /// Puts a number in two bytes, the lowest first.
    pub fn put_u16(&mut self, value: u16) -> Result<(), AllocError>
        ensures ok { OnOk result (self.new ≡ self.old ++ little_bytes 2 value) }
        ensures err { OnErr result (self.new ≡ self.old) }
    {
        self.put_bytes(&value.to_le_bytes())
    }

    /// Puts a number in four bytes, the lowest first.
    pub fn put_u32(&mut self, value: u32) -> Result<(), AllocError>
        ensures ok { OnOk result (self.new ≡ self.old ++ little_bytes 4 value) }
        ensures err { OnErr result (self.new ≡ self.old) }
    {
        self.put_bytes(&value.to_le_bytes())
    }

    /// Puts a number in eight bytes, the lowest first.
    pub fn put_u64(&mut self, value: u64) -> Result<(), AllocError>
        ensures ok { OnOk result (self.new ≡ self.old ++ little_bytes 8 value) }
        ensures err { OnErr result (self.new ≡ self.old) }
    {
        self.put_bytes(&value.to_le_bytes())
    }

    /// Puts a signed number in two bytes.
    pub fn put_i16(&mut self, value: i16) -> Result<(), AllocError>
        ensures ok { OnOk result (self.new ≡ self.old ++ little_bytes 2 (cast_unsigned w16 value)) }
        ensures err { OnErr result (self.new ≡ self.old) }
    {
        self.put_u16(value.cast_unsigned())
    }

    /// Puts a signed number in four bytes.
    pub fn put_i32(&mut self, value: i32) -> Result<(), AllocError>
        ensures ok { OnOk result (self.new ≡ self.old ++ little_bytes 4 (cast_unsigned w32 value)) }
        ensures err { OnErr result (self.new ≡ self.old) }
    {
        self.put_u32(value.cast_unsigned())
    }

    /// Puts a tick in eight bytes, all bits 1 for none.
    pub fn put_tick(&mut self, value: Option<u64>) -> Result<(), AllocError>
        ensures ok { OnOk result (self.new ≡ self.old ++ little_bytes 8 (tick_number value)) }
        ensures err { OnErr result (self.new ≡ self.old) }
    {
        self.put_u64(value.unwrap_or(u64::MAX))
    }

    /// Puts 1 or 0 in a byte.
    pub fn put_flag(&mut self, value: bool) -> Result<(), AllocError>
        ensures ok { OnOk result (self.new ≡ self.old ++ little_bytes 1 (if value then 1 else 0)) }
        ensures err { OnErr result (self.new ≡ self.old) }
    {
        self.put_u8(value as u8)
    }
}
