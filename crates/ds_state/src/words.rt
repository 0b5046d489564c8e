//! Words, and signed ones, as parts.

use crate::packer::Packer;
use crate::parts::Part;
use crate::unpacker::{Unpacked, Unpacker};
use std::alloc::AllocError;

impl Part for u32 {
    ghost use Rattle.std.specs.Prelude.{ℕ};
    ghost use Rattle.ds_state.specs.Formats.{bytes_written};
    ghost use Rattle.ds_state.specs.Reading.{read_format};
    ghost use Rattle.ds_state.specs.Formats.{word_format};

    ghost State = { ℕ };

    ghost state = { λ w. w };

    ghost reader = { read_format word_format };

    ghost writer = { bytes_written word_format };

    fn put(&self, into: &mut Packer) -> Result<(), AllocError> {
        into.put_u32(*self)
    }

    fn take(from: &mut Unpacker, at: u64) -> Result<u32, Unpacked> {
        from.take_u32()
    }
}

impl Part for i32 {
    ghost use Rattle.std.specs.Prelude.{ℤ};
    ghost use Rattle.ds_state.specs.Formats.{bytes_written};
    ghost use Rattle.ds_state.specs.Reading.{read_format};
    ghost use Rattle.ds_state.specs.Formats.{signed_format};

    ghost State = { ℤ };

    ghost state = { λ w. w };

    ghost reader = { read_format signed_format };

    ghost writer = { bytes_written signed_format };

    fn put(&self, into: &mut Packer) -> Result<(), AllocError> {
        into.put_i32(*self)
    }

    fn take(from: &mut Unpacker, at: u64) -> Result<i32, Unpacked> {
        from.take_i32()
    }
}
