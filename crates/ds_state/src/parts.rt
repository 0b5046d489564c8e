//! Lists of parts, each with a format of its own.

ghost use Rattle.std.specs.Prelude.{◌≡◌, ℕ, List, length, map, IfOk, OnOk};
ghost use Rattle.ds_state.specs.Formats.{written_each};
ghost use Rattle.ds_state.specs.Reading.{Left, ReadAnswer, GivesIn, GivesRead, read_list};

use crate::packer::Packer;
use crate::unpacker::{Unpacked, Unpacker};
use std::alloc::{AllocError, Global};

/// A value that stands in bytes by a format, and needs no memory of its own.
pub trait Part: Sized + Drop {
    ghost State: { Type 0 };

    ghost state: { Self → State };

    ghost reader: { ℕ → Left → ReadAnswer State };

    ghost writer: { List ℕ → State → List ℕ };

    fn put(&self, into: &mut Packer) -> Result<(), AllocError>
        ensures { OnOk result (into.new ≡ writer into.old (state self.now)) };

    fn take(from: &mut Unpacker, at: u64) -> Result<Self, Unpacked>
        ensures { GivesRead state result from.new (reader at from.old) };
}

/// So many parts.
pub fn take_list<T: Part>(
    alloc: Global,
    from: &mut Unpacker,
    count: u32,
    at: u64,
) -> Result<Vec<T>, Unpacked>
    ensures reads { GivesIn (λ v. map T.state v.items) result from.new (read_list (T.reader at) count from.old) }
    ensures long { IfOk result (λ v. length v.items ≡ count) }
{
    let mut parts = Vec::new(alloc);
    for _ in 0..count {
        let part = T::take(from, at)?;
        parts.push(part)?;
    }
    Ok(parts)
}

/// As many parts as there is room for.
pub fn take_each<T: Part + Copy>(
    from: &mut Unpacker,
    into: &mut [T],
    at: u64,
) -> Result<(), Unpacked>
    ensures reads { GivesRead (λ _. map T.state into.new) result from.new (read_list (T.reader at) (length into.old) from.old) }
    ensures long { length into.new ≡ length into.old }
{
    for i in 0..into.len() {
        into[i] = T::take(from, at)?;
    }
    Ok(())
}

/// The parts one after another.
pub fn put_list<T: Part>(into: &mut Packer, parts: &[T]) -> Result<(), AllocError>
    ensures { OnOk result (into.new ≡ written_each T.writer into.old (map T.state parts.now)) }
{
    for part in parts {
        part.put(into)?;
    }
    Ok(())
}
