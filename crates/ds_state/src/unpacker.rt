//! Fields that are taken one after another.

ghost use Rattle.std.specs.Prelude.{◌≡◌, ◌≤◌, ◌<◌, ◌^◌, length, IfOk, false, if◌then◌else◌, Ok, Err};
ghost use Rattle.ds_state.specs.declared.unpacker.Unpacked.TheVariants.{NoMemory, Bad};
ghost use Rattle.ds_state.specs.Formats.{IsCodeWidth, number_code, flag_code, tick, array, signed_word, signed_half_code, any, keeps_mask, at_most, earlier_tick, soon, used_where};
ghost use Rattle.ds_state.specs.Reading.{GivesRead, GivesIn, GivesSome, GivesTrue, read_code, ruled};

use byteorder::{ByteOrder, LittleEndian};
use std::alloc::{AllocError, AllocFailed, Global};
use std::marker::Model;

/// Why bytes can't be unpacked.
#[derive(Clone, Copy, Debug, Drop)]
pub enum Unpacked {
    /// There is no memory for what they stand for.
    NoMemory,
    /// They don't begin with the fields that are wanted, each keeping its rule.
    Bad {
        /// Where the first field begins that isn't whole or breaks its rule, in bytes from the first.
        offset: u32,
    },
}

impl From<AllocError> for Unpacked {
    ghost from_gives = { λ _ e. e ≡ NoMemory };

    fn from(_e: AllocError) -> Unpacked {
        Unpacked::NoMemory
    }
}

impl<T: Drop> From<AllocFailed<T>> for Unpacked {
    ghost from_gives = { λ _ e. e ≡ NoMemory };

    fn from(_e: AllocFailed<T>) -> Unpacked {
        Unpacked::NoMemory
    }
}

/// Bytes from which fields are taken. Contracts see the bytes that are left, and the place where they begin.
#[derive(Drop)]
pub struct Unpacker<'a> {
    rest: &'a [u8],
    place: u32,
}

impl<'a> Model for Unpacker<'a> {
    ghost use Rattle.std.specs.Prelude.{◌<◌, ◌+◌, ◌^◌, length};
    ghost use Rattle.ds_state.specs.Reading.{Left};

    ghost Value = { Left };

    ghost view = { λ u. record { place = u.place; bytes = u.rest.now } };

    ghost invariant = { λ u. u.place + length u.rest.now < 2 ^ 32 };
}

impl<'a> Unpacker<'a> {
    /// All bytes, of which there are fewer than 2^32.
    pub fn new(bytes: &'a [u8]) -> Unpacker<'a>
        requires { length bytes.now < 2 ^ 32 }
        ensures { result ≡ record { place = 0; bytes = bytes.now } }
    {
        Unpacker {
            rest: bytes,
            place: 0,
        }
    }

    /// Takes a number of 1, 2, 4 or 8 bytes, the lowest first; None exactly where fewer are left, and then it takes nothing.
    #[tactic(auto, unfolding(crate::specs::Reading::read_code))]
    pub fn take(&mut self, bytes: u8) -> Option<u64>
        requires { IsCodeWidth bytes }
        ensures { GivesSome result self.old self.new (read_code (number_code bytes) self.old) }
    {
        let count = bytes as usize;
        if self.rest.len() < count {
            return None;
        }
        let value = LittleEndian::read_uint(self.rest, count);
        self.rest = &self.rest[count..];
        self.place += bytes as u32;
        Some(value)
    }

    /// Takes so many bytes as `into` has; false exactly where fewer are left, and then it takes nothing.
    #[tactic(auto, unfolding(crate::specs::Reading::read_code))]
    pub fn take_into(&mut self, into: &mut [u8]) -> bool
        ensures reads { GivesTrue result into.new self.old self.new (read_code (array (length into.old)) self.old) }
        ensures long { length into.new ≡ length into.old }
        ensures same { result ≡ false → into.new ≡ into.old }
    {
        let count = into.len();
        if self.rest.len() < count {
            return false;
        }
        let (front, rest) = self.rest.split_at(count);
        into.copy_from_slice(front);
        self.rest = rest;
        self.place += count as u32;
        true
    }

    /// Takes a signed number of four bytes. The error is where a field begins that isn't whole or breaks its rule; so with each call below.
    #[tactic(auto, unfolding(crate::specs::Reading::read_code))]
    pub fn take_i32(&mut self) -> Result<i32, Unpacked>
        ensures { GivesRead (λ x. x) result self.new (read_code signed_word self.old) }
    {
        Ok(self.take_u32()?.cast_signed())
    }

    /// Takes a signed number of two bytes.
    #[tactic(auto, unfolding(crate::specs::Reading::read_code))]
    pub fn take_i16(&mut self) -> Result<i16, Unpacked>
        ensures { GivesRead (λ x. x) result self.new (read_code signed_half_code self.old) }
    {
        Ok(self.take_u16()?.cast_signed())
    }

    /// Where the next field begins, in bytes from the first.
    pub fn place(&self) -> u32
        ensures { result ≡ self.now.place }
    {
        self.place
    }

    /// Takes a byte.
    #[tactic(auto, unfolding(crate::specs::Reading::read_code))]
    pub fn take_u8(&mut self) -> Result<u8, Unpacked>
        ensures { GivesRead (λ x. x) result self.new (read_code (number_code 1) self.old) }
    {
        let offset = self.place;
        if self.rest.len() < 1 {
            return Err(Unpacked::Bad { offset });
        }
        let (front, rest) = self.rest.split_at(1);
        self.rest = rest;
        self.place = offset + 1;
        Ok(front[0])
    }

    /// Takes a number of two bytes.
    #[tactic(auto, unfolding(crate::specs::Reading::read_code))]
    pub fn take_u16(&mut self) -> Result<u16, Unpacked>
        ensures { GivesRead (λ x. x) result self.new (read_code (number_code 2) self.old) }
    {
        let offset = self.place;
        if self.rest.len() < 2 {
            return Err(Unpacked::Bad { offset });
        }
        let value = LittleEndian::read_u16(self.rest);
        self.rest = &self.rest[2..];
        self.place = offset + 2;
        Ok(value)
    }

    /// Takes a number of eight bytes.
    #[tactic(auto, unfolding(crate::specs::Reading::read_code))]
    pub fn take_u64(&mut self) -> Result<u64, Unpacked>
        ensures { GivesRead (λ x. x) result self.new (read_code (number_code 8) self.old) }
    {
        let offset = self.place;
        if self.rest.len() < 8 {
            return Err(Unpacked::Bad { offset });
        }
        let value = LittleEndian::read_u64(self.rest);
        self.rest = &self.rest[8..];
        self.place = offset + 8;
        Ok(value)
    }

    /// Takes a number of four bytes.
    #[tactic(auto, unfolding(crate::specs::Reading::read_code))]
    pub fn take_u32(&mut self) -> Result<u32, Unpacked>
        ensures { GivesRead (λ x. x) result self.new (read_code (number_code 4) self.old) }
    {
        let offset = self.place;
        if self.rest.len() < 4 {
            return Err(Unpacked::Bad { offset });
        }
        let value = LittleEndian::read_u32(self.rest);
        self.rest = &self.rest[4..];
        self.place = offset + 4;
        Ok(value)
    }

    /// Takes a byte that is 0 or 1.
    #[tactic(auto, unfolding(crate::specs::Reading::read_code))]
    pub fn take_flag(&mut self) -> Result<bool, Unpacked>
        ensures { GivesRead (λ x. x) result self.new (read_code flag_code self.old) }
    {
        let offset = self.place;
        match self.take_u8()? {
            0 => Ok(false),
            1 => Ok(true),
            _ => Err(Unpacked::Bad { offset }),
        }
    }

    /// Takes a tick of eight bytes, None where all bits are 1.
    #[tactic(auto, unfolding(crate::specs::Reading::read_code))]
    pub fn take_tick(&mut self) -> Result<Option<u64>, Unpacked>
        ensures { GivesRead (λ x. x) result self.new (read_code tick self.old) }
    {
        let number = self.take_u64()?;
        Ok(if number == u64::MAX {
            None
        } else {
            Some(number)
        })
    }

    /// Takes the due tick of a state at a tick: none, or from that tick on to 2^32 ticks after it.
    pub fn take_due(&mut self, at: u64) -> Result<Option<u64>, Unpacked>
        ensures { GivesRead (λ x. x) result self.new (ruled (soon at) self.old (read_code tick self.old)) }
    {
        let offset = self.place();
        let due = self.take_tick()?;
        let soon = match due {
            Some(due) => due >= at && due - at <= 0x1_0000_0000,
            None => true,
        };
        holds(soon, offset)?;
        Ok(due)
    }

    /// Takes so many bytes as they are; the error may be want of memory, too.
    #[tactic(auto, unfolding(crate::specs::Reading::read_code))]
    pub fn take_bytes(&mut self, alloc: Global, count: usize) -> Result<Vec<u8>, Unpacked>
        ensures reads { GivesIn (λ v. v.items) result self.new (read_code (array count) self.old) }
        ensures long { IfOk result (λ v. length v.items ≡ count) }
    {
        let offset = self.place;
        if self.rest.len() < count {
            return Err(Unpacked::Bad { offset });
        }
        let (front, rest) = self.rest.split_at(count);
        let bytes = Vec::from_slice(alloc, front)?;
        self.rest = rest;
        self.place = offset + count as u32;
        Ok(bytes)
    }

    /// Takes a byte that is no more than a number.
    pub fn take_at_most(&mut self, most: u8) -> Result<u8, Unpacked>
        ensures reads { GivesRead (λ x. x) result self.new (ruled (at_most most 0) self.old (read_code (number_code 1) self.old)) }
        ensures most { IfOk result (λ x. x ≤ most) }
    {
        let offset = self.place;
        let value = self.take_u8()?;
        holds(value <= most, offset)?;
        Ok(value)
    }

    /// Takes a half that is no more than a number.
    pub fn take_half_at_most(&mut self, most: u16) -> Result<u16, Unpacked>
        ensures reads { GivesRead (λ x. x) result self.new (ruled (at_most most 0) self.old (read_code (number_code 2) self.old)) }
        ensures most { IfOk result (λ x. x ≤ most) }
    {
        let offset = self.place;
        let value = self.take_u16()?;
        holds(value <= most, offset)?;
        Ok(value)
    }

    /// Takes a word that is no more than a number.
    pub fn take_word_at_most(&mut self, most: u32) -> Result<u32, Unpacked>
        ensures reads { GivesRead (λ x. x) result self.new (ruled (at_most most 0) self.old (read_code (number_code 4) self.old)) }
        ensures most { IfOk result (λ x. x ≤ most) }
    {
        let offset = self.place;
        let value = self.take_u32()?;
        holds(value <= most, offset)?;
        Ok(value)
    }

    /// Takes a half that has no bits but these.
    pub fn take_kept_half(&mut self, mask: u16) -> Result<u16, Unpacked>
        ensures { GivesRead (λ x. x) result self.new (ruled (keeps_mask mask 0) self.old (read_code (number_code 2) self.old)) }
    {
        let offset = self.place;
        let value = self.take_u16()?;
        holds(value & mask == value, offset)?;
        Ok(value)
    }

    /// Takes the tick of an earlier step than the state's: at most the state's tick, and 0 where there was none.
    pub fn take_earlier(&mut self, there: bool, at: u64) -> Result<u64, Unpacked>
        ensures reads { GivesRead (λ x. x) result self.new (ruled (earlier_tick there at) self.old (read_code (number_code 8) self.old)) }
        ensures most { IfOk result (λ x. x ≤ at) }
    {
        let offset = self.place;
        let tick = self.take_u64()?;
        holds(if there { tick <= at } else { tick == 0 }, offset)?;
        Ok(tick)
    }

    /// Takes a word that is 0 where it isn't used.
    pub fn take_used_word(&mut self, used: bool) -> Result<u32, Unpacked>
        ensures reads { GivesRead (λ x. x) result self.new (ruled (used_where used 0) self.old (read_code (number_code 4) self.old)) }
        ensures none { used ≡ false → IfOk result (λ x. x ≡ 0) }
    {
        let offset = self.place;
        let value = self.take_u32()?;
        holds(used || value == 0, offset)?;
        Ok(value)
    }

    /// Takes a word that has no bits but these.
    pub fn take_kept_word(&mut self, mask: u32) -> Result<u32, Unpacked>
        ensures { GivesRead (λ x. x) result self.new (ruled (keeps_mask mask 0) self.old (read_code (number_code 4) self.old)) }
    {
        let offset = self.place;
        let value = self.take_u32()?;
        holds(value & mask == value, offset)?;
        Ok(value)
    }

    /// Takes a byte that has no bits but these.
    pub fn take_kept(&mut self, mask: u8) -> Result<u8, Unpacked>
        ensures { GivesRead (λ x. x) result self.new (ruled (keeps_mask mask 0) self.old (read_code (number_code 1) self.old)) }
    {
        let offset = self.place;
        let value = self.take_u8()?;
        holds(value & mask == value, offset)?;
        Ok(value)
    }
}

/// Bad at an offset, where a rule doesn't hold.
pub fn holds(rule: bool, offset: u32) -> Result<(), Unpacked>
    ensures { result ≡ (if rule then Ok record {} else Err (Bad offset)) }
{
    if rule {
        Ok(())
    } else {
        Err(Unpacked::Bad { offset })
    }
}
