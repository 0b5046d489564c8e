//! What stands before the machine in the bytes of a console.

ghost use Rattle.std.specs.Prelude.{◌≡◌, ◌≤◌, ◌<◌, ◌+◌, ◌*◌, IfOk, OnOk};
ghost use Rattle.ds_state.specs.Formats.{array, bytes_written, number_code, at_most};
ghost use Rattle.ds_state.specs.Reading.{GivesRead, read_code, read_format, ruled};
ghost use Rattle.run_ahead.specs.Heads.{has_few_steps, head_format, is_below, is_digest, is_exactly};

use ds_state::{Packer, Unpacked, Unpacker, holds};
use std::alloc::AllocError;

/// What the bytes of a console begin with, beside a letter, a version and the cartridge's SHA-256.
#[derive(Clone, Copy)]
pub struct Head {
    /// The tick up to which all steps were taken.
    pub at: u64,
    /// Steps of ARM9.
    pub nine: u64,
    /// Steps of ARM7.
    pub seven: u64,
    /// Steps of all other actors.
    pub events: u64,
    /// Turns that took a step and didn't stop.
    pub turns: u64,
}

impl Head {
    /// Puts a head: 74 bytes. The error is want of memory.
    #[tactic(auto, unfolding(crate::specs::Heads::head_format))]
    pub fn pack(&self, into: &mut Packer, digest: &[u8; 32]) -> Result<(), AllocError>
        ensures { OnOk result (into.new ≡ bytes_written (head_format digest.now) into.old self.now) }
    {
        into.put_u8(LETTER)?;
        into.put_u8(VERSION)?;
        into.put_bytes(digest)?;
        into.put_u64(self.at)?;
        into.put_u64(self.nine)?;
        into.put_u64(self.seven)?;
        into.put_u64(self.events)?;
        into.put_u64(self.turns)
    }

    /// Takes what `pack` puts. The error is where the first field begins that isn't whole, is another letter, version or SHA-256, is a tick that
    /// isn't below the limit, makes more than 24 steps for each tick, or is more turns than steps.
    #[tactic(auto, unfolding(crate::specs::Heads::head_format))]
    pub fn unpack(from: &mut Unpacker, digest: &[u8; 32], limit: u64) -> Result<Head, Unpacked>
        ensures reads { GivesRead (λ head. head) result from.new (read_format (head_format digest.now) limit from.old) }
        ensures below { IfOk result (λ head. head.at < limit) }
        ensures few { IfOk result (λ head. head.nine + head.seven + head.events ≤ 24 * head.at) }
        ensures fewer { IfOk result (λ head. head.turns ≤ head.nine + head.seven + head.events) }
    {
        take_exactly(from, LETTER)?;
        take_exactly(from, VERSION)?;
        take_digest(from, digest)?;
        let at = take_below(from, limit)?;
        let nine = from.take_u64()?;
        let seven = from.take_u64()?;
        let events = take_events(from, at, nine, seven)?;
        let turns = take_turns(from, nine, seven, events)?;
        Ok(Head {
            at,
            nine,
            seven,
            events,
            turns,
        })
    }
}

/// What the bytes of a console begin with.
const LETTER: u8 = b'S';

/// The form in which they stand.
const VERSION: u8 = 1;

/// Takes a byte that can only be this.
fn take_exactly(from: &mut Unpacker, value: u8) -> Result<u8, Unpacked>
    ensures { GivesRead (λ x. x) result from.new (ruled (is_exactly value 0) from.old (read_code (number_code 1) from.old)) }
{
    let offset = from.place();
    let byte = from.take_u8()?;
    holds(byte == value, offset)?;
    Ok(byte)
}

/// Takes the SHA-256, which can only be the cartridge's.
fn take_digest(from: &mut Unpacker, digest: &[u8; 32]) -> Result<[u8; 32], Unpacked>
    ensures { GivesRead (λ sum. sum) result from.new (ruled (is_digest digest.now 0) from.old (read_code (array 32) from.old)) }
{
    let offset = from.place();
    let mut sum = [0; 32];
    holds(from.take_into(&mut sum), offset)?;
    holds(sum == *digest, offset)?;
    Ok(sum)
}

/// Takes the tick.
fn take_below(from: &mut Unpacker, limit: u64) -> Result<u64, Unpacked>
    ensures reads { GivesRead (λ at. at) result from.new (ruled (is_below limit) from.old (read_code (number_code 8) from.old)) }
    ensures below { IfOk result (λ at. at < limit) }
{
    let offset = from.place();
    let at = from.take_u64()?;
    holds(at < limit, offset)?;
    Ok(at)
}

/// Takes the number of steps of all but the processors.
fn take_events(from: &mut Unpacker, at: u64, nine: u64, seven: u64) -> Result<u64, Unpacked>
    ensures reads { GivesRead (λ events. events) result from.new
        (ruled (has_few_steps at nine seven 0) from.old (read_code (number_code 8) from.old)) }
    ensures few { IfOk result (λ events. nine + seven + events ≤ 24 * at) }
{
    let offset = from.place();
    let events = from.take_u64()?;
    let few = nine as u128 + seven as u128 + events as u128 <= 24 * at as u128;
    holds(few, offset)?;
    Ok(events)
}

/// Takes the number of turns, no more than steps.
fn take_turns(from: &mut Unpacker, nine: u64, seven: u64, events: u64) -> Result<u64, Unpacked>
    ensures reads { GivesRead (λ turns. turns) result from.new
        (ruled (at_most (nine + seven + events) 0) from.old (read_code (number_code 8) from.old)) }
    ensures fewer { IfOk result (λ turns. turns ≤ nine + seven + events) }
{
    let offset = from.place();
    let turns = from.take_u64()?;
    holds(
        turns as u128 <= nine as u128 + seven as u128 + events as u128,
        offset,
    )?;
    Ok(turns)
}
