//! The console in bytes.

ghost use Rattle.std.specs.Prelude.{◌≡◌, ◌≢◌, ◌<◌, ◌≤◌, ◌^◌, ℕ, [], None, IfErr, IfOk, OnErr, OnOk, length, slice_index};
ghost use Rattle.ds_runs.specs.Runs.{IsOver};
ghost use Rattle.ds_state.specs.declared.unpacker.Unpacked.TheVariants.{Bad};
ghost use Rattle.ds_machine.specs.Reference.{dues_of};
ghost use Rattle.ds_machine.specs.States.{with_file};
ghost use Rattle.ds_machine.specs.WithinLaws.{IsWithinTick};
ghost use Rattle.run_ahead.specs.Inside.{GoesBehind};
ghost use Rattle.run_ahead.specs.Saved.{console_of, GivesState, IsReadBack, StatesAreShort, StatesHaveOneSpelling, head_of, read_state, state_bytes};

use super::Console;
use crate::heads::Head;
use ds_base::{Keys, Proc, Tick, known};
use ds_header::Cart;
use ds_machine::{Machine, back_laws, saved_laws};
use ds_state::{Packer, Unpacked, Unpacker};
use std::alloc::{AllocError, Global};

impl Console {
    /// The whole file of the cartridge.
    pub fn file(&self) -> &[u8]
        ensures { result.now ≡ self.now.machine.file }
    {
        self.machine.file()
    }

    /// The console in bytes, at the tick to which it was run: it hasn't stopped, and nobody is due below that tick. They begin with a head of 74
    /// bytes, which has the SHA-256 of the cartridge, the tick and the counts; then comes the machine. They are read back as this console, by each
    /// later limit and with each key script of which its lines are those from the tick on, where all that the machine keeps of times is as it is
    /// after a run to that tick. The error is want of memory.
    pub fn save(&self, alloc: Global, digest: &[u8; 32], at: Tick) -> Result<Vec<u8>, AllocError>
        requires open { self.now.stopped ≡ None }
        requires limit { at.0 ≡ self.now.limit }
        requires over { IsOver (dues_of self.now.machine) at.0 }
        ensures bytes { IfOk result (λ bytes. bytes.items ≡ state_bytes digest.now self.now) }
        ensures accepted { IfOk result (λ bytes. IsWithinTick at.0 self.now.machine → IsReadBack digest.now self.now bytes.items) }
    {
        known!(self.machine.bounds());
        known!(saved_laws());
        known!(back_laws());
        let mut into = Packer::new(alloc);
        self.head(at).pack(&mut into, digest)?;
        self.machine.pack(&mut into)?;
        Ok(into.finish())
    }

    /// The console that bytes stand for, with a cartridge, whose SHA-256 is given, and a key script, of which it takes the lines from the bytes' tick
    /// on; it is to be run on to a tick. All memory of a run is taken here. The error is want of memory, or where the first field begins that isn't
    /// whole or breaks its rule, or the first byte that is left over.
    pub fn resume(
        alloc: Global,
        cart: Cart,
        keys: Keys,
        digest: &[u8; 32],
        bytes: &[u8],
        until: Tick,
    ) -> Result<Console, Unpacked>
        requires few { length bytes.now < 2 ^ 32 }
        requires early { until.0 ≤ 2 ^ 56 }
        ensures state { GivesState (λ console. console) result (read_state digest.now until.0 cart keys bytes.now) }
        ensures open { IfOk result (λ console. (console.stopped ≡ None) × (console.limit < until.0)) }
    {
        let taken = Taken::read(alloc, cart.bytes(), keys, digest, bytes, until)?;
        let Taken { mut machine, head } = taken;
        machine.insert(cart);
        Ok(Console {
            machine,
            limit: head.at,
            stopped: None,
            open_until: head.at,
            turns: head.turns,
        })
    }

    /// Becomes the console that bytes stand for, of the cartridge that it has, whose SHA-256 is given, and of a key script, as `resume` makes it:
    /// back to an earlier tick, or on to a later one. A second machine is made before the old one is let go. After an error, which is as that of
    /// `resume`, it is as it was.
    pub fn go_back(
        &mut self,
        alloc: Global,
        keys: Keys,
        digest: &[u8; 32],
        bytes: &[u8],
        until: Tick,
    ) -> Result<(), Unpacked>
        requires few { length bytes.now < 2 ^ 32 }
        requires early { until.0 ≤ 2 ^ 56 }
        ensures state { GivesState (λ _. self.new) result (read_state digest.now until.0 self.old.machine.file keys bytes.now) }
        ensures open { IfOk result (λ _. (self.new.stopped ≡ None) × (self.new.limit < until.0)) }
        ensures err { OnErr result (self.new ≡ self.old) }
    {
        let taken = Taken::read(alloc, self.machine.file(), keys, digest, bytes, until)?;
        let Taken { machine, head } = taken;
        self.machine.take_over(machine);
        self.limit = head.at;
        self.stopped = None;
        self.open_until = head.at;
        self.turns = head.turns;
        Ok(())
    }

    /// What its bytes begin with.
    fn head(&self, at: Tick) -> Head
        requires { at.0 ≡ self.now.limit }
        ensures { result ≡ head_of self.now }
    {
        Head {
            at: at.0,
            nine: self.machine.steps(Proc::Nine),
            seven: self.machine.steps(Proc::Seven),
            events: self.machine.events(),
            turns: self.turns,
        }
    }
}

/// What bytes stand for, beside their cartridge: a machine, and what stands before it.
#[derive(Drop)]
struct Taken {
    machine: Machine,
    head: Head,
}

impl Taken {
    /// What bytes stand for, of a cartridge's file, whose SHA-256 is given, and of a key script; it is to be run on to a tick.
    #[tactic(auto, unfolding(crate::specs::Saved::read_state))]
    fn read(
        alloc: Global,
        file: &[u8],
        keys: Keys,
        digest: &[u8; 32],
        bytes: &[u8],
        until: Tick,
    ) -> Result<Taken, Unpacked>
        requires few { length bytes.now < 2 ^ 32 }
        requires early { until.0 ≤ 2 ^ 56 }
        ensures state { GivesState (λ taken. console_of taken.head (with_file file.now taken.machine)) result
            (read_state digest.now until.0 file.now keys bytes.now) }
        ensures goes { IfOk result (λ taken. GoesBehind until.0 taken.head (with_file file.now taken.machine)) }
    {
        known!(are_bytes(bytes));
        known!(saved_laws());
        let mut from = Unpacker::new(bytes);
        let head = Head::unpack(&mut from, digest, until.0)?;
        let steps = [head.nine, head.seven, head.events];
        let machine = Machine::unpack(alloc, file, keys, steps, &mut from, Tick(head.at))?;
        take_end(&mut from)?;
        Ok(Taken { machine, head })
    }
}

/// Does nothing; its contract tells that the elements of a slice of bytes are bytes.
fn are_bytes(bytes: &[u8])
    ensures { (i : ℕ) → slice_index bytes.now i < 256 }
{
    known!(bytes);
}

/// Bad at the first byte that is left over, if there is one.
#[tactic(auto, unfolding(ds_state::specs::Reading::read_code))]
fn take_end(from: &mut Unpacker) -> Result<(), Unpacked>
    ensures all { OnOk result (from.old.bytes ≡ []) }
    ensures left { IfErr result (λ e. (e ≡ Bad from.old.place) × (from.old.bytes ≢ [])) }
{
    let offset = from.place();
    match from.take(1) {
        None => Ok(()),
        Some(_) => Err(Unpacked::Bad { offset }),
    }
}

/// Does nothing; its contract states that bytes which are read as a console are its bytes, so that no others are accepted for it; and that they are
/// no more than 8,388,608.
pub fn state_laws()
    ensures spelling { StatesHaveOneSpelling }
    ensures short { StatesAreShort }
{
    known!(saved_laws());
}
