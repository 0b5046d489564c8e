//! A processor in the machine.

ghost use Rattle.std.specs.Prelude.{◌≡◌, ◌≤◌, ◌+◌, ◌*◌, ◌^◌};
ghost use Rattle.arm_core.specs.Cores as cores;
ghost use Rattle.ds_base.specs.Processors.{architecture_of, ticks_per_clock};
ghost use Rattle.ds_base.specs.Schedules.{IsEarly};
ghost use Rattle.ds_dma.specs.States.{last_tick};
ghost use Rattle.ds_header.specs.Fields.{image_entry};
ghost use Rattle.ds_machine.specs.Booted.{stacks_of};
ghost use Rattle.ds_machine.specs.Channels.{past_tick};
ghost use Rattle.ds_machine.specs.Processors.{state_of};
ghost use Rattle.ds_machine.specs.Steps as steps;
ghost use Rattle.ds_machine.specs.Steps.{went_on};

use arm_core::Core;
use ds_base::{Proc, Tick};
use ds_dma::LastUnit;
use ds_header::Cart;

/// A processor: the tick at which its next step is due, which is 0 while it is halted, its core, and how many steps it took. (The two numbers don't
/// lie side by side: each step changes both, and they would be brought together and taken apart again.)
#[derive(Drop)]
pub struct Processor {
    pub due: u64,
    pub core: Core,
    pub steps: u64,
}

/// The stacks of System, IRQ and Supervisor mode at boot. (Our choice.)
fn stacks_at_boot(proc: Proc) -> [u32; 3]
    ensures { result ≡ stacks_of proc }
{
    match proc {
        Proc::Nine => [0x0300_2F7C, 0x0300_3F80, 0x0300_3FC0],
        Proc::Seven => [0x0380_FD80, 0x0380_FF80, 0x0380_FFC0],
    }
}

impl Processor {
    /// A processor at boot: it is due at once.
    pub fn boot(proc: Proc, cart: &Cart) -> Processor
        ensures arch { result.core.arch ≡ architecture_of proc }
        ensures registers { result.core.registers ≡ cores.booted (image_entry cart.now proc) (stacks_of proc) }
        ensures due { result.due ≡ 0 }
        ensures steps { result.steps ≡ 0 }
    {
        Processor {
            core: Core::boot(proc.architecture(), cart.entry(proc), stacks_at_boot(proc)),
            due: 0,
            steps: 0,
        }
    }

    /// Took a step that costs so many ticks; where it is halted now it has no tick at which it is due.
    #[inline(always)]
    pub fn go_on(&mut self, ticks: u64, halted: bool)
        requires brief { ticks ≤ 2 ^ 40 }
        requires early { self.old.due ≤ 2 ^ 56 }
        requires counted { self.old.steps ≤ 2 ^ 61 }
        ensures state { state_of self.new ≡ went_on ticks halted (state_of self.old) }
        ensures core { self.new.core ≡ self.old.core }
    {
        if halted {
            self.due = 0;
        } else {
            self.due += ticks;
        }
        self.steps += 1;
    }

    /// It is due at a tick at the earliest, where it isn't halted.
    pub fn delay_past(&mut self, halted: bool, least: u64)
        ensures state { state_of self.new ≡ past_tick halted least (state_of self.old) }
        ensures core { self.new.core ≡ self.old.core }
    {
        self.due = if halted { 0 } else { self.due.max(least) };
    }
}

/// What a step costs in ticks: by its class in a processor's clocks, and its waits.
#[inline(always)]
pub fn ticks_of(proc: Proc, clocks: u32, waits: u32) -> u64
    ensures value { result ≡ ticks_per_clock proc * clocks + waits }
    ensures brief { result ≤ 2 ^ 40 }
{
    proc.ticks_per_clock() * clocks as u64 + waits as u64
}

/// The same of a step that is known to cost few: put together in 32 bits.
#[inline(always)]
pub fn few_ticks_of(proc: Proc, clocks: u32, waits: u32) -> u64
    requires { ticks_per_clock proc * clocks + waits ≤ 180 }
    ensures value { result ≡ ticks_per_clock proc * clocks + waits }
    ensures brief { result ≤ 2 ^ 40 }
{
    (proc.ticks_per_clock() as u32 * clocks + waits) as u64
}

/// When a processor goes on after a tick, by its last unit of DMA, if there was one: at the next tick, or once the unit's waits are over.
#[inline(always)]
pub fn past_unit(last: Option<LastUnit>, tick: Tick) -> u64
    requires tick { tick.0 ≤ 2 ^ 56 }
    requires unit { IsEarly (last_tick last) }
    ensures value { result ≡ steps.past_unit last tick }
    ensures early { result ≤ 2 ^ 57 }
{
    match last {
        Some(last) => (tick.0 + 1).max(last.tick.0 + last.waits as u64 + 1),
        None => tick.0 + 1,
    }
}
