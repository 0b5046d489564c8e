//! The processors, and CP15, in bytes.

ghost use Rattle.std.specs.Prelude.{◌≡◌, IfOk, OnOk, Some};
ghost use Rattle.ds_base.specs.Schedules.{IsEarly};
ghost use Rattle.ds_base.specs.declared.processors.Arch.TheVariants.{V4, V5};
ghost use Rattle.ds_machine.specs.Processors.{state_of, processor_taken};
ghost use Rattle.ds_machine.specs.Saved.{own_due};
ghost use Rattle.ds_machine.specs.SavedParts.{is_late, made_processor, processor_format};
ghost use Rattle.ds_machine.specs.SavedParts.{processors_format, saved_processors};
ghost use Rattle.ds_state.specs.Formats.{bytes_written, number_code};
ghost use Rattle.ds_state.specs.Reading.{GivesRead, read_code, read_format, ruled};

use crate::parts::Parts;
use crate::processors::Processor;
use arm_core::Core;
use cp15_tcm::Cp15;
use ds_base::{Arch, Proc, Tick};
use ds_state::{Packer, Unpacked, Unpacker, holds};
use std::alloc::AllocError;
use std::marker::Model;

/// A processor as it is saved.
#[derive(Drop)]
pub struct TakenProcessor {
    pub core: Core,
    pub halted: bool,
    pub due: u64,
}

impl TakenProcessor {
    /// Whether it isn't halted, and due before a tick.
    pub fn is_late(&self, at: Tick) -> bool
        ensures { result ≡ is_late at.0 (processor_taken self.now) }
    {
        !self.halted && self.due < at.0
    }

    /// The processor, with a count of steps.
    pub fn with_steps(self, steps: u64) -> Processor
        ensures state { state_of result ≡ made_processor (processor_taken self) steps }
        ensures arch { result.core.arch ≡ self.core.arch }
    {
        Processor {
            due: self.due,
            core: self.core,
            steps,
        }
    }
}

/// Both processors as they are saved, and CP15.
#[derive(Drop)]
pub struct SavedProcessors {
    pub nine: TakenProcessor,
    pub seven: TakenProcessor,
    pub cp15: Cp15,
}

impl Model for SavedProcessors {
    ghost use Rattle.std.specs.Prelude.{◌≡◌};
    ghost use Rattle.ds_base.specs.declared.processors.Arch.TheVariants.{V4, V5};
    ghost use Rattle.ds_machine.specs.Processors.{processor_taken};
    ghost use Rattle.ds_machine.specs.SavedParts.{SavedProcessors};

    ghost Value = { SavedProcessors };

    ghost view = { λ p. record { nine = processor_taken p.nine; seven = processor_taken p.seven; cp15 = p.cp15 } };

    ghost invariant = { λ p. (p.nine.core.arch ≡ V5) × (p.seven.core.arch ≡ V4) };
}

/// Puts a processor, 157 bytes.
#[tactic(auto, unfolding(crate::specs::SavedParts::processor_format))]
fn put_processor(into: &mut Packer, processor: &Processor, halted: bool) -> Result<(), AllocError>
    ensures { OnOk result (into.new ≡ bytes_written (processor_format processor.now.core.arch) into.old
        (record { registers = processor.now.core.registers; halted = halted; due = processor.now.due })) }
{
    processor.core.pack(into)?;
    into.put_flag(halted)?;
    into.put_u64(processor.due)?;
    Ok(())
}

/// Takes the tick at which a processor's next step is due.
fn take_own_due(from: &mut Unpacker, at: Tick, halted: bool) -> Result<u64, Unpacked>
    requires { IsEarly (Some at) }
    ensures { GivesRead (λ due. due) result from.new (ruled (own_due halted at.0) from.old (read_code (number_code 8) from.old)) }
{
    let offset = from.place();
    let due = from.take_u64()?;
    holds(
        if halted {
            due == 0
        } else {
            due <= at.0 + 0x1_0000_0000
        },
        offset,
    )?;
    Ok(due)
}

/// Takes a processor of an architecture.
#[tactic(auto, unfolding(crate::specs::SavedParts::processor_format))]
fn take_processor(from: &mut Unpacker, at: Tick, arch: Arch) -> Result<TakenProcessor, Unpacked>
    requires { IsEarly (Some at) }
    ensures reads { GivesRead processor_taken result from.new (read_format (processor_format arch) at.0 from.old) }
    ensures arch { IfOk result (λ p. p.core.arch ≡ arch) }
{
    let core = Core::unpack(from, at, arch)?;
    let halted = from.take_flag()?;
    let due = take_own_due(from, at, halted)?;
    Ok(TakenProcessor { core, halted, due })
}

impl SavedProcessors {
    /// Takes both processors, ARM9 first, and CP15. The error is where the first field begins that isn't whole or breaks its rule: those of the cores
    /// and of CP15; a flag that is no flag; a due tick of a halted processor that isn't 0, or one that is more than 2^32 ticks after the state's.
    #[tactic(auto, unfolding(crate::specs::SavedParts::processors_format))]
    pub fn take(from: &mut Unpacker, at: Tick) -> Result<SavedProcessors, Unpacked>
        requires { IsEarly (Some at) }
        ensures { GivesRead (λ p. p) result from.new (read_format processors_format at.0 from.old) }
    {
        let nine = take_processor(from, at, Arch::V5)?;
        let seven = take_processor(from, at, Arch::V4)?;
        let cp15 = Cp15::unpack(from, at)?;
        Ok(SavedProcessors { nine, seven, cp15 })
    }
}

impl Parts {
    /// Puts both processors, ARM9 first, and CP15, 326 bytes.
    #[tactic(auto, unfolding(crate::specs::SavedParts::processors_format))]
    pub fn put_processors(&self, into: &mut Packer) -> Result<(), AllocError>
        ensures { OnOk result (into.new ≡ bytes_written processors_format into.old (saved_processors self.now)) }
    {
        put_processor(
            into,
            &self.nine.processor,
            self.io.processor(Proc::Nine).is_halted(),
        )?;
        put_processor(
            into,
            &self.seven.processor,
            self.io.processor(Proc::Seven).is_halted(),
        )?;
        self.nine.cp15.pack(into)?;
        Ok(())
    }
}
