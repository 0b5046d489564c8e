//! MRS and MSR.

ghost use Rattle.std.specs.Prelude.{◌≡◌, ◌<◌, [], if◌then◌else◌};
ghost use Rattle.arm_core.specs.Effects.{cost_of};
ghost use Rattle.arm_core.specs.Registers.{bank, saved_place};
ghost use Rattle.arm_core.specs.StatusRegisters.{field, field_bits, mrs_meaning, msr_meaning, saved_value, status_register_written, writable};

use arm_core::{Class, Registers, kept_status_bits, replaced};
use arm_words::FieldMask;
use ds_base::Arch;

/// The bits of a field of a status register, if it is written.
#[inline(always)]
fn field(bytes: u32, written: bool) -> u32
    ensures { result ≡ field bytes written }
{
    if written { bytes } else { 0 }
}

/// The bits of the fields that MSR writes.
#[inline(always)]
fn field_bits(fields: FieldMask) -> u32
    ensures { result ≡ field_bits fields }
{
    field(0x0000_00FF, fields.c)
        + field(0x0000_FF00, fields.x)
        + field(0x00FF_0000, fields.s)
        + field(0xFF00_0000, fields.f)
}

/// The bits of CPSR that a program may write: in User mode the flags alone, and never T.
#[inline(always)]
fn writable(s: &Registers) -> u32
    ensures { result ≡ writable s.now }
{
    if s.cpsr() & 31 == 0x10 {
        0xFF00_0000
    } else {
        0xFFFF_FFDF
    }
}

/// Writes the fields of a status register.
#[inline(always)]
fn write_status(arch: Arch, s: &mut Registers, spsr: bool, fields: FieldMask, operand: u32)
    ensures { s.new ≡ status_register_written arch spsr fields operand s.old }
{
    let mask = field_bits(fields) & kept_status_bits(arch);
    if spsr {
        s.write_spsr(mask, operand);
    } else {
        s.set_cpsr(replaced(mask & writable(s), s.cpsr(), operand));
    }
}

/// MSR (ARM manual, A4.1 "MSR"). Gives its cost in the processor's own clocks.
#[inline]
pub fn msr(arch: Arch, s: &mut Registers, spsr: bool, fields: FieldMask, operand: u32) -> u32
    ensures registers { s.new ≡ (msr_meaning arch s.old spsr fields operand).after [] }
    ensures cost { result ≡ cost_of arch (msr_meaning arch s.old spsr fields operand) }
{
    s.go_on();
    write_status(arch, s, spsr, fields, operand);
    Class::Processing.cost(arch, false)
}

/// CPSR, or SPSR of the mode.
#[inline(always)]
fn status(s: &Registers, spsr: bool) -> u32
    ensures { result ≡ (if spsr then saved_value (saved_place (bank s.now)) s.now else s.now.cpsr) }
{
    if spsr { s.spsr() } else { s.cpsr() }
}

/// MRS (ARM manual, A4.1 "MRS"). Gives its cost in the processor's own clocks.
#[inline]
pub fn mrs(arch: Arch, s: &mut Registers, spsr: bool, rd: u8) -> u32
    requires { rd < 16 }
    ensures registers { s.new ≡ (mrs_meaning s.old spsr rd).after [] }
    ensures cost { result ≡ cost_of arch (mrs_meaning s.old spsr rd) }
{
    let value = status(s, spsr);
    s.go_on();
    s.set(rd, value);
    Class::Processing.cost(arch, rd == 15)
}
