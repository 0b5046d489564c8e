//! SWP and SWPB.

ghost use Rattle.std.specs.Prelude.{◌≡◌, ◌<◌, true, false};
ghost use Rattle.arm_core.specs.Effects.{carried_out};
ghost use Rattle.arm_core.specs.Swaps.{swap_meaning};

use arm_core::{Bus, Class, Registers, Stepped};
use ds_base::{Arch, Width};

/// SWP (ARM manual, A4.1).
#[inline(always)]
fn swap_word<B: Bus>(arch: Arch, s: &mut Registers, bus: &mut B, rd: u8, rm: u8, rn: u8) -> Stepped
    requires rd { rd < 16 }
    requires rm { rm < 16 }
    requires rn { rn < 16 }
    ensures registers { s.new ≡ (carried_out B.memory arch s.old (B.state bus.old) (swap_meaning s.old false rd rm rn)).registers }
    ensures state { B.state bus.new ≡ (carried_out B.memory arch s.old (B.state bus.old) (swap_meaning s.old false rd rm rn)).state }
    ensures stepped { result ≡ (carried_out B.memory arch s.old (B.state bus.old) (swap_meaning s.old false rd rm rn)).stepped }
    ensures same { B.identity bus.new ≡ B.identity bus.old }
{
    let address = s.get(rn);
    let stored = s.get_late(rm);
    let value = bus.read(address, Width::Word);
    match bus.write(address, Width::Word, stored) {
        Some(stop) => Stepped::Left(stop),
        None => {
            s.go_on();
            s.set(rd, value.rotate_right(8 * (address % 4)));
            Stepped::Cost(Class::Swap.cost(arch, rd == 15))
        }
    }
}

/// SWPB (ARM manual, A4.1).
#[inline(always)]
fn swap_byte<B: Bus>(arch: Arch, s: &mut Registers, bus: &mut B, rd: u8, rm: u8, rn: u8) -> Stepped
    requires rd { rd < 16 }
    requires rm { rm < 16 }
    requires rn { rn < 16 }
    ensures registers { s.new ≡ (carried_out B.memory arch s.old (B.state bus.old) (swap_meaning s.old true rd rm rn)).registers }
    ensures state { B.state bus.new ≡ (carried_out B.memory arch s.old (B.state bus.old) (swap_meaning s.old true rd rm rn)).state }
    ensures stepped { result ≡ (carried_out B.memory arch s.old (B.state bus.old) (swap_meaning s.old true rd rm rn)).stepped }
    ensures same { B.identity bus.new ≡ B.identity bus.old }
{
    let address = s.get(rn);
    let stored = s.get_late(rm);
    let value = bus.read(address, Width::Byte);
    match bus.write(address, Width::Byte, stored & 0xFF) {
        Some(stop) => Stepped::Left(stop),
        None => {
            s.go_on();
            s.set(rd, value & 0xFF);
            Stepped::Cost(Class::Swap.cost(arch, rd == 15))
        }
    }
}

/// SWP and SWPB (ARM manual, A4.1 "SWP", "SWPB").
pub fn swap<B: Bus>(
    arch: Arch,
    s: &mut Registers,
    bus: &mut B,
    byte: bool,
    rd: u8,
    rm: u8,
    rn: u8,
) -> Stepped
    requires rd { rd < 16 }
    requires rm { rm < 16 }
    requires rn { rn < 16 }
    ensures registers { s.new ≡ (carried_out B.memory arch s.old (B.state bus.old) (swap_meaning s.old byte rd rm rn)).registers }
    ensures state { B.state bus.new ≡ (carried_out B.memory arch s.old (B.state bus.old) (swap_meaning s.old byte rd rm rn)).state }
    ensures stepped { result ≡ (carried_out B.memory arch s.old (B.state bus.old) (swap_meaning s.old byte rd rm rn)).stepped }
    ensures same { B.identity bus.new ≡ B.identity bus.old }
{
    if byte {
        swap_byte(arch, s, bus, rd, rm, rn)
    } else {
        swap_word(arch, s, bus, rd, rm, rn)
    }
}
