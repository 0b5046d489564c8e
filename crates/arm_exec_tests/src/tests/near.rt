//! Loads past RAM that are near, by whoever runs operations.

use arm_core::{FlatBus, Registers};
use arm_ops::{Near, Runner, Singles, operation};
use arm_words::decode_arm;
use ds_base::{Arch, Width};
use std::alloc::AllocError;

/// Where loads are made: from 4000000h on.
enum FromPorts {}

impl Near<FlatBus> for FromPorts {
    ghost use Rattle.std.specs.Prelude.{nat_le};

    ghost near = { λ at. nat_le 0x04000000 at };

    fn is_near(at: u32) -> bool {
        at >= 0x0400_0000
    }

    fn read_near(_bus: &mut FlatBus, _at: u32, _width: Width) -> Option<u32> {
        None
    }

    fn write_near(_bus: &mut FlatBus, _at: u32, _width: Width, _value: u32) -> bool {
        false
    }
}

/// What a word of ARM9's code costs that reaches an address by r1; 0 where it isn't run.
fn cost(bus: &mut FlatBus, code: u32, at: u32) -> u32 {
    let mut s = Registers::boot(0x0200_0000, [0; 3]);
    s.set(1, at);
    let made = operation(decode_arm(Arch::V5, code));
    Singles::<0>::run::<FlatBus, FromPorts>(Arch::V5, &mut s, bus, &made)
}

#[test]
#[rattlefmt::skip]
fn loads_alone_are_near_past_ram(rt: HostRuntime) -> Result<(), AllocError> {
    let mut bus = FlatBus::new(vec![in rt.alloc(); 0; 0x200]?);
    let rows = [
        // the code, the address, and what it costs
        (0xE591_0000_u32, 0x0400_0040_u32, 2_u32), (0xE5D1_0000, 0x0400_0041, 2), (0xE1D1_00B0, 0x0400_0042, 2), // ldr, ldrb, ldrh r0, [r1]
        (0xE581_0000, 0x0400_0040, 0), (0xE5C1_0000, 0x0400_0041, 0), (0xE1C1_00B0, 0x0400_0042, 0), // str, strb, strh
        (0xE591_0000, 0x03FF_FFFC, 2), (0xE581_0000, 0x03FF_FFFC, 1), (0xE581_0000, 0x0200_0000, 1), // RAM is near
        (0xE591_0000, 0x01FF_FFFC, 0), (0xE581_0000, 0x01FF_FFFC, 0), // and before it nothing is
        (0x0591_0000, 0x0400_0040, 1), (0x0581_0000, 0x0400_0040, 1), // ldreq, streq, while Z is clear
    ];
    for (number, &(code, at, wanted)) in rows.iter().enumerate() {
        let found = cost(&mut bus, code, at);
        assert!(rt; found == wanted, "row {number}");
    }
    Ok(())
}
