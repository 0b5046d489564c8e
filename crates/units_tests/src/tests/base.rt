//! That calls which take memory succeed, that a script tells its lines back, and the tables of numbers, from GBATEK.

use Memory::{Dtcm, Itcm, Main, Oam, Own7, Palette, Shared, Vram};
use Space::{ABg, ABgPalette, AObj, AObjPalette, Arm7, BBg, BBgPalette, BObj, BObjPalette, Lcdc};
use ds_base::{Interrupt, KeyLine, Keys, Memory, Space, Tick, hex_digits};
use std::alloc::AllocError;

#[test]
fn a_script_tells_the_lines_that_it_took(rt: HostRuntime) -> Result<(), AllocError> {
    let first = KeyLine {
        tick: Tick(100),
        pressed: 0b101,
    };
    let second = KeyLine {
        tick: Tick(101),
        pressed: 0,
    };
    let mut keys = Keys::new(rt.alloc());
    assert!(rt; keys.len() == 0);
    keys.push(first)?;
    keys.push(second)?;
    assert!(rt; keys.len() == 2);
    assert!(rt; keys.line(0) == first && keys.line(1) == second);
    Ok(())
}

/// Each interrupt, and its bit of IE and IF (GBATEK, "DS Interrupts").
const INTERRUPTS: [(Interrupt, u32); 17] = [
    (Interrupt::VBlank, 0x0000_0001),
    (Interrupt::HBlank, 0x0000_0002),
    (Interrupt::VCount, 0x0000_0004),
    (Interrupt::Timer0, 0x0000_0008),
    (Interrupt::Timer1, 0x0000_0010),
    (Interrupt::Timer2, 0x0000_0020),
    (Interrupt::Timer3, 0x0000_0040),
    (Interrupt::Dma0, 0x0000_0100),
    (Interrupt::Dma1, 0x0000_0200),
    (Interrupt::Dma2, 0x0000_0400),
    (Interrupt::Dma3, 0x0000_0800),
    (Interrupt::Keys, 0x0000_1000),
    (Interrupt::IpcSync, 0x0001_0000),
    (Interrupt::SendFifoEmpty, 0x0002_0000),
    (Interrupt::ReceiveFifoNotEmpty, 0x0004_0000),
    (Interrupt::CardTransfer, 0x0008_0000),
    (Interrupt::GeometryFifo, 0x0020_0000),
];

#[test]
fn interrupts_stand_at_their_bits_of_if(rt: HostRuntime) {
    for (interrupt, bits) in INTERRUPTS {
        assert!(rt; interrupt.bit() == bits, "{bits:x}");
    }
}

/// Each memory, and its bytes (GBATEK, "DS Memory Map").
const MEMORIES: [(Memory, usize); 8] = [
    (Main, 4_194_304),
    (Shared, 32_768),
    (Own7, 65_536),
    (Itcm, 32_768),
    (Dtcm, 16_384),
    (Palette, 2_048),
    (Vram, 671_744),
    (Oam, 2_048),
];

/// Each space of video memory, and its bytes (GBATEK, "DS Memory Control - VRAM").
const SPACES: [(Space, u32); 10] = [
    (ABg, 524_288),
    (BBg, 131_072),
    (AObj, 262_144),
    (BObj, 131_072),
    (Lcdc, 1_048_576),
    (Arm7, 262_144),
    (ABgPalette, 32_768),
    (BBgPalette, 32_768),
    (AObjPalette, 8_192),
    (BObjPalette, 8_192),
];

#[test]
fn memories_and_spaces_have_the_sizes_of_the_hardware(rt: HostRuntime) {
    for (memory, bytes) in MEMORIES {
        assert!(rt; memory.size() == bytes, "{bytes}");
    }
    for (space, bytes) in SPACES {
        assert!(rt; space.size() == bytes, "{bytes}");
    }
}

#[test]
fn words_are_written_in_lower_case_digits(rt: HostRuntime) {
    assert!(rt; hex_digits(0x0123_4567) == *b"01234567");
    assert!(rt; hex_digits(0x89AB_CDEF) == *b"89abcdef");
}
