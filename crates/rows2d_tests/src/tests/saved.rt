//! Video memory in bytes: 671,744 bytes of banks, and nine controls.

use ds_base::{Space, Tick, Width};
use ds_state::{Packer, Unpacked, Unpacker};
use std::alloc::{AllocError, Global};
use vram_banks::Vram;

/// How many bytes were taken, or 1,000,000 and where a field fails.
fn taken(alloc: Global, bytes: &[u8]) -> u32 {
    let (some, _) = bytes.split_at(bytes.len().min(0x10_0000));
    let mut from = Unpacker::new(some);
    match Vram::unpack(alloc, &mut from, Tick(0)) {
        Ok(vram) => {
            let there = vram.read(Space::Lcdc, 0x1_FFFF, Width::Byte);
            if there == 5 && vram.allotted7() == 1 {
                from.place()
            } else {
                98
            }
        }
        Err(Unpacked::Bad { offset }) => offset.saturating_add(1_000_000),
        Err(Unpacked::NoMemory) => 97,
    }
}

/// A byte that is changed to another, how many bytes there are, and what comes. Bank A is seen by ARM9, C by ARM7.
const ROWS: [(usize, u8, usize, u32); 14] = [
    (0, 1, 671_754, 671_753),
    (0, 1, 671_753, 671_753),
    (0, 1, 671_752, 1_671_752),
    (0, 1, 671_744, 1_671_744),
    (0, 1, 671_743, 1_000_000),
    (0, 1, 0, 1_000_000),
    (671_744, 0x84, 671_753, 1_671_744),
    (671_744, 0xA0, 671_753, 1_671_744),
    (671_745, 0x9B, 671_753, 671_753),
    (671_746, 0xC2, 671_753, 1_671_746),
    (671_748, 0x9F, 671_753, 671_753),
    (671_751, 0x9F, 671_753, 1_671_751),
    (671_752, 0x9B, 671_753, 671_753),
    (671_752, 0x20, 671_753, 1_671_752),
];

#[test]
fn video_memory_is_taken_back_from_its_bytes(rt: HostRuntime) -> Result<(), AllocError> {
    let mut vram = Vram::new(rt.alloc())?;
    vram.set_control(0, 0x80);
    vram.set_control(2, 0x82);
    vram.write(Space::Lcdc, 0x1_FFFF, Width::Byte, 5);
    let mut packer = Packer::new(rt.alloc());
    vram.pack(&mut packer)?;
    packer.put_u8(0xFF)?;
    let mut bytes = packer.finish();
    for (number, (at, byte, count, wanted)) in ROWS.iter().enumerate() {
        let mut kept = 0;
        if *at < bytes.len() {
            kept = bytes[*at];
            bytes[*at] = *byte;
        }
        let (front, _) = bytes.split_at(bytes.len().min(*count));
        let got = taken(rt.alloc(), front);
        if *at < bytes.len() {
            bytes[*at] = kept;
        }
        assert!(rt;
            bytes.len() == 671_754 && got == *wanted,
            "row {number}: {got}"
        );
    }
    Ok(())
}
