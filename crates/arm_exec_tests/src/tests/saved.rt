//! Cores in bytes: which bytes are read, that those of what is read are the same again, and where those that aren't read fail.

use Arch::{V4, V5};
use Comes::{Differs, Fails, Full, Takes};
use arm_core::Core;
use ds_base::{Arch, Tick};
use ds_state::{Packer, Unpacked, Unpacker};
use std::alloc::{AllocError, Global};
use std::process::Abort;

/// What comes of bytes.
#[derive(Clone, Copy, PartialEq, Eq)]
enum Comes {
    /// They are a core, which puts the same.
    Takes,
    /// A field begins there that isn't whole or breaks its rule.
    Fails(u32),
    /// The core puts others.
    Differs,
    /// There is no memory for it.
    Full,
}

/// A line of a table: the architecture, which byte of the core's is changed to what, how many there are, and what comes.
type Line = (Arch, usize, u8, usize, Comes);

/// How many bytes a core has.
const ALL: usize = 148;

/// The status registers: CPSR of FIQ mode, and SPSR of FIQ, Supervisor, Abort, IRQ, Undefined.
const STATUSES: [u8; 24] = [
    0xD1, 0, 0, 0x60, 0x1F, 0, 0, 0, 0x10, 0, 0, 0x80, 0x3F, 0, 0, 0x20, 0xDF, 0, 0, 0x10, 0xFF, 0,
    0, 0xF0,
];

/// A core's bytes: those of r0 to r15 count from 0, so that r1 is 07060504h.
fn core_bytes(alloc: Global) -> Result<Vec<u8>, AllocError> {
    let mut bytes = Vec::new(alloc);
    for i in 0..124_u8 {
        bytes.push(i)?;
    }
    bytes.extend_from_slice(&STATUSES)?;
    Ok(bytes)
}

/// Takes a core, and puts it again.
fn put_again(from: &mut Unpacker, into: &mut Packer, arch: Arch) -> Result<(), Unpacked> {
    Core::unpack(from, Tick(0), arch)?.pack(into)?;
    Ok(())
}

/// What comes of bytes.
fn came(alloc: Global, arch: Arch, bytes: &[u8]) -> Comes {
    let (some, _) = bytes.split_at(bytes.len().min(ALL));
    let mut from = Unpacker::new(some);
    let mut into = Packer::new(alloc);
    match put_again(&mut from, &mut into, arch) {
        Ok(()) if into.finish().as_slice() == some => Takes,
        Ok(()) => Differs,
        Err(Unpacked::Bad { offset }) => Fails(offset),
        Err(Unpacked::NoMemory) => Full,
    }
}

#[rattlefmt::skip]
const LINES: [Line; 34] = [
    // general registers and r15 may be any words
    (V4, 0, 0, ALL, Takes), (V5, 119, 0xFF, ALL, Takes), (V4, 120, 3, ALL, Takes), (V5, 123, 0xFF, ALL, Takes),
    // CPSR has N, Z, C, V, on ARMv5 Q, and its lowest byte; a mode may be none
    (V4, 127, 0xF0, ALL, Takes), (V4, 127, 0x68, ALL, Fails(124)), (V5, 127, 0x68, ALL, Takes), (V5, 127, 0x64, ALL, Fails(124)),
    (V4, 124, 0xFF, ALL, Takes), (V5, 124, 0, ALL, Takes), (V4, 125, 1, ALL, Fails(124)), (V5, 126, 0x80, ALL, Fails(124)),
    // and so has each SPSR
    (V4, 131, 8, ALL, Fails(128)), (V5, 131, 8, ALL, Takes), (V4, 129, 1, ALL, Fails(128)),
    (V4, 135, 0x88, ALL, Fails(132)), (V5, 134, 1, ALL, Fails(132)),
    (V4, 139, 0x28, ALL, Fails(136)), (V5, 137, 0x80, ALL, Fails(136)),
    (V4, 143, 0x18, ALL, Fails(140)), (V5, 142, 1, ALL, Fails(140)),
    (V4, 147, 0xF8, ALL, Fails(144)), (V5, 147, 0xF8, ALL, Takes), (V5, 147, 0xF4, ALL, Fails(144)),
    // bytes that end within a field
    (V4, 0, 0, 0, Fails(0)), (V4, 0, 0, 3, Fails(0)), (V4, 0, 0, 4, Fails(4)), (V4, 0, 0, 119, Fails(116)), (V4, 0, 0, 120, Fails(120)),
    (V4, 0, 0, 124, Fails(124)), (V4, 0, 0, 127, Fails(124)), (V4, 0, 0, 128, Fails(128)), (V4, 0, 0, 144, Fails(144)), (V4, 0, 0, 147, Fails(144)),
];

/// Whether each line comes so.
fn try_lines(rt: &impl Abort, alloc: Global) -> Result<(), AllocError> {
    for (number, (arch, at, byte, count, wanted)) in LINES.iter().enumerate() {
        let mut bytes = core_bytes(alloc)?;
        if *at < bytes.len() {
            bytes[*at] = *byte;
        }
        let (front, _) = bytes.split_at(bytes.len().min(*count));
        assert!(rt; came(alloc, *arch, front) == *wanted, "line {number}");
    }
    Ok(())
}

#[test]
fn cores_are_taken_and_put_by_their_rules(rt: HostRuntime) -> Result<(), AllocError> {
    try_lines(&rt, rt.alloc())
}

#[test]
fn a_core_that_is_taken_shows_the_registers_of_its_mode(rt: HostRuntime) -> Result<(), AllocError> {
    let bytes = core_bytes(rt.alloc())?;
    let (some, _) = bytes.split_at(bytes.len().min(ALL));
    let Ok(mut core) = Core::unpack(&mut Unpacker::new(some), Tick(7), V5) else {
        panic!(&rt; "no core");
    };
    let fiq = [
        core.registers.get(7),
        core.registers.get(8),
        core.registers.get(14),
        core.registers.pc(),
    ];
    core.registers.set_cpsr(0x1F);
    let system = [
        core.registers.get(7),
        core.registers.get(8),
        core.registers.get(14),
        core.registers.cpsr(),
    ];
    assert!(&rt;
        fiq == [0x1F1E_1D1C, 0x3736_3534, 0x5756_5554, 0x7B7A_7978],
        "FIQ"
    );
    assert!(&rt;
        system == [0x1F1E_1D1C, 0x2322_2120, 0x4F4E_4D4C, 0x1F],
        "System"
    );
    Ok(())
}

#[test]
fn a_core_stands_in_bytes_as_it_is(rt: HostRuntime) -> Result<(), AllocError> {
    let mut packer = Packer::new(rt.alloc());
    let mut core = Core::boot(V4, 0x0380_0000, [0x0380_FD80, 0x0380_FF80, 0x0380_FFC0]);
    core.registers.set_cpsr(0xD1);
    core.registers.set(8, 0x1234_5678);
    core.registers.set_cpsr(0x13);
    core.registers.set(0, 1);
    core.pack(&mut packer)?;
    let bytes = packer.finish();
    let words: [u32; 37] = [
        1,
        0,
        0,
        0,
        0,
        0,
        0,
        0,
        0,
        0,
        0,
        0,
        0x0380_0000,
        0x1234_5678,
        0,
        0,
        0,
        0,
        0x0380_FD80,
        0x0380_0000,
        0,
        0,
        0x0380_FFC0,
        0,
        0,
        0,
        0x0380_FF80,
        0,
        0,
        0,
        0x0380_0000,
        0x13,
        0,
        0,
        0,
        0,
        0,
    ];
    let mut wanted = Vec::new(rt.alloc());
    for word in words {
        wanted.extend_from_slice(&word.to_le_bytes())?;
    }
    assert!(&rt;
        bytes.as_slice() == wanted.as_slice(),
        "{} bytes",
        bytes.len()
    );
    Ok(())
}
