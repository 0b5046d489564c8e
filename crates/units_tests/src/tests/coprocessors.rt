//! CP15's registers, and where ITCM and DTCM answer: rows worked from the ARM946E-S manual's tables.

use cp15_tcm::{Cp15, Mcr, Tcm};
use ds_base::{LeftKind, Stop};
use std::process::Abort;

/// How an address is reached.
#[derive(Clone, Copy)]
enum Access {
    Read,
    Write,
    Fetch,
}

use Access::{Fetch, Read, Write};

/// A line of a table. A register stands by its op1, CRn, CRm and op2.
#[derive(Clone, Copy)]
enum Line {
    /// CP15 as at boot.
    Boot,
    /// CP15 with these numbers written to its control, DTCM and ITCM registers.
    With(u32, u32, u32),
    /// A register reads this.
    Reads(u8, u8, u8, u8, u32),
    /// A write of a register is kept or ignored.
    Keeps(u8, u8, u8, u8, u32),
    /// A write of a register halts ARM9.
    Halts(u8, u8, u8, u8, u32),
    /// A write of a register would switch to big-endian mode.
    BigEndian(u8, u8, u8, u8, u32),
    /// The vectors' base.
    Vectors(u32),
    /// An access finds this byte of ITCM.
    Itcm(Access, u32, u32),
    /// An access finds this byte of DTCM.
    Dtcm(Access, u32, u32),
    /// An access goes past both.
    Past(Access, u32),
}

use Line::{BigEndian, Boot, Dtcm, Halts, Itcm, Keeps, Past, Reads, Vectors, With};

/// What a line shows: which answer, and a number.
type Seen = (u32, u32);

const KEPT: Seen = (1, 0);

const HALT: Seen = (2, 0);

const PAST: Seen = (0, 0);

/// CP15 with these numbers in its control, DTCM and ITCM registers.
fn with(control: u32, dtcm: u32, itcm: u32) -> Cp15 {
    let mut cp = Cp15::boot();
    let _ = cp.mcr(0, 9, 1, 0, dtcm);
    let _ = cp.mcr(0, 9, 1, 1, itcm);
    let _ = cp.mcr(0, 1, 0, 0, control);
    cp
}

/// What a write came to; of what is left out, the value.
fn answer(answer: Mcr) -> Seen {
    match answer {
        Mcr::Kept => KEPT,
        Mcr::Halt => HALT,
        Mcr::Left(
            Stop {
                kind: LeftKind::BigEndian,
                value,
            },
        ) => (3, value),
        Mcr::Left(_) => (4, 0),
    }
}

/// Which memory an access finds, 1 for ITCM and 2 for DTCM, and the byte's place in it.
fn found(cp: &Cp15, access: Access, at: u32) -> Seen {
    let (writing, fetching) = match access {
        Read => (false, false),
        Write => (true, false),
        Fetch => (false, true),
    };
    match cp.tcm_place(at, writing, fetching) {
        Tcm::Itcm(place) => (1, place),
        Tcm::Dtcm(place) => (2, place),
        Tcm::Past => PAST,
    }
}

/// Does what a line says: what was seen, and what is wanted.
fn seen(cp: &mut Cp15, line: Line) -> (Seen, Seen) {
    match line {
        Boot => {
            *cp = Cp15::boot();
            (KEPT, KEPT)
        }
        With(control, dtcm, itcm) => {
            *cp = with(control, dtcm, itcm);
            (KEPT, KEPT)
        }
        Reads(op1, crn, crm, op2, value) => ((0, cp.mrc(op1, crn, crm, op2)), (0, value)),
        Keeps(op1, crn, crm, op2, value) => (answer(cp.mcr(op1, crn, crm, op2, value)), KEPT),
        Halts(op1, crn, crm, op2, value) => (answer(cp.mcr(op1, crn, crm, op2, value)), HALT),
        BigEndian(op1, crn, crm, op2, value) => (
            answer(cp.mcr(op1, crn, crm, op2, value)),
            (3, value),
        ),
        Vectors(base) => ((0, cp.vectors()), (0, base)),
        Itcm(access, at, place) => (found(cp, access, at), (1, place)),
        Dtcm(access, at, place) => (found(cp, access, at), (2, place)),
        Past(access, at) => (found(cp, access, at), PAST),
    }
}

/// CP15 from boot on, line by line.
fn try_lines(rt: &impl Abort, lines: &[Line]) {
    let mut cp = Cp15::boot();
    for (number, line) in lines.iter().enumerate() {
        let (got, wanted) = seen(&mut cp, *line);
        let (which, value) = got;
        assert!(rt; got == wanted, "line {number}: {which}, {value:x}");
    }
}

#[test]
fn registers_read_what_they_keep(rt: HostRuntime) {
    try_lines(
        &rt,
        &[
            Reads(0, 0, 0, 0, 0x4105_9461),
            Reads(0, 0, 0, 1, 0x0F0D_2112),
            Reads(0, 0, 0, 2, 0x0014_0180),
            Reads(0, 0, 0, 3, 0),
            Reads(0, 1, 0, 0, 0x0005_2078),
            Reads(0, 9, 1, 0, 0x0300_000A),
            Reads(0, 9, 1, 1, 0x0000_0020),
            Reads(0, 7, 0, 4, 0),
            Reads(0, 2, 0, 0, 0),
            Reads(1, 1, 0, 0, 0),
            Reads(0, 1, 1, 0, 0),
            Vectors(0xFFFF_0000),
            // all bits but the one of big-endian mode
            With(0xFFFF_FF7F, 0xFFFF_FFFF, 0xFFFF_FFFF),
            Reads(0, 0, 0, 0, 0x4105_9461),
            Reads(0, 0, 0, 1, 0x0F0D_2112),
            Reads(0, 0, 0, 2, 0x0014_0180),
            Reads(0, 0, 0, 3, 0),
            Reads(0, 1, 0, 0, 0x000F_707D),
            Reads(0, 9, 1, 0, 0xFFFF_F03E),
            Reads(0, 9, 1, 1, 0x0000_003E),
            Reads(0, 7, 0, 4, 0),
            Reads(0, 2, 0, 0, 0),
            Reads(1, 1, 0, 0, 0),
            Reads(0, 1, 1, 0, 0),
            With(0, 0, 0),
            Reads(0, 1, 0, 0, 0x0000_0078),
            Vectors(0),
        ],
    );
}

#[test]
fn writes_are_kept_or_halt_or_are_left_out(rt: HostRuntime) {
    try_lines(
        &rt,
        &[
            BigEndian(0, 1, 0, 0, 0x0005_20F8),
            Reads(0, 1, 0, 0, 0x0005_2078),
            Keeps(0, 1, 0, 0, 0x0005_2078),
            Reads(0, 1, 0, 0, 0x0005_2078),
            Halts(0, 7, 0, 4, 0),
            Reads(0, 1, 0, 0, 0x0005_2078),
            Halts(0, 7, 0, 4, 0x80),
            Reads(0, 1, 0, 0, 0x0005_2078),
            Keeps(1, 7, 0, 4, 0),
            Reads(0, 1, 0, 0, 0x0005_2078),
            Keeps(0, 7, 5, 0, 0x80),
            Reads(0, 1, 0, 0, 0x0005_2078),
            Keeps(0, 9, 1, 0, 0x80),
            Reads(0, 1, 0, 0, 0x0005_2078),
            Keeps(0, 2, 0, 0, 0xFF),
            Reads(0, 1, 0, 0, 0x0005_2078),
        ],
    );
}

#[test]
fn addresses_go_to_the_memory_that_answers_there(rt: HostRuntime) {
    try_lines(
        &rt,
        &[
            // as at boot: ITCM's 32 MiB from 0, DTCM's 16 KiB at 3000000h
            Boot,
            Dtcm(Read, 0x0300_0010, 0x10),
            Past(Fetch, 0x0300_0010),
            Dtcm(Write, 0x0300_3FFF, 0x3FFF),
            Past(Write, 0x0300_4000),
            Past(Read, 0x02FF_FFFF),
            Itcm(Write, 0x0000_8004, 4),
            Itcm(Fetch, 0x0000_8004, 4),
            Itcm(Read, 0x01FF_FFFF, 0x7FFF),
            Past(Read, 0x0200_0000),
            // the same, written
            With(0x5_2078, 0x0300_000A, 0x20),
            Dtcm(Read, 0x0300_0010, 0x10),
            Past(Fetch, 0x0300_0010),
            Dtcm(Write, 0x0300_3FFF, 0x3FFF),
            Past(Write, 0x0300_4000),
            Past(Read, 0x02FF_FFFF),
            Itcm(Write, 0x0000_8004, 4),
            Itcm(Fetch, 0x0000_8004, 4),
            Itcm(Read, 0x01FF_FFFF, 0x7FFF),
            Past(Read, 0x0200_0000),
            // load modes take writes alone: ITCM's, DTCM's
            With(0xD_2078, 0x0300_000A, 0x20),
            Past(Read, 0x0000_8004),
            Past(Fetch, 0x0000_8004),
            Itcm(Write, 0x0000_8004, 4),
            With(0x7_2078, 0x0300_000A, 0x20),
            Past(Read, 0x0300_0010),
            Dtcm(Write, 0x0300_0010, 0x10),
            // DTCM below ITCM, and seen where ITCM only loads
            With(0x5_2078, 0x0000_400A, 0x20),
            Itcm(Read, 0x0000_4010, 0x4010),
            With(0xD_2078, 0x0000_400A, 0x20),
            Dtcm(Read, 0x0000_4010, 0x10),
            Past(Fetch, 0x0000_4010),
            Itcm(Write, 0x0000_4010, 0x4010),
            // DTCM at the last addresses doesn't wrap
            With(0x1_2078, 0xFFFF_F00A, 0x20),
            Dtcm(Read, 0xFFFF_F010, 0x10),
            Dtcm(Read, 0xFFFF_FFFF, 0xFFF),
            Past(Read, 0x0000_0000),
            // other sizes: what is covered is shorter or longer than the memory
            With(0x1_2078, 0x0300_0006, 0x20),
            Dtcm(Read, 0x0300_0FFF, 0xFFF),
            Past(Read, 0x0300_1000),
            With(0x1_2078, 0x0300_000C, 0x20),
            Dtcm(Read, 0x0300_4010, 0x10),
            With(0x4_2078, 0x0300_000A, 0x00),
            Itcm(Read, 0x0000_01FF, 0x1FF),
            Past(Read, 0x0000_0200),
            With(0x4_2078, 0x0300_000A, 0x3E),
            Itcm(Read, 0xFFFF_FFFF, 0x7FFF),
            // switched off
            With(0x0_2078, 0x0300_000A, 0x20),
            Past(Write, 0x0300_0010),
            Past(Write, 0x0000_8004),
        ],
    );
}
