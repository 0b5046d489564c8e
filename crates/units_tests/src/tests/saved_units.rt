//! Units in bytes: which bytes are read, that those of what is read are the same again, and where those that aren't read fail.

use Comes::{Differs, Fails, Full, Takes};
use Kind::{Channels, Cp, FourTimers, LateChannels, Port, Sides, SleepersWords, Words};
use Proc::{Nine, Seven};
use cp15_tcm::Cp15;
use ds_base::{Proc, Tick};
use ds_card::Card;
use ds_dma::Dma;
use ds_ipc::Ipc;
use ds_state::{Packer, Unpacked, Unpacker};
use ds_timers::{Irq, Timers};
use std::alloc::{AllocError, Global};
use std::process::Abort;

/// A unit.
#[derive(Clone, Copy)]
enum Kind {
    /// The interrupt words of a processor.
    Words(Proc),
    /// Those of one that sleeps.
    SleepersWords(Proc),
    /// The four timers of one.
    FourTimers,
    /// Both sides of the ways between the processors.
    Sides,
    /// CP15.
    Cp,
    /// The DMA channels of a processor.
    Channels(Proc),
    /// Those of one whose own step is late, so that a channel runs.
    LateChannels(Proc),
    /// The card's port, with a file of four bytes.
    Port,
}

/// What comes of bytes.
#[derive(Clone, Copy, PartialEq, Eq)]
enum Comes {
    /// The unit takes so many, and puts the same.
    Takes(u32),
    /// A field begins there that isn't whole or breaks its rule.
    Fails(u32),
    /// The unit puts others.
    Differs,
    /// There is no memory for it.
    Full,
}

/// A line of a table: which byte of the unit's is changed to what, how many there are, the tick, and what comes.
type Line = (usize, u8, usize, u32, Comes);

/// Takes a unit, and puts it again.
fn put_again(
    alloc: Global,
    kind: Kind,
    from: &mut Unpacker,
    into: &mut Packer,
    at: u32,
) -> Result<(), Unpacked> {
    let at = Tick(at.into());
    match kind {
        Words(proc) => Irq::unpack(from, at, proc)?.pack(into)?,
        SleepersWords(proc) => Irq::unpack_by(from, at, proc, true)?.pack(into)?,
        FourTimers => Timers::unpack(from, at)?.pack(into)?,
        Sides => Ipc::unpack(alloc, from, at)?.pack(into)?,
        Cp => Cp15::unpack(from, at)?.pack(into)?,
        Channels(proc) => Dma::unpack(from, at, proc)?.pack(into)?,
        LateChannels(proc) => Dma::unpack_by(from, at, proc, true)?.pack(into)?,
        Port => Card::unpack(from, at, &[1, 2, 3, 4])?.pack(into)?,
    }
    Ok(())
}

/// What comes of a unit's bytes at a tick.
fn came(alloc: Global, kind: Kind, bytes: &[u8], at: u32) -> Comes {
    let (some, _) = bytes.split_at(bytes.len().min(400));
    let mut from = Unpacker::new(some);
    let mut into = Packer::new(alloc);
    match put_again(alloc, kind, &mut from, &mut into, at) {
        Ok(()) => {
            let count = from.place();
            let (taken, _) = some.split_at(some.len().min(count as usize));
            if into.finish().as_slice() == taken {
                Takes(count)
            } else {
                Differs
            }
        }
        Err(Unpacked::Bad { offset }) => Fails(offset),
        Err(Unpacked::NoMemory) => Full,
    }
}

/// Whether each line comes so.
fn try_lines(
    rt: &impl Abort,
    alloc: Global,
    kind: Kind,
    unit: &[u8],
    lines: &[Line],
) -> Result<(), AllocError> {
    for (number, (at, byte, count, tick, wanted)) in lines.iter().enumerate() {
        let mut bytes = Vec::from_slice(alloc, unit)?;
        if *at < bytes.len() {
            bytes[*at] = *byte;
        }
        let (front, _) = bytes.split_at(bytes.len().min(*count));
        let comes = came(alloc, kind, front, *tick);
        assert!(rt; comes == *wanted, "line {number}");
    }
    Ok(())
}

/// IME is set; IE has bits 2 and 16, and IF has bit 0.
const IRQ_BYTES: [u8; 9] = [1, 4, 0, 1, 0, 1, 0, 0, 0];

/// Those of ARM9: IE has the interrupts that it has alone, and IF not that of the geometry FIFO, bit 21.
const IRQ_LINES_OF_NINE: [Line; 17] = [
    (0, 0, 9, 0, Takes(9)),
    (0, 2, 9, 0, Fails(0)),
    (3, 0x2F, 9, 0, Takes(9)),
    (3, 0x3F, 9, 0, Fails(1)),
    (1, 0x7F, 9, 0, Takes(9)),
    (1, 0x80, 9, 0, Fails(1)),
    (2, 0x1F, 9, 0, Takes(9)),
    (2, 0x20, 9, 0, Fails(1)),
    (4, 1, 9, 0, Fails(1)),
    (7, 0xDF, 9, 0, Takes(9)),
    (7, 0x20, 9, 0, Fails(5)),
    (8, 0xFF, 9, 0, Takes(9)),
    (5, 4, 9, 0, Takes(9)),
    (7, 1, 9, 0, Takes(9)),
    (0, 1, 0, 0, Fails(0)),
    (0, 1, 4, 0, Fails(1)),
    (0, 1, 8, 0, Fails(5)),
];

/// Those of ARM7, which has not the interrupt of the geometry FIFO either.
const IRQ_LINES_OF_SEVEN: [Line; 2] = [(3, 0xF, 9, 0, Takes(9)), (3, 0x2F, 9, 0, Fails(1))];

/// A processor that sleeps has no bit in both; this is told at IF, also where IF has a bit that it never has.
const IRQ_LINES_OF_SLEEPERS: [Line; 8] = [
    (0, 1, 9, 0, Takes(9)),
    (5, 0xFB, 9, 0, Takes(9)),
    (5, 4, 9, 0, Fails(5)),
    (7, 1, 9, 0, Fails(5)),
    (7, 0x20, 9, 0, Fails(5)),
    (1, 5, 9, 0, Fails(5)),
    (4, 1, 9, 0, Fails(1)),
    (5, 4, 8, 0, Fails(5)),
];

/// One that counts time from FF00h at tick 100, so that it is due at 612; one that counts up; one that is stopped; and one that is due at 628.
const TIMER_BYTES: [u8; 52] = [
    0x34, 0x12, 0x80, 0, 0xFF, 0x64, 0, 0, 0, 0, 0, 0, 0, 1, 0, 0x84, 5, 0, 0, 0, 0, 0, 0, 0, 0, 0,
    0, 0, 3, 7, 0, 0, 0, 0, 0, 0, 0, 0, 0, 0xFF, 0xFF, 0xC1, 0xFF, 0xFF, 0xF4, 1, 0, 0, 0, 0, 0, 0,
];

/// Which bits a control keeps, and when a timer may have been anchored.
const TIMER_LINES: [Line; 18] = [
    (0, 0x34, 52, 600, Takes(52)),
    (0, 0x34, 52, 612, Takes(52)),
    (0, 0x34, 52, 613, Fails(5)),
    (0, 0x34, 52, 500, Takes(52)),
    (0, 0x34, 52, 499, Fails(44)),
    (2, 0x88, 52, 600, Fails(2)),
    (2, 0x84, 52, 600, Takes(52)),
    (2, 0xC0, 52, 600, Takes(52)),
    (18, 1, 52, 600, Fails(18)),
    (15, 0x80, 52, 600, Takes(52)),
    (31, 1, 52, 600, Fails(31)),
    (38, 1, 52, 600, Fails(31)),
    (4, 0xFE, 52, 613, Takes(52)),
    (0, 0x34, 51, 600, Fails(44)),
    (0, 0x34, 12, 600, Fails(5)),
    (0, 0x34, 4, 600, Fails(3)),
    (0, 0x34, 2, 600, Fails(2)),
    (0, 0x34, 1, 600, Fails(0)),
];

/// ARM9 passes 5 and may be told, and one word waits for it; ARM7 passes 15 and has an error.
const IPC_BYTES: [u8; 22] = [
    5, 1, 0, 0x84, 0x44, 0x33, 0x22, 0x11, 1, 0xDD, 0xCC, 0xBB, 0xAA, 0xF, 0, 4, 0x40, 0, 0, 0, 0,
    0,
];

/// The greatest of each number and one more, and bits that a control doesn't keep.
const IPC_LINES: [Line; 17] = [
    (0, 5, 22, 0, Takes(22)),
    (0, 0xF, 22, 0, Takes(22)),
    (0, 0x10, 22, 0, Fails(0)),
    (1, 2, 22, 0, Fails(1)),
    (2, 1, 22, 0, Fails(2)),
    (3, 0xC4, 22, 0, Takes(22)),
    (3, 0x88, 22, 0, Fails(2)),
    (8, 0x11, 22, 0, Fails(8)),
    (8, 0x10, 22, 0, Fails(21)),
    (13, 0x10, 22, 0, Fails(13)),
    (14, 2, 22, 0, Fails(14)),
    (15, 8, 22, 0, Fails(15)),
    (21, 1, 22, 0, Fails(22)),
    (0, 5, 21, 0, Fails(21)),
    (0, 5, 12, 0, Fails(9)),
    (0, 5, 7, 0, Fails(4)),
    (0, 5, 8, 0, Fails(8)),
];

/// CP15 as at boot: the bits that it keeps of 00052078h, 0300000Ah and 00000020h.
const CP15_BYTES: [u8; 12] = [0, 0x20, 5, 0, 0xA, 0, 0, 3, 0x20, 0, 0, 0];

/// The bits that each register keeps, and others; those that always read as 1 are none of them.
const CP15_LINES: [Line; 18] = [
    (0, 5, 12, 0, Takes(12)),
    (0, 0x78, 12, 0, Fails(0)),
    (1, 0x70, 12, 0, Takes(12)),
    (1, 0x80, 12, 0, Fails(0)),
    (2, 0xF, 12, 0, Takes(12)),
    (2, 0x10, 12, 0, Fails(0)),
    (3, 1, 12, 0, Fails(0)),
    (4, 0x3E, 12, 0, Takes(12)),
    (4, 1, 12, 0, Fails(4)),
    (5, 0xF0, 12, 0, Takes(12)),
    (5, 8, 12, 0, Fails(4)),
    (7, 0xFF, 12, 0, Takes(12)),
    (8, 0x3E, 12, 0, Takes(12)),
    (8, 0x40, 12, 0, Fails(8)),
    (9, 1, 12, 0, Fails(8)),
    (0, 0, 11, 0, Fails(8)),
    (0, 0, 7, 0, Fails(4)),
    (0, 0, 3, 0, Fails(0)),
];

/// A channel that runs a burst by the geometry FIFO, one that waits for V-blank with its greatest count, one that isn't enabled, and one as at
/// boot; the last unit was at tick 60, and its accesses waited 8 ticks.
const DMA_BYTES: [u8; 160] = [
    0, 0, 0, 2, 0, 0, 0, 3, 0xC9, 0, 0, 0xBC, 4, 0, 0, 2, 4, 0, 0, 3, 0xC8, 0, 0, 0, 3, 0, 0, 0, 1,
    0x32, 0, 0, 0, 0, 0, 0, 0, 1, 0, 0, 0, 2, 0, 0, 0, 2, 0, 0, 0x88, 0x10, 0, 0, 0, 0x20, 0, 0, 0,
    0, 0, 0x20, 0, 0, 0, 0, 0, 0, 0, 0, 0, 0, 0, 0, 0, 0, 0xFF, 0xFF, 0xFF, 0xF, 1, 0, 0, 0, 7, 0,
    0, 0, 0, 0, 0, 0, 0, 0, 0, 0, 0, 0, 0, 0, 0, 0, 0, 0, 0, 0, 0, 0, 0, 0, 0, 0, 0, 0, 0, 0, 0, 0,
    0, 0, 0, 0, 0, 0, 0, 0, 0, 0, 0, 0, 0, 0, 0, 0, 0, 0, 0, 0, 0, 0, 0, 0, 0, 0, 0, 0, 0, 0, 0, 0,
    0x3C, 0, 0, 0, 0, 0, 0, 0, 8, 0, 0, 0,
];

/// Each rule, on both sides.
const DMA_LINES: [Line; 38] = [
    (0, 0, 160, 100, Takes(160)),
    (3, 0xF, 160, 100, Takes(160)),
    (3, 0x10, 160, 100, Fails(0)),
    (7, 0x10, 160, 100, Fails(4)),
    (86, 1, 160, 100, Fails(86)),
    (90, 1, 160, 100, Fails(90)),
    (94, 1, 160, 100, Fails(94)),
    (98, 1, 160, 100, Fails(102)),
    (102, 1, 160, 100, Fails(102)),
    (103, 1, 160, 100, Fails(103)),
    (59, 0, 160, 100, Fails(57)),
    (57, 1, 160, 100, Fails(57)),
    (59, 0x1F, 160, 100, Takes(160)),
    (24, 0x70, 160, 100, Takes(160)),
    (24, 0x71, 160, 100, Fails(24)),
    (20, 3, 160, 100, Takes(160)),
    (20, 2, 160, 100, Fails(24)),
    (65, 1, 160, 100, Takes(160)),
    (65, 2, 160, 100, Fails(65)),
    (28, 0, 160, 100, Fails(28)),
    (29, 0x64, 160, 100, Takes(160)),
    (29, 0x65, 160, 100, Fails(29)),
    (66, 1, 160, 100, Fails(66)),
    (148, 0x64, 160, 100, Takes(160)),
    (148, 0x65, 160, 100, Fails(148)),
    (148, 0, 160, 100, Fails(156)),
    (156, 0x10, 160, 100, Takes(160)),
    (156, 0x11, 160, 100, Fails(156)),
    (157, 1, 160, 100, Fails(156)),
    (0, 0, 160, 60, Takes(160)),
    (0, 0, 160, 59, Fails(148)),
    (0, 0, 160, 49, Fails(29)),
    (0, 0, 159, 100, Fails(156)),
    (0, 0, 155, 100, Fails(148)),
    (0, 0, 36, 100, Fails(29)),
    (0, 0, 28, 100, Fails(28)),
    (0, 0, 27, 100, Fails(24)),
    (0, 0, 11, 100, Fails(8)),
];

/// ARM7's controls don't keep bit 27.
const DMA_LINES_OF_SEVEN: [Line; 2] = [
    (11, 0xBC, 160, 100, Fails(8)),
    (11, 0xB4, 160, 100, Fails(45)),
];

/// Its channel 3 is enabled for one unit, and doesn't run, nor does another; the last unit was at tick 60, and its accesses waited 8 ticks.
const DMA_BYTES_ARMED: [u8; 160] = [
    0, 0, 0, 0, 0, 0, 0, 0, 0, 0, 0, 0, 0, 0, 0, 0, 0, 0, 0, 0, 0, 0, 0, 0, 0, 0, 0, 0, 0, 0, 0, 0,
    0, 0, 0, 0, 0, 0, 0, 0, 0, 0, 0, 0, 0, 0, 0, 0, 0, 0, 0, 0, 0, 0, 0, 0, 0, 0, 0, 0, 0, 0, 0, 0,
    0, 0, 0, 0, 0, 0, 0, 0, 0, 0, 0, 0, 0, 0, 0, 0, 0, 0, 0, 0, 0, 0, 0, 0, 0, 0, 0, 0, 0, 0, 0, 0,
    0, 0, 0, 0, 0, 0, 0, 0, 0, 0, 0, 0, 0, 0, 0, 0, 0, 0, 0, 0, 0, 0, 0, 1, 0, 0, 0x80, 0, 0, 0, 0,
    0, 0, 0, 0, 1, 0, 0, 0, 0, 0, 0, 0, 0, 0, 0, 0, 0, 0, 0, 0, 0, 0x3C, 0, 0, 0, 0, 0, 0, 0, 8, 0,
    0, 0,
];

/// Of a processor that isn't late none need run; where channel 3 does it is due at 72, and one of ARM7's can't be due earlier.
const DMA_LINES_ARMED: [Line; 3] = [
    (139, 0, 160, 73, Takes(160)),
    (139, 1, 160, 72, Takes(160)),
    (157, 1, 160, 72, Fails(156)),
];

/// What comes of ARM9's that was due at 72, and of ARM7's.
const DMA_LINES_HELD: [Line; 1] = [(139, 1, 160, 73, Takes(160))];

const DMA_LINES_OVER: [Line; 2] = [(139, 1, 160, 73, Fails(156)), (139, 1, 159, 73, Fails(156))];

/// Of one that is late one runs. This is told where channel 3 says so, whatever else breaks behind it.
const DMA_LINES_LATE: [Line; 6] = [
    (139, 1, 160, 72, Takes(160)),
    (139, 0, 160, 72, Fails(139)),
    (157, 1, 160, 72, Fails(139)),
    (148, 0x49, 160, 72, Fails(139)),
    (0, 0, 139, 72, Fails(139)),
    (114, 0x10, 160, 72, Fails(111)),
];

/// A transfer of ARM9's of 128 words, of which 127 were taken; the last one is due at tick 140.
const CARD_BYTES: [u8; 29] = [
    0, 0xC0, 0, 0x60, 0x34, 0x12, 5, 1, 0xB7, 0, 0, 0x80, 0x10, 0, 0, 0, 1, 0x7F, 0, 0, 0, 0x8C, 0,
    0, 0, 0, 0, 0, 0,
];

/// Which bits stay; which starters, commands, words and due ticks there are.
const CARD_LINES: [Line; 39] = [
    (0, 0, 29, 100, Takes(29)),
    (0, 1, 29, 100, Fails(0)),
    (1, 0xE0, 29, 100, Takes(29)),
    (1, 0xD0, 29, 100, Fails(0)),
    (2, 0x80, 29, 100, Fails(2)),
    (3, 0x20, 29, 100, Takes(29)),
    (3, 0x61, 29, 100, Fails(2)),
    (6, 0x7F, 29, 100, Takes(29)),
    (6, 0x80, 29, 100, Fails(4)),
    (7, 0x79, 29, 100, Takes(29)),
    (7, 0x81, 29, 100, Fails(4)),
    (8, 0xB8, 29, 100, Takes(29)),
    (8, 0xB6, 29, 100, Fails(16)),
    (8, 0xB9, 29, 100, Fails(16)),
    (15, 0xFF, 29, 100, Takes(29)),
    (16, 2, 29, 100, Takes(29)),
    (16, 3, 29, 100, Fails(16)),
    (16, 0, 29, 100, Fails(17)),
    (17, 0, 29, 100, Takes(29)),
    (17, 0x80, 29, 100, Fails(17)),
    (18, 1, 29, 100, Fails(17)),
    (20, 1, 29, 100, Fails(17)),
    (7, 2, 29, 100, Takes(29)),
    (7, 7, 29, 100, Fails(17)),
    (7, 0, 29, 100, Fails(21)),
    (21, 0x64, 29, 100, Takes(29)),
    (21, 0x63, 29, 100, Fails(21)),
    (21, 0x8C, 29, 140, Takes(29)),
    (21, 0x8C, 29, 141, Fails(21)),
    (25, 1, 29, 140, Takes(29)),
    (25, 1, 29, 139, Fails(21)),
    (28, 1, 29, 140, Fails(21)),
    (0, 0, 28, 100, Fails(21)),
    (0, 0, 20, 100, Fails(17)),
    (0, 0, 16, 100, Fails(16)),
    (0, 0, 15, 100, Fails(8)),
    (0, 0, 7, 100, Fails(4)),
    (0, 0, 3, 100, Fails(2)),
    (0, 0, 1, 100, Fails(0)),
];

/// The same with the last word ready.
const CARD_BYTES_READY: [u8; 29] = [
    0, 0xC0, 0, 0x60, 0x34, 0x12, 5, 1, 0xB7, 0, 0, 0x80, 0x10, 0, 0, 0, 1, 0x7F, 0, 0, 0, 0xFF,
    0xFF, 0xFF, 0xFF, 0xFF, 0xFF, 0xFF, 0xFF,
];

/// A block without words has none ready.
const CARD_LINES_READY: [Line; 4] = [
    (0, 0, 29, 100000, Takes(29)),
    (21, 0xFE, 29, 100000, Fails(21)),
    (17, 0x80, 29, 100000, Fails(17)),
    (7, 0, 29, 100000, Fails(21)),
];

/// A transfer of ARM7's without words, due at tick 0.
const CARD_BYTES_EMPTY: [u8; 29] = [
    0, 0, 0, 0, 0, 0, 0, 0, 0xB8, 0, 0, 0, 0, 0, 0, 0, 2, 0, 0, 0, 0, 0, 0, 0, 0, 0, 0, 0, 0,
];

/// None was taken of it.
const CARD_LINES_EMPTY: [Line; 4] = [
    (0, 0, 29, 0, Takes(29)),
    (17, 1, 29, 0, Fails(21)),
    (7, 7, 29, 0, Takes(29)),
    (8, 0, 29, 0, Fails(16)),
];

/// No transfer.
const CARD_BYTES_IDLE: [u8; 29] = [
    0, 0, 0, 0, 0, 0, 0, 0, 0xB7, 0, 0, 0, 0, 0, 0, 0, 0, 0, 0, 0, 0, 0xFF, 0xFF, 0xFF, 0xFF, 0xFF,
    0xFF, 0xFF, 0xFF,
];

/// No words are taken without one.
const CARD_LINES_IDLE: [Line; 5] = [
    (0, 0, 29, 7, Takes(29)),
    (17, 1, 29, 7, Fails(17)),
    (20, 1, 29, 7, Fails(17)),
    (16, 1, 29, 7, Fails(21)),
    (16, 4, 29, 7, Fails(16)),
];

/// No transfer, and yet a due tick.
const CARD_BYTES_STILL: [u8; 29] = [
    0, 0, 0, 0, 0, 0, 0, 0, 0, 0, 0, 0, 0, 0, 0, 0, 0, 0, 0, 0, 0, 0, 0, 0, 0, 0, 0, 0, 0,
];

/// There is none without a transfer.
const CARD_LINES_STILL: [Line; 2] = [(0, 0, 29, 0, Fails(21)), (16, 1, 29, 0, Fails(16))];

#[test]
fn units_are_taken_and_put_by_their_rules(rt: HostRuntime) -> Result<(), AllocError> {
    let alloc = rt.alloc();
    try_lines(&rt, alloc, Words(Nine), &IRQ_BYTES, &IRQ_LINES_OF_NINE)?;
    try_lines(&rt, alloc, Words(Seven), &IRQ_BYTES, &IRQ_LINES_OF_SEVEN)?;
    let sleepers = SleepersWords(Nine);
    try_lines(&rt, alloc, sleepers, &IRQ_BYTES, &IRQ_LINES_OF_SLEEPERS)?;
    try_lines(&rt, alloc, FourTimers, &TIMER_BYTES, &TIMER_LINES)?;
    try_lines(&rt, alloc, Sides, &IPC_BYTES, &IPC_LINES)?;
    try_lines(&rt, alloc, Cp, &CP15_BYTES, &CP15_LINES)
}

#[test]
fn channels_are_taken_and_put_by_their_rules(rt: HostRuntime) -> Result<(), AllocError> {
    let alloc = rt.alloc();
    try_lines(&rt, alloc, Channels(Nine), &DMA_BYTES, &DMA_LINES)?;
    try_lines(&rt, alloc, Channels(Seven), &DMA_BYTES, &DMA_LINES_OF_SEVEN)?;
    for proc in [Nine, Seven] {
        let armed = Channels(proc);
        try_lines(&rt, alloc, armed, &DMA_BYTES_ARMED, &DMA_LINES_ARMED)?;
        let late = LateChannels(proc);
        try_lines(&rt, alloc, late, &DMA_BYTES_ARMED, &DMA_LINES_LATE)?;
    }
    let late = LateChannels(Nine);
    try_lines(&rt, alloc, late, &DMA_BYTES, &DMA_LINES)?;
    try_lines(
        &rt,
        alloc,
        Channels(Nine),
        &DMA_BYTES_ARMED,
        &DMA_LINES_HELD,
    )?;
    try_lines(
        &rt,
        alloc,
        Channels(Seven),
        &DMA_BYTES_ARMED,
        &DMA_LINES_OVER,
    )
}

#[test]
fn the_card_is_taken_and_put_by_its_rules(rt: HostRuntime) -> Result<(), AllocError> {
    let alloc = rt.alloc();
    try_lines(&rt, alloc, Port, &CARD_BYTES, &CARD_LINES)?;
    try_lines(&rt, alloc, Port, &CARD_BYTES_READY, &CARD_LINES_READY)?;
    try_lines(&rt, alloc, Port, &CARD_BYTES_EMPTY, &CARD_LINES_EMPTY)?;
    try_lines(&rt, alloc, Port, &CARD_BYTES_IDLE, &CARD_LINES_IDLE)?;
    try_lines(&rt, alloc, Port, &CARD_BYTES_STILL, &CARD_LINES_STILL)
}

#[test]
fn units_stand_in_bytes_as_they_are(rt: HostRuntime) -> Result<(), AllocError> {
    let mut packer = Packer::new(rt.alloc());
    let mut irq = Irq::new();
    irq.set_enabled(0x20_0008);
    irq.level21(true);
    irq.raise(8);
    irq.pack(&mut packer)?;
    let mut ipc = Ipc::new(rt.alloc())?;
    ipc.control_write(Nine, 0x8000);
    ipc.send(Nine, 0x1234_5678);
    ipc.pack(&mut packer)?;
    Cp15::boot().pack(&mut packer)?;
    let bytes = packer.finish();
    let wanted = [
        0, 8, 0, 0x20, 0, 8, 0, 0, 0, 0, 0, 0, 0x80, 0, 0, 0, 0, 0, 0, 0, 0, 0, 0, 0, 0, 0, 1,
        0x78, 0x56, 0x34, 0x12, 0, 0x20, 5, 0, 0x0A, 0, 0, 3, 0x20, 0, 0, 0,
    ];
    assert!(rt;
        bytes.as_slice() == wanted.as_slice(),
        "{} bytes",
        bytes.len()
    );
    Ok(())
}
