//! The display in bytes: 393,425 of them. Where it is, DISPSTAT of ARM9 and of ARM7, 86 bytes of engine A's registers from 7 on, 82 of engine B's
//! from 93 on, POWCNT1 at 175, the running points from 177 on, the frame being drawn from 209 on, the last whole one from 196,817 on.

use super::registers::{
    BG0HOFS, BG2PB, BG2PD, BG2X, BLDY, DISPCAPCNT, DISPCNT, DISPSTAT, MASTER_BRIGHT, POWCNT1, WININ,
};
use super::stage::Stage;
use super::{Line, registers};
use Comes::{Differs, Fails, Full, Takes};
use Line::{ToHblank, Write};
use Proc::Nine;
use Width::{Half, Word};
use ds_base::{Proc, Tick, Width};
use ds_state::{Packer, Unpacked, Unpacker};
use std::alloc::{AllocError, Global};
use video2d::Video;

/// All bytes.
const ALL: usize = 393_425;

/// Engine A shows colour 0 of its palette, 4000h, on the upper screen; engine B is off. V-count's setting of ARM9 is line 1.
const SETUP: [Line; 12] = [
    Write(Nine, POWCNT1, Half, 0x8002),
    Write(Nine, DISPCNT, Word, 0x0001_0000),
    Write(Nine, DISPSTAT, Half, 0x0120),
    Write(Nine, BG0HOFS, Half, 0xFFFF),
    Write(Nine, BG2PB, Half, 0x0100),
    Write(Nine, BG2PD, Half, 0xFFFF),
    Write(Nine, BG2X, Word, 0x0800_0001),
    Write(Nine, WININ, Half, 0xFFFF),
    Write(Nine, BLDY, Half, 0xFFFF),
    Write(Nine, DISPCAPCNT, Word, 0x1234_5678),
    Write(Nine, registers::B + MASTER_BRIGHT, Half, 0xFFFF),
    ToHblank(1),
];

/// The bytes that aren't 0 then, before those of frames. X went on by 100h and Y by -1 after each of two lines.
const BYTES: [(usize, u8); 33] = [
    (0, 1),
    (2, 1),
    (3, 0x26),
    (4, 0x01),
    (5, 0x02),
    (9, 0x01),
    (19, 0xFF),
    (20, 0x01),
    (38, 0x01),
    (41, 0xFF),
    (42, 0xFF),
    (43, 0x01),
    (46, 0x08),
    (75, 0x3F),
    (76, 0x3F),
    (85, 0x1F),
    (87, 0x78),
    (88, 0x56),
    (89, 0x34),
    (90, 0x12),
    (173, 0x1F),
    (174, 0xC0),
    (175, 0x02),
    (176, 0x80),
    (177, 0x01),
    (178, 0x02),
    (180, 0xF8),
    (181, 0xFE),
    (182, 0xFF),
    (183, 0xFF),
    (184, 0xFF),
    (196_817, 0),
    (393_424, 0),
];

/// What comes of bytes.
#[derive(Clone, Copy, PartialEq, Eq)]
enum Comes {
    /// The display takes so many, and puts the same.
    Takes(u32),
    /// A field begins there that isn't whole or breaks its rule.
    Fails(u32),
    /// The display puts others.
    Differs,
    /// There is no memory for it.
    Full,
}

/// The display's bytes, worked by hand: lines 0 and 1 of the upper screen are drawn.
fn bytes_by_hand(alloc: Global) -> Result<Vec<u8>, AllocError> {
    let mut bytes = vec![in alloc; 0; ALL]?;
    for (at, byte) in BYTES.iter() {
        if *at < bytes.len() {
            bytes[*at] = *byte;
        }
    }
    for pixel in 0..512usize {
        if 210 + 2 * pixel < bytes.len() {
            bytes[210 + 2 * pixel] = 0x40;
        }
    }
    Ok(bytes)
}

#[test]
fn a_display_puts_its_bytes(rt: HostRuntime) -> Result<(), AllocError> {
    let mut stage = Stage::new(rt.alloc())?;
    for (number, line) in SETUP.iter().enumerate() {
        let (got, wanted) = stage.seen(*line);
        assert!(rt; got == wanted, "line {number}: {got}");
    }
    let mut packer = Packer::new(rt.alloc());
    stage.video().pack(&mut packer)?;
    let got = packer.finish();
    let wanted = bytes_by_hand(rt.alloc())?;
    assert!(rt; got.len() == ALL && got.as_slice() == wanted.as_slice());
    Ok(())
}

/// What comes of bytes at a tick.
fn came(alloc: Global, bytes: &[u8], at: u32) -> Comes {
    let (some, _) = bytes.split_at(bytes.len().min(0x10_0000));
    let mut from = Unpacker::new(some);
    let mut into = Packer::new(alloc);
    let put = match Video::unpack(alloc, &mut from, Tick(at.into())) {
        Ok(video) => video.pack(&mut into),
        Err(Unpacked::Bad { offset }) => return Fails(offset),
        Err(Unpacked::NoMemory) => return Full,
    };
    if put.is_err() {
        return Full;
    }
    let count = from.place();
    let (taken, _) = some.split_at(some.len().min(count as usize));
    if into.finish().as_slice() == taken {
        Takes(count)
    } else {
        Differs
    }
}

/// Which byte is changed to what, how many bytes there are, the tick, and what comes. Line 1's H-blank event is due at 7,472, and line 2's start at
/// 8,520.
const LINES: [(usize, u8, usize, u32, Comes); 88] = [
    // where it is, at each tick between those events, in any frame
    (0, 1, ALL, 8_000, Takes(393_425)),
    (0, 1, ALL, 7_473, Takes(393_425)),
    (0, 1, ALL, 7_472, Fails(2)),
    (0, 1, ALL, 4_260, Fails(0)),
    (0, 1, ALL, 8_520, Takes(393_425)),
    (0, 1, ALL, 8_521, Fails(0)),
    (0, 1, ALL, 0, Fails(0)),
    (0, 1, ALL, 1_127_853, Takes(393_425)),
    (0, 1, ALL, 1_127_852, Fails(2)),
    (0, 1, ALL, 1_128_901, Fails(0)),
    (0, 2, ALL, 8_000, Fails(0)),
    (1, 1, ALL, 8_000, Fails(0)),
    (0, 2, ALL, 8_521, Fails(2)),
    (2, 0, ALL, 8_000, Fails(2)),
    (2, 2, ALL, 8_000, Fails(2)),
    (2, 0, ALL, 7_472, Takes(393_425)),
    // DISPSTAT: its flags may be any, and bit 6 isn't used
    (3, 0xBF, ALL, 8_000, Takes(393_425)),
    (3, 0x00, ALL, 8_000, Takes(393_425)),
    (3, 0x40, ALL, 8_000, Fails(3)),
    (4, 0xFF, ALL, 8_000, Takes(393_425)),
    (5, 0x01, ALL, 8_000, Takes(393_425)),
    (5, 0x42, ALL, 8_000, Fails(5)),
    // engine A: each register with all that it keeps, and with one bit more
    (10, 0xFF, ALL, 8_000, Takes(393_425)),
    (18, 0xFF, ALL, 8_000, Takes(393_425)),
    (20, 0x02, ALL, 8_000, Fails(19)),
    (34, 0x01, ALL, 8_000, Takes(393_425)),
    (34, 0x80, ALL, 8_000, Fails(33)),
    (42, 0x80, ALL, 8_000, Takes(393_425)),
    (46, 0x0F, ALL, 8_000, Takes(393_425)),
    (46, 0x18, ALL, 8_000, Fails(43)),
    (50, 0x10, ALL, 8_000, Fails(47)),
    (58, 0xFF, ALL, 8_000, Takes(393_425)),
    (62, 0x10, ALL, 8_000, Fails(59)),
    (66, 0x0F, ALL, 8_000, Takes(393_425)),
    (66, 0x80, ALL, 8_000, Fails(63)),
    (74, 0xFF, ALL, 8_000, Takes(393_425)),
    (75, 0x7F, ALL, 8_000, Fails(75)),
    (76, 0x80, ALL, 8_000, Fails(75)),
    (78, 0x3F, ALL, 8_000, Takes(393_425)),
    (78, 0x40, ALL, 8_000, Fails(77)),
    (80, 0xFF, ALL, 8_000, Takes(393_425)),
    (82, 0x3F, ALL, 8_000, Takes(393_425)),
    (82, 0x40, ALL, 8_000, Fails(81)),
    (83, 0x20, ALL, 8_000, Fails(83)),
    (84, 0x1F, ALL, 8_000, Takes(393_425)),
    (84, 0x20, ALL, 8_000, Fails(83)),
    (85, 0x3F, ALL, 8_000, Fails(85)),
    (86, 0x01, ALL, 8_000, Fails(85)),
    (90, 0xFF, ALL, 8_000, Takes(393_425)),
    (91, 0x20, ALL, 8_000, Fails(91)),
    (92, 0xC0, ALL, 8_000, Takes(393_425)),
    (92, 0x20, ALL, 8_000, Fails(91)),
    // engine B, which has no DISPCAPCNT; POWCNT1; running points, which are words
    (106, 0x02, ALL, 8_000, Fails(105)),
    (136, 0x10, ALL, 8_000, Fails(133)),
    (171, 0x20, ALL, 8_000, Fails(171)),
    (173, 0x3F, ALL, 8_000, Fails(173)),
    (174, 0xE0, ALL, 8_000, Fails(173)),
    (175, 0xFF, ALL, 8_000, Takes(393_425)),
    (180, 0x7F, ALL, 8_000, Takes(393_425)),
    (208, 0xFF, ALL, 8_000, Takes(393_425)),
    // the first and the last pixel of both frames
    (210, 0x7F, ALL, 8_000, Takes(393_425)),
    (210, 0x80, ALL, 8_000, Fails(209)),
    (196_816, 0x7F, ALL, 8_000, Takes(393_425)),
    (196_816, 0x80, ALL, 8_000, Fails(196_815)),
    (196_818, 0x80, ALL, 8_000, Fails(196_817)),
    (393_424, 0x7F, ALL, 8_000, Takes(393_425)),
    (393_424, 0x80, ALL, 8_000, Fails(393_423)),
    // each kind of field cut
    (0, 1, 0, 8_000, Fails(0)),
    (0, 1, 1, 8_000, Fails(0)),
    (0, 1, 2, 8_000, Fails(2)),
    (0, 1, 4, 8_000, Fails(3)),
    (0, 1, 6, 8_000, Fails(5)),
    (0, 1, 10, 8_000, Fails(7)),
    (0, 1, 20, 8_000, Fails(19)),
    (0, 1, 46, 8_000, Fails(43)),
    (0, 1, 90, 8_000, Fails(87)),
    (0, 1, 93, 8_000, Fails(93)),
    (0, 1, 174, 8_000, Fails(173)),
    (0, 1, 176, 8_000, Fails(175)),
    (0, 1, 180, 8_000, Fails(177)),
    (0, 1, 208, 8_000, Fails(205)),
    (0, 1, 209, 8_000, Fails(209)),
    (0, 1, 210, 8_000, Fails(209)),
    (0, 1, 196_816, 8_000, Fails(196_815)),
    (0, 1, 196_817, 8_000, Fails(196_817)),
    (0, 1, 196_818, 8_000, Fails(196_817)),
    (0, 1, 393_424, 8_000, Fails(393_423)),
    // a byte that is no more its own
    (0, 1, 393_426, 8_000, Takes(393_425)),
];

#[test]
fn a_display_is_taken_back_from_its_bytes(rt: HostRuntime) -> Result<(), AllocError> {
    let mut bytes = bytes_by_hand(rt.alloc())?;
    bytes.push(0xFF)?;
    for (number, (at, byte, count, tick, wanted)) in LINES.iter().enumerate() {
        let mut kept = 0;
        if *at < bytes.len() {
            kept = bytes[*at];
            bytes[*at] = *byte;
        }
        let (front, _) = bytes.split_at(bytes.len().min(*count));
        let comes = came(rt.alloc(), front, *tick);
        if *at < bytes.len() {
            bytes[*at] = kept;
        }
        assert!(rt; comes == *wanted, "line {number}");
    }
    Ok(())
}

/// A tick, the line and the phase then, DISPSTAT in the bytes; when the next event is due, and when the last whole frame became so.
const RESUMED: [(u32, u16, u8, u16, u64, Option<Tick>); 8] = [
    (0, 0, 0, 0, 3_212, None),
    (3_213, 0, 1, 2, 4_260, None),
    (817_920, 191, 1, 7, 817_920, None),
    (817_921, 192, 0, 0, 821_132, Some(Tick(817_920))),
    (1_120_380, 262, 1, 5, 1_120_380, Some(Tick(817_920))),
    (1_120_381, 0, 0, 0xFFBF, 1_123_592, Some(Tick(817_920))),
    (1_938_300, 191, 1, 3, 1_938_300, Some(Tick(817_920))),
    (1_938_301, 192, 0, 1, 1_941_512, Some(Tick(1_938_300))),
];

#[test]
fn a_display_goes_on_from_its_bytes(rt: HostRuntime) -> Result<(), AllocError> {
    let mut bytes = vec![in rt.alloc(); 0; ALL]?;
    for (number, (tick, line, phase, status, due, framed)) in RESUMED.iter().enumerate() {
        let [low, high] = line.to_le_bytes();
        let [first, second] = status.to_le_bytes();
        if bytes.len() > 5 {
            bytes[0] = low;
            bytes[1] = high;
            bytes[2] = *phase;
            bytes[3] = first;
            bytes[4] = second;
        }
        let (some, _) = bytes.as_slice().split_at(bytes.len().min(0x10_0000));
        let mut from = Unpacker::new(some);
        let goes = match Video::unpack(rt.alloc(), &mut from, Tick((*tick).into())) {
            Ok(video) => {
                video.due().0 == *due
                    && video.framed() == *framed
                    && video.status_read(Nine) == *status
                    && video.status_read(Proc::Seven) == 0
                    && video.line_read() == *line
            }
            Err(_) => false,
        };
        assert!(rt; goes, "line {number}");
    }
    Ok(())
}
