//! What waits for the geometry engine in bytes: the engine has 4,657 before, with empty lists; then come DISP3DCNT's kept bits, the selector, how
//! many entries wait and which, what is left of a packed word, the parameters left, the due tick, and whether a swap waits.

use super::fifo::{finish, write};
use super::ports::{DISP3DCNT, GXFIFO, GXSTAT, MTX_IDENTITY, SWAP_BUFFERS};
use ds_base::Tick;
use ds_state::{Packer, Unpacked, Unpacker};
use gx_fifo::{Asked, Gx};
use std::alloc::{AllocError, Global};

/// How many bytes were taken, where they are those of what is taken; or 10,000 and where a field fails.
fn taken(alloc: Global, bytes: &[u8], at: u64, asked: Asked) -> Result<u32, AllocError> {
    let (some, _) = bytes.split_at(bytes.len().min(0x10_0000));
    let mut from = Unpacker::new(some);
    match Gx::unpack_by(alloc, &mut from, Tick(at), asked) {
        Ok(gx) => {
            let again = packed(alloc, &gx)?;
            let (front, _) = some.split_at(some.len().min(again.len()));
            Ok(if again.as_slice() == front {
                from.place()
            } else {
                98
            })
        }
        Err(Unpacked::Bad { offset }) => Ok(offset.saturating_add(10_000)),
        Err(Unpacked::NoMemory) => Ok(97),
    }
}

fn packed(alloc: Global, gx: &Gx) -> Result<Vec<u8>, AllocError> {
    let mut packer = Packer::new(alloc);
    gx.pack(&mut packer)?;
    Ok(packer.finish())
}

/// A byte that is changed to another, how many bytes there are, the tick, and what comes.
type Row = (usize, u8, usize, u64, u32);

/// The first row that doesn't come so, and what came.
fn wrong(alloc: Global, gx: &Gx, asked: Asked, rows: &[Row]) -> Result<(usize, u32), AllocError> {
    let mut bytes = packed(alloc, gx)?;
    bytes.push(7)?;
    for (number, (at, byte, count, tick, wanted)) in rows.iter().enumerate() {
        let mut kept = 0;
        if *at < bytes.len() {
            kept = bytes[*at];
            bytes[*at] = *byte;
        }
        let (front, _) = bytes.split_at(bytes.len().min(*count));
        let got = taken(alloc, front, *tick, asked)?;
        if *at < bytes.len() {
            bytes[*at] = kept;
        }
        if got != *wanted {
            return Ok((number, got));
        }
    }
    Ok((rows.len(), 0))
}

/// Whether the bytes behind the engine's are these.
fn ends_with(alloc: Global, gx: &Gx, wanted: &[u8]) -> Result<bool, AllocError> {
    let bytes = packed(alloc, gx)?;
    let (_, behind) = bytes.split_at(bytes.len().min(4657));
    Ok(behind == wanted)
}

/// DISP3DCNT and the selector; 22h of a packed word, after a byte that is no code, waits for its parameter, with another such byte and 10h behind it;
/// 15h waits with the word 7, done at 20 + 2 * 19.
fn waiting(alloc: Global) -> Result<Gx, AllocError> {
    let mut gx = Gx::new(alloc)?;
    write(&mut gx, DISP3DCNT, 0x7FFF, 0);
    write(&mut gx, GXSTAT, 0x8000_0000, 0);
    write(&mut gx, GXFIFO, 0x10FF_2200, 10);
    write(&mut gx, MTX_IDENTITY, 7, 20);
    Ok(gx)
}

#[rattlefmt::skip]
const WAITING: [u8; 24] = [0xFF, 0x5F, 2, 1, 0, 0x15, 7, 0, 0, 0, 0x22, 0xFF, 0x10, 0, 1, 58, 0, 0, 0, 0, 0, 0, 0, 0];

#[rattlefmt::skip]
const OF_WAITING: [Row; 49] = [
    // all of it; a byte behind it
    (0, 0, 4681, 50, 4681), (0, 0, 4682, 50, 4681),
    // DISP3DCNT without bit 14; with bits 13 and 15
    (4658, 0x1F, 4681, 50, 4681), (4658, 0x7F, 4681, 50, 14_657), (4658, 0xDF, 4681, 50, 14_657),
    // the selector
    (4659, 3, 4681, 50, 4681), (4659, 4, 4681, 50, 14_659),
    // a code: another without parameters, none of a command, one whose entry is all, one whose entries aren't there though it is due
    (4662, 0x11, 4681, 50, 4681), (4662, 0, 4681, 50, 14_662), (4662, 0x1D, 4681, 50, 14_662), (4662, 0x10, 4681, 50, 4681),
    (4662, 0x23, 4681, 50, 14_680),
    // its word, also of a command without parameters
    (4666, 0xFF, 4681, 50, 4681),
    // what is left: a command of two parameters, of none, no command; bytes behind it are free
    (4667, 0x23, 4681, 50, 4681), (4667, 0x15, 4681, 50, 14_671), (4667, 0, 4681, 50, 14_671), (4667, 0xFF, 4681, 50, 14_671),
    (4668, 0, 4681, 50, 4681), (4669, 0, 4681, 50, 4681), (4670, 0xFF, 4681, 50, 4681),
    // parameters left: none, one more than all
    (4671, 0, 4681, 50, 14_671), (4671, 2, 4681, 50, 14_671),
    // the due tick: now, before, 2^32 later and one more
    (0, 0, 4681, 58, 4681), (0, 0, 4681, 59, 14_672), (4676, 1, 4681, 58, 4681), (4676, 1, 4681, 57, 14_672),
    // a swap that waits though a command is due; no flag; a parameter without a swap, and its highest byte
    (4680, 1, 4681, 50, 14_680), (4680, 2, 4681, 50, 14_680), (4358, 1, 4681, 50, 14_680), (4361, 0x80, 4681, 50, 14_680),
    // the engine's rules come first
    (4357, 2, 4681, 50, 14_357),
    // cut
    (0, 0, 4656, 50, 14_653), (0, 0, 4657, 50, 14_657), (0, 0, 4658, 50, 14_657), (0, 0, 4659, 50, 14_659), (0, 0, 4660, 50, 14_660),
    (0, 0, 4661, 50, 14_660), (0, 0, 4662, 50, 14_662), (0, 0, 4663, 50, 14_663), (0, 0, 4666, 50, 14_663), (0, 0, 4667, 50, 14_667),
    (0, 0, 4669, 50, 14_667), (0, 0, 4670, 50, 14_667), (0, 0, 4671, 50, 14_671), (0, 0, 4672, 50, 14_672), (0, 0, 4676, 50, 14_672),
    (0, 0, 4679, 50, 14_672), (0, 0, 4680, 50, 14_680), (0, 0, 0, 50, 10_000),
];

/// A swap waits with its parameter, and nothing else.
fn swapping(alloc: Global) -> Result<Gx, AllocError> {
    let mut gx = Gx::new(alloc)?;
    write(&mut gx, SWAP_BUFFERS, 3, 1000);
    finish(&mut gx);
    Ok(gx)
}

#[rattlefmt::skip]
const SWAPPING: [u8; 19] = [0, 0, 0, 0, 0, 0, 0, 0, 0, 0, 0xFF, 0xFF, 0xFF, 0xFF, 0xFF, 0xFF, 0xFF, 0xFF, 1];

#[rattlefmt::skip]
const OF_SWAPPING: [Row; 8] = [
    (0, 0, 4676, 2000, 4676),
    // its parameter is 0, or it doesn't wait
    (4358, 0, 4676, 2000, 4676), (4675, 0, 4676, 2000, 14_675),
    // no byte is left: parameters are; bytes are, but no parameter, and the highest of them is no code's
    (4666, 1, 4676, 2000, 14_666), (4662, 0x22, 4676, 2000, 14_666), (4665, 0xFF, 4676, 2000, 14_666),
    // one entry, whose code is 0; a due tick
    (4660, 1, 4676, 2000, 14_662), (4674, 0, 4676, 2000, 14_667),
];

/// 34h waits for its 32 parameters, and for the last 29 of them.
fn shining(alloc: Global, given: u32) -> Result<Gx, AllocError> {
    let mut gx = Gx::new(alloc)?;
    write(&mut gx, GXFIFO, 0x3400_FF34, 0);
    for _ in 0..given {
        write(&mut gx, GXFIFO, 0x0102_0304, 0);
    }
    Ok(gx)
}

#[rattlefmt::skip]
const SHINING: [u8; 19] = [0, 0, 0, 0, 0, 0x34, 0xFF, 0, 0x34, 32, 0xFF, 0xFF, 0xFF, 0xFF, 0xFF, 0xFF, 0xFF, 0xFF, 0];

#[rattlefmt::skip]
const SHINING_LATER: [u8; 34] = [
    0, 0, 0, 3, 0, 0x34, 4, 3, 2, 1, 0x34, 4, 3, 2, 1, 0x34, 4, 3, 2, 1,
    0x34, 0xFF, 0, 0x34, 29, 0xFF, 0xFF, 0xFF, 0xFF, 0xFF, 0xFF, 0xFF, 0xFF, 0,
];

#[rattlefmt::skip]
const OF_SHINING: [Row; 7] = [
    (0, 0, 4676, 0, 4676), (4666, 1, 4676, 0, 4676), (4666, 0, 4676, 0, 14_666), (4666, 33, 4676, 0, 14_666), (4666, 0xFF, 4676, 0, 14_666),
    // a command of one parameter; a swap that waits, whose parameter is 0
    (4662, 0x10, 4676, 0, 14_666), (4675, 1, 4676, 0, 4676),
];

#[rattlefmt::skip]
const OF_SHINING_LATER: [Row; 4] = [
    (0, 0, 4691, 0, 4691), (4681, 32, 4691, 0, 4691),
    // the first entry is complete and not due; the last is another's, which asks nothing
    (4662, 0x15, 4691, 0, 14_690), (4672, 0x15, 4691, 0, 4691),
];

/// As many entries as there is room for, behind a swap.
fn full(alloc: Global) -> Result<Gx, AllocError> {
    let mut gx = Gx::new(alloc)?;
    write(&mut gx, SWAP_BUFFERS, 0, 0);
    finish(&mut gx);
    for _ in 0..81 {
        write(&mut gx, GXFIFO, 0x1515_1515, 0);
    }
    Ok(gx)
}

#[rattlefmt::skip]
const OF_FULL: [Row; 7] = [
    (0, 0, 6296, 900, 6296),
    // 325 entries, 512 more; the last one without a command; the last word cut
    (4660, 0x45, 6296, 900, 14_660), (4661, 3, 6296, 900, 14_660), (6277, 0, 6296, 900, 16_277), (0, 0, 6281, 900, 16_278),
    // no swap waits: the first would have to be due
    (6295, 0, 6296, 900, 16_295), (6294, 0xFE, 6296, 900, 16_287),
];

/// What waits, or 34h with so many of its parameters.
#[derive(Clone, Copy)]
enum Setup {
    Waiting,
    Swapping,
    Shining(u32),
}

fn set_up(alloc: Global, setup: Setup) -> Result<Gx, AllocError> {
    match setup {
        Setup::Waiting => waiting(alloc),
        Setup::Swapping => swapping(alloc),
        Setup::Shining(given) => shining(alloc, given),
    }
}

/// The first row that doesn't come so, and what came; 1,000 where the bytes behind the engine's are others. (What waits lives here alone: a test that
/// held it beside its assertion would take ten times as long to prove.)
fn wrong_of(
    alloc: Global,
    setup: Setup,
    bytes: &[u8],
    rows: &[Row],
) -> Result<(usize, u32), AllocError> {
    let gx = set_up(alloc, setup)?;
    if ends_with(alloc, &gx, bytes)? {
        return wrong(alloc, &gx, Asked::nothing(), rows);
    }
    Ok((1000, 0))
}

#[test]
fn what_waits_is_taken_back_from_its_bytes(rt: HostRuntime) -> Result<(), AllocError> {
    let tables: [(&str, Setup, &[u8], &[Row]); 4] = [
        ("an entry", Setup::Waiting, &WAITING, &OF_WAITING),
        ("a swap", Setup::Swapping, &SWAPPING, &OF_SWAPPING),
        ("32 parameters", Setup::Shining(0), &SHINING, &OF_SHINING),
        (
            "29 parameters",
            Setup::Shining(3),
            &SHINING_LATER,
            &OF_SHINING_LATER,
        ),
    ];
    for (table, setup, bytes, rows) in tables {
        let (row, got) = wrong_of(rt.alloc(), setup, bytes, rows)?;
        assert!(rt; row == rows.len(), "{table}, row {row}: {got}");
    }
    Ok(())
}

fn wrong_of_full(alloc: Global) -> Result<(usize, u32), AllocError> {
    let gx = full(alloc)?;
    wrong(alloc, &gx, Asked::nothing(), &OF_FULL)
}

#[test]
fn a_full_list_is_taken_back_from_its_bytes(rt: HostRuntime) -> Result<(), AllocError> {
    let (row, got) = wrong_of_full(rt.alloc())?;
    assert!(rt; row == OF_FULL.len(), "row {row}: {got}");
    Ok(())
}

/// So many entries, behind a swap, with GXSTAT's selector.
fn so_many(alloc: Global, selector: u32, count: u32) -> Result<Gx, AllocError> {
    let mut gx = Gx::new(alloc)?;
    write(&mut gx, GXSTAT, selector << 30, 0);
    write(&mut gx, SWAP_BUFFERS, 0, 0);
    finish(&mut gx);
    for _ in 0..count / 4 {
        write(&mut gx, GXFIFO, 0x1515_1515, 0);
    }
    for _ in 0..count % 4 {
        write(&mut gx, MTX_IDENTITY, 0, 0);
    }
    Ok(gx)
}

/// What is asked: never so many, the level down, a stall, not half empty.
fn asked_by(which: u8) -> Asked {
    let nothing = Asked::nothing();
    match which {
        0 => Asked {
            wakes: true,
            ..nothing
        },
        1 => Asked {
            hears: true,
            ..nothing
        },
        2 => Asked {
            late: true,
            ..nothing
        },
        _ => Asked {
            waits: true,
            ..nothing
        },
    }
}

/// What is asked, the selector, how many entries wait, and what comes of one change: 1 where all is taken, or where a field fails.
#[rattlefmt::skip]
const ASKED: [(u8, u32, u32, Row); 21] = [
    // never so many, and told there: a later field is broken, too; an earlier one
    (0, 0, 0, (0, 0, 9000, 9, 14_660)), (0, 0, 1, (4680, 2, 9000, 9, 14_660)),
    (0, 0, 1, (4660, 1, 4661, 9, 14_660)), (0, 0, 1, (4659, 4, 9000, 9, 14_659)),
    // the level, by each selector
    (1, 0, 0, (0, 0, 9000, 9, 1)), (1, 3, 0, (0, 0, 9000, 9, 1)), (1, 2, 4, (0, 0, 9000, 9, 14_660)), (1, 2, 5, (0, 0, 9000, 9, 1)),
    (1, 1, 131, (0, 0, 9000, 9, 14_660)), (1, 1, 132, (0, 0, 9000, 9, 1)), (1, 2, 4, (4662, 0, 9000, 9, 14_660)),
    // a stall
    (2, 0, 0, (0, 0, 9000, 9, 14_660)), (2, 0, 260, (0, 0, 9000, 9, 14_660)),
    (2, 0, 261, (0, 0, 9000, 9, 1)), (2, 0, 260, (4662, 0, 9000, 9, 14_660)),
    (2, 0, 324, (0, 0, 9000, 9, 1)),
    // not half empty
    (3, 0, 0, (0, 0, 9000, 9, 14_660)), (3, 0, 131, (0, 0, 9000, 9, 14_660)),
    (3, 0, 132, (0, 0, 9000, 9, 1)), (3, 0, 131, (4662, 0, 9000, 9, 14_660)),
    (3, 1, 260, (4662, 0, 9000, 9, 14_662)),
];

/// 1 where a row comes so, and what came.
fn wrong_of_asked(
    alloc: Global,
    (which, selector, count, row): &(u8, u32, u32, Row),
) -> Result<(usize, u32), AllocError> {
    let gx = so_many(alloc, *selector, *count)?;
    let (at, byte, long, tick, wanted) = *row;
    let wanted = if wanted == 1 {
        count.saturating_mul(5).saturating_add(4676)
    } else {
        wanted
    };
    let row = [(at, byte, long, tick, wanted)];
    wrong(alloc, &gx, asked_by(*which), &row)
}

#[test]
fn what_the_rest_asks_is_told_at_the_count(rt: HostRuntime) -> Result<(), AllocError> {
    for (number, row) in ASKED.iter().enumerate() {
        let (right, got) = wrong_of_asked(rt.alloc(), row)?;
        assert!(rt; right == 1, "row {number}: {got}");
    }
    Ok(())
}

/// A word to the packed port, when, and what stands behind the engine's bytes then.
type Step<'a> = (u32, u64, &'a [u8]);

#[rattlefmt::skip]
const STEPS: [Step; 2] = [
    // the parameter of 22h: the byte that is no code goes with it, and 10h waits
    (5, 50, &[0xFF, 0x5F, 2, 2, 0, 0x15, 7, 0, 0, 0, 0x22, 5, 0, 0, 0, 0x10, 0, 0, 0, 1, 58, 0, 0, 0, 0, 0, 0, 0, 0]),
    (6, 51, &[0xFF, 0x5F, 2, 3, 0, 0x15, 7, 0, 0, 0, 0x22, 5, 0, 0, 0, 0x10, 6, 0, 0, 0, 0, 0, 0, 0, 0, 58, 0, 0, 0, 0, 0, 0, 0, 0]),
];

/// What is taken back from the bytes of what waits.
fn taken_back(alloc: Global) -> Result<Option<Gx>, AllocError> {
    let bytes = packed(alloc, &waiting(alloc)?)?;
    let (some, _) = bytes.as_slice().split_at(bytes.len().min(0x10_0000));
    let mut from = Unpacker::new(some);
    Ok(Gx::unpack(alloc, &mut from, Tick(50)).ok())
}

/// How many steps come so one after another; 100 where nothing is taken back.
fn right_steps(alloc: Global) -> Result<usize, AllocError> {
    let Some(mut gx) = taken_back(alloc)? else {
        return Ok(100);
    };
    for (number, (word, tick, wanted)) in STEPS.iter().enumerate() {
        write(&mut gx, GXFIFO, *word, *tick);
        if !ends_with(alloc, &gx, wanted)? {
            return Ok(number);
        }
    }
    Ok(STEPS.len())
}

#[test]
fn what_is_taken_back_goes_on(rt: HostRuntime) -> Result<(), AllocError> {
    let right = right_steps(rt.alloc())?;
    assert!(rt; right == STEPS.len(), "step {right}");
    Ok(())
}
