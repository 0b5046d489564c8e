//! The geometry engine in bytes: the matrices have 4,357, the numbers and results 272, and then come both lists.

use ds_base::Tick;
use ds_state::{Packer, Unpacked, Unpacker};
use gx_geometry::Geometry;
use gx_matrix::GeometryCommand;
use std::alloc::{AllocError, Global};

/// How many bytes were taken, where they are those of the engine that is taken; or 10,000 and where a field fails.
fn taken(alloc: Global, bytes: &[u8], at: u64) -> Result<u32, AllocError> {
    let (some, _) = bytes.split_at(bytes.len().min(0x10_0000));
    let mut from = Unpacker::new(some);
    match Geometry::unpack(alloc, &mut from, Tick(at)) {
        Ok(engine) => {
            let mut packer = Packer::new(alloc);
            engine.pack(&mut packer)?;
            let again = packer.finish();
            let (front, _) = some.split_at(some.len().min(again.len()));
            Ok(if again.as_slice() == front {
                from.place()
            } else {
                98
            })
        }
        Err(Unpacked::Bad { offset }) => Ok(offset.saturating_add(10_000)),
        Err(Unpacked::NoMemory) => Ok(97),
    }
}

/// Three vertices and a triangle.
#[rattlefmt::skip]
const ROWS: [Row; 43] = [
    (0, 1, 4748, 100, 4748), (0, 3, 4749, 100, 4748), (0, 4, 4748, 100, 10_000), (1, 31, 4748, 100, 4748), (1, 32, 4748, 100, 10_001),
    (2, 2, 4748, 100, 10_002), (4, 1, 4748, 100, 4748), (4, 2, 4748, 100, 10_004), (4357, 2, 4748, 100, 14_357),
    // the colour, the palette's base, the table's flag, a light's colour
    (4363, 0x80, 4748, 100, 14_362), (4363, 0x7F, 4748, 100, 4748), (4391, 0x20, 4748, 100, 14_390), (4391, 0x1F, 4748, 100, 4748),
    (4406, 2, 4748, 100, 14_406), (4548, 0x80, 4748, 100, 14_547),
    // the table is one field of 128 bytes: its last byte, and cuts at its start, within it and behind it
    (4534, 9, 4748, 100, 4748), (0, 0, 4407, 100, 14_407), (0, 0, 4412, 100, 14_407), (0, 0, 4534, 100, 14_407), (0, 0, 4535, 100, 14_535),
    // the kind, the run and the tick
    (4591, 4, 4748, 100, 14_591), (4591, 3, 4748, 100, 4748), (0, 0, 4748, 2, 14_592), (0, 0, 4748, 3, 4748),
    // the run's last three: two of them, another place, one past the list
    (4592, 2, 4748, 100, 14_600), (4602, 0, 4748, 100, 4748), (4604, 3, 4748, 100, 14_629),
    // the box, the lists' lengths, a vertex's colour
    (4628, 2, 4748, 100, 14_628), (4630, 0x18, 4748, 100, 14_629), (4634, 8, 4748, 100, 14_633), (4654, 0x80, 4748, 100, 14_653),
    // the triangle's palette, its corners and its fourth place
    (4712, 0x20, 4748, 100, 14_711), (4719, 2, 4748, 100, 14_719), (4719, 4, 4748, 100, 4748), (4719, 5, 4748, 100, 14_719),
    (4726, 1, 4748, 100, 14_726),
    // the last swap: none, and one of a later tick
    (4728, 5, 4748, 5, 4748), (4728, 5, 4748, 4, 14_728), (4736, 1, 4748, 100, 14_736), (4740, 1, 4748, 100, 14_740),
    (4744, 1, 4748, 100, 14_744), (0, 0, 4747, 100, 14_744), (0, 0, 0, 100, 10_000),
];

/// A command, where it has its number of parameters.
fn give(engine: &mut Geometry, code: u8, params: &[u32]) {
    if let Some(command) = GeometryCommand::of(code) {
        if params.len() == command.parameters() as usize && engine.run_length() <= 1 << 56 {
            engine.command(code, params);
        }
    }
}

/// A byte that is changed to another, how many bytes there are, the tick, and what comes.
type Row = (usize, u8, usize, u64, u32);

/// The first row that doesn't come so, and what came, or 0 and how many bytes the engine has and one more.
fn wrong(alloc: Global, engine: &Geometry, rows: &[Row]) -> Result<(usize, u32), AllocError> {
    let mut packer = Packer::new(alloc);
    engine.pack(&mut packer)?;
    packer.put_u8(7)?;
    let mut bytes = packer.finish();
    for (number, (at, byte, count, tick, wanted)) in rows.iter().enumerate() {
        let mut kept = 0;
        if *at < bytes.len() {
            kept = bytes[*at];
            bytes[*at] = *byte;
        }
        let (front, _) = bytes.split_at(bytes.len().min(*count));
        let got = taken(alloc, front, *tick)?;
        if *at < bytes.len() {
            bytes[*at] = kept;
        }
        if got != *wanted {
            return Ok((number, got));
        }
    }
    Ok((rows.len(), (bytes.len() % 0x100_0000) as u32))
}

/// Three vertices of a kind of run.
fn three_vertices(alloc: Global, kind: u32) -> Result<Geometry, AllocError> {
    let mut engine = Geometry::new(alloc)?;
    give(&mut engine, 0x29, &[0xC0]);
    give(&mut engine, 0x40, &[kind]);
    give(&mut engine, 0x23, &[0, 0]);
    give(&mut engine, 0x23, &[0x1000, 0]);
    give(&mut engine, 0x23, &[0x1000_0000, 0]);
    Ok(engine)
}

fn wrong_of_triangle(alloc: Global) -> Result<(usize, u32), AllocError> {
    let engine = three_vertices(alloc, 0)?;
    wrong(alloc, &engine, &ROWS)
}

#[test]
fn the_engine_is_taken_back_from_its_bytes(rt: HostRuntime) -> Result<(), AllocError> {
    let (row, got) = wrong_of_triangle(rt.alloc())?;
    assert!(rt; row == ROWS.len() && got == 4749, "row {row}: {got}");
    Ok(())
}

/// Both lists are full, one vertex more was dropped, and then they are swapped.
const FULL: [Row; 5] = [
    (0, 0, 191_025, 10_000, 191_025),
    (0, 0, 191_025, 6_144, 14_592),
    (4_629, 1, 191_025, 10_000, 14_629),
    (4_633, 1, 191_025, 10_000, 14_633),
    (4_604, 0, 191_025, 10_000, 14_629),
];

const SWAPPED: [Row; 4] = [
    (0, 0, 191_025, 10_000, 191_025),
    (0, 0, 191_025, 9_999, 14_637),
    (4_649, 1, 191_025, 10_000, 14_649),
    (4_653, 1, 191_025, 10_000, 14_653),
];

fn filled(alloc: Global) -> Result<Geometry, AllocError> {
    let mut engine = Geometry::new(alloc)?;
    give(&mut engine, 0x29, &[0xC0]);
    give(&mut engine, 0x40, &[0]);
    for _ in 0..6_145 {
        give(&mut engine, 0x23, &[0, 0]);
    }
    Ok(engine)
}

/// The first row that doesn't come so, and what came: of the full lists, or once they are swapped.
fn wrong_of_filled(alloc: Global, swaps: bool, rows: &[Row]) -> Result<(usize, u32), AllocError> {
    let mut engine = filled(alloc)?;
    if swaps {
        engine.swap(Tick(10_000));
    }
    wrong(alloc, &engine, rows)
}

#[test]
fn full_lists_are_taken_back_from_their_bytes(rt: HostRuntime) -> Result<(), AllocError> {
    let tables: [(bool, &[Row]); 2] = [(false, &FULL), (true, &SWAPPED)];
    for (swaps, rows) in tables {
        let (row, got) = wrong_of_filled(rt.alloc(), swaps, rows)?;
        assert!(rt;
            row == rows.len() && got == 191_026,
            "swapped: {swaps}, row {row}: {got}"
        );
    }
    Ok(())
}

/// A place of the last three in the bytes of a strip of three vertices, and then, after a vertex more: how many polygons there are, and the corners
/// of the last one.
type Place = (usize, [u8; 2], usize, [u16; 4]);

#[rattlefmt::skip]
const PLACES: [Place; 7] = [
    // as they are: the second triangle of a strip is turned
    (4604, [2, 0], 2, [2, 1, 3, 0]),
    // the last one, the one before it, and the first, which is no corner
    (4604, [0, 0], 2, [0, 1, 3, 0]), (4602, [0, 0], 2, [2, 0, 3, 0]), (4600, [2, 0], 2, [2, 1, 3, 0]),
    // one that stands nowhere
    (4604, [0xFF, 0xFF], 1, [0, 1, 2, 0]), (4602, [0xFF, 0xFF], 1, [0, 1, 2, 0]), (4600, [0xFF, 0xFF], 2, [2, 1, 3, 0]),
];

/// How many polygons a swap gives after one vertex more, and the corners of the last one.
fn next_made(engine: &mut Geometry) -> (usize, [u16; 4]) {
    give(engine, 0x23, &[0x1000_1000, 0]);
    engine.swap(Tick(9));
    let polygons = engine.lists().polygons();
    match polygons.last() {
        Some(polygon) => (polygons.len(), polygon.indices),
        None => (0, [0; 4]),
    }
}

/// The bytes of a strip of three vertices with another place at one of them.
fn with_place(alloc: Global, at: usize, place: [u8; 2]) -> Result<Vec<u8>, AllocError> {
    let engine = three_vertices(alloc, 2)?;
    let mut packer = Packer::new(alloc);
    engine.pack(&mut packer)?;
    let mut bytes = packer.finish();
    for (i, byte) in place.iter().enumerate() {
        if at < bytes.len() - i.min(bytes.len()) {
            bytes[at + i] = *byte;
        }
    }
    Ok(bytes)
}

/// What the engine of these bytes makes next; 99 polygons where they are refused.
fn next_of(alloc: Global, bytes: &[u8]) -> (usize, [u16; 4]) {
    let (some, _) = bytes.split_at(bytes.len().min(0x10_0000));
    let mut from = Unpacker::new(some);
    match Geometry::unpack(alloc, &mut from, Tick(100)) {
        Ok(mut engine) => next_made(&mut engine),
        Err(_) => (99, [0; 4]),
    }
}

#[test]
fn the_next_polygon_is_made_where_the_bytes_say(rt: HostRuntime) -> Result<(), AllocError> {
    for (number, (at, place, count, corners)) in PLACES.iter().enumerate() {
        let bytes = with_place(rt.alloc(), *at, *place)?;
        let (got, indices) = next_of(rt.alloc(), bytes.as_slice());
        assert!(rt; got == *count && indices == *corners, "row {number}: {got}");
    }
    Ok(())
}
