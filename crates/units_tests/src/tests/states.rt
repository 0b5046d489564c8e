//! Bytes that fields are put to and taken from.

use Field::{Bytes, Flag, Half, Kept, Most, None8, Signed, Tick, Word};
use ds_math::{Divider, Root};
use ds_state::{Packer, Unpacked, Unpacker};
use std::alloc::{AllocError, Global};

/// A field, with the value that is put or taken.
#[derive(Clone, Copy)]
enum Field {
    /// A number in so many bytes.
    Word(u8, u64),
    /// A half, by its own call.
    Half(u16),
    /// A flag.
    Flag(bool),
    /// A tick.
    Tick(u32),
    /// No tick.
    None8,
    /// Three bytes as they are.
    Bytes([u8; 3]),
    /// A signed word.
    Signed(i32),
    /// A byte that is at most 15.
    Most(u8),
    /// A byte that has no bits but C7h.
    Kept(u8),
}

fn put(into: &mut Packer, field: Field) -> Result<(), AllocError> {
    match field {
        Word(1, value) => into.put(value % 0x100, 1),
        Word(2, value) => into.put(value % 0x1_0000, 2),
        Word(4, value) => into.put(value % 0x1_0000_0000, 4),
        Word(_, value) => into.put(value, 8),
        Half(value) => into.put_u16(value),
        Flag(value) => into.put_flag(value),
        Tick(tick) => into.put_tick(Some(tick.into())),
        None8 => into.put_tick(None),
        Bytes(bytes) => into.put_bytes(&bytes),
        Signed(value) => into.put_u32(value.cast_unsigned()),
        Most(value) | Kept(value) => into.put_u8(value),
    }
}

/// Whether the next field is this one, or where it fails.
fn taken(from: &mut Unpacker, field: Field) -> Result<bool, Unpacked> {
    let bad = Unpacked::Bad {
        offset: from.place(),
    };
    match field {
        Word(1, value) => Ok(from.take(1).ok_or(bad)? == value),
        Word(2, value) => Ok(from.take(2).ok_or(bad)? == value),
        Word(4, value) => Ok(from.take(4).ok_or(bad)? == value),
        Word(_, value) => Ok(from.take(8).ok_or(bad)? == value),
        Half(value) => Ok(from.take_u16()? == value),
        Flag(value) => Ok(from.take_flag()? == value),
        Tick(tick) => Ok(from.take_tick()? == Some(tick.into())),
        None8 => Ok(from.take_tick()?.is_none()),
        Bytes(bytes) => {
            let mut into = [0; 3];
            if from.take_into(&mut into) {
                Ok(into == bytes)
            } else {
                Err(bad)
            }
        }
        Signed(value) => Ok(from.take_i32()? == value),
        Most(value) => Ok(from.take_at_most(15)? == value),
        Kept(value) => Ok(from.take_kept(0xC7)? == value),
    }
}

/// Fields, and their bytes: numbers have the lowest byte first.
const FIELDS: [(Field, &[u8]); 14] = [
    (Word(1, 0xFE), &[0xFE]),
    (Word(2, 0x1234), &[0x34, 0x12]),
    (Word(4, 0x1234_5678), &[0x78, 0x56, 0x34, 0x12]),
    (
        Word(8, 0x0123_4567_89AB_CDEF),
        &[0xEF, 0xCD, 0xAB, 0x89, 0x67, 0x45, 0x23, 0x01],
    ),
    (Half(0xFF00), &[0x00, 0xFF]),
    (Flag(true), &[1]),
    (Flag(false), &[0]),
    (Tick(0x8000_0001), &[1, 0, 0, 0x80, 0, 0, 0, 0]),
    (None8, &[0xFF, 0xFF, 0xFF, 0xFF, 0xFF, 0xFF, 0xFF, 0xFF]),
    (Bytes([7, 0, 9]), &[7, 0, 9]),
    (Signed(-2), &[0xFE, 0xFF, 0xFF, 0xFF]),
    (Signed(3), &[3, 0, 0, 0]),
    (Most(15), &[15]),
    (Kept(0xC7), &[0xC7]),
];

#[test]
fn fields_are_put_one_after_another(rt: HostRuntime) -> Result<(), AllocError> {
    for (number, (field, bytes)) in FIELDS.iter().enumerate() {
        let mut packer = Packer::new(rt.alloc());
        put(&mut packer, Word(2, 0xAA55))?;
        put(&mut packer, *field)?;
        let all = packer.finish();
        let (front, own) = all.split_at(all.len().min(2));
        assert!(rt;
            front == [0x55, 0xAA].as_slice() && own == *bytes,
            "field {number}"
        );
    }
    Ok(())
}

/// Bytes, a field that is asked of them past the first, and where it fails, or 99 where it is there.
const TAKES: [(&[u8], Field, u32); 16] = [
    (&[0, 1, 2], Word(2, 0x201), 99),
    (&[0, 1, 2], Half(0x201), 99),
    (&[0, 1], Half(1), 1),
    (&[0, 1, 2, 3], Word(4, 0), 1),
    (&[0, 1, 2, 3, 4, 5, 6, 7], Word(8, 0), 1),
    (&[0], Word(1, 0), 1),
    (&[0, 1], Flag(true), 99),
    (&[0, 2], Flag(true), 1),
    (
        &[0, 0xFF, 0xFF, 0xFF, 0xFF, 0xFF, 0xFF, 0xFF, 0xFF],
        None8,
        99,
    ),
    (&[0, 0xFE, 0, 0, 0, 0, 0, 0, 0], Tick(254), 99),
    (&[0, 0xFE, 0, 0, 0, 0, 0, 0], Tick(254), 1),
    (&[0, 3, 2, 1], Bytes([3, 2, 1]), 99),
    (&[0, 3, 2], Bytes([3, 2, 1]), 1),
    (&[0, 16], Most(15), 1),
    (&[0, 0x87], Kept(0x87), 99),
    (&[0, 0x08], Kept(8), 1),
];

#[test]
fn a_field_fails_where_it_begins(rt: HostRuntime) {
    for (number, (bytes, field, at)) in TAKES.iter().enumerate() {
        let mut from = Unpacker::new(bytes);
        let first = taken(&mut from, Word(1, 0));
        let failed = match taken(&mut from, *field) {
            Ok(true) => 99,
            Ok(false) => 98,
            Err(Unpacked::Bad { offset }) => offset,
            Err(Unpacked::NoMemory) => 97,
        };
        assert!(rt; first.is_ok() && failed == *at, "take {number}: {failed}");
    }
}

/// Bytes, the fields that are there, and the one that comes behind them, which isn't whole or breaks its rule: where that is told. What stands
/// before it has an odd number of bytes, or an even one from an odd place on.
const MIDDLES: [(&[u8], &[Field], Field, u32); 7] = [
    (&[7, 0, 9, 5], &[Bytes([7, 0, 9])], Half(5), 3),
    (&[7, 0, 9, 2], &[Bytes([7, 0, 9])], Flag(true), 3),
    (
        &[7, 0, 9, 0xFE, 0xFF, 1],
        &[Bytes([7, 0, 9]), Half(0xFFFE)],
        Half(1),
        5,
    ),
    (
        &[1, 4, 3, 2, 1, 7, 0],
        &[Flag(true), Word(4, 0x0102_0304)],
        Bytes([7, 0, 9]),
        5,
    ),
    (
        &[15, 7, 0, 9, 7, 0, 9, 8, 0, 0],
        &[Most(15), Bytes([7, 0, 9]), Bytes([7, 0, 9])],
        Signed(8),
        7,
    ),
    (
        &[1, 0xFF, 0xFF, 0xFF, 0xFF, 0xFF, 0xFF, 0xFF, 0xFF, 16],
        &[Flag(true), None8],
        Most(15),
        9,
    ),
    (
        &[7, 0, 9, 5, 0, 0, 0, 0, 0, 0, 0, 8],
        &[Bytes([7, 0, 9]), Tick(5)],
        Kept(8),
        11,
    ),
];

#[test]
fn a_field_in_the_middle_fails_where_it_begins(rt: HostRuntime) {
    for (number, (bytes, before, field, at)) in MIDDLES.iter().enumerate() {
        let mut from = Unpacker::new(bytes);
        let mut there = true;
        for one in before.iter() {
            there = matches!(taken(&mut from, *one), Ok(true)) && there;
        }
        let failed = match taken(&mut from, *field) {
            Ok(_) => 99,
            Err(Unpacked::Bad { offset }) => offset,
            Err(Unpacked::NoMemory) => 97,
        };
        assert!(rt; there && failed == *at, "middle {number}: {failed}");
    }
}

/// What is taken by a call that finds fewer bytes: nothing.
#[test]
fn a_take_that_finds_fewer_takes_nothing(rt: HostRuntime) {
    let bytes = [1, 2, 3];
    let mut from = Unpacker::new(&bytes);
    let mut four = [9; 4];
    let fewer = from.take(4).is_none() && !from.take_into(&mut four) && from.place() == 0;
    assert!(rt;
        fewer && four == [9; 4] && from.take(2) == Some(0x201) && from.place() == 2,
        "all is left"
    );
}

/// What of a divider's bytes is read at a tick, with a byte changed and so many of them there: how many were left where it is as it was, or
/// 100 and where it fails.
fn divided(bytes: &[u8], at: u32) -> u32 {
    let (some, _) = bytes.split_at(bytes.len().min(64));
    let mut from = Unpacker::new(some);
    match Divider::unpack(&mut from, ds_base::Tick(at.into())) {
        Ok(divider) => {
            let read = divider.read();
            let same = read.mode == 1
                && read.numerator == 0x0102_0304_0506_0708
                && read.denominator == 2;
            if same && read.busy { from.place() } else { 98 }
        }
        Err(Unpacked::Bad { offset }) => offset.saturating_add(100),
        Err(Unpacked::NoMemory) => 97,
    }
}

/// A divider that was started in mode 1 at tick 100 and is due at 168: which byte is changed to what, how many bytes there are, the tick, and
/// what comes.
const DIVIDERS: [(usize, u8, usize, u32, u32); 11] = [
    (0, 1, 42, 100, 41),
    (0, 1, 42, 168, 41),
    (0, 1, 42, 169, 133),
    (0, 4, 42, 100, 100),
    (0, 1, 41, 100, 41),
    (0, 1, 40, 100, 133),
    (0, 1, 0, 100, 100),
    (0, 1, 8, 100, 101),
    (36, 1, 42, 100, 41),
    (37, 1, 42, 100, 133),
    (40, 0xFF, 42, 100, 133),
];

#[test]
fn a_divider_is_taken_back_from_its_bytes(rt: HostRuntime) -> Result<(), AllocError> {
    let mut divider = Divider::new();
    divider.start(1, 0x0102_0304_0506_0708, 2, ds_base::Tick(100));
    let mut packer = Packer::new(rt.alloc());
    divider.pack(&mut packer)?;
    packer.put_u8(7)?;
    let bytes = packer.finish();
    for (number, (at, byte, count, tick, wanted)) in DIVIDERS.iter().enumerate() {
        let mut changed = Vec::from_slice(rt.alloc(), &bytes)?;
        if *at < changed.len() {
            changed[*at] = *byte;
        }
        let (front, _) = changed.split_at(changed.len().min(*count));
        let got = divided(front, *tick);
        assert!(rt;
            bytes.len() == 42 && got == *wanted,
            "divider {number}: {got}"
        );
    }
    Ok(())
}

#[test]
fn units_stand_in_bytes_register_by_register(rt: HostRuntime) -> Result<(), AllocError> {
    let mut root = Root::new();
    root.start(true, 0x1_0000_0009, ds_base::Tick(5));
    let mut packer = Packer::new(rt.alloc());
    root.pack(&mut packer)?;
    if root.due().is_some() {
        root.finish();
    }
    root.pack(&mut packer)?;
    let bytes = packer.finish();
    let wanted = [
        1, 9, 0, 0, 0, 1, 0, 0, 0, 0, 0, 0, 0, 31, 0, 0, 0, 0, 0, 0, 0, 1, 9, 0, 0, 0, 1, 0, 0, 0,
        0, 0, 1, 0, 255, 255, 255, 255, 255, 255, 255, 255,
    ];
    assert!(rt;
        bytes.as_slice() == wanted.as_slice(),
        "{} bytes",
        bytes.len()
    );
    Ok(())
}
