//! Words and halves that share their place in a cache, each as it is decoded.

use arm_ops::{Op, Operation};
use arm_words::Condition;
use arm_words::Condition::{Al, Eq, Ne};
use decode_cache::Decoder;
use std::alloc::AllocError;

/// What a word or a half at an address is decoded as.
#[derive(Clone, Copy)]
enum Line {
    /// The address, the word, and r0's new value by a move, under a condition.
    Moves(u32, u32, u32, Condition),
    /// The address, the word, and how far it branches from what r15 reads as, in bytes modulo 2^32.
    Branches(u32, u32, u32),
    /// The address, and a word that is no operation.
    Other(u32, u32),
    /// A word of ARMv5 alone, which is no operation of ARMv4 nor of ARMv5; and one that both do as it is.
    NoWord(u32, u32),
    PlainWord(u32, u32),
    /// BX, which both do, and its register.
    Exchanges(u32, u32, u32),
    /// The same of a half.
    NoHalf(u32, u16),
    PlainHalf(u32, u16),
    /// What a half moves.
    HalfMoves(u32, u16, u32),
    /// The same of a half.
    HalfBranches(u32, u16, u32),
    /// The same of a half; and both halves of BL, which both do, and their offsets.
    HalfExchanges(u32, u16, u32),
    Prefixes(u32, u16, u32),
    Suffixes(u32, u16, u32),
}

use Line::{
    Branches, Exchanges, HalfBranches, HalfExchanges, HalfMoves, Moves, NoHalf, NoWord, Other,
    PlainHalf, PlainWord, Prefixes, Suffixes,
};

/// Whether it moves a value to r0 under a condition.
fn moves(operation: &Operation, wanted: u32, cond: Condition) -> bool {
    match operation.op {
        Op::MovNumber { rd: 0, value } => value == wanted && operation.cond == cond,
        Op::MovsNumber { rd: 0, number } => number.value == wanted && operation.cond == cond,
        _ => false,
    }
}

/// Whether it branches so far.
fn branches(operation: &Operation, wanted: u32) -> bool {
    match operation.op {
        Op::Branch { link: false, far } => far == wanted,
        _ => false,
    }
}

/// Whether it is BX of a register.
fn exchanges(operation: &Operation, wanted: u32) -> bool {
    match operation.op {
        Op::Exchange { rm } => rm as u32 == wanted,
        _ => false,
    }
}

/// Whether it is the first half of BL with an offset.
fn is_prefix(operation: &Operation, wanted: u32) -> bool {
    match operation.op {
        Op::LinkPrefix { offset } => offset as u32 == wanted,
        _ => false,
    }
}

/// Whether it is the second.
fn is_suffix(operation: &Operation, wanted: u32) -> bool {
    match operation.op {
        Op::LinkSuffix { offset } => offset as u32 == wanted,
        _ => false,
    }
}

/// Whether a line says what a cache of ARMv5's words or of ARMv4's halves has, or caches of both.
fn is_right(five: &mut Decoder<5>, four: &mut Decoder<4>, line: Line) -> bool {
    match line {
        NoWord(at, word) => {
            let of_five = matches!(five.arm_operation(at, word).op, Op::Other);
            of_five && matches!(four.arm_operation(at, word).op, Op::Other)
        }
        PlainWord(at, word) => {
            let of_five = matches!(five.arm_operation(at, word).op, Op::Plain(_));
            of_five && matches!(four.arm_operation(at, word).op, Op::Plain(_))
        }
        Exchanges(at, word, rm) => {
            let of_five = exchanges(five.arm_operation(at, word), rm);
            of_five && exchanges(four.arm_operation(at, word), rm)
        }
        HalfExchanges(at, half, rm) => {
            let of_five = exchanges(five.thumb_operation(at, half), rm);
            of_five && exchanges(four.thumb_operation(at, half), rm)
        }
        Prefixes(at, half, offset) => {
            let of_five = is_prefix(five.thumb_operation(at, half), offset);
            of_five && is_prefix(four.thumb_operation(at, half), offset)
        }
        Suffixes(at, half, offset) => {
            let of_five = is_suffix(five.thumb_operation(at, half), offset);
            of_five && is_suffix(four.thumb_operation(at, half), offset)
        }
        NoHalf(at, half) => {
            let of_five = matches!(five.thumb_operation(at, half).op, Op::Other);
            of_five && matches!(four.thumb_operation(at, half).op, Op::Other)
        }
        PlainHalf(at, half) => {
            let of_five = matches!(five.thumb_operation(at, half).op, Op::Plain(_));
            of_five && matches!(four.thumb_operation(at, half).op, Op::Plain(_))
        }
        Moves(at, word, value, cond) => moves(five.arm_operation(at, word), value, cond),
        Branches(at, word, far) => branches(five.arm_operation(at, word), far),
        Other(at, word) => matches!(five.arm_operation(at, word).op, Op::Other),
        HalfMoves(at, half, value) => moves(four.thumb_operation(at, half), value, Al),
        HalfBranches(at, half, far) => branches(four.thumb_operation(at, half), far),
    }
}

#[test]
#[rattlefmt::skip]
fn each_word_is_decoded_whatever_was_kept(rt: HostRuntime) -> Result<(), AllocError> {
    let mut five = Decoder::<5>::new(rt.alloc())?;
    let mut four = Decoder::<4>::new(rt.alloc())?;
    let lines = [
        // two addresses whose words share a place, and one beside them: mov r0, #1; a branch to itself, 8 bytes before r15; and no instruction
        Moves(0x200_0000, 0xE3A0_0001, 1, Al), Branches(0x200_0000, 0xEAFF_FFFE, 0xFFFF_FFF8), Other(0x200_0000, 0xE7F0_00F0),
        Moves(0x201_0000, 0xE3A0_0001, 1, Al), Branches(0x201_0000, 0xEAFF_FFFE, 0xFFFF_FFF8), Other(0x201_0000, 0xE7F0_00F0),
        Moves(0x200_0004, 0xE3A0_0001, 1, Al), Branches(0x200_0004, 0xEAFF_FFFE, 0xFFFF_FFF8), Other(0x200_0004, 0xE7F0_00F0),
        Moves(0x200_0000, 0xE3A0_0001, 1, Al), Branches(0x200_0000, 0xEAFF_FFFE, 0xFFFF_FFF8), Other(0x200_0000, 0xE7F0_00F0),
        // what stays is what came last at the place, and it is asked for its word
        Moves(0x200_0000, 0xE3A0_0001, 1, Al), Moves(0x201_0000, 0xE3A0_0001, 1, Al),
        // words that differ in their condition alone, or in their value alone
        Moves(0x200_0000, 0x03A0_0001, 1, Eq), Moves(0x200_0000, 0x13A0_0001, 1, Ne), Moves(0x200_0000, 0xE3A0_0001, 1, Al),
        Moves(0x200_0000, 0xE3A0_0002, 2, Al), Moves(0x201_0000, 0x03A0_0002, 2, Eq), Moves(0x200_0000, 0xE3A0_0001, 1, Al),
        // two halves that share a place, and one beside them: mov r0, #1; and a branch to itself, 4 bytes before r15
        HalfMoves(0x300_0000, 0x2001, 1), HalfBranches(0x300_0000, 0xE7FE, 0xFFFF_FFFC),
        HalfMoves(0x301_0000, 0x2001, 1), HalfBranches(0x301_0000, 0xE7FE, 0xFFFF_FFFC),
        HalfMoves(0x300_0002, 0x2001, 1), HalfBranches(0x300_0002, 0xE7FE, 0xFFFF_FFFC),
        HalfMoves(0x300_0000, 0x2001, 1), HalfBranches(0x300_0000, 0xE7FE, 0xFFFF_FFFC),
        // bx and the halves of bl by their fields, and an address of r15 as it is, by both
        Exchanges(0x200_0000, 0xE12F_FF11, 1), HalfExchanges(0x300_0000, 0x4708, 1), Prefixes(0x300_0002, 0xF001, 1), Suffixes(0x300_0004, 0xF802, 2),
        PlainHalf(0x300_0006, 0xA001), PlainWord(0x200_0004, 0xE081_0392), PlainWord(0x200_0008, 0xE131_0002),
        // blx, bkpt, clz, qadd, smlabb, smulwb, ldrd, strd, mcr, blx to a target and pld are ARMv5's; none is an operation
        NoWord(0x200_0000, 0xE12F_FF31), NoWord(0x200_0000, 0xE120_0070), NoWord(0x200_0000, 0xE16F_0F11), NoWord(0x200_0000, 0xE101_0052),
        NoWord(0x200_0000, 0xE100_0281), NoWord(0x200_0000, 0xE120_02A1), NoWord(0x200_0000, 0xE1C1_00D0), NoWord(0x200_0000, 0xE1C1_00F0),
        NoWord(0x200_0000, 0xEE07_0F90), NoWord(0x200_0000, 0xFA00_0000), NoWord(0x200_0000, 0xF5D1_F000), NoWord(0x200_0000, 0xF3A0_0001),
        // blx of a register, bkpt, and the second half of blx
        NoHalf(0x300_0000, 0x4788), NoHalf(0x300_0000, 0xBE00), NoHalf(0x300_0000, 0xE802), NoHalf(0x300_0000, 0xDF03),
    ];
    for (number, &line) in lines.iter().enumerate() {
        let right = is_right(&mut five, &mut four, line);
        assert!(rt; right, "line {number}");
    }
    Ok(())
}
