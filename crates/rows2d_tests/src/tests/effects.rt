//! The kernels, worked by hand from GBATEK's formulas.

use super::lanes::Lane;
use Lane::{Blended, Brightened, Cell, Darkened, Each, Long, Mastered, Nibbles, Through};
use std::process::Abort;

fn try_lanes(rt: &impl Abort, lanes: &[Lane]) {
    for (number, lane) in lanes.iter().enumerate() {
        assert!(rt; lane.wrong() == 0, "line {number}");
    }
}

#[test]
fn brightens_every_place_at_every_length(rt: HostRuntime) {
    try_lanes(
        &rt,
        &[
            Long(0),
            Long(1),
            Long(7),
            Long(8),
            Long(9),
            Long(255),
            Long(256),
        ],
    );
}

// The lengths go around each block of eight lanes.
#[test]
fn every_kernel_reaches_every_place_at_every_length(rt: HostRuntime) {
    try_lanes(
        &rt,
        &[
            Each(0),
            Each(1),
            Each(2),
            Each(3),
            Each(4),
            Each(5),
            Each(6),
            Each(7),
            Each(8),
            Each(9),
            Each(10),
            Each(11),
            Each(12),
            Each(13),
            Each(14),
            Each(15),
            Each(16),
            Each(17),
            Each(18),
            Each(19),
            Each(20),
            Each(21),
            Each(22),
            Each(23),
            Each(24),
            Each(25),
            Each(26),
            Each(27),
            Each(28),
            Each(29),
            Each(30),
            Each(31),
        ],
    );
}

#[test]
fn brightens_by_hand(rt: HostRuntime) {
    try_lanes(
        &rt,
        &[
            Brightened(0x1234, 0, 0x1234),
            Brightened(0x0010, 8, 0x3DF7),
            Brightened(0x0000, 15, 0x77BD),
            // 31 / 16 is 1
            Brightened(0x0000, 1, 0x0421),
            Brightened(0x7FFF, 1, 0x7FFF),
            Brightened(0x8000, 16, 0xFFFF),
            Brightened(0x0421, 31, 0x7FFF),
            Brightened(0x8421, 255, 0xFFFF),
        ],
    );
}

#[test]
fn darkens_by_hand(rt: HostRuntime) {
    try_lanes(
        &rt,
        &[
            Darkened(0xABCD, 0, 0xABCD),
            Darkened(0x7FFF, 8, 0x4210),
            Darkened(0x7FFF, 1, 0x7BDE),
            Darkened(0x0010, 7, 0x0009),
            Darkened(0xFFFF, 16, 0x8000),
            Darkened(0x1234, 17, 0x0000),
            Darkened(0x9234, 255, 0x8000),
        ],
    );
}

#[test]
fn blends_by_hand(rt: HostRuntime) {
    try_lanes(
        &rt,
        &[
            Blended(0x0014, 0x0014, 31, 31, 0x001F),
            Blended(0x0003, 0x0004, 31, 31, 0x0007),
            Blended(0x8014, 0x0014, 31, 31, 0x801F),
            Blended(0x0003, 0x8004, 16, 17, 0x0007),
            Blended(0x7FFF, 0x0000, 8, 8, 0x3DEF),
            Blended(0x1234, 0x7FFF, 16, 0, 0x1234),
            Blended(0x8000, 0x1234, 0, 255, 0x9234),
            Blended(0x001F, 0x7C00, 4, 12, 0x5C07),
            Blended(0x0003, 0x0005, 5, 5, 0x0002),
            // 15 / 16 is 0
            Blended(0x000F, 0x7FFF, 1, 0, 0x0000),
        ],
    );
}

#[test]
fn masters_by_hand(rt: HostRuntime) {
    try_lanes(
        &rt,
        &[
            Mastered(0x0008, 0x1234, 0x1234),
            Mastered(0x3FFF, 0x1234, 0x1234),
            Mastered(0x4001, 0x0000, 0x0421),
            Mastered(0x8001, 0x7FFF, 0x7BDE),
            Mastered(0xC001, 0x1234, 0x1234),
            Mastered(0x4008, 0x0010, 0x3DF7),
            Mastered(0x8008, 0x7FFF, 0x4210),
            Mastered(0xC008, 0x1234, 0x1234),
            Mastered(0x401F, 0x0000, 0x7FFF),
            Mastered(0x801F, 0xFFFF, 0x8000),
            Mastered(0x7FE8, 0x0010, 0x3DF7),
            Mastered(0xBFE8, 0x7FFF, 0x4210),
        ],
    );
}

#[test]
fn unpacks_low_nibbles_first_at_every_length(rt: HostRuntime) {
    try_lanes(
        &rt,
        &[
            Nibbles(0),
            Nibbles(1),
            Nibbles(15),
            Nibbles(16),
            Nibbles(17),
            Nibbles(40),
        ],
    );
}

#[test]
fn rows_times_columns_by_hand(rt: HostRuntime) {
    try_lanes(
        &rt,
        &[
            Cell(1, 1, 0, 0, 2048, 2048, 0, 0, 1),
            Cell(1, 0, 0, 0, 4095, 0, 0, 0, 0),
            // below 0 rounded down
            Cell(-1, 0, 0, 0, 1, 0, 0, 0, -1),
            Cell(-1, 0, 0, 0, 4096, 0, 0, 0, -1),
            Cell(-1, 0, 0, 0, 4097, 0, 0, 0, -2),
            // each place
            Cell(0x1000, 0, 0, 0, 5, 6, 7, 8, 5),
            Cell(0, 0x1000, 0, 0, 5, 6, 7, 8, 6),
            Cell(0, 0, 0x1000, 0, 5, 6, 7, 8, 7),
            Cell(0, 0, 0, 0x1000, 5, 6, 7, 8, 8),
            Cell(1, 2, 3, 4, 0x1000, 0x2000, 0x3000, 0x4000, 30),
            // a cell is a signed word, so sums wrap at 2^43 and every 2^44 on
            Cell(0x7FFF_FFFF, 0, 0, 0, 0x2000, 0, 0, 0, -2),
            Cell(0x4000_0000, 0, 0, 0, 0x2000, 0, 0, 0, -0x8000_0000),
            Cell(-0x8000_0000, 1, 0, 0, -0x1000, -1, 0, 0, 0x7FFF_FFFF),
            Cell(-0x8000_0000, 0, 0, 0, 0x1000, 0, 0, 0, -0x8000_0000),
            Cell(-0x8000_0000, -1, 0, 0, 0x1000, 1, 0, 0, 0x7FFF_FFFF),
            Cell(-0x8000_0000, -0x8000_0000, 0, 0, -0x1000, -0x1000, 0, 0, 0),
            Cell(
                -0x8000_0000,
                -0x8000_0000,
                0x1000,
                0,
                -0x1000,
                -0x1000,
                1,
                0,
                1,
            ),
            // sums of more than 63 and of 64 bits
            Cell(
                -0x8000_0000,
                -0x8000_0000,
                20480,
                0,
                -0x8000_0000,
                -0x8000_0000,
                1,
                0,
                5,
            ),
            Cell(
                -0x8000_0000,
                -0x8000_0000,
                -0x8000_0000,
                -0x8000_0000,
                -0x8000_0000,
                -0x8000_0000,
                -0x8000_0000,
                0x7FFF_FFFF,
                0x8_0000,
            ),
            Cell(
                -0x8000_0000,
                -0x8000_0000,
                -0x8000_0000,
                -0x8000_0000,
                -0x8000_0000,
                -0x8000_0000,
                -0x8000_0000,
                -0x8000_0000,
                0,
            ),
            Through(1, 0, 0, 0, 1, 2, 3, 4),
            Through(0, 1, 0, 0, 5, 6, 7, 8),
            Through(0, 0, 1, 0, 9, 10, 11, 12),
            Through(0, 0, 0, 1, 13, 14, 15, 16),
            Through(-1, 0, 0, 0, -1, -2, -3, -4),
            Through(1, 10, 100, 1000, 13951, 15062, 16173, 17284),
        ],
    );
}
