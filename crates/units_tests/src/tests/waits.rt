//! How long accesses wait at each place, for each processor and each width.

use Memory::{Dtcm, Itcm, Main, Oam, Own7, Palette, Shared, Vram};
use Proc::{Nine, Seven};
use Space::{ABg, Arm7, BObj, Lcdc};
use Width::{Byte, Half, Word};
use ds_base::{Memory, Proc, Space, Width};
use ds_places::{Place, wait};
use std::process::Abort;

/// A line of the table: a place, and the waits of a byte, a half and a word there, of ARM9 and of ARM7.
type Line = (Place, [u32; 3], [u32; 3]);

fn cell(memory: Memory) -> Place {
    Place::Cell { memory, at: 5 }
}

fn banks(space: Space) -> Place {
    Place::Banks { space, at: 0x1234 }
}

fn waits(proc: Proc, place: Place) -> [u32; 3] {
    [
        wait(proc, place, Byte),
        wait(proc, place, Half),
        wait(proc, place, Word),
    ]
}

fn try_line(rt: &impl Abort, number: usize, line: Line) {
    let (place, nine, seven) = line;
    assert!(rt; waits(Nine, place) == nine, "line {number}, ARM9");
    assert!(rt; waits(Seven, place) == seven, "line {number}, ARM7");
}

#[test]
fn each_region_has_its_waits(rt: HostRuntime) {
    let lines: [Line; 15] = [
        (cell(Main), [4, 4, 4], [8, 8, 8]),
        (cell(Shared), [2, 2, 2], [0, 0, 0]),
        (cell(Own7), [0, 0, 0], [0, 0, 0]),
        (cell(Itcm), [0, 0, 0], [0, 0, 0]),
        (cell(Dtcm), [0, 0, 0], [0, 0, 0]),
        (cell(Palette), [2, 2, 4], [2, 2, 4]),
        (cell(Vram), [2, 2, 4], [2, 2, 4]),
        (cell(Oam), [2, 2, 4], [2, 2, 4]),
        (banks(ABg), [2, 2, 4], [2, 2, 4]),
        (banks(BObj), [2, 2, 4], [2, 2, 4]),
        (banks(Lcdc), [2, 2, 4], [2, 2, 4]),
        (banks(Arm7), [2, 2, 4], [2, 2, 4]),
        (Place::Port(0x130), [2, 2, 2], [0, 0, 0]),
        (Place::Rom(0x18), [0, 0, 0], [0, 0, 0]),
        (Place::Nothing, [0, 0, 0], [0, 0, 0]),
    ];
    for (number, line) in lines.iter().enumerate() {
        try_line(&rt, number, *line);
    }
}
