//! Rows worked by hand from GBATEK's tables and formulas. A table is a list of lines: what is written, and what is seen then.

use ds_base::{Space, Width};
use stage::Stage;
use std::alloc::{AllocError, Global};
use std::process::Abort;

mod affines;
mod banks;
mod effects;
mod extended;
mod fields;
mod lanes;
mod layers;
mod saved;
mod stage;
mod texts;

/// One line of a table.
#[derive(Clone, Copy)]
enum Line {
    /// A bank's control.
    Control(u8, u8),
    /// A write to a space, and what a read of it gives.
    Write(Space, u32, Width, u32),
    Reads(Space, u32, Width, u32),
    /// So many words of a space from an address on are written.
    Fill(Space, u32, u32, u32),
    /// Each byte from 64 to 255 after an address is written with its number.
    Count(Space, u32),
    /// Engine A's objects in bank E. Of the first 8K, the pixel at (x, y) of the 32 bytes at 32u has the index (x + 8 y + u) mod 15 + 1,
    /// as 16 colours. In the next 8K byte k has the value k mod 255 + 1.
    Pattern,
    /// So many bytes of a row from an address on; those after them stay EEh.
    Row(Space, u32, usize, u8, u8, u8, u8, u8, u8),
    /// A byte of all banks, where they stand one after another.
    Cell(u32, u8),
    /// How many bytes there are of all banks.
    Cells(usize),
    /// A bank with a control stands at an address of a space, with so many bytes from its first on, and nothing else stands there.
    Stands(u8, u8, Space, u32, u32),
    /// A bank with a control is seen in no space.
    Nowhere(u8, u8),
    /// A bank with a control, where an address past a space's size is one inside.
    Around(u8, u8, Space, u32),
    /// The controls of C and D, what is allotted to ARM7, and its first byte of each half.
    Arm7(u8, u8, u8, u32, u32),
    /// A text background of engine A by its size and scrolls: line, place, pixel.
    Scrolled(u16, u16, u16, u8, usize, u16),
    /// The first map entry, by a control: line, place, pixel.
    Entry(u32, u16, u8, usize, u16),
    /// A text background by engine, number, DISPCNT and control: the pixel at a place of line 0.
    Text(u8, u8, u32, u16, usize, u16),
    /// Engine A's affine background by control, first point and steps: the pixel at a place.
    Point(u16, i32, i32, i16, i16, usize, u16),
    /// An affine background by engine, DISPCNT and control, whose first point is this one both ways: the pixel at a place.
    Affine(u8, u32, u16, u16, usize, u16),
    /// An extended background by engine, number, DISPCNT and control, first point and steps: the pixel at a place.
    Extended(u8, u8, u32, u16, i32, i32, i16, i16, usize, u16),
    /// A bank that is shown as it lies, by DISPCNT: line, place, pixel.
    Bank(u32, u8, usize, u16),
    /// One object by its number and attributes, and by DISPCNT and engine: the colour at a line and place.
    Object(usize, u16, u16, u16, u32, u8, u8, usize, u16),
    /// An affine object by attribute 0, attribute 2 and the four numbers of its group, and DISPCNT: the colour at a line and place.
    Turned(u16, u16, u16, u16, u16, u16, u32, u8, usize, u16),
    /// Objects 3 and 9 by mode and attribute 2: colour, priority, blended and window at the top left.
    Pair(u16, u16, u16, u16, u16, u8, bool, bool),
    /// The width and height of a shape and size.
    Boxed(u16, u16, u16, u16),
    /// One object by attributes 0 and 1, and DISPCNT: whether it covers a line.
    Covers(u16, u16, u32, u8, bool),
}

/// Goes through lines from the start, where no bank is mapped and all memory is 0.
fn try_lines(rt: &impl Abort, alloc: Global, lines: &[Line]) -> Result<(), AllocError> {
    let mut stage = Stage::new(alloc)?;
    for (number, line) in lines.iter().enumerate() {
        let (got, wanted) = stage.seen(*line);
        assert!(rt; got == wanted, "line {number}: {got}");
    }
    Ok(())
}
