//! Commands worked by hand from GBATEK's formulas. A table is a list of lines: what is done, and what is seen then.

use rig::Rig;
use std::alloc::{AllocError, Global};
use std::process::Abort;

mod clips;
mod commands;
mod fifo;
mod lights;
mod lists;
mod matrices;
mod ports;
mod rig;
mod saved;
mod saved_fifo;
mod stacks;
mod swaps;
mod vertices;

/// A matrix that is seen.
#[derive(Clone, Copy)]
enum Which {
    Clip,
    Vector,
    Texture,
}

/// Which side of a triangle is seen.
#[derive(Clone, Copy)]
enum Seen {
    Front,
    Back,
    /// None: it is seen edge on.
    Edge,
}

/// One line of a table. A command is named by its code.
#[derive(Clone, Copy)]
enum Line {
    /// A new engine.
    New,
    /// A command with no, one, two or three parameters.
    Run(u8),
    Give(u8, u32),
    Pair(u8, u32, u32),
    Triple(u8, u32, u32, u32),
    /// A command with three signed numbers of ten bits in one parameter.
    Tens(u8, i16, i16, i16),
    /// VTX_16 and POS_TEST, with three signed halves.
    Vtx16(i16, i16, i16),
    PosTest(i16, i16, i16),
    /// Four or three more parameters of the next command, and this command with all of them.
    Four(u32, u32, u32, u32),
    Three(u32, u32, u32),
    Many(u8),
    /// So many times a command with a parameter.
    Repeat(u32, u8, u32),
    Swap(u64),
    ClearError,
    ClearOverflow,
    /// A command that has no row in the list, and one with its parameters and clocks.
    NoCommand(u8),
    Command(u8, u8, u16),
    /// A row of a matrix; a matrix with this number on its diagonal, and 0 elsewhere.
    Cells(Which, usize, i32, i32, i32, i32),
    Diagonal(Which, i32),
    /// The levels, and the stacks' error.
    Levels(u32, bool),
    /// A command with a parameter, the level and the error then, and the number on the clip matrix's diagonal; the error is cleared.
    Stack(u8, u32, u32, bool, i32),
    /// How many vertices and polygons are in the open lists, and the overflow.
    Open(u16, u16, bool),
    /// The tick and the parameter of the last swap; how many vertices and polygons its lists have.
    Swapped(u64, u32),
    Lists(usize, usize),
    /// A polygon of these: how many corners it has, and which; its attributes, texture parameter, palette's base and viewport.
    Corners(usize, u8, u16, u16, u16, u16),
    Polygon(usize, u32, u32, u32, u32),
    /// All of the last vertex of the last swap: x, y, z, w, colour and texture coordinates.
    Ends(i32, i32, i32, i32, u16, i16, i16),
    /// A swap, and of its last vertex x, y, z and w; the colour; the texture coordinates.
    Last(i32, i32, i32, i32),
    Coloured(u16),
    Textured(i16, i16),
    /// The results of the position and the vector test; a box test, of x, y and z and of width, height and depth, and whether it is seen.
    Position(i32, i32, i32, i32),
    Vector(i16, i16, i16),
    Box([i16; 3], [i16; 3], bool),
    Inside(bool),
    /// A triangle in a new engine by attributes, and the side that is seen: how many polygons it makes.
    Side(u32, Seen, usize),
    /// Vertices before and after a swap, by the run's kind: how many polygons they make after it.
    Across(u32, u32, u32, usize),
    /// The light of number 0 on a normal in a new engine: POLYGON_ATTR, its vector and colour, DIF_AMB, SPE_EMI, the normal, and the colour then.
    Lit(u32, [i16; 3], u32, u32, u32, [i16; 3], u16),
    /// Texture coordinates 10, -20 in a new engine by the transform's mode, the normal and the vertex's x, and the coordinates then.
    Mapped(u32, u32, u32, i16, i16),
}

/// Goes through a table's lines from boot on.
fn try_lines(
    rt: &impl Abort,
    alloc: Global,
    table: &str,
    lines: &[Line],
) -> Result<(), AllocError> {
    let mut rig = Rig::new(alloc)?;
    for (number, line) in lines.iter().enumerate() {
        let (got, wanted) = rig.seen(alloc, *line)?;
        assert!(rt; got == wanted, "{table}, line {number}: {got}");
    }
    Ok(())
}
