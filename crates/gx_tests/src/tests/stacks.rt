//! The stacks of matrices.

use super::commands::{
    MTX_IDENTITY, MTX_LOAD_4X3, MTX_MODE, MTX_POP, MTX_PUSH, MTX_RESTORE, MTX_STORE,
};
use super::{Line, Which, try_lines};
use Line::{Cells, ClearError, Diagonal, Four, Give, Levels, Many, New, Run, Stack};
use Which::{Clip, Texture, Vector};
use std::alloc::AllocError;

// What was never stored is 0, so the clip matrix is then.
#[rattlefmt::skip]
const THE_STACK_OF_POSES_HAS_31_PLACES: [Line; 20] = [
    // Stack(command, parameter, level, error, diagonal)   Levels(as in GXSTAT, error)
    Give(MTX_MODE, 1),
    Stack(MTX_POP,     1,    0,  true,  0x1000),
    Stack(MTX_POP,     0x3F, 1,  false, 0),
    Stack(MTX_POP,     0x3F, 2,  false, 0),
    Stack(MTX_POP,     0xC2, 0,  false, 0),
    Stack(MTX_POP,     0x21, 0,  true,  0),
    Stack(MTX_POP,     0x22, 30, false, 0),
    Stack(MTX_POP,     0x1F, 30, true,  0),
    Stack(MTX_STORE,   30,   30, false, 0),
    Stack(MTX_STORE,   31,   30, true,  0),
    Stack(MTX_RESTORE, 31,   30, true,  0),
    Stack(MTX_RESTORE, 30,   30, false, 0),
    Run(MTX_PUSH), Levels(0x1F00, false),
    Run(MTX_PUSH), Levels(0x1F00, true),
    Give(MTX_POP, 0), Levels(0x1F00, true),
    Give(MTX_POP, 31), Levels(0, true),
];

#[rattlefmt::skip]
const POPS_PAST_EITHER_END_DO_NOTHING_BUT_SET_THE_ERROR: [Line; 14] = [
    // Stack(command, parameter, level, error, diagonal)
    Give(MTX_MODE, 1),
    // past the lower end: places -1, -2 and 32 from level 0
    Stack(MTX_POP,  1,    0,  true,  0x1000),
    Stack(MTX_POP,  2,    0,  true,  0x1000),
    Stack(MTX_POP,  0x20, 0,  true,  0x1000),
    // up to level 30 and 31, where the last push stores at place 30
    Stack(MTX_POP,  0x22, 30, false, 0),
    Run(MTX_IDENTITY),
    Stack(MTX_PUSH, 0,    31, false, 0x1000),
    // past the upper end: places 31, 32 and 63, and no push
    Stack(MTX_POP,  0,    31, true,  0x1000),
    Stack(MTX_POP,  0x3F, 31, true,  0x1000),
    Stack(MTX_POP,  0x20, 31, true,  0x1000),
    Stack(MTX_PUSH, 0,    31, true,  0x1000),
    // the last place and the first
    Stack(MTX_POP,  1,    30, false, 0x1000),
    Stack(MTX_POP,  30,   0,  false, 0),
    Stack(MTX_POP,  1,    0,  true,  0),
];

#[rattlefmt::skip]
const WHAT_WAS_NEVER_STORED_IS_0: [Line; 37] = [
    // Levels(as in GXSTAT, error)
    // the four current matrices are the identity
    Diagonal(Clip, 0x1000), Diagonal(Vector, 0x1000), Diagonal(Texture, 0x1000), Levels(0, false),
    // and what is stored is 0: poses
    Give(MTX_MODE, 1), Give(MTX_RESTORE, 0), Diagonal(Clip, 0), Diagonal(Vector, 0), Levels(0, false),
    New, Give(MTX_MODE, 2), Give(MTX_RESTORE, 30), Diagonal(Clip, 0), Diagonal(Vector, 0),
    New, Give(MTX_MODE, 1), Give(MTX_POP, 0x3F), Diagonal(Clip, 0), Diagonal(Vector, 0), Levels(0x0100, false),
    // the projection
    New, Give(MTX_RESTORE, 0), Diagonal(Clip, 0), Diagonal(Vector, 0x1000), Levels(0, false),
    // the texture matrix
    New, Give(MTX_MODE, 3), Give(MTX_RESTORE, 7), Diagonal(Texture, 0), Diagonal(Clip, 0x1000),
    // until something is stored there
    New, Give(MTX_MODE, 1), Give(MTX_STORE, 0), Give(MTX_RESTORE, 1), Diagonal(Clip, 0),
    Give(MTX_RESTORE, 0), Diagonal(Clip, 0x1000),
];

#[rattlefmt::skip]
const PROJECTION_AND_TEXTURE_HAVE_ONE_PLACE_EACH: [Line; 72] = [
    // Levels(as in GXSTAT, error)   Cells(matrix, row, its four cells)
    New, Give(MTX_MODE, 0), Give(MTX_POP, 0x12), Levels(0, true),
    ClearError, Run(MTX_PUSH), Levels(0x2000, false),
    Give(MTX_POP, 0x12), Levels(0, false),
    Give(MTX_POP, 0x12), Levels(0, true),
    ClearError, Run(MTX_PUSH), Levels(0x2000, false),
    Run(MTX_PUSH), Levels(0x2000, true),
    ClearError, Four(1, 2, 3, 4), Four(5, 6, 7, 8), Four(9, 10, 11, 12), Many(MTX_LOAD_4X3), Give(MTX_STORE, 31), Run(MTX_IDENTITY),
    Diagonal(Texture, 0x1000), Diagonal(Clip, 0x1000),
    Give(MTX_RESTORE, 31), Run(MTX_PUSH), Cells(Clip, 0, 1, 2, 3, 0), Cells(Clip, 1, 4, 5, 6, 0), Cells(Clip, 2, 7, 8, 9, 0),
    Cells(Clip, 3, 10, 11, 12, 0x1000), Levels(0x2000, false),
    ClearError, Levels(0, false),
    Give(MTX_POP, 1), Levels(0, true),
    New, Give(MTX_MODE, 3), Give(MTX_POP, 0x12), Levels(0, true),
    ClearError, Run(MTX_PUSH), Levels(0, false),
    Give(MTX_POP, 0x12), Levels(0, false),
    Give(MTX_POP, 0x12), Levels(0, true),
    ClearError, Run(MTX_PUSH), Levels(0, false),
    Run(MTX_PUSH), Levels(0, true),
    ClearError, Four(1, 2, 3, 4), Four(5, 6, 7, 8), Four(9, 10, 11, 12), Many(MTX_LOAD_4X3), Give(MTX_STORE, 31), Run(MTX_IDENTITY),
    Diagonal(Texture, 0x1000), Diagonal(Clip, 0x1000),
    Give(MTX_RESTORE, 31), Run(MTX_PUSH), Cells(Texture, 0, 1, 2, 3, 0), Cells(Texture, 1, 4, 5, 6, 0),
    Cells(Texture, 2, 7, 8, 9, 0), Cells(Texture, 3, 10, 11, 12, 0x1000), Levels(0, false),
    ClearError, Levels(0, false),
    Give(MTX_POP, 1), Levels(0, true),
];

#[test]
fn each_table_holds(rt: HostRuntime) -> Result<(), AllocError> {
    let tables: [(&str, &[Line]); 4] = [
        (
            "the stack of poses has 31 places",
            &THE_STACK_OF_POSES_HAS_31_PLACES,
        ),
        (
            "pops past either end do nothing but set the error",
            &POPS_PAST_EITHER_END_DO_NOTHING_BUT_SET_THE_ERROR,
        ),
        ("what was never stored is 0", &WHAT_WAS_NEVER_STORED_IS_0),
        (
            "projection and texture have one place each",
            &PROJECTION_AND_TEXTURE_HAVE_ONE_PLACE_EACH,
        ),
    ];
    for (table, lines) in tables {
        try_lines(&rt, rt.alloc(), table, lines)?;
    }
    Ok(())
}
