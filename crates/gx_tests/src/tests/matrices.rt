//! Matrices and products.

use super::commands::{
    MTX_IDENTITY, MTX_LOAD_4X3, MTX_LOAD_4X4, MTX_MODE, MTX_MULT_3X3, MTX_MULT_4X3, MTX_MULT_4X4,
    MTX_POP, MTX_PUSH, MTX_RESTORE, MTX_SCALE, MTX_STORE, MTX_TRANS,
};
use super::{Line, Which, try_lines};
use Line::{Cells, Diagonal, Four, Give, Levels, Many, Run, Three, Triple};
use Which::{Clip, Texture, Vector};
use std::alloc::AllocError;

#[rattlefmt::skip]
const EACH_COMMAND_HAS_ITS_MATRIX_AND_MULTIPLIES_FROM_THE_LEFT: [Line; 46] = [
    // Cells(matrix, row, its four cells)
    Give(MTX_MODE, 1), Four(1, 2, 3, 4), Four(5, 6, 7, 8), Four(9, 10, 11, 12), Four(13, 14, 15, 16), Many(MTX_MULT_4X4),
    Cells(Clip, 0, 1, 2, 3, 4), Cells(Clip, 1, 5, 6, 7, 8), Cells(Clip, 2, 9, 10, 11, 12), Cells(Clip, 3, 13, 14, 15, 16),
    Run(MTX_IDENTITY), Diagonal(Clip, 0x1000),
    Four(1, 2, 3, 4), Four(5, 6, 7, 8), Four(9, 10, 11, 12), Four(13, 14, 15, 16), Many(MTX_LOAD_4X4), Cells(Clip, 0, 1, 2, 3, 4),
    Cells(Clip, 1, 5, 6, 7, 8), Cells(Clip, 2, 9, 10, 11, 12), Cells(Clip, 3, 13, 14, 15, 16),
    Four(1, 2, 3, 4), Four(5, 6, 7, 8), Four(9, 10, 11, 12), Many(MTX_LOAD_4X3), Cells(Clip, 0, 1, 2, 3, 0),
    Cells(Clip, 1, 4, 5, 6, 0), Cells(Clip, 2, 7, 8, 9, 0), Cells(Clip, 3, 10, 11, 12, 0x1000),
    Three(0x2000, 0, 0), Three(0, 0x2000, 0), Three(0, 0, 0x2000), Many(MTX_MULT_3X3), Cells(Clip, 0, 2, 4, 6, 0),
    Cells(Clip, 1, 8, 10, 12, 0), Cells(Clip, 2, 14, 16, 18, 0), Cells(Clip, 3, 10, 11, 12, 0x1000),
    Three(0x1000, 0, 0), Three(0, 0x1000, 0), Three(0, 0, 0x1000), Three(0x1000, 0, 0x3000), Many(MTX_MULT_4X3),
    Cells(Clip, 0, 2, 4, 6, 0), Cells(Clip, 1, 8, 10, 12, 0), Cells(Clip, 2, 14, 16, 18, 0), Cells(Clip, 3, 54, 63, 72, 0x1000),
];

#[rattlefmt::skip]
const A_SCALED_MATRIX_IS_MOVED_BY_ITS_OWN_UNITS: [Line; 19] = [
    // Cells(matrix, row, its four cells)
    Give(MTX_MODE, 1), Run(MTX_IDENTITY), Triple(MTX_SCALE, 0x2000, 0x1000, 0x1000), Triple(MTX_TRANS, 0x1000, 0, 0),
    Cells(Clip, 0, 0x2000, 0, 0, 0), Cells(Clip, 1, 0, 0x1000, 0, 0), Cells(Clip, 2, 0, 0, 0x1000, 0),
    Cells(Clip, 3, 0x2000, 0, 0, 0x1000),
    Give(MTX_MODE, 0), Four(1, 2, 3, 4), Four(5, 6, 7, 8), Four(9, 10, 11, 12), Many(MTX_LOAD_4X3), Cells(Clip, 0, 2, 4, 6, 0),
    Cells(Clip, 1, 4, 5, 6, 0), Cells(Clip, 2, 7, 8, 9, 0), Cells(Clip, 3, 12, 15, 18, 0x1000), Diagonal(Vector, 0x1000),
    Diagonal(Texture, 0x1000),
];

#[rattlefmt::skip]
const BOTH_MATRICES_GO_TOGETHER_BUT_FOR_SCALING: [Line; 57] = [
    // Cells(matrix, row, its four cells)   Levels(as in GXSTAT, error)
    Give(MTX_MODE, 2), Four(1, 2, 3, 4), Four(5, 6, 7, 8), Four(9, 10, 11, 12), Many(MTX_LOAD_4X3),
    Triple(MTX_SCALE, 0x2000, 0x3000, 0xFFFF_F000), Cells(Clip, 0, 2, 4, 6, 0), Cells(Clip, 1, 12, 15, 18, 0),
    Cells(Clip, 2, -7, -8, -9, 0), Cells(Clip, 3, 10, 11, 12, 0x1000), Cells(Vector, 0, 1, 2, 3, 0), Cells(Vector, 1, 4, 5, 6, 0),
    Cells(Vector, 2, 7, 8, 9, 0), Cells(Vector, 3, 10, 11, 12, 0x1000),
    Triple(MTX_TRANS, 0x1000, 0, 0x1000), Cells(Clip, 0, 2, 4, 6, 0), Cells(Clip, 1, 12, 15, 18, 0), Cells(Clip, 2, -7, -8, -9, 0),
    Cells(Clip, 3, 5, 7, 9, 0x1000), Cells(Vector, 0, 1, 2, 3, 0), Cells(Vector, 1, 4, 5, 6, 0), Cells(Vector, 2, 7, 8, 9, 0),
    Cells(Vector, 3, 18, 21, 24, 0x1000),
    // stored at place 30, and pushed in mode 1: both matrices, either time
    Give(MTX_STORE, 30), Give(MTX_MODE, 1), Run(MTX_PUSH), Run(MTX_IDENTITY), Diagonal(Clip, 0x1000), Cells(Vector, 0, 1, 2, 3, 0),
    Cells(Vector, 1, 4, 5, 6, 0), Cells(Vector, 2, 7, 8, 9, 0), Cells(Vector, 3, 18, 21, 24, 0x1000),
    Give(MTX_MODE, 2), Run(MTX_IDENTITY), Diagonal(Vector, 0x1000),
    Give(MTX_MODE, 1), Give(MTX_POP, 1), Cells(Clip, 0, 2, 4, 6, 0), Cells(Clip, 1, 12, 15, 18, 0), Cells(Clip, 2, -7, -8, -9, 0),
    Cells(Clip, 3, 5, 7, 9, 0x1000), Cells(Vector, 0, 1, 2, 3, 0), Cells(Vector, 1, 4, 5, 6, 0), Cells(Vector, 2, 7, 8, 9, 0),
    Cells(Vector, 3, 18, 21, 24, 0x1000),
    Give(MTX_MODE, 2), Run(MTX_IDENTITY), Give(MTX_RESTORE, 0x3E), Cells(Clip, 0, 2, 4, 6, 0), Cells(Clip, 1, 12, 15, 18, 0),
    Cells(Clip, 2, -7, -8, -9, 0), Cells(Clip, 3, 5, 7, 9, 0x1000), Cells(Vector, 0, 1, 2, 3, 0), Cells(Vector, 1, 4, 5, 6, 0),
    Cells(Vector, 2, 7, 8, 9, 0), Cells(Vector, 3, 18, 21, 24, 0x1000), Levels(0, false),
];

#[rattlefmt::skip]
const THE_TEXTURE_MATRIX_IS_MULTIPLIED_ALONE: [Line; 35] = [
    // Cells(matrix, row, its four cells)
    Give(MTX_MODE, 3), Four(1, 2, 3, 4), Four(5, 6, 7, 8), Four(9, 10, 11, 12), Four(13, 14, 15, 16), Many(MTX_MULT_4X4),
    Cells(Texture, 0, 1, 2, 3, 4), Cells(Texture, 3, 13, 14, 15, 16),
    // 4 by 3: the first row twice, and the third added to the last
    Three(0x2000, 0, 0), Three(0, 0x1000, 0), Three(0, 0, 0x1000), Three(0, 0, 0x1000), Many(MTX_MULT_4X3),
    Cells(Texture, 0, 2, 4, 6, 8), Cells(Texture, 3, 22, 24, 26, 28),
    // 3 by 3: the first two rows are exchanged
    Three(0, 0x1000, 0), Three(0x1000, 0, 0), Three(0, 0, 0x1000), Many(MTX_MULT_3X3), Cells(Texture, 0, 5, 6, 7, 8),
    Cells(Texture, 1, 2, 4, 6, 8),
    // a scale by 3, 1 and -1
    Triple(MTX_SCALE, 0x3000, 0x1000, 0xFFFF_F000), Cells(Texture, 0, 15, 18, 21, 24), Cells(Texture, 1, 2, 4, 6, 8),
    Cells(Texture, 2, -9, -10, -11, -12), Cells(Texture, 3, 22, 24, 26, 28),
    // a move by the first row and the third
    Triple(MTX_TRANS, 0x1000, 0, 0x1000), Cells(Texture, 3, 28, 32, 36, 40), Cells(Texture, 0, 15, 18, 21, 24),
    // the others stay the identity
    Diagonal(Clip, 0x1000), Diagonal(Vector, 0x1000),
    // and a scale in mode 0 or 1 leaves the texture and the vector matrix
    Give(MTX_MODE, 1), Triple(MTX_SCALE, 0x3000, 0x3000, 0x3000), Diagonal(Vector, 0x1000), Cells(Texture, 3, 28, 32, 36, 40),
];

#[test]
fn each_table_holds(rt: HostRuntime) -> Result<(), AllocError> {
    let tables: [(&str, &[Line]); 4] = [
        (
            "each command has its matrix and multiplies from the left",
            &EACH_COMMAND_HAS_ITS_MATRIX_AND_MULTIPLIES_FROM_THE_LEFT,
        ),
        (
            "a scaled matrix is moved by its own units",
            &A_SCALED_MATRIX_IS_MOVED_BY_ITS_OWN_UNITS,
        ),
        (
            "the texture matrix is multiplied alone",
            &THE_TEXTURE_MATRIX_IS_MULTIPLIED_ALONE,
        ),
        (
            "both matrices go together but for scaling",
            &BOTH_MATRICES_GO_TOGETHER_BUT_FOR_SCALING,
        ),
    ];
    for (table, lines) in tables {
        try_lines(&rt, rt.alloc(), table, lines)?;
    }
    Ok(())
}
