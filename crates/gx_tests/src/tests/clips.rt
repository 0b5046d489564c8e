//! A clip matrix other than the identity, on vertices, polygons and tests; what is floored and wrapped.

use super::commands::{
    BEGIN_VTXS, MTX_IDENTITY, MTX_LOAD_4X4, MTX_MODE, MTX_MULT_3X3, MTX_SCALE, MTX_TRANS,
    POLYGON_ATTR, VEC_TEST,
};
use super::{Line, Which, try_lines};
use Line::{
    Box, Cells, Diagonal, Four, Give, Last, Lists, Many, New, PosTest, Position, Run, Swap, Tens,
    Three, Triple, Vector, Vtx16,
};
use Which::{Clip, Texture};
use std::alloc::AllocError;

// The projection keeps x, y and z, and its w is z: its rows are (1, 0, 0, 0), (0, 1, 0, 0), (0, 0, 1, 1) and zeros.
#[rattlefmt::skip]
const VERTICES_AND_TESTS_GO_BY_POSITION_TIMES_PROJECTION: [Line; 37] = [
    // Cells(matrix, row, its four cells)   Vtx16(x, y, z)   Last(x, y, z, w)   Position(x, y, z, w)   Tens(command, x, y, z)
    // Box([x, y, z], [width, height, depth], seen)   Lists(vertices, polygons)
    Four(0x1000, 0, 0, 0), Four(0, 0x1000, 0, 0), Four(0, 0, 0x1000, 0x1000), Four(0, 0, 0, 0), Many(MTX_LOAD_4X4),
    // a move by (1, 0, 2) comes before the projection: the last row is (1, 0, 2, 1) times it
    Give(MTX_MODE, 1), Triple(MTX_TRANS, 0x1000, 0, 0x2000), Cells(Clip, 0, 0x1000, 0, 0, 0), Cells(Clip, 1, 0, 0x1000, 0, 0),
    Cells(Clip, 2, 0, 0, 0x1000, 0x1000), Cells(Clip, 3, 0x1000, 0, 0x2000, 0x2000),
    Vtx16(0, 0, 0), Last(0x1000, 0, 0x2000, 0x2000),
    PosTest(0, 0, 0), Position(0x1000, 0, 0x2000, 0x2000),
    // the vector test asks the vector matrix alone
    Tens(VEC_TEST, 511, 0, 0), Vector(4_088, 0, 0),
    // a point is a box: x is 1000h more than it was given, and w 2000h
    Box([0x1000, 0, 0],  [0, 0, 0],  true),
    Box([0x1001, 0, 0],  [0, 0, 0],  false),
    Box([0x1001, 0, 0],  [-1, 0, 0], true),
    Box([-0x3000, 0, 0], [0, 0, 0],  true),
    Box([-0x3001, 0, 0], [0, 0, 0],  false),
    // without the move x, y and w make the rows (0, 0, -1), (1, 0, 1) and (0, 1, 1), whose determinant is -1
    Run(MTX_IDENTITY), Give(POLYGON_ATTR, 0x40), Give(BEGIN_VTXS, 0), Vtx16(0, 0, -0x1000), Vtx16(0x1000, 0, 0x1000),
    Vtx16(0, 0x1000, 0x1000), Swap(1), Lists(3, 1),
    Give(POLYGON_ATTR, 0x80), Give(BEGIN_VTXS, 0), Vtx16(0, 0, -0x1000), Vtx16(0x1000, 0, 0x1000), Vtx16(0, 0x1000, 0x1000),
    Swap(2), Lists(3, 0),
];

#[rattlefmt::skip]
const A_BOX_MAY_TOUCH_EACH_PLANE: [Line; 31] = [
    // Box([x, y, z], [width, height, depth], seen)   Position(x, y, z, w)
    // of the identity, whose w is 1: each side of a box that lies past a plane and touches it
    Box([0x1000, 0, 0],        [0x1000, 0x1000, 0x1000], true),
    Box([-0x2000, 0, 0],       [0x1000, 0x1000, 0x1000], true),
    Box([0, 0x1000, 0],        [0x1000, 0x1000, 0x1000], true),
    Box([0, -0x2000, 0],       [0x1000, 0x1000, 0x1000], true),
    Box([0, 0, 0x1000],        [0x1000, 0x1000, 0x1000], true),
    Box([0, 0, -0x2000],       [0x1000, 0x1000, 0x1000], true),
    // points at the far and the near plane, and past them
    Box([0, 0, 0x1000],        [0, 0, 0],                true),
    Box([0, 0, 0x1001],        [0, 0, 0],                false),
    Box([0, 0, -0x1000],       [0, 0, 0],                true),
    Box([0, 0, -0x1001],       [0, 0, 0],                false),
    // width, height and depth are each their own: only one corner's side comes back to the plane
    Box([-0x1002, 0, 0],       [2, 0, 0],                true),
    Box([-0x1002, 0, 0],       [1, 2, 2],                false),
    Box([0, -0x1002, 0],       [0, 2, 0],                true),
    Box([0, -0x1002, 0],       [2, 1, 2],                false),
    Box([0, 0, -0x1002],       [0, 0, 2],                true),
    Box([0, 0, -0x1002],       [2, 2, 1],                false),
    // each corner of -2 to 2 in x and y is past a plane, and none of the planes has them all
    Box([-0x2000, -0x2000, 0], [0x4000, 0x4000, 0],      true),
    // w of -2^31 is below each coordinate but -2^31 itself, and -w, 2^31, is above all
    Four(0, 0, 0, 0), Four(0, 0, 0, 0), Four(0, 0, 0, 0), Four(0x8000_0000, 0x8000_0000, 0x8000_0000, 0x8000_0000),
    Many(MTX_LOAD_4X4),
    Box([0, 0, 0],             [0, 0, 0],                false),
    PosTest(0, 0, 0), Position(i32::MIN, i32::MIN, i32::MIN, i32::MIN),
    // w of -1 is below 0
    Four(0, 0, 0, 0), Four(0, 0, 0, 0), Four(0, 0, 0, 0), Four(0, 0, 0, 0xFFFF_F000), Many(MTX_LOAD_4X4),
    Box([0, 0, 0],             [0, 0, 0],                false),
];

#[rattlefmt::skip]
const SUMS_ARE_FLOORED_AND_WRAPPED: [Line; 70] = [
    // Cells(matrix, row, its four cells)   Vtx16(x, y, z)   Last(x, y, z, w)   Position(x, y, z, w)   Lists(vertices, polygons)
    // the clip matrix is floored before a vertex is multiplied by it: a cell of 1 times one of 800h is 0
    Four(0x800, 0, 0, 0), Four(0, 0x1000, 0, 0), Four(0, 0, 0x1000, 0), Four(0, 0, 0, 0x1000), Many(MTX_LOAD_4X4),
    Give(MTX_MODE, 1), Four(1, 0, 0, 0), Four(0, 0xFFFF_FFFF, 0, 0), Four(0, 0, 0x1000, 0), Four(0, 0, 0, 0x1000),
    Many(MTX_LOAD_4X4), Cells(Clip, 0, 0, 0, 0, 0),
    Vtx16(0x2000, 0, 0), Last(0, 0, 0, 0x1000),
    // floors go down: -1 by 1000h is -1, and -1800h is -2
    Vtx16(0, 1, 3), Last(0, -1, 3, 0x1000),
    Vtx16(0, 0x1800, -1), Last(0, -2, -1, 0x1000),
    // so do those of products: -1 times 800h
    Three(0x1000, 0, 0), Three(0, 0x800, 0), Three(0, 0, 0x1000), Many(MTX_MULT_3X3), Cells(Clip, 1, 0, -1, 0, 0),
    Triple(MTX_SCALE, 0x1000, 0x1800, 0x1000), Cells(Clip, 1, 0, -2, 0, 0),
    // of a move by halves: (0, 0.5, 0) of (0, -3, 0) is -1.5
    Triple(MTX_SCALE, 0x1000, 0x1800, 0x1000), Cells(Clip, 1, 0, -3, 0, 0),
    Triple(MTX_TRANS, 0, 0x800, 0), Cells(Clip, 3, 0, -2, 0, 0x1000),
    // twice 7FFFFFFFh wraps to -2, in a product and in a vertex
    New, Give(MTX_MODE, 1), Four(0x7FFF_FFFF, 0, 0, 0), Four(0, 0x1000, 0, 0), Four(0, 0, 0x1000, 0), Four(0, 0, 0, 0x1000),
    Many(MTX_LOAD_4X4), Vtx16(0x2000, 0, 0), Last(-2, 0, 0, 0x1000),
    PosTest(0x2000, 0, 0), Position(-2, 0, 0, 0x1000),
    Triple(MTX_SCALE, 0x2000, 0x1000, 0x1000), Cells(Clip, 0, -2, 0, 0, 0), Diagonal(Texture, 0x1000),
    // a determinant is exact: of coordinates of 2^30 it is 2^90, and the triangle is seen from the front
    New, Four(0x4000_0000, 0, 0, 0), Four(0, 0x4000_0000, 0, 0), Four(0, 0, 0x1000, 0), Four(0, 0, 0, 0x4000_0000),
    Many(MTX_LOAD_4X4), Give(POLYGON_ATTR, 0x40), Give(BEGIN_VTXS, 0), Vtx16(0, 0, 0), Vtx16(0x1000, 0, 0), Vtx16(0, 0x1000, 0),
    Swap(1), Lists(3, 0),
    Give(POLYGON_ATTR, 0x80), Give(BEGIN_VTXS, 0), Vtx16(0, 0, 0), Vtx16(0x1000, 0, 0), Vtx16(0, 0x1000, 0), Swap(2), Lists(3, 1),
    // z, by which it would be seen from behind, takes no part in it
    Give(POLYGON_ATTR, 0x80), Give(BEGIN_VTXS, 0), Vtx16(0, 0, -0x1000), Vtx16(0x1000, 0, 0x3000), Vtx16(0, 0x1000, -0x1000),
    Swap(3), Lists(3, 1),
];

#[test]
fn each_table_holds(rt: HostRuntime) -> Result<(), AllocError> {
    let tables: [(&str, &[Line]); 3] = [
        (
            "vertices and tests go by position times projection",
            &VERTICES_AND_TESTS_GO_BY_POSITION_TIMES_PROJECTION,
        ),
        ("a box may touch each plane", &A_BOX_MAY_TOUCH_EACH_PLANE),
        (
            "sums are floored and wrapped",
            &SUMS_ARE_FLOORED_AND_WRAPPED,
        ),
    ];
    for (table, lines) in tables {
        try_lines(&rt, rt.alloc(), table, lines)?;
    }
    Ok(())
}
