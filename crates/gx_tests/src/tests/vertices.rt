//! Vertices, texture coordinates, the box test, and the list of commands.

use super::commands::{
    BEGIN_VTXS, BOX_TEST, COLOR, DIF_AMB, END_VTXS, LIGHT_COLOR, LIGHT_VECTOR, MTX_IDENTITY,
    MTX_LOAD_4X3, MTX_LOAD_4X4, MTX_MODE, MTX_MULT_3X3, MTX_MULT_4X3, MTX_MULT_4X4, MTX_POP,
    MTX_PUSH, MTX_RESTORE, MTX_SCALE, MTX_STORE, MTX_TRANS, NORMAL, PLTT_BASE, POLYGON_ATTR,
    POS_TEST, SHININESS, SPE_EMI, SWAP_BUFFERS, TEXCOORD, TEXIMAGE_PARAM, VEC_TEST, VIEWPORT,
    VTX_10, VTX_16, VTX_DIFF, VTX_XY, VTX_XZ, VTX_YZ,
};
use super::{Line, try_lines};
use Line::{
    Box, ClearError, Coloured, Command, Four, Give, Inside, Last, Levels, Lists, Many, Mapped,
    NoCommand, Pair, PosTest, Position, Run, Swap, Swapped, Tens, Textured, Triple, Vtx16,
};
use std::alloc::AllocError;

#[rattlefmt::skip]
const VERTEX_COMMANDS_GIVE_THEIR_NUMBERS_AND_KEEP_THE_OTHERS: [Line; 44] = [
    // Last(x, y, z, w)   Tens(command, x, y, z)   Position(x, y, z, w)   Lists(vertices, polygons)   Swapped(tick, parameter)
    Pair(VTX_16, 0x8000_7FFF, 0x1234_FFFF), Last(0x7FFF, -0x8000, -1, 0x1000),
    Tens(VTX_DIFF, 1, -1, 2), Last(-0x8000, 0x7FFF, 1, 0x1000),
    Tens(VTX_10, 511, -512, 1), Last(32_704, -32_768, 64, 0x1000),
    Give(VTX_XY, 0xFFFA_0005), Last(5, -6, 64, 0x1000),
    Give(VTX_XZ, 0x0008_0007), Last(7, -6, 8, 0x1000),
    Give(VTX_YZ, 0x000A_0009), Last(7, 9, 10, 0x1000),
    Tens(VTX_DIFF, -1, 2, -512), Last(6, 11, -502, 0x1000),
    PosTest(1, 2, 3), Position(1, 2, 3, 0x1000),
    Swap(9), Lists(0, 0),
    Give(VTX_XY, 0x0005_0004), Last(4, 5, 3, 0x1000),
    // a colour has 15 bits, and DIF_AMB gives one where its bit 15 says so
    Give(COLOR, 0xFFFF_8001), Give(VTX_DIFF, 0), Coloured(1),
    Give(COLOR, 0xFFFF_FFFF), Give(VTX_DIFF, 0), Coloured(0x7FFF),
    Give(DIF_AMB, 0x7FFF_1234), Give(VTX_DIFF, 0), Coloured(0x7FFF),
    Give(DIF_AMB, 0x7FFF_9234), Give(VTX_DIFF, 0), Coloured(0x1234),
    // each swap has the parameter that came last before it, and one without has 0
    Give(SWAP_BUFFERS, 3), Swap(10), Swapped(10, 3),
    Give(SWAP_BUFFERS, 2), Swap(11), Swapped(11, 2),
    Swap(12), Swapped(12, 0),
    Give(SWAP_BUFFERS, 1), Give(SWAP_BUFFERS, 0xFFFF_FFFF), Swap(13), Swapped(13, 0xFFFF_FFFF),
];

#[rattlefmt::skip]
const A_BOX_IS_SEEN_UNLESS_ALL_OF_IT_LIES_PAST_ONE_PLANE: [Line; 19] = [
    // Box([x, y, z], [width, height, depth], seen)   Levels(as in GXSTAT, error)
    Box([0, 0, 0],                   [0x1000, 0x1000, 0x1000], true),
    Box([0x2000, 0, 0],              [0x1000, 0x1000, 0x1000], false),
    Box([0x1000, 0, 0],              [0x1000, 0x1000, 0x1000], true),
    Box([0x1001, 0, 0],              [0x1000, 0x1000, 0x1000], false),
    Box([-0x2000, 0, 0],             [0x1000, 0x1000, 0x1000], true),
    Box([-0x2001, 0, 0],             [0x1000, 0x1000, 0x1000], false),
    Box([0, 0x1001, 0],              [0x1000, 0x1000, 0x1000], false),
    Box([0, -0x2001, 0],             [0x1000, 0x1000, 0x1000], false),
    Box([0, 0, 0x1001],              [0x1000, 0x1000, 0x1000], false),
    Box([0, 0, -0x2001],             [0x1000, 0x1000, 0x1000], false),
    Box([-0x4000, -0x4000, -0x4000], [0x7FFF, 0x7FFF, 0x7FFF], true),
    Box([0x7000, 0, 0],              [0x2000, 0x1000, 0x1000], true),
    Run(END_VTXS), Inside(true), NoCommand(0x42),
    Give(MTX_POP, 0x1F), Levels(0, true),
    ClearError, Levels(0, false),
];

// Coordinates are 10 and -20; the matrix's first two columns are 2, 3, 1, 1 and 1, 0.5, 0, a little less than 0.
#[rattlefmt::skip]
const TEXTURE_COORDINATES_GO_BY_THEIR_MODE: [Line; 6] = [
    // Mapped(mode, NORMAL, x, s, t)
    Mapped(0, 0x100, 0x1000, 10,  -20),
    Mapped(1, 0x100, 0x1000, -38, -1),
    Mapped(2, 0x100, 0x1000, 26,  -12),
    Mapped(2, 0x3FF, 0x1000, 9,   -21),
    Mapped(3, 0x100, 0x1000, 42,  -4),
    Mapped(3, 0x100, 0xFFFF, 9,   -21),
];

#[rattlefmt::skip]
const TRANSFORMS_START_FROM_THE_COORDINATES_AS_THEY_WERE_GIVEN: [Line; 26] = [
    // Tens(command, x, y, z)   Vtx16(x, y, z)
    Give(MTX_MODE, 3), Four(0x2000, 0x1000, 0, 0), Four(0x3000, 0x800, 0, 0), Four(0x1000, 0, 0, 0),
    Four(0x1000, 0xFFFF_FFFF, 0, 0), Many(MTX_LOAD_4X4),
    // mode 1 transforms when TEXCOORD comes; a normal and a vertex leave that
    Give(TEXIMAGE_PARAM, 0x4000_0000), Give(TEXCOORD, 0xFFEC_000A), Tens(NORMAL, 256, 0, 0), Vtx16(0x1000, 0, 0), Textured(-38, -1),
    // modes 2 and 3 start from what was given, not from what was transformed
    Give(TEXIMAGE_PARAM, 0x8000_0000), Tens(NORMAL, 256, 0, 0), Vtx16(0x1000, 0, 0), Textured(26, -12),
    Give(TEXIMAGE_PARAM, 0xC000_0000), Vtx16(0x1000, 0, 0), Textured(42, -4),
    // the next vertex starts there again
    Vtx16(0x2000, 0, 0), Textured(74, 12),
    // and without a transform the last ones stay
    Give(TEXIMAGE_PARAM, 0), Vtx16(0x1000, 0, 0), Textured(74, 12),
    Give(TEXCOORD, 0xFFEC_000A), Vtx16(0x1000, 0, 0), Textured(10, -20),
];

// The first two columns are 2, 3, 1, 1 and 1, 0.5, -2, a little less than 0; coordinates are 10 and -20.
#[rattlefmt::skip]
const EACH_NUMBER_OF_A_NORMAL_OR_VERTEX_MOVES_COORDINATES: [Line; 56] = [
    // Tens(command, x, y, z)   Vtx16(x, y, z)
    Give(MTX_MODE, 3), Four(0x2000, 0x1000, 0, 0), Four(0x3000, 0x800, 0, 0), Four(0x1000, 0xFFFF_E000, 0, 0),
    Four(0x1000, 0xFFFF_FFFF, 0, 0), Many(MTX_LOAD_4X4),
    // a normal: 256 in y moves by 256 * 3 / 32 and 256 * 0.5 / 32, in z by 256 / 32 and 256 * -2 / 32
    Give(TEXIMAGE_PARAM, 0x8000_0000), Give(TEXCOORD, 0xFFEC_000A), Tens(NORMAL, 0, 256, 0), Give(VTX_DIFF, 0), Textured(34, -16),
    Tens(NORMAL, 0, 0, 256), Give(VTX_DIFF, 0), Textured(18, -36),
    // all three: 256 * 6 / 32 and 256 * -0.5 / 32
    Tens(NORMAL, 256, 256, 256), Give(VTX_DIFF, 0), Textured(58, -24),
    // floors go down: -3 / 32 and -0.5 / 32, -1 / 32 and 2 / 32
    Tens(NORMAL, 0, -1, 0), Give(VTX_DIFF, 0), Textured(9, -21),
    Tens(NORMAL, 0, 0, -1), Give(VTX_DIFF, 0), Textured(9, -20),
    // and sums wrap to 16 bits: 32767 + 24 and -32768 + 4, 32767 + 8 and -32768 - 16
    Give(TEXCOORD, 0x8000_7FFF), Tens(NORMAL, 0, 256, 0), Give(VTX_DIFF, 0), Textured(-32_745, -32_764),
    Tens(NORMAL, 0, 0, 256), Give(VTX_DIFF, 0), Textured(-32_761, 32_752),
    // a vertex: 1 in y moves by 16 * 3 and 16 * 0.5, in z by 16 and 16 * -2
    Give(TEXIMAGE_PARAM, 0xC000_0000), Give(TEXCOORD, 0xFFEC_000A), Vtx16(0, 0x1000, 0), Textured(58, -12),
    Vtx16(0, 0, 0x1000), Textured(26, -52),
    Vtx16(0x1000, 0x1000, 0x1000), Textured(106, -28),
    // floors go down: -3 / 256 and -0.5 / 256, -1 / 256 and 2 / 256
    Vtx16(0, -1, 0), Textured(9, -21),
    Vtx16(0, 0, -1), Textured(9, -20),
    // sums wrap
    Give(TEXCOORD, 0x8000_7FFF), Vtx16(0, 0x1000, 0), Textured(-32_721, -32_760),
    Vtx16(0, 0, 0x1000), Textured(-32_753, 32_736),
    // the numbers that move it are the vertex's as it was given, and not those that the clip matrix gives
    Give(MTX_MODE, 0), Triple(MTX_SCALE, 0x2000, 0x2000, 0x2000), Give(TEXCOORD, 0xFFEC_000A), Vtx16(0, 0x1000, 0),
    Textured(58, -12),
    // given coordinates: 32767 twice and 2 wraps to 0, and once and a little less than -2 is 32764
    Give(TEXIMAGE_PARAM, 0x4000_0000), Give(TEXCOORD, 0x0000_7FFF), Give(VTX_DIFF, 0), Textured(0, 32_764),
];

#[rattlefmt::skip]
const EACH_COMMAND_HAS_ITS_ROW: [Line; 52] = [
    // Command(name, parameters, clocks)
    // every command with its parameters and clocks
    Command(MTX_MODE,       1,  1),
    Command(MTX_PUSH,       0,  17),
    Command(MTX_POP,        1,  36),
    Command(MTX_STORE,      1,  17),
    Command(MTX_RESTORE,    1,  36),
    Command(MTX_IDENTITY,   0,  19),
    Command(MTX_LOAD_4X4,   16, 34),
    Command(MTX_LOAD_4X3,   12, 30),
    Command(MTX_MULT_4X4,   16, 35),
    Command(MTX_MULT_4X3,   12, 31),
    Command(MTX_MULT_3X3,   9,  28),
    Command(MTX_SCALE,      3,  22),
    Command(MTX_TRANS,      3,  22),
    Command(COLOR,          1,  1),
    Command(NORMAL,         1,  9),
    Command(TEXCOORD,       1,  1),
    Command(VTX_16,         2,  9),
    Command(VTX_10,         1,  8),
    Command(VTX_XY,         1,  8),
    Command(VTX_XZ,         1,  8),
    Command(VTX_YZ,         1,  8),
    Command(VTX_DIFF,       1,  8),
    Command(POLYGON_ATTR,   1,  1),
    Command(TEXIMAGE_PARAM, 1,  1),
    Command(PLTT_BASE,      1,  1),
    Command(DIF_AMB,        1,  4),
    Command(SPE_EMI,        1,  4),
    Command(LIGHT_VECTOR,   1,  6),
    Command(LIGHT_COLOR,    1,  1),
    Command(SHININESS,      32, 32),
    Command(BEGIN_VTXS,     1,  1),
    Command(END_VTXS,       0,  1),
    Command(SWAP_BUFFERS,   1,  392),
    Command(VIEWPORT,       1,  1),
    Command(BOX_TEST,       3,  103),
    Command(POS_TEST,       2,  9),
    Command(VEC_TEST,       1,  5),
    NoCommand(0x00), NoCommand(0x0F), NoCommand(0x1D), NoCommand(0x1F), NoCommand(0x2C), NoCommand(0x2F), NoCommand(0x35),
    NoCommand(0x3F), NoCommand(0x42), NoCommand(0x4F), NoCommand(0x51), NoCommand(0x61), NoCommand(0x6F), NoCommand(0x73),
    NoCommand(0xFF),
];

#[test]
fn each_table_holds(rt: HostRuntime) -> Result<(), AllocError> {
    let tables: [(&str, &[Line]); 6] = [
        (
            "vertex commands give their numbers and keep the others",
            &VERTEX_COMMANDS_GIVE_THEIR_NUMBERS_AND_KEEP_THE_OTHERS,
        ),
        (
            "a box is seen unless all of it lies past one plane",
            &A_BOX_IS_SEEN_UNLESS_ALL_OF_IT_LIES_PAST_ONE_PLANE,
        ),
        (
            "texture coordinates go by their mode",
            &TEXTURE_COORDINATES_GO_BY_THEIR_MODE,
        ),
        (
            "transforms start from the coordinates as they were given",
            &TRANSFORMS_START_FROM_THE_COORDINATES_AS_THEY_WERE_GIVEN,
        ),
        (
            "each number of a normal or vertex moves coordinates",
            &EACH_NUMBER_OF_A_NORMAL_OR_VERTEX_MOVES_COORDINATES,
        ),
        ("each command has its row", &EACH_COMMAND_HAS_ITS_ROW),
    ];
    for (table, lines) in tables {
        try_lines(&rt, rt.alloc(), table, lines)?;
    }
    Ok(())
}
