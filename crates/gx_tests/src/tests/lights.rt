//! Lights, materials and normals; the vector test.

use super::commands::{
    BEGIN_VTXS, DIF_AMB, LIGHT_COLOR, LIGHT_VECTOR, MTX_IDENTITY, MTX_MODE, MTX_MULT_3X3, NORMAL,
    POLYGON_ATTR, VEC_TEST, VTX_DIFF,
};
use super::{Line, try_lines};
use Line::{Coloured, Give, Lit, Many, New, Run, Tens, Three, Vector};
use std::alloc::AllocError;

#[rattlefmt::skip]
const EACH_LIGHT_TERM_IS_ITS_OWN: [Line; 15] = [
    //  POLYGON_ATTR  light vector  LIGHT_COLOR  DIF_AMB      SPE_EMI      normal        colour
    Lit(1,            [0, 0, -512], 0x7FFF,      0x001F,      0,           [0, 0, 511],  29),
    Lit(1,            [0, 0, -512], 0x7FFF,      0x001F,      0,           [0, 0, -511], 0),
    Lit(0,            [0, 0, -512], 0x7FFF,      0x001F,      0,           [0, 0, 511],  0),
    Lit(1,            [0, 0, -512], 0x7C00,      0x001F,      0,           [0, 0, 511],  0),
    Lit(1,            [0, 0, -512], 0x7FFF,      0x0010_0000, 0,           [0, 0, 0],    15),
    Lit(1,            [0, 0, -512], 0x7FFF,      0x0010_0000, 0,           [0, 0, 511],  15),
    Lit(0,            [0, 0, -512], 0x7FFF,      0,           0x00A0_0000, [0, 0, 511],  0xA0),
    Lit(1,            [0, 0, -512], 0x7FFF,      0,           0x0000_001F, [0, 0, 511],  29),
    Lit(1,            [0, 0, 0],    0x7FFF,      0,           0x0000_001F, [0, 0, 511],  7),
    Lit(1,            [0, 0, -512], 0x7FFF,      0,           0x0000_801F, [0, 0, 511],  11),
    Lit(1,            [0, 0, 0],    0x7FFF,      0,           0x0000_801F, [0, 0, 511],  5),
    Lit(1,            [0, 0, -512], 0x7FFF,      0x001F,      0x001F_0000, [0, 0, 511],  31),
    Lit(2,            [0, 0, -512], 0x7FFF,      0x001F,      0,           [0, 0, 511],  0),
    // all at once, each floored by itself: by 510, 511 and 32 red has 5 * 20, 7 * 20 and 6 * 20, which give 3, 4 and 3, beside its emission of 2;
    // green 3 * 31, 2 * 31 and 31, which give 2, 1 and 0; blue 31 * 10 three times, which gives 9 each, and an emission of 1
    Lit(1,            [0, 0, -512], 0x2BF4,      0x7C26_7C47, 0x0402_7C65, [0, 0, 511],  0x706C),
    // bit 15 of each colour is none of its bits
    Lit(1,            [0, 0, -512], 0xABF4,      0xFC26_7C47, 0x8402_7C65, [0, 0, 511],  0x706C),
];

#[rattlefmt::skip]
const LIGHTS_AND_NORMALS_ARE_TURNED_BY_THE_VECTOR_MATRIX_OF_THEIR_TIME: [Line; 54] = [
    // Tens(command, x, y, z)
    New, Give(POLYGON_ATTR, 1), Give(BEGIN_VTXS, 0), Give(MTX_MODE, 2), Tens(LIGHT_VECTOR, 0, 0, -512),
    Give(LIGHT_COLOR, 0x00007FFF), Give(DIF_AMB, 0x1F), Three(0, 0, 0x1000), Three(0, 0x1000, 0), Three(0x1000, 0, 0),
    Many(MTX_MULT_3X3), Tens(NORMAL, 511, 0, 0), Give(VTX_DIFF, 0), Coloured(29),
    Tens(VEC_TEST, 511, 0, 0), Vector(0, 0, 4_088),
    New, Give(POLYGON_ATTR, 8), Give(BEGIN_VTXS, 0), Give(MTX_MODE, 2), Give(LIGHT_VECTOR, 0xE000_0000),
    Give(LIGHT_COLOR, 0xC0007FFF), Give(DIF_AMB, 0x1F), Three(0, 0, 0x1000), Three(0, 0x1000, 0), Three(0x1000, 0, 0),
    Many(MTX_MULT_3X3), Tens(NORMAL, 511, 0, 0), Give(VTX_DIFF, 0), Coloured(29),
    Tens(VEC_TEST, 511, 0, 0), Vector(0, 0, 4_088),
    New, Give(POLYGON_ATTR, 1), Give(BEGIN_VTXS, 0), Give(MTX_MODE, 2), Tens(LIGHT_VECTOR, 0, 0, -512),
    Give(LIGHT_COLOR, 0x00007FFF), Give(DIF_AMB, 0x1F), Tens(NORMAL, 511, 0, 0), Give(VTX_DIFF, 0), Coloured(0),
    Tens(VEC_TEST, 511, 0, 0), Vector(4_088, 0, 0),
    New, Tens(VEC_TEST, -512, 511, -1), Vector(-4_096, 4_088, -8),
    Give(MTX_MODE, 2), Three(0x2000, 0, 0), Three(0, 0x2000, 0), Three(0, 0, 1), Many(MTX_MULT_3X3), Tens(VEC_TEST, -512, 511, -1),
    Vector(0, -16, -1),
];

#[rattlefmt::skip]
const LEVELS_ARE_HELD_AND_THE_HALF_VECTOR_IS_HALVED: [Line; 10] = [
    //  POLYGON_ATTR  light vector     LIGHT_COLOR  DIF_AMB  SPE_EMI      normal         colour
    // l n is -2 * 511 * 512, more than enough: 511 is the most, and 17 * 17 * 511 / 16384 is 9
    Lit(1,            [-512, -512, 0], 0x0011,      0x0011,  0,           [511, 511, 0], 9),
    // so it is at 511 itself
    Lit(1,            [-512, 0, 0],    0x0011,      0x0011,  0,           [511, 0, 0],   9),
    // and one less gives 8
    Lit(1,            [-511, 0, 0],    0x0011,      0x0011,  0,           [511, 0, 0],   8),
    // the specular level of 511 is its square by 512, 510: 17 * 17 * 510 / 16384 is 8
    Lit(1,            [-512, 0, -512], 0x0011,      0,       0x0000_0011, [511, 0, 511], 8),
    // the half vector of -512, 0, 0 is -256, 0, -256: 255, whose square by 512 is 127, gives 7
    Lit(1,            [-512, 0, 0],    0x7FFF,      0,       0x0000_001F, [511, 0, 0],   7),
    // and of 0, -512, 0 likewise
    Lit(1,            [0, -512, 0],    0x7FFF,      0,       0x0000_001F, [0, 511, 0],   7),
    // odd ones are halved down: -511 to -256, whose level of 255 has the square 127 by 512, and 13 * 10 * 127 / 16384 is 1
    Lit(1,            [-511, 0, 0],    10,          0,       13,          [511, 0, 0],   1),
    Lit(1,            [0, -511, 0],    10,          0,       13,          [0, 511, 0],   1),
    // and -1 - 512 to -257, whose level of 256 has 128: 8 * 16 * 128 / 16384 is 1
    Lit(1,            [0, 0, -1],      16,          0,       8,           [0, 0, 511],   1),
    // what faces away has level 0, and not its size
    Lit(1,            [0, 0, 511],     0x7FFF,      0x001F,  0,           [0, 0, 511],   0),
];

#[rattlefmt::skip]
const LIGHTS_AND_NORMALS_LEAVE_THE_POSITION_MATRIX: [Line; 58] = [
    // Tens(command, x, y, z)
    // in mode 1 the position's x and z are exchanged, the vector matrix stays: the light and the normal keep their z
    Give(POLYGON_ATTR, 1), Give(BEGIN_VTXS, 0), Give(LIGHT_COLOR, 0x7FFF), Give(DIF_AMB, 0x1F), Give(MTX_MODE, 1),
    Three(0, 0, 0x1000), Three(0, 0x1000, 0), Three(0x1000, 0, 0), Many(MTX_MULT_3X3),
    // the light alone comes while it is so
    Tens(LIGHT_VECTOR, 0, 0, -512), Run(MTX_IDENTITY), Tens(NORMAL, 0, 0, 511), Give(VTX_DIFF, 0), Coloured(29),
    // then the normal alone
    Three(0, 0, 0x1000), Three(0, 0x1000, 0), Three(0x1000, 0, 0), Many(MTX_MULT_3X3), Tens(NORMAL, 0, 0, 511), Give(VTX_DIFF, 0),
    Coloured(29),
    Tens(VEC_TEST, 511, 0, 0), Vector(4_088, 0, 0),
    // nor does the projection turn them
    Run(MTX_IDENTITY), Give(MTX_MODE, 0), Three(0, 0, 0x1000), Three(0, 0x1000, 0), Three(0x1000, 0, 0), Many(MTX_MULT_3X3),
    Tens(LIGHT_VECTOR, 0, 0, -512), Tens(NORMAL, 0, 0, 511), Give(VTX_DIFF, 0), Coloured(29),
    Tens(VEC_TEST, 511, 0, 0), Vector(4_088, 0, 0),
    // a matrix a little less than the identity: what it turns is floored, -512 to -512, so that the level is 511 and not 510
    New, Give(POLYGON_ATTR, 1), Give(BEGIN_VTXS, 0), Give(LIGHT_COLOR, 0x11), Give(DIF_AMB, 0x11), Give(MTX_MODE, 2),
    Three(0xFFF, 0, 0), Three(0, 0xFFF, 0), Three(0, 0, 0xFFF), Many(MTX_MULT_3X3), Tens(LIGHT_VECTOR, 0, 0, -512),
    Run(MTX_IDENTITY), Tens(NORMAL, 0, 0, 511), Give(VTX_DIFF, 0), Coloured(9),
    Tens(LIGHT_VECTOR, 0, 0, 511), Three(0xFFF, 0, 0), Three(0, 0xFFF, 0), Three(0, 0, 0xFFF), Many(MTX_MULT_3X3),
    Tens(NORMAL, 0, 0, -512), Give(VTX_DIFF, 0), Coloured(9),
];

#[rattlefmt::skip]
const LIGHTS_ARE_IN_FORCE_BY_THE_RUNS_ATTRIBUTES: [Line; 35] = [
    // Tens(command, x, y, z)
    // set before the run, the light is in force
    Give(POLYGON_ATTR, 1), Give(BEGIN_VTXS, 0), Tens(LIGHT_VECTOR, 0, 0, -512), Give(LIGHT_COLOR, 0x7FFF), Give(DIF_AMB, 0x1F),
    Tens(NORMAL, 0, 0, 511), Give(VTX_DIFF, 0), Coloured(29),
    // set to none since, it still is
    Give(POLYGON_ATTR, 0), Tens(NORMAL, 0, 0, 511), Give(VTX_DIFF, 0), Coloured(29),
    // from the next run on it isn't
    Give(BEGIN_VTXS, 0), Tens(NORMAL, 0, 0, 511), Give(VTX_DIFF, 0), Coloured(0),
    // and set again it isn't before another
    Give(POLYGON_ATTR, 1), Tens(NORMAL, 0, 0, 511), Give(VTX_DIFF, 0), Coloured(0),
    Give(BEGIN_VTXS, 3), Tens(NORMAL, 0, 0, 511), Give(VTX_DIFF, 0), Coloured(29),
    // two lights in force add up, held to 31
    Give(POLYGON_ATTR, 3), Give(BEGIN_VTXS, 0), Give(LIGHT_VECTOR, 0x6000_0000), Give(LIGHT_COLOR, 0x4000_0001),
    Tens(NORMAL, 0, 0, 511), Give(VTX_DIFF, 0), Coloured(29),
    Give(LIGHT_COLOR, 0x4000_001F), Tens(NORMAL, 0, 0, 511), Give(VTX_DIFF, 0), Coloured(31),
];

#[test]
fn each_table_holds(rt: HostRuntime) -> Result<(), AllocError> {
    let tables: [(&str, &[Line]); 5] = [
        ("each light term is its own", &EACH_LIGHT_TERM_IS_ITS_OWN),
        (
            "lights and normals are turned by the vector matrix of their time",
            &LIGHTS_AND_NORMALS_ARE_TURNED_BY_THE_VECTOR_MATRIX_OF_THEIR_TIME,
        ),
        (
            "levels are held and the half vector is halved",
            &LEVELS_ARE_HELD_AND_THE_HALF_VECTOR_IS_HALVED,
        ),
        (
            "lights and normals leave the position matrix",
            &LIGHTS_AND_NORMALS_LEAVE_THE_POSITION_MATRIX,
        ),
        (
            "lights are in force by the runs attributes",
            &LIGHTS_ARE_IN_FORCE_BY_THE_RUNS_ATTRIBUTES,
        ),
    ];
    for (table, lines) in tables {
        try_lines(&rt, rt.alloc(), table, lines)?;
    }
    Ok(())
}
