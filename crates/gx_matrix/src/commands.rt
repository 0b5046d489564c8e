//! The geometry commands by GBATEK's names, their codes, parameters and clocks.

ghost use Rattle.std.specs.Prelude.{◌≡◌, ◌<◌, ◌≤◌, Some, IfSome};
ghost use Rattle.gx_matrix.specs.CommandTable.{command_row, command_of};

/// A geometry command, by GBATEK's name ("DS 3D Geometry Commands").
#[derive(Clone, Copy)]
pub enum GeometryCommand {
    /// MTX_MODE, 10h: which matrices the matrix commands act on.
    MtxMode,
    /// MTX_PUSH, 11h: the current matrices onto their stack.
    MtxPush,
    /// MTX_POP, 12h: back from the stack, a signed number of places down.
    MtxPop,
    /// MTX_STORE, 13h: the current matrices to a place of their stack.
    MtxStore,
    /// MTX_RESTORE, 14h: back from a place of their stack.
    MtxRestore,
    /// MTX_IDENTITY, 15h: the identity becomes current.
    MtxIdentity,
    /// MTX_LOAD_4x4, 16h: a matrix becomes current.
    MtxLoad4x4,
    /// MTX_LOAD_4x3, 17h: the same, without its last column.
    MtxLoad4x3,
    /// MTX_MULT_4x4, 18h: the current matrices are multiplied by a matrix.
    MtxMult4x4,
    /// MTX_MULT_4x3, 19h: the same, without its last column.
    MtxMult4x3,
    /// MTX_MULT_3x3, 1Ah: the same, without its last row and column.
    MtxMult3x3,
    /// MTX_SCALE, 1Bh: the current matrices are scaled.
    MtxScale,
    /// MTX_TRANS, 1Ch: the current matrices are moved.
    MtxTrans,
    /// COLOR, 20h: the colour of the vertices that come.
    Color,
    /// NORMAL, 21h: a normal, from which lighting makes that colour.
    Normal,
    /// TEXCOORD, 22h: the texture coordinates of the vertices that come.
    Texcoord,
    /// VTX_16, 23h: a vertex of three halves.
    Vtx16,
    /// VTX_10, 24h: a vertex of three numbers of ten bits.
    Vtx10,
    /// VTX_XY, 25h: a vertex by x and y; z stays.
    VtxXy,
    /// VTX_XZ, 26h: a vertex by x and z; y stays.
    VtxXz,
    /// VTX_YZ, 27h: a vertex by y and z; x stays.
    VtxYz,
    /// VTX_DIFF, 28h: a vertex by how far it is from the one before.
    VtxDiff,
    /// POLYGON_ATTR, 29h: the polygon attributes from the next run on.
    PolygonAttr,
    /// TEXIMAGE_PARAM, 2Ah: the texture parameter.
    TeximageParam,
    /// PLTT_BASE, 2Bh: the base of the texture's palette.
    PlttBase,
    /// DIF_AMB, 30h: diffuse and ambient reflection.
    DifAmb,
    /// SPE_EMI, 31h: specular reflection and emission.
    SpeEmi,
    /// LIGHT_VECTOR, 32h: where a light comes from.
    LightVector,
    /// LIGHT_COLOR, 33h: a light's colour.
    LightColor,
    /// SHININESS, 34h: the shininess table.
    Shininess,
    /// BEGIN_VTXS, 40h: a run of vertices begins.
    BeginVtxs,
    /// END_VTXS, 41h: changes nothing.
    EndVtxs,
    /// SWAP_BUFFERS, 50h: asks for a swap.
    SwapBuffers,
    /// VIEWPORT, 60h: the viewport.
    Viewport,
    /// BOX_TEST, 70h: whether a box may be seen.
    BoxTest,
    /// POS_TEST, 71h: a vertex in clip space.
    PosTest,
    /// VEC_TEST, 72h: a vector turned by the vector matrix.
    VecTest,
}

/// The commands of codes below 20h.
#[tactic(auto, unfolding(crate::specs::CommandTable::command_of))]
fn matrix_command(code: u8) -> Option<GeometryCommand>
    requires { code < 0x20 }
    ensures value { result ≡ command_of code }
    ensures code { IfSome result (λ c. (command_row c).code ≡ code) }
{
    let command = match code {
        0x10 => GeometryCommand::MtxMode,
        0x11 => GeometryCommand::MtxPush,
        0x12 => GeometryCommand::MtxPop,
        0x13 => GeometryCommand::MtxStore,
        0x14 => GeometryCommand::MtxRestore,
        0x15 => GeometryCommand::MtxIdentity,
        0x16 => GeometryCommand::MtxLoad4x4,
        0x17 => GeometryCommand::MtxLoad4x3,
        0x18 => GeometryCommand::MtxMult4x4,
        0x19 => GeometryCommand::MtxMult4x3,
        0x1A => GeometryCommand::MtxMult3x3,
        0x1B => GeometryCommand::MtxScale,
        0x1C => GeometryCommand::MtxTrans,
        _ => return None,
    };
    Some(command)
}

/// The commands of all other codes.
#[tactic(auto, unfolding(crate::specs::CommandTable::command_of))]
fn other_command(code: u8) -> Option<GeometryCommand>
    requires { 0x20 ≤ code }
    ensures value { result ≡ command_of code }
    ensures code { IfSome result (λ c. (command_row c).code ≡ code) }
{
    let command = match code {
        0x20 => GeometryCommand::Color,
        0x21 => GeometryCommand::Normal,
        0x22 => GeometryCommand::Texcoord,
        0x23 => GeometryCommand::Vtx16,
        0x24 => GeometryCommand::Vtx10,
        0x25 => GeometryCommand::VtxXy,
        0x26 => GeometryCommand::VtxXz,
        0x27 => GeometryCommand::VtxYz,
        0x28 => GeometryCommand::VtxDiff,
        0x29 => GeometryCommand::PolygonAttr,
        0x2A => GeometryCommand::TeximageParam,
        0x2B => GeometryCommand::PlttBase,
        0x30 => GeometryCommand::DifAmb,
        0x31 => GeometryCommand::SpeEmi,
        0x32 => GeometryCommand::LightVector,
        0x33 => GeometryCommand::LightColor,
        0x34 => GeometryCommand::Shininess,
        0x40 => GeometryCommand::BeginVtxs,
        0x41 => GeometryCommand::EndVtxs,
        0x50 => GeometryCommand::SwapBuffers,
        0x60 => GeometryCommand::Viewport,
        0x70 => GeometryCommand::BoxTest,
        0x71 => GeometryCommand::PosTest,
        0x72 => GeometryCommand::VecTest,
        _ => return None,
    };
    Some(command)
}

impl GeometryCommand {
    /// The command of a code, where the list has one.
    pub fn of(code: u8) -> Option<GeometryCommand>
        ensures value { result ≡ command_of code }
        ensures code { IfSome result (λ c. (command_row c).code ≡ code) }
    {
        if code < 0x20 {
            matrix_command(code)
        } else {
            other_command(code)
        }
    }

    /// Its code.
    pub fn code(self) -> u8
        ensures { result ≡ (command_row self).code }
    {
        match self {
            GeometryCommand::MtxMode => 0x10,
            GeometryCommand::MtxPush => 0x11,
            GeometryCommand::MtxPop => 0x12,
            GeometryCommand::MtxStore => 0x13,
            GeometryCommand::MtxRestore => 0x14,
            GeometryCommand::MtxIdentity => 0x15,
            GeometryCommand::MtxLoad4x4 => 0x16,
            GeometryCommand::MtxLoad4x3 => 0x17,
            GeometryCommand::MtxMult4x4 => 0x18,
            GeometryCommand::MtxMult4x3 => 0x19,
            GeometryCommand::MtxMult3x3 => 0x1A,
            GeometryCommand::MtxScale => 0x1B,
            GeometryCommand::MtxTrans => 0x1C,
            other => other.other_code(),
        }
    }

    /// The code of one that is no command of matrices.
    fn other_code(self) -> u8
        requires { 0x20 ≤ (command_row self).code }
        ensures { result ≡ (command_row self).code }
    {
        match self {
            GeometryCommand::Color => 0x20,
            GeometryCommand::Normal => 0x21,
            GeometryCommand::Texcoord => 0x22,
            GeometryCommand::Vtx16 => 0x23,
            GeometryCommand::Vtx10 => 0x24,
            GeometryCommand::VtxXy => 0x25,
            GeometryCommand::VtxXz => 0x26,
            GeometryCommand::VtxYz => 0x27,
            GeometryCommand::VtxDiff => 0x28,
            GeometryCommand::PolygonAttr => 0x29,
            GeometryCommand::TeximageParam => 0x2A,
            GeometryCommand::PlttBase => 0x2B,
            GeometryCommand::DifAmb => 0x30,
            GeometryCommand::SpeEmi => 0x31,
            GeometryCommand::LightVector => 0x32,
            GeometryCommand::LightColor => 0x33,
            GeometryCommand::Shininess => 0x34,
            GeometryCommand::BeginVtxs => 0x40,
            GeometryCommand::EndVtxs => 0x41,
            GeometryCommand::SwapBuffers => 0x50,
            GeometryCommand::Viewport => 0x60,
            GeometryCommand::BoxTest => 0x70,
            GeometryCommand::PosTest => 0x71,
            _ => 0x72,
        }
    }

    /// How many words of parameters it has.
    #[tactic(auto, unfolding(crate::specs::CommandTable::command_of))]
    pub fn parameters(self) -> u8
        ensures value { result ≡ (command_row self).parameters }
        ensures within { result ≤ 32 }
        ensures code { command_of (command_row self).code ≡ Some self }
    {
        match self {
            GeometryCommand::MtxPush | GeometryCommand::MtxIdentity | GeometryCommand::EndVtxs => 0,
            GeometryCommand::MtxLoad4x4 | GeometryCommand::MtxMult4x4 => 16,
            GeometryCommand::MtxLoad4x3 | GeometryCommand::MtxMult4x3 => 12,
            GeometryCommand::MtxMult3x3 => 9,
            GeometryCommand::MtxScale | GeometryCommand::MtxTrans | GeometryCommand::BoxTest => 3,
            GeometryCommand::Vtx16 | GeometryCommand::PosTest => 2,
            GeometryCommand::Shininess => 32,
            _ => 1,
        }
    }

    /// How many bus clocks it takes.
    pub fn clocks(self) -> u16
        ensures value { result ≡ (command_row self).clocks }
        ensures some { 1 ≤ result }
    {
        match self {
            GeometryCommand::MtxPush | GeometryCommand::MtxStore => 17,
            GeometryCommand::MtxPop | GeometryCommand::MtxRestore => 36,
            GeometryCommand::MtxIdentity => 19,
            GeometryCommand::MtxLoad4x4 => 34,
            GeometryCommand::MtxLoad4x3 => 30,
            GeometryCommand::MtxMult4x4 => 35,
            GeometryCommand::MtxMult4x3 => 31,
            GeometryCommand::MtxMult3x3 => 28,
            GeometryCommand::MtxScale | GeometryCommand::MtxTrans => 22,
            GeometryCommand::Normal | GeometryCommand::Vtx16 | GeometryCommand::PosTest => 9,
            GeometryCommand::Vtx10
            | GeometryCommand::VtxXy
            | GeometryCommand::VtxXz
            | GeometryCommand::VtxYz
            | GeometryCommand::VtxDiff => 8,
            GeometryCommand::DifAmb | GeometryCommand::SpeEmi => 4,
            GeometryCommand::LightVector => 6,
            GeometryCommand::Shininess => 32,
            GeometryCommand::SwapBuffers => 392,
            GeometryCommand::BoxTest => 103,
            GeometryCommand::VecTest => 5,
            _ => 1,
        }
    }
}
