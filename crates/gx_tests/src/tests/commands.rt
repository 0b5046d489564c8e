//! The commands' codes (GBATEK, "DS 3D Geometry Commands").

pub const MTX_MODE: u8 = 0x10;

pub const MTX_PUSH: u8 = 0x11;

pub const MTX_POP: u8 = 0x12;

pub const MTX_STORE: u8 = 0x13;

pub const MTX_RESTORE: u8 = 0x14;

pub const MTX_IDENTITY: u8 = 0x15;

pub const MTX_LOAD_4X4: u8 = 0x16;

pub const MTX_LOAD_4X3: u8 = 0x17;

pub const MTX_MULT_4X4: u8 = 0x18;

pub const MTX_MULT_4X3: u8 = 0x19;

pub const MTX_MULT_3X3: u8 = 0x1A;

pub const MTX_SCALE: u8 = 0x1B;

pub const MTX_TRANS: u8 = 0x1C;

pub const COLOR: u8 = 0x20;

pub const NORMAL: u8 = 0x21;

pub const TEXCOORD: u8 = 0x22;

pub const VTX_16: u8 = 0x23;

pub const VTX_10: u8 = 0x24;

pub const VTX_XY: u8 = 0x25;

pub const VTX_XZ: u8 = 0x26;

pub const VTX_YZ: u8 = 0x27;

pub const VTX_DIFF: u8 = 0x28;

pub const POLYGON_ATTR: u8 = 0x29;

pub const TEXIMAGE_PARAM: u8 = 0x2A;

pub const PLTT_BASE: u8 = 0x2B;

pub const DIF_AMB: u8 = 0x30;

pub const SPE_EMI: u8 = 0x31;

pub const LIGHT_VECTOR: u8 = 0x32;

pub const LIGHT_COLOR: u8 = 0x33;

pub const SHININESS: u8 = 0x34;

pub const BEGIN_VTXS: u8 = 0x40;

pub const END_VTXS: u8 = 0x41;

pub const SWAP_BUFFERS: u8 = 0x50;

pub const VIEWPORT: u8 = 0x60;

pub const BOX_TEST: u8 = 0x70;

pub const POS_TEST: u8 = 0x71;

pub const VEC_TEST: u8 = 0x72;
