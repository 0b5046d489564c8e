//! The ports' offsets from 4000000h (GBATEK, "DS 3D I/O Map"). A command's port has its name.

pub const DISP3DCNT: u32 = 0x060;

pub const GXFIFO: u32 = 0x400;

pub const MTX_MODE: u32 = 0x440;

pub const MTX_PUSH: u32 = 0x444;

pub const MTX_POP: u32 = 0x448;

pub const MTX_STORE: u32 = 0x44C;

pub const MTX_RESTORE: u32 = 0x450;

pub const MTX_IDENTITY: u32 = 0x454;

pub const MTX_MULT_3X3: u32 = 0x468;

pub const MTX_TRANS: u32 = 0x470;

pub const VTX_16: u32 = 0x48C;

pub const VTX_DIFF: u32 = 0x4A0;

pub const POLYGON_ATTR: u32 = 0x4A4;

pub const BEGIN_VTXS: u32 = 0x500;

pub const SWAP_BUFFERS: u32 = 0x540;

pub const BOX_TEST: u32 = 0x5C0;

pub const POS_TEST: u32 = 0x5C4;

pub const VEC_TEST: u32 = 0x5C8;

pub const GXSTAT: u32 = 0x600;

pub const RAM_COUNT: u32 = 0x604;

pub const POS_RESULT: u32 = 0x620;

pub const VEC_RESULT: u32 = 0x630;

pub const CLIPMTX_RESULT: u32 = 0x640;

pub const VECMTX_RESULT: u32 = 0x680;
