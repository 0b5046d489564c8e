//! The display's registers by their offsets from 4000000h (GBATEK, "DS I/O Map"), and the bits of IE and IF that it raises.

/// The engines' bases: engine B's registers are engine A's from there on.
pub const A: u32 = 0;

pub const B: u32 = 0x1000;

pub const DISPCNT: u32 = 0x00;

pub const DISPSTAT: u32 = 0x04;

pub const VCOUNT: u32 = 0x06;

pub const BG3CNT: u32 = 0x0E;

pub const BG0HOFS: u32 = 0x10;

pub const BG2PA: u32 = 0x20;

pub const BG2PB: u32 = 0x22;

pub const BG2PC: u32 = 0x24;

pub const BG2PD: u32 = 0x26;

pub const BG2X: u32 = 0x28;

pub const BG2Y: u32 = 0x2C;

pub const BG3PA: u32 = 0x30;

pub const BG3PD: u32 = 0x36;

pub const BG3X: u32 = 0x38;

pub const BG3Y: u32 = 0x3C;

pub const WIN0H: u32 = 0x40;

pub const WIN0V: u32 = 0x44;

pub const WIN1V: u32 = 0x46;

pub const WININ: u32 = 0x48;

pub const WINOUT: u32 = 0x4A;

pub const MOSAIC: u32 = 0x4C;

pub const BLDCNT: u32 = 0x50;

pub const BLDALPHA: u32 = 0x52;

pub const BLDY: u32 = 0x54;

pub const DISP3DCNT: u32 = 0x60;

pub const DISPCAPCNT: u32 = 0x64;

pub const DISP_MMEM_FIFO: u32 = 0x68;

pub const MASTER_BRIGHT: u32 = 0x6C;

pub const POWCNT1: u32 = 0x304;

pub const VBLANK: u32 = 1;

pub const HBLANK: u32 = 2;

pub const VCOUNT_MATCH: u32 = 4;
