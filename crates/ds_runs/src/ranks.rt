//! The actors' ranks, below 24: at equal ticks the actor of the least rank steps first. (Our choice.) Timers and DMA channels of a processor have
//! four ranks each, one after another by their numbers, of which the first stands here.

/// The rank of the key script.
pub const KEY_SCRIPT: u8 = 0;

/// The rank of the display.
pub const VIDEO: u8 = 1;

/// The rank of ARM9's timer 0.
pub const TIMERS_OF_NINE: u8 = 2;

/// The rank of ARM7's timer 0.
pub const TIMERS_OF_SEVEN: u8 = 6;

/// The rank of the divider.
pub const DIVIDER: u8 = 10;

/// The rank of the square root unit.
pub const SQUARE_ROOT: u8 = 11;

/// The rank of the geometry engine.
pub const GEOMETRY: u8 = 12;

/// The rank of the cartridge.
pub const CARD: u8 = 13;

/// The rank of ARM9's DMA channel 0.
pub const CHANNELS_OF_NINE: u8 = 14;

/// The rank of ARM7's DMA channel 0.
pub const CHANNELS_OF_SEVEN: u8 = 18;

/// The rank of ARM9.
pub const ARM9: u8 = 22;

/// The rank of ARM7.
pub const ARM7: u8 = 23;
