//! The console's memories, and the spaces and widths in which they are reached.

ghost use Rattle.std.specs.Prelude.{◌≡◌};
ghost use Rattle.ds_base.specs.Memories.{memory_size, space_size};
ghost use Rattle.ds_base.specs.Numbers.{width_bytes};

/// Main memory's size in bytes (GBATEK, "DS Memory Map").
pub const MAIN_BYTES: usize = 0x40_0000;
/// The shared work RAM's size in bytes.
pub const SHARED_BYTES: usize = 0x8000;
/// The size of ARM7's own work RAM in bytes.
pub const OWN7_BYTES: usize = 0x1_0000;
/// ITCM's size in bytes.
pub const ITCM_BYTES: usize = 0x8000;
/// DTCM's size in bytes.
pub const DTCM_BYTES: usize = 0x4000;
/// The palettes' size in bytes.
pub const PALETTE_BYTES: usize = 0x800;
/// Video memory's size in bytes.
pub const VRAM_BYTES: usize = 0xA_4000;
/// The size of the object attributes in bytes.
pub const OAM_BYTES: usize = 0x800;

/// One of the eight memories (GBATEK, "DS Memory Map"), in the order in which they are written out.
#[derive(Clone, Copy, PartialEq, Eq, Debug)]
pub enum Memory {
    /// Main memory, 4 MiB.
    Main,
    /// The work RAM that both processors share, 32 KiB.
    Shared,
    /// ARM7's own work RAM, 64 KiB.
    Own7,
    /// ARM9's instruction memory (ITCM), 32 KiB.
    Itcm,
    /// ARM9's data memory (DTCM), 16 KiB.
    Dtcm,
    /// The palettes of both 2D engines, 2 KiB.
    Palette,
    /// Video memory: banks A to I in order, 656 KiB.
    Vram,
    /// The object attributes of both 2D engines, 2 KiB.
    Oam,
}

/// A space in which banks of video memory are mapped (GBATEK, "DS Memory Control - VRAM").
#[derive(Clone, Copy, PartialEq, Eq, Debug)]
pub enum Space {
    /// Engine A's backgrounds, 512 KiB.
    ABg,
    /// Engine B's backgrounds, 128 KiB.
    BBg,
    /// Engine A's objects, 256 KiB.
    AObj,
    /// Engine B's objects, 128 KiB.
    BObj,
    /// The banks as ARM9 sees them one after another, 1 MiB.
    Lcdc,
    /// What ARM7 sees, 256 KiB.
    Arm7,
    /// Engine A's extended background palettes, 32 KiB.
    ABgPalette,
    /// Engine B's extended background palettes, 32 KiB.
    BBgPalette,
    /// Engine A's extended object palettes, 8 KiB.
    AObjPalette,
    /// Engine B's extended object palettes, 8 KiB.
    BObjPalette,
}

/// How many bytes an access moves.
#[derive(Clone, Copy, PartialEq, Eq, Debug)]
pub enum Width {
    /// One byte.
    Byte,
    /// Two bytes.
    Half,
    /// Four bytes.
    Word,
}

impl Memory {
    /// How many bytes the memory has.
    pub const fn size(self) -> usize
        ensures { result ≡ memory_size self }
    {
        match self {
            Memory::Main => MAIN_BYTES,
            Memory::Shared => SHARED_BYTES,
            Memory::Own7 => OWN7_BYTES,
            Memory::Itcm => ITCM_BYTES,
            Memory::Dtcm => DTCM_BYTES,
            Memory::Palette => PALETTE_BYTES,
            Memory::Vram => VRAM_BYTES,
            Memory::Oam => OAM_BYTES,
        }
    }
}

impl Space {
    /// How many bytes the space has.
    pub const fn size(self) -> u32
        ensures { result ≡ space_size self }
    {
        match self {
            Space::ABg => 0x8_0000,
            Space::BBg | Space::BObj => 0x2_0000,
            Space::AObj | Space::Arm7 => 0x4_0000,
            Space::Lcdc => 0x10_0000,
            Space::ABgPalette | Space::BBgPalette => 0x8000,
            Space::AObjPalette | Space::BObjPalette => 0x2000,
        }
    }
}

impl Width {
    /// How many bytes an access of this width moves.
    #[inline(always)]
    pub const fn bytes(self) -> u32
        ensures { result ≡ width_bytes self }
    {
        match self {
            Width::Byte => 1,
            Width::Half => 2,
            Width::Word => 4,
        }
    }
}
