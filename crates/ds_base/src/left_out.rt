//! What the console leaves out: a step that needs one of these stops the machine, by name.

use crate::ticks::Tick;

/// A feature that is left out. (Our choice; each says what a step needed.)
#[derive(Clone, Copy, PartialEq, Eq, Debug)]
pub enum LeftKind {
    /// What isn't built yet; the value is the word or the address.
    NotYet,
    /// A software interrupt that the boot ROM hasn't; the value is its number.
    Swi,
    /// Big-endian mode; the value is the word written to the control register.
    BigEndian,
    /// GBA mode or sleep; the value is the byte written to HALTCNT.
    HaltMode,
    /// A DMA start mode that is left out; the value is the control word.
    DmaStart,
    /// A card transfer; the value is the word written to ROMCTRL.
    CardTransfer,
    /// A display mode that is left out; the value is 256 for engine B, and the mode.
    DisplayMode,
    /// A background mode that is left out; the value is 256 for engine B, and the mode.
    BgMode,
    /// Display capture; the value is DISPCAPCNT.
    Capture,
    /// Mosaic; the value is 256 for engine B, and the layer, or 128 and the object.
    Mosaic,
    /// An extended background; the value is 256 for engine B, and the layer. None stops the machine any more; its number stays its own.
    ExtendedBackground,
    /// A bitmap object; the value is 256 for engine B, and the object.
    BitmapObject,
}

/// Why a unit refuses what it was asked to do.
#[derive(Clone, Copy, PartialEq, Eq, Debug)]
pub struct Stop {
    /// What was needed.
    pub kind: LeftKind,
    /// The value that goes with the kind.
    pub value: u32,
}

/// Where and why a run stopped.
#[derive(Clone, Copy, PartialEq, Eq, Debug)]
pub struct LeftOut {
    /// What the step needed.
    pub kind: LeftKind,
    /// When the step was due.
    pub tick: Tick,
    /// The rank of the actor whose step it was, below 24.
    pub rank: u8,
    /// The value that goes with the kind.
    pub value: u32,
}
