//! What an object is drawn from.

/// An object's attributes.
#[derive(Clone, Copy)]
pub struct Object {
    /// Y, affine, double size or off, mode, colours, shape.
    pub attribute0: u16,
    /// X, the affine group or flips, size.
    pub attribute1: u16,
    /// Tile, priority, palette.
    pub attribute2: u16,
}

/// A group of affine numbers, with 8 fractional bits.
#[derive(Clone, Copy)]
pub struct Turn {
    /// The step across for each pixel to the right.
    pub pa: i16,
    /// The step across for each line down.
    pub pb: i16,
    /// The step down for each pixel to the right.
    pub pc: i16,
    /// The step down for each line down.
    pub pd: i16,
}

/// An engine and its control.
#[derive(Clone, Copy)]
pub struct Display {
    /// 0 for engine A; any other number is engine B.
    pub engine: u8,
    /// The engine's DISPCNT.
    pub control: u32,
}
