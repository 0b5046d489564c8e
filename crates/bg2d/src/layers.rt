//! What a background is drawn from.

/// A text background, by its ports (GBATEK, "LCD I/O BG Control", "LCD I/O BG Scrolling").
#[derive(Clone, Copy, PartialEq, Eq)]
pub struct TextLayer {
    /// 0 for engine A; any other number is engine B.
    pub engine: u8,
    /// The background's number, 0 to 3.
    pub number: u8,
    /// The engine's DISPCNT.
    pub display: u32,
    /// The background's BGxCNT.
    pub control: u16,
    /// How far the background is scrolled to the left, in pixels; it wraps at the background's width.
    pub across: u16,
    /// How far it is scrolled up, in pixels; it wraps at the background's height.
    pub down: u16,
}

/// An affine background, by its ports (GBATEK, "LCD I/O BG Control", "LCD I/O BG Rotation/Scaling").
#[derive(Clone, Copy, PartialEq, Eq)]
pub struct AffineLayer {
    /// 0 for engine A; any other number is engine B.
    pub engine: u8,
    /// The engine's DISPCNT.
    pub display: u32,
    /// The background's BGxCNT.
    pub control: u16,
    /// The point shown at the left end of the line, across: 8 fractional bits.
    pub x: i32,
    /// The point shown at the left end of the line, down: 8 fractional bits.
    pub y: i32,
    /// PA: the step across for each pixel, with 8 fractional bits.
    pub pa: i16,
    /// PC: the step down for each pixel, with 8 fractional bits.
    pub pc: i16,
}
