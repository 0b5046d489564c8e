//! Rows of pixels that are drawn from video memory.

/// A row of 256 pixels, from the left. Red, green and blue stand in bits 0 to 4, 5 to 9 and 10 to 14; bit 15 is set where the pixel is
/// opaque, and a transparent pixel is 0.
#[derive(Clone, Copy)]
pub struct Row {
    /// The pixels.
    pub pixels: [u16; 256],
}
