//! Objects over one another.

use super::{Line, try_lines};
use Line::{Pair, Pattern};
use std::alloc::AllocError;

// Two objects at (0, 0). Tile 0 is opaque there, of colour 1, and so is tile 1, of colour 2. Tile 600 is transparent.
#[test]
fn the_least_priority_counts_and_then_the_least_number(rt: HostRuntime) -> Result<(), AllocError> {
    try_lines(
        &rt,
        rt.alloc(),
        &[
            Pattern,
            Pair(0, 0x0000, 0, 0x0001, 0xc001, 0, false, false),
            Pair(0, 0x0c00, 0, 0x0c01, 0xc001, 3, false, false),
            Pair(0, 0x0400, 0, 0x0001, 0xc002, 0, false, false),
            Pair(0, 0x0800, 0, 0x0401, 0xc002, 1, false, false),
            Pair(0, 0x0400, 0, 0x0801, 0xc001, 1, false, false),
            // a transparent pixel lets any object through
            Pair(0, 0x0258, 0, 0x0c01, 0xc002, 3, false, false),
            Pair(0, 0x0c00, 0, 0x0258, 0xc001, 3, false, false),
            Pair(0, 0x0258, 0, 0x0258, 0, 0, false, false),
            // semi-transparent where that object is shown
            Pair(1, 0x0000, 0, 0x0001, 0xc001, 0, true, false),
            Pair(0, 0x0000, 1, 0x0001, 0xc001, 0, false, false),
            Pair(0, 0x0400, 1, 0x0001, 0xc002, 0, true, false),
            Pair(1, 0x0258, 0, 0x0001, 0xc002, 0, false, false),
            Pair(1, 0x0258, 1, 0x0258, 0, 0, false, false),
            // an object of the window isn't shown
            Pair(2, 0x0000, 0, 0x0c01, 0xc002, 3, false, true),
            Pair(0, 0x0c00, 2, 0x0001, 0xc001, 3, false, true),
            Pair(2, 0x0400, 2, 0x0401, 0, 0, false, true),
            Pair(2, 0x0258, 0, 0x0001, 0xc002, 0, false, false),
            Pair(2, 0x0000, 1, 0x0801, 0xc002, 2, true, true),
            // a semi-transparent object under another isn't seen, whichever comes first
            Pair(1, 0x0400, 0, 0x0001, 0xc002, 0, false, false),
            Pair(0, 0x0000, 1, 0x0401, 0xc001, 0, false, false),
            Pair(1, 0x0c00, 0, 0x0801, 0xc002, 2, false, false),
            Pair(1, 0x0400, 1, 0x0001, 0xc002, 0, true, false),
            Pair(1, 0x0400, 2, 0x0001, 0xc001, 1, true, true),
            // a bitmap is none of them
            Pair(3, 0x0000, 0, 0x0401, 0xc002, 1, false, false),
        ],
    )
}
