//! Rows worked by hand from GBATEK's tables. A table is a list of lines: what is done, and what is seen then. Each begins at boot.

use ds_base::{LeftKind, Proc, Space, Width};
use stage::Stage;
use std::alloc::{AllocError, Global};
use std::process::Abort;

mod effects;
mod events;
mod extended;
mod frames;
mod layers;
mod nexts;
mod objects;
mod ports;
mod registers;
mod saved;
mod stage;
mod stops;
mod windows;

/// A screen.
#[derive(Clone, Copy)]
enum Screen {
    Upper,
    Lower,
}

/// What an event starts: no DMA, that of H-blank, or that of V-blank, with a frame made whole.
#[derive(Clone, Copy)]
enum Starts {
    Nothing,
    HblankDma,
    VblankDma,
}

/// One line of a table.
#[derive(Clone, Copy)]
enum Line {
    /// A processor writes at an offset, and reads a byte there.
    Write(Proc, u32, Width, u32),
    Reads(Proc, u32, u8),
    /// When the next event is due.
    Due(u64),
    /// Goes on until the display is in a line, before its H-blank, or in a line's H-blank.
    ToLine(u16),
    ToHblank(u16),
    /// Goes on through line 191 until the frame is whole.
    NextFrame,
    /// The next event comes: the bits that it raises at ARM9 and ARM7, and what it starts.
    Event(u32, u32, Starts),
    /// The next event stops, and nothing changes.
    Stops(LeftKind, u32),
    /// A pixel of the last whole frame: screen, line, place, colour.
    Pixel(Screen, usize, usize, u16),
    /// A bank's control, by the bank's letter.
    Bank(u8, u8),
    /// So many words of a space from an address on are written.
    Fill(Space, u32, u32, u32),
    /// Each byte from 0 to 63 after an address is written with its number and 128.
    Count(Space, u32),
    /// Video memory for backgrounds, the same for both engines: see `Stage::backgrounds`.
    Backgrounds,
    /// Video memory for objects, the same for both engines: see `Stage::objects`.
    Objects,
    /// The attributes of an object; engine B's are those from 128 on.
    Object(usize, u16, u16, u16),
    /// A colour in the memory of palettes: engine A's backgrounds from 0 on, its objects from 100h; engine B's from 200h and 300h.
    Colour(usize, u16),
    /// An engine's DISPCNT and BG0CNT to BG3CNT, by the engine's base.
    Layers(u32, u32, u16, u16, u16, u16),
}

/// Goes through lines from boot.
fn try_lines(rt: &impl Abort, alloc: Global, lines: &[Line]) -> Result<(), AllocError> {
    let mut stage = Stage::new(alloc)?;
    for (number, line) in lines.iter().enumerate() {
        let (got, wanted) = stage.seen(*line);
        assert!(rt; got == wanted, "line {number}: {got}");
    }
    Ok(())
}
