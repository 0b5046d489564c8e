//! The display: where it is, its events, its ports, the registers of both 2D engines, the picture that they draw, and frames (GBATEK, "DS
//! Video", "LCD I/O Display Control" and the chapters after it).
//!
//! The picture's definition is pixel by pixel: `specs/Pictures` over the pixels of `bg2d` and `obj2d`, with the layers' order in `specs/Layers`,
//! windows in `specs/Windows` and effects in `specs/Effects`. The code draws by rows.
//!
//! The pixel of an engine at a place of a line is said from the state at that line's H-blank event. A line is 256 of them, and a frame is
//! its lines, each on the screen to which POWCNT1 sends its engine as it is drawn. The layers of a place are a list from front to back:
//! those that are opaque and that the place's window shows, one priority after another, and of equal priorities objects, then backgrounds
//! by number; the backdrop is the last. Effects act on the first two of the list, and master brightness on what they make. In display mode
//! 2 of engine A the pixel is that of the bank, with master brightness alone.
//!
//! Proved, for every state, whatever video memory, palettes and objects' memory hold. `due` is the next event's tick: 3,212 ticks after the
//! line's start, and then the next line's start. `port_read` is exactly the byte of the processor's port at an offset; `port_write` writes
//! exactly the bytes that it covers, from the lowest on, each with the bits that its register keeps, and a byte of X or Y of an affine
//! background copies it to the running point; `kept_byte` is the byte that a port keeps, whether it reads or not. `event`: exactly what the
//! next event leaves, flags, running points, the drawn line, the whole frame (clause `state`); what it raises at each processor, which DMA
//! it triggers, whether a frame is whole, or why it stops, by the first need of the line in order (`answer`); after a stop all is as it
//! was. `frame` is the last whole frame, 98,304 pixels. The memory of both frames is taken by `Video::new`, and none later. `video_laws`: at boot,
//! and after each write of a port and each event, registers have the bits that they keep and no others, and pixels have bit 15 as 0; the flags
//! of V-blank and H-blank tell the line and its phase. `pack` puts exactly the display's bytes by one format, and `unpack` takes what it puts,
//! or tells the first field that isn't whole or breaks its rule; `saved_laws`: the bytes of a display at a tick are read as that display, bytes
//! that are read are those of the display that is read, and that is a display at that tick.
//!
//! Only tested, in `video2d_tests`: that the definitions are the console's, on rows worked by hand from GBATEK's tables, and that
//! `Video::new` succeeds where there is memory.
#![tactic(auto)]

mod backgrounds;
mod compositions;
mod display_registers;
mod engines;
mod frames;
mod fronts;
mod laws;
mod lines;
mod mixes;
mod plains;
mod points;
mod ports;
mod rows;
mod scans;
mod screens;
mod statuses;
mod stops;
mod videos;
mod windows;

pub use display_registers::{
    DisplayRegister, DisplayRow, control_row_at, drawing_row_at, engine_row_at, output_row_at,
};
pub use engines::Engine;
pub use laws::video_laws;
pub use videos::{Shown, Video, saved_laws};
