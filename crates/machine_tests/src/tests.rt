//! What a machine tells: when each actor is due, what each processor does next, its memory, byte by byte, and the frame; and what the display's
//! events do to it.

mod display;
mod geometry;
mod lent;
mod observed;
mod room;
mod saved;
mod told;
