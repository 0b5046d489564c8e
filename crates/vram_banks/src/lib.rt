//! The nine banks of video memory (GBATEK, "DS Memory Control - VRAM"), and what the 2D engines' layers read of it alike: tiles of 8 by 8
//! pixels, the colours of palettes, where backgrounds have their maps and tiles, and which points of them a line shows (GBATEK, "LCD VRAM
//! Character Data", "LCD Color Palettes", "LCD I/O BG Control", "LCD I/O BG Rotation/Scaling").
//!
//! A reviewer reads `specs/BankMap` (the bank table, controls, and which cell stands where) and `specs/Cells` (what is read and written).
//! `specs/paging` has what the code keeps beside bytes and controls; no public call speaks of it. For layers `specs/Tiles` says which index a
//! tile has at a place, `specs/Colours` which pixel an index gives, `specs/Bases` where maps and tiles begin, and `specs/Points` which place of
//! a background is shown; their code takes a tile's row of eight at once. Tests stand in `rows2d_tests`.
//!
//! The definition is the bank table as data, to be laid beside GBATEK's: for each bank rows of MST, space, base, what the two bits of OFS
//! add, and size. From it come a relation (a cell of a bank stands at an address of a space: `Stands`, and so a byte of the 656K is there:
//! `IsThere`) and the byte at an address of a space (`vram_byte`): the OR over the nine banks of the cell that a bank has there, or 0.
//! Definitions of layers are written over that byte.
//!
//! Proved. `read`: the number whose bytes are those at the addresses from `at` on, aligned down (clause `value`), as narrow as the access
//! (`narrow`); each is the OR of exactly the cells that stand at its address, taken by remainder of the space's size, and 0 where none
//! stands (`stands`). `write`: each byte goes into every cell that stands at its address (`value`), and every other cell and all controls
//! are as before (`changed`). `row`: place i has the byte at the exact sum `at` + i. `run`: so has each place of what it answers; how many
//! there are isn't promised. `set_control`: the control keeps MST, OFS and bit 7 of what is written. `bank_laws`: 671,744 bytes and nine
//! controls, each with no bits but those that its bank keeps; a cell that stands at an address of a space lies in a bank that is allotted
//! to ARM7 exactly where the space is ARM7's (`allotted`). `allotted7`, `c`, `d`: bit 0 is 1 exactly where C stands somewhere in ARM7's
//! space, bit 1 where D does. `pack` and `unpack`: the bytes of all banks and controls, and what is read of bytes, by one format
//! (`specs/Saved`); `saved_laws`: its bytes are read as it was, and bytes that are read are its bytes. `Vram::new`, `pack` and `unpack`
//! alone take memory.
//!
//! Only tested: that the table is the console's (for every MST and OFS both ends of each page of the space, with one byte before it and one
//! past it; textures' MSTs seen nowhere; each space's size), and that `new` succeeds with ample memory.
#![tactic(auto)]

mod banks;
mod bases;
mod cells;
mod colours;
mod maps;
mod points;
mod rows;
mod saved;
mod tiles;
mod windows;

pub use banks::Vram;
pub use bases::{background_palette_space, background_space, map_base, tile_base};
pub use colours::{
    byte, byte_within, colour_pixel, extended_pixel, fill_table, half, opaque_pixel,
    paint_by_table, paint_nibbles, paint_standard, palette_colour, standard_pixel,
};
pub use points::{affine_coordinate, place_within};
pub use rows::Row;
pub use saved::saved_laws;
pub use tiles::{copy_eight, copy_eight_within, flipped, row_word, row_word_within};
