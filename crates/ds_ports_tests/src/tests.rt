//! Each rule of the ports on worked rows, from GBATEK.

mod card;
mod controls;
mod display;
mod dma;
mod dues;
mod geometry;
mod interrupts;
mod ipc;
mod keys;
mod lines;
mod map;
mod maths;
mod often;
mod quiet;
mod room;
mod timers;
