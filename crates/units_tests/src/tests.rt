//! Each unit's rules on worked rows, from GBATEK and the manuals.

mod base;
mod boot_roms;
mod bursts;
mod cards;
mod coprocessors;
mod dma;
mod dma_lines;
mod ipc;
mod irqs;
mod maths;
mod places;
mod runs;
mod saved_units;
mod states;
mod timers;
mod waits;
