//! The memory map: what both processors reach through their buses, and their views of it.
//!
//! A `Map` has the memories past ARM9's tightly coupled ones, and the units behind the ports; it is seen as a `MapState`
//! (specs/Maps.antt). A view lends its parts to a processor for one step: ARM7's is the map alone; ARM9's has CP15 and the tightly coupled
//! memories before it. Each view is a memory machine by definition (specs/Views.antt) and a `Bus` by code.
//! (GBATEK, "DS Memory Map".)
//!
//! Proved: `Map::read`, `fetch` and `write`: what a processor reads, fetches and writes at any address at a tick, of any width, aligned down, what
//! a read leaves, the stop for which a write is refused, and that all else stays; bytes that ARM9 doesn't write are dropped. The first two tell how
//! long the access waits too, found by the same look. `main_given`, `put_main` and `put_near` say it of main memory and ARM7's own work RAM alone.
//! Each is by what the processor reaches (`map_seen`), and leaves what it doesn't (clause `apart`). `SevenView` and `NineView` are buses: each
//! access is that of the processor's memory machine (`seven_memory`, `nine_memory`) on what they borrow, and adds to a sum how many ticks it waits
//! (`waiting`): by the place that its address names in the state before it, and not at all where a tightly coupled memory answers (`seven_wait`,
//! `nine_wait`; `wait_at` is that past those). ARM9's places each access by CP15's numbers: ITCM, then DTCM, which fetches don't see, then the map.
//! A bus answers in every state, and the list of what waits for geometry has a fixed size: so `write` and ARM9's bus ignore a write of a port for
//! want of room (`map_guarded`, `guarded_memory`), and `put` is told that there is some. `move_unit` moves a channel's unit, which reaches the map
//! alone, where there is room: read, taken with its two waits (`unit_waits`), written, or refused and still in the plan (`unit_moved`,
//! `unit_refusal`). `look` and `looked_by_nine` tell what a read would give, where anything answers, and take all by `&`, so that nothing is read
//! (specs/Looks.antt). Memory is taken in `Map::new` alone.
#![tactic(auto)]

mod blocks;
mod maps;
mod moves;
mod observed_ports;
mod views;

pub use blocks::Block;
pub use maps::{Given, Map, looked_by_nine, wait_at};
pub use observed_ports::is_observed_port;
pub use views::{NineView, SevenView, fetched_by_nine};
