//! Playing a console to a tick, and watching it: what a run writes (specs/Records.antt), the steps of a processor as it takes them, bytes
//! of a memory at a tick, what came of a run (specs/Watches.antt); the cartridge that is made from a number (specs/Demos.antt), and sinks
//! that keep no byte; and what surrounds a call of the program: the shelf's files, the sink, the seat (specs/Calls.antt).
//!
//! A console is large, and each function that has one as a value is dear to prove. So it stands in the seat from the start, and all others
//! borrow it.
//!
//! Proved, of playing: the output of a run is defined by what the run put out and by the machine's last whole frame and last lists before
//! it (`output_of`): with `all` the record of each frame that became whole, in order, each with that of its lists behind it where waiting
//! ones were swapped there; with `last` that of the last of these frames, and where there is none that of the last whole frame before, if
//! there was one, and then the same of lists; then the last records. So at boot `last` writes a frame exactly where the run makes one, and
//! lists exactly where it swaps some. `play` writes exactly that output of the reference run from the console's state to the tick, or a
//! front of it where the sink fails, and leaves the console as after turns.
//!
//! Proved, of watching: a trace is exactly the first lines of the reference run's steps of a processor; a peek and a demo's lines are
//! exactly those of the state that the run comes to. `trace_laws`: a run has one list of lines, whichever derivation of it is looked at.
//! `demo_cart`: the cartridge that is made from a number is exactly its definition (clause `file`), and is accepted (`accepted`).
//! `HashSink::count` is how many bytes were taken modulo 2^64, and `HashSink::digest` their SHA-256, with none kept. `seat_run`: from the
//! files of a run a console is switched on where it stays, in its seat, or it is said why it isn't (`RefusesRun`), and then the seat is
//! empty. `seat_resumed` does the same with the console that a saved console's file stands for, with the SHA-256 of the cartridge's bytes; it
//! is told by the first field of that file that isn't whole or breaks its rule where it stands for none (`RefusesState`).
//!
//! Proved, of saving: `save` writes exactly the bytes of the console that the run comes to; where it stops, or where there is no memory for
//! them, nothing. They are read back as that console (clause `back`) where the one that ran was ready, as one that was just switched on is
//! (`switch_on`, `seat_run`: clause `ready`). `cut_laws`: the output of a run to a tick is what is written while its front runs to an earlier
//! tick, and then the output of the run from the machine to which that comes.
#![tactic(auto)]

mod carts;
mod demos;
mod hashes;
mod laws;
mod peeks;
mod plays;
mod records;
mod seats;
mod states;
mod steps;
mod throughs;

pub use carts::demo_cart;
pub use demos::demo;
pub use laws::{cut_laws, trace_laws};
pub use peeks::peek;
pub use plays::{Played, play};
pub use seats::{clear_seat, empty_seat, let_go, put_resumed, seat_resumed, seat_run, switch_on};
pub use states::save;
pub use steps::trace;
