//! A session of gdb with a console: where it stands in time, the ways forward and back, points, and packets to answers.
//!
//! Each state that gdb sees is the one at a tick: all steps below it are taken, and none at it or later. So it is the state of `nds run` to that
//! tick.
//! Nothing of the machine is changed but by its own steps: writes of registers and memory are refused.
//!
//! - `Deck` is what a session looks at and moves; `Tape` is the one of a console: it keeps a state each 500,000 steps and events, 64 at most, of
//!   which every other one goes when there are too many. A way back takes the last state before it and runs from there.
//! - A breakpoint stops before the instruction at its address, at the tick at which the processor's step is due. Bytes that are watched are compared
//!   after the steps of each tick; the run stops at the tick of the step that changed them, and goes back to just behind it on the way back. Where
//!   reads are watched for, what each step is going to reach is asked before it, and the run stops there.
//! - A step may be answered for one processor alone. Both run all the same; what the other one met is kept, and the next run begins there.
//! - A run is answered after a slice of ticks by SIGALRM, with which gdb goes on by itself, so that an interrupt is heard.
//!
//! Proved: no bytes that come in make a call fault, and each call returns. Whatever they ask for, the deck comes from the boot from which it came
//! before (`Line::hear`), and a tape's console came from its boot by turns (`Tape::laws`), over all ways forward and back: what is kept of
//! it is read back as the console that it was. A deck that went to a tick stands at it: all steps below it are taken (`Deck::go_to`), so the
//! reference run to that tick ends there. Each look at a deck tells what its console has: ticks, addresses, registers, what is read.
//!
//! Only tested, by what the program `nds_gdb` answers to a session's packets: where runs stop, and how answers are put together of looks.
#![tactic(auto)]

mod backs;
mod commands;
mod decks;
mod descriptions;
mod engines;
mod goals;
mod hearing;
mod looks;
mod points;
mod registers;
mod replies;
mod runs;
mod saves;
mod serving;
mod sessions;
mod stops;
mod tapes;
mod watches;

pub use commands::Outlet;
pub use decks::{Deck, Stepped};
pub use hearing::Line;
pub use tapes::Tape;
