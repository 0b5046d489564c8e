//! Packets of gdb's remote protocol: what comes in, byte by byte, as requests, and answers as the bytes that go out. (The GDB manual, appendix
//! "GDB Remote Serial Protocol".)
//!
//! Nothing here knows a machine. Threads are the two processors: 1 is ARM9, 2 is ARM7.
//!
//! Proved: what each call of `Answer` puts, byte by byte, and with it the packet of a body, its escapes and its sum (`packet_of`). Of the way in:
//! what each byte does to the packet that comes in (`heard`), and what it completes (`answer`); so a packet that goes out as ours do comes in as its
//! body (`hearing_laws`). No byte and no packet makes a call fault, and each call returns; a packet that is no request of these comes out as one of
//! its own kind (`Request::Unknown`, `Request::Wrong`).
//!
//! Only tested, in `gdb_tests`: which request each packet is that gdb sends, cut and garbled ones, by tables of rows; and that the definitions say
//! what gdb's manual says.
#![tactic(auto)]

mod answers;
mod framing;
mod goings;
mod readers;
mod requests;

pub use answers::Answer;
pub use framing::{Framer, Heard, MOST_BODY, Place, hearing_laws};
pub use goings::{Going, How};
pub use requests::{Point, PointKind, Request, read_request};
