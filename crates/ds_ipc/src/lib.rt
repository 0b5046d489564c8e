//! The ways by which the two processors speak to each other (GBATEK, "DS Inter Process Communication (IPC)"): four bits each
//! way, and a FIFO of at most 16 words each way, with the interrupts that tell of them.
//!
//! Proved, for every state, seen as two sides with the list of words that each sent and that wait, the word that each received last, its
//! four bits, its enables and its error; each changing call has one equation for the whole state. `send`: an enabled side's word goes to
//! the end of its list; to 16 words it is lost and the sender's error set; a disabled side sends nothing. `receive` gives the oldest word,
//! or the last one received where none waits (0 at first and after a clear); an enabled side takes it, and from an empty list its error is
//! set; a disabled side takes nothing and has no error. `control_write`: the enables, a 1 in bit 14 takes the error away, a 1 in bit 3
//! empties the own list and makes the other side's last word 0; the enables count first and the clear after them. Interrupts: 16 by bit 13
//! where the other side allows it; 17 where its enable goes from 0 to 1 on an empty list, or the list becomes empty, by the other's receive
//! or by a clear, while it is set; 18 where a word comes to an empty list, or its enable goes from 0 to 1 on one that isn't empty. `laws`:
//! no list ever holds over 16 words, and the four bits and the last word are no more (`AreSides`). `pack`, `unpack`,
//! `saved_laws`: both sides in bytes. Only these and `Ipc::new` take memory.
//!
//! Only tested, in `units_tests`: that `Ipc::new` succeeds with ample memory, and that the clauses say what a walk of 17 words, each
//! interrupt and each call of and to a disabled side show.
#![tactic(auto)]

mod ipcs;
mod saved;
mod sides;

pub use ipcs::{Got, Ipc};
pub use saved::saved_laws;
