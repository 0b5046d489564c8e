//! The top call: it reads the words of a command line, carries out the command on the files that they name, and says how it ended.
//! `ds_main`'s contract is the run theorem: for every command line, shelf of files and sink, `run` writes exactly the output of the
//! reference machine, booted from the cartridge with the script's keys and stepped, least tick first, to the given tick, and ends with that
//! run's status; any other answer has its cause, and where the sink fails a front of that output is written.
//!
//! Proved of `ds_main`, clause `answer` (`Gives`), for every command line, shelf and sink:
//! - `run`: under Done the sink has what it had, followed by exactly the output of the reference run from boot to the tick and nothing
//!   else, that run comes to the tick, and the seat has the console that ran it, as after its turns, at the run's last state; the number of
//!   turns in that output is its count, which has grown by as many of them as count (`run_ahead`'s `turn_laws`). Under LeftOut the same of
//!   the run that stops there. Under WriteFault a front of that same output, wherever the console came to, and the sink's count of faults
//!   rose; the seat's console is as after some turns. The refusals of files and NoMemory leave the sink as it was and the seat empty.
//! - `list`: under Done exactly the listing of the processor's image, by its architecture and from the address on where the header has it
//!   go; under WriteFault a front of it.
//! - `asm`: under Done exactly the bytes whose listing the text is, under WriteFault a front; BadText comes exactly where the text is no
//!   listing, with its first bad line; TooLong where it has more than 134,217,728 bytes. So `asm` of what `list` wrote gives the image,
//!   since a text is the listing of one image at most.
//! - `trace`: under Done exactly the lines of the processor's first steps in the reference run, so many as are asked for or those of a run
//!   that comes to the tick; under LeftOut the run stops before it has so many, and all of them were written; under WriteFault a front of
//!   them; no console is left.
//! - `peek`: exactly the lines of the memory's bytes in the state that the reference run comes to at the tick; under LeftOut nothing was
//!   written; the seat has the console as after `run`.
//! - `demo`: the same of four lines, on the cartridge that the number stands for: the length and the SHA-256 of what `run`
//!   writes of it with `all`; no other answer comes but want of memory.
//! - `save`: exactly the bytes of the console that the reference run comes to at the tick, with the SHA-256 of its cartridge, and they are
//!   read back as that console; under LeftOut nothing was written; the seat has the console as after `run`.
//! - `resume`: what `run` writes, of the reference run from the machine that the saved console's file stands for; its last whole frame and
//!   last lists count where that run makes none, and the count of turns goes on from its own; the seat has the console as after its turns
//!   from there. BadState comes exactly where that file isn't accepted for the cartridge's SHA-256 and the tick, with the place
//!   of the first field that isn't whole or breaks its rule, or of the first byte left over.
//! - `notes` has what it had, followed by the status's line, or by a front of it where its count of faults rose; the name in the line is
//!   that of the file which the status speaks of.
//!
//! The clauses on names, lengths, headers, scripts and the run hold where the shelf tells its files, which the call leaves as they were
//! (clause `files`). Want of memory is free: no clause ties it to a cause.
//!
//! `top_laws` says what follows for calls in which no count of faults rose and whose shelf tells its files. Where the words ask for
//! something that can be done (`CanBeDone`: its files are there, short enough and accepted, and the reference run comes to the tick; a
//! listing or an assembling needs its own file alone, a demo none; to go on wants the saved console's file, too), the answer is Done, or there was no
//! memory (clause `complete`). And the same words over the same files have one status, and one list of bytes is what either call's sink was given,
//! over any two sinks, but for want of memory (clause `one`).
//! A run may be cut in two by a saved console (clause `resumed`): where one call saved it at a tick, and a second goes on from what that
//! wrote, a third that runs the whole, with the same cartridge and key script by their bytes, to the same later tick has the same status
//! and writes what is written while the run to the saved tick runs, and then what the second writes, but for the count of turns in its end.
//!
//! Only tested, by the rows of `nds_rows`: worked runs, refusals and listings through the whole call.
#![tactic(auto)]

mod calls;
mod demos;
mod laws;
mod listings;
mod peeks;
mod runs;
mod states;
mod statuses;
mod steps;

pub use calls::ds_main;
pub use laws::top_laws;
pub use nds_answers::{Status, number};
pub use nds_plays::{Played, demo_cart, empty_seat, let_go, play, put_resumed, save, switch_on};
pub use nds_words::{Keep, ScriptFault, read_script};
