//! The four DMA channels of a processor (GBATEK, "DS DMA Transfers"). A channel that is enabled stands for a list of units, each of
//! which moves a half or a word from one address to another; here it is running addresses and a count. Who owns the memories moves
//! the units.
//!
//! Proved: an armed channel stands for a plan, the list of its units, each with two addresses by an equation in its number. `Dma::unit` is
//! the plan's first unit, and `Dma::finish` leaves the rest of the plan, of which the channel runs on or waits for its next burst, or arms
//! the channel again, or ends it; it gives the interrupt that it raises, at the end alone. `Dma::write` and `read`: what each port keeps
//! and reads; a control's change by three cases; a start that is left out is refused, with the control word, and all stays. `trigger`:
//! which channels a cause starts, and by the geometry FIFO for how many units: 112, or what is left where that is less. `awaits_geometry`:
//! whether a channel is enabled with that start and doesn't run; where none is, that cause changes nothing (clause `settled`), and after it
//! none is (`settles`). `Dma::due`: of the running channels the least is due, 4 ticks after its trigger, and 4 after the processor's last
//! unit and the waits of its two accesses, whichever is later; each call tells what it does to due ticks. `relation_laws`: a control's change
//! is one of three cases (`change`), a unit that is taken one of four (`takes`), of a channel that is due (`some`); and the channel whose turn
//! it is is the least that runs (`least`). `pack`, `unpack`, `saved_laws`: the channels in bytes; `unpack_by` also refuses, where the last
//! channel says whether it runs, four of which none does, for a processor that the caller tells to be late.
//!
//! Only tested, in `units_tests`: worked rows for each address mode, both widths, counts of 0, repeats, priorities, refusals, bursts.
#![tactic(auto)]

mod channels;
mod controls;
mod dma;
mod relations;

pub use channels::{LastUnit, Unit};
pub use controls::{Cause, DmaPort};
pub use dma::{Dma, DmaDue, saved_laws};
pub use relations::relation_laws;
