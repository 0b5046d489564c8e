//! What tells a processor of time and events: its interrupt words (GBATEK, "DS Interrupts") and its four timers (GBATEK,
//! "DS Timers").
//!
//! Proved, for every state. `Irq::line` is IME and a bit that IE and IF share; `wakes` is that bit whatever IME is. `raise` sets bits of IF
//! and `ack` clears them, each but for bit 21, which `level21` alone sets and clears. `Timers::counter_at`: where the timer counts time,
//! the count at its anchor plus the whole paces since then; otherwise the count that it holds; no counter is ever ticked up. `due`: the
//! anchor plus the paces that are left to 65,536; None exactly where the timer is stopped or counts up (clause `free`). `set_control` keeps
//! bits 0, 1, 2, 6 and 7, and changes the timer by one of four cases (`change`): it starts, from the reload; it goes on by its anchor at
//! its pace; it takes its counter at this tick as a new anchor; or it holds its count. From a start at t on a timer that counts time has as
//! counter its reload and one more for each whole pace, and is due at t and 65,536 less the reload paces (`start`), until something is
//! written or it overflows. `overflow`: the timer starts again from its reload, anchored at its due tick; each timer after it that runs and
//! counts up takes the overflow of the one before it, and overflows in turn where it is full; from then on it counts whole paces from its
//! reload again (`again`). A call at a tick makes its timer due after that tick or not at all, and the others as before (`alone`,
//! `schedule`). `Timers::laws` tells that the four are always timers (the kept bits of a control alone, numbers of 16 bits, an anchor
//! exactly where one counts time), `Irq::laws` that IE and IF have 32 bits. `set_control` asks for a tick up to 2^56, and `overflow` that
//! the timer is due at one. `pack`, `unpack`, `saved_laws`: both in bytes; `Irq::unpack_by` also refuses, at IF, words that would wake a
//! processor which the caller tells to be asleep; nothing else takes memory.
//!
//! Only tested, in `units_tests`: that the clauses say what worked values say (an overflow, a chain of three and where it ends, each pace,
//! each change of control, the line).
#![tactic(auto)]

mod irqs;
mod saved;
mod timers;

pub use irqs::Irq;
pub use saved::saved_laws;
pub use timers::Timers;
