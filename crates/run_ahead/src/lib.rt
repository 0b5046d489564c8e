//! The console: a machine that runs by turns, with the greatest limit that it was run to, and the stop where it came to one.
//!
//! Proved:
//! - `Console::new` is a console that is switched on with a cartridge, with limit 0, no stop and no turn. The cartridge stands in
//!   its machine's slot, so all turns are of one cartridge.
//! - `Console::turn`, clause `turn`: nothing where no actor is due below the limit. Where quiet geometry alone is, all its steps that are
//!   due below it (`TakesQuiet`). Otherwise, where the least acting actor is no processor, exactly its reference step (`TakesEvent`). Where
//!   it is a processor, that processor's steps, as long as the next belongs to the turn: it is due below the limit, and it is the least
//!   acting step or may be taken before its turn (`TakesStretch`: these steps, and after them the next doesn't belong to the turn); before
//!   each that observes geometry all of quiet geometry's that are due before it are taken. Or the stop that one of these steps meets, after
//!   the steps before it. Only the limit and the count of turns change besides; after a stop every turn answers the same and changes
//!   nothing.
//! - Its clause `runs`: to each limit that isn't below this one, the reference run from before the turn is what the turn put out and then
//!   the run from after it; at the end of a run, and at a stop, the run to the limit is that ending.
//! - Its clauses `counted`, `falls`: a turn that took a step and didn't stop is one more of those that count, and leaves fewer turns below
//!   the limit: fewer places of acting actors in the order of steps, or the same, and geometry isn't behind any more; any other adds
//!   nothing.
//! - Its clauses `frames`, `lists`: what the turn made whole are the last frame and lists after it, and every other turn leaves both.
//! - `run_on` takes turns up to one that answers anything but that it ran, and gives that answer (`other`); the console is as after those
//!   turns (`turns`), and where a frame became whole fewer turns are left (`falls`).
//! - `turn_laws`: the count of turns adds up (`add`); a turn with a limit is one (`one`); from each console that hasn't stopped, whose
//!   machine is sound, turns with a limit go on to their end (`end`), which is one (`ends_are_one`), and so is the console there, and the
//!   reference run ends (`ends`); after turns with any limits, none of which stopped, the reference run to each limit that isn't below the
//!   console's is what they put out and then the run from there (`runs`); where one stopped, the run stops there (`stops`).
//! - `tick_turn_laws`: a turn whose limit is the tick after the least due tick is one step, and there is a reference run to every limit
//!   (`has_runs`).
//! - `counts` tells the steps, at most 24 times the limit (`bound`), and the turns, no more than steps (`fewer`). `framed` is the tick of
//!   the last whole frame: None exactly where no frame is whole yet.
//! - `Console::save` gives exactly the console's bytes (`state_bytes`): a head, with the SHA-256 that it is given, the tick and the counts,
//!   and the machine behind it. They are read back as the console (`accepted`), by each later limit and with each key script of which its
//!   lines are those from its tick on, where all that the machine keeps of times is as it is after a run to that tick: so it is of one that
//!   was just switched on (`Console::new`, clause `within`), and wherever a run of it ends (`time_laws`). `Console::resume`
//!   gives exactly what is read of bytes (`read_state`): the console that they stand for; or the place of the first field that isn't
//!   whole or breaks its rule, or of the first byte that is left over. `Console::go_back` becomes that console, of the cartridge that it has, and
//!   after a refusal is as it was. `state_laws`: bytes that are read as a console are its bytes,
//!   and are no more than a file of one may have.
//! - `Console::looked` is the value that a processor's read gives at an address at the tick up to which the console was run, where anything
//!   answers (`looked_in`), and reads nothing; `pc`, `cpsr`, `is_halted`, `due_of` and `steps` tell a part of the machine each.
//! - `Console::laws` tells what `Machine::laws` does, at most 324 entries that wait (`entries`), at most 6,144 vertices and 2,048 polygons
//!   in the open lists (`open`) and the last (`last`), and unless the console has stopped that no halted processor is to wake and the units
//!   are settled (`sound`).
//!
//! Which steps are taken on the fast path is speed, and neither proved nor tested.
#![tactic(auto)]

mod consoles;
mod heads;
mod laws;
mod machine_turns;
mod turns;

pub use consoles::{Console, Counts, state_laws};
pub use ds_machine::{Seen, reference_laws};
pub use heads::Head;
pub use laws::{tick_turn_laws, turn_laws};
pub use turns::Turned;
