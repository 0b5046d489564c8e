//! Who steps next, and what a run is.
//!
//! The console is a machine of 24 actors (`specs/Actors.antt`). Of the actors that are due, the one with the least due tick takes the next
//! step; at equal ticks the one with the least rank goes first. The reference run to a limit takes every step whose due tick is below the
//! limit, unless a step stops the machine. `specs/Runs.antt` says so for any machine of states, steps, outputs and stops; `specs/Owed.antt`
//! says what a machine owes of its due ticks so that every run ends, and `specs/Ahead.antt` and `specs/Lags.antt` what it owes so that an
//! actor may take steps before their turn, or later than it is due; and `proofs/` has the laws of runs on which all later theorems rest,
//! from that alone.
//!
//! Proved: `Actor::of` and `Actor::rank` are the table of 24; `earlier` gives the one of two actors that may be due which steps first, and
//! the first of a list of due ticks by it (`first_from`) is the least actor. The laws of runs (specs/Laws.antt) follow for any machine from
//! what it owes of its due ticks (`Schedules`: somebody is due, a step leaves each due tick as it was or later than its own, and its actor
//! is due later): the run to a limit and then to a later one is the run to the later one; a run has one ending and one output; from every
//! sound state there is a run to every limit; a run takes at most as many steps as there are actors, for each tick below its limit.
//!
//! Proved of steps out of order, for each limit above the due tick: a private step before its turn changes no ending and no output
//! (`AheadAgrees`), which follows for any machine and any choice of private steps from `MayRunAhead`, or from two laws of an own part
//! (`HasOwnPart`: a private step changes the own part alone, and others' steps neither change it nor depend on it). An actor may lag
//! (`LagAgrees`, `LagStops`): another's step that neither depends on the lagging actor's steps that are due before it nor changes what they
//! do may be taken first; endings are the same, and outputs but for what the step itself puts out, which comes first. It follows from
//! `MayLag`.
#![tactic(auto)]

mod actors;
mod order;
pub mod ranks;

pub use actors::Actor;
pub use order::{earlier, earlier_than, entry, later_than};
