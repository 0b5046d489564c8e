//! The console's machine: its memories, its processors, the units behind its ports, and the step of each actor.
//!
//! A machine is seen as a `MachineState` (specs/States.antt): a record with a part for each unit, each processor's own part
//! apart. `Machine::new` stands for the boot state, and `Machine::step` is exactly the reference step of the actor that steps.
//!
//! All that a step reaches is served: boot, every instruction over all memories, CP15, the ports of every unit that is built, the boot ROM
//! stub, interrupts, halts and waking, key scripts, the display and geometry. What is left out stops the machine: a function that the boot
//! ROM hasn't (Swi), big-endian mode, a mode of HALTCNT, a start of DMA, a transfer of the card, and what the display needs and hasn't.
//!
//! Proved of calls:
//! - `Machine::new` is the boot state (`machine_booted`): the eight memories with ARM9's image, then ARM7's, then the header copied to
//!   where they go; both processors' 37 registers; CP15's numbers; both processors due at tick 0, the display at 3,212. The images go to
//!   RAM, so the units behind the ports are as at boot (clause `units`).
//! - `due` is the least actor of the 24 by due tick and then by rank. A processor isn't due while it is halted or a DMA channel of it runs,
//!   and ARM9 isn't, nor its channels, while a stall of geometry holds them.
//! - `step`, of the least actor, or of the least acting one where its step doesn't observe geometry, or of a processor that may step before its
//!   turn (`MayStep`), on a machine that goes on (`IsRunning`), is exactly the reference step of that actor (`Steps`): the state after it, with
//!   the units settled and the processors awake that wake by it (`ended`), and what it puts out; or the stop, and the state that the stop
//!   leaves. A processor's step is `taken` over what it reaches and its side, one definition and one function for both, with its cost in ticks:
//!   that of its class, and the waits of its fetch and of each of its accesses (`in_ticks`, `waits_of_step`). One that wakes, or whose channel
//!   moved a unit, goes on once that unit's waits are over (`due_past_unit`). Geometry's step is its head command; where that ends a stall ARM9,
//!   unless it is halted, is due after its tick at the earliest (`after_geometry`). While a processor is halted the tick of its next step is 0
//!   (`went_on`, `past_tick`). The display's step is its event with palettes and OAM (`video_step`): where it makes a frame whole it swaps
//!   geometry lists that wait, and puts out the frame, whether a swap waited, and the lists of the last swap. `step` is lent a cartridge, and
//!   its state is read with that file (`with_file`), before the step and after it; `step_inserted` is the same step with the cartridge in the
//!   machine's slot (`insert`). No step changes the file (`touch_laws`, clause `file`).
//! - `looked` is the value that a processor's read at a tick gives at an address (`looked_of`), where anything answers, with nothing read; `pc`,
//!   `cpsr` and `is_halted` tell a processor's address, its CPSR, and whether it is halted.
//!
//! Proved of turns:
//! - `touches` is Yes exactly where a processor's next step may be taken before its turn, but for when it is due (`IsPrivate`): it is due,
//!   its interrupt line is down, nothing that another actor raises reaches it, its fetch and each byte of its accesses lie in places that
//!   it alone reaches by the present map, and its instruction is of a kind that goes ahead. Past ARM9's tightly coupled memories these
//!   places are its boot ROM, the bytes of shared work RAM that WRAMCNT shows to it, palettes, OAM, and addresses of video memory that meet
//!   no bank that is allotted to ARM7; ARM7's are its own work RAM from 3800000h on and its boot ROM.
//! - `fence` is the least tick at which one acts of those that may halt it, wake it or make it wait (`IsFence`; quiet geometry doesn't
//!   act), and `belongs_by` is exactly whether its next step belongs to its turn with a limit (`BelongsToTurn`).
//! - `go_fast` takes steps of its turn, as many as it knows of, and answers whether the turn is over. `ends` tells the first tick at which an
//!   actor acts that is no processor, and when both processors are due (`HasEnds`); by these `Ends::first` tells a processor that is the least
//!   acting actor, and the first tick at which it wouldn't be any more, or not be due below the turn's limit (`IsFirst`), by which `go_fast`
//!   goes. Of the three it moves its own processor's tick alone.
//! - `acting` is the least of all that are due but quiet geometry (`IsActing`); `observes` tells exactly whether an actor's next step
//!   observes geometry (`observes_by`); `catch_up` takes exactly the steps of quiet geometry before a place in the order of steps, before
//!   which nobody acts (`CatchesUp`), and `catch_up_before` does so before a step that observes geometry (`CatchesUpFor`). `step_of_turn` does
//!   this, and then takes a processor's step.
//!
//! Proved of bytes, by one format (`machine_format`), which is the order of the fields with each field's rule; the formats of the units are their
//! own:
//! - `pack` puts exactly the machine's bytes by it. `unpack`, at a tick, with a cartridge, a whole key script and the counts of steps, gives exactly
//!   the machine that is read, or where the first field begins that isn't whole or breaks its rule (`read_format`); a rule over several units is told
//!   at the last of its fields. What isn't saved is made anew: the geometry FIFO's bit of ARM9's IF, what a stall's end left (`released_again`), and
//!   the lines of the script that are to come (`script_from`). The machine goes on (clause `running`): its units are settled, no halted processor is
//!   to wake, and nobody is due before the tick.
//! - `saved_laws`: bytes that are read are those of what is read (`spelling`); they are those of the state alone (`same`); and what is read has the
//!   counts and the file that were handed in (`counts`).
//!
//! Proved of runs, each by a law call:
//! - `reference_laws`: runs join, are unique, exist, and take at most 24 steps a tick.
//! - `running_laws`: a machine goes on at boot, after each step that may be taken, with each later limit, and from any state that was kept
//!   in which nobody is due below the limit and steps add up to at most 24 times the limit; each step that is taken is one more.
//! - `own_step_laws`: a processor's step is that of `step9` or `step7`.
//! - `touch_laws`: what each actor's step touches, as the table of actors says (`specs/Touched.antt`): with all other parts of the machine
//!   from another one it comes to the same, and it leaves all parts but those that its row of changes has. Geometry moves the tick at which
//!   ARM9 is due past the end of a stall.
//! - `ahead_laws`: a private step before its turn is always taken, puts out nothing, and changes neither endings nor outputs of runs past
//!   its tick.
//! - `lag_laws`: nor does a step that doesn't observe geometry, taken before quiet geometry's steps that are due before it; where it stops
//!   the machine, the run stops so.
//! - `acting_laws`: both together, for each step of a turn.
//! - `own_turn_laws`: a step of a turn leaves its processor fewer ticks below the limit (`own_remaining`).
//! - `kept_laws`: nothing is kept that has no effect (`KeepsNoMore`).
//! - `time_laws`: what the machine keeps of time wherever a run to a tick ends, at boot, and by each later tick (`IsWithinTick`), and which lines
//!   of a script are left there.
//! - `back_laws`: the bytes of such a machine are read as it was.
//! - `status_laws`: CPSR and SPSR have no bits but those that are kept.
//! - `frame_laws`: a frame or lists that a step puts out are the machine's last ones after it, and no other step changes them.
//! - `room_laws`: an instruction makes sixteen accesses of data at most; where no stall holds ARM9 each access finds at most 320 entries
//!   waiting for geometry, and at most 324 wait after it: so the code's bus, which would ignore a write for want of room, is the reference's.
//! - `card_laws`: each step of any actor, taken or not, passes the card as the card's own law says, with the words that its accesses or its
//!   DMA unit read; so from a transfer's start on these are the transfer's words, in order (`specs/CardSteps.antt`).
//! - `stop_laws`: no step of any actor, in any state, stops for want of what isn't built yet.
//! - `Machine::laws`: what holds of every machine; units and script are sound, neither FIFO holds more than 16 words, kept status bits,
//!   geometry within its sizes.
//!
//! Only tested: through the top call (`nds_rows`) boot, worked programs, stops, and the images in work RAM; in `machine_tests` when each
//! kind of actor is due between two steps, what a processor does next, a memory's bytes one by one, how geometry stalls, interrupts,
//! starts DMA and swaps, how many bytes a booted machine has, and where some changed bytes are refused.
#![tactic(auto)]

mod answers;
mod boots;
mod catching_up;
mod dues;
mod events;
mod fences;
mod geometry_laws;
mod going;
mod lagging;
mod laws;
mod machines;
mod next_events;
mod parts;
mod processors;
mod saved;
mod scripts;
mod sides;
mod steady_ports;
mod steps;
mod stopping;
mod touching;
mod turns;

pub use answers::{Done, Private, Seen};
pub use fences::rank_of;
pub use geometry_laws::room_laws;
pub use laws::{
    acting_laws, ahead_laws, back_laws, frame_laws, kept_laws, lag_laws, own_step_laws,
    own_turn_laws, reference_laws, running_laws, status_laws, time_laws, touch_laws,
};
pub use machines::Machine;
pub use next_events::{Ends, First};
pub use saved::saved_laws;
pub use stopping::stop_laws;
