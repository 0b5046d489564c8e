//! A turn of a machine.

ghost use Rattle.std.specs.Prelude.{◌≡◌, ◌<◌, ◌≤◌, ◌^◌, false, true, IfSome, None, Some};
ghost use Rattle.ds_base.specs.declared.left_out.LeftOut.{LeftOut};
ghost use Rattle.ds_base.specs.declared.processors.Proc.TheVariants.{Nine};
ghost use Rattle.ds_machine.specs.Private as private;
ghost use Rattle.ds_machine.specs.TurnLaws.{HasEnds, HasLimit};
ghost use Rattle.ds_machine.specs.Reference.{dues_of};
ghost use Rattle.ds_machine.specs.Steps.{processor_of};
ghost use Rattle.ds_runs.specs.Runs.{IsOver};
ghost use Rattle.ds_machine.specs.Acting.{IsActing, is_behind};
ghost use Rattle.ds_machine.specs.CountingLaws.{last_limit, IsRunning};
ghost use Rattle.ds_machine.specs.TurnSteps.{BelongsToTurn, TakesSteps};
ghost use Rattle.run_ahead.specs.Inside.{HasProcessor, TookSlowly, TookStretch, TookTurn};

use ds_base::{Due, LeftOut, Proc, Tick};
use ds_machine::{Done, Ends, First, Machine, rank_of};
use ds_runs::Actor;

/// The greatest limit of a turn.
const MOST_TICK: Tick = Tick(0x100_0000_0000_0000);

/// The processor of a rank, where it is one's.
fn processor_of(rank: u8) -> Option<Proc>
    requires { rank < 24 }
    ensures { HasProcessor rank result }
{
    match Actor::of(rank) {
        Actor::Processor(proc) => Some(proc),
        _ => None,
    }
}

/// What came of a step of a processor's turn that isn't known to be of the fast path.
#[derive(Clone, Copy)]
pub enum Slow {
    /// It was taken.
    Took,
    /// None belongs to the turn any more.
    Over,
    /// It stopped the machine.
    Stopped,
}

/// Takes a processor's next step, where it belongs to its turn with a limit; where it observes geometry, geometry catches up before it. It is told a
/// tick before which the processor is known to be the least acting actor, or 0. A stop is put where stops are kept: an answer that carried it would
/// be moved at each turn.
#[inline(never)]
fn step_slowly(
    machine: &mut Machine,
    stop: &mut Option<LeftOut>,
    proc: Proc,
    until: Tick,
    limit: u64,
) -> Slow
    requires early { until.0 ≤ 2 ^ 56 }
    requires limit { (processor_of machine.old proc).due < limit → HasLimit until.0 machine.old proc limit }
    requires going { IsRunning last_limit machine.old }
    requires running { stop.old ≡ None }
    ensures { TookSlowly until.0 proc machine.old result stop.new machine.new }
{
    if !machine.belongs_by(proc, until, limit) {
        return Slow::Over;
    }
    let tick = machine.tick_of(proc);
    machine.step_of_turn(proc, tick, stop);
    if stop.is_none() {
        return Slow::Took;
    }
    Slow::Stopped
}

/// Takes a processor's steps that belong to its turn with a limit, one after another, up to the first that doesn't, or to one that stops the machine,
/// whose stop is put where stops are kept. The answer is whether there is one. It begins with the first tick at which the processor isn't the least
/// acting one any more, and with that by which it was found, and leaves that by which the next turn's processor is: steps of the fast path move the
/// processor's tick alone, after any other all is asked for again.
#[inline(always)]
pub fn take_stretch(
    machine: &mut Machine,
    stop: &mut Option<LeftOut>,
    ends: &mut Ends,
    proc: Proc,
    until: Tick,
    first: u64,
) -> bool
    requires early { until.0 ≤ 2 ^ 56 }
    requires going { IsRunning last_limit machine.old }
    requires limit { HasLimit until.0 machine.old proc first }
    requires ends { HasEnds until.0 machine.old ends.old }
    requires running { stop.old ≡ None }
    ensures took { TookStretch until.0 proc machine.old stop.new machine.new }
    ensures goes { result ≡ false → stop.new ≡ None }
    ensures stops { result ≡ true → (left : LeftOut) × (stop.new ≡ Some left) }
    ensures ends { result ≡ false → HasEnds until.0 machine.new ends.new }
{
    let mut limit = first;
    'steps: loop {
        if machine.go_fast(proc, until, ends.end, limit) {
            ends.put(proc, machine.tick_of(proc));
            return false;
        }
        match step_slowly(machine, stop, proc, until, limit) {
            Slow::Took => {}
            Slow::Over => {
                *ends = machine.ends(until);
                return false;
            }
            Slow::Stopped => return true,
        }
        *ends = machine.ends(until);
        match machine.limit_of(proc, until) {
            Some(next) => limit = next,
            None => {
                let stopped = end_slowly(machine, stop, proc, until);
                *ends = machine.ends(until);
                return stopped;
            }
        }
    }
}

/// Takes the steps of a turn whose first tick past it is known: two copies of the loop over steps, one for each processor.
#[inline(always)]
pub fn take_stretch_of(
    machine: &mut Machine,
    stop: &mut Option<LeftOut>,
    ends: &mut Ends,
    first: First,
    until: Tick,
) -> bool
    requires early { until.0 ≤ 2 ^ 56 }
    requires going { IsRunning last_limit machine.old }
    requires limit { HasLimit until.0 machine.old first.proc first.limit }
    requires ends { HasEnds until.0 machine.old ends.old }
    requires running { stop.old ≡ None }
    ensures took { TookStretch until.0 first.proc machine.old stop.new machine.new }
    ensures goes { result ≡ false → stop.new ≡ None }
    ensures stops { result ≡ true → (left : LeftOut) × (stop.new ≡ Some left) }
    ensures ends { result ≡ false → HasEnds until.0 machine.new ends.new }
{
    let limit = first.limit;
    match first.proc {
        Proc::Nine => take_stretch(machine, stop, ends, Proc::Nine, until, limit),
        Proc::Seven => take_stretch(machine, stop, ends, Proc::Seven, until, limit),
    }
}

/// Takes the rest of a processor's steps that belong to its turn, where it isn't known when it isn't the least acting one any more.
#[inline(never)]
fn end_slowly(machine: &mut Machine, stop: &mut Option<LeftOut>, proc: Proc, until: Tick) -> bool
    requires early { until.0 ≤ 2 ^ 56 }
    requires going { IsRunning last_limit machine.old }
    ensures took { TookStretch until.0 proc machine.old stop.new machine.new }
    ensures goes { result ≡ false → stop.new ≡ None }
    ensures stops { result ≡ true → (left : LeftOut) × (stop.new ≡ Some left) }
{
    *stop = take_stretch_slowly(machine, proc, until);
    stop.is_some()
}

/// The same, where the turn isn't taken at once: the fast path stands elsewhere.
#[inline(never)]
fn take_stretch_slowly(machine: &mut Machine, proc: Proc, until: Tick) -> Option<LeftOut>
    requires early { until.0 ≤ 2 ^ 56 }
    requires going { IsRunning last_limit machine.old }
    ensures { TookStretch until.0 proc machine.old result machine.new }
{
    let mut stop = None;
    'steps: loop {
        match step_slowly(machine, &mut stop, proc, until, 0) {
            Slow::Took => {}
            Slow::Over => return stop,
            Slow::Stopped => return stop,
        }
    }
}

/// Takes an event's step that is the least of those who act; where it observes geometry, geometry catches up before it.
fn take_event(machine: &mut Machine, acting: Due, until: Tick) -> Done
    requires early { until.0 ≤ 2 ^ 56 }
    requires going { IsRunning last_limit machine.old }
    requires acting { IsActing machine.old acting }
    requires event { acting.rank < private.rank_of Nine }
    requires below { acting.tick.0 < until.0 }
    ensures { TookTurn until.0 machine.old result machine.new }
{
    machine.catch_up_before(acting.tick, acting.rank);
    machine.step_inserted(acting.rank)
}

/// Whether no actor acts below a limit, so far as that is known at once.
#[inline(always)]
fn is_quiet_below(ends: Ends, until: Tick) -> bool
    ensures { result ≡ true → (ends.end ≡ until.0) × (until.0 ≤ ends.nine) × (until.0 ≤ ends.seven) }
{
    ends.end == until.0 && until.0 <= ends.nine && until.0 <= ends.seven
}

/// Whether no actor is due below a limit, so far as that is known at once.
#[inline(always)]
pub fn is_over(machine: &Machine, until: Tick) -> bool
    ensures { result ≡ true → IsOver (dues_of machine.now) until.0 }
{
    is_quiet_below(machine.ends(until), until) && !machine.is_behind(until, 0)
}

/// The processor that is the least acting actor, and when it is due, where that is known at once.
#[inline(always)]
pub fn first_processor(machine: &Machine) -> Option<Due>
    ensures { IfSome result (IsActing machine.now) }
{
    match machine.ends(MOST_TICK).first() {
        Some(first) => Some(Due {
            tick: machine.tick_of(first.proc),
            rank: rank_of(first.proc),
        }),
        None => None,
    }
}

/// Takes a turn of a machine, of which the least actor that acts is given: where it is due below a limit, an event's step, or the steps of a
/// processor that belong to its turn; where quiet geometry alone is, all its steps below the limit.
pub fn take_turn(machine: &mut Machine, acting: Due, until: Tick) -> Done
    requires early { until.0 ≤ 2 ^ 56 }
    requires going { IsRunning last_limit machine.old }
    requires acting { IsActing machine.old acting }
    requires some { until.0 ≤ acting.tick.0 → is_behind until.0 0 machine.old ≡ true }
    ensures { TookTurn until.0 machine.old result machine.new }
{
    if until.0 <= acting.tick.0 {
        machine.catch_up(until, 0);
        return Done::Made;
    }
    let Some(proc) = processor_of(acting.rank) else {
        return take_event(machine, acting, until);
    };
    match take_stretch_slowly(machine, proc, until) {
        Some(left) => Done::Stopped(left),
        None => Done::Made,
    }
}
