//! The steps of the fast path.

ghost use Rattle.std.specs.Prelude.{◌≡◌, ◌↔◌, ◌<◌, ◌≤◌, ◌^◌, ◌⊎◌, false, true};
ghost use Rattle.ds_base.specs.declared.processors.Proc.TheVariants.{Nine, Seven};
ghost use Rattle.ds_machine.specs.NextEvents.{GoesFast, WentFast, WentOn};
ghost use Rattle.ds_machine.specs.Private.{IsBelowFence};
ghost use Rattle.ds_machine.specs.Steps.{line_of, processor_of};
ghost use Rattle.ds_machine.specs.TurnLaws.{IsTurnEnd};
ghost use Rattle.ds_machine.specs.TurnSteps.{BelongsToTurn};
ghost use Rattle.ds_machine.specs.Touching.{FetchStaysPrivate, MayBeAhead};

use crate::parts::Parts;
use crate::processors::few_ticks_of;
use arm_ops::{Lists, Runner, Singles};
use ds_base::{Proc, Tick};
use ds_places::is_main;

/// What came of trying a step of a processor's turn.
#[derive(Clone, Copy, PartialEq, Eq)]
pub enum Gone {
    /// It was taken.
    Took,
    /// None belongs to the turn any more.
    Over,
    /// Neither is known here: the step isn't one of the fast path.
    Unknown,
    /// Nor is it here, but it is LDM or STM, which is tried as such.
    List,
}

impl Parts {
    /// Whether what a processor fetches at r15 lies in private places.
    #[inline(always)]
    fn is_fetch_private(&self, proc: Proc) -> bool
        ensures { (result ≡ true) ↔ FetchStaysPrivate self.now proc }
    {
        let at = self.processor(proc).core.registers.pc();
        self.is_private(proc, at, false, true)
    }

    /// Whether a processor fetches from main memory, which isn't private: ARM9 where it lies past both tightly coupled memories.
    #[inline(always)]
    fn fetches_main(&self, proc: Proc) -> bool
        ensures { result ≡ true → FetchStaysPrivate self.now proc → ⊥ }
    {
        let at = self.processor(proc).core.registers.pc();
        match proc {
            Proc::Nine => self.nine.cp15.is_main_fetch(at),
            Proc::Seven => is_main(at),
        }
    }

    /// Whether a tick is below a processor's fence.
    #[inline(always)]
    pub fn is_below_fence(&self, proc: Proc, tick: Tick) -> bool
        ensures { (result ≡ true) ↔ IsBelowFence self.now proc tick }
    {
        tick.0 < self.fence(proc).0
    }

    /// Whether a tick is below the limit of a turn and below a processor's fence. It is told the first tick at which an event acts, or 0: before it a
    /// tick is below both, so the fence is asked for only from there on.
    #[inline(always)]
    fn is_below_both(&self, proc: Proc, until: Tick, end: u64, tick: Tick) -> bool
        requires { 0 < end → IsTurnEnd until.0 self.now end }
        ensures no { result ≡ false → (until.0 ≤ tick.0) ⊎ (IsBelowFence self.now proc tick → ⊥) }
        ensures yes { result ≡ true → (tick.0 < until.0) × IsBelowFence self.now proc tick }
    {
        if tick.0 < end {
            return true;
        }
        tick.0 < until.0 && self.is_below_fence(proc, tick)
    }

    /// Whether a processor's step that isn't the least acting one belongs to its turn, but for what it does. Its line is down.
    #[inline(always)]
    fn may_go_on(&self, proc: Proc, until: Tick, end: u64, tick: Tick) -> bool
        requires down { line_of self.now proc ≡ false }
        requires end { 0 < end → IsTurnEnd until.0 self.now end }
        ensures no { result ≡ false → (until.0 ≤ tick.0) ⊎ (MayBeAhead tick self.now proc → ⊥) }
        ensures yes { result ≡ true → (tick.0 < until.0) × MayBeAhead tick self.now proc }
    {
        self.is_fetch_private(proc)
            && self.is_deaf(proc)
            && self.is_below_both(proc, until, end, tick)
    }

    /// One step of a processor's turn, where it is one of the fast path, which makes one access at most, or is LDM or STM, as says who runs it; by
    /// the first tick at which an event acts, or 0, and the first at which the processor isn't the least acting one any more, which it is now. It is
    /// told whether the line is up, and where that is so with I clear it is none: no interrupt is entered. It costs, and changes no unit: so no
    /// processor wakes. It observes nothing of geometry: it reaches RAM alone, or loads from a port that isn't observed.
    #[inline(always)]
    fn step_least<R: Runner>(
        &mut self,
        proc: Proc,
        until: Tick,
        end: u64,
        limit: u64,
        up: bool,
    ) -> Gone
        requires early { until.0 ≤ 2 ^ 56 }
        requires goes { GoesFast until.0 proc end limit up self.old }
        requires least { (processor_of self.old proc).due < limit }
        ensures { WentFast until.0 proc end limit up self.old result self.new }
    {
        let due = self.processor(proc).due;
        let fast = self.take_fast::<R, 0>(proc, Tick(due), up);
        if fast.clocks == 0 {
            if fast.list {
                return Gone::List;
            }
            return Gone::Unknown;
        }
        self.go_on(proc, few_ticks_of(proc, fast.clocks, fast.waits), false);
        Gone::Took
    }

    /// The same where the processor isn't the least acting one any more: the step is ahead of its turn, and reaches private places alone. Its line is
    /// down.
    #[inline(always)]
    fn step_ahead<R: Runner>(&mut self, proc: Proc, until: Tick, end: u64, limit: u64) -> Gone
        requires early { until.0 ≤ 2 ^ 56 }
        requires goes { GoesFast until.0 proc end limit false self.old }
        requires past { limit ≤ (processor_of self.old proc).due }
        ensures { WentFast until.0 proc end limit false self.old result self.new }
    {
        let due = self.processor(proc).due;
        if !self.may_go_on(proc, until, end, Tick(due)) {
            return Gone::Over;
        }
        let fast = self.take_fast::<R, 1>(proc, Tick(due), false);
        if fast.clocks == 0 {
            if fast.leaves {
                return Gone::Over;
            }
            if fast.list {
                return Gone::List;
            }
            return Gone::Unknown;
        }
        self.go_on(proc, few_ticks_of(proc, fast.clocks, fast.waits), false);
        Gone::Took
    }

    /// The step that is the least, of LDM and STM. It stands out of line, so that the loops over steps have no second copy of what they need.
    #[inline(never)]
    fn step_list_least(&mut self, proc: Proc, until: Tick, end: u64, limit: u64, up: bool) -> Gone
        requires early { until.0 ≤ 2 ^ 56 }
        requires goes { GoesFast until.0 proc end limit up self.old }
        requires least { (processor_of self.old proc).due < limit }
        ensures { WentFast until.0 proc end limit up self.old result self.new }
    {
        self.step_least::<Lists<0>>(proc, until, end, limit, up)
    }

    /// The step ahead of its turn, of LDM and STM; out of line too.
    #[inline(never)]
    fn step_list_ahead(&mut self, proc: Proc, until: Tick, end: u64, limit: u64) -> Gone
        requires early { until.0 ≤ 2 ^ 56 }
        requires goes { GoesFast until.0 proc end limit false self.old }
        requires past { limit ≤ (processor_of self.old proc).due }
        ensures { WentFast until.0 proc end limit false self.old result self.new }
    {
        self.step_ahead::<Lists<1>>(proc, until, end, limit)
    }

    /// Takes steps of a processor's turn that are ahead of it, while they are of the fast path. The answer is whether its turn is over.
    #[inline(always)]
    fn go_on_ahead(&mut self, proc: Proc, until: Tick, end: u64, limit: u64) -> bool
        requires early { until.0 ≤ 2 ^ 56 }
        requires goes { GoesFast until.0 proc end limit false self.old }
        requires past { limit ≤ (processor_of self.old proc).due }
        ensures went { WentOn until.0 proc end limit false self.old self.new }
        ensures over { result ≡ true → BelongsToTurn until.0 self.new proc → ⊥ }
    {
        'steps: loop {
            match self.step_ahead::<Singles<1>>(proc, until, end, limit) {
                Gone::Took => {}
                Gone::Over => return true,
                Gone::Unknown => return false,
                Gone::List => match self.step_list_ahead(proc, until, end, limit) {
                    Gone::Took => {}
                    Gone::Over => return true,
                    Gone::Unknown | Gone::List => return false,
                },
            }
        }
    }

    /// The same of ARM9. It stands out of line, so that the loop over steps that are the least has all that is in line to itself.
    #[inline(never)]
    fn go_on_ahead_of_nine(&mut self, until: Tick, end: u64, limit: u64) -> bool
        requires early { until.0 ≤ 2 ^ 56 }
        requires goes { GoesFast until.0 Nine end limit false self.old }
        requires past { limit ≤ (processor_of self.old Nine).due }
        ensures went { WentOn until.0 Nine end limit false self.old self.new }
        ensures over { result ≡ true → BelongsToTurn until.0 self.new Nine → ⊥ }
    {
        self.go_on_ahead(Proc::Nine, until, end, limit)
    }

    /// The same of ARM7.
    #[inline(never)]
    fn go_on_ahead_of_seven(&mut self, until: Tick, end: u64, limit: u64) -> bool
        requires early { until.0 ≤ 2 ^ 56 }
        requires goes { GoesFast until.0 Seven end limit false self.old }
        requires past { limit ≤ (processor_of self.old Seven).due }
        ensures went { WentOn until.0 Seven end limit false self.old self.new }
        ensures over { result ≡ true → BelongsToTurn until.0 self.new Seven → ⊥ }
    {
        self.go_on_ahead(Proc::Seven, until, end, limit)
    }

    /// The same of either. A turn whose next fetch is from main memory is over at once: code lies there most.
    #[inline(always)]
    fn go_ahead(&mut self, proc: Proc, until: Tick, end: u64, limit: u64) -> bool
        requires early { until.0 ≤ 2 ^ 56 }
        requires goes { GoesFast until.0 proc end limit false self.old }
        requires past { limit ≤ (processor_of self.old proc).due }
        ensures went { WentOn until.0 proc end limit false self.old self.new }
        ensures over { result ≡ true → BelongsToTurn until.0 self.new proc → ⊥ }
    {
        if self.fetches_main(proc) {
            return true;
        }
        match proc {
            Proc::Nine => self.go_on_ahead_of_nine(until, end, limit),
            Proc::Seven => self.go_on_ahead_of_seven(until, end, limit),
        }
    }

    /// Takes steps of a processor's turn, while they are of the fast path and its line is down: first those that are the least, then those that are
    /// ahead of their turn. The answer is whether its turn is over.
    #[inline(always)]
    fn go_both(&mut self, proc: Proc, until: Tick, end: u64, limit: u64) -> bool
        requires early { until.0 ≤ 2 ^ 56 }
        requires goes { GoesFast until.0 proc end limit false self.old }
        ensures went { WentOn until.0 proc end limit false self.old self.new }
        ensures over { result ≡ true → BelongsToTurn until.0 self.new proc → ⊥ }
    {
        'steps: loop {
            if limit <= self.processor(proc).due {
                return self.go_ahead(proc, until, end, limit);
            }
            match self.step_least::<Singles<0>>(proc, until, end, limit, false) {
                Gone::Took => {}
                Gone::Over => return true,
                Gone::Unknown => return false,
                Gone::List => match self.step_list_least(proc, until, end, limit, false) {
                    Gone::Took => {}
                    Gone::Over => return true,
                    Gone::Unknown | Gone::List => return false,
                },
            }
        }
    }

    /// The same where its line is up: while I is set, for which each step asks, as in a handler before it acknowledges its interrupt. None is ahead
    /// of its turn. It stands out of line, with a copy of its own of all that a step runs.
    #[inline(never)]
    fn go_masked(&mut self, proc: Proc, until: Tick, end: u64, limit: u64) -> bool
        requires early { until.0 ≤ 2 ^ 56 }
        requires goes { GoesFast until.0 proc end limit true self.old }
        ensures went { WentOn until.0 proc end limit true self.old self.new }
        ensures over { result ≡ true → BelongsToTurn until.0 self.new proc → ⊥ }
    {
        'steps: loop {
            if self.processor(proc).due >= limit {
                return true;
            }
            match self.step_least::<Singles<2>>(proc, until, end, limit, true) {
                Gone::Took => {}
                Gone::Over => return true,
                Gone::Unknown => return false,
                Gone::List => match self.step_list_least(proc, until, end, limit, true) {
                    Gone::Took => {}
                    Gone::Over => return true,
                    Gone::Unknown | Gone::List => return false,
                },
            }
        }
    }

    /// Takes steps of a processor's turn, while they are of the fast path, told whether its line is up. The answer is whether its turn is over.
    #[inline(always)]
    pub fn go_fast(&mut self, proc: Proc, until: Tick, end: u64, limit: u64, up: bool) -> bool
        requires early { until.0 ≤ 2 ^ 56 }
        requires goes { GoesFast until.0 proc end limit up self.old }
        ensures went { WentOn until.0 proc end limit up self.old self.new }
        ensures over { result ≡ true → BelongsToTurn until.0 self.new proc → ⊥ }
    {
        if up {
            return self.go_masked(proc, until, end, limit);
        }
        self.go_both(proc, until, end, limit)
    }
}
