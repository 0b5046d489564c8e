//! The four timers of one processor. A counter is never ticked up: it is computed from the tick and the count at which it
//! began.

ghost use Rattle.std.specs.Prelude.{◌≡◌, ◌<◌, ◌≤◌, ◌^◌, ℕ, Some, None, IsSome, true, is_some, slice_set, if◌then◌else◌};
ghost use Rattle.ds_base.specs.Interrupts.{interrupt_bit};
ghost use Rattle.ds_base.specs.Schedules.{IsEarly, IsLater, Reschedules};
ghost use Rattle.ds_base.specs.declared.ticks.Tick.{Tick};
ghost use Rattle.ds_timers.specs.Timing.{AreTimers, ChangesControl, CountsFrom, IsTimer, SchedulesOne, timers_at_boot, timer_at, kept_control, pace, runs, raises, counts_up, runs_free, counter_of, timer_due, timer_interrupt, is_start, controlled, reload_set, control_set, carries, overflows, after_overflow, overflow_bit, overflow_of};

mod saved;

use ds_base::{Interrupt, Tick, known};
use std::marker::Model;

/// The bits that a control keeps.
const KEPT: u16 = 0xC7;

/// One timer's kept numbers, and its count: at the tick `since` where it counts time, and as it stands where it does not.
#[derive(Clone, Copy)]
pub struct Timer {
    pub control: u16,
    pub reload: u16,
    pub count: u16,
    pub since: Option<Tick>,
}

/// One timer after an overflow, whether it overflowed too, and the bit that it raises.
#[derive(Clone, Copy)]
struct After {
    timer: Timer,
    overflows: bool,
    bits: u32,
}

/// The four timers of one processor. Contracts see them as a list.
#[derive(Drop)]
pub struct Timers {
    timers: [Timer; 4],
}

impl Model for Timers {
    ghost use Rattle.std.specs.Prelude.{List};
    ghost use Rattle.ds_timers.specs.declared.timers.Timer.{Timer};
    ghost use Rattle.ds_timers.specs.Timing.{AreEarly, AreTimers};

    ghost Value = { List Timer };

    ghost view = { λ t. t.timers };

    ghost invariant = { λ t. AreTimers t.timers × AreEarly t.timers };
}

fn ticks(control: u16) -> u64
    ensures value { result ≡ pace control }
    ensures some { 2 ≤ result }
    ensures within { result ≤ 2048 }
{
    match control & 3 {
        0 => 2,
        1 => 128,
        2 => 512,
        _ => 2048,
    }
}

fn is_on(control: u16) -> bool
    ensures { result ≡ runs control }
{
    (control >> 7) & 1 == 1
}

fn interrupts(control: u16) -> bool
    ensures { result ≡ raises control }
{
    (control >> 6) & 1 == 1
}

fn goes_with(which: u8, control: u16) -> bool
    ensures { result ≡ counts_up which control }
{
    which != 0 && (control >> 2) & 1 == 1
}

fn goes_alone(which: u8, control: u16) -> bool
    ensures { result ≡ runs_free which control }
{
    is_on(control) && !goes_with(which, control)
}

fn counter(timer: Timer, now: Tick) -> u16
    requires { timer.count < 2 ^ 16 }
    ensures { result ≡ counter_of timer now }
{
    match timer.since {
        None => timer.count,
        Some(since) => {
            let more = now.0.saturating_sub(since.0) / ticks(timer.control);
            ((timer.count as u64 + more) % 0x1_0000) as u16
        }
    }
}

fn due(timer: Timer) -> Option<Tick>
    requires { IsEarly timer.since }
    ensures { result ≡ timer_due timer }
{
    match timer.since {
        None => None,
        Some(since) => Some(Tick(since.0 + (0x1_0000 - timer.count as u64) * ticks(timer.control))),
    }
}

/// The tick, where there is an anchor to take.
fn anchor(taken: bool, now: Tick) -> Option<Tick>
    ensures { result ≡ (if taken then Some now else None) }
{
    if taken { Some(now) } else { None }
}

/// A timer after a write of its control.
fn with_control(which: u8, timer: Timer, control: u16, now: Tick) -> Timer
    ensures { result ≡ controlled which timer control now }
{
    let alone = goes_alone(which, control);
    if is_on(control) && !is_on(timer.control) {
        return Timer {
            control,
            count: timer.reload,
            since: anchor(alone, now),
            ..timer
        };
    }
    if alone && goes_alone(which, timer.control) && ticks(control) == ticks(timer.control) {
        return Timer { control, ..timer };
    }
    Timer {
        control,
        count: counter(timer, now),
        since: anchor(alone, now),
        ..timer
    }
}

/// A timer after an event in which timer `which` overflows, and the timer before this one, or not.
fn passed(which: u8, i: u8, before: bool, timer: Timer) -> After
    requires i { i < 4 }
    requires early { IsEarly timer.since }
    ensures value { result.timer ≡ after_overflow which i before timer }
    ensures overflows { result.overflows ≡ overflows which i before timer }
    ensures bits { result.bits ≡ overflow_bit which i before timer }
    ensures within { result.bits ≤ 64 }
{
    let carries = before && is_on(timer.control) && goes_with(i, timer.control);
    let last = timer.count == 0xFFFF;
    let overflows = i == which || carries && last;
    let bits = if overflows && interrupts(timer.control) {
        interrupt(i).bit()
    } else {
        0
    };
    let timer = if i == which {
        Timer {
            count: timer.reload,
            since: due(timer),
            ..timer
        }
    } else if carries {
        Timer {
            count: if last { timer.reload } else { timer.count + 1 },
            ..timer
        }
    } else {
        timer
    };
    After {
        timer,
        overflows,
        bits,
    }
}

fn interrupt(i: u8) -> Interrupt
    requires { i < 4 }
    ensures interrupt { result ≡ timer_interrupt i }
    ensures within { interrupt_bit result ≤ 64 }
{
    match i {
        0 => Interrupt::Timer0,
        1 => Interrupt::Timer1,
        2 => Interrupt::Timer2,
        _ => Interrupt::Timer3,
    }
}

impl Timers {
    /// The timers at boot: all 0, and none runs.
    pub fn new() -> Timers
        ensures { result ≡ timers_at_boot }
    {
        let timer = Timer {
            control: 0,
            reload: 0,
            count: 0,
            since: None,
        };
        Timers {
            timers: [timer, timer, timer, timer],
        }
    }

    /// A timer as it is kept.
    fn timer(&self, which: u8) -> Timer
        requires { which < 4 }
        ensures seen { result ≡ timer_at self.now which }
        ensures is { IsTimer which result }
        ensures early { IsEarly result.since }
    {
        self.timers[which as usize]
    }

    /// Another timer in its place.
    fn put(&mut self, which: u8, timer: Timer)
        requires which { which < 4 }
        requires is { IsTimer which timer }
        requires early { IsEarly timer.since }
        ensures { self.new ≡ slice_set self.old which timer }
    {
        self.timers[which as usize] = timer;
    }

    /// A timer's control as it is kept.
    pub fn control(&self, which: u8) -> u16
        requires { which < 4 }
        ensures { result ≡ (timer_at self.now which).control }
    {
        self.timer(which).control
    }

    /// A timer's reload as it is kept.
    pub fn reload(&self, which: u8) -> u16
        requires { which < 4 }
        ensures { result ≡ (timer_at self.now which).reload }
    {
        self.timer(which).reload
    }

    /// A timer's counter at a tick.
    pub fn counter_at(&self, which: u8, now: Tick) -> u16
        requires { which < 4 }
        ensures { result ≡ counter_of (timer_at self.now which) now }
    {
        counter(self.timer(which), now)
    }

    /// A write of a timer's reload. The counter stays until the next start or overflow, and so does what is due.
    pub fn set_reload(&mut self, which: u8, value: u16)
        requires { which < 4 }
        ensures timers { self.new ≡ reload_set self.old which value }
        ensures schedule { (now : Tick) (each : ℕ) → each < 4
            → Reschedules now (timer_due (timer_at self.old each)) (timer_due (timer_at self.new each)) }
    {
        known!(self.laws());
        let timer = self.timer(which);
        self.put(
            which,
            Timer {
                reload: value,
                ..timer
            },
        );
    }

    /// A write of a timer's control at a tick. `change` says by which case it changes; `start` what a start
    /// means for one that counts time: from then on it counts paces from its reload; `alone` and `schedule` what it does to due ticks, where the
    /// timer wasn't due by then.
    pub fn set_control(&mut self, which: u8, value: u16, now: Tick)
        requires which { which < 4 }
        requires early { IsEarly (Some now) }
        ensures timers { self.new ≡ control_set self.old which value now }
        ensures change { ChangesControl which (timer_at self.old which) (kept_control value) now (timer_at self.new which) }
        ensures start { is_start (timer_at self.old which).control (kept_control value) ≡ true → runs_free which (kept_control value) ≡ true
            → CountsFrom (timer_at self.new which) (timer_at self.old which).reload now }
        ensures alone { IsLater now (timer_due (timer_at self.old which)) → SchedulesOne which now self.old self.new }
        ensures schedule { IsLater now (timer_due (timer_at self.old which)) → (each : ℕ) → each < 4
            → Reschedules now (timer_due (timer_at self.old each)) (timer_due (timer_at self.new each)) }
    {
        known!(self.laws());
        let timer = with_control(which, self.timer(which), value & KEPT, now);
        self.put(which, timer);
    }

    /// When a timer overflows, None exactly where it doesn't count time.
    pub fn due(&self, which: u8) -> Option<Tick>
        requires { which < 4 }
        ensures tick { result ≡ timer_due (timer_at self.now which) }
        ensures free { is_some result ≡ runs_free which (timer_at self.now which).control }
    {
        due(self.timer(which))
    }

    /// A timer overflows at its due tick, and with it those after it that count up and are full. Gives the bits of IF that
    /// they raise. From then on it counts paces from its reload again.
    pub fn overflow(&mut self, which: u8) -> u32
        requires which { which < 4 }
        requires due { IsSome (timer_due (timer_at self.old which)) }
        requires early { IsEarly (timer_due (timer_at self.old which)) }
        ensures timers { self.new ≡ (overflow_of self.old which).timers }
        ensures bits { result ≡ (overflow_of self.old which).bits }
        ensures again { (now : Tick) → timer_due (timer_at self.old which) ≡ Some now
            → CountsFrom (timer_at self.new which) (timer_at self.old which).reload now }
        ensures alone { (now : Tick) → timer_due (timer_at self.old which) ≡ Some now → SchedulesOne which now self.old self.new }
        ensures schedule { (now : Tick) (each : ℕ) → each < 4 → timer_due (timer_at self.old which) ≡ Some now
            → Reschedules now (timer_due (timer_at self.old each)) (timer_due (timer_at self.new each)) }
    {
        known!(self.laws());
        let zero = passed(which, 0, false, self.timer(0));
        let one = passed(which, 1, zero.overflows, self.timer(1));
        let two = passed(which, 2, one.overflows, self.timer(2));
        let three = passed(which, 3, two.overflows, self.timer(3));
        self.timers = [zero.timer, one.timer, two.timer, three.timer];
        zero.bits + one.bits + two.bits + three.bits
    }

    /// Does nothing; its contract states what holds of the timers at every time: that there are four, and of each which bits its
    /// numbers have, and that it has an anchor exactly where it counts time.
    pub fn laws(&self)
        ensures { AreTimers self.now }
    {
        let _first = self.timers[0];
    }
}
