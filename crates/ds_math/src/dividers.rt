//! Signed division.

ghost use Rattle.std.specs.Prelude.{◌≡◌, ◌≢◌, ◌<◌, Some, IsSome, pos, int_div, int_rem};
ghost use Rattle.ds_base.specs.Schedules.{IsEarly, Reschedules};
ghost use Rattle.ds_base.specs.declared.ticks.Tick.{Tick};
ghost use Rattle.ds_math.specs.Division.{modulo};
ghost use Rattle.ds_math.specs.Dividers.{IsDivider, divider_at_boot, division_started, division_finished, divider_seen, division_ticks, dividend, divisor, quotient_by_zero, quotient_word, remainder_word, HoldsResults};

mod saved;

use ds_base::Tick;
use std::marker::Model;

/// What the divider's registers show (GBATEK, "DS Maths").
#[derive(Clone, Copy, PartialEq, Eq)]
pub struct Quotient {
    /// The mode of the last start, below 4: 0 is 32 bits by 32, 1 is 64 by 32, 2 is 64 by 64, and 3 acts as 1. 0 before.
    pub mode: u8,
    /// The numerator of the last start, all 64 bits, and 0 before.
    pub numerator: u64,
    /// The denominator of the last start, all 64 bits, and 0 before.
    pub denominator: u64,
    /// The quotient of the last division that is done, modulo 2^64, and 0 before.
    pub quotient: u64,
    /// The remainder of the last division that is done, modulo 2^64, and 0 before.
    pub remainder: u64,
    /// Whether a division runs; until it is done the older results show.
    pub busy: bool,
    /// Whether the whole 64-bit denominator is 0, whatever the mode.
    pub zero: bool,
}

/// The divider. Contracts see its registers and the tick at which a running division is done.
#[derive(Drop)]
pub struct Divider {
    mode: u8,
    numerator: u64,
    denominator: u64,
    quotient: u64,
    remainder: u64,
    due: Option<Tick>,
}

impl Model for Divider {
    ghost use Rattle.std.specs.Prelude.{◌<◌};
    ghost use Rattle.ds_math.specs.Dividers.{DividerState};

    ghost Value = { DividerState };

    ghost view = { λ d. record {
      mode = d.mode;
      numerator = d.numerator;
      denominator = d.denominator;
      quotient = d.quotient;
      remainder = d.remainder;
      due = d.due;
    } };

    ghost invariant = { λ d. d.mode < 4 };
}

impl Divider {
    /// The divider at boot: all 0, and nothing runs.
    pub fn new() -> Divider
        ensures { result ≡ divider_at_boot }
    {
        Divider {
            mode: 0,
            numerator: 0,
            denominator: 0,
            quotient: 0,
            remainder: 0,
            due: None,
        }
    }

    /// Starts a division at a tick, also while another runs. It is done 36 ticks later in mode 0 and 68 in the others.
    pub fn start(&mut self, mode: u8, numerator: u64, denominator: u64, now: Tick)
        requires mode { mode < 4 }
        requires early { IsEarly (Some now) }
        ensures state { self.new ≡ division_started self.old mode numerator denominator now }
        ensures schedule { Reschedules now self.old.due self.new.due }
    {
        self.mode = mode;
        self.numerator = numerator;
        self.denominator = denominator;
        self.due = Some(Tick(now.0 + ticks(mode)));
    }

    /// When the running division is done, None exactly where none runs.
    pub fn due(&self) -> Option<Tick>
        ensures { result ≡ self.now.due }
    {
        self.due
    }

    /// The running division is done, and none is due from then on.
    #[tactic(auto, using(crate::proofs::Results::are_results))]
    pub fn finish(&mut self)
        requires { IsSome self.old.due }
        ensures results { HoldsResults self.new }
        ensures state { self.new ≡ division_finished self.old }
        ensures schedule { (now : Tick) → Reschedules now self.old.due self.new.due }
    {
        self.quotient = quotient_of(self.mode, self.numerator, self.denominator);
        self.remainder = remainder_of(self.mode, self.numerator, self.denominator);
        self.due = None;
    }

    /// What the registers show.
    pub fn read(&self) -> Quotient
        ensures seen { result ≡ divider_seen self.now }
        ensures mode { result.mode < 4 }
    {
        Quotient {
            mode: self.mode,
            numerator: self.numerator,
            denominator: self.denominator,
            quotient: self.quotient,
            remainder: self.remainder,
            busy: self.due.is_some(),
            zero: self.denominator == 0,
        }
    }

    /// Does nothing; its contract states what holds of the divider at every time: how many bits each register has.
    pub fn laws(&self)
        ensures { IsDivider self.now }
    {
        let _seen = self.read();
    }
}

fn ticks(mode: u8) -> u64
    ensures { result ≡ division_ticks mode }
{
    if mode == 0 { 36 } else { 68 }
}

fn dividend(mode: u8, numerator: u64) -> i64
    ensures { result ≡ dividend mode numerator }
{
    if mode == 0 {
        ((numerator & 0xFFFF_FFFF) as u32).cast_signed() as i64
    } else {
        numerator.cast_signed()
    }
}

fn divisor(mode: u8, denominator: u64) -> i64
    ensures { result ≡ divisor mode denominator }
{
    if mode == 2 {
        denominator.cast_signed()
    } else {
        ((denominator & 0xFFFF_FFFF) as u32).cast_signed() as i64
    }
}

fn quotient_of(mode: u8, numerator: u64, denominator: u64) -> u64
    ensures { result ≡ quotient_word mode (dividend mode numerator) (divisor mode denominator) }
{
    quotient_by(mode, dividend(mode, numerator), divisor(mode, denominator))
}

fn quotient_by(mode: u8, n: i64, d: i64) -> u64
    ensures { result ≡ quotient_word mode n d }
{
    if d == 0 {
        by_zero(mode, n)
    } else {
        divided(n, d)
    }
}

fn by_zero(mode: u8, n: i64) -> u64
    ensures { result ≡ quotient_by_zero mode n }
{
    match (mode == 0, n < 0) {
        (true, true) => 0xFFFF_FFFF_0000_0001,
        (true, false) => 0xFFFF_FFFF,
        (false, true) => 1,
        (false, false) => 0xFFFF_FFFF_FFFF_FFFF,
    }
}

fn divided(n: i64, d: i64) -> u64
    requires { d ≢ pos 0 }
    ensures { result ≡ modulo (int_div n d) }
{
    let size = n.unsigned_abs() / d.unsigned_abs();
    if (n < 0) == (d < 0) {
        size
    } else {
        0u64.wrapping_sub(size)
    }
}

fn remainder_of(mode: u8, numerator: u64, denominator: u64) -> u64
    ensures { result ≡ remainder_word (dividend mode numerator) (divisor mode denominator) }
{
    remainder_by(dividend(mode, numerator), divisor(mode, denominator))
}

fn remainder_by(n: i64, d: i64) -> u64
    ensures { result ≡ remainder_word n d }
{
    if d == 0 {
        n.cast_unsigned()
    } else {
        left(n, d)
    }
}

fn left(n: i64, d: i64) -> u64
    requires { d ≢ pos 0 }
    ensures { result ≡ modulo (int_rem n d) }
{
    let size = n.unsigned_abs() % d.unsigned_abs();
    if n < 0 { 0u64.wrapping_sub(size) } else { size }
}
