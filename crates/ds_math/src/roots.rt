//! Square roots.

ghost use Rattle.std.specs.Prelude.{◌≡◌, Some, IsSome};
ghost use Rattle.ds_base.specs.Schedules.{IsEarly, Reschedules};
ghost use Rattle.ds_base.specs.declared.ticks.Tick.{Tick};
ghost use Rattle.ds_math.specs.Roots.{IsRootUnit, root_at_boot, root_started, root_finished, root_seen, radicand, IsRoot};

mod saved;

use ds_base::Tick;
use std::marker::Model;

/// What the square root unit's registers show (GBATEK, "DS Maths").
#[derive(Clone, Copy, PartialEq, Eq)]
pub struct RootSeen {
    /// Whether the last start took all 64 bits of the value, not the lower 32 alone; false before.
    pub wide: bool,
    /// The value of the last start, all 64 bits, and 0 before.
    pub value: u64,
    /// The last root that is done, and 0 before.
    pub root: u32,
    /// Whether a root runs; until it is done the older one shows.
    pub busy: bool,
}

/// The square root unit. Contracts see its registers and the tick at which a running root is done.
#[derive(Drop)]
pub struct Root {
    wide: bool,
    value: u64,
    root: u32,
    due: Option<Tick>,
}

impl Model for Root {
    ghost use Rattle.ds_math.specs.Roots.{RootState};

    ghost Value = { RootState };

    ghost view = { λ r. record { wide = r.wide; value = r.value; root = r.root; due = r.due } };
}

impl Root {
    /// The unit at boot: all 0, and nothing runs.
    pub fn new() -> Root
        ensures { result ≡ root_at_boot }
    {
        Root {
            wide: false,
            value: 0,
            root: 0,
            due: None,
        }
    }

    /// Starts a root at a tick, also while another runs. It is done 26 ticks later.
    pub fn start(&mut self, wide: bool, value: u64, now: Tick)
        requires { IsEarly (Some now) }
        ensures state { self.new ≡ root_started self.old wide value now }
        ensures schedule { Reschedules now self.old.due self.new.due }
    {
        self.wide = wide;
        self.value = value;
        self.due = Some(Tick(now.0 + 26));
    }

    /// When the running root is done, None exactly where none runs.
    pub fn due(&self) -> Option<Tick>
        ensures { result ≡ self.now.due }
    {
        self.due
    }

    /// The running root is done, and none is due from then on.
    #[tactic(auto, using(crate::proofs::RootLaws::is_root_of))]
    pub fn finish(&mut self)
        requires { IsSome self.old.due }
        ensures root { IsRoot (radicand self.new.wide self.new.value) self.new.root }
        ensures state { self.new ≡ root_finished self.old }
        ensures schedule { (now : Tick) → Reschedules now self.old.due self.new.due }
    {
        self.root = whole_root(radicand(self.wide, self.value));
        self.due = None;
    }

    /// What the registers show.
    pub fn read(&self) -> RootSeen
        ensures { result ≡ root_seen self.now }
    {
        RootSeen {
            wide: self.wide,
            value: self.value,
            root: self.root,
            busy: self.due.is_some(),
        }
    }

    /// Does nothing; its contract states what holds of the unit at every time: how many bits each register has.
    pub fn laws(&self)
        ensures { IsRootUnit self.now }
    {
        let _seen = self.read();
    }
}

fn whole_root(value: u64) -> u32
    ensures { IsRoot value result }
{
    value.isqrt() as u32
}

fn radicand(wide: bool, value: u64) -> u64
    ensures { result ≡ radicand wide value }
{
    if wide { value } else { value & 0xFFFF_FFFF }
}
