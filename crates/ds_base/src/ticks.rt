//! The console's time.

ghost use Rattle.std.specs.Prelude.{◌≡◌};
ghost use Rattle.ds_base.specs.Schedules.{due_number, numbered_due};

/// A place in time, in clocks of ARM9 since boot. A bus clock, which is the clock of ARM7, is 2 ticks. A run's ticks stay at
/// most 2^56. (Our choice: the unit of all due ticks.)
#[derive(Clone, Copy, PartialEq, Eq, PartialOrd, Ord, Debug)]
pub struct Tick(pub u64);

/// The actor that steps next, and the tick at which it is due. (Our choice: 24 actors in a fixed order of ranks.)
#[derive(Clone, Copy, PartialEq, Eq, Debug)]
pub struct Due {
    /// When the actor is due.
    pub tick: Tick,
    /// The actor's rank, below 24; at equal ticks the least rank goes first.
    pub rank: u8,
}

impl Tick {
    /// A due tick as a number, None where there is none.
    pub const fn number_of(due: Option<Tick>) -> Option<u64>
        ensures { result ≡ due_number due }
    {
        match due {
            Some(tick) => Some(tick.0),
            None => None,
        }
    }

    /// The due tick of a number, None where there is none.
    pub const fn numbered(number: Option<u64>) -> Option<Tick>
        ensures { result ≡ numbered_due number }
    {
        match number {
            Some(number) => Some(Tick(number)),
            None => None,
        }
    }
}
