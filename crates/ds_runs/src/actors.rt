//! The console's actors and their ranks.

ghost use Rattle.std.specs.Prelude.{◌≡◌, ◌<◌};
ghost use Rattle.ds_runs.specs.Actors.{actor_of, IsNumbered};
ghost use Rattle.ds_runs.specs.declared.actors.Actor.TheVariants.{Timer, Dma};

use crate::ranks::{
    ARM7, ARM9, CARD, CHANNELS_OF_NINE, CHANNELS_OF_SEVEN, DIVIDER, GEOMETRY, KEY_SCRIPT,
    SQUARE_ROOT, TIMERS_OF_NINE, TIMERS_OF_SEVEN, VIDEO,
};
use ds_base::Proc;

/// One of the console's 24 actors: whatever takes steps at due ticks. (Our choice of actors and of their ranks.)
#[derive(Clone, Copy, PartialEq, Eq)]
pub enum Actor {
    /// The lines of the key script.
    KeyScript,
    /// The display: each line's start and its H-blank.
    Video,
    /// A processor's timer.
    Timer {
        /// Whose it is.
        proc: Proc,
        /// Its number, below 4.
        number: u8,
    },
    /// The divider.
    Divider,
    /// The square root unit.
    SquareRoot,
    /// The geometry engine.
    Geometry,
    /// The cartridge.
    Card,
    /// A processor's DMA channel.
    Dma {
        /// Whose it is.
        proc: Proc,
        /// Its number, below 4.
        channel: u8,
    },
    /// A processor.
    Processor(Proc),
}

const fn timer(proc: Proc, number: u8) -> Actor
    ensures { result ≡ Timer proc number }
{
    Actor::Timer { proc, number }
}

const fn dma(proc: Proc, channel: u8) -> Actor
    ensures { result ≡ Dma proc channel }
{
    Actor::Dma { proc, channel }
}

impl Actor {
    /// The actor of a rank.
    #[inline(always)]
    pub const fn of(rank: u8) -> Actor
        requires { rank < 24 }
        ensures actor { result ≡ actor_of rank }
        ensures numbered { IsNumbered result }
    {
        match rank {
            KEY_SCRIPT => Actor::KeyScript,
            VIDEO => Actor::Video,
            TIMERS_OF_NINE..TIMERS_OF_SEVEN => timer(Proc::Nine, rank - TIMERS_OF_NINE),
            TIMERS_OF_SEVEN..DIVIDER => timer(Proc::Seven, rank - TIMERS_OF_SEVEN),
            DIVIDER => Actor::Divider,
            SQUARE_ROOT => Actor::SquareRoot,
            GEOMETRY => Actor::Geometry,
            CARD => Actor::Card,
            CHANNELS_OF_NINE..CHANNELS_OF_SEVEN => dma(Proc::Nine, rank - CHANNELS_OF_NINE),
            CHANNELS_OF_SEVEN..ARM9 => dma(Proc::Seven, rank - CHANNELS_OF_SEVEN),
            ARM9 => Actor::Processor(Proc::Nine),
            _ => Actor::Processor(Proc::Seven),
        }
    }

    /// Its rank, below 24: at equal ticks the actor of the least rank steps first.
    #[inline(always)]
    pub const fn rank(self) -> u8
        requires { IsNumbered self }
        ensures rank { actor_of result ≡ self }
        ensures within { result < 24 }
    {
        match self {
            Actor::KeyScript => KEY_SCRIPT,
            Actor::Video => VIDEO,
            Actor::Timer {
                proc: Proc::Nine,
                number,
            } => TIMERS_OF_NINE + number,
            Actor::Timer {
                proc: Proc::Seven,
                number,
            } => TIMERS_OF_SEVEN + number,
            Actor::Divider => DIVIDER,
            Actor::SquareRoot => SQUARE_ROOT,
            Actor::Geometry => GEOMETRY,
            Actor::Card => CARD,
            Actor::Dma {
                proc: Proc::Nine,
                channel,
            } => CHANNELS_OF_NINE + channel,
            Actor::Dma {
                proc: Proc::Seven,
                channel,
            } => CHANNELS_OF_SEVEN + channel,
            Actor::Processor(Proc::Nine) => ARM9,
            Actor::Processor(Proc::Seven) => ARM7,
        }
    }
}
