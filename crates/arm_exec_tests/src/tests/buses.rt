//! A memory that refuses the writes to one word.

ghost use Rattle.std.specs.Prelude.{◌≡◌};
ghost use Rattle.arm_exec_tests.specs.Buses.{Refusing};

use arm_core::{Bus, FlatBus};
use ds_base::{LeftKind, Stop, Width};

/// A flat memory that refuses the writes to one word.
#[derive(Drop)]
pub struct RefusingBus {
    /// The memory.
    pub flat: FlatBus,
    /// The word's address. It refuses none where this isn't aligned.
    pub refused: u32,
}

impl Bus for RefusingBus {
    ghost use Rattle.std.specs.Prelude.{ℕ, List, []};
    ghost use Rattle.arm_exec_tests.specs.Buses.{Refusing, refusing_memory};

    ghost State = { Refusing };

    ghost state = { λ b. record { bytes = b.flat; refused = b.refused } };

    ghost memory = { refusing_memory };

    ghost identity = { λ b. [] };

    fn fetch(&mut self, at: u32, width: Width) -> u32 {
        self.flat.fetch(at, width)
    }

    fn read(&mut self, at: u32, width: Width) -> u32 {
        self.flat.read(at, width)
    }

    fn write(&mut self, at: u32, width: Width, value: u32) -> Option<Stop> {
        if at - at % 4 == self.refused {
            return Some(Stop {
                kind: LeftKind::NotYet,
                value,
            });
        }
        self.flat.write(at, width, value)
    }
}
