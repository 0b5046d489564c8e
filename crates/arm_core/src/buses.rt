//! The bus.

ghost use Rattle.std.specs.Prelude.{◌≡◌, ℕ, List};
ghost use Rattle.ds_base.specs.Accesses.{MemoryMachine};

use ds_base::{Stop, Width};

/// What a processor reaches through its bus. It answers each access with a value and a next state, which are functions of its state:
/// an abstract state with the memory machine on it. An address is the one that an instruction makes, not aligned. (ARM manual, A2.8
/// "Unaligned access support".)
pub trait Bus {
    /// The states.
    ghost State: { Type 0 };

    /// The present state.
    ghost state: { Self → State };

    /// What each access gives and leaves.
    ghost memory: { MemoryMachine State };

    /// Which references it holds, which no call changes.
    ghost identity: { Self → List ℕ };

    /// Fetches a word or a half of an instruction.
    fn fetch(&mut self, at: u32, width: Width) -> u32
        ensures value { result ≡ memory.fetch_value (state self.old) at width }
        ensures next { state self.new ≡ memory.fetch_next (state self.old) at width }
        ensures same { identity self.new ≡ identity self.old };

    /// Reads data.
    fn read(&mut self, at: u32, width: Width) -> u32
        ensures value { result ≡ memory.read_value (state self.old) at width }
        ensures next { state self.new ≡ memory.read_next (state self.old) at width }
        ensures same { identity self.new ≡ identity self.old };

    /// Writes data. A stop says what is left out that the write needs.
    fn write(&mut self, at: u32, width: Width, value: u32) -> Option<Stop>
        ensures refusal { result ≡ memory.refusal (state self.old) at width value }
        ensures next { state self.new ≡ memory.write_next (state self.old) at width value }
        ensures same { identity self.new ≡ identity self.old };
}
