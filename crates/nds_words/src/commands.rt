//! What the words of a command line may ask for.

use asm_text::Set;
use ds_base::{Memory, Proc};

/// Which frames and lists of a run are written.
#[derive(Clone, Copy, PartialEq, Eq, Debug)]
pub enum Keep {
    /// All of them, each as it becomes whole.
    All,
    /// The last one, after the run.
    Last,
    /// None of them.
    Nothing,
}

/// The files of a run.
#[derive(Clone, Copy)]
pub struct RunFiles<'a> {
    /// The cartridge's name.
    pub cart: &'a str,
    /// The key script's, where there is one.
    pub keys: Option<&'a str>,
}

/// What the words ask for. A run goes to a tick, 1 to 100,000,000,000.
#[derive(Clone, Copy)]
pub enum Command<'a> {
    /// To run a cartridge, and what to write.
    Run {
        /// The run's files.
        files: RunFiles<'a>,
        /// The tick.
        ticks: u64,
        /// Which frames and lists are written.
        keep: Keep,
    },
    /// To list the image of one of a cartridge's processors.
    List {
        /// The cartridge's name.
        cart: &'a str,
        /// The processor.
        proc: Proc,
        /// Whether as words or as halves.
        set: Set,
    },
    /// To assemble a listing.
    Asm {
        /// Its file's name.
        file: &'a str,
    },
    /// To run a cartridge, and write the first steps of a processor.
    Trace {
        /// The run's files.
        files: RunFiles<'a>,
        /// The tick.
        ticks: u64,
        /// The processor.
        proc: Proc,
        /// How many steps at most, 1 to 1,000,000.
        count: u32,
    },
    /// To run a cartridge, and write bytes of a memory as they are then. They lie in it.
    Peek {
        /// The run's files.
        files: RunFiles<'a>,
        /// The tick.
        ticks: u64,
        /// The memory.
        memory: Memory,
        /// The first byte's place in it.
        place: usize,
        /// How many bytes, 1 to 4,096.
        count: usize,
    },
    /// To run the cartridge that is made from a number, and write what came of it.
    Demo {
        /// The number.
        number: u32,
        /// The tick.
        ticks: u64,
    },
    /// To run a cartridge, and write its state as it is then.
    Save {
        /// The run's files.
        files: RunFiles<'a>,
        /// The tick.
        ticks: u64,
    },
    /// To go on from a saved state of a cartridge to a tick, and what to write.
    Resume {
        /// The name of the saved state's file.
        state: &'a str,
        /// The files of the run that was saved and goes on.
        files: RunFiles<'a>,
        /// The tick.
        ticks: u64,
        /// Which frames and lists are written.
        keep: Keep,
    },
}
