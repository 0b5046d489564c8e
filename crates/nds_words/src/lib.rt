//! Words: those of a command line, and what they ask for (specs/Words.antt: the one list of words of each thing that may be asked for), and
//! those of a key script (specs/Scripts.antt: the text of a script, and which line and column of another text are the first that are bad).
//!
//! Proved: `read_words` reads words exactly by that list; Usage comes exactly where they ask for nothing. `word_laws`: words ask for one
//! thing at most. `read_script`: the keys are those of the lines whose text the bytes are; or the first bad line is told, by its number and
//! by the column after its longest front that begins some line. `script_laws`: a text is the script of one list of lines at most, has one
//! first bad line at most, and never both.
//!
//! Only tested: rows for each rule of the script's grammar (`io_tests`); words beside the rule and at its edges (`nds_rows`).
#![tactic(auto)]

mod choices;
mod commands;
mod faults;
mod laws;
mod lines;
mod names;
mod numbers;
mod reading;
mod scripts;
mod ticks;

pub use commands::{Command, Keep, RunFiles};
pub use faults::ScriptFault;
pub use laws::{script_laws, word_laws};
pub use reading::read_words;
pub use scripts::read_script;
