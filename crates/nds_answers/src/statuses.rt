//! How a call ends.

ghost use Rattle.std.specs.Prelude.{◌≡◌};
ghost use Rattle.nds_answers.specs.Statuses.{status_number};

use ds_base::LeftOut;
use ds_header::HeaderFault;

/// How a call ends. (Our choice.)
#[derive(Clone, Copy, PartialEq, Eq, Debug)]
pub enum Status {
    /// The command ended.
    Done,
    /// The words ask for nothing.
    Usage,
    /// There is no file of the name.
    NoFile,
    /// A call of the shelf failed.
    ReadFault,
    /// A call of the output's sink failed; a front of the output is written.
    WriteFault,
    /// A file is longer than it may be.
    TooLong,
    /// The cartridge's header breaks a rule: the first that it breaks.
    BadHeader(HeaderFault),
    /// The key script's file is no script: the first bad line, and where it is bad.
    BadScript {
        /// The line's number, from 1.
        line: u32,
        /// The column at which no line of a script goes on so, from 1; 1 where its tick isn't above that of the line before.
        column: u32,
    },
    /// The run came to a step that needs what is left out.
    LeftOut(LeftOut),
    /// A listing's file is no listing: the first line that begins none.
    BadText {
        /// The line's number, from 1.
        line: u32,
    },
    /// The saved state's file stands for no state of the cartridge at a tick below that to which it is to go on.
    BadState {
        /// The place of the first field that isn't whole or breaks its rule, or of the first byte left over.
        offset: u32,
    },
    /// There was no memory; nothing was written.
    NoMemory,
}

/// How a command ended, and the file that the status speaks of where it speaks of one.
#[derive(Clone, Copy)]
pub struct Ended<'a> {
    /// How.
    pub status: Status,
    /// The file's name.
    pub file: &'a str,
}

/// The number that the program ends with.
pub fn number(status: &Status) -> u8
    ensures { result ≡ status_number status.now }
{
    match status {
        Status::Done => 0,
        Status::Usage => 2,
        Status::NoFile => 3,
        Status::ReadFault => 4,
        Status::WriteFault => 5,
        Status::TooLong => 6,
        Status::BadHeader(_) => 7,
        Status::BadScript { line: _, column: _ } => 8,
        Status::LeftOut(_) => 9,
        Status::BadText { line: _ } => 10,
        Status::BadState { offset: _ } => 11,
        Status::NoMemory => 12,
    }
}
