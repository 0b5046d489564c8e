//! The lines of a file of rows.

use crate::cursors::Cursor;
use crate::facts::{Fact, fact_line};
use crate::faults::BadLine;
use crate::lists::push;
use crate::setups::{Setup, setup_line};
use crate::tokens::Token;
use std::alloc::{AllocError, Global};

/// What is done to a console beside the top call.
#[derive(Drop)]
pub enum Act {
    /// The output is kept, for other outputs to be held beside it.
    Keep,
    /// The output begins with so many records of frames, and those that are looked at from now on are behind them.
    Past(usize),
    /// The output is kept as the saved state, for later calls to go on from.
    Saved,
    /// A file of the shelf is a state of the cartridge, which is saved again as the same bytes.
    Again(String),
    /// So many changes of the saved state by chance, from a seed on, are each refused, or taken and saved again as the same bytes.
    Tries {
        count: u64,
        seed: u64,
    },
    /// The console takes a turn with a limit. What it answers, and its limit after it, are these numbers.
    Turn {
        until: u64,
        wanted: Vec<Option<u64>>,
    },
    /// The console takes turns with a limit until a frame is whole: so many.
    Frame {
        until: u64,
        turns: u64,
    },
    /// The console is played to a tick, and what is written is the output.
    Play {
        until: u64,
    },
    /// The console takes turns with each limit up to a tick, from 1 on, and what is then written with the last frame and lists is the output.
    Climb {
        until: u64,
    },
}

/// A line.
#[derive(Drop)]
pub enum Line {
    /// A table begins, with this heading.
    Table(String),
    /// A row begins.
    Row,
    /// Calls go over something else.
    Setup(Setup),
    /// Something is done.
    Act(Act),
    /// Something is seen.
    Is(Fact),
    /// It says nothing.
    Bad(BadLine),
}

/// A line, and its number in its file.
#[derive(Drop)]
pub struct Said {
    /// The number, from 1.
    pub number: u64,
    /// What it says.
    pub line: Line,
}

/// The number of the answer of a turn that stopped.
const STOPPED: u64 = 2;

/// The number of a turn's answer, by its name.
fn answer_number(line: &mut Cursor<'_>) -> u64 {
    match line.word() {
        "ran" => 0,
        "frame" => 1,
        "stopped" => STOPPED,
        "at_end" => 3,
        _ => {
            line.fail(BadLine::NoSuchWord);
            0
        }
    }
}

/// What a turn answers, and its limit after it: the limit, the answer's number, and where it stopped the numbers of the stop: kind, tick, rank and
/// value.
fn answer_of(line: &mut Cursor<'_>) -> Vec<Option<u64>> {
    let until = Some(line.number());
    let answer = answer_number(line);
    if answer == STOPPED {
        return stopped(until, line);
    }
    line.list(&[until, Some(answer)])
}

/// What a turn answers that stopped.
fn stopped(until: Option<u64>, line: &mut Cursor<'_>) -> Vec<Option<u64>> {
    let kind = Some(line.number());
    let tick = Some(line.number());
    let rank = Some(line.number());
    let value = Some(u64::from(line.hex()));
    line.list(&[until, Some(STOPPED), kind, tick, rank, value])
}

/// A turn.
fn turn(line: &mut Cursor<'_>) -> Act {
    let until = line.number();
    let wanted = answer_of(line);
    Act::Turn { until, wanted }
}

/// Turns until a frame is whole.
fn frame(line: &mut Cursor<'_>) -> Act {
    let until = line.number();
    let turns = line.number();
    Act::Frame { until, turns }
}

/// Changes by chance.
fn tries(line: &mut Cursor<'_>) -> Act {
    let count = line.number();
    let seed = line.number();
    Act::Tries { count, seed }
}

/// What a line that begins with this word does; nothing where the word isn't such a line's.
fn act_line(word: &str, line: &mut Cursor<'_>) -> Option<Act> {
    let act = match word {
        "keep" => Act::Keep,
        "past" => Act::Past(line.length()),
        "saved" => Act::Saved,
        "again" => Act::Again(line.name()),
        "tries" => tries(line),
        "turn" => turn(line),
        "frame" => frame(line),
        "play" => Act::Play {
            until: line.number(),
        },
        "climb" => Act::Climb {
            until: line.number(),
        },
        _ => return None,
    };
    Some(act)
}

/// The line that begins with this word; nothing where no line does.
fn line_of(word: &str, line: &mut Cursor<'_>) -> Option<Line> {
    match word {
        "table" => return Some(Line::Table(line.text())),
        "is" => return Some(Line::Is(fact_line(line)?)),
        _ => {}
    }
    match setup_line(word, line) {
        Some(setup) => Some(Line::Setup(setup)),
        None => Some(Line::Act(act_line(word, line)?)),
    }
}

/// The line that these words and texts are, or why they are none.
fn read_line(alloc: Global, tokens: &[Token]) -> Line {
    let mut line = Cursor::new(alloc, tokens);
    let word = line.word();
    let Some(read) = line_of(word, &mut line) else {
        return Line::Bad(line.bad_or(BadLine::NoSuchWord));
    };
    match line.end() {
        Ok(()) => read,
        Err(bad) => Line::Bad(bad),
    }
}

/// Adds what stands between two bars: a row's begin, a line, or both.
fn add_part(
    alloc: Global,
    said: &mut Vec<Said>,
    number: u64,
    tokens: &[Token],
) -> Result<(), AllocError> {
    let mut rest = tokens;
    if let [first, behind @ ..] = tokens
        && first.is("row")
    {
        let line = Line::Row;
        push(said, Said { number, line })?;
        rest = behind;
    }
    if rest.is_empty() {
        return Ok(());
    }
    let line = read_line(alloc, rest);
    push(said, Said { number, line })
}

/// Adds the lines that these words of a file's line are, which begins at this number.
pub fn add_lines(
    alloc: Global,
    said: &mut Vec<Said>,
    number: u64,
    tokens: &[Token],
) -> Result<(), AllocError> {
    let mut from = 0;
    for (i, token) in tokens.iter().enumerate() {
        if token.is("|") {
            add_part(alloc, said, number, tokens.get(from..i).unwrap_or(&[]))?;
            from = i.saturating_add(1);
        }
    }
    add_part(alloc, said, number, tokens.get(from..).unwrap_or(&[]))
}
