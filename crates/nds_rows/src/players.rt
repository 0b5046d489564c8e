//! What is told of a file whose rows are played.

use crate::answers::Came;
use crate::differences::numbers_differ;
use crate::facts::FRAME_SIZE;
use crate::faults::BadLine;
use crate::lines::{Line, Said};
use crate::views::frames_before;
use std::alloc::{AllocError, Global};
use std::fmt::Write;

/// How a row stands.
#[derive(Clone, Copy)]
pub struct Standing {
    /// How many facts were looked at.
    pub facts: u64,
    /// Whether all were as they are wanted.
    pub holds: bool,
}

/// What is counted of a table.
#[derive(Clone, Copy)]
pub struct Tally {
    /// Its rows.
    pub rows: u64,
    /// Those that held.
    pub held: u64,
    /// The facts of all of them.
    pub facts: u64,
}

/// A file's rows, as far as they were played.
#[derive(Drop)]
pub struct Player {
    /// Where memory comes from.
    pub alloc: Global,
    name: String,
    /// What is told of it.
    pub report: String,
    /// Whether nothing was wrong so far.
    pub holds: bool,
    /// How many rows held so far.
    pub held: u64,
    /// How the present row stands.
    pub standing: Standing,
    /// The output that was kept.
    pub kept: Vec<u8>,
    /// The state that was saved last.
    pub state: Vec<u8>,
}

/// How a row stands before its first fact.
pub const BEGUN: Standing = Standing {
    facts: 0,
    holds: true,
};

/// Looks at the records behind those of so many frames from now on, and says how many there are where there are fewer.
pub fn go_past(alloc: Global, count: usize, came: &mut Came) -> Result<Option<String>, AllocError> {
    let seen = frames_before(came.out.as_slice(), count);
    came.from = seen.saturating_mul(FRAME_SIZE);
    numbers_differ(alloc, &[seen as u64], &[Some(count as u64)])
}

impl Player {
    /// A file of this name, of which nothing is played.
    pub fn new(alloc: Global, name: &str) -> Result<Player, AllocError> {
        Ok(Player {
            alloc,
            name: String::from_str(alloc, name)?,
            report: String::new(alloc),
            holds: true,
            held: 0,
            standing: BEGUN,
            kept: Vec::new(alloc),
            state: Vec::new(alloc),
        })
    }

    /// Tells what is wrong in a line, so that its row doesn't hold.
    fn tell(&mut self, number: u64, text: &str) -> Result<(), AllocError> {
        let name = self.name.as_str();
        writeln!(self.report, "{name}:{number}: {text}")?;
        self.standing.holds = false;
        self.holds = false;
        Ok(())
    }

    /// Tells why a line says nothing.
    fn tell_bad(&mut self, number: u64, bad: BadLine) -> Result<(), AllocError> {
        self.tell(number, bad.text())
    }

    /// Tells what came of a fact.
    pub fn judge(
        &mut self,
        number: u64,
        differs: Result<Option<String>, BadLine>,
    ) -> Result<(), AllocError> {
        self.standing.facts = self.standing.facts.saturating_add(1);
        match differs {
            Ok(None) => Ok(()),
            Ok(Some(differs)) => self.tell(number, differs.as_str()),
            Err(bad) => self.tell_bad(number, bad),
        }
    }

    /// Keeps the output.
    pub fn keep(&mut self, came: &Came) -> Result<Option<String>, BadLine> {
        self.kept = came.out.clone()?;
        Ok(None)
    }

    /// Keeps the output as the saved state.
    pub fn save(&mut self, came: &Came) -> Result<Option<String>, BadLine> {
        self.state = came.out.clone()?;
        Ok(None)
    }

    /// Tells the lines that say nothing.
    pub fn tell_all_bad(&mut self, lines: &[Said]) -> Result<(), AllocError> {
        for said in lines {
            if let Line::Bad(bad) = &said.line {
                self.tell_bad(said.number, *bad)?;
            }
        }
        Ok(())
    }

    /// Tells of the lines that do something that they stand outside a row.
    pub fn tell_outside(&mut self, lines: &[Said]) -> Result<(), AllocError> {
        for said in lines {
            if let Line::Act(_) | Line::Row = &said.line {
                self.tell_bad(said.number, BadLine::OutsideRow)?;
            }
        }
        Ok(())
    }

    /// Tells of a table how many of its rows held.
    pub fn tell_table(&mut self, heading: &str, table: Tally) -> Result<(), AllocError> {
        let Tally { rows, held, facts } = table;
        let name = self.name.as_str();
        self.holds = self.holds && held == rows && rows > 0;
        self.held = self.held.saturating_add(held);
        writeln!(
            self.report,
            "{name}: {held} of {rows} rows, {facts} facts: {heading}"
        )
    }
}
