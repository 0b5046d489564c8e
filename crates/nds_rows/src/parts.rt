//! The lines of tables, rows, and parts of rows.

use crate::lines::{Act, Line, Said};
use crate::players::{Standing, Tally};
use crate::scenes::Scene;
use crate::setups::Setup;
use std::alloc::{AllocError, Global};

/// A line before which something ends.
#[derive(Clone, Copy)]
pub enum Mark {
    /// The begin of a table.
    Table,
    /// The begin of a row.
    Row,
}

impl Mark {
    /// Whether a line is one.
    pub fn is(self, said: &Said) -> bool {
        match self {
            Mark::Table => matches!(&said.line, Line::Table(_)),
            Mark::Row => matches!(&said.line, Line::Row),
        }
    }
}

/// The lines from a place on, up to the next mark.
pub fn up_to(lines: &[Said], from: usize, mark: Mark) -> &[Said] {
    let rest = lines.get(from..).unwrap_or(&[]);
    for (at, said) in rest.iter().enumerate() {
        if mark.is(said) {
            return rest.get(..at).unwrap_or(&[]);
        }
    }
    rest
}

/// Counts a row that was played. One without a fact doesn't hold.
pub fn count(tally: Tally, row: Standing) -> Tally {
    let holds = row.holds && row.facts > 0;
    Tally {
        rows: tally.rows.saturating_add(1),
        held: tally.held.saturating_add(u64::from(holds)),
        facts: tally.facts.saturating_add(row.facts),
    }
}

/// Whether something is done with a console.
fn is_of_console(act: &Act) -> bool {
    matches!(
        act,
        Act::Turn {
            until: _,
            wanted: _
        } | Act::Frame { until: _, turns: _ }
            | Act::Play { until: _ }
            | Act::Climb { until: _ }
    )
}

/// Whether a part of a row makes a call. It doesn't where the first that it does is done with a console, which then is a new one.
pub fn has_call(lines: &[Said]) -> bool {
    for said in lines {
        match &said.line {
            Line::Is(_) => return true,
            Line::Act(act) => return !is_of_console(act),
            _ => {}
        }
    }
    true
}

/// Whether some lines do or look at something.
pub fn has_facts(lines: &[Said]) -> bool {
    for said in lines {
        if let Line::Is(_) | Line::Act(_) = &said.line {
            return true;
        }
    }
    false
}

/// Changes what lines say of what calls go over, by the saved state that was kept.
pub fn change_all(
    alloc: Global,
    scene: &mut Scene,
    state: &[u8],
    lines: &[Said],
) -> Result<(), AllocError> {
    for said in lines {
        match &said.line {
            Line::Setup(Setup::State(name)) => scene.put_state(alloc, name, state)?,
            Line::Setup(setup) => scene.change(alloc, setup)?,
            _ => {}
        }
    }
    Ok(())
}

/// Whether a part of a row begins with a line: it changes what calls go over, and the line before it doesn't.
pub fn begins_part(lines: &[Said], at: usize) -> bool {
    let before = lines.get(at.saturating_sub(1));
    match (lines.get(at), before) {
        (Some(line), Some(before)) => is_setup(line) && !is_setup(before),
        _ => false,
    }
}

/// Whether a line says what calls go over.
fn is_setup(said: &Said) -> bool {
    matches!(&said.line, Line::Setup(_))
}
