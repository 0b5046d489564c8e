//! Playing the tables of a file.

use crate::files::read_file;
use crate::lines::{Line, Said};
use crate::parts::{Mark, count, up_to};
use crate::players::{Player, Tally};
use crate::rows::play_row;
use std::alloc::{AllocError, Global};

/// What is told of a file, and whether all its rows held.
#[derive(Drop)]
pub struct Told {
    /// Its lines.
    pub report: String,
    /// Whether every row held.
    pub holds: bool,
    /// How many rows held.
    pub held: u64,
}

/// Plays a table, and tells how many of its rows held.
fn play_table(player: &mut Player, heading: &str, lines: &[Said]) -> Result<(), AllocError> {
    let head = up_to(lines, 0, Mark::Row);
    player.tell_all_bad(head)?;
    player.tell_outside(head)?;
    let mut tally = Tally {
        rows: 0,
        held: 0,
        facts: 0,
    };
    for (at, said) in lines.iter().enumerate() {
        if Mark::Row.is(said) {
            play_row(player, head, up_to(lines, at.saturating_add(1), Mark::Row))?;
            tally = count(tally, player.standing);
        }
    }
    player.tell_table(heading, tally)
}

/// Plays all tables of these lines.
fn play_all(player: &mut Player, lines: &[Said]) -> Result<(), AllocError> {
    let before = up_to(lines, 0, Mark::Table);
    player.tell_all_bad(before)?;
    player.tell_outside(before)?;
    for (at, said) in lines.iter().enumerate() {
        if let Line::Table(heading) = &said.line {
            let table = up_to(lines, at.saturating_add(1), Mark::Table);
            play_table(player, heading.as_str(), table)?;
        }
    }
    Ok(())
}

/// Plays a file.
pub fn play_file(alloc: Global, name: &str, text: &str) -> Result<Told, AllocError> {
    let lines = read_file(alloc, text)?;
    let mut player = Player::new(alloc, name)?;
    play_all(&mut player, lines.as_slice())?;
    Ok(Told {
        report: player.report,
        holds: player.holds,
        held: player.held,
    })
}
