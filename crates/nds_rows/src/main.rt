//! Plays tables of rows over the top call, and tells how many rows of each table hold. Each word of the command line is a file of rows;
//! `data/README.md` has their language. In short:
//!
//!     table a limit is the greatest so far   ; a heading, and then what is said of all rows of the table
//!     both EAFFFFFE                          ; what calls go over: here both processors' images
//!     is note ""                             ; what is seen after the row's call: here no note
//!     row run 9 | is end 9 3 2 0 5           ; a row: what its call goes over, the call, and what is seen
//!
//! `files` reads a file into what its lines say. A line goes through `tokens` (its words and texts), `cursors` (numbers and bytes), and
//! `lines` with its kinds: `setups` (what a call goes over) and `facts` (what is seen). `parts` finds the lines of tables, rows and parts of
//! rows, and `scenes` puts together what a call goes over; `lists` adds to lists. `tables` goes over the lines of a file, and `rows` over
//! those of a row: `calls` makes its call, `consoles` looks at the console that the call left. `states` takes the bytes of states,
//! changed by `chances`, and saves them again. `answers` is what it came to, `views` looks
//! at that, `checks` and `differences` hold it beside the fact, and `players` tells of it. A further word of the language is a variant and
//! a line in its kind, and what plays it.
//!
//! A console is large, and each function that has one as a value is dear to prove. So it stands in one place, a local of `rows`, and all
//! others borrow it.
//!
//! Its functions promise nothing beside being safe: what is known of shelves, sinks and consoles stands in their own crates.
//!
//! The gate compares what it prints with what it must print. In `wrong.rows` stand rows that don't hold, in each kind of number and text:
//! what is told of each is compared too, so a checker by which they held is seen. What the rows expect is worked out by hand.
//! `data/README.md` tells which subjects the files have.
#![tactic(auto)]

mod answers;
mod calls;
mod chances;
mod checks;
mod consoles;
mod cursors;
mod differences;
mod facts;
mod faults;
mod files;
mod lines;
mod lists;
mod parts;
mod players;
mod rows;
mod scenes;
mod setups;
mod states;
mod tables;
mod tokens;
mod views;

use crate::calls::number_of_want;
use crate::tables::play_file;
use std::process::ExitCode;
use std::{env, fs, io};

/// Plays the file of a name, prints what is told of it, and says whether all its rows held, or none in the file of wrong ones.
fn play(rt: &HostRuntime, name: &str) -> io::Result<bool> {
    let text = fs::read_to_string(rt, name)?;
    let told = play_file(rt.alloc(), name, text.as_str())?;
    print!(rt; "{}", told.report.as_str())?;
    if name.ends_with("wrong.rows") {
        Ok(told.held == 0)
    } else {
        Ok(told.holds)
    }
}

/// Plays all files, and says whether all rows held that are to hold.
fn play_all(rt: &HostRuntime) -> io::Result<bool> {
    let mut holds = true;
    for name in env::args(rt)?.skip(1) {
        holds = play(rt, name.as_str())? && holds;
    }
    Ok(holds)
}

fn main(rt: HostRuntime) -> io::Result<ExitCode> {
    println!(rt; "want of memory ends the program with {}", number_of_want())?;
    if play_all(&rt)? {
        Ok(ExitCode::SUCCESS)
    } else {
        Ok(ExitCode::from(1))
    }
}
