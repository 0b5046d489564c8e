//! The lines that say what a call goes over.

use crate::cursors::Cursor;
use crate::faults::BadLine;
use ds_base::Proc;

/// Whose image a line tells.
#[derive(Clone, Copy)]
pub enum Whose {
    /// One processor's.
    One(Proc),
    /// Both processors'.
    Both,
}

/// Of what a call fails.
#[derive(Clone, Copy)]
pub enum Part {
    /// Of the shelf.
    Shelf,
    /// Of the output.
    Out,
    /// Of the notes.
    Notes,
}

/// What a line changes in what calls go over.
#[derive(Drop)]
pub enum Setup {
    /// These bytes are an image, or come behind it.
    Image {
        whose: Whose,
        adds: bool,
        bytes: Vec<u8>,
    },
    /// A word stands in an image, by its number from 0.
    Put {
        proc: Proc,
        number: usize,
        word: u32,
    },
    /// An image goes there, and is entered there.
    Place {
        proc: Proc,
        place: u32,
    },
    /// An image is entered there.
    Entry {
        proc: Proc,
        entry: u32,
    },
    /// These words stand in the header from there on.
    Header {
        at: usize,
        words: Vec<u32>,
    },
    /// The cartridge's file has so many bytes.
    Size(usize),
    /// The cartridge's file has this name.
    Cart(String),
    /// The cartridge as it stands now lies on the shelf, under this name.
    Shelve(String),
    /// A file of these bytes lies on the shelf.
    File {
        name: String,
        bytes: Vec<u8>,
    },
    /// The saved state lies on the shelf, under this name.
    State(String),
    /// These bytes stand in a file of the shelf from there on.
    Changed {
        name: String,
        at: usize,
        bytes: Vec<u8>,
    },
    /// A file of the shelf has so many bytes, zeros behind what it has.
    Cut {
        name: String,
        size: usize,
    },
    /// A call fails, by its number from 1.
    Fails {
        part: Part,
        call: u64,
    },
    /// The output has room for so many bytes.
    Room(usize),
    /// It takes at most so many bytes a call.
    Slow(usize),
    /// These are the words of the call.
    Call(Vec<String>),
}

/// A processor, by its name.
pub fn proc_of(line: &mut Cursor<'_>) -> Proc {
    match line.word() {
        "nine" => Proc::Nine,
        "seven" => Proc::Seven,
        _ => {
            line.fail(BadLine::NoSuchWord);
            Proc::Nine
        }
    }
}

/// What fails, by its name.
fn part_of(line: &mut Cursor<'_>) -> Part {
    match line.word() {
        "shelf" => Part::Shelf,
        "out" => Part::Out,
        "notes" => Part::Notes,
        _ => {
            line.fail(BadLine::NoSuchWord);
            Part::Shelf
        }
    }
}

/// The words that begin an image: whose it is, and whether its bytes come behind what stands there.
const IMAGES: [(&str, Whose, bool); 6] = [
    ("nine", Whose::One(Proc::Nine), false),
    ("nine+", Whose::One(Proc::Nine), true),
    ("seven", Whose::One(Proc::Seven), false),
    ("seven+", Whose::One(Proc::Seven), true),
    ("both", Whose::Both, false),
    ("both+", Whose::Both, true),
];

/// An image, where the word begins one.
fn image_line(word: &str, line: &mut Cursor<'_>) -> Option<Setup> {
    for (name, whose, adds) in &IMAGES {
        if *name == word {
            let bytes = line.bytes();
            return Some(Setup::Image {
                whose: *whose,
                adds: *adds,
                bytes,
            });
        }
    }
    None
}

/// A word of an image.
fn put(line: &mut Cursor<'_>) -> Setup {
    let proc = proc_of(line);
    let number = line.length();
    let word = line.hex();
    Setup::Put { proc, number, word }
}

/// Where an image goes.
fn place(line: &mut Cursor<'_>) -> Setup {
    let proc = proc_of(line);
    let place = line.hex();
    Setup::Place { proc, place }
}

/// Where an image is entered.
fn entry(line: &mut Cursor<'_>) -> Setup {
    let proc = proc_of(line);
    let entry = line.hex();
    Setup::Entry { proc, entry }
}

/// Words of the header.
fn header(line: &mut Cursor<'_>) -> Setup {
    let at = line.hex() as usize;
    let words = line.words();
    Setup::Header { at, words }
}

/// A file of the shelf.
fn file(line: &mut Cursor<'_>) -> Setup {
    let name = line.name();
    let bytes = line.bytes();
    Setup::File { name, bytes }
}

/// Bytes that stand in a file of the shelf.
fn changed(line: &mut Cursor<'_>) -> Setup {
    let name = line.name();
    let at = line.length();
    let bytes = line.bytes();
    Setup::Changed { name, at, bytes }
}

/// How many bytes a file of the shelf has.
fn cut(line: &mut Cursor<'_>) -> Setup {
    let name = line.name();
    let size = line.length();
    Setup::Cut { name, size }
}

/// A call that fails.
fn fails(line: &mut Cursor<'_>) -> Setup {
    let part = part_of(line);
    let call = line.number();
    Setup::Fails { part, call }
}

/// The words of a run to a tick of the file `file`, without keys.
fn run_words(line: &mut Cursor<'_>) -> Vec<String> {
    let ticks = line.word();
    line.texts(&["run", "file", "none", ticks, "none"])
}

/// What a line that begins with this word changes in the cartridge; nothing where the word isn't such a line's.
fn cartridge_line(word: &str, line: &mut Cursor<'_>) -> Option<Setup> {
    let setup = match word {
        "put" => put(line),
        "place" => place(line),
        "entry" => entry(line),
        "header" => header(line),
        "size" => Setup::Size(line.length()),
        "cart" => Setup::Cart(line.name()),
        _ => return image_line(word, line),
    };
    Some(setup)
}

/// What a line that begins with this word changes in the shelf, the sinks and the words; nothing where the word isn't such a line's.
fn call_line(word: &str, line: &mut Cursor<'_>) -> Option<Setup> {
    let setup = match word {
        "shelve" => Setup::Shelve(line.name()),
        "file" => file(line),
        "state" => Setup::State(line.name()),
        "changed" => changed(line),
        "cut" => cut(line),
        "fails" => fails(line),
        "room" => Setup::Room(line.length()),
        "slow" => Setup::Slow(line.length()),
        "call" => Setup::Call(line.names()),
        "run" => Setup::Call(run_words(line)),
        _ => return None,
    };
    Some(setup)
}

/// What a line that begins with this word changes in what calls go over; nothing where the word isn't such a line's.
pub fn setup_line(word: &str, line: &mut Cursor<'_>) -> Option<Setup> {
    match cartridge_line(word, line) {
        Some(setup) => Some(setup),
        None => call_line(word, line),
    }
}
