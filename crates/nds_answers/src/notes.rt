//! The line that tells a status to a person. It is written without taking memory.

ghost use Rattle.std.specs.Prelude.{◌≡◌};
ghost use Rattle.ds_io.specs.Puts.{Puts};
ghost use Rattle.nds_answers.specs.Notes.{field_word, kind_word, header_line, script_line, state_line, stop_line, text_line, note_of, Noted};

use crate::statuses::Status;
use ds_base::{LeftKind, LeftOut, hex_digits};
use ds_header::{HeaderFault, HeaderField};
use ds_io::{Failed, Sink, put_all, put_parts};
use itoa::Buffer;

/// A header field's name.
fn name_of_field(field: HeaderField) -> &'static str
    ensures { result.now ≡ field_word field }
{
    match field {
        HeaderField::Short => "Short",
        HeaderField::UnitCode => "UnitCode",
        HeaderField::Arm9Rom => "Arm9Rom",
        HeaderField::Arm9Place => "Arm9Place",
        HeaderField::Arm9Entry => "Arm9Entry",
        HeaderField::Arm7Rom => "Arm7Rom",
        HeaderField::Arm7Place => "Arm7Place",
        HeaderField::Arm7Entry => "Arm7Entry",
    }
}

/// The name of a kind of what is left out.
pub fn name_of_kind(kind: LeftKind) -> &'static str
    ensures { result.now ≡ kind_word kind }
{
    match kind {
        LeftKind::NotYet => "NotYet",
        LeftKind::Swi => "Swi",
        LeftKind::BigEndian => "BigEndian",
        LeftKind::HaltMode => "HaltMode",
        LeftKind::DmaStart => "DmaStart",
        LeftKind::CardTransfer => "CardTransfer",
        LeftKind::DisplayMode => "DisplayMode",
        LeftKind::BgMode => "BgMode",
        LeftKind::Capture => "Capture",
        LeftKind::Mosaic => "Mosaic",
        LeftKind::ExtendedBackground => "ExtendedBackground",
        LeftKind::BitmapObject => "BitmapObject",
    }
}

/// The line of a refused header.
fn put_header_line<N: Sink>(notes: &mut N, fault: HeaderFault) -> Result<(), Failed>
    ensures { Puts N.tells N.taken N.faults (header_line fault) result notes.old notes.new }
{
    let field = name_of_field(fault.field).as_bytes();
    let value = hex_digits(fault.value);
    put_parts(notes, &[b"bad header: ", field, b" 0x", &value, b"\n"])
}

/// The line of a key script's first bad line.
fn put_script_line<N: Sink>(notes: &mut N, line: u32, column: u32) -> Result<(), Failed>
    ensures { Puts N.tells N.taken N.faults (script_line line column) result notes.old notes.new }
{
    let mut number = Buffer::new();
    let mut place = Buffer::new();
    put_parts(
        notes,
        &[
            b"bad script: line ",
            number.format(line).as_bytes(),
            b" column ",
            place.format(column).as_bytes(),
            b"\n",
        ],
    )
}

/// The line of a stop.
fn put_stop_line<N: Sink>(notes: &mut N, left: LeftOut) -> Result<(), Failed>
    ensures { Puts N.tells N.taken N.faults (stop_line left) result notes.old notes.new }
{
    let mut tick = Buffer::new();
    let mut rank = Buffer::new();
    put_parts(
        notes,
        &[
            b"left out: ",
            name_of_kind(left.kind).as_bytes(),
            b" tick ",
            tick.format(left.tick.0).as_bytes(),
            b" actor ",
            rank.format(left.rank).as_bytes(),
            b" value 0x",
            &hex_digits(left.value),
            b"\n",
        ],
    )
}

/// The line of a listing's first bad line.
fn put_text_line<N: Sink>(notes: &mut N, line: u32) -> Result<(), Failed>
    ensures { Puts N.tells N.taken N.faults (text_line line) result notes.old notes.new }
{
    let mut number = Buffer::new();
    let number = number.format(line).as_bytes();
    put_parts(notes, &[b"bad text: line ", number, b"\n"])
}

/// The line of a state that isn't accepted.
fn put_state_line<N: Sink>(notes: &mut N, offset: u32) -> Result<(), Failed>
    ensures { Puts N.tells N.taken N.faults (state_line offset) result notes.old notes.new }
{
    let mut number = Buffer::new();
    let number = number.format(offset).as_bytes();
    put_parts(notes, &[b"bad state: offset ", number, b"\n"])
}

/// The line of a status, with the name of the file that it speaks of.
#[tactic(auto, using(ds_io::proofs::SinkLemmas::append_none))]
fn put_line<N: Sink>(notes: &mut N, status: &Status, name: &[u8]) -> Result<(), Failed>
    ensures { Puts N.tells N.taken N.faults (note_of status.now name.now) result notes.old notes.new }
{
    match status {
        Status::Done => Ok(()),
        Status::Usage => put_all(
            notes,
            b"usage: nds run|list|asm|trace|peek|demo|save|resume\n",
        ),
        Status::NoFile => put_parts(notes, &[b"no file: ", name, b"\n"]),
        Status::ReadFault => put_parts(notes, &[b"read fault: ", name, b"\n"]),
        Status::WriteFault => put_all(notes, b"write fault\n"),
        Status::TooLong => put_parts(notes, &[b"too long: ", name, b"\n"]),
        Status::BadHeader(fault) => put_header_line(notes, *fault),
        Status::BadScript { line, column } => put_script_line(notes, *line, *column),
        Status::LeftOut(left) => put_stop_line(notes, *left),
        Status::BadText { line } => put_text_line(notes, *line),
        Status::BadState { offset } => put_state_line(notes, *offset),
        Status::NoMemory => put_all(notes, b"out of memory\n"),
    }
}

/// Writes the line of a status, with the name of the file that it speaks of. A line that can't be written is dropped, and changes no status.
pub fn note<N: Sink>(notes: &mut N, status: &Status, name: &str)
    ensures { Noted N.tells N.taken N.faults (note_of status.now name.now) notes.old notes.new }
{
    let _ = put_line(notes, status, name.as_bytes());
}
