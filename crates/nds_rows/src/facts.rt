//! The lines that say what is seen after a call: `is`, what is looked at, and what it is.

use crate::cursors::{Cursor, Radix};
use crate::faults::BadLine;
use crate::setups::proc_of;
use ds_base::{Memory, Proc};

/// Numbers that are looked at.
#[derive(Clone, Copy)]
pub enum Quantity {
    /// The status's number.
    Status,
    /// How many bytes the output has.
    Length,
    /// The output's record of the end: its five numbers.
    End,
    /// The output, which is a record of a stop alone: tick, rank, kind, value.
    Stop,
    /// The console's counts: steps of ARM9, of ARM7, events, turns.
    Counts,
    /// When the console's next step is due, and whose it is.
    Next,
    /// The console's limit.
    Limit,
    /// How many consoles are left, 0 or 1.
    Consoles,
    /// Whether the output's sink tells all that was put, 0 or 1.
    Told,
    /// Whether the output is the one that was kept: 0 if not, 1 if it is a front of it that isn't all, 2 if it is all of it, 3 if only its last eight
    /// bytes, the count of turns, differ.
    Kept,
    /// Whether the output is the one that was kept, but for its last eight bytes at most, 0 or 1.
    Near,
    /// Words of a memory, from a place on, in the output and in the console.
    Words(Memory, usize),
    /// The tick of a frame, by its number from 1, where the output has it.
    Frame(usize),
    /// Registers of a processor, from one on, in the output and in the console.
    Registers(Proc, usize),
    /// The control field of a processor's CPSR.
    Control(Proc),
    /// What a processor does next: 0 nothing; 1 and the r15 at which it enters an interrupt; 2, address and word; 3, address and half.
    Seen(Proc),
}

/// Bytes that are looked at.
#[derive(Clone, Copy)]
pub enum Text {
    /// The notes.
    Note,
    /// The whole output.
    Out,
    /// As many bytes of the output as are wanted, from this place on.
    OutAt(usize),
}

/// What is seen.
#[derive(Drop)]
pub enum Fact {
    /// These numbers; each that is none isn't looked at.
    Numbers {
        of: Quantity,
        wanted: Vec<Option<u64>>,
    },
    /// These bytes.
    Bytes {
        of: Text,
        wanted: Vec<u8>,
    },
}

/// The names of a processor's registers, in the order in which they are written out.
const REGISTERS: [&str; 37] = [
    "r0", "r1", "r2", "r3", "r4", "r5", "r6", "r7", "r8", "r9", "r10", "r11", "r12", "r8_fiq",
    "r9_fiq", "r10_fiq", "r11_fiq", "r12_fiq", "r13", "r14", "r13_fiq", "r14_fiq", "r13_svc",
    "r14_svc", "r13_abt", "r14_abt", "r13_irq", "r14_irq", "r13_und", "r14_und", "r15", "cpsr",
    "spsr_fiq", "spsr_svc", "spsr_abt", "spsr_irq", "spsr_und",
];

/// What stands behind a word that is looked at.
#[derive(Clone, Copy)]
enum Form {
    /// Numbers in these digits.
    Numbers(Quantity, Radix),
    /// Nothing: the word itself says that it is this number.
    Word(Quantity, u64),
    /// Bytes.
    Bytes(Text),
    /// A place, and bytes.
    At,
    /// A frame, a pixel of the upper screen, or of the lower one, and bytes.
    Pixels(bool),
    /// A frame, and its tick.
    Frame,
    /// The record of a stop.
    Stop,
    /// A processor, and what it does next.
    Seen,
    /// A register of this processor, and numbers.
    Registers(Proc),
    /// A place in this memory, and numbers.
    Words(Memory),
}

/// The words that are looked at.
const FORMS: [(&str, Form); 32] = [
    ("status", Form::Numbers(Quantity::Status, Radix::Decimal)),
    ("length", Form::Numbers(Quantity::Length, Radix::Decimal)),
    ("end", Form::Numbers(Quantity::End, Radix::Decimal)),
    ("stop", Form::Stop),
    ("note", Form::Bytes(Text::Note)),
    ("out", Form::Bytes(Text::Out)),
    ("told", Form::Word(Quantity::Told, 1)),
    ("untold", Form::Word(Quantity::Told, 0)),
    ("front", Form::Word(Quantity::Kept, 1)),
    ("same", Form::Word(Quantity::Kept, 2)),
    ("alike", Form::Word(Quantity::Kept, 3)),
    ("near", Form::Word(Quantity::Near, 1)),
    ("at", Form::At),
    ("upper", Form::Pixels(false)),
    ("lower", Form::Pixels(true)),
    ("frame", Form::Frame),
    ("counts", Form::Numbers(Quantity::Counts, Radix::Decimal)),
    ("next", Form::Numbers(Quantity::Next, Radix::Decimal)),
    ("limit", Form::Numbers(Quantity::Limit, Radix::Decimal)),
    ("console", Form::Word(Quantity::Consoles, 1)),
    ("empty", Form::Word(Quantity::Consoles, 0)),
    ("seen", Form::Seen),
    ("nine", Form::Registers(Proc::Nine)),
    ("seven", Form::Registers(Proc::Seven)),
    ("main", Form::Words(Memory::Main)),
    ("shared", Form::Words(Memory::Shared)),
    ("own7", Form::Words(Memory::Own7)),
    ("itcm", Form::Words(Memory::Itcm)),
    ("dtcm", Form::Words(Memory::Dtcm)),
    ("palette", Form::Words(Memory::Palette)),
    ("vram", Form::Words(Memory::Vram)),
    ("oam", Form::Words(Memory::Oam)),
];

/// What a word says is looked at.
fn form_of(word: &str) -> Option<Form> {
    for (name, form) in &FORMS {
        if *name == word {
            return Some(*form);
        }
    }
    None
}

/// What a register's name stands for.
fn register_of(proc: Proc, line: &mut Cursor<'_>) -> Quantity {
    let word = line.word();
    if word == "cpsr_c" {
        return Quantity::Control(proc);
    }
    for (number, name) in REGISTERS.iter().enumerate() {
        if *name == word {
            return Quantity::Registers(proc, number);
        }
    }
    line.fail(BadLine::NoSuchWord);
    Quantity::Control(proc)
}

/// Numbers, from what is left of a line.
fn numbers(of: Quantity, radix: Radix, line: &mut Cursor<'_>) -> Fact {
    let wanted = line.numbers(radix);
    Fact::Numbers { of, wanted }
}

/// The record of a stop: tick, rank and kind in decimal digits, the value in hexadecimal ones.
fn stop(line: &mut Cursor<'_>) -> Fact {
    let tick = line.perhaps(Radix::Decimal);
    let rank = line.perhaps(Radix::Decimal);
    let kind = line.perhaps(Radix::Decimal);
    let value = line.perhaps(Radix::Hex);
    let wanted = line.list(&[tick, rank, kind, value]);
    Fact::Numbers {
        of: Quantity::Stop,
        wanted,
    }
}

/// The number of what a processor does next, by its name.
fn seen_number(line: &mut Cursor<'_>) -> u64 {
    match line.word() {
        "idle" => 0,
        "irq" => 1,
        "word" => 2,
        "half" => 3,
        _ => {
            line.fail(BadLine::NoSuchWord);
            0
        }
    }
}

/// The numbers of what a processor does next: `idle`, `irq R15`, `word AT WORD` or `half AT HALF`.
fn seen_numbers(line: &mut Cursor<'_>) -> Vec<Option<u64>> {
    let kind = seen_number(line);
    if kind == 0 {
        return line.list(&[Some(kind)]);
    }
    let at = u64::from(line.hex());
    if kind == 1 {
        return line.list(&[Some(kind), Some(at)]);
    }
    let code = u64::from(line.hex());
    line.list(&[Some(kind), Some(at), Some(code)])
}

/// What a processor does next.
fn seen(line: &mut Cursor<'_>) -> Fact {
    let of = Quantity::Seen(proc_of(line));
    let wanted = seen_numbers(line);
    Fact::Numbers { of, wanted }
}

/// The record of a frame has the letter, its tick, and then the upper screen's pixels and the lower's: 192 lines of 256 pixels of two bytes.
pub const FRAME_SIZE: usize = 196_617;

/// The place of a frame's record, by its number from 1.
pub fn frame_at(number: usize) -> usize {
    number.saturating_sub(1).saturating_mul(FRAME_SIZE)
}

/// The place of a pixel of a screen, which is the upper or the lower one: `FRAME X Y`.
fn pixel_at(is_lower: bool, line: &mut Cursor<'_>) -> usize {
    let frame = frame_at(line.length());
    let screen = if is_lower { 98_313 } else { 9 };
    let across = line.length().saturating_mul(2);
    let down = line.length().saturating_mul(512);
    let place = frame.saturating_add(screen).saturating_add(across);
    place.saturating_add(down)
}

/// Bytes, from what is left of a line.
fn bytes(of: Text, line: &mut Cursor<'_>) -> Fact {
    let wanted = line.bytes();
    Fact::Bytes { of, wanted }
}

/// What a line says of what a word says is looked at.
fn fact_of(form: Form, line: &mut Cursor<'_>) -> Fact {
    match form {
        Form::Numbers(of, radix) => numbers(of, radix, line),
        Form::Word(of, number) => Fact::Numbers {
            of,
            wanted: line.list(&[Some(number)]),
        },
        Form::Bytes(of) => bytes(of, line),
        Form::At => bytes(Text::OutAt(line.length()), line),
        Form::Pixels(is_lower) => bytes(Text::OutAt(pixel_at(is_lower, line)), line),
        Form::Frame => numbers(Quantity::Frame(line.length()), Radix::Decimal, line),
        Form::Stop => stop(line),
        Form::Seen => seen(line),
        Form::Registers(proc) => numbers(register_of(proc, line), Radix::Hex, line),
        Form::Words(memory) => words(memory, line),
    }
}

/// Words of a memory, from a place on.
fn words(memory: Memory, line: &mut Cursor<'_>) -> Fact {
    let place = line.hex() as usize;
    numbers(Quantity::Words(memory, place), Radix::Hex, line)
}

/// What a line says after `is`; nothing where no such line has its word.
pub fn fact_line(line: &mut Cursor<'_>) -> Option<Fact> {
    let form = form_of(line.word())?;
    Some(fact_of(form, line))
}
