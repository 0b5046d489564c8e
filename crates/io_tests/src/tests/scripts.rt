//! Scripts written by hand, and texts that are none. Columns are counted by hand.

use ds_base::KeyLine;
use nds_words::{ScriptFault, read_script};
use std::alloc::Global;
use std::process::Abort;

/// A line of a table: a text, and what it is.
#[derive(Clone, Copy)]
enum Line {
    /// The empty script.
    None(&'static str),
    /// A script of one line: its tick and its keys.
    One(&'static str, u64, u16),
    /// A script of two lines.
    Two(&'static str, u64, u16, u64, u16),
    /// No script: the first bad line and column.
    Bad(&'static str, u32, u32),
}

use Line::{Bad, None, One, Two};

/// How many lines a script has, and the ticks and keys of its first and its last one; or the bad line and column.
type Seen = (usize, u64, u64, u64, u64);

/// The count of lines of what is no script.
const IS_BAD: usize = usize::MAX;

/// What a text is; the tick and keys of no line are 0.
fn read(rt: &impl Abort, alloc: Global, text: &str) -> Seen {
    let bytes = text.as_bytes();
    assert!(rt; bytes.len() < 0x1_0000_0000);
    let keys = match read_script(alloc, bytes) {
        Ok(keys) => keys,
        Err(ScriptFault::Bad { line, column }) => return (IS_BAD, line.into(), column.into(), 0, 0),
        Err(ScriptFault::NoMemory) => return (IS_BAD, 0, 0, 0, 0),
    };
    let count = keys.len();
    if count == 0 {
        return (0, 0, 0, 0, 0);
    }
    let KeyLine { tick, pressed } = keys.line(0);
    let last = keys.line(count - 1);
    (
        count,
        tick.0,
        pressed.into(),
        last.tick.0,
        last.pressed.into(),
    )
}

/// The text of a line, and what it is to be.
fn wanted(line: Line) -> (&'static str, Seen) {
    match line {
        None(text) => (text, (0, 0, 0, 0, 0)),
        One(text, tick, keys) => (text, (1, tick, keys.into(), tick, keys.into())),
        Two(text, tick, keys, last, then) => (text, (2, tick, keys.into(), last, then.into())),
        Bad(text, line, column) => (text, (IS_BAD, line.into(), column.into(), 0, 0)),
    }
}

/// The texts, line by line.
fn try_lines(rt: &impl Abort, alloc: Global, lines: &[Line]) {
    for line in lines {
        let (text, wanted) = wanted(*line);
        let got = read(rt, alloc, text);
        assert!(rt; got == wanted, "{text}: {}, {}, {}", got.0, got.1, got.2);
    }
}

#[test]
fn scripts_tell_their_lines(rt: HostRuntime) {
    try_lines(
        &rt,
        rt.alloc(),
        &[
            None(""),
            One("5 A+UP", 5, 0x41),
            One("5 A+UP\n", 5, 0x41),
            One("0 -", 0, 0),
            Two("0 A\n1 -\n", 0, 1, 1, 0),
            Two("9 B\n10 B", 9, 2, 10, 2),
            One("5 SELECT+START+RIGHT+LEFT+UP+DOWN+R+L+X+Y", 5, 0xFFC),
            One("7 A+B+SELECT+START+RIGHT+LEFT+UP+DOWN+R+L+X+Y\n", 7, 0xFFF),
            One("5 RIGHT+R", 5, 0x110),
            One("99999999999 Y", 99_999_999_999, 0x800),
            Two(
                "99999999998 -\n99999999999 A\n",
                99_999_999_998,
                0,
                99_999_999_999,
                1,
            ),
        ],
    );
}

#[test]
fn each_key_has_its_bit(rt: HostRuntime) {
    try_lines(
        &rt,
        rt.alloc(),
        &[
            One("0 A\n", 0, 0x001),
            One("1 B\n", 1, 0x002),
            One("2 SELECT\n", 2, 0x004),
            One("3 START\n", 3, 0x008),
            One("4 RIGHT\n", 4, 0x010),
            One("5 LEFT\n", 5, 0x020),
            One("6 UP\n", 6, 0x040),
            One("7 DOWN\n", 7, 0x080),
            One("8 R\n", 8, 0x100),
            One("9 L\n", 9, 0x200),
            One("10 X\n", 10, 0x400),
            One("11 Y\n", 11, 0x800),
        ],
    );
}

/// A line of each key, in one script: its tick is the number of the key's bit.
const ALL_KEYS: &str =
    "0 A\n1 B\n2 SELECT\n3 START\n4 RIGHT\n5 LEFT\n6 UP\n7 DOWN\n8 R\n9 L\n10 X\n11 Y\n";

#[test]
fn a_script_of_twelve_lines_tells_each(rt: HostRuntime) -> Result<(), ScriptFault> {
    let keys = read_script(rt.alloc(), ALL_KEYS.as_bytes())?;
    assert!(rt; keys.len() == 12);
    for number in 0..keys.len() {
        let line = keys.line(number);
        let wanted = (number as u64, 1 << (number % 16));
        assert!(rt; (line.tick.0, line.pressed) == wanted, "line {number}");
    }
    Ok(())
}

#[test]
fn bad_ticks(rt: HostRuntime) {
    try_lines(
        &rt,
        rt.alloc(),
        &[
            Bad("100 A\n100 B\n", 2, 1),
            Bad("100 A\n99 B", 2, 1),
            // the third falls below the second, above the first; and equals it
            Bad("1 A\n5 B\n3 X\n", 3, 1),
            Bad("1 A\n5 B\n5 X\n", 3, 1),
            Bad("5", 1, 2),
            Bad("00 A", 1, 2),
            Bad("05 A", 1, 2),
            Bad("123456789012 A", 1, 12),
            Bad("100000000000 A", 1, 12),
            Bad("99999999999", 1, 12),
            Bad("5x A", 1, 2),
            Bad("A", 1, 1),
            Bad(" 5 A", 1, 1),
            Bad("-5 A", 1, 1),
            Bad("5  A", 1, 3),
            Bad("5\tA", 1, 2),
        ],
    );
}

#[test]
fn bad_keys(rt: HostRuntime) {
    try_lines(
        &rt,
        rt.alloc(),
        &[
            Bad("5 ", 1, 3),
            Bad("5 Q", 1, 3),
            Bad("5 a", 1, 3),
            Bad("5 start", 1, 3),
            Bad("5 B+A", 1, 5),
            Bad("5 A+A", 1, 5),
            Bad("5 A+", 1, 5),
            Bad("5 Y+", 1, 4),
            Bad("5 Y+Y", 1, 4),
            Bad("5 START+SELECT", 1, 9),
            Bad("5 SE", 1, 5),
            Bad("5 STOP", 1, 5),
            Bad("5 SELECTED", 1, 9),
            Bad("5 RIGHTS", 1, 8),
            Bad("5 RX", 1, 4),
            Bad("5 A UP", 1, 4),
            Bad("5 A,UP", 1, 4),
            Bad("5 --", 1, 4),
            Bad("5 -+A", 1, 4),
            Bad("5 A+-", 1, 5),
            Bad("5 A ", 1, 4),
            Bad("5 A\r\n", 1, 4),
            Bad("5 -\r\n", 1, 4),
        ],
    );
}

#[test]
fn first_bad_lines(rt: HostRuntime) {
    try_lines(
        &rt,
        rt.alloc(),
        &[
            Bad("\n", 1, 1),
            Bad("5 A\n\n6 B\n", 2, 1),
            Bad("5 A\n\n", 2, 1),
            Bad("1 A\n2 B\n3 X\n4 -\n5 A+UP\n6 Q\n", 6, 3),
            Bad("5 Q\n4 Z\n", 1, 3),
            Bad("5 A\n6 Q\n7 A+\n", 2, 3),
            Bad("5 A\n4 B\n6 Q\n", 2, 1),
            Bad("5 A\n6 Q\n4 B\n", 2, 3),
            Bad("5 A\n5", 2, 2),
        ],
    );
}
