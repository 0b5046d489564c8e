//! The line of a step.

ghost use Rattle.std.specs.Prelude.{◌≡◌, ◌<◌, ◌≤◌, ◌+◌, ◌/◌, ◌%◌, ◌++◌, length};
ghost use Rattle.std.specs.List.{concat};
ghost use Rattle.ds_base.specs.Digits.{hex_digits};
ghost use Rattle.arm_words.specs.Spellings.{IsInRange};
ghost use Rattle.asm_text.specs.Listed.{spelling};
ghost use Rattle.nds_records.specs.Lines.{decimal_digits, step_line, entry_line, all_digits};

use crate::lines::OutLine;
use asm_lines::list_word;
use asm_text::{Line, Set};
use ds_base::{Arch, Tick, hex_digits};

/// The last decimal digit of a number of so many ones.
fn digit(number: u64, ones: u64) -> u8
    requires { 0 < ones }
    ensures { result ≡ 48 + number / ones % 10 }
{
    b'0' + (number / ones % 10) as u8
}

/// The last 12 decimal digits of a tick.
fn tick_digits(tick: Tick) -> [u8; 12]
    ensures { result ≡ decimal_digits 12 tick.0 }
{
    let tick = tick.0;
    [
        digit(tick, 100_000_000_000),
        digit(tick, 10_000_000_000),
        digit(tick, 1_000_000_000),
        digit(tick, 100_000_000),
        digit(tick, 10_000_000),
        digit(tick, 1_000_000),
        digit(tick, 100_000),
        digit(tick, 10_000),
        digit(tick, 1_000),
        digit(tick, 100),
        digit(tick, 10),
        digit(tick, 1),
    ]
}

/// Puts all digits of a word or half.
fn put_digits(set: Set, word: u32, line: &mut OutLine)
    requires { length line.old + 8 ≤ 128 }
    ensures text { line.new ≡ line.old ++ all_digits set word }
    ensures room { length line.new ≤ length line.old + 8 }
{
    match set {
        Set::Arm => line.put(&hex_digits(word)),
        Set::Thumb => line.put(&hex_digits(word)[4..]),
    }
}

/// The line of an instruction that is executed at a tick: the tick in 12 decimal digits, its address, its word or half, and its
/// statement.
pub fn step_line(arch: Arch, set: Set, tick: Tick, at: u32, word: u32) -> OutLine
    requires { IsInRange (spelling set word) }
    ensures { result ≡ step_line arch set tick.0 at word }
{
    let mut statement = Line::new();
    list_word(arch, set, at, word, &mut statement);
    let mut line = OutLine::new();
    line.put(&tick_digits(tick));
    line.put(b" ");
    line.put(&hex_digits(at));
    line.put(b" ");
    put_digits(set, word, &mut line);
    line.put(b" ");
    line.put(statement.bytes());
    line.put(b"\n");
    line
}

/// The line of an interrupt's entry at a tick: the tick in 12 decimal digits, the address from which it is entered, and `irq`.
pub fn entry_line(tick: Tick, at: u32) -> OutLine
    ensures { result ≡ entry_line tick.0 at }
{
    let mut line = OutLine::new();
    line.put(&tick_digits(tick));
    line.put(b" ");
    line.put(&hex_digits(at));
    line.put(b" irq\n");
    line
}
