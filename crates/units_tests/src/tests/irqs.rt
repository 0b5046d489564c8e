//! A processor's interrupt words, by GBATEK's "DS Interrupts".

use ds_timers::Irq;
use std::process::Abort;

/// A line of a table.
#[derive(Clone, Copy)]
enum Line {
    /// Bits of IF are raised.
    Raise(u32),
    /// A write of IF.
    Clear(u32),
    /// A write of IE.
    Enable(u32),
    /// A write of IME.
    Master(bool),
    /// The level of bit 21.
    Level(bool),
    /// IME and IE.
    Words(bool, u32),
    /// Whether the line is up, whether a halted processor wakes, and IF.
    Is(bool, bool, u32),
}

use Line::{Clear, Enable, Is, Level, Master, Raise, Words};

/// What a line shows: two answers and a word.
type Seen = (bool, bool, u32);

const DONE: Seen = (false, false, 0);

/// Does what a line says: what was seen, and what is wanted.
fn seen(irq: &mut Irq, line: Line) -> (Seen, Seen) {
    match line {
        Raise(bits) => irq.raise(bits),
        Clear(bits) => irq.ack(bits),
        Enable(bits) => irq.set_enabled(bits),
        Master(on) => irq.set_master(on),
        Level(on) => irq.level21(on),
        Words(on, bits) => return ((irq.master(), false, irq.enabled()), (on, false, bits)),
        Is(up, wakes, flags) => return ((irq.line(), irq.wakes(), irq.flags()), (up, wakes, flags)),
    }
    (DONE, DONE)
}

/// Interrupt words as at boot.
fn booted() -> Irq {
    let irq = Irq::new();
    irq.laws();
    irq
}

/// Interrupt words from boot on, line by line.
fn try_lines(rt: &impl Abort, lines: &[Line]) {
    let mut irq = booted();
    for (number, line) in lines.iter().enumerate() {
        let (got, wanted) = seen(&mut irq, *line);
        let (one, two, word) = got;
        assert!(rt; got == wanted, "line {number}: {one}, {two}, {word:x}");
    }
}

#[test]
fn the_line_asks_for_ime_and_the_wake_does_not(rt: HostRuntime) {
    try_lines(
        &rt,
        &[
            Words(false, 0),
            Is(false, false, 0),
            // bit 21 is a level, and isn't raised so
            Raise(0x21_0009),
            Raise(0x2),
            Enable(0x1_0001),
            Is(false, true, 0x1_000B),
            Master(true),
            Words(true, 0x1_0001),
            Is(true, true, 0x1_000B),
            Clear(0x1_0001),
            Is(false, false, 0xA),
            // nor is it cleared by a write
            Level(true),
            Clear(0xFFFF_FFF7),
            Is(false, false, 0x20_0008),
            Level(true),
            Level(false),
            Is(false, false, 8),
        ],
    );
}
