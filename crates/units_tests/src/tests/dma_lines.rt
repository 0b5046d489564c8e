//! Lines of the tables of DMA channels: writes, events and units, and what is seen of them.

use DmaPort::{Control, Source, Target};
use ds_base::{LeftKind, Proc, Stop, Tick, Width};
use ds_dma::{Cause, Dma, DmaPort};
use std::process::Abort;

/// A line of a table.
#[derive(Clone, Copy)]
pub enum Line {
    /// The channels as at boot again.
    Boot,
    /// A write of a channel's control at a tick is taken.
    Write(u8, u32, u32),
    /// Writes of a channel's source, target and control at a tick are taken.
    Enable(u8, u32, u32, u32, u32),
    /// A write of a channel's control at a tick is refused with this kind and value.
    Refused(u8, u32, u32, LeftKind, u32),
    /// A port of a channel reads this.
    Reads(u8, DmaPort, u32),
    /// An event at a tick.
    Event(Cause, u32),
    /// This channel is due at this tick; a channel runs.
    Due(u8, u64),
    /// No channel is due, and none runs.
    Idle,
    /// The unit that is due moves words, or halves.
    Unit(Width),
    /// The unit that is due is moved at its tick: where it is read, where it is written, and the bits of IF that it raises.
    Moves(u32, u32, u32),
    /// The unit that is due is moved at its tick, with so many ticks of waits: where it is read, and where it is written.
    MovesIn(u32, u32, u32),
    /// So many units are moved until none is due, which raise these bits of IF between them.
    MovesAll(u64, u32),
    /// Whether a channel waits for the geometry FIFO.
    Awaits(bool),
    /// The last unit was moved at this tick.
    Last(u64),
    /// The last unit was moved at this tick, with so many ticks of waits.
    LastIn(u64, u32),
    /// None was moved yet.
    NoLast,
}

use Line::{
    Awaits, Boot, Due, Enable, Event, Idle, Last, LastIn, Moves, MovesAll, MovesIn, NoLast, Reads,
    Refused, Unit, Write,
};

/// What a line shows: three numbers, as its kind has them.
type Seen = (u64, u64, u64);

/// What is shown where there is nothing.
const NOTHING: Seen = (0, 0, u64::MAX);

/// A refusal: whether it is of the kind that DMA has, and its value.
fn told(kind: LeftKind, value: u32) -> Seen {
    let kind = match kind {
        LeftKind::DmaStart => 1,
        _ => 2,
    };
    (kind, value.into(), 0)
}

/// What an answer of a write shows.
fn answer(stop: Option<Stop>) -> Seen {
    match stop {
        Some(stop) => told(stop.kind, stop.value),
        None => NOTHING,
    }
}

/// Writes a channel's control at a tick.
fn write(dma: &mut Dma, channel: u8, control: u32, now: u32) -> Seen {
    answer(dma.write(channel % 4, Control, control, Tick(now.into())))
}

/// Writes a channel's source, target and control at a tick.
fn enable(dma: &mut Dma, channel: u8, from: u32, to: u32, control: u32, now: u32) -> Seen {
    let now = Tick(now.into());
    let source = dma.write(channel % 4, Source, from, now);
    let target = dma.write(channel % 4, Target, to, now);
    let control = dma.write(channel % 4, Control, control, now);
    answer(source.or(target).or(control))
}

/// The channel that is due and its tick, and whether a channel runs.
fn due(dma: &Dma) -> Seen {
    let runs = dma.running().into();
    match dma.due() {
        Some(due) => (due.channel.into(), due.tick.0, runs),
        None => (0, u64::MAX, runs),
    }
}

/// How many bytes the unit that is due moves.
fn bytes(dma: &Dma) -> Seen {
    match dma.due() {
        Some(_) => (dma.unit().width.bytes().into(), 0, 0),
        None => NOTHING,
    }
}

/// Moves the unit that is due at its tick, with so many ticks of waits, up to 16: where it is read and written, and the bits that it raises.
fn moved(dma: &mut Dma, waits: u32) -> Seen {
    match dma.due() {
        Some(due) if due.tick.0 <= 1 << 56 => {
            let unit = dma.unit();
            let raised = dma.finish(due.tick, waits.min(16));
            (unit.from.into(), unit.to.into(), raised.into())
        }
        _ => NOTHING,
    }
}

/// How many units are moved until none is due, up to 200001h, and the bits that they raise between them.
fn moves(dma: &mut Dma) -> Seen {
    let mut raised = 0;
    for done in 0..0x20_0001u32 {
        let unit = moved(dma, 0);
        if unit == NOTHING {
            return (done.into(), raised, 0);
        }
        raised |= unit.2;
    }
    (0x20_0001, raised, 0)
}

/// When the last unit was moved, and how long it waited.
fn last(dma: &Dma) -> Seen {
    match dma.last_unit() {
        Some(last) => (last.tick.0, last.waits.into(), 0),
        None => NOTHING,
    }
}

/// Does what a line says: what was seen, and what is wanted.
fn seen(dma: &mut Dma, proc: Proc, line: Line) -> (Seen, Seen) {
    match line {
        Boot => {
            *dma = booted(proc);
            (NOTHING, NOTHING)
        }
        Write(channel, control, now) => (write(dma, channel, control, now), NOTHING),
        Enable(channel, from, to, control, now) => {
            (enable(dma, channel, from, to, control, now), NOTHING)
        }
        Refused(channel, control, now, kind, value) => {
            (write(dma, channel, control, now), told(kind, value))
        }
        Reads(channel, port, value) => {
            (
                (dma.read(channel % 4, port).into(), 0, 0),
                (value.into(), 0, 0),
            )
        }
        Event(cause, now) => {
            dma.trigger(cause, Tick(now.into()));
            (NOTHING, NOTHING)
        }
        Due(channel, tick) => (due(dma), (channel.into(), tick, 1)),
        Idle => (due(dma), (0, u64::MAX, 0)),
        Unit(width) => (bytes(dma), (width.bytes().into(), 0, 0)),
        Moves(from, to, raised) => (moved(dma, 0), (from.into(), to.into(), raised.into())),
        MovesIn(waits, from, to) => (moved(dma, waits), (from.into(), to.into(), 0)),
        MovesAll(units, raised) => (moves(dma), (units, raised.into(), 0)),
        Awaits(wanted) => ((dma.awaits_geometry().into(), 0, 0), (wanted.into(), 0, 0)),
        Last(tick) => (last(dma), (tick, 0, 0)),
        LastIn(tick, waits) => (last(dma), (tick, waits.into(), 0)),
        NoLast => (last(dma), NOTHING),
    }
}

/// A processor's channels as at boot.
fn booted(proc: Proc) -> Dma {
    let dma = Dma::new(proc);
    dma.laws();
    dma
}

/// A processor's channels from boot on, line by line.
pub fn try_lines(rt: &impl Abort, proc: Proc, lines: &[Line]) {
    let mut dma = booted(proc);
    for (number, line) in lines.iter().enumerate() {
        let (got, wanted) = seen(&mut dma, proc, *line);
        let (one, two, three) = got;
        assert!(rt; got == wanted, "line {number}: {one:x}, {two:x}, {three:x}");
    }
}
