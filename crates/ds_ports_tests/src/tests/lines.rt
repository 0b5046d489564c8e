//! Lines of the tables: accesses of ports, what happens behind them at its due tick, and what is seen of it.

ghost use Rattle.std.specs.Prelude.{◌≡◌, ◌%◌};
ghost use Rattle.ds_ports.specs.Dues.{io_due};
ghost use Rattle.ds_runs.specs.Actors.{IsNumbered};
ghost use Rattle.ds_runs.specs.declared.actors.Actor.TheVariants as actors;

use ds_base::{Due, LeftKind, Proc, Space, Stop, Tick, Width};
use ds_ports::{Before, Io};
use ds_runs::Actor;
use std::alloc::{AllocError, Global};
use std::process::Abort;

/// A line of a table. An access has its processor, its offset from 4000000h, its width, and the value that is read or written.
#[derive(Clone, Copy)]
pub enum Line {
    /// The units as at boot again.
    Boot,
    /// The tick of the lines from here on; 0 before.
    At(u32),
    /// A write that isn't refused.
    Write(Proc, u32, Width, u32),
    /// A write that is refused with this kind and value.
    Refused(Proc, u32, Width, u32, LeftKind, u32),
    /// What a read gives. It changes nothing.
    Reads(Proc, u32, Width, u32),
    /// A read is made.
    Read(Proc, u32, Width),
    /// A read is made, and gives this.
    Takes(Proc, u32, Width, u32),
    /// From now on these keys are pressed, a bit each.
    Press(u16),
    /// So many events of the display, each when it is due; none stops.
    Shows(u32),
    /// The display's event stops with this kind and value.
    Stops(LeftKind, u32),
    /// The byte that a port of the display keeps, whether it reads or not.
    Keeps(Proc, u32, u8),
    /// A processor halts.
    Halt(Proc),
    /// A halted processor goes on.
    Wake(Proc),
    /// Whether a processor is halted, and whether it is held by its halt or by a channel.
    Is(Proc, bool, bool),
    /// Whether a processor's interrupt line is up, and whether it wakes where it is halted.
    Asks(Proc, bool, bool),
    /// When a processor's timer is due.
    TimerDue(Proc, u8, u64),
    /// When a processor's channel is due.
    ChannelDue(Proc, u8, u64),
    /// When the running division is done.
    DivisionDue(u64),
    /// When the running square root is done.
    RootDue(u64),
    /// What is due first: its tick and its rank. Where geometry isn't quiet, it acts first, too.
    First(u64, u8),
    /// What acts first of what is due: its tick and its rank.
    Acts(u64, u8),
    /// Only the display's first event is due and acts.
    NoneActs,
    /// Nothing but the display's first event is due.
    NoneDue,
    /// A processor's timer overflows when it is due.
    Overflows(Proc, u8),
    /// The running division is done.
    Divides,
    /// The running square root is done.
    Roots,
    /// The cartridge's file has these words from 8000h on, and zeros before them.
    File(u32, u32),
    /// When the card is due.
    CardDue(u64),
    /// The card's event, when it is due: a word is ready, or a block without words ends.
    Gives,
    /// The units settle after a step.
    Settles,
    /// Whether they are settled.
    Settled(bool),
    /// Whether geometry is due and quiet.
    Quiet(bool),
    /// When geometry's head command is done.
    GeometryDue(u64),
    /// Geometry's head command is done when it is due.
    Finishes,
    /// So many times a word is written to one of ARM9's ports.
    Fills(u32, u32, u32),
    /// So many times a word is written to one of ARM9's ports, and the command done that it makes.
    Does(u32, u32, u32),
    /// Line 192 begins: whether a swap waited, and how many vertices and polygons the last swap gave out.
    Swaps(bool, u64, u64),
    /// Whether a processor is held: halted, by a channel, or by a stall.
    Held(Proc, bool),
    /// A processor's channel moves a unit when it is due: where it reads and where it writes, and its width.
    Moves(Proc, u8, u32, u32, Width),
    /// A processor's last move is taken back.
    PutsBack(Proc),
    /// A word of video memory is written.
    WriteVram(Space, u32, u32),
    /// A word of video memory is this.
    Vram(Space, u32, u32),
    /// What WRAMCNT keeps.
    Wramcnt(u32),
}

/// The due tick of what isn't due.
pub const NEVER: u64 = u64::MAX;

/// Palettes, or objects, of zeros.
const BLANK: [u8; 2048] = [0; 2048];

/// What a line shows: three numbers, as its kind has them.
type Seen = (u64, u64, u64);

/// What a line shows that asks nothing.
const DONE: Seen = (0, 0, 0);

/// The display's first event, the H-blank of line 0: its tick and its rank.
const FIRST_BLANK: Seen = (3212, 1, 0);

/// What is shown where what a line asks can't be done.
const NOTHING: Seen = (NEVER, NEVER, NEVER);

/// The units of a table, the tick of its lines, the last channel's move, and the cartridge's file.
#[derive(Drop)]
struct Bench {
    io: Io,
    now: u32,
    before: Option<Before>,
    file: Vec<u8>,
}

/// What a refusal tells: a number for each kind that ports have, and its value.
fn told(kind: LeftKind, value: u32) -> Seen {
    let kind = match kind {
        LeftKind::NotYet => 1,
        LeftKind::HaltMode => 2,
        LeftKind::DmaStart => 3,
        LeftKind::CardTransfer => 4,
        LeftKind::DisplayMode => 6,
        _ => 5,
    };
    (kind, value.into(), 0)
}

/// A tick, if it is one.
fn tick_of(due: Option<Tick>) -> Seen {
    (due.map_or(NEVER, |due| due.0), 0, 0)
}

/// A due tick and its rank.
fn seen_due(due: Due) -> Seen {
    (due.tick.0, due.rank.into(), 0)
}

/// A file of these words from 8000h on.
fn file_of(alloc: Global, first: u32, second: u32) -> Result<Vec<u8>, AllocError> {
    let mut file = vec![in alloc; 0u8; 0x8000]?;
    file.extend_from_slice(&first.to_le_bytes())?;
    file.extend_from_slice(&second.to_le_bytes())?;
    Ok(file)
}

/// An actor that numbers name, as its tick.
fn timer_due(io: &Io, proc: Proc, number: u8) -> Option<Tick> {
    io.io_due(Actor::Timer {
        proc,
        number: number % 4,
    })
}

/// When a processor's channel is due.
fn channel_due(io: &Io, proc: Proc, channel: u8) -> Option<Tick>
    ensures { result ≡ io_due (actors.Dma proc (channel % 4)) io.now }
{
    io.io_due(Actor::Dma {
        proc,
        channel: channel % 4,
    })
}

impl Bench {
    /// What a read gives.
    fn value(&self, proc: Proc, at: u32, width: Width) -> Seen {
        let now = Tick(self.now.into());
        (
            self.io.value(proc, now, at % 0x100_0000, width).into(),
            0,
            0,
        )
    }

    /// A read and what it gives.
    fn take(&mut self, proc: Proc, at: u32, width: Width) -> Seen {
        let now = Tick(self.now.into());
        (self.io.take(proc, now, at % 0x100_0000, width).into(), 0, 0)
    }

    /// A write, and why it is refused, if it is.
    fn put(&mut self, proc: Proc, at: u32, width: Width, value: u32) -> Seen {
        let now = Tick(self.now.into());
        match self.io.put(proc, now, at % 0x100_0000, width, value) {
            Some(Stop { kind, value }) => told(kind, value),
            None => DONE,
        }
    }

    /// What is due first. Where geometry isn't quiet, it is what acts first.
    fn first(&self) -> Seen {
        let seen = seen_due(self.io.first_due());
        if !self.io.is_quiet() && seen_due(self.io.first_acting()) != seen {
            return NOTHING;
        }
        seen
    }

    /// The event of an actor, where it is due.
    fn event(&mut self, actor: Actor) -> Seen
        requires { IsNumbered actor }
    {
        match self.io.io_due(actor) {
            Some(due) if due.0 <= 1 << 56 && self.io.gx().run_length() <= 1 << 56 => {
                self.io.event(actor, self.file.as_slice());
                DONE
            }
            _ => NOTHING,
        }
    }

    /// So many times a word is written to one of ARM9's ports, and the command done where that is asked.
    fn put_all(&mut self, times: u32, at: u32, value: u32, done: bool) -> Seen {
        let mut seen = DONE;
        for _ in 0..times {
            let put = self.put(Proc::Nine, at, Width::Word, value);
            let event = if done {
                self.event(Actor::Geometry)
            } else {
                DONE
            };
            if put != DONE || event != DONE {
                seen = NOTHING;
            }
        }
        seen
    }

    /// A swap, where one waits: whether one did, and how long the lists of the last one are.
    fn swap(&mut self) -> Seen {
        let waited = self.io.swap(Tick(self.now.into()));
        let lists = self.io.gx().lists();
        (
            waited.into(),
            lists.vertices().len() as u64,
            lists.polygons().len() as u64,
        )
    }

    /// What a line of geometry says: what was seen, and what is wanted.
    fn geometry(&mut self, line: Line) -> (Seen, Seen) {
        match line {
            Line::Settled(settled) => ((self.io.is_settled().into(), 0, 0), (settled.into(), 0, 0)),
            Line::Acts(tick, rank) => (seen_due(self.io.first_acting()), (tick, rank.into(), 0)),
            Line::NoneActs => (seen_due(self.io.first_acting()), FIRST_BLANK),
            Line::Quiet(quiet) => ((self.io.is_quiet().into(), 0, 0), (quiet.into(), 0, 0)),
            Line::GeometryDue(tick) => (tick_of(self.io.io_due(Actor::Geometry)), (tick, 0, 0)),
            Line::Finishes => (self.event(Actor::Geometry), DONE),
            Line::Fills(times, at, value) => (self.put_all(times, at, value, false), DONE),
            Line::Does(times, at, value) => (self.put_all(times, at, value, true), DONE),
            Line::Swaps(waited, vertices, polygons) => {
                (self.swap(), (waited.into(), vertices, polygons))
            }
            Line::Held(proc, held) => ((self.io.is_held(proc).into(), 0, 0), (held.into(), 0, 0)),
            _ => (DONE, DONE),
        }
    }

    /// The display's event, where it is due at an early tick: why it stops, if it does.
    fn show(&mut self) -> Seen {
        match self.io.io_due(Actor::Video) {
            Some(due) if due.0 <= 1 << 56 => match self.io.show(&BLANK, &BLANK) {
                Ok(_) => DONE,
                Err(Stop { kind, value }) => told(kind, value),
            },
            _ => NOTHING,
        }
    }

    /// So many events of the display.
    fn show_all(&mut self, events: u32) -> Seen {
        let mut seen = DONE;
        for _ in 0..events {
            let one = self.show();
            if one != DONE {
                seen = one;
            }
        }
        seen
    }

    /// A processor's channel moves a unit when it is due, if it is.
    fn moved(&mut self, proc: Proc, channel: u8) -> Seen {
        match channel_due(&self.io, proc, channel) {
            Some(due) if due.0 <= 1 << 56 => {
                let unit = self.io.processor(proc).unit();
                self.before = Some(self.io.move_channel(proc, due, 0));
                (unit.from.into(), unit.to.into(), unit.width.bytes().into())
            }
            _ => NOTHING,
        }
    }

    /// A processor's last move is taken back.
    fn put_back(&mut self, proc: Proc) -> Seen {
        match self.before {
            Some(before) => {
                self.io.put_back(proc, before);
                DONE
            }
            None => NOTHING,
        }
    }

    /// What a line of due ticks or of what is due says: what was seen, and what is wanted.
    fn behind(&mut self, line: Line) -> (Seen, Seen) {
        match line {
            Line::TimerDue(proc, number, tick) => {
                (tick_of(timer_due(&self.io, proc, number)), (tick, 0, 0))
            }
            Line::ChannelDue(proc, channel, tick) => {
                (tick_of(channel_due(&self.io, proc, channel)), (tick, 0, 0))
            }
            Line::DivisionDue(tick) => { (tick_of(self.io.io_due(Actor::Divider)), (tick, 0, 0)) }
            Line::RootDue(tick) => { (tick_of(self.io.io_due(Actor::SquareRoot)), (tick, 0, 0)) }
            Line::CardDue(tick) => (tick_of(self.io.io_due(Actor::Card)), (tick, 0, 0)),
            Line::Gives => (self.event(Actor::Card), DONE),
            Line::First(tick, rank) => (self.first(), (tick, rank.into(), 0)),
            Line::NoneDue => (self.first(), FIRST_BLANK),
            Line::Shows(events) => (self.show_all(events), DONE),
            Line::Stops(kind, value) => (self.show(), told(kind, value)),
            Line::Overflows(proc, number) => {
                let number = number % 4;
                (self.event(Actor::Timer { proc, number }), DONE)
            }
            Line::Divides => (self.event(Actor::Divider), DONE),
            Line::Roots => (self.event(Actor::SquareRoot), DONE),
            Line::Moves(proc, channel, from, to, width) => (
                self.moved(proc, channel),
                (from.into(), to.into(), width.bytes().into()),
            ),
            Line::PutsBack(proc) => (self.put_back(proc), DONE),
            _ => self.geometry(line),
        }
    }

    /// What a line changes that shows nothing.
    fn change(&mut self, line: Line) {
        match line {
            Line::At(now) => self.now = now,
            Line::Read(proc, at, width) => {
                self.io
                    .read(proc, Tick(self.now.into()), at % 0x100_0000, width)
            }
            Line::Press(keys) => self.io.press(keys % 0x1000),
            Line::Halt(proc) => self.io.set_halted(proc, true),
            Line::Wake(proc) => self.io.set_halted(proc, false),
            Line::Settles => self.io.settle(Tick(self.now.into())),
            Line::WriteVram(space, at, value) => {
                self.io.write_vram(space, at, Width::Word, value);
            }
            _ => {}
        }
    }

    /// Does what a line says: what was seen, and what is wanted.
    fn seen(&mut self, line: Line) -> (Seen, Seen) {
        self.change(line);
        match line {
            Line::Write(proc, at, width, value) => (self.put(proc, at, width, value), DONE),
            Line::Refused(proc, at, width, value, kind, with) => {
                (self.put(proc, at, width, value), told(kind, with))
            }
            Line::Reads(proc, at, width, value) => {
                (self.value(proc, at, width), (value.into(), 0, 0))
            }
            Line::Takes(proc, at, width, value) => {
                (self.take(proc, at, width), (value.into(), 0, 0))
            }
            Line::Is(proc, halted, blocked) => (
                (
                    self.io.processor(proc).is_halted().into(),
                    self.io.processor(proc).is_blocked().into(),
                    0,
                ),
                (halted.into(), blocked.into(), 0),
            ),
            Line::Asks(proc, up, wakes) => (
                (
                    self.io.processor(proc).line().into(),
                    self.io.processor(proc).wakes().into(),
                    0,
                ),
                (up.into(), wakes.into(), 0),
            ),
            Line::Vram(space, at, value) => (
                (self.io.vram().read(space, at, Width::Word).into(), 0, 0),
                (value.into(), 0, 0),
            ),
            Line::Keeps(proc, at, byte) => (
                (self.io.video().kept_byte(proc, at).into(), 0, 0),
                (byte.into(), 0, 0),
            ),
            Line::Wramcnt(value) => ((self.io.wramcnt().into(), 0, 0), (value.into(), 0, 0)),
            _ => self.behind(line),
        }
    }

    /// The same of every line, also of one that boots, or that makes the file.
    fn step(&mut self, alloc: Global, line: Line) -> Result<(Seen, Seen), AllocError> {
        match line {
            Line::Boot => self.io = Io::new(alloc)?,
            Line::File(first, second) => self.file = file_of(alloc, first, second)?,
            _ => {}
        }
        Ok(self.seen(line))
    }
}

/// The units from boot on, line by line.
pub fn try_lines(rt: &impl Abort, alloc: Global, lines: &[Line]) -> Result<(), AllocError> {
    let mut bench = Bench {
        io: Io::new(alloc)?,
        now: 0,
        before: None,
        file: Vec::new(alloc),
    };
    bench.io.laws();
    for (number, line) in lines.iter().enumerate() {
        let (got, wanted) = bench.step(alloc, *line)?;
        let (one, two, three) = got;
        assert!(rt; got == wanted, "line {number}: {one:x}, {two:x}, {three:x}");
    }
    Ok(())
}
