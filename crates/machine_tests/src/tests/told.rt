//! Machines of two small programs, and what they tell after some steps. All ticks are worked by hand from the instructions' costs.

use Line::{
    ActingSteps, Acts, Behind, First, Frame, Lists, Main, Next, NotDue, Observes, Pixel, Quiet,
    Sees, Steps, Stops, SwappedFrame, Took, Until,
};
use ds_base::Proc::{Nine, Seven};
use ds_base::{Due, KeyLine, Keys, Memory, Proc, Stop, Tick};
use ds_header::Cart;
use ds_machine::{Done, Machine, Seen, acting_laws, running_laws};
use std::alloc::{AllocError, Global};
use std::marker::Model;
use std::process::Abort;

/// A cartridge's header: both images have 80h bytes, and begin to run where they are put.
const WORDS: [(usize, u32); 8] = [
    (0x020, 0x200),
    (0x024, 0x0200_0000),
    (0x028, 0x0200_0000),
    (0x02C, 0x80),
    (0x030, 0x280),
    (0x034, 0x0210_0000),
    (0x038, 0x0210_0000),
    (0x03C, 0x80),
];

/// How many bytes the cartridge has, and where its images begin.
const LENGTH: usize = 0x300;

const NINE: usize = 0x200;

const SEVEN: usize = 0x280;

/// A line of a table, which looks at the machine as it is then.
#[derive(Clone, Copy)]
pub enum Line {
    /// So many steps are taken, of whichever actor is due first.
    Steps(u32),
    /// The actor of a rank is due at a tick.
    Due(u8, u64),
    /// It isn't due.
    NotDue(u8),
    /// The tick and the rank of the actor that is due first.
    First(u64, u8),
    /// The tick and the rank of the actor that acts next.
    Acts(u64, u8),
    /// So many steps are taken, of whichever actor acts first; geometry catches up before one that observes it.
    ActingSteps(u32),
    /// Whether geometry is due and quiet.
    Quiet(bool),
    /// Whether quiet geometry is due before the place of a rank at a tick.
    Behind(u64, u8, bool),
    /// What a processor does next.
    Sees(Proc, Seen),
    /// ARM9's next instruction is a word of its program, by the number of its place.
    Next(u32, u32),
    /// A byte of main memory, by its place.
    Main(u32, u8),
    /// How many steps ARM9, ARM7 and all others took.
    Took(u64, u64, u64),
    /// Steps are taken up to a tick.
    Until(u64),
    /// The next step makes a frame whole, and no lists are swapped.
    Frame,
    /// The next step makes a frame whole, and waiting lists are swapped.
    SwappedFrame,
    /// The tick of the last swap, and how many vertices its lists have.
    Lists(u64, u32),
    /// The next step stops: its tick, its rank, and what is left out.
    Stops(u64, u8, Stop),
    /// A pixel of the last whole frame.
    Pixel(u32, u16),
    /// The actor of a rank is due, and its next step observes geometry, or doesn't.
    Observes(u8, bool),
}

fn put(file: &mut Vec<u8>, at: usize, word: u32) {
    for (i, byte) in word.to_le_bytes().iter().enumerate() {
        let at = at % LENGTH + i;
        if at < file.len() {
            file[at] = *byte;
        }
    }
}

/// A cartridge's file with two programs.
pub fn file(alloc: Global, nine: &[u32], seven: &[u32]) -> Result<Vec<u8>, AllocError> {
    let mut file = vec![in alloc; 0; LENGTH]?;
    for (at, word) in WORDS {
        put(&mut file, at, word);
    }
    for (number, word) in nine.iter().enumerate() {
        put(&mut file, NINE + 4 * (number % 32), *word);
    }
    for (number, word) in seven.iter().enumerate() {
        put(&mut file, SEVEN + 4 * (number % 32), *word);
    }
    Ok(file)
}

/// A script with one line.
pub fn script(alloc: Global, tick: u64, pressed: u16) -> Result<Keys, AllocError> {
    let mut keys = Keys::new(alloc);
    keys.push(KeyLine {
        tick: Tick(tick % 0x1_0000),
        pressed: pressed % 0x1000,
    })?;
    Ok(keys)
}

/// A machine with its cartridge, and whether its last step stopped.
#[derive(Drop)]
struct Tested {
    machine: Machine,
    stopped: bool,
}

impl Model for Tested {
    ghost use Rattle.std.specs.Prelude.{◌≡◌, false};
    ghost use Rattle.ds_machine.specs.CountingLaws.{last_limit, IsRunning};
    ghost use Rattle.ds_machine.specs.States.{MachineState};

    ghost Value = { MachineState };

    ghost view = { λ t. t.machine };

    ghost invariant = { λ t. t.stopped ≡ false → IsRunning last_limit t.machine };
}

impl Tested {
    /// A machine at boot.
    fn new(alloc: Global, cart: Cart, keys: Keys) -> Result<Tested, AllocError> {
        let mut machine = Machine::new(alloc, &cart, keys)?;
        machine.insert(cart);
        running_laws();
        Ok(Tested {
            machine,
            stopped: false,
        })
    }

    /// The step of the actor that is due first, where its tick is early; none after one that stopped.
    fn step(&mut self) -> Option<Done> {
        let due = self.machine.due();
        if self.stopped || due.tick.0 > 0x10_0000 {
            return None;
        }
        match self.machine.step_inserted(due.rank) {
            Done::Made => Some(Done::Made),
            Done::Frame { swapped } => Some(Done::Frame { swapped }),
            Done::Stopped(left) => {
                self.stopped = true;
                Some(Done::Stopped(left))
            }
        }
    }

    /// The step of the actor that acts first, where its tick is early; where it observes geometry, geometry catches up before it.
    fn act(&mut self) -> Option<Done> {
        let acting = self.machine.acting();
        if self.stopped || acting.tick.0 > 0x10_0000 {
            return None;
        }
        acting_laws();
        self.machine.catch_up_before(acting.tick, acting.rank);
        match self.machine.step_inserted(acting.rank) {
            Done::Made => Some(Done::Made),
            Done::Frame { swapped } => Some(Done::Frame { swapped }),
            Done::Stopped(left) => {
                self.stopped = true;
                Some(Done::Stopped(left))
            }
        }
    }

    /// Whether a step was taken.
    fn steps(&mut self) -> bool {
        is_taken(self.step())
    }

    /// Whether so many steps were taken, each of the actor that is due first, or that acts first.
    fn steps_of(&mut self, count: u32, acting: bool) -> bool {
        let mut all = true;
        for _ in 0..count {
            let done = if acting { self.act() } else { self.step() };
            all = is_taken(done) && all;
        }
        all
    }

    /// Whether all steps up to a tick were taken.
    fn steps_until(&mut self, tick: u64) -> bool {
        for _ in 0..0x1_0000 {
            if self.machine.due().tick.0 >= tick {
                return true;
            }
            if !self.steps() {
                return false;
            }
        }
        false
    }

    /// Whether the next step stops so.
    fn stops(&mut self, tick: u64, rank: u8, stop: Stop) -> bool {
        match self.step() {
            Some(Done::Stopped(left)) => {
                left.tick.0 == tick
                    && left.rank == rank
                    && left.kind == stop.kind
                    && left.value == stop.value
            }
            _ => false,
        }
    }

    /// Whether a line holds.
    fn holds(&mut self, line: Line) -> bool {
        match line {
            Steps(count) => self.steps_of(count, false),
            ActingSteps(count) => self.steps_of(count, true),
            Until(tick) => self.steps_until(tick),
            Frame => matches!(self.step(), Some(Done::Frame { swapped: false })),
            SwappedFrame => matches!(self.step(), Some(Done::Frame { swapped: true })),
            Stops(tick, rank, stop) => self.stops(tick, rank, stop),
            _ => tells(&self.machine, line),
        }
    }
}

/// Whether it is a step that was taken.
fn is_taken(done: Option<Done>) -> bool {
    matches!(done, Some(Done::Made | Done::Frame { .. }))
}

/// Whether the next step of the actor of a rank observes geometry, where it is due.
fn observes(machine: &Machine, rank: u8) -> Option<bool> {
    if rank >= 24 || machine.due_of(rank).is_none() {
        return None;
    }
    Some(machine.observes(rank))
}

/// Whether a place is this.
fn is_at(due: Due, tick: u64, rank: u8) -> bool {
    due.tick.0 == tick && due.rank == rank
}

/// Whether a machine tells so.
fn tells(machine: &Machine, line: Line) -> bool {
    match line {
        Line::Due(rank, tick) => machine.due_of(rank % 24) == Some(Tick(tick)),
        NotDue(rank) => machine.due_of(rank % 24).is_none(),
        First(tick, rank) => is_at(machine.due(), tick, rank),
        Acts(tick, rank) => is_at(machine.acting(), tick, rank),
        Quiet(so) => machine.quiet() == so,
        Behind(tick, rank, so) => machine.is_behind(Tick(tick), rank) == so,
        Sees(proc, seen) => machine.seen(proc) == seen,
        Next(number, word) => {
            machine.seen(Nine)
                == Seen::Word {
                    at: 0x0200_0000 + 4 * (number % 32),
                    word,
                }
        }
        Main(at, byte) => machine.byte_of(Memory::Main, at % 0x40_0000) == byte,
        Took(nine, seven, events) => {
            machine.steps(Nine) == nine
                && machine.steps(Seven) == seven
                && machine.events() == events
        }
        Lists(tick, vertices) => {
            let lists = machine.lists();
            lists.tick().0 == tick && lists.vertices().len() == vertices as usize
        }
        Pixel(at, value) => machine.frame()[(at % 98_304) as usize] == value,
        Observes(rank, so) => observes(machine, rank % 24) == Some(so),
        _ => false,
    }
}

/// How many lines hold, one after another.
fn lines_held(tested: &mut Tested, lines: &[Line]) -> usize {
    for (number, line) in lines.iter().enumerate() {
        if !tested.holds(*line) {
            return number;
        }
    }
    lines.len()
}

/// The same of a machine with a cartridge and one line of keys. (It is held here alone: a function that held it beside an assertion would take a
/// minute to prove.)
fn held_from(alloc: Global, cart: Cart, keys: Keys, lines: &[Line]) -> Result<usize, AllocError> {
    let mut tested = Tested::new(alloc, cart, keys)?;
    Ok(lines_held(&mut tested, lines))
}

/// The same with a cartridge's file; 1,000 where it is none.
fn held(alloc: Global, file: Vec<u8>, keys: Keys, lines: &[Line]) -> Result<usize, AllocError> {
    match Cart::read(file) {
        Ok(cart) => held_from(alloc, cart, keys, lines),
        Err(_) => Ok(1000),
    }
}

/// Each line in turn, of a machine with two programs and one line of keys.
pub fn try_lines(
    rt: &impl Abort,
    alloc: Global,
    file: Vec<u8>,
    keys: Keys,
    lines: &[Line],
) -> Result<(), AllocError> {
    let number = held(alloc, file, keys, lines)?;
    assert!(rt; number == lines.len(), "line {number}");
    Ok(())
}

/// A branch to itself.
const LOOP: u32 = 0xEAFF_FFFE;

#[test]
fn each_actor_is_due_by_its_rank(rt: HostRuntime) -> Result<(), AllocError> {
    const NINE: [u32; 1] = [LOOP];
    const SEVEN: [u32; 1] = [LOOP];
    const LINES: [Line; 33] = [
        // at boot both processors are due; the first H-blank is at 3,212, and the line of keys at 10
        Line::Due(22, 0),
        Line::Due(23, 0),
        Line::Due(0, 10),
        Line::Due(1, 3212),
        // no timer, divider, root, channel; geometry has no command, and the card never is
        NotDue(2),
        NotDue(9),
        NotDue(10),
        NotDue(11),
        NotDue(12),
        NotDue(13),
        NotDue(14),
        NotDue(21),
        First(0, 22),
        Sees(
            Nine,
            Seen::Word {
                at: 0x0200_0000,
                word: LOOP,
            },
        ),
        Sees(
            Seven,
            Seen::Word {
                at: 0x0210_0000,
                word: LOOP,
            },
        ),
        Took(0, 0, 0),
        // a branch takes 3 ticks on ARM9 and 6 on ARM7, and its fetch from main memory 4 and 8
        Steps(1),
        First(0, 23),
        Line::Due(22, 7),
        Line::Due(23, 0),
        Steps(1),
        First(7, 22),
        Line::Due(23, 14),
        Took(1, 1, 0),
        Steps(1),
        First(10, 0),
        Line::Due(22, 14),
        Steps(1),
        NotDue(0),
        First(14, 22),
        Took(2, 1, 1),
        Steps(1),
        First(14, 23),
    ];
    let file = file(rt.alloc(), &NINE, &SEVEN)?;
    let keys = script(rt.alloc(), 10, 1)?;
    try_lines(&rt, rt.alloc(), file, keys, &LINES)
}

#[test]
fn units_behind_ports_are_due_by_their_ranks(rt: HostRuntime) -> Result<(), AllocError> {
    const NINE: [u32; 17] = [
        0xE3A0_0301, // mov r0, #0x4000000
        0xE3A0_1402, // mov r1, #0x2000000
        0xE580_10B0, // str r1, [r0, #0xb0]: the source
        0xE3A0_1622, // mov r1, #0x2200000
        0xE580_10B4, // str r1, [r0, #0xb4]: the target
        0xE3A0_2484, // mov r2, #0x84000000
        0xE382_2001, // orr r2, r2, #1
        0xE3A0_18C0, // mov r1, #0xc00000
        0xE381_1CFF, // orr r1, r1, #0xff00
        0xE381_10FD, // orr r1, r1, #0xfd
        0xE280_6D0A, // add r6, r0, #0x280
        0xE3A0_3005, // mov r3, #5
        0xE580_1100, // str r1, [r0, #0x100], at tick 64: timer 0 overflows after three counts of 2 ticks
        0xE586_3010, // str r3, [r6, #0x10], at 71: a division of 36 ticks
        0xE586_3038, // str r3, [r6, #0x38], at 78: a root of 26
        0xE580_20B8, // str r2, [r0, #0xb8], at 85: a channel, whose one unit is due 4 ticks later
        LOOP,
    ];
    const SEVEN: [u32; 1] = [LOOP];
    const LINES: [Line; 33] = [
        // ARM9's first thirteen steps, the last at 64, and ARM7 at 0, 14, 28, 42 and 56
        Steps(18),
        First(70, 2),
        Line::Due(22, 71),
        NotDue(10),
        Took(13, 5, 0),
        // ARM9 at 71, 78 and 85, ARM7 at 70 and 84, and the overflows at 70, 76 and 82, after which the next is at 88
        Steps(8),
        Took(16, 7, 3),
        First(88, 2),
        Line::Due(2, 88),
        NotDue(3),
        NotDue(6),
        Line::Due(10, 107),
        Line::Due(11, 104),
        Line::Due(14, 89),
        NotDue(15),
        NotDue(18),
        // while its channel runs ARM9 isn't due
        NotDue(22),
        Line::Due(23, 98),
        Sees(Nine, Seen::Idle),
        Main(0x20_0000, 0),
        // the overflow at 88, and the unit at 89, which waits twice for main memory: 8 ticks, and ARM9 goes on one later
        Steps(2),
        Took(16, 7, 5),
        First(94, 2),
        NotDue(14),
        Line::Due(2, 94),
        Line::Due(22, 98),
        Line::Due(23, 98),
        Sees(
            Nine,
            Seen::Word {
                at: 0x0200_0040,
                word: LOOP,
            },
        ),
        // it moved the program's first word
        Main(0x20_0000, 0x01),
        Main(0x20_0001, 0x03),
        Main(0x20_0002, 0xA0),
        Main(0x20_0003, 0xE3),
        Main(0x20_0004, 0),
    ];
    let file = file(rt.alloc(), &NINE, &SEVEN)?;
    let keys = script(rt.alloc(), 0x8000, 1)?;
    try_lines(&rt, rt.alloc(), file, keys, &LINES)
}

#[test]
fn a_halted_processor_is_not_due(rt: HostRuntime) -> Result<(), AllocError> {
    const LINES: [Line; 17] = [
        Sees(
            Nine,
            Seen::Word {
                at: 0x0200_0000,
                word: 0xEE07_0F90,
            },
        ),
        Steps(1),
        NotDue(22),
        Sees(Nine, Seen::Idle),
        Sees(
            Seven,
            Seen::Word {
                at: 0x0210_0000,
                word: 0xE3A0_0301,
            },
        ),
        Steps(2),
        Line::Due(23, 20),
        Sees(
            Seven,
            Seen::Word {
                at: 0x0210_0008,
                word: 0xE5C0_1301,
            },
        ),
        Steps(1),
        NotDue(23),
        Sees(Seven, Seen::Idle),
        Took(1, 3, 0),
        // the line of keys, and then the display
        First(40, 0),
        Steps(1),
        First(3212, 1),
        NotDue(22),
        NotDue(23),
    ];
    // mcr p15, 0, r0, c7, c0, 4; and of ARM7 mov r0, #0x4000000; mov r1, #0x80; strb r1, [r0, #0x301]
    let nine = [0xEE07_0F90, LOOP];
    let seven = [0xE3A0_0301, 0xE3A0_1080, 0xE5C0_1301, LOOP];
    let file = file(rt.alloc(), &nine, &seven)?;
    let keys = script(rt.alloc(), 40, 0x800)?;
    try_lines(&rt, rt.alloc(), file, keys, &LINES)
}

#[test]
fn the_entry_of_an_interrupt_is_told(rt: HostRuntime) -> Result<(), AllocError> {
    const NINE: [u32; 12] = [
        0xE3A0_0301, // mov r0, #0x4000000
        0xE3A0_1901, // mov r1, #0x4000
        0xE381_1001, // orr r1, r1, #1
        0xE280_2E13, // add r2, r0, #0x130
        0xE1C2_10B2, // strh r1, [r2, #2]: KEYCNT asks for A
        0xE3A0_1A01, // mov r1, #0x1000
        0xE580_1210, // str r1, [r0, #0x210]: IE
        0xE3A0_1001, // mov r1, #1
        0xE580_1208, // str r1, [r0, #0x208]: IME
        0xE3A0_101F, // mov r1, #0x1f
        0xE121_F001, // msr cpsr_c, r1, at tick 56: System mode, I clear
        LOOP,
    ];
    const SEVEN: [u32; 1] = [LOOP];
    const LINES: [Line; 12] = [
        // ARM9 twelve times up to 61, and at 68, ARM7 at 0, 14, .. 70; the line of keys at 72
        Steps(19),
        Took(13, 6, 0),
        First(72, 0),
        Sees(
            Nine,
            Seen::Word {
                at: 0x0200_002C,
                word: LOOP,
            },
        ),
        Steps(1),
        First(75, 22),
        Sees(Nine, Seen::Irq(0x0200_002C)),
        Sees(
            Seven,
            Seen::Word {
                at: 0x0210_0000,
                word: LOOP,
            },
        ),
        // the entry takes 3 ticks, and fetches nothing; the boot ROM's word there is a branch
        Steps(1),
        Line::Due(22, 78),
        Sees(
            Nine,
            Seen::Word {
                at: 0xFFFF_0018,
                word: 0xEA00_0000,
            },
        ),
        Took(14, 6, 1),
    ];
    let file = file(rt.alloc(), &NINE, &SEVEN)?;
    let keys = script(rt.alloc(), 72, 1)?;
    try_lines(&rt, rt.alloc(), file, keys, &LINES)
}
