//! What a line of a table says, and how it is tried.

ghost use Rattle.std.specs.Prelude.{IfSome};
ghost use Rattle.arm_words.specs.Fields.{HasFields};

use super::buses::RefusingBus;
use super::forms::{Form, form_of};
use arm_core::{Bus, Core, FlatBus, Registers, Stepped, Touch, footprint};
use arm_ops::{
    Lists, Near, Operation, Runner, Singles, is_other, operation, run_anywhere, touched,
};
use arm_words::{Instr, decode_arm, decode_thumb};
use arm7_exec::step7;
use arm9_exec::step9;
use cp15_tcm::Cp15;
use ds_base::{Arch, LeftKind, Proc, Stop, Width};
use std::alloc::{AllocError, Global};
use std::process::Abort;

/// Places among the 37 words beside r0 to r12 of System mode: r8 to r12 of FIQ; r13 and r14 of each bank, System's without a name; CPSR;
/// the SPSRs.
pub const R8_FIQ: usize = 13;

pub const R12_FIQ: usize = 17;

pub const SP: usize = 18;

pub const LR: usize = 19;

pub const LR_FIQ: usize = 21;

pub const SP_SVC: usize = 22;

pub const LR_SVC: usize = 23;

pub const LR_ABT: usize = 25;

pub const SP_IRQ: usize = 26;

pub const LR_IRQ: usize = 27;

pub const SP_UND: usize = 28;

pub const LR_UND: usize = 29;

pub const PC: usize = 30;

pub const CPSR: usize = 31;

pub const SPSR_SVC: usize = 33;

pub const SPSR_ABT: usize = 34;

pub const SPSR_IRQ: usize = 35;

pub const SPSR_UND: usize = 36;

/// Words of memory, which the rows read: the address and the word. All others of its 200h bytes, which stand again and again, are 0.
const WORDS: [(u32, u32); 11] = [
    (0x00, 0x4433_2211),
    (0x08, 0x8483_8281),
    (0x40, 7),
    (0x44, 9),
    (0x48, 0x183),
    (0x4C, 0x1A2),
    (0x60, 0x8765_4321),
    (0x64, 9),
    (0x104, 0x0104_A1A1),
    (0x108, 0x0108_B2B2),
    (0x10C, 0x010C_C3C3),
];

/// CP15's numbers at boot: the control register, DTCM's and ITCM's.
const BOOT: [u32; 3] = [0x0005_2078, 0x0300_000A, 0x20];

/// What a step may leave wrong beside its words, whose numbers are 1 and their places.
const WRONG_END: u32 = 40;

const WRONG_MEMORY: u32 = 41;

const WRONG_CP15: u32 = 42;

const WRONG_REACH: u32 = 43;

const WRONG_WAY: u32 = 44;

const WRONG_FORM: u32 = 45;

/// A line of a table. Lines of a row stand in this order: the state before, the instruction, what the step leaves, and what it comes to.
#[derive(Clone, Copy)]
pub enum Line {
    /// CPSR before the step, which is System mode in ARM state or, for a half, Thumb state without flags where no line says another.
    Cpsr(u32),
    /// N, Z, C and V before it, beside System mode.
    Nzcv(u32),
    /// The SPSR of its mode before it, 0 where no line says another.
    Spsr(u32),
    /// CP15's control register, and DTCM's and ITCM's, before it, which are those of boot where no line says others.
    Cp15(u32, u32, u32),
    /// The interrupt line is up.
    Irq,
    /// Where the instruction stands, 100h where no line says another place.
    At(u32),
    /// The word to which the bus refuses writes.
    Refuses(u32),
    /// A register before it, as the mode sees it. All others are those of a boot at 100h with stacks at 0.
    R(u8, u32),
    /// The word that is stepped.
    Arm(u32),
    /// The half that is stepped.
    Thumb(u32),
    /// What the step leaves of a word of the 37, by its place. Words that no line names stay, and r15 goes on to the next instruction.
    To(usize, u32),
    /// The same of ARM7's step alone.
    To7(usize, u32),
    /// The same of ARM9's step alone.
    To9(usize, u32),
    /// N, Z, C and V after it, beside the rest of CPSR before it.
    Flags(u32),
    /// r15 after it.
    Pc(u32),
    /// r15 after an exception's entry, from the base of the vectors: 0 on ARM7, FFFF0000h on ARM9.
    Vector(u32),
    /// A word of memory after it. Words that no line names stay.
    Mem(u32, u32),
    /// The same of ARM7's step alone.
    Mem7(u32, u32),
    /// The same of ARM9's step alone.
    Mem9(u32, u32),
    /// CP15's numbers after it, which stay where no line says others.
    Kept(u32, u32, u32),
    /// It is an operation that is decoded, and is run where its accesses must be of RAM.
    Near,
    /// It is such an operation, and isn't run there.
    Far,
    /// It is LDM or STM that is decoded, and is run where its words must be of RAM and lists are asked for.
    List,
    /// It is none.
    Other,
    /// The form of the operation that is made of it.
    Is(Form),
    /// What it costs on ARM7 and on ARM9.
    Both(u32, u32),
    /// What it costs on ARM7; the row isn't ARM9's.
    Seven(u32),
    /// What it costs on ARM9; the row isn't ARM7's.
    Nine(u32),
    /// It halts, on ARM9 alone, and costs so much.
    Halts(u32),
    /// It is left out on both, with this value.
    Stops(LeftKind, u32),
    /// The same on ARM9 alone.
    Stops9(LeftKind, u32),
    /// The first byte that its accesses of data reach, and how many there are, which is told before the step. The row asks nothing else.
    Reaches(u32, u32),
    /// The same on ARM7 alone.
    Reaches7(u32, u32),
    /// The same on ARM9 alone.
    Reaches9(u32, u32),
}

/// How an instruction is tried.
#[derive(Clone, Copy, PartialEq, Eq)]
enum Way {
    /// By the processor's step.
    Step,
    /// As a decoded operation, where it is one, wherever its accesses are.
    Anywhere,
    /// The same, where they are of RAM.
    Near,
    /// The same, where it is LDM or STM.
    Lists,
}

/// A step that is tried.
#[derive(Drop)]
struct Case {
    proc: Proc,
    way: Way,
    core: Core,
    cp: Cp15,
    bus: RefusingBus,
    at: u32,
    irq: bool,
    /// What it came to, if it was taken, and the bytes that it was to reach, where it is an instruction or an operation.
    found: Option<Stepped>,
    touch: Option<Touch>,
    /// Which of `Near`, `Far` and `Other` it is, if a line says it.
    kind: Option<Line>,
    /// The form that it has, and by what another differs that a line names.
    form: u32,
    is: u32,
    /// What it must leave: the 37 words, memory, and CP15's numbers.
    words: [u32; 37],
    memory: FlatBus,
    kept: [u32; 3],
}

/// Memory before a step.
fn memory(alloc: Global) -> Result<FlatBus, AllocError> {
    let mut bus = FlatBus::new(vec![in alloc; 0; 0x200]?);
    for (at, word) in WORDS {
        let _ = bus.write(at, Width::Word, word);
    }
    Ok(bus)
}

/// CP15's numbers.
fn numbers(cp: &Cp15) -> [u32; 3] {
    [cp.mrc(0, 1, 0, 0), cp.mrc(0, 9, 1, 0), cp.mrc(0, 9, 1, 1)]
}

/// A step of a processor, of which the rows take what they see and no clause.
fn step(proc: Proc, core: &mut Core, cp: &mut Cp15, bus: &mut RefusingBus, irq: bool) -> Stepped {
    match proc {
        Proc::Seven => step7(core, bus, irq),
        Proc::Nine => step9(core, cp, bus, irq),
    }
}

/// An operation that is run wherever its accesses are, if it is one, likewise.
fn run_op(
    arch: Arch,
    s: &mut Registers,
    bus: &mut RefusingBus,
    instr: Option<Instr>,
) -> Option<Stepped>
    requires { IfSome instr HasFields }
{
    let made: Operation = operation(instr);
    if is_other(&made) {
        return None;
    }
    Some(run_anywhere(arch, s, bus, &made))
}

/// Nothing is near but RAM.
pub enum RamAlone {}

impl Near<FlatBus> for RamAlone {
    ghost use Rattle.std.specs.Prelude.{false};

    ghost near = { λ at. false };

    fn is_near(_at: u32) -> bool {
        false
    }

    fn read_near(bus: &mut FlatBus, at: u32, width: Width) -> Option<u32> {
        if at >> 25 != 1 {
            return None;
        }
        Some(bus.read(at, width))
    }

    fn write_near(bus: &mut FlatBus, at: u32, width: Width, value: u32) -> bool {
        if at >> 25 != 1 {
            return false;
        }
        let _ = bus.write(at, width, value);
        true
    }
}

/// The same where they must be of RAM.
fn run_in_ram(
    arch: Arch,
    s: &mut Registers,
    bus: &mut FlatBus,
    instr: Option<Instr>,
    lists: bool,
) -> Option<Stepped>
    requires { IfSome instr HasFields }
{
    let made = operation(instr);
    let clocks = if lists {
        Lists::<0>::run::<FlatBus, RamAlone>(arch, s, bus, &made)
    } else {
        Singles::<0>::run::<FlatBus, RamAlone>(arch, s, bus, &made)
    };
    match clocks {
        0 => None,
        clocks => Some(Stepped::Cost(clocks)),
    }
}

/// The instruction of a word or a half, if it has one.
fn instruction(arch: Arch, code: u32, width: Width) -> Option<Instr>
    ensures { IfSome result HasFields }
{
    match width {
        Width::Half => decode_thumb(arch, (code % 0x1_0000) as u16),
        _ => decode_arm(arch, code),
    }
}

/// The bytes that an instruction or an operation reaches, likewise.
fn reached(core: &Core, way: Way, instr: Option<Instr>) -> Option<Touch>
    requires { IfSome instr HasFields }
{
    let instr = instr?;
    if way == Way::Step {
        return Some(footprint(core, &instr));
    }
    let made = operation(Some(instr));
    if is_other(&made) {
        None
    } else {
        Some(touched(core.arch, &core.registers, &made))
    }
}

impl Case {
    fn new(alloc: Global, proc: Proc, way: Way) -> Result<Case, AllocError> {
        let mut core = Core::boot(proc.architecture(), 0x100, [0; 3]);
        core.registers.set_cpsr(0x1F);
        let flat = memory(alloc)?;
        Ok(Case {
            proc,
            way,
            core,
            cp: Cp15::boot(),
            bus: RefusingBus { flat, refused: 1 },
            at: 0x100,
            irq: false,
            found: None,
            touch: None,
            kind: None,
            form: 0,
            is: 0,
            words: [0; 37],
            memory: memory(alloc)?,
            kept: BOOT,
        })
    }

    /// The state before.
    fn prepare(&mut self, line: Line) {
        match line {
            Line::Cpsr(cpsr) => self.core.registers.set_cpsr(cpsr),
            Line::Nzcv(flags) => self.core.registers.set_cpsr(
                ((flags % 16) << 28) + self.core.registers.cpsr() % 0x1000_0000,
            ),
            Line::Spsr(spsr) => self.core.registers.write_spsr(0xFFFF_FFFF, spsr),
            Line::Cp15(control, dtcm, itcm) => {
                let _ = self.cp.mcr(0, 1, 0, 0, control);
                let _ = self.cp.mcr(0, 9, 1, 0, dtcm);
                let _ = self.cp.mcr(0, 9, 1, 1, itcm);
                self.kept = [control, dtcm, itcm];
            }
            Line::Irq => self.irq = true,
            Line::At(at) => self.at = at,
            Line::Refuses(at) => self.bus.refused = at,
            Line::Near | Line::Far | Line::List | Line::Other => self.kind = Some(line),
            Line::Is(wanted) => self.is = self.form ^ wanted as u32,
            Line::R(r, value) => {
                if r < 16 {
                    self.core.registers.set(r, value);
                }
            }
            _ => {}
        }
    }

    /// The instruction, which is stepped.
    fn instruct(&mut self, line: Line) {
        match line {
            Line::Arm(word) => self.go(word, Width::Word),
            Line::Thumb(half) => {
                if !self.core.registers.is_thumb() {
                    let cpsr = self.core.registers.cpsr();
                    self.core.registers.set_cpsr(cpsr | 0x20);
                }
                self.go(half, Width::Half);
            }
            _ => {}
        }
    }

    fn go(&mut self, code: u32, width: Width) {
        let _ = self.bus.flat.write(self.at, width, code);
        let _ = self.memory.write(self.at, width, code);
        self.core.registers.jump(self.at);
        self.words = self.core.registers();
        let instr = instruction(self.core.arch, code, width);
        self.touch = reached(&self.core, self.way, instr);
        self.form = form_of(&operation(instr).op) as u32;
        self.found = self.taken(instr);
        if self.found.is_some() {
            self.words[PC] = self.at.wrapping_add(width.bytes());
        }
    }

    /// What it comes to, if it is taken. No operation is an interrupt's entry.
    fn taken(&mut self, instr: Option<Instr>) -> Option<Stepped>
        requires { IfSome instr HasFields }
    {
        let arch = self.core.arch;
        match self.way {
            Way::Step => Some(step(
                self.proc,
                &mut self.core,
                &mut self.cp,
                &mut self.bus,
                self.irq,
            )),
            _ if self.irq => None,
            Way::Anywhere => run_op(arch, &mut self.core.registers, &mut self.bus, instr),
            Way::Near | Way::Lists if self.bus.refused != 1 => None,
            Way::Near | Way::Lists => {
                let lists = self.way == Way::Lists;
                run_in_ram(
                    arch,
                    &mut self.core.registers,
                    &mut self.bus.flat,
                    instr,
                    lists,
                )
            }
        }
    }

    fn put(&mut self, place: usize, value: u32) {
        if let Some(word) = self.words.get_mut(place) {
            *word = value;
        }
    }

    /// What it must leave of the words, where it is taken.
    fn expect(&mut self, line: Line) {
        if self.found.is_none() {
            return;
        }
        let seven = self.proc == Proc::Seven;
        match line {
            Line::To(place, value) => self.put(place, value),
            Line::To7(place, value) if seven => self.put(place, value),
            Line::To9(place, value) if !seven => self.put(place, value),
            Line::Flags(flags) => {
                self.words[CPSR] = ((flags % 16) << 28) + self.words[CPSR] % 0x1000_0000;
            }
            Line::Pc(pc) => self.words[PC] = pc,
            Line::Vector(vector) => {
                self.words[PC] = if seven { vector } else { vector | 0xFFFF_0000 };
            }
            _ => {}
        }
    }

    /// What it must leave of memory and CP15, likewise.
    fn expect_memory(&mut self, line: Line) {
        if self.found.is_none() {
            return;
        }
        let seven = self.proc == Proc::Seven;
        match line {
            Line::Mem(at, value) => {
                let _ = self.memory.write(at, Width::Word, value);
            }
            Line::Mem7(at, value) if seven => {
                let _ = self.memory.write(at, Width::Word, value);
            }
            Line::Mem9(at, value) if !seven => {
                let _ = self.memory.write(at, Width::Word, value);
            }
            Line::Kept(control, dtcm, itcm) => self.kept = [control, dtcm, itcm],
            _ => {}
        }
    }

    /// What is wrong where a step was to come to this: 0 where nothing is.
    fn fault(&self, wanted: Stepped) -> u32 {
        let mut place = 0u32;
        for (got, word) in self.core.registers().iter().zip(self.words.iter()) {
            place = place.wrapping_add(1);
            if got != word {
                return place;
            }
        }
        if self.found.is_some() && self.found != Some(wanted) {
            return WRONG_END;
        }
        if self.bus.flat.bytes() != self.memory.bytes() {
            return WRONG_MEMORY;
        }
        if numbers(&self.cp) != self.kept {
            return WRONG_CP15;
        }
        if self.is != 0 {
            return WRONG_FORM;
        }
        if self.is_right_way() { 0 } else { WRONG_WAY }
    }

    /// Whether it was taken where the row says it.
    fn is_right_way(&self) -> bool {
        match (self.way, self.kind) {
            (Way::Step, _) => self.found.is_some(),
            (_, None) | (Way::Lists, Some(Line::Near | Line::Far)) => true,
            (Way::Lists, Some(Line::List)) => self.found.is_some(),
            (_, Some(Line::Near)) | (Way::Anywhere, Some(Line::Far)) => self.found.is_some(),
            _ => self.found.is_none(),
        }
    }

    /// What is wrong where these bytes were to be reached.
    fn reach_fault(&self, wanted: Option<Touch>) -> u32 {
        let asked = self.way == Way::Step || self.touch.is_some();
        if wanted.is_some() && asked && self.touch != wanted {
            WRONG_REACH
        } else {
            0
        }
    }
}

/// What a row's last line wants of a processor's step, if it is the last and the row is the processor's.
fn wanted(line: Line, proc: Proc) -> Option<Stepped> {
    let stop = |kind, value| Some(Stepped::Left(Stop { kind, value }));
    match (line, proc) {
        (Line::Both(clocks, _) | Line::Seven(clocks), Proc::Seven) => Some(Stepped::Cost(clocks)),
        (Line::Both(_, ticks) | Line::Nine(ticks), Proc::Nine) => Some(Stepped::Cost(ticks)),
        (Line::Halts(ticks), Proc::Nine) => Some(Stepped::Halted(ticks)),
        (Line::Stops(kind, value), _) => stop(kind, value),
        (Line::Stops9(kind, value), Proc::Nine) => stop(kind, value),
        _ => None,
    }
}

/// What a row's last line wants of the bytes that are reached, if it is the last and the row is the processor's.
fn wanted_touch(line: Line, proc: Proc) -> Option<Touch> {
    let (first, length) = match (line, proc) {
        (Line::Reaches(first, length), _) => (first, length),
        (Line::Reaches7(first, length), Proc::Seven) => (first, length),
        (Line::Reaches9(first, length), Proc::Nine) => (first, length),
        _ => return None,
    };
    if length == 0 {
        Some(Touch::Nothing)
    } else {
        Some(Touch::Span { first, length })
    }
}

/// Whether a line is a row's last.
fn is_last(line: Line) -> bool {
    matches!(
        line,
        Line::Both(..)
            | Line::Seven(..)
            | Line::Nine(..)
            | Line::Halts(..)
            | Line::Stops(..)
            | Line::Stops9(..)
            | Line::Reaches(..)
            | Line::Reaches7(..)
            | Line::Reaches9(..)
    )
}

/// Tries rows on a processor in a way.
fn try_on(
    rt: &impl Abort,
    alloc: Global,
    proc: Proc,
    way: Way,
    lines: &[Line],
) -> Result<(), AllocError> {
    let mut case = Case::new(alloc, proc, way)?;
    for (number, &line) in lines.iter().enumerate() {
        case.prepare(line);
        case.instruct(line);
        case.expect(line);
        case.expect_memory(line);
        let fault = match wanted(line, proc) {
            Some(stepped) => case.fault(stepped),
            None => case.reach_fault(wanted_touch(line, proc)),
        };
        let [name, by] = [proc as u32, way as u32];
        assert!(rt;
            fault == 0,
            "processor {name}, way {by}, line {number}: {fault}"
        );
        if is_last(line) {
            case = Case::new(alloc, proc, way)?;
        }
    }
    Ok(())
}

/// Tries rows on both processors, by their steps and as decoded operations.
pub fn try_lines(rt: &impl Abort, alloc: Global, lines: &[Line]) -> Result<(), AllocError> {
    for way in [Way::Step, Way::Anywhere, Way::Near, Way::Lists] {
        try_on(rt, alloc, Proc::Seven, way, lines)?;
        try_on(rt, alloc, Proc::Nine, way, lines)?;
    }
    Ok(())
}
