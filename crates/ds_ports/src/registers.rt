//! The register map: which register stands at an offset.

ghost use Rattle.std.specs.Prelude.{◌≡◌, ◌<◌, ◌≤◌, ◌+◌, ◌-◌, ◌*◌, ◌/◌, [], ◌∷◌, ◌%◌, ◌^◌, ◌==◌, ◌++◌, if◌then◌else◌, Some, IfSome};
ghost use Rattle.ds_ports.specs.Parts.{high_parts, looked_up, low_parts, parts_of, port_slot, slot_among, slot_from};
ghost use Rattle.ds_ports.specs.RegisterMap.{slot_of, IsSlot, of_nine, display_ports, display_control_rows, status_rows, drawing_rows, gx_row, output_rows, dma_rows, fill_row, timer_and_key_rows, more_key_rows, ipc_rows, interrupt_rows, memory_rows, maths_rows, boot_rows, power_rows, geometry_rows, second_engine_rows, receive_rows};
ghost use Rattle.ds_ports.specs.declared.registers.Register.TheVariants.{DisplayHalf};
ghost use Rattle.gx_fifo.specs.GxPorts.{display_control_row};
ghost use Rattle.video2d.specs.DisplayRegisters.{control_registers, drawing_registers, engine_registers, output_registers, HasByteAt};
ghost use Rattle.video2d.specs.declared.engines.Engine.TheVariants.{A, B};

use ds_base::Proc;
use gx_fifo::{DISP3DCNT, GxPort, port_at};
use video2d::{
    DisplayRegister, DisplayRow, Engine, control_row_at, drawing_row_at, engine_row_at,
    output_row_at,
};

/// DMA0SAD's offset from 4000000h. Each channel has three words from there on, its control the last.
pub const DMA0SAD: u32 = 0x0B0;

/// DMA0FILL's, behind the channels.
pub const DMA0FILL: u32 = 0x0E0;

/// A register, by GBATEK's name ("DS I/O Maps"). Those of one name are told apart by a `Slot`'s number.
#[derive(Clone, Copy, PartialEq, Eq)]
pub enum Register {
    /// One of the display's that has two bytes; its number is its offset from 4000000h. (GBATEK, "DS Video" and the chapters that it names.)
    DisplayHalf,
    /// One of the display's that has four, the same.
    DisplayWord,
    /// One of geometry's that is read and written in parts too; its number is its offset from 4000000h. (GBATEK, "DS 3D Status".)
    GxWord,
    /// One of geometry's that takes commands, whole words; its number is its offset. (GBATEK, "DS 3D Geometry Commands".)
    GxCommand,
    /// DMA0SAD to DMA3SAD, a channel's source. (GBATEK, "DS DMA Transfers".)
    Dmasad,
    /// DMA0DAD to DMA3DAD, its target. (The same chapter.)
    Dmadad,
    /// DMA0CNT to DMA3CNT, its control. (The same chapter.)
    Dmacnt,
    /// DMA0FILL to DMA3FILL. (The same chapter.)
    Dmafill,
    /// TM0CNT_L to TM3CNT_L, a timer's counter, which is written as its reload. (GBATEK, "DS Timers".)
    TmcntL,
    /// TM0CNT_H to TM3CNT_H, its control. (The same chapter.)
    TmcntH,
    /// KEYINPUT. (GBATEK, "DS Keypad".)
    Keyinput,
    /// KEYCNT. (The same chapter.)
    Keycnt,
    /// EXTKEYIN. (The same chapter.)
    Extkeyin,
    /// IPCSYNC. (GBATEK, "DS Inter Process Communication (IPC)".)
    Ipcsync,
    /// IPCFIFOCNT. (The same chapter.)
    Ipcfifocnt,
    /// IPCFIFOSEND. (The same chapter.)
    Ipcfifosend,
    /// IPCFIFORECV. (The same chapter.)
    Ipcfiforecv,
    /// AUXSPICNT, of which each processor has its own; its number is its offset from 4000000h. (GBATEK, "DS Cartridge I/O Ports".)
    Auxspicnt,
    /// ROMCTRL, or one of the two words of the card's command, which both processors share; its number is its offset. (The same chapter.)
    CardWord,
    /// The card's data, by which its words are taken. (The same chapter.)
    CardData,
    /// IME. (GBATEK, "DS Interrupts".)
    Ime,
    /// IE. (The same chapter.)
    Ie,
    /// IF. (The same chapter.)
    If,
    /// VRAMCNT_A to VRAMCNT_I, numbers 0 to 8. (GBATEK, "DS Memory Control - VRAM".)
    Vramcnt,
    /// WRAMCNT. (GBATEK, "DS Memory Control - WRAM".)
    Wramcnt,
    /// VRAMSTAT. (GBATEK, "DS Memory Control - VRAM".)
    Vramstat,
    /// WRAMSTAT. (GBATEK, "DS Memory Control - WRAM".)
    Wramstat,
    /// DIVCNT. (GBATEK, "DS Maths".)
    Divcnt,
    /// DIV_NUMER, numbers 0 and 1: its low and its high word. (The same chapter.)
    DivNumer,
    /// DIV_DENOM, the same. (The same chapter.)
    DivDenom,
    /// DIV_RESULT, the same. (The same chapter.)
    DivResult,
    /// DIVREM_RESULT, the same. (The same chapter.)
    DivremResult,
    /// SQRTCNT. (The same chapter.)
    Sqrtcnt,
    /// SQRT_RESULT. (The same chapter.)
    SqrtResult,
    /// SQRT_PARAM, numbers 0 and 1: its low and its high word. (The same chapter.)
    SqrtParam,
    /// POSTFLG. (GBATEK, "DS Power Control".)
    Postflg,
    /// HALTCNT. (The same chapter.)
    Haltcnt,
}

/// A byte of a register.
#[derive(Clone, Copy, PartialEq, Eq)]
pub struct Slot {
    /// The register.
    pub register: Register,
    /// Which of those of its name, counted from 0.
    pub number: u32,
    /// Which byte, the lowest being 0.
    pub byte: u32,
    /// How many bytes the register has.
    pub bytes: u32,
}

/// The byte so many bytes into a row of registers.
#[inline(always)]
fn in_row(register: Register, bytes: u32, offset: u32) -> Option<Slot>
    requires { 0 < bytes }
    ensures { result ≡ Some (record { register = register; number = offset / bytes; byte = offset % bytes; bytes = bytes }) }
{
    Some(Slot {
        register,
        number: offset / bytes,
        byte: offset % bytes,
        bytes,
    })
}

/// The byte at an offset from 4000000h of a row of registers of two bytes, which begins at another, and whose numbers are their offsets.
#[inline(always)]
fn halves(register: Register, first: u32, at: u32) -> Option<Slot>
    requires from { first ≤ at }
    ensures { result ≡ Some (record { register = register; number = first + 2 * ((at - first) / 2); byte = (at - first) % 2; bytes = 2 }) }
{
    let offset = at - first;
    Some(Slot {
        register,
        number: first + 2 * (offset / 2),
        byte: offset % 2,
        bytes: 2,
    })
}

/// The same of registers of four bytes, the display's and geometry's.
#[inline(always)]
fn words(register: Register, first: u32, at: u32) -> Option<Slot>
    requires from { first ≤ at }
    ensures { result ≡ Some (record { register = register; number = first + 4 * ((at - first) / 4); byte = (at - first) % 4; bytes = 4 }) }
{
    let offset = at - first;
    Some(Slot {
        register,
        number: first + 4 * (offset / 4),
        byte: offset % 4,
        bytes: 4,
    })
}

/// The byte so many bytes into a row of registers whose numbers begin further on.
#[inline(always)]
fn in_row_from(first: u32, register: Register, bytes: u32, offset: u32) -> Option<Slot>
    requires few { first < 2 ^ 8 }
    requires some { 0 < bytes }
    requires near { offset < 2 ^ 24 }
    ensures { result ≡ Some (record { register = register; number = first + offset / bytes; byte = offset % bytes; bytes = bytes }) }
{
    Some(Slot {
        register,
        number: first + offset / bytes,
        byte: offset % bytes,
        bytes,
    })
}

/// The byte so many bytes into a row of two registers in turn.
#[inline(always)]
fn in_two(first: Register, second: Register, bytes: u32, offset: u32) -> Option<Slot>
    requires { 0 < bytes }
    ensures { result ≡ Some (record {
      register = if offset / bytes % 2 == 0 then first else second;
      number = offset / bytes / 2;
      byte = offset % bytes;
      bytes = bytes;
    }) }
{
    let place = offset / bytes;
    Some(Slot {
        register: if place % 2 == 0 { first } else { second },
        number: place / 2,
        byte: offset % bytes,
        bytes,
    })
}

/// The byte so many bytes into a row of three registers in turn.
#[inline(always)]
fn in_three(
    first: Register,
    second: Register,
    third: Register,
    bytes: u32,
    offset: u32,
) -> Option<Slot>
    requires { 0 < bytes }
    ensures { result ≡ Some (record {
      register = if offset / bytes % 3 == 0 then first else (if offset / bytes % 3 == 1 then second else third);
      number = offset / bytes / 3;
      byte = offset % bytes;
      bytes = bytes;
    }) }
{
    let place = offset / bytes;
    let register = match place % 3 {
        0 => first,
        1 => second,
        _ => third,
    };
    Some(Slot {
        register,
        number: place / 3,
        byte: offset % bytes,
        bytes,
    })
}

/// The byte at an offset from 4000000h of a row of the display's registers, whose offset counts from a base.
#[inline(always)]
fn in_display_row(base: u32, row: DisplayRow, at: u32) -> Option<Slot>
    requires base { base ≤ at }
    requires within { HasByteAt row (at - base) }
    ensures { result ≡ slot_from base at (Some row) }
{
    if row.bytes == 4 {
        words(Register::DisplayWord, base + row.first, at)
    } else {
        halves(Register::DisplayHalf, base + row.first, at)
    }
}

/// The same of the row that was found.
#[inline(always)]
fn in_display(base: u32, row: Option<DisplayRow>, at: u32) -> Option<Slot>
    requires base { base ≤ at }
    requires within { IfSome row (λ row. HasByteAt row (at - base)) }
    ensures { result ≡ slot_from base at row }
{
    match row {
        None => None,
        Some(row) => in_display_row(base, row, at),
    }
}

/// Engine A's control.
#[inline(always)]
#[tactic(auto, unfolding(crate::specs::Parts::slot_among))]
fn display_control(proc: Proc, at: u32) -> Option<Slot>
    ensures { result ≡ slot_among (of_nine proc display_control_rows) at }
{
    match proc {
        Proc::Nine => in_display(0, control_row_at(at), at),
        Proc::Seven => None,
    }
}

/// Each processor's display status.
#[inline(always)]
#[tactic(auto, unfolding(crate::specs::Parts::slot_among))]
fn status(at: u32) -> Option<Slot>
    ensures { result ≡ slot_among status_rows at }
{
    match at {
        0x004..=0x005 => in_display_row(0, DisplayRegister::Dispstat.row(), at),
        0x006..=0x007 => in_display_row(0, DisplayRegister::Vcount.row(), at),
        _ => None,
    }
}

/// Its backgrounds, windows and effects.
#[inline(always)]
#[tactic(auto, unfolding(crate::specs::Parts::slot_among))]
fn drawing(proc: Proc, at: u32) -> Option<Slot>
    ensures { result ≡ slot_among (of_nine proc drawing_rows) at }
{
    match proc {
        Proc::Nine => in_display(0, drawing_row_at(at), at),
        Proc::Seven => None,
    }
}

/// The 3D engine's control.
#[inline(always)]
#[tactic(auto, unfolding(crate::specs::Parts::slot_among))]
fn gx_control(proc: Proc, at: u32) -> Option<Slot>
    ensures { result ≡ slot_among (of_nine proc (gx_row display_control_row ∷ [])) at }
{
    if proc == Proc::Seven || at < DISP3DCNT || at >= DISP3DCNT + 4 {
        return None;
    }
    words(Register::GxWord, DISP3DCNT, at)
}

/// Its display capture and master brightness.
#[inline(always)]
#[tactic(auto, unfolding(crate::specs::Parts::slot_among))]
fn output(proc: Proc, at: u32) -> Option<Slot>
    ensures { result ≡ slot_among (of_nine proc output_rows) at }
{
    match proc {
        Proc::Nine => in_display(0, output_row_at(Engine::A, at), at),
        Proc::Seven => None,
    }
}

/// What ARM9's DMA is filled from.
#[inline(always)]
#[tactic(auto, unfolding(crate::specs::Parts::slot_among))]
fn fills(proc: Proc, at: u32) -> Option<Slot>
    ensures { result ≡ slot_among (of_nine proc (fill_row ∷ [])) at }
{
    match proc {
        Proc::Nine => match at {
            DMA0FILL..=0x0EF => in_row(Register::Dmafill, 4, at - DMA0FILL), // DMA0FILL to DMA3FILL
            _ => None,
        },
        Proc::Seven => None,
    }
}

/// DMA channels.
#[inline(always)]
#[tactic(auto, unfolding(crate::specs::Parts::slot_among))]
fn dma(at: u32) -> Option<Slot>
    ensures { result ≡ slot_among dma_rows at }
{
    if at < DMA0SAD || at >= DMA0FILL {
        return None;
    }
    // DMA0SAD, DMA0DAD, DMA0CNT to DMA3SAD, DMA3DAD, DMA3CNT
    in_three(
        Register::Dmasad,
        Register::Dmadad,
        Register::Dmacnt,
        4,
        at - DMA0SAD,
    )
}

/// The keys that ARM7 alone reads.
#[inline(always)]
#[tactic(auto, unfolding(crate::specs::Parts::slot_among))]
fn more_keys(proc: Proc, at: u32) -> Option<Slot>
    ensures { result ≡ slot_among (more_key_rows proc) at }
{
    match proc {
        Proc::Nine => None,
        Proc::Seven => match at {
            0x136..=0x137 => in_row(Register::Extkeyin, 2, at - 0x136), // EXTKEYIN
            _ => None,
        },
    }
}

/// Timers and keys.
#[inline(always)]
#[tactic(auto, unfolding(crate::specs::Parts::slot_among))]
fn timers_and_keys(at: u32) -> Option<Slot>
    ensures { result ≡ slot_among timer_and_key_rows at }
{
    match at {
        0x100..=0x10F => in_two(Register::TmcntL, Register::TmcntH, 2, at - 0x100), // TM0CNT_L, TM0CNT_H to TM3CNT_L, TM3CNT_H
        0x130..=0x131 => in_row(Register::Keyinput, 2, at - 0x130), // KEYINPUT
        0x132..=0x133 => in_row(Register::Keycnt, 2, at - 0x132), // KEYCNT
        _ => None,
    }
}

/// What passes between the processors, and to the card.
#[inline(always)]
#[tactic(auto, unfolding(crate::specs::Parts::slot_among))]
fn ipc(at: u32) -> Option<Slot>
    ensures { result ≡ slot_among ipc_rows at }
{
    match at {
        0x180..=0x181 => in_row(Register::Ipcsync, 2, at - 0x180), // IPCSYNC
        0x184..=0x185 => in_row(Register::Ipcfifocnt, 2, at - 0x184), // IPCFIFOCNT
        0x188..=0x18B => in_row(Register::Ipcfifosend, 4, at - 0x188), // IPCFIFOSEND
        0x1A0..=0x1A1 => halves(Register::Auxspicnt, 0x1A0, at), // AUXSPICNT
        0x1A4..=0x1AF => words(Register::CardWord, 0x1A4, at), // ROMCTRL, the card's command
        _ => None,
    }
}

/// The control of shared memories, and its status.
#[inline(always)]
#[tactic(auto, unfolding(crate::specs::Parts::slot_among))]
fn memories(proc: Proc, at: u32) -> Option<Slot>
    ensures { result ≡ slot_among (memory_rows proc) at }
{
    match proc {
        Proc::Nine => match at {
            0x240..=0x246 => in_row(Register::Vramcnt, 1, at - 0x240), // VRAMCNT_A to VRAMCNT_G
            0x247..=0x247 => in_row(Register::Wramcnt, 1, at - 0x247), // WRAMCNT
            0x248..=0x249 => in_row_from(7, Register::Vramcnt, 1, at - 0x248), // VRAMCNT_H, VRAMCNT_I
            _ => None,
        },
        Proc::Seven => match at {
            0x240..=0x240 => in_row(Register::Vramstat, 1, at - 0x240), // VRAMSTAT
            0x241..=0x241 => in_row(Register::Wramstat, 1, at - 0x241), // WRAMSTAT
            _ => None,
        },
    }
}

/// Interrupts.
#[inline(always)]
#[tactic(auto, unfolding(crate::specs::Parts::slot_among))]
fn interrupts(at: u32) -> Option<Slot>
    ensures { result ≡ slot_among interrupt_rows at }
{
    match at {
        0x208..=0x20B => in_row(Register::Ime, 4, at - 0x208), // IME
        0x210..=0x213 => in_row(Register::Ie, 4, at - 0x210), // IE
        0x214..=0x217 => in_row(Register::If, 4, at - 0x214), // IF
        _ => None,
    }
}

/// The divider and the square root.
#[inline(always)]
#[tactic(auto, unfolding(crate::specs::Parts::slot_among))]
fn maths(proc: Proc, at: u32) -> Option<Slot>
    ensures { result ≡ slot_among (of_nine proc maths_rows) at }
{
    match proc {
        Proc::Nine => match at {
            0x280..=0x283 => in_row(Register::Divcnt, 4, at - 0x280), // DIVCNT
            0x290..=0x297 => in_row(Register::DivNumer, 4, at - 0x290), // DIV_NUMER, its low and its high word
            0x298..=0x29F => in_row(Register::DivDenom, 4, at - 0x298), // DIV_DENOM, its low and its high word
            0x2A0..=0x2A7 => in_row(Register::DivResult, 4, at - 0x2A0), // DIV_RESULT, its low and its high word
            0x2A8..=0x2AF => in_row(Register::DivremResult, 4, at - 0x2A8), // DIVREM_RESULT, its low and its high word
            0x2B0..=0x2B3 => in_row(Register::Sqrtcnt, 4, at - 0x2B0), // SQRTCNT
            0x2B4..=0x2B7 => in_row(Register::SqrtResult, 4, at - 0x2B4), // SQRT_RESULT
            0x2B8..=0x2BF => in_row(Register::SqrtParam, 4, at - 0x2B8), // SQRT_PARAM, its low and its high word
            _ => None,
        },
        Proc::Seven => None,
    }
}

/// Power control.
#[inline(always)]
#[tactic(auto, unfolding(crate::specs::Parts::slot_among))]
fn power(proc: Proc, at: u32) -> Option<Slot>
    ensures { result ≡ slot_among (power_rows proc) at }
{
    match proc {
        Proc::Nine => match at {
            0x304..=0x305 => in_display_row(0, DisplayRegister::Powcnt1.row(), at),
            _ => None,
        },
        Proc::Seven => match at {
            0x301..=0x301 => in_row(Register::Haltcnt, 1, at - 0x301), // HALTCNT
            _ => None,
        },
    }
}

/// That the boot is over.
#[inline(always)]
#[tactic(auto, unfolding(crate::specs::Parts::slot_among))]
fn boot(at: u32) -> Option<Slot>
    ensures { result ≡ slot_among boot_rows at }
{
    match at {
        0x300..=0x300 => in_row(Register::Postflg, 1, at - 0x300), // POSTFLG
        _ => None,
    }
}

/// The byte of a word at an offset that a port of the geometry engine is, past DISP3DCNT.
#[inline(always)]
fn in_port(port: GxPort, at: u32) -> Option<Slot>
    ensures { result ≡ port_slot port at }
{
    let register = match port {
        GxPort::Display | GxPort::Unlisted => return None,
        GxPort::Fifo | GxPort::Direct(_) => Register::GxCommand,
        _ => Register::GxWord,
    };
    Some(Slot {
        register,
        number: at / 4 * 4,
        byte: at % 4,
        bytes: 4,
    })
}

/// The geometry engine, by its own table.
#[inline(always)]
#[tactic(auto, using(crate::proofs::GxRows::among_ports), unfolding(crate::specs::Parts::slot_among))]
fn geometry(proc: Proc, at: u32) -> Option<Slot>
    requires { 0x400 ≤ at }
    ensures { result ≡ slot_among (of_nine proc geometry_rows) at }
{
    match proc {
        Proc::Nine => in_port(port_at(at), at),
        Proc::Seven => None,
    }
}

/// Engine B.
#[inline(always)]
#[tactic(auto, unfolding(crate::specs::Parts::slot_among))]
fn second_engine(proc: Proc, at: u32) -> Option<Slot>
    requires { 0x1000 ≤ at }
    ensures { result ≡ slot_among (of_nine proc second_engine_rows) at }
{
    match proc {
        Proc::Nine => in_display(0x1000, engine_row_at(Engine::B, at - 0x1000), at),
        Proc::Seven => None,
    }
}

/// What the other processor sent, and what the card gives.
#[inline(always)]
#[tactic(auto, unfolding(crate::specs::Parts::slot_among))]
fn receive(at: u32) -> Option<Slot>
    ensures { result ≡ slot_among receive_rows at }
{
    match at {
        0x100000..=0x100003 => in_row(Register::Ipcfiforecv, 4, at - 0x100000), // IPCFIFORECV
        0x100010..=0x100013 => in_row(Register::CardData, 4, at - 0x100010), // the card's data
        _ => None,
    }
}

/// By the lower parts of a processor's map.
#[inline(always)]
fn by_low_parts(proc: Proc, at: u32) -> Option<Slot>
    ensures { result ≡ looked_up (low_parts proc) at }
{
    match at {
        0..=0x003 => display_control(proc, at),
        0x004..=0x007 => status(at),
        0x008..=0x05F => drawing(proc, at),
        DISP3DCNT..=0x063 => gx_control(proc, at),
        0x064..=0x0AF => output(proc, at),
        DMA0SAD..=0x0DF => dma(at),
        DMA0FILL..=0x0FF => fills(proc, at),
        0x100..=0x135 => timers_and_keys(at),
        0x136..=0x17F => more_keys(proc, at),
        0x180..=0x1FF => ipc(at),
        _ => None,
    }
}

/// By the parts above them.
#[inline(always)]
fn by_high_parts(proc: Proc, at: u32) -> Option<Slot>
    ensures { result ≡ looked_up (high_parts proc) at }
{
    match at {
        0..=0x23F => interrupts(at),
        0x240..=0x27F => memories(proc, at),
        0x280..=0x2FF => maths(proc, at),
        0x300..=0x300 => boot(at),
        0x301..=0x3FF => power(proc, at),
        0x400..=0xFFF => geometry(proc, at),
        0x1000..=0xF_FFFF => second_engine(proc, at),
        0x10_0000..=0x10_0013 => receive(at),
        _ => None,
    }
}

/// By all of them.
#[inline(always)]
fn by_parts(proc: Proc, at: u32) -> Option<Slot>
    ensures { result ≡ looked_up (parts_of proc) at }
{
    if at < 0x200 {
        by_low_parts(proc, at)
    } else {
        by_high_parts(proc, at)
    }
}

/// By a processor's map.
#[inline(always)]
#[tactic(auto, using(crate::proofs::RegisterMaps::map_by_parts))]
fn by_map(proc: Proc, at: u32) -> Option<Slot>
    ensures { result ≡ slot_of proc at }
{
    match proc {
        Proc::Nine => by_parts(Proc::Nine, at),
        Proc::Seven => by_parts(Proc::Seven, at),
    }
}

/// The same as `slot_of`, laid in line where it is called.
#[inline(always)]
#[tactic(auto, using(crate::proofs::RegisterMaps::some_slot))]
pub(crate) fn slot_at(proc: Proc, at: u32) -> Option<Slot>
    ensures value { result ≡ slot_of proc at }
    ensures within { IfSome result IsSlot }
{
    by_map(proc, at)
}

/// The register whose byte stands at an offset from 4000000h, for a processor; none where the offset isn't a port.
#[inline(never)]
pub fn slot_of(proc: Proc, at: u32) -> Option<Slot>
    ensures value { result ≡ slot_of proc at }
    ensures within { IfSome result IsSlot }
{
    slot_at(proc, at)
}
