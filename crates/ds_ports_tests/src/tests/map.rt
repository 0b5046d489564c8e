//! Rows of the register map, by GBATEK's list.

use Proc::{Nine, Seven};
use Register::{
    Auxspicnt, CardData, CardWord, DisplayHalf, DisplayWord, DivDenom, DivNumer, DivResult, Divcnt,
    DivremResult, Dmacnt, Dmadad, Dmafill, Dmasad, Extkeyin, GxCommand, GxWord, Haltcnt, Ie, If,
    Ime, Ipcfifocnt, Ipcfiforecv, Ipcfifosend, Ipcsync, Keycnt, Keyinput, Postflg, SqrtParam,
    SqrtResult, Sqrtcnt, TmcntH, TmcntL, Vramcnt, Vramstat, Wramcnt, Wramstat,
};
use ds_base::Proc;
use ds_ports::{Register, slot_of};
use std::process::Abort;

/// A line of a table: a processor, the offset of a byte, and what stands there.
#[derive(Clone, Copy)]
enum Line {
    /// A register, and its number in its row.
    Slot(Proc, u32, Register, u32),
    /// A register's number in its row, and which byte of it.
    Part(Proc, u32, u32, u32),
    /// No port.
    No(Proc, u32),
}

use Line::{No, Part, Slot};

/// Whether what stands at an offset is what a line says.
fn holds(line: Line) -> bool {
    match line {
        Slot(proc, at, register, number) => match slot_of(proc, at) {
            Some(slot) => slot.register == register && slot.number == number,
            None => false,
        },
        Part(proc, at, number, byte) => match slot_of(proc, at) {
            Some(slot) => slot.number == number && slot.byte == byte,
            None => false,
        },
        No(proc, at) => slot_of(proc, at).is_none(),
    }
}

/// The map, line by line.
fn try_lines(rt: &impl Abort, lines: &[Line]) {
    for (number, line) in lines.iter().enumerate() {
        assert!(rt; holds(*line), "line {number}");
    }
}

#[test]
fn each_control_stands_where_the_list_has_it(rt: HostRuntime) {
    try_lines(
        &rt,
        &[
            Slot(Nine, 0x240, Vramcnt, 0),
            Slot(Nine, 0x246, Vramcnt, 6),
            Slot(Nine, 0x247, Wramcnt, 0),
            Slot(Nine, 0x248, Vramcnt, 7),
            Slot(Nine, 0x249, Vramcnt, 8),
            No(Nine, 0x24A),
            No(Nine, 0x23F),
            Slot(Nine, 0x300, Postflg, 0),
            No(Nine, 0x301),
            Slot(Seven, 0x240, Vramstat, 0),
            Slot(Seven, 0x241, Wramstat, 0),
            No(Seven, 0x242),
            Slot(Seven, 0x300, Postflg, 0),
            Slot(Seven, 0x301, Haltcnt, 0),
            No(Seven, 0x302),
            Slot(Nine, 0x130, Keyinput, 0),
            Slot(Nine, 0x133, Keycnt, 0),
            No(Nine, 0x136),
            Slot(Seven, 0x136, Extkeyin, 0),
            No(Seven, 0x138),
            Slot(Nine, 0x181, Ipcsync, 0),
            No(Nine, 0x182),
            Slot(Nine, 0x184, Ipcfifocnt, 0),
            No(Nine, 0x186),
            Slot(Nine, 0x18B, Ipcfifosend, 0),
            No(Nine, 0x18C),
            Slot(Nine, 0x208, Ime, 0),
            Slot(Nine, 0x20B, Ime, 0),
            No(Nine, 0x20C),
            Slot(Nine, 0x210, Ie, 0),
            Slot(Nine, 0x217, If, 0),
            Slot(Nine, 0x10_0003, Ipcfiforecv, 0),
            No(Nine, 0x10_0004),
            Slot(Seven, 0x180, Ipcsync, 0),
            Slot(Seven, 0x185, Ipcfifocnt, 0),
            Slot(Seven, 0x188, Ipcfifosend, 0),
            Slot(Seven, 0x209, Ime, 0),
            Slot(Seven, 0x213, Ie, 0),
            Slot(Seven, 0x214, If, 0),
            Slot(Seven, 0x10_0000, Ipcfiforecv, 0),
            No(Nine, 0x0AF),
            Slot(Nine, 0x0B0, Dmasad, 0),
            Slot(Nine, 0x0B4, Dmadad, 0),
            Slot(Nine, 0x0CB, Dmasad, 2),
            Slot(Nine, 0x0DF, Dmacnt, 3),
            Slot(Nine, 0x0E0, Dmafill, 0),
            Slot(Nine, 0x0EF, Dmafill, 3),
            No(Nine, 0x0F0),
            Slot(Seven, 0x0B8, Dmacnt, 0),
            Slot(Seven, 0x0DC, Dmacnt, 3),
            No(Seven, 0x0E0),
            Slot(Nine, 0x100, TmcntL, 0),
            Slot(Nine, 0x10F, TmcntH, 3),
            No(Nine, 0x110),
            No(Seven, 0x0FF),
            Slot(Seven, 0x106, TmcntH, 1),
            No(Nine, 0x19F),
            Slot(Nine, 0x1A0, Auxspicnt, 0x1A0),
            Slot(Seven, 0x1A1, Auxspicnt, 0x1A0),
            No(Nine, 0x1A2),
            No(Seven, 0x1A3),
            Slot(Nine, 0x1A4, CardWord, 0x1A4),
            Slot(Seven, 0x1A7, CardWord, 0x1A4),
            Slot(Seven, 0x1A8, CardWord, 0x1A8),
            Slot(Nine, 0x1AC, CardWord, 0x1AC),
            Slot(Nine, 0x1AF, CardWord, 0x1AC),
            No(Seven, 0x1B0),
            No(Nine, 0x10_000F),
            Slot(Nine, 0x10_0010, CardData, 0),
            Slot(Seven, 0x10_0013, CardData, 0),
            No(Nine, 0x10_0014),
            Slot(Nine, 0x283, Divcnt, 0),
            No(Nine, 0x284),
            Slot(Nine, 0x290, DivNumer, 0),
            Slot(Nine, 0x294, DivNumer, 1),
            Slot(Nine, 0x29F, DivDenom, 1),
            Slot(Nine, 0x2A0, DivResult, 0),
            Slot(Nine, 0x2AC, DivremResult, 1),
            Slot(Nine, 0x2B0, Sqrtcnt, 0),
            Slot(Nine, 0x2B4, SqrtResult, 0),
            Slot(Nine, 0x2BC, SqrtParam, 1),
            No(Nine, 0x2C0),
            No(Seven, 0x280),
            No(Seven, 0x2B0),
        ],
    );
}

/// Both engines have the same registers, but for engine A's display capture and the 3D engine's control; ARM7 has the display's status alone.
#[test]
fn each_register_of_the_display_stands_at_its_offset(rt: HostRuntime) {
    try_lines(
        &rt,
        &[
            Slot(Nine, 0x000, DisplayWord, 0x000),
            Slot(Nine, 0x003, DisplayWord, 0x000),
            Slot(Nine, 0x004, DisplayHalf, 0x004),
            Slot(Nine, 0x007, DisplayHalf, 0x006),
            Slot(Nine, 0x009, DisplayHalf, 0x008),
            Slot(Nine, 0x01E, DisplayHalf, 0x01E),
            Slot(Nine, 0x026, DisplayHalf, 0x026),
            Slot(Nine, 0x02B, DisplayWord, 0x028),
            Slot(Nine, 0x02C, DisplayWord, 0x02C),
            Slot(Nine, 0x03F, DisplayWord, 0x03C),
            Slot(Nine, 0x040, DisplayHalf, 0x040),
            Slot(Nine, 0x04D, DisplayHalf, 0x04C),
            No(Nine, 0x04E),
            Slot(Nine, 0x050, DisplayHalf, 0x050),
            Slot(Nine, 0x055, DisplayHalf, 0x054),
            No(Nine, 0x056),
            Slot(Nine, 0x064, DisplayWord, 0x064),
            No(Nine, 0x068),
            Slot(Nine, 0x06D, DisplayHalf, 0x06C),
            No(Nine, 0x06E),
            Slot(Nine, 0x304, DisplayHalf, 0x304),
            No(Nine, 0x306),
            Slot(Nine, 0x1003, DisplayWord, 0x1000),
            No(Nine, 0x1004),
            No(Nine, 0x1007),
            Slot(Nine, 0x1008, DisplayHalf, 0x1008),
            Slot(Nine, 0x1028, DisplayWord, 0x1028),
            Slot(Nine, 0x1055, DisplayHalf, 0x1054),
            No(Nine, 0x1060),
            No(Nine, 0x1064),
            Slot(Nine, 0x106C, DisplayHalf, 0x106C),
            No(Nine, 0x106E),
            No(Seven, 0x003),
            Slot(Seven, 0x005, DisplayHalf, 0x004),
            Slot(Seven, 0x006, DisplayHalf, 0x006),
            No(Seven, 0x008),
            No(Seven, 0x304),
            No(Seven, 0x1000),
        ],
    );
}

/// Geometry's stand in ARM9's map alone, the words of commands apart from those that are read in parts.
#[test]
fn each_register_of_geometry_stands_at_its_offset(rt: HostRuntime) {
    try_lines(
        &rt,
        &[
            No(Nine, 0x05F),
            Slot(Nine, 0x060, GxWord, 0x060),
            Slot(Nine, 0x063, GxWord, 0x060),
            No(Nine, 0x3FF),
            Slot(Nine, 0x400, GxCommand, 0x400),
            Slot(Nine, 0x43F, GxCommand, 0x43C),
            Slot(Nine, 0x440, GxCommand, 0x440),
            Slot(Nine, 0x5FF, GxCommand, 0x5FC),
            Slot(Nine, 0x600, GxWord, 0x600),
            Slot(Nine, 0x607, GxWord, 0x604),
            No(Nine, 0x608),
            No(Nine, 0x61F),
            Slot(Nine, 0x620, GxWord, 0x620),
            Slot(Nine, 0x62F, GxWord, 0x62C),
            Slot(Nine, 0x630, GxWord, 0x630),
            Slot(Nine, 0x635, GxWord, 0x634),
            No(Nine, 0x638),
            No(Nine, 0x63F),
            Slot(Nine, 0x640, GxWord, 0x640),
            Slot(Nine, 0x67F, GxWord, 0x67C),
            Slot(Nine, 0x680, GxWord, 0x680),
            Slot(Nine, 0x6A3, GxWord, 0x6A0),
            No(Nine, 0x6A4),
            No(Seven, 0x060),
            No(Seven, 0x400),
            No(Seven, 0x600),
        ],
    );
}

/// Of each kind of several: the offset of a byte, its register's number in the row, and which byte it is.
#[test]
fn rows_of_the_map_have_their_registers(rt: HostRuntime) {
    try_lines(
        &rt,
        &[
            // those of the display and of geometry are numbered by their offset
            Part(Nine, 0x00E, 0x00E, 0),
            Part(Nine, 0x01F, 0x01E, 1),
            Part(Nine, 0x02E, 0x02C, 2),
            Part(Nine, 0x036, 0x036, 0),
            Part(Nine, 0x046, 0x046, 0),
            Part(Nine, 0x04B, 0x04A, 1),
            Part(Nine, 0x054, 0x054, 0),
            Part(Nine, 0x0DE, 3, 2),
            Part(Nine, 0x0EC, 3, 0),
            Part(Nine, 0x10E, 3, 0),
            Part(Nine, 0x297, 1, 3),
            Part(Nine, 0x2BC, 1, 0),
            Part(Nine, 0x43E, 0x43C, 2),
            Part(Nine, 0x5FF, 0x5FC, 3),
            Part(Nine, 0x62C, 0x62C, 0),
            Part(Nine, 0x634, 0x634, 0),
            Part(Nine, 0x67D, 0x67C, 1),
            Part(Nine, 0x6A0, 0x6A0, 0),
            Part(Nine, 0x100E, 0x100E, 0),
            Part(Nine, 0x1054, 0x1054, 0),
        ],
    );
}
