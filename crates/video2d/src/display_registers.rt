//! The display's registers, by GBATEK's names ("DS I/O Maps").

ghost use Rattle.std.specs.Prelude.{◌≡◌, ◌≤◌, ◌+◌, IfSome};
ghost use Rattle.video2d.specs.DisplayRegisters.{read_write, written_alone, display_row, display_offset, control_registers, background_registers, window_registers, effect_registers, drawing_registers, output_registers, row_among, engine_bytes, engine_row_at, kept_at, HasByteAt};

use crate::engines::Engine;

/// A register of the display, or registers that follow one another, with the name of the first.
#[derive(Clone, Copy)]
pub enum DisplayRegister {
    /// DISPSTAT, of which each processor has its own.
    Dispstat,
    /// VCOUNT.
    Vcount,
    /// POWCNT1.
    Powcnt1,
    /// DISPCNT.
    Dispcnt,
    /// BG0CNT, BG1CNT, BG2CNT, BG3CNT.
    Bg0cnt,
    /// BG0HOFS, BG0VOFS, BG1HOFS, BG1VOFS, BG2HOFS, BG2VOFS, BG3HOFS, BG3VOFS.
    Bg0hofs,
    /// BG2PA, BG2PB, BG2PC, BG2PD.
    Bg2pa,
    /// BG2X, BG2Y.
    Bg2x,
    /// BG3PA, BG3PB, BG3PC, BG3PD.
    Bg3pa,
    /// BG3X, BG3Y.
    Bg3x,
    /// WIN0H, WIN1H.
    Win0h,
    /// WIN0V, WIN1V.
    Win0v,
    /// WININ.
    Winin,
    /// WINOUT.
    Winout,
    /// MOSAIC.
    Mosaic,
    /// BLDCNT.
    Bldcnt,
    /// BLDALPHA.
    Bldalpha,
    /// BLDY.
    Bldy,
    /// DISPCAPCNT.
    Dispcapcnt,
    /// MASTER_BRIGHT.
    MasterBright,
}

/// Where registers stand, and what each of them keeps.
#[derive(Clone, Copy)]
pub struct DisplayRow {
    /// The first one's offset: of an engine's from its base, of the others from 4000000h.
    pub first: u32,
    /// How many bytes each has.
    pub bytes: u32,
    /// How many there are.
    pub count: u32,
    /// The bits that each keeps.
    pub kept: u32,
    /// Whether it reads what it keeps, or 0.
    pub reads: bool,
}

#[inline(always)]
fn read_write(first: u32, bytes: u32, count: u32, kept: u32) -> DisplayRow
    ensures { result ≡ read_write first bytes count kept }
{
    DisplayRow {
        first,
        bytes,
        count,
        kept,
        reads: true,
    }
}

#[inline(always)]
fn written_alone(first: u32, bytes: u32, count: u32, kept: u32) -> DisplayRow
    ensures { result ≡ written_alone first bytes count kept }
{
    DisplayRow {
        first,
        bytes,
        count,
        kept,
        reads: false,
    }
}

impl DisplayRegister {
    /// Its row: the first one's offset, the bytes of each, how many there are, the bits that each keeps.
    #[inline(always)]
    pub fn row(self) -> DisplayRow
        ensures { result ≡ display_row self }
    {
        match self {
            DisplayRegister::Dispstat => read_write(0x004, 2, 1, 0xFFB8),
            DisplayRegister::Vcount => read_write(0x006, 2, 1, 0),
            DisplayRegister::Powcnt1 => read_write(0x304, 2, 1, 0xFFFF),
            DisplayRegister::Dispcnt => read_write(0x00, 4, 1, 0xFFFF_FFFF),
            DisplayRegister::Bg0cnt => read_write(0x08, 2, 4, 0xFFFF),
            DisplayRegister::Bg0hofs => written_alone(0x10, 2, 8, 0x1FF),
            DisplayRegister::Bg2pa => written_alone(0x20, 2, 4, 0xFFFF),
            DisplayRegister::Bg2x => written_alone(0x28, 4, 2, 0x0FFF_FFFF),
            DisplayRegister::Bg3pa => written_alone(0x30, 2, 4, 0xFFFF),
            DisplayRegister::Bg3x => written_alone(0x38, 4, 2, 0x0FFF_FFFF),
            DisplayRegister::Win0h => written_alone(0x40, 2, 2, 0xFFFF),
            DisplayRegister::Win0v => written_alone(0x44, 2, 2, 0xFFFF),
            DisplayRegister::Winin => read_write(0x48, 2, 1, 0x3F3F),
            DisplayRegister::Winout => read_write(0x4A, 2, 1, 0x3F3F),
            DisplayRegister::Mosaic => written_alone(0x4C, 2, 1, 0xFFFF),
            DisplayRegister::Bldcnt => read_write(0x50, 2, 1, 0x3FFF),
            DisplayRegister::Bldalpha => read_write(0x52, 2, 1, 0x1F1F),
            DisplayRegister::Bldy => written_alone(0x54, 2, 1, 0x1F),
            DisplayRegister::Dispcapcnt => read_write(0x64, 4, 1, 0xFFFF_FFFF),
            DisplayRegister::MasterBright => read_write(0x6C, 2, 1, 0xC01F),
        }
    }

    /// The first one's offset.
    #[inline(always)]
    pub fn first(self) -> usize
        ensures { result ≡ display_offset self }
    {
        self.row().first as usize
    }
}

impl DisplayRow {
    /// The bits that the byte at an offset keeps.
    pub fn kept_bits(self, at: u32) -> u8
        requires { HasByteAt self at }
        ensures { result ≡ kept_at self at }
    {
        ((self.kept >> (8 * ((at - self.first) % self.bytes))) % 256) as u8
    }
}

#[inline(always)]
fn background_row_at(at: u32) -> Option<DisplayRow>
    ensures value { result ≡ row_among background_registers at }
    ensures fits { IfSome result (λ row. HasByteAt row at) }
    ensures inside { IfSome result (λ row. at + row.bytes ≤ engine_bytes) }
{
    match at {
        0x08..=0x0F => Some(DisplayRegister::Bg0cnt.row()),
        0x10..=0x1F => Some(DisplayRegister::Bg0hofs.row()),
        0x20..=0x27 => Some(DisplayRegister::Bg2pa.row()),
        0x28..=0x2F => Some(DisplayRegister::Bg2x.row()),
        0x30..=0x37 => Some(DisplayRegister::Bg3pa.row()),
        0x38..=0x3F => Some(DisplayRegister::Bg3x.row()),
        _ => None,
    }
}

#[inline(always)]
fn window_row_at(at: u32) -> Option<DisplayRow>
    ensures value { result ≡ row_among window_registers at }
    ensures fits { IfSome result (λ row. HasByteAt row at) }
    ensures inside { IfSome result (λ row. at + row.bytes ≤ engine_bytes) }
{
    match at {
        0x40..=0x43 => Some(DisplayRegister::Win0h.row()),
        0x44..=0x47 => Some(DisplayRegister::Win0v.row()),
        0x48..=0x49 => Some(DisplayRegister::Winin.row()),
        0x4A..=0x4B => Some(DisplayRegister::Winout.row()),
        0x4C..=0x4D => Some(DisplayRegister::Mosaic.row()),
        _ => None,
    }
}

#[inline(always)]
fn effect_row_at(at: u32) -> Option<DisplayRow>
    ensures value { result ≡ row_among effect_registers at }
    ensures fits { IfSome result (λ row. HasByteAt row at) }
    ensures inside { IfSome result (λ row. at + row.bytes ≤ engine_bytes) }
{
    match at {
        0x50..=0x51 => Some(DisplayRegister::Bldcnt.row()),
        0x52..=0x53 => Some(DisplayRegister::Bldalpha.row()),
        0x54..=0x55 => Some(DisplayRegister::Bldy.row()),
        _ => None,
    }
}

/// The row of an engine's control, if it has a byte at an offset from the engine's base.
#[inline(always)]
pub fn control_row_at(at: u32) -> Option<DisplayRow>
    ensures value { result ≡ row_among control_registers at }
    ensures fits { IfSome result (λ row. HasByteAt row at) }
    ensures inside { IfSome result (λ row. at + row.bytes ≤ engine_bytes) }
{
    match at {
        0x00..=0x03 => Some(DisplayRegister::Dispcnt.row()),
        _ => None,
    }
}

/// The row of an engine's backgrounds, windows and effects, of which one has a byte there.
#[inline(always)]
pub fn drawing_row_at(at: u32) -> Option<DisplayRow>
    ensures value { result ≡ row_among drawing_registers at }
    ensures fits { IfSome result (λ row. HasByteAt row at) }
    ensures inside { IfSome result (λ row. at + row.bytes ≤ engine_bytes) }
{
    match background_row_at(at) {
        Some(row) => Some(row),
        None => match window_row_at(at) {
            Some(row) => Some(row),
            None => effect_row_at(at),
        },
    }
}

/// The row of display capture or master brightness, if it has a byte there.
#[inline(always)]
pub fn output_row_at(which: Engine, at: u32) -> Option<DisplayRow>
    ensures value { result ≡ row_among (output_registers which) at }
    ensures fits { IfSome result (λ row. HasByteAt row at) }
    ensures inside { IfSome result (λ row. at + row.bytes ≤ engine_bytes) }
{
    match at {
        0x64..=0x67 => match which {
            Engine::A => Some(DisplayRegister::Dispcapcnt.row()),
            Engine::B => None,
        },
        0x6C..=0x6D => Some(DisplayRegister::MasterBright.row()),
        _ => None,
    }
}

/// The row of an engine's registers of which one has a byte at an offset from its base.
#[inline(always)]
pub fn engine_row_at(which: Engine, at: u32) -> Option<DisplayRow>
    ensures value { result ≡ engine_row_at which at }
    ensures fits { IfSome result (λ row. HasByteAt row at) }
    ensures inside { IfSome result (λ row. at + row.bytes ≤ engine_bytes) }
{
    match control_row_at(at) {
        Some(row) => Some(row),
        None => match drawing_row_at(at) {
            Some(row) => Some(row),
            None => output_row_at(which, at),
        },
    }
}
