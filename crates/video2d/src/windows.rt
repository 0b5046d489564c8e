//! Windows along a line.

ghost use Rattle.std.specs.Prelude.{◌≡◌, ◌<◌, ◌≤◌, ◌==◌, if◌then◌else◌, ℕ, slice_index};
ghost use Rattle.ds_base.specs.Bits.{bit};
ghost use Rattle.video2d.specs.Windows.{is_between, is_window_on, reaches_line, shown_by_windows};
ghost use Rattle.video2d.specs.rows.Shown.{shown_bits_at, shown_inside, window_line};

use crate::display_registers::DisplayRegister;
use crate::engines::EngineRegisters;
use crate::rows::{fill, fill_part, fill_where};

/// The windows of an engine at a line: whether none is on, which of windows 0 and 1 reach the line, whether the object window is on, the sides of
/// windows 0 and 1, and what is shown in each window and outside.
#[derive(Clone, Copy)]
pub struct WindowLine {
    /// Whether no window is on.
    pub none: bool,
    /// Whether window 0 is on and reaches the line.
    pub zero: bool,
    /// Likewise window 1.
    pub one: bool,
    /// Whether the object window is on.
    pub objects: bool,
    /// Window 0's left side.
    pub zero_left: u8,
    /// Its right side.
    pub zero_right: u8,
    /// Window 1's left side.
    pub one_left: u8,
    /// Its right side.
    pub one_right: u8,
    /// What is shown in window 0: backgrounds by bits 0 to 3, objects by bit 4, effects by bit 5.
    pub in_zero: u8,
    /// In window 1.
    pub in_one: u8,
    /// In the object window.
    pub in_objects: u8,
    /// Outside of them.
    pub outside: u8,
}

/// Whether a place lies between two sides, round the edge where the first is the greater.
fn is_between(first: u8, second: u8, at: u8) -> bool
    ensures { result ≡ is_between first second at }
{
    if second < first {
        first <= at || at < second
    } else {
        first <= at && at < second
    }
}

/// Whether window n, or the object window where n is 2, is on.
fn is_window_on(engine: &EngineRegisters, n: u8) -> bool
    requires { n < 3 }
    ensures { result ≡ is_window_on engine.now n }
{
    (engine.dispcnt() >> (13 + n)) % 2 == 1
}

/// Whether window n, 0 or 1, is on and reaches a line.
fn reaches_line(engine: &EngineRegisters, n: u8, line: u8) -> bool
    requires { n < 2 }
    ensures { result ≡ reaches_line engine.now n line }
{
    let top = engine.window_byte(DisplayRegister::Win0v.first() + 1 + 2 * n as usize);
    let bottom = engine.window_byte(DisplayRegister::Win0v.first() + 2 * n as usize);
    is_window_on(engine, n) && is_between(top, bottom, line)
}

/// The windows of an engine at a line.
pub fn window_line(engine: &EngineRegisters, line: u8) -> WindowLine
    ensures { result ≡ window_line engine.now line }
{
    WindowLine {
        none: (engine.dispcnt() >> 13) % 8 == 0,
        zero: reaches_line(engine, 0, line),
        one: reaches_line(engine, 1, line),
        objects: is_window_on(engine, 2),
        zero_left: engine.window_byte(DisplayRegister::Win0h.first() + 1),
        zero_right: engine.window_byte(DisplayRegister::Win0h.first()),
        one_left: engine.window_byte(DisplayRegister::Win0h.first() + 3),
        one_right: engine.window_byte(DisplayRegister::Win0h.first() + 2),
        in_zero: engine.window_byte(DisplayRegister::Winin.first()),
        in_one: engine.window_byte(DisplayRegister::Winin.first() + 1),
        in_objects: engine.window_byte(DisplayRegister::Winout.first() + 1),
        outside: engine.window_byte(DisplayRegister::Winout.first()),
    }
}

/// A number between two sides.
fn fill_between(number: u16, first: u8, second: u8, into: &mut [u16; 256])
    ensures { (x : ℕ) → x < 256 → slice_index into.new x ≡ (if is_between first second x then number else slice_index into.old x) }
{
    let first = first as usize;
    let second = second as usize;
    if second < first {
        fill_part(number, 0, second, into);
        fill_part(number, first, 256, into);
    } else {
        fill_part(number, first, second, into);
    }
}

/// What is shown at each place of the line, of which those that `in_objects` has as 1 lie in the object window.
fn fill_shown(windows: &WindowLine, in_objects: &[u16; 256], into: &mut [u16; 256])
    ensures { (x : ℕ) → x < 256 → slice_index into.new x ≡ shown_inside windows.now (slice_index in_objects.now x == 1) x }
{
    fill(windows.outside as u16, into);
    if windows.objects {
        fill_where(windows.in_objects as u16, in_objects, 1, into);
    }
    if windows.one {
        fill_between(
            windows.in_one as u16,
            windows.one_left,
            windows.one_right,
            into,
        );
    }
    if windows.zero {
        fill_between(
            windows.in_zero as u16,
            windows.zero_left,
            windows.zero_right,
            into,
        );
    }
}

/// What is shown along a line.
#[derive(Clone, Copy)]
pub struct ShownLine {
    /// Whether all is shown everywhere, since no window is on.
    pub all: bool,
    /// What is shown at each place, otherwise: backgrounds by bits 0 to 3, objects by bit 4, effects by bit 5.
    pub bits: [u16; 256],
}

/// What is shown along a line, of which the places that `in_objects` has as 1 lie in the object window.
pub fn find_shown(engine: &EngineRegisters, line: u8, in_objects: &[u16; 256], into: &mut ShownLine)
    ensures { (x : ℕ) → x < 256 → shown_bits_at into.new x ≡ shown_by_windows engine.now (slice_index in_objects.now x == 1) line x }
{
    let windows = window_line(engine, line);
    into.all = windows.none;
    if !windows.none {
        fill_shown(&windows, in_objects, &mut into.bits);
    }
}

/// A pixel where it is shown. It is read whatever comes of it, so that no branch is taken, and many places are reached at once.
#[inline(always)]
fn where_shown(shown: bool, pixel: u16) -> u16
    ensures { result ≡ (if shown then pixel else 0) }
{
    if shown { pixel } else { 0 }
}

/// Makes a row 0 where the thing of bit n isn't shown.
pub fn hide(shown: &ShownLine, n: u8, row: &mut [u16; 256])
    requires { n < 6 }
    ensures { (x : ℕ) → x < 256 → slice_index row.new x ≡ (if bit n (shown_bits_at shown.now x) then slice_index row.old x else 0) }
{
    if shown.all {
        return;
    }
    for x in 0..256usize {
        row[x] = where_shown((shown.bits[x] >> n) % 2 == 1, row[x]);
    }
}
