//! The controls of the nine banks, and which cells stand at a flat address by them.

ghost use Rattle.std.specs.Prelude.{◌≡◌, length, ◌<◌, ◌≤◌, ◌+◌, ◌-◌, ◌%◌, ℕ, true, IfSome, slice_index, slice_set, [], ◌∷◌};
ghost use Rattle.vram_banks.specs.BankMap.{first_cell, kept_bank_control};
ghost use Rattle.vram_banks.specs.Cells.{IsControl};
ghost use Rattle.vram_banks.specs.paging.Flat.{cell_in, cell_of, IsRoomy};
ghost use Rattle.vram_banks.specs.paging.Pages.{window_at, cell_among, with_cell, IsPageBelow, AreWindows, ArePages, IsFound, IsCellRun};
ghost use Rattle.vram_banks.specs.declared.maps.Page.TheVariants.{One};

use crate::windows::{Window, bank_window, first_cell, kept_bank_control, nowhere};
use std::marker::Model;

/// How many bytes a page has. Each bank's place begins and ends at the border of a page.
pub const PAGE: usize = 0x2000;

/// How many pages all spaces have.
const PAGES: usize = 298;

/// What stands at a flat address.
#[derive(Clone, Copy)]
pub enum Page {
    /// No bank.
    Empty,
    /// One bank alone, and this cell of the memory of all banks.
    One(u32),
    /// Several banks.
    Several,
}

/// Cells in a row that one bank alone has.
#[derive(Clone, Copy)]
pub struct CellRun {
    /// The first of them, in the memory of all banks.
    pub first: u32,
    /// How many.
    pub size: u32,
}

/// The cell of a bank that stands at a flat address.
fn cell_in(window: Window, bank: u8, x: u32) -> Option<u32>
    requires known { bank < 9 }
    requires roomy { IsRoomy (0xA4000 - first_cell bank) window }
    ensures value { result ≡ cell_in window (first_cell bank) x }
    ensures small { IfSome result (λ cell. cell < 0xA4000) }
{
    if window.first <= x && x - window.first < window.size {
        let offset = x - window.first;
        Some(first_cell(bank) + offset)
    } else {
        None
    }
}

/// What stands where this stood and, maybe, a cell more.
fn with_cell(page: Page, cell: Option<u32>) -> Page
    ensures { result ≡ with_cell page cell }
{
    match cell {
        None => page,
        Some(cell) => match page {
            Page::Empty => Page::One(cell),
            _ => Page::Several,
        },
    }
}

/// What stands at the first address of a page.
#[tactic(auto, using(crate::proofs::PageLemmas::page_more))]
fn page_at(windows: &[Window; 9], x: u32) -> Page
    requires { (bank : ℕ) → bank < 9 → IsRoomy (0xA4000 - first_cell bank) (window_at windows.now bank) }
    ensures { IsPageBelow (cell_among windows.now x) 9 result }
{
    let mut page = Page::Empty;
    for bank in 0..9u8 {
        let cell = cell_in(windows[bank as usize], bank, x);
        page = with_cell(page, cell);
    }
    page
}

/// Makes all pages anew.
fn fill(windows: &[Window; 9], pages: &mut [Page; PAGES])
    requires { (bank : ℕ) → bank < 9 → IsRoomy (0xA4000 - first_cell bank) (window_at windows.now bank) }
    ensures done { ArePages windows.now pages.new 298 }
    ensures long { length pages.new ≡ 298 }
{
    for k in 0..PAGES {
        pages[k] = page_at(windows, (k * PAGE) as u32);
    }
}

/// The bank map: the nine controls, with where each bank stands by them and what stands in each page. Contracts see it as the
/// list of the controls.
#[derive(Drop)]
pub struct BankMap {
    controls: [u8; 9],
    windows: [Window; 9],
    pages: [Page; PAGES],
}

impl Model for BankMap {
    ghost use Rattle.std.specs.Prelude.{List, ℕ, ◌≡◌, ◌<◌, length, slice_index};
    ghost use Rattle.vram_banks.specs.Cells.{IsControl};
    ghost use Rattle.vram_banks.specs.paging.Pages.{AreWindows, ArePages};

    ghost Value = { List ℕ };

    ghost view = { λ m. m.controls };

    ghost invariant = { λ m. (length m.pages ≡ 298) × AreWindows m.controls m.windows × ArePages m.windows m.pages 298
        × ((bank : ℕ) → bank < 9 → IsControl bank (slice_index m.controls bank)) };
}

impl BankMap {
    /// No bank is enabled.
    pub fn new() -> BankMap
        ensures { result ≡ 0 ∷ 0 ∷ 0 ∷ 0 ∷ 0 ∷ 0 ∷ 0 ∷ 0 ∷ 0 ∷ [] }
    {
        let windows = [nowhere(); 9];
        let mut pages = [Page::Empty; PAGES];
        fill(&windows, &mut pages);
        BankMap {
            controls: [0; 9],
            windows,
            pages,
        }
    }

    /// Writes a bank's control.
    pub fn set_control(&mut self, bank: u8, value: u8)
        requires { bank < 9 }
        ensures { self.new ≡ slice_set self.old bank (kept_bank_control bank value) }
    {
        let control = kept_bank_control(bank, value);
        self.controls[bank as usize] = control;
        self.windows[bank as usize] = bank_window(bank, control);
        fill(&self.windows, &mut self.pages);
    }

    /// Does nothing; its contract tells that there are nine controls, and that each has only the bits that its bank keeps.
    pub fn control_laws(&self)
        ensures nine { length self.now ≡ 9 }
        ensures each { (bank : ℕ) → bank < 9 → IsControl bank (slice_index self.now bank) }
    {
        // here the proof learns what the map keeps
        let _ = &self.controls;
    }

    /// The control of a bank.
    pub fn control(&self, bank: u8) -> u8
        requires { bank < 9 }
        ensures { result ≡ slice_index self.now bank }
    {
        self.controls[bank as usize]
    }

    /// The cell of a bank that stands at a flat address.
    #[tactic(auto, unfolding(crate::specs::paging::Flat::cell_of))]
    pub fn cell(&self, bank: u8, x: u32) -> Option<u32>
        requires { bank < 9 }
        ensures value { result ≡ cell_of self.now bank x }
        ensures small { IfSome result (λ cell. cell < 0xA4000) }
    {
        cell_in(self.windows[bank as usize], bank, x)
    }

    /// What stands at a flat address.
    #[inline(always)]
    pub fn found(&self, x: u32) -> Page
        requires { x < 0x254000 }
        ensures { IsFound self.now x result }
    {
        match self.pages[x as usize / PAGE] {
            Page::Empty => Page::Empty,
            Page::One(cell) => Page::One(cell + x % PAGE as u32),
            Page::Several => Page::Several,
        }
    }

    /// Whether one bank alone stands at a flat address, with this cell.
    fn has_alone(&self, x: u32, cell: u32) -> bool
        requires { x < 0x254000 }
        ensures { result ≡ true → IsFound self.now x (One cell) }
    {
        match self.found(x) {
            Page::One(other) => other == cell,
            _ => false,
        }
    }

    /// The cells from a cell on that one bank alone has in a row, from the first address of a page on, page by page: at most `most`.
    fn run_from(&self, x: u32, first: u32, most: u32) -> CellRun
        requires whole { x % 8192 ≡ 0 }
        requires inside { x + most ≤ 0x254000 }
        requires first { first ≤ 0xA4000 }
        ensures run { IsCellRun self.now x result }
        ensures most { result.size ≤ most }
    {
        let mut size = 0;
        while most - size >= PAGE as u32 && self.has_alone(x + size, first + size) {
            size += PAGE as u32;
        }
        CellRun { first, size }
    }

    /// The same, from what stands there; none where that isn't one bank alone.
    pub fn run(&self, x: u32, most: u32) -> CellRun
        requires whole { x % 8192 ≡ 0 }
        requires small { x < 0x254000 }
        requires inside { x + most ≤ 0x254000 }
        ensures run { IsCellRun self.now x result }
        ensures most { result.size ≤ most }
    {
        match self.found(x) {
            Page::One(cell) => self.run_from(x, cell, most),
            _ => CellRun { first: 0, size: 0 },
        }
    }
}
