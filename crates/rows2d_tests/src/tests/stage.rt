//! What the lines are tried on: video memory, and the rows that are drawn from it.

ghost use Rattle.std.specs.Prelude.{◌<◌, ◌≤◌};

use super::Line;
use bg_ext::{ExtLayer, ext_row, vram_row};
use bg2d::{AffineLayer, Row, TextLayer, affine_row, text_row};
use ds_base::{Space, Width};
use obj2d::{ObjectPixel, ObjectRow, covers_line, object_row};
use std::alloc::{AllocError, Global};
use vram_banks::Vram;

/// Where the banks A to I stand one after another.
const STARTS: [u32; 9] = [
    0, 0x20000, 0x40000, 0x60000, 0x80000, 0x90000, 0x94000, 0x98000, 0xa0000,
];

/// A page's size: each entry of the table begins and ends at the border of one.
const PAGE: u32 = 0x2000;

/// How many pages each bank has.
const BANK_PAGES: [u32; 9] = [16, 16, 16, 16, 8, 2, 2, 4, 2];

/// How many pages a space has.
fn pages_of(space: Space) -> u32
    ensures some { 0 < result }
    ensures few { result ≤ 128 }
{
    match space {
        Space::ABg => 64,
        Space::AObj | Space::Arm7 => 32,
        Space::BBg | Space::BObj => 16,
        Space::Lcdc => 128,
        Space::ABgPalette | Space::BBgPalette => 4,
        Space::AObjPalette | Space::BObjPalette => 1,
    }
}

/// What marks the first and the last byte of a bank's page.
fn marks(page: u32) -> (u32, u32) {
    (0x10 + page % 0x10, 0x80 + page % 0x10)
}

/// What is seen at both ends of a page of a space where an entry's bytes alone are seen, from its base on.
fn entry_ends(page: u32, base: u32, size: u32) -> (u32, u32) {
    let first = base / PAGE;
    if first <= page && page - first < size / PAGE {
        marks(page - first)
    } else {
        (0, 0)
    }
}

/// All spaces but that of the banks one after another.
const MAPPED: [Space; 9] = [
    Space::ABg,
    Space::BBg,
    Space::AObj,
    Space::BObj,
    Space::Arm7,
    Space::ABgPalette,
    Space::BBgPalette,
    Space::AObjPalette,
    Space::BObjPalette,
];

/// Video memory, and a palette whose colour i is 4000h + i; bit 15 is set in every other entry, where it counts for nothing. So the pixel
/// of colour i is C000h + i.
#[derive(Drop)]
pub struct Stage {
    vram: Vram,
    palette: [u8; 512],
}

impl Stage {
    pub fn new(alloc: Global) -> Result<Stage, AllocError> {
        let mut palette = [0; 512];
        for i in 0..256usize {
            palette[2 * i] = i as u8;
            palette[2 * i + 1] = if i % 2 == 0 { 0x40 } else { 0xc0 };
        }
        Ok(Stage {
            vram: Vram::new(alloc)?,
            palette,
        })
    }

    /// Takes one line, and gives what was seen and what is wanted, 0 and 0 where nothing is asked.
    pub fn seen(&mut self, line: Line) -> (u32, u32) {
        match line {
            Line::Control(bank, value) => self.control(bank, value),
            Line::Write(space, at, width, value) => self.vram.write(space, at, width, value),
            Line::Fill(space, at, count, value) => self.fill(space, at % 0x100000, count, value),
            Line::Count(space, at) => self.count(space, at % 0x100000),
            Line::Pattern => self.pattern(),
            asked => return self.asked(asked),
        }
        (0, 0)
    }

    /// What is asked of memory.
    fn asked(&mut self, line: Line) -> (u32, u32) {
        match line {
            Line::Reads(space, at, width, value) => (self.vram.read(space, at, width), value),
            Line::Cell(at, value) => self.cell(at % 671_744, value),
            Line::Cells(count) => ((self.vram.bytes().len() != count) as u32, 0),
            Line::Row(space, at, count, a, b, c, d, e, f) => {
                self.bytes(space, at, count, [a, b, c, d, e, f])
            }
            Line::Stands(bank, control, space, base, size) => {
                (self.others(bank % 9, control, space, base, size), 0)
            }
            Line::Nowhere(bank, control) => (self.somewhere(bank % 9, control), 0),
            Line::Around(bank, control, space, size) => {
                (self.around(bank, control, space, size), 0)
            }
            Line::Arm7(c, d, allotted, first, second) => self.arm7(c, d, allotted, first, second),
            drawn => self.drawn(drawn),
        }
    }

    /// What is asked of rows.
    fn drawn(&mut self, line: Line) -> (u32, u32) {
        match line {
            Line::Scrolled(size, across, down, line, x, pixel) => {
                (self.scrolled(size, across, down, line, x), pixel as u32)
            }
            Line::Entry(entry, control, line, x, pixel) => {
                (self.entry(entry, control, line, x), pixel as u32)
            }
            Line::Text(engine, number, display, control, x, pixel) => {
                (
                    self.background(engine, number, display, control, x),
                    pixel as u32,
                )
            }
            Line::Point(control, x, y, pa, pc, at, pixel) => {
                (self.point(control, x, y, pa, pc, at), pixel as u32)
            }
            Line::Affine(engine, display, control, last, at, pixel) => {
                (
                    self.affine(engine, display, control, last, at),
                    pixel as u32,
                )
            }
            extended => self.extended(extended),
        }
    }

    /// What is asked of extended backgrounds and of banks that are shown.
    fn extended(&mut self, line: Line) -> (u32, u32) {
        match line {
            Line::Extended(engine, number, display, control, x, y, pa, pc, at, pixel) => {
                let layer = ExtLayer {
                    engine,
                    number,
                    display,
                    control,
                    x,
                    y,
                    pa,
                    pc,
                };
                (self.extended_at(&layer, at), pixel as u32)
            }
            Line::Bank(display, line, at, pixel) => {
                (self.bank_at(display, line, at), pixel as u32)
            }
            objects => self.objects(objects),
        }
    }

    /// What is asked of objects.
    fn objects(&mut self, line: Line) -> (u32, u32) {
        match line {
            Line::Object(number, first, second, third, control, engine, line, x, colour) => {
                let oam = one_object(number, [first, second, third]);
                (
                    self.object(&oam, control, engine, line, x).colour as u32,
                    colour as u32,
                )
            }
            Line::Turned(first, third, pa, pb, pc, pd, control, line, x, colour) => {
                let oam = turned_object(first, third, [pa, pb, pc, pd]);
                (
                    self.object(&oam, control, 0, line, x).colour as u32,
                    colour as u32,
                )
            }
            Line::Pair(mode_3, third_3, mode_9, third_9, colour, priority, blended, window) => {
                let pixel = ObjectPixel {
                    colour,
                    priority,
                    blended,
                    window,
                };
                (
                    self.pair([mode_3, third_3], [mode_9, third_9]),
                    packed(pixel),
                )
            }
            Line::Boxed(shape, size, width, height) => (
                self.outside(shape, size, width, height),
                0,
            ),
            Line::Covers(first, second, control, line, covers) => {
                let oam = one_object(77, [first, second, 0]);
                (covers_line(&oam, control, 77, line) as u32, covers as u32)
            }
            _ => (0, 1),
        }
    }

    fn control(&mut self, bank: u8, value: u8) {
        self.vram.set_control(bank % 9, value);
    }

    fn fill(&mut self, space: Space, base: u32, count: u32, value: u32)
        requires { base < 0x100000 }
    {
        for k in 0..count % 0x1000 {
            self.vram.write(space, base + 4 * k, Width::Word, value);
        }
    }

    fn count(&mut self, space: Space, base: u32)
        requires { base < 0x100000 }
    {
        for at in 64..256u32 {
            self.vram.write(space, base + at, Width::Byte, at);
        }
    }

    fn pattern(&mut self) {
        self.vram.set_control(4, 0x82);
        for at in 0..0x2000u32 {
            let left = at % 32 * 2 + at / 32;
            let byte = (left % 15 + 1) + 16 * ((left + 1) % 15 + 1);
            self.vram.write(Space::AObj, at, Width::Byte, byte);
            self.vram
                .write(Space::AObj, 0x2000 + at, Width::Byte, at % 255 + 1);
        }
    }

    fn cell(&self, at: u32, value: u8) -> (u32, u32)
        requires { at < 671744 }
    {
        let there = match self.vram.bytes().get(at as usize) {
            Some(byte) => *byte as u32,
            None => 0x100,
        };
        (
            0x100 * there + self.vram.byte_of(at) as u32,
            0x101 * value as u32,
        )
    }

    fn bytes(&self, space: Space, at: u32, count: usize, wanted: [u8; 6]) -> (u32, u32) {
        let mut row = [0xEE; 6];
        self.vram.row(space, at, &mut row[..count % 7]);
        ((row != wanted) as u32, 0)
    }

    /// Marks both ends of each page of a bank.
    fn mark(&mut self, bank: u8)
        requires { bank < 9 }
    {
        self.vram.set_control(bank, 0x80);
        for page in 0..BANK_PAGES[bank as usize] % 0x20 {
            let at = STARTS[bank as usize] % 0x100000 + PAGE * page;
            let (first, last) = marks(page);
            self.vram.write(Space::Lcdc, at, Width::Byte, first);
            self.vram
                .write(Space::Lcdc, at + PAGE - 1, Width::Byte, last);
        }
    }

    /// The bits that aren't as wanted at both ends of each page of a space, from the byte before its first to the byte past its last, where an
    /// entry of a bank stands there alone.
    fn others(&mut self, bank: u8, control: u8, space: Space, base: u32, size: u32) -> u32
        requires { bank < 9 }
    {
        self.mark(bank);
        self.vram.set_control(bank, control);
        let pages = pages_of(space);
        let mut others = 0u32;
        for page in 0..=pages {
            let at = PAGE * page;
            let (first, _) = entry_ends(page % pages, base, size);
            let (_, last) = entry_ends((page + pages - 1) % pages, base, size);
            others |= self.vram.read(space, at, Width::Byte) ^ first;
            others |= self.vram.read(space, at.wrapping_sub(1), Width::Byte) ^ last;
        }
        self.vram.set_control(bank, 0);
        others
    }

    /// In how many places something is seen of a bank whose first byte is 5Ah.
    fn somewhere(&mut self, bank: u8, control: u8) -> u32
        requires { bank < 9 }
    {
        let start = STARTS[bank as usize];
        self.vram.set_control(bank, 0x80);
        self.vram.write(Space::Lcdc, start, Width::Byte, 0x5a);
        let there = self.vram.read(Space::Lcdc, start, Width::Byte);
        self.vram.set_control(bank, control);
        let mut places = if there == 0x5a { 0u32 } else { 1u32 };
        for space in MAPPED {
            for at in [
                0, 0x4000, 0x8000, 0x10000, 0x14000, 0x20000, 0x40000, 0x60000,
            ] {
                places |= self.vram.read(space, at, Width::Byte);
            }
        }
        places |= self.vram.read(Space::Lcdc, start, Width::Byte);
        self.vram.set_control(bank, 0);
        places
    }

    /// How many of five reads and writes past the size of a space aren't those inside.
    fn around(&mut self, bank: u8, control: u8, space: Space, size: u32) -> u32 {
        let size = size % 0x200000;
        self.control(bank, control);
        self.vram.write(space, size + 6, Width::Half, 0x12345);
        let half = self.vram.read(space, 7, Width::Half) != 0x2345;
        let byte = self.vram.read(space, 3 * size + 6, Width::Byte) != 0x45;
        let word = self.vram.read(space, 6, Width::Word) != 0x2345_0000;
        self.vram.write(space, 2 * size + 7, Width::Byte, 0x1ff);
        let upper = self.vram.read(space, 4, Width::Word) != 0xff45_0000;
        self.vram.write(space, 5, Width::Word, 0);
        let none = self.vram.read(space, 4, Width::Word) != 0;
        self.control(bank, 0);
        half as u32 + byte as u32 + word as u32 + upper as u32 + none as u32
    }

    fn arm7(&mut self, c: u8, d: u8, allotted: u8, first: u32, second: u32) -> (u32, u32) {
        self.vram.set_control(2, c);
        self.vram.set_control(3, d);
        let low = self.vram.read(Space::Arm7, 0, Width::Byte) % 0x100;
        let high = self.vram.read(Space::Arm7, 0x20000, Width::Byte) % 0x100;
        let seen = 0x1_0000 * self.vram.allotted7() as u32 + 0x100 * low + high;
        (
            seen,
            0x1_0000 * allotted as u32 + 0x100 * (first % 0x100) + second % 0x100,
        )
    }

    /// The pixel at a place of a text background's line, in a row that was full of others before.
    fn text(&self, layer: &TextLayer, line: u8, x: usize) -> u32 {
        let mut row = Row {
            pixels: [0x1234; 256],
        };
        text_row(&self.vram, &self.palette, layer, line, &mut row);
        row.pixels[x % 256] as u32
    }

    fn scrolled(&self, size: u16, across: u16, down: u16, line: u8, x: usize) -> u32 {
        let control = 0x0004 + size % 4 * 0x4000;
        self.text(
            &TextLayer {
                engine: 0,
                number: 0,
                display: 0,
                control,
                across,
                down,
            },
            line,
            x,
        )
    }

    fn entry(&mut self, entry: u32, control: u16, line: u8, x: usize) -> u32 {
        self.vram.write(Space::ABg, 0, Width::Half, entry);
        self.text(
            &TextLayer {
                engine: 0,
                number: 0,
                display: 0,
                control,
                across: 0,
                down: 0,
            },
            line,
            x,
        )
    }

    fn background(&self, engine: u8, number: u8, display: u32, control: u16, x: usize) -> u32 {
        self.text(
            &TextLayer {
                engine,
                number,
                display,
                control,
                across: 0,
                down: 0,
            },
            0,
            x,
        )
    }

    /// The pixel at a place of an affine background's line, in a row that was full of others before.
    fn affine_at(&self, layer: &AffineLayer, x: usize) -> u32 {
        let mut row = Row {
            pixels: [0x1234; 256],
        };
        affine_row(&self.vram, &self.palette, layer, &mut row);
        row.pixels[x % 256] as u32
    }

    /// The pixel at a place of an extended background's line, likewise.
    fn extended_at(&self, layer: &ExtLayer, x: usize) -> u32 {
        let mut row = Row {
            pixels: [0x1234; 256],
        };
        ext_row(&self.vram, &self.palette, layer, &mut row);
        row.pixels[x % 256] as u32
    }

    /// The pixel at a place of a bank's line, likewise.
    fn bank_at(&self, display: u32, line: u8, x: usize) -> u32 {
        let mut row = Row {
            pixels: [0x1234; 256],
        };
        vram_row(&self.vram, display, line, &mut row);
        row.pixels[x % 256] as u32
    }

    fn point(&self, control: u16, x: i32, y: i32, pa: i16, pc: i16, at: usize) -> u32 {
        self.affine_at(
            &AffineLayer {
                engine: 0,
                display: 0,
                control,
                x,
                y,
                pa,
                pc,
            },
            at,
        )
    }

    fn affine(&self, engine: u8, display: u32, control: u16, last: u16, at: usize) -> u32 {
        let x = last as i32 * 0x100;
        self.affine_at(
            &AffineLayer {
                engine,
                display,
                control,
                x,
                y: x,
                pa: 0x100,
                pc: 0,
            },
            at,
        )
    }

    /// What objects have at a place of a line, in a row that was full of others before.
    fn object(
        &self,
        oam: &[u8; 1024],
        control: u32,
        engine: u8,
        line: u8,
        x: usize,
    ) -> ObjectPixel {
        let other = ObjectPixel {
            colour: 0x9234,
            priority: 2,
            blended: true,
            window: true,
        };
        let mut row = ObjectRow {
            pixels: [other; 256],
        };
        object_row(
            &self.vram,
            &self.palette,
            oam,
            control,
            engine,
            line,
            &mut row,
        );
        row.pixels[x % 256]
    }

    fn pair(&self, three: [u16; 2], nine: [u16; 2]) -> u32 {
        let mut oam = no_objects();
        put_object(&mut oam, 3, [0x0400 * (three[0] % 4), 0, three[1]]);
        put_object(&mut oam, 9, [0x0400 * (nine[0] % 4), 0, nine[1]]);
        packed(self.object(&oam, 0x1000, 0, 0, 0))
    }

    /// How many of six places at the corners of an object's box, which begins at (10, 20), aren't as its size says.
    fn outside(&self, shape: u16, size: u16, width: u16, height: u16) -> u32 {
        let (width, height) = ((width % 65) as usize, (height % 65) as u8);
        let attributes = [0x4000 * (shape % 4) + 20, 0x4000 * (size % 4) + 10, 0];
        let oam = one_object(0, attributes);
        let mut wrong = 0u32;
        for (line, x, colour) in [
            (20, 10, 0xc001),
            (20, 9, 0),
            (19, 10, 0),
            (19 + height, 9 + width, 0xc001),
            (20, 10 + width, 0),
            (20 + height, 10, 0),
        ] {
            if self.object(&oam, 0x1010, 0, line, x).colour != colour {
                wrong |= 1;
            }
        }
        wrong
    }
}

/// A pixel of objects as one number.
fn packed(pixel: ObjectPixel) -> u32 {
    let (blended, window) = (pixel.blended as u32, pixel.window as u32);
    pixel.colour as u32
        + 0x1_0000 * pixel.priority as u32
        + 0x100_0000 * blended
        + 0x200_0000 * window
}

/// Attributes of 128 objects that are off.
fn no_objects() -> [u8; 1024] {
    let mut oam = [0; 1024];
    for n in 0..128usize {
        oam[8 * n + 1] = 0x02;
    }
    oam
}

/// Writes a half of an object: 0 to 2 are its attributes, 3 is a number of an affine group.
fn put(oam: &mut [u8; 1024], number: usize, half: usize, value: u16) {
    let at = number % 128 * 8 + half % 4 * 2;
    oam[at] = (value % 0x100) as u8;
    oam[at + 1] = (value / 0x100) as u8;
}

fn put_object(oam: &mut [u8; 1024], number: usize, attributes: [u16; 3]) {
    put(oam, number, 0, attributes[0]);
    put(oam, number, 1, attributes[1]);
    put(oam, number, 2, attributes[2]);
}

fn one_object(number: usize, attributes: [u16; 3]) -> [u8; 1024] {
    let mut oam = no_objects();
    put_object(&mut oam, number, attributes);
    oam
}

/// Object 2 with the numbers of group 3, which stand in the last halves of objects 12 to 15.
fn turned_object(first: u16, third: u16, numbers: [u16; 4]) -> [u8; 1024] {
    let mut oam = one_object(2, [first, 0x0600, third]);
    put(&mut oam, 12, 3, numbers[0]);
    put(&mut oam, 13, 3, numbers[1]);
    put(&mut oam, 14, 3, numbers[2]);
    put(&mut oam, 15, 3, numbers[3]);
    oam
}
