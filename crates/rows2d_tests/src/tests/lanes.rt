//! What is done to a row and to packed bytes, and rows times columns and matrices. Each pixel is tried at nine places: eight are a block of lanes, the ninth is alone.

ghost use Rattle.std.specs.Prelude.{◌≤◌};

use line_lanes::{Matrix, blend, brighten, darken, dot4, master, transform4, unpack4};

/// One line of a table.
#[derive(Clone, Copy)]
pub enum Lane {
    /// A row of 0010h brightened by 8, by its length.
    Long(usize),
    /// By 0 and 16 the second row shows, each pixel in its place; by 16 a pixel is black but for bit 15. By the row's length.
    Each(usize),
    /// Pixel, EVY, and the pixel brightened: red, green and blue c become c + (31 - c) EVY / 16.
    Brightened(u16, u8, u16),
    /// Pixel, EVY, and the pixel darkened: red, green and blue c become c - c EVY / 16.
    Darkened(u16, u8, u16),
    /// Pixel over pixel, EVA, EVB, and the pixel blended: min(31, (x EVA + y EVB) / 16) of each channel.
    Blended(u16, u16, u8, u8, u16),
    /// MASTER_BRIGHT's value, pixel, and the pixel after it: mode 1 is up, mode 2 down, and bits 5 to 13 don't count.
    Mastered(u16, u16, u16),
    /// Nibbles taken apart, by the number of bytes. They are 0 to 15 in turn, and from the 32nd on one more, so that no block of sixteen
    /// bytes is another.
    Nibbles(usize),
    /// A row times a column, as a cell. The column gives it in each place of a matrix, whose other cells are 0.
    Cell(i32, i32, i32, i32, i32, i32, i32, i32, i32),
    /// A row through the matrix of the cells 1, 2, 3 and so on to 16.
    Through(i32, i32, i32, i32, i32, i32, i32, i32),
}

impl Lane {
    /// Whether there is something else in some place than what is wanted: 0 where there isn't.
    pub fn wrong(self) -> usize {
        match self {
            Lane::Long(len) => long(len % 257),
            Lane::Each(len) => each(len % 33),
            Lane::Nibbles(len) => nibbles(len % 41),
            Lane::Cell(a, b, c, d, e, f, g, h, wanted) => cell([a, b, c, d], [e, f, g, h], wanted),
            Lane::Through(a, b, c, d, e, f, g, h) => through([a, b, c, d], [e, f, g, h]),
            Lane::Brightened(pixel, evy, wanted) => {
                let mut row = [pixel; 9];
                brighten(&mut row, evy);
                others(&row, wanted)
            }
            Lane::Darkened(pixel, evy, wanted) => {
                let mut row = [pixel; 9];
                darken(&mut row, evy);
                others(&row, wanted)
            }
            Lane::Blended(pixel, under, eva, evb, wanted) => {
                let mut row = [pixel; 9];
                blend(&mut row, &[under; 9], eva, evb);
                others(&row, wanted)
            }
            Lane::Mastered(value, pixel, wanted) => {
                let mut row = [pixel; 9];
                master(&mut row, value);
                others(&row, wanted)
            }
        }
    }
}

/// Whether some pixels are others than this one: 1, and 0 where none is.
fn others(row: &[u16; 9], wanted: u16) -> usize {
    let mut wrong = 0usize;
    for pixel in row.iter() {
        wrong |= (*pixel != wanted) as usize;
    }
    wrong
}

fn long(len: usize) -> usize
    requires { len ≤ 256 }
{
    let mut row = [0x0010; 256];
    brighten(&mut row[..len], 8);
    let mut wrong = 0usize;
    for (place, pixel) in row.iter().enumerate() {
        let wanted = if place < len { 0x3DF7 } else { 0x0010 };
        wrong |= (*pixel != wanted) as usize;
    }
    wrong
}

fn each(len: usize) -> usize
    requires { len ≤ 32 }
{
    let mut next = [0; 32];
    for (place, pixel) in next.iter_mut().enumerate() {
        *pixel = 33 * (place % 32) as u16;
    }
    let mut blended = [0x8010; 32];
    let mut darkened = next;
    let mut mastered = next;
    blend(&mut blended[..len], &next[..len], 0, 16);
    darken(&mut darkened[..len], 16);
    master(&mut mastered[..len], 0x8010);
    let mut wrong = 0usize;
    for (place, pixel) in next.iter().enumerate() {
        let (first, second) = if place < len {
            (0x8000 | *pixel, 0)
        } else {
            (0x8010, *pixel)
        };
        wrong |= (blended[place] != first) as usize;
        wrong |= (darkened[place] != second || mastered[place] != second) as usize;
    }
    wrong
}

fn nibbles(len: usize) -> usize
    requires { len ≤ 40 }
{
    let packed = [0x10, 0x32, 0x54, 0x76, 0x98, 0xBA, 0xDC, 0xFE];
    let later = [0x21, 0x43, 0x65, 0x87, 0xA9, 0xCB, 0xED, 0x0F];
    let mut bytes = [0; 40];
    for (place, byte) in bytes.iter_mut().enumerate() {
        *byte = if place < 16 {
            packed[place % 8]
        } else {
            later[place % 8]
        };
    }
    let mut nibbles = [0xAA; 80];
    unpack4(&bytes[..len], &mut nibbles[..2 * len]);
    let mut wrong = 0usize;
    for (place, nibble) in nibbles.iter().enumerate() {
        let next = if place < 32 { place } else { place + 1 };
        let wanted = if place < 2 * len { next % 16 } else { 0xAA };
        wrong |= (*nibble as usize != wanted) as usize;
    }
    wrong
}

fn cell(row: [i32; 4], column: [i32; 4], wanted: i32) -> usize {
    let mut wrong = (dot4(row, column) != wanted) as usize;
    for place in 0..4usize {
        let mut cells = [0; 16];
        let mut all = [0; 4];
        for (number, part) in column.iter().enumerate() {
            cells[4 * (number % 4) + place] = *part;
        }
        all[place] = wanted;
        wrong |= (transform4(row, &Matrix { cells }) != all) as usize;
    }
    wrong
}

fn through(row: [i32; 4], wanted: [i32; 4]) -> usize {
    let mut cells = [0; 16];
    for (place, cell) in cells.iter_mut().enumerate() {
        *cell = 0x1000 * (place % 16 + 1) as i32;
    }
    (transform4(row, &Matrix { cells }) != wanted) as usize
}
