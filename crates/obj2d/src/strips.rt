//! The line of an object's box: by tiles, or point by point where the object is affine.

ghost use Rattle.std.specs.Prelude.{◌≡◌, ◌<◌, ◌≤◌, ◌+◌, ◌*◌, ◌/◌, ◌%◌, ℕ, true, false, length, slice_index};
ghost use Rattle.vram_banks.specs.Colours.{IsTable};
ghost use Rattle.vram_banks.specs.Tiles.{flipped};
ghost use Rattle.obj2d.specs.Attributes.{turn_at, group, object_has_256, width, height, box_width, box_height, flips_across};
ghost use Rattle.obj2d.specs.ObjectPixels.{point_pixel, turned_pixel, flat_pixel};
ghost use Rattle.obj2d.specs.rows.Strips.{object_tile_row, mirrored_tile, object_colours, AreObjectPixels, AreBox, IsColoured};

use crate::attributes::{
    box_width, flips_across, flips_down, height, is_affine, object_has_256, turn_of, width,
};
use crate::objects::{Display, Object};
use crate::pixels::{object_space, palette_number, tile_address, turned_pixel};
use crate::places::mirrored;
use crate::tables::{Tables, fill_extended};
use ds_base::known;
use vram_banks::{Vram, copy_eight, paint_by_table, paint_nibbles, row_word};

/// Where the row of the object's first tile begins that shows line y of the object.
fn first_tile_row(display: &Display, object: &Object, y: u32) -> u32
    requires { y < 64 }
    ensures value { result ≡ object_tile_row display.now object.now y 0 }
    ensures whole { result % 4 ≡ 0 }
    ensures small { result < 0x200000 }
{
    let at = tile_address(display, object, 0, y / 8);
    if object_has_256(object) {
        at + 8 * (y % 8)
    } else {
        at + 4 * (y % 8)
    }
}

/// Where that of tile tx begins, by the first's. The other arguments are there for the contract.
#[inline(always)]
fn object_tile_row(
    display: &Display,
    object: &Object,
    y: u32,
    first: u32,
    wide: bool,
    tx: usize,
) -> u32
    requires across { tx < 8 }
    requires first { first ≡ object_tile_row display.now object.now y 0 }
    requires whole { first % 4 ≡ 0 }
    requires small { first < 0x200000 }
    requires wide { wide ≡ object_has_256 object.now }
    ensures value { result ≡ object_tile_row display.now object.now y tx }
    ensures whole { result % 4 ≡ 0 }
    ensures small { result < 0x300000 }
{
    if wide {
        first + 64 * tx as u32
    } else {
        first + 32 * tx as u32
    }
}

/// The pixels of the row of a tile of 16 colours that begins at an address. `palette`, `y` and `tx` are there for the contract.
#[inline(always)]
fn paint_narrow_tile(
    vram: &Vram,
    palette: &[u8],
    display: &Display,
    object: &Object,
    table: &[u16; 256],
    start: usize,
    y: u32,
    tx: usize,
    at: u32,
    into: &mut [u16],
)
    requires narrow { object_has_256 object.now ≡ false }
    requires table { IsColoured vram.now palette.now display.now object.now table.now start }
    requires start { start ≤ 240 }
    requires place { at ≡ object_tile_row display.now object.now y tx }
    requires whole { at % 4 ≡ 0 }
    requires room { length into.old ≡ 8 }
    ensures { (i : ℕ) → i < 8 → slice_index into.new i
        ≡ point_pixel vram.now palette.now display.now object.now (8 * tx + flipped (flips_across object.now) i) y }
{
    let word = row_word(vram, object_space(display.engine), at);
    paint_nibbles(table, start, flips_across(object), word, into);
}

/// The same of a tile of 256 colours.
#[inline(always)]
fn paint_wide_tile(
    vram: &Vram,
    palette: &[u8],
    display: &Display,
    object: &Object,
    table: &[u16; 256],
    y: u32,
    tx: usize,
    at: u32,
    into: &mut [u16],
)
    requires wide { object_has_256 object.now ≡ true }
    requires table { IsColoured vram.now palette.now display.now object.now table.now 0 }
    requires place { at ≡ object_tile_row display.now object.now y tx }
    requires whole { at % 4 ≡ 0 }
    requires small { at < 0x300000 }
    requires room { length into.old ≡ 8 }
    ensures { (i : ℕ) → i < 8 → slice_index into.new i
        ≡ point_pixel vram.now palette.now display.now object.now (8 * tx + flipped (flips_across object.now) i) y }
{
    known!(vram.bank_laws());
    let mut indices = [0; 8];
    copy_eight(vram, object_space(display.engine), at, &mut indices);
    paint_by_table(table, 0, flips_across(object), &indices, into);
}

/// Which tile of so many stands at place k of a row, flipped or not.
fn mirrored_tile(flip: bool, count: usize, k: usize) -> usize
    requires { k < count }
    ensures value { result ≡ mirrored_tile flip count k }
    ensures small { result < count }
{
    if flip { count - 1 - k } else { k }
}

/// The pixels of all tiles of line y of an object of 16 colours, flipped or not. `palette` is there for the contract.
fn paint_narrow(
    vram: &Vram,
    palette: &[u8],
    display: &Display,
    object: &Object,
    table: &[u16; 256],
    start: usize,
    y: u32,
    into: &mut [u16; 128],
)
    requires narrow { object_has_256 object.now ≡ false }
    requires table { IsColoured vram.now palette.now display.now object.now table.now start }
    requires start { start ≤ 240 }
    requires down { y < 64 }
    ensures { AreObjectPixels vram.now palette.now display.now object.now y into.new (width object.now / 8) }
{
    let count = width(object) / 8;
    let flip = flips_across(object);
    let first = first_tile_row(display, object, y);
    for k in 0..count {
        let tx = mirrored_tile(flip, count, k);
        let at = object_tile_row(display, object, y, first, false, tx);
        paint_narrow_tile(
            vram,
            palette,
            display,
            object,
            table,
            start,
            y,
            tx,
            at,
            &mut into[8 * k..8 * k + 8],
        );
    }
}

/// The same of an object of 256 colours.
fn paint_wide(
    vram: &Vram,
    palette: &[u8],
    display: &Display,
    object: &Object,
    table: &[u16; 256],
    y: u32,
    into: &mut [u16; 128],
)
    requires wide { object_has_256 object.now ≡ true }
    requires table { IsColoured vram.now palette.now display.now object.now table.now 0 }
    requires down { y < 64 }
    ensures { AreObjectPixels vram.now palette.now display.now object.now y into.new (width object.now / 8) }
{
    let count = width(object) / 8;
    let flip = flips_across(object);
    let first = first_tile_row(display, object, y);
    for k in 0..count {
        let tx = mirrored_tile(flip, count, k);
        let at = object_tile_row(display, object, y, first, true, tx);
        paint_wide_tile(
            vram,
            palette,
            display,
            object,
            table,
            y,
            tx,
            at,
            &mut into[8 * k..8 * k + 8],
        );
    }
}

/// Line y of the box of an object that isn't affine, by the table of its colours' pixels from `start` on. `palette` is there for the contract.
fn flat_strip(
    vram: &Vram,
    palette: &[u8],
    display: &Display,
    object: &Object,
    table: &[u16; 256],
    start: usize,
    y: usize,
    into: &mut [u16; 128],
)
    requires table { IsColoured vram.now palette.now display.now object.now table.now start }
    requires narrow { object_has_256 object.now ≡ false → start ≤ 240 }
    requires wide { object_has_256 object.now ≡ true → start ≡ 0 }
    requires down { y < height object.now }
    ensures { (x : ℕ) → x < width object.now → slice_index into.new x ≡ flat_pixel vram.now palette.now display.now object.now x y }
{
    let line = mirrored(flips_down(object), height(object), y) as u32;
    if object_has_256(object) {
        paint_wide(vram, palette, display, object, table, line, into);
    } else {
        paint_narrow(vram, palette, display, object, table, start, line, into);
    }
}

/// Line y of an affine object's box, likewise.
fn affine_strip(
    vram: &Vram,
    palette: &[u8],
    oam: &[u8],
    display: &Display,
    object: &Object,
    table: &[u16; 256],
    start: usize,
    y: usize,
    into: &mut [u16; 128],
)
    requires table { IsColoured vram.now palette.now display.now object.now table.now start }
    requires narrow { object_has_256 object.now ≡ false → start ≤ 240 }
    requires wide { object_has_256 object.now ≡ true → start ≡ 0 }
    requires oam { length oam.now ≡ 1024 }
    requires down { y < box_height object.now }
    ensures { (x : ℕ) → x < box_width object.now → slice_index into.new x
        ≡ turned_pixel vram.now palette.now display.now object.now (turn_at oam.now (group object.now)) x y }
{
    // copies, so that no store into the row can change what the points are told by
    let (shown, turned) = (*display, *object);
    let turn = turn_of(oam, object);
    for x in 0..box_width(object) {
        into[x] = turned_pixel(vram, palette, &shown, &turned, table, start, &turn, x, y);
    }
}

/// Line y of an object's box, likewise.
#[inline(never)]
fn tabled_strip(
    vram: &Vram,
    palette: &[u8],
    oam: &[u8],
    display: &Display,
    object: &Object,
    table: &[u16; 256],
    start: usize,
    y: usize,
    into: &mut [u16; 128],
)
    requires table { IsColoured vram.now palette.now display.now object.now table.now start }
    requires narrow { object_has_256 object.now ≡ false → start ≤ 240 }
    requires wide { object_has_256 object.now ≡ true → start ≡ 0 }
    requires oam { length oam.now ≡ 1024 }
    requires down { y < box_height object.now }
    ensures { AreBox vram.now palette.now oam.now display.now object.now y into.new }
{
    if is_affine(object) {
        affine_strip(vram, palette, oam, display, object, table, start, y, into);
    } else {
        flat_strip(vram, palette, display, object, table, start, y, into);
    }
}

/// Line y of an object's box. `palette` is there for the contract.
pub fn strip(
    vram: &Vram,
    palette: &[u8],
    oam: &[u8],
    display: &Display,
    tables: &Tables,
    object: &Object,
    y: usize,
    into: &mut [u16; 128],
)
    requires narrow { IsTable false palette.now tables.now.narrow }
    requires wide { IsTable true palette.now tables.now.wide }
    requires oam { length oam.now ≡ 1024 }
    requires down { y < box_height object.now }
    ensures { AreBox vram.now palette.now oam.now display.now object.now y into.new }
{
    if !object_has_256(object) {
        let start = 16 * palette_number(object) as usize;
        tabled_strip(
            vram,
            palette,
            oam,
            display,
            object,
            &tables.narrow,
            start,
            y,
            into,
        );
    } else if (display.control >> 31) % 2 == 1 {
        let mut table = [0; 256];
        fill_extended(vram, palette, display, object, &mut table);
        tabled_strip(vram, palette, oam, display, object, &table, 0, y, into);
    } else {
        tabled_strip(
            vram,
            palette,
            oam,
            display,
            object,
            &tables.wide,
            0,
            y,
            into,
        );
    }
}
