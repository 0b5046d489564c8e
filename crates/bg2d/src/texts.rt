//! Rows of text backgrounds.

ghost use Rattle.std.specs.Prelude.{◌≡◌, ◌<◌, ◌+◌, ◌*◌, ◌%◌, ℕ, true, false, length, slice_index, slice_range};
ghost use Rattle.ds_base.specs.Bits.{bits, bit};
ghost use Rattle.ds_base.specs.Numbers.{number_at};
ghost use Rattle.ds_base.specs.declared.memories.Width.TheVariants.{Half};
ghost use Rattle.bg2d.specs.TextPixels.{text_width, text_height, has_256, palette_slot, text_entry, text_colour, text_entry_pixel, text_pixel};
ghost use Rattle.vram_banks.specs.Colours.{indexed_pixel, HasForm, IsTable};
ghost use Rattle.vram_banks.specs.Tiles.{flipped};
ghost use Rattle.bg2d.specs.rows.Tiling.{block_line, is_extended, text_base, tile_offset, AreBlockLines, AreEntries, IsBlockLine, AreIndices, ArePainted, AreTiles, IsKept, IsTileRun};

use crate::layers::TextLayer;
use vram_banks::{
    Row, Vram, background_palette_space, background_space, copy_eight_within, fill_table, flipped,
    map_base, paint_by_table, paint_nibbles, paint_standard, row_word_within, tile_base,
};

/// How many tiles a row touches: 256 pixels, and a tile's part at either end.
const TILES: usize = 33;

fn text_width(layer: &TextLayer) -> u32
    ensures { result ≡ text_width layer.now }
{
    if (layer.control >> 14) % 2 == 1 {
        512
    } else {
        256
    }
}

fn text_height(layer: &TextLayer) -> u32
    ensures { result ≡ text_height layer.now }
{
    if (layer.control >> 15) % 2 == 1 {
        512
    } else {
        256
    }
}

/// Where the entries begin that show line y of the background in the block of column x.
fn block_line(layer: &TextLayer, x: u32, y: u32) -> u32
    requires across { x < 512 }
    requires down { y < 512 }
    ensures { result ≡ block_line layer.now x y }
{
    let block = x / 256 + text_width(layer) / 256 * (y / 256);
    map_base(layer.engine, layer.display, layer.control) + 0x800 * block + 64 * (y % 256 / 8)
}

/// The entries that show line y of the background in the block of column x, which are 64 bytes.
fn read_block(vram: &Vram, layer: &TextLayer, x: u32, y: u32, into: &mut [u8])
    requires across { x < 512 }
    requires down { y < 512 }
    requires room { length into.old ≡ 64 }
    ensures { IsBlockLine vram.now layer.now x y into.new }
{
    let at = block_line(layer, x, y);
    vram.row(background_space(layer.engine), at, into);
}

/// The same of the left block and of the right one, or of the left one again where there is no other.
fn read_blocks(vram: &Vram, layer: &TextLayer, y: u32, into: &mut [u8; 128])
    requires { y < 512 }
    ensures { AreBlockLines vram.now layer.now y into.new 2 }
{
    let width = text_width(layer);
    for h in 0..2usize {
        let x = 256 * h as u32 % width;
        read_block(vram, layer, x, y, &mut into[64 * h..64 * h + 64]);
    }
}

/// Number c of the entries of both blocks on a line.
#[inline(always)]
fn block_entry(blocks: &[u8; 128], c: usize) -> u16
    requires { c < 64 }
    ensures { result ≡ number_at Half blocks.now (2 * c) }
{
    u16::from_le_bytes([blocks[2 * c], blocks[2 * c + 1]])
}

/// The entry of tile k of a row, from those of both blocks on its line. The other arguments are there for the contract.
#[inline(always)]
fn entry_among(
    vram: &Vram,
    layer: &TextLayer,
    blocks: &[u8; 128],
    first: u32,
    y: u32,
    k: usize,
) -> u16
    requires blocks { AreBlockLines vram.now layer.now y blocks.now 2 }
    requires across { first < text_width layer.now }
    requires whole { first % 8 ≡ 0 }
    requires known { k < 33 }
    ensures { result ≡ text_entry vram.now layer.now ((first + 8 * k) % text_width layer.now) y }
{
    block_entry(blocks, (first as usize / 8 + k) % 64)
}

/// The entries of the tiles of a row, from the tile on whose left edge is `first`.
fn text_entries(vram: &Vram, layer: &TextLayer, first: u32, y: u32, into: &mut [u16; TILES])
    requires across { first < text_width layer.now }
    requires whole { first % 8 ≡ 0 }
    requires down { y < 512 }
    ensures { AreEntries vram.now layer.now first y into.new 33 }
{
    let mut blocks = [0; 128];
    read_blocks(vram, layer, y, &mut blocks);
    for k in 0..TILES {
        into[k] = entry_among(vram, layer, &blocks, first, y, k);
    }
}

/// How far past the tiles' base the row of an entry's tile begins that shows line y of the background.
#[inline(always)]
fn tile_offset(layer: &TextLayer, entry: u16, y: u32) -> u32
    ensures value { result ≡ tile_offset layer.now entry y }
    ensures whole { result % 4 ≡ 0 }
    ensures small { result < 0x10000 }
{
    let line = flipped((entry >> 11) % 2 == 1, y as usize % 8) as u32;
    let tile = (entry % 0x400) as u32;
    if has_256(layer) {
        64 * tile + 8 * line
    } else {
        32 * tile + 4 * line
    }
}

/// The tiles' base.
#[inline(always)]
fn text_base(layer: &TextLayer) -> u32
    ensures value { result ≡ text_base layer.now }
    ensures whole { result % 8192 ≡ 0 }
    ensures small { result < 0xC0000 }
{
    tile_base(layer.engine, layer.display, layer.control)
}

/// The bytes of tiles that one bank alone has, from the tiles' base on.
fn tile_run<'a>(vram: &'a Vram, layer: &TextLayer) -> &'a [u8]
    ensures { IsTileRun vram.now layer.now result.now }
{
    vram.run(background_space(layer.engine), text_base(layer), 0x10000)
}

fn has_256(layer: &TextLayer) -> bool
    ensures { result ≡ has_256 layer.now }
{
    (layer.control >> 7) % 2 == 1
}

/// The rows of tiles of 256 colours, eight bytes each, which are their indices.
fn copy_rows(vram: &Vram, layer: &TextLayer, entries: &[u16; TILES], y: u32, into: &mut [u8; 264])
    requires { has_256 layer.now ≡ true }
    ensures { AreIndices vram.now layer.now y entries.now into.new }
{
    let space = background_space(layer.engine);
    let base = text_base(layer);
    let run = tile_run(vram, layer);
    for k in 0..TILES {
        let offset = tile_offset(layer, entries[k], y);
        copy_eight_within(vram, space, run, base, offset, &mut into[8 * k..8 * k + 8]);
    }
}

/// Where a palette of 256 colours begins in the space of extended palettes.
fn extended_palette(layer: &TextLayer, entry: u16) -> u32
    ensures { result ≡ 0x2000 * palette_slot layer.now + 512 * bits 12 4 entry }
{
    let slot = if layer.number < 2 && (layer.control >> 13) % 2 == 1 {
        layer.number as u32 + 2
    } else {
        layer.number as u32
    };
    0x2000 * slot + 512 * (entry >> 12) as u32
}

/// Whether the background has extended palettes.
fn is_extended(layer: &TextLayer) -> bool
    ensures { result ≡ is_extended layer.now }
{
    has_256(layer) && (layer.display >> 30) % 2 == 1
}

/// Whether an entry's tile is flipped across.
fn flips_across(entry: u16) -> bool
    ensures { result ≡ bit 10 entry }
{
    (entry >> 10) % 2 == 1
}

/// The pixels of a tile of 16 colours on line y of the background, by those of the standard palette's colours.
fn paint_narrow_tile(
    vram: &Vram,
    palette: &[u8],
    table: &[u16; 256],
    layer: &TextLayer,
    run: &[u8],
    entry: u16,
    y: u32,
    into: &mut [u16],
)
    requires run { IsTileRun vram.now layer.now run.now }
    requires narrow { has_256 layer.now ≡ false }
    requires table { IsTable false palette.now table.now }
    requires room { length into.old ≡ 8 }
    ensures { (i : ℕ) → i < 8 → slice_index into.new i ≡ text_entry_pixel vram.now palette.now layer.now entry i y }
{
    let space = background_space(layer.engine);
    let word = row_word_within(
        vram,
        space,
        run,
        text_base(layer),
        tile_offset(layer, entry, y),
    );
    let start = 16 * (entry >> 12) as usize;
    paint_nibbles(table, start, flips_across(entry), word, into);
}

/// The pixels of all tiles of a row, of 16 colours.
fn paint_narrow(
    vram: &Vram,
    palette: &[u8],
    layer: &TextLayer,
    entries: &[u16; TILES],
    y: u32,
    into: &mut [u16; 264],
)
    requires colours { length palette.now ≡ 512 }
    requires narrow { has_256 layer.now ≡ false }
    ensures { AreTiles vram.now palette.now layer.now y entries.now into.new 33 }
{
    let mut table = [0; 256];
    fill_table(palette, false, &mut table);
    let run = tile_run(vram, layer);
    for k in 0..TILES {
        paint_narrow_tile(
            vram,
            palette,
            &table,
            layer,
            run,
            entries[k],
            y,
            &mut into[8 * k..8 * k + 8],
        );
    }
}

/// The pixels of a tile's row, from its eight indices, by those of the standard palette's colours. `vram` and `palette` are there for the contract.
fn paint_tile(
    vram: &Vram,
    palette: &[u8],
    table: &[u16; 256],
    layer: &TextLayer,
    entry: u16,
    indices: &[u8],
    into: &mut [u16],
)
    requires wide { has_256 layer.now ≡ true }
    requires standard { is_extended layer.now ≡ false }
    requires table { IsTable true palette.now table.now }
    requires indices { length indices.now ≡ 8 }
    requires room { length into.old ≡ 8 }
    ensures { (i : ℕ) → i < 8 → slice_index into.new i
        ≡ indexed_pixel (text_colour vram.now palette.now layer.now entry) (slice_index indices.now (flipped (bit 10 entry) i)) }
{
    paint_by_table(table, 0, flips_across(entry), indices, into);
}

/// The pixels of all tiles of a row, of 256 colours of the standard palette.
fn paint_by_standard(
    vram: &Vram,
    palette: &[u8],
    layer: &TextLayer,
    entries: &[u16; TILES],
    indices: &[u8; 264],
    into: &mut [u16; 264],
)
    requires wide { has_256 layer.now ≡ true }
    requires standard { is_extended layer.now ≡ false }
    requires colours { length palette.now ≡ 512 }
    ensures { ArePainted vram.now palette.now layer.now entries.now indices.now into.new 33 }
{
    let mut table = [0; 256];
    fill_table(palette, true, &mut table);
    for k in 0..TILES {
        paint_tile(
            vram,
            palette,
            &table,
            layer,
            entries[k],
            &indices[8 * k..8 * k + 8],
            &mut into[8 * k..8 * k + 8],
        );
    }
}

/// An extended palette of 256 colours that was read, and where it begins in its space.
#[derive(Clone, Copy)]
struct KeptPalette {
    at: u32,
    bytes: [u8; 512],
}

/// Reads the extended palette that begins at an address.
fn read_palette(vram: &Vram, layer: &TextLayer, at: u32, kept: &mut KeptPalette)
    ensures value { IsKept vram.now layer.now kept.new }
    ensures at { kept.new.at ≡ at }
{
    vram.row(background_palette_space(layer.engine), at, &mut kept.bytes);
    kept.at = at;
}

/// The same, where it isn't the one that was read last.
fn keep_palette(vram: &Vram, layer: &TextLayer, at: u32, kept: &mut KeptPalette)
    requires { IsKept vram.now layer.now kept.old }
    ensures value { IsKept vram.now layer.now kept.new }
    ensures at { kept.new.at ≡ at }
{
    if kept.at != at {
        read_palette(vram, layer, at, kept);
    }
}

/// The pixels of a tile's row, from its eight indices, by the entry's extended palette. `palette` is there for the contract.
fn paint_extended_tile(
    vram: &Vram,
    palette: &[u8],
    layer: &TextLayer,
    entry: u16,
    kept: &mut KeptPalette,
    indices: &[u8],
    into: &mut [u16],
)
    requires extended { is_extended layer.now ≡ true }
    requires kept { IsKept vram.now layer.now kept.old }
    requires indices { length indices.now ≡ 8 }
    requires room { length into.old ≡ 8 }
    ensures kept { IsKept vram.now layer.now kept.new }
    ensures pixels { (i : ℕ) → i < 8 → slice_index into.new i
        ≡ indexed_pixel (text_colour vram.now palette.now layer.now entry) (slice_index indices.now (flipped (bit 10 entry) i)) }
{
    let flip = flips_across(entry);
    let at = extended_palette(layer, entry);
    keep_palette(vram, layer, at, kept);
    paint_standard(&kept.bytes, 0, flip, indices, into);
}

/// The pixels of all tiles of a row, by extended palettes. `palette` is there for the contract.
fn paint_by_extended(
    vram: &Vram,
    palette: &[u8],
    layer: &TextLayer,
    entries: &[u16; TILES],
    indices: &[u8; 264],
    into: &mut [u16; 264],
)
    requires { is_extended layer.now ≡ true }
    ensures { ArePainted vram.now palette.now layer.now entries.now indices.now into.new 33 }
{
    let mut kept = KeptPalette {
        at: 0,
        bytes: [0; 512],
    };
    read_palette(vram, layer, extended_palette(layer, entries[0]), &mut kept);
    for k in 0..TILES {
        paint_extended_tile(
            vram,
            palette,
            layer,
            entries[k],
            &mut kept,
            &indices[8 * k..8 * k + 8],
            &mut into[8 * k..8 * k + 8],
        );
    }
}

/// The pixels of all tiles of a row, from their indices.
fn paint(
    vram: &Vram,
    palette: &[u8],
    layer: &TextLayer,
    entries: &[u16; TILES],
    indices: &[u8; 264],
    into: &mut [u16; 264],
)
    requires wide { has_256 layer.now ≡ true }
    requires colours { length palette.now ≡ 512 }
    ensures { ArePainted vram.now palette.now layer.now entries.now indices.now into.new 33 }
{
    if is_extended(layer) {
        paint_by_extended(vram, palette, layer, entries, indices, into);
    } else {
        paint_by_standard(vram, palette, layer, entries, indices, into);
    }
}

/// The pixels of all tiles of a row, of 256 colours.
fn paint_wide(
    vram: &Vram,
    palette: &[u8],
    layer: &TextLayer,
    entries: &[u16; TILES],
    y: u32,
    into: &mut [u16; 264],
)
    requires colours { length palette.now ≡ 512 }
    requires wide { has_256 layer.now ≡ true }
    ensures { AreTiles vram.now palette.now layer.now y entries.now into.new 33 }
{
    let mut indices = [0; 264];
    copy_rows(vram, layer, entries, y, &mut indices);
    paint(vram, palette, layer, entries, &indices, into);
}

/// The pixels of all tiles of a row.
fn paint_tiles(
    vram: &Vram,
    palette: &[u8],
    layer: &TextLayer,
    entries: &[u16; TILES],
    y: u32,
    into: &mut [u16; 264],
)
    requires { length palette.now ≡ 512 }
    ensures { AreTiles vram.now palette.now layer.now y entries.now into.new 33 }
{
    if has_256(layer) {
        paint_wide(vram, palette, layer, entries, y, into);
    } else {
        paint_narrow(vram, palette, layer, entries, y, into);
    }
}

/// The 256 pixels of a row of tiles that are on the screen, of which the first is `fine` pixels right of the first tile's edge.
fn clip(pixels: &[u16; 264], fine: usize, into: &mut [u16; 256])
    requires { fine < 8 }
    ensures { into.new ≡ slice_range pixels.now fine (fine + 256) }
{
    into.copy_from_slice(&pixels[fine..fine + 256]);
}

/// Draws a text background's row at a line of the screen: at each place the pixel of the map entry, the tile and the palette that
/// the background's scrolls bring there (GBATEK, "LCD VRAM BG Screen Data Format (BG Map)"). `palette` has the 512 bytes of the
/// engine's background palette.
pub fn text_row(vram: &Vram, palette: &[u8], layer: &TextLayer, line: u8, into: &mut Row)
    requires { length palette.now ≡ 512 }
    ensures row { (x : ℕ) → x < 256 → slice_index into.new.pixels x ≡ text_pixel vram.now palette.now layer.now line x }
    ensures form { (x : ℕ) → x < 256 → HasForm (slice_index into.new.pixels x) }
{
    let y = (line as u32 + layer.down as u32) % text_height(layer);
    let first = layer.across as u32 % text_width(layer) / 8 * 8;
    let mut entries = [0; TILES];
    text_entries(vram, layer, first, y, &mut entries);
    let mut pixels = [0; 264];
    paint_tiles(vram, palette, layer, &entries, y, &mut pixels);
    let fine = layer.across as usize % 8;
    clip(&pixels, fine, &mut into.pixels);
}
