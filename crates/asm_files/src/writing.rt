//! From an image to its listing.

ghost use Rattle.std.specs.Prelude.{◌≡◌, ◌<◌, ◌≤◌, ◌++◌, ◌∷◌, [], map, OnErr, OnOk};
ghost use Rattle.ds_base.specs.Texts.{text_of};
ghost use Rattle.ds_io.specs.Faults.{Rose};
ghost use Rattle.ds_io.specs.Sinks.{Appended, AppendedFront};
ghost use Rattle.asm_text.specs.Starts.{raw_byte};
ghost use Rattle.asm_files.specs.Listings.{arm_lines, lines_of, listing, thumb_lines};
ghost use Rattle.asm_files.specs.Writer.Pages.{Passed};

use crate::pages::{TextPage, put_line, send};
use asm_lines::list_word;
use asm_text::{Line, Set, list_byte, list_start};
use ds_base::Arch;
use ds_io::{Failed, Sink};

fn write_bytes<O: Sink>(bytes: &[u8], page: &mut TextPage, out: &mut O) -> Result<(), Failed>
    ensures ok { OnOk result (Passed O.tells O.taken out.old out.new page.old page.new (text_of (map raw_byte bytes.now))) }
    ensures err { OnErr result (AppendedFront O.tells O.taken out.old out.new (page.old ++ text_of (map raw_byte bytes.now))) }
    ensures cause { OnErr result (Rose (O.faults out.old) (O.faults out.new)) }
    ensures later { O.faults out.old ≤ O.faults out.new }
{
    let mut line = Line::new();
    let mut rest = bytes;
    while let [byte, more @ ..] = rest {
        list_byte(*byte, &mut line);
        put_line(&line, page, out)?;
        rest = more;
    }
    Ok(())
}

fn write_words<O: Sink>(
    arch: Arch,
    start: u32,
    image: &[u8],
    page: &mut TextPage,
    out: &mut O,
) -> Result<(), Failed>
    ensures ok { OnOk result (Passed O.tells O.taken out.old out.new page.old page.new (text_of (arm_lines arch start image.now))) }
    ensures err { OnErr result (AppendedFront O.tells O.taken out.old out.new (page.old ++ text_of (arm_lines arch start image.now))) }
    ensures cause { OnErr result (Rose (O.faults out.old) (O.faults out.new)) }
    ensures later { O.faults out.old ≤ O.faults out.new }
{
    let mut line = Line::new();
    let mut at = start;
    let mut rest = image;
    while let [a, b, c, d, more @ ..] = rest {
        let word = u32::from_le_bytes([*a, *b, *c, *d]);
        list_word(arch, Set::Arm, at, word, &mut line);
        put_line(&line, page, out)?;
        at = at.wrapping_add(4);
        rest = more;
    }
    write_bytes(rest, page, out)?;
    Ok(())
}

fn write_halves<O: Sink>(
    arch: Arch,
    start: u32,
    image: &[u8],
    page: &mut TextPage,
    out: &mut O,
) -> Result<(), Failed>
    ensures ok { OnOk result (Passed O.tells O.taken out.old out.new page.old page.new (text_of (thumb_lines arch start image.now))) }
    ensures err { OnErr result (AppendedFront O.tells O.taken out.old out.new (page.old ++ text_of (thumb_lines arch start image.now))) }
    ensures cause { OnErr result (Rose (O.faults out.old) (O.faults out.new)) }
    ensures later { O.faults out.old ≤ O.faults out.new }
{
    let mut line = Line::new();
    let mut at = start;
    let mut rest = image;
    while let [a, b, more @ ..] = rest {
        let half = u16::from_le_bytes([*a, *b]);
        list_word(arch, Set::Thumb, at, half as u32, &mut line);
        put_line(&line, page, out)?;
        at = at.wrapping_add(2);
        rest = more;
    }
    write_bytes(rest, page, out)?;
    Ok(())
}

fn write_lines<O: Sink>(
    arch: Arch,
    set: Set,
    at: u32,
    image: &[u8],
    page: &mut TextPage,
    out: &mut O,
) -> Result<(), Failed>
    ensures ok { OnOk result (Passed O.tells O.taken out.old out.new page.old page.new (text_of (lines_of arch set at image.now))) }
    ensures err { OnErr result (AppendedFront O.tells O.taken out.old out.new (page.old ++ text_of (lines_of arch set at image.now))) }
    ensures cause { OnErr result (Rose (O.faults out.old) (O.faults out.new)) }
    ensures later { O.faults out.old ≤ O.faults out.new }
{
    match set {
        Set::Arm => write_words(arch, at, image, page, out),
        Set::Thumb => write_halves(arch, at, image, page, out),
    }
}

/// Puts the listing of an image at an address into a sink: its first line, a statement a word (ARM) or half (Thumb), and a line for
/// each byte that is left, at addresses modulo 2^32. Nothing is allocated: the text goes out by pages of 4,096 bytes. Where the sink
/// fails, it has taken a front of the listing.
pub fn write_listing<O: Sink>(
    arch: Arch,
    set: Set,
    at: u32,
    image: &[u8],
    out: &mut O,
) -> Result<(), Failed>
    ensures ok { OnOk result (Appended O.tells O.taken out.old out.new (listing arch set at image.now)) }
    ensures err { OnErr result (AppendedFront O.tells O.taken out.old out.new (listing arch set at image.now)) }
    ensures cause { OnErr result (Rose (O.faults out.old) (O.faults out.new)) }
    ensures later { O.faults out.old ≤ O.faults out.new }
{
    let mut page = TextPage::new();
    let mut line = Line::new();
    list_start(arch, set, at, &mut line);
    put_line(&line, &mut page, out)?;
    write_lines(arch, set, at, image, &mut page, out)?;
    send(&page, out)?;
    Ok(())
}
