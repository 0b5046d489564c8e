//! The commands on listings: an image as text, and text as an image.

ghost use Rattle.std.specs.Prelude.{◌≡◌, None};
ghost use Rattle.ds_io.specs.Shelves.{files_of};
ghost use Rattle.nds_plays.specs.Calls.{around};
ghost use Rattle.nds_top.specs.ListingAnswers.{ListGives, AsmGives};

use asm_files::write_listing;
use asm_text::Set;
use ds_base::Proc;
use ds_io::{Shelf, Sink, put_all};
use nds_answers::{Status, load, load_cart};
use std::alloc::Global;

/// The greatest length of a listing's file, in bytes.
const MOST_TEXT: usize = 134_217_728;

/// Writes the listing of an image of a cartridge.
pub fn list<F: Shelf, O: Sink>(
    alloc: Global,
    name: &str,
    proc: Proc,
    set: Set,
    shelf: &mut F,
    out: &mut O,
) -> Status
    ensures answer { ListGives (around F.told F.faults O.tells O.taken O.faults shelf.old shelf.new out.old out.new None) name.now proc set result }
    ensures files { files_of (F.told shelf.new) ≡ files_of (F.told shelf.old) }
{
    let cart = match load_cart(alloc, shelf, name) {
        Ok(cart) => cart,
        Err(status) => return status,
    };
    match write_listing(
        proc.architecture(),
        set,
        cart.place(proc),
        cart.image(proc),
        out,
    ) {
        Ok(()) => Status::Done,
        Err(_) => Status::WriteFault,
    }
}

/// Writes the bytes whose listing a file is, where it is one.
pub fn assemble<F: Shelf, O: Sink>(alloc: Global, name: &str, shelf: &mut F, out: &mut O) -> Status
    ensures answer { AsmGives (around F.told F.faults O.tells O.taken O.faults shelf.old shelf.new out.old out.new None) name.now result }
    ensures files { files_of (F.told shelf.new) ≡ files_of (F.told shelf.old) }
{
    let mut text = match load(alloc, shelf, name, MOST_TEXT) {
        Ok(text) => text,
        Err(status) => return status,
    };
    let text = text.as_mut_slice();
    let length = match asm_files::assemble(text) {
        Ok(length) => length,
        Err(bad) => return Status::BadText { line: bad.line },
    };
    match put_all(out, &text[..length]) {
        Ok(()) => Status::Done,
        Err(_) => Status::WriteFault,
    }
}
