//! Finding and reading a file, a cartridge, a key script, the files of a run, and those of a run that goes on from a saved state.

ghost use Rattle.std.specs.Prelude.{◌≡◌, ◌≤◌, ◌<◌, ◌^◌, length, IfOk, IfErr, Some, option_map};
ghost use Rattle.ds_io.specs.Faults.{Rose};
ghost use Rattle.ds_io.specs.Shelves.{files_of};
ghost use Rattle.ds_header.specs.Rules.{IsAccepted};
ghost use Rattle.nds_words.specs.Scripts.{IsScript};
ghost use Rattle.nds_answers.specs.Inside.{RefusesBytes, RefusesText};
ghost use Rattle.nds_answers.specs.Loads.{IsCart, IsFileRead, AreKeys, Refuses, RefusesCart, RefusesFiles, RefusesRun, RefusesScript, most_script, most_state};

use crate::statuses::{Ended, Status};
use ds_base::Keys;
use ds_header::Cart;
use ds_io::{ReadFault, Shelf, read_all};
use nds_words::{ScriptFault, read_script};
use std::alloc::Global;

/// The greatest length of a cartridge, in bytes.
const MOST_BYTES: usize = 33_554_432;

/// The greatest length of a key script, in bytes.
const MOST_SCRIPT: usize = 4_194_304;

/// The greatest length of a saved state's file, in bytes.
const MOST_STATE: usize = 8_388_608;

/// The whole bytes of a file, or the status that refuses it.
#[tactic(auto, using(crate::proofs::Loading::all_is_file, crate::proofs::Loading::long_is_file, crate::proofs::Loading::finding_keeps))]
pub fn load<F: Shelf>(
    alloc: Global,
    shelf: &mut F,
    name: &str,
    limit: usize,
) -> Result<Vec<u8>, Status>
    requires { limit < 2 ^ 62 }
    ensures ok { IfOk result (λ v. IsFileRead (files_of (F.told shelf.old)) name.now limit v.items) }
    ensures err { IfErr result (Refuses (files_of (F.told shelf.old)) (Rose (F.faults shelf.old) (F.faults shelf.new)) name.now limit) }
    ensures later { F.faults shelf.old ≤ F.faults shelf.new }
    ensures files { files_of (F.told shelf.new) ≡ files_of (F.told shelf.old) }
{
    match shelf.find(name) {
        Err(_) => return Err(Status::ReadFault),
        Ok(false) => return Err(Status::NoFile),
        Ok(true) => {}
    }
    match read_all(alloc, shelf, limit) {
        Ok(bytes) => Ok(bytes),
        Err(ReadFault::NoMemory) => Err(Status::NoMemory),
        Err(ReadFault::Failed) => Err(Status::ReadFault),
        Err(ReadFault::TooLong) => Err(Status::TooLong),
    }
}

/// The cartridge that a file is, or the status that refuses it.
pub fn load_cart<F: Shelf>(alloc: Global, shelf: &mut F, name: &str) -> Result<Cart, Status>
    ensures ok { IfOk result (IsCart (files_of (F.told shelf.old)) name.now) }
    ensures err { IfErr result (RefusesCart (files_of (F.told shelf.old)) (Rose (F.faults shelf.old) (F.faults shelf.new)) name.now) }
    ensures later { F.faults shelf.old ≤ F.faults shelf.new }
    ensures files { files_of (F.told shelf.new) ≡ files_of (F.told shelf.old) }
{
    let bytes = load(alloc, shelf, name, MOST_BYTES)?;
    cart_of(bytes)
}

/// The cartridge that the bytes of a file are, or the status that refuses it.
fn cart_of(bytes: Vec<u8>) -> Result<Cart, Status>
    ensures ok { IfOk result (λ cart. (cart ≡ bytes.items) × IsAccepted bytes.items) }
    ensures err { IfErr result (RefusesBytes bytes.items) }
{
    match Cart::read(bytes) {
        Ok(cart) => Ok(cart),
        Err(fault) => Err(Status::BadHeader(fault)),
    }
}

/// The keys whose script a file is, or the status that refuses it.
fn load_script<F: Shelf>(alloc: Global, shelf: &mut F, name: &str) -> Result<Keys, Status>
    ensures ok { IfOk result (AreKeys (files_of (F.told shelf.old)) (Some name.now)) }
    ensures err { IfErr result (RefusesScript (files_of (F.told shelf.old)) (Rose (F.faults shelf.old) (F.faults shelf.new)) name.now) }
    ensures later { F.faults shelf.old ≤ F.faults shelf.new }
    ensures files { files_of (F.told shelf.new) ≡ files_of (F.told shelf.old) }
{
    let text = load(alloc, shelf, name, MOST_SCRIPT)?;
    keys_of(alloc, text.as_slice())
}

/// The keys whose script a text is, or the status that refuses it.
fn keys_of(alloc: Global, text: &[u8]) -> Result<Keys, Status>
    requires { length text.now ≤ most_script }
    ensures ok { IfOk result (IsScript text.now) }
    ensures err { IfErr result (RefusesText text.now) }
{
    match read_script(alloc, text) {
        Ok(keys) => Ok(keys),
        Err(ScriptFault::NoMemory) => Err(Status::NoMemory),
        Err(ScriptFault::Bad { line, column }) => Err(Status::BadScript { line, column }),
    }
}

/// The cartridge and the keys of a run, or how the run ends without them. The script is looked for once the cartridge is accepted.
pub fn load_run<'a, F: Shelf>(
    alloc: Global,
    shelf: &mut F,
    cart: &'a str,
    keys: Option<&'a str>,
) -> Result<(Cart, Keys), Ended<'a>>
    ensures cart { IfOk result (λ both. IsCart (files_of (F.told shelf.old)) cart.entry.now both.0) }
    ensures keys { IfOk result (λ both. AreKeys (files_of (F.told shelf.old)) (option_map (λ name. name.now) keys.entry) both.1) }
    ensures err { IfErr result
        (λ ended. RefusesRun (files_of (F.told shelf.old)) (Rose (F.faults shelf.old) (F.faults shelf.new)) cart.entry.now
        (option_map (λ name. name.now) keys.entry) ended.status ended.file.now) }
    ensures files { files_of (F.told shelf.new) ≡ files_of (F.told shelf.old) }
{
    let file = match load_cart(alloc, shelf, cart) {
        Ok(file) => file,
        Err(status) => return Err(Ended { status, file: cart }),
    };
    let Some(name) = keys else {
        return Ok((file, Keys::new(alloc)));
    };
    match load_script(alloc, shelf, name) {
        Ok(lines) => Ok((file, lines)),
        Err(status) => Err(Ended { status, file: name }),
    }
}

/// The bytes of a saved state's file, and the cartridge and the keys of the run that goes on from it; or how the run ends without them. The cartridge
/// is looked for once the state's file is read. Whether its bytes are a state isn't asked here.
pub fn load_saved<'a, F: Shelf>(
    alloc: Global,
    shelf: &mut F,
    state: &'a str,
    cart: &'a str,
    keys: Option<&'a str>,
) -> Result<(Vec<u8>, Cart, Keys), Ended<'a>>
    ensures state { IfOk result (λ all. IsFileRead (files_of (F.told shelf.old)) state.entry.now most_state all.0.items) }
    ensures cart { IfOk result (λ all. IsCart (files_of (F.told shelf.old)) cart.entry.now all.1) }
    ensures keys { IfOk result (λ all. AreKeys (files_of (F.told shelf.old)) (option_map (λ name. name.now) keys.entry) all.2) }
    ensures err { IfErr result
        (λ ended. RefusesFiles (files_of (F.told shelf.old)) (Rose (F.faults shelf.old) (F.faults shelf.new)) state.entry.now cart.entry.now
        (option_map (λ name. name.now) keys.entry) ended.status ended.file.now) }
    ensures files { files_of (F.told shelf.new) ≡ files_of (F.told shelf.old) }
{
    let bytes = match load(alloc, shelf, state, MOST_STATE) {
        Ok(bytes) => bytes,
        Err(status) => return Err(Ended {
            status,
            file: state,
        }),
    };
    match load_run(alloc, shelf, cart, keys) {
        Ok((file, lines)) => Ok((bytes, file, lines)),
        Err(ended) => Err(ended),
    }
}
