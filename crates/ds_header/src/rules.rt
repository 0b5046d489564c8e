//! The rules by which a cartridge is accepted. (Our choice.)

ghost use Rattle.std.specs.Prelude.{◌≡◌, ◌≤◌, None, IfNone, length};
ghost use Rattle.ds_header.specs.Groups.{fault_by_groups, file_rules, image_rules};
ghost use Rattle.ds_header.specs.Rules.{fault_of, first_broken, lies_in, lies_within};

use crate::faults::HeaderField::{
    Arm7Entry, Arm7Place, Arm7Rom, Arm9Entry, Arm9Place, Arm9Rom, Short, UnitCode,
};
use crate::faults::{HeaderFault, HeaderField};
use crate::fields::{HEADER, image_fields, unit_code};
use ds_base::{OWN7_BYTES, Proc, SHARED_BYTES};
use ds_places::{MAIN_FIRST, MAIN_LAST, OWN7_FIRST};

/// How many bytes an image has at most.
const LONGEST: u32 = 0x0040_0000;

/// How many bytes the shared work RAM has, and ARM7's own.
const SHARED: u32 = SHARED_BYTES as u32;

const OWN7: u32 = OWN7_BYTES as u32;

/// Whether so many bytes from an address on lie in a range.
fn lies_within(first: u32, past: u32, at: u32, count: u32) -> bool
    ensures { result ≡ lies_within (record { first = first; past = past }) at count }
{
    first <= at && at < past && u64::from(at) + u64::from(count) <= u64::from(past)
}

/// Whether they lie where a processor's image may: in main memory with its mirrors; ARM7's also in the last mirror of the shared
/// work RAM and in its own.
fn lies_in(proc: Proc, at: u32, count: u32) -> bool
    ensures { result ≡ lies_in proc at count }
{
    let main = lies_within(MAIN_FIRST, MAIN_LAST + 1, at, count);
    match proc {
        Proc::Nine => main,
        Proc::Seven => main || lies_within(OWN7_FIRST - SHARED, OWN7_FIRST + OWN7, at, count),
    }
}

/// The first rule of the file itself that is broken.
fn file_fault(file: &[u8]) -> Option<HeaderFault>
    ensures { result ≡ first_broken (file_rules file.now) }
{
    if file.len() < HEADER {
        return Some(HeaderFault {
            field: Short,
            value: file.len() as u32,
        });
    }
    let code = unit_code(file);
    if code != 0 && code != 2 {
        return Some(HeaderFault {
            field: UnitCode,
            value: u32::from(code),
        });
    }
    None
}

/// The first rule of a processor's image that is broken, with these names for the rules.
fn image_fault(
    file: &[u8],
    proc: Proc,
    rom: HeaderField,
    place: HeaderField,
    entry: HeaderField,
) -> Option<HeaderFault>
    requires { 512 ≤ length file.now }
    ensures { result ≡ first_broken (image_rules rom place entry file.now proc) }
{
    let image = image_fields(file, proc);
    let past = u64::from(image.offset) + u64::from(image.length);
    if image.length > LONGEST || past > file.len() as u64 {
        return Some(HeaderFault {
            field: rom,
            value: image.offset,
        });
    }
    if !lies_in(proc, image.place, image.length) {
        return Some(HeaderFault {
            field: place,
            value: image.place,
        });
    }
    if image.entry % 4 != 0 || !lies_in(proc, image.entry, 0) {
        return Some(HeaderFault {
            field: entry,
            value: image.entry,
        });
    }
    None
}

/// The first field that breaks its rule, with its value.
#[tactic(auto, using(crate::proofs::Accepted::by_groups))]
pub(crate) fn fault(file: &[u8]) -> Option<HeaderFault>
    ensures { result ≡ fault_of file.now }
{
    fault_in_groups(file)
}

fn fault_in_groups(file: &[u8]) -> Option<HeaderFault>
    ensures { result ≡ fault_by_groups file.now }
{
    if let Some(fault) = file_fault(file) {
        return Some(fault);
    }
    if let Some(fault) = image_fault(file, Proc::Nine, Arm9Rom, Arm9Place, Arm9Entry) {
        return Some(fault);
    }
    image_fault(file, Proc::Seven, Arm7Rom, Arm7Place, Arm7Entry)
}
