//! The numbers of a cartridge's header (GBATEK, "DS Cartridge Header").

ghost use Rattle.std.specs.Prelude.{◌≡◌, ◌≤◌, ◌+◌, length};
ghost use Rattle.ds_header.specs.Fields.{image_entry, field_at, image_at, image_length, field_number, image_offset, image_place, unit_code_of};

use byteorder::{ByteOrder, LittleEndian};
use ds_base::Proc;

/// The bytes of a header. A shorter file is no cartridge.
pub(crate) const HEADER: usize = 512;

/// Where the title ends, which begins the header.
pub(crate) const TITLE: usize = 12;

const UNIT_CODE: usize = 0x012;

/// What the header says of one processor's image.
#[derive(Clone, Copy)]
pub(crate) struct ImageFields {
    /// Where it begins in the file.
    pub offset: u32,
    /// Where the processor begins to run.
    pub entry: u32,
    /// Where it goes in memory.
    pub place: u32,
    /// How many bytes it has.
    pub length: u32,
}

/// The word of the header that begins at a byte of it, the lowest byte first.
#[tactic(auto, unfolding(crate::specs::Fields::field_number))]
fn word(file: &[u8], at: usize) -> u32
    requires { at + 4 ≤ length file.now }
    ensures { result ≡ field_number file.now (field_at at 4) }
{
    LittleEndian::read_u32(&file[at..])
}

/// The file's unit code.
#[tactic(auto, unfolding(crate::specs::Fields::field_number))]
pub(crate) fn unit_code(file: &[u8]) -> u8
    requires { 512 ≤ length file.now }
    ensures { result ≡ unit_code_of file.now }
{
    file[UNIT_CODE]
}

/// Where the header's four words on a processor's image begin.
fn image_at(proc: Proc) -> usize
    ensures at { result ≡ image_at proc }
    ensures early { result ≤ 0x030 }
{
    match proc {
        Proc::Nine => 0x020,
        Proc::Seven => 0x030,
    }
}

/// What the file's header says of a processor's image.
pub(crate) fn image_fields(file: &[u8], proc: Proc) -> ImageFields
    requires { 512 ≤ length file.now }
    ensures offset { result.offset ≡ image_offset file.now proc }
    ensures entry { result.entry ≡ image_entry file.now proc }
    ensures place { result.place ≡ image_place file.now proc }
    ensures length { result.length ≡ image_length file.now proc }
{
    let at = image_at(proc);
    ImageFields {
        offset: word(file, at),
        entry: word(file, at + 0x4),
        place: word(file, at + 0x8),
        length: word(file, at + 0xC),
    }
}
