//! The lines of a listing that are no statements: its first line, and the bytes after the last whole word or half.

ghost use Rattle.std.specs.Prelude.{◌≡◌, ◌<◌, ◌≤◌, ◌^◌, ◌++◌, ℕ, IfSome, Some, length};
ghost use Rattle.ds_base.specs.declared.processors.Arch.{Arch};
ghost use Rattle.asm_text.specs.Reader.Starts.{start_address_at, arch_at, listed_byte_at, names_thumb, set_at};
ghost use Rattle.asm_text.specs.Starts.{raw_byte, start, start_name};
ghost use Rattle.asm_text.specs.declared.sets.Set.{Set};

use crate::lines::{Line, same};
use crate::parts::hex;
use crate::reading::parts::{byte, hex_at, past};
use crate::sets::Set;
use ds_base::{Arch, hex_digits};

fn start_name(arch: Arch, set: Set) -> &'static str
    ensures name { result.now ≡ start_name arch set }
    ensures room { length result.now ≤ 8 }
{
    match (arch, set) {
        (Arch::V5, Set::Arm) => ".arm9 ",
        (Arch::V5, Set::Thumb) => ".thumb9 ",
        (Arch::V4, Set::Arm) => ".arm7 ",
        (Arch::V4, Set::Thumb) => ".thumb7 ",
    }
}

/// Makes `into` the first line of the listing of an image at address `at`, without its line feed, whatever it was before:
/// `.arm9 0x2000000`, `.thumb9`, `.arm7` or `.thumb7`.
pub fn list_start(arch: Arch, set: Set, at: u32, into: &mut Line)
    ensures { into.new ≡ start arch set at }
{
    into.clear();
    into.put_text(start_name(arch, set));
    hex(at, into);
}

/// Makes `into` the line of a byte that belongs to no word or half, whatever it was before: `.byte 0x` and two digits.
pub fn list_byte(byte: u8, into: &mut Line)
    ensures { into.new ≡ raw_byte byte }
{
    into.clear();
    into.put_text(".byte 0x");
    into.put_bytes(&hex_digits(byte as u32)[6..]);
}

fn start_at(text: &[u8]) -> (Arch, Set, u32)
    ensures arch { result.0 ≡ arch_at text.now }
    ensures set { result.1 ≡ set_at text.now }
    ensures at { result.2 ≡ start_address_at text.now }
{
    let (set, digit) = if byte(text, 4) == b'm' {
        (Set::Thumb, 6)
    } else {
        (Set::Arm, 4)
    };
    let arch = if byte(text, digit) == b'9' {
        Arch::V5
    } else {
        Arch::V4
    };
    let (at, _) = hex_at(past(text, digit + 2));
    (arch, set, at)
}

/// What the first line of a listing says, which `list_start` writes: the processor's architecture, the set and the address; None
/// for every other text.
pub fn read_start(text: &[u8]) -> Option<(Arch, Set, u32)>
    ensures found { IfSome result (λ r. (r.2 < 2 ^ 32) × (text.now ≡ start r.0 r.1 r.2)) }
    ensures own { (arch : Arch) (set : Set) (at : ℕ) → at < 2 ^ 32 → text.now ≡ start arch set at → result ≡ Some (arch, set, at) }
{
    let (arch, set, at) = start_at(text);
    let mut line = Line::new();
    list_start(arch, set, at, &mut line);
    if same(line.bytes(), text) {
        Some((arch, set, at))
    } else {
        None
    }
}

/// The byte whose line, as `list_byte` writes it, a text is; None for every other text.
pub fn read_byte(text: &[u8]) -> Option<u8>
    ensures found { IfSome result (λ b. text.now ≡ raw_byte b) }
    ensures own { (byte : ℕ) → byte < 2 ^ 8 → text.now ≡ raw_byte byte → result ≡ Some byte }
{
    let (number, _) = hex_at(past(text, 6));
    let byte = (number % 256) as u8;
    let mut line = Line::new();
    list_byte(byte, &mut line);
    if same(line.bytes(), text) {
        Some(byte)
    } else {
        None
    }
}
