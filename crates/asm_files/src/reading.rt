//! From a text to the image that it is the listing of.

ghost use Rattle.std.specs.Prelude.{◌≡◌, ◌≢◌, ◌<◌, ◌≤◌, ◌+◌, ◌^◌, ◌++◌, ◌∷◌, [], ℕ, List, length, take, drop, IfOk, IfErr, IfSome, IfNone};
ghost use Rattle.arm_words.specs.Spellings.{IsInRange};
ghost use Rattle.asm_files.specs.Reader.Lines.{first_place, piece_bytes, size, EndsAt, HasPath, Leads};
ghost use Rattle.asm_files.specs.Listings.{tail, whole_lines, IsFirstBad, IsListing};
ghost use Rattle.asm_files.specs.declared.places.LinePlace.{LinePlace};

use crate::places::{LinePlace, Piece};
use arm_words::Spelling;
use asm_lines::read_bytes;
use asm_text::{Set, read_byte, read_start, statement_laws};
use ds_base::Arch;

/// The first line, counted from 1, that no listing has there, or that lacks its line feed; 1 for an empty text.
#[derive(Clone, Copy, PartialEq, Eq, Debug)]
pub struct BadLine {
    /// Its number.
    pub line: u32,
}

fn size(set: Set) -> u8
    ensures { result ≡ size set }
{
    match set {
        Set::Arm => 4,
        Set::Thumb => 2,
    }
}

/// How many bytes stand before the first line feed.
fn find_feed(text: &[u8]) -> Option<usize>
    ensures within { IfSome result (λ end. end < length text.now) }
    ensures lines { IfSome result (λ end. whole_lines text.now ≡ take end text.now ∷ whole_lines (drop (end + 1) text.now)) }
    ensures tail { IfSome result (λ end. tail text.now ≡ tail (drop (end + 1) text.now)) }
    ensures none { IfNone result (whole_lines text.now ≡ []) }
    ensures all { IfNone result (tail text.now ≡ text.now) }
{
    for (i, b) in text.iter().enumerate() {
        if *b == b'\n' {
            return Some(i);
        }
    }
    None
}

/// What a line at a place stands for, and the place after it.
fn read_line(arch: Arch, set: Set, place: LinePlace, line: &[u8]) -> Option<(Piece, LinePlace)>
    ensures found { IfSome result (λ r. Leads arch set place line.now (piece_bytes r.0) r.1) }
    ensures short { IfSome result (λ r. length (piece_bytes r.0) ≤ length line.now + 1) }
    ensures none { IfNone result ((bytes : List ℕ) (to : LinePlace) → Leads arch set place line.now bytes to → ⊥) }
{
    statement_laws();
    if place.left == 0 {
        if let Ok(spelling) = read_bytes(arch, set, place.at, line) {
            let at = place.at.wrapping_add(size(set) as u32);
            return Some((Piece::Number(spelling), LinePlace { at, left: 0 }));
        }
    }
    if place.left >= size(set) - 1 {
        return None;
    }
    let byte = read_byte(line)?;
    let left = place.left + 1;
    Some((Piece::Byte(byte), LinePlace { at: place.at, left }))
}

/// Writes a piece's bytes at a place, and gives the place after them.
#[tactic(auto, unfolding(crate::specs::Reader::Lines::spelling_bytes))]
fn put(piece: Piece, at: usize, text: &mut [u8]) -> usize
    requires { at + length (piece_bytes piece) ≤ length text.old }
    ensures at { result ≡ at + length (piece_bytes piece) }
    ensures front { take result text.new ≡ take at text.old ++ piece_bytes piece }
    ensures rest { (from : ℕ) → result ≤ from → drop from text.new ≡ drop from text.old }
{
    match piece {
        Piece::Number(Spelling::Word(word)) => put_bytes(&word.to_le_bytes(), at, text),
        Piece::Number(Spelling::Half(half)) => put_bytes(&half.to_le_bytes(), at, text),
        Piece::Byte(byte) => put_bytes(&[byte], at, text),
    }
}

fn put_bytes(bytes: &[u8], at: usize, text: &mut [u8]) -> usize
    requires { at + length bytes.now ≤ length text.old }
    ensures at { result ≡ at + length bytes.now }
    ensures front { take result text.new ≡ take at text.old ++ bytes.now }
    ensures rest { (from : ℕ) → result ≤ from → drop from text.new ≡ drop from text.old }
{
    text[at..at + bytes.len()].copy_from_slice(bytes);
    at + bytes.len()
}

/// Reads the lines from `from` on, and puts their bytes at the front of the text.
fn read_lines(
    arch: Arch,
    set: Set,
    start: u32,
    from: usize,
    text: &mut [u8],
) -> Result<usize, BadLine>
    requires room { length text.old < 2 ^ 32 }
    requires from { (1 ≤ from) × (from ≤ length text.old) }
    ensures within { IfOk result (λ n. n ≤ length text.new) }
    ensures ok { IfOk result (λ n. HasPath arch set (first_place start) (whole_lines (drop from text.old)) (take n text.new)) }
    ensures closed { IfOk result (λ n. tail (drop from text.old) ≡ []) }
    ensures bad { IfErr result (λ b. (count : ℕ) × (b.line ≡ count + 2)
        × EndsAt arch set (first_place start) (whole_lines (drop from text.old)) (tail (drop from text.old)) count) }
{
    statement_laws();
    let mut place = LinePlace { at: start, left: 0 };
    let mut pos = from;
    let mut n = 0;
    let mut count = 0;
    while let Some(end) = find_feed(&text[pos..]) {
        let Some((piece, next)) = read_line(arch, set, place, &text[pos..pos + end]) else {
            return Err(BadLine { line: count + 2 });
        };
        n = put(piece, n, text);
        place = next;
        pos += end + 1;
        count += 1;
    }
    if pos < text.len() {
        Err(BadLine { line: count + 2 })
    } else {
        Ok(n)
    }
}

/// Makes a text the image whose listing it is: the image is `text[..n]` for `Ok(n)`. Where it is no listing, its first bad line is
/// told, and the text isn't kept. Nothing is allocated: an image is shorter than its listing, and so it takes the listing's place.
pub fn assemble(text: &mut [u8]) -> Result<usize, BadLine>
    requires { length text.old < 2 ^ 32 }
    ensures ok { IfOk result (λ n. (n ≤ length text.new) × IsListing text.old (take n text.new)) }
    ensures bad { IfErr result (λ b. IsFirstBad text.old b.line) }
{
    let Some(end) = find_feed(text) else {
        return Err(BadLine { line: 1 });
    };
    let Some((arch, set, at)) = read_start(&text[..end]) else {
        return Err(BadLine { line: 1 });
    };
    let n = read_lines(arch, set, at, end + 1, text)?;
    Ok(n)
}
