//! Cartridges that are made from a number, to have something to run: `specs/Demos.antt` says which.

ghost use Rattle.std.specs.Prelude.{◌≡◌, ◌≤◌, ◌<◌, ◌++◌, flat_map, IfOk, slice_index_or};
ghost use Rattle.byteorder.specs.Endian.{little_bytes};
ghost use Rattle.ds_header.specs.Rules.{IsAccepted};
ghost use Rattle.nds_plays.specs.Demos.{draw, drawn, operations, body_word, body, demo_file};

use std::alloc::{AllocError, Global};

/// How many bytes a demo's file has.
const FILE_BYTES: usize = 0x240C;

/// The numbers of the header that aren't 0.
const FIELDS: [u32; 8] = [
    0x200, 0x200_0000, 0x200_0000, 0x1028, 0x1400, 0x380_0000, 0x380_0000, 0x100C,
];

/// What ARM9 does before its body.
const NINE_START: [u32; 10] = [
    0xE3A0_8402,
    0xE3A0_9000,
    0xE3A0_A622,
    0xE598_0028,
    0xE589_0000,
    0xE288_8004,
    0xE289_9004,
    0xE359_0A01,
    0x1AFF_FFF9,
    0xE3A0_F000,
];

/// What ARM7 does before its body.
const SEVEN_START: [u32; 3] = [0xE3A0_950E, 0xE289_9901, 0xE3A0_A622];

/// One draw.
fn draw(s: u32) -> u32
    ensures { result ≡ draw s }
{
    s.wrapping_mul(1_664_525).wrapping_add(1_013_904_223)
}

/// The operation of a number among those that are drawn.
fn operation(number: u32) -> u32
    requires { number < 8 }
    ensures value { result ≡ slice_index_or operations number 0 }
    ensures range { result ≤ 14 }
{
    match number {
        0..=5 => number,
        6 => 12,
        _ => 14,
    }
}

/// The word at a place of a body, by the draw for it.
fn body_word(place: u32, s: u32) -> u32
    requires { place < 1024 }
    ensures { result ≡ body_word place s }
{
    let x = s >> 8;
    let rd = x % 8;
    let rn = (x >> 3) % 8;
    let rm = (x >> 6) % 8;
    let operation = operation((x >> 9) % 8);
    if place == 1023 {
        0xEAFF_FBFF
    } else if place % 256 == 127 {
        0xE58A_0000 + 0x1000 * rd + 4 * place
    } else if place % 16 == 15 {
        0xE589_0000 + 0x1000 * rd + 4 * place
    } else {
        0xE010_0000 + 0x20_0000 * operation + 0x1_0000 * rn + 0x1000 * rd + rm
    }
}

/// Puts words at the end of a file.
fn put_words(file: &mut Vec<u8>, words: &[u32]) -> Result<(), AllocError>
    ensures { IfOk result (λ _. file.new.items ≡ file.old.items ++ flat_map (little_bytes 4) words.now) }
{
    for word in words {
        file.extend_from_slice(&word.to_le_bytes())?;
    }
    Ok(())
}

/// Puts a body that is drawn from a number at the end of a file, and gives the number after its draws.
fn put_body(file: &mut Vec<u8>, number: u32) -> Result<u32, AllocError>
    ensures { IfOk result (λ after. (file.new.items ≡ file.old.items ++ flat_map (little_bytes 4) (body number)) × (after ≡ drawn number 1024)) }
{
    let mut s = number;
    for place in 0..1024 {
        s = draw(s);
        file.extend_from_slice(&body_word(place, s).to_le_bytes())?;
    }
    Ok(s)
}

/// The cartridge's file that is made from a number. It is accepted as a cartridge. An error is want of memory.
pub fn demo_cart(alloc: Global, number: u32) -> Result<Vec<u8>, AllocError>
    ensures file { IfOk result (λ file. file.items ≡ demo_file number) }
    ensures accepted { IfOk result (λ file. IsAccepted file.items) }
{
    let mut file = Vec::with_capacity(alloc, FILE_BYTES)?;
    put_words(&mut file, &[0; 8])?;
    put_words(&mut file, &FIELDS)?;
    put_words(&mut file, &[0; 112])?;
    put_words(&mut file, &NINE_START)?;
    let after = put_body(&mut file, number)?;
    put_words(&mut file, &[0; 118])?;
    put_words(&mut file, &SEVEN_START)?;
    put_body(&mut file, after)?;
    Ok(file)
}
