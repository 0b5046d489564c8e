//! Listings written by hand from the ARM manual's encodings, both ways, and texts that are none.

use asm_files::{BadLine, assemble, write_listing};
use asm_text::Set;
use ds_base::Arch;
use ds_io::{Calls, MemSink, QuietSink};
use std::alloc::{AllocError, Global};
use std::process::Abort;

/// An image's listing is a text, and the text's image is it.
fn both_ways(
    rt: &impl Abort,
    alloc: Global,
    arch: Arch,
    set: Set,
    at: u32,
    image: &[u8],
    text: &str,
) -> Result<(), AllocError> {
    let mut sink = QuietSink::new(alloc, 6_000)?;
    assert!(rt; write_listing(arch, set, at, image, &mut sink).is_ok());
    assert!(rt; sink.bytes() == text.as_bytes());
    reads(rt, alloc, text, image)
}

fn reads(rt: &impl Abort, alloc: Global, text: &str, image: &[u8]) -> Result<(), AllocError> {
    let mut place = Vec::from_slice(alloc, text.as_bytes())?;
    assert!(rt; place.len() < 0x1_0000_0000);
    let read = assemble(place.as_mut_slice());
    assert!(rt; read == Ok(image.len()));
    assert!(rt; &place.as_slice()[..image.len()] == image);
    Ok(())
}

fn is_bad(rt: &impl Abort, alloc: Global, text: &str, line: u32) -> Result<(), AllocError> {
    let mut place = Vec::from_slice(alloc, text.as_bytes())?;
    assert!(rt; place.len() < 0x1_0000_0000);
    let read = assemble(place.as_mut_slice());
    assert!(rt; read == Err(BadLine { line }), "{text}");
    Ok(())
}

#[test]
fn words_both_ways(rt: HostRuntime) -> Result<(), AllocError> {
    let rows: [(Arch, u32, &[u8], &str); 10] = [
        (
            Arch::V5,
            0x200_0000,
            &[
                1, 0, 0xA0, 0xE3, 1, 0x0C, 0xA0, 0xE3, 0x40, 0x0F, 0xA0, 0xE3,
            ],
            ".arm9 0x2000000\nmov r0, #0x1\nmov r0, #0x100\n.word 0xe3a00f40\n",
        ),
        (Arch::V5, 0x200_0000, &[], ".arm9 0x2000000\n"),
        (Arch::V4, 0, &[], ".arm7 0x0\n"),
        (Arch::V5, 0, &[0x0A], ".arm9 0x0\n.byte 0x0a\n"),
        (
            Arch::V5,
            0,
            &[0x0A, 0x0D],
            ".arm9 0x0\n.byte 0x0a\n.byte 0x0d\n",
        ),
        (
            Arch::V5,
            0x10,
            &[1, 0, 0xA0, 0xE3, 0x12, 0xAB, 0xFF],
            ".arm9 0x10\nmov r0, #0x1\n.byte 0x12\n.byte 0xab\n.byte 0xff\n",
        ),
        (
            Arch::V5,
            0xFFFF_FFF8,
            &[
                0xFE, 0xFF, 0xFF, 0xEA, 0xFE, 0xFF, 0xFF, 0xEA, 0xFE, 0xFF, 0xFF, 0xEA,
            ],
            ".arm9 0xfffffff8\nb 0xfffffff8\nb 0xfffffffc\nb 0x0\n",
        ),
        // an image may lie at any address, and its words with it
        (
            Arch::V4,
            3,
            &[0xFE, 0xFF, 0xFF, 0xEA, 0xFE, 0xFF, 0xFF, 0xEA],
            ".arm7 0x3\nb 0x3\nb 0x7\n",
        ),
        (
            Arch::V5,
            0x238_0000,
            &[0x12, 0x1F, 0x6F, 0xE1],
            ".arm9 0x2380000\nclz r1, r2\n",
        ),
        (
            Arch::V4,
            0x238_0000,
            &[0x12, 0x1F, 0x6F, 0xE1],
            ".arm7 0x2380000\n.word 0xe16f1f12\n",
        ),
    ];
    for (arch, at, image, text) in rows {
        both_ways(&rt, rt.alloc(), arch, Set::Arm, at, image, text)?;
    }
    Ok(())
}

#[test]
fn halves_both_ways(rt: HostRuntime) -> Result<(), AllocError> {
    let rows: [(Arch, u32, &[u8], &str); 7] = [
        (
            Arch::V5,
            0x200_0000,
            &[0xC0, 0x46, 0x70, 0x47, 0x70, 0xB5, 0x12],
            ".thumb9 0x2000000\nmovh r8, r8\nbx r14\npush {r4,r5,r6,r14}\n.byte 0x12\n",
        ),
        (
            Arch::V4,
            0xFFFF_FFFC,
            &[0xFE, 0xE7, 0xFE, 0xE7, 0xFE, 0xE7],
            ".thumb7 0xfffffffc\nb 0xfffffffc\nb 0xfffffffe\nb 0x0\n",
        ),
        (
            Arch::V4,
            1,
            &[0xFE, 0xE7, 0xFE, 0xE7],
            ".thumb7 0x1\nb 0x1\nb 0x3\n",
        ),
        (Arch::V5, 0x200_0000, &[], ".thumb9 0x2000000\n"),
        (Arch::V4, 0, &[0xAB], ".thumb7 0x0\n.byte 0xab\n"),
        (Arch::V5, 0, &[0xA0, 0x47], ".thumb9 0x0\nblx r4\n"),
        (Arch::V4, 0, &[0xA0, 0x47], ".thumb7 0x0\n.half 0x47a0\n"),
    ];
    for (arch, at, image, text) in rows {
        both_ways(&rt, rt.alloc(), arch, Set::Thumb, at, image, text)?;
    }
    Ok(())
}

/// The listing of 300 words of zeros, each of which is `andeq r0, r0, r0`. It doesn't fit on one page.
fn text_of_zeros(alloc: Global) -> Result<String, AllocError> {
    let mut text = String::from_str(alloc, ".arm7 0x0\n")?;
    for _ in 0..300 {
        text.push_str("andeq r0, r0, r0\n")?;
    }
    Ok(text)
}

/// A bad line after the 301 of it is the 302nd.
#[test]
fn a_listing_longer_than_a_page(rt: HostRuntime) -> Result<(), AllocError> {
    let alloc = rt.alloc();
    let mut text = text_of_zeros(alloc)?;
    both_ways(&rt, alloc, Arch::V4, Set::Arm, 0, &[0; 1_200], &text)?;
    text.push_str("andeq r0, r0\n")?;
    is_bad(&rt, alloc, &text, 302)
}

/// The call with this number.
fn only(alloc: Global, call: u64) -> Result<Calls, AllocError> {
    let mut calls = Calls::new(alloc);
    if 0 < call && call < u64::MAX {
        calls.push(call)?;
    }
    Ok(calls)
}

/// Where a page isn't taken, the first of two or the last, only what went before it is written.
#[test]
fn a_page_that_is_not_taken_ends_a_listing(rt: HostRuntime) -> Result<(), AllocError> {
    let alloc = rt.alloc();
    let text = text_of_zeros(alloc)?;
    for call in 1..3u64 {
        let mut sink = MemSink::new(alloc, only(alloc, call)?, 6_000)?;
        let written = write_listing(Arch::V4, Set::Arm, 0, &[0; 1_200], &mut sink);
        assert!(rt; written.is_err(), "{call}");
        assert!(rt; text.as_bytes().starts_with(sink.bytes()), "{call}");
        assert!(rt; sink.bytes().len() < 5_110, "{call}");
        assert!(rt; sink.bytes().is_empty() == (call == 1), "{call}");
    }
    Ok(())
}

#[test]
fn first_bad_lines(rt: HostRuntime) -> Result<(), AllocError> {
    let rows = [
        ("", 1),
        ("\n", 1),
        (".arm9 0x02000000\n", 1),
        (".arm9 0x2000000", 1),
        (".arm9 0x2000000 \n", 1),
        (".arm9 0x2000000\r\n", 1),
        (".arm9  0x2000000\n", 1),
        (".arm9 0xFF\n", 1),
        (".arm9 0x\n", 1),
        (".arm9 0x100000000\n", 1),
        (".arm8 0x0\n", 1),
        (
            ".arm9 0x000000000000000000000000000000000000000000000000000000000000000000000000000000000000000000000000000000000000002000000\nmov r0, #0x1\n",
            1,
        ),
        // a long first line whose beginning would be one, and a rest that would go on
        (
            ".arm9 0x12345678888888888888888888888888888888888888888888888888888888888888888888888888888888888888888888888888888\nmov r0, #0x1\n",
            1,
        ),
        (
            ".thumb7 0x12345678                                                                                                    \n.byte 0x01\n",
            1,
        ),
        (
            ".arm9 0x0                                                                                                    \n",
            1,
        ),
        (
            ".arm9 0x12345678 .arm9 0x12345678 mov r0, #0x1 mov r0, #0x1 mov r0, #0x1 mov r0, #0x1 mov r0, #0x1 mov r0, #0x1\nmov r0, #0x1\n",
            1,
        ),
        (".arm9 0x0\n\n", 2),
        (".arm9 0x0\n\nmov r0, #0x1\n", 2),
        (".arm9 0x0\nmov r0, #0x1\n\n", 3),
        (".arm9 0x0\n.byte 0x12\n\n", 3),
        (".arm9 0x2000000\n.word 0xe3a00001\n", 2),
        (".arm9 0x2000000\nmov r0, #0x1", 2),
        (".arm9 0x2000000\nmov r0, #0x1\nmov r0, #0x1", 3),
        (".thumb9 0x0\n.byte 0x12", 2),
        // nothing may stand after the last line feed, and of two bad lines the first is told
        (".arm9 0x0\n ", 2),
        (".arm9 0x0\n\0", 2),
        (".arm9 0x0\n\0\n", 2),
        (".arm9 0x0\nmov\nmov r0, #0x1\nmov\n", 2),
        (".arm9 0x0\nmov\nmov r0, #0x1\n.byte", 2),
        (".arm8 0x0\nmov r0, #0x1", 1),
        (".arm9 0x2000000\nmov r0, #0x1\r\n", 2),
        (".thumb9 0x0\n.byte 0x12\r\n", 2),
        (".thumb9 0x0\n.byte 0x1\n", 2),
        (".thumb9 0x0\n.byte 0xAB\n", 2),
        (
            ".arm9 0x0\nmov r0, #0x000000000000000000000000000000000000000000000000000000000000000000000000000000000000000000000000000000000000001\n",
            2,
        ),
        (".arm9 0x2000000\n.byte 0x01\nmov r0, #0x1\n", 3),
        (
            ".arm9 0x0\n.byte 0x00\n.byte 0x01\n.byte 0x02\n.byte 0x03\n",
            5,
        ),
        (".thumb7 0x0\n.byte 0x00\n.byte 0x01\n", 3),
    ];
    for (text, line) in rows {
        is_bad(&rt, rt.alloc(), text, line)?;
    }
    Ok(())
}

/// Lines that another listing has there, or that stand elsewhere in one; and after a byte's line there is none but a byte's.
#[test]
fn lines_out_of_place(rt: HostRuntime) -> Result<(), AllocError> {
    let rows = [
        (".arm9 0x0\n.byte 0x00\n.byte 0x01\nmov r0, #0x1\n", 4),
        (
            ".arm9 0x0\n.byte 0x00\n.byte 0x01\n.byte 0x02\nmov r0, #0x1\n",
            5,
        ),
        (".arm9 0x0\n.byte 0x00\n.word 0xe3a00f40\n", 3),
        (".thumb9 0x0\n.byte 0x12\nbx r14\n", 3),
        (
            ".arm9 0x0\nmov r0, #0x1\n.byte 0x00\n.byte 0x01\n.byte 0x02\n.byte 0x03\n",
            6,
        ),
        (".thumb7 0x0\nbx r14\n.byte 0x00\n.byte 0x01\n", 4),
        // another processor's
        (".arm7 0x0\nclz r1, r2\n", 2),
        (".arm9 0x0\n.word 0xe16f1f12\n", 2),
        // the other set's
        (".arm9 0x0\nmovh r8, r8\n", 2),
        (".arm9 0x0\n.half 0xeaff\n", 2),
        (".thumb9 0x0\nclz r1, r2\n", 2),
        (".thumb9 0x0\n.word 0xe3a00f40\n", 2),
        // a first line, and a blank one before it
        (".arm9 0x0\n.arm9 0x0\n", 2),
        ("\n.arm9 0x0\n", 1),
        // a carriage return ends no line
        (".arm9 0x0\rmov r0, #0x1\n", 1),
        (" .arm9 0x0\n", 1),
        (".ARM9 0x0\n", 1),
        (".arm9 0x0\n mov r0, #0x1\n", 2),
        (".arm9 0x0\nmov r0, #0x1 \n", 2),
        (".arm9 0x0\n.byte 0x12 \n", 2),
        (".arm9 0x0\nMOV r0, #0x1\n", 2),
        (".arm9 0x0\n; mov r0, #0x1\n", 2),
    ];
    for (text, line) in rows {
        is_bad(&rt, rt.alloc(), text, line)?;
    }
    Ok(())
}
