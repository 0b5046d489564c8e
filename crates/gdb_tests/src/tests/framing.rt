//! Bytes to packets. The sums are by hand: `g` is 67h, `m0,4` is 6Dh + 30h + 2Ch + 34h = FDh.

use gdb_packets::{Framer, Heard};
use std::alloc::{AllocError, Global};

/// The last thing that some bytes bring, and whether the body kept is this one.
fn last_of(alloc: Global, bytes: &[u8], body: &[u8]) -> Result<(Heard, bool), AllocError> {
    let mut framer = Framer::new(alloc);
    let mut last = Heard::Nothing;
    for byte in bytes {
        last = framer.hear(*byte)?;
    }
    Ok((last, framer.body() == body))
}

#[test]
fn packets_are_taken_by_their_sums(rt: HostRuntime) -> Result<(), AllocError> {
    let rows: [(&[u8], Heard, &[u8]); 14] = [
        (b"$g#67", Heard::Packet, b"g"),
        (b"+$m0,4#fd", Heard::Packet, b"m0,4"),
        (b"$m0,4#FD", Heard::Packet, b"m0,4"),
        (b"$#00", Heard::Packet, b""),
        (b"$g#68", Heard::Broken, b"g"),
        (b"$g#6x", Heard::Broken, b"g"),
        (b"$g#6", Heard::Nothing, b"g"),
        (b"$g", Heard::Nothing, b"g"),
        (b"$mxx$g#67", Heard::Packet, b"g"),
        (b"$a}\x03b#43", Heard::Packet, b"a#b"),
        (b"$a}]b#9d", Heard::Packet, b"a}b"),
        (b"\x03", Heard::Interrupt, b""),
        (b"-", Heard::Again, b""),
        (b"++xyz#00", Heard::Nothing, b""),
    ];
    for (bytes, heard, body) in rows {
        assert!(rt;
            last_of(rt.alloc(), bytes, body)? == (heard, true),
            "{bytes:?}"
        );
    }
    Ok(())
}
