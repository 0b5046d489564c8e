//! Answers to bytes: sums and escapes by hand. `OK` is 4Fh + 4Bh = 9Ah; `#` goes out as `}` and 03h, which add 7Dh + 3 = 80h.

use gdb_packets::Answer;
use std::alloc::AllocError;

#[test]
fn bodies_go_out_with_sums_and_escapes(rt: HostRuntime) -> Result<(), AllocError> {
    let rows: [(&[u8], &[u8]); 5] = [
        (b"", b"$#00"),
        (b"OK", b"$OK#9a"),
        (b"E01", b"$E01#a6"),
        (b"#", b"$}\x03#80"),
        (b"a}b", b"$a}]b#9d"),
    ];
    for (body, packet) in rows {
        let mut answer = Answer::new(rt.alloc());
        answer.put_packet(body)?;
        assert!(rt; answer.bytes() == packet, "{body:?}");
    }
    Ok(())
}

#[test]
fn numbers_go_out_in_the_order_of_memory(rt: HostRuntime) -> Result<(), AllocError> {
    let mut answer = Answer::new(rt.alloc());
    answer.put_word(0x1234_abcd)?;
    answer.put_address(0x1234_abcd)?;
    answer.put_number(1_120_380)?;
    answer.put_text(b"O\n")?;
    assert!(rt; answer.bytes() == b"cdab34121234abcd11203804f0a".as_slice());
    Ok(())
}
