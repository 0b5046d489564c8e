//! Cartridges at the edges of each rule. The expected faults are worked by hand from the rules.

use HeaderField::{Arm7Entry, Arm7Place, Arm7Rom, Arm9Entry, Arm9Place, Arm9Rom, Short, UnitCode};
use ds_base::Proc;
use ds_header::{Cart, HeaderFault, HeaderField};
use std::alloc::{AllocError, Global};
use std::process::Abort;

/// Both images are the last word of the shortest cartridge, and begin to run where they are put.
const WORDS: [(u16, u32); 8] = [
    (0x020, 0x1fc),
    (0x024, 0x0200_0000),
    (0x028, 0x0200_0000),
    (0x02c, 4),
    (0x030, 0x1fc),
    (0x034, 0x0210_0000),
    (0x038, 0x0210_0000),
    (0x03c, 4),
];

/// A line of a table: a file of so many bytes with this header, but for two words that are changed, and what refuses it.
#[derive(Clone, Copy)]
enum Line {
    /// It is accepted.
    Takes(usize, u16, u32, u16, u32),
    /// It is refused for this field, with this value.
    Refuses(usize, u16, u32, u16, u32, HeaderField, u32),
}

use Line::{Refuses, Takes};

fn set(file: &mut Vec<u8>, at: u16, word: u32) {
    for (i, byte) in word.to_le_bytes().iter().enumerate() {
        let at = usize::from(at) + i;
        if at < file.len() {
            file[at] = *byte;
        }
    }
}

/// A file of so many bytes with this header, but for the words that are changed.
fn file(alloc: Global, length: usize, changes: &[(u16, u32)]) -> Result<Vec<u8>, AllocError> {
    let mut file = vec![in alloc; 0; length]?;
    for (at, word) in WORDS {
        set(&mut file, at, word);
    }
    for (at, word) in changes {
        set(&mut file, *at, *word);
    }
    Ok(file)
}

/// What refuses a file with two words changed.
fn refusal(
    alloc: Global,
    length: usize,
    one: (u16, u32),
    two: (u16, u32),
) -> Result<Option<HeaderFault>, AllocError> {
    let file = file(alloc, length, &[one, two])?;
    Ok(Cart::read(file).err())
}

/// What refuses the file of a line, and what is to refuse it.
fn seen(
    alloc: Global,
    line: Line,
) -> Result<(Option<HeaderFault>, Option<HeaderFault>), AllocError> {
    match line {
        Takes(length, at, word, other, with) => {
            Ok((refusal(alloc, length, (at, word), (other, with))?, None))
        }
        Refuses(length, at, word, other, with, field, value) => {
            let wanted = Some(HeaderFault { field, value });
            Ok((refusal(alloc, length, (at, word), (other, with))?, wanted))
        }
    }
}

/// Each file, line by line.
fn try_lines(rt: &impl Abort, alloc: Global, lines: &[Line]) -> Result<(), AllocError> {
    for (number, line) in lines.iter().enumerate() {
        let (fault, wanted) = seen(alloc, *line)?;
        let value = fault.map_or(0, |fault| fault.value);
        assert!(rt; fault == wanted, "line {number}: {value:x}");
    }
    Ok(())
}

/// A word that the header has already, where a line changes one alone.
const SAME: u16 = 0x02c;

#[test]
fn each_rule_holds_up_to_its_edge(rt: HostRuntime) -> Result<(), AllocError> {
    try_lines(
        &rt,
        rt.alloc(),
        &[
            Takes(0x200, SAME, 4, SAME, 4),
            Takes(0x200, 0x010, 0x0002_0000, SAME, 4),
            // the unit code is byte 012h alone
            Takes(0x200, 0x010, 0xff00_ffff, SAME, 4),
            Takes(0x200, 0x010, 0xff02_ffff, SAME, 4),
            Takes(0x200, 0x028, 0x02ff_fffc, SAME, 4),
            Takes(0x200, 0x024, 0x02ff_fffc, SAME, 4),
            Takes(0x200, 0x034, 0x0200_0000, SAME, 4),
            Takes(0x200, 0x034, 0x037f_8000, SAME, 4),
            Takes(0x200, 0x034, 0x0380_fffc, SAME, 4),
            Takes(0x200, 0x038, 0x0200_0000, SAME, 4),
            Takes(0x200, 0x038, 0x02ff_fffc, SAME, 4),
            Takes(0x200, 0x038, 0x037f_8000, SAME, 4),
            Takes(0x200, 0x038, 0x0380_fffc, SAME, 4),
            // an empty image at the last byte of its range
            Takes(0x200, 0x02c, 0, 0x028, 0x02ff_ffff),
            Takes(0x200, 0x03c, 0, 0x038, 0x0380_ffff),
        ],
    )
}

#[test]
fn each_rule_is_broken_past_its_edge(rt: HostRuntime) -> Result<(), AllocError> {
    try_lines(
        &rt,
        rt.alloc(),
        &[
            Refuses(0, SAME, 4, SAME, 4, Short, 0),
            Refuses(511, SAME, 4, SAME, 4, Short, 511),
            Refuses(0x200, 0x010, 0x0001_0000, SAME, 4, UnitCode, 1),
            Refuses(0x200, 0x010, 0x0003_0000, SAME, 4, UnitCode, 3),
            Refuses(0x200, 0x010, 0x0004_0000, SAME, 4, UnitCode, 4),
            Refuses(0x200, 0x010, 0x0080_0000, SAME, 4, UnitCode, 0x80),
            Refuses(0x200, 0x010, 0x0082_0000, SAME, 4, UnitCode, 0x82),
            Refuses(0x200, SAME, 5, SAME, 5, Arm9Rom, 0x1fc),
            Refuses(0x200, SAME, 0x0100_0004, SAME, 0x0100_0004, Arm9Rom, 0x1fc),
            Refuses(0x200, 0x020, 0x1fd, SAME, 4, Arm9Rom, 0x1fd),
            Refuses(0x200, 0x020, 0xffff_fffc, SAME, 4, Arm9Rom, 0xffff_fffc),
            Refuses(0x200, 0x028, 0x01ff_ffff, SAME, 4, Arm9Place, 0x01ff_ffff),
            Refuses(0x200, 0x028, 0x02ff_fffd, SAME, 4, Arm9Place, 0x02ff_fffd),
            Refuses(0x200, 0x028, 0x037f_8000, SAME, 4, Arm9Place, 0x037f_8000),
            Refuses(0x200, 0x024, 0x01ff_fffc, SAME, 4, Arm9Entry, 0x01ff_fffc),
            Refuses(0x200, 0x024, 0x0200_0002, SAME, 4, Arm9Entry, 0x0200_0002),
            Refuses(0x200, 0x024, 0x0300_0000, SAME, 4, Arm9Entry, 0x0300_0000),
            Refuses(0x200, 0x024, 0x037f_8000, SAME, 4, Arm9Entry, 0x037f_8000),
            Refuses(0x200, 0x024, 0x0380_0000, SAME, 4, Arm9Entry, 0x0380_0000),
            Refuses(0x200, 0x030, 0x1fd, SAME, 4, Arm7Rom, 0x1fd),
            Refuses(0x200, 0x034, 0x037f_8002, SAME, 4, Arm7Entry, 0x037f_8002),
            Refuses(0x200, 0x03c, 5, SAME, 4, Arm7Rom, 0x1fc),
            Refuses(0x200, 0x03c, 0x0100_0004, SAME, 4, Arm7Rom, 0x1fc),
            Refuses(0x200, 0x030, 0xffff_fffc, SAME, 4, Arm7Rom, 0xffff_fffc),
            Refuses(0x200, 0x038, 0x01ff_ffff, SAME, 4, Arm7Place, 0x01ff_ffff),
            Refuses(0x200, 0x038, 0x02ff_fffd, SAME, 4, Arm7Place, 0x02ff_fffd),
            Refuses(0x200, 0x038, 0x037f_7fff, SAME, 4, Arm7Place, 0x037f_7fff),
            Refuses(0x200, 0x038, 0x0380_fffd, SAME, 4, Arm7Place, 0x0380_fffd),
            Refuses(0x200, 0x034, 0x0300_0000, SAME, 4, Arm7Entry, 0x0300_0000),
            Refuses(0x200, 0x034, 0x037f_7ffc, SAME, 4, Arm7Entry, 0x037f_7ffc),
            Refuses(0x200, 0x034, 0x0380_0001, SAME, 4, Arm7Entry, 0x0380_0001),
            Refuses(0x200, 0x034, 0x0381_0000, SAME, 4, Arm7Entry, 0x0381_0000),
            // an empty image has a place all the same
            Refuses(0x200, 0x02c, 0, 0x028, 0x0300_0000, Arm9Place, 0x0300_0000),
        ],
    )
}

/// Two rules that are broken at once, and the earlier one, which is told.
#[test]
fn of_two_rules_the_earlier_is_told(rt: HostRuntime) -> Result<(), AllocError> {
    try_lines(
        &rt,
        rt.alloc(),
        &[
            Refuses(511, 0x010, 0x0001_0000, 0x02c, 5, Short, 511),
            Refuses(512, 0x010, 0x0001_0000, 0x02c, 5, UnitCode, 1),
            Refuses(512, 0x020, 0x1fd, 0x028, 0x0100_0000, Arm9Rom, 0x1fd),
            Refuses(512, 0x028, 0x0100_0000, 0x024, 1, Arm9Place, 0x0100_0000),
            Refuses(512, 0x024, 1, 0x030, 0x1fd, Arm9Entry, 1),
            Refuses(512, 0x030, 0x1fd, 0x038, 0x0100_0000, Arm7Rom, 0x1fd),
            Refuses(512, 0x038, 0x0100_0000, 0x034, 1, Arm7Place, 0x0100_0000),
            Refuses(512, 0x034, 1, 0x028, 0x0100_0000, Arm9Place, 0x0100_0000),
        ],
    )
}

#[test]
fn an_image_has_four_mebibytes_at_most(rt: HostRuntime) -> Result<(), AllocError> {
    try_lines(
        &rt,
        rt.alloc(),
        &[
            Takes(0x0040_0201, 0x030, 0x200, 0x03c, 0x0040_0000),
            Refuses(
                0x0040_0201,
                0x030,
                0x200,
                0x03c,
                0x0040_0001,
                Arm7Rom,
                0x200,
            ),
        ],
    )
}

/// Both images empty, each at the last byte of its range.
#[test]
fn both_images_may_be_empty(rt: HostRuntime) -> Result<(), AllocError> {
    let empty = [
        (0x02c, 0),
        (0x028, 0x02ff_ffff),
        (0x03c, 0),
        (0x038, 0x0380_ffff),
    ];
    assert!(rt; Cart::read(file(rt.alloc(), 0x200, &empty)?).is_ok());
    Ok(())
}

/// The cartridge's file cut to each length.
#[test]
fn a_file_without_a_whole_header_is_too_short(rt: HostRuntime) -> Result<(), AllocError> {
    for length in 0..513u32 {
        let wanted = (length < 512).then_some(HeaderFault {
            field: Short,
            value: length,
        });
        let fault = refusal(rt.alloc(), length as usize, (SAME, 4), (SAME, 4))?;
        assert!(rt; fault == wanted, "{length}");
    }
    Ok(())
}

/// Both processors' places and entries.
fn places(cart: &Cart) -> [u32; 4] {
    [
        cart.place(Proc::Nine),
        cart.entry(Proc::Nine),
        cart.place(Proc::Seven),
        cart.entry(Proc::Seven),
    ]
}

/// A cartridge of 512 bytes, or none where its header is refused.
fn cart(alloc: Global, changes: &[(u16, u32)]) -> Result<Option<Cart>, AllocError> {
    Ok(Cart::read(file(alloc, 0x200, changes)?).ok())
}

#[test]
fn a_cartridge_tells_its_images(rt: HostRuntime) -> Result<(), AllocError> {
    let changes = [
        (0, 0x4342_4120),
        (0x1fc, 0x0403_0201),
        (0x024, 0x0200_0100),
        (0x030, 0x1fe),
        (0x034, 0x0380_0040),
        (0x03c, 2),
    ];
    match cart(rt.alloc(), &changes)? {
        Some(cart) => {
            assert!(rt; places(&cart) == [0x0200_0000, 0x0200_0100, 0x0210_0000, 0x0380_0040]);
            assert!(rt; cart.bytes().len() == 0x200);
            assert!(rt; cart.image(Proc::Nine) == [1, 2, 3, 4].as_slice());
            assert!(rt; cart.image(Proc::Seven) == [3, 4].as_slice());
            assert!(rt; cart.title() == b" ABC\0\0\0\0\0\0\0\0".as_slice());
        }
        None => panic!(rt; "the header keeps all rules"),
    }
    Ok(())
}
