//! Files in memory, found by name and read in order, and read whole.

ghost use Rattle.std.specs.Prelude.{◌<◌, ◌-◌, ◌^◌};

use ds_io::{Calls, Failed, Files, MemShelf, QuietShelf, ReadFault, Shelf, read_all};
use std::alloc::{AllocError, Global};
use std::process::Abort;

/// A line of a table.
#[derive(Clone, Copy)]
enum Line {
    /// A file of this name is found.
    Finds(&'static str),
    /// No file has this name.
    Lacks(&'static str),
    /// The search fails.
    FindFails(&'static str),
    /// A read into two bytes gives so many, and then those two bytes are these.
    Reads(usize, u8, u8),
    /// A read fails, and leaves the two bytes as these.
    ReadFails(u8, u8),
    /// The whole rest, with a limit, has so many bytes.
    Whole(usize, usize),
    /// The whole rest is longer than a limit.
    TooLong(usize),
    /// A read of the whole rest, with a limit, fails.
    WholeFails(usize),
}

use Line::{FindFails, Finds, Lacks, ReadFails, Reads, TooLong, Whole, WholeFails};

/// What a line shows: an answer, and what is left or put.
type Seen = (usize, u8, u8);

const FOUND: Seen = (1, 0, 0);

const LACKED: Seen = (0, 0, 0);

/// The answers that are no count.
const FAILED: usize = usize::MAX;

const LONG: usize = usize::MAX - 1;

const NO_MEMORY: usize = usize::MAX - 2;

fn find<F: Shelf>(shelf: &mut F, name: &str) -> Seen {
    match shelf.find(name) {
        Ok(true) => FOUND,
        Ok(false) => LACKED,
        Err(Failed) => (FAILED, 0, 0),
    }
}

fn read<F: Shelf>(shelf: &mut F, into: &mut [u8; 2]) -> Seen {
    let count = shelf.read(into.as_mut_slice()).unwrap_or(FAILED);
    (count, into[0], into[1])
}

fn whole<F: Shelf>(alloc: Global, shelf: &mut F, limit: usize) -> Seen {
    match read_all(alloc, shelf, limit % 0x10_0000) {
        Ok(bytes) => (bytes.len(), 0, 0),
        Err(ReadFault::Failed) => (FAILED, 0, 0),
        Err(ReadFault::TooLong) => (LONG, 0, 0),
        Err(ReadFault::NoMemory) => (NO_MEMORY, 0, 0),
    }
}

/// Does what a line says, with two bytes to read into: what was seen, and what is wanted.
fn seen<F: Shelf>(alloc: Global, shelf: &mut F, into: &mut [u8; 2], line: Line) -> (Seen, Seen) {
    match line {
        Finds(name) => (find(shelf, name), FOUND),
        Lacks(name) => (find(shelf, name), LACKED),
        FindFails(name) => (find(shelf, name), (FAILED, 0, 0)),
        Reads(count, first, second) => (read(shelf, into), (count, first, second)),
        ReadFails(first, second) => (read(shelf, into), (FAILED, first, second)),
        Whole(limit, length) => (whole(alloc, shelf, limit), (length, 0, 0)),
        TooLong(limit) => (whole(alloc, shelf, limit), (LONG, 0, 0)),
        WholeFails(limit) => (whole(alloc, shelf, limit), (FAILED, 0, 0)),
    }
}

/// A shelf, line by line.
fn try_lines<F: Shelf>(rt: &impl Abort, alloc: Global, shelf: &mut F, lines: &[Line]) {
    let mut into = [0; 2];
    for (number, line) in lines.iter().enumerate() {
        let (got, wanted) = seen(alloc, shelf, &mut into, *line);
        let (answer, first, second) = got;
        assert!(rt; got == wanted, "line {number}: {answer}, {first}, {second}");
    }
}

/// The one file `cart`, of three bytes.
fn one_file(alloc: Global) -> Result<Files, AllocError> {
    let mut files = Files::new(alloc);
    let bytes = Vec::from_slice(alloc, &[1, 2, 3])?;
    files.push(String::from_str(alloc, "cart")?, bytes)?;
    Ok(files)
}

/// The same on a shelf whose calls with these two numbers fail, line by line.
fn try_failing(
    rt: &impl Abort,
    alloc: Global,
    first: u64,
    second: u64,
    lines: &[Line],
) -> Result<(), AllocError>
    requires above { 0 < first }
    requires rises { first < second }
    requires below { second < 2 ^ 64 - 1 }
{
    let mut calls = Calls::new(alloc);
    calls.push(first)?;
    calls.push(second)?;
    let mut shelf = MemShelf::new(one_file(alloc)?, calls);
    try_lines(rt, alloc, &mut shelf, lines);
    Ok(())
}

/// These files on a shelf that never fails, line by line.
fn try_files(rt: &impl Abort, alloc: Global, files: Files, lines: &[Line]) {
    let mut shelf = QuietShelf::new(files);
    try_lines(rt, alloc, &mut shelf, lines);
}

/// The file `long` of several buffers, whose byte i is i modulo 251, and the empty file `none`.
fn long_file(alloc: Global) -> Result<Files, AllocError> {
    let mut bytes = vec![in alloc; 0; 10_000]?;
    for (i, byte) in bytes.iter_mut().enumerate() {
        *byte = (i % 251) as u8;
    }
    let mut files = Files::new(alloc);
    files.push(String::from_str(alloc, "long")?, bytes)?;
    files.push(String::from_str(alloc, "none")?, Vec::new(alloc))?;
    Ok(files)
}

#[test]
fn a_file_is_read_whole_or_is_too_long(rt: HostRuntime) -> Result<(), AllocError> {
    try_files(
        &rt,
        rt.alloc(),
        one_file(rt.alloc())?,
        &[
            Lacks("card"),
            Finds("cart"),
            TooLong(2),
            Finds("cart"),
            Whole(3, 3),
        ],
    );
    Ok(())
}

/// The file `cart` with two more, the first of the same name.
fn three_files(alloc: Global) -> Result<Files, AllocError> {
    let mut files = one_file(alloc)?;
    for name in ["cart", "keys"] {
        let bytes = Vec::from_slice(alloc, &[8, 9])?;
        files.push(String::from_str(alloc, name)?, bytes)?;
    }
    Ok(files)
}

/// Of two files with a name the first is found; a file that isn't there leaves the place, and one that is found begins anew.
#[test]
fn a_name_finds_its_first_file(rt: HostRuntime) -> Result<(), AllocError> {
    try_files(
        &rt,
        rt.alloc(),
        three_files(rt.alloc())?,
        &[
            Reads(0, 0, 0),
            Finds("cart"),
            Reads(2, 1, 2),
            Lacks("card"),
            Reads(1, 3, 2),
            Lacks("car"),
            Reads(0, 3, 2),
            Lacks("carts"),
            Reads(0, 3, 2),
            Lacks("CART"),
            Reads(0, 3, 2),
            Lacks(""),
            Reads(0, 3, 2),
            Finds("keys"),
            Reads(2, 8, 9),
            Finds("cart"),
            Reads(2, 1, 2),
        ],
    );
    Ok(())
}

#[test]
fn calls_fail_by_their_numbers(rt: HostRuntime) -> Result<(), AllocError> {
    try_failing(
        &rt,
        rt.alloc(),
        3,
        5,
        &[
            Finds("cart"),
            Finds("cart"),
            FindFails("cart"),
            Finds("cart"),
            FindFails("cart"),
            Finds("cart"),
        ],
    )
}

#[test]
fn a_failed_read_leaves_the_place(rt: HostRuntime) -> Result<(), AllocError> {
    try_failing(
        &rt,
        rt.alloc(),
        1,
        4,
        &[
            FindFails("cart"),
            Finds("cart"),
            Reads(2, 1, 2),
            ReadFails(1, 2),
            Reads(1, 3, 2),
        ],
    )
}

/// A search that fails leaves the found file and the place.
#[test]
fn a_failed_search_leaves_the_place(rt: HostRuntime) -> Result<(), AllocError> {
    try_failing(
        &rt,
        rt.alloc(),
        3,
        5,
        &[
            Finds("cart"),
            Reads(2, 1, 2),
            FindFails("cart"),
            Reads(1, 3, 2),
        ],
    )
}

/// A read that fails ends the reading of the whole file with that fault, and the place is past what was read.
#[test]
fn a_failed_read_ends_the_whole_file(rt: HostRuntime) -> Result<(), AllocError> {
    try_failing(
        &rt,
        rt.alloc(),
        3,
        9,
        &[Finds("cart"), WholeFails(100), Reads(0, 0, 0)],
    )
}

/// Of a file that is too long one byte more than the limit is taken; the empty one is never too long.
#[test]
fn a_file_too_long_is_left_past_the_limit(rt: HostRuntime) -> Result<(), AllocError> {
    try_files(
        &rt,
        rt.alloc(),
        long_file(rt.alloc())?,
        &[
            Finds("long"),
            TooLong(0),
            Reads(2, 1, 2),
            Finds("long"),
            TooLong(5),
            Reads(2, 6, 7),
            // 4,096 and 4,097 are 16 times 251 and 80 and 81
            Finds("long"),
            TooLong(4_095),
            Reads(2, 80, 81),
            Finds("long"),
            TooLong(4_096),
            Reads(2, 81, 82),
            // 5,001 is 19 times 251 and 232
            Finds("long"),
            TooLong(5_000),
            Reads(2, 232, 233),
            // 9,999 is 39 times 251 and 210, and the last byte
            Finds("long"),
            TooLong(9_998),
            Reads(1, 210, 233),
            Finds("none"),
            Whole(0, 0),
            Reads(0, 210, 233),
        ],
    );
    Ok(())
}

/// The bytes of a file are those that it has, in their order.
#[test]
fn a_file_is_read_in_order(rt: HostRuntime) -> Result<(), AllocError> {
    let mut shelf = QuietShelf::new(one_file(rt.alloc())?);
    assert!(rt; find(&mut shelf, "cart") == FOUND);
    match read_all(rt.alloc(), &mut shelf, 3) {
        Ok(bytes) => assert!(rt; bytes.as_slice() == [1, 2, 3].as_slice()),
        Err(_) => panic!(rt; "the file has three bytes"),
    }
    Ok(())
}

#[test]
fn a_long_file_is_read_in_order(rt: HostRuntime) -> Result<(), AllocError> {
    let mut shelf = QuietShelf::new(long_file(rt.alloc())?);
    assert!(rt; find(&mut shelf, "long") == FOUND);
    match read_all(rt.alloc(), &mut shelf, 20_000) {
        Ok(bytes) => {
            assert!(rt; bytes.len() == 10_000);
            for (i, byte) in bytes.iter().enumerate() {
                assert!(rt; *byte as usize == i % 251, "byte {i}");
            }
        }
        Err(_) => panic!(rt; "the file has 10,000 bytes"),
    }
    Ok(())
}

/// Want of memory is a fault of its own, by its name: what the allocator answers where so much isn't there.
#[test]
fn want_of_memory_has_its_name(rt: HostRuntime) {
    match Vec::<u8>::with_capacity(rt.alloc(), isize::MAX as usize) {
        Ok(_) => panic!(rt; "no machine has so much memory"),
        Err(fault) => assert!(rt; ReadFault::from(fault) == ReadFault::NoMemory),
    }
    assert!(rt; ReadFault::from(Failed) == ReadFault::Failed);
}
