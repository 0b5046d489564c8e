//! What the system's files and streams answer.

use ds_io::{DiskShelf, Failed, Shelf, Sink, StdSink, put_all};
use std::fs::File;
use std::io;
use std::io::Write;

/// A name of 260 bytes, which is longer than a file's may be.
const LONG_NAME: &str = concat!(
    "aaaaaaaaaaaaaaaaaaaaaaaaaaaaaaaaaaaaaaaaaaaaaaaaaaaaaaaaaaaaaaaaa",
    "aaaaaaaaaaaaaaaaaaaaaaaaaaaaaaaaaaaaaaaaaaaaaaaaaaaaaaaaaaaaaaaaa",
    "aaaaaaaaaaaaaaaaaaaaaaaaaaaaaaaaaaaaaaaaaaaaaaaaaaaaaaaaaaaaaaaaa",
    "aaaaaaaaaaaaaaaaaaaaaaaaaaaaaaaaaaaaaaaaaaaaaaaaaaaaaaaaaaaaaaaaa"
);

/// A stream that takes two bytes at a time at most, and eight in all.
#[derive(Drop)]
struct Few {
    bytes: [u8; 8],
    taken: usize,
}

impl Write for Few {
    fn write(&mut self, buf: &[u8]) -> io::Result<usize> {
        let taken = buf.len().min(2).min(8 - self.taken.min(8));
        for byte in &buf[..taken] {
            if self.taken < 8 {
                self.bytes[self.taken] = *byte;
                self.taken += 1;
            }
        }
        Ok(taken)
    }

    fn flush(&mut self) -> io::Result<()> {
        Ok(())
    }
}

/// After a short write the rest is written from where it stopped.
#[test]
fn short_writes_lose_no_byte(rt: HostRuntime) {
    let mut few = Few {
        bytes: [0; 8],
        taken: 0,
    };
    let mut sink = StdSink::new(&mut few);
    assert!(rt; sink.put(&[1, 2, 3]) == Ok(2));
    assert!(rt; put_all(&mut sink, &[3, 4, 5, 6, 7]) == Ok(()));
    // one byte is taken yet, and then none
    assert!(rt; put_all(&mut sink, &[8, 9]) == Err(Failed));
    assert!(rt; few.bytes == [1, 2, 3, 4, 5, 6, 7, 8]);
}

/// Whether a search of the disk finds a name, how many of four bytes a read gives after it, and the bytes then, which were 7. None where it
/// fails.
const SEARCHES: [(&str, Option<bool>, Option<usize>, u8); 6] = [
    ("/dev/zero", Some(true), Some(4), 0),
    // a name that isn't there leaves the file, and so does a search that fails
    ("no such file", Some(false), Some(4), 0),
    ("/dev/null/file", None, Some(4), 0),
    (LONG_NAME, None, Some(4), 0),
    ("/dev/null", Some(true), Some(0), 7),
    ("/", Some(true), None, 7),
];

/// A search and a read after it.
fn searched<F: Shelf>(shelf: &mut F, name: &str) -> (Option<bool>, Option<usize>, [u8; 4]) {
    let found = shelf.find(name).ok();
    let mut into = [7; 4];
    let read = shelf.read(&mut into).ok();
    (found, read, into)
}

#[test]
fn the_disk_answers_each_cause(rt: HostRuntime) {
    let mut shelf = DiskShelf::new(&rt);
    assert!(rt; shelf.read(&mut [7; 4]) == Ok(0));
    for (name, found, read, byte) in SEARCHES {
        let seen = searched(&mut shelf, name);
        assert!(rt; seen == (found, read, [byte; 4]), "{name}: {}", seen.2[3]);
    }
}

#[test]
fn a_full_device_is_a_fault(rt: HostRuntime) -> io::Result<()> {
    let mut full = StdSink::new(File::create(&rt, "/dev/full")?);
    assert!(rt; full.put(&[]) == Ok(0));
    assert!(rt; full.put(&[1]) == Err(Failed));
    let mut taken = StdSink::new(File::create(&rt, "/dev/null")?);
    assert!(rt; put_all(&mut taken, &[1, 2, 3]) == Ok(()));
    Ok(())
}
