//! The ways between the processors, by GBATEK's "DS Inter Process Communication (IPC)". Interrupts by their bits of IF: 1_0000h sync,
//! 2_0000h the send FIFO became empty, 4_0000h the receive FIFO isn't empty any more.

use Proc::{Nine, Seven};
use ds_base::{Proc, Raised};
use ds_ipc::Ipc;
use std::alloc::{AllocError, Global};
use std::process::Abort;

/// A line of a table: the side that does it, and the value that it writes or gets. Where a call raises interrupts, their bits at ARM9
/// and at ARM7 follow.
#[derive(Clone, Copy)]
enum Line {
    /// IPCSYNC reads this.
    SyncIs(Proc, u32),
    /// These bits of it stay where a write doesn't cover them.
    SyncKept(Proc, u32),
    /// A write of IPCSYNC.
    Sync(Proc, u16, u32, u32),
    /// IPCFIFOCNT reads this.
    ControlIs(Proc, u32),
    /// These bits of it stay where a write doesn't cover them.
    ControlKept(Proc, u32),
    /// A write of IPCFIFOCNT.
    Control(Proc, u16, u32, u32),
    /// A word is sent.
    Send(Proc, u32, u32, u32),
    /// All words from a first to a last one are sent, and raise nothing.
    Sends(Proc, u32, u32),
    /// The word that a receive would give.
    Look(Proc, u32),
    /// A receive gives this word.
    Receive(Proc, u32, u32, u32),
}

use Line::{Control, ControlIs, ControlKept, Look, Receive, Send, Sends, Sync, SyncIs, SyncKept};

/// A value, and the bits raised at ARM9 and at ARM7.
type Seen = (u32, u32, u32);

/// What a call that gives no value raised.
fn bits(raised: Raised) -> Seen {
    (0, raised.nine, raised.seven)
}

/// Sends all words from a first to a last one: all that they raise.
fn sends(ipc: &mut Ipc, side: Proc, first: u32, last: u32) -> Seen {
    let mut all = (0, 0, 0);
    for word in first..=last {
        let raised = ipc.send(side, word);
        all = (0, all.1 | raised.nine, all.2 | raised.seven);
    }
    all
}

/// A receive: its word, and what it raises.
fn receive(ipc: &mut Ipc, side: Proc) -> Seen {
    let got = ipc.receive(side);
    (got.word, got.raised.nine, got.raised.seven)
}

/// Does what a line says: what was seen, and what is wanted.
fn seen(ipc: &mut Ipc, line: Line) -> (Seen, Seen) {
    match line {
        SyncIs(side, value) => ((ipc.sync_read(side).into(), 0, 0), (value, 0, 0)),
        SyncKept(side, value) => ((ipc.sync_kept(side).into(), 0, 0), (value, 0, 0)),
        Sync(side, value, nine, seven) => (bits(ipc.sync_write(side, value)), (0, nine, seven)),
        ControlIs(side, value) => ((ipc.control_read(side).into(), 0, 0), (value, 0, 0)),
        ControlKept(side, value) => ((ipc.control_kept(side).into(), 0, 0), (value, 0, 0)),
        Control(side, value, nine, seven) => (
            bits(ipc.control_write(side, value)),
            (0, nine, seven),
        ),
        Send(side, word, nine, seven) => (bits(ipc.send(side, word)), (0, nine, seven)),
        Sends(side, first, last) => (sends(ipc, side, first, last), (0, 0, 0)),
        Look(side, word) => ((ipc.look(side), 0, 0), (word, 0, 0)),
        Receive(side, word, nine, seven) => (receive(ipc, side), (word, nine, seven)),
    }
}

/// Both sides from boot on, line by line.
fn try_lines(rt: &impl Abort, alloc: Global, lines: &[Line]) -> Result<(), AllocError> {
    let mut ipc = Ipc::new(alloc)?;
    ipc.laws();
    for (number, line) in lines.iter().enumerate() {
        let (got, wanted) = seen(&mut ipc, *line);
        let (value, nine, seven) = got;
        assert!(rt;
            got == wanted,
            "line {number}: {value:x}, raised {nine:x} and {seven:x}"
        );
    }
    Ok(())
}

#[test]
fn at_boot_all_is_0_and_a_side_that_is_not_enabled_sends_nothing(
    rt: HostRuntime,
) -> Result<(), AllocError> {
    try_lines(
        &rt,
        rt.alloc(),
        &[
            SyncIs(Nine, 0),
            ControlIs(Nine, 0x0101),
            Receive(Nine, 0, 0, 0),
            Send(Nine, 5, 0, 0),
            ControlIs(Nine, 0x0101),
            SyncIs(Seven, 0),
            ControlIs(Seven, 0x0101),
            Receive(Seven, 0, 0, 0),
            Send(Seven, 5, 0, 0),
            ControlIs(Seven, 0x0101),
        ],
    )
}

#[test]
fn the_seventeenth_word_is_lost_and_an_empty_fifo_gives_the_last_one(
    rt: HostRuntime,
) -> Result<(), AllocError> {
    try_lines(
        &rt,
        rt.alloc(),
        &[
            Control(Nine, 0x8000, 0, 0),
            Control(Seven, 0x8000, 0, 0),
            Sends(Nine, 1, 17),
            ControlIs(Nine, 0xC102),
            ControlIs(Seven, 0x8201),
            Receive(Seven, 1, 0, 0),
            Receive(Seven, 2, 0, 0),
            Receive(Seven, 3, 0, 0),
            Receive(Seven, 4, 0, 0),
            Receive(Seven, 5, 0, 0),
            Receive(Seven, 6, 0, 0),
            Receive(Seven, 7, 0, 0),
            Receive(Seven, 8, 0, 0),
            Receive(Seven, 9, 0, 0),
            Receive(Seven, 10, 0, 0),
            Receive(Seven, 11, 0, 0),
            Receive(Seven, 12, 0, 0),
            Receive(Seven, 13, 0, 0),
            Receive(Seven, 14, 0, 0),
            Receive(Seven, 15, 0, 0),
            Receive(Seven, 16, 0, 0),
            Receive(Seven, 16, 0, 0),
            Receive(Seven, 16, 0, 0),
            ControlIs(Seven, 0xC101),
            ControlIs(Nine, 0xC101),
            Control(Seven, 0xC000, 0, 0),
            ControlIs(Seven, 0x8101),
        ],
    )
}

/// A FIFO is told to be full at sixteen words and not before, an error stays until bit 14 clears it, and a clear leaves the words that wait
/// for its own side.
#[test]
fn full_error_and_clear_each_tell_their_own(rt: HostRuntime) -> Result<(), AllocError> {
    try_lines(
        &rt,
        rt.alloc(),
        &[
            Control(Nine, 0x8000, 0, 0),
            Control(Seven, 0x8000, 0, 0),
            Sends(Nine, 0, 14),
            ControlIs(Nine, 0x8100),
            ControlIs(Seven, 0x8001),
            Send(Nine, 15, 0, 0),
            ControlIs(Nine, 0x8102),
            ControlIs(Seven, 0x8201),
            Send(Nine, 16, 0, 0),
            Control(Nine, 0x8000, 0, 0),
            ControlIs(Nine, 0xC102),
            Control(Nine, 0xC000, 0, 0),
            ControlIs(Nine, 0x8102),
            Send(Seven, 5, 0, 0),
            Control(Nine, 0x8008, 0, 0),
            ControlIs(Nine, 0x8001),
            Receive(Nine, 5, 0, 0),
        ],
    )
}

#[test]
fn a_clear_empties_the_fifo_and_the_word_received_last(rt: HostRuntime) -> Result<(), AllocError> {
    try_lines(
        &rt,
        rt.alloc(),
        &[
            Control(Nine, 0x8000, 0, 0),
            Control(Seven, 0x8000, 0, 0),
            Send(Nine, 7, 0, 0),
            Send(Nine, 8, 0, 0),
            Look(Seven, 7),
            Receive(Seven, 7, 0, 0),
            // a side that isn't enabled sees the word and takes none
            Control(Seven, 0, 0, 0),
            Receive(Seven, 8, 0, 0),
            Receive(Seven, 8, 0, 0),
            Control(Nine, 8, 0, 0),
            ControlIs(Nine, 0x0101),
            Look(Seven, 0),
            Receive(Seven, 0, 0, 0),
            ControlIs(Seven, 0x0101),
            Send(Nine, 9, 0, 0),
            ControlIs(Nine, 0x0101),
        ],
    )
}

/// A clear leaves the error and the word that its own side received last; the other side forgets its own, also where no word waited.
#[test]
fn a_clear_leaves_what_its_side_received(rt: HostRuntime) -> Result<(), AllocError> {
    try_lines(
        &rt,
        rt.alloc(),
        &[
            Control(Nine, 0x8000, 0, 0),
            Control(Seven, 0x8000, 0, 0),
            Send(Seven, 5, 0, 0),
            Receive(Nine, 5, 0, 0),
            Receive(Nine, 5, 0, 0),
            Send(Nine, 7, 0, 0),
            Receive(Seven, 7, 0, 0),
            Control(Nine, 0x8008, 0, 0),
            ControlIs(Nine, 0xC101),
            Receive(Nine, 5, 0, 0),
            Receive(Seven, 0, 0, 0),
        ],
    )
}

#[test]
fn the_sync_interrupt_asks_both_sides(rt: HostRuntime) -> Result<(), AllocError> {
    try_lines(
        &rt,
        rt.alloc(),
        &[
            Sync(Nine, 0x2A0F, 0, 0),
            Sync(Seven, 0x4500, 0, 0),
            SyncIs(Nine, 0x0A05),
            SyncIs(Seven, 0x450A),
            SyncKept(Nine, 0x0A00),
            SyncKept(Seven, 0x4500),
            Sync(Nine, 0x0300, 0, 0),
            Sync(Nine, 0x2300, 0, 0x1_0000),
        ],
    )
}

/// What the sync interrupt of each side asks for: the other's bit 14 as it was written last.
#[test]
fn the_sync_interrupt_is_allowed_by_the_last_write(rt: HostRuntime) -> Result<(), AllocError> {
    try_lines(
        &rt,
        rt.alloc(),
        &[
            Sync(Seven, 0x4500, 0, 0),
            Sync(Nine, 0x2300, 0, 0x1_0000),
            Sync(Seven, 0x0600, 0, 0),
            SyncIs(Seven, 0x0603),
            Sync(Nine, 0x2300, 0, 0),
        ],
    )?;
    try_lines(
        &rt,
        rt.alloc(),
        &[
            Sync(Nine, 0x4500, 0, 0),
            Sync(Seven, 0x2300, 0x1_0000, 0),
            Sync(Nine, 0x0600, 0, 0),
            SyncIs(Nine, 0x0603),
            Sync(Seven, 0x2300, 0, 0),
        ],
    )
}

#[test]
fn each_fifo_interrupt_is_raised_where_its_enable_asks_for_it(
    rt: HostRuntime,
) -> Result<(), AllocError> {
    try_lines(
        &rt,
        rt.alloc(),
        &[
            Control(Nine, 0x8004, 0x2_0000, 0),
            Control(Nine, 0x8004, 0, 0),
            Control(Seven, 0x8400, 0, 0),
            ControlKept(Nine, 0x8004),
            ControlKept(Seven, 0x8400),
            Send(Nine, 1, 0, 0x4_0000),
            Send(Nine, 2, 0, 0),
            Receive(Seven, 1, 0, 0),
            Receive(Seven, 2, 0x2_0000, 0),
            Receive(Seven, 2, 0, 0),
            Control(Nine, 0x800C, 0, 0),
            Control(Nine, 0x8000, 0, 0),
            Control(Seven, 0x8000, 0, 0),
            Send(Nine, 3, 0, 0),
            Control(Seven, 0x8400, 0, 0x4_0000),
            Control(Seven, 0x8400, 0, 0),
            Control(Nine, 0x8004, 0, 0),
            Control(Nine, 0x800C, 0x2_0000, 0),
        ],
    )
}

/// The same the other way round: ARM7 hears that its FIFO became empty by ARM9's receive, by its own enable on an empty one, and by a
/// clear; ARM9 hears that a word waits.
#[test]
fn arm7_hears_that_its_fifo_became_empty(rt: HostRuntime) -> Result<(), AllocError> {
    try_lines(
        &rt,
        rt.alloc(),
        &[
            Control(Seven, 0x8004, 0, 0x2_0000),
            Control(Seven, 0x8004, 0, 0),
            Control(Nine, 0x8400, 0, 0),
            Send(Seven, 1, 0x4_0000, 0),
            Send(Seven, 2, 0, 0),
            Receive(Nine, 1, 0, 0),
            Receive(Nine, 2, 0, 0x2_0000),
            Receive(Nine, 2, 0, 0),
            Control(Seven, 0x800C, 0, 0),
            Send(Seven, 3, 0x4_0000, 0),
            Control(Seven, 0x800C, 0, 0x2_0000),
        ],
    )
}

/// What one write of IPCFIFOCNT raises on a side that isn't enabled: each enable where it rises, both at once, and beside a clear the
/// enable that is written with it.
#[test]
fn a_write_raises_by_the_enables_that_it_writes(rt: HostRuntime) -> Result<(), AllocError> {
    try_lines(
        &rt,
        rt.alloc(),
        &[
            Control(Seven, 0x8000, 0, 0),
            Send(Seven, 1, 0, 0),
            Control(Nine, 0x0004, 0x2_0000, 0),
            Control(Nine, 0x0000, 0, 0),
            Control(Nine, 0x000C, 0x2_0000, 0),
            Control(Nine, 0x0000, 0, 0),
            Control(Nine, 0x0400, 0x4_0000, 0),
            Control(Nine, 0x0000, 0, 0),
            Control(Nine, 0x0404, 0x6_0000, 0),
            Control(Nine, 0x8004, 0, 0),
            Send(Nine, 2, 0, 0),
            Control(Nine, 0x8008, 0, 0),
        ],
    )
}

/// Each side as the sender, the other disabled: the word waits there and is told of, and is seen without being taken.
#[test]
fn a_word_waits_at_a_disabled_side(rt: HostRuntime) -> Result<(), AllocError> {
    try_lines(
        &rt,
        rt.alloc(),
        &[
            Control(Nine, 0x8004, 0x2_0000, 0),
            Control(Seven, 0x0400, 0, 0),
            Send(Nine, 7, 0, 0x4_0000),
            Receive(Seven, 7, 0, 0),
            Receive(Seven, 7, 0, 0),
            ControlIs(Nine, 0x8104),
            ControlIs(Seven, 0x0401),
            Send(Seven, 9, 0, 0),
            Receive(Nine, 0, 0, 0),
            ControlIs(Nine, 0xC104),
        ],
    )?;
    try_lines(
        &rt,
        rt.alloc(),
        &[
            Control(Seven, 0x8004, 0, 0x2_0000),
            Control(Nine, 0x0400, 0, 0),
            Send(Seven, 7, 0x4_0000, 0),
            Receive(Nine, 7, 0, 0),
            Receive(Nine, 7, 0, 0),
            ControlIs(Seven, 0x8104),
            ControlIs(Nine, 0x0401),
            Send(Nine, 9, 0, 0),
            Receive(Seven, 0, 0, 0),
            ControlIs(Seven, 0xC104),
        ],
    )
}

/// A full FIFO of a side that is disabled afterwards takes no word and sets no error.
#[test]
fn a_disabled_side_makes_no_error(rt: HostRuntime) -> Result<(), AllocError> {
    try_lines(
        &rt,
        rt.alloc(),
        &[
            Control(Seven, 0x8000, 0, 0),
            Sends(Seven, 0, 15),
            Control(Seven, 0, 0, 0),
            Send(Seven, 16, 0, 0),
            Receive(Seven, 0, 0, 0),
            ControlIs(Seven, 0x0102),
            Control(Seven, 0x000C, 0, 0x2_0000),
        ],
    )
}

/// A side that isn't enabled hears that its last word was taken, raises nothing by a send, and reads the word received last.
#[test]
fn a_disabled_side_hears_and_is_not_heard(rt: HostRuntime) -> Result<(), AllocError> {
    try_lines(
        &rt,
        rt.alloc(),
        &[
            Control(Nine, 0x8004, 0x2_0000, 0),
            Control(Seven, 0x8400, 0, 0),
            Send(Nine, 7, 0, 0x4_0000),
            Control(Nine, 0x0004, 0, 0),
            Receive(Seven, 7, 0x2_0000, 0),
            Send(Nine, 8, 0, 0),
            Control(Seven, 0x0400, 0, 0),
            Receive(Seven, 7, 0, 0),
            ControlIs(Seven, 0x0501),
        ],
    )
}
