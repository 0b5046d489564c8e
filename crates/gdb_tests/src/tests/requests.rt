//! Packets to requests: those that gdb 13 sends, and cut and garbled ones. (The GDB manual, "Packets" and "General Query Packets".)

use ds_base::Proc;
use gdb_packets::{Going, How, Point, PointKind, Request, read_request};

/// How the program goes on: a processor, how, and whether it is told of alone.
fn going<'a>(proc: Option<Proc>, how: How, is_alone: bool) -> Request<'a> {
    Request::Go(Going {
        proc,
        how,
        is_alone,
    })
}

/// On and on, with a signal.
fn on(signal: u32) -> How {
    How::On { signal }
}

#[test]
fn packets_are_the_requests_of_the_manual(rt: HostRuntime) {
    let nine = Some(Proc::Nine);
    let seven = Some(Proc::Seven);
    let range = How::Range {
        from: 0x0200_04f4,
        to: 0x0200_04fc,
    };
    let point = Point {
        kind: PointKind::Break,
        at: 0x0200_04f4,
        length: 4,
    };
    let rows: [(&[u8], Request); 38] = [
        (b"", Request::Unknown),
        (b"?", Request::Reason),
        (b"??", Request::Unknown),
        (b"g", Request::Registers),
        (b"p19", Request::Register(0x19)),
        (b"p", Request::Wrong),
        (b"p19,", Request::Wrong),
        (
            b"m2000000,4",
            Request::Memory {
                at: 0x0200_0000,
                length: 4,
            },
        ),
        (
            b"mffffffff,1000",
            Request::Memory {
                at: 0xffff_ffff,
                length: 0x1000,
            },
        ),
        (b"m2000000", Request::Wrong),
        (b"m,4", Request::Wrong),
        (b"m100000000,4", Request::Wrong),
        (b"m0,4x", Request::Wrong),
        (b"M0,1:00", Request::Change),
        (b"X0,1:a", Request::Change),
        (b"G00", Request::Change),
        (b"P0=00000000", Request::Change),
        (b"Hg0", Request::Look(None)),
        (b"Hg2", Request::Look(seven)),
        (b"Hc-1", Request::Aim(None)),
        (b"Hg3", Request::Wrong),
        (b"H", Request::Wrong),
        (b"T1", Request::Alive),
        (b"T3", Request::Wrong),
        (b"Z0,20004f4,4", Request::Insert(point)),
        (b"z1,20004f4,4", Request::Remove(point)),
        (b"Z5,20004f4,4", Request::Wrong),
        (b"Z0,20004f4", Request::Wrong),
        (b"vCont?", Request::Actions),
        (b"vCont;c", going(nine, on(0), false)),
        (b"vCont;C0e:2;c", going(nine, on(0), false)),
        (b"vCont;s:2", going(seven, How::Step, true)),
        (b"vCont;s:1;c", going(nine, How::Step, false)),
        (b"vCont;r20004f4,20004fc:1;c", going(nine, range, false)),
        (b"vCont;t", Request::Wrong),
        (b"s", going(None, How::Step, false)),
        (b"bs", Request::BackStep),
        (b"bc", Request::BackOn),
    ];
    for (body, request) in rows {
        assert!(rt; read_request(body) == request, "{body:?}");
    }
}

#[test]
fn queries_are_those_of_the_manual(rt: HostRuntime) {
    let part = Request::Features {
        offset: 0,
        length: 0x1000,
    };
    let rows: [(&[u8], Request); 14] = [
        (b"qSupported:multiprocess+;swbreak+", Request::Supported),
        (b"qXfer:features:read:target.xml:0,1000", part),
        (b"qXfer:features:read:target.xml:0", Request::Wrong),
        (b"qXfer:features:read:other.xml:0,1000", Request::Unknown),
        (b"qfThreadInfo", Request::FirstThreads),
        (b"qsThreadInfo", Request::MoreThreads),
        (b"qC", Request::Current),
        (b"qThreadExtraInfo,2", Request::Text(Proc::Seven)),
        (b"qRcmd,7469636b", Request::Command(b"7469636b")),
        (b"qAttached", Request::Attached),
        (b"qSymbol::", Request::Symbols),
        (b"qOffsets", Request::Unknown),
        (b"QStartNoAckMode", Request::NoAck),
        (b"vMustReplyEmpty", Request::Unknown),
    ];
    for (body, request) in rows {
        assert!(rt; read_request(body) == request, "{body:?}");
    }
}
