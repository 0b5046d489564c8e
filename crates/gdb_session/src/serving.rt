//! Packets to answers.

ghost use Rattle.std.specs.Prelude.{◌≡◌};

use crate::commands::{Outlet, command};
use crate::decks::Deck;
use crate::replies::{
    Reply, put_features, put_memory, put_one_register, put_registers, put_standing, put_text,
    thread_of,
};
use crate::sessions::{Session, go_back, go_on};
use gdb_packets::{Answer, Point, Request};
use std::alloc::{AllocError, Global};

/// What gdb is told of this side.
const FEATURES: &[u8] =
    b"PacketSize=8000;QStartNoAckMode+;vContSupported+;swbreak+;ReverseStep+;ReverseContinue+;qXfer:features:read+";

/// The answer to a request that asks nothing of the machine, nor changes it; None where it does.
fn fixed(request: Request) -> Option<&'static [u8]> {
    match request {
        Request::Supported => Some(FEATURES),
        Request::NoAck | Request::Alive | Request::Symbols => Some(b"OK"),
        Request::Detach | Request::Kill => Some(b"OK"),
        Request::FirstThreads => Some(b"m1,2"),
        Request::MoreThreads => Some(b"l"),
        Request::Actions => Some(b"vCont;c;C;s;S;r"),
        Request::Attached => Some(b"1"),
        Request::Change | Request::Wrong => Some(b"E01"),
        Request::Unknown => Some(b""),
        _ => None,
    }
}

/// Puts a point, or says that there is no such kind.
fn insert(session: &mut Session, into: &mut Answer, point: Point) -> Result<(), AllocError> {
    let proc = session.looked_at();
    if session.points.insert(point, proc)? {
        into.put(b"OK")
    } else {
        into.put(b"E01")
    }
}

/// Takes a point away.
fn remove(session: &mut Session, into: &mut Answer, point: Point) -> Result<(), AllocError> {
    session.points.remove(point)?;
    into.put(b"OK")
}

/// A request that changes the session alone; false where it isn't one.
fn choose(session: &mut Session, into: &mut Answer, request: Request) -> Result<bool, AllocError> {
    match request {
        Request::Look(proc) => {
            session.choose_look(proc);
            into.put(b"OK")?;
        }
        Request::Aim(proc) => {
            session.choose_aim(proc);
            into.put(b"OK")?;
        }
        Request::Insert(point) => insert(session, into, point)?,
        Request::Remove(point) => remove(session, into, point)?,
        Request::Current => {
            into.put(b"QC")?;
            into.put(thread_of(session.stop.proc))?;
        }
        _ => return Ok(false),
    }
    Ok(true)
}

/// A request that looks at the machine; false where it isn't one.
fn look<D: Deck>(
    alloc: Global,
    session: &Session,
    deck: &D,
    reply: &mut Reply,
    request: Request,
) -> Result<bool, AllocError> {
    let proc = session.looked_at();
    match request {
        Request::Features { offset, length } => {
            put_features(alloc, &mut reply.body, offset, length)?;
        }
        Request::Reason => put_standing(reply, session, deck)?,
        Request::Text(proc) => put_text(&mut reply.body, deck, proc)?,
        Request::Registers => put_registers(&mut reply.body, deck, proc)?,
        Request::Register(number) => put_one_register(&mut reply.body, deck, proc, number)?,
        Request::Memory { at, length } => put_memory(&mut reply.body, deck, proc, at, length)?,
        _ => return Ok(false),
    }
    Ok(true)
}

/// A request that moves the machine; false where it isn't one.
fn moves<D: Deck>(session: &mut Session, deck: &mut D, request: Request) -> bool
    ensures boot { D.boot deck.new ≡ D.boot deck.old }
{
    match request {
        Request::Go(going) => go_on(session, deck, going),
        Request::BackStep => go_back(session, deck, true),
        Request::BackOn => go_back(session, deck, false),
        _ => return false,
    }
    true
}

/// Answers a request.
pub fn serve<D: Deck, F: Outlet>(
    alloc: Global,
    session: &mut Session,
    deck: &mut D,
    files: &mut F,
    reply: &mut Reply,
    request: Request,
) -> Result<(), AllocError>
    ensures boot { D.boot deck.new ≡ D.boot deck.old }
{
    if let Some(text) = fixed(request) {
        return reply.body.put(text);
    }
    if choose(session, &mut reply.body, request)? || look(alloc, session, deck, reply, request)? {
        return Ok(());
    }
    if let Request::Command(digits) = request {
        return command(alloc, session, deck, files, &mut reply.body, digits);
    }
    if moves(session, deck, request) {
        put_standing(reply, session, deck)?;
    }
    Ok(())
}
