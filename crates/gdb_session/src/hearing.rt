//! Bytes to bytes: what comes in from gdb, and what goes out.

ghost use Rattle.std.specs.Prelude.{◌≡◌};

use crate::commands::Outlet;
use crate::decks::Deck;
use crate::replies::Reply;
use crate::serving::serve;
use crate::sessions::Session;
use gdb_packets::{Answer, Framer, Heard, Request, read_request};
use std::alloc::{AllocError, Global};

/// The two ends of the line, and the session between them.
#[derive(Drop)]
pub struct Line {
    alloc: Global,
    framer: Framer,
    session: Session,
    reply: Reply,
    /// The packet that went out last, to be sent again where it was broken.
    last: Answer,
    /// Whether each packet is answered by a plus or a minus first.
    has_signs: bool,
    /// Whether gdb has gone.
    is_over: bool,
}

/// Whether a request is gdb's last, and whether it wants no more signs.
fn ends(request: Request) -> bool {
    matches!(request, Request::Detach | Request::Kill)
}

impl Line {
    /// A line on which nothing was heard.
    pub fn new(alloc: Global) -> Line {
        Line {
            alloc,
            framer: Framer::new(alloc),
            session: Session::new(alloc),
            reply: Reply::new(alloc),
            last: Answer::new(alloc),
            has_signs: true,
            is_over: false,
        }
    }

    /// Whether gdb has gone.
    pub fn is_over(&self) -> bool {
        self.is_over
    }

    /// Takes bytes, and puts what they are answered.
    pub fn hear<D: Deck, F: Outlet>(
        &mut self,
        deck: &mut D,
        files: &mut F,
        bytes: &[u8],
        out: &mut Answer,
    ) -> Result<(), AllocError>
        ensures boot { D.boot deck.new ≡ D.boot deck.old }
    {
        'bytes: for byte in bytes {
            if !self.is_over {
                self.hear_byte(deck, files, *byte, out)?;
            }
        }
        Ok(())
    }

    /// Takes a byte.
    fn hear_byte<D: Deck, F: Outlet>(
        &mut self,
        deck: &mut D,
        files: &mut F,
        byte: u8,
        out: &mut Answer,
    ) -> Result<(), AllocError>
        ensures boot { D.boot deck.new ≡ D.boot deck.old }
    {
        match self.framer.hear(byte)? {
            Heard::Nothing => Ok(()),
            Heard::Packet => self.answer(deck, files, out),
            Heard::Broken => self.put_sign(out, b"-"),
            Heard::Interrupt => {
                self.session.is_interrupted = true;
                Ok(())
            }
            Heard::Again => out.put(self.last.bytes()),
        }
    }

    /// Puts a sign, where there are any.
    fn put_sign(&self, out: &mut Answer, sign: &[u8]) -> Result<(), AllocError> {
        if self.has_signs {
            out.put(sign)
        } else {
            Ok(())
        }
    }

    /// Answers the packet that was heard.
    fn answer<D: Deck, F: Outlet>(
        &mut self,
        deck: &mut D,
        files: &mut F,
        out: &mut Answer,
    ) -> Result<(), AllocError>
        ensures boot { D.boot deck.new ≡ D.boot deck.old }
    {
        self.put_sign(out, b"+")?;
        self.reply.clear();
        let request = read_request(self.framer.body());
        serve(
            self.alloc,
            &mut self.session,
            deck,
            files,
            &mut self.reply,
            request,
        )?;
        if request == Request::NoAck {
            self.has_signs = false;
        }
        if ends(request) {
            self.is_over = true;
        }
        put_reply(self.alloc, &self.reply, &mut self.last)?;
        out.put(self.last.bytes())
    }
}

/// Puts the packets of a reply in the place of what was there: the text that gdb prints, where there is one, and the answer.
fn put_reply(alloc: Global, reply: &Reply, into: &mut Answer) -> Result<(), AllocError> {
    into.clear();
    if !reply.note.bytes().is_empty() {
        let mut note = Answer::new(alloc);
        note.put(b"O")?;
        note.put_answer(&reply.note)?;
        into.put_packet(note.bytes())?;
    }
    into.put_packet(reply.body.bytes())
}
