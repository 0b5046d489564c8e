//! Bytes to packets.

ghost use Rattle.std.specs.Prelude.{◌≡◌, ◌%◌, [], false, IfOk, OnOk};
ghost use Rattle.gdb_packets.specs.Hearing.{answer, byte_counted, byte_kept, heard, heard_in_body, hex_value, packet_begun, packet_ended, sign_of, PacketsAreHeard};
ghost use Rattle.gdb_packets.specs.declared.framing.Heard.TheVariants.{Nothing};
ghost use Rattle.gdb_packets.specs.declared.framing.Place.TheVariants.{Between, Body};

use std::alloc::{AllocError, Global};
use std::marker::Model;

/// The most bytes of a packet's body that are kept, which gdb is told (`PacketSize`); a longer one is broken.
pub const MOST_BODY: usize = 0x8000;

/// What a byte completed. (The GDB manual, "Overview" of the protocol, and "Interrupts".)
#[derive(Clone, Copy, PartialEq, Eq, Debug)]
pub enum Heard {
    /// Nothing yet, or a byte between packets that means nothing.
    Nothing,
    /// A packet whose sum is right; its body is kept until the next one begins.
    Packet,
    /// A packet whose sum is wrong, which has no sum, or which is too long: it is to be sent again.
    Broken,
    /// The byte 03h between packets: the user wants the program to stop.
    Interrupt,
    /// A minus: the last answer is to be sent again.
    Again,
}

/// Where in a packet the next byte stands.
#[derive(Clone, Copy)]
pub enum Place {
    /// Between packets.
    Between,
    /// In the body.
    Body,
    /// Behind a `}` in the body: the byte stands for itself with bit 5 turned.
    Escaped,
    /// The first digit of the sum.
    First,
    /// The second, by the value of the first, where it was a digit.
    Second(Option<u8>),
}

/// Takes bytes, and keeps the body of the packet that they make. Its value in contracts is how far that has come in.
#[derive(Drop)]
pub struct Framer {
    body: Vec<u8>,
    place: Place,
    sum: u8,
    is_long: bool,
}

impl Model for Framer {
    ghost use Rattle.gdb_packets.specs.Hearing.{Hearing};

    ghost Value = { Hearing };

    ghost view = { λ f. record { body = f.body.items; place = f.place; total = f.sum; is_long = f.is_long } };
}

/// The value of a hexadecimal digit in either case.
pub(crate) fn digit_value(byte: u8) -> Option<u8>
    ensures { result ≡ hex_value byte }
{
    match byte {
        b'0'..=b'9' => Some(byte - b'0'),
        b'a'..=b'f' => Some(byte - b'a' + 10),
        b'A'..=b'F' => Some(byte - b'A' + 10),
        _ => None,
    }
}

impl Framer {
    /// Between packets.
    pub fn new(alloc: Global) -> Framer
        ensures { result ≡ record { body = []; place = Between; total = 0; is_long = false } }
    {
        Framer {
            body: Vec::new(alloc),
            place: Place::Between,
            sum: 0,
            is_long: false,
        }
    }

    /// The body of the last packet.
    pub fn body(&self) -> &[u8]
        ensures { result.now ≡ self.now.body }
    {
        self.body.as_slice()
    }

    /// Takes a byte.
    pub fn hear(&mut self, byte: u8) -> Result<Heard, AllocError>
        ensures state { OnOk result (self.new ≡ heard self.old byte) }
        ensures answer { IfOk result (λ told. told ≡ answer self.old byte) }
    {
        match self.place {
            Place::Between => Ok(self.begin(byte)),
            Place::Body => {
                self.go_on(byte)?;
                Ok(Heard::Nothing)
            }
            Place::Escaped => {
                self.count(Place::Body, byte);
                self.keep(byte ^ 0x20)?;
                Ok(Heard::Nothing)
            }
            Place::First => {
                self.place = Place::Second(digit_value(byte));
                Ok(Heard::Nothing)
            }
            Place::Second(first) => Ok(self.end(first, byte)),
        }
    }

    /// A byte between packets.
    fn begin(&mut self, byte: u8) -> Heard
        ensures state { self.new ≡ packet_begun self.old byte }
        ensures answer { result ≡ sign_of byte }
    {
        match byte {
            b'$' => {
                self.body.clear();
                self.sum = 0;
                self.is_long = false;
                self.place = Place::Body;
                Heard::Nothing
            }
            b'-' => Heard::Again,
            3 => Heard::Interrupt,
            _ => Heard::Nothing,
        }
    }

    /// Counts a byte in the sum. The next one stands at a place.
    fn count(&mut self, place: Place, byte: u8)
        ensures { self.new ≡ byte_counted self.old place byte }
    {
        self.sum = self.sum.wrapping_add(byte);
        self.place = place;
    }

    /// A byte of the body, or the `#` that ends it. A `$` begins the packet anew: the front of one was lost.
    fn go_on(&mut self, byte: u8) -> Result<(), AllocError>
        ensures { OnOk result (self.new ≡ heard_in_body self.old byte) }
    {
        match byte {
            b'#' => self.place = Place::First,
            b'$' => {
                let _ = self.begin(byte);
            }
            b'}' => self.count(Place::Escaped, byte),
            _ => {
                self.count(Place::Body, byte);
                self.keep(byte)?;
            }
        }
        Ok(())
    }

    /// Keeps a byte of the body, up to the most.
    fn keep(&mut self, byte: u8) -> Result<(), AllocError>
        ensures { OnOk result (self.new ≡ byte_kept self.old byte) }
    {
        if self.body.len() >= MOST_BODY {
            self.is_long = true;
            return Ok(());
        }
        self.body.push(byte)?;
        Ok(())
    }

    /// The last digit of the sum.
    fn end(&mut self, first: Option<u8>, byte: u8) -> Heard
        ensures state { self.new ≡ record self.old { place = Between } }
        ensures answer { result ≡ packet_ended self.old first (hex_value byte) }
    {
        self.place = Place::Between;
        let (Some(high), Some(low)) = (first, digit_value(byte)) else {
            return Heard::Broken;
        };
        let told = high.wrapping_mul(16).wrapping_add(low);
        if told != self.sum || self.is_long {
            return Heard::Broken;
        }
        Heard::Packet
    }
}

/// Does nothing; its contract states that a packet which goes out as ours do, of up to 8000h bytes, comes in as its body: its last byte completes it,
/// and none before that anything.
#[tactic(auto, using(crate::proofs::Packets::packets_are_heard))]
pub fn hearing_laws()
    ensures { PacketsAreHeard }
{}
