//! A memory for tests.

ghost use Rattle.std.specs.Prelude.{◌≡◌, ◌≤◌, ◌<◌, ◌+◌, ◌%◌, length};
ghost use Rattle.ds_base.specs.Numbers.{width_bytes, number_at, with_number};
ghost use Rattle.arm_core.specs.Flats.{flat_place};

use crate::buses::Bus;
use ds_base::{Stop, Width};
use std::marker::Model;

/// A memory that is one list of bytes: address a is the byte at a modulo the list's length. No write is refused. Contracts see it as
/// the list.
#[derive(Drop)]
pub struct FlatBus {
    bytes: Vec<u8>,
}

impl Model for FlatBus {
    ghost use Rattle.std.specs.Prelude.{ℕ, List, length, ◌≤◌, ◌≡◌, ◌%◌};

    ghost Value = { List ℕ };

    ghost view = { λ f. f.bytes.items };

    ghost invariant = { λ f. (length f.bytes.items % 4 ≡ 0) × (4 ≤ length f.bytes.items) };
}

impl FlatBus {
    /// A memory of these bytes, of which there are a multiple of 4, and some.
    pub fn new(bytes: Vec<u8>) -> FlatBus
        requires words { length bytes.items % 4 ≡ 0 }
        requires some { 4 ≤ length bytes.items }
        ensures { result ≡ bytes.items }
    {
        FlatBus { bytes }
    }

    /// Its bytes.
    pub fn bytes(&self) -> &[u8]
        ensures { result.now ≡ self.now }
    {
        self.bytes.as_slice()
    }

    /// Where an access's first byte stands.
    fn place(&self, at: u32, width: Width) -> usize
        ensures place { result ≡ flat_place self.now at width }
        ensures within { result + width_bytes width ≤ length self.now }
    {
        let place = at as usize % self.bytes.len();
        match width {
            Width::Byte => place,
            Width::Half => place - place % 2,
            Width::Word => place - place % 4,
        }
    }

    fn number(&self, place: usize, width: Width) -> u32
        requires { place + width_bytes width ≤ length self.now }
        ensures { result ≡ number_at width self.now place }
    {
        let bytes = &self.bytes;
        match width {
            Width::Byte => bytes[place] as u32,
            Width::Half => bytes[place] as u32 + 256 * bytes[place + 1] as u32,
            Width::Word => u32::from_le_bytes([
                bytes[place],
                bytes[place + 1],
                bytes[place + 2],
                bytes[place + 3],
            ]),
        }
    }

    fn set_number(&mut self, place: usize, width: Width, value: u32)
        requires { place + width_bytes width ≤ length self.old }
        ensures { self.new ≡ with_number width self.old place value }
    {
        let [first, second, third, fourth] = value.to_le_bytes();
        self.bytes[place] = first;
        if width == Width::Byte {
            return;
        }
        self.bytes[place + 1] = second;
        if width == Width::Half {
            return;
        }
        self.bytes[place + 2] = third;
        self.bytes[place + 3] = fourth;
    }
}

impl Bus for FlatBus {
    ghost use Rattle.std.specs.Prelude.{ℕ, List, []};
    ghost use Rattle.arm_core.specs.Flats.{flat_memory};

    ghost State = { List ℕ };

    ghost state = { λ f. f };

    ghost memory = { flat_memory };

    ghost identity = { λ f. [] };

    fn fetch(&mut self, at: u32, width: Width) -> u32 {
        self.number(self.place(at, width), width)
    }

    fn read(&mut self, at: u32, width: Width) -> u32 {
        self.number(self.place(at, width), width)
    }

    fn write(&mut self, at: u32, width: Width, value: u32) -> Option<Stop> {
        let place = self.place(at, width);
        self.set_number(place, width, value);
        None
    }
}
