//! The running points of affine backgrounds.

ghost use Rattle.std.specs.Prelude.{◌≡◌, ◌<◌, ◌≤◌, ◌+◌, ◌*◌};
ghost use Rattle.ds_base.specs.Numbers.{is_within, number_at};
ghost use Rattle.ds_base.specs.declared.memories.Width.TheVariants.{Half, Word};
ghost use Rattle.video2d.specs.DisplayRegisters.{engine_bytes};
ghost use Rattle.video2d.specs.Engines.{word_of_half, word_of_28, coordinate_at, point_at_boot, point_started, point_written, coordinate_stepped, point_stepped};

use std::marker::Model;

mod saved;

/// How many bytes an engine's ports have.
pub const PORTS: usize = 0x70;

/// The point at the left end of a line: each coordinate is a signed word with 8 fractional bits, as an unsigned number.
#[derive(Drop)]
pub struct Point {
    x: u32,
    y: u32,
}

impl Model for Point {
    ghost use Rattle.video2d.specs.Engines.{PointState};

    ghost Value = { PointState };

    ghost view = { λ p. record { x = p.x; y = p.y } };
}

/// The half at an offset.
pub fn half_at(ports: &[u8; PORTS], at: usize) -> u16
    requires { at + 2 ≤ engine_bytes }
    ensures { result ≡ number_at Half ports.now at }
{
    u16::from_le_bytes([ports[at], ports[at + 1]])
}

/// The word at an offset.
pub fn word_at(ports: &[u8; PORTS], at: usize) -> u32
    requires { at + 4 ≤ engine_bytes }
    ensures { result ≡ number_at Word ports.now at }
{
    u32::from_le_bytes([ports[at], ports[at + 1], ports[at + 2], ports[at + 3]])
}

fn word_of_half(half: u16) -> u32
    ensures { result ≡ word_of_half half }
{
    if half < 0x8000 {
        half as u32
    } else {
        half as u32 + 0xFFFF_0000
    }
}

fn word_of_28(number: u32) -> u32
    ensures { result ≡ word_of_28 number }
{
    let low = number % 0x1000_0000;
    if low < 0x800_0000 {
        low
    } else {
        low + 0xF000_0000
    }
}

fn coordinate_at(ports: &[u8; PORTS], at: usize) -> u32
    requires { at + 4 ≤ engine_bytes }
    ensures { result ≡ coordinate_at ports.now at }
{
    word_of_28(word_at(ports, at))
}

fn is_within(first: usize, bytes: usize, at: usize) -> bool
    requires known { first < engine_bytes }
    requires few { bytes ≤ 4 }
    ensures { result ≡ is_within first bytes at }
{
    first <= at && at < first + bytes
}

fn moved_by(coordinate: u32, half: u16) -> u32
    ensures { result ≡ coordinate_stepped coordinate half }
{
    coordinate.wrapping_add(word_of_half(half))
}

impl Point {
    /// At boot.
    pub fn new() -> Point
        ensures { result ≡ point_at_boot }
    {
        Point { x: 0, y: 0 }
    }

    /// Across, as an unsigned number.
    pub fn x(&self) -> u32
        ensures { result ≡ self.now.x }
    {
        self.x
    }

    /// Down, likewise.
    pub fn y(&self) -> u32
        ensures { result ≡ self.now.y }
    {
        self.y
    }

    /// The point becomes X and Y as they are kept, from an offset on.
    pub fn start(&mut self, ports: &[u8; PORTS], first: usize)
        requires { first + 8 ≤ engine_bytes }
        ensures { self.new ≡ point_started ports.now first }
    {
        self.x = coordinate_at(ports, first);
        self.y = coordinate_at(ports, first + 4);
    }

    /// The byte at an offset was written: a coordinate whose byte that is is copied, of X and Y, which stand from an offset on.
    pub fn write(&mut self, ports: &[u8; PORTS], first: usize, at: usize)
        requires { first + 8 ≤ engine_bytes }
        ensures { self.new ≡ point_written ports.now first at self.old }
    {
        if is_within(first, 4, at) {
            self.x = coordinate_at(ports, first);
        } else if is_within(first + 4, 4, at) {
            self.y = coordinate_at(ports, first + 4);
        }
    }

    /// One line further: PB and PD are added, of the slopes that stand from an offset on.
    pub fn step(&mut self, ports: &[u8; PORTS], slopes: usize)
        requires { slopes + 8 ≤ engine_bytes }
        ensures { self.new ≡ point_stepped ports.now slopes self.old }
    {
        self.x = moved_by(self.x, half_at(ports, slopes + 2));
        self.y = moved_by(self.y, half_at(ports, slopes + 6));
    }
}
