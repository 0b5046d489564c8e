//! The two 2D engines, and their registers.

ghost use Rattle.std.specs.Prelude.{◌≡◌, ◌<◌, ◌≤◌, slice_index, slice_set, ◌+◌};
ghost use Rattle.video2d.specs.DisplayRegisters.{engine_base, engine_bytes};
ghost use Rattle.video2d.specs.Engines.{engine_at_boot, dispcnt, bgcnt, bghofs, bgvofs, bldcnt, bldalpha, bldy, dispcapcnt, master_bright, background_mosaic, object_mosaic, points_started, points_stepped, points_after, point_of, slopes_at, engine_byte, engine_byte_written, engine_number, text_layer_of, affine_layer_of, ext_layer_of};

use crate::display_registers::{DisplayRegister, engine_row_at};
use crate::points::{PORTS, Point, half_at, word_at};
use bg_ext::ExtLayer;
use bg2d::{AffineLayer, TextLayer};
use std::marker::Model;

pub mod saved;

/// A 2D engine (GBATEK, "DS Video").
#[derive(Clone, Copy, PartialEq, Eq)]
pub enum Engine {
    /// Engine A, which has display capture, 3D and bases of its own beside what both have.
    A,
    /// Engine B.
    B,
}

impl Engine {
    /// Where its registers begin, from 4000000h.
    #[inline(always)]
    pub fn base(self) -> u32
        ensures { result ≡ engine_base self }
    {
        match self {
            Engine::A => 0,
            Engine::B => 0x1000,
        }
    }

    /// The number by which layers and objects know it.
    pub fn number(self) -> u8
        ensures { result ≡ engine_number self }
    {
        match self {
            Engine::A => 0,
            Engine::B => 1,
        }
    }
}

/// An engine's registers: what its ports keep, and the running points of backgrounds 2 and 3.
#[derive(Drop)]
pub struct EngineRegisters {
    ports: [u8; PORTS],
    two: Point,
    three: Point,
}

impl Model for EngineRegisters {
    ghost use Rattle.video2d.specs.Engines.{EngineState};

    ghost Value = { EngineState };

    ghost view = { λ e. record { ports = e.ports; two = e.two; three = e.three } };
}

impl EngineRegisters {
    /// At boot all is 0.
    #[tactic(auto, unfolding(ds_base::specs::Numbers::zeroes))]
    pub fn new() -> EngineRegisters
        ensures { result ≡ engine_at_boot }
    {
        EngineRegisters {
            ports: [0; PORTS],
            two: Point::new(),
            three: Point::new(),
        }
    }

    /// DISPCNT.
    pub fn dispcnt(&self) -> u32
        ensures { result ≡ dispcnt self.now }
    {
        word_at(&self.ports, DisplayRegister::Dispcnt.first())
    }

    /// BGxCNT of background n.
    pub fn bgcnt(&self, n: u8) -> u16
        requires { n < 4 }
        ensures { result ≡ bgcnt self.now n }
    {
        half_at(
            &self.ports,
            DisplayRegister::Bg0cnt.first() + 2 * n as usize,
        )
    }

    /// BGxHOFS.
    pub fn bghofs(&self, n: u8) -> u16
        requires { n < 4 }
        ensures { result ≡ bghofs self.now n }
    {
        half_at(
            &self.ports,
            DisplayRegister::Bg0hofs.first() + 4 * n as usize,
        )
    }

    /// BGxVOFS.
    pub fn bgvofs(&self, n: u8) -> u16
        requires { n < 4 }
        ensures { result ≡ bgvofs self.now n }
    {
        half_at(
            &self.ports,
            DisplayRegister::Bg0hofs.first() + 4 * n as usize + 2,
        )
    }

    /// BLDCNT.
    pub fn bldcnt(&self) -> u16
        ensures { result ≡ bldcnt self.now }
    {
        half_at(&self.ports, DisplayRegister::Bldcnt.first())
    }

    /// DISPCAPCNT.
    pub fn dispcapcnt(&self) -> u32
        ensures { result ≡ dispcapcnt self.now }
    {
        word_at(&self.ports, DisplayRegister::Dispcapcnt.first())
    }

    /// MASTER_BRIGHT.
    pub fn master_bright(&self) -> u16
        ensures { result ≡ master_bright self.now }
    {
        half_at(&self.ports, DisplayRegister::MasterBright.first())
    }

    /// BLDALPHA.
    pub fn bldalpha(&self) -> u16
        ensures { result ≡ bldalpha self.now }
    {
        half_at(&self.ports, DisplayRegister::Bldalpha.first())
    }

    /// The low byte of BLDY.
    pub fn bldy(&self) -> u8
        ensures { result ≡ bldy self.now }
    {
        self.ports[DisplayRegister::Bldy.first()]
    }

    /// The mosaic's sizes for backgrounds.
    pub fn background_mosaic(&self) -> u8
        ensures { result ≡ background_mosaic self.now }
    {
        self.ports[DisplayRegister::Mosaic.first()]
    }

    /// The mosaic's sizes for objects.
    pub fn object_mosaic(&self) -> u8
        ensures { result ≡ object_mosaic self.now }
    {
        self.ports[DisplayRegister::Mosaic.first() + 1]
    }

    /// A byte of the windows' registers.
    pub fn window_byte(&self, at: usize) -> u8
        requires { at < engine_bytes }
        ensures { result ≡ slice_index self.now.ports at }
    {
        self.ports[at]
    }

    /// The byte at an offset, as it is read.
    pub fn byte(&self, which: Engine, at: u32) -> u8
        requires { at < engine_bytes }
        ensures { result ≡ engine_byte which self.now at }
    {
        match engine_row_at(which, at) {
            None => 0,
            Some(row) => {
                if row.reads {
                    self.ports[at as usize]
                } else {
                    0
                }
            }
        }
    }

    /// The byte that is kept at an offset.
    pub fn kept(&self, at: u32) -> u8
        requires { at < engine_bytes }
        ensures { result ≡ slice_index self.now.ports at }
    {
        self.ports[at as usize]
    }

    fn copy_points(&mut self, at: usize)
        ensures { self.new ≡ points_after at self.old }
    {
        self.two
            .write(&self.ports, DisplayRegister::Bg2x.first(), at);
        self.three
            .write(&self.ports, DisplayRegister::Bg3x.first(), at);
    }

    /// A byte is written at an offset.
    pub fn write_byte(&mut self, which: Engine, at: u32, value: u8)
        requires { at < engine_bytes }
        ensures { self.new ≡ engine_byte_written which self.old at value }
    {
        match engine_row_at(which, at) {
            None => {}
            Some(row) => {
                self.ports[at as usize] = value & row.kept_bits(at);
                self.copy_points(at as usize);
            }
        }
    }

    /// Line 0 starts: the running points are those of X and Y.
    pub fn start_points(&mut self)
        ensures { self.new ≡ points_started self.old }
    {
        self.two.start(&self.ports, DisplayRegister::Bg2x.first());
        self.three.start(&self.ports, DisplayRegister::Bg3x.first());
    }

    /// One line further.
    pub fn step_points(&mut self)
        ensures { self.new ≡ points_stepped self.old }
    {
        self.two.step(&self.ports, DisplayRegister::Bg2pa.first());
        self.three.step(&self.ports, DisplayRegister::Bg3pa.first());
    }

    /// Background n as a text background.
    pub fn text_layer(&self, which: Engine, n: u8) -> TextLayer
        requires { n < 4 }
        ensures { result ≡ text_layer_of which self.now n }
    {
        TextLayer {
            engine: which.number(),
            number: n,
            display: self.dispcnt(),
            control: self.bgcnt(n),
            across: self.bghofs(n),
            down: self.bgvofs(n),
        }
    }

    /// The running point of background n, 2 or 3.
    fn point(&self, n: u8) -> &Point
        ensures { result.now ≡ point_of self.now n }
    {
        if n == 2 { &self.two } else { &self.three }
    }

    /// Background n, 2 or 3, as an affine background.
    pub fn affine_layer(&self, which: Engine, n: u8) -> AffineLayer
        requires { n < 4 }
        ensures { result ≡ affine_layer_of which self.now n }
    {
        AffineLayer {
            engine: which.number(),
            display: self.dispcnt(),
            control: self.bgcnt(n),
            x: self.point(n).x().cast_signed(),
            y: self.point(n).y().cast_signed(),
            pa: half_at(&self.ports, slopes(n)).cast_signed(),
            pc: half_at(&self.ports, slopes(n) + 4).cast_signed(),
        }
    }

    /// Background n, 2 or 3, as an extended background.
    pub fn ext_layer(&self, which: Engine, n: u8) -> ExtLayer
        requires { n < 4 }
        ensures { result ≡ ext_layer_of which self.now n }
    {
        ExtLayer {
            engine: which.number(),
            number: n,
            display: self.dispcnt(),
            control: self.bgcnt(n),
            x: self.point(n).x().cast_signed(),
            y: self.point(n).y().cast_signed(),
            pa: half_at(&self.ports, slopes(n)).cast_signed(),
            pc: half_at(&self.ports, slopes(n) + 4).cast_signed(),
        }
    }
}

/// Where PA to PD of background n stand, 2 or 3.
#[inline(always)]
fn slopes(n: u8) -> usize
    ensures is { result ≡ slopes_at n }
    ensures near { result + 8 ≤ engine_bytes }
{
    if n == 2 {
        DisplayRegister::Bg2pa.first()
    } else {
        DisplayRegister::Bg3pa.first()
    }
}
