//! The units behind the ports.
//!
//! `dues` tells when they are due, `events` what happens then; `values` is what each register reads and keeps, `often` those that are read
//! most, `writes` what a write does.

ghost use Rattle.std.specs.Prelude.{◌≡◌, ◌<◌, ◌^◌, ℕ, true, IfOk, Some, length, slice_index};
ghost use Rattle.ds_base.specs.Schedules.{IsEarly};
ghost use Rattle.gx_geometry.specs.States.{AreListsSince};
ghost use Rattle.vram_banks.specs.Cells.{vram_written};
ghost use Rattle.ds_ports.specs.HappeningLaws.{IsIo};
ghost use Rattle.ds_ports.specs.Io.{both_raised, geometry_swapped, io_at_boot, io_of, is_held, keys_pressed, with_halted};

mod dues;
mod events;
mod often;
mod values;
mod writes;

use crate::processor_io::ProcessorIo;
use ds_base::{Proc, Raised, Space, Tick, Width, known};
use ds_card::Card;
use ds_ipc::Ipc;
use ds_math::{Divider, Root};
use gx_fifo::Gx;
use std::alloc::{AllocError, Global};
use std::marker::Model;
use video2d::Video;
use vram_banks::Vram;

/// What WRAMCNT keeps at boot: ARM7 has all of the shared work RAM. (Our choice; GBATEK, "DS Memory Control - WRAM".)
const WRAMCNT_AT_BOOT: u8 = 3;

/// All units behind the ports. Those that are lent are asked for what they tell themselves.
#[derive(Drop)]
pub struct Units {
    video: Video,
    vram: Vram,
    wramcnt: u8,
    ipc: Ipc,
    pressed: u16,
    fill: [u32; 4],
    card: Card,
    divider: Divider,
    root: Root,
    gx: Gx,
    released: u64,
    nine: ProcessorIo,
    seven: ProcessorIo,
}

impl Model for Units {
    ghost use Rattle.ds_ports.specs.Io.{IoState};
    ghost use Rattle.std.specs.Prelude.{◌<◌, ◌^◌};

    ghost Value = { IoState };

    ghost view = { λ u. record {
      video = u.video;
      vram = u.vram;
      wramcnt = u.wramcnt;
      ipc = u.ipc;
      pressed = u.pressed;
      fill = u.fill;
      card = u.card;
      divider = u.divider;
      root = u.root;
      gx = u.gx;
      released = u.released;
      nine = u.nine;
      seven = u.seven;
    } };

    ghost invariant = { λ u. (u.wramcnt < 4) × (u.pressed < 2 ^ 12) };
}

/// The units by their parts: each of them, WRAMCNT, the keys that are pressed, the words of DMA0FILL to DMA3FILL, the tick before which ARM9's
/// channels aren't due, and what each processor has of its own.
#[derive(Drop)]
pub struct IoParts {
    /// The display.
    pub video: Video,
    /// Video memory.
    pub vram: Vram,
    /// What WRAMCNT keeps, below 4.
    pub wramcnt: u8,
    /// What passes between the processors.
    pub ipc: Ipc,
    /// A bit for each key that is pressed, below 2^12.
    pub pressed: u16,
    /// The words of DMA0FILL to DMA3FILL.
    pub fill: [u32; 4],
    /// The card.
    pub card: Card,
    /// The divider.
    pub divider: Divider,
    /// The square root unit.
    pub root: Root,
    /// Geometry with what waits for it.
    pub gx: Gx,
    /// The tick after the geometry command that ended the last stall, while it holds a channel of ARM9's back; else 0.
    pub released: u64,
    /// What ARM9 has of its own.
    pub nine: ProcessorIo,
    /// What ARM7 has of its own.
    pub seven: ProcessorIo,
}

/// Four words as they are.
fn four_words(words: [u32; 4]) -> [u32; 4]
    ensures value { result ≡ words }
    ensures four { length result ≡ 4 }
    ensures words { (i : ℕ) → slice_index result i < 2 ^ 32 }
{
    words
}

impl Units {
    /// The units by their parts.
    pub fn of(parts: IoParts) -> Units
        requires wramcnt { parts.wramcnt < 4 }
        requires pressed { parts.pressed < 2 ^ 12 }
        ensures { result ≡ parts }
    {
        let fill = parts.fill;
        Units {
            video: parts.video,
            vram: parts.vram,
            wramcnt: parts.wramcnt,
            ipc: parts.ipc,
            pressed: parts.pressed,
            fill,
            card: parts.card,
            divider: parts.divider,
            root: parts.root,
            gx: parts.gx,
            released: parts.released,
            nine: parts.nine,
            seven: parts.seven,
        }
    }

    /// The units at boot.
    pub fn new(alloc: Global) -> Result<Units, AllocError>
        ensures { IfOk result (λ io. io ≡ io_at_boot) }
    {
        let video = Video::new(alloc)?;
        let vram = Vram::new(alloc)?;
        let ipc = Ipc::new(alloc)?;
        let gx = Gx::new(alloc)?;
        Ok(Units {
            video,
            vram,
            wramcnt: WRAMCNT_AT_BOOT,
            ipc,
            pressed: 0,
            fill: [0; 4],
            card: Card::new(),
            divider: Divider::new(),
            root: Root::new(),
            gx,
            released: 0,
            nine: ProcessorIo::new(Proc::Nine),
            seven: ProcessorIo::new(Proc::Seven),
        })
    }

    /// The display.
    #[inline(always)]
    pub fn video(&self) -> &Video
        ensures { result.now ≡ self.now.video }
    {
        &self.video
    }

    /// What WRAMCNT keeps.
    #[inline(always)]
    pub fn wramcnt(&self) -> u8
        ensures value { result ≡ self.now.wramcnt }
        ensures within { result < 4 }
    {
        self.wramcnt
    }

    /// Video memory.
    #[inline(always)]
    pub fn vram(&self) -> &Vram
        ensures { result.now ≡ self.now.vram }
    {
        &self.vram
    }

    /// Geometry.
    #[inline(always)]
    pub fn gx(&self) -> &Gx
        ensures { result.now ≡ self.now.gx }
    {
        &self.gx
    }

    /// The FIFOs and the synchronisation between the processors.
    #[inline(always)]
    pub fn ipc(&self) -> &Ipc
        ensures { result.now ≡ self.now.ipc }
    {
        &self.ipc
    }

    /// The card.
    #[inline(always)]
    pub fn card(&self) -> &Card
        ensures { result.now ≡ self.now.card }
    {
        &self.card
    }

    /// The divider.
    pub fn divider(&self) -> &Divider
        ensures { result.now ≡ self.now.divider }
    {
        &self.divider
    }

    /// The square root unit.
    pub fn root(&self) -> &Root
        ensures { result.now ≡ self.now.root }
    {
        &self.root
    }

    /// A bit for each key that is pressed.
    pub fn pressed(&self) -> u16
        ensures value { result ≡ self.now.pressed }
        ensures within { result < 2 ^ 12 }
    {
        self.pressed
    }

    /// The words of DMA0FILL to DMA3FILL.
    pub fn fill(&self) -> [u32; 4]
        ensures value { result ≡ self.now.fill }
        ensures four { length result ≡ 4 }
        ensures words { (i : ℕ) → slice_index result i < 2 ^ 32 }
    {
        four_words(self.fill)
    }

    /// A write of video memory, at an address of one of its spaces.
    pub fn write_vram(&mut self, space: Space, at: u32, width: Width, value: u32)
        ensures { self.new ≡ record self.old { vram = vram_written self.old.vram space at width value } }
    {
        self.vram.write(space, at, width, value);
    }

    /// What a processor has of its own.
    #[inline(always)]
    pub fn processor(&self, proc: Proc) -> &ProcessorIo
        ensures { result.now ≡ io_of self.now proc }
    {
        match proc {
            Proc::Nine => &self.nine,
            Proc::Seven => &self.seven,
        }
    }

    /// Halts a processor, or lets it go on.
    #[inline(always)]
    pub fn set_halted(&mut self, proc: Proc, halted: bool)
        ensures { self.new ≡ with_halted proc self.old halted }
    {
        match proc {
            Proc::Nine => self.nine.set_halted(halted),
            Proc::Seven => self.seven.set_halted(halted),
        }
    }

    /// Line 192 begins at a tick: a swap that waits is made. Gives whether one waited.
    pub fn swap(&mut self, now: Tick) -> bool
        requires { IsEarly (Some now) }
        ensures state { self.new ≡ geometry_swapped now self.old }
        ensures waited { result ≡ self.old.gx.swap_waits }
        ensures lists { self.old.gx.swap_waits ≡ true
            → AreListsSince self.old.gx.geometry self.new.gx.geometry.last.vertices self.new.gx.geometry.last.polygons }
    {
        self.gx.swap(now)
    }

    /// Whether a processor isn't due: it is halted, a channel of it runs, or it is ARM9 and a stall of geometry holds it, which is where more
    /// entries wait than geometry's FIFO holds.
    #[inline(always)]
    pub fn is_held(&self, proc: Proc) -> bool
        ensures { result ≡ is_held self.now proc }
    {
        match proc {
            Proc::Nine => self.nine.is_blocked() || self.gx.stalled(),
            Proc::Seven => self.seven.is_blocked(),
        }
    }

    /// Does nothing; its contract states what holds of the units at every time: what holds of each processor's timers and DMA channels, and of
    /// what waits for geometry.
    pub fn laws(&self)
        ensures { IsIo self.now }
    {
        known!(self.nine.laws());
        known!(self.seven.laws());
        known!(self.gx.laws());
    }

    /// From now on these keys are pressed, a bit for each.
    pub fn press(&mut self, pressed: u16)
        requires { pressed < 2 ^ 12 }
        ensures { self.new ≡ keys_pressed self.old pressed }
    {
        self.pressed = pressed;
        self.nine.tell_keys(pressed);
        self.seven.tell_keys(pressed);
    }

    /// Raises bits of IF at both processors.
    fn raise(&mut self, raised: Raised)
        ensures { self.new ≡ both_raised self.old raised }
    {
        self.nine.raise(raised.nine);
        self.seven.raise(raised.seven);
    }
}
