//! The display as a whole.

ghost use Rattle.std.specs.Prelude.{◌≡◌, ◌<◌, ◌≤◌, ◌^◌, ◌%◌, ◌+◌, IfOk, IsTrue, IsFalse, length};
ghost use Rattle.video2d.specs.Kept.{kept_byte};
ghost use Rattle.video2d.specs.Pictures.{screen_of, line_place};
ghost use Rattle.video2d.specs.Scans.{scan_due, scan_due_tick, is_drawn_line, framed_by, starts_vblank};
ghost use Rattle.video2d.specs.Statuses.{status_word};
ghost use Rattle.video2d.specs.Videos.{video_at_boot, engine_of, status_of, video_shown, video_byte, video_byte_written, video_written, video_stop, drawn_with, video_blanked, video_line_started, video_raised, video_after_event, video_answer};

use crate::engines::{Engine, EngineRegisters};
use crate::frames::Frames;
use crate::lines::engine_line;
use crate::ports::{VideoPort, video_port};
use crate::scans::Scan;
use crate::statuses::{Status, half_byte, with_half_byte};
use crate::stops::needs_of_line;
use ds_base::{Proc, Raised, Stop, Tick, Width};
use std::alloc::{AllocError, Global};
use std::marker::Model;
use vram_banks::Vram;

mod saved;

pub use saved::saved_laws;

/// What an event does beside what it changes here.
#[derive(Clone, Copy)]
pub struct Shown {
    /// The bits of IF that it raises.
    pub raised: Raised,
    /// Whether it triggers V-blank DMA: the start of line 192 does.
    pub vblank: bool,
    /// Whether it triggers H-blank DMA: the H-blank of lines 0 to 191 does.
    pub hblank: bool,
    /// Whether it makes a frame whole: the start of line 192 does.
    pub frame: bool,
}

/// The display. Contracts see where it is, both processors' DISPSTAT, both engines' registers, POWCNT1, the frame being drawn, and the last
/// whole one.
#[derive(Drop)]
pub struct Video {
    scan: Scan,
    nine: Status,
    seven: Status,
    a: EngineRegisters,
    b: EngineRegisters,
    power: u16,
    frames: Frames,
}

impl Model for Video {
    ghost use Rattle.video2d.specs.Videos.{VideoState};

    ghost Value = { VideoState };

    ghost view = { λ v. record {
      scan = v.scan;
      nine = v.nine;
      seven = v.seven;
      a = v.a;
      b = v.b;
      power = v.power;
      drawn = v.frames.drawn;
      whole = v.frames.whole;
    } };
}

/// Which screen an engine is sent to: 0 is the upper, 1 the lower.
fn screen_of(which: Engine, power: u16) -> usize
    ensures value { result ≡ screen_of which power }
    ensures small { result ≤ 1 }
{
    if (power >> 15 == 1) == (which == Engine::A) {
        0
    } else {
        1
    }
}

/// Where a line stands in a frame.
fn line_place(screen: usize, line: u8) -> usize
    requires screen { screen ≤ 1 }
    requires drawn { line < 192 }
    ensures value { result ≡ line_place screen line }
    ensures inside { result + 256 ≤ 98304 }
    ensures whole { result % 256 ≡ 0 }
{
    256 * (192 * screen + line as usize)
}

impl Video {
    /// The display at boot: line 0 begins, all ports are 0, and both frames are black. It takes the memory of both frames; an error is want of
    /// memory alone.
    pub fn new(alloc: Global) -> Result<Video, AllocError>
        ensures { IfOk result (λ video. video ≡ video_at_boot) }
    {
        let frames = Frames::new(alloc)?;
        Ok(Video {
            scan: Scan::new(),
            nine: Status::new(),
            seven: Status::new(),
            a: EngineRegisters::new(),
            b: EngineRegisters::new(),
            power: 0,
            frames,
        })
    }

    /// When the next event is due: it always is.
    #[inline(always)]
    pub fn due(&self) -> Tick
        ensures { result ≡ scan_due_tick self.now.scan }
    {
        Tick(self.scan.due())
    }

    /// The last whole frame: 98,304 pixels, line by line, the upper screen's first; all 0 before the first one. Red, green and blue stand in bits
    /// 0 to 4, 5 to 9 and 10 to 14.
    pub fn frame(&self) -> &[u16]
        ensures value { result.now ≡ self.now.whole }
        ensures long { length result.now ≡ 98304 }
    {
        self.frames.whole()
    }

    /// When the last whole frame became so: at the start of its line 192. None where none is whole yet.
    pub fn framed(&self) -> Option<Tick>
        ensures { result ≡ framed_by self.now.scan }
    {
        self.scan.framed()
    }

    /// Whether the next event is the start of line 192, with which V-blank begins and a frame becomes whole.
    #[inline(always)]
    pub fn starts_vblank(&self) -> bool
        ensures { result ≡ starts_vblank self.now.scan }
    {
        self.scan.starts_vblank()
    }

    fn status(&self, proc: Proc) -> &Status
        ensures { result.now ≡ status_of self.now proc }
    {
        match proc {
            Proc::Nine => &self.nine,
            Proc::Seven => &self.seven,
        }
    }

    #[inline(always)]
    fn engine(&self, which: Engine) -> &EngineRegisters
        ensures { result.now ≡ engine_of self.now which }
    {
        match which {
            Engine::A => &self.a,
            Engine::B => &self.b,
        }
    }

    /// A processor's DISPSTAT as it is read, both bytes.
    #[inline(always)]
    pub fn status_read(&self, proc: Proc) -> u16
        ensures { result ≡ status_word (status_of self.now proc) }
    {
        self.status(proc).word()
    }

    /// VCOUNT as it is read, both bytes.
    #[inline(always)]
    pub fn line_read(&self) -> u16
        ensures { result ≡ self.now.scan.line }
    {
        self.scan.line()
    }

    /// The byte that a processor reads at an offset from 4000000h; 0 where the display has no port. A read changes nothing.
    pub fn port_read(&self, proc: Proc, at: u32) -> u8
        ensures { result ≡ video_byte proc self.now at }
    {
        match video_port(proc, at) {
            VideoPort::Status(byte) => half_byte(byte, self.status(proc).word()),
            VideoPort::Count(byte) => half_byte(byte, self.scan.line()),
            VideoPort::OfEngine(which, at) => self.engine(which).byte(which, at),
            VideoPort::Power(byte) => half_byte(byte, self.power),
            VideoPort::Nothing => 0,
        }
    }

    /// The byte that a port keeps at an offset from 4000000h, for a processor, whether it reads or not; 0 where nothing is kept.
    pub fn kept_byte(&self, proc: Proc, at: u32) -> u8
        ensures { result ≡ kept_byte proc self.now at }
    {
        match video_port(proc, at) {
            VideoPort::Status(byte) => half_byte(byte, self.status(proc).kept()),
            VideoPort::OfEngine(which, at) => self.engine(which).kept(at),
            VideoPort::Power(byte) => half_byte(byte, self.power),
            VideoPort::Count(_) => 0,
            VideoPort::Nothing => 0,
        }
    }

    #[tactic(auto, unfolding(crate::specs::Videos::video_byte_written))]
    fn write_byte(&mut self, proc: Proc, at: u32, value: u8)
        ensures { self.new ≡ video_byte_written proc at value self.old }
    {
        match video_port(proc, at) {
            VideoPort::Status(byte) => match proc {
                Proc::Nine => self.nine.write(byte, value),
                Proc::Seven => self.seven.write(byte, value),
            },
            VideoPort::OfEngine(which, at) => match which {
                Engine::A => self.a.write_byte(which, at, value),
                Engine::B => self.b.write_byte(which, at, value),
            },
            VideoPort::Power(byte) => self.power = with_half_byte(byte, self.power, value),
            VideoPort::Count(_) => {}
            VideoPort::Nothing => {}
        }
    }

    /// A processor writes at an offset from 4000000h, aligned down to the width: the bytes one after another, from the lowest on. Bytes that aren't
    /// ports of the display change nothing, VCOUNT's among them. A write of any byte of X or Y of an affine background copies it to the running
    /// point.
    pub fn port_write(&mut self, proc: Proc, at: u32, width: Width, value: u32)
        ensures { self.new ≡ video_written proc self.old at width value }
    {
        let [first, second, third, fourth] = value.to_le_bytes();
        match width {
            Width::Byte => self.write_byte(proc, at, first),
            Width::Half => {
                let at = at - at % 2;
                self.write_byte(proc, at, first);
                self.write_byte(proc, at + 1, second);
            }
            Width::Word => {
                let at = at - at % 4;
                self.write_byte(proc, at, first);
                self.write_byte(proc, at + 1, second);
                self.write_byte(proc, at + 2, third);
                self.write_byte(proc, at + 3, fourth);
            }
        }
    }

    /// Why the next event stops, if it does.
    fn stop(&self, oam: &[u8]) -> Option<Stop>
        requires { length oam.now ≡ 2048 }
        ensures { result ≡ video_stop oam.now self.now }
    {
        if self.scan.blanks_drawn() {
            needs_of_line(self.power, &self.a, &self.b, oam, self.scan.line() as u8)
        } else {
            None
        }
    }

    /// Draws an engine's line on its screen.
    fn draw(&mut self, vram: &Vram, palette: &[u8], oam: &[u8], which: Engine)
        requires colours { length palette.now ≡ 2048 }
        requires objects { length oam.now ≡ 2048 }
        requires drawn { IsTrue (is_drawn_line self.old.scan.line) }
        ensures { self.new ≡ record self.old { drawn = drawn_with vram.now palette.now oam.now self.old which self.old.drawn } }
    {
        let line = self.scan.line() as u8;
        let mut row = [0; 256];
        engine_line(
            vram,
            palette,
            oam,
            which,
            self.power,
            self.engine(which),
            line,
            &mut row,
        );
        let place = line_place(screen_of(which, self.power), line);
        self.frames.lay(place, &row);
    }

    /// A line's H-blank.
    fn blank(&mut self, vram: &Vram, palette: &[u8], oam: &[u8])
        requires colours { length palette.now ≡ 2048 }
        requires objects { length oam.now ≡ 2048 }
        requires early { scan_due self.old.scan ≤ 2 ^ 56 }
        requires blanks { IsFalse self.old.scan.blanked }
        ensures { self.new ≡ video_blanked vram.now palette.now oam.now self.old }
    {
        if self.scan.blanks_drawn() {
            self.draw(vram, palette, oam, Engine::A);
            self.draw(vram, palette, oam, Engine::B);
            self.a.step_points();
            self.b.step_points();
        }
        self.nine.blank();
        self.seven.blank();
        self.scan.advance();
    }

    /// The next line's start.
    fn start_line(&mut self, line: u16)
        requires { scan_due self.old.scan ≤ 2 ^ 56 }
        ensures { self.new ≡ video_line_started line self.old }
    {
        self.nine.start(line);
        self.seven.start(line);
        if line == 0 {
            self.a.start_points();
            self.b.start_points();
        }
        if line == 192 {
            self.frames.finish();
        }
        self.scan.advance();
    }

    /// The bits of IF that the next event raises, by a processor's DISPSTAT.
    fn raised(&self, status: &Status) -> u32
        ensures { result ≡ video_raised self.now status.now }
    {
        if self.scan.blanked() {
            status.raised_at_start(self.scan.next_line())
        } else {
            status.raised_at_hblank()
        }
    }

    /// What the next event does beside what it changes here.
    fn shown(&self) -> Shown
        ensures { result ≡ video_shown self.now }
    {
        Shown {
            raised: Raised {
                nine: self.raised(&self.nine),
                seven: self.raised(&self.seven),
            },
            vblank: self.starts_vblank(),
            hblank: self.scan.blanks_drawn(),
            frame: self.starts_vblank(),
        }
    }

    /// The next event: a line's H-blank, at which lines 0 to 191 are drawn, or the next line's start. `palette` and `oam` are the memories of both
    /// engines. It stops where the line that would be drawn needs what isn't there; then nothing changes.
    pub fn event(&mut self, vram: &Vram, palette: &[u8], oam: &[u8]) -> Result<Shown, Stop>
        requires colours { length palette.now ≡ 2048 }
        requires objects { length oam.now ≡ 2048 }
        requires early { scan_due self.old.scan ≤ 2 ^ 56 }
        ensures answer { result ≡ video_answer oam.now self.old }
        ensures state { self.new ≡ video_after_event vram.now palette.now oam.now self.old }
    {
        if let Some(stop) = self.stop(oam) {
            return Err(stop);
        }
        let shown = self.shown();
        if self.scan.blanked() {
            let line = self.scan.next_line();
            self.start_line(line);
        } else {
            self.blank(vram, palette, oam);
        }
        Ok(shown)
    }
}
