//! What the lines are tried on: a display, video memory, and the memories of palettes and objects.

ghost use Rattle.std.specs.Prelude.{◌<◌};

use super::{Line, Screen, Starts};
use ds_base::{Proc, Space, Stop, Width};
use std::alloc::{AllocError, Global};
use video2d::{Shown, Video};
use vram_banks::Vram;

/// Colour i of engine A's background palette is 4000h + i, and of engine B's 2000h + i; bit 15, which counts for nothing, is set in every other
/// one. All objects are off.
#[derive(Drop)]
pub struct Stage {
    video: Video,
    vram: Vram,
    palette: [u8; 2048],
    oam: [u8; 2048],
}

impl Stage {
    pub fn new(alloc: Global) -> Result<Stage, AllocError> {
        let mut palette = [0; 2048];
        for i in 0..256usize {
            let top = if i % 2 == 0 { 0 } else { 0x80 };
            palette[2 * i] = i as u8;
            palette[2 * i + 1] = 0x40 + top;
            palette[2 * i + 1024] = i as u8;
            palette[2 * i + 1025] = 0x20 + top;
        }
        let mut oam = [0; 2048];
        for n in 0..256usize {
            oam[8 * n + 1] = 2;
        }
        Ok(Stage {
            video: Video::new(alloc)?,
            vram: Vram::new(alloc)?,
            palette,
            oam,
        })
    }

    /// The display.
    pub fn video(&self) -> &Video {
        &self.video
    }

    /// Takes one line, and gives what was seen and what is wanted, 0 and 0 where nothing is asked.
    pub fn seen(&mut self, line: Line) -> (u64, u64) {
        match line {
            Line::Write(proc, at, width, value) => self.video.port_write(proc, at, width, value),
            Line::Bank(bank, value) => self.vram.set_control(bank.wrapping_sub(b'A') % 9, value),
            Line::Fill(space, at, count, value) => self.fill(space, at % 0x100000, count, value),
            Line::Count(space, at) => self.count(space, at % 0x100000),
            Line::Backgrounds => self.backgrounds(),
            Line::Objects => self.objects(),
            Line::Object(n, first, second, third) => self.object(n % 256, [first, second, third]),
            Line::Colour(n, colour) => {
                let [low, high] = colour.to_le_bytes();
                self.palette[2 * (n % 1024)] = low;
                self.palette[2 * (n % 1024) + 1] = high;
            }
            Line::Layers(base, display, zero, one, two, three) => {
                self.layers(base % 0x2000, display, [zero, one, two, three])
            }
            asked => return self.asked(asked),
        }
        (0, 0)
    }

    /// What is asked of the display.
    fn asked(&mut self, line: Line) -> (u64, u64) {
        match line {
            Line::Reads(proc, at, byte) => (self.video.port_read(proc, at) as u64, byte as u64),
            Line::Due(tick) => (self.video.due().0, tick),
            Line::ToLine(line) => (self.go_to(line, false), 0),
            Line::ToHblank(line) => (self.go_to(line, true), 0),
            Line::NextFrame => (self.next_frame(), 0),
            Line::Event(nine, seven, starts) => (self.event_faults([nine, seven], starts), 0),
            Line::Stops(kind, value) => (self.stop_faults(Stop { kind, value }), 0),
            Line::Pixel(screen, line, x, colour) => (self.pixel(screen, line, x), colour as u64),
            _ => (0, 1),
        }
    }

    fn event(&mut self) -> Option<Result<Shown, Stop>> {
        if self.video.due().0 > 1 << 40 {
            return None;
        }
        Some(self.video.event(&self.vram, &self.palette, &self.oam))
    }

    fn vcount(&self) -> u16 {
        self.video.port_read(Proc::Nine, 6) as u16
            + 256 * (self.video.port_read(Proc::Nine, 7) % 2) as u16
    }

    fn blanked(&self) -> bool {
        (self.video.port_read(Proc::Nine, 4) >> 1) % 2 == 1
    }

    /// 0 where the display comes there.
    fn go_to(&mut self, line: u16, blanked: bool) -> u64 {
        for _ in 0..527u32 {
            if self.vcount() == line && self.blanked() == blanked {
                return 0;
            }
            if !matches!(self.event(), Some(Ok(_))) {
                return 1;
            }
        }
        2
    }

    /// 0 where the next frame is made whole.
    fn next_frame(&mut self) -> u64 {
        match self.go_to(191, true) {
            0 => self.go_to(192, false),
            fault => fault,
        }
    }

    /// How many of the event's answers aren't those.
    fn event_faults(&mut self, raised: [u32; 2], starts: Starts) -> u64 {
        let vblank = matches!(starts, Starts::VblankDma);
        let hblank = matches!(starts, Starts::HblankDma);
        match self.event() {
            Some(Ok(shown)) => {
                (shown.raised.nine != raised[0]) as u64
                    + (shown.raised.seven != raised[1]) as u64
                    + (shown.vblank != vblank) as u64
                    + (shown.frame != vblank) as u64
                    + (shown.hblank != hblank) as u64
            }
            _ => 8,
        }
    }

    /// 0 where the event stops so, and is due as it was, in the line and phase as it was.
    fn stop_faults(&mut self, wanted: Stop) -> u64 {
        let (due, line, blanked) = (self.video.due().0, self.vcount(), self.blanked());
        match self.event() {
            Some(Err(stop)) => {
                (stop != wanted) as u64
                    + (self.video.due().0 != due) as u64
                    + (self.vcount() != line) as u64
                    + (self.blanked() != blanked) as u64
            }
            _ => 8,
        }
    }

    fn pixel(&self, screen: Screen, line: usize, x: usize) -> u64 {
        let first = match screen {
            Screen::Upper => 0,
            Screen::Lower => 192,
        };
        let place = 256 * (first + line % 192) + x % 256;
        match self.video.frame().get(place) {
            Some(pixel) => *pixel as u64,
            None => 0x1_0000,
        }
    }

    fn fill(&mut self, space: Space, base: u32, count: u32, value: u32)
        requires { base < 0x100000 }
    {
        for k in 0..count % 0x1000 {
            self.vram.write(space, base + 4 * k, Width::Word, value);
        }
    }

    fn count(&mut self, space: Space, base: u32)
        requires { base < 0x100000 }
    {
        for k in 0..64u32 {
            self.vram.write(space, base + k, Width::Byte, 0x80 + k);
        }
    }

    /// Bank A is engine A's, bank C engine B's. Text maps of 2K stand at 0, 800h, 1000h and 1800h: their entries have tile 0, with palettes 1 to 4;
    /// in the first, each line's second entry has tile 1 instead. Tiles stand at 4000h. As 16 colours tile 0 has index 1 everywhere, and tile 1
    /// is transparent. So the colours are 11h, 21h, 31h and 41h past the palette's first. Affine maps of 16 by 16 entries stand at 2000h, 2800h and
    /// 3000h: they have tiles 2, 3 and 4. Tile 2 has index 61h everywhere, tile 3 has 71h, and pixel (x, y) of tile 4 has 80h + 8 y + x.
    fn backgrounds(&mut self) {
        self.vram.set_control(0, 0x81);
        self.vram.set_control(2, 0x84);
        for space in [Space::ABg, Space::BBg] {
            self.fill(space, 0, 0x200, 0x1000_1000);
            for row in 0..32u32 {
                self.vram.write(space, 64 * row, Width::Word, 0x1001_1000);
            }
            self.fill(space, 0x800, 0x200, 0x2000_2000);
            self.fill(space, 0x1000, 0x200, 0x3000_3000);
            self.fill(space, 0x1800, 0x200, 0x4000_4000);
            self.fill(space, 0x2000, 0x40, 0x0202_0202);
            self.fill(space, 0x2800, 0x40, 0x0303_0303);
            self.fill(space, 0x3000, 0x40, 0x0404_0404);
            self.fill(space, 0x4000, 8, 0x1111_1111);
            self.fill(space, 0x4080, 16, 0x6161_6161);
            self.fill(space, 0x40C0, 16, 0x7171_7171);
            self.count(space, 0x4100);
        }
    }

    /// Bank B is engine A's objects', bank D engine B's. In 16 colours tile 0 has index 1 everywhere, tile 1 is transparent, tile 2 has index 2, and
    /// tile 3 has index 1 in its left half, and is transparent in its right one.
    fn objects(&mut self) {
        self.vram.set_control(1, 0x82);
        self.vram.set_control(3, 0x84);
        for space in [Space::AObj, Space::BObj] {
            self.fill(space, 0, 8, 0x1111_1111);
            self.fill(space, 0x40, 8, 0x2222_2222);
            self.fill(space, 0x60, 8, 0x0000_1111);
        }
    }

    /// An object's attributes; engine B's objects are those from 128 on.
    fn object(&mut self, n: usize, attributes: [u16; 3])
        requires { n < 256 }
    {
        for k in 0..3usize {
            let [low, high] = attributes[k].to_le_bytes();
            self.oam[8 * n + 2 * k] = low;
            self.oam[8 * n + 2 * k + 1] = high;
        }
    }

    fn layers(&mut self, base: u32, display: u32, controls: [u16; 4])
        requires { base < 0x2000 }
    {
        self.write(base, Width::Word, display);
        self.write(base + 8, Width::Half, controls[0] as u32);
        self.write(base + 10, Width::Half, controls[1] as u32);
        self.write(base + 12, Width::Half, controls[2] as u32);
        self.write(base + 14, Width::Half, controls[3] as u32);
    }

    fn write(&mut self, at: u32, width: Width, value: u32) {
        self.video.port_write(Proc::Nine, at, width, value);
    }
}
