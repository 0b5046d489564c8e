//! Where the display is, and when its next event comes.

ghost use Rattle.std.specs.Prelude.{◌≡◌, ◌<◌, ◌≤◌, ◌^◌, Some};
ghost use Rattle.video2d.specs.Scans.{scan_at_boot, scan_due, scan_after, line_after, is_drawn_line, blanks_drawn_line, starts_vblank, framed_by, scan_before, scan_line_start};
ghost use Rattle.ds_base.specs.Schedules.{IsEarly};

use ds_base::Tick;
use std::marker::Model;

/// From a line's start to its H-blank event.
const HBLANK_TICKS: u64 = 3_212;
/// From a line's H-blank event to the next line's start.
const REST_TICKS: u64 = 1_048;
/// From a line's start to the next one's.
const LINE_TICKS: u64 = 4_260;
/// From a frame's start to the next one's.
const FRAME_TICKS: u64 = 1_120_380;
/// From a frame's start to that of its line 192, which makes it whole.
const WHOLE_TICKS: u64 = 817_920;
/// The last line of a frame.
const LAST_LINE: u16 = 262;
/// The first line that isn't drawn.
const VBLANK_LINE: u16 = 192;

/// Where the display is. The frame's number is kept for contracts and for no other use.
#[derive(Drop)]
pub struct Scan {
    frame: u64,
    line: u16,
    blanked: bool,
    due: u64,
}

impl Model for Scan {
    ghost use Rattle.std.specs.Prelude.{◌≡◌, ◌≤◌};
    ghost use Rattle.video2d.specs.Scans.{ScanState, scan_due};

    ghost Value = { ScanState };

    ghost view = { λ s. record { frame = s.frame; line = s.line; blanked = s.blanked } };

    ghost invariant = { λ s. (s.due ≡ scan_due (record { frame = s.frame; line = s.line; blanked = s.blanked })) × (s.line ≤ 262) };
}

impl Scan {
    /// At boot line 0 of the first frame begins.
    pub fn new() -> Scan
        ensures { result ≡ scan_at_boot }
    {
        Scan {
            frame: 0,
            line: 0,
            blanked: false,
            due: HBLANK_TICKS,
        }
    }

    /// Where the display is at a tick: all events that are due below it have been.
    pub fn before(at: Tick) -> Scan
        requires { IsEarly (Some at) }
        ensures { result ≡ scan_before at.0 }
    {
        let ticks = at.0.saturating_sub(1);
        let frame = ticks / FRAME_TICKS;
        let line = ticks % FRAME_TICKS / LINE_TICKS;
        let blanked = ticks % FRAME_TICKS % LINE_TICKS >= HBLANK_TICKS;
        let wait = if blanked { LINE_TICKS } else { HBLANK_TICKS };
        Scan {
            frame,
            line: line as u16,
            blanked,
            due: frame * FRAME_TICKS + line * LINE_TICKS + wait,
        }
    }

    /// When the next event is due, in ticks.
    #[inline(always)]
    pub fn due(&self) -> u64
        ensures { result ≡ scan_due self.now }
    {
        self.due
    }

    /// The line.
    pub fn line(&self) -> u16
        ensures value { result ≡ self.now.line }
        ensures within { result ≤ 262 }
    {
        self.line
    }

    /// Whether the line's H-blank event has been.
    pub fn blanked(&self) -> bool
        ensures { result ≡ self.now.blanked }
    {
        self.blanked
    }

    /// Whether the next event is the H-blank of a line that is drawn.
    pub fn blanks_drawn(&self) -> bool
        ensures value { result ≡ blanks_drawn_line self.now }
    {
        !self.blanked && self.line < VBLANK_LINE
    }

    /// Whether the next event is the start of line 192.
    pub fn starts_vblank(&self) -> bool
        ensures { result ≡ starts_vblank self.now }
    {
        self.blanked && self.line == VBLANK_LINE - 1
    }

    /// When the present line began.
    fn line_start(&self) -> u64
        ensures { result ≡ scan_line_start self.now }
    {
        if self.blanked {
            self.due - LINE_TICKS
        } else {
            self.due - HBLANK_TICKS
        }
    }

    /// When the last whole frame became so, if one is.
    pub fn framed(&self) -> Option<Tick>
        ensures { result ≡ framed_by self.now }
    {
        let line_start = self.line_start();
        let start = line_start - LINE_TICKS * self.line as u64;
        if self.line >= VBLANK_LINE {
            return Some(Tick(start + WHOLE_TICKS));
        }
        if start == 0 {
            return None;
        }
        Some(Tick(start - FRAME_TICKS + WHOLE_TICKS))
    }

    /// The line after the present one.
    pub fn next_line(&self) -> u16
        ensures { result ≡ line_after self.now.line }
    {
        if self.line == LAST_LINE {
            0
        } else {
            self.line + 1
        }
    }

    /// The next event comes.
    pub fn advance(&mut self)
        requires { scan_due self.old ≤ 2 ^ 56 }
        ensures { self.new ≡ scan_after self.old }
    {
        if !self.blanked {
            self.blanked = true;
            self.due += REST_TICKS;
            return;
        }
        self.blanked = false;
        self.due += HBLANK_TICKS;
        if self.line == LAST_LINE {
            self.line = 0;
            self.frame += 1;
        } else {
            self.line += 1;
        }
    }
}
