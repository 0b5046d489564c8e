//! The geometry engine's calls.

ghost use Rattle.std.specs.Prelude.{◌≡◌, ◌<◌, ◌≤◌, ◌+◌, ◌-◌, ◌^◌, ℕ, true, is_some, length, Some, None, IsSome, IfOk};
ghost use Rattle.ds_base.specs.Bits.{bit, flag};
ghost use Rattle.ds_base.specs.Schedules.{IsEarly, IsLater, Reschedules};
ghost use Rattle.ds_base.specs.declared.ticks.Tick.{Tick};
ghost use Rattle.gx_matrix.specs.CommandTable.{command_of};
ghost use Rattle.gx_geometry.specs.States.{AreListsSince};
ghost use Rattle.gx_fifo.specs.Entries.{begun, done_after, complete_command, asks_for_swap, most_entries};
ghost use Rattle.gx_fifo.specs.PackedWords.{word_taken, entry_added};
ghost use Rattle.gx_fifo.specs.GxStates.{AddsOneVertex, IsGx, gx_at_boot, waiting_entries, shown_of, stalls_by, half_empty_by, level_by, shown_count, is_stalled, is_half_empty, gx_level, gx_status, display_control, read_port, gx_word, gx_kept, kept_port, gx_written, gx_finished, gx_swapped, disp3dcnt_written, gxstat_written, entries_came, engine_word, word_in, half_in};
ghost use Rattle.std.specs.Option.{option_or};

mod saved;

use crate::entries::Entries;
use crate::packed::Fifo;
use crate::ports::{GxPort, port_at};
use ds_base::{Tick, known};
use gx_geometry::{Geometry, Lists};
use gx_matrix::GeometryCommand;
pub use saved::{Asked, saved_laws};
use std::alloc::{AllocError, Global};
use std::marker::Model;

/// The geometry engine, its ports, and what waits for it. Contracts see the engine, the FIFO, when its head command is done, whether a swap
/// waits, and the kept bits of DISP3DCNT and GXSTAT.
#[derive(Drop)]
pub struct Gx {
    engine: Geometry,
    fifo: Fifo,
    due: Option<Tick>,
    swap_waits: bool,
    display: u32,
    selector: u32,
}

impl Model for Gx {
    ghost use Rattle.std.specs.Prelude.{◌≡◌, ◌<◌, ◌^◌, ◌&&◌, not, is_some, false};
    ghost use Rattle.ds_base.specs.Bits.{bit};
    ghost use Rattle.gx_fifo.specs.Entries.{complete_command};
    ghost use Rattle.gx_fifo.specs.GxStates.{GxState};

    ghost Value = { GxState };

    ghost view = { λ g. record {
      geometry = g.engine;
      fifo = g.fifo;
      due = g.due;
      swap_waits = g.swap_waits;
      display = g.display;
      selector = g.selector;
    } };

    ghost invariant = { λ g. (is_some g.due ≡ (not g.swap_waits && is_some (complete_command g.fifo.entries)))
        × (g.swap_waits ≡ false → g.engine.numbers.parameter ≡ 0) × (g.display < 2 ^ 15) × (bit 13 g.display ≡ false) × (g.selector < 2 ^ 2) };
}

/// When a command that begins at a tick is done.
fn done_after(now: Tick, command: GeometryCommand) -> Tick
    requires { IsEarly (Some now) }
    ensures { result ≡ done_after now command }
{
    Tick(now.0 + 2 * command.clocks() as u64)
}

/// When the head command is done that begins at a tick, where it does.
fn begun(now: Tick, swap_waits: bool, entries: &Entries) -> Option<Tick>
    requires { IsEarly (Some now) }
    ensures value { result ≡ begun now swap_waits entries.now }
    ensures later { IsLater now result }
{
    if swap_waits {
        return None;
    }
    match entries.complete() {
        None => None,
        Some(command) => Some(done_after(now, command)),
    }
}

/// When the head command is done after entries came at a tick.
fn due_after(due: Option<Tick>, now: Tick, swap_waits: bool, entries: &Entries) -> Option<Tick>
    requires { IsEarly (Some now) }
    ensures value { result ≡ option_or due (begun now swap_waits entries.now) }
    ensures schedule { Reschedules now due result }
{
    match due {
        Some(tick) => Some(tick),
        None => begun(now, swap_waits, entries),
    }
}

/// Whether a command asks for a swap.
#[tactic(auto, unfolding(crate::specs::Entries::asks_for_swap))]
fn asks_for_swap(command: GeometryCommand) -> bool
    ensures { result ≡ asks_for_swap command }
{
    matches!(command, GeometryCommand::SwapBuffers)
}

fn has(value: u32, n: u8) -> bool
    requires { n ≤ 31 }
    ensures { result ≡ bit n value }
{
    (value >> n) & 1 == 1
}

fn mark(n: u8, set: bool) -> u32
    requires { n ≤ 31 }
    ensures { result ≡ flag n set }
{
    if set { 1 << n } else { 0 }
}

/// A number of a list as an unsigned word; 0 past its end.
fn word_in(numbers: &[i32], i: usize) -> u32
    ensures { result ≡ word_in numbers.now i }
{
    match numbers.get(i) {
        Some(number) => number.cast_unsigned(),
        None => 0,
    }
}

/// A number of a list as an unsigned half; 0 past its end.
fn half_in(numbers: &[i16], i: usize) -> u32
    ensures value { result ≡ half_in numbers.now i }
    ensures within { result < 2 ^ 16 }
{
    match numbers.get(i) {
        Some(number) => number.cast_unsigned() as u32,
        None => 0,
    }
}

/// GXSTAT's count, by how many entries wait.
fn shown_of(waiting: u32) -> u32
    ensures value { result ≡ shown_of waiting }
    ensures within { result ≤ 256 }
{
    waiting.saturating_sub(4).min(256)
}

/// Whether so many hold up ARM9 and its DMA.
fn stalls_by(waiting: u32) -> bool
    ensures { result ≡ stalls_by waiting }
{
    waiting > 260
}

/// Whether GXSTAT's count is then below half of the FIFO.
fn half_empty_by(waiting: u32) -> bool
    ensures { result ≡ half_empty_by waiting }
{
    shown_of(waiting) < 128
}

/// The interrupt's level by GXSTAT's selector.
fn level_by(selector: u32, waiting: u32) -> bool
    ensures { result ≡ level_by selector waiting }
{
    match selector {
        1 => half_empty_by(waiting),
        2 => shown_of(waiting) == 0,
        _ => false,
    }
}

impl Gx {
    /// The engine at boot: nothing waits, and what is kept is 0. This alone takes memory.
    pub fn new(alloc: Global) -> Result<Gx, AllocError>
        ensures { IfOk result (λ g. g ≡ gx_at_boot) }
    {
        let engine = Geometry::new(alloc)?;
        let fifo = Fifo::new(alloc)?;
        Ok(Gx {
            engine,
            fifo,
            due: None,
            swap_waits: false,
            display: 0,
            selector: 0,
        })
    }

    /// How many entries wait.
    pub fn waiting(&self) -> u32
        ensures value { result ≡ waiting_entries self.now }
        ensures within { result ≤ most_entries }
    {
        self.fifo.entries().count()
    }

    /// Whether ARM9 and its DMA are held up: more than 260 entries wait.
    pub fn stalled(&self) -> bool
        ensures { result ≡ is_stalled self.now }
    {
        stalls_by(self.waiting())
    }

    /// GXSTAT's count.
    fn shown(&self) -> u32
        ensures value { result ≡ shown_count self.now }
        ensures within { result ≤ 256 }
    {
        shown_of(self.waiting())
    }

    /// Whether GXSTAT's count is below 128, by which DMA of start 7 is triggered.
    pub fn half_empty(&self) -> bool
        ensures { result ≡ is_half_empty self.now }
    {
        half_empty_by(self.waiting())
    }

    /// The level of the geometry FIFO's interrupt, by GXSTAT's selector.
    pub fn level(&self) -> bool
        ensures { result ≡ gx_level self.now }
    {
        level_by(self.selector, self.waiting())
    }

    /// When the head command is done, None exactly where none is under way.
    pub fn due(&self) -> Option<Tick>
        ensures { result ≡ self.now.due }
    {
        self.due
    }

    /// The lists of the last swap.
    pub fn lists(&self) -> &Lists
        ensures { result.now ≡ self.now.geometry.last }
    {
        self.engine.lists()
    }

    /// GXSTAT.
    #[tactic(auto, unfolding(crate::specs::GxStates::gx_status))]
    fn status(&self) -> u32
        ensures { result ≡ gx_status self.now }
    {
        let entries = self.fifo.entries();
        let stacks = self.engine.stacks();
        let shown = self.shown();
        mark(0, entries.has_test())
            + mark(1, self.engine.results().inside)
            + stacks.levels()
            + mark(14, entries.has_stack())
            + mark(15, stacks.error())
            + (shown << 16)
            + mark(25, shown < 128)
            + mark(26, shown == 0)
            + mark(27, entries.count() != 0 || self.swap_waits)
            + (self.selector << 30)
    }

    /// What a port of results reads.
    #[tactic(auto, unfolding(crate::specs::GxStates::engine_word))]
    fn result_of(&self, port: GxPort) -> u32
        ensures { result ≡ engine_word port self.now.geometry }
    {
        let results = self.engine.results();
        let stacks = self.engine.stacks();
        match port {
            GxPort::Lengths => results.polygons as u32 + ((results.vertices as u32) << 16),
            GxPort::Position(i) => word_in(&results.position, i as usize),
            GxPort::Vector(i) => {
                let first = 2 * (i as usize);
                half_in(&results.vector, first) + (half_in(&results.vector, first + 1) << 16)
            }
            GxPort::Clip(i) => word_in(&stacks.clip().cells, i as usize),
            GxPort::VectorMatrix(i) => {
                let (row, column) = (i as usize / 3, i as usize % 3);
                word_in(&stacks.vector().cells, row * 4 + column)
            }
            _ => 0,
        }
    }

    /// What a port reads, by its offset from 4000000h, a multiple of 4; 0 where it reads nothing.
    #[tactic(auto, unfolding(crate::specs::GxStates::read_port))]
    pub fn port_read(&self, at: u32) -> u32
        ensures { result ≡ gx_word self.now at }
    {
        match port_at(at) {
            GxPort::Display => self.display + mark(13, self.engine.results().overflow),
            GxPort::Status => self.status(),
            other => self.result_of(other),
        }
    }

    /// The bits of a port that stay where a write doesn't cover them.
    #[tactic(auto, unfolding(crate::specs::GxStates::kept_port))]
    pub fn port_kept(&self, at: u32) -> u32
        ensures { result ≡ gx_kept self.now at }
    {
        match port_at(at) {
            GxPort::Display => self.display,
            GxPort::Status => self.selector << 30,
            _ => 0,
        }
    }

    /// DISP3DCNT is written.
    fn write_display(&mut self, value: u32)
        ensures { self.new ≡ disp3dcnt_written value self.old }
    {
        self.display = (value & 0x1FFF) + mark(14, has(value, 14));
        if has(value, 13) {
            self.engine.clear_overflow();
        }
    }

    /// GXSTAT is written.
    fn write_status(&mut self, value: u32)
        ensures { self.new ≡ gxstat_written value self.old }
    {
        self.selector = value >> 30;
        if has(value, 15) {
            self.engine.clear_error();
        }
    }

    /// A packed word or a parameter is written.
    fn write_word(&mut self, word: u32, now: Tick)
        requires room { length self.old.fifo.entries ≤ most_entries - 4 }
        requires early { IsEarly (Some now) }
        ensures state { self.new ≡ entries_came now (word_taken word self.old.fifo) self.old }
        ensures grows { length self.new.fifo.entries ≤ length self.old.fifo.entries + 4 }
        ensures schedule { Reschedules now self.old.due self.new.due }
    {
        self.fifo.take_word(word);
        self.due = due_after(self.due, now, self.swap_waits, self.fifo.entries());
    }

    /// A word is written to the port of a code.
    fn write_entry(&mut self, code: u8, word: u32, now: Tick)
        requires room { length self.old.fifo.entries ≤ most_entries - 4 }
        requires early { IsEarly (Some now) }
        ensures state { self.new ≡ entries_came now (entry_added (command_of code) word self.old.fifo) self.old }
        ensures schedule { Reschedules now self.old.due self.new.due }
    {
        self.fifo.add(code, word);
        self.due = due_after(self.due, now, self.swap_waits, self.fifo.entries());
    }

    /// A word is written at a tick to a port, by its offset from 4000000h, a multiple of 4. It adds four entries at most.
    #[tactic(auto, unfolding(crate::specs::GxStates::write_port))]
    pub fn port_write(&mut self, at: u32, value: u32, now: Tick)
        requires room { length self.old.fifo.entries ≤ most_entries - 4 }
        requires early { IsEarly (Some now) }
        ensures state { self.new ≡ gx_written self.old at value now }
        ensures grows { length self.new.fifo.entries ≤ length self.old.fifo.entries + 4 }
        ensures schedule { Reschedules now self.old.due self.new.due }
    {
        match port_at(at) {
            GxPort::Display => self.write_display(value),
            GxPort::Fifo => self.write_word(value, now),
            GxPort::Direct(code) => self.write_entry(code, value, now),
            GxPort::Status => self.write_status(value),
            _ => (),
        }
    }

    /// The head command is done, at its due tick.
    pub fn finish(&mut self)
        requires due { IsSome self.old.due }
        requires early { IsEarly self.old.due }
        requires run { self.old.geometry.numbers.run ≤ 2 ^ 56 }
        ensures state { self.new ≡ gx_finished self.old }
        ensures schedule { (now : Tick) → self.old.due ≡ Some now → IsLater now self.new.due }
    {
        let (Some(now), Some(command)) = (self.due, self.fifo.entries().complete()) else {
            return;
        };
        let words = self.fifo.take(command);
        self.engine.take_command(command, words.as_slice());
        self.swap_waits = asks_for_swap(command);
        self.due = begun(now, self.swap_waits, self.fifo.entries());
    }

    /// Line 192 begins at a tick: a swap that waits is made. False exactly where none waits, and then nothing changes.
    pub fn swap(&mut self, now: Tick) -> bool
        requires { IsEarly (Some now) }
        ensures state { self.new ≡ gx_swapped now self.old }
        ensures waited { result ≡ self.old.swap_waits }
        ensures lists { self.old.swap_waits ≡ true → AreListsSince self.old.geometry self.new.geometry.last.vertices self.new.geometry.last.polygons }
        ensures schedule { Reschedules now self.old.due self.new.due }
    {
        if !self.swap_waits {
            return false;
        }
        self.engine.swap(now);
        self.swap_waits = false;
        self.due = begun(now, false, self.fifo.entries());
        true
    }

    /// Does nothing; its contract states what holds at every time: how many entries wait at most, that a command is due exactly where the head
    /// command is complete and no swap waits, and which bits are kept; and that the head command adds one vertex to the current run at most.
    pub fn laws(&self)
        ensures is { IsGx self.now }
        ensures run { AddsOneVertex self.now (gx_finished self.now) }
    {
        known!(self.engine.laws());
        let _entries = self.fifo.entries();
    }

    /// How many vertices the current run has.
    pub fn run_length(&self) -> u64
        ensures { result ≡ self.now.geometry.numbers.run }
    {
        self.engine.run_length()
    }
}
