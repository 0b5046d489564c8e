//! The geometry engine and what waits for it in bytes.

ghost use Rattle.std.specs.Prelude.{◌≡◌, ◌<◌, ◌≤◌, ◌^◌, ℕ, Bool, is_some, true, false, IfOk, OnOk};
ghost use Rattle.ds_base.specs.Bits.{bit};
ghost use Rattle.ds_state.specs.Formats.{bytes_written, flag_code, keeps_mask, number_code};
ghost use Rattle.ds_state.specs.Reading.{GivesIn, GivesRead, read_code, read_format, ruled};
ghost use Rattle.gx_fifo.specs.Entries.{complete_command, most_entries};
ghost use Rattle.gx_fifo.specs.Saved.{GxIsSaved, HasGxBounds, asks_nothing, count_by, gx_format, gx_format_by, holds_by, may_wait};

use crate::entries::{ENTRIES, take_entries};
use crate::gx::{Gx, half_empty_by, level_by, stalls_by};
use crate::packed::{Fifo, take_left};
use ds_base::{Tick, known};
use ds_state::{Packer, Unpacked, Unpacker, holds};
use gx_geometry::Geometry;
use std::alloc::{AllocError, Global};

/// What the rest of a machine asks of how many entries wait.
#[derive(Clone, Copy)]
pub struct Asked {
    /// Never so many: the processor is halted, and one of its other interrupts would wake it.
    pub wakes: bool,
    /// The interrupt's level is down: the processor is halted, and would hear it.
    pub hears: bool,
    /// A stall: the processor's next step is late, and nothing else holds it.
    pub late: bool,
    /// The FIFO isn't half empty: a DMA channel waits for it to be so.
    pub waits: bool,
}

impl Asked {
    /// Nothing is asked.
    pub fn nothing() -> Asked
        ensures { result ≡ asks_nothing }
    {
        Asked {
            wakes: false,
            hears: false,
            late: false,
            waits: false,
        }
    }

    /// Whether it holds with GXSTAT's selector and so many entries.
    fn holds(self, selector: u32, waiting: u32) -> bool
        ensures { result ≡ holds_by self selector waiting }
    {
        !(self.wakes
            || (self.hears && level_by(selector, waiting))
            || (self.late && !stalls_by(waiting))
            || (self.waits && half_empty_by(waiting)))
    }
}

/// The bits of DISP3DCNT that are kept beside the lists' overflow.
const DISPLAY: u16 = 0x5FFF;

/// Takes DISP3DCNT's kept bits.
#[tactic(auto, using(crate::proofs::SavedLaws::mask_small, crate::proofs::SavedLaws::mask_apart))]
fn take_display(from: &mut Unpacker) -> Result<u16, Unpacked>
    ensures reads { GivesRead (λ d. d) result from.new (ruled (keeps_mask 0x5FFF 0) from.old (read_code (number_code 2) from.old)) }
    ensures small { IfOk result (λ d. d < 2 ^ 15) }
    ensures apart { IfOk result (λ d. bit 13 d ≡ false) }
{
    let offset = from.place();
    let display = from.take_u16()?;
    holds(display & DISPLAY == display, offset)?;
    Ok(display)
}

/// Takes whether a swap waits: only then may its parameter be there, and a command is due exactly where its entries are there and none waits.
fn take_waiting(
    from: &mut Unpacker,
    parameter: u32,
    due: bool,
    head: bool,
) -> Result<bool, Unpacked>
    ensures reads { GivesRead (λ b. b) result from.new (ruled (may_wait parameter due head 0) from.old (read_code flag_code from.old)) }
    ensures may { IfOk result (λ b. may_wait parameter due head 0 b ≡ true) }
{
    let offset = from.place();
    let waits = from.take_flag()?;
    holds(
        if waits {
            !due
        } else {
            parameter == 0 && (if head { due } else { !due })
        },
        offset,
    )?;
    Ok(waits)
}

/// Takes how many entries wait: at most as many as there is room for, and so many as what is asked holds with.
fn take_count(from: &mut Unpacker, asked: Asked, selector: u8) -> Result<u16, Unpacked>
    ensures reads { GivesRead (λ n. n) result from.new (ruled (count_by (holds_by asked) selector 0) from.old (read_code (number_code 2) from.old)) }
    ensures most { IfOk result (λ n. n ≤ most_entries) }
{
    let offset = from.place();
    let count = from.take_half_at_most(ENTRIES)?;
    holds(asked.holds(selector as u32, count as u32), offset)?;
    Ok(count)
}

impl Gx {
    /// Puts the engine, and what waits for it. The error is want of memory.
    #[tactic(auto, unfolding(crate::specs::Saved::gx_format_by))]
    pub fn pack(&self, into: &mut Packer) -> Result<(), AllocError>
        ensures { (asked : ℕ → ℕ → Bool) → OnOk result (into.new ≡ bytes_written (gx_format_by asked) into.old self.now) }
    {
        self.engine.pack(into)?;
        into.put_u16(self.display as u16)?;
        into.put_u8(self.selector as u8)?;
        into.put_u16(self.waiting() as u16)?;
        self.fifo.entries().put(into)?;
        into.put_u32(self.fifo.packed())?;
        into.put_u8(self.fifo.parameters_left())?;
        into.put_tick(Tick::number_of(self.due))?;
        into.put_flag(self.swap_waits)?;
        Ok(())
    }

    /// Takes what `pack` puts. The error is want of memory, or where the first field begins that isn't whole or breaks its rule: those of the
    /// engine; other bits of DISP3DCNT than 0 to 12 and 14; a selector above 3; over 324 entries, or one whose code has no command; what is left
    /// of a packed word with no parameters left, or with more than its first command has; a due tick that isn't soon; and, told where it is said
    /// whether a swap waits, a due tick or a parameter of a swap that may not be there, or a due tick that isn't there.
    pub fn unpack(alloc: Global, from: &mut Unpacker, at: Tick) -> Result<Gx, Unpacked>
        ensures { GivesIn (λ g. g) result from.new (read_format gx_format at.0 from.old) }
    {
        Gx::unpack_by(alloc, from, at, Asked::nothing())
    }

    /// Takes the same where the rest of a machine asks something of it: it is an error, too, where that doesn't hold, told where it is said how many
    /// entries wait.
    #[tactic(auto, unfolding(crate::specs::Saved::gx_format_by))]
    pub fn unpack_by(
        alloc: Global,
        from: &mut Unpacker,
        at: Tick,
        asked: Asked,
    ) -> Result<Gx, Unpacked>
        ensures { GivesIn (λ g. g) result from.new (read_format (gx_format_by (holds_by asked)) at.0 from.old) }
    {
        let engine = Geometry::unpack(alloc, from, at)?;
        let display = take_display(from)?;
        let selector = from.take_at_most(3)?;
        let count = take_count(from, asked, selector)?;
        let entries = take_entries(alloc, from, count, at.0)?;
        let packed = from.take_u32()?;
        let left = take_left(from, packed)?;
        let due = from.take_due(at.0)?;
        let head = entries.complete().is_some();
        let swap_waits = take_waiting(from, engine.swap_parameter(), due.is_some(), head)?;
        Ok(Gx {
            engine,
            fifo: Fifo::of(entries, packed, left),
            due: Tick::numbered(due),
            swap_waits,
            display: display as u32,
            selector: selector as u32,
        })
    }

    /// Does nothing; its contract states what holds of each number at every time beside `laws`, by which `saved_laws` speaks of its bytes. It
    /// walks over all lists.
    pub fn bounds(&self)
        ensures { HasGxBounds self.now }
    {
        known!(self.engine.bounds());
        self.fifo.entries().bounds();
    }
}

/// Does nothing; its contract states that the bytes of an engine and what waits for it, at a tick that isn't after its due tick, are read as they
/// were, whatever stands behind them, and that bytes which are read are those of what is read.
#[tactic(auto, using(crate::proofs::SavedLaws::gx_saved))]
pub fn saved_laws()
    ensures { GxIsSaved }
{}
