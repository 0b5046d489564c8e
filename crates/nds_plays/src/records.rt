//! What a run writes.

ghost use Rattle.std.specs.Prelude.{◌≡◌, ◌≤◌, ◌+◌, length, option_to_list, OnOk};
ghost use Rattle.std.specs.List.{concat};
ghost use Rattle.ds_machine.specs.Frames.{last_frame, last_lists};
ghost use Rattle.ds_runs.specs.Runs.{At};
ghost use Rattle.ds_io.specs.Puts.{Puts};
ghost use Rattle.nds_records.specs.Numbers.{halves};
ghost use Rattle.nds_records.specs.Lists.{lists_records};
ghost use Rattle.nds_plays.specs.Inside.{most_after, most_shown, records_now, swapped_lists};
ghost use Rattle.nds_plays.specs.Records.{frame_record, frame_records, latest_of, latest_records, last_records, stop_record, kind_number};

use ds_base::{LeftKind, LeftOut, Memory, Proc, Tick, known};
use ds_io::{Failed, Sink, put_all, put_parts};
use nds_records::{five_longs, long_bytes, put_lists, register_bytes, row_bytes, word_bytes};
use run_ahead::Console;

/// The pixels of both screens, a row at a time from where they lie.
fn put_pixels<O: Sink>(out: &mut O, pixels: &[u16]) -> Result<(), Failed>
    requires { length pixels.now ≡ 98304 }
    ensures { Puts O.tells O.taken O.faults (halves pixels.now) result out.old out.new }
{
    for row in 0..384 {
        let place = 256 * row;
        put_all(out, &row_bytes(&pixels[place..place + 256]))?;
    }
    Ok(())
}

/// The record of a frame that became whole at a tick.
fn put_frame<O: Sink>(out: &mut O, tick: Tick, pixels: &[u16]) -> Result<(), Failed>
    requires { length pixels.now ≡ 98304 }
    ensures { Puts O.tells O.taken O.faults (concat (frame_record (record { tick = tick.0; pixels = pixels.now }))) result out.old out.new }
{
    put_parts(out, &[b"F", &long_bytes(tick.0)])?;
    put_pixels(out, pixels)
}

/// The record of a console's last whole frame, where one is whole.
fn put_last_frame<O: Sink>(out: &mut O, console: &Console) -> Result<(), Failed>
    ensures put { Puts O.tells O.taken O.faults (frame_records (option_to_list (last_frame console.now.machine))) result out.old out.new }
    ensures few { length (frame_records (option_to_list (last_frame console.now.machine))) ≤ 196617 }
{
    match console.framed() {
        None => Ok(()),
        Some(tick) => put_frame(out, tick, console.frame()),
    }
}

/// The record of the lists of a console's last swap, where there was one.
fn put_last_lists<O: Sink>(out: &mut O, console: &Console) -> Result<(), Failed>
    ensures put { Puts O.tells O.taken O.faults (lists_records (option_to_list (last_lists console.now.machine))) result out.old out.new }
    ensures few { OnOk result (length (lists_records (option_to_list (last_lists console.now.machine))) ≤ 186389) }
{
    known!(console.laws());
    let lists = console.lists();
    if lists.tick().0 == 0 {
        return Ok(());
    }
    put_lists(out, lists)
}

/// The records of a console's last whole frame and of its last lists, where there are any.
pub(crate) fn put_latest<O: Sink>(out: &mut O, console: &Console) -> Result<(), Failed>
    ensures put { Puts O.tells O.taken O.faults (latest_records (latest_of console.now.machine)) result out.old out.new }
    ensures few { OnOk result (length (latest_records (latest_of console.now.machine)) ≤ most_shown) }
{
    put_last_frame(out, console)?;
    put_last_lists(out, console)
}

/// The record of a console's last lists, where waiting lists were just swapped.
fn put_swapped<O: Sink>(out: &mut O, swapped: bool, console: &Console) -> Result<(), Failed>
    ensures put { Puts O.tells O.taken O.faults
        (lists_records (swapped_lists swapped console.now.machine.io.gx.geometry.last)) result out.old out.new }
    ensures few { OnOk result (length (lists_records (swapped_lists swapped console.now.machine.io.gx.geometry.last)) ≤ 186389) }
{
    if !swapped {
        return Ok(());
    }
    known!(console.laws());
    put_lists(out, console.lists())
}

/// The records of the frame that just became whole, and of the lists that were swapped there.
pub(crate) fn put_now<O: Sink>(out: &mut O, swapped: bool, console: &Console) -> Result<(), Failed>
    ensures put { Puts O.tells O.taken O.faults (records_now swapped console.now.machine) result out.old out.new }
    ensures few { OnOk result (length (records_now swapped console.now.machine) ≤ most_shown) }
{
    put_last_frame(out, console)?;
    put_swapped(out, swapped, console)
}

/// The number of a kind of stop.
fn number_of_kind(kind: LeftKind) -> u8
    ensures { result ≡ kind_number kind }
{
    match kind {
        LeftKind::NotYet => 1,
        LeftKind::Swi => 2,
        LeftKind::BigEndian => 3,
        LeftKind::HaltMode => 4,
        LeftKind::DmaStart => 5,
        LeftKind::CardTransfer => 6,
        LeftKind::DisplayMode => 7,
        LeftKind::BgMode => 8,
        LeftKind::Capture => 9,
        LeftKind::Mosaic => 10,
        LeftKind::ExtendedBackground => 11,
        LeftKind::BitmapObject => 12,
    }
}

/// The record of a stop.
pub(crate) fn put_stop<O: Sink>(out: &mut O, left: LeftOut) -> Result<(), Failed>
    ensures { Puts O.tells O.taken O.faults (concat (stop_record left)) result out.old out.new }
{
    put_parts(
        out,
        &[
            b"X",
            &long_bytes(left.tick.0),
            &[left.rank, number_of_kind(left.kind)],
            &word_bytes(left.value),
        ],
    )
}

/// The records of memories, from where they lie, and of the end.
pub(crate) fn put_last<O: Sink>(out: &mut O, until: Tick, console: &Console) -> Result<(), Failed>
    ensures put { Puts O.tells O.taken O.faults (last_records until.0 console.now.turns (At console.now.machine)) result out.old out.new }
    ensures few { length (last_records until.0 console.now.turns (At console.now.machine)) + most_shown ≤ most_after }
{
    let counts = console.counts();
    let numbers = [
        until.0,
        counts.nine,
        counts.seven,
        counts.events,
        counts.turns,
    ];
    put_parts(
        out,
        &[
            b"M",
            console.bytes(Memory::Main),
            console.bytes(Memory::Shared),
            console.bytes(Memory::Own7),
            console.bytes(Memory::Itcm),
            console.bytes(Memory::Dtcm),
            console.bytes(Memory::Palette),
            console.bytes(Memory::Vram),
            console.bytes(Memory::Oam),
            &register_bytes(&console.registers(Proc::Nine)),
            &register_bytes(&console.registers(Proc::Seven)),
            b"E",
            &five_longs(&numbers),
        ],
    )
}
