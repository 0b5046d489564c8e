//! An engine's registers in bytes.

ghost use Rattle.std.specs.Prelude.{◌≡◌, ◌<◌, ◌≤◌, ◌+◌, ◌++◌, IfOk, OnOk};
ghost use Rattle.ds_base.specs.Numbers.{number_at, with_number};
ghost use Rattle.ds_state.specs.Formats.{bytes_written, code_bytes, keeps_mask};
ghost use Rattle.ds_state.specs.Reading.{GivesRead, read_code, read_format, ruled};
ghost use Rattle.video2d.specs.DisplayRegisters.{HasByteAt, engine_bytes};
ghost use Rattle.video2d.specs.Saved.{point_format, ports_format, row_code, row_width};

use crate::display_registers::{DisplayRow, engine_row_at};
use crate::engines::{Engine, EngineRegisters};
use crate::points::{PORTS, Point, half_at, word_at};
use ds_base::Tick;
use ds_state::{Packer, Unpacked, Unpacker, holds};
use std::alloc::AllocError;

/// How many registers and gaps of two bytes there are at most.
const STEPS: u32 = 56;

/// Puts the register of a row that begins at an offset.
fn put_register(
    into: &mut Packer,
    ports: &[u8; PORTS],
    row: DisplayRow,
    at: u32,
) -> Result<(), AllocError>
    requires row { HasByteAt row at }
    requires inside { at + row.bytes ≤ engine_bytes }
    ensures { OnOk result (into.new ≡ into.old ++ code_bytes (row_code row) (number_at (row_width row) ports.now at)) }
{
    if row.bytes == 2 {
        into.put_u16(half_at(ports, at as usize))
    } else {
        into.put_u32(word_at(ports, at as usize))
    }
}

/// Puts an engine's registers, in the order of their offsets.
#[tactic(auto, using(crate::proofs::SavedLoops::put_past, crate::proofs::SavedLoops::put_on))]
fn put_registers(into: &mut Packer, ports: &[u8; PORTS], which: Engine) -> Result<(), AllocError>
    ensures { OnOk result (into.new ≡ bytes_written (ports_format which) into.old ports.now) }
{
    let mut at = 0;
    for _ in 0..STEPS {
        match engine_row_at(which, at) {
            None => at += 2,
            Some(row) => {
                put_register(into, ports, row, at)?;
                at += row.bytes;
            }
        }
    }
    Ok(())
}

/// Takes a register of a row, which has no bits but those that it keeps.
fn take_register(from: &mut Unpacker, row: DisplayRow, at: u32) -> Result<u32, Unpacked>
    requires { HasByteAt row at }
    ensures { GivesRead (λ n. n) result from.new (ruled (keeps_mask row.kept 0) from.old (read_code (row_code row) from.old)) }
{
    let offset = from.place();
    let value = if row.bytes == 2 {
        from.take_u16()? as u32
    } else {
        from.take_u32()?
    };
    holds(value & row.kept == value, offset)?;
    Ok(value)
}

/// A register that begins at an offset becomes a number.
fn set_register(ports: &mut [u8; PORTS], row: DisplayRow, at: u32, value: u32)
    requires row { HasByteAt row at }
    requires inside { at + row.bytes ≤ engine_bytes }
    ensures { ports.new ≡ with_number (row_width row) ports.old at value }
{
    let at = at as usize;
    let [first, second, third, fourth] = value.to_le_bytes();
    ports[at] = first;
    ports[at + 1] = second;
    if row.bytes != 2 {
        ports[at + 2] = third;
        ports[at + 3] = fourth;
    }
}

/// Takes what `put_registers` puts.
pub fn take_registers(from: &mut Unpacker, at: Tick, which: Engine) -> Result<[u8; PORTS], Unpacked>
    ensures { GivesRead (λ ports. ports) result from.new (read_format (ports_format which) at.0 from.old) }
{
    let mut ports = [0; PORTS];
    let mut place = 0;
    for _ in 0..STEPS {
        match engine_row_at(which, place) {
            None => place += 2,
            Some(row) => {
                let value = take_register(from, row, place)?;
                set_register(&mut ports, row, place, value);
                place += row.bytes;
            }
        }
    }
    Ok(ports)
}

impl EngineRegisters {
    /// Puts what the ports keep.
    pub fn pack_ports(&self, into: &mut Packer, which: Engine) -> Result<(), AllocError>
        ensures { OnOk result (into.new ≡ bytes_written (ports_format which) into.old self.now.ports) }
    {
        put_registers(into, &self.ports, which)
    }

    /// Puts the running points of backgrounds 2 and 3.
    pub fn pack_points(&self, into: &mut Packer) -> Result<(), AllocError>
        ensures { OnOk result (into.new ≡ bytes_written point_format (bytes_written point_format into.old self.now.two) self.now.three) }
    {
        self.two.pack(into)?;
        self.three.pack(into)
    }

    /// An engine of what was taken.
    pub fn of(ports: [u8; PORTS], two: Point, three: Point) -> EngineRegisters
        ensures { result ≡ record { ports = ports; two = two; three = three } }
    {
        EngineRegisters { ports, two, three }
    }
}
