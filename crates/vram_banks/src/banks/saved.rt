//! Video memory in bytes.

ghost use Rattle.std.specs.Prelude.{◌≡◌, ◌<◌, IfOk, OnOk};
ghost use Rattle.ds_state.specs.Formats.{bytes_written, number_code};
ghost use Rattle.ds_state.specs.Reading.{GivesIn, GivesRead, read_code, read_format, ruled};
ghost use Rattle.vram_banks.specs.BankMap.{kept_bank_control};
ghost use Rattle.vram_banks.specs.Saved.{banks_format, keeps_control};

use crate::banks::Vram;
use crate::cells::Cells;
use crate::maps::BankMap;
use crate::windows::kept_bank_control;
use ds_base::Tick;
use ds_state::{Packer, Unpacked, Unpacker, holds};
use std::alloc::{AllocError, Global};

/// The control of a bank, which has only the bits that the bank keeps.
fn take_control(from: &mut Unpacker, bank: u8) -> Result<u8, Unpacked>
    requires { bank < 9 }
    ensures reads { GivesRead (λ c. c) result from.new (ruled (keeps_control bank 0) from.old (read_code (number_code 1) from.old)) }
    ensures kept { IfOk result (λ c. kept_bank_control bank c ≡ c) }
{
    let offset = from.place();
    let control = from.take_u8()?;
    holds(kept_bank_control(bank, control) == control, offset)?;
    Ok(control)
}

impl Vram {
    /// Puts the banks' bytes and controls, 671,753 bytes. The error is want of memory.
    #[tactic(auto, unfolding(crate::specs::Saved::banks_format))]
    pub fn pack(&self, into: &mut Packer) -> Result<(), AllocError>
        ensures { OnOk result (into.new ≡ bytes_written banks_format into.old self.now) }
    {
        into.put_bytes(self.cells.bytes())?;
        into.put_u8(self.map.control(0))?;
        into.put_u8(self.map.control(1))?;
        into.put_u8(self.map.control(2))?;
        into.put_u8(self.map.control(3))?;
        into.put_u8(self.map.control(4))?;
        into.put_u8(self.map.control(5))?;
        into.put_u8(self.map.control(6))?;
        into.put_u8(self.map.control(7))?;
        into.put_u8(self.map.control(8))?;
        Ok(())
    }

    /// Takes what `pack` puts; where each bank stands is found anew. The error is want of memory, or where the first field begins that isn't
    /// whole, or a control with bits that its bank doesn't keep.
    #[tactic(auto, unfolding(crate::specs::Saved::banks_format))]
    pub fn unpack(alloc: Global, from: &mut Unpacker, at: Tick) -> Result<Vram, Unpacked>
        ensures { GivesIn (λ v. v) result from.new (read_format banks_format at.0 from.old) }
    {
        let cells = Cells::unpack(alloc, from)?;
        let mut map = BankMap::new();
        map.set_control(0, take_control(from, 0)?);
        map.set_control(1, take_control(from, 1)?);
        map.set_control(2, take_control(from, 2)?);
        map.set_control(3, take_control(from, 3)?);
        map.set_control(4, take_control(from, 4)?);
        map.set_control(5, take_control(from, 5)?);
        map.set_control(6, take_control(from, 6)?);
        map.set_control(7, take_control(from, 7)?);
        map.set_control(8, take_control(from, 8)?);
        Ok(Vram { cells, map })
    }
}
