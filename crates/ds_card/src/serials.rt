//! A processor's AUXSPICNT.

ghost use Rattle.std.specs.Prelude.{◌≡◌, ◌≤◌, ◌+◌, ◌^◌, replicate};
ghost use Rattle.ds_base.specs.Numbers.{width_bytes};
ghost use Rattle.ds_card.specs.CardPorts.{auxspicnt_at, kept_auxspicnt, overwritten};
ghost use Rattle.ds_card.specs.Saved.{KeepsAuxspicnt, keeps_auxspicnt};
ghost use Rattle.ds_state.specs.Formats.{array};
ghost use Rattle.ds_state.specs.Reading.{GivesRead, read_code, ruled};

use crate::ports;
use ds_base::Width;
use ds_state::{Unpacked, Unpacker, holds};
use std::marker::Model;

/// A processor's AUXSPICNT. Contracts see its two bytes, which have the kept bits alone.
#[derive(Drop)]
pub struct Serial {
    port: [u8; 2],
}

impl Model for Serial {
    ghost use Rattle.std.specs.Prelude.{List, ℕ};
    ghost use Rattle.ds_card.specs.Saved.{KeepsAuxspicnt};

    ghost Value = { List ℕ };

    ghost view = { λ s. s.port };

    ghost invariant = { λ s. KeepsAuxspicnt s.port };
}

impl Serial {
    /// At boot it is 0.
    pub fn new() -> Serial
        ensures { result ≡ replicate 2 0 }
    {
        Serial { port: [0; 2] }
    }

    /// Its bytes.
    pub fn bytes(&self) -> &[u8; 2]
        ensures { result.now ≡ self.now }
    {
        &self.port
    }

    /// An access writes those of its bytes that it covers; other bits than the kept ones become 0.
    pub fn write(&mut self, width: Width, at: u32, value: u32)
        requires { at + width_bytes width ≤ 2 ^ 32 }
        ensures { self.new ≡ kept_auxspicnt (overwritten auxspicnt_at self.old width at value) }
    {
        ports::overwrite(&mut self.port, ports::AUXSPICNT, width, at, value);
        ports::keep_auxspicnt(&mut self.port);
    }

    /// Takes one as it is kept. The error is where it begins, where it isn't whole or has other bits.
    pub fn take(from: &mut Unpacker) -> Result<Serial, Unpacked>
        ensures { GivesRead (λ s. s) result from.new (ruled (keeps_auxspicnt 0) from.old (read_code (array 2) from.old)) }
    {
        let offset = from.place();
        let mut port = [0; 2];
        holds(from.take_into(&mut port), offset)?;
        holds(port[0] == 0 && port[1] % 32 == 0, offset)?;
        Ok(Serial { port })
    }

    /// Does nothing; its contract states that it has the kept bits alone at every time.
    pub fn laws(&self)
        ensures { KeepsAuxspicnt self.now }
    {
        let _kept = &self.port;
    }
}
