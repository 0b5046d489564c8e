//! The registers that are read most, from their first bytes on. They are found without the register map.

ghost use Rattle.std.specs.Prelude.{◌≡◌, IfSome};
ghost use Rattle.ds_base.specs.declared.memories.Width.TheVariants.{Half, Word};
ghost use Rattle.ds_base.specs.declared.ticks.Tick.{Tick};
ghost use Rattle.ds_ports.specs.Ports.{port_read, port_value};

use crate::processor_io::keyinput;
use crate::units::Units;
use ds_base::{Proc, Width};

impl Units {
    /// What is read by a half at an offset from 4000000h, where it is one of these, at whatever tick.
    #[inline(always)]
    #[tactic(auto, using(crate::proofs::Often::status_half, crate::proofs::Often::line_half, crate::proofs::Often::keys_half, crate::proofs::Often::sync_half, crate::proofs::Often::fifo_half, crate::proofs::Often::ime_half))]
    fn half_often(&self, proc: Proc, at: u32) -> Option<u32>
        ensures { IfSome result (λ value. (now : Tick) → value ≡ port_value proc now self.now at Half) }
    {
        match at {
            0x004 => Some(self.video.status_read(proc) as u32), // DISPSTAT
            0x006 => Some(self.video.line_read() as u32), // VCOUNT
            0x130 => Some(keyinput(self.pressed)), // KEYINPUT
            0x180 => Some(self.ipc.sync_read(proc) as u32), // IPCSYNC
            0x184 => Some(self.ipc.control_read(proc) as u32), // IPCFIFOCNT
            0x208 => Some(self.processor(proc).ime()), // IME
            _ => None,
        }
    }

    /// The same by a word.
    #[inline(always)]
    #[tactic(auto, using(crate::proofs::Often::ime_word, crate::proofs::Often::ie_word, crate::proofs::Often::if_word, crate::proofs::Often::ime_left, crate::proofs::Often::ie_left, crate::proofs::Often::if_left))]
    fn word_often(&self, proc: Proc, at: u32) -> Option<u32>
        ensures value { IfSome result (λ value. (now : Tick) → value ≡ port_value proc now self.now at Word) }
        ensures left { IfSome result (λ value. (now : Tick) → port_read proc now self.now at Word ≡ self.now) }
    {
        match at {
            0x208 => Some(self.processor(proc).ime()), // IME
            0x210 => Some(self.processor(proc).ie()), // IE
            0x214 => Some(self.processor(proc).flags()), // IF
            _ => None,
        }
    }

    /// What an access reads at an offset from 4000000h, where it is of one of these, at whatever tick; it changes nothing.
    #[inline(always)]
    #[tactic(auto, using(crate::proofs::Wholes::read_narrow))]
    pub(crate) fn value_often(&self, proc: Proc, at: u32, width: Width) -> Option<u32>
        ensures value { IfSome result (λ value. (now : Tick) → value ≡ port_value proc now self.now at width) }
        ensures left { IfSome result (λ value. (now : Tick) → port_read proc now self.now at width ≡ self.now) }
    {
        match width {
            Width::Byte => None,
            Width::Half => self.half_often(proc, at),
            Width::Word => self.word_often(proc, at),
        }
    }
}
