//! What holds of each number of a machine, so that it has its bytes.

ghost use Rattle.ds_machine.specs.Back.{HasMachineBounds, HasSizes, HasUnitBounds};
ghost use Rattle.ds_machine.specs.Statuses.{HasBothStatuses};

use crate::parts::Parts;
use ds_base::{Proc, known};

impl Parts {
    /// Does nothing; its contract states that each memory has its size.
    fn sizes(&self)
        ensures { HasSizes self.now }
    {
        known!(self.map.laws());
        known!(self.nine.itcm.bytes());
        known!(self.nine.dtcm.bytes());
        self.io.vram().bank_laws();
    }

    /// Does nothing; its contract states what holds of the units.
    #[tactic(auto, using(crate::proofs::SavedBounds::all_words, crate::proofs::SavedBounds::both_irqs))]
    fn unit_bounds(&self)
        ensures { HasUnitBounds self.now.io }
    {
        self.io.processor(Proc::Nine).irq().laws();
        self.io.processor(Proc::Seven).irq().laws();
        known!(self.io.wramcnt());
        known!(self.io.pressed());
        known!(self.io.fill());
        self.io.divider().laws();
        self.io.root().laws();
        self.io.ipc().laws();
        self.io.gx().laws();
        self.io.gx().bounds();
        self.io.card().laws();
        self.io.card().kept_laws();
    }

    /// Does nothing; its contract states what holds of each number, where the status registers have only bits that are kept.
    #[tactic(auto, using(crate::proofs::SavedBounds::both_registers))]
    pub fn bounds(&self)
        requires { HasBothStatuses self.now }
        ensures { HasMachineBounds self.now }
    {
        known!(self.nine.processor.core.laws());
        known!(self.seven.processor.core.laws());
        known!(self.nine.cp15.laws());
        known!(self.sizes());
        known!(self.unit_bounds());
    }
}
