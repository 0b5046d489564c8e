//! What holds of the bytes of the interrupt words and of the timers.

ghost use Rattle.ds_timers.specs.Saved.{IrqsAreSaved, TimersAreSaved};

/// Does nothing; its contract states that the bytes of interrupt words and of timers at a tick are read as they were, whatever stands behind them,
/// where IE has the processor's interrupts alone, words of a processor that sleeps don't wake it, and no timer is anchored later or due earlier than
/// the tick; and that bytes which are read are those of what is read.
#[tactic(auto, using(crate::proofs::SavedLaws::irqs_saved, crate::proofs::SavedLaws::timers_saved))]
pub fn saved_laws()
    ensures irqs { IrqsAreSaved }
    ensures timers { TimersAreSaved }
{}
