//! What holds of both units' bytes.

ghost use Rattle.ds_math.specs.Saved.{DividersAreSaved, RootsAreSaved};

/// Does nothing; its contract states that the bytes of a unit at a tick, whose due tick is none or soon, are read as that unit, whatever
/// stands behind them, and that bytes which are read are those of the unit that is read.
#[tactic(auto, using(crate::proofs::SavedLaws::dividers_saved, crate::proofs::SavedLaws::roots_saved))]
pub fn saved_laws()
    ensures dividers { DividersAreSaved }
    ensures roots { RootsAreSaved }
{}
