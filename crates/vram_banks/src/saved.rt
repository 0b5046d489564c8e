//! What holds of video memory's bytes.

ghost use Rattle.vram_banks.specs.Saved.{BanksAreSaved};

/// Does nothing; its contract states that the bytes of video memory are read as that memory, whatever stands behind them, and that bytes
/// which are read are those of the memory that is read.
#[tactic(auto, using(crate::proofs::SavedLaws::banks_saved))]
pub fn saved_laws()
    ensures { BanksAreSaved }
{}
