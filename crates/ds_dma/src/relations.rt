//! The relations that the contracts' functions stand for.

ghost use Rattle.ds_dma.specs.Relations.{ControlsChange, DueChannelsHaveUnits, LeastIsFound, UnitsAreTaken};

/// Does nothing; its contract states the relations behind what the calls of `Dma` tell by functions. `change`: what a write of a control leaves of a
/// channel is one of three cases. `takes`: a channel that has units left takes the first one of its plan, and what is left is one of four cases;
/// `some`: the channel that is due has one left. `least`: where a channel runs, the one whose turn it is runs, and none below it does.
pub fn relation_laws()
    ensures change { ControlsChange }
    ensures takes { UnitsAreTaken }
    ensures some { DueChannelsHaveUnits }
    ensures least { LeastIsFound }
{}
