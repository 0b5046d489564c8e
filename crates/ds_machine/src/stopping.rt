//! The law of what stops a step.

ghost use Rattle.ds_machine.specs.Stopping.{NoStopIsNotYet};

/// Does nothing; its contract states that no step of any actor, in any state, stops for want of what isn't built yet (`LeftKind::NotYet`): each stop
/// has the name of what is left out.
pub fn stop_laws()
    ensures kinds { NoStopIsNotYet }
{}
