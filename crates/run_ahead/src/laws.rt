//! The laws of turns.

ghost use Rattle.run_ahead.specs.TickTurns.{TurnsOfOneTick};
ghost use Rattle.run_ahead.specs.ToEndLaws.{TurnIsOne, TurnsAreOne, TurnsEnd, TurnsEndAsRuns, TurnsKeepRuns, TurnsStopAsRuns};
ghost use Rattle.run_ahead.specs.TurnLaws.{TurnsAddUp};

/// Does nothing; its contract states what holds of turns, one after another. After any turns with a limit the count of turns has grown by as many as
/// those that count. A turn is one: its answer and what it leaves. Turns with a limit go on to their end, where no actor is due below the limit or
/// the console stops; that end, the console there, and with it the count of turns, is one; and so the reference run ends. After turns with any
/// limits, none of which stopped, the reference run to each limit that isn't below the console's goes on from there; and where one stopped, the run
/// to the console's limit stops there.
pub fn turn_laws()
    ensures add { TurnsAddUp }
    ensures one { TurnIsOne }
    ensures end { TurnsEnd }
    ensures ends_are_one { TurnsAreOne }
    ensures ends { TurnsEndAsRuns }
    ensures runs { TurnsKeepRuns }
    ensures stops { TurnsStopAsRuns }
{}

/// Does nothing; its contract states what a turn is where its limit is the tick after that at which the least of all actors is due: one step of the
/// least acting actor, or what quiet geometry alone does.
pub fn tick_turn_laws()
    ensures { TurnsOfOneTick }
{}
