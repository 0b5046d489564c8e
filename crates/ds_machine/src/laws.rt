//! The laws of the reference run.

ghost use Rattle.ds_runs.specs.Laws.{RunsJoin, RunsAreOne, RunsExist, RunsEnd};
ghost use Rattle.ds_machine.specs.Back.{MachinesComeBack};
ghost use Rattle.ds_machine.specs.CardSteps.{LoadsGiveWords, MachineTakesInOrder, ReadsGiveWords, RunsTakeCardSteps, StepsPassCard};
ghost use Rattle.ds_machine.specs.FrameLaws.{FramesAreFew, StepsFollowFrames, StepsFollowLists, StopsLeaveFrames, StopsLeaveLists};
ghost use Rattle.ds_machine.specs.HaltingLaws.{BootsKeepNoMore, RunsKeepNoMore};
ghost use Rattle.ds_machine.specs.Lagging.{CatchingUpRuns, LagRuns, LagStops};
ghost use Rattle.ds_machine.specs.OwnSteps.{IsStep7, IsStep9};
ghost use Rattle.ds_machine.specs.PrivateLaws.{AheadRuns, AheadSteps};
ghost use Rattle.ds_machine.specs.TurnLaws.{ActingMayStep, ActingRuns, ActingStops, TurnStepsFall};
ghost use Rattle.ds_machine.specs.Touched.{EachTouches, GeometryDelays, StepsKeepFile};
ghost use Rattle.ds_machine.specs.Reference.{reference};
ghost use Rattle.ds_machine.specs.Sound.{HasSoundParts};
ghost use Rattle.ds_machine.specs.CountingLaws.{CountsAddUp, LimitsRise, StartsRunning, StepsCount, StepsKeepRunning, StopsCountNone};
ghost use Rattle.ds_machine.specs.WithinLaws.{BootsWithinTick, RunsKeepScript, RunsStayWithinTick, TicksRise};
ghost use Rattle.ds_machine.specs.Statuses.{BootsWithStatuses, RunsKeepStatuses, StepsKeepStatuses};

/// Does nothing; its contract states the laws of the reference run, which hold for every state and every limit: the run to a
/// tick and then to a later one is the run to the later one; a run has one ending and one output; there is a run; and it takes
/// at most 24 steps a tick.
pub fn reference_laws()
    ensures join { RunsJoin reference }
    ensures one { RunsAreOne reference }
    ensures exist { RunsExist reference HasSoundParts }
    ensures end { RunsEnd reference 24 HasSoundParts }
{}

/// Does nothing; its contract states what each actor's step touches, by the rows of one table: with all the other parts of the machine from another
/// one it comes to the same and leaves what it left, with those; and it leaves all parts but those that its row of changes has. So no step changes a
/// processor's own part or depends on it but that processor's and those of its DMA channels, the display reads palettes and OAM alone of ARM9's, and
/// ARM7 and its channels never change the bytes of shared work RAM and of video memory that ARM9 alone reaches, or how those are shared out.
/// `geometry` says what geometry makes of the tick at which ARM9 is due, whatever it was. `file` says that no step changes the cartridge's file, so
/// that a run is of one cartridge.
#[tactic(auto, using(crate::proofs::Touched::geometry_delays))]
pub fn touch_laws()
    ensures actors { EachTouches }
    ensures geometry { GeometryDelays }
    ensures file { StepsKeepFile }
{}

/// Does nothing; its contract states that a processor's step is that of the processor's own crate: ARM9's that of `step9`, with CP15 in what it
/// reaches, and ARM7's that of `step7`.
#[tactic(auto, using(crate::proofs::OwnSteps::is_step9, crate::proofs::OwnSteps::is_step7))]
pub fn own_step_laws()
    ensures nine { IsStep9 }
    ensures seven { IsStep7 }
{}

/// Does nothing; its contract states that CPSR and each SPSR of both processors have no bits but those that are kept, in every state that comes up:
/// at boot, after each step of any actor, and at the end of every run.
pub fn status_laws()
    ensures boot { BootsWithStatuses }
    ensures step { StepsKeepStatuses }
    ensures run { RunsKeepStatuses }
{}

/// Does nothing; its contract states that nothing is kept that has no effect, at boot and wherever a run ends: a halted processor has no tick, and
/// what is kept of a stall's end holds back a channel of ARM9's.
pub fn kept_laws()
    ensures boot { BootsKeepNoMore }
    ensures run { RunsKeepNoMore }
{}

/// Does nothing; its contract states what the machine keeps of time where all its steps were due below a tick, at boot by tick 0 (`boot`) and
/// wherever a run to a tick ends (`run`), and by each later tick too (`rise`): ticks of earlier steps are no later than that tick, due ticks come at
/// most 2^32 ticks after it, the display is where its events leave it, the run of vertices is no longer than there were ticks, and a word of the card
/// that is ready is the file's. And there the lines of a script that are to come are those that are due from that tick on (`keys`).
pub fn time_laws()
    ensures boot { BootsWithinTick }
    ensures rise { TicksRise }
    ensures run { RunsStayWithinTick }
    ensures keys { RunsKeepScript }
{}

/// Does nothing; its contract states that the bytes of a machine at a tick are read as it was, with the file, the key script and the counts of steps
/// that it was written with: of one that waits at that tick, keeps of time what `time_laws` tells, and whose numbers are those that the code keeps.
#[tactic(auto, using(crate::proofs::Back::machines_come_back))]
pub fn back_laws()
    ensures { MachinesComeBack }
{}

/// Does nothing; its contract states the laws of a machine that goes on, and how many steps it took. So does one that is at a tick, as at boot it is
/// at 0, and took at most 24 steps for each tick before (`start`); a step that is due below a limit and is taken leaves one, by the same limit
/// (`step`), as each later limit serves too (`rise`). All its steps add up to at most 24 times its limit (`few`): so no count comes near 2^64. Each
/// step that is taken is one more (`count`), and one that stops counts none (`stop`).
pub fn running_laws()
    ensures start { StartsRunning }
    ensures step { StepsKeepRunning }
    ensures rise { LimitsRise }
    ensures few { CountsAddUp }
    ensures count { StepsCount }
    ensures stop { StopsCountNone }
{}

/// Does nothing; its contract states that a step of a processor's turn that is taken, after geometry caught up where the step observes it, leaves the
/// processor fewer ticks below the limit: it is due later afterwards, or not at all. So a loop over such steps ends.
pub fn own_turn_laws()
    ensures { TurnStepsFall }
{}

/// Does nothing; its contract states that the frame that a step puts out is the machine's last whole frame after it, and that a step that puts out
/// none, or that stops, leaves the last whole frame; and so it is with the lists of the last swap. A run to a limit puts out one frame at most for
/// each 1,120,380 ticks, and one more (`few`).
pub fn frame_laws()
    ensures step { StepsFollowFrames }
    ensures stop { StopsLeaveFrames }
    ensures lists_step { StepsFollowLists }
    ensures lists_stop { StopsLeaveLists }
    ensures few { FramesAreFew }
{}

/// Does nothing; its contract states the laws of running ahead. A step that a processor may take before its turn, on a machine whose units are
/// settled and on which nobody is to wake, is always taken, puts out nothing and leaves such a machine. And to each limit past its tick the run from
/// the state after it ends where the run from the state before it ends, and puts out the same.
#[tactic(auto, using(crate::proofs::AheadRuns::ahead_steps, crate::proofs::AheadRuns::ahead_runs))]
pub fn ahead_laws()
    ensures steps { AheadSteps }
    ensures runs { AheadRuns }
{}

/// Does nothing; its contract states the laws of lagging. The step of the least actor that acts, where quiet geometry doesn't, may be taken before
/// geometry's steps that are due before it, if it doesn't observe geometry: to each limit past its tick the run from the state after it ends where
/// the run from the state before it ends, and puts out the rest of the same. And where such a step stops the machine, the run stops so.
pub fn lag_laws()
    ensures runs { LagRuns }
    ensures stops { LagStops }
{}

/// Does nothing; its contract states the laws of a turn's steps. `caught` says that to each limit from a place on, before which no actor acts, the
/// run from the state in which geometry caught up with that place ends where the run from the state before it ends, and puts out the same. Once
/// geometry caught up, where the step observes it, the step of the least acting actor, or of a processor that may step before its turn, may be taken
/// (`may`); to each limit past its tick the run from the state after it ends where the run from the state before it ends, and puts out the rest of
/// the same (`runs`); and where it stops the machine, the run stops so (`stops`).
pub fn acting_laws()
    ensures caught { CatchingUpRuns }
    ensures may { ActingMayStep }
    ensures runs { ActingRuns }
    ensures stops { ActingStops }
{}

/// Does nothing; its contract states the law of the card's transfers on the machine. A step of any actor, taken or not, does to the card what the
/// card's own law says, and takes the words that its instruction's accesses read of the card's data, or its DMA unit (`steps`). So the words that
/// steps take from a transfer's start on are first the words of that transfer, in order: all of them where it has ended, and what is taken after
/// that is no more of it (`order`); a run that isn't stopped is such steps (`runs`). A word that is taken is the value that its read gets, so that a
/// DMA unit moves it (`values`), and a processor loads it (`loads`).
pub fn card_laws()
    ensures steps { StepsPassCard }
    ensures order { MachineTakesInOrder }
    ensures runs { RunsTakeCardSteps }
    ensures values { ReadsGiveWords }
    ensures loads { LoadsGiveWords }
{}
