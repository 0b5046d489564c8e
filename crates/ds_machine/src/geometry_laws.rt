//! The laws of room for geometry.

ghost use Rattle.ds_machine.specs.Rooms.{InstructionsAreShort, InstructionsFindRoom, NineStepsFindRoom, NineUnitsFindRoom, SevenStepsLeaveGeometry, SevenUnitsLeaveGeometry, StepsFindRoom};

/// Does nothing; its contract states that whatever is written to geometry finds room, so that the code's list of what waits may have a fixed size.
/// `short`: an instruction makes sixteen accesses of data at most. `instruction`: where no stall holds ARM9, each access of an instruction finds at
/// most 320 entries waiting. `step`: so does each access of a step of ARM9, and at most 324 wait after it; `nine`: so it is of the machine's step of
/// ARM9, where ARM9 isn't blocked; `dma`: and of each unit of a channel of ARM9's that is due. `seven`, `seven_dma`: the steps of ARM7, and of its
/// channels, leave geometry as it is.
pub fn room_laws()
    ensures short { InstructionsAreShort }
    ensures instruction { InstructionsFindRoom }
    ensures step { StepsFindRoom }
    ensures nine { NineStepsFindRoom }
    ensures dma { NineUnitsFindRoom }
    ensures seven { SevenStepsLeaveGeometry }
    ensures seven_dma { SevenUnitsLeaveGeometry }
{}
