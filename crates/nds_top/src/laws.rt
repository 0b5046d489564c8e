//! What follows from the contract of the top call.

ghost use Rattle.nds_top.specs.Laws.{AnswersAreOne, IsComplete};
ghost use Rattle.nds_top.specs.Resumes.{ResumesGoOn};

use asm_files::listing_laws;
use ds_base::known;
use ds_io::{Shelf, Sink};
use ds_machine::{time_laws, touch_laws};
use nds_plays::{cut_laws, trace_laws};
use nds_words::{script_laws, word_laws};
use run_ahead::{reference_laws, state_laws, turn_laws};

/// Does nothing; its contract states what follows from when each answer of `ds_main` comes, for calls in which no count of faults rose and whose
/// shelf tells its files. Where the words ask for something whose files are there, short enough and accepted, and whose reference run comes to its
/// tick, the answer is Done, or there was no memory; a listing or an assembling needs its own file alone, and a demo none. And but for want of memory
/// the same words over the same files have one status, and write the same bytes. And a run may be cut in two: where a call saved a console at a tick,
/// one that goes on from what that wrote to a later tick has the status of one that runs the whole, with the same cartridge and key script, and wrote
/// what that did after what is written while the run to the saved tick runs; only the counts of turns may differ.
pub fn top_laws<F: Shelf, O: Sink, P: Sink, Q: Sink>()
    ensures complete { IsComplete F.told F.faults O.tells O.taken O.faults }
    ensures one { AnswersAreOne F.told F.faults O.tells O.taken O.faults P.tells P.taken P.faults }
    ensures resumed { ResumesGoOn F.told F.faults O.tells O.taken O.faults P.tells P.taken P.faults Q.tells Q.taken Q.faults }
{
    word_laws();
    script_laws();
    listing_laws();
    known!(reference_laws());
    known!(turn_laws());
    known!(trace_laws());
    known!(time_laws());
    known!(touch_laws());
    known!(state_laws());
    known!(cut_laws());
}
