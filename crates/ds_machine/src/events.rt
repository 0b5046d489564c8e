//! The events: the steps of all actors but the processors.

ghost use Rattle.std.specs.Prelude.{◌≡◌, ◌<◌, ◌≤◌, ◌^◌, ◌&&◌, false, IsSome, Some, []};
ghost use Rattle.ds_base.specs.declared.processors.Proc.TheVariants.{Nine};
ghost use Rattle.ds_dma.specs.States.{dma_due};
ghost use Rattle.ds_map.specs.Moves.{unit_moved, unit_refusal};
ghost use Rattle.ds_ports.specs.Dues.{io_due};
ghost use Rattle.ds_ports.specs.Guards.{is_overfull};
ghost use Rattle.ds_ports.specs.Io.{io_event, io_of, video_done};
ghost use Rattle.ds_runs.specs.Actors.{IsNumbered};
ghost use Rattle.ds_machine.specs.Channels.{delayed_past, moved_by, one_event};
ghost use Rattle.ds_machine.specs.Reference.{after_event, awake, due_by, past_stall, step_by, swapped_if};
ghost use Rattle.ds_machine.specs.States.{with_file};
ghost use Rattle.ds_machine.specs.StepAnswers.{stepped_of};
ghost use Rattle.ds_machine.specs.Steps.{ended, map_of, with_io, with_map, with_processor};
ghost use Rattle.video2d.specs.Scans.{scan_due};
ghost use Rattle.video2d.specs.Videos.{video_answer};
ghost use Rattle.ds_runs.specs.declared.actors.Actor.TheVariants as actors;

use crate::answers::Done;
use crate::parts::Parts;
use ds_base::{LeftOut, Proc, Stop, Tick, known};
use ds_dma::Unit;
use ds_runs::Actor;
use video2d::Shown;

impl Parts {
    /// An event was taken at a tick: it counts, the units settle, and halted processors wake that are to.
    fn end_event(&mut self, tick: Tick)
        requires early { tick.0 ≤ 2 ^ 56 }
        requires counted { self.old.events ≤ 2 ^ 61 }
        ensures { self.new ≡ ended tick (one_event self.old) }
    {
        self.events += 1;
        self.end_step(tick);
    }

    /// The next line of the key script.
    pub fn step_script(&mut self, rank: u8, tick: Tick) -> Done
        requires due { due_by actors.KeyScript self.old ≡ Some tick }
        requires early { tick.0 ≤ 2 ^ 56 }
        requires counted { self.old.events ≤ 2 ^ 61 }
        ensures { awake (Some tick) (step_by rank actors.KeyScript self.old) ≡ stepped_of self.old result self.new }
    {
        known!(rank);
        let line = self.script.take();
        self.io.press(line.pressed);
        self.end_event(tick);
        Done::Made
    }

    /// The event of an actor behind the ports, with a cartridge's file.
    #[tactic(auto, using(crate::proofs::Files::event_with))]
    pub fn step_event(&mut self, file: &[u8], actor: Actor, tick: Tick)
        requires numbered { IsNumbered actor }
        requires due { io_due actor self.old.io ≡ Some tick }
        requires early { tick.0 ≤ 2 ^ 56 }
        requires counted { self.old.events ≤ 2 ^ 61 }
        requires run { actor ≡ actors.Geometry → self.old.io.gx.geometry.numbers.run ≤ 2 ^ 56 }
        ensures { with_file file.now self.new ≡ ended tick (after_event actor (with_file file.now self.old)) }
    {
        self.io.event(actor, file);
        self.end_event(tick);
    }

    /// Geometry's head command is done. Where that ends a stall ARM9, unless it is halted, is due after this tick at the earliest.
    fn finish_command(&mut self, tick: Tick)
        requires due { io_due actors.Geometry self.old.io ≡ Some tick }
        requires early { tick.0 ≤ 2 ^ 56 }
        requires run { self.old.io.gx.geometry.numbers.run ≤ 2 ^ 56 }
        ensures { self.new ≡ with_processor Nine (with_io self.old (io_event [] actors.Geometry self.old.io))
            (record self.old.nine.processor { due = past_stall self.old.io self.old.nine.processor.due }) }
    {
        let stalled = self.io.gx().stalled();
        self.io.event(Actor::Geometry, &[]);
        if stalled && !self.io.gx().stalled() && !self.io.processor(Proc::Nine).is_halted() {
            self.nine.processor.delay_past(false, tick.0 + 1);
        }
    }

    /// Geometry's event.
    pub fn step_geometry(&mut self, rank: u8, tick: Tick) -> Done
        requires due { due_by actors.Geometry self.old ≡ Some tick }
        requires early { tick.0 ≤ 2 ^ 56 }
        requires counted { self.old.events ≤ 2 ^ 61 }
        requires run { self.old.io.gx.geometry.numbers.run ≤ 2 ^ 56 }
        ensures { awake (Some tick) (step_by rank actors.Geometry self.old) ≡ stepped_of self.old result self.new }
    {
        known!(rank);
        self.finish_command(tick);
        self.end_event(tick);
        Done::Made
    }

    /// The display's event, but for its count.
    fn show(&mut self) -> Result<Shown, Stop>
        requires { scan_due self.old.io.video.scan ≤ 2 ^ 56 }
        ensures answer { result ≡ video_answer self.old.oam self.old.io.video }
        ensures state { self.new ≡ with_io self.old (video_done self.old.palette self.old.oam self.old.io) }
    {
        self.map.show(&mut self.io)
    }

    /// Swaps geometry lists that wait, where a frame is made whole. Gives whether it did.
    fn swap_if(&mut self, whole: bool, tick: Tick) -> bool
        requires { tick.0 ≤ 2 ^ 56 }
        ensures state { self.new ≡ with_io self.old (swapped_if whole tick self.old.io) }
        ensures swapped { result ≡ (whole && self.old.io.gx.swap_waits) }
    {
        if !whole {
            return false;
        }
        self.io.swap(tick)
    }

    /// The display's event. It stops where the line that would be drawn needs what isn't there.
    pub fn step_video(&mut self, rank: u8, tick: Tick) -> Done
        requires due { due_by actors.Video self.old ≡ Some tick }
        requires early { tick.0 ≤ 2 ^ 56 }
        requires counted { self.old.events ≤ 2 ^ 61 }
        ensures { awake (Some tick) (step_by rank actors.Video self.old) ≡ stepped_of self.old result self.new }
    {
        match self.show() {
            Ok(shown) => {
                let swapped = self.swap_if(shown.frame, tick);
                self.end_event(tick);
                if shown.frame {
                    return Done::Frame { swapped };
                }
                Done::Made
            }
            Err(stop) => Done::Stopped(LeftOut {
                kind: stop.kind,
                tick,
                rank,
                value: stop.value,
            }),
        }
    }

    /// A processor is due after a tick and the waits of its last unit at the earliest, where it isn't halted.
    fn delay_past(&mut self, proc: Proc, tick: Tick)
        requires { tick.0 ≤ 2 ^ 56 }
        ensures { self.new ≡ delayed_past proc tick self.old }
    {
        let halted = self.io.processor(proc).is_halted();
        let least = self.next_due(proc, tick);
        match proc {
            Proc::Nine => self.nine.processor.delay_past(halted, least),
            Proc::Seven => self.seven.processor.delay_past(halted, least),
        }
    }

    /// A DMA channel moved a unit at a tick, or the write was refused.
    fn end_unit(&mut self, rank: u8, proc: Proc, tick: Tick, stop: Option<Stop>) -> Done
        requires early { tick.0 ≤ 2 ^ 56 }
        requires counted { self.old.events ≤ 2 ^ 61 }
        ensures { awake (Some tick) (moved_by rank proc tick stop self.old) ≡ stepped_of self.old result self.new }
    {
        match stop {
            None => {
                self.delay_past(proc, tick);
                self.end_event(tick);
                Done::Made
            }
            Some(stop) => Done::Stopped(LeftOut {
                kind: stop.kind,
                tick,
                rank,
                value: stop.value,
            }),
        }
    }

    /// Moves a unit for the channel of a processor that is due.
    fn move_unit(&mut self, proc: Proc, tick: Tick, unit: Unit) -> Option<Stop>
        requires due { IsSome (dma_due (io_of self.old.io proc).dma) }
        requires early { tick.0 ≤ 2 ^ 56 }
        requires room { is_overfull proc self.old.io ≡ false }
        ensures stop { result ≡ unit_refusal proc tick unit (map_of proc self.old) }
        ensures map { self.new ≡ with_map proc self.old (unit_moved proc tick unit (map_of proc self.old)) }
    {
        self.map.move_unit(&mut self.io, proc, tick, unit)
    }

    /// A DMA channel's event.
    #[tactic(auto, using(crate::proofs::GuardedSteps::channel_has_room))]
    pub fn step_channel(&mut self, rank: u8, proc: Proc, channel: u8, tick: Tick) -> Done
        requires number { channel < 4 }
        requires due { due_by (actors.Dma proc channel) self.old ≡ Some tick }
        requires early { tick.0 ≤ 2 ^ 56 }
        requires counted { self.old.events ≤ 2 ^ 61 }
        ensures { awake (Some tick) (step_by rank (actors.Dma proc channel) self.old) ≡ stepped_of self.old result self.new }
    {
        known!(channel);
        let unit = self.io.processor(proc).unit();
        let stop = self.move_unit(proc, tick, unit);
        self.end_unit(rank, proc, tick, stop)
    }
}
