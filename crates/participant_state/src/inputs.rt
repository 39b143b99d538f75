//! How a participant takes its inputs, and its turn begins.
ghost use Rattle.std.specs.Prelude.{◌≡◌, None, Ok, Some, map, IfErr, IfOk, OnOk, OnErr};
ghost use Rattle.std.specs.Option.{option_map_or};
ghost use Rattle.wave_coupling.specs.MappedInputs.{mapped_inputs};
ghost use Rattle.wave_coupling.specs.Posts.{newest_sample};
ghost use Rattle.participant_waves.specs.Refusals.{IsNoTake};
ghost use Rattle.participant_waves.specs.TakenWaves.{with_waves};
ghost use Rattle.participant_words.specs.Begun.{input_wave_of, newest_input_time};
ghost use Rattle.participant_words.specs.Course.{known};
ghost use Rattle.participant_words.specs.Deeds.{takes};
ghost use Rattle.participant_words.specs.Replied.{overflowed, turn_begun};
ghost use Rattle.participant_words.specs.Replies.{AreInputs};
ghost use Rattle.participant_words.specs.declared.phase.EventKind.TheVariants.{Take};
ghost use Rattle.core_sides.specs.declared.event.Reply.TheVariants.{Inputs};
ghost use Rattle.participant_state.specs.Kept.{input_kept};
ghost use Rattle.participant_state.specs.Member.{did};

use crate::local::Local;
use call_parts::{kept_inputs, newest_time, sources_of, wait_to_stop};
use core_sides::Input;
use cpl_plan::Fault;
use fixed_num::Memory;
use participant_waves::{KeptInput, NoTake};
use participant_words::Phase;
use std::alloc::Global;
use waveform::Wave;

impl Local {
    /// Takes the inputs of the turn, which begins with them, mapped where their exchange has a read
    /// mapping; or lets the Stop wait for the first place where a mapping is out of range.
    pub(crate) fn take_inputs(&mut self, inputs: &[Input]) -> Result<(), Memory>
        requires out { self.old.course.out ≡ Some Take }
        requires inputs { AreInputs self.old.plan self.old.part self.old.course inputs.now }
        ensures done { OnOk result (self.new ≡ did self.old (takes (Inputs inputs.now))) }
        ensures unchanged { OnErr result (self.new ≡ self.old) }
    {
        let alloc = self.alloc;
        let sources = sources_of(alloc, inputs)?;
        match self.mapped_waves(inputs) {
            Ok(waves) => {
                let kept = kept_inputs(alloc, inputs, waves)?;
                self.begin_turn(inputs, kept, sources);
            }
            Err(NoTake::Overflow(fault)) => self.stop_turn(fault, sources),
            Err(NoTake::Memory) => return Err(Memory),
        }
        Ok(())
    }

    /// The waves of the inputs, mapped where their exchange has a read mapping.
    fn mapped_waves(&mut self, inputs: &[Input]) -> Result<Vec<Wave>, NoTake>
        requires out { self.old.course.out ≡ Some Take }
        requires inputs { AreInputs self.old.plan self.old.part self.old.course inputs.now }
        ensures unchanged { self.new ≡ self.old }
        ensures mapped { IfOk result (λ waves. mapped_inputs self.old.plan self.old.part (known self.old.plan self.old.part self.old.course)
            self.old.course.turn.window self.old.course.turn.iteration (map input_wave_of inputs.now) ≡ Ok (with_waves inputs.now waves.items)) }
        ensures refused { IfErr result (IsNoTake (mapped_inputs self.old.plan self.old.part (known self.old.plan self.old.part self.old.course)
            self.old.course.turn.window self.old.course.turn.iteration (map input_wave_of inputs.now))) }
    {
        let (alloc, clock) = (self.alloc, self.clock);
        match &mut self.passages {
            Some(passages) => {
                passages
                    .takes
                    .map_inputs(alloc, inputs, clock.window, clock.iteration)
            }
            None => unreachable!(),
        }
    }

    /// The turn begins with its inputs as they are read.
    fn begin_turn(&mut self, inputs: &[Input], kept: Vec<KeptInput>, sources: Vec<(u32, u32)>)
        requires out { self.old.course.out ≡ Some Take }
        requires inputs { AreInputs self.old.plan self.old.part self.old.course inputs.now }
        requires mapped { mapped_inputs self.old.plan self.old.part (known self.old.plan self.old.part self.old.course)
            self.old.course.turn.window self.old.course.turn.iteration (map input_wave_of inputs.now) ≡ Ok (map input_kept kept.items) }
        ensures { self.new ≡ record self.old {
          course = turn_begun self.old.plan self.old.part (newest_input_time inputs.now) (Ok (map input_kept kept.items))
              (record self.old.course { out = None; sources = sources.items });
        } }
    {
        // What the plan says of itself is valid.
        let _parts = self.plan.parts();
        self.clock = self.clock.started(&self.plan, newest_time(inputs));
        self.inputs = kept;
        self.sources = sources;
        self.times.clear();
        self.writes.forget_samples();
        self.asked.writing = false;
        self.asked.reading = false;
        self.phase = Phase::Running;
        self.queue.answered();
    }

    /// A mapping of the inputs is out of range: the Stop for that waits.
    fn stop_turn(&mut self, fault: Fault, sources: Vec<(u32, u32)>)
        requires { self.old.course.out ≡ Some Take }
        ensures { self.new ≡ record self.old {
          course = overflowed fault (record self.old.course { out = None; sources = sources.items });
        } }
    {
        wait_to_stop(&mut self.queue, fault);
        self.overflow = Some(fault);
        self.sources = sources;
    }
}
