//! How a participant goes from turn to turn, and how it ends.
ghost use Rattle.std.specs.Prelude.{◌≡◌, ◌<◌, ◌++◌, ◌∷◌, [], Some, None, true, false, IfOk, OnOk, OnErr};
ghost use Rattle.std.specs.Option.{option_map_or};
ghost use Rattle.cpl_plan.specs.declared.words.Verdict.TheVariants.{Again};
ghost use Rattle.coupled_loop.specs.PlanFrames.{group_of, iterations_of};
ghost use Rattle.participant_words.specs.Begun.{first_turn, is_last, next_window};
ghost use Rattle.participant_words.specs.Course.{known};
ghost use Rattle.participant_words.specs.Replied.{completed, ended, judged};
ghost use Rattle.participant_words.specs.WatchShown.{by_watch, watch_rows, watches};
ghost use Rattle.participant_words.specs.declared.phase.EventKind.TheVariants.{Judge, Post};
ghost use Rattle.participant_words.specs.declared.phase.Phase.TheVariants.{Done};
ghost use Rattle.core_sides.specs.declared.event.Event.TheVariants.{Take};
ghost use Rattle.participant_state.specs.Answered.{Completes, GoesOn, IsEnd};

use crate::local::Local;
use call_parts::put_rows;
use core_sides::Event;
use cpl_plan::WatchRow;
use fixed_num::Memory;
use participant_words::Phase;

impl Local {
    /// The event that is out is answered, and the next one may be made.
    pub(crate) fn go_on(&mut self)
        requires { GoesOn self.old.plan self.old.part self.old.course }
        ensures { self.new ≡ record self.old { course = record self.old.course { out = None } } }
    {
        self.queue.answered();
    }

    /// The initial data are posted: the inputs of the first window come next.
    pub(crate) fn begin_windows(&mut self)
        requires out { self.old.course.out ≡ Some Post }
        requires before { self.old.course.turn.window ≡ 0 }
        ensures { self.new ≡ record self.old {
          course = record self.old.course { out = None; turn = first_turn self.old.course.turn };
        } }
    {
        // What the plan says of itself is valid.
        let _count = self.plan.window_count();
        self.queue.answered();
        self.clock = self.clock.joined();
    }

    /// The window is repeated: the inputs of its next iteration are asked for.
    pub(crate) fn repeat_window(&mut self)
        requires out { self.old.course.out ≡ Some Judge }
        requires more { self.old.course.turn.iteration < option_map_or (iterations_of self.old.plan) (group_of self.old.plan self.old.part) 0 }
        ensures { self.new ≡ record self.old {
          course = judged self.old.plan self.old.part Again (record self.old.course { out = None });
        } }
    {
        // What the plan says of itself is valid.
        let _parts = self.plan.parts();
        self.queue.clear();
        self.queue.push(Event::Take);
        self.clock = self.clock.again();
        self.times.clear();
        self.writes.forget_samples();
    }

    /// The window is completed: the rows of its watch-points are kept, and the next inputs are asked for
    /// unless it was the last one.
    pub(crate) fn complete_window(&mut self) -> Result<(), Memory>
        requires { Completes self.old.plan self.old.part self.old.course }
        ensures done { OnOk result (self.new ≡ record self.old {
          course = completed self.old.plan self.old.part (record self.old.course { out = None });
        }) }
        ensures unchanged { OnErr result (self.new ≡ self.old) }
    {
        self.keep_rows()?;
        if self.clock.is_last(&self.plan) {
            self.end_windows();
        } else {
            self.open_next();
        }
        Ok(())
    }

    /// Puts a row of each watch-point among those that are kept, or none.
    fn keep_rows(&mut self) -> Result<(), Memory>
        requires { Completes self.old.plan self.old.part self.old.course }
        ensures done { OnOk result (self.new ≡ record self.old {
          course = record self.old.course {
            rows = by_watch (watches self.old.plan self.old.part) (self.old.course.rows
                ++ watch_rows self.old.plan self.old.part (known self.old.plan self.old.part self.old.course) self.old.course.turn);
          };
        }) }
        ensures unchanged { OnErr result (self.new ≡ self.old) }
    {
        let rows = self.shown_rows()?;
        put_rows(&mut self.rows, rows)?;
        Ok(())
    }

    /// What the watch-points show at the end of the window.
    fn shown_rows(&self) -> Result<Vec<WatchRow>, Memory>
        requires { Completes self.now.plan self.now.part self.now.course }
        ensures { IfOk result (λ rows. watch_rows self.now.plan self.now.part (known self.now.plan self.now.part self.now.course) self.now.course.turn ≡ rows.items) }
    {
        // What the plan says of itself is valid, and so are the samples.
        let _parts = self.plan.parts();
        let _count = self.writes.len();
        match &self.passages {
            Some(passages) => passages.watches.rows(
                self.alloc,
                &self.plan,
                &self.reads,
                &self.writes,
                self.inputs.as_slice(),
                self.clock,
            ),
            None => unreachable!(),
        }
    }

    /// The last window is completed.
    fn end_windows(&mut self)
        requires completes { Completes self.old.plan self.old.part self.old.course }
        requires last { is_last self.old.plan self.old.course.turn ≡ true }
        ensures { self.new ≡ record self.old {
          course = record self.old.course { out = None; complete = true; turn = next_window self.old.course.turn; phase = Done; queue = [] };
        } }
    {
        // What the plan says of itself is valid.
        let _count = self.plan.window_count();
        self.queue.clear();
        self.phase = Phase::Done;
        self.clock = self.clock.completed();
        self.times.clear();
        self.writes.forget_samples();
    }

    /// The window is completed, and the inputs of the next one are asked for.
    fn open_next(&mut self)
        requires completes { Completes self.old.plan self.old.part self.old.course }
        requires more { is_last self.old.plan self.old.course.turn ≡ false }
        ensures { self.new ≡ record self.old {
          course = record self.old.course { out = None; complete = true; turn = next_window self.old.course.turn; queue = Take ∷ [] };
        } }
    {
        // What the plan says of itself is valid.
        let _count = self.plan.window_count();
        self.queue.clear();
        self.queue.push(Event::Take);
        self.clock = self.clock.completed();
        self.times.clear();
        self.writes.forget_samples();
    }

    /// The participant ends: nothing waits any more.
    pub(crate) fn end(&mut self, phase: Phase)
        requires { IsEnd phase }
        ensures { self.new ≡ record self.old { course = ended phase self.old.course } }
    {
        self.queue.clear();
        self.phase = phase;
    }
}
