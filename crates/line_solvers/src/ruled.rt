ghost use Rattle.std.specs.Prelude.{◌≡◌, ◌≤◌, length, All, OnOk, OnErr, IfErr};
ghost use Rattle.fixed_num.specs.Numbers.{IsValue};
ghost use Rattle.solver_trait.specs.Behaviour.{goes_on};
ghost use Rattle.solver_trait.specs.Step.{IsCauseOf};
ghost use Rattle.line_solvers.specs.LineMeaning.{next_of, longest_step};

use crate::change_rule::ChangeRule;
use crate::line::Line;
use solver_trait::StepErr;
use std::marker::Model;

/// A solver of one kind: what all kinds have in common, and how its components change.
#[derive(Drop)]
pub struct Ruled<R: ChangeRule> {
    line: Line,
    rule: R,
}

impl<R: ChangeRule> Model for Ruled<R> {
    ghost use Rattle.line_solvers.specs.LineMeaning.{LineModel};

    ghost Value = { LineModel };

    ghost view = { λ a. record {
      spec = record { common = a.line.common; rule = R.rule a.rule };
      state = a.line.state;
    } };

    ghost invariant = { λ a. R.suits a.rule a.line.common.size a.line.common.reads };
}

impl<R: ChangeRule> Ruled<R> {
    pub(crate) fn new(line: Line, rule: R) -> Ruled<R>
        requires { R.suits rule line.common.size line.common.reads }
        ensures common { result.spec.common ≡ line.common }
        ensures rule { result.spec.rule ≡ R.rule rule }
        ensures state { result.state ≡ line.state }
    {
        Ruled { line, rule }
    }

    pub(crate) fn line(&self) -> &Line
        ensures common { result.now.common ≡ self.now.spec.common }
        ensures state { result.now.state ≡ self.now.state }
    {
        &self.line
    }

    /// The longest step from the state that it has, in ticks.
    pub(crate) fn longest(&self) -> u64
        ensures longest { result
            ≡ longest_step self.now.spec.rule self.now.spec.common.step self.now.state }
        ensures a_tick { 1 ≤ result }
    {
        self.rule.longest(self.line.step(), self.line.state())
    }

    /// Makes the components after `dt` ticks the state, and writes them.
    pub(crate) fn step(
        &mut self,
        dt: u64,
        inputs: &[i64],
        writes: &mut [i64],
    ) -> Result<(), StepErr>
        requires read_len { length inputs.now ≡ self.old.spec.common.reads }
        requires write_len { length writes.old ≡ length self.old.spec.common.out }
        requires inputs { All IsValue inputs.now }
        ensures goes { OnOk result (next_of self.old.spec self.old.state dt inputs.now
            ≡ goes_on self.new.state writes.new) }
        ensures cause { IfErr result (IsCauseOf (next_of self.old.spec self.old.state dt inputs.now)) }
        ensures same_spec { self.new.spec ≡ self.old.spec }
        ensures same_state { OnErr result (self.new.state ≡ self.old.state) }
        ensures unwritten { OnErr result (writes.new ≡ writes.old) }
        ensures values { OnOk result (All IsValue writes.new) }
    {
        let state = self.line.state();
        let next = self.rule.next_values(self.line.alloc(), dt, state, inputs)?;
        self.line.go_on(next, writes)
    }

    pub(crate) fn set_state(&mut self, components: &[i64])
        requires same_len { length components.now ≡ self.old.spec.common.size }
        requires values { All IsValue components.now }
        ensures state { self.new.state ≡ components.now }
        ensures same_spec { self.new.spec ≡ self.old.spec }
    {
        self.line.set_state(components);
    }
}
