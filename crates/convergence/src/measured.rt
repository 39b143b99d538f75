ghost use Rattle.std.specs.Prelude.{◌≡◌, ◌^◌, ◌*ℤ◌, pos};

use cpl_plan::{Measure, MeasureKind};
use fixed_num::Value;

/// A measure with the norms that it looks at, in units.
#[derive(Clone, Copy, Debug, PartialEq, Eq)]
pub struct Measured {
    pub measure: Measure,
    /// The norm of the change in this iteration.
    pub change: u64,
    /// The norm of the new values.
    pub size: u64,
    /// The norm of the change in the first iteration of the window.
    pub first: u64,
}

impl Measured {
    ghost use Rattle.convergence.specs.Holds.{holds};
    ghost use Rattle.convergence.specs.Verdict.{is_failing, is_sufficient};

    /// Whether the measure holds.
    pub fn holds(&self) -> bool
        ensures { result ≡ holds self.now }
    {
        let limit = self.measure.limit;
        match self.measure.kind {
            MeasureKind::Absolute => i128::from(self.change) <= i128::from(limit.get()),
            MeasureKind::Relative => in_millionths(self.change) <= part_of(limit, self.size),
            MeasureKind::ResidualRelative => in_millionths(self.change)
                <= part_of(limit, self.first),
        }
    }

    /// Whether the measure suffices, and holds.
    pub fn is_sufficient(&self) -> bool
        ensures { result ≡ is_sufficient self.now }
    {
        self.measure.suffices && self.holds()
    }

    /// Whether the measure is strict, and does not hold.
    pub fn is_failing(&self) -> bool
        ensures { result ≡ is_failing self.now }
    {
        self.measure.strict && !self.holds()
    }
}

/// A norm in millionths of a unit.
fn in_millionths(norm: u64) -> i128
    ensures { result ≡ pos norm *ℤ pos (10 ^ 6) }
{
    i128::from(norm) * 1_000_000
}

/// So many millionths of a norm, in millionths of a unit: within 10^13 times 2^64.
fn part_of(limit: Value, norm: u64) -> i128
    ensures { result ≡ limit *ℤ pos norm }
{
    i128::from(limit.get()) * i128::from(norm)
}
