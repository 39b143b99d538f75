ghost use Rattle.std.specs.Prelude.{◌≡◌, ◌≤◌, ◌<◌, ℕ, pos, ◌≤ℤ◌, length, All, min, map, replicate, unsigned_abs, nat_le, OnOk, OnErr, IfOk, IfErr};
ghost use Rattle.std.specs.List.{range_with_len, list_any};
ghost use Rattle.std.specs.Option.{option_map};
ghost use Rattle.fixed_num.specs.Numbers.{IsValue};
ghost use Rattle.solver_trait.specs.Behaviour.{goes_on};
ghost use Rattle.solver_trait.specs.Step.{IsCauseOf};
ghost use Rattle.line_solvers.specs.Checked.{checked, reaches, written};
ghost use Rattle.line_solvers.specs.Common.{is_at_end};
ghost use Rattle.line_solvers.specs.CaseMeaning.{common_of_case, state_of_case, out_of_case, first_out};
ghost use Rattle.line_solvers.specs.CaseSound.{IsSoundCase};

use crate::case::{CaseParts, ReadWhen, SolverKind};
use fixed_num::Memory;
use solver_trait::StepErr;
use std::alloc::Global;
use std::marker::Model;

/// The fault of a step that makes a component out of range.
pub(crate) const OUT_OF_RANGE: u32 = 1;

/// The fault of a step that makes a component that reaches the forbidden bound.
const FORBIDDEN: u32 = 2;

/// The fault of a step of a recorded participant without a record.
pub(crate) const NO_RECORD: u32 = 3;

/// What the solvers of all kinds have in common: the state, and all that does not say how it
/// changes.
#[derive(Drop)]
pub(crate) struct Line {
    alloc: Global,
    step: u64,
    read: ReadWhen,
    forbid: Option<u64>,
    out: Vec<usize>,
    reads: usize,
    state: Vec<i64>,
}

impl Model for Line {
    ghost use Rattle.std.specs.Prelude.{length};
    ghost use Rattle.line_solvers.specs.Common.{LineView};
    ghost use Rattle.line_solvers.specs.Sound.{IsSoundLine};

    ghost Value = { LineView };

    ghost view = { λ a. record {
      common = record {
        step = a.step;
        read = a.read;
        forbid = a.forbid;
        out = a.out.items;
        reads = a.reads;
        size = length a.state.items;
      };
      state = a.state.items;
    } };

    ghost invariant = { λ a. IsSoundLine (record {
      common = record {
        step = a.step;
        read = a.read;
        forbid = a.forbid;
        out = a.out.items;
        reads = a.reads;
        size = length a.state.items;
      };
      state = a.state.items;
    }) };
}

impl Line {
    /// What the case says of it.
    pub(crate) fn from_case(alloc: Global, case: &CaseParts) -> Result<Line, Memory>
        requires { IsSoundCase case.now }
        ensures common { IfOk result (λ made. made.common ≡ common_of_case case.now) }
        ensures state { IfOk result (λ made. made.state ≡ state_of_case case.now) }
    {
        let out = out_of(alloc, case)?;
        let state = state_of(alloc, case)?;
        Ok(Line {
            alloc,
            step: case.step as u64,
            read: case.read,
            forbid: magnitude_of(case.forbid),
            out,
            reads: case.reads as usize,
            state,
        })
    }

    pub(crate) fn alloc(&self) -> Global {
        self.alloc
    }

    pub(crate) fn read_len(&self) -> usize
        ensures { result ≡ self.now.common.reads }
    {
        self.reads
    }

    pub(crate) fn write_len(&self) -> usize
        ensures { result ≡ length self.now.common.out }
    {
        self.out.len()
    }

    pub(crate) fn step(&self) -> u64
        ensures step { result ≡ self.now.common.step }
        ensures a_tick { 1 ≤ result }
    {
        self.step
    }

    pub(crate) fn read_at_end(&self) -> bool
        ensures { result ≡ is_at_end self.now.common.read }
    {
        match self.read {
            ReadWhen::End => true,
            ReadWhen::Start => false,
        }
    }

    /// Writes the components that are written.
    pub(crate) fn write(&self, writes: &mut [i64])
        requires { length writes.old ≡ length self.now.common.out }
        ensures written { writes.new ≡ written self.now.common.out self.now.state }
        ensures values { All IsValue writes.new }
    {
        write_components(self.state.as_slice(), self.out.as_slice(), writes);
    }

    /// Makes the new components the state and writes them, where none reaches the forbidden bound.
    pub(crate) fn go_on(&mut self, next: Vec<i64>, writes: &mut [i64]) -> Result<(), StepErr>
        requires same_len { length next.items ≡ self.old.common.size }
        requires range { All IsValue next.items }
        requires write_len { length writes.old ≡ length self.old.common.out }
        ensures goes { OnOk result (checked self.old.common.forbid self.old.common.out next.items
            ≡ goes_on self.new.state writes.new) }
        ensures cause { IfErr result
            (IsCauseOf (checked self.old.common.forbid self.old.common.out next.items)) }
        ensures same_common { self.new.common ≡ self.old.common }
        ensures same_state { OnErr result (self.new.state ≡ self.old.state) }
        ensures unwritten { OnErr result (writes.new ≡ writes.old) }
        ensures values { OnOk result (All IsValue writes.new) }
    {
        if reaches(self.forbid, next.as_slice()) {
            return Err(StepErr::Fault(FORBIDDEN));
        }
        write_components(next.as_slice(), self.out.as_slice(), writes);
        self.state = next;
        Ok(())
    }

    pub(crate) fn state(&self) -> &[i64]
        ensures components { result.now ≡ self.now.state }
        ensures values { All IsValue self.now.state }
        ensures size { length self.now.state ≡ self.now.common.size }
    {
        self.state.as_slice()
    }

    /// Goes to a state of as many components.
    pub(crate) fn set_state(&mut self, components: &[i64])
        requires same_len { length components.now ≡ self.old.common.size }
        requires values { All IsValue components.now }
        ensures state { self.new.state ≡ components.now }
        ensures same_common { self.new.common ≡ self.old.common }
    {
        self.state.copy_from_slice(components);
    }
}

/// The first state.
fn state_of(alloc: Global, case: &CaseParts) -> Result<Vec<i64>, Memory>
    requires { IsSoundCase case.now }
    ensures components { IfOk result (λ made. made.items ≡ state_of_case case.now) }
    ensures values { IfOk result (λ made. All IsValue made.items) }
{
    match &case.state {
        Some(components) => Ok(Vec::from_slice(alloc, components.as_slice())?),
        None => filled(alloc, case.fill.unwrap_or(0), case.count.unwrap_or(0)),
    }
}

/// So many equal components.
fn filled(alloc: Global, fill: i64, count: i64) -> Result<Vec<i64>, Memory>
    requires { pos 0 ≤ℤ count }
    ensures { IfOk result (λ made. made.items ≡ replicate (unsigned_abs count) fill) }
{
    Ok(vec![in alloc; fill; count as usize]?)
}

/// The indexes of the components that are written.
fn out_of(alloc: Global, case: &CaseParts) -> Result<Vec<usize>, Memory>
    requires { IsSoundCase case.now }
    ensures { IfOk result (λ out. out.items ≡ out_of_case case.now) }
{
    match &case.out {
        Some(places) => indexes_of(alloc, places.as_slice()),
        None => indexes_from(alloc, first_out(case.solver), case.writes),
    }
}

fn indexes_of(alloc: Global, places: &[i64]) -> Result<Vec<usize>, Memory>
    requires { All (λ place. pos 0 ≤ℤ place) places.now }
    ensures { IfOk result (λ indexes. indexes.items ≡ map unsigned_abs places.now) }
{
    let mut indexes = Vec::with_capacity(alloc, places.len())?;
    for place in places {
        indexes.push(*place as usize)?;
    }
    Ok(indexes)
}

/// The first component that is written where none is listed.
fn first_out(solver: SolverKind) -> u32
    ensures first { result ≡ first_out solver }
    ensures least { result ≤ 1 }
{
    match solver {
        SolverKind::Rows | SolverKind::Rod | SolverKind::Spring => 0,
        SolverKind::Recorded => 1,
    }
}

/// So many indexes, from the first one on.
fn indexes_from(alloc: Global, first: u32, count: u32) -> Result<Vec<usize>, Memory>
    requires { first ≤ 1 }
    ensures { IfOk result (λ indexes. indexes.items ≡ range_with_len first count) }
{
    let mut indexes = Vec::with_capacity(alloc, count as usize)?;
    for index in 0..count {
        indexes.push(first as usize + index as usize)?;
    }
    Ok(indexes)
}

/// The bound's magnitude, where there is a bound.
fn magnitude_of(bound: Option<i64>) -> Option<u64>
    ensures { result ≡ option_map unsigned_abs bound }
{
    match bound {
        Some(units) => Some(units.unsigned_abs()),
        None => None,
    }
}

/// Whether some component has an absolute value of at least the bound.
fn reaches(forbid: Option<u64>, components: &[i64]) -> bool
    ensures { result ≡ reaches forbid components.now }
{
    match forbid {
        Some(bound) => has_at_least(bound, components),
        None => false,
    }
}

fn has_at_least(bound: u64, components: &[i64]) -> bool
    ensures { result ≡ list_any (λ units. nat_le bound (unsigned_abs units)) components.now }
{
    for units in components {
        if bound <= units.unsigned_abs() {
            return true;
        }
    }
    false
}

/// Writes the components at these indexes, in this order.
fn write_components(components: &[i64], out: &[usize], writes: &mut [i64])
    requires places { All (λ place. place < length components.now) out.now }
    requires write_len { length writes.old ≡ length out.now }
    requires range { All IsValue components.now }
    ensures written { writes.new ≡ written out.now components.now }
    ensures values { All IsValue writes.new }
{
    for i in 0..writes.len() {
        writes[i] = components[out[i]];
    }
}
