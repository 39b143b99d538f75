ghost use Rattle.std.specs.Prelude.{◌≡◌, ◌+◌, ◌<◌, ◌≤◌, ◌^◌, ◌++◌, ◌∷◌, [], ℕ, IfOk, OnOk, pos};
ghost use Rattle.pair_core.specs.CoreState.{History, state_after, part_of};
ghost use Rattle.pair_core.specs.CoreStep.{entry_in};
ghost use Rattle.pair_core.specs.StandsFor.{StandsFor};
ghost use Rattle.pair_core.specs.Kept.{kept_of, kept_next_kind};
ghost use Rattle.coupling_run.specs.Drive.{run_end, tallied_results, IsOpened, TakesWindowsWhole};
ghost use Rattle.coupling_run.specs.Tally.{IsOpeningTally};
ghost use Rattle.coupling_run.specs.LoopResults.{loop_results, earlier_fault};

use crate::fault::Fault;
use crate::turn::{Tally, turn};
use fixed_num::{Memory, Value};
use pair_core::{Core, Event, NextKind, PartId};
use solver_trait::Solver;
use std::alloc::Global;

/// What a run leaves beside the solvers' states.
#[derive(Clone, Copy, Debug, PartialEq, Eq)]
pub struct RunEnd {
    pub first_steps: u32,
    pub second_steps: u32,
    /// The fault that the loop meets first.
    pub fault: Option<Fault>,
}

/// Couples two solvers over so many windows, 1 to 10^6: the first of a serial-explicit scheme and
/// its second, of one read and one written value each, which take a window in one step.
///
/// The solvers are left in the states in which the loop leaves them; after `Memory` they may stand
/// anywhere on the way, and what they solve by is as before.
pub fn drive<A: Solver, B: Solver>(
    alloc: Global,
    windows: u32,
    first: &mut A,
    second: &mut B,
) -> Result<RunEnd, Memory>
    requires some_window { 1 ≤ windows }
    requires windows_within { windows ≤ 10 ^ 6 }
    requires first_whole { TakesWindowsWhole (A.behaviour (A.spec first.old)) }
    requires second_whole { TakesWindowsWhole (B.behaviour (B.spec second.old)) }
    ensures results { IfOk result (λ end. run_end (A.state first.new) (B.state second.new) end
        ≡ loop_results (A.behaviour (A.spec first.old)) (B.behaviour (B.spec second.old))
        (A.state first.old) (B.state second.old) windows) }
    ensures first_spec { A.spec first.new ≡ A.spec first.old }
    ensures second_spec { B.spec second.new ≡ B.spec second.old }
{
    let mut core = opened(alloc, windows)?;
    let mut first_tally = Tally::default();
    let mut second_tally = Tally::default();
    run_windows(
        &mut core,
        windows,
        first,
        second,
        &mut first_tally,
        &mut second_tally,
    )?;
    Ok(RunEnd {
        first_steps: first_tally.steps,
        second_steps: second_tally.steps,
        fault: earlier(first_tally.fault, second_tally.fault),
    })
}

/// All windows, one after another, until both participants have ended.
fn run_windows<A: Solver, B: Solver>(
    core: &mut Core,
    windows: u32,
    first: &mut A,
    second: &mut B,
    first_tally: &mut Tally,
    second_tally: &mut Tally,
) -> Result<(), Memory>
    requires windows_within { windows ≤ 10 ^ 6 }
    requires opened { IsOpened windows core.old }
    requires first_opening { IsOpeningTally first_tally.old }
    requires second_opening { IsOpeningTally second_tally.old }
    requires first_whole { TakesWindowsWhole (A.behaviour (A.spec first.old)) }
    requires second_whole { TakesWindowsWhole (B.behaviour (B.spec second.old)) }
    ensures results { OnOk result (tallied_results (A.state first.new) first_tally.new (B.state second.new) second_tally.new
        ≡ loop_results (A.behaviour (A.spec first.old)) (B.behaviour (B.spec second.old))
        (A.state first.old) (B.state second.old) windows) }
    ensures first_spec { A.spec first.new ≡ A.spec first.old }
    ensures second_spec { B.spec second.new ≡ B.spec second.old }
{
    for _window in 0..windows {
        if core.ending(0).is_some() && core.ending(1).is_some() {
            return Ok(());
        }
        turn(core, 0, first, first_tally)?;
        turn(core, 1, second, second_tally)?;
    }
    Ok(())
}

/// A core in which both participants have posted zero, the initial value.
fn opened(alloc: Global, windows: u32) -> Result<Core, Memory>
    requires some_window { 1 ≤ windows }
    requires windows_within { windows ≤ 10 ^ 6 }
    ensures opened { IfOk result (IsOpened windows) }
{
    let mut core = Core::new(alloc, windows)?;
    open(&mut core, 0)?;
    open(&mut core, 1)?;
    Ok(core)
}

/// The initial post of a participant that has done nothing yet.
fn open(core: &mut Core, p: PartId) -> Result<(), Memory>
    requires participant { p < 2 }
    requires next { kept_next_kind core.old p ≡ NextKind.Post }
    ensures stands { OnOk result ((windows : ℕ) (h : History) → StandsFor windows core.old h →
        StandsFor windows core.new (h ++ entry_in (state_after windows h) p (Event.Post (pos 0)) ∷ [])) }
{
    match core.apply(p, Event::Post(Value::default())) {
        Ok(_) => Ok(()),
        Err(_) => Err(Memory),
    }
}

/// Of the first's fault and the second's, the one that the loop meets first.
fn earlier(first: Option<Fault>, second: Option<Fault>) -> Option<Fault>
    ensures { result ≡ earlier_fault first second }
{
    match (first, second) {
        (Some(of_first), Some(of_second)) if of_second.window < of_first.window => Some(of_second),
        (None, of_second) => of_second,
        (of_first, _) => of_first,
    }
}
