ghost use Rattle.std.specs.Prelude.{◌≡◌, ◌+◌, ◌<◌, ◌≤◌, ◌^◌, ℕ, ℤ, pos, [], ◌∷◌, ◌++◌, length, IfOk, IfErr, OnOk, OnErr, IsTrue, Some, None, IsNone};
ghost use Rattle.pair_core.specs.CoreState.{History, state_after, part_of, partner_of};
ghost use Rattle.pair_core.specs.CoreStep.{entry_in};
ghost use Rattle.pair_core.specs.StandsFor.{StandsFor};
ghost use Rattle.pair_core.specs.Kept.{kept_of, kept_next_kind};
ghost use Rattle.coupling_run.specs.Solve.{solve, reaches};
ghost use Rattle.coupling_run.specs.Turn.{input_in, needed_value, IsAnswered, IsSolveError, wave_read, HasSolved, IsAtTurn, ComesToTurn, IsReady, Turned};

use crate::fault::Fault;
use fixed_num::{Memory, Value, value_of};
use pair_core::{Core, CoreErr, Event, NextKind, PartId, Reply};
use solver_trait::{Solver, StepErr};

/// The ticks of a window.
pub const WINDOW: u32 = 10;

/// What the driver keeps of a participant beside its solver.
#[derive(Clone, Copy, Debug)]
pub struct Tally {
    /// The value that it read last at a window's end; zero at first.
    pub before: Value,
    /// How many steps it has made.
    pub steps: u32,
    /// The fault that stopped it.
    pub fault: Option<Fault>,
}

impl Default for Tally {
    ghost use Rattle.coupling_run.specs.Tally.{IsOpeningTally};

    ghost is_default = { IsOpeningTally };

    /// A participant that has made no step.
    fn default() -> Tally {
        Tally {
            before: Value::default(),
            steps: 0,
            fault: None,
        }
    }
}

/// The answer of a core that refuses an event only for want of memory.
fn memory_of(error: CoreErr) -> Memory
    requires { error ≡ CoreErr.Memory }
{
    match error {
        CoreErr::Memory => Memory,
        CoreErr::NotEnabled { .. } => unreachable!(),
    }
}

/// What a reply gives to read.
fn input_of(reply: Reply) -> Option<Value>
    ensures { result ≡ input_in reply }
{
    match reply {
        Reply::Input(value) => Some(value),
        Reply::Posted | Reply::Cut { .. } | Reply::Over => None,
    }
}

/// Takes the input of a participant whose Take comes next, or None where it is cut.
fn take(core: &mut Core, p: PartId) -> Result<Option<Value>, Memory>
    requires participant { p < 2 }
    requires running { IsNone (kept_of core.old p).ending }
    requires next { kept_next_kind core.old p ≡ NextKind.Take }
    requires answered { IsAnswered core.old p }
    ensures input { IfOk result (λ input. (windows : ℕ) (h : History) → StandsFor windows core.old h →
        input ≡ needed_value (state_after windows h) p) }
    ensures stands { OnOk result ((windows : ℕ) (h : History) → StandsFor windows core.old h →
        StandsFor windows core.new (h ++ entry_in (state_after windows h) p Event.Take ∷ [])) }
{
    match core.apply(p, Event::Take) {
        Ok(reply) => Ok(input_of(reply)),
        Err((error, _)) => Err(memory_of(error)),
    }
}

/// Posts the value of a participant whose Post comes next.
fn post(core: &mut Core, p: PartId, value: Value) -> Result<(), Memory>
    requires participant { p < 2 }
    requires running { IsNone (kept_of core.old p).ending }
    requires next { kept_next_kind core.old p ≡ NextKind.Post }
    ensures stands { OnOk result ((windows : ℕ) (h : History) → StandsFor windows core.old h →
        StandsFor windows core.new (h ++ entry_in (state_after windows h) p (Event.Post value) ∷ [])) }
{
    match core.apply(p, Event::Post(value)) {
        Ok(_) => Ok(()),
        Err(_) => Err(Memory),
    }
}

/// Stops a participant by a fault.
fn stop(core: &mut Core, p: PartId, code: u32)
    requires participant { p < 2 }
    requires running { IsNone (kept_of core.old p).ending }
    ensures stands { (windows : ℕ) (h : History) → StandsFor windows core.old h →
        StandsFor windows core.new (h ++ entry_in (state_after windows h) p (Event.Stop code) ∷ []) }
{
    match core.apply(p, Event::Stop { code }) {
        Ok(_) => (),
        Err(_) => unreachable!(),
    }
}

/// The one step of a window, which reads the input at its start or at its end, as the solver says.
fn step<S: Solver>(solver: &mut S, p: PartId, before: Value, input: Value) -> Result<Value, StepErr>
    requires read_len { (S.behaviour (S.spec solver.old)).read_len ≡ 1 }
    requires write_len { (S.behaviour (S.spec solver.old)).write_len ≡ 1 }
    ensures goes { IfOk result (λ value.
        solve (S.behaviour (S.spec solver.old)) (S.state solver.old) (wave_read p before input)
        ≡ reaches (S.state solver.new) value) }
    ensures cause { IfErr result (IsSolveError
        (solve (S.behaviour (S.spec solver.old)) (S.state solver.old) (wave_read p before input))) }
    ensures same_state { OnErr result (S.state solver.new ≡ S.state solver.old) }
    ensures same_spec { S.spec solver.new ≡ S.spec solver.old }
{
    let at_start = if p == 0 { input } else { before };
    let reading = if solver.read_at_end() {
        input
    } else {
        at_start
    };
    let ticks = solver.pick(u64::from(WINDOW));
    let mut writes = [0];
    solver.step(ticks, &[reading.get()], &mut writes)?;
    Ok(value_of(i128::from(writes[0])).unwrap())
}

/// The solve of a participant that has taken its input: it posts the written value, or it stops.
fn advance<S: Solver>(
    core: &mut Core,
    p: PartId,
    solver: &mut S,
    tally: &mut Tally,
    input: Value,
) -> Result<(), Memory>
    requires participant { p < 2 }
    requires running { IsNone (kept_of core.old p).ending }
    requires next { kept_next_kind core.old p ≡ NextKind.Post }
    requires read_len { (S.behaviour (S.spec solver.old)).read_len ≡ 1 }
    requires write_len { (S.behaviour (S.spec solver.old)).write_len ≡ 1 }
    requires room { tally.old.steps ≤ 10 ^ 6 }
    ensures same_spec { S.spec solver.new ≡ S.spec solver.old }
    ensures one_step { tally.new.steps ≤ tally.old.steps + 1 }
    ensures solved { OnOk result ((windows : ℕ) (h : History) → StandsFor windows core.old h →
        HasSolved (S.behaviour (S.spec solver.old)) windows h core.new p (S.state solver.old) tally.old (S.state solver.new) tally.new input) }
{
    match step(solver, p, tally.before, input) {
        Ok(value) => {
            tally.before = input;
            tally.steps += 1;
            post(core, p, value)
        }
        Err(StepErr::Fault(code)) => {
            tally.fault = Some(Fault {
                part: p,
                window: core.position(p).0,
                iteration: 1,
                step: 1,
                code,
            });
            stop(core, p, code);
            Ok(())
        }
        Err(StepErr::Memory) => Err(Memory),
    }
}

/// The turn of a participant whose Take comes next.
fn take_turn<S: Solver>(
    core: &mut Core,
    p: PartId,
    solver: &mut S,
    tally: &mut Tally,
) -> Result<(), Memory>
    requires participant { p < 2 }
    requires running { IsNone (kept_of core.old p).ending }
    requires next { kept_next_kind core.old p ≡ NextKind.Take }
    requires answered { IsAnswered core.old p }
    requires read_len { (S.behaviour (S.spec solver.old)).read_len ≡ 1 }
    requires write_len { (S.behaviour (S.spec solver.old)).write_len ≡ 1 }
    requires room { tally.old.steps ≤ 10 ^ 6 }
    ensures same_spec { S.spec solver.new ≡ S.spec solver.old }
    ensures one_step { tally.new.steps ≤ tally.old.steps + 1 }
    ensures turned { OnOk result ((windows : ℕ) (h : History) → StandsFor windows core.old h →
        IsAtTurn windows p (state_after windows h) tally.old.before →
        Turned (S.behaviour (S.spec solver.old)) windows h core.new p (S.state solver.old) tally.old (S.state solver.new) tally.new) }
{
    match take(core, p)? {
        Some(input) => advance(core, p, solver, tally, input),
        None => Ok(()),
    }
}

/// The turn of a participant: it takes its input, solves and posts. A fault stops it, and so does a
/// partner that ended before giving the input. One that has ended has no turn.
///
/// After `Memory` the solver may stand after its step, with nothing posted: the run is over then.
pub fn turn<S: Solver>(
    core: &mut Core,
    p: PartId,
    solver: &mut S,
    tally: &mut Tally,
) -> Result<(), Memory>
    requires participant { p < 2 }
    requires ready { IsReady core.old p tally.old.before }
    requires read_len { (S.behaviour (S.spec solver.old)).read_len ≡ 1 }
    requires write_len { (S.behaviour (S.spec solver.old)).write_len ≡ 1 }
    requires room { tally.old.steps ≤ 10 ^ 6 }
    ensures same_spec { S.spec solver.new ≡ S.spec solver.old }
    ensures one_step { tally.new.steps ≤ tally.old.steps + 1 }
    ensures turned { OnOk result ((windows : ℕ) (h : History) → StandsFor windows core.old h →
        ComesToTurn windows p (state_after windows h) tally.old.before →
        Turned (S.behaviour (S.spec solver.old)) windows h core.new p (S.state solver.old) tally.old (S.state solver.new) tally.new) }
{
    if core.ending(p).is_some() {
        return Ok(());
    }
    take_turn(core, p, solver, tally)
}
