//! One order of all events of three participants, with each answer: who waits for whom and where that
//! one stands, which turn an input comes from, and the times of its samples.
//!
//! The rows were worked by hand from the tables of needs and of inputs: an Iterated exchange gives what
//! was accepted for the window before, as a constant, and then what was posted in the iteration
//! before; a FreshIter one what is posted in the same iteration, a Fresh one what was accepted.

use crate::answer::Answer;
use crate::plans::plain_trio;
use crate::play::Play;
use core_sides::{Enabled, Ending};
use cpl_plan::{PartId, Plan, Verdict};
use fixed_num::Memory;
use std::alloc::Global;
use std::test::Fail;

/// The number of the first row that is answered otherwise.
fn first_other(
    alloc: Global,
    play: &mut Play,
    rows: &[(PartId, Answer)],
) -> Result<Option<usize>, Memory> {
    for i in 0..rows.len() {
        let (p, wanted) = rows[i];
        if play.tries(alloc, p)? != wanted {
            return Ok(Some(i));
        }
    }
    Ok(None)
}

static UNTIL_WINDOW_1: [(PartId, Answer); 13] = [
    (1, Answer::Posted),
    (1, Answer::Waits(0, 0, 0)),
    (2, Answer::Posted),
    (2, Answer::Waits(0, 0, 0)),
    (0, Answer::Posted),
    (0, Answer::Meshes(0)),
    (1, Answer::Meshes(1)),
    (2, Answer::Meshes(1)),
    (0, Answer::Posted),
    (0, Answer::Waits(1, 0, 0)),
    (1, Answer::Posted),
    (0, Answer::Waits(2, 0, 0)),
    (2, Answer::Posted),
];

fn until_window_1(alloc: Global, play: &mut Play) -> Result<Option<usize>, Memory> {
    first_other(alloc, play, &UNTIL_WINDOW_1)
}

static WINDOW_1: [(PartId, Answer); 21] = [
    (2, Answer::Waits(0, 1, 1)),
    (1, Answer::Waits(0, 1, 1)),
    (0, Answer::Input(1, (0, 0), (0, 0), 0)),
    (0, Answer::Posted),
    (0, Answer::Waits(1, 1, 1)),
    (1, Answer::Input(0, (1, 1), (0, 10), 7_000_000)),
    (1, Answer::Posted),
    (1, Answer::Judged(Verdict::Again)),
    (1, Answer::Waits(0, 1, 1)),
    (0, Answer::Judged(Verdict::Again)),
    (2, Answer::Waits(0, 1, 2)),
    (0, Answer::Input(1, (1, 1), (0, 10), 7_000_000)),
    (0, Answer::Posted),
    (1, Answer::Input(0, (1, 2), (0, 10), 7_000_000)),
    (1, Answer::Posted),
    (1, Answer::Judged(Verdict::Converged)),
    (2, Answer::Waits(0, 1, 2)),
    (0, Answer::Judged(Verdict::Converged)),
    (0, Answer::Waits(2, 1, 1)),
    (2, Answer::Input(2, (1, 2), (0, 10), 7_000_000)),
    (2, Answer::Posted),
];

fn window_1(alloc: Global, play: &mut Play) -> Result<Option<usize>, Memory> {
    first_other(alloc, play, &WINDOW_1)
}

static WINDOWS_2_AND_3: [(PartId, Answer); 22] = [
    (0, Answer::Input(1, (1, 2), (10, 10), 7_000_000)),
    (1, Answer::Waits(0, 2, 1)),
    (2, Answer::Waits(0, 2, 1)),
    (0, Answer::Posted),
    (1, Answer::Input(0, (2, 1), (10, 20), 7_000_000)),
    (1, Answer::Posted),
    (1, Answer::Judged(Verdict::Converged)),
    (0, Answer::Judged(Verdict::Converged)),
    (2, Answer::Input(2, (2, 1), (10, 20), 7_000_000)),
    (2, Answer::Posted),
    (0, Answer::Input(1, (2, 1), (20, 20), 7_000_000)),
    (0, Answer::Posted),
    (1, Answer::Input(0, (3, 1), (20, 25), 7_000_000)),
    (1, Answer::Posted),
    (0, Answer::Judged(Verdict::Converged)),
    (0, Answer::Over),
    (1, Answer::Judged(Verdict::Converged)),
    (1, Answer::Over),
    (1, Answer::Nothing),
    (2, Answer::Input(2, (3, 1), (20, 25), 7_000_000)),
    (2, Answer::Posted),
    (2, Answer::Over),
];

fn windows_2_and_3(alloc: Global, play: &mut Play) -> Result<Option<usize>, Memory> {
    first_other(alloc, play, &WINDOWS_2_AND_3)
}

/// Whether all is through, with a line for each iteration.
fn is_through(play: &Play) -> bool {
    play.position(0) == (4, 1)
        && play.enabled(2) == Enabled::Ended
        && play.ending(2) == Some(Ending::Done)
        && play.window_end(3) == Some(25)
        && play.core().lines().len() == 4
}

/// Whether the second waits for the first in window 2.
fn waits_in_window_2(play: &Play) -> bool {
    let missing = Enabled::Missing {
        owner: 0,
        window: 2,
        iteration: 1,
    };
    play.position(1) == (2, 1) && play.enabled(1) == missing
}

/// Whether all rows are answered as they say, and each participant then stands where it should.
fn is_in_order(alloc: Global, play: &mut Play) -> Result<bool, Memory> {
    if until_window_1(alloc, play)?.is_some() || play.position(0) != (1, 1) {
        return Ok(false);
    }
    if window_1(alloc, play)?.is_some() || !waits_in_window_2(play) {
        return Ok(false);
    }
    Ok(windows_2_and_3(alloc, play)?.is_none() && is_through(play))
}

fn has_each_answer(alloc: Global, plan: &Plan) -> Result<bool, Memory> {
    let mut play = Play::new(alloc, plan, [7_000_000; 3])?;
    is_in_order(alloc, &mut play)
}

#[test]
fn each_answer_in_one_order(rt: HostRuntime) -> Result<(), Fail> {
    let plan = plain_trio(rt.alloc())?;
    assert!(rt; has_each_answer(rt.alloc(), &plan)?);
    Ok(())
}
