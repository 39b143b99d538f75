//! What is kept of a coupling scheme.

use cpl_plan::{Fault, Verdict};
use fixed_num::Items;
use group_course::Course;

/// The last iteration that a scheme has judged.
#[derive(Clone, Copy, Debug, PartialEq, Eq)]
pub struct LastJudged {
    /// Its window, from 1.
    pub window: u32,
    /// Its number in the window, from 1.
    pub iteration: u32,
    /// What the scheme's measures say of it.
    pub verdict: Verdict,
    /// Why the scheme fails, if it does: a strict measure does not hold, or a relaxed value is out of
    /// range.
    pub fault: Option<Fault>,
}

/// What is kept of a scheme. An explicit one, which judges nothing, keeps what it began with.
#[derive(Debug, Drop)]
pub struct SchemeState {
    /// What the members read next, while a window is repeated.
    pub course: Course,
    /// None before the scheme's first judgement.
    pub last: Option<LastJudged>,
}

/// What is told of an iteration.
#[derive(Debug, Drop)]
pub struct OnceJudged {
    /// The iteration, which is now the scheme's last judged one.
    pub last: LastJudged,
    /// The norm of the change for each measure, in units, where the iteration was judged now; None
    /// where it was judged before.
    pub norms: Option<Items<u64>>,
}
