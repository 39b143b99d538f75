use cpl_plan::{Fault, Verdict};
use fixed_num::Items;

/// What a scheme's measures say of an iteration.
#[derive(Debug, Drop)]
pub struct Judged {
    pub verdict: Verdict,
    /// The norm of the change for each measure, in units.
    pub norms: Items<u64>,
    /// Why the scheme fails: a strict measure does not hold, or a relaxed value is out of range.
    pub fault: Option<Fault>,
}
