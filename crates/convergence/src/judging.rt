ghost use Rattle.std.specs.Prelude.{◌≡◌, ◌≤◌, ◌↔◌, ◌≢◌, ℕ, length, All};
ghost use Rattle.convergence.specs.Holds.{measured};
ghost use Rattle.convergence.specs.Verdict.{verdict};
ghost use Rattle.convergence.specs.Causes.{HasConverged, IsFirstFailing, Passes};

use crate::measures::Measures;
use cpl_plan::{Measure, Verdict};

/// The verdict of iteration `k`, from 1, of a window that takes at least `min` and at most `max`
/// iterations.
///
/// For each measure there are the two numbers of [`norms_of`](crate::norms_of), which are the
/// norm of the change and that of the new values, and the norm of the change in iteration 1. An
/// absolute measure holds where the first norm is at most its limit, a relative one where it is
/// at most so many millionths of the second, and a residual-relative one where it is at most so
/// many millionths of the third.
///
/// The verdict is Converged where `k` is at least `min`, and a measure that suffices holds or all
/// hold. Else, at `max`, it is NotConverged with the place, from 0, of the first strict measure
/// that does not hold, or AtLimit where there is none. Otherwise it is Again, also past `max`,
/// which no coupling reaches.
pub fn judge(
    measures: &[Measure],
    norms: &[u64],
    sizes: &[u64],
    firsts: &[u64],
    k: u32,
    min: u32,
    max: u32,
) -> Verdict
    requires few { length measures.now ≤ 16 }
    requires norms { length norms.now ≡ length measures.now }
    requires sizes { length sizes.now ≡ length measures.now }
    requires firsts { length firsts.now ≡ length measures.now }
    requires at_first { k ≡ 1 → firsts.now ≡ norms.now }
    ensures exact { result ≡ verdict (measured measures.now norms.now sizes.now firsts.now) k min max }
    ensures converged { let all = measured measures.now norms.now sizes.now firsts.now in
        (result ≡ Verdict.Converged) ↔ HasConverged all k min }
    ensures at_limit { let all = measured measures.now norms.now sizes.now firsts.now in
        (result ≡ Verdict.AtLimit)
        ↔ ((k ≡ max) × (¬ HasConverged all k min) × All Passes all) }
    ensures not_converged { let all = measured measures.now norms.now sizes.now firsts.now in
        (place : ℕ) → (result ≡ Verdict.NotConverged place)
        ↔ ((k ≡ max) × (¬ HasConverged all k min) × IsFirstFailing all place) }
    ensures again { let all = measured measures.now norms.now sizes.now firsts.now in
        (result ≡ Verdict.Again) ↔ ((k ≢ max) × (¬ HasConverged all k min)) }
{
    let measures = Measures {
        measures,
        norms,
        sizes,
        firsts,
    };
    measures.verdict(k, min, max)
}
