ghost use Rattle.std.specs.Prelude.{◌≡◌, pos, ◌-ℤ◌, ◌*◌, ◌^◌, ◌≤◌, length, unsigned_abs, All, IfOk};
ghost use Rattle.acceleration.specs.Differences.{IsDifference};
ghost use Rattle.acceleration.specs.Residual.{less};
ghost use Rattle.acceleration.specs.Factors.{factor_after, next_factor};

use crate::residual::{Remembered, Residual};
use fixed_num::{Factor, Memory, aitken, dot, factor_of};
use std::alloc::Global;

/// The factor that passes on what was posted.
pub(crate) fn one() -> Factor
    ensures { result ≡ pos (10 ^ 6) }
{
    factor_of(1_000_000).unwrap()
}

/// Aitken's factor after `last`, where the residual is now this one.
pub(crate) fn next_factor(
    alloc: Global,
    last: &Remembered,
    residual: &Residual,
) -> Result<Factor, Memory>
    requires len { length last.now.residual ≡ length residual.now }
    requires few { length residual.now ≤ 200000 }
    ensures { IfOk result (λ factor. factor ≡ next_factor last.now residual.now) }
{
    let before = last.residual.entries();
    let change = change_of(alloc, residual.entries(), before)?;
    Ok(factor_after(last.factor, before, &change))
}

/// Aitken's factor after one, where the residual was `before` and has changed by so much.
fn factor_after(factor: Factor, before: &[i64], change: &[i64]) -> Factor
    requires few { length before.now ≤ 200000 }
    requires len { length change.now ≡ length before.now }
    requires before { All IsDifference before.now }
    requires change { All (λ x. unsigned_abs x ≤ 4 * 10 ^ 13) change.now }
    ensures { result ≡ factor_after factor before.now change.now }
{
    let square = dot(change, change);
    if square == 0 {
        return factor;
    }
    aitken(factor, dot(before, change), square)
}

/// The one residual less the other, entry by entry.
fn change_of(alloc: Global, now: &[i64], before: &[i64]) -> Result<Vec<i64>, Memory>
    requires len { length before.now ≡ length now.now }
    requires now { All IsDifference now.now }
    requires before { All IsDifference before.now }
    ensures change { IfOk result (λ change. change.items ≡ less now.now before.now) }
    ensures small { IfOk result (λ change. All (λ x. unsigned_abs x ≤ 4 * 10 ^ 13) change.items) }
{
    let mut change = Vec::with_capacity(alloc, now.len())?;
    for i in 0..now.len() {
        change.push(apart(now[i], before[i]))?;
    }
    Ok(change)
}

/// The one difference less the other.
fn apart(now: i64, before: i64) -> i64
    requires now { IsDifference now }
    requires before { IsDifference before }
    ensures value { result ≡ now -ℤ before }
    ensures small { unsigned_abs result ≤ 4 * 10 ^ 13 }
{
    now - before
}
