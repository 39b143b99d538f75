//! What is true of the definitions alone.

ghost use Rattle.std.specs.Prelude.{◌≡◌, ◌^◌, ◌≤◌, ◌≤ℤ◌, ◌*ℤ◌, None, Ok, Err, List, ℤ, pos, unsigned_abs, All, length, map};
ghost use Rattle.fixed_num.specs.Numbers.{IsValue, quotient};
ghost use Rattle.fixed_num.specs.Norm.{product_sum};
ghost use Rattle.fixed_num.specs.Relaxation.{relaxed, within};
ghost use Rattle.waveform.specs.IsWave.{times};
ghost use Rattle.waveform.specs.Between.{IsBetween};
ghost use Rattle.acceleration.specs.Exchanged.{Exchanged};
ghost use Rattle.acceleration.specs.RelaxedWaves.{relaxed_wave, relaxed_waves};
ghost use Rattle.acceleration.specs.RelaxerState.{RelaxerState};
ghost use Rattle.acceleration.specs.Outside.{Location, first_outside, located};
ghost use Rattle.acceleration.specs.Overflows.{IsInRange, IsFirstOverflow};
ghost use Rattle.acceleration.specs.RelaxedIterate.{Iterate, waves_of, relaxed_iterate};
ghost use Rattle.acceleration.specs.Factors.{factor_after};
ghost use Rattle.acceleration.specs.BestPart.{HasChanged, expected_square, best_part};
ghost use Rattle.acceleration.specs.Laws.{IsPart, ReadsAsMany, IsFixedPoint, HasValues};

/// There is one relaxed wave per exchange, and it keeps the posted times, components and numbers of
/// samples.
pub fn relaxed_waves_keep_shape()
    ensures count { (exchanges : List Exchanged) (factor : ℤ)
        → length (relaxed_waves factor exchanges) ≡ length exchanges }
    ensures times { (e : Exchanged) (factor : ℤ) → times (relaxed_wave factor e) ≡ times e.posted }
    ensures components { (e : Exchanged) (factor : ℤ)
        → map (λ s. s.field.components) (relaxed_wave factor e) ≡ map (λ s. s.field.components) e.posted }
{}

/// Relaxation by the factor one gives what was posted.
pub fn one_passes_on()
    ensures value { (x y : ℤ) → relaxed x y (pos (10 ^ 6)) ≡ y }
    ensures wave { (e : Exchanged) → ReadsAsMany e → relaxed_wave (pos (10 ^ 6)) e ≡ e.posted }
{}

/// A fixed point stays one, whatever the factor.
pub fn fixed_point_stays()
    ensures value { (x factor : ℤ) → relaxed x x factor ≡ x }
    ensures wave { (e : Exchanged) (factor : ℤ) → IsFixedPoint e → relaxed_wave factor e ≡ e.posted }
{}

/// An iterate is undefined at its first value that is no Value: what stands there is none, and every
/// value of an earlier exchange, of an earlier time of its exchange and of an earlier component is one.
/// Where it is defined it has the relaxed waves, and all their values are Values.
pub fn undefined_at_the_first_overflow()
    ensures undefined { (state : RelaxerState) (exchanges : List Exchanged) (at : Location)
        → relaxed_iterate state exchanges ≡ Err at → IsFirstOverflow (waves_of state exchanges) at }
    ensures waves { (state : RelaxerState) (exchanges : List Exchanged) (iterate : Iterate)
        → relaxed_iterate state exchanges ≡ Ok iterate → iterate.waves ≡ waves_of state exchanges }
    ensures defined { (state : RelaxerState) (exchanges : List Exchanged) (iterate : Iterate)
        → relaxed_iterate state exchanges ≡ Ok iterate → All (All IsInRange) iterate.waves }
{}

/// By a factor between zero and one a relaxed value lies between what was read and what was posted,
/// so that no relaxed value is out of range.
pub fn part_lies_between()
    ensures between { (x y factor : ℤ) → IsPart factor → IsBetween x y (relaxed x y factor) }
    ensures in_range { (x y factor : ℤ) → IsPart factor → IsValue x → IsValue y → IsValue (relaxed x y factor) }
    ensures defined { (exchanges : List Exchanged) (factor : ℤ) → IsPart factor → All HasValues exchanges
        → first_outside (located (relaxed_waves factor exchanges)) ≡ None }
{}

/// Aitken's factor is the last factor times the part of the last step that leaves the least residual.
///
/// By the last step the residual changed from `before` by `change`. Were it to change in proportion,
/// a part of that step would leave `before` and so much of `change`. Of all parts within a million,
/// in whole millionths, `best_part` leaves the least sum of squares: it is rounded, and no other whole
/// number leaves less. The next factor is so many millionths of the last one, rounded, within the
/// Factors; it is the last one where nothing has changed. It does not change its sign where the change
/// went against the residual, and does not keep it where the change went with the residual; that is
/// told by the sign of their sum of products.
pub fn aitken_leaves_the_least_residual()
    ensures least { (before change : List ℤ) (part : ℤ) → length before ≡ length change
        → HasChanged change → unsigned_abs part ≤ 10 ^ 12
        → expected_square before change (best_part before change) ≤ expected_square before change part }
    ensures factor { (factor : ℤ) (before change : List ℤ) → HasChanged change
        → factor_after factor before change
        ≡ within (10 ^ 9) (quotient (factor *ℤ best_part before change) (10 ^ 6)) }
    ensures stays { (factor : ℤ) (before change : List ℤ) → ¬ HasChanged change
        → factor_after factor before change ≡ factor }
    ensures kept { (factor : ℤ) (before change : List ℤ) → product_sum before change ≤ℤ pos 0
        → pos 0 ≤ℤ (factor *ℤ factor_after factor before change) }
    ensures turned { (factor : ℤ) (before change : List ℤ) → HasChanged change
        → pos 0 ≤ℤ product_sum before change
        → (factor *ℤ factor_after factor before change) ≤ℤ pos 0 }
{}
