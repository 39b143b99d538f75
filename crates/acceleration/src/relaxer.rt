ghost use Rattle.std.specs.Prelude.{◌≡◌, ◌≢◌, ◌↔◌, ◌≤◌, ℕ, length, sum_by, All, IfOk, IfSome, OnOk, OnErr};
ghost use Rattle.acceleration.specs.Exchanged.{exchanged, CanRelax};
ghost use Rattle.acceleration.specs.Residual.{width, residual};
ghost use Rattle.acceleration.specs.RelaxerState.{method_of, fresh, RemembersAsMany};
ghost use Rattle.acceleration.specs.Factors.{aitken_by, factor_by, memory_by};
ghost use Rattle.acceleration.specs.RelaxedIterate.{relaxed_iterate};

use crate::error::AccErr;
use crate::factor::{next_factor, one};
use crate::method::Method;
use crate::residual::{Remembered, Residual};
use crate::waves::relaxed_waves;
use cpl_plan::Accel;
use fixed_num::{Factor, Memory};
use std::alloc::Global;
use std::marker::Model;
use waveform::Wave;

/// Relaxes the iterations of an implicit scheme, window by window: what a scheme reads next lies from
/// what it has read towards what was posted, by the factor of the iteration.
///
/// Contracts see its method and what it remembers of the iteration before in the same window.
#[derive(Debug, Drop)]
pub struct Relaxer {
    method: Method,
    memory: Option<Remembered>,
    alloc: Global,
}

impl Model for Relaxer {
    ghost use Rattle.acceleration.specs.RelaxerState.{RelaxerState};

    ghost Value = { RelaxerState };

    ghost view = { λ r. record { method = r.method; memory = r.memory } };
}

impl Relaxer {
    /// The relaxer of an acceleration, at the beginning of a window. It keeps `alloc`, from which each
    /// iteration takes its room.
    pub fn new(alloc: Global, accel: &Accel) -> Result<Relaxer, Memory>
        ensures { IfOk result (λ relaxer. relaxer ≡ fresh (method_of accel.now)) }
    {
        Ok(Relaxer {
            method: Method::of(accel),
            memory: None,
            alloc,
        })
    }

    /// Begins a window: nothing is remembered.
    pub fn restart(&mut self)
        ensures { self.new ≡ fresh self.old.method }
    {
        self.memory = None;
    }

    /// The relaxed waves of an iteration, one for each accelerated exchange in their order: from the
    /// degree of each, the wave that was read in the iteration and the wave that was posted.
    ///
    /// At most 256 exchanges and 200,000 values at one time in all, as many at each call of a window. An
    /// exchange's waves are of one shape, and the one that was read has a value at each posted time.
    ///
    /// `Overflow` names the first value that is out of range, by exchange, then time, then component.
    /// After an error the relaxer is as before.
    pub fn relax_waves(
        &mut self,
        degrees: &[u32],
        read: &[Wave],
        posted: &[Wave],
    ) -> Result<Vec<Wave>, AccErr>
        requires few_exchanges { length posted.now ≤ 256 }
        requires one_degree { length degrees.now ≡ length posted.now }
        requires one_read { length read.now ≡ length posted.now }
        requires exchanges { All CanRelax (exchanged degrees.now read.now posted.now) }
        requires few_values { sum_by width posted.now ≤ 200000 }
        requires same_values { RemembersAsMany self.old (sum_by width posted.now) }
        ensures iterate { IfOk result (λ waves.
            relaxed_iterate self.old (exchanged degrees.now read.now posted.now)
            ≡ Ok (record { waves = waves.items; next = self.new })) }
        ensures count { IfOk result (λ waves. length waves.items ≡ length posted.now) }
        ensures remembers { OnOk result (RemembersAsMany self.new (sum_by width posted.now)) }
        ensures overflow { result ≢ Err AccErr.Memory → (place time component : ℕ)
            → (result ≡ Err (AccErr.Overflow place time component))
            ↔ (relaxed_iterate self.old (exchanged degrees.now read.now posted.now)
            ≡ Err (record { place = place; time = time; component = component })) }
        ensures unchanged { OnErr result (self.new ≡ self.old) }
    {
        let (alloc, method, before) = (self.alloc, &self.method, &self.memory);
        let (factor, memory) = factor_and_memory(alloc, method, before, degrees, read, posted)?;
        let waves = relaxed_waves(alloc, factor, degrees, read, posted)?;
        self.memory = memory;
        Ok(waves)
    }
}

/// The factor of an iteration, and what is remembered after it.
fn factor_and_memory(
    alloc: Global,
    method: &Method,
    memory: &Option<Remembered>,
    degrees: &[u32],
    read: &[Wave],
    posted: &[Wave],
) -> Result<(Factor, Option<Remembered>), Memory>
    requires one_degree { length degrees.now ≡ length posted.now }
    requires one_read { length read.now ≡ length posted.now }
    requires exchanges { All CanRelax (exchanged degrees.now read.now posted.now) }
    requires few { sum_by width posted.now ≤ 200000 }
    requires same { IfSome memory.now (λ last. length last.residual ≡ sum_by width posted.now) }
    ensures factor { IfOk result (λ both. both.0
        ≡ factor_by method.now memory.now (residual (exchanged degrees.now read.now posted.now))) }
    ensures memory { IfOk result (λ both. both.1
        ≡ memory_by method.now memory.now (residual (exchanged degrees.now read.now posted.now))) }
    ensures len { IfOk result (λ both. IfSome both.1 (λ last. length last.residual ≡ sum_by width posted.now)) }
{
    match method {
        Method::Plain => Ok((one(), None)),
        Method::Constant { factor } => Ok((*factor, None)),
        Method::Aitken { first } => {
            let now = aitken_memory(alloc, *first, memory, degrees, read, posted)?;
            Ok((now.factor, Some(now)))
        }
    }
}

/// What Aitken's method remembers after an iteration: its residual, and its factor.
fn aitken_memory(
    alloc: Global,
    first: Factor,
    memory: &Option<Remembered>,
    degrees: &[u32],
    read: &[Wave],
    posted: &[Wave],
) -> Result<Remembered, Memory>
    requires one_degree { length degrees.now ≡ length posted.now }
    requires one_read { length read.now ≡ length posted.now }
    requires exchanges { All CanRelax (exchanged degrees.now read.now posted.now) }
    requires few { sum_by width posted.now ≤ 200000 }
    requires same { IfSome memory.now (λ last. length last.residual ≡ sum_by width posted.now) }
    ensures residual { IfOk result (λ now. now.residual ≡ residual (exchanged degrees.now read.now posted.now)) }
    ensures len { IfOk result (λ now. length now.residual ≡ sum_by width posted.now) }
    ensures factor { IfOk result (λ now. now.factor
        ≡ aitken_by first memory.now (residual (exchanged degrees.now read.now posted.now))) }
{
    let residual = Residual::of(alloc, degrees, read, posted)?;
    let factor = match memory {
        None => first,
        Some(last) => next_factor(alloc, last, &residual)?,
    };
    Ok(Remembered { residual, factor })
}
