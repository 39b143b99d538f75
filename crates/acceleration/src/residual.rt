ghost use Rattle.std.specs.Prelude.{◌≡◌, ◌≤◌, ◌-ℤ◌, ◌++◌, length, sum_by, All, IfOk, OnOk};
ghost use Rattle.fixed_num.specs.Numbers.{IsValue};
ghost use Rattle.acceleration.specs.Differences.{IsDifference};
ghost use Rattle.acceleration.specs.Exchanged.{exchange_of, exchanged, CanRelax};
ghost use Rattle.acceleration.specs.Residual.{less, width, end_difference, residual};

use fixed_num::{Factor, Memory, Value};
use std::alloc::Global;
use std::marker::Model;
use waveform::Wave;

/// What was posted at the window's end less what was read there, over the accelerated exchanges in
/// order, in units. Contracts see it as the list of these differences.
#[derive(Debug, Drop)]
pub struct Residual {
    entries: Vec<i64>,
}

/// What Aitken's method remembers of an iteration.
#[derive(Debug, Drop)]
pub struct Remembered {
    pub residual: Residual,
    /// The factor by which the iteration was relaxed.
    pub factor: Factor,
}

impl Model for Residual {
    ghost use Rattle.std.specs.Prelude.{List, ℤ, All};
    ghost use Rattle.acceleration.specs.Differences.{IsDifference};

    ghost Value = { List ℤ };

    ghost view = { λ r. r.entries.items };

    ghost invariant = { λ r. All IsDifference r.entries.items };
}

impl Residual {
    /// The residual of an iteration, from what was read and what was posted on each exchange.
    pub(crate) fn of(
        alloc: Global,
        degrees: &[u32],
        read: &[Wave],
        posted: &[Wave],
    ) -> Result<Residual, Memory>
        requires one_degree { length degrees.now ≡ length posted.now }
        requires one_read { length read.now ≡ length posted.now }
        requires exchanges { All CanRelax (exchanged degrees.now read.now posted.now) }
        requires few { sum_by width posted.now ≤ 200000 }
        ensures residual { IfOk result (λ r. r ≡ residual (exchanged degrees.now read.now posted.now)) }
        ensures len { IfOk result (λ r. length r ≡ sum_by width posted.now) }
    {
        let mut entries = Vec::with_capacity(alloc, total_width(posted))?;
        for place in 0..posted.len() {
            let (wave, from) = (&posted[place], &read[place]);
            push_end_difference(alloc, degrees[place], from, wave, &mut entries)?;
        }
        Ok(Residual { entries })
    }

    /// The differences.
    pub(crate) fn entries(&self) -> &[i64]
        ensures entries { result.now ≡ self.now }
        ensures small { All IsDifference self.now }
    {
        self.entries.as_slice()
    }
}

/// How many values the waves have at one time, in all.
fn total_width(waves: &[Wave]) -> usize
    requires { sum_by width waves.now ≤ 200000 }
    ensures { result ≡ sum_by width waves.now }
{
    let mut total = 0;
    for wave in waves {
        total += width(wave);
    }
    total
}

/// How many values a wave has at one time.
pub(crate) fn width(wave: &Wave) -> usize
    ensures { result ≡ width wave.now }
{
    wave.field(wave.len() - 1).values.len()
}

/// Pushes what was posted at the window's end less what was read there.
fn push_end_difference(
    alloc: Global,
    degree: u32,
    read: &Wave,
    posted: &Wave,
    entries: &mut Vec<i64>,
) -> Result<(), Memory>
    requires { CanRelax (exchange_of degree read.now posted.now) }
    ensures pushed { OnOk result (entries.new.items ≡ entries.old.items
        ++ end_difference (exchange_of degree read.now posted.now)) }
    ensures small { OnOk result (All IsDifference (end_difference (exchange_of degree read.now posted.now))) }
    ensures len { OnOk result (length (end_difference (exchange_of degree read.now posted.now)) ≡ width posted.now) }
{
    let last = posted.len() - 1;
    let mut at_end = vec![in alloc; 0; width(posted)]?;
    read.read_at(degree, posted.time(last), &mut at_end);
    push_less(posted.field(last).values.as_slice(), &at_end, entries)
}

/// Pushes the one list less the other, entry by entry.
fn push_less(posted: &[Value], read: &[i64], entries: &mut Vec<i64>) -> Result<(), Memory>
    requires len { length read.now ≡ length posted.now }
    requires in_range { All IsValue read.now }
    ensures pushed { OnOk result (entries.new.items ≡ entries.old.items ++ less posted.now read.now) }
    ensures small { OnOk result (All IsDifference (less posted.now read.now)) }
{
    for i in 0..posted.len() {
        entries.push(difference(posted[i], read[i]))?;
    }
    Ok(())
}

/// What was posted less what was read.
fn difference(posted: Value, read: i64) -> i64
    requires { IsValue read }
    ensures value { result ≡ posted -ℤ read }
    ensures small { IsDifference result }
{
    posted.get() - read
}
