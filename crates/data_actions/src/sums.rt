ghost use Rattle.std.specs.Prelude.{◌≡◌, ◌^◌, ◌<◌, length, All};
ghost use Rattle.fixed_num.specs.Numbers.{IsValue, is_value};
ghost use Rattle.fixed_num.specs.Relaxation.{within};
ghost use Rattle.data_actions.specs.Totals.{total};
ghost use Rattle.data_actions.specs.Fit.{totals_fit, fit};
ghost use Rattle.data_actions.specs.SummedValues.{makes, made_at, summed};
ghost use Rattle.data_actions.specs.SoundSums.{IsSumOf, AreSums};

use fixed_num::{Items, value_of};

/// The greatest absolute value of a Value, in units.
const VALUE_LIMIT: i128 = 10_000_000_000_000;

/// A sum of written values, vertex by vertex and component by component.
///
/// Places count the values that a solver writes, from 0. The value at `target + k` becomes the sum
/// of those at `source + k`, for each `k` below `length`.
#[derive(Debug, Drop)]
pub struct Sum {
    /// The first place that is written.
    pub target: u32,
    /// The first place of each source; at most 64.
    pub sources: Items<u32>,
    /// How many values are summed.
    pub length: u32,
}

/// Whether each total of each sum is a Value.
pub(crate) fn all_fit(sums: &[Sum], values: &[i64]) -> bool
    requires sums { All (IsSumOf (length values.now)) sums.now }
    requires values { All IsValue values.now }
    ensures { result ≡ fit sums.now values.now }
{
    for sum in sums {
        if !totals_fit(sum, values) {
            return false;
        }
    }
    true
}

fn totals_fit(sum: &Sum, values: &[i64]) -> bool
    requires sum { IsSumOf (length values.now) sum.now }
    requires values { All IsValue values.now }
    ensures { result ≡ totals_fit sum.now values.now }
{
    for offset in 0..sum.length {
        if !is_value(total_at(sum, values, offset as usize)) {
            return false;
        }
    }
    true
}

/// Makes the value at each place of a target the total, or the Value that is nearest to it.
pub(crate) fn add_up(sums: &[Sum], values: &mut [i64])
    requires sums { AreSums (length values.old) sums.now }
    requires values { All IsValue values.old }
    ensures summed { values.new ≡ summed sums.now values.old }
    ensures values { All IsValue values.new }
{
    for place in 0..values.len() {
        values[place] = made_at(sums, values, place);
    }
}

/// What is to stand at the place.
fn made_at(sums: &[Sum], values: &[i64], place: usize) -> i64
    requires sums { All (IsSumOf (length values.now)) sums.now }
    requires values { All IsValue values.now }
    requires place { place < length values.now }
    ensures made { result ≡ made_at sums.now values.now place }
    ensures value { IsValue result }
{
    for sum in sums {
        if makes(sum, place) {
            return nearest_value(total_at(sum, values, place - sum.target as usize));
        }
    }
    values[place]
}

/// Whether the place is one of the sum's target.
fn makes(sum: &Sum, place: usize) -> bool
    ensures { result ≡ makes place sum.now }
{
    let first = sum.target as usize;
    first <= place && place < first + sum.length as usize
}

/// The sum of the values so many places after the first of each source, in units: at most 64 times
/// 10^13.
fn total_at(sum: &Sum, values: &[i64], offset: usize) -> i128
    requires sum { IsSumOf (length values.now) sum.now }
    requires values { All IsValue values.now }
    requires offset { offset < sum.now.length }
    ensures { result ≡ total sum.now values.now offset }
{
    let sources = sum.sources.as_slice();
    let mut so_far = 0;
    for source in sources {
        so_far += i128::from(values[*source as usize + offset]);
    }
    so_far
}

fn is_value(units: i128) -> bool
    ensures { result ≡ is_value units }
{
    value_of(units).is_some()
}

/// The Value that is nearest to so many units.
fn nearest_value(units: i128) -> i64
    ensures nearest { result ≡ within (10 ^ 13) units }
    ensures value { IsValue result }
{
    units.clamp(-VALUE_LIMIT, VALUE_LIMIT) as i64
}
