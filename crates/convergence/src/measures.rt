ghost use Rattle.std.specs.Prelude.{◌≡◌, ◌≤◌, ◌<◌, length, slice_get};
ghost use Rattle.std.specs.List.{list_all, list_any};
ghost use Rattle.convergence.specs.Holds.{holds};
ghost use Rattle.convergence.specs.Verdict.{are_met, first_failing, is_sufficient, verdict};

use crate::measured::Measured;
use cpl_plan::{Measure, Verdict};
use std::marker::Model;

/// The measures of a scheme with their norms, which contracts see as one list.
#[derive(Drop)]
pub struct Measures<'a> {
    pub(crate) measures: &'a [Measure],
    pub(crate) norms: &'a [u64],
    pub(crate) sizes: &'a [u64],
    pub(crate) firsts: &'a [u64],
}

impl<'a> Model for Measures<'a> {
    ghost use Rattle.std.specs.Prelude.{List};
    ghost use Rattle.convergence.specs.declared.measured.Measured.{Measured};
    ghost use Rattle.convergence.specs.Holds.{measured, OneForEach};

    ghost Value = { List Measured };

    ghost view = { λ m. measured m.measures.now m.norms.now m.sizes.now m.firsts.now };

    ghost invariant = { λ m. OneForEach m.measures.now m.norms.now m.sizes.now m.firsts.now };
}

impl<'a> Measures<'a> {
    /// The verdict of iteration k.
    pub fn verdict(&self, k: u32, min: u32, max: u32) -> Verdict
        ensures { result ≡ verdict self.now k min max }
    {
        if min <= k && self.are_met() {
            return Verdict::Converged;
        }
        if k != max {
            return Verdict::Again;
        }
        match self.first_failing() {
            Some(measure) => Verdict::NotConverged { measure },
            None => Verdict::AtLimit,
        }
    }

    fn are_met(&self) -> bool
        ensures { result ≡ are_met self.now }
    {
        self.one_suffices() || self.all_hold()
    }

    /// Whether a measure that suffices holds.
    fn one_suffices(&self) -> bool
        ensures { result ≡ list_any is_sufficient self.now }
    {
        for place in 0..self.len() {
            if self.at(place).is_sufficient() {
                return true;
            }
        }
        false
    }

    fn all_hold(&self) -> bool
        ensures { result ≡ list_all holds self.now }
    {
        for place in 0..self.len() {
            if !self.at(place).holds() {
                return false;
            }
        }
        true
    }

    /// The place of the first strict measure that does not hold.
    fn first_failing(&self) -> Option<u32>
        ensures { result ≡ first_failing self.now }
    {
        for place in 0..self.len() {
            if self.at(place).is_failing() {
                return Some(place as u32);
            }
        }
        None
    }

    fn len(&self) -> usize
        ensures count { result ≡ length self.now }
        ensures few { result ≤ 16 }
    {
        self.measures.len()
    }

    fn at(&self, place: usize) -> Measured
        requires { place < length self.now }
        ensures { slice_get self.now place ≡ Some result }
    {
        let measures = self.measures;
        Measured {
            measure: measures[place],
            change: self.norms[place],
            size: self.sizes[place],
            first: self.firsts[place],
        }
    }
}
