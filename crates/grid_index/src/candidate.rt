ghost use Rattle.std.specs.Prelude.{◌≡◌, ◌↔◌, ◌⊎◌, ℕ, ◌<◌, ◌^◌, IsTrue};
ghost use Rattle.grid_index.specs.Candidates.{rank, IsWithin};

use crate::steps::Steps;

/// A vertex that may be the nearest, and the square of its distance.
#[derive(Clone, Copy)]
pub(crate) struct Candidate {
    pub(crate) distance: u128,
    pub(crate) vertex: u32,
}

/// What a search has found so far, and how many steps it took.
#[derive(Clone, Copy)]
pub(crate) struct Search {
    pub(crate) best: Option<Candidate>,
    pub(crate) steps: Steps,
}

impl Candidate {
    /// Whether it is nearer than another, or as near with a lower number.
    fn goes_before(&self, other: &Candidate) -> bool
        requires one { self.now.vertex < 2 ^ 32 }
        requires two { other.now.vertex < 2 ^ 32 }
        ensures { IsTrue result
            ↔ (rank self.now.distance self.now.vertex < rank other.now.distance other.now.vertex) }
    {
        self.distance < other.distance
            || self.distance == other.distance && self.vertex < other.vertex
    }
}

/// The better of the best so far and another candidate.
pub(crate) fn better(best: Option<Candidate>, other: Candidate) -> Option<Candidate>
    ensures one { (result ≡ best) ⊎ (result ≡ Some other) }
    ensures kept { (most : ℕ) → IsWithin best most → IsWithin result most }
    ensures other { IsWithin result (rank other.distance other.vertex) }
{
    match best {
        Some(candidate) if !other.goes_before(&candidate) => Some(candidate),
        _ => Some(other),
    }
}
