//! What is true of the definitions alone.

ghost use Rattle.std.specs.Prelude.{◌≡◌, ℤ, List, length};
ghost use Rattle.fixed_num.specs.Norm.{square_distance};

/// Between points of one space the square distance is the same both ways, and zero between equal
/// points and no others.
pub fn distance_tells_apart()
    ensures symmetric { (a b : List ℤ) → square_distance a b ≡ square_distance b a }
    ensures itself { (a : List ℤ) → square_distance a a ≡ 0 }
    ensures apart { (a b : List ℤ) → length a ≡ length b → square_distance a b ≡ 0 → a ≡ b }
{}
